// The texts of strings.

ghost use Rattle.std.specs.Prelude.{◌≡◌, [], string_bytes, IfOk};

use std::alloc::{AllocError, Global};
use std::marker::Model;

/// The text of a string. Contracts see its bytes.
#[derive(Debug, Drop)]
pub struct Text {
    string: String,
}

impl Model for Text {
    ghost use Rattle.std.specs.Prelude.{ℕ, List, string_bytes};

    ghost Value = { List ℕ };

    ghost view = { λ t. string_bytes t.string };
}

impl Text {
    /// The text of a string.
    pub fn new(string: String) -> Text
        ensures { result ≡ string_bytes string }
    {
        Text { string }
    }

    /// The text with nothing in it.
    pub fn empty(alloc: Global) -> Text
        ensures { result ≡ [] }
    {
        Text::new(String::new(alloc))
    }

    /// The same text once more.
    pub fn copy(&self, alloc: Global) -> Result<Text, AllocError>
        ensures { IfOk result (λ t. t ≡ self.now) }
    {
        let string = String::from_str(alloc, self.as_str())?;
        Ok(Text::new(string))
    }

    pub fn as_str(&self) -> &str
        ensures { result.now ≡ self.now }
    {
        self.string.as_str()
    }
}
