// The value that a name finds.

ghost use Rattle.std.specs.Prelude.{◌≡◌, Option, map};
ghost use Rattle.std.specs.Map.{lookup};
ghost use Rattle.std.specs.Str.{bytes_eq};
ghost use Rattle.ath_terms.specs.Trees.{Trees};
ghost use Rattle.ath_env.specs.LookUp.{looked_up, first_values, text_of};
ghost use Rattle.ath_env.specs.Stands.{IsFound};

use crate::value::Value;
use ath_names::Names;
use ath_sorts::{Signature, Sym};
use ath_trees::{Conn, Quant};

const FIRST_VALUES: [(&str, Value); 11] = [
    ("claim", Value::PrimMethod(0)),
    ("mp", Value::PrimMethod(1)),
    ("not", Value::Conn(Conn::Not)),
    ("and", Value::Conn(Conn::And)),
    ("or", Value::Conn(Conn::Or)),
    ("if", Value::Conn(Conn::If)),
    ("iff", Value::Conn(Conn::Iff)),
    ("forall", Value::Quant(Quant::Forall)),
    ("exists", Value::Quant(Quant::Exists)),
    ("=", Value::Symbol(Sym(3))),
    ("<==", Value::Back),
];

fn find_in(table: &[(&str, Value)], text: &str) -> Option<Value>
    ensures { result ≡ lookup (bytes_eq text.now) (map (λ row. (row.0.now, row.1)) table.now) }
{
    for (word, value) in table {
        if text == *word {
            return Some(*value);
        }
    }
    None
}

// None of these values has a term or a sentence, so it stands for the same in every store.
fn first_value(text: &str) -> Option<Value>
    ensures { (s : Trees) → IsFound s result (lookup (bytes_eq text.now) first_values) }
{
    find_in(&FIRST_VALUES, text)
}

/// The text of a name: none where the table lacks it.
pub fn text_of(names: &Names, name: Sym) -> &str
    ensures { result.now ≡ text_of names.now name }
{
    if name.0 < names.len() {
        return names.text(name.0);
    }
    ""
}

/// The value that a name finds: a declared symbol, or what every script begins with under this name.
pub fn look_up(names: &Names, sig: &Signature, name: Sym) -> Option<Value>
    ensures { (s : Trees) → IsFound s result (looked_up names.now sig.now name) }
{
    if sig.symbol(name).is_some() {
        return Some(Value::Symbol(name));
    }
    first_value(text_of(names, name))
}
