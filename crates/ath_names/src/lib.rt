//! Names and their numbers: a table of texts that only grows.
#![tactic(auto)]

ghost use Rattle.std.specs.Prelude.{◌≡◌, ◌<◌, [], Some, length, slice_get, map, fold, OnOk, MatchResult};
ghost use Rattle.ath_names.specs.Names.{number_of, interned, numbered, first_names, Adds, Interns, IsTable};

pub mod limits;

use indexmap::IndexSet;
pub use limits::MOST_NAME_BYTES;
use std::alloc::{AllocError, Global};
use std::marker::Model;
use thiserror::Error;

/// Why a text gets no number.
#[derive(Debug, Drop, Error)]
pub enum NameError {
    #[error("a name has at most 200 bytes")]
    TooLong,
    #[error("out of memory")]
    Memory,
}

/// A table of names. Contracts see the list of their texts: a name's number is its place there.
#[derive(Drop)]
pub struct Names {
    texts: IndexSet<String>,
}

impl Model for Names {
    ghost use Rattle.std.specs.Prelude.{ℕ, List, map, string_bytes};
    ghost use Rattle.ath_names.specs.Names.{IsTable};

    ghost Value = { List (List ℕ) };

    ghost view = { λ names. map string_bytes names.texts.keys };

    ghost invariant = { λ names. IsTable (map string_bytes names.texts.keys) };
}

const FIXED_WORDS: [&str; 22] = [
    "Boolean",
    "true",
    "false",
    "=",
    "=/=",
    "&",
    "|",
    "~",
    "==>",
    "<==>",
    "not",
    "and",
    "or",
    "if",
    "iff",
    "forall",
    "exists",
    "some-var",
    "some-term",
    "some-sent",
    "some-list",
    "v",
];

impl Names {
    /// The table of the names that every text may use: their numbers are fixed.
    pub fn new(alloc: Global) -> Result<Names, NameError>
        ensures { MatchResult result (λ names. names ≡ first_names) (λ error. error ≡ NameError.Memory) }
    {
        let mut names = Names {
            texts: IndexSet::new(alloc),
        };
        match names.add_first_names(alloc) {
            Ok(()) => Ok(names),
            Err(_) => Err(NameError::Memory),
        }
    }

    /// The number of names.
    pub fn len(&self) -> usize
        ensures count { result ≡ length self.now }
        ensures table { IsTable self.now }
    {
        self.texts.len()
    }

    /// The text of a name.
    pub fn text(&self, number: usize) -> &str
        requires { number < length self.now }
        ensures { slice_get self.now number ≡ Some result.now }
    {
        self.texts.as_slice()[number].as_str()
    }

    /// The number of the name with these bytes. It takes no memory.
    pub fn find(&self, text: &[u8]) -> Option<usize>
        ensures { result ≡ number_of self.now text.now }
    {
        let texts = &self.texts;
        let Ok(text) = str::from_utf8(text) else {
            return None;
        };
        texts.get_index_of(text)
    }

    /// The number of the text, which joins the table where it isn't there yet.
    pub fn intern(&mut self, alloc: Global, text: &str) -> Result<usize, NameError>
        ensures { Interns self.old text.now self.new result }
    {
        if text.len() > MOST_NAME_BYTES {
            return Err(NameError::TooLong);
        }
        match self.add(alloc, text) {
            Ok(number) => Ok(number),
            Err(_) => Err(NameError::Memory),
        }
    }

    // The number of the text, of whatever length.
    fn add(&mut self, alloc: Global, text: &str) -> Result<usize, AllocError>
        ensures { MatchResult result (Adds self.old text.now self.new) (λ _. self.new ≡ self.old) }
    {
        if let Some(number) = self.texts.get_index_of(text) {
            return Ok(number);
        }
        let key = String::from_str(alloc, text)?;
        let (number, _) = self.texts.insert_full(key)?;
        Ok(number)
    }

    fn add_words(&mut self, alloc: Global, words: &[&str]) -> Result<(), AllocError>
        ensures { OnOk result (self.new ≡ fold interned self.old (map (λ word. word.now) words.now)) }
    {
        for word in words {
            self.add(alloc, word)?;
        }
        Ok(())
    }

    fn add_numbered(&mut self, alloc: Global, stem: &str, count: u64) -> Result<(), AllocError>
        ensures { OnOk result (self.new ≡ fold interned self.old (numbered stem.now count)) }
    {
        for number in 0..count {
            let text = format!(in alloc; "{stem}{}", number + 1)?;
            self.add(alloc, text.as_str())?;
        }
        Ok(())
    }

    fn add_first_names(&mut self, alloc: Global) -> Result<(), AllocError>
        requires { self.old ≡ [] }
        ensures { OnOk result (self.new ≡ first_names) }
    {
        self.add_words(alloc, &FIXED_WORDS)?;
        self.add_numbered(alloc, "x", 64)?;
        self.add_numbered(alloc, "y", 64)?;
        Ok(())
    }
}

#[cfg(test)]
mod tests {
    use super::*;
    use std::test::Fail;

    #[test]
    fn names_and_numbers(rt: HostRuntime) -> Result<(), Fail> {
        let mut names = Names::new(rt.alloc())?;
        let firsts = names.len();
        assert_eq!(rt; firsts, 150);
        for (text, number) in [
            ("Boolean", 0),
            ("=", 3),
            ("some-list", 20),
            ("v", 21),
            ("x1", 22),
            ("x64", 85),
            ("y1", 86),
            ("y64", 149),
        ] {
            assert_eq!(rt; names.find(text.as_bytes()), Some(number));
            assert_eq!(rt; names.intern(rt.alloc(), text)?, number);
        }
        assert_eq!(rt; names.find(b"x0"), None);
        assert_eq!(rt; names.find(b"x65"), None);
        assert_eq!(rt; names.find(b"\xff"), None);
        let nat = names.intern(rt.alloc(), "Nat")?;
        assert_eq!(rt; nat, firsts);
        assert_eq!(rt; names.intern(rt.alloc(), "Nat")?, nat);
        assert_eq!(rt; names.find(b"Nat"), Some(nat));
        assert!(rt; nat < names.len());
        assert_eq!(rt; names.text(nat), "Nat");
        Ok(())
    }

    #[test]
    fn longest_name(rt: HostRuntime) -> Result<(), Fail> {
        let mut names = Names::new(rt.alloc())?;
        let mut text = String::new(rt.alloc());
        for _ in 0..200 {
            text.push('n')?;
        }
        assert_eq!(rt; names.intern(rt.alloc(), text.as_str())?, 150);
        text.push('n')?;
        assert!(rt;
            matches!(
                names.intern(rt.alloc(), text.as_str()),
                Err(NameError::TooLong)
            )
        );
        assert_eq!(rt; names.find(text.as_bytes()), None);
        Ok(())
    }
}
