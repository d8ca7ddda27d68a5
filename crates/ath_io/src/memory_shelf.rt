// A shelf in memory.
ghost use Rattle.std.specs.Prelude.{◌≡◌, ◌≤◌, map, take, string_bytes, Some, IfOk, IsErrOf, vec_len};
ghost use Rattle.std.specs.Option.{option_copied};
ghost use Rattle.ath_io.specs.declared.shelf.FetchError.TheVariants.{Failed};
ghost use Rattle.ath_io.specs.Faults.{Rose};
ghost use Rattle.ath_io.specs.Shelf.{text_named, after_fetch, IsFetched};
ghost use Rattle.ath_io.specs.MemoryShelf.{entries, new_shelf, FetchesFromMemory};

use crate::shelf::{FetchError, Shelf};
use std::alloc::{AllocError, Global};
use std::marker::Model;

/// Texts by name, with the numbers of the fetches that fail. It tells all that it holds.
#[derive(Drop)]
pub struct MemoryShelf {
    texts: Vec<(String, Vec<u8>)>,
    failing: Vec<usize>,
    asked: Vec<String>,
    faults: u64,
}

impl Model for MemoryShelf {
    ghost use Rattle.std.specs.Prelude.{map, string_bytes};
    ghost use Rattle.ath_io.specs.MemoryShelf.{ShelfState, entries};

    ghost Value = { ShelfState };

    ghost view = { λ s. record {
      told = record { texts = entries s.texts.items; asked = map string_bytes s.asked.items };
      failing = s.failing.items;
      faults = s.faults;
    } };
}

impl MemoryShelf {
    /// A shelf of these texts, of which the first of a name counts. The fetches of these numbers
    /// fail, where the first fetch is number 1.
    pub fn new(alloc: Global, texts: Vec<(String, Vec<u8>)>, failing: Vec<usize>) -> Self
        ensures { result ≡ new_shelf (entries texts.items) failing.items }
    {
        MemoryShelf {
            texts,
            failing,
            asked: Vec::new(alloc),
            faults: 0,
        }
    }

    /// How often a fetch has failed.
    pub fn faults(&self) -> u64
        ensures { result ≡ self.now.faults }
    {
        self.faults
    }

    /// The names of the fetches so far, in order; those refused for want of memory left out.
    pub fn asked(&self) -> &Vec<String>
        ensures { map string_bytes result.now.items ≡ self.now.told.asked }
    {
        &self.asked
    }
}

// The text of this name; of two with one name the first.
fn text_of<'a>(texts: &'a [(String, Vec<u8>)], name: &str) -> Option<&'a [u8]>
    ensures { option_copied result ≡ text_named (entries texts.now) name.now }
{
    for text in texts {
        if text.0.as_str() == name {
            return Some(text.1.as_slice());
        }
    }
    None
}

// At most `most` bytes from the beginning.
fn front(alloc: Global, text: &[u8], most: usize) -> Result<Vec<u8>, AllocError>
    ensures { IfOk result (λ bytes. bytes.items ≡ take most text.now) }
{
    text[..text.len().min(most)].to_vec(alloc)
}

impl Shelf for MemoryShelf {
    ghost told = { λ s. Some s.told };

    ghost faults = { λ s. s.faults };

    fn fetch(&mut self, alloc: Global, name: &str, most: usize) -> Result<Vec<u8>, FetchError>
        ensures bound { IfOk result (λ bytes. vec_len bytes ≤ most) }
        ensures asked { Some self.new.told ≡ after_fetch (Some self.old.told) name.now result }
        ensures content { IfOk result (λ bytes.
            IsFetched (Some self.old.told) name.now most bytes.items) }
        ensures later { self.old.faults ≤ self.new.faults }
        ensures cause { IsErrOf result Failed → Rose self.old.faults self.new.faults }
        ensures exact { FetchesFromMemory self.old name.now most result self.new }
    {
        let number = self.asked.len() + 1;
        let text = if self.failing.contains(&number) {
            None
        } else {
            text_of(&self.texts, name)
        };
        let answer = match text {
            Some(text) => Some(front(alloc, text, most).map_err(|_| FetchError::Memory)?),
            None => None,
        };
        let name = String::from_str(alloc, name).map_err(|_| FetchError::Memory)?;
        self.asked.push(name).map_err(|_| FetchError::Memory)?;
        match answer {
            Some(bytes) => Ok(bytes),
            None => {
                self.faults = self.faults.saturating_add(1);
                Err(FetchError::Failed)
            }
        }
    }
}
