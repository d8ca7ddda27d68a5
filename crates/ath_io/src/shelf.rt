// Texts by name.
ghost use Rattle.std.specs.Prelude.{◌≡◌, ◌≤◌, ℕ, Option, IfOk, IsErrOf, vec_len};
ghost use Rattle.ath_io.specs.declared.shelf.FetchError.TheVariants.{Failed};
ghost use Rattle.ath_io.specs.Faults.{Rose};
ghost use Rattle.ath_io.specs.Shelf.{Texts, after_fetch, IsFetched};

use std::alloc::Global;
use thiserror::Error;

/// Why a shelf gave no text.
#[derive(Debug, Drop, Error)]
pub enum FetchError {
    /// The text isn't there, or can't be read.
    #[error("the text can't be read")]
    Failed,
    #[error("out of memory")]
    Memory,
}

/// A store of texts by name, from which one is fetched at a time.
pub trait Shelf {
    /// The texts and the names asked so far, where the shelf tells them.
    ghost told: { Self → Option Texts };

    /// How often a fetch has failed, up to the last value of a count of 64 bits.
    ghost faults: { Self → ℕ };

    /// At most `most` bytes of the text of this name, from its beginning.
    fn fetch(&mut self, alloc: Global, name: &str, most: usize) -> Result<Vec<u8>, FetchError>
        ensures bound { IfOk result (λ bytes. vec_len bytes ≤ most) }
        ensures asked { told self.new ≡ after_fetch (told self.old) name.now result }
        ensures content { IfOk result (λ bytes.
            IsFetched (told self.old) name.now most bytes.items) }
        ensures later { faults self.old ≤ faults self.new }
        ensures cause { IsErrOf result Failed → Rose (faults self.old) (faults self.new) };
}
