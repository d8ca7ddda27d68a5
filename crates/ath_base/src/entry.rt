// Entries of an assumption base.

use ath_trees::SentId;

/// How a sentence came into the base.
#[derive(Clone, Copy, Debug, PartialEq, Eq)]
pub enum Origin {
    Asserted,
    Hypothesis,
    Concluded,
}

/// A sentence of the base, with its origin.
#[derive(Clone, Copy, Debug)]
pub struct Entry {
    pub sentence: SentId,
    pub origin: Origin,
}
