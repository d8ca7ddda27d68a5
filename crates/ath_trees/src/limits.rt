// The limits on one term or sentence.

/// The most nodes of a term or a sentence.
pub const MOST_TERM_NODES: u64 = 100_000;

/// The most levels of a term or a sentence.
pub const MOST_TERM_LEVELS: u64 = 2_000;

/// The most parts that are given to one construction.
pub const MOST_PARTS: usize = 4_194_304;
