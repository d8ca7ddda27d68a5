// The limit on tokens.

/// The most digits of a variable's index.
pub const MOST_INDEX_DIGITS: usize = 18;
