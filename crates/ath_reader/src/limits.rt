// The limits on a text and its directives.

/// The most bytes of a text.
pub const MOST_BYTES: usize = 4_194_304;

/// The most levels that are open at a time.
pub const MOST_LEVELS: usize = 500;
