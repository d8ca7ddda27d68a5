// The limit on names.

/// The most bytes that a name has.
pub const MOST_NAME_BYTES: usize = 200;
