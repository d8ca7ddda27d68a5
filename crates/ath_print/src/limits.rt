// The limit on lines.

/// The most bytes of the lines of one directive, each with its line end. The name of a file and its quotes don't count.
pub const MOST_LINE_BYTES: u64 = 16_777_216;
