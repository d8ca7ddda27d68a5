// The limits of a run.

/// The most bytes that a shelf is asked for: one more than a file has, so that a longer one shows.
pub const MOST_ASKED: usize = 4_194_305;

/// The most loads that stand in one another.
pub const MOST_LOADS: usize = 16;

/// The most texts that are open: a file of the command line, and loads in it.
pub const MOST_OPEN: usize = 17;
