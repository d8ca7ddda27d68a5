// The limits of a run's fuel.

/// The most fuel that a run may be given.
pub const MOST_FUEL: u64 = 1_000_000_000;

/// The fuel of a run that is given none.
pub const USUAL_FUEL: u64 = 10_000_000;
