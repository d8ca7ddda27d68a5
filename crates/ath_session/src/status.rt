// How a run ends.

/// How a run ends. The program's exit statuses are 0 to 6, in this order.
#[derive(Clone, Copy, Debug, PartialEq, Eq)]
pub enum Status {
    /// The report was written whole, and has no error line.
    Clean,
    /// The report was written whole, and has an error line.
    Errors,
    /// The words spell no run.
    Usage,
    /// The rules need more steps than were stated.
    Fuel,
    /// A text couldn't be fetched.
    SourceFault,
    /// A line couldn't be written.
    SinkFault,
    /// Memory was wanted.
    Memory,
}
