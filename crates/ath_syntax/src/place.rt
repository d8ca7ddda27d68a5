// Places in texts, and the grouping of operators.

/// A place in a text: the number of its file, and line and column from 1. Columns are counted in bytes.
#[derive(Clone, Copy, Debug, PartialEq, Eq)]
pub struct Pos {
    pub file: usize,
    pub line: u64,
    pub col: u64,
}

/// How an infix operator groups with others of its level.
#[derive(Clone, Copy, Debug, PartialEq, Eq)]
pub enum Group {
    Left,
    Right,
}
