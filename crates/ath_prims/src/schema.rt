// What the table of the methods is written in.

use ath_trees::Binary;

/// A sentence that a schema leaves open.
#[derive(Clone, Copy, Debug, PartialEq, Eq)]
pub enum Part {
    A,
    B,
    C,
}

/// The shape of an argument.
#[derive(Clone, Copy, Debug)]
pub enum Shape {
    Any(Part),
    Not(Part),
    NotNot(Part),
    Joined(Binary, Part, Part),
}

/// An argument: its shape, and whether it has to hold.
#[derive(Clone, Copy, Debug)]
pub struct Premise {
    pub shape: Shape,
    pub must_hold: bool,
}

/// What is concluded: a part, two parts under a connective, or one of the constants.
#[derive(Clone, Copy, Debug)]
pub enum Conclusion {
    Bare(Part),
    Built(Binary, Part, Part),
    True,
    False,
}

/// A method as a schema: its name, its arguments, and what it concludes.
#[derive(Clone, Copy, Debug)]
pub struct Row {
    pub name: &'static str,
    pub premises: &'static [Premise],
    pub conclusion: Conclusion,
}
