// A table of calls of every method, and what each gives.

use crate::sentences::Text;
use ath_prims::Method;
use ath_trees::Binary;

/// An argument: its sentence, where it is one, and whether that holds.
#[derive(Clone, Copy)]
pub struct Given {
    pub text: Option<Text>,
    pub holds: bool,
}

/// What a call gives.
#[derive(Clone, Copy)]
pub enum Wanted {
    Concludes(Text),
    ArgCount(usize, usize),
    WrongKind(usize),
    WrongShape(usize),
    NotInBase(Text),
}

#[derive(Clone, Copy)]
pub struct Case {
    pub method: Method,
    pub args: &'static [Given],
    pub wanted: Wanted,
}

// A sentence: a constant, one that is negated, or two that are joined.
macro_rules! text {
    ($p:literal) => { Text::Letter($p) };
    (not $p:literal) => { Text::Not($p) };
    (not not $p:literal) => { Text::NotNot($p) };
    ($c:ident $p:literal $q:literal) => { Text::Joined(Binary::$c, $p, $q) };
}

// An argument that holds, one that doesn't, and one that is no sentence.
macro_rules! given {
    (yes $($t:tt)*) => { Given { text: Some(text!($($t)*)), holds: true } };
    (unheld $($t:tt)*) => { Given { text: Some(text!($($t)*)), holds: false } };
    (other) => { Given { text: None, holds: false } };
}

macro_rules! case {
    ($m:ident [$([$($a:tt)*])*] Concludes $($t:tt)*) => {
        Case { method: Method::$m, args: &[$(given!($($a)*)),*], wanted: Wanted::Concludes(text!($($t)*)) }
    };
    ($m:ident [$([$($a:tt)*])*] NotInBase $($t:tt)*) => {
        Case { method: Method::$m, args: &[$(given!($($a)*)),*], wanted: Wanted::NotInBase(text!($($t)*)) }
    };
    ($m:ident [$([$($a:tt)*])*] ArgCount $k:literal $n:literal) => {
        Case { method: Method::$m, args: &[$(given!($($a)*)),*], wanted: Wanted::ArgCount($k, $n) }
    };
    ($m:ident [$([$($a:tt)*])*] $w:ident $n:literal) => {
        Case { method: Method::$m, args: &[$(given!($($a)*)),*], wanted: Wanted::$w($n) }
    };
}

pub const CONCLUSIONS: [Case; 14] = [
    case!(Claim [[yes 10]] Concludes 10),
    case!(Mp [[yes If 10 11] [yes 10]] Concludes 11),
    case!(Both [[yes 10] [yes 11]] Concludes And 10 11),
    case!(LeftAnd [[yes And 10 11]] Concludes 10),
    case!(RightAnd [[yes And 10 11]] Concludes 11),
    case!(LeftEither [[yes 10] [unheld 11]] Concludes Or 10 11),
    case!(RightEither [[unheld 10] [yes 11]] Concludes Or 10 11),
    case!(Cd [[yes Or 10 11] [yes If 10 12] [yes If 11 12]] Concludes 12),
    case!(Equiv [[yes If 10 11] [yes If 11 10]] Concludes Iff 10 11),
    case!(LeftIff [[yes Iff 10 11]] Concludes If 10 11),
    case!(RightIff [[yes Iff 10 11]] Concludes If 11 10),
    case!(Dn [[yes not not 10]] Concludes 10),
    case!(Absurd [[yes 10] [yes not 10]] Concludes 2),
    case!(TrueIntro [] Concludes 1),
];

pub const COUNTS: [Case; 14] = [
    case!(Claim [] ArgCount 1 0),
    case!(Mp [[other]] ArgCount 2 1),
    case!(Both [[yes 10]] ArgCount 2 1),
    case!(LeftAnd [] ArgCount 1 0),
    case!(RightAnd [[other] [other]] ArgCount 1 2),
    case!(LeftEither [[yes 10]] ArgCount 2 1),
    case!(RightEither [[yes 10]] ArgCount 2 1),
    case!(Cd [[other] [other]] ArgCount 3 2),
    case!(Equiv [[other]] ArgCount 2 1),
    case!(LeftIff [] ArgCount 1 0),
    case!(RightIff [] ArgCount 1 0),
    case!(Dn [] ArgCount 1 0),
    case!(Absurd [[other]] ArgCount 2 1),
    case!(TrueIntro [[other]] ArgCount 0 1),
];

pub const KINDS: [Case; 18] = [
    case!(Claim [[other]] WrongKind 1),
    case!(Mp [[other] [other]] WrongKind 1),
    case!(Mp [[unheld If 10 11] [other]] WrongKind 2),
    case!(Both [[other] [yes 10]] WrongKind 1),
    case!(Both [[unheld 10] [other]] WrongKind 2),
    case!(LeftAnd [[other]] WrongKind 1),
    case!(RightAnd [[other]] WrongKind 1),
    case!(LeftEither [[yes 10] [other]] WrongKind 2),
    case!(RightEither [[other] [yes 10]] WrongKind 1),
    case!(Cd [[other] [other] [other]] WrongKind 1),
    case!(Cd [[yes Or 10 11] [other] [yes 10]] WrongKind 2),
    case!(Cd [[yes Or 10 11] [yes If 10 12] [other]] WrongKind 3),
    case!(Equiv [[yes If 10 11] [other]] WrongKind 2),
    case!(LeftIff [[other]] WrongKind 1),
    case!(RightIff [[other]] WrongKind 1),
    case!(Dn [[other]] WrongKind 1),
    case!(Absurd [[other] [yes 10]] WrongKind 1),
    case!(Absurd [[yes 10] [other]] WrongKind 2),
];

pub const SHAPES: [Case; 18] = [
    case!(Mp [[yes 10] [other]] WrongShape 1),
    case!(Mp [[yes And 10 11] [yes 10]] WrongShape 1),
    case!(Mp [[unheld If 10 11] [unheld 12]] WrongShape 2),
    case!(LeftAnd [[yes Or 10 11]] WrongShape 1),
    case!(RightAnd [[yes not 10]] WrongShape 1),
    case!(Cd [[yes And 10 11] [yes If 10 12] [yes If 11 12]] WrongShape 1),
    case!(Cd [[yes Or 10 11] [yes If 11 12] [yes If 10 12]] WrongShape 2),
    case!(Cd [[yes Or 10 11] [yes If 10 12] [yes If 11 13]] WrongShape 3),
    case!(Cd [[yes Or 10 11] [yes If 10 12] [yes If 10 12]] WrongShape 3),
    case!(Equiv [[yes Iff 10 11] [yes If 11 10]] WrongShape 1),
    case!(Equiv [[yes If 10 11] [yes If 10 11]] WrongShape 2),
    case!(Equiv [[yes If 10 11] [yes If 11 12]] WrongShape 2),
    case!(LeftIff [[yes If 10 11]] WrongShape 1),
    case!(RightIff [[yes If 10 11]] WrongShape 1),
    case!(Dn [[yes not 10]] WrongShape 1),
    case!(Dn [[yes 10]] WrongShape 1),
    case!(Absurd [[yes 10] [yes 11]] WrongShape 2),
    case!(Absurd [[yes not 10] [yes not 10]] WrongShape 2),
];

pub const MISSING: [Case; 19] = [
    case!(Claim [[unheld 10]] NotInBase 10),
    case!(Mp [[unheld If 10 11] [unheld 10]] NotInBase If 10 11),
    case!(Mp [[yes If 10 11] [unheld 10]] NotInBase 10),
    case!(Both [[unheld 10] [unheld 11]] NotInBase 10),
    case!(Both [[yes 10] [unheld 11]] NotInBase 11),
    case!(LeftAnd [[unheld And 10 11]] NotInBase And 10 11),
    case!(RightAnd [[unheld And 10 11]] NotInBase And 10 11),
    case!(LeftEither [[unheld 10] [yes 11]] NotInBase 10),
    case!(RightEither [[yes 10] [unheld 11]] NotInBase 11),
    case!(Cd [[unheld Or 10 11] [yes If 10 12] [yes If 11 12]] NotInBase Or 10 11),
    case!(Cd [[yes Or 10 11] [unheld If 10 12] [unheld If 11 12]] NotInBase If 10 12),
    case!(Cd [[yes Or 10 11] [yes If 10 12] [unheld If 11 12]] NotInBase If 11 12),
    case!(Equiv [[unheld If 10 11] [yes If 11 10]] NotInBase If 10 11),
    case!(Equiv [[yes If 10 11] [unheld If 11 10]] NotInBase If 11 10),
    case!(LeftIff [[unheld Iff 10 11]] NotInBase Iff 10 11),
    case!(RightIff [[unheld Iff 10 11]] NotInBase Iff 10 11),
    case!(Dn [[unheld not not 10]] NotInBase not not 10),
    case!(Absurd [[unheld 10] [yes not 10]] NotInBase 10),
    case!(Absurd [[yes 10] [unheld not 10]] NotInBase not 10),
];
