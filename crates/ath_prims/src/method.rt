// The methods, and the row of each.

ghost use Rattle.std.specs.Prelude.{◌≡◌};
ghost use Rattle.ath_prims.specs.Schemata.{row, row_of};

use crate::schema::{Conclusion, Part, Premise, Row, Shape};
use ath_trees::Binary;

/// The methods whose rows are schemata.
#[derive(Clone, Copy, Debug, PartialEq, Eq)]
pub enum Method {
    Claim,
    Mp,
    Both,
    LeftAnd,
    RightAnd,
    LeftEither,
    RightEither,
    Cd,
    Equiv,
    LeftIff,
    RightIff,
    Dn,
    Absurd,
    TrueIntro,
}

// An argument that has to hold, and one that hasn't.
macro_rules! premise {
    (held any $p:ident) => { Premise { shape: Shape::Any(Part::$p), must_hold: true } };
    (free any $p:ident) => { Premise { shape: Shape::Any(Part::$p), must_hold: false } };
    (held not $p:ident) => { Premise { shape: Shape::Not(Part::$p), must_hold: true } };
    (held not not $p:ident) => { Premise { shape: Shape::NotNot(Part::$p), must_hold: true } };
    (held $c:ident $p:ident $q:ident) => { Premise { shape: Shape::Joined(Binary::$c, Part::$p, Part::$q), must_hold: true } };
}

const CLAIM: [Premise; 1] = [premise!(held any A)];

const MP: [Premise; 2] = [premise!(held If A B), premise!(held any A)];

const BOTH: [Premise; 2] = [premise!(held any A), premise!(held any B)];

const AN_AND: [Premise; 1] = [premise!(held And A B)];

const LEFT_EITHER: [Premise; 2] = [premise!(held any A), premise!(free any B)];

const RIGHT_EITHER: [Premise; 2] = [premise!(free any A), premise!(held any B)];

const CD: [Premise; 3] = [
    premise!(held Or A B),
    premise!(held If A C),
    premise!(held If B C),
];

const EQUIV: [Premise; 2] = [premise!(held If A B), premise!(held If B A)];

const AN_IFF: [Premise; 1] = [premise!(held Iff A B)];

const DN: [Premise; 1] = [premise!(held not not A)];

const ABSURD: [Premise; 2] = [premise!(held any A), premise!(held not A)];

fn schema(name: &'static str, premises: &'static [Premise], conclusion: Conclusion) -> Row
    ensures { row_of result ≡ record { name = name.now; premises = premises.now; conclusion = conclusion } }
{
    Row {
        name,
        premises,
        conclusion,
    }
}

/// The row of a method.
pub fn row(method: Method) -> Row
    ensures { row_of result ≡ row method }
{
    match method {
        Method::Claim => schema("claim", &CLAIM, Conclusion::Bare(Part::A)),
        Method::Mp => schema("mp", &MP, Conclusion::Bare(Part::B)),
        Method::Both => schema(
            "both",
            &BOTH,
            Conclusion::Built(Binary::And, Part::A, Part::B),
        ),
        Method::LeftAnd => schema("left-and", &AN_AND, Conclusion::Bare(Part::A)),
        Method::RightAnd => schema("right-and", &AN_AND, Conclusion::Bare(Part::B)),
        Method::LeftEither => schema(
            "left-either",
            &LEFT_EITHER,
            Conclusion::Built(Binary::Or, Part::A, Part::B),
        ),
        Method::RightEither => schema(
            "right-either",
            &RIGHT_EITHER,
            Conclusion::Built(Binary::Or, Part::A, Part::B),
        ),
        Method::Cd => schema("cd", &CD, Conclusion::Bare(Part::C)),
        Method::Equiv => schema(
            "equiv",
            &EQUIV,
            Conclusion::Built(Binary::Iff, Part::A, Part::B),
        ),
        Method::LeftIff => schema(
            "left-iff",
            &AN_IFF,
            Conclusion::Built(Binary::If, Part::A, Part::B),
        ),
        Method::RightIff => schema(
            "right-iff",
            &AN_IFF,
            Conclusion::Built(Binary::If, Part::B, Part::A),
        ),
        Method::Dn => schema("dn", &DN, Conclusion::Bare(Part::A)),
        Method::Absurd => schema("absurd", &ABSURD, Conclusion::False),
        Method::TrueIntro => schema("true-intro", &[], Conclusion::True),
    }
}
