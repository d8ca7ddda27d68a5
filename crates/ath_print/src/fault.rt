// Why a directive or a text is refused.

ghost use Rattle.std.specs.Prelude.{◌≡◌, [], ◌∷◌, IfOk};

use ath_sorts::{Sort, Sym};
use ath_trees::{SentId, TermId};
use sqlite_items::Items;
use std::alloc::{AllocError, Global};

/// The kinds of faults.
#[derive(Clone, Copy, Debug, PartialEq, Eq)]
pub enum FaultKind {
    BadUtf8,
    BadChar,
    OpenString,
    NameTooLong,
    Unexpected,
    Unclosed,
    KindMix,
    TooDeep,
    NotBuilt,
    Redeclared,
    UnknownSort,
    Arity,
    LooseParam,
    TooWide,
    SortTooLarge,
    Unbound,
    FileTooLong,
    TooManyLoads,
    LineTooLong,
    SortClash,
    ArgCount,
    NotBoolean,
    TooLarge,
    TooNested,
    WrongKind,
    WrongShape,
    NotInBase,
    NotApplicable,
    NotMethod,
    NotSentence,
}

/// What a fault names.
#[derive(Debug, Drop)]
pub enum FaultArg {
    Sent(SentId),
    Term(TermId),
    Sort(Sort),
    Name(Sym),
    /// a sort variable, by its name as it is written
    SortName(Sym),
    Number(u64),
}

/// A fault: its kind, and what it names, in the order of print.
#[derive(Debug, Drop)]
pub struct Fault {
    pub kind: FaultKind,
    pub args: Items<FaultArg>,
}

impl Fault {
    /// A fault that names nothing.
    pub fn plain(alloc: Global, kind: FaultKind) -> Fault
        ensures kind { result.kind ≡ kind }
        ensures args { result.args ≡ [] }
    {
        Fault {
            kind,
            args: Items::new(alloc),
        }
    }

    /// A fault that names one thing.
    pub fn naming(alloc: Global, kind: FaultKind, arg: FaultArg) -> Result<Fault, AllocError>
        ensures { IfOk result (λ fault. (fault.kind ≡ kind) × (fault.args ≡ arg ∷ [])) }
    {
        let mut args = Items::new(alloc);
        args.push(arg)?;
        Ok(Fault { kind, args })
    }

    /// A fault that names two things.
    pub fn naming_two(
        alloc: Global,
        kind: FaultKind,
        first: FaultArg,
        second: FaultArg,
    ) -> Result<Fault, AllocError>
        ensures { IfOk result (λ fault. (fault.kind ≡ kind) × (fault.args ≡ first ∷ second ∷ [])) }
    {
        let mut args = Items::new(alloc);
        args.push(first)?;
        args.push(second)?;
        Ok(Fault { kind, args })
    }
}
