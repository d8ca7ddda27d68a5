// Methods, applied to arguments by their rows.

ghost use Rattle.std.specs.Prelude.{◌≡◌, ◌<◌, ◌&&◌, not, IfOk, length};
ghost use Rattle.std.specs.List.{All};
ghost use Rattle.ath_sorts.specs.Signature.{Signature};
ghost use Rattle.ath_terms.specs.SortsIn.{IsSortedIn};
ghost use Rattle.ath_terms.specs.Trees.{Trees, Grows};
ghost use Rattle.ath_prims.specs.Applied.{applied, by_row, fitted, missing, no_parts};
ghost use Rattle.ath_prims.specs.Follows.{Follows};
ghost use Rattle.ath_prims.specs.Schemata.{row_of};
ghost use Rattle.ath_prims.specs.Stands.{AreFitted, HasConstants, IsAnswer, IsArgument, IsFound, arguments_at, sentence_at};
ghost use Rattle.ath_prims.specs.declared.applying.PrimError.TheVariants.{Memory};

use crate::bindings::{Bindings, no_bindings};
use crate::conclude::conclude;
use crate::method::{Method, row};
use crate::schema::{Premise, Row};
use crate::shapes::fit;
use ath_terms::Store;
use ath_trees::SentId;
use std::alloc::{AllocError, Global};
use thiserror::Error;

/// An argument: the sentence that it is, where it is one, and whether that holds.
#[derive(Clone, Copy, Debug)]
pub struct Argument {
    pub sentence: Option<SentId>,
    pub holds: bool,
}

/// Why a method concludes nothing. Arguments are counted from 1.
#[derive(Debug, Drop, Error)]
pub enum PrimError {
    /// the wanted number of arguments, and the given one
    #[error("{1} arguments, and {0} are wanted")]
    ArgCount(usize, usize),
    #[error("argument {0} is no sentence")]
    WrongKind(usize),
    #[error("argument {0} hasn't the shape that is wanted")]
    WrongShape(usize),
    /// the first argument that has to hold and doesn't
    #[error("a sentence doesn't hold")]
    NotInBase(SentId),
    /// the conclusion would have so many nodes
    #[error("{0} nodes, and 100000 are the most")]
    TooLarge(u64),
    /// the conclusion would have so many levels
    #[error("{0} levels, and 2000 are the most")]
    TooDeep(u64),
    #[error("out of memory")]
    Memory,
}

impl From<AllocError> for PrimError {
    ghost from_gives = { λ _ e. e ≡ Memory };

    fn from(_error: AllocError) -> PrimError {
        PrimError::Memory
    }
}

/// The parts that are found where each argument has its shape, or the first that is no sentence or has another.
fn fit_all(store: &Store, premises: &[Premise], args: &[Argument]) -> Result<Bindings, PrimError>
    requires many { length premises.now ≡ length args.now }
    requires inside { All (IsArgument store.now) args.now }
    ensures { AreFitted store.now (fitted 1 premises.now (arguments_at store.now args.now) no_parts) result }
{
    let mut bindings = no_bindings();
    for i in 0..premises.len() {
        let Some(p) = args[i].sentence else {
            return Err(PrimError::WrongKind(i + 1));
        };
        let Some(more) = fit(store, premises[i].shape, p, bindings) else {
            return Err(PrimError::WrongShape(i + 1));
        };
        bindings = more;
    }
    Ok(bindings)
}

/// Whether an argument has to hold and doesn't.
fn is_lacking(premise: Premise, arg: Argument) -> bool
    ensures { result ≡ premise.must_hold && not arg.holds }
{
    premise.must_hold && !arg.holds
}

/// The first argument that has to hold and doesn't.
fn missing(premises: &[Premise], args: &[Argument]) -> Option<SentId>
    requires { length premises.now ≡ length args.now }
    ensures { (s : Trees) → All (IsArgument s) args.now → IsFound s result (missing premises.now (arguments_at s args.now)) }
{
    for i in 0..premises.len() {
        if is_lacking(premises[i], args[i]) {
            return args[i].sentence;
        }
    }
    None
}

/// What a row makes of arguments.
fn by_row(
    alloc: Global,
    store: &mut Store,
    row: Row,
    args: &[Argument],
) -> Result<SentId, PrimError>
    requires { All (IsArgument store.old) args.now }
    ensures grows { Grows store.old store.new }
    ensures sorted { (sig : Signature) → IsSortedIn sig store.old → HasConstants sig → IsSortedIn sig store.new }
    ensures answer { IsAnswer store.new (by_row (row_of row) (arguments_at store.old args.now)) result }
{
    let premises = row.premises;
    if premises.len() != args.len() {
        return Err(PrimError::ArgCount(premises.len(), args.len()));
    }
    let bindings = fit_all(store, premises, args)?;
    if let Some(p) = missing(premises, args) {
        return Err(PrimError::NotInBase(p));
    }
    let sent = conclude(alloc, store, row.conclusion, bindings)?;
    Ok(sent)
}

/// What a method concludes from arguments, or why it doesn't.
pub fn apply(
    alloc: Global,
    store: &mut Store,
    method: Method,
    args: &[Argument],
) -> Result<SentId, PrimError>
    requires { All (IsArgument store.old) args.now }
    ensures grows { Grows store.old store.new }
    ensures sorted { (sig : Signature) → IsSortedIn sig store.old → HasConstants sig → IsSortedIn sig store.new }
    ensures answer { IsAnswer store.new (applied method (arguments_at store.old args.now)) result }
    ensures follows { IfOk result (λ p. Follows (arguments_at store.old args.now) (sentence_at store.new p)) }
{
    let sent = by_row(alloc, store, row(method), args)?;
    Ok(sent)
}
