// Errors, each at the phrase that refuses.

ghost use Rattle.std.specs.Prelude.{◌≡◌, ◌<◌, [], ◌∷◌, length, IfOk};
ghost use Rattle.ath_sorts.specs.declared.signature.SigError.TheVariants as sort_error;
ghost use Rattle.ath_terms.specs.Trees.{Trees, sent_at};
ghost use Rattle.ath_terms.specs.declared.measure.BuildError.TheVariants as build_error;
ghost use Rattle.ath_construction.specs.Construction.{Unbuilt};
ghost use Rattle.ath_print.specs.declared.fault.FaultKind.TheVariants.{ArgCount, Unbound};
ghost use Rattle.ath_print.specs.Events.{name_named, number_named};
ghost use Rattle.ath_print.specs.Stands.{IsRefusal};
ghost use Rattle.ath_eval.specs.Building.{told};
ghost use Rattle.ath_eval.specs.Stands.{IsWhy};
ghost use Rattle.ath_eval.specs.Evaluation.{sort_refusal};
ghost use Rattle.ath_eval.specs.Outcomes.{fails, refusal};
ghost use Rattle.ath_eval.specs.Methods.{not_in_base};
ghost use Rattle.ath_eval.specs.World.{IsSteady};

use crate::world::Outcome;
use ath_print::{Fault, FaultArg, FaultKind};
use ath_sorts::{SigError, Sym};
use ath_syntax::Pos;
use ath_terms::BuildError;
use ath_trees::SentId;
use std::alloc::{AllocError, Global};

/// An error that names nothing.
pub(crate) fn bare(alloc: Global, kind: FaultKind, at: Pos) -> Outcome
    ensures { (s : Trees) → IsSteady s result (fails at (refusal kind [])) }
{
    Outcome::Error(Fault::plain(alloc, kind), at)
}

/// An error that names a number.
pub(crate) fn numbered(
    alloc: Global,
    kind: FaultKind,
    n: u64,
    at: Pos,
) -> Result<Outcome, AllocError>
    ensures { IfOk result (λ o. (s : Trees) → IsSteady s o (fails at (refusal kind (number_named n ∷ [])))) }
{
    let fault = Fault::naming(alloc, kind, FaultArg::Number(n))?;
    Ok(Outcome::Error(fault, at))
}

/// This many arguments were wanted, and that many were given.
pub(crate) fn miscounted(
    alloc: Global,
    want: u64,
    given: u64,
    at: Pos,
) -> Result<Outcome, AllocError>
    ensures { IfOk result (λ o. (s : Trees) → IsSteady s o (fails at (refusal ArgCount (number_named want ∷ number_named given ∷ [])))) }
{
    let fault = Fault::naming_two(
        alloc,
        FaultKind::ArgCount,
        FaultArg::Number(want),
        FaultArg::Number(given),
    )?;
    Ok(Outcome::Error(fault, at))
}

/// The base lacks this sentence.
pub(crate) fn missing(alloc: Global, p: SentId, at: Pos) -> Result<Outcome, AllocError>
    ensures { IfOk result (λ o. (s : Trees) → p.0 < length s.sents → IsSteady s o (not_in_base (sent_at s.sents p.0) at)) }
{
    let fault = Fault::naming(alloc, FaultKind::NotInBase, FaultArg::Sent(p))?;
    Ok(Outcome::Error(fault, at))
}

/// A name that finds nothing.
pub(crate) fn unbound(alloc: Global, name: Sym, at: Pos) -> Result<Outcome, AllocError>
    ensures { IfOk result (λ o. (s : Trees) → IsSteady s o (fails at (refusal Unbound (name_named name ∷ [])))) }
{
    let fault = Fault::naming(alloc, FaultKind::Unbound, FaultArg::Name(name))?;
    Ok(Outcome::Error(fault, at))
}

/// Why a sort's text is refused.
fn sort_fault(alloc: Global, error: SigError) -> Result<Fault, AllocError>
    ensures fault { IfOk result (λ f. (s : Trees) → IsRefusal s f (sort_refusal error)) }
    ensures memory { IfOk result (λ _. error ≡ sort_error.Memory → ⊥) }
{
    match error {
        SigError::UnknownSort(n) => {
            Fault::naming(alloc, FaultKind::UnknownSort, FaultArg::Name(n))
        }
        SigError::Arity(n) => Fault::naming(alloc, FaultKind::Arity, FaultArg::Name(n)),
        SigError::Memory => Err(AllocError),
        _other => Ok(Fault::plain(alloc, FaultKind::SortTooLarge)),
    }
}

/// A sort's text that is refused.
pub(crate) fn bad_sort(alloc: Global, error: SigError, at: Pos) -> Result<Outcome, AllocError>
    ensures outcome { IfOk result (λ o. (s : Trees) → IsSteady s o (fails at (sort_refusal error))) }
    ensures memory { IfOk result (λ _. error ≡ sort_error.Memory → ⊥) }
{
    let fault = sort_fault(alloc, error)?;
    Ok(Outcome::Error(fault, at))
}

/// Why something isn't built.
pub fn build_fault(alloc: Global, error: BuildError) -> Result<Fault, AllocError>
    ensures fault { IfOk result (λ f. (s : Trees) (why : Unbuilt) → IsWhy s error why → IsRefusal s f (told why)) }
    ensures memory { IfOk result (λ _. error ≡ build_error.Memory → ⊥) }
{
    match error {
        BuildError::SortClash(a, b) => {
            let (left, right) = (FaultArg::Sort(a), FaultArg::Sort(b));
            Fault::naming_two(alloc, FaultKind::SortClash, left, right)
        }
        BuildError::ArgCount(m, n) => {
            let (want, given) = (FaultArg::Number(m as u64), FaultArg::Number(n as u64));
            Fault::naming_two(alloc, FaultKind::ArgCount, want, given)
        }
        BuildError::NotBoolean(t) => {
            Fault::naming(alloc, FaultKind::NotBoolean, FaultArg::Term(t))
        }
        BuildError::TooLarge(n) => Fault::naming(alloc, FaultKind::TooLarge, FaultArg::Number(n)),
        BuildError::TooDeep(n) => Fault::naming(alloc, FaultKind::TooDeep, FaultArg::Number(n)),
        BuildError::SortTooLarge => Ok(Fault::plain(alloc, FaultKind::SortTooLarge)),
        BuildError::Memory => Err(AllocError),
    }
}

/// A term or a sentence that isn't built.
pub(crate) fn unbuilt(alloc: Global, error: BuildError, at: Pos) -> Result<Outcome, AllocError>
    ensures outcome { IfOk result (λ o. (s : Trees) (why : Unbuilt) → IsWhy s error why → IsSteady s o (fails at (told why))) }
    ensures memory { IfOk result (λ _. error ≡ build_error.Memory → ⊥) }
{
    let fault = build_fault(alloc, error)?;
    Ok(Outcome::Error(fault, at))
}
