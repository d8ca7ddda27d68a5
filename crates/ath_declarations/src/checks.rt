// Tests of a declaration that add nothing.

ghost use Rattle.std.specs.Prelude.{◌≡◌, [], IfOk};
ghost use Rattle.ath_sorts.specs.Answers.{IsFlaw};
ghost use Rattle.ath_declarations.specs.Steps.{first_taken, place_fault};

use ath_sorts::{Flaw, Signature, Sort, Sym};
use indexmap::IndexSet;
use std::alloc::{AllocError, Global};

/// Refuses the first bad constructor of a sort, from the left. Every variable is allowed.
pub(crate) fn check_constructors(sig: &Signature, sort: &Sort) -> Result<(), Flaw>
    ensures { IsFlaw (place_fault sig.now sort.now) result }
{
    match sort {
        Sort::Var(_) => Ok(()),
        Sort::Con(name, args) => {
            let Some(arity) = sig.sort_arity(*name) else {
                return Err(Flaw::UnknownSort(*name));
            };
            if arity != args.len() {
                return Err(Flaw::Arity(*name));
            }
            for arg in args.as_slice() {
                check_constructors(sig, arg)?;
            }
            Ok(())
        }
    }
}

/// The first of these names that is a symbol's, or came before among them.
pub(crate) fn find_taken(
    alloc: Global,
    sig: &Signature,
    names: &[Sym],
) -> Result<Option<Sym>, AllocError>
    ensures { IfOk result (λ found. found ≡ first_taken sig.now [] names.now) }
{
    let mut seen: IndexSet<Sym> = IndexSet::new(alloc);
    for name in names {
        if sig.has_symbol(*name) {
            return Ok(Some(*name));
        }
        if !seen.insert(*name)? {
            return Ok(Some(*name));
        }
    }
    Ok(None)
}
