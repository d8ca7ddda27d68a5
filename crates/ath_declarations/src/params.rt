// The parameters of a declaration.

ghost use Rattle.std.specs.Prelude.{◌≡◌, ◌++◌, ◌∷◌, [], IfOk, OnOk, None};
ghost use Rattle.ath_declarations.specs.Declarations.{params_of};
ghost use Rattle.ath_declarations.specs.Steps.{noting};
ghost use Rattle.ath_declarations.specs.Texts.{written_in};

use ath_sorts::{SVar, Sort, Sym};
use indexmap::IndexSet;
use sqlite_items::Items;
use std::alloc::{AllocError, Global};

/// The parameters over these sorts of the arguments and the result: those that are listed, or without a list the
/// written variables.
pub(crate) fn params_over(
    alloc: Global,
    list: &Option<Items<Sym>>,
    args: &[Sort],
    result_sort: &Sort,
) -> Result<Vec<Sym>, AllocError>
    ensures { IfOk result (λ ps. ps.items ≡ params_of list.now (args.now ++ result_sort.now ∷ [])) }
{
    match list {
        Some(params) => {
            let listed = Vec::from_slice(alloc, params.as_slice())?;
            Ok(listed)
        }
        None => {
            let occurring = written_over(alloc, args, result_sort)?;
            Ok(occurring)
        }
    }
}

/// The written variables of these sorts, each once, in order of first occurrence.
fn written_over(alloc: Global, args: &[Sort], result_sort: &Sort) -> Result<Vec<Sym>, AllocError>
    ensures { IfOk result (λ ps. ps.items ≡ params_of None (args.now ++ result_sort.now ∷ [])) }
{
    let mut seen: IndexSet<Sym> = IndexSet::new(alloc);
    for arg in args {
        note(&mut seen, arg)?;
    }
    note(&mut seen, result_sort)?;
    let params = Vec::from_slice(alloc, seen.as_slice())?;
    Ok(params)
}

#[tactic(auto, using(crate::proofs::Parameters::note_steps))]
fn note(seen: &mut IndexSet<Sym>, sort: &Sort) -> Result<(), AllocError>
    ensures { OnOk result (seen.new.keys ≡ noting seen.old.keys (written_in sort.now)) }
{
    match sort {
        Sort::Var(SVar::Made(_)) => Ok(()),
        Sort::Var(SVar::Written(name)) => {
            seen.insert(*name)?;
            Ok(())
        }
        Sort::Con(_, args) => {
            for arg in args.as_slice() {
                note(seen, arg)?;
            }
            Ok(())
        }
    }
}
