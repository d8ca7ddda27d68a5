// What sort texts mean.

ghost use Rattle.std.specs.Prelude.{◌≡◌, IfOk};
ghost use Rattle.ath_declarations.specs.Outcomes.{MatchOutcome};
ghost use Rattle.ath_declarations.specs.Texts.{meaning, sort_of};

use crate::checks::check_constructors;
use ath_sorts::limits::is_within_limits;
use ath_sorts::sorts::con;
use ath_sorts::{SVar, SigError, Signature, Sort};
use ath_syntax::SortText;
use sqlite_items::Items;
use std::alloc::{AllocError, Global};

/// The sort of a text in an ascription or on a variable, where every written sort variable is allowed. Refusals are
/// `UnknownSort` or `Arity` of the first bad place from the left, then `SortTooLarge`.
pub fn sort_of_text(alloc: Global, sig: &Signature, text: &SortText) -> Result<Sort, SigError>
    ensures { MatchOutcome (meaning sig.now text.now) result }
{
    let sort = spelled(alloc, text)?;
    check_constructors(sig, &sort)?;
    if !is_within_limits(&sort) {
        return Err(SigError::SortTooLarge);
    }
    Ok(sort)
}

/// The sort that a text spells, whatever is declared.
pub(crate) fn spelled(alloc: Global, text: &SortText) -> Result<Sort, AllocError>
    ensures { IfOk result (λ s. s ≡ sort_of text.now) }
{
    match text {
        SortText::Name(name) => con(alloc, *name, Items::new(alloc)),
        SortText::Var(name) => Ok(Sort::Var(SVar::Written(*name))),
        SortText::Con(name, args) => {
            let mut sorts = Items::new(alloc);
            for arg in args.as_slice() {
                sorts.push(spelled(alloc, arg)?)?;
            }
            con(alloc, *name, sorts)
        }
    }
}
