// Matching of sorts.

ghost use Rattle.std.specs.Prelude.{◌≡◌, ◌∷◌, [], IfOk};
ghost use Rattle.ath_sorts.specs.Instances.{MatchInstance, is_rigid};
ghost use Rattle.ath_sorts.specs.Matching.{MatchExtended};

use crate::sorts::{SVar, Sort, copied, is_same};
use crate::substitution::SortSubst;
use std::alloc::{AllocError, Global};

/// The substitution on the variables of `general` that aren't rigid, which makes it `special`.
pub fn instance(
    alloc: Global,
    general: &Vec<Sort>,
    special: &Vec<Sort>,
    rigid: &Vec<SVar>,
) -> Result<Option<SortSubst>, AllocError>
    ensures { IfOk result (MatchInstance general.now.items special.now.items rigid.now.items) }
{
    let general = general.as_slice();
    let special = special.as_slice();
    if general.len() != special.len() {
        return Ok(None);
    }
    let mut found = SortSubst::new(alloc);
    for i in 0..general.len() {
        if !match_sort(&mut found, alloc, &general[i], &special[i], rigid)? {
            return Ok(None);
        }
    }
    Ok(Some(found))
}

/// Extends the map so that it makes the one sort the other; false where no extension does.
fn match_sort(
    found: &mut SortSubst,
    alloc: Global,
    general: &Sort,
    special: &Sort,
    rigid: &[SVar],
) -> Result<bool, AllocError>
    ensures { IfOk result (MatchExtended rigid.now found.old found.new (general.now ∷ []) (special.now ∷ [])) }
{
    match general {
        Sort::Var(v) => match_variable(found, alloc, *v, special, rigid),
        Sort::Con(name, args) => {
            let Sort::Con(other, others) = special else {
                return Ok(false);
            };
            let args = args.as_slice();
            let others = others.as_slice();
            if name.0 != other.0 || args.len() != others.len() {
                return Ok(false);
            }
            for i in 0..args.len() {
                if !match_sort(found, alloc, &args[i], &others[i], rigid)? {
                    return Ok(false);
                }
            }
            Ok(true)
        }
    }
}

fn match_variable(
    found: &mut SortSubst,
    alloc: Global,
    v: SVar,
    special: &Sort,
    rigid: &[SVar],
) -> Result<bool, AllocError>
    ensures { IfOk result (MatchExtended rigid.now found.old found.new (Sort.Var v ∷ []) (special.now ∷ [])) }
{
    if is_among(v, rigid) {
        return Ok(is_same(&Sort::Var(v), special));
    }
    if let Some(bound) = found.get(v) {
        return Ok(is_same(bound, special));
    }
    found.push(v, copied(special)?)?;
    Ok(true)
}

fn is_among(v: SVar, vars: &[SVar]) -> bool
    ensures { result ≡ is_rigid vars.now v }
{
    for w in vars {
        if w.is_same(v) {
            return true;
        }
    }
    false
}
