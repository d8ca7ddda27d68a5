// Matching of sorts, which tells the entries of the map in the order in which they're made.

ghost use Rattle.std.specs.Prelude.{◌≡◌, map, IfOk, Some, if◌then◌else◌};
ghost use Rattle.ath_alpha.specs.Answer.{answer};
ghost use Rattle.ath_sorts.specs.Instances.{is_rigid};
ghost use Rattle.ath_sorts.specs.Substitutions.{entry_of};
ghost use Rattle.ath_sorts.specs.Equality.{same_sort};
ghost use Rattle.ath_trees.specs.Instance.{match_all, match_sort, noted};

use ath_sorts::sorts::{copied, is_same};
use ath_sorts::{SVar, Sort, SortSubst};
use std::alloc::AllocError;

fn is_rigid(rigid: &[SVar], v: SVar) -> bool
    ensures { result ≡ is_rigid rigid.now v }
{
    for w in rigid {
        if w.is_same(v) {
            return true;
        }
    }
    false
}

fn are_same(s: &Sort, t: &Sort) -> bool
    ensures { result ≡ same_sort s.now t.now }
{
    is_same(s, t)
}

fn match_variable(
    found: &mut SortSubst,
    rigid: &[SVar],
    v: SVar,
    t: &Sort,
) -> Result<bool, AllocError>
    ensures { IfOk result (λ b. answer b found.new ≡ noted (if is_rigid rigid.now v then Some (Sort.Var v) else entry_of found.old v) v t.now found.old) }
{
    if is_rigid(rigid, v) {
        return Ok(are_same(&Sort::Var(v), t));
    }
    if let Some(bound) = found.get(v) {
        return Ok(are_same(bound, t));
    }
    found.push(v, copied(t)?)?;
    Ok(true)
}

/// Extends the map so that it makes one sort the other; false where no extension does.
pub fn match_sort(
    found: &mut SortSubst,
    rigid: &[SVar],
    s: &Sort,
    t: &Sort,
) -> Result<bool, AllocError>
    ensures { IfOk result (λ b. answer b found.new ≡ match_sort (is_rigid rigid.now) s.now t.now found.old) }
{
    match s {
        Sort::Var(v) => match_variable(found, rigid, *v, t),
        Sort::Con(c, args) => {
            let Sort::Con(d, others) = t else {
                return Ok(false);
            };
            let xs = args.as_slice();
            let ys = others.as_slice();
            if c.0 != d.0 || xs.len() != ys.len() {
                return Ok(false);
            }
            for i in 0..xs.len() {
                if !match_sort(found, rigid, &xs[i], &ys[i])? {
                    return Ok(false);
                }
            }
            Ok(true)
        }
    }
}

/// The same for two lists of sorts.
pub fn match_sorts(
    found: &mut SortSubst,
    rigid: &[SVar],
    some: &[Sort],
    others: &[Sort],
) -> Result<bool, AllocError>
    ensures { IfOk result (λ b. answer b found.new ≡ match_all (map (match_sort (is_rigid rigid.now)) some.now) others.now found.old) }
{
    if some.len() != others.len() {
        return Ok(false);
    }
    for i in 0..some.len() {
        if !match_sort(found, rigid, &some[i], &others[i])? {
            return Ok(false);
        }
    }
    Ok(true)
}
