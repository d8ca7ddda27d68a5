// The pairs of sorts that a construction unifies, and their least unifier.

ghost use Rattle.std.specs.Prelude.{◌≡◌, ◌++◌, ◌∷◌, [], ◌<◌, length, find, OnOk, IfOk};
ghost use Rattle.std.specs.Option.{option_copied};
ghost use Rattle.ath_trees.specs.Variables.{is_namesake};
ghost use Rattle.ath_terms.specs.Firsts.{HasFirsts};
ghost use Rattle.ath_terms.specs.Found.{name_key, same_name_key};
ghost use Rattle.ath_construction.specs.Construction.{pair_after, variable_pairs};
ghost use Rattle.ath_construction.specs.Steps.{IsClashAt, MatchSolved};

use ath_sorts::sorts::copied;
use ath_sorts::{Sort, SortSubst};
use ath_terms::found::is_namesake;
use ath_terms::key::name_key;
use ath_terms::{BuildError, NameKey};
use ath_trees::Var;
use ath_unifiers::{UnifyError, unify};
use indexmap::IndexMap;
use std::alloc::{AllocError, Global};

/// The first of some variables that has the name and the index of v, by the table of the first ones.
fn first_namesake<'a>(
    firsts: &IndexMap<NameKey, usize>,
    before: &'a [Var],
    v: &Var,
) -> Option<&'a Var>
    requires { HasFirsts same_name_key name_key before.now firsts.now.entries }
    ensures { option_copied result ≡ find (is_namesake v.now) before.now }
{
    let Some(at) = firsts.get(&name_key(v)) else {
        return None;
    };
    let Some(w) = before.get(*at) else {
        return None;
    };
    if is_namesake(v, w) { Some(w) } else { None }
}

/// Adds a pair with copies of two sorts.
pub fn add_pair(pairs: &mut Vec<(Sort, Sort)>, left: &Sort, right: &Sort) -> Result<(), AllocError>
    ensures { OnOk result (pairs.new.items ≡ pairs.old.items ++ (left.now, right.now) ∷ []) }
{
    let left = copied(left)?;
    let right = copied(right)?;
    pairs.push((left, right))?;
    Ok(())
}

/// Adds the pair of v with the first of its namesakes before it, or files it as the first.
fn add_pair_after(
    pairs: &mut Vec<(Sort, Sort)>,
    firsts: &mut IndexMap<NameKey, usize>,
    before: &[Var],
    v: &Var,
) -> Result<(), AllocError>
    requires { HasFirsts same_name_key name_key before.now firsts.old.entries }
    ensures firsts { OnOk result (HasFirsts same_name_key name_key (before.now ++ v.now ∷ []) firsts.new.entries) }
    ensures pairs { OnOk result (pairs.new.items ≡ pairs.old.items ++ pair_after (find (is_namesake v.now) before.now) v.now) }
{
    if let Some(first) = first_namesake(firsts, before, v) {
        add_pair(pairs, &first.sort, &v.sort)?;
        return Ok(());
    }
    firsts.insert(name_key(v), before.len())?;
    Ok(())
}

/// Adds for each variable the pair with the first one of its name and index.
pub fn add_variable_pairs(
    alloc: Global,
    pairs: &mut Vec<(Sort, Sort)>,
    found: &[Var],
) -> Result<(), AllocError>
    ensures { OnOk result (pairs.new.items ≡ pairs.old.items ++ variable_pairs found.now) }
{
    let mut firsts = IndexMap::new(alloc);
    for i in 0..found.len() {
        add_pair_after(pairs, &mut firsts, &found[..i], &found[i])?;
    }
    Ok(())
}

pub fn clash(pairs: &Vec<(Sort, Sort)>, at: usize) -> Result<BuildError, AllocError>
    requires { at < length pairs.now.items }
    ensures { IfOk result (λ e. IsClashAt pairs.now.items at e) }
{
    let pair = &pairs[at];
    let left = copied(&pair.0)?;
    let right = copied(&pair.1)?;
    Ok(BuildError::SortClash(left, right))
}

/// The least unifier of the pairs.
pub fn solve(alloc: Global, pairs: &Vec<(Sort, Sort)>) -> Result<SortSubst, BuildError>
    ensures { MatchSolved pairs.now.items result }
{
    match unify(alloc, pairs) {
        Ok(subst) => Ok(subst),
        Err(UnifyError::Clash(at)) => {
            let told = clash(pairs, at)?;
            Err(told)
        }
        Err(UnifyError::SortTooLarge) => Err(BuildError::SortTooLarge),
        Err(UnifyError::Memory) => Err(BuildError::Memory),
    }
}
