// Binders under a sort substitution: one that another free variable of its body comes to is renamed.

ghost use Rattle.std.specs.Prelude.{◌≡◌, ◌<◌, ◌++◌, ◌&&◌, true, false, not, length, IfOk, OnErr};
ghost use Rattle.ath_sorts.specs.Signature.{Signature};
ghost use Rattle.ath_sorts.specs.Sorts.{image};
ghost use Rattle.ath_subst.specs.Binders.{binder_at, body_at};
ghost use Rattle.ath_terms.specs.SortsIn.{IsSortedIn};
ghost use Rattle.ath_terms.specs.Trees.{sent_at, Grows, IsTermOf, IsSent};
ghost use Rattle.ath_trees.specs.Occurrences.{every_var, renewed};
ghost use Rattle.ath_trees.specs.Renamed.{renamed};
ghost use Rattle.ath_trees.specs.SortUnder.{is_met};
ghost use Rattle.ath_trees.specs.Tree.{var};
ghost use Rattle.ath_trees.specs.Under.{var_under};
ghost use Rattle.ath_trees.specs.Variables.{same_var, free_vars};
ghost use Rattle.ath_trees.specs.WellSorted.{is_valid_sort};

use crate::meeting::is_met_past;
use crate::occurrences::{add_copies, add_every_var, renewed};
use crate::renaming::renamed_sent;
use ath_sorts::SortSubst;
use ath_sorts::sorts::copied;
use ath_terms::variables::copied_var;
use ath_terms::{Store, TermNode};
use ath_trees::{SentId, TermId, Var};
use std::alloc::{AllocError, Global};

/// A binder with its body.
#[derive(Drop)]
pub struct Binder {
    pub variable: Var,
    pub body: SentId,
}

/// The term of a variable.
pub fn add_var(store: &mut Store, v: &Var) -> Result<TermId, AllocError>
    ensures grows { Grows store.old store.new }
    ensures tree { IfOk result (λ t. IsTermOf store.new t.0 (var v.now) v.now.sort) }
    ensures sorted { (sig : Signature) → IsSortedIn sig store.old → is_valid_sort sig v.now.sort ≡ true → IsSortedIn sig store.new }
{
    let copy = copied_var(v)?;
    let sort = copied(&v.sort)?;
    let term = store.add_term(TermNode::Var(copy), sort, 1, 1)?;
    Ok(term)
}

/// The binder at the least index that is nowhere in its body and that no used variable has, with its body.
pub fn renamed_binder(
    alloc: Global,
    store: &mut Store,
    used: &[Var],
    v: &Var,
    body: SentId,
) -> Result<Binder, AllocError>
    requires { body.0 < length store.old.sents }
    ensures grows { Grows store.old store.new }
    ensures variable { IfOk result (λ b. b.variable ≡ renewed v.now (used.now ++ every_var (sent_at store.old.sents body.0))) }
    ensures body { IfOk result (λ b. IsSent store.new b.body.0 (renamed v.now (renewed v.now (used.now ++ every_var (sent_at store.old.sents body.0))) (sent_at store.old.sents body.0))) }
    ensures sorted { (sig : Signature) → IsSortedIn sig store.old → is_valid_sort sig v.now.sort ≡ true → IsSortedIn sig store.new }
{
    let mut all = Vec::new(alloc);
    add_copies(&mut all, used)?;
    add_every_var(alloc, store, &mut all, body)?;
    let variable = renewed(v, all.as_slice())?;
    let term = add_var(store, &variable)?;
    let inner = renamed_sent(alloc, store, body, v, &variable, term)?;
    Ok(Binder {
        variable,
        body: inner,
    })
}

/// The binder with its body, renamed where another free variable of its body comes to its name, index and sort.
pub fn free_binder(
    alloc: Global,
    store: &mut Store,
    subst: &SortSubst,
    v: Var,
    body: SentId,
) -> Result<Binder, AllocError>
    requires { body.0 < length store.old.sents }
    ensures grows { Grows store.old store.new }
    ensures variable { IfOk result (λ b. b.variable ≡ binder_at (image subst.now) v (sent_at store.old.sents body.0)) }
    ensures body { IfOk result (λ b. IsSent store.new b.body.0 (body_at (image subst.now) v (sent_at store.old.sents body.0))) }
    ensures same { is_met (image subst.now) v (free_vars (sent_at store.old.sents body.0)) ≡ false → IfOk result (λ b. (b.body ≡ body) × (store.new ≡ store.old)) }
    ensures sorted { (sig : Signature) → IsSortedIn sig store.old → is_valid_sort sig v.sort ≡ true → IsSortedIn sig store.new }
{
    let none = Vec::new(alloc);
    let met = is_met_past(alloc, store, subst, &v, none.as_slice(), body)?;
    if !met {
        return Ok(Binder { variable: v, body });
    }
    let renamed = renamed_binder(alloc, store, none.as_slice(), &v, body)?;
    Ok(renamed)
}
