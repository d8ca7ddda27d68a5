// Whether another free variable of a sentence comes to a given one at other sorts. Only parts that may have its name are looked at.

ghost use Rattle.std.specs.Prelude.{◌≡◌, ◌<◌, length, IfOk};
ghost use Rattle.std.specs.List.{list_any};
ghost use Rattle.ath_sorts.specs.Sorts.{image};
ghost use Rattle.ath_subst.specs.Meeting.{meets, meets_past, past};
ghost use Rattle.ath_terms.specs.Trees.{term_at, sent_at};
ghost use Rattle.ath_trees.specs.Under.{var_under};
ghost use Rattle.ath_trees.specs.Variables.{term_vars, free_vars};

use crate::captures::{lacks_name, sent_lacks_name};
use crate::occurrences::add_copies;
use ath_sorts::SortSubst;
use ath_terms::variables::{copied_var, is_found, is_namesake, is_same_var};
use ath_terms::{SentNode, Store, TermNode};
use ath_trees::{SentId, TermId, Var};
use std::alloc::{AllocError, Global};

/// The variable with its sort under the substitution.
pub fn var_under(alloc: Global, subst: &SortSubst, v: &Var) -> Result<Var, AllocError>
    ensures { IfOk result (λ w. w ≡ var_under (image subst.now) v.now) }
{
    let sort = subst.applied(alloc, &v.sort)?;
    Ok(Var {
        name: v.name,
        index: v.index,
        sort,
    })
}

/// Whether w is another variable and comes to v.
fn meets(alloc: Global, subst: &SortSubst, v: &Var, w: &Var) -> Result<bool, AllocError>
    ensures { IfOk result (λ b. b ≡ meets (image subst.now) v.now w.now) }
{
    if !is_namesake(v, w) {
        return Ok(false);
    }
    if is_same_var(v, w) {
        return Ok(false);
    }
    let own = var_under(alloc, subst, v)?;
    let other = var_under(alloc, subst, w)?;
    let same = is_same_var(&own, &other);
    Ok(same)
}

/// Whether w, where these are bound, is another variable and comes to v.
fn meets_past(
    alloc: Global,
    subst: &SortSubst,
    v: &Var,
    bound: &[Var],
    w: &Var,
) -> Result<bool, AllocError>
    ensures { IfOk result (λ b. b ≡ meets_past (image subst.now) v.now bound.now w.now) }
{
    if is_found(bound, w) {
        return Ok(false);
    }
    let met = meets(alloc, subst, v, w)?;
    Ok(met)
}

/// The bound variables with that of one more binder, where it would come to v.
fn past(
    alloc: Global,
    subst: &SortSubst,
    v: &Var,
    bound: &[Var],
    u: &Var,
) -> Result<Vec<Var>, AllocError>
    ensures { IfOk result (λ r. r.items ≡ past (image subst.now) v.now bound.now u.now) }
{
    let mut all = Vec::new(alloc);
    add_copies(&mut all, bound)?;
    let met = meets(alloc, subst, v, u)?;
    if met {
        let copy = copied_var(u)?;
        all.push(copy)?;
    }
    Ok(all)
}

/// Whether another variable of the term, none of these, comes to v.
fn is_met_in_term(
    alloc: Global,
    store: &Store,
    subst: &SortSubst,
    t: TermId,
    v: &Var,
    bound: &[Var],
) -> Result<bool, AllocError>
    requires { t.0 < length store.now.terms }
    ensures { IfOk result (λ b. b ≡ list_any (meets_past (image subst.now) v.now bound.now) (term_vars (term_at store.now.terms t.0))) }
{
    if lacks_name(store, t, v) {
        return Ok(false);
    }
    match store.term(t) {
        TermNode::Var(w) => {
            let met = meets_past(alloc, subst, v, bound, w)?;
            Ok(met)
        }
        TermNode::App(_, _, args) => {
            let parts = args.as_slice();
            for i in 0..parts.len() {
                let met = is_met_in_term(alloc, store, subst, parts[i], v, bound)?;
                if met {
                    return Ok(true);
                }
            }
            Ok(false)
        }
    }
}

/// Whether another free variable of the sentence, none of these, comes to v.
pub fn is_met_past(
    alloc: Global,
    store: &Store,
    subst: &SortSubst,
    v: &Var,
    bound: &[Var],
    p: SentId,
) -> Result<bool, AllocError>
    requires { p.0 < length store.now.sents }
    ensures { IfOk result (λ b. b ≡ list_any (meets_past (image subst.now) v.now bound.now) (free_vars (sent_at store.now.sents p.0))) }
{
    if sent_lacks_name(store, p, v) {
        return Ok(false);
    }
    match store.sent(p) {
        SentNode::Atom(t) => {
            let met = is_met_in_term(alloc, store, subst, *t, v, bound)?;
            Ok(met)
        }
        SentNode::Eq(s, t) => {
            let met = is_met_in_term(alloc, store, subst, *s, v, bound)?;
            if met {
                return Ok(true);
            }
            let other = is_met_in_term(alloc, store, subst, *t, v, bound)?;
            Ok(other)
        }
        SentNode::Conn(_, ids) => {
            let parts = ids.as_slice();
            for i in 0..parts.len() {
                let met = is_met_past(alloc, store, subst, v, bound, parts[i])?;
                if met {
                    return Ok(true);
                }
            }
            Ok(false)
        }
        SentNode::Quant(_, u, body) => {
            let inner = past(alloc, subst, v, bound, u)?;
            let met = is_met_past(alloc, store, subst, v, inner.as_slice(), *body)?;
            Ok(met)
        }
    }
}
