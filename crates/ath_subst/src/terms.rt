// Terms of a store under a sort substitution. Only what it changes has new nodes.

ghost use Rattle.std.specs.Prelude.{◌≡◌, ◌<◌, ◌&&◌, ◌↔◌, IsTrue, true, length, map, IfOk};
ghost use Rattle.std.specs.List.{list_all};
ghost use Rattle.ath_sorts.specs.Sorts.{is_small, image, apply_to};
ghost use Rattle.ath_sorts.specs.Signature.{Signature};
ghost use Rattle.ath_sorts.specs.declared.sorts.SVar.{SVar};
ghost use Rattle.ath_terms.specs.Trees.{term_at, sort_at, Grows, IsTermOf};
ghost use Rattle.ath_trees.specs.SortsIn.{has_small_sorts};
ghost use Rattle.ath_terms.specs.SortsIn.{IsSortedIn};
ghost use Rattle.ath_trees.specs.Under.{term_under};
ghost use Rattle.ath_subst.specs.Same.{IsSame};
ghost use Rattle.ath_subst.specs.Under.{node_under};
ghost use Rattle.ath_trees.specs.WellSorted.{is_valid_sort};

use crate::keeping::{keeps_small_term, keeps_term, leaves_term};
use crate::kept::keep_term;
use crate::nodes::{are_same_terms, is_same_term_node};
use ath_sorts::sorts::is_same;
use ath_sorts::{Sort, SortSubst};
use ath_terms::{Store, TermNode};
use ath_trees::{TermId, Var};
use sqlite_items::Items;
use std::alloc::{AllocError, Global};

pub fn are_sorts_within(subst: &SortSubst, sorts: &[Sort]) -> bool
    ensures { result ≡ list_all (λ s. is_small (apply_to (image subst.now) s)) sorts.now }
{
    for sort in sorts {
        if !subst.is_within_limits(sort) {
            return false;
        }
    }
    true
}

/// Whether the sorts of the term under the substitution are within the limits.
pub fn is_term_within(store: &Store, subst: &SortSubst, t: TermId) -> bool
    requires { t.0 < length store.now.terms }
    ensures { (sig : Signature) → IsSortedIn sig store.now → result ≡ has_small_sorts sig (term_under (image subst.now) (term_at store.now.terms t.0)) }
{
    if keeps_small_term(store, subst, t) {
        return true;
    }
    if !subst.is_within_limits(store.sort_of(t)) {
        return false;
    }
    match store.term(t) {
        TermNode::Var(_) => true,
        TermNode::App(_, sorts, args) => {
            if !are_sorts_within(subst, sorts.as_slice()) {
                return false;
            }
            let parts = args.as_slice();
            for i in 0..parts.len() {
                if !is_term_within(store, subst, parts[i]) {
                    return false;
                }
            }
            true
        }
    }
}

pub fn are_both_within(store: &Store, subst: &SortSubst, s: TermId, t: TermId) -> bool
    requires left { s.0 < length store.now.terms }
    requires right { t.0 < length store.now.terms }
    ensures { (sig : Signature) → IsSortedIn sig store.now → result ≡ (has_small_sorts sig (term_under (image subst.now) (term_at store.now.terms s.0)) && has_small_sorts sig (term_under (image subst.now) (term_at store.now.terms t.0))) }
{
    if !is_term_within(store, subst, s) {
        return false;
    }
    is_term_within(store, subst, t)
}

pub fn sorts_under(
    alloc: Global,
    subst: &SortSubst,
    sorts: &[Sort],
) -> Result<Items<Sort>, AllocError>
    ensures { IfOk result (λ r. r ≡ map (apply_to (image subst.now)) sorts.now) }
{
    let mut images = Items::new(alloc);
    for sort in sorts {
        images.push(subst.applied(alloc, sort)?)?;
    }
    Ok(images)
}

/// The node with its sorts under the substitution, and with the parts that it has.
fn node_under(alloc: Global, subst: &SortSubst, node: &TermNode) -> Result<TermNode, AllocError>
    ensures { IfOk result (λ n. n ≡ node_under (image subst.now) node.now) }
{
    match node {
        TermNode::Var(v) => {
            let sort = subst.applied(alloc, &v.sort)?;
            Ok(TermNode::Var(Var {
                name: v.name,
                index: v.index,
                sort,
            }))
        }
        TermNode::App(symbol, sorts, args) => {
            let images = sorts_under(alloc, subst, sorts.as_slice())?;
            let parts = Items::from_slice(alloc, args.as_slice())?;
            Ok(TermNode::App(*symbol, images, parts))
        }
    }
}

/// Whether two nodes are one, with the sorts that are kept with them.
fn are_one(some: &TermNode, sort: &Sort, other: &TermNode, whole: &Sort) -> bool
    ensures { IsTrue result ↔ ((some.now ≡ other.now) × (sort.now ≡ whole.now)) }
{
    is_same_term_node(some, other) && is_same(sort, whole)
}

/// Whether a node stays with all its parts.
fn all_stay(stays: bool, old: &[TermId], new: &[TermId]) -> bool
    ensures { IsTrue result ↔ (IsTrue stays × (old.now ≡ new.now)) }
{
    stays && are_same_terms(old, new)
}

/// The term under the substitution, part by part. A part that comes out as it was keeps its number.
fn renewed_term(
    alloc: Global,
    store: &mut Store,
    subst: &SortSubst,
    t: TermId,
) -> Result<TermId, AllocError>
    requires { t.0 < length store.old.terms }
    ensures grows { Grows store.old store.new }
    ensures same { (sig : Signature) → IsSortedIn sig store.old → term_under (image subst.now) (term_at store.old.terms t.0) ≡ term_at store.old.terms t.0 → IsSame store.old store.new t result }
    ensures sorted { (sig : Signature) → IsSortedIn sig store.old → ((v : SVar) → is_valid_sort sig (image subst.now v) ≡ true) → IsSortedIn sig store.new }
    ensures tree { IfOk result (λ r. IsTermOf store.new r.0 (term_under (image subst.now) (term_at store.old.terms t.0)) (apply_to (image subst.now) (sort_at store.old.sorts t.0))) }
{
    if keeps_term(store, subst, t) {
        return Ok(t);
    }
    let nodes = store.size(t);
    let levels = store.depth(t);
    let from = store.term(t);
    let node = node_under(alloc, subst, from)?;
    let sort = subst.applied(alloc, store.sort_of(t))?;
    let stays = are_one(from, store.sort_of(t), &node, &sort);
    match node {
        TermNode::Var(v) => {
            let term = keep_term(store, t, stays, TermNode::Var(v), sort, nodes, levels)?;
            Ok(term)
        }
        TermNode::App(symbol, sorts, args) => {
            let ids = args.as_slice();
            let mut parts = Items::new(alloc);
            for i in 0..ids.len() {
                let part = renewed_term(alloc, store, subst, ids[i])?;
                parts.push(part)?;
            }
            let is_left = all_stay(stays, ids, parts.as_slice());
            let whole = TermNode::App(symbol, sorts, parts);
            let term = keep_term(store, t, is_left, whole, sort, nodes, levels)?;
            Ok(term)
        }
    }
}

/// The term under the substitution. Where it is left as it is, nothing is copied.
pub fn term_under(
    alloc: Global,
    store: &mut Store,
    subst: &SortSubst,
    t: TermId,
) -> Result<TermId, AllocError>
    requires { t.0 < length store.old.terms }
    ensures grows { Grows store.old store.new }
    ensures tree { IfOk result (λ r. IsTermOf store.new r.0 (term_under (image subst.now) (term_at store.old.terms t.0)) (apply_to (image subst.now) (sort_at store.old.sorts t.0))) }
    ensures same { (sig : Signature) → IsSortedIn sig store.old → term_under (image subst.now) (term_at store.old.terms t.0) ≡ term_at store.old.terms t.0 → IsSame store.old store.new t result }
    ensures sorted { (sig : Signature) → IsSortedIn sig store.old → ((v : SVar) → is_valid_sort sig (image subst.now v) ≡ true) → IsSortedIn sig store.new }
{
    if leaves_term(store, subst, t) {
        return Ok(t);
    }
    let term = renewed_term(alloc, store, subst, t)?;
    Ok(term)
}
