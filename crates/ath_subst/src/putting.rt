// Terms of a store with a term in place of a variable. Only what it changes has new nodes.

ghost use Rattle.std.specs.Prelude.{◌≡◌, ◌<◌, length, IfOk};
ghost use Rattle.ath_sorts.specs.Signature.{Signature};
ghost use Rattle.ath_subst.specs.Same.{IsSame};
ghost use Rattle.ath_terms.specs.SortsIn.{IsSortedIn};
ghost use Rattle.ath_terms.specs.Trees.{term_at, sort_at, Grows, IsTerm};
ghost use Rattle.ath_trees.specs.Measure.{IsSmall};
ghost use Rattle.ath_trees.specs.Substitution.{subst_term};
ghost use Rattle.ath_trees.specs.Tree.{atom};

use crate::captures::lacks;
use crate::kept::keep_term;
use crate::nodes::are_same_terms;
use ath_sorts::sorts::copied;
use ath_terms::equality::is_same_term;
use ath_terms::plain::{copied_sorts, list_depth, list_size};
use ath_terms::variables::{copied_var, is_same_var};
use ath_terms::{Store, TermNode};
use ath_trees::{TermId, Var};
use sqlite_items::Items;
use std::alloc::{AllocError, Global};

fn copied_term(alloc: Global, node: &TermNode) -> Result<TermNode, AllocError>
    ensures { IfOk result (λ copy. copy ≡ node.now) }
{
    match node {
        TermNode::Var(v) => {
            let copy = copied_var(v)?;
            Ok(TermNode::Var(copy))
        }
        TermNode::App(f, sorts, args) => {
            let copies = copied_sorts(alloc, sorts.as_slice())?;
            let parts = Items::from_slice(alloc, args.as_slice())?;
            Ok(TermNode::App(*f, copies, parts))
        }
    }
}

/// The term with another in place of a variable of its sort, part by part, where that is within the limits. A part that comes
/// out as it was keeps its number.
pub fn put_term(
    alloc: Global,
    store: &mut Store,
    t: TermId,
    x: &Var,
    by: TermId,
) -> Result<TermId, AllocError>
    requires inside { t.0 < length store.old.terms }
    requires there { by.0 < length store.old.terms }
    requires small { IsSmall (atom (subst_term x.now (term_at store.old.terms by.0) (term_at store.old.terms t.0))) }
    ensures grows { Grows store.old store.new }
    ensures tree { IfOk result (λ r. IsTerm store.new r.0 (subst_term x.now (term_at store.old.terms by.0) (term_at store.old.terms t.0))) }
    ensures same { subst_term x.now (term_at store.old.terms by.0) (term_at store.old.terms t.0) ≡ term_at store.old.terms t.0 → IsSame store.old store.new t result }
    ensures sorted { (sig : Signature) → IsSortedIn sig store.old → sort_at store.old.sorts by.0 ≡ x.now.sort → IsSortedIn sig store.new }
{
    if lacks(store, t, x) {
        return Ok(t);
    }
    let node = copied_term(alloc, store.term(t))?;
    match node {
        TermNode::Var(v) => {
            if !is_same_var(x, &v) {
                return Ok(t);
            }
            if is_same_term(store, t, by) {
                return Ok(t);
            }
            Ok(by)
        }
        TermNode::App(f, sorts, args) => {
            let ids = args.as_slice();
            let mut parts = Items::new(alloc);
            for i in 0..ids.len() {
                let part = put_term(alloc, store, ids[i], x, by)?;
                parts.push(part)?;
            }
            let nodes = 1 + list_size(store, parts.as_slice());
            let levels = 1 + list_depth(store, parts.as_slice());
            let sort = copied(store.sort_of(t))?;
            let is_left = are_same_terms(ids, parts.as_slice());
            let whole = TermNode::App(f, sorts, parts);
            let term = keep_term(store, t, is_left, whole, sort, nodes, levels)?;
            Ok(term)
        }
    }
}
