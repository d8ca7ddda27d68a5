// Sentences of a store at other sorts. Only what it changes has new nodes.

ghost use Rattle.std.specs.Prelude.{◌≡◌, ◌<◌, true, length, IfOk};
ghost use Rattle.ath_sorts.specs.Signature.{Signature};
ghost use Rattle.ath_sorts.specs.Sorts.{image};
ghost use Rattle.ath_sorts.specs.declared.sorts.SVar.{SVar};
ghost use Rattle.ath_subst.specs.Same.{IsSame};
ghost use Rattle.ath_terms.specs.Nodes.{sent_tree, IsSentBelow};
ghost use Rattle.ath_terms.specs.Trees.{sent_at, Grows, IsSent};
ghost use Rattle.ath_trees.specs.SortsIn.{sent_has_small_sorts};
ghost use Rattle.ath_terms.specs.SortsIn.{IsSortedIn};
ghost use Rattle.ath_trees.specs.Under.{sent_under};
ghost use Rattle.ath_trees.specs.SortUnder.{sent_at_sorts};
ghost use Rattle.ath_trees.specs.WellSorted.{is_valid_sort};

use crate::binders::free_binder;
use crate::keeping::{keeps_sent, keeps_small_sent, leaves_sent};
use crate::kept::keep_sent;
use crate::meeting::var_under;
use crate::terms::{are_both_within, is_term_within, term_under};
use ath_sorts::SortSubst;
use ath_terms::plain::copied_node;
use ath_terms::variables::copied_var;
use ath_terms::{SentNode, Store};
use ath_trees::SentId;
use sqlite_items::Items;
use std::alloc::{AllocError, Global};

/// Whether the images of its sorts are within the limits.
fn has_small_images(store: &Store, subst: &SortSubst, p: SentId) -> bool
    requires { p.0 < length store.now.sents }
    ensures { (sig : Signature) → IsSortedIn sig store.now → result ≡ sent_has_small_sorts sig (sent_under (image subst.now) (sent_at store.now.sents p.0)) }
{
    if keeps_small_sent(store, subst, p) {
        return true;
    }
    match store.sent(p) {
        SentNode::Atom(t) => is_term_within(store, subst, *t),
        SentNode::Eq(s, t) => are_both_within(store, subst, *s, *t),
        SentNode::Conn(_, ids) => {
            let parts = ids.as_slice();
            for i in 0..parts.len() {
                if !has_small_images(store, subst, parts[i]) {
                    return false;
                }
            }
            true
        }
        SentNode::Quant(_, v, body) => {
            if !subst.is_within_limits(&v.sort) {
                return false;
            }
            has_small_images(store, subst, *body)
        }
    }
}

/// Whether the sorts of the sentence at the other sorts are within the limits.
pub fn is_sent_within(store: &Store, subst: &SortSubst, p: SentId) -> bool
    requires { p.0 < length store.now.sents }
    ensures { (sig : Signature) → IsSortedIn sig store.now → result ≡ sent_has_small_sorts sig (sent_at_sorts (image subst.now) (sent_at store.now.sents p.0)) }
{
    has_small_images(store, subst, p)
}

/// The sentence at the other sorts, part by part. A part that comes out as it was keeps its number.
#[cycle(renewing)]
fn renewed_sent(
    alloc: Global,
    store: &mut Store,
    subst: &SortSubst,
    p: SentId,
) -> Result<SentId, AllocError>
    requires { p.0 < length store.old.sents }
    ensures grows { Grows store.old store.new }
    ensures same { (sig : Signature) → IsSortedIn sig store.old → sent_at_sorts (image subst.now) (sent_at store.old.sents p.0) ≡ sent_at store.old.sents p.0 → IsSame store.old store.new p result }
    ensures sorted { (sig : Signature) → IsSortedIn sig store.old → ((v : SVar) → is_valid_sort sig (image subst.now v) ≡ true) → IsSortedIn sig store.new }
    ensures tree { IfOk result (λ r. IsSent store.new r.0 (sent_at_sorts (image subst.now) (sent_at store.old.sents p.0))) }
{
    if keeps_sent(store, subst, p) {
        return Ok(p);
    }
    let node = copied_node(alloc, store.sent(p))?;
    let sent = renewed_node(alloc, store, subst, p, &node)?;
    Ok(sent)
}

/// The same of a node that the sentence has.
#[cycle(renewing)]
fn renewed_node(
    alloc: Global,
    store: &mut Store,
    subst: &SortSubst,
    p: SentId,
    node: &SentNode,
) -> Result<SentId, AllocError>
    requires inside { p.0 < length store.old.sents }
    requires tree { sent_tree store.old.terms store.old.sents node.now ≡ sent_at store.old.sents p.0 }
    requires below { IsSentBelow (length store.old.terms) p.0 node.now }
    ensures grows { Grows store.old store.new }
    ensures same { (sig : Signature) → IsSortedIn sig store.old → sent_at_sorts (image subst.now) (sent_at store.old.sents p.0) ≡ sent_at store.old.sents p.0 → IsSame store.old store.new p result }
    ensures sorted { (sig : Signature) → IsSortedIn sig store.old → ((v : SVar) → is_valid_sort sig (image subst.now v) ≡ true) → IsSortedIn sig store.new }
    ensures tree { IfOk result (λ r. IsSent store.new r.0 (sent_at_sorts (image subst.now) (sent_at store.old.sents p.0))) }
{
    let nodes = store.sent_size(p);
    let levels = store.sent_depth(p);
    match node {
        SentNode::Atom(t) => {
            let term = term_under(alloc, store, subst, *t)?;
            let sent = keep_sent(store, p, node, SentNode::Atom(term), nodes, levels)?;
            Ok(sent)
        }
        SentNode::Eq(s, t) => {
            let left = term_under(alloc, store, subst, *s)?;
            let right = term_under(alloc, store, subst, *t)?;
            let sent = keep_sent(store, p, node, SentNode::Eq(left, right), nodes, levels)?;
            Ok(sent)
        }
        SentNode::Conn(c, ids) => {
            let from = ids.as_slice();
            let mut parts = Items::new(alloc);
            for i in 0..from.len() {
                let part = renewed_sent(alloc, store, subst, from[i])?;
                parts.push(part)?;
            }
            let sent = keep_sent(store, p, node, SentNode::Conn(*c, parts), nodes, levels)?;
            Ok(sent)
        }
        SentNode::Quant(k, v, body) => {
            let own = copied_var(v)?;
            let binder = free_binder(alloc, store, subst, own, *body)?;
            let inner = renewed_sent(alloc, store, subst, binder.body)?;
            let variable = var_under(alloc, subst, &binder.variable)?;
            let whole = SentNode::Quant(*k, variable, inner);
            let sent = keep_sent(store, p, node, whole, nodes, levels)?;
            Ok(sent)
        }
    }
}

/// The sentence at other sorts. Where it is left as it is, nothing is copied.
pub fn sent_at_sorts(
    alloc: Global,
    store: &mut Store,
    subst: &SortSubst,
    p: SentId,
) -> Result<SentId, AllocError>
    requires { p.0 < length store.old.sents }
    ensures grows { Grows store.old store.new }
    ensures tree { IfOk result (λ r. IsSent store.new r.0 (sent_at_sorts (image subst.now) (sent_at store.old.sents p.0))) }
    ensures same { (sig : Signature) → IsSortedIn sig store.old → sent_at_sorts (image subst.now) (sent_at store.old.sents p.0) ≡ sent_at store.old.sents p.0 → IsSame store.old store.new p result }
    ensures sorted { (sig : Signature) → IsSortedIn sig store.old → ((v : SVar) → is_valid_sort sig (image subst.now v) ≡ true) → IsSortedIn sig store.new }
{
    if leaves_sent(store, subst, p) {
        return Ok(p);
    }
    let sent = renewed_sent(alloc, store, subst, p)?;
    Ok(sent)
}
