// Nodes that are kept where a term or a sentence has them, and added else.

ghost use Rattle.std.specs.Prelude.{◌≡◌, ◌<◌, IsTrue, length, IfOk, OnErr};
ghost use Rattle.ath_sorts.specs.Signature.{Signature};
ghost use Rattle.ath_subst.specs.Same.{IsSame};
ghost use Rattle.ath_terms.specs.Kept.{IsTermKept, IsSentKept};
ghost use Rattle.ath_terms.specs.Nodes.{term_tree, sent_tree, IsTermBelow, IsSentBelow};
ghost use Rattle.ath_terms.specs.SortsIn.{IsSortedIn};
ghost use Rattle.ath_terms.specs.Trees.{Grows, IsTermOf, IsSent};
ghost use Rattle.ath_trees.specs.Measure.{IsSmall};
ghost use Rattle.ath_trees.specs.WellSorted.{HasSort, IsWellSorted};

use crate::nodes::is_same_sent_node;
use ath_sorts::Sort;
use ath_terms::plain::{node_depth, node_size};
use ath_terms::{SentNode, Store, TermNode};
use ath_trees::{SentId, TermId};
use std::alloc::AllocError;

/// Keeps a term that is left as it is, and adds its new node else.
pub fn keep_term(
    store: &mut Store,
    t: TermId,
    is_left: bool,
    node: TermNode,
    sort: Sort,
    nodes: u64,
    levels: u64,
) -> Result<TermId, AllocError>
    requires left { IsTrue is_left → IsTermOf store.old t.0 (term_tree store.old.terms node) sort }
    requires below { IsTermBelow (length store.old.terms) node }
    requires kept { IsTermKept (term_tree store.old.terms node) (record { nodes = nodes; levels = levels }) }
    ensures grows { Grows store.old store.new }
    ensures tree { IfOk result (λ r. IsTermOf store.new r.0 (term_tree store.old.terms node) sort) }
    ensures same { IsTrue is_left → IsSame store.old store.new t result }
    ensures sorted { IfOk result (λ r. (sig : Signature) → IsSortedIn sig store.old → HasSort sig (term_tree store.old.terms node) sort → IsSortedIn sig store.new) }
    ensures err { OnErr result (store.new ≡ store.old) }
{
    if is_left {
        return Ok(t);
    }
    let term = store.add_term(node, sort, nodes, levels)?;
    Ok(term)
}

/// Keeps a sentence where its new node is the one that it has, and adds the new one else.
pub fn keep_sent(
    store: &mut Store,
    p: SentId,
    from: &SentNode,
    node: SentNode,
    nodes: u64,
    levels: u64,
) -> Result<SentId, AllocError>
    requires from { IsSent store.old p.0 (sent_tree store.old.terms store.old.sents from.now) }
    requires below { IsSentBelow (length store.old.terms) (length store.old.sents) node }
    requires kept { IsSentKept (sent_tree store.old.terms store.old.sents node) (record { nodes = nodes; levels = levels }) }
    ensures grows { Grows store.old store.new }
    ensures tree { IfOk result (λ r. IsSent store.new r.0 (sent_tree store.old.terms store.old.sents node)) }
    ensures same { from.now ≡ node → IsSame store.old store.new p result }
    ensures sorted { IfOk result (λ r. (sig : Signature) → IsSortedIn sig store.old → IsWellSorted sig (sent_tree store.old.terms store.old.sents node) → IsSortedIn sig store.new) }
    ensures err { OnErr result (store.new ≡ store.old) }
{
    if is_same_sent_node(from, &node) {
        return Ok(p);
    }
    let sent = store.add_sent(node, nodes, levels)?;
    Ok(sent)
}

/// The same where the tree is within the limits. Its nodes and levels are counted here.
pub fn keep_small_sent(
    store: &mut Store,
    p: SentId,
    from: &SentNode,
    node: SentNode,
) -> Result<SentId, AllocError>
    requires from { IsSent store.old p.0 (sent_tree store.old.terms store.old.sents from.now) }
    requires below { IsSentBelow (length store.old.terms) (length store.old.sents) node }
    requires small { IsSmall (sent_tree store.old.terms store.old.sents node) }
    ensures grows { Grows store.old store.new }
    ensures tree { IfOk result (λ r. IsSent store.new r.0 (sent_tree store.old.terms store.old.sents node)) }
    ensures same { from.now ≡ node → IsSame store.old store.new p result }
    ensures sorted { IfOk result (λ r. (sig : Signature) → IsSortedIn sig store.old → IsWellSorted sig (sent_tree store.old.terms store.old.sents node) → IsSortedIn sig store.new) }
    ensures err { OnErr result (store.new ≡ store.old) }
{
    let nodes = node_size(store, &node);
    let levels = node_depth(store, &node);
    let sent = keep_sent(store, p, from, node, nodes, levels)?;
    Ok(sent)
}
