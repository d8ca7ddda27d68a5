// Sentences of a store in which one variable is renamed. Only what it changes has new nodes.

ghost use Rattle.std.specs.Prelude.{◌≡◌, ◌<◌, length, IfOk};
ghost use Rattle.ath_sorts.specs.Signature.{Signature};
ghost use Rattle.ath_subst.specs.Same.{IsSame};
ghost use Rattle.ath_terms.specs.Nodes.{sent_tree, IsSentBelow};
ghost use Rattle.ath_terms.specs.SortsIn.{IsSortedIn};
ghost use Rattle.ath_terms.specs.Trees.{sent_at, Grows, IsTermOf, IsSent};
ghost use Rattle.ath_trees.specs.Renamed.{renamed};
ghost use Rattle.ath_trees.specs.Tree.{var};

use crate::kept::keep_sent;
use crate::putting::put_term;
use ath_terms::plain::copied_node;
use ath_terms::variables::{copied_var, is_same_var};
use ath_terms::{SentNode, Store};
use ath_trees::{SentId, TermId, Var};
use sqlite_items::Items;
use std::alloc::{AllocError, Global};

/// The sentence with the variable z, which is the term `by`, for each free occurrence of y, part by part. A part that comes out
/// as it was keeps its number.
#[cycle(renaming)]
pub fn renamed_sent(
    alloc: Global,
    store: &mut Store,
    p: SentId,
    y: &Var,
    z: &Var,
    by: TermId,
) -> Result<SentId, AllocError>
    requires inside { p.0 < length store.old.sents }
    requires there { IsTermOf store.old by.0 (var z.now) y.now.sort }
    ensures grows { Grows store.old store.new }
    ensures tree { IfOk result (λ r. IsSent store.new r.0 (renamed y.now z.now (sent_at store.old.sents p.0))) }
    ensures same { renamed y.now z.now (sent_at store.old.sents p.0) ≡ sent_at store.old.sents p.0 → IsSame store.old store.new p result }
    ensures sorted { (sig : Signature) → IsSortedIn sig store.old → IsSortedIn sig store.new }
{
    let node = copied_node(alloc, store.sent(p))?;
    let sent = renamed_node(alloc, store, p, &node, y, z, by)?;
    Ok(sent)
}

/// The same of a node that the sentence has.
#[cycle(renaming)]
fn renamed_node(
    alloc: Global,
    store: &mut Store,
    p: SentId,
    node: &SentNode,
    y: &Var,
    z: &Var,
    by: TermId,
) -> Result<SentId, AllocError>
    requires inside { p.0 < length store.old.sents }
    requires tree { sent_tree store.old.terms store.old.sents node.now ≡ sent_at store.old.sents p.0 }
    requires below { IsSentBelow (length store.old.terms) p.0 node.now }
    requires there { IsTermOf store.old by.0 (var z.now) y.now.sort }
    ensures grows { Grows store.old store.new }
    ensures tree { IfOk result (λ r. IsSent store.new r.0 (renamed y.now z.now (sent_at store.old.sents p.0))) }
    ensures same { renamed y.now z.now (sent_at store.old.sents p.0) ≡ sent_at store.old.sents p.0 → IsSame store.old store.new p result }
    ensures sorted { (sig : Signature) → IsSortedIn sig store.old → IsSortedIn sig store.new }
{
    let nodes = store.sent_size(p);
    let levels = store.sent_depth(p);
    match node {
        SentNode::Atom(t) => {
            let term = put_term(alloc, store, *t, y, by)?;
            let sent = keep_sent(store, p, node, SentNode::Atom(term), nodes, levels)?;
            Ok(sent)
        }
        SentNode::Eq(s, t) => {
            let left = put_term(alloc, store, *s, y, by)?;
            let right = put_term(alloc, store, *t, y, by)?;
            let sent = keep_sent(store, p, node, SentNode::Eq(left, right), nodes, levels)?;
            Ok(sent)
        }
        SentNode::Conn(c, ids) => {
            let from = ids.as_slice();
            let mut parts = Items::new(alloc);
            for i in 0..from.len() {
                let part = renamed_sent(alloc, store, from[i], y, z, by)?;
                parts.push(part)?;
            }
            let sent = keep_sent(store, p, node, SentNode::Conn(*c, parts), nodes, levels)?;
            Ok(sent)
        }
        SentNode::Quant(k, v, body) => {
            if is_same_var(y, v) {
                return Ok(p);
            }
            let inner = renamed_sent(alloc, store, *body, y, z, by)?;
            let own = copied_var(v)?;
            let whole = SentNode::Quant(*k, own, inner);
            let sent = keep_sent(store, p, node, whole, nodes, levels)?;
            Ok(sent)
        }
    }
}
