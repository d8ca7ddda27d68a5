// Sentences of a store with a term in place of a variable. Only what it changes has new nodes.

ghost use Rattle.std.specs.Prelude.{◌≡◌, ◌<◌, length, IfOk};
ghost use Rattle.ath_sorts.specs.Signature.{Signature};
ghost use Rattle.ath_subst.specs.Same.{IsSame};
ghost use Rattle.ath_terms.specs.SortsIn.{IsSortedIn};
ghost use Rattle.ath_terms.specs.Nodes.{sent_tree, IsSentBelow};
ghost use Rattle.ath_terms.specs.Trees.{term_at, sort_at, sent_at, Grows, IsSent};
ghost use Rattle.ath_trees.specs.Measure.{IsSmall};
ghost use Rattle.ath_trees.specs.Substitution.{subst_sent};
ghost use Rattle.ath_trees.specs.Variables.{term_vars};

use crate::captures::{is_left, open_binder, sent_lacks};
use crate::kept::keep_small_sent;
use crate::putting::put_term;
use ath_terms::plain::copied_node;
use ath_terms::variables::copied_var;
use ath_terms::{SentNode, Store};
use ath_trees::{SentId, TermId, Var};
use sqlite_items::Items;
use std::alloc::{AllocError, Global};

/// The sentence with a term, whose variables are these, in place of a variable of its sort, part by part, where that is within
/// the limits. A part that comes out as it was keeps its number.
#[cycle(replacing)]
pub fn put_sent(
    alloc: Global,
    store: &mut Store,
    p: SentId,
    x: &Var,
    by: TermId,
    used: &[Var],
) -> Result<SentId, AllocError>
    requires inside { p.0 < length store.old.sents }
    requires there { by.0 < length store.old.terms }
    requires named { used.now ≡ term_vars (term_at store.old.terms by.0) }
    requires small { IsSmall (subst_sent x.now (term_at store.old.terms by.0) (sent_at store.old.sents p.0)) }
    ensures grows { Grows store.old store.new }
    ensures tree { IfOk result (λ r. IsSent store.new r.0 (subst_sent x.now (term_at store.old.terms by.0) (sent_at store.old.sents p.0))) }
    ensures same { subst_sent x.now (term_at store.old.terms by.0) (sent_at store.old.sents p.0) ≡ sent_at store.old.sents p.0 → IsSame store.old store.new p result }
    ensures sorted { (sig : Signature) → IsSortedIn sig store.old → sort_at store.old.sorts by.0 ≡ x.now.sort → IsSortedIn sig store.new }
{
    if sent_lacks(store, p, x) {
        return Ok(p);
    }
    let node = copied_node(alloc, store.sent(p))?;
    let sent = put_node(alloc, store, p, &node, x, by, used)?;
    Ok(sent)
}

/// The same of a node that the sentence has.
#[cycle(replacing)]
fn put_node(
    alloc: Global,
    store: &mut Store,
    p: SentId,
    node: &SentNode,
    x: &Var,
    by: TermId,
    used: &[Var],
) -> Result<SentId, AllocError>
    requires inside { p.0 < length store.old.sents }
    requires tree { sent_tree store.old.terms store.old.sents node.now ≡ sent_at store.old.sents p.0 }
    requires below { IsSentBelow (length store.old.terms) p.0 node.now }
    requires there { by.0 < length store.old.terms }
    requires named { used.now ≡ term_vars (term_at store.old.terms by.0) }
    requires small { IsSmall (subst_sent x.now (term_at store.old.terms by.0) (sent_at store.old.sents p.0)) }
    ensures grows { Grows store.old store.new }
    ensures tree { IfOk result (λ r. IsSent store.new r.0 (subst_sent x.now (term_at store.old.terms by.0) (sent_at store.old.sents p.0))) }
    ensures same { subst_sent x.now (term_at store.old.terms by.0) (sent_at store.old.sents p.0) ≡ sent_at store.old.sents p.0 → IsSame store.old store.new p result }
    ensures sorted { (sig : Signature) → IsSortedIn sig store.old → sort_at store.old.sorts by.0 ≡ x.now.sort → IsSortedIn sig store.new }
{
    match node {
        SentNode::Atom(t) => {
            let term = put_term(alloc, store, *t, x, by)?;
            let sent = keep_small_sent(store, p, node, SentNode::Atom(term))?;
            Ok(sent)
        }
        SentNode::Eq(s, t) => {
            let left = put_term(alloc, store, *s, x, by)?;
            let right = put_term(alloc, store, *t, x, by)?;
            let sent = keep_small_sent(store, p, node, SentNode::Eq(left, right))?;
            Ok(sent)
        }
        SentNode::Conn(c, ids) => {
            let from = ids.as_slice();
            let mut parts = Items::new(alloc);
            for i in 0..from.len() {
                let part = put_sent(alloc, store, from[i], x, by, used)?;
                parts.push(part)?;
            }
            let sent = keep_small_sent(store, p, node, SentNode::Conn(*c, parts))?;
            Ok(sent)
        }
        SentNode::Quant(k, v, body) => {
            let left = is_left(alloc, store, x, by, used, v, *body)?;
            if left {
                return Ok(p);
            }
            let own = copied_var(v)?;
            let binder = open_binder(alloc, store, by, used, own, *body)?;
            let inner = put_sent(alloc, store, binder.body, x, by, used)?;
            let whole = SentNode::Quant(*k, binder.variable, inner);
            let sent = keep_small_sent(store, p, node, whole)?;
            Ok(sent)
        }
    }
}
