// When two numbers stand for one tree.

ghost use Rattle.std.specs.Prelude.{◌≡◌, ◌<◌, ◌↔◌, IsTrue, length};
ghost use Rattle.ath_terms.specs.Trees.{Trees, term_at, sent_at};

use crate::found::is_same_var;
use crate::node::{SentNode, TermNode};
use crate::store::Store;
use ath_sorts::Sort;
use ath_sorts::sorts::is_same;
use ath_trees::{Conn, SentId, TermId};

/// Whether two lists of sorts are one.
pub fn are_same_sorts(some: &[Sort], others: &[Sort]) -> bool
    ensures { IsTrue result ↔ (some.now ≡ others.now) }
{
    if some.len() != others.len() {
        return false;
    }
    for i in 0..some.len() {
        if !is_same(&some[i], &others[i]) {
            return false;
        }
    }
    true
}

/// Whether two terms are one tree.
pub fn is_same_term(store: &Store, s: TermId, t: TermId) -> bool
    requires left { s.0 < length store.now.terms }
    requires right { t.0 < length store.now.terms }
    ensures { IsTrue result ↔ (term_at store.now.terms s.0 ≡ term_at store.now.terms t.0) }
{
    match store.term(s) {
        TermNode::Var(v) => match store.term(t) {
            TermNode::Var(w) => is_same_var(v, w),
            TermNode::App(_, _, _) => false,
        },
        TermNode::App(f, sorts, args) => match store.term(t) {
            TermNode::Var(_) => false,
            TermNode::App(g, others, parts) => {
                let xs = args.as_slice();
                let ys = parts.as_slice();
                if f.0 != g.0 || xs.len() != ys.len() {
                    return false;
                }
                if !are_same_sorts(sorts.as_slice(), others.as_slice()) {
                    return false;
                }
                for i in 0..xs.len() {
                    if !is_same_term(store, xs[i], ys[i]) {
                        return false;
                    }
                }
                true
            }
        },
    }
}

/// Whether two sentences are one tree.
pub fn is_same_sent(store: &Store, p: SentId, q: SentId) -> bool
    requires left { p.0 < length store.now.sents }
    requires right { q.0 < length store.now.sents }
    ensures { IsTrue result ↔ (sent_at store.now.sents p.0 ≡ sent_at store.now.sents q.0) }
{
    match store.sent(p) {
        SentNode::Atom(s) => match store.sent(q) {
            SentNode::Atom(t) => is_same_term(store, *s, *t),
            SentNode::Eq(_, _) => false,
            SentNode::Conn(_, _) => false,
            SentNode::Quant(_, _, _) => false,
        },
        SentNode::Eq(s, t) => match store.sent(q) {
            SentNode::Atom(_) => false,
            SentNode::Eq(u, v) => is_same_term(store, *s, *u) && is_same_term(store, *t, *v),
            SentNode::Conn(_, _) => false,
            SentNode::Quant(_, _, _) => false,
        },
        SentNode::Conn(c, some) => match store.sent(q) {
            SentNode::Atom(_) => false,
            SentNode::Eq(_, _) => false,
            SentNode::Conn(d, others) => {
                let xs = some.as_slice();
                let ys = others.as_slice();
                if *c != *d || xs.len() != ys.len() {
                    return false;
                }
                for i in 0..xs.len() {
                    if !is_same_sent(store, xs[i], ys[i]) {
                        return false;
                    }
                }
                true
            }
            SentNode::Quant(_, _, _) => false,
        },
        SentNode::Quant(k, v, body) => match store.sent(q) {
            SentNode::Atom(_) => false,
            SentNode::Eq(_, _) => false,
            SentNode::Conn(_, _) => false,
            SentNode::Quant(l, w, other) => {
                if *k != *l {
                    return false;
                }
                if !is_same_var(v, w) {
                    return false;
                }
                is_same_sent(store, *body, *other)
            }
        },
    }
}
