// When two nodes are one, with parts of the same numbers.

ghost use Rattle.std.specs.Prelude.{◌≡◌, ◌↔◌, IsTrue};

use ath_terms::equality::are_same_sorts;
use ath_terms::variables::is_same_var;
use ath_terms::{SentNode, TermNode};
use ath_trees::{Conn, SentId, TermId};

/// Whether two lists of terms are one, by number.
pub fn are_same_terms(some: &[TermId], others: &[TermId]) -> bool
    ensures { IsTrue result ↔ (some.now ≡ others.now) }
{
    if some.len() != others.len() {
        return false;
    }
    for i in 0..some.len() {
        if some[i].0 != others[i].0 {
            return false;
        }
    }
    true
}

fn are_same_sents(some: &[SentId], others: &[SentId]) -> bool
    ensures { IsTrue result ↔ (some.now ≡ others.now) }
{
    if some.len() != others.len() {
        return false;
    }
    for i in 0..some.len() {
        if some[i].0 != others[i].0 {
            return false;
        }
    }
    true
}

/// Whether two nodes are one, with parts of the same numbers.
pub fn is_same_term_node(some: &TermNode, other: &TermNode) -> bool
    ensures { IsTrue result ↔ (some.now ≡ other.now) }
{
    match some {
        TermNode::Var(v) => match other {
            TermNode::Var(w) => is_same_var(v, w),
            TermNode::App(_, _, _) => false,
        },
        TermNode::App(f, sorts, args) => match other {
            TermNode::Var(_) => false,
            TermNode::App(g, others, parts) => {
                if f.0 != g.0 {
                    return false;
                }
                if !are_same_terms(args.as_slice(), parts.as_slice()) {
                    return false;
                }
                are_same_sorts(sorts.as_slice(), others.as_slice())
            }
        },
    }
}

/// Whether two nodes are one, with parts of the same numbers.
pub fn is_same_sent_node(some: &SentNode, other: &SentNode) -> bool
    ensures { IsTrue result ↔ (some.now ≡ other.now) }
{
    match some {
        SentNode::Atom(s) => match other {
            SentNode::Atom(t) => s.0 == t.0,
            SentNode::Eq(_, _) => false,
            SentNode::Conn(_, _) => false,
            SentNode::Quant(_, _, _) => false,
        },
        SentNode::Eq(s, t) => match other {
            SentNode::Atom(_) => false,
            SentNode::Eq(u, v) => s.0 == u.0 && t.0 == v.0,
            SentNode::Conn(_, _) => false,
            SentNode::Quant(_, _, _) => false,
        },
        SentNode::Conn(c, ids) => match other {
            SentNode::Atom(_) => false,
            SentNode::Eq(_, _) => false,
            SentNode::Conn(d, others) => {
                if *c != *d {
                    return false;
                }
                are_same_sents(ids.as_slice(), others.as_slice())
            }
            SentNode::Quant(_, _, _) => false,
        },
        SentNode::Quant(k, v, body) => match other {
            SentNode::Atom(_) => false,
            SentNode::Eq(_, _) => false,
            SentNode::Conn(_, _) => false,
            SentNode::Quant(l, w, inner) => {
                if *k != *l {
                    return false;
                }
                if body.0 != inner.0 {
                    return false;
                }
                is_same_var(v, w)
            }
        },
    }
}
