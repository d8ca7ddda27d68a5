// Sentences of a store that are alike but for the names and indices of their bound variables.

ghost use Rattle.std.specs.Prelude.{◌≡◌, ◌<◌, ◌↔◌, IsTrue, length};
ghost use Rattle.ath_alpha.specs.Binders.{lefts_of, rights_of};
ghost use Rattle.ath_alpha.specs.Seen.{sort_seen, sorts_seen, var_seen, term_seen, seen};
ghost use Rattle.ath_terms.specs.Trees.{Trees, term_at, sent_at};
ghost use Rattle.ath_trees.specs.Instance.{is_alpha_equal};
ghost use Rattle.ath_trees.specs.Nameless.{placed, nameless_term, nameless_under};

use crate::binders::{Binders, Meeting, meeting_of};
use ath_sorts::Sort;
use ath_sorts::sorts::is_same;
use ath_terms::equality::are_same_sorts;
use ath_terms::variables::{is_namesake, is_same_var};
use ath_terms::{SentNode, Store, TermNode};
use ath_trees::{SentId, TermId, Var};

fn is_like_sort(told: bool, s: &Sort, t: &Sort) -> bool
    ensures { IsTrue result ↔ (sort_seen told s.now ≡ sort_seen told t.now) }
{
    if told { is_same(s, t) } else { true }
}

fn are_like_sorts(told: bool, some: &[Sort], others: &[Sort]) -> bool
    ensures { IsTrue result ↔ (sorts_seen told some.now ≡ sorts_seen told others.now) }
{
    if told {
        are_same_sorts(some, others)
    } else {
        true
    }
}

fn is_like_free(told: bool, v: &Var, w: &Var) -> bool
    ensures { IsTrue result ↔ (var_seen told v.now ≡ var_seen told w.now) }
{
    if told {
        is_same_var(v, w)
    } else {
        is_namesake(v, w)
    }
}

fn is_like_var(told: bool, binders: &Binders, v: &Var, w: &Var) -> bool
    ensures { IsTrue result ↔ (term_seen told (placed (lefts_of binders.now) 0 v.now) ≡ term_seen told (placed (rights_of binders.now) 0 w.now)) }
{
    match meeting_of(binders, v, w) {
        Meeting::Bound => true,
        Meeting::Free => is_like_free(told, v, w),
        Meeting::Apart => false,
    }
}

fn are_like_terms(store: &Store, told: bool, binders: &Binders, s: TermId, t: TermId) -> bool
    requires left { s.0 < length store.now.terms }
    requires right { t.0 < length store.now.terms }
    ensures { IsTrue result ↔ (term_seen told (nameless_term (lefts_of binders.now) (term_at store.now.terms s.0)) ≡ term_seen told (nameless_term (rights_of binders.now) (term_at store.now.terms t.0))) }
{
    match store.term(s) {
        TermNode::Var(v) => match store.term(t) {
            TermNode::Var(w) => is_like_var(told, binders, v, w),
            TermNode::App(_, _, _) => false,
        },
        TermNode::App(f, sorts, args) => match store.term(t) {
            TermNode::Var(_) => false,
            TermNode::App(g, rest, parts) => {
                let xs = args.as_slice();
                let ys = parts.as_slice();
                if f.0 != g.0 || xs.len() != ys.len() {
                    return false;
                }
                if !are_like_sorts(told, sorts.as_slice(), rest.as_slice()) {
                    return false;
                }
                for i in 0..xs.len() {
                    if !are_like_terms(store, told, binders, xs[i], ys[i]) {
                        return false;
                    }
                }
                true
            }
        },
    }
}

/// Whether two sentences under binders are alike, with their sorts where these are told.
pub fn are_like_sents(store: &Store, told: bool, binders: &Binders, p: SentId, q: SentId) -> bool
    requires left { p.0 < length store.now.sents }
    requires right { q.0 < length store.now.sents }
    ensures { IsTrue result ↔ (seen told (nameless_under (lefts_of binders.now) (sent_at store.now.sents p.0)) ≡ seen told (nameless_under (rights_of binders.now) (sent_at store.now.sents q.0))) }
{
    match store.sent(p) {
        SentNode::Atom(s) => match store.sent(q) {
            SentNode::Atom(t) => are_like_terms(store, told, binders, *s, *t),
            SentNode::Eq(_, _) => false,
            SentNode::Conn(_, _) => false,
            SentNode::Quant(_, _, _) => false,
        },
        SentNode::Eq(s, t) => match store.sent(q) {
            SentNode::Atom(_) => false,
            SentNode::Eq(u, v) => {
                are_like_terms(store, told, binders, *s, *u)
                    && are_like_terms(store, told, binders, *t, *v)
            }
            SentNode::Conn(_, _) => false,
            SentNode::Quant(_, _, _) => false,
        },
        SentNode::Conn(c, ids) => match store.sent(q) {
            SentNode::Atom(_) => false,
            SentNode::Eq(_, _) => false,
            SentNode::Conn(d, rest) => {
                let xs = ids.as_slice();
                let ys = rest.as_slice();
                if *c != *d || xs.len() != ys.len() {
                    return false;
                }
                for i in 0..xs.len() {
                    if !are_like_sents(store, told, binders, xs[i], ys[i]) {
                        return false;
                    }
                }
                true
            }
            SentNode::Quant(_, _, _) => false,
        },
        SentNode::Quant(k, v, body) => match store.sent(q) {
            SentNode::Atom(_) => false,
            SentNode::Eq(_, _) => false,
            SentNode::Conn(_, _) => false,
            SentNode::Quant(l, w, other) => {
                if *k != *l || !is_like_sort(told, &v.sort, &w.sort) {
                    return false;
                }
                let inner = Binders::Under(v, w, &*binders);
                are_like_sents(store, told, &inner, *body, *other)
            }
        },
    }
}

/// Whether two sentences are one but for the names and indices of their bound variables.
pub fn is_alpha_equal(store: &Store, p: SentId, q: SentId) -> bool
    requires left { p.0 < length store.now.sents }
    requires right { q.0 < length store.now.sents }
    ensures { result ≡ is_alpha_equal (sent_at store.now.sents p.0) (sent_at store.now.sents q.0) }
{
    if p.0 == q.0 {
        return true;
    }
    are_like_sents(store, true, &Binders::Outside, p, q)
}
