// What a sort substitution leaves as it is. Nothing is copied.

ghost use Rattle.std.specs.Prelude.{◌≡◌, ◌<◌, true, IsTrue, length, map};
ghost use Rattle.ath_sorts.specs.Sorts.{image, apply_to};
ghost use Rattle.ath_terms.specs.Trees.{term_at, sort_at, sent_at};
ghost use Rattle.ath_sorts.specs.Signature.{Signature};
ghost use Rattle.ath_terms.specs.SortsIn.{IsSortedIn};
ghost use Rattle.ath_trees.specs.SortsIn.{has_small_sorts, sent_has_small_sorts};
ghost use Rattle.ath_trees.specs.Under.{term_under, sent_under};

use ath_sorts::{Sort, SortSubst};
use ath_terms::{SentNode, Store, TermNode};
use ath_trees::{SentId, TermId};

fn leaves_sort(subst: &SortSubst, sort: &Sort) -> bool
    ensures { IsTrue result → apply_to (image subst.now) sort.now ≡ sort.now }
{
    match sort {
        Sort::Var(v) => match subst.get(*v) {
            Some(_) => false,
            None => true,
        },
        Sort::Con(_, args) => {
            let parts = args.as_slice();
            for i in 0..parts.len() {
                if !leaves_sort(subst, &parts[i]) {
                    return false;
                }
            }
            true
        }
    }
}

fn leaves_sorts(subst: &SortSubst, sorts: &[Sort]) -> bool
    ensures { IsTrue result → map (apply_to (image subst.now)) sorts.now ≡ sorts.now }
{
    for i in 0..sorts.len() {
        if !leaves_sort(subst, &sorts[i]) {
            return false;
        }
    }
    true
}

/// Whether it is seen at once that the substitution leaves the term with its sort.
pub fn keeps_term(store: &Store, subst: &SortSubst, t: TermId) -> bool
    requires { t.0 < length store.now.terms }
    ensures { IsTrue result → (term_under (image subst.now) (term_at store.now.terms t.0) ≡ term_at store.now.terms t.0) × (apply_to (image subst.now) (sort_at store.now.sorts t.0) ≡ sort_at store.now.sorts t.0) }
{
    let marks = store.marks(t);
    marks.sorts.are_left(subst)
}

/// Whether it is seen at once that the substitution leaves the sentence.
pub fn keeps_sent(store: &Store, subst: &SortSubst, p: SentId) -> bool
    requires { p.0 < length store.now.sents }
    ensures { IsTrue result → sent_under (image subst.now) (sent_at store.now.sents p.0) ≡ sent_at store.now.sents p.0 }
{
    let marks = store.sent_marks(p);
    marks.sorts.are_left(subst)
}

/// Whether it is seen at once that the substitution leaves a term whose sorts are within the limits.
pub fn keeps_small_term(store: &Store, subst: &SortSubst, t: TermId) -> bool
    requires { t.0 < length store.now.terms }
    ensures { IsTrue result → (sig : Signature) → IsSortedIn sig store.now → has_small_sorts sig (term_under (image subst.now) (term_at store.now.terms t.0)) ≡ true }
{
    let marks = store.marks(t);
    if !marks.is_small {
        return false;
    }
    marks.sorts.are_left(subst)
}

/// Whether it is seen at once that the substitution leaves a sentence whose sorts are within the limits.
pub fn keeps_small_sent(store: &Store, subst: &SortSubst, p: SentId) -> bool
    requires { p.0 < length store.now.sents }
    ensures { IsTrue result → (sig : Signature) → IsSortedIn sig store.now → sent_has_small_sorts sig (sent_under (image subst.now) (sent_at store.now.sents p.0)) ≡ true }
{
    let marks = store.sent_marks(p);
    if !marks.is_small {
        return false;
    }
    marks.sorts.are_left(subst)
}

/// Whether the substitution is seen to leave the term with its sort.
pub fn leaves_term(store: &Store, subst: &SortSubst, t: TermId) -> bool
    requires { t.0 < length store.now.terms }
    ensures { IsTrue result → (term_under (image subst.now) (term_at store.now.terms t.0) ≡ term_at store.now.terms t.0) × (apply_to (image subst.now) (sort_at store.now.sorts t.0) ≡ sort_at store.now.sorts t.0) }
{
    if keeps_term(store, subst, t) {
        return true;
    }
    if !leaves_sort(subst, store.sort_of(t)) {
        return false;
    }
    match store.term(t) {
        TermNode::Var(v) => leaves_sort(subst, &v.sort),
        TermNode::App(_, sorts, args) => {
            if !leaves_sorts(subst, sorts.as_slice()) {
                return false;
            }
            let parts = args.as_slice();
            for i in 0..parts.len() {
                if !leaves_term(store, subst, parts[i]) {
                    return false;
                }
            }
            true
        }
    }
}

/// Whether the substitution is seen to leave the sentence. One with a quantifier isn't.
pub fn leaves_sent(store: &Store, subst: &SortSubst, p: SentId) -> bool
    requires { p.0 < length store.now.sents }
    ensures { IsTrue result → sent_under (image subst.now) (sent_at store.now.sents p.0) ≡ sent_at store.now.sents p.0 }
{
    if keeps_sent(store, subst, p) {
        return true;
    }
    match store.sent(p) {
        SentNode::Atom(t) => leaves_term(store, subst, *t),
        SentNode::Eq(s, t) => {
            if !leaves_term(store, subst, *s) {
                return false;
            }
            leaves_term(store, subst, *t)
        }
        SentNode::Conn(_, ids) => {
            let parts = ids.as_slice();
            for i in 0..parts.len() {
                if !leaves_sent(store, subst, parts[i]) {
                    return false;
                }
            }
            true
        }
        SentNode::Quant(_, _, _) => false,
    }
}
