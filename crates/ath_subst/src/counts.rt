// The nodes and levels of a tree with a term in place of a variable. Nothing is built.

ghost use Rattle.std.specs.Prelude.{◌≡◌, ◌<◌, ◌≤◌, ◌*◌, ◌+◌, length};
ghost use Rattle.ath_terms.specs.Trees.{term_at, sent_at};
ghost use Rattle.ath_trees.specs.Measure.{term_size, term_depth, sent_size, sent_depth};
ghost use Rattle.ath_trees.specs.Substitution.{subst_term, subst_sent};
ghost use Rattle.ath_trees.specs.declared.limits.TheConstants.{MOST_TERM_NODES, MOST_TERM_LEVELS};

use crate::captures::{lacks, sent_lacks};
use ath_terms::variables::is_same_var;
use ath_terms::{SentNode, Store, TermNode};
use ath_trees::{SentId, TermId, Var};

/// How many nodes a tree has, and how deep it is.
#[derive(Clone, Copy, Debug, PartialEq, Eq)]
pub struct Counts {
    pub nodes: u64,
    pub levels: u64,
}

impl Counts {
    /// Those of a term of the store.
    pub fn of_term(store: &Store, t: TermId) -> Counts
        requires { t.0 < length store.now.terms }
        ensures nodes { result.nodes ≡ term_size (term_at store.now.terms t.0) }
        ensures levels { result.levels ≡ term_depth (term_at store.now.terms t.0) }
        ensures few { result.nodes ≤ MOST_TERM_NODES }
        ensures shallow { result.levels ≤ MOST_TERM_LEVELS }
    {
        Counts {
            nodes: store.size(t),
            levels: store.depth(t),
        }
    }

    /// Those of a sentence of the store.
    pub fn of_sent(store: &Store, p: SentId) -> Counts
        requires { p.0 < length store.now.sents }
        ensures nodes { result.nodes ≡ sent_size (sent_at store.now.sents p.0) }
        ensures levels { result.levels ≡ sent_depth (sent_at store.now.sents p.0) }
        ensures few { result.nodes ≤ MOST_TERM_NODES }
        ensures shallow { result.levels ≤ MOST_TERM_LEVELS }
    {
        Counts {
            nodes: store.sent_size(p),
            levels: store.sent_depth(p),
        }
    }
}

/// Those of the term with another in place of a variable.
pub fn term_counts(store: &Store, t: TermId, x: &Var, by: TermId) -> Counts
    requires inside { t.0 < length store.now.terms }
    requires there { by.0 < length store.now.terms }
    ensures nodes { result.nodes ≡ term_size (subst_term x.now (term_at store.now.terms by.0) (term_at store.now.terms t.0)) }
    ensures levels { result.levels ≡ term_depth (subst_term x.now (term_at store.now.terms by.0) (term_at store.now.terms t.0)) }
    ensures few { result.nodes ≤ MOST_TERM_NODES * MOST_TERM_NODES }
    ensures shallow { result.levels ≤ MOST_TERM_LEVELS + MOST_TERM_LEVELS }
{
    let own = Counts::of_term(store, t);
    let put = Counts::of_term(store, by);
    if lacks(store, t, x) {
        return own;
    }
    match store.term(t) {
        TermNode::Var(v) => {
            if is_same_var(x, v) {
                return put;
            }
            own
        }
        TermNode::App(_, _, args) => {
            let parts = args.as_slice();
            let mut nodes: u64 = 1;
            let mut levels: u64 = 0;
            for i in 0..parts.len() {
                let part = term_counts(store, parts[i], x, by);
                nodes += part.nodes;
                levels = levels.max(part.levels);
            }
            Counts {
                nodes,
                levels: 1 + levels,
            }
        }
    }
}

/// Those of the sentence with a term in place of a variable. A renamed binder changes neither.
pub fn sent_counts(store: &Store, p: SentId, x: &Var, by: TermId) -> Counts
    requires inside { p.0 < length store.now.sents }
    requires there { by.0 < length store.now.terms }
    ensures nodes { result.nodes ≡ sent_size (subst_sent x.now (term_at store.now.terms by.0) (sent_at store.now.sents p.0)) }
    ensures levels { result.levels ≡ sent_depth (subst_sent x.now (term_at store.now.terms by.0) (sent_at store.now.sents p.0)) }
    ensures few { result.nodes ≤ MOST_TERM_NODES * MOST_TERM_NODES }
    ensures shallow { result.levels ≤ MOST_TERM_LEVELS + MOST_TERM_LEVELS }
{
    let own = Counts::of_sent(store, p);
    if sent_lacks(store, p, x) {
        return own;
    }
    let put = Counts::of_term(store, by);
    match store.sent(p) {
        SentNode::Atom(t) => term_counts(store, *t, x, by),
        SentNode::Eq(s, t) => {
            let left = term_counts(store, *s, x, by);
            let right = term_counts(store, *t, x, by);
            Counts {
                nodes: 1 + left.nodes + right.nodes,
                levels: 1 + left.levels.max(right.levels),
            }
        }
        SentNode::Conn(_, ids) => {
            let parts = ids.as_slice();
            let mut nodes: u64 = 1;
            let mut levels: u64 = 0;
            for i in 0..parts.len() {
                let part = sent_counts(store, parts[i], x, by);
                nodes += part.nodes;
                levels = levels.max(part.levels);
            }
            Counts {
                nodes,
                levels: 1 + levels,
            }
        }
        SentNode::Quant(_, v, body) => {
            if is_same_var(x, v) {
                return own;
            }
            let inner = sent_counts(store, *body, x, by);
            Counts {
                nodes: 1 + inner.nodes,
                levels: 1 + inner.levels,
            }
        }
    }
}
