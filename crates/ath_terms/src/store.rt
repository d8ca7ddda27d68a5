// The store of nodes, which only grows.

ghost use Rattle.std.specs.Prelude.{◌≡◌, ℕ, ◌+◌, ◌<◌, ◌≤◌, true, [], ◌∷◌, ◌++◌, length, IfOk, OnErr};
ghost use Rattle.ath_trees.specs.declared.limits.TheConstants.{MOST_TERM_NODES, MOST_TERM_LEVELS};
ghost use Rattle.ath_trees.specs.Measure.{term_size, term_depth, sent_size, sent_depth};
ghost use Rattle.ath_trees.specs.Variables.{free_vars};
ghost use Rattle.ath_terms.specs.Trees.{Trees, term_at, sort_at, sent_at, Grows, IsTerm, IsSent};
ghost use Rattle.ath_terms.specs.Nodes.{term_tree, sent_tree, IsTermBelow, IsSentBelow};
ghost use Rattle.ath_terms.specs.Kept.{IsTermKept, IsSentKept};
ghost use Rattle.ath_terms.specs.Marks.{AreApart, AreTermsMarked, AreSentsMarked, IsNodeMarked, IsTermMarked, IsSentMarked};
ghost use Rattle.std.specs.List.{All};

use crate::marks::{Marks, are_all_small, var_marks};
use crate::node::{SentNode, TermNode};
use crate::sort_vars::{list_sort_vars, sort_vars};
use ath_sorts::Sort;
use ath_sorts::limits::is_within_limits;
use ath_trees::{SentId, TermId};
use std::alloc::{AllocError, Global};
use std::marker::Model;

/// A term with its sort, and the nodes and levels of its tree.
#[derive(Drop)]
pub struct KeptTerm {
    pub node: TermNode,
    pub sort: Sort,
    pub nodes: u64,
    pub levels: u64,
    pub marks: Marks,
}

/// A sentence with the nodes and levels of its tree.
#[derive(Drop)]
pub struct KeptSent {
    pub node: SentNode,
    pub nodes: u64,
    pub levels: u64,
    pub marks: Marks,
}

/// Nodes of terms and sentences by number, whose parts have smaller numbers. A number stands for a tree, and keeps it
/// while the store grows; that of a term keeps its sort too. Every tree is within the limits.
#[derive(Drop)]
pub struct Store {
    terms: Vec<KeptTerm>,
    sents: Vec<KeptSent>,
}

impl Model for Store {
    ghost use Rattle.std.specs.Prelude.{length, map};
    ghost use Rattle.ath_terms.specs.Trees.{Trees, trees_code};
    ghost use Rattle.ath_terms.specs.Whole.{whole_view, IsWhole};
    ghost use Rattle.ath_terms.specs.Marks.{HasMarks};

    ghost Value = { Trees };

    ghost coded = { trees_code };

    ghost view = { λ s. whole_view s.terms.items s.sents.items };

    ghost invariant = { λ s. IsWhole s.terms.items s.sents.items × HasMarks (whole_view s.terms.items s.sents.items) (map (λ e. e.marks) s.terms.items) (map (λ e. e.marks) s.sents.items) };
}

impl Store {
    ghost use Rattle.ath_sorts.specs.Signature.{Signature};
    ghost use Rattle.ath_terms.specs.SortsIn.{IsSortedIn};
    ghost use Rattle.ath_trees.specs.WellSorted.{HasSort, IsWellSorted};

    /// A store without nodes.
    pub fn new(alloc: Global) -> Store
        ensures { result ≡ record { terms = []; sorts = []; sents = [] } }
    {
        Store {
            terms: Vec::new(alloc),
            sents: Vec::new(alloc),
        }
    }

    /// Adds a node as it is with its sort and its measure: the sorts aren't looked at.
    pub fn add_term(
        &mut self,
        node: TermNode,
        sort: Sort,
        nodes: u64,
        levels: u64,
    ) -> Result<TermId, AllocError>
        requires below { IsTermBelow (length self.old.terms) node }
        requires kept { IsTermKept (term_tree self.old.terms node) (record { nodes = nodes; levels = levels }) }
        ensures grows { Grows self.old self.new }
        ensures tree { IfOk result (λ t. IsTerm self.new t.0 (term_tree self.old.terms node)) }
        ensures sort { IfOk result (λ t. sort_at self.new.sorts t.0 ≡ sort) }
        ensures sorted { IfOk result (λ t. (sig : Signature) → IsSortedIn sig self.old → HasSort sig (term_tree self.old.terms node) sort → IsSortedIn sig self.new) }
        ensures err { OnErr result (self.new ≡ self.old) }
    {
        let marks = self.node_marks(&node, &sort);
        let id = TermId(self.terms.len());
        self.terms.push(KeptTerm {
            node,
            sort,
            nodes,
            levels,
            marks,
        })?;
        Ok(id)
    }

    /// Adds a node as it is with its measure: its sorts aren't looked at.
    pub fn add_sent(
        &mut self,
        node: SentNode,
        nodes: u64,
        levels: u64,
    ) -> Result<SentId, AllocError>
        requires below { IsSentBelow (length self.old.terms) (length self.old.sents) node }
        requires kept { IsSentKept (sent_tree self.old.terms self.old.sents node) (record { nodes = nodes; levels = levels }) }
        ensures grows { Grows self.old self.new }
        ensures tree { IfOk result (λ p. IsSent self.new p.0 (sent_tree self.old.terms self.old.sents node)) }
        ensures sorted { IfOk result (λ p. (sig : Signature) → IsSortedIn sig self.old → IsWellSorted sig (sent_tree self.old.terms self.old.sents node) → IsSortedIn sig self.new) }
        ensures err { OnErr result (self.new ≡ self.old) }
    {
        let marks = self.sent_node_marks(&node);
        let id = SentId(self.sents.len());
        self.sents.push(KeptSent {
            node,
            nodes,
            levels,
            marks,
        })?;
        Ok(id)
    }

    /// The node of a term.
    pub fn term(&self, t: TermId) -> &TermNode
        requires { t.0 < length self.now.terms }
        ensures tree { term_tree self.now.terms result.now ≡ term_at self.now.terms t.0 }
        ensures below { IsTermBelow t.0 result.now }
    {
        &self.terms[t.0].node
    }

    /// The sort of a term: that of a variable, or that which an application was given.
    pub fn sort_of(&self, t: TermId) -> &Sort
        requires { t.0 < length self.now.terms }
        ensures { result.now ≡ sort_at self.now.sorts t.0 }
    {
        &self.terms[t.0].sort
    }

    /// The node of a sentence.
    pub fn sent(&self, p: SentId) -> &SentNode
        requires { p.0 < length self.now.sents }
        ensures tree { sent_tree self.now.terms self.now.sents result.now ≡ sent_at self.now.sents p.0 }
        ensures below { IsSentBelow (length self.now.terms) p.0 result.now }
    {
        &self.sents[p.0].node
    }

    /// The nodes of a term.
    pub fn size(&self, t: TermId) -> u64
        requires { t.0 < length self.now.terms }
        ensures same { result ≡ term_size (term_at self.now.terms t.0) }
        ensures few { result ≤ MOST_TERM_NODES }
    {
        self.terms[t.0].nodes
    }

    /// The levels of a term.
    pub fn depth(&self, t: TermId) -> u64
        requires { t.0 < length self.now.terms }
        ensures same { result ≡ term_depth (term_at self.now.terms t.0) }
        ensures few { result ≤ MOST_TERM_LEVELS }
    {
        self.terms[t.0].levels
    }

    /// The nodes of a sentence.
    pub fn sent_size(&self, p: SentId) -> u64
        requires { p.0 < length self.now.sents }
        ensures same { result ≡ sent_size (sent_at self.now.sents p.0) }
        ensures few { result ≤ MOST_TERM_NODES }
    {
        self.sents[p.0].nodes
    }

    /// The levels of a sentence.
    pub fn sent_depth(&self, p: SentId) -> u64
        requires { p.0 < length self.now.sents }
        ensures same { result ≡ sent_depth (sent_at self.now.sents p.0) }
        ensures few { result ≤ MOST_TERM_LEVELS }
    {
        self.sents[p.0].levels
    }

    /// What is known of a term.
    pub fn marks(&self, t: TermId) -> Marks
        requires { t.0 < length self.now.terms }
        ensures { IsTermMarked self.now t.0 result }
    {
        self.terms[t.0].marks
    }

    /// What is known of a sentence.
    pub fn sent_marks(&self, p: SentId) -> Marks
        requires { p.0 < length self.now.sents }
        ensures { IsSentMarked self.now (sent_at self.now.sents p.0) result }
    {
        self.sents[p.0].marks
    }

    /// What is known of some terms.
    pub fn list_marks(&self, args: &[TermId]) -> Marks
        requires { All (λ i. i.0 < length self.now.terms) args.now }
        ensures { AreTermsMarked self.now args.now result }
    {
        let mut marks = Marks::all();
        for i in 0..args.len() {
            marks = marks.with(self.marks(args[i]));
        }
        marks
    }

    /// What is known of some sentences.
    pub fn list_sent_marks(&self, parts: &[SentId]) -> Marks
        requires { All (λ i. i.0 < length self.now.sents) parts.now }
        ensures { AreSentsMarked self.now parts.now result }
    {
        let mut marks = Marks::all();
        for i in 0..parts.len() {
            marks = marks.with(self.sent_marks(parts[i]));
        }
        marks
    }

    fn node_marks(&self, node: &TermNode, sort: &Sort) -> Marks
        requires { IsTermBelow (length self.now.terms) node.now }
        ensures { IsNodeMarked self.now (term_tree self.now.terms node.now) sort.now result }
    {
        match node {
            TermNode::Var(v) => var_marks(v, sort),
            TermNode::App(_, sorts, args) => {
                let parts = self.list_marks(args.as_slice());
                let own = sort_vars(sort).and(list_sort_vars(sorts.as_slice()));
                let small = are_all_small(sort, sorts.as_slice());
                parts.over(small, own)
            }
        }
    }

    fn sent_node_marks(&self, node: &SentNode) -> Marks
        requires { IsSentBelow (length self.now.terms) (length self.now.sents) node.now }
        ensures { IsSentMarked self.now (sent_tree self.now.terms self.now.sents node.now) result }
    {
        match node {
            SentNode::Atom(t) => self.marks(*t),
            SentNode::Eq(s, t) => Marks::all().with(self.marks(*s)).with(self.marks(*t)),
            SentNode::Conn(_, ids) => self.list_sent_marks(ids.as_slice()),
            SentNode::Quant(_, v, body) => {
                let inner = self.sent_marks(*body);
                inner.bound(is_within_limits(&v.sort), sort_vars(&v.sort))
            }
        }
    }

    /// Marks a sentence no two of whose free variables have one name and index.
    pub(crate) fn mark_apart(&mut self, p: SentId)
        requires inside { p.0 < length self.old.sents }
        requires apart { AreApart (free_vars (sent_at self.old.sents p.0)) }
        ensures { self.new ≡ self.old }
    {
        let marks = self.sents[p.0].marks.told_apart();
        self.sents[p.0].marks = marks;
    }
}
