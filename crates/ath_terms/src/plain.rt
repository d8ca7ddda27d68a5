// Plain building: a node as it is asked for, where its tree is within the limits. No sort is unified.

ghost use Rattle.std.specs.Prelude.{◌≡◌, ◌*◌, ◌<◌, ◌≤◌, true, length, map, IfOk, OnErr};
ghost use Rattle.std.specs.List.{All};
ghost use Rattle.ath_sorts.specs.Signature.{Signature, boolean};
ghost use Rattle.ath_trees.specs.declared.limits.TheConstants.{MOST_PARTS, MOST_TERM_NODES, MOST_TERM_LEVELS};
ghost use Rattle.ath_trees.specs.Tree.{atom, var, app, listed};
ghost use Rattle.ath_terms.specs.Trees.{term_at, sort_at, Grows, IsTermOf, IsSent};
ghost use Rattle.ath_trees.specs.Measure.{terms_size, terms_depth, sent_size, sent_depth};
ghost use Rattle.ath_terms.specs.Measure.{IsBuilt};
ghost use Rattle.ath_terms.specs.Nodes.{sent_tree, IsSentBelow};
ghost use Rattle.ath_terms.specs.SortsIn.{IsSortedIn};
ghost use Rattle.ath_trees.specs.WellSorted.{HasSort, IsWellSorted};
ghost use Rattle.ath_terms.specs.Kept.{IsListed};
ghost use Rattle.ath_terms.specs.Plain.{IsPlainTerm};

use crate::limits::check_limits;
use crate::measure::BuildError;
use crate::node::{SentNode, TermNode};
use crate::store::Store;
use crate::variables::copied_var;
use ath_sorts::sorts::copied;
use ath_sorts::{Sort, Sym};
use ath_trees::{SentId, TermId, Var};
use sqlite_items::Items;
use std::alloc::{AllocError, Global};

/// The sorts again.
pub fn copied_sorts(alloc: Global, sorts: &[Sort]) -> Result<Items<Sort>, AllocError>
    ensures { IfOk result (λ copies. copies ≡ sorts.now) }
{
    let mut copies = Items::new(alloc);
    for sort in sorts {
        copies.push(copied(sort)?)?;
    }
    Ok(copies)
}

/// The nodes of some terms.
pub fn list_size(store: &Store, args: &[TermId]) -> u64
    requires few { length args.now ≤ MOST_PARTS }
    requires inside { All (λ i. i.0 < length store.now.terms) args.now }
    ensures same { result ≡ terms_size (listed (map (λ i. term_at store.now.terms i.0) args.now)) }
    ensures room { result ≤ MOST_PARTS * MOST_TERM_NODES }
{
    let mut nodes: u64 = 0;
    for i in 0..args.len() {
        nodes += store.size(args[i]);
    }
    nodes
}

/// The levels of some terms.
pub fn list_depth(store: &Store, args: &[TermId]) -> u64
    requires { All (λ i. i.0 < length store.now.terms) args.now }
    ensures same { result ≡ terms_depth (listed (map (λ i. term_at store.now.terms i.0) args.now)) }
    ensures room { result ≤ MOST_TERM_LEVELS }
{
    let mut levels: u64 = 0;
    for i in 0..args.len() {
        levels = levels.max(store.depth(args[i]));
    }
    levels
}

fn add_plain(
    alloc: Global,
    store: &mut Store,
    f: Sym,
    sorts: &[Sort],
    args: &[TermId],
    sort: &Sort,
) -> Result<TermId, AllocError>
    requires few { length args.now ≤ MOST_PARTS }
    requires inside { All (λ i. i.0 < length store.old.terms) args.now }
    requires small { IsListed (listed (map (λ i. term_at store.old.terms i.0) args.now)) }
    ensures grows { Grows store.old store.new }
    ensures tree { IfOk result (λ t. IsTermOf store.new t.0 (app f sorts.now (listed (map (λ i. term_at store.old.terms i.0) args.now))) sort.now) }
    ensures sorted { (sig : Signature) → IsSortedIn sig store.old → HasSort sig (app f sorts.now (listed (map (λ i. term_at store.old.terms i.0) args.now))) sort.now → IsSortedIn sig store.new }
{
    let nodes = 1 + list_size(store, args);
    let levels = 1 + list_depth(store, args);
    let copies = copied_sorts(alloc, sorts)?;
    let ids = Items::from_slice(alloc, args)?;
    let whole = copied(sort)?;
    let term = store.add_term(TermNode::App(f, copies, ids), whole, nodes, levels)?;
    Ok(term)
}

/// The nodes of the tree of a node.
pub fn node_size(store: &Store, node: &SentNode) -> u64
    requires { IsSentBelow (length store.now.terms) (length store.now.sents) node.now }
    ensures { result ≡ sent_size (sent_tree store.now.terms store.now.sents node.now) }
{
    match node {
        SentNode::Atom(t) => store.size(*t),
        SentNode::Eq(s, t) => 1 + store.size(*s) + store.size(*t),
        SentNode::Conn(_, ids) => {
            let parts = ids.as_slice();
            let mut nodes: u64 = 1;
            for i in 0..parts.len() {
                nodes += store.sent_size(parts[i]);
            }
            nodes
        }
        SentNode::Quant(_, _, body) => 1 + store.sent_size(*body),
    }
}

/// The levels of the tree of a node.
pub fn node_depth(store: &Store, node: &SentNode) -> u64
    requires { IsSentBelow (length store.now.terms) (length store.now.sents) node.now }
    ensures { result ≡ sent_depth (sent_tree store.now.terms store.now.sents node.now) }
{
    match node {
        SentNode::Atom(t) => store.depth(*t),
        SentNode::Eq(s, t) => 1 + store.depth(*s).max(store.depth(*t)),
        SentNode::Conn(_, ids) => {
            let parts = ids.as_slice();
            let mut levels: u64 = 0;
            for i in 0..parts.len() {
                levels = levels.max(store.sent_depth(parts[i]));
            }
            1 + levels
        }
        SentNode::Quant(_, _, body) => 1 + store.sent_depth(*body),
    }
}

/// The node again.
pub fn copied_node(alloc: Global, node: &SentNode) -> Result<SentNode, AllocError>
    ensures { IfOk result (λ copy. copy ≡ node.now) }
{
    match node {
        SentNode::Atom(t) => Ok(SentNode::Atom(*t)),
        SentNode::Eq(s, t) => Ok(SentNode::Eq(*s, *t)),
        SentNode::Conn(c, ids) => {
            let parts = Items::from_slice(alloc, ids.as_slice())?;
            Ok(SentNode::Conn(*c, parts))
        }
        SentNode::Quant(k, v, body) => {
            let bound = copied_var(v)?;
            Ok(SentNode::Quant(*k, bound, *body))
        }
    }
}

impl Store {
    /// The term of a variable.
    pub fn var(&mut self, v: &Var) -> Result<TermId, BuildError>
        ensures grows { Grows self.old self.new }
        ensures built { IsPlainTerm self.new (var v.now) v.now.sort result }
        ensures sorted { (sig : Signature) → IsSortedIn sig self.old → HasSort sig (var v.now) v.now.sort → IsSortedIn sig self.new }
    {
        let copy = copied_var(v)?;
        let sort = copied(&v.sort)?;
        let term = self.add_term(TermNode::Var(copy), sort, 1, 1)?;
        Ok(term)
    }

    /// The application of a symbol at sort arguments to arguments, with the sort that it is given.
    pub fn raw_app(
        &mut self,
        alloc: Global,
        f: Sym,
        sorts: &Vec<Sort>,
        args: &Vec<TermId>,
        sort: &Sort,
    ) -> Result<TermId, BuildError>
        requires few { length args.now.items ≤ MOST_PARTS }
        requires inside { All (λ i. i.0 < length self.old.terms) args.now.items }
        ensures grows { Grows self.old self.new }
        ensures built { IsPlainTerm self.new (app f sorts.now.items (listed (map (λ i. term_at self.old.terms i.0) args.now.items))) sort.now result }
        ensures sorted { (sig : Signature) → IsSortedIn sig self.old → HasSort sig (app f sorts.now.items (listed (map (λ i. term_at self.old.terms i.0) args.now.items))) sort.now → IsSortedIn sig self.new }
    {
        let parts = args.as_slice();
        let nodes = 1 + list_size(self, parts);
        let levels = 1 + list_depth(self, parts);
        check_limits(true, nodes, levels)?;
        let term = add_plain(alloc, self, f, sorts.as_slice(), parts, sort)?;
        Ok(term)
    }

    /// The atom of a term of sort Boolean, as it is.
    pub fn plain_atom(&mut self, t: TermId) -> Result<SentId, AllocError>
        requires { t.0 < length self.old.terms }
        ensures grows { Grows self.old self.new }
        ensures tree { IfOk result (λ p. IsSent self.new p.0 (atom (term_at self.old.terms t.0))) }
        ensures sorted { IfOk result (λ p. (sig : Signature) → IsSortedIn sig self.old → sort_at self.old.sorts t.0 ≡ boolean → IsSortedIn sig self.new) }
        ensures err { OnErr result (self.new ≡ self.old) }
    {
        let nodes = self.size(t);
        let levels = self.depth(t);
        let sent = self.add_sent(SentNode::Atom(t), nodes, levels)?;
        Ok(sent)
    }

    /// The sentence of a node.
    pub fn raw_sent(&mut self, alloc: Global, node: &SentNode) -> Result<SentId, BuildError>
        requires below { IsSentBelow (length self.old.terms) (length self.old.sents) node.now }
        ensures grows { Grows self.old self.new }
        ensures built { IsBuilt self.new result (sent_tree self.old.terms self.old.sents node.now) }
        ensures sorted { (sig : Signature) → IsSortedIn sig self.old → IsWellSorted sig (sent_tree self.old.terms self.old.sents node.now) → IsSortedIn sig self.new }
    {
        let nodes = node_size(self, node);
        let levels = node_depth(self, node);
        check_limits(true, nodes, levels)?;
        let copy = copied_node(alloc, node)?;
        let sent = self.add_sent(copy, nodes, levels)?;
        Ok(sent)
    }
}
