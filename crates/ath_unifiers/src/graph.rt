// The graph on which sorts are unified.
//
// Each place of a sort is a node, and all places of one variable are one node. Nodes whose sorts a unifier has to make
// equal are one class. A class is named by one of its nodes: by one with a constructor where it has such a node, and
// else by the node of its least variable.

ghost use Rattle.std.specs.Prelude.{◌≡◌, ◌+◌, ◌-◌, ◌<◌, ◌≤◌, ◌++◌, ◌∷◌, [], IsTrue, IfOk, OnOk, List, length, map, slice_get, SomeIff, MatchBool, MatchOption, false, Some, None};
ghost use Rattle.std.specs.List.{list_all, zip};
ghost use Rattle.ath_sorts.specs.Sorts.{size_of, depth_of, is_small};
ghost use Rattle.ath_unifiers.specs.Graphs.{AddsSort, Unfolds, HasLargeImage, HasSmallImages, HasTrees, IsClosed, IsGraph, IsNoBranch, IsNoLeaf, IsSolution, IsStuck, IsStuckAt, MarksTrees, MatchAcyclic, MatchArguments, MatchEquated, MatchJoined, MatchUnited, Stands, is_marked, is_ready, names_class, stands_before, unmarked};
ghost use Rattle.ath_sorts.specs.declared.sorts.Sort.{Sort};

use crate::nodes::{Node, Nodes};
use crate::partition::Partition;
use ath_sorts::SortSubst;
use ath_sorts::limits::{MOST_DEPTH, MOST_NODES};
use ath_sorts::sorts::{SVar, Sort, Sym, con, is_same};
use sqlite_items::Items;
use std::alloc::{AllocError, Global};

#[derive(Drop)]
pub struct Graph {
    nodes: Nodes,
    class: Partition,
}

impl Graph {
    pub fn new(alloc: Global) -> Graph
        ensures { Stands result [] }
    {
        Graph {
            nodes: Nodes::new(alloc),
            class: Partition::new(alloc),
        }
    }

    /// Makes the sides of a pair equal; false where their constructors, or those of pairs before it, clash.
    pub fn equate(&mut self, alloc: Global, left: &Sort, right: &Sort) -> Result<bool, AllocError>
        requires graph { IsGraph self.old }
        requires closed { IsClosed self.old }
        ensures { IfOk result (λ ok. (pairs : List (Sort × Sort)) → Stands self.old pairs → MatchEquated self.new (pairs ++ (left.now, right.now) ∷ []) ok) }
    {
        if is_same(left, right) {
            return Ok(true);
        }
        let left = self.add(alloc, left)?;
        let right = self.add(alloc, right)?;
        let ok = self.unite(alloc, left, right)?;
        Ok(ok)
    }

    /// Adds the nodes of a sort, and answers its own.
    fn add(&mut self, alloc: Global, sort: &Sort) -> Result<usize, AllocError>
        requires { IsGraph self.old }
        ensures { IfOk result (AddsSort self.old self.new sort.now) }
    {
        match sort {
            Sort::Var(v) => self.add_variable(alloc, *v),
            Sort::Con(name, args) => {
                let mut children = Items::new(alloc);
                for arg in args.as_slice() {
                    let child = self.add(alloc, arg)?;
                    children.push(child)?;
                }
                self.nodes.push_branch(*name, children)?;
                let added = self.class.push(alloc)?;
                Ok(added)
            }
        }
    }

    fn add_variable(&mut self, alloc: Global, v: SVar) -> Result<usize, AllocError>
        requires { IsGraph self.old }
        ensures { IfOk result (AddsSort self.old self.new (Sort.Var v)) }
    {
        if let Some(at) = self.nodes.leaf_of(v) {
            return Ok(at);
        }
        self.nodes.push_leaf(v)?;
        let added = self.class.push(alloc)?;
        Ok(added)
    }

    /// Makes the classes of two nodes one, and those of arguments that this makes equal; false where constructors clash.
    fn unite(&mut self, alloc: Global, a: usize, b: usize) -> Result<bool, AllocError>
        requires graph { IsGraph self.old }
        requires closed { IsClosed self.old }
        requires a_there { a < length self.old.nodes }
        requires b_there { b < length self.old.nodes }
        ensures { IfOk result (MatchUnited self.old self.new a b) }
    {
        let mut waiting = Items::new(alloc);
        waiting.push((a, b))?;
        while let Some((left, right)) = waiting.pop() {
            if !self.join(alloc, left, right, &mut waiting)? {
                return Ok(false);
            }
        }
        Ok(true)
    }

    /// Makes the classes of two nodes one, and lets their arguments wait for the same; false where constructors clash.
    fn join(
        &mut self,
        alloc: Global,
        a: usize,
        b: usize,
        waiting: &mut Items<(usize, usize)>,
    ) -> Result<bool, AllocError>
        requires graph { IsGraph self.old }
        requires a_there { a < length self.old.nodes }
        requires b_there { b < length self.old.nodes }
        ensures { IfOk result (MatchJoined self.old waiting.old self.new waiting.new a b) }
    {
        let a = self.class.class_of(a);
        let b = self.class.class_of(b);
        if a == b {
            return Ok(true);
        }
        if !add_arguments(self.nodes.as_slice(), a, b, waiting)? {
            return Ok(false);
        }
        if names_class(self.nodes.as_slice(), a, b) {
            self.class.join(alloc, a, b)?;
        } else {
            self.class.join(alloc, b, a)?;
        }
        Ok(true)
    }

    /// Whether each class stands for a tree.
    pub fn is_acyclic(&self, alloc: Global) -> Result<bool, AllocError>
        requires { IsGraph self.now }
        ensures { IfOk result (MatchAcyclic self.now) }
    {
        let mut grown = vec![in alloc; false; self.nodes.as_slice().len()]?;
        'passes: while self.grow(&mut grown) {}
        Ok(!grown.contains(&false))
    }

    /// Marks the nodes whose arguments are marked; whether there is a new one.
    fn grow(&self, grown: &mut Vec<bool>) -> bool
        ensures trees { MarksTrees self.now grown.old.items → MarksTrees self.now grown.new.items }
        ensures even { length grown.new.items ≡ length grown.old.items }
        ensures fewer { IsTrue result → unmarked grown.new.items < unmarked grown.old.items }
        ensures stuck { result ≡ false → IsStuck self.now grown.new.items }
    {
        let mut any = false;
        for at in 0..grown.len() {
            any |= self.mark(at, grown);
        }
        any
    }

    /// Marks the node where its arguments are marked; whether the mark is new.
    fn mark(&self, at: usize, grown: &mut Vec<bool>) -> bool
        requires { at < length grown.old.items }
        ensures even { length grown.new.items ≡ length grown.old.items }
        ensures trees { MarksTrees self.now grown.old.items → MarksTrees self.now grown.new.items }
        ensures fewer { IsTrue result → unmarked grown.new.items < unmarked grown.old.items }
        ensures same { result ≡ false → grown.new.items ≡ grown.old.items }
        ensures stuck { result ≡ false → IsStuckAt self.now grown.new.items at }
    {
        if is_marked(grown, at) || !self.is_ready(at, grown) {
            return false;
        }
        grown[at] = true;
        true
    }

    fn is_ready(&self, at: usize, grown: &[bool]) -> bool
        ensures { result ≡ is_ready self.now grown.now at }
    {
        match self.nodes.as_slice().get(self.class.class_of(at)) {
            Some(Node::Leaf(_)) => true,
            Some(Node::Branch(_, children)) => are_all_marked(children.as_slice(), grown),
            None => false,
        }
    }

    /// Whether the tree of each variable is within the limits.
    pub fn are_images_within_limits(&self) -> bool
        requires { HasTrees self.now }
        ensures { MatchBool result (HasSmallImages self.now) (HasLargeImage self.now) }
    {
        for at in 0..self.nodes.as_slice().len() {
            if leaf_at(self.nodes.as_slice(), at).is_some() && !self.is_small(at) {
                return false;
            }
        }
        true
    }

    /// Whether the node's tree is within the limits.
    fn is_small(&self, at: usize) -> bool
        ensures { (t : Sort) → Unfolds self.now at t → result ≡ is_small t }
    {
        self.nodes_left(at, MOST_NODES, MOST_DEPTH).is_some()
    }

    /// The map from each variable that isn't the name of its class to the tree of its class.
    pub fn solution(&self, alloc: Global) -> Result<SortSubst, AllocError>
        requires graph { IsGraph self.now }
        requires trees { HasTrees self.now }
        requires small { HasSmallImages self.now }
        ensures { IfOk result (IsSolution self.now (length self.now.nodes)) }
    {
        let mut solution = SortSubst::new(alloc);
        for at in 0..self.nodes.as_slice().len() {
            self.add_image(alloc, at, &mut solution)?;
        }
        Ok(solution)
    }

    /// Adds the image of the variable at the node, if it has one that isn't the name of its class.
    fn add_image(
        &self,
        alloc: Global,
        at: usize,
        solution: &mut SortSubst,
    ) -> Result<(), AllocError>
        requires graph { IsGraph self.now }
        requires trees { HasTrees self.now }
        requires small { HasSmallImages self.now }
        requires within { at < length self.now.nodes }
        ensures { OnOk result (IsSolution self.now at solution.old → IsSolution self.now (at + 1) solution.new) }
    {
        let Some(v) = leaf_at(self.nodes.as_slice(), at) else {
            return Ok(());
        };
        if self.class.class_of(at) == at {
            return Ok(());
        }
        let image = self.tree(alloc, at, MOST_DEPTH)?;
        solution.push(v, image)?;
        Ok(())
    }

    fn tree(&self, alloc: Global, at: usize, depth: usize) -> Result<Sort, AllocError>
        requires { (t : Sort) × (Unfolds self.now at t × (depth_of t ≤ depth)) }
        ensures { IfOk result (Unfolds self.now at) }
    {
        match &self.nodes.as_slice()[self.class.class_of(at)] {
            Node::Leaf(v) => Ok(Sort::Var(*v)),
            Node::Branch(name, children) => {
                let mut args = Items::new(alloc);
                for child in children.as_slice() {
                    let arg = self.tree(alloc, *child, depth - 1)?;
                    args.push(arg)?;
                }
                let tree = con(alloc, *name, args)?;
                Ok(tree)
            }
        }
    }

    /// What a budget of nodes leaves after those of the node's tree, or None where it or the depth doesn't suffice.
    fn nodes_left(&self, at: usize, budget: usize, depth: usize) -> Option<usize>
        ensures { (t : Sort) → Unfolds self.now at t → SomeIff result ((size_of t ≤ budget) × (depth_of t ≤ depth)) (budget - size_of t) }
    {
        if budget == 0 || depth == 0 {
            return None;
        }
        let Some((_, children)) = branch_at(self.nodes.as_slice(), self.class.class_of(at)) else {
            return Some(budget - 1);
        };
        let mut left = budget - 1;
        for child in children {
            left = self.nodes_left(*child, left, depth - 1)?;
        }
        Some(left)
    }
}

/// Adds the pairs of arguments of two nodes, if both have a constructor; false where the constructors clash.
fn add_arguments(
    nodes: &[Node],
    a: usize,
    b: usize,
    waiting: &mut Items<(usize, usize)>,
) -> Result<bool, AllocError>
    ensures { IfOk result (MatchArguments waiting.old waiting.new (slice_get nodes.now a) (slice_get nodes.now b)) }
{
    let Some((c, xs)) = branch_at(nodes, a) else {
        return Ok(true);
    };
    let Some((d, ys)) = branch_at(nodes, b) else {
        return Ok(true);
    };
    if c.0 != d.0 || xs.len() != ys.len() {
        return Ok(false);
    }
    add_pairs(xs, ys, waiting)?;
    Ok(true)
}

fn add_pairs(
    xs: &[usize],
    ys: &[usize],
    waiting: &mut Items<(usize, usize)>,
) -> Result<(), AllocError>
    requires { length xs.now ≡ length ys.now }
    ensures { OnOk result (waiting.new ≡ waiting.old ++ zip xs.now ys.now) }
{
    for i in 0..xs.len() {
        waiting.push((xs[i], ys[i]))?;
    }
    Ok(())
}

/// The constructor and the arguments at a node, if it has one.
fn branch_at(nodes: &[Node], at: usize) -> Option<(Sym, &[usize])>
    ensures { MatchOption result (IsNoBranch (slice_get nodes.now at)) (λ b. slice_get nodes.now at ≡ Some (Node.Branch b.0 b.1.now)) }
{
    match nodes.get(at) {
        Some(Node::Branch(name, children)) => Some((*name, children.as_slice())),
        Some(Node::Leaf(_)) => None,
        None => None,
    }
}

/// The variable at a node, if it has one.
fn leaf_at(nodes: &[Node], at: usize) -> Option<SVar>
    ensures { MatchOption result (IsNoLeaf (slice_get nodes.now at)) (λ v. slice_get nodes.now at ≡ Some (Node.Leaf v)) }
{
    match nodes.get(at) {
        Some(Node::Leaf(v)) => Some(*v),
        Some(Node::Branch(_, _)) => None,
        None => None,
    }
}

/// Whether a rather than b is to name the class that they are in.
fn names_class(nodes: &[Node], a: usize, b: usize) -> bool
    ensures { result ≡ names_class (slice_get nodes.now a) a (slice_get nodes.now b) b }
{
    match (nodes.get(a), nodes.get(b)) {
        (Some(Node::Leaf(v)), Some(Node::Leaf(w))) => stands_before(*v, a, *w, b),
        (Some(Node::Leaf(_)), _) => false,
        _ => true,
    }
}

fn stands_before(v: SVar, at_v: usize, w: SVar, at_w: usize) -> bool
    ensures { result ≡ stands_before v at_v w at_w }
{
    match (v, w) {
        (SVar::Written(_), SVar::Written(_)) => at_v < at_w,
        (SVar::Written(_), SVar::Made(_)) => true,
        (SVar::Made(_), SVar::Written(_)) => false,
        (SVar::Made(m), SVar::Made(n)) => m < n,
    }
}

fn are_all_marked(children: &[usize], grown: &[bool]) -> bool
    ensures { result ≡ list_all (is_marked grown.now) children.now }
{
    for child in children {
        if !is_marked(grown, *child) {
            return false;
        }
    }
    true
}

fn is_marked(grown: &[bool], at: usize) -> bool
    ensures { result ≡ is_marked grown.now at }
{
    match grown.get(at) {
        Some(mark) => *mark,
        None => false,
    }
}
