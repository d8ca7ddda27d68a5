// The nodes of a graph of sorts, with a table of the variables' nodes.

ghost use Rattle.std.specs.Prelude.{◌≡◌, ◌++◌, ◌∷◌, [], slice_get, MatchOption, OnOk, Some, IsTrue, ◌↔◌};
ghost use Rattle.ath_unifiers.specs.Places.{LeafFree};

use ath_sorts::{SVar, Sym};
use indexmap::IndexMap;
use sqlite_items::Items;
use std::alloc::{AllocError, Global};
use std::marker::Model;

/// A place of a sort: a variable, or a constructor with the nodes of its arguments, which stand before it.
#[derive(Drop)]
pub enum Node {
    Leaf(SVar),
    Branch(Sym, Items<usize>),
}

/// Nodes, of which no two are of one variable.
#[derive(Drop)]
pub struct Nodes {
    nodes: Items<Node>,
    places: IndexMap<SVar, usize>,
}

impl Model for Nodes {
    ghost use Rattle.std.specs.Prelude.{List};
    ghost use Rattle.ath_unifiers.specs.declared.nodes.Node.{Node};
    ghost use Rattle.ath_unifiers.specs.contracts.nodes.Node as node;
    ghost use Rattle.std.specs.Coded.{codes};
    ghost use Rattle.ath_unifiers.specs.Places.{HasPlaces};

    ghost Value = { List Node };

    ghost view = { λ n. n.nodes };

    ghost invariant = { λ n. HasPlaces n.nodes n.places.entries };
}

impl Nodes {
    pub fn new(alloc: Global) -> Nodes
        ensures { result ≡ [] }
    {
        Nodes {
            nodes: Items::new(alloc),
            places: IndexMap::new(alloc),
        }
    }

    pub fn as_slice(&self) -> &[Node]
        ensures { result.now ≡ self.now }
    {
        self.nodes.as_slice()
    }

    /// The node of the variable, if it has one.
    pub fn leaf_of(&self, v: SVar) -> Option<usize>
        ensures { MatchOption result (LeafFree self.now v) (λ at. slice_get self.now at ≡ Some (Node.Leaf v)) }
    {
        let at = *self.places.get(&v)?;
        if is_leaf_at(self.nodes.as_slice(), at, v) {
            Some(at)
        } else {
            None
        }
    }

    pub fn push_branch(&mut self, name: Sym, children: Items<usize>) -> Result<(), AllocError>
        ensures { OnOk result (self.new ≡ self.old ++ Node.Branch name children ∷ []) }
    {
        self.nodes.push(Node::Branch(name, children))
    }

    /// Adds the node of a variable that has none.
    pub fn push_leaf(&mut self, v: SVar) -> Result<(), AllocError>
        requires { LeafFree self.old v }
        ensures { OnOk result (self.new ≡ self.old ++ Node.Leaf v ∷ []) }
    {
        let at = self.nodes.len();
        self.places.insert(v, at)?;
        self.nodes.push(Node::Leaf(v))?;
        Ok(())
    }
}

fn is_leaf_at(nodes: &[Node], at: usize, v: SVar) -> bool
    ensures { IsTrue result ↔ (slice_get nodes.now at ≡ Some (Node.Leaf v)) }
{
    match nodes.get(at) {
        Some(Node::Leaf(w)) => w.is_same(v),
        _ => false,
    }
}
