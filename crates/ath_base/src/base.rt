// Assumption bases.

ghost use Rattle.std.specs.Prelude.{◌≡◌, ◌<◌, ◌≤◌, [], ◌∷◌, ◌++◌, IfOk, OnErr, OnOk, length, option_map};
ghost use Rattle.ath_terms.specs.Trees.{sent_at};
ghost use Rattle.ath_base.specs.Base.{holds};
ghost use Rattle.ath_base.specs.Stands.{entries_in, entry_at, entries_of, AreOrdered, AreStored, KeepsScopes};

use crate::entry::{Entry, Origin};
use ath_alpha::is_alpha_equal;
use ath_terms::Store;
use ath_trees::SentId;
use std::alloc::{AllocError, Global};

/// A scope: a list of entries. The scope 0 has none.
#[derive(Clone, Copy, Debug)]
pub struct ScopeId(pub usize);

/// An entry, and the scope that it was added to. With it a scope of its own begins.
#[derive(Clone, Copy, Debug)]
pub struct Node {
    pub entry: Entry,
    pub parent: ScopeId,
}

/// The nodes of assumption bases, the oldest first. Each is one scope, and what scopes have in common stands once.
#[derive(Drop)]
pub struct Base {
    pub nodes: Vec<Node>,
    ghost ordered: { AreOrdered nodes.items },
}

impl Base {
    /// A base with the scope 0 alone.
    pub fn new(alloc: Global) -> Base
        ensures { result.nodes.items ≡ [] }
    {
        Base {
            nodes: Vec::new(alloc),
        }
    }

    /// The scope with a sentence as its newest entry, before those of another scope. Nothing is copied, and each older scope
    /// keeps its entries; where memory is wanted nothing changes.
    pub fn add(
        &mut self,
        scope: ScopeId,
        sentence: SentId,
        origin: Origin,
    ) -> Result<ScopeId, AllocError>
        requires { scope.0 ≤ length self.old.nodes.items }
        ensures node { OnOk result (self.new.nodes.items ≡ self.old.nodes.items ++ record { entry = record { sentence = sentence; origin = origin }; parent = scope } ∷ []) }
        ensures inside { IfOk result (λ k. k.0 ≤ length self.new.nodes.items) }
        ensures added { IfOk result (λ k. entries_in self.new.nodes.items k.0 ≡ record { sentence = sentence; origin = origin } ∷ entries_in self.old.nodes.items scope.0) }
        ensures kept { KeepsScopes self.old.nodes.items self.new.nodes.items }
        ensures unchanged { OnErr result (self.new.nodes.items ≡ self.old.nodes.items) }
    {
        let entry = Entry { sentence, origin };
        self.nodes.push(Node {
            entry,
            parent: scope,
        })?;
        Ok(ScopeId(self.nodes.len()))
    }

    /// The newest entry of a scope by which a sentence holds, up to the names and indices of bound variables; none exactly
    /// where it doesn't hold.
    pub fn holds(&self, store: &Store, scope: ScopeId, p: SentId) -> Option<Entry>
        requires scope { scope.0 ≤ length self.now.nodes.items }
        requires entries { AreStored store.now self.now.nodes.items }
        requires sentence { p.0 < length store.now.sents }
        ensures { option_map (entry_at store.now) result ≡ holds (entries_of store.now (entries_in self.now.nodes.items scope.0)) (sent_at store.now.sents p.0) }
    {
        let nodes = self.nodes.as_slice();
        let mut left = scope.0;
        while left > 0 {
            let node = nodes[left - 1];
            if is_alpha_equal(store, node.entry.sentence, p) {
                return Some(node.entry);
            }
            left = node.parent.0;
        }
        None
    }
}
