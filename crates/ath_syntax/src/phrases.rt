// Phrases and patterns as numbered nodes.

ghost use Rattle.std.specs.Prelude.{◌≡◌, ◌<◌, [], Some, length, slice_get, take, IfOk, OnErr};
ghost use Rattle.ath_syntax.specs.Fits.{Fits, IsKind, PatternFits, before};
ghost use Rattle.ath_syntax.specs.Nodes.{KeepsNodes, with_phrase, with_pattern};
ghost use Rattle.ath_syntax.specs.Stands.{IsForm, IsPhrase, IsPattern, IsPatternNode};
ghost use Rattle.ath_syntax.specs.Tree.{Phrase, Pattern};

use crate::node::{Node, PatId, PatNode, PhraseId};
use std::alloc::{AllocError, Global};
use std::marker::Model;

/// Phrases and patterns by their numbers. Contracts see the two lists of their nodes, in which a number is a place.
#[derive(Drop)]
pub struct Phrases {
    phrases: Vec<Node>,
    patterns: Vec<PatNode>,
}

impl Model for Phrases {
    ghost use Rattle.std.specs.Coded.{codes};
    ghost use Rattle.ath_syntax.specs.contracts.node.SortText as sort_text;
    ghost use Rattle.ath_syntax.specs.Nodes.{Nodes};

    ghost Value = { Nodes };

    ghost coded = { Prim.hlevel (codes, sort_text.the_row.coded) };

    ghost use Rattle.ath_syntax.specs.Fits.{NodesFit};

    ghost view = { λ s. record { phrases = s.phrases.items; patterns = s.patterns.items } };

    ghost invariant = { λ s. NodesFit (record { phrases = s.phrases.items; patterns = s.patterns.items }) };
}

impl Phrases {
    /// No phrases and no patterns.
    pub fn new(alloc: Global) -> Self
        ensures { result ≡ record { phrases = []; patterns = [] } }
    {
        Phrases {
            phrases: Vec::new(alloc),
            patterns: Vec::new(alloc),
        }
    }

    /// The number of a new phrase, the next after those that are there.
    pub fn add(&mut self, node: Node) -> Result<PhraseId, AllocError>
        requires { Fits self.old node }
        ensures added { IfOk result (λ _. self.new ≡ with_phrase self.old node) }
        ensures number { IfOk result (λ p. p.0 ≡ length self.old.phrases) }
        ensures kind { IfOk result (λ p. IsKind self.new node.deduction p) }
        ensures stands { IfOk result (λ p. (t : Phrase) → IsForm self.old node.pos node.form t → IsPhrase self.new p t) }
        ensures kept { KeepsNodes self.old self.new }
        ensures err { OnErr result (self.new ≡ self.old) }
    {
        let number = self.phrases.len();
        self.phrases.push(node)?;
        Ok(PhraseId(number))
    }

    /// The number of a new pattern, the next after those that are there.
    pub fn add_pat(&mut self, node: PatNode) -> Result<PatId, AllocError>
        requires { PatternFits self.old.patterns node }
        ensures added { IfOk result (λ _. self.new ≡ with_pattern self.old node) }
        ensures number { IfOk result (λ p. p.0 ≡ length self.old.patterns) }
        ensures stands { IfOk result (λ p. (t : Pattern) → IsPatternNode self.old.patterns node t → IsPattern self.new.patterns p t) }
        ensures kept { KeepsNodes self.old self.new }
        ensures err { OnErr result (self.new ≡ self.old) }
    {
        let number = self.patterns.len();
        self.patterns.push(node)?;
        Ok(PatId(number))
    }

    /// The node of a phrase. Its parts have smaller numbers.
    pub fn node(&self, phrase: PhraseId) -> &Node
        requires { phrase.0 < length self.now.phrases }
        ensures node { slice_get self.now.phrases phrase.0 ≡ Some result.now }
        ensures stands { (t : Phrase) × IsPhrase self.now phrase t }
        ensures fits { Fits (before self.now phrase.0) result.now }
    {
        &self.phrases[phrase.0]
    }

    /// The node of a pattern. Its parts have smaller numbers.
    pub fn pat(&self, pattern: PatId) -> &PatNode
        requires { pattern.0 < length self.now.patterns }
        ensures node { slice_get self.now.patterns pattern.0 ≡ Some result.now }
        ensures stands { (t : Pattern) × IsPattern self.now.patterns pattern t }
        ensures fits { PatternFits (take pattern.0 self.now.patterns) result.now }
    {
        &self.patterns[pattern.0]
    }
}
