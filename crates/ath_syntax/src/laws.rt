//! Laws of the numbers of phrases and patterns, over the definitions alone: the contract of each is what is proved.

ghost use Rattle.std.specs.Prelude.{◌≡◌};
ghost use Rattle.ath_syntax.specs.declared.directive.Directive.{Directive as DirectiveNode};
ghost use Rattle.ath_syntax.specs.declared.node.PatId.{PatId as PatNumber};
ghost use Rattle.ath_syntax.specs.declared.node.PhraseId.{PhraseId as PhraseNumber};
ghost use Rattle.ath_syntax.specs.Nodes.{Nodes, KeepsNodes};
ghost use Rattle.ath_syntax.specs.Stands.{IsPhrase, IsPattern, IsDirective};
ghost use Rattle.ath_syntax.specs.Tree.{Phrase, Pattern, DirectiveTree};

/// What stands for a tree stands for it after more nodes were added.
#[tactic(auto, using(crate::proofs::Kept::keep_phrase, crate::proofs::Kept::keep_pattern_number, crate::proofs::Kept::keep_directive))]
pub fn trees_are_kept()
    ensures phrases { (old new : Nodes) → KeepsNodes old new → (i : PhraseNumber) (t : Phrase) → IsPhrase old i t → IsPhrase new i t }
    ensures patterns { (old new : Nodes) → KeepsNodes old new → (i : PatNumber) (t : Pattern) → IsPattern old.patterns i t → IsPattern new.patterns i t }
    ensures directives { (old new : Nodes) → KeepsNodes old new → (d : DirectiveNode) (t : DirectiveTree) → IsDirective old d t → IsDirective new d t }
{}

/// A number or a directive stands for one tree at most.
#[tactic(auto, using(crate::proofs::One::one_phrase, crate::proofs::One::one_pattern, crate::proofs::One::one_directive))]
pub fn trees_are_one()
    ensures phrases { (s : Nodes) (i : PhraseNumber) (t u : Phrase) → IsPhrase s i t → IsPhrase s i u → t ≡ u }
    ensures patterns { (s : Nodes) (i : PatNumber) (t u : Pattern) → IsPattern s.patterns i t → IsPattern s.patterns i u → t ≡ u }
    ensures directives { (s : Nodes) (d : DirectiveNode) (t u : DirectiveTree) → IsDirective s d t → IsDirective s d u → t ≡ u }
{}
