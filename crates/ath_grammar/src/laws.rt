// The laws of the grammar.

ghost use Rattle.std.specs.Prelude.{◌≡◌, ◌≤◌, Bool, true, List, length, Some};
ghost use Rattle.ath_sorts.specs.declared.sorts.Sym.{Sym as Number};
ghost use Rattle.ath_syntax.specs.Fits.{most};
ghost use Rattle.ath_syntax.specs.Proper.{ProperDirective};
ghost use Rattle.ath_syntax.specs.Tree.{DirectiveTree};
ghost use Rattle.ath_grammar.specs.declared.item.Item.{Item as Part};
ghost use Rattle.ath_grammar.specs.Known.{Known};
ghost use Rattle.ath_grammar.specs.Tokens.{Placed};
ghost use Rattle.ath_grammar.specs.Trees.{Value};
ghost use Rattle.ath_grammar.specs.Laws.{SpelledInParts, after};
ghost use Rattle.ath_grammar.specs.Directives.{SpellsDirective, Begins};

/// The grammar is unambiguous: no list of tokens begins with two directives, whether kinds are told apart or not.
#[tactic(auto, using(crate::proofs::Readings::no_two))]
pub fn one_reading()
    ensures { (apart : Bool) (ts : List Placed) (d₁ d₂ : DirectiveTree) (r₁ r₂ : List Placed) → SpellsDirective apart ts d₁ r₁ → SpellsDirective apart ts d₂ r₂ → (d₁ ≡ d₂) × (r₁ ≡ r₂) }
{}

/// What items spell is what the first of them spell, and then what the others do.
#[tactic(auto, using(crate::proofs::Readings::in_parts))]
pub fn spelled_in_parts()
    ensures { SpelledInParts }
{}

/// Tokens that are read one by one can be completed to a directive.
pub fn read_begins()
    ensures { (apart : Bool) (ts : List Placed) (is : List Part) (vs : List Value) → after ts ≡ Some (is, vs) → Begins apart ts }
{}

/// Nodes can be made of what the grammar spells where kinds are told apart: no more tokens than a node may have parts
/// spell a proper directive.
pub fn spelled_is_proper()
    ensures { (ts : List Placed) (d : DirectiveTree) (r : List Placed) → SpellsDirective true ts d r → length ts ≤ most → (wild : Number) → Known wild ts → ProperDirective d }
{}
