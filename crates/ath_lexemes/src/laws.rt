//! Laws of lexemes, over the definitions alone: the contract of each is what is proved.

ghost use Rattle.std.specs.Prelude.{◌≡◌, ℕ, List};
ghost use Rattle.ath_grammar.specs.declared.lexeme.Lexeme.TheVariants.{Wild, SomeOf as SomeLexeme};
ghost use Rattle.ath_names.specs.Names.{KeepsNames, IsTable, first_names};
ghost use Rattle.ath_sorts.specs.declared.sorts.Sym.{Sym as Number};
ghost use Rattle.ath_syntax.specs.Fits.{IsSomeWord};
ghost use Rattle.ath_tokens.specs.declared.tokens.Token.{Token as TokenOf};
ghost use Rattle.ath_lexemes.specs.Numbered.{IsNumbered, lexeme_of};

/// A token stays what it is to the grammar when names join the table.
#[tactic(auto, using(crate::proofs::LexemeLaws::lexeme_kept))]
pub fn lexemes_are_kept()
    ensures { (old new : List (List ℕ)) → KeepsNames old new → (t : TokenOf) → IsNumbered old t → lexeme_of new t ≡ lexeme_of old t }
{}

/// The words `some-..` have the numbers that a new table of names gives them.
pub fn some_words_are_fixed()
    ensures { (names : List (List ℕ)) → IsTable names → KeepsNames first_names names → (t : TokenOf) (k : Number) → IsNumbered names t → lexeme_of names t ≡ SomeLexeme k → IsSomeWord k }
{}

/// `_` has one number, also while names join the table.
pub fn wild_word_is_one()
    ensures { (old new : List (List ℕ)) → IsTable old → IsTable new → KeepsNames old new → (t u : TokenOf) (m k : Number) → IsNumbered old t → IsNumbered new u → lexeme_of old t ≡ Wild m → lexeme_of new u ≡ Wild k → m.0 ≡ k.0 }
{}
