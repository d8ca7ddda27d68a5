// The place of a phrase.

ghost use Rattle.std.specs.Prelude.{◌≡◌};
ghost use Rattle.ath_syntax.specs.Places.{place};
ghost use Rattle.ath_numbering.specs.Trees.{phrase_of};

use ath_numbering::{ClauseWord, ClosureWord, HypothesisWord, LetWord, PhraseTree};
use ath_syntax::Pos;

/// Where a phrase stands.
pub fn place_of(tree: &PhraseTree) -> Pos
    ensures { result ≡ place (phrase_of tree.now) }
{
    match tree {
        PhraseTree::Name(pos, _) => *pos,
        PhraseTree::Var(pos, _, _, _) => *pos,
        PhraseTree::Str(pos, _) => *pos,
        PhraseTree::List(pos, _) => *pos,
        PhraseTree::Ascribe(pos, _, _) => *pos,
        PhraseTree::Apply(pos, _, _) => *pos,
        PhraseTree::Call(pos, _, _) => *pos,
        PhraseTree::Closure(word, pos, _, _) => match word {
            ClosureWord::Lambda => *pos,
            ClosureWord::Method => *pos,
        },
        PhraseTree::Let(word, pos, _, _) => match word {
            LetWord::Let => *pos,
            LetWord::LetRec => *pos,
        },
        PhraseTree::Clauses(word, pos, _, _) => match word {
            ClauseWord::Match => *pos,
            ClauseWord::Induct => *pos,
            ClauseWord::Cases => *pos,
        },
        PhraseTree::Check(pos, _, _) => *pos,
        PhraseTree::Try(pos, _) => *pos,
        PhraseTree::Seq(pos, _) => *pos,
        PhraseTree::Hypothesis(word, pos, _, _, _) => match word {
            HypothesisWord::Assume => *pos,
            HypothesisWord::Absurd => *pos,
            HypothesisWord::Conclude => *pos,
        },
        PhraseTree::PickAny(pos, _, _) => *pos,
        PhraseTree::PickWitness(pos, _, _, _) => *pos,
    }
}
