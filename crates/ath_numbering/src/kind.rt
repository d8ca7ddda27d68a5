// The kind of a phrase.

ghost use Rattle.std.specs.Prelude.{◌≡◌};
ghost use Rattle.ath_syntax.specs.Tree.{is_deduction};
ghost use Rattle.ath_numbering.specs.Trees.{phrase_of};

use crate::tree::{ClauseWord, ClosureWord, PhraseTree};

/// Whether a phrase is a deduction; the others are expressions.
pub fn is_deduction(tree: &PhraseTree) -> bool
    ensures { result ≡ is_deduction (phrase_of tree.now) }
{
    match tree {
        PhraseTree::Name(_, _) => false,
        PhraseTree::Var(_, _, _, _) => false,
        PhraseTree::Str(_, _) => false,
        PhraseTree::List(_, _) => false,
        PhraseTree::Ascribe(_, _, _) => false,
        PhraseTree::Apply(_, _, _) => false,
        PhraseTree::Call(_, _, _) => true,
        PhraseTree::Closure(word, _, _, _) => match word {
            ClosureWord::Lambda => false,
            ClosureWord::Method => false,
        },
        PhraseTree::Let(_, _, _, body) => is_deduction(body.get()),
        PhraseTree::Clauses(word, _, _, clauses) => match word {
            ClauseWord::Induct => true,
            ClauseWord::Cases => true,
            ClauseWord::Match => match clauses.as_slice().first() {
                None => false,
                Some(clause) => is_deduction(&clause.1),
            },
        },
        PhraseTree::Check(_, branches, _) => match branches.as_slice().first() {
            None => false,
            Some(branch) => is_deduction(&branch.1),
        },
        PhraseTree::Try(_, parts) => match parts.as_slice().first() {
            None => false,
            Some(part) => is_deduction(part),
        },
        PhraseTree::Seq(_, _) => true,
        PhraseTree::Hypothesis(_, _, _, _, _) => true,
        PhraseTree::PickAny(_, _, _) => true,
        PhraseTree::PickWitness(_, _, _, _) => true,
    }
}
