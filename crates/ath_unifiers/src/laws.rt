//! Laws of unifiers, and of the function that unifies.

ghost use Rattle.ath_unifiers.specs.Laws.{AnswersAgree, LeastUnifiersAgree, UnifiedIs, UnifiersFactor};

/// A unifier factors through the least one. Two least most general unifiers of one list of pairs are equal.
pub fn least_unifiers()
    ensures unifiers_factor { UnifiersFactor }
    ensures least_unifiers_agree { LeastUnifiersAgree }
{}

/// The function gives the least most general unifier, the place of the clash, or that an image is too large.
pub fn unified_is()
    ensures { UnifiedIs }
{}

/// What meets the contract of `unify` is what the function gives.
pub fn answers_agree()
    ensures { AnswersAgree }
{}
