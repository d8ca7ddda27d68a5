//! Laws of derivations.

ghost use Rattle.ath_calculus.specs.Laws.{Cut, Growth, Weakening, WellSorted};

/// A derivation stays one when the theory and the asserted sentences grow.
pub fn growth()
    ensures { Growth }
{}

/// What has a derivation is well-sorted.
pub fn well_sorted()
    ensures { WellSorted }
{}

/// What is derivable under some of the hypotheses is derivable under all of them.
pub fn weakening()
    ensures { Weakening }
{}

/// What is derivable may be a hypothesis of another derivation, and is then no longer one.
pub fn cut()
    ensures { Cut }
{}
