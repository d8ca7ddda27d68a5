//! Laws of substitution. Each function is a law: its contract, and no code.

ghost use Rattle.ath_tree_laws.specs.Laws.{NoneIsCaptured};

/// No free variable is captured: what is free in the term that is put is free in the result, and what was free beside the variable stays so.
pub fn none_is_captured()
    ensures { NoneIsCaptured }
{}
