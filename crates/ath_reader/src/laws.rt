// The laws of what is next in a text.

ghost use Rattle.ath_reader.specs.Laws.{OneNext, SomeNext};

/// From a byte on, with the names that are known there, one directive alone is next, or none, or one refusal alone.
#[tactic(auto, using(crate::proofs::OneNext::one_next))]
pub fn one_next()
    ensures { OneNext }
{}

/// From each byte on, whatever names are known there, a directive is next, or none, or a refusal.
#[tactic(auto, using(crate::proofs::SomeNext::some_next))]
pub fn some_next()
    ensures { SomeNext }
{}
