// Laws of evaluation.

ghost use Rattle.ath_eval.specs.Laws.{ConclusionsFollow, ValuesAreSorted, MoreFuel, FuelNeverRises, StepsTakeFew, TheoriesGrow};

/// A conclusion is derivable from the asserted sentences under the open hypotheses, where each sentence of the assumption
/// base is.
pub fn conclusions_follow()
    ensures { ConclusionsFollow }
{}

/// The terms that expressions give have the sorts that are given with them, and the sentences are well-sorted, where the
/// signature is valid and has the sort Boolean.
pub fn values_are_sorted()
    ensures { ValuesAreSorted }
{}

/// With more fuel, an outcome that isn't exhausted is the same, and as much more fuel is left.
pub fn more_fuel()
    ensures { MoreFuel }
{}

/// Fuel never rises, and the counters of fresh names never fall.
pub fn fuel_never_rises()
    ensures { FuelNeverRises }
{}

/// Where no symbol has more than 64 parameters, each step takes at most 4,194,304 sort variables, and as many indices. So the
/// room for them that is there at first is there after each evaluation.
pub fn steps_take_few()
    ensures { StepsTakeFew }
{}

/// What is well-sorted in a theory, or derivable in it, is so in each one that has what it has.
pub fn theories_grow()
    ensures { TheoriesGrow }
{}
