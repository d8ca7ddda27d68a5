// Laws of directives, runs and reports.

ghost use Rattle.ath_session.specs.Laws.{OneReport, SomeReport, EachReportIsBelieved, RefusedLeavesState, FuelNeverRises, ExhaustedKeepsState};

/// The words and the texts by name have one report at most.
pub fn one_report()
    ensures { OneReport }
{}

/// The words and the texts by name have a report: whatever they say, the run ends.
#[tactic(auto, using(crate::proofs::Existence::some_report))]
pub fn some_report()
    ensures { SomeReport }
{}

/// What a report tells may be believed: each theorem has a derivation, under no hypotheses, from the sentences that were
/// asserted before it, names are clear throughout, and lines are lines.
pub fn each_report_is_believed()
    ensures { EachReportIsBelieved }
{}

/// A directive that is refused has that one event, and leaves all of the state but the fuel and the counters.
pub fn refused_leaves_state()
    ensures { RefusedLeavesState }
{}

/// Fuel never rises, and the counters of fresh names never fall.
pub fn fuel_never_rises()
    ensures { FuelNeverRises }
{}

/// A directive that is exhausted has that one event, leaves all of the state but the counters and the fuel, of which none
/// is left, and ends the run.
pub fn exhausted_keeps_state()
    ensures { ExhaustedKeepsState }
{}
