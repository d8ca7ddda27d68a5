// Laws of nameless forms. Each function is a law: its contract, and no code.

ghost use Rattle.ath_trees.specs.Laws.{AlphaIsAnEquivalence, AlphaIsTold, BindingsAgree, ClosingIsQuantifying, InstancesAreFound, SortingIsKept, SortsUnderBinders, SubstitutionIsNameless};

/// Alpha-equality is an equivalence.
pub fn alpha_is_an_equivalence()
    ensures { AlphaIsAnEquivalence }
{}

/// Substitution by name is substitution in the nameless form: no free variable is captured.
pub fn substitution_is_nameless()
    ensures { SubstitutionIsNameless }
{}

/// A sort substitution by name is one in the nameless form: no two variables become one.
pub fn sorts_under_binders()
    ensures { SortsUnderBinders }
{}

/// To close a sentence over a variable is to quantify over it.
pub fn closing_is_quantifying()
    ensures { ClosingIsQuantifying }
{}

/// The sort instance of one sentence that another is, off rigid sort variables, is found exactly where there is one.
pub fn instances_are_found()
    ensures { InstancesAreFound }
{}

/// Alpha-equality is told by a test.
pub fn alpha_is_told()
    ensures { AlphaIsTold }
{}

/// Two bindings that make one target of a pattern agree on its listed variables.
pub fn bindings_agree()
    ensures { BindingsAgree }
{}

/// Substitution, sorts under binders and closing keep sentences well-sorted.
pub fn sorting_is_kept()
    ensures { SortingIsKept }
{}
