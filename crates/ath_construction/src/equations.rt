// Equations.

ghost use Rattle.std.specs.Prelude.{◌≡◌, ◌<◌, ◌&&◌, ◌∷◌, [], true, length, IfOk, OnOk};
ghost use Rattle.ath_sorts.specs.Signature.{Signature};
ghost use Rattle.ath_sorts.specs.Sorts.{image, apply_to};
ghost use Rattle.ath_sorts.specs.declared.sorts.SVar.{SVar};
ghost use Rattle.ath_trees.specs.Tree.{equal};
ghost use Rattle.ath_terms.specs.Trees.{term_at, sort_at, Grows, IsSent};
ghost use Rattle.ath_trees.specs.Measure.{IsSmall};
ghost use Rattle.ath_trees.specs.SortsIn.{has_small_sorts};
ghost use Rattle.ath_terms.specs.SortsIn.{IsSortedIn};
ghost use Rattle.ath_trees.specs.Variables.{with_term};
ghost use Rattle.ath_trees.specs.Under.{term_under};
ghost use Rattle.ath_trees.specs.WellSorted.{is_valid_sort};
ghost use Rattle.ath_construction.specs.Construction.{variable_pairs, sent_measure, made_equation};
ghost use Rattle.ath_construction.specs.Answers.{IsSentBuilt};
ghost use Rattle.ath_terms.specs.Limits.{MatchMeasured};

use crate::pairs::{add_pair, add_variable_pairs, solve};
use ath_sorts::{Sort, SortSubst};
use ath_subst::terms::{are_both_within, term_under};
use ath_terms::limits::check_limits;
use ath_terms::variables::add_term_vars;
use ath_terms::{BuildError, FoundVars, Marks, SentNode, Store};
use ath_trees::{SentId, TermId};
use std::alloc::{AllocError, Global};

fn equation_pairs(
    alloc: Global,
    store: &Store,
    s: TermId,
    t: TermId,
) -> Result<Vec<(Sort, Sort)>, AllocError>
    requires left { s.0 < length store.now.terms }
    requires right { t.0 < length store.now.terms }
    ensures { IfOk result (λ pairs. pairs.items ≡ (sort_at store.now.sorts s.0, sort_at store.now.sorts t.0) ∷ variable_pairs (with_term (with_term [] (term_at store.now.terms s.0)) (term_at store.now.terms t.0))) }
{
    let mut pairs = Vec::new(alloc);
    add_pair(&mut pairs, store.sort_of(s), store.sort_of(t))?;
    let marks = Marks::all().with(store.marks(s)).with(store.marks(t));
    if marks.is_apart {
        return Ok(pairs);
    }
    let mut found = FoundVars::new(alloc);
    add_term_vars(store, &mut found, s)?;
    add_term_vars(store, &mut found, t)?;
    add_variable_pairs(alloc, &mut pairs, found.as_slice())?;
    Ok(pairs)
}

fn check_equation(store: &Store, subst: &SortSubst, s: TermId, t: TermId) -> Result<(), BuildError>
    requires left { s.0 < length store.now.terms }
    requires right { t.0 < length store.now.terms }
    ensures measured { (sig : Signature) → IsSortedIn sig store.now → MatchMeasured (sent_measure sig (equal (term_under (image subst.now) (term_at store.now.terms s.0)) (term_under (image subst.now) (term_at store.now.terms t.0)))) result }
    ensures few { OnOk result (IsSmall (equal (term_at store.now.terms s.0) (term_at store.now.terms t.0))) }
{
    let small = are_both_within(store, subst, s, t);
    let nodes = 1 + store.size(s) + store.size(t);
    let levels = 1 + store.depth(s).max(store.depth(t));
    check_limits(small, nodes, levels)
}

fn add_equation(
    alloc: Global,
    store: &mut Store,
    subst: &SortSubst,
    s: TermId,
    t: TermId,
) -> Result<SentId, AllocError>
    requires left { s.0 < length store.old.terms }
    requires right { t.0 < length store.old.terms }
    requires small { IsSmall (equal (term_at store.old.terms s.0) (term_at store.old.terms t.0)) }
    ensures grows { Grows store.old store.new }
    ensures tree { IfOk result (λ p. IsSent store.new p.0 (equal (term_under (image subst.now) (term_at store.old.terms s.0)) (term_under (image subst.now) (term_at store.old.terms t.0)))) }
    ensures sorted { (sig : Signature) → IsSortedIn sig store.old → ((v : SVar) → is_valid_sort sig (image subst.now v) ≡ true) → apply_to (image subst.now) (sort_at store.old.sorts s.0) ≡ apply_to (image subst.now) (sort_at store.old.sorts t.0) → IsSortedIn sig store.new }
{
    let nodes = 1 + store.size(s) + store.size(t);
    let levels = 1 + store.depth(s).max(store.depth(t));
    let left = term_under(alloc, store, subst, s)?;
    let right = term_under(alloc, store, subst, t)?;
    let sent = store.add_sent(SentNode::Eq(left, right), nodes, levels)?;
    Ok(sent)
}

/// The equation of two terms, whose sorts are made one.
pub fn equation(
    alloc: Global,
    store: &mut Store,
    s: TermId,
    t: TermId,
) -> Result<SentId, BuildError>
    requires left { s.0 < length store.old.terms }
    requires right { t.0 < length store.old.terms }
    ensures grows { Grows store.old store.new }
    ensures inside { IfOk result (λ r. r.0 < length store.new.sents) }
    ensures built { (sig : Signature) → IsSortedIn sig store.old → IsSentBuilt store.new (made_equation sig (term_at store.old.terms s.0) (term_at store.old.terms t.0)) result }
    ensures sorted { (sig : Signature) → IsSortedIn sig store.old → IsSortedIn sig store.new }
{
    let pairs = equation_pairs(alloc, store, s, t)?;
    let subst = solve(alloc, &pairs)?;
    check_equation(store, &subst, s, t)?;
    let sent = add_equation(alloc, store, &subst, s, t)?;
    Ok(sent)
}
