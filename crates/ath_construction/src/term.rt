// Constructions of one term: an ascription and an atom.

ghost use Rattle.std.specs.Prelude.{◌≡◌, ◌<◌, ◌∷◌, [], true, length, IfOk};
ghost use Rattle.ath_sorts.specs.Signature.{Signature, boolean};
ghost use Rattle.ath_sorts.specs.Sorts.{image, apply_to};
ghost use Rattle.ath_sorts.specs.declared.sorts.SVar.{SVar};
ghost use Rattle.ath_trees.specs.Tree.{atom};
ghost use Rattle.ath_terms.specs.Trees.{term_at, sort_at, Grows, IsSent};
ghost use Rattle.ath_terms.specs.SortsIn.{IsSortedIn};
ghost use Rattle.ath_trees.specs.Variables.{with_term};
ghost use Rattle.ath_trees.specs.Under.{term_under};
ghost use Rattle.ath_trees.specs.WellSorted.{is_valid_sort};
ghost use Rattle.ath_construction.specs.Construction.{variable_pairs, term_measure, made_ascription, made_atom};
ghost use Rattle.ath_construction.specs.Answers.{IsTermBuilt, IsSentBuilt};
ghost use Rattle.ath_construction.specs.Steps.{MatchBoolean};
ghost use Rattle.ath_terms.specs.Limits.{MatchMeasured};

use crate::pairs::{add_pair, add_variable_pairs, clash, solve};
use ath_sorts::sorts::{BOOLEAN, con};
use ath_sorts::{Sort, SortSubst};
use ath_subst::terms::{is_term_within, term_under};
use ath_terms::limits::check_limits;
use ath_terms::variables::add_term_vars;
use ath_terms::{BuildError, FoundVars, Store};
use ath_trees::{SentId, TermId};
use ath_unifiers::{UnifyError, unify};
use sqlite_items::Items;
use std::alloc::{AllocError, Global};

fn term_pairs(
    alloc: Global,
    store: &Store,
    t: TermId,
    sort: &Sort,
) -> Result<Vec<(Sort, Sort)>, AllocError>
    requires { t.0 < length store.now.terms }
    ensures { IfOk result (λ pairs. pairs.items ≡ (sort_at store.now.sorts t.0, sort.now) ∷ variable_pairs (with_term [] (term_at store.now.terms t.0))) }
{
    let mut pairs = Vec::new(alloc);
    add_pair(&mut pairs, store.sort_of(t), sort)?;
    let marks = store.marks(t);
    if marks.is_apart {
        return Ok(pairs);
    }
    let mut found = FoundVars::new(alloc);
    add_term_vars(store, &mut found, t)?;
    add_variable_pairs(alloc, &mut pairs, found.as_slice())?;
    Ok(pairs)
}

fn boolean_sort(alloc: Global) -> Result<Sort, AllocError>
    ensures { IfOk result (λ sort. sort ≡ boolean) }
{
    con(alloc, BOOLEAN, Items::new(alloc))
}

fn check_term(store: &Store, subst: &SortSubst, t: TermId) -> Result<(), BuildError>
    requires { t.0 < length store.now.terms }
    ensures { (sig : Signature) → IsSortedIn sig store.now → MatchMeasured (term_measure sig (term_under (image subst.now) (term_at store.now.terms t.0))) result }
{
    let small = is_term_within(store, subst, t);
    let nodes = store.size(t);
    let levels = store.depth(t);
    check_limits(small, nodes, levels)
}

/// The least unifier of an atom's pairs, the first of which is the term's sort with Boolean.
fn solve_atom(alloc: Global, pairs: &Vec<(Sort, Sort)>, t: TermId) -> Result<SortSubst, BuildError>
    ensures { MatchBoolean t pairs.now.items result }
{
    match unify(alloc, pairs) {
        Ok(subst) => Ok(subst),
        Err(UnifyError::Clash(at)) => {
            if at == 0 {
                return Err(BuildError::NotBoolean(t));
            }
            let told = clash(pairs, at)?;
            Err(told)
        }
        Err(UnifyError::SortTooLarge) => Err(BuildError::SortTooLarge),
        Err(UnifyError::Memory) => Err(BuildError::Memory),
    }
}

fn add_atom(
    alloc: Global,
    store: &mut Store,
    subst: &SortSubst,
    t: TermId,
) -> Result<SentId, AllocError>
    requires { t.0 < length store.old.terms }
    ensures grows { Grows store.old store.new }
    ensures tree { IfOk result (λ p. IsSent store.new p.0 (atom (term_under (image subst.now) (term_at store.old.terms t.0)))) }
    ensures sorted { (sig : Signature) → IsSortedIn sig store.old → ((v : SVar) → is_valid_sort sig (image subst.now v) ≡ true) → apply_to (image subst.now) (sort_at store.old.sorts t.0) ≡ boolean → IsSortedIn sig store.new }
{
    let term = term_under(alloc, store, subst, t)?;
    let sent = store.plain_atom(term)?;
    Ok(sent)
}

/// The term with its sort made the other.
pub fn ascribe(
    alloc: Global,
    store: &mut Store,
    t: TermId,
    sort: &Sort,
) -> Result<TermId, BuildError>
    requires { t.0 < length store.old.terms }
    ensures grows { Grows store.old store.new }
    ensures inside { IfOk result (λ r. r.0 < length store.new.terms) }
    ensures built { (sig : Signature) → IsSortedIn sig store.old → IsTermBuilt sig store.new (made_ascription sig (term_at store.old.terms t.0) sort.now) result }
    ensures sorted { (sig : Signature) → IsSortedIn sig store.old → is_valid_sort sig sort.now ≡ true → IsSortedIn sig store.new }
{
    let pairs = term_pairs(alloc, store, t, sort)?;
    let subst = solve(alloc, &pairs)?;
    check_term(store, &subst, t)?;
    let term = term_under(alloc, store, &subst, t)?;
    Ok(term)
}

/// The atom of a term, whose sort is made Boolean.
pub fn atom(alloc: Global, store: &mut Store, t: TermId) -> Result<SentId, BuildError>
    requires { t.0 < length store.old.terms }
    ensures grows { Grows store.old store.new }
    ensures inside { IfOk result (λ r. r.0 < length store.new.sents) }
    ensures built { (sig : Signature) → IsSortedIn sig store.old → IsSentBuilt store.new (made_atom sig (term_at store.old.terms t.0)) result }
    ensures sorted { (sig : Signature) → IsSortedIn sig store.old → IsSortedIn sig store.new }
{
    let boolean = boolean_sort(alloc)?;
    let pairs = term_pairs(alloc, store, t, &boolean)?;
    let subst = solve_atom(alloc, &pairs, t)?;
    check_term(store, &subst, t)?;
    let sent = add_atom(alloc, store, &subst, t)?;
    Ok(sent)
}
