// Applications.

ghost use Rattle.std.specs.Prelude.{◌≡◌, ◌<◌, ◌≤◌, ◌+◌, ◌^◌, ◌++◌, ◌==◌, [], true, length, map, zip, Some, IsSome, IfOk, OnOk, if◌then◌else◌};
ghost use Rattle.std.specs.List.{All};
ghost use Rattle.ath_sorts.specs.Sorts.{image, apply_to};
ghost use Rattle.ath_sorts.specs.Signature.{Signature, symbol_of};
ghost use Rattle.ath_sorts.specs.declared.signature.Symbol.{Symbol};
ghost use Rattle.ath_sorts.specs.declared.sorts.SVar.{SVar};
ghost use Rattle.ath_trees.specs.declared.limits.TheConstants.{MOST_PARTS};
ghost use Rattle.ath_trees.specs.Tree.{app};
ghost use Rattle.ath_terms.specs.Trees.{term_at, Grows, IsTermOf};
ghost use Rattle.ath_terms.specs.Lists.{AreTerms};
ghost use Rattle.ath_terms.specs.Kept.{IsListed};
ghost use Rattle.ath_trees.specs.SortsIn.{have_small_sorts};
ghost use Rattle.ath_terms.specs.SortsIn.{IsSortedIn};
ghost use Rattle.ath_trees.specs.Variables.{with_terms};
ghost use Rattle.ath_trees.specs.Under.{term_under, terms_under};
ghost use Rattle.ath_trees.specs.WellSorted.{is_valid_sort, HasSort};
ghost use Rattle.ath_construction.specs.Construction.{made_sorts, made_app};
ghost use Rattle.ath_construction.specs.Listing.{terms_of, sorts_of, arguments, app_pairs, app_measure};
ghost use Rattle.ath_construction.specs.Answers.{IsTermBuilt};
ghost use Rattle.ath_terms.specs.Limits.{MatchMeasured};

use crate::pairs::{add_pair, add_variable_pairs, solve};
use ath_sorts::sorts::copied;
use ath_sorts::{SVar, Signature, Sort, SortSubst, Sym, Symbol};
use ath_subst::terms::{are_sorts_within, is_term_within, sorts_under, term_under};
use ath_terms::limits::check_limits;
use ath_terms::plain::{list_depth, list_size};
use ath_terms::variables::add_term_vars;
use ath_terms::{BuildError, FoundVars, Fresh, Store, TermNode};
use ath_trees::TermId;
use sqlite_items::Items;
use std::alloc::{AllocError, Global};

/// The made variables from a number on, one for each parameter.
fn made_sorts(alloc: Global, first: u64, params: &[Sym]) -> Result<Vec<Sort>, AllocError>
    requires { first < 2 ^ 62 }
    ensures { IfOk result (λ sorts. sorts.items ≡ made_sorts first params.now) }
{
    let mut sorts = Vec::new(alloc);
    for i in 0..params.len() {
        sorts.push(Sort::Var(SVar::Made(first + i as u64)))?;
    }
    Ok(sorts)
}

/// The map from the parameters to sorts.
fn at_sorts(alloc: Global, params: &[Sym], sorts: &[Sort]) -> Result<SortSubst, AllocError>
    requires { length sorts.now ≡ length params.now }
    ensures { IfOk result (λ s. s ≡ zip (map (λ p. SVar.Written p) params.now) sorts.now) }
{
    let mut subst = SortSubst::new(alloc);
    for i in 0..params.len() {
        let sort = copied(&sorts[i])?;
        subst.push(SVar::Written(params[i]), sort)?;
    }
    Ok(subst)
}

/// Adds for each argument the pair of its declared sort with its own.
fn add_argument_pairs(
    store: &Store,
    pairs: &mut Vec<(Sort, Sort)>,
    declared: &[Sort],
    args: &[TermId],
) -> Result<(), AllocError>
    requires inside { All (λ i. i.0 < length store.now.terms) args.now }
    requires same { length declared.now ≡ length args.now }
    ensures { OnOk result (pairs.new.items ≡ pairs.old.items ++ zip declared.now (sorts_of store.now args.now)) }
{
    for i in 0..args.len() {
        add_pair(pairs, &declared[i], store.sort_of(args[i]))?;
    }
    Ok(())
}

/// The variables of some terms.
fn list_vars(alloc: Global, store: &Store, args: &[TermId]) -> Result<FoundVars, AllocError>
    requires { All (λ i. i.0 < length store.now.terms) args.now }
    ensures { IfOk result (λ found. found ≡ with_terms [] (arguments store.now args.now)) }
{
    let mut found = FoundVars::new(alloc);
    for i in 0..args.len() {
        add_term_vars(store, &mut found, args[i])?;
    }
    Ok(found)
}

/// Whether the sorts of some terms under the substitution are within the limits.
fn are_terms_within(store: &Store, subst: &SortSubst, args: &[TermId]) -> bool
    requires { All (λ i. i.0 < length store.now.terms) args.now }
    ensures { (sig : Signature) → IsSortedIn sig store.now → result ≡ have_small_sorts sig (terms_under (image subst.now) (arguments store.now args.now)) }
{
    for i in 0..args.len() {
        if !is_term_within(store, subst, args[i]) {
            return false;
        }
    }
    true
}

/// Some terms under the substitution.
fn terms_under(
    alloc: Global,
    store: &mut Store,
    subst: &SortSubst,
    args: &[TermId],
) -> Result<Items<TermId>, AllocError>
    requires { All (λ i. i.0 < length store.old.terms) args.now }
    ensures grows { Grows store.old store.new }
    ensures trees { IfOk result (λ ids. AreTerms store.new ids (map (λ i. term_under (image subst.now) (term_at store.old.terms i.0)) args.now)) }
    ensures sorted { (sig : Signature) → IsSortedIn sig store.old → ((v : SVar) → is_valid_sort sig (image subst.now v) ≡ true) → IsSortedIn sig store.new }
{
    let mut parts = Items::new(alloc);
    for i in 0..args.len() {
        let part = term_under(alloc, store, subst, args[i])?;
        parts.push(part)?;
    }
    Ok(parts)
}

fn app_pairs(
    alloc: Global,
    store: &Store,
    inst: &SortSubst,
    symbol: &Symbol,
    args: &[TermId],
) -> Result<Vec<(Sort, Sort)>, AllocError>
    requires inside { All (λ i. i.0 < length store.now.terms) args.now }
    requires same { length symbol.now.args ≡ length args.now }
    ensures { IfOk result (λ pairs. pairs.items ≡ app_pairs store.now (image inst.now) symbol.now.args args.now) }
{
    let declared = sorts_under(alloc, inst, symbol.args.as_slice())?;
    let mut pairs = Vec::new(alloc);
    add_argument_pairs(store, &mut pairs, declared.as_slice(), args)?;
    let marks = store.list_marks(args);
    if marks.is_apart {
        return Ok(pairs);
    }
    let found = list_vars(alloc, store, args)?;
    add_variable_pairs(alloc, &mut pairs, found.as_slice())?;
    Ok(pairs)
}

fn is_app_within(
    store: &Store,
    subst: &SortSubst,
    made: &[Sort],
    sort: &Sort,
    args: &[TermId],
) -> bool
    requires { All (λ i. i.0 < length store.now.terms) args.now }
    ensures { (sig : Signature) → IsSortedIn sig store.now → result ≡ (app_measure sig (image subst.now) made.now sort.now (arguments store.now args.now)).small }
{
    if !subst.is_within_limits(sort) {
        return false;
    }
    if !are_sorts_within(subst, made) {
        return false;
    }
    are_terms_within(store, subst, args)
}

/// Refuses an application over the limits, whose sort arguments and sort before the unifier are these.
fn check_app(
    store: &Store,
    subst: &SortSubst,
    made: &[Sort],
    sort: &Sort,
    args: &[TermId],
) -> Result<(), BuildError>
    requires few { length args.now ≤ MOST_PARTS }
    requires inside { All (λ i. i.0 < length store.now.terms) args.now }
    ensures few { OnOk result (IsListed (arguments store.now args.now)) }
    ensures measured { (sig : Signature) → IsSortedIn sig store.now → MatchMeasured (app_measure sig (image subst.now) made.now sort.now (arguments store.now args.now)) result }
{
    let small = is_app_within(store, subst, made, sort, args);
    let nodes = 1 + list_size(store, args);
    let levels = 1 + list_depth(store, args);
    check_limits(small, nodes, levels)
}

/// Adds an application, whose sort arguments and sort before the unifier are these.
fn add_app(
    alloc: Global,
    store: &mut Store,
    subst: &SortSubst,
    name: Sym,
    made: &[Sort],
    sort: &Sort,
    args: &[TermId],
) -> Result<TermId, AllocError>
    requires few { length args.now ≤ MOST_PARTS }
    requires inside { All (λ i. i.0 < length store.old.terms) args.now }
    requires small { IsListed (arguments store.old args.now) }
    ensures grows { Grows store.old store.new }
    ensures tree { IfOk result (λ r. IsTermOf store.new r.0 (term_under (image subst.now) (app name made.now (arguments store.old args.now))) (apply_to (image subst.now) sort.now)) }
    ensures sorted { (sig : Signature) → IsSortedIn sig store.old → ((v : SVar) → is_valid_sort sig (image subst.now v) ≡ true) → HasSort sig (term_under (image subst.now) (app name made.now (arguments store.old args.now))) (apply_to (image subst.now) sort.now) → IsSortedIn sig store.new }
{
    let nodes = 1 + list_size(store, args);
    let levels = 1 + list_depth(store, args);
    let images = sorts_under(alloc, subst, made)?;
    let whole = subst.applied(alloc, sort)?;
    let parts = terms_under(alloc, store, subst, args)?;
    let node = TermNode::App(name, images, parts);
    let term = store.add_term(node, whole, nodes, levels)?;
    Ok(term)
}

/// The application of a symbol, at made variables from a number on, to as many arguments as it has.
fn build_app(
    alloc: Global,
    store: &mut Store,
    symbol: &Symbol,
    first: u64,
    args: &[TermId],
) -> Result<TermId, BuildError>
    requires first { first < 2 ^ 62 }
    requires same { length symbol.now.args ≡ length args.now }
    requires few { length args.now ≤ MOST_PARTS }
    requires inside { All (λ i. i.0 < length store.old.terms) args.now }
    ensures grows { Grows store.old store.new }
    ensures inside { IfOk result (λ r. r.0 < length store.new.terms) }
    ensures built { (sig : Signature) → IsSortedIn sig store.old → symbol_of sig symbol.now.name ≡ Some symbol.now → IsTermBuilt sig store.new (made_app sig first symbol.now (terms_of store.old args.now)) result }
    ensures sorted { (sig : Signature) → IsSortedIn sig store.old → symbol_of sig symbol.now.name ≡ Some symbol.now → IsSortedIn sig store.new }
{
    let made = made_sorts(alloc, first, symbol.params.as_slice())?;
    let inst = at_sorts(alloc, symbol.params.as_slice(), made.as_slice())?;
    let sort = inst.applied(alloc, &symbol.result)?;
    let pairs = app_pairs(alloc, store, &inst, symbol, args)?;
    let subst = solve(alloc, &pairs)?;
    check_app(store, &subst, made.as_slice(), &sort, args)?;
    let term = add_app(
        alloc,
        store,
        &subst,
        symbol.name,
        made.as_slice(),
        &sort,
        args,
    )?;
    Ok(term)
}

/// The application of a symbol of the signature, at new sort variables for its parameters. Each argument's sort is made
/// the declared one.
pub fn app(
    alloc: Global,
    store: &mut Store,
    sig: &Signature,
    fresh: &mut Fresh,
    f: Sym,
    args: &Vec<TermId>,
) -> Result<TermId, BuildError>
    requires there { IsSome (symbol_of sig.now f) }
    requires counter { fresh.old.sort < 2 ^ 62 }
    requires few { length args.now.items ≤ MOST_PARTS }
    requires inside { All (λ i. i.0 < length store.old.terms) args.now.items }
    ensures grows { Grows store.old store.new }
    ensures counters { (d : Symbol) → symbol_of sig.now f ≡ Some d → fresh.new ≡ record { var = fresh.old.var; sort = (if length d.args == length args.now.items then fresh.old.sort + length d.params else fresh.old.sort) } }
    ensures inside { IfOk result (λ r. r.0 < length store.new.terms) }
    ensures built { IsSortedIn sig.now store.old → (d : Symbol) → symbol_of sig.now f ≡ Some d → IsTermBuilt sig.now store.new (made_app sig.now fresh.old.sort d (terms_of store.old args.now.items)) result }
    ensures sorted { IsSortedIn sig.now store.old → IsSortedIn sig.now store.new }
{
    let symbol = sig.symbol(f).unwrap();
    let wanted = symbol.args.as_slice().len();
    if wanted != args.len() {
        return Err(BuildError::ArgCount(wanted, args.len()));
    }
    let first = fresh.sort;
    fresh.sort = first + symbol.params.as_slice().len() as u64;
    build_app(alloc, store, symbol, first, args.as_slice())
}
