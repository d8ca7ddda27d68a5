// Substitution, other sorts and closing, on small stores. Every term has one sort, a sort variable.

ghost use Rattle.std.specs.Prelude.{◌≡◌, ◌<◌, length, IfOk};
ghost use Rattle.ath_sorts.specs.declared.sorts.SVar.TheVariants.{Made};
ghost use Rattle.ath_sorts.specs.declared.sorts.Sort.{Var as sort_var};
ghost use Rattle.ath_terms.specs.Trees.{sort_at, Grows};

use ath_sorts::{SVar, Sort, SortSubst, Sym};
use ath_subst::error::SubstError;
use ath_subst::substitution::{apply_sorts, apply_sorts_term, close_over, subst_sent, subst_term};
use ath_terms::{SentNode, Store, TermNode};
use ath_trees::{Quant, SentId, TermId, Var};
use std::alloc::Global;
use std::test::Fail;

const X: Sym = Sym(150);

const Y: Sym = Sym(151);

const F: Sym = Sym(152);

fn named(name: Sym, index: u64, number: u64) -> Var
    ensures { result ≡ record { name = name; index = index; sort = sort_var (Made number) } }
{
    Var {
        name,
        index,
        sort: Sort::Var(SVar::Made(number)),
    }
}

fn variable(
    alloc: Global,
    store: &mut Store,
    name: Sym,
    index: u64,
    number: u64,
) -> Result<TermId, Fail>
    ensures grows { Grows store.old store.new }
    ensures inside { IfOk result (λ t. t.0 < length store.new.terms) }
    ensures sort { IfOk result (λ t. sort_at store.new.sorts t.0 ≡ sort_var (Made number)) }
{
    let term = store.var(&named(name, index, number))?;
    Ok(term)
}

/// The quantified equation of two terms.
fn equal_for(alloc: Global, store: &mut Store, v: Var, s: TermId, t: TermId) -> Result<SentId, Fail>
    requires left { s.0 < length store.old.terms }
    requires right { t.0 < length store.old.terms }
    ensures grows { Grows store.old store.new }
    ensures inside { IfOk result (λ p. p.0 < length store.new.sents) }
{
    let body = store.raw_sent(alloc, &SentNode::Eq(s, t))?;
    let whole = store.raw_sent(alloc, &SentNode::Quant(Quant::Exists, v, body))?;
    Ok(whole)
}

/// The index of a quantified sentence's variable.
fn index_of(store: &Store, p: SentId) -> Result<u64, Fail>
    requires { p.0 < length store.now.sents }
{
    match store.sent(p) {
        SentNode::Quant(_, v, _) => Ok(v.index),
        _ => Err("no quantifier".into()),
    }
}

/// (f (f t t) (f t t)), of the sort that every term has
fn grown(alloc: Global, store: &mut Store, t: TermId) -> Result<TermId, Fail>
    requires { t.0 < length store.old.terms }
    ensures grows { Grows store.old store.new }
    ensures inside { IfOk result (λ r. r.0 < length store.new.terms) }
    ensures sort { IfOk result (λ r. sort_at store.new.sorts r.0 ≡ sort_var (Made 1)) }
{
    let own = Sort::Var(SVar::Made(1));
    let mut pair = Vec::new(alloc);
    pair.push(t)?;
    pair.push(t)?;
    let inner = store.raw_app(alloc, F, &Vec::new(alloc), &pair, &own)?;
    let mut both = Vec::new(alloc);
    both.push(inner)?;
    both.push(inner)?;
    let whole = store.raw_app(alloc, F, &Vec::new(alloc), &both, &own)?;
    Ok(whole)
}

#[test]
fn a_binder_is_renamed_where_it_captures(rt: HostRuntime) -> Result<(), Fail> {
    let alloc = rt.alloc();
    let mut store = Store::new(alloc);
    let x = variable(alloc, &mut store, X, 0, 1)?;
    let y = variable(alloc, &mut store, Y, 0, 1)?;
    let p = equal_for(alloc, &mut store, named(Y, 0, 1), x, y)?;
    let captured = subst_sent(alloc, &mut store, p, &named(X, 0, 1), y)?;
    assert_eq!(rt; index_of(&store, captured)?, 1);
    let free = subst_sent(alloc, &mut store, p, &named(X, 0, 1), x)?;
    assert_eq!(rt; index_of(&store, free)?, 0);
    assert_eq!(rt; free, p);
    let bound = subst_sent(alloc, &mut store, p, &named(Y, 0, 1), x)?;
    assert_eq!(rt; bound, p);
    Ok(())
}

#[test]
fn a_binder_is_renamed_where_sorts_meet(rt: HostRuntime) -> Result<(), Fail> {
    let alloc = rt.alloc();
    let mut store = Store::new(alloc);
    let x = variable(alloc, &mut store, X, 0, 1)?;
    let other = variable(alloc, &mut store, X, 0, 2)?;
    let p = equal_for(alloc, &mut store, named(X, 0, 1), x, other)?;
    let mut sorts = SortSubst::new(alloc);
    sorts.push(SVar::Made(2), Sort::Var(SVar::Made(1)))?;
    let met = apply_sorts(alloc, &mut store, p, &sorts)?;
    assert_eq!(rt; index_of(&store, met)?, 1);
    let moved = apply_sorts_term(alloc, &mut store, other, &sorts)?;
    match store.term(moved) {
        TermNode::Var(v) => assert_eq!(rt; v.index, 0),
        _ => return Err("no variable".into()),
    }
    let kept = apply_sorts_term(alloc, &mut store, x, &sorts)?;
    assert_eq!(rt; kept, x);
    Ok(())
}

#[test]
fn closing_takes_the_least_index(rt: HostRuntime) -> Result<(), Fail> {
    let alloc = rt.alloc();
    let mut store = Store::new(alloc);
    let x = variable(alloc, &mut store, X, 3, 1)?;
    let p = equal_for(alloc, &mut store, named(X, 0, 1), x, x)?;
    let closed = close_over(alloc, &mut store, Quant::Forall, &named(X, 3, 1), p)?;
    assert_eq!(rt; index_of(&store, closed)?, 1);
    Ok(())
}

#[test]
fn a_term_takes_a_variables_place(rt: HostRuntime) -> Result<(), Fail> {
    let alloc = rt.alloc();
    let mut store = Store::new(alloc);
    let x = variable(alloc, &mut store, X, 0, 1)?;
    let y = variable(alloc, &mut store, Y, 0, 1)?;
    let put = subst_term(alloc, &mut store, x, &named(X, 0, 1), y)?;
    match store.term(put) {
        TermNode::Var(v) => assert_eq!(rt; v.name, Y),
        TermNode::App(_, _, _) => return Err("no variable".into()),
    }
    let without = grown(alloc, &mut store, y)?;
    let left = subst_term(alloc, &mut store, without, &named(X, 0, 1), y)?;
    assert_eq!(rt; left, without);
    let by_itself = subst_term(alloc, &mut store, without, &named(Y, 0, 1), y)?;
    assert_eq!(rt; by_itself, without);
    Ok(())
}

#[test]
fn a_large_result_is_refused(rt: HostRuntime) -> Result<(), Fail> {
    let alloc = rt.alloc();
    let mut store = Store::new(alloc);
    let x = variable(alloc, &mut store, X, 0, 1)?;
    let small = grown(alloc, &mut store, x)?;
    let middle = grown(alloc, &mut store, small)?;
    let large = grown(alloc, &mut store, middle)?;
    let whole = grown(alloc, &mut store, large)?;
    match subst_term(alloc, &mut store, whole, &named(X, 0, 1), whole) {
        Err(SubstError::TooLarge(nodes)) => assert_eq!(rt; nodes, 131071),
        _ => return Err("not too large".into()),
    }
    Ok(())
}
