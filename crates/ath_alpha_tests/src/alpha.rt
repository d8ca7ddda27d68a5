// Alpha-equality, keys and sort instances, on quantified equations of two variables.

ghost use Rattle.std.specs.Prelude.{◌<◌, length, IfOk};
ghost use Rattle.ath_terms.specs.Trees.{Grows};

use ath_alpha::{alpha_key, is_alpha_equal, sort_instance};
use ath_sorts::sorts::{BOOLEAN, con};
use ath_sorts::{SVar, Sort, Sym};
use ath_terms::{SentNode, Store};
use ath_trees::{Quant, SentId, Var};
use sqlite_items::Items;
use std::alloc::{AllocError, Global};
use std::process::Abort;
use std::test::Fail;

const X: Sym = Sym(150);

const Y: Sym = Sym(151);

const Z: Sym = Sym(152);

/// The sort of a variable: Boolean has 0, and a sort variable its number.
fn named(alloc: Global, name: Sym, sort: u64) -> Result<Var, AllocError> {
    let sort = if sort == 0 {
        con(alloc, BOOLEAN, Items::new(alloc))?
    } else {
        Sort::Var(SVar::Made(sort))
    };
    Ok(Var {
        name,
        index: 0,
        sort,
    })
}

/// The equation of two variables of these names and sorts, quantified over a third.
fn quantified(
    alloc: Global,
    store: &mut Store,
    quant: Quant,
    bound: (Sym, u64),
    left: (Sym, u64),
    right: (Sym, u64),
) -> Result<SentId, Fail>
    ensures grows { Grows store.old store.new }
    ensures inside { IfOk result (λ p. p.0 < length store.new.sents) }
{
    let first = store.var(&named(alloc, left.0, left.1)?)?;
    let second = store.var(&named(alloc, right.0, right.1)?)?;
    let body = store.raw_sent(alloc, &SentNode::Eq(first, second))?;
    let variable = named(alloc, bound.0, bound.1)?;
    let whole = store.raw_sent(alloc, &SentNode::Quant(quant, variable, body))?;
    Ok(whole)
}

/// Whether two sentences are alpha-equal, and whether they have one key.
fn compared(store: &Store, p: SentId, q: SentId) -> (bool, bool)
    requires left { p.0 < length store.now.sents }
    requires right { q.0 < length store.now.sents }
{
    (
        is_alpha_equal(store, p, q),
        alpha_key(store, p) == alpha_key(store, q),
    )
}

/// What the instance makes of the first sort variable: Boolean, another sort, or nothing; or there is none.
#[derive(Clone, Copy, Debug, PartialEq, Eq)]
enum Found {
    Boolean,
    Other,
    Unmoved,
    Nowhere,
}

fn answered(
    alloc: Global,
    store: &Store,
    p: SentId,
    q: SentId,
    rigid: &Vec<SVar>,
) -> Result<Found, AllocError>
    requires left { p.0 < length store.now.sents }
    requires right { q.0 < length store.now.sents }
{
    let Some(subst) = sort_instance(alloc, store, p, q, rigid)? else {
        return Ok(Found::Nowhere);
    };
    match subst.get(SVar::Made(1)) {
        Some(Sort::Con(_, _)) => Ok(Found::Boolean),
        Some(Sort::Var(_)) => Ok(Found::Other),
        None => Ok(Found::Unmoved),
    }
}

/// Compares what the instance makes of the first sort variable with this.
fn expect_found(
    rt: &(impl Abort + AllocGlobal),
    store: &Store,
    p: SentId,
    q: SentId,
    rigid: &Vec<SVar>,
    found: Found,
) -> Result<(), AllocError>
    requires left { p.0 < length store.now.sents }
    requires right { q.0 < length store.now.sents }
{
    let answer = answered(rt.alloc(), store, p, q, rigid)?;
    assert_eq!(rt; answer, found);
    Ok(())
}

#[test]
fn sentences_are_compared(rt: HostRuntime) -> Result<(), Fail> {
    let alloc = rt.alloc();
    let mut store = Store::new(alloc);
    let first = quantified(alloc, &mut store, Quant::Exists, (X, 1), (X, 1), (Y, 1))?;
    let renamed = quantified(alloc, &mut store, Quant::Exists, (Z, 1), (Z, 1), (Y, 1))?;
    let universal = quantified(alloc, &mut store, Quant::Forall, (X, 1), (X, 1), (Y, 1))?;
    let at_sort = quantified(alloc, &mut store, Quant::Exists, (X, 0), (X, 0), (Y, 0))?;
    let turned = quantified(alloc, &mut store, Quant::Exists, (X, 1), (Y, 1), (X, 1))?;
    let captured = quantified(alloc, &mut store, Quant::Exists, (Y, 1), (Y, 1), (Y, 1))?;
    let unbound = quantified(alloc, &mut store, Quant::Exists, (X, 2), (X, 1), (Y, 1))?;
    assert_eq!(rt; compared(&store, first, first), (true, true));
    assert_eq!(rt; compared(&store, first, renamed), (true, true));
    assert_eq!(rt; compared(&store, first, universal), (false, false));
    assert_eq!(rt; compared(&store, first, at_sort), (false, true));
    assert_eq!(rt; compared(&store, first, turned), (false, false));
    assert_eq!(rt; compared(&store, first, captured), (false, false));
    assert_eq!(rt; compared(&store, first, unbound), (false, false));
    assert_eq!(rt; alpha_key(&store, at_sort), first.0);
    Ok(())
}

#[test]
fn instances_are_found(rt: HostRuntime) -> Result<(), Fail> {
    let alloc = rt.alloc();
    let mut store = Store::new(alloc);
    let general = quantified(alloc, &mut store, Quant::Exists, (X, 1), (X, 1), (Y, 1))?;
    let special = quantified(alloc, &mut store, Quant::Exists, (Z, 0), (Z, 0), (Y, 0))?;
    let other = quantified(alloc, &mut store, Quant::Exists, (X, 2), (X, 2), (Y, 2))?;
    let mixed = quantified(alloc, &mut store, Quant::Exists, (X, 0), (X, 0), (Y, 2))?;
    let apart = quantified(alloc, &mut store, Quant::Exists, (X, 1), (X, 1), (Y, 3))?;
    let none = Vec::new(alloc);
    let mut rigid = Vec::new(alloc);
    rigid.push(SVar::Made(1))?;
    expect_found(&rt, &store, general, special, &none, Found::Boolean)?;
    expect_found(&rt, &store, general, special, &rigid, Found::Nowhere)?;
    expect_found(&rt, &store, special, general, &none, Found::Nowhere)?;
    expect_found(&rt, &store, general, other, &none, Found::Other)?;
    expect_found(&rt, &store, general, general, &rigid, Found::Unmoved)?;
    expect_found(&rt, &store, general, mixed, &none, Found::Nowhere)?;
    expect_found(&rt, &store, apart, mixed, &none, Found::Boolean)?;
    expect_found(&rt, &store, apart, mixed, &rigid, Found::Nowhere)?;
    Ok(())
}
