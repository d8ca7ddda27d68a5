use ath_base::{Base, Origin, ScopeId};
use ath_sorts::Sym;
use ath_sorts::sorts::con;
use ath_terms::{SentNode, Store};
use ath_trees::Var;
use sqlite_items::Items;
use std::alloc::{AllocError, Global};
use std::process::Abort;
use std::test::Fail;

fn variable(alloc: Global, name: Sym) -> Result<Var, AllocError> {
    Ok(Var {
        name,
        index: 0,
        sort: con(alloc, Sym(0), Items::new(alloc))?,
    })
}

#[test]
fn the_newest_entry_is_answered(rt: HostRuntime) -> Result<(), Fail> {
    let alloc = rt.alloc();
    let mut store = Store::new(alloc);
    let x = store.var(&variable(alloc, Sym(150))?)?;
    let y = store.var(&variable(alloc, Sym(151))?)?;
    let p = store.raw_sent(alloc, &SentNode::Eq(x, x))?;
    let q = store.raw_sent(alloc, &SentNode::Eq(x, x))?;
    let r = store.raw_sent(alloc, &SentNode::Eq(x, y))?;
    let mut base = Base::new(alloc);
    let none = ScopeId(0);
    assert!(rt; base.holds(&store, none, p).is_none());
    let first = base.add(none, p, Origin::Hypothesis)?;
    let second = base.add(first, q, Origin::Concluded)?;
    assert!(rt; base.holds(&store, second, r).is_none());
    let third = base.add(second, r, Origin::Asserted)?;
    let Some(entry) = base.holds(&store, third, p) else {
        panic!(rt; "it doesn't hold");
    };
    assert!(rt; matches!(entry.origin, Origin::Concluded));
    Ok(())
}

#[test]
fn a_scope_keeps_its_entries(rt: HostRuntime) -> Result<(), Fail> {
    let alloc = rt.alloc();
    let mut store = Store::new(alloc);
    let x = store.var(&variable(alloc, Sym(150))?)?;
    let y = store.var(&variable(alloc, Sym(151))?)?;
    let p = store.raw_sent(alloc, &SentNode::Eq(x, x))?;
    let r = store.raw_sent(alloc, &SentNode::Eq(x, y))?;
    let mut base = Base::new(alloc);
    let none = ScopeId(0);
    let first = base.add(none, p, Origin::Hypothesis)?;
    let other = base.add(first, r, Origin::Concluded)?;
    let Some(entry) = base.holds(&store, other, p) else {
        panic!(rt; "it doesn't hold");
    };
    assert!(rt; matches!(entry.origin, Origin::Hypothesis));
    assert!(rt; base.holds(&store, first, r).is_none());
    assert!(rt; base.holds(&store, none, r).is_none());
    Ok(())
}
