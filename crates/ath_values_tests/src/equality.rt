use ath_equality::are_equal;
use ath_sorts::Sym;
use ath_sorts::sorts::con;
use ath_terms::Store;
use ath_trees::Var;
use ath_values::Envs;
use sqlite_items::Items;
use std::alloc::{AllocError, Global};
use std::process::Abort;
use std::test::Fail;

fn variable(alloc: Global, name: usize) -> Result<Var, AllocError> {
    Ok(Var {
        name: Sym(name),
        index: 0,
        sort: con(alloc, Sym(0), Items::new(alloc))?,
    })
}

#[test]
fn terms_are_compared(rt: HostRuntime) -> Result<(), Fail> {
    let alloc = rt.alloc();
    let mut store = Store::new(alloc);
    let x = store.var(&variable(alloc, 150)?)?;
    let again = store.var(&variable(alloc, 150)?)?;
    let y = store.var(&variable(alloc, 151)?)?;
    let mut envs = Envs::new(alloc)?;
    let first = envs.term(&store, x)?;
    let second = envs.term(&store, again)?;
    let third = envs.term(&store, y)?;
    assert!(rt; are_equal(alloc, &envs, &store, first, second)?);
    assert!(rt; !are_equal(alloc, &envs, &store, first, third)?);
    Ok(())
}
