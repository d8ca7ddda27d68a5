// Instances, case by case.

use crate::instance;
use crate::sorts::{SVar, Sort, Sym, con, is_same};
use crate::substitution::SortSubst;
use sqlite_items::Items;
use std::alloc::{AllocError, Global};
use std::test::Fail;

const X: SVar = SVar::Written(Sym(10));

const Y: SVar = SVar::Written(Sym(11));

/// The one variable that is rigid.
const Z: SVar = SVar::Written(Sym(12));

fn constant(alloc: Global) -> Result<Sort, AllocError> {
    con(alloc, Sym(3), Items::new(alloc))
}

fn list_of(alloc: Global, sort: Sort) -> Result<Sort, AllocError> {
    let mut args = Items::new(alloc);
    args.push(sort)?;
    con(alloc, Sym(4), args)
}

fn both(alloc: Global, first: Sort, second: Sort) -> Result<Vec<Sort>, AllocError> {
    let mut sorts = Vec::new(alloc);
    sorts.push(first)?;
    sorts.push(second)?;
    Ok(sorts)
}

/// The instance by which the sorts of the first pair are those of the second.
fn matched(
    alloc: Global,
    general: &Vec<Sort>,
    special: &Vec<Sort>,
) -> Result<Option<SortSubst>, AllocError> {
    let mut rigid = Vec::new(alloc);
    rigid.push(Z)?;
    instance(alloc, general, special, &rigid)
}

fn is_mapped(found: &Option<SortSubst>, v: SVar, to: &Sort) -> bool {
    match found {
        Some(found) => match found.get(v) {
            Some(image) => is_same(image, to),
            None => is_same(&Sort::Var(v), to),
        },
        None => false,
    }
}

#[test]
fn images(rt: HostRuntime) -> Result<(), Fail> {
    let alloc = rt.alloc();
    let general = both(alloc, Sort::Var(X), list_of(alloc, Sort::Var(Y))?)?;
    let special = both(alloc, Sort::Var(Y), list_of(alloc, constant(alloc)?)?)?;
    let found = matched(alloc, &general, &special)?;
    assert!(rt; is_mapped(&found, X, &Sort::Var(Y)));
    assert!(rt; is_mapped(&found, Y, &constant(alloc)?));
    assert!(rt; is_mapped(&found, Z, &Sort::Var(Z)));
    Ok(())
}

#[test]
fn refusals(rt: HostRuntime) -> Result<(), Fail> {
    let alloc = rt.alloc();
    let twice = both(alloc, Sort::Var(X), Sort::Var(X))?;
    let rigid = both(alloc, Sort::Var(Z), Sort::Var(X))?;
    let list = both(alloc, list_of(alloc, Sort::Var(X))?, Sort::Var(Y))?;
    let same = both(alloc, constant(alloc)?, constant(alloc)?)?;
    let other = both(alloc, constant(alloc)?, Sort::Var(Y))?;
    let kept = both(alloc, Sort::Var(Z), constant(alloc)?)?;
    assert!(rt; matched(alloc, &twice, &same)?.is_some());
    assert!(rt; matched(alloc, &twice, &other)?.is_none());
    assert!(rt; matched(alloc, &rigid, &kept)?.is_some());
    assert!(rt; matched(alloc, &rigid, &same)?.is_none());
    assert!(rt; matched(alloc, &list, &same)?.is_none());
    Ok(())
}
