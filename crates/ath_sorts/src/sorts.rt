// Sorts as trees, their copies, and when two are one.

ghost use Rattle.std.specs.Prelude.{◌≡◌, IfOk, IsTrue, ◌↔◌};
ghost use Rattle.ath_sorts.specs.Sorts.{same_svar, occurs};
ghost use Rattle.ath_sorts.specs.declared.sorts.Sort.{Sort};

use crate::shared::Shared;
use sqlite_items::Items;
use std::alloc::{AllocError, Global};

/// The number of a name. The sort Boolean has 0, the constants `true` and `false` have 1 and 2.
#[derive(Clone, Copy, Debug, PartialEq, Eq, Hash)]
pub struct Sym(pub usize);

/// A sort variable: one that was written, by its name, or one that was made, by its number.
#[derive(Clone, Copy, Debug, PartialEq, Eq, Hash)]
pub enum SVar {
    Written(Sym),
    Made(u64),
}

/// A sort: a variable, or a sort constructor applied to sorts.
#[derive(Debug, Drop)]
pub enum Sort {
    Var(SVar),
    Con(Sym, Shared<Items<Sort>>),
}

impl SVar {
    /// Whether two sort variables are one.
    pub fn is_same(self, other: SVar) -> bool
        ensures { result ≡ same_svar self other }
    {
        match (self, other) {
            (SVar::Written(a), SVar::Written(b)) => a.0 == b.0,
            (SVar::Made(a), SVar::Made(b)) => a == b,
            _ => false,
        }
    }
}

/// The sort Boolean.
pub const BOOLEAN: Sym = Sym(0);

/// The constructor applied to the sorts.
pub fn con(alloc: Global, name: Sym, args: Items<Sort>) -> Result<Sort, AllocError>
    ensures { IfOk result (λ sort. sort ≡ Sort.Con name args) }
{
    Ok(Sort::Con(name, Shared::new(alloc, args)?))
}

/// The sort again. It shares its arguments with the one that it is copied from.
pub fn copied(sort: &Sort) -> Result<Sort, AllocError>
    ensures { IfOk result (λ copy. copy ≡ sort.now) }
{
    match sort {
        Sort::Var(v) => Ok(Sort::Var(*v)),
        Sort::Con(name, args) => Ok(Sort::Con(*name, args.copied()?)),
    }
}

/// Whether two sorts are one.
pub fn is_same(a: &Sort, b: &Sort) -> bool
    ensures { IsTrue result ↔ (a.now ≡ b.now) }
{
    match (a, b) {
        (Sort::Var(v), Sort::Var(w)) => v.is_same(*w),
        (Sort::Con(c, xs), Sort::Con(d, ys)) => {
            let xs = xs.as_slice();
            let ys = ys.as_slice();
            if c.0 != d.0 || xs.len() != ys.len() {
                return false;
            }
            for i in 0..xs.len() {
                if !is_same(&xs[i], &ys[i]) {
                    return false;
                }
            }
            true
        }
        _ => false,
    }
}

/// Whether the variable occurs in the sort.
pub fn occurs_in(v: SVar, sort: &Sort) -> bool
    ensures { result ≡ occurs v sort.now }
{
    match sort {
        Sort::Var(w) => v.is_same(*w),
        Sort::Con(_, args) => {
            for arg in args.as_slice() {
                if occurs_in(v, arg) {
                    return true;
                }
            }
            false
        }
    }
}
