// What is known of trees beside their nodes and levels, so that walks through them can be saved.

ghost use Rattle.std.specs.Prelude.{◌≡◌, ◌&&◌};
ghost use Rattle.std.specs.List.{list_all};
ghost use Rattle.ath_sorts.specs.Sorts.{is_small};
ghost use Rattle.ath_terms.specs.Marks.{all_marks, with_marks, over, told_apart, IsVarMarked};
ghost use Rattle.ath_terms.specs.declared.sort_vars.SortVars.{SortVars};

use crate::sort_vars::{SortVars, sort_vars};
use ath_sorts::Sort;
use ath_sorts::limits::is_within_limits;
use ath_trees::{NameGroups, Var};

/// What is known of a tree. What isn't marked may hold all the same.
#[derive(Clone, Copy)]
pub struct Marks {
    /// No variable is free in it.
    pub is_closed: bool,
    /// Its free variables have names of these groups.
    pub groups: NameGroups,
    /// No two of its free variables have one name and index.
    pub is_apart: bool,
    /// Its sorts are within the limits, in a signature in which the store is sorted.
    pub is_small: bool,
    /// It has no other sort variables.
    pub sorts: SortVars,
}

impl Marks {
    /// What is known of no trees.
    pub fn all() -> Marks
        ensures { result ≡ all_marks }
    {
        Marks {
            is_closed: true,
            groups: NameGroups::none(),
            is_apart: true,
            is_small: true,
            sorts: SortVars::none(),
        }
    }

    /// What is known of some trees and one more.
    pub fn with(self, part: Marks) -> Marks
        ensures { result ≡ with_marks self part }
    {
        Marks {
            is_closed: self.is_closed && part.is_closed,
            groups: self.groups.and(part.groups),
            is_apart: (self.is_apart && part.is_closed) || (self.is_closed && part.is_apart),
            is_small: self.is_small && part.is_small,
            sorts: self.sorts.and(part.sorts),
        }
    }

    /// What is known of a tree over some, whose own sorts are these.
    pub fn over(self, small: bool, sorts: SortVars) -> Marks
        ensures { result ≡ over self small sorts }
    {
        Marks {
            is_closed: self.is_closed,
            groups: self.groups,
            is_apart: self.is_apart,
            is_small: self.is_small && small,
            sorts: self.sorts.and(sorts),
        }
    }

    /// The same where no two free variables have one name and index.
    pub fn told_apart(self) -> Marks
        ensures { result ≡ told_apart self }
    {
        Marks {
            is_closed: self.is_closed,
            groups: self.groups,
            is_apart: true,
            is_small: self.is_small,
            sorts: self.sorts,
        }
    }

    /// The same for a quantifier, where its body has no free variable.
    pub fn bound(self, small: bool, sorts: SortVars) -> Marks
        ensures { result ≡ record { is_closed = self.is_closed; groups = self.groups; is_apart = self.is_closed; is_small = (over self small sorts).is_small; sorts = (over self small sorts).sorts } }
    {
        Marks {
            is_closed: self.is_closed,
            groups: self.groups,
            is_apart: self.is_closed,
            is_small: self.is_small && small,
            sorts: self.sorts.and(sorts),
        }
    }
}

fn are_small(sorts: &[Sort]) -> bool
    ensures { result ≡ list_all is_small sorts.now }
{
    for sort in sorts {
        if !is_within_limits(sort) {
            return false;
        }
    }
    true
}

/// Whether a sort and some more are within the limits.
pub fn are_all_small(sort: &Sort, sorts: &[Sort]) -> bool
    ensures { result ≡ (is_small sort.now && list_all is_small sorts.now) }
{
    is_within_limits(sort) && are_small(sorts)
}

/// What is known of a variable that is kept with a sort.
pub fn var_marks(v: &Var, sort: &Sort) -> Marks
    ensures { IsVarMarked v.now sort.now result }
{
    Marks {
        is_closed: false,
        groups: NameGroups::only(v),
        is_apart: true,
        is_small: is_within_limits(&v.sort),
        sorts: sort_vars(&v.sort).and(sort_vars(sort)),
    }
}
