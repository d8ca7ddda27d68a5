// Which sort variables may be in a tree.

ghost use Rattle.std.specs.Prelude.{◌≡◌, None, false, IsTrue, map};
ghost use Rattle.ath_sorts.specs.Sorts.{image, apply_to};
ghost use Rattle.ath_sorts.specs.declared.sorts.Sort.{Sort};
ghost use Rattle.ath_sorts.specs.declared.sorts.SVar.{SVar};
ghost use Rattle.ath_terms.specs.SortVars.{greater, both, only, Fixes};

use ath_sorts::{SVar, Sort, SortSubst};

/// The made sort variables up to a number, and maybe the written ones.
#[derive(Clone, Copy)]
pub struct SortVars {
    pub most_made: Option<u64>,
    pub may_be_written: bool,
}

fn greater(a: Option<u64>, b: Option<u64>) -> Option<u64>
    ensures { result ≡ greater a b }
{
    match a {
        None => b,
        Some(m) => match b {
            None => Some(m),
            Some(n) => Some(m.max(n)),
        },
    }
}

impl SortVars {
    /// No sort variable.
    pub fn none() -> SortVars
        ensures { result ≡ record { most_made = None; may_be_written = false } }
    {
        SortVars {
            most_made: None,
            may_be_written: false,
        }
    }

    /// The variables of both.
    pub fn and(self, other: SortVars) -> SortVars
        ensures { result ≡ both self other }
    {
        SortVars {
            most_made: greater(self.most_made, other.most_made),
            may_be_written: self.may_be_written || other.may_be_written,
        }
    }

    /// Whether a substitution is seen to leave all of them.
    pub fn are_left(self, subst: &SortSubst) -> bool
        ensures { IsTrue result → Fixes self (image subst.now) }
    {
        if self.may_be_written && subst.may_move_written() {
            return false;
        }
        match self.most_made {
            None => true,
            Some(most) => most < subst.lowest_made(),
        }
    }
}

fn only(v: SVar) -> SortVars
    ensures { result ≡ only v }
{
    match v {
        SVar::Written(_) => SortVars {
            most_made: None,
            may_be_written: true,
        },
        SVar::Made(number) => SortVars {
            most_made: Some(number),
            may_be_written: false,
        },
    }
}

/// The variables of a sort.
pub fn sort_vars(sort: &Sort) -> SortVars
    ensures { (f : SVar → Sort) → Fixes result f → apply_to f sort.now ≡ sort.now }
{
    match sort {
        Sort::Var(v) => only(*v),
        Sort::Con(_, args) => {
            let parts = args.as_slice();
            let mut vars = SortVars::none();
            for i in 0..parts.len() {
                vars = vars.and(sort_vars(&parts[i]));
            }
            vars
        }
    }
}

/// The variables of some sorts.
pub fn list_sort_vars(sorts: &[Sort]) -> SortVars
    ensures { (f : SVar → Sort) → Fixes result f → map (apply_to f) sorts.now ≡ sorts.now }
{
    let mut vars = SortVars::none();
    for i in 0..sorts.len() {
        vars = vars.and(sort_vars(&sorts[i]));
    }
    vars
}
