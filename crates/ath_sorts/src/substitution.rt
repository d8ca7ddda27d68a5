// Sort substitutions.

ghost use Rattle.std.specs.Prelude.{◌≡◌, ℕ, ◌++◌, ◌∷◌, [], OnOk, ◌-◌, ◌<◌, ◌≤◌, false, IsTrue, ◌↔◌, SomeIff, IfOk, map};
ghost use Rattle.std.specs.Option.{option_copied};
ghost use Rattle.ath_sorts.specs.Sorts.{same_svar, image, apply_to, size_of, depth_of, is_small};
ghost use Rattle.ath_sorts.specs.Substitutions.{entry_of};
ghost use Rattle.ath_sorts.specs.declared.sorts.Sym.{Sym};

use crate::limits::{MOST_DEPTH, MOST_NODES, is_depth_within, nodes_left};
use crate::sorts::{SVar, Sort, con, copied};
use indexmap::IndexMap;
use sqlite_items::Items;
use std::alloc::{AllocError, Global};
use std::marker::Model;

/// A finite map from sort variables to sorts, with a table of the variables' first entries. A variable that isn't in it
/// stays as it is.
#[derive(Drop)]
pub struct SortSubst {
    entries: Vec<(SVar, Sort)>,
    places: IndexMap<SVar, usize>,
    lowest_made: u64,
    may_move_written: bool,
}

impl Model for SortSubst {
    ghost use Rattle.std.specs.Prelude.{List};
    ghost use Rattle.ath_sorts.specs.declared.sorts.SVar.{SVar};
    ghost use Rattle.ath_sorts.specs.declared.sorts.Sort.{Sort};
    ghost use Rattle.ath_sorts.specs.contracts.sorts.Sort as sort;
    ghost use Rattle.std.specs.Coded.{codes};
    ghost use Rattle.ath_sorts.specs.Places.{HasEntries, LeavesOthers};

    ghost Value = { List (SVar × Sort) };

    ghost coded = { Prim.hlevel (codes, sort.the_row.coded) };

    ghost view = { λ s. s.entries.items };

    ghost invariant = { λ s. HasEntries s.entries.items s.places.entries × LeavesOthers s.entries.items s.lowest_made s.may_move_written };
}

fn lowest_with(lowest: u64, v: SVar) -> u64
    ensures lower { result ≤ lowest }
    ensures other { (n : ℕ) → n < result → same_svar v (SVar.Made n) ≡ false }
{
    match v {
        SVar::Written(_) => lowest,
        SVar::Made(number) => lowest.min(number),
    }
}

fn written_with(written: bool, v: SVar) -> bool
    ensures kept { result ≡ false → written ≡ false }
    ensures other { result ≡ false → (a : Sym) → same_svar v (SVar.Written a) ≡ false }
{
    match v {
        SVar::Written(_) => true,
        SVar::Made(_) => written,
    }
}

impl SortSubst {
    /// The map without entries.
    pub fn new(alloc: Global) -> SortSubst
        ensures { result ≡ [] }
    {
        SortSubst {
            entries: Vec::new(alloc),
            places: IndexMap::new(alloc),
            lowest_made: u64::MAX,
            may_move_written: false,
        }
    }

    /// No made variable with a lesser number is in the map.
    pub fn lowest_made(&self) -> u64
        ensures { (n : ℕ) → n < result → image self.now (SVar.Made n) ≡ Sort.Var (SVar.Made n) }
    {
        self.lowest_made
    }

    /// False where no written variable is in the map.
    pub fn may_move_written(&self) -> bool
        ensures { result ≡ false → (a : Sym) → image self.now (SVar.Written a) ≡ Sort.Var (SVar.Written a) }
    {
        self.may_move_written
    }

    /// Adds an entry behind those that are there.
    pub fn push(&mut self, v: SVar, sort: Sort) -> Result<(), AllocError>
        ensures { OnOk result (self.new ≡ self.old ++ (v, sort) ∷ []) }
    {
        self.lowest_made = lowest_with(self.lowest_made, v);
        self.may_move_written = written_with(self.may_move_written, v);
        if self.get(v).is_some() {
            self.entries.push((v, sort))?;
            return Ok(());
        }
        let at = self.entries.as_slice().len();
        self.places.insert(v, at)?;
        self.entries.push((v, sort))?;
        Ok(())
    }

    /// The sort that the variable is mapped to, where it is in the map.
    pub fn get(&self, v: SVar) -> Option<&Sort>
        ensures { option_copied result ≡ entry_of self.now v }
    {
        let Some(at) = self.places.get(&v) else {
            return None;
        };
        let Some(entry) = self.entries.as_slice().get(*at) else {
            return None;
        };
        if entry.0.is_same(v) {
            Some(&entry.1)
        } else {
            None
        }
    }

    /// Whether the sort is within the limits once each variable is replaced by what it is mapped to.
    pub fn is_within_limits(&self, sort: &Sort) -> bool
        ensures { result ≡ is_small (apply_to (image self.now) sort.now) }
    {
        self.nodes_left(sort, MOST_NODES).is_some() && self.is_depth_within(sort, MOST_DEPTH)
    }

    /// What a budget of nodes leaves after those of the sort once the map is applied.
    fn nodes_left(&self, sort: &Sort, budget: usize) -> Option<usize>
        ensures { SomeIff result (size_of (apply_to (image self.now) sort.now) ≤ budget) (budget - size_of (apply_to (image self.now) sort.now)) }
    {
        match sort {
            Sort::Var(v) => match self.get(*v) {
                Some(image) => nodes_left(image, budget),
                None => budget.checked_sub(1),
            },
            Sort::Con(_, args) => {
                let mut left = budget.checked_sub(1)?;
                for arg in args.as_slice() {
                    left = self.nodes_left(arg, left)?;
                }
                Some(left)
            }
        }
    }

    fn is_depth_within(&self, sort: &Sort, most: usize) -> bool
        ensures { IsTrue result ↔ (depth_of (apply_to (image self.now) sort.now) ≤ most) }
    {
        match sort {
            Sort::Var(v) => match self.get(*v) {
                Some(image) => is_depth_within(image, most),
                None => most > 0,
            },
            Sort::Con(_, args) => {
                if most == 0 {
                    return false;
                }
                for arg in args.as_slice() {
                    if !self.is_depth_within(arg, most - 1) {
                        return false;
                    }
                }
                true
            }
        }
    }

    /// The sort with each variable replaced by what it is mapped to.
    pub fn applied(&self, alloc: Global, sort: &Sort) -> Result<Sort, AllocError>
        ensures { IfOk result (λ r. r ≡ apply_to (image self.now) sort.now) }
    {
        match sort {
            Sort::Var(v) => match self.get(*v) {
                Some(image) => copied(image),
                None => Ok(Sort::Var(*v)),
            },
            Sort::Con(name, args) => {
                let mut images = Items::new(alloc);
                for arg in args.as_slice() {
                    images.push(self.applied(alloc, arg)?)?;
                }
                con(alloc, *name, images)
            }
        }
    }
}
