// The limits on one sort.

ghost use Rattle.std.specs.Prelude.{◌≡◌, ◌-◌, ◌≤◌, IsTrue, ◌↔◌, SomeIff};
ghost use Rattle.ath_sorts.specs.Sorts.{size_of, depth_of, is_small};

use crate::sorts::Sort;

/// The greatest number of nodes that a sort may have.
pub const MOST_NODES: usize = 1000;

/// The greatest depth that a sort may have.
pub const MOST_DEPTH: usize = 64;

/// The greatest number of parameters or arguments of a symbol, and of arguments of a sort constructor.
pub const MOST_WIDTH: usize = 64;

/// Whether the sort is within the limits on nodes and depth.
pub fn is_within_limits(sort: &Sort) -> bool
    ensures { result ≡ is_small sort.now }
{
    nodes_left(sort, MOST_NODES).is_some() && is_depth_within(sort, MOST_DEPTH)
}

/// What a budget of nodes leaves after the sort's own, or None where it doesn't suffice.
pub(crate) fn nodes_left(sort: &Sort, budget: usize) -> Option<usize>
    ensures { SomeIff result (size_of sort.now ≤ budget) (budget - size_of sort.now) }
{
    if budget == 0 {
        return None;
    }
    match sort {
        Sort::Var(_) => Some(budget - 1),
        Sort::Con(_, args) => {
            let mut left = budget - 1;
            for arg in args.as_slice() {
                left = nodes_left(arg, left)?;
            }
            Some(left)
        }
    }
}

pub(crate) fn is_depth_within(sort: &Sort, most: usize) -> bool
    ensures { IsTrue result ↔ (depth_of sort.now ≤ most) }
{
    if most == 0 {
        return false;
    }
    match sort {
        Sort::Var(_) => true,
        Sort::Con(_, args) => {
            for arg in args.as_slice() {
                if !is_depth_within(arg, most - 1) {
                    return false;
                }
            }
            true
        }
    }
}
