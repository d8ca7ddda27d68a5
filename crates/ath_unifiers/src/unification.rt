// Unification of sorts.

ghost use Rattle.std.specs.Prelude.{◌≡◌, ◌≤◌, IfOk, MatchOption, length, take};
ghost use Rattle.ath_unifiers.specs.Graphs.{Solves};
ghost use Rattle.ath_unifiers.specs.declared.unification.UnifyError.TheVariants.{Memory};
ghost use Rattle.ath_unifiers.specs.Unifiers.{HasUnifier, IsClash, MatchUnified};

use crate::graph::Graph;
use ath_sorts::{Sort, SortSubst};
use std::alloc::{AllocError, Global};
use thiserror::Error;

/// Why sorts aren't unified.
#[derive(Debug, Drop, Error)]
pub enum UnifyError {
    /// The first place such that the pairs up to it have no unifier.
    #[error("the sorts of pair {0} can't be made equal")]
    Clash(usize),
    #[error("a sort is above the limits")]
    SortTooLarge,
    #[error("out of memory")]
    Memory,
}

impl From<AllocError> for UnifyError {
    ghost from_gives = { λ _ e. e ≡ Memory };

    fn from(_error: AllocError) -> UnifyError {
        UnifyError::Memory
    }
}

/// The least most general unifier of the pairs.
pub fn unify(alloc: Global, pairs: &Vec<(Sort, Sort)>) -> Result<SortSubst, UnifyError>
    ensures { MatchUnified pairs.now.items result }
{
    let pairs = pairs.as_slice();
    let graph = match graph_of(alloc, pairs, pairs.len())? {
        Some(graph) => graph,
        None => return Err(UnifyError::Clash(clash(alloc, pairs)?)),
    };
    if !graph.are_images_within_limits() {
        return Err(UnifyError::SortTooLarge);
    }
    let solution = graph.solution(alloc)?;
    Ok(solution)
}

/// The graph of the first pairs, or None where they have no unifier.
fn graph_of(
    alloc: Global,
    pairs: &[(Sort, Sort)],
    count: usize,
) -> Result<Option<Graph>, AllocError>
    requires { count ≤ length pairs.now }
    ensures { IfOk result (λ found. MatchOption found (HasUnifier (take count pairs.now) → ⊥) (λ g. Solves g (take count pairs.now))) }
{
    let mut graph = Graph::new(alloc);
    for at in 0..count {
        let pair = &pairs[at];
        if !graph.equate(alloc, &pair.0, &pair.1)? {
            return Ok(None);
        }
    }
    if graph.is_acyclic(alloc)? {
        Ok(Some(graph))
    } else {
        Ok(None)
    }
}

/// The first place such that the pairs up to it have no unifier: it is searched by halves.
fn clash(alloc: Global, pairs: &[(Sort, Sort)]) -> Result<usize, AllocError>
    requires { HasUnifier pairs.now → ⊥ }
    ensures { IfOk result (IsClash pairs.now) }
{
    let mut low = 0;
    let mut high = pairs.len();
    while high - low > 1 {
        let middle = low + (high - low) / 2;
        if graph_of(alloc, pairs, middle)?.is_some() {
            low = middle;
        } else {
            high = middle;
        }
    }
    Ok(low)
}
