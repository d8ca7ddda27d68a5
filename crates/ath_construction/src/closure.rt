// The universal closure of a sentence.

ghost use Rattle.std.specs.Prelude.{◌≡◌, ◌<◌, true, length, IfOk};
ghost use Rattle.ath_sorts.specs.Signature.{Signature};
ghost use Rattle.ath_trees.specs.WellSorted.{is_valid_sort};
ghost use Rattle.ath_terms.specs.SortsIn.{IsSortedIn};
ghost use Rattle.ath_terms.specs.Trees.{sent_at, Grows};
ghost use Rattle.ath_construction.specs.Construction.{builds};
ghost use Rattle.ath_construction.specs.Closure.{closed_one, universal_closure};
ghost use Rattle.ath_construction.specs.Answers.{IsSentBuilt};

use ath_subst::SubstError;
use ath_subst::substitution::close_over;
use ath_terms::{BuildError, Store};
use ath_trees::{Quant, SentId, Var};
use std::alloc::Global;

/// The sentence closed over one variable.
fn close_one(alloc: Global, store: &mut Store, v: &Var, p: SentId) -> Result<SentId, BuildError>
    requires { p.0 < length store.old.sents }
    ensures grows { Grows store.old store.new }
    ensures built { IsSentBuilt store.new (closed_one v.now (builds (sent_at store.old.sents p.0))) result }
    ensures sorted { (sig : Signature) → IsSortedIn sig store.old → is_valid_sort sig v.now.sort ≡ true → IsSortedIn sig store.new }
{
    match close_over(alloc, store, Quant::Forall, v, p) {
        Ok(sent) => Ok(sent),
        Err(SubstError::TooLarge(nodes)) => Err(BuildError::TooLarge(nodes)),
        Err(SubstError::TooDeep(levels)) => Err(BuildError::TooDeep(levels)),
        Err(SubstError::SortTooLarge) => Err(BuildError::SortTooLarge),
        Err(SubstError::Memory) => Err(BuildError::Memory),
    }
}

/// The sentence closed over its free variables, the one that occurs first outermost.
pub fn universal_closure(alloc: Global, store: &mut Store, p: SentId) -> Result<SentId, BuildError>
    requires { p.0 < length store.old.sents }
    ensures grows { Grows store.old store.new }
    ensures inside { IfOk result (λ r. r.0 < length store.new.sents) }
    ensures built { IsSentBuilt store.new (universal_closure (sent_at store.old.sents p.0)) result }
    ensures sorted { (sig : Signature) → IsSortedIn sig store.old → IsSortedIn sig store.new }
{
    let found = store.free_vars(alloc, p)?;
    let variables = found.as_slice();
    let mut sent = p;
    let mut i = variables.len();
    while i > 0 {
        i -= 1;
        sent = close_one(alloc, store, &variables[i], sent)?;
    }
    Ok(sent)
}
