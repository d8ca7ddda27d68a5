// What becomes of constructions.

ghost use Rattle.std.specs.Prelude.{IfOk};
ghost use Rattle.ath_sorts.specs.Signature.{Signature as Declared};
ghost use Rattle.ath_trees.specs.Tree.{Term, Sent};
ghost use Rattle.ath_construction.specs.Answers.{IsTermBuilt, IsSentBuilt};
ghost use Rattle.ath_construction.specs.Construction.{Built};
ghost use Rattle.ath_terms.specs.Trees.{Trees};
ghost use Rattle.ath_eval.specs.Applying.{gives_term, gives_sentence};
ghost use Rattle.ath_eval.specs.World.{IsSteady};

use crate::refusals::unbuilt;
use crate::world::Outcome;
use ath_env::Value;
use ath_syntax::Pos;
use ath_terms::BuildError;
use ath_trees::{SentId, TermId};
use std::alloc::{AllocError, Global};

/// The outcome of a term's construction.
pub(crate) fn term_made(
    alloc: Global,
    made: Result<TermId, BuildError>,
    at: Pos,
) -> Result<Outcome, AllocError>
    ensures { IfOk result (λ o. (sig : Declared) (s : Trees) (b : Built Term) → IsTermBuilt sig s b made → IsSteady s o (gives_term sig b at)) }
{
    match made {
        Ok(t) => Ok(Outcome::Value(Value::Term(t))),
        Err(error) => {
            let outcome = unbuilt(alloc, error, at)?;
            Ok(outcome)
        }
    }
}

/// The outcome of a sentence's construction.
pub(crate) fn sentence_made(
    alloc: Global,
    made: Result<SentId, BuildError>,
    at: Pos,
) -> Result<Outcome, AllocError>
    ensures { IfOk result (λ o. (s : Trees) (b : Built Sent) → IsSentBuilt s b made → IsSteady s o (gives_sentence b at)) }
{
    match made {
        Ok(p) => Ok(Outcome::Value(Value::Sent(p))),
        Err(error) => {
            let outcome = unbuilt(alloc, error, at)?;
            Ok(outcome)
        }
    }
}
