// Applications of connectives.

ghost use Rattle.std.specs.Prelude.{◌≡◌, ◌≤◌, IfOk, map, length, true};
ghost use Rattle.std.specs.List.{All};
ghost use Rattle.ath_syntax.specs.Fits.{most};
ghost use Rattle.ath_construction.specs.Answers.{IsSentBuilt};
ghost use Rattle.ath_construction.specs.Construction.{takes, wanted};
ghost use Rattle.ath_env.specs.Stands.{IsIn};
ghost use Rattle.ath_eval.specs.Applying as applying;
ghost use Rattle.ath_eval.specs.Arguments.{IsPieceIn, piece_tree, values_at};
ghost use Rattle.ath_eval.specs.Stands.{AreSentsBuilt};
ghost use Rattle.ath_eval.specs.World.{IsSteady, Rests};

use crate::building::sentence_made;
use crate::kinds::{Part, Parts, as_parts};
use crate::refusals::{miscounted, numbered};
use crate::world::{Outcome, World};
use ath_construction::connectives::{takes, wanted};
use ath_construction::{atom, connective};
use ath_env::Value;
use ath_print::FaultKind;
use ath_syntax::Pos;
use ath_terms::BuildError;
use ath_trees::{Conn, SentId};
use std::alloc::{AllocError, Global};

/// The sentence that a part is: a term is made an atom.
pub(crate) fn sentence_of(alloc: Global, w: &mut World, part: Part) -> Result<SentId, BuildError>
    requires { IsPieceIn w.old.store part }
    ensures rests { Rests w.old w.new }
    ensures built { IsSentBuilt w.new.store (applying.sentence_made w.old.sig (piece_tree w.old.store part)) result }
{
    match part {
        Part::Term(t) => atom(alloc, &mut w.store, t),
        Part::Sent(p) => Ok(p),
    }
}

/// The sentences that the parts are, from the left.
fn sentences(alloc: Global, w: &mut World, parts: &[Part]) -> Result<Vec<SentId>, BuildError>
    requires { All (IsPieceIn w.old.store) parts.now }
    ensures rests { Rests w.old w.new }
    ensures built { AreSentsBuilt w.new.store (applying.sentences_made w.old.sig (map (piece_tree w.old.store) parts.now)) result }
    ensures many { IfOk result (λ ids. length ids.items ≡ length parts.now) }
{
    let mut ids: Vec<SentId> = Vec::new(alloc);
    for part in parts {
        match sentence_of(alloc, w, *part) {
            Ok(p) => {
                if ids.push(p).is_err() {
                    return Err(BuildError::Memory);
                }
            }
            Err(error) => return Err(error),
        }
    }
    Ok(ids)
}

/// The connective of these parts.
fn connect(alloc: Global, w: &mut World, conn: Conn, parts: &[Part]) -> Result<SentId, BuildError>
    requires few { length parts.now ≤ most }
    requires parts { All (IsPieceIn w.old.store) parts.now }
    ensures rests { Rests w.old w.new }
    ensures built { IsSentBuilt w.new.store (applying.connective_of w.old.sig conn (applying.sentences_made w.old.sig (map (piece_tree w.old.store) parts.now))) result }
{
    match sentences(alloc, w, parts) {
        Ok(ids) => connective(alloc, &mut w.store, conn, &ids),
        Err(error) => Err(error),
    }
}

/// The application of a connective.
pub(crate) fn apply_connective(
    alloc: Global,
    w: &mut World,
    conn: Conn,
    args: &[Value],
    at: Pos,
) -> Result<Outcome, AllocError>
    requires few { length args.now ≤ most }
    requires arguments { All (IsIn w.old.store) args.now }
    ensures rests { Rests w.old w.new }
    ensures outcome { IfOk result (λ o. IsSteady w.new.store o (applying.connective_applied w.old.sig conn (values_at w.old.store args.now) at)) }
{
    if !takes(conn, args.len()) {
        let outcome = miscounted(alloc, wanted(conn) as u64, args.len() as u64, at)?;
        return Ok(outcome);
    }
    match as_parts(alloc, args)? {
        Parts::All(found) => {
            let made = connect(alloc, w, conn, found.as_slice());
            let outcome = sentence_made(alloc, made, at)?;
            Ok(outcome)
        }
        Parts::Wrong(i) => {
            let outcome = numbered(alloc, FaultKind::WrongKind, i, at)?;
            Ok(outcome)
        }
    }
}
