// The primitive methods, argument by argument.

ghost use Rattle.std.specs.Prelude.{◌≡◌, ◌<◌, Some, IfOk, is_some, length};
ghost use Rattle.ath_terms.specs.Trees.{sent_at};
ghost use Rattle.ath_env.specs.Values.{sentence_of};
ghost use Rattle.ath_env.specs.Stands.{IsIn, value_at};
ghost use Rattle.ath_eval.specs.Arguments.{AreParts};
ghost use Rattle.ath_base.specs.Base.{holds};
ghost use Rattle.ath_eval.specs.Methods as methods;
ghost use Rattle.ath_eval.specs.World.{IsSteady, Rests, environment_of};

use crate::refusals::{missing, numbered};
use crate::world::{Outcome, World};
use ath_alpha::is_alpha_equal;
use ath_env::{Value, sentence};
use ath_print::FaultKind;
use ath_syntax::Pos;
use ath_terms::{SentNode, Store};
use ath_trees::{Conn, SentId};
use std::alloc::{AllocError, Global};

/// Whether the base holds a sentence.
fn is_in_base(w: &World, p: SentId) -> bool
    requires { p.0 < length w.now.store.sents }
    ensures { result ≡ is_some (holds (environment_of w.now).base (sent_at w.now.store.sents p.0)) }
{
    w.base.holds(&w.store, w.scope, p).is_some()
}

/// The theorem of a sentence that the base holds.
fn conclude(alloc: Global, w: &World, p: SentId, at: Pos) -> Result<Outcome, AllocError>
    requires { p.0 < length w.now.store.sents }
    ensures { IfOk result (λ o. IsSteady w.now.store o (methods.claim (environment_of w.now).base (Some (sent_at w.now.store.sents p.0)) at)) }
{
    if is_in_base(w, p) {
        return Ok(Outcome::Theorem(p));
    }
    let outcome = missing(alloc, p, at)?;
    Ok(outcome)
}

/// The theorem of the argument.
pub(crate) fn claim(alloc: Global, w: &mut World, v: Value, at: Pos) -> Result<Outcome, AllocError>
    requires { IsIn w.old.store v }
    ensures rests { Rests w.old w.new }
    ensures outcome { IfOk result (λ o. IsSteady w.new.store o (methods.claim (environment_of w.old).base (sentence_of (value_at w.old.store v)) at)) }
{
    match sentence(&mut w.store, v)? {
        Some(p) => {
            let outcome = conclude(alloc, w, p, at)?;
            Ok(outcome)
        }
        None => {
            let outcome = numbered(alloc, FaultKind::WrongKind, 1, at)?;
            Ok(outcome)
        }
    }
}

/// The parts of an implication.
fn implication_parts(store: &Store, p: SentId) -> Option<(SentId, SentId)>
    requires { p.0 < length store.now.sents }
    ensures { AreParts store.now (sent_at store.now.sents p.0) result }
{
    match store.sent(p) {
        SentNode::Conn(conn, parts) => {
            if *conn != Conn::If {
                return None;
            }
            let parts = parts.as_slice();
            Some((parts[0], parts[1]))
        }
        _ => None,
    }
}

/// Modus ponens of the implication `p` of `a` and `b`, and of `q`.
fn detach(
    alloc: Global,
    w: &World,
    p: SentId,
    parts: (SentId, SentId),
    q: SentId,
    at: Pos,
) -> Result<Outcome, AllocError>
    requires implication { p.0 < length w.now.store.sents }
    requires joined { AreParts w.now.store (sent_at w.now.store.sents p.0) (Some parts) }
    requires premise { q.0 < length w.now.store.sents }
    ensures { IfOk result (λ o. IsSteady w.now.store o (methods.detached (environment_of w.now).base (sent_at w.now.store.sents p.0) (sent_at w.now.store.sents parts.0.0) (sent_at w.now.store.sents parts.1.0) (sent_at w.now.store.sents q.0) at)) }
{
    let (a, b) = parts;
    if !is_alpha_equal(&w.store, q, a) {
        let outcome = numbered(alloc, FaultKind::WrongShape, 2, at)?;
        return Ok(outcome);
    }
    if !is_in_base(w, p) {
        let outcome = missing(alloc, p, at)?;
        return Ok(outcome);
    }
    if !is_in_base(w, q) {
        let outcome = missing(alloc, q, at)?;
        return Ok(outcome);
    }
    Ok(Outcome::Theorem(b))
}

/// Modus ponens of the implication `p`, which has these parts, and the second argument.
fn from_implication(
    alloc: Global,
    w: &mut World,
    p: SentId,
    parts: (SentId, SentId),
    v: Value,
    at: Pos,
) -> Result<Outcome, AllocError>
    requires implication { p.0 < length w.old.store.sents }
    requires joined { AreParts w.old.store (sent_at w.old.store.sents p.0) (Some parts) }
    requires premise { IsIn w.old.store v }
    ensures rests { Rests w.old w.new }
    ensures outcome { IfOk result (λ o. IsSteady w.new.store o (methods.from_implication (environment_of w.old).base (sent_at w.old.store.sents p.0) (sent_at w.old.store.sents parts.0.0) (sent_at w.old.store.sents parts.1.0) (sentence_of (value_at w.old.store v)) at)) }
{
    match sentence(&mut w.store, v)? {
        Some(q) => {
            let outcome = detach(alloc, w, p, parts, q, at)?;
            Ok(outcome)
        }
        None => {
            let outcome = numbered(alloc, FaultKind::WrongKind, 2, at)?;
            Ok(outcome)
        }
    }
}

/// Modus ponens of the sentence `p` and the second argument.
fn modus_ponens(
    alloc: Global,
    w: &mut World,
    p: SentId,
    v: Value,
    at: Pos,
) -> Result<Outcome, AllocError>
    requires implication { p.0 < length w.old.store.sents }
    requires premise { IsIn w.old.store v }
    ensures rests { Rests w.old w.new }
    ensures outcome { IfOk result (λ o. IsSteady w.new.store o (methods.modus_ponens (environment_of w.old).base (sent_at w.old.store.sents p.0) (sentence_of (value_at w.old.store v)) at)) }
{
    match implication_parts(&w.store, p) {
        Some(parts) => {
            let outcome = from_implication(alloc, w, p, parts, v, at)?;
            Ok(outcome)
        }
        None => {
            let outcome = numbered(alloc, FaultKind::WrongShape, 1, at)?;
            Ok(outcome)
        }
    }
}

/// Modus ponens of the two arguments.
pub(crate) fn mp(
    alloc: Global,
    w: &mut World,
    u: Value,
    v: Value,
    at: Pos,
) -> Result<Outcome, AllocError>
    requires implication { IsIn w.old.store u }
    requires premise { IsIn w.old.store v }
    ensures rests { Rests w.old w.new }
    ensures outcome { IfOk result (λ o. IsSteady w.new.store o (methods.mp (environment_of w.old).base (sentence_of (value_at w.old.store u)) (sentence_of (value_at w.old.store v)) at)) }
{
    match sentence(&mut w.store, u)? {
        Some(p) => {
            let outcome = modus_ponens(alloc, w, p, v, at)?;
            Ok(outcome)
        }
        None => {
            let outcome = numbered(alloc, FaultKind::WrongKind, 1, at)?;
            Ok(outcome)
        }
    }
}
