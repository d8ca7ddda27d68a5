// Applications and calls, with their arguments.

ghost use Rattle.std.specs.Prelude.{◌≡◌, ◌≤◌, IfOk, length};
ghost use Rattle.std.specs.List.{All};
ghost use Rattle.ath_sorts.specs.declared.sorts.Sym.{Sym as Symbol};
ghost use Rattle.ath_syntax.specs.Fits.{most};
ghost use Rattle.ath_trees.specs.declared.node.Conn.{Conn as Connective};
ghost use Rattle.ath_trees.specs.declared.node.Quant.{Quant as Quantifier};
ghost use Rattle.ath_terms.specs.Trees.{Trees};
ghost use Rattle.ath_env.specs.Stands.{IsIn, value_at};
ghost use Rattle.ath_eval.specs.Applying.{applied};
ghost use Rattle.ath_eval.specs.Applying as applying;
ghost use Rattle.ath_eval.specs.Arguments.{values_at};
ghost use Rattle.ath_eval.specs.Methods as methods;
ghost use Rattle.ath_eval.specs.Methods.{called};
ghost use Rattle.ath_eval.specs.Outcomes.{Context, Environment, Evaluator};
ghost use Rattle.ath_eval.specs.World.{IsAnswerIn, IsSteady, Works, Rests, HasRoom, context_of, environment_of};

use crate::connectives::apply_connective;
use crate::methods::{claim, mp};
use crate::quantifiers::apply_quantifier;
use crate::refusals::{bare, miscounted};
use crate::symbols::apply_symbol;
use crate::world::{Outcome, World};
use ath_env::Value;
use ath_print::FaultKind;
use ath_syntax::Pos;
use std::alloc::{AllocError, Global};

/// An application to these arguments.
pub(crate) fn apply(
    alloc: Global,
    w: &mut World,
    head: Value,
    args: &[Value],
    at: Pos,
) -> Result<Outcome, AllocError>
    requires room { HasRoom w.old }
    requires few { length args.now ≤ most }
    requires head { IsIn w.old.store head }
    requires arguments { All (IsIn w.old.store) args.now }
    ensures works { Works w.old w.new }
    ensures outcome { IfOk result (λ o. (r : Evaluator) → IsAnswerIn w.old w.new o (applied (context_of w.old) r (environment_of w.old) (value_at w.old.store head) (values_at w.old.store args.now) at)) }
{
    match head {
        Value::Symbol(f) => {
            let outcome = apply_symbol(alloc, w, f, args, at)?;
            Ok(outcome)
        }
        Value::Conn(conn) => {
            let outcome = apply_connective(alloc, w, conn, args, at)?;
            Ok(outcome)
        }
        Value::Quant(q) => {
            let outcome = apply_quantifier(alloc, w, q, args, at)?;
            Ok(outcome)
        }
        other => Ok(apply_other(alloc, other, args, at)),
    }
}

/// An application of what is no symbol, no connective and no quantifier. A term and a sentence take no arguments.
fn apply_other(alloc: Global, head: Value, args: &[Value], at: Pos) -> Outcome
    requires symbol { (f : Symbol) → head ≡ Value.Symbol f → ⊥ }
    requires connective { (k : Connective) → head ≡ Value.Conn k → ⊥ }
    requires quantifier { (q : Quantifier) → head ≡ Value.Quant q → ⊥ }
    ensures { (s : Trees) (c : Context) (r : Evaluator) (e : Environment) → IsIn s head → IsSteady s result (applied c r e (value_at s head) (values_at s args.now) at) }
{
    match head {
        Value::Term(_) => itself(alloc, head, args, at),
        Value::Sent(_) => itself(alloc, head, args, at),
        _other => bare(alloc, FaultKind::NotApplicable, at),
    }
}

/// A value that is given no arguments is itself.
fn itself(alloc: Global, head: Value, args: &[Value], at: Pos) -> Outcome
    ensures { (s : Trees) → IsIn s head → IsSteady s result (applying.itself (value_at s head) (values_at s args.now) at) }
{
    if args.is_empty() {
        return Outcome::Value(head);
    }
    bare(alloc, FaultKind::NotApplicable, at)
}

fn claimed(alloc: Global, w: &mut World, args: &[Value], at: Pos) -> Result<Outcome, AllocError>
    requires { All (IsIn w.old.store) args.now }
    ensures rests { Rests w.old w.new }
    ensures outcome { IfOk result (λ o. IsSteady w.new.store o (methods.claimed (environment_of w.old).base (values_at w.old.store args.now) at)) }
{
    if args.len() == 1 {
        let outcome = claim(alloc, w, args[0], at)?;
        return Ok(outcome);
    }
    let outcome = miscounted(alloc, 1, args.len() as u64, at)?;
    Ok(outcome)
}

fn ponens(alloc: Global, w: &mut World, args: &[Value], at: Pos) -> Result<Outcome, AllocError>
    requires { All (IsIn w.old.store) args.now }
    ensures rests { Rests w.old w.new }
    ensures outcome { IfOk result (λ o. IsSteady w.new.store o (methods.ponens (environment_of w.old).base (values_at w.old.store args.now) at)) }
{
    if args.len() == 2 {
        let outcome = mp(alloc, w, args[0], args[1], at)?;
        return Ok(outcome);
    }
    let outcome = miscounted(alloc, 2, args.len() as u64, at)?;
    Ok(outcome)
}

fn by_method(
    alloc: Global,
    w: &mut World,
    n: u32,
    args: &[Value],
    at: Pos,
) -> Result<Outcome, AllocError>
    requires { All (IsIn w.old.store) args.now }
    ensures rests { Rests w.old w.new }
    ensures outcome { IfOk result (λ o. IsSteady w.new.store o (methods.by_method (environment_of w.old) n (values_at w.old.store args.now) at)) }
{
    if n == 0 {
        let outcome = claimed(alloc, w, args, at)?;
        return Ok(outcome);
    }
    let outcome = ponens(alloc, w, args, at)?;
    Ok(outcome)
}

/// A call with these arguments.
pub(crate) fn call(
    alloc: Global,
    w: &mut World,
    head: Value,
    args: &[Value],
    at: Pos,
) -> Result<Outcome, AllocError>
    requires { All (IsIn w.old.store) args.now }
    ensures rests { Rests w.old w.new }
    ensures outcome { IfOk result (λ o. (c : Context) (r : Evaluator) → IsSteady w.new.store o (called c r (environment_of w.old) (value_at w.old.store head) (values_at w.old.store args.now) at)) }
{
    match &head {
        Value::PrimMethod(n) => {
            let outcome = by_method(alloc, w, *n, args, at)?;
            Ok(outcome)
        }
        _other => Ok(bare(alloc, FaultKind::NotMethod, at)),
    }
}
