// Applications of symbols.

ghost use Rattle.std.specs.Prelude.{◌≡◌, ◌≤◌, IfOk, Some, length};
ghost use Rattle.std.specs.List.{All};
ghost use Rattle.ath_sorts.specs.Signature.{symbol_of};
ghost use Rattle.ath_sorts.specs.declared.signature.Symbol.{Symbol};
ghost use Rattle.ath_syntax.specs.Fits.{most};
ghost use Rattle.ath_env.specs.Stands.{IsIn, value_at};
ghost use Rattle.ath_env.specs.Values.{term_of};
ghost use Rattle.ath_eval.specs.Applying.{symbol_applied, equation_to, equated, symbol_or_equation};
ghost use Rattle.ath_eval.specs.Arguments.{values_at, wanted_by};
ghost use Rattle.ath_eval.specs.World.{IsAnswerIn, IsSteady, Works, Rests, HasRoom};

use crate::building::{sentence_made, term_made};
use crate::kinds::{Terms, as_term, as_terms};
use crate::refusals::{miscounted, numbered};
use crate::world::{Outcome, World};
use ath_construction::{app, equation};
use ath_env::Value;
use ath_print::FaultKind;
use ath_sorts::{Signature, Sym};
use ath_syntax::Pos;
use std::alloc::{AllocError, Global};

/// The number of arguments of a symbol, where it is declared.
pub(crate) fn arguments_wanted(sig: &Signature, f: Sym) -> Option<usize>
    ensures { result ≡ wanted_by (symbol_of sig.now f) }
{
    match sig.symbol(f) {
        Some(symbol) => Some(symbol.args.as_slice().len()),
        None => None,
    }
}

/// The application of a declared symbol to as many arguments as it takes.
fn apply_terms(
    alloc: Global,
    w: &mut World,
    f: Sym,
    args: &[Value],
    at: Pos,
) -> Result<Outcome, AllocError>
    requires room { HasRoom w.old }
    requires declared { (d : Symbol) × (symbol_of w.old.sig f ≡ Some d) × (length d.args ≡ length args.now) }
    requires few { length args.now ≤ most }
    requires arguments { All (IsIn w.old.store) args.now }
    ensures works { Works w.old w.new }
    ensures outcome { IfOk result (λ o. (d : Symbol) → symbol_of w.old.sig f ≡ Some d → IsAnswerIn w.old w.new o (symbol_applied w.old.sig d (values_at w.old.store args.now) at)) }
{
    match as_terms(alloc, args)? {
        Terms::All(ids) => {
            let made = app(alloc, &mut w.store, &w.sig, &mut w.fresh, f, &ids);
            let outcome = term_made(alloc, made, at)?;
            Ok(outcome)
        }
        Terms::Wrong(i) => {
            let outcome = numbered(alloc, FaultKind::WrongKind, i, at)?;
            Ok(outcome)
        }
    }
}

/// The application of a declared symbol that takes so many arguments.
pub(crate) fn apply_declared(
    alloc: Global,
    w: &mut World,
    f: Sym,
    want: usize,
    args: &[Value],
    at: Pos,
) -> Result<Outcome, AllocError>
    requires room { HasRoom w.old }
    requires declared { wanted_by (symbol_of w.old.sig f) ≡ Some want }
    requires few { length args.now ≤ most }
    requires arguments { All (IsIn w.old.store) args.now }
    ensures works { Works w.old w.new }
    ensures outcome { IfOk result (λ o. (d : Symbol) → symbol_of w.old.sig f ≡ Some d → IsAnswerIn w.old w.new o (symbol_applied w.old.sig d (values_at w.old.store args.now) at)) }
{
    if want == args.len() {
        let outcome = apply_terms(alloc, w, f, args, at)?;
        return Ok(outcome);
    }
    let outcome = miscounted(alloc, want as u64, args.len() as u64, at)?;
    Ok(outcome)
}

/// The equation of two values.
fn equate_values(
    alloc: Global,
    w: &mut World,
    left: Value,
    right: Value,
    at: Pos,
) -> Result<Outcome, AllocError>
    requires left { IsIn w.old.store left }
    requires right { IsIn w.old.store right }
    ensures rests { Rests w.old w.new }
    ensures outcome { IfOk result (λ o. IsSteady w.new.store o (equation_to w.old.sig (term_of (value_at w.old.store left)) (term_of (value_at w.old.store right)) at)) }
{
    let Some(s) = as_term(left) else {
        let outcome = numbered(alloc, FaultKind::WrongKind, 1, at)?;
        return Ok(outcome);
    };
    let Some(t) = as_term(right) else {
        let outcome = numbered(alloc, FaultKind::WrongKind, 2, at)?;
        return Ok(outcome);
    };
    let made = equation(alloc, &mut w.store, s, t);
    let outcome = sentence_made(alloc, made, at)?;
    Ok(outcome)
}

/// The equation of these arguments.
fn equate(alloc: Global, w: &mut World, args: &[Value], at: Pos) -> Result<Outcome, AllocError>
    requires { All (IsIn w.old.store) args.now }
    ensures rests { Rests w.old w.new }
    ensures outcome { IfOk result (λ o. IsSteady w.new.store o (equated w.old.sig (values_at w.old.store args.now) at)) }
{
    if args.len() == 2 {
        let outcome = equate_values(alloc, w, args[0], args[1], at)?;
        return Ok(outcome);
    }
    let outcome = miscounted(alloc, 2, args.len() as u64, at)?;
    Ok(outcome)
}

/// The application of a symbol. One that isn't declared is `=`.
pub(crate) fn apply_symbol(
    alloc: Global,
    w: &mut World,
    f: Sym,
    args: &[Value],
    at: Pos,
) -> Result<Outcome, AllocError>
    requires room { HasRoom w.old }
    requires few { length args.now ≤ most }
    requires arguments { All (IsIn w.old.store) args.now }
    ensures works { Works w.old w.new }
    ensures outcome { IfOk result (λ o. IsAnswerIn w.old w.new o (symbol_or_equation w.old.sig (symbol_of w.old.sig f) (values_at w.old.store args.now) at)) }
{
    match arguments_wanted(&w.sig, f) {
        Some(want) => {
            let outcome = apply_declared(alloc, w, f, want, args, at)?;
            Ok(outcome)
        }
        None => {
            let outcome = equate(alloc, w, args, at)?;
            Ok(outcome)
        }
    }
}
