// Names, variables and ascriptions.

ghost use Rattle.std.specs.Prelude.{◌≡◌, IfOk, Option, Some, None, true};
ghost use Rattle.ath_sorts.specs.Signature.{symbol_of};
ghost use Rattle.ath_syntax.specs.declared.node.SortText.{SortText as Text};
ghost use Rattle.ath_syntax.specs.declared.place.Pos.{Pos as Place};
ghost use Rattle.ath_trees.specs.WellSorted.{is_valid_sort};
ghost use Rattle.ath_env.specs.LookUp.{looked_up};
ghost use Rattle.ath_env.specs.Stands.{IsIn, value_at};
ghost use Rattle.ath_eval.specs.Applying.{symbol_named, value_named};
ghost use Rattle.ath_eval.specs.Evaluation as evaluation;
ghost use Rattle.ath_eval.specs.Stands.{IsMeant, AreMeant};
ghost use Rattle.ath_eval.specs.World.{IsAnswerIn, IsSteady, Works, Rests, HasRoom, context_of};

use crate::building::term_made;
use crate::refusals::{bad_sort, numbered, unbound};
use crate::symbols::{apply_declared, arguments_wanted};
use crate::world::{Outcome, World};
use ath_declarations::sort_of_text;
use ath_env::{Value, look_up};
use ath_print::FaultKind;
use ath_sorts::{SigError, Signature, Sort, Sym};
use ath_syntax::{Pos, SortText};
use ath_trees::{TermId, Var};
use std::alloc::{AllocError, Global};

/// The value of a symbol's name. A symbol without arguments is applied to none.
fn name_symbol(alloc: Global, w: &mut World, f: Sym, at: Pos) -> Result<Outcome, AllocError>
    requires { HasRoom w.old }
    ensures works { Works w.old w.new }
    ensures outcome { IfOk result (λ o. IsAnswerIn w.old w.new o (symbol_named w.old.sig f (symbol_of w.old.sig f) at)) }
{
    match arguments_wanted(&w.sig, f) {
        None => Ok(Outcome::Value(Value::Symbol(f))),
        Some(want) => {
            if want == 0 {
                let outcome = apply_declared(alloc, w, f, 0, &[], at)?;
                return Ok(outcome);
            }
            Ok(Outcome::Value(Value::Symbol(f)))
        }
    }
}

/// The value of a name that finds this value.
fn name_value(alloc: Global, w: &mut World, value: Value, at: Pos) -> Result<Outcome, AllocError>
    requires room { HasRoom w.old }
    requires value { IsIn w.old.store value }
    ensures works { Works w.old w.new }
    ensures outcome { IfOk result (λ o. IsAnswerIn w.old w.new o (value_named (context_of w.old) (value_at w.old.store value) at)) }
{
    match value {
        Value::Symbol(f) => {
            let outcome = name_symbol(alloc, w, f, at)?;
            Ok(outcome)
        }
        other => Ok(Outcome::Value(other)),
    }
}

/// The value of a name.
pub(crate) fn find(alloc: Global, w: &mut World, name: Sym, at: Pos) -> Result<Outcome, AllocError>
    requires { HasRoom w.old }
    ensures works { Works w.old w.new }
    ensures outcome { IfOk result (λ o. IsAnswerIn w.old w.new o (evaluation.found (context_of w.old) name at (looked_up w.old.names w.old.sig name))) }
{
    match look_up(&w.names, &w.sig, name) {
        Some(value) => {
            let outcome = name_value(alloc, w, value, at)?;
            Ok(outcome)
        }
        None => {
            let outcome = unbound(alloc, name, at)?;
            Ok(outcome)
        }
    }
}

/// A variable of this sort.
fn variable_of(w: &mut World, name: Sym, index: u64, sort: Sort) -> Result<Outcome, AllocError>
    requires { is_valid_sort w.old.sig sort ≡ true }
    ensures rests { Rests w.old w.new }
    ensures outcome { IfOk result (λ o. IsSteady w.new.store o (evaluation.variable_of name index sort)) }
{
    match w.store.var(&Var { name, index, sort }) {
        Ok(t) => Ok(Outcome::Value(Value::Term(t))),
        Err(_memory) => Err(AllocError),
    }
}

/// A variable without a sort has the next made sort variable.
fn unsorted_variable(w: &mut World, name: Sym, index: u64) -> Result<Outcome, AllocError>
    requires { HasRoom w.old }
    ensures works { Works w.old w.new }
    ensures outcome { IfOk result (λ o. (at : Place) → IsAnswerIn w.old w.new o (evaluation.variable (context_of w.old) name index None at)) }
{
    let sort = Sort::Var(w.fresh.sort_var());
    let outcome = variable_of(w, name, index, sort)?;
    Ok(outcome)
}

/// A variable of the sort that a text means.
fn sorted_variable(
    alloc: Global,
    w: &mut World,
    name: Sym,
    index: u64,
    meant: Result<Sort, SigError>,
    at: Pos,
) -> Result<Outcome, AllocError>
    requires { (text : Text) × IsMeant w.old.sig text meant }
    ensures rests { Rests w.old w.new }
    ensures outcome { IfOk result (λ o. (text : Text) → IsMeant w.old.sig text meant → IsSteady w.new.store o (evaluation.variable (context_of w.old) name index (Some text) at)) }
{
    match meant {
        Ok(sort) => {
            let outcome = variable_of(w, name, index, sort)?;
            Ok(outcome)
        }
        Err(error) => {
            let outcome = bad_sort(alloc, error, at)?;
            Ok(outcome)
        }
    }
}

/// What the sort of a variable means, where one is written.
pub(crate) fn written_sort(
    alloc: Global,
    sig: &Signature,
    text: &Option<SortText>,
) -> Option<Result<Sort, SigError>>
    ensures { AreMeant sig.now text.now result }
{
    match text {
        None => None,
        Some(text) => Some(sort_of_text(alloc, sig, text)),
    }
}

/// A variable with its sort, where one is written.
pub(crate) fn variable(
    alloc: Global,
    w: &mut World,
    name: Sym,
    index: u64,
    sort: Option<Result<Sort, SigError>>,
    at: Pos,
) -> Result<Outcome, AllocError>
    requires room { HasRoom w.old }
    requires meant { (text : Option Text) × AreMeant w.old.sig text sort }
    ensures works { Works w.old w.new }
    ensures outcome { IfOk result (λ o. (text : Option Text) → AreMeant w.old.sig text sort → IsAnswerIn w.old w.new o (evaluation.variable (context_of w.old) name index text at)) }
{
    match sort {
        None => {
            let outcome = unsorted_variable(w, name, index)?;
            Ok(outcome)
        }
        Some(meant) => {
            let outcome = sorted_variable(alloc, w, name, index, meant, at)?;
            Ok(outcome)
        }
    }
}

/// A term with its sort made the one that a text means.
fn ascribe_term(
    alloc: Global,
    w: &mut World,
    t: TermId,
    meant: Result<Sort, SigError>,
    at: Pos,
) -> Result<Outcome, AllocError>
    requires meant { (text : Text) × IsMeant w.old.sig text meant }
    requires term { IsIn w.old.store (Value.Term t) }
    ensures rests { Rests w.old w.new }
    ensures outcome { IfOk result (λ o. (text : Text) → IsMeant w.old.sig text meant → IsSteady w.new.store o (evaluation.ascribed (context_of w.old) text (value_at w.old.store (Value.Term t)) at)) }
{
    match meant {
        Ok(sort) => {
            let made = ath_construction::ascribe(alloc, &mut w.store, t, &sort);
            let outcome = term_made(alloc, made, at)?;
            Ok(outcome)
        }
        Err(error) => {
            let outcome = bad_sort(alloc, error, at)?;
            Ok(outcome)
        }
    }
}

/// A value that is ascribed the sort that a text means.
pub(crate) fn ascribe(
    alloc: Global,
    w: &mut World,
    value: Value,
    meant: Result<Sort, SigError>,
    at: Pos,
) -> Result<Outcome, AllocError>
    requires meant { (text : Text) × IsMeant w.old.sig text meant }
    requires value { IsIn w.old.store value }
    ensures rests { Rests w.old w.new }
    ensures outcome { IfOk result (λ o. (text : Text) → IsMeant w.old.sig text meant → IsSteady w.new.store o (evaluation.ascribed (context_of w.old) text (value_at w.old.store value) at)) }
{
    match value {
        Value::Term(t) => {
            let outcome = ascribe_term(alloc, w, t, meant, at)?;
            Ok(outcome)
        }
        _other => {
            let outcome = numbered(alloc, FaultKind::WrongKind, 1, at)?;
            Ok(outcome)
        }
    }
}
