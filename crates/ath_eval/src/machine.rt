// The machine: what waits for a part's outcome stands on a stack.

ghost use Rattle.std.specs.Prelude.{◌≡◌, ◌<◌, ◌≤◌, ◌+◌, List, IfOk, length};
ghost use Rattle.ath_syntax.specs.Stands.{IsPhrase};
ghost use Rattle.ath_syntax.specs.Tree.{Phrase as PhraseTree, ascribe_at};
ghost use Rattle.ath_syntax.specs.declared.node.SortText.{SortText as Text};
ghost use Rattle.ath_syntax.specs.declared.place.Pos.{Pos as Place};
ghost use Rattle.ath_env.specs.Stands.{IsIn, value_at};
ghost use Rattle.ath_eval.specs.Evaluation as evaluation;
ghost use Rattle.ath_syntax.specs.Fits.{most};
ghost use Rattle.ath_trees.specs.Tree.{Sent};
ghost use Rattle.ath_calculus.specs.Derives.{AreDerivable};
ghost use Rattle.ath_calculus.specs.Theory.{theory_of};
ghost use Rattle.ath_base.specs.Base.{sentences};
ghost use Rattle.ath_base.specs.Stands.{AreStored, KeepsScopes};
ghost use Rattle.ath_terms.specs.Trees.{Trees};
ghost use Rattle.ath_eval.specs.Evaluation.{evaluated, outcome_of};
ghost use Rattle.ath_eval.specs.Room.{charged, IsBelow, IsRoomy};
ghost use Rattle.ath_eval.specs.Stretches.{IsWithin, Concludes, Enters, EntersForm, TakesArguments, IsTaking, ResumesFrame, IsResumed};
ghost use Rattle.ath_eval.specs.World.{IsOutcome, IsDerivable, IsSteady, context_of, environment_of, left_in, Evaluates, Passes, Works, Rests, HasRoom};
ghost use Rattle.ath_eval.specs.declared.world.Outcome.TheVariants as ends;

use crate::frame::{Frame, State, Use};
use crate::names::{ascribe, find, variable, written_sort};
use crate::parts::{act, argument};
use crate::refusals::bare;
use crate::world::{Outcome, World};
use ath_base::{Base, Origin};
use ath_declarations::sort_of_text;
use ath_env::{Value, value_of};
use ath_print::FaultKind;
use ath_syntax::{Form, PhraseId};
use ath_trees::SentId;
use sqlite_items::Items;
use std::alloc::{AllocError, Global};

/// The most levels of evaluation.
const MOST_NESTED: u32 = 1000;

/// Takes a phrase's step of fuel.
fn enter(
    alloc: Global,
    w: &mut World,
    stack: &mut Vec<Frame>,
    phrase: PhraseId,
    levels: u32,
) -> Result<State, AllocError>
    requires phrase { (x : PhraseTree) × IsPhrase w.old.phrases phrase x }
    requires room { IsRoomy (w.old.fuel + length stack.old.items) w.old.fresh }
    ensures world { Evaluates w.old w.new }
    ensures room { IsRoomy (w.new.fuel + length stack.new.items) w.new.fresh }
    ensures steps { IfOk result (λ st. Enters w.old phrase levels stack.old.items w.new st stack.new.items) }
{
    let place = w.phrases.node(phrase).pos;
    if w.fuel == 0 {
        return Ok(State::Done(Outcome::Exhausted(place)));
    }
    w.fuel -= 1;
    if levels == 0 {
        return Ok(State::Done(bare(alloc, FaultKind::TooNested, place)));
    }
    let state = enter_form(alloc, w, stack, phrase, levels - 1)?;
    Ok(state)
}

/// Evaluates a form without parts, or goes into the head of an application or a call, or into what is ascribed a sort.
fn enter_form(
    alloc: Global,
    w: &mut World,
    stack: &mut Vec<Frame>,
    phrase: PhraseId,
    levels: u32,
) -> Result<State, AllocError>
    requires phrase { (x : PhraseTree) × IsPhrase w.old.phrases phrase x }
    requires room { HasRoom w.old }
    ensures works { Works w.old w.new }
    ensures room { IsBelow (charged (length stack.new.items) w.new.fresh) (charged (length stack.old.items + 1) w.old.fresh) }
    ensures steps { IfOk result (λ st. EntersForm w.old phrase levels stack.old.items w.new st stack.new.items) }
{
    let node = w.phrases.node(phrase);
    let at = node.pos;
    match &node.form {
        Form::Name(name) => {
            let name = *name;
            let outcome = find(alloc, w, name, at)?;
            Ok(State::Done(outcome))
        }
        Form::Var(name, index, text) => {
            let (name, index) = (*name, *index);
            let sort = written_sort(alloc, &w.sig, text);
            let outcome = variable(alloc, w, name, index, sort, at)?;
            Ok(State::Done(outcome))
        }
        Form::Ascribe(part, _) => {
            stack.push(Frame::Ascription(phrase))?;
            Ok(State::Enter(*part, levels))
        }
        Form::Apply(head, _) => {
            stack.push(Frame::Head(Use::Apply, phrase, levels, w.scope))?;
            Ok(State::Enter(*head, levels))
        }
        Form::Call(head, _) => {
            stack.push(Frame::Head(Use::Call, phrase, levels, w.scope))?;
            Ok(State::Enter(*head, levels))
        }
        _other => Ok(State::Done(bare(alloc, FaultKind::NotBuilt, at))),
    }
}

/// Goes into the next argument, or does what becomes of the head and the arguments.
fn take_arguments(
    alloc: Global,
    w: &mut World,
    stack: &mut Vec<Frame>,
    form: Use,
    phrase: PhraseId,
    head: Value,
    done: Items<Value>,
    levels: u32,
) -> Result<State, AllocError>
    requires few { length done ≤ most }
    requires known { IsTaking w.old form phrase head done levels stack.old.items }
    requires room { HasRoom w.old }
    ensures works { Works w.old w.new }
    ensures room { IsBelow (charged (length stack.new.items) w.new.fresh) (charged (length stack.old.items + 1) w.old.fresh) }
    ensures steps { IfOk result (λ st. TakesArguments w.old form phrase head done levels stack.old.items w.new st stack.new.items) }
{
    match argument(&w.phrases, phrase, done.len()) {
        None => {
            let state = act(alloc, w, form, phrase, head, done.as_slice())?;
            Ok(state)
        }
        Some(next) => {
            stack.push(Frame::Argument(form, phrase, head, done, levels, w.scope))?;
            Ok(State::Enter(next, levels))
        }
    }
}

/// The outcome of an ascription to this value.
fn ascribed(
    alloc: Global,
    w: &mut World,
    phrase: PhraseId,
    value: Value,
) -> Result<Outcome, AllocError>
    requires phrase { (p : Place) × (x : PhraseTree) × (text : Text) × IsPhrase w.old.phrases phrase (ascribe_at p x text) }
    requires value { IsIn w.old.store value }
    ensures rests { Rests w.old w.new }
    ensures outcome { IfOk result (λ o. (p : Place) (x : PhraseTree) (text : Text) → IsPhrase w.old.phrases phrase (ascribe_at p x text) → IsSteady w.new.store o (evaluation.ascribed (context_of w.old) text (value_at w.old.store value) p)) }
{
    let node = w.phrases.node(phrase);
    let at = node.pos;
    match &node.form {
        Form::Ascribe(_, text) => {
            let meant = sort_of_text(alloc, &w.sig, text);
            let outcome = ascribe(alloc, w, value, meant, at)?;
            Ok(outcome)
        }
        _other => Ok(bare(alloc, FaultKind::NotBuilt, at)),
    }
}

/// A frame whose part concludes a sentence. Where it waits for an argument, the sentence joins the base of what comes after.
fn conclude_part(base: &mut Base, frame: Frame, p: SentId) -> Result<Frame, AllocError>
    requires { IsWithin base.old.nodes.items frame }
    ensures kept { KeepsScopes base.old.nodes.items base.new.nodes.items }
    ensures stored { (s : Trees) → p.0 < length s.sents → AreStored s base.old.nodes.items → AreStored s base.new.nodes.items }
    ensures frame { IfOk result (λ f. Concludes base.old.nodes.items p frame base.new.nodes.items f) }
{
    match frame {
        Frame::Argument(form, phrase, head, done, levels, scope) => {
            let after = base.add(scope, p, Origin::Concluded)?;
            Ok(Frame::Argument(form, phrase, head, done, levels, after))
        }
        other => Ok(other),
    }
}

/// Gives a frame the value of its part.
fn resume_value(
    alloc: Global,
    w: &mut World,
    stack: &mut Vec<Frame>,
    frame: Frame,
    value: Value,
) -> Result<State, AllocError>
    requires known { IsResumed w.old (ends.Value value) frame stack.old.items }
    requires room { HasRoom w.old }
    ensures passes { Passes w.old w.new }
    ensures room { IsBelow (charged (length stack.new.items) w.new.fresh) (charged (length stack.old.items + 1) w.old.fresh) }
    ensures steps { IfOk result (λ st. ResumesFrame w.old (ends.Value value) frame stack.old.items w.new st stack.new.items) }
{
    match frame {
        Frame::Head(form, phrase, levels, scope) => {
            w.scope = scope;
            let none = Items::new(alloc);
            let state = take_arguments(alloc, w, stack, form, phrase, value, none, levels)?;
            Ok(state)
        }
        Frame::Argument(form, phrase, head, mut done, levels, scope) => {
            w.scope = scope;
            done.push(value)?;
            let state = take_arguments(alloc, w, stack, form, phrase, head, done, levels)?;
            Ok(state)
        }
        Frame::Ascription(phrase) => {
            let outcome = ascribed(alloc, w, phrase, value)?;
            Ok(State::Done(outcome))
        }
    }
}

/// Gives a frame the outcome of its part. Errors and exhaustion go on.
fn resume(
    alloc: Global,
    w: &mut World,
    stack: &mut Vec<Frame>,
    frame: Frame,
    outcome: Outcome,
) -> Result<State, AllocError>
    requires known { IsResumed w.old outcome frame stack.old.items }
    requires room { HasRoom w.old }
    ensures passes { Passes w.old w.new }
    ensures room { IsBelow (charged (length stack.new.items) w.new.fresh) (charged (length stack.old.items + 1) w.old.fresh) }
    ensures steps { IfOk result (λ st. ResumesFrame w.old outcome frame stack.old.items w.new st stack.new.items) }
{
    match outcome {
        Outcome::Value(value) => {
            let state = resume_value(alloc, w, stack, frame, value)?;
            Ok(state)
        }
        Outcome::Theorem(p) => {
            let value = value_of(&w.store, p);
            let frame = conclude_part(&mut w.base, frame, p)?;
            let state = resume_value(alloc, w, stack, frame, value)?;
            Ok(state)
        }
        Outcome::Error(fault, place) => Ok(State::Done(Outcome::Error(fault, place))),
        Outcome::Exhausted(place) => Ok(State::Done(Outcome::Exhausted(place))),
    }
}

/// The outcome of a phrase, where so many levels are left.
fn evaluate(
    alloc: Global,
    w: &mut World,
    phrase: PhraseId,
    levels: u32,
) -> Result<Outcome, AllocError>
    requires { (x : PhraseTree) × IsPhrase w.old.phrases phrase x }
    ensures world { Evaluates w.old w.new }
    ensures outcome { IfOk result (λ o. (x : PhraseTree) → IsPhrase w.old.phrases phrase x → IsOutcome w.new.store w.new.fuel w.new.fresh o (evaluated (context_of w.old) levels (environment_of w.old) x (left_in w.old))) }
{
    let mut stack: Vec<Frame> = Vec::new(alloc);
    let mut state = State::Enter(phrase, levels);
    loop {
        match state {
            State::Enter(next, left) => {
                state = enter(alloc, w, &mut stack, next, left)?;
            }
            State::Done(outcome) => match stack.pop() {
                None => return Ok(outcome),
                Some(frame) => {
                    state = resume(alloc, w, &mut stack, frame, outcome)?;
                }
            },
        }
    }
}

/// The outcome of a directive's phrase, after which the scope is as it was. Where each sentence of the base is derivable, so is the conclusion of a deduction.
pub fn run(alloc: Global, w: &mut World, phrase: PhraseId) -> Result<Outcome, AllocError>
    requires { (x : PhraseTree) × IsPhrase w.old.phrases phrase x }
    ensures world { Evaluates w.old w.new }
    ensures scope { w.new.scope ≡ w.old.scope }
    ensures outcome { IfOk result (λ o. (x : PhraseTree) → IsPhrase w.old.phrases phrase x → IsOutcome w.new.store w.new.fuel w.new.fresh o (outcome_of (context_of w.old) (environment_of w.old) x (left_in w.old))) }
    ensures follows { IfOk result (λ o. (asserted hyps : List Sent) → AreDerivable (theory_of w.old.sig) asserted hyps (sentences (environment_of w.old).base) → IsDerivable (theory_of w.old.sig) asserted hyps w.new.store o) }
{
    let begun = w.scope;
    let evaluated = evaluate(alloc, w, phrase, MOST_NESTED);
    w.scope = begun;
    let outcome = evaluated?;
    Ok(outcome)
}
