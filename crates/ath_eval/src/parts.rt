// Applications and calls, by the numbers of their parts.

ghost use Rattle.std.specs.Prelude.{◌≡◌, ◌<◌, ◌≤◌, List, IfOk, IfSome, length, slice_get};
ghost use Rattle.std.specs.List.{All};
ghost use Rattle.ath_syntax.specs.Fits.{most};
ghost use Rattle.ath_env.specs.Stands.{IsIn};
ghost use Rattle.ath_eval.specs.Machine.{arguments_at};
ghost use Rattle.ath_eval.specs.Stretches.{Acts};
ghost use Rattle.ath_eval.specs.World.{Works, HasRoom};
ghost use Rattle.ath_eval.specs.declared.frame.Frame.{Frame as Waiting};

use crate::calls::{apply, call};
use crate::frame::{State, Use};
use crate::world::World;
use ath_env::Value;
use ath_syntax::{Form, PhraseId, Phrases};
use std::alloc::{AllocError, Global};

/// An argument of an application or a call, where there are so many.
pub(crate) fn argument(phrases: &Phrases, phrase: PhraseId, k: usize) -> Option<PhraseId>
    requires { phrase.0 < length phrases.now.phrases }
    ensures number { result ≡ slice_get (arguments_at phrases.now phrase) k }
    ensures few { IfSome result (λ _. k < most) }
{
    match &phrases.node(phrase).form {
        Form::Apply(_, args) => args.get(k).copied(),
        Form::Call(_, args) => args.get(k).copied(),
        _other => None,
    }
}

/// What comes next when the head and the arguments of an application or a call are known.
pub(crate) fn act(
    alloc: Global,
    w: &mut World,
    form: Use,
    phrase: PhraseId,
    head: Value,
    args: &[Value],
) -> Result<State, AllocError>
    requires phrase { phrase.0 < length w.old.phrases.phrases }
    requires room { HasRoom w.old }
    requires few { length args.now ≤ most }
    requires head { IsIn w.old.store head }
    requires arguments { All (IsIn w.old.store) args.now }
    ensures works { Works w.old w.new }
    ensures steps { IfOk result (λ st. (fs : List Waiting) → Acts w.old form phrase head args.now fs w.new st) }
{
    let at = w.phrases.node(phrase).pos;
    match form {
        Use::Apply => {
            let outcome = apply(alloc, w, head, args, at)?;
            Ok(State::Done(outcome))
        }
        Use::Call => {
            let outcome = call(alloc, w, head, args, at)?;
            Ok(State::Done(outcome))
        }
    }
}
