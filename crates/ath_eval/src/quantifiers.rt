// Applications of quantifiers.

ghost use Rattle.std.specs.Prelude.{◌≡◌, ◌<◌, ◌≤◌, ◌+◌, ◌++◌, ◌∷◌, [], IfOk, length, true};
ghost use Rattle.std.specs.List.{All};
ghost use Rattle.ath_syntax.specs.Fits.{most};
ghost use Rattle.ath_trees.specs.WellSorted.{is_valid_sort};
ghost use Rattle.ath_terms.specs.Trees.{sent_at};
ghost use Rattle.ath_construction.specs.Answers.{IsSentBuilt};
ghost use Rattle.ath_construction.specs.Construction.{builds};
ghost use Rattle.ath_env.specs.Stands.{IsIn, value_at};
ghost use Rattle.ath_eval.specs.Applying as applying;
ghost use Rattle.ath_eval.specs.Arguments.{IsPieceIn, piece_tree, values_at};
ghost use Rattle.ath_eval.specs.World.{IsSteady, Rests};

use crate::building::sentence_made;
use crate::connectives::sentence_of;
use crate::kinds::{Part, Variables, as_part, as_variables};
use crate::refusals::{miscounted, numbered};
use crate::world::{Outcome, World};
use ath_construction::quantify;
use ath_env::Value;
use ath_print::FaultKind;
use ath_syntax::Pos;
use ath_terms::BuildError;
use ath_trees::{Quant, SentId, Var};
use std::alloc::{AllocError, Global};

/// The quantifier over these variables, from the last one outward.
fn quantify_over(
    alloc: Global,
    w: &mut World,
    q: Quant,
    vars: &[Var],
    body: SentId,
) -> Result<SentId, BuildError>
    requires sorts { All (λ v. is_valid_sort w.old.sig v.sort ≡ true) vars.now }
    requires body { body.0 < length w.old.store.sents }
    ensures rests { Rests w.old w.new }
    ensures built { IsSentBuilt w.new.store (applying.quantified_over w.old.sig q vars.now (builds (sent_at w.old.store.sents body.0))) result }
{
    let mut i = vars.len();
    let mut sent = body;
    while i > 0 {
        i -= 1;
        match quantify(alloc, &mut w.store, q, &vars[i], sent) {
            Ok(p) => sent = p,
            Err(error) => return Err(error),
        }
    }
    Ok(sent)
}

/// The quantifier over these variables of a part: a term is made an atom first.
fn quantify_part(
    alloc: Global,
    w: &mut World,
    q: Quant,
    vars: &[Var],
    part: Part,
) -> Result<SentId, BuildError>
    requires sorts { All (λ v. is_valid_sort w.old.sig v.sort ≡ true) vars.now }
    requires part { IsPieceIn w.old.store part }
    ensures rests { Rests w.old w.new }
    ensures built { IsSentBuilt w.new.store (applying.quantified_over w.old.sig q vars.now (applying.sentence_made w.old.sig (piece_tree w.old.store part))) result }
{
    match sentence_of(alloc, w, part) {
        Ok(body) => quantify_over(alloc, w, q, vars, body),
        Err(error) => Err(error),
    }
}

/// The quantifier of some arguments, and of a last one.
fn quantify_values(
    alloc: Global,
    w: &mut World,
    q: Quant,
    front: &[Value],
    last: Value,
    at: Pos,
) -> Result<Outcome, AllocError>
    requires few { length front.now < most }
    requires front { All (IsIn w.old.store) front.now }
    requires last { IsIn w.old.store last }
    ensures rests { Rests w.old w.new }
    ensures outcome { IfOk result (λ o. IsSteady w.new.store o (applying.quantifier_to w.old.sig q (length front.now + 1) (applying.kinds_of applying.variable_in 1 (values_at w.old.store front.now)) (applying.part_of (value_at w.old.store last)) at)) }
{
    let vars = match as_variables(alloc, &w.store, front)? {
        Variables::All(vars) => vars,
        Variables::Wrong(i) => {
            let outcome = numbered(alloc, FaultKind::WrongKind, i, at)?;
            return Ok(outcome);
        }
    };
    let Some(part) = as_part(last) else {
        let outcome = numbered(alloc, FaultKind::WrongKind, front.len() as u64 + 1, at)?;
        return Ok(outcome);
    };
    let made = quantify_part(alloc, w, q, vars.as_slice(), part);
    let outcome = sentence_made(alloc, made, at)?;
    Ok(outcome)
}

/// The application of a quantifier.
pub(crate) fn apply_quantifier(
    alloc: Global,
    w: &mut World,
    q: Quant,
    args: &[Value],
    at: Pos,
) -> Result<Outcome, AllocError>
    requires few { length args.now ≤ most }
    requires arguments { All (IsIn w.old.store) args.now }
    ensures rests { Rests w.old w.new }
    ensures outcome { IfOk result (λ o. IsSteady w.new.store o (applying.quantifier_applied w.old.sig q (values_at w.old.store args.now) at)) }
{
    let Some((last, front)) = args.split_last() else {
        let outcome = miscounted(alloc, 2, 0, at)?;
        return Ok(outcome);
    };
    if front.is_empty() {
        let outcome = miscounted(alloc, 2, 1, at)?;
        return Ok(outcome);
    }
    let outcome = quantify_values(alloc, w, q, front, *last, at)?;
    Ok(outcome)
}
