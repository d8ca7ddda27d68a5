ghost use Rattle.std.specs.Prelude.{◌<◌, IfOk, length};
ghost use Rattle.std.specs.List.{All};
ghost use Rattle.ath_prims.specs.Applied.{Answer};
ghost use Rattle.ath_prims.specs.Stands.{IsAnswer, IsArgument, IsIn};
ghost use Rattle.ath_terms.specs.Trees.{Grows};

use crate::cases::{CONCLUSIONS, COUNTS, Case, Given, KINDS, MISSING, SHAPES, Wanted};
use crate::sentences::{Text, build, doubled, negated};
use ath_prims::{Argument, Method, PrimError, apply};
use ath_terms::equality::is_same_sent;
use ath_terms::{BuildError, Store};
use ath_trees::SentId;
use std::alloc::Global;
use std::process::Abort;
use std::test::Fail;

fn sentence_of(
    alloc: Global,
    store: &mut Store,
    text: Option<Text>,
) -> Result<Option<SentId>, BuildError>
    ensures grows { Grows store.old store.new }
    ensures inside { IfOk result (λ p. IsIn store.new p) }
{
    match text {
        Some(text) => {
            let p = build(alloc, store, text)?;
            Ok(Some(p))
        }
        None => Ok(None),
    }
}

/// The arguments of a case, built anew.
fn arguments(alloc: Global, store: &mut Store, given: &[Given]) -> Result<Vec<Argument>, BuildError>
    ensures { IfOk result (λ args. All (IsArgument store.new) args.items) }
{
    let mut args: Vec<Argument> = Vec::new(alloc);
    for i in 0..given.len() {
        let sentence = sentence_of(alloc, store, given[i].text)?;
        let holds = given[i].holds;
        if args.push(Argument { sentence, holds }).is_err() {
            return Err(BuildError::Memory);
        }
    }
    Ok(args)
}

/// Whether a sentence is the wanted one.
fn is_wanted(
    alloc: Global,
    store: &mut Store,
    p: SentId,
    wanted: Wanted,
    refused: bool,
) -> Result<bool, BuildError>
    requires { p.0 < length store.old.sents }
{
    match wanted {
        Wanted::Concludes(text) => {
            let q = build(alloc, store, text)?;
            Ok(!refused && is_same_sent(store, p, q))
        }
        Wanted::NotInBase(text) => {
            let q = build(alloc, store, text)?;
            Ok(refused && is_same_sent(store, p, q))
        }
        _ => Ok(false),
    }
}

/// Whether a refusal that tells no sentence is the wanted one.
fn is_refusal(error: PrimError, wanted: Wanted) -> bool {
    match (error, wanted) {
        (PrimError::ArgCount(k, n), Wanted::ArgCount(l, m)) => k == l && n == m,
        (PrimError::WrongKind(i), Wanted::WrongKind(j)) => i == j,
        (PrimError::WrongShape(i), Wanted::WrongShape(j)) => i == j,
        _ => false,
    }
}

/// Whether an answer is the wanted one.
fn is_answer(
    alloc: Global,
    store: &mut Store,
    answer: Result<SentId, PrimError>,
    wanted: Wanted,
) -> Result<bool, BuildError>
    requires { (o : Answer) × IsAnswer store.old o answer }
{
    match answer {
        Ok(p) => is_wanted(alloc, store, p, wanted, false),
        Err(PrimError::NotInBase(p)) => is_wanted(alloc, store, p, wanted, true),
        Err(error) => Ok(is_refusal(error, wanted)),
    }
}

fn gives(alloc: Global, case: Case) -> Result<bool, BuildError> {
    let mut store = Store::new(alloc);
    let args = arguments(alloc, &mut store, case.args)?;
    let answer = apply(alloc, &mut store, case.method, args.as_slice());
    is_answer(alloc, &mut store, answer, case.wanted)
}

/// The number of the first case that gives something else, counted from 1; 0 where there is none.
fn first_other(alloc: Global, cases: &[Case]) -> Result<usize, BuildError> {
    for i in 0..cases.len() {
        if !gives(alloc, cases[i])? {
            return Ok(i + 1);
        }
    }
    Ok(0)
}

#[test]
fn each_method_concludes(rt: HostRuntime) -> Result<(), Fail> {
    let other = first_other(rt.alloc(), &CONCLUSIONS)?;
    assert_eq!(rt; other, 0);
    Ok(())
}

#[test]
fn each_method_refuses(rt: HostRuntime) -> Result<(), Fail> {
    let alloc = rt.alloc();
    let counts = first_other(alloc, &COUNTS)?;
    assert_eq!(rt; counts, 0);
    let kinds = first_other(alloc, &KINDS)?;
    assert_eq!(rt; kinds, 0);
    let shapes = first_other(alloc, &SHAPES)?;
    assert_eq!(rt; shapes, 0);
    let missing = first_other(alloc, &MISSING)?;
    assert_eq!(rt; missing, 0);
    Ok(())
}

/// The refusal of two sentences under `and`, both of which are this one.
fn both(alloc: Global, store: &mut Store, p: SentId) -> Option<PrimError>
    requires { p.0 < length store.old.sents }
{
    let arg = Argument {
        sentence: Some(p),
        holds: true,
    };
    apply(alloc, store, Method::Both, &[arg, arg]).err()
}

#[test]
fn large_conclusions_are_refused(rt: HostRuntime) -> Result<(), Fail> {
    let alloc = rt.alloc();
    let mut store = Store::new(alloc);
    let p = build(alloc, &mut store, Text::Letter(10))?;
    let small = doubled(alloc, &mut store, p, 14)?;
    assert!(rt; both(alloc, &mut store, small).is_none());
    let p = build(alloc, &mut store, Text::Letter(10))?;
    let large = doubled(alloc, &mut store, p, 15)?;
    assert!(rt;
        matches!(
            both(alloc, &mut store, large),
            Some(PrimError::TooLarge(131071))
        )
    );
    Ok(())
}

#[test]
fn deep_conclusions_are_refused(rt: HostRuntime) -> Result<(), Fail> {
    let alloc = rt.alloc();
    let mut store = Store::new(alloc);
    let p = build(alloc, &mut store, Text::Letter(10))?;
    let shallow = negated(alloc, &mut store, p, 1998)?;
    assert!(rt; both(alloc, &mut store, shallow).is_none());
    let p = build(alloc, &mut store, Text::Letter(10))?;
    let deep = negated(alloc, &mut store, p, 1999)?;
    assert!(rt;
        matches!(
            both(alloc, &mut store, deep),
            Some(PrimError::TooDeep(2001))
        )
    );
    Ok(())
}
