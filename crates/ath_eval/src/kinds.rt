// The kinds of arguments.

ghost use Rattle.std.specs.Prelude.{◌≡◌, IfOk, IfSome, option_map};
ghost use Rattle.std.specs.List.{All};
ghost use Rattle.ath_terms.specs.Trees.{Trees, term_at};
ghost use Rattle.ath_env.specs.Stands.{IsIn, value_at};
ghost use Rattle.ath_env.specs.Values.{term_of};
ghost use Rattle.ath_eval.specs.Applying.{kinds_of, variable_in};
ghost use Rattle.ath_eval.specs.Arguments.{MatchTerms, MatchPiece, MatchParts, values_at, kinds_found};

use ath_env::Value;
use ath_terms::found::copied_var;
use ath_terms::{Store, TermNode};
use ath_trees::{SentId, TermId, Var};
use std::alloc::{AllocError, Global};

/// Arguments that are terms, or the number of the first that is none, from 1.
#[derive(Debug, Drop)]
pub(crate) enum Terms {
    All(Vec<TermId>),
    Wrong(u64),
}

/// A part of a connective.
#[derive(Clone, Copy, Debug)]
pub(crate) enum Part {
    Term(TermId),
    Sent(SentId),
}

/// Arguments that are terms and sentences, or the number of the first that is neither, from 1.
#[derive(Debug, Drop)]
pub(crate) enum Parts {
    All(Vec<Part>),
    Wrong(u64),
}

/// Arguments that are variables, or the number of the first that is none, from 1.
#[derive(Debug, Drop)]
pub(crate) enum Variables {
    All(Vec<Var>),
    Wrong(u64),
}

/// The term that a value is, where it is one.
pub(crate) fn as_term(value: Value) -> Option<TermId>
    ensures same { IfSome result (λ t. value ≡ Value.Term t) }
    ensures term { (s : Trees) → term_of (value_at s value) ≡ option_map (λ t. term_at s.terms t.0) result }
{
    match value {
        Value::Term(t) => Some(t),
        Value::Sent(_) => None,
        Value::Symbol(_) => None,
        Value::Conn(_) => None,
        Value::Quant(_) => None,
        Value::Back => None,
        Value::PrimMethod(_) => None,
    }
}

/// The terms that the arguments are.
pub(crate) fn as_terms(alloc: Global, args: &[Value]) -> Result<Terms, AllocError>
    ensures { IfOk result (λ found. MatchTerms args.now found) }
{
    let mut ids: Vec<TermId> = Vec::new(alloc);
    for arg in args {
        match arg {
            Value::Term(t) => ids.push(*t)?,
            _other => return Ok(Terms::Wrong(ids.len() as u64 + 1)),
        }
    }
    Ok(Terms::All(ids))
}

/// The part that a value is, where it is one.
pub(crate) fn as_part(value: Value) -> Option<Part>
    ensures { MatchPiece value result }
{
    match value {
        Value::Term(t) => Some(Part::Term(t)),
        Value::Sent(p) => Some(Part::Sent(p)),
        _other => None,
    }
}

/// The terms and sentences that the arguments are.
pub(crate) fn as_parts(alloc: Global, args: &[Value]) -> Result<Parts, AllocError>
    ensures { IfOk result (λ found. MatchParts args.now found) }
{
    let mut found: Vec<Part> = Vec::new(alloc);
    for arg in args {
        match as_part(*arg) {
            Some(one) => found.push(one)?,
            None => return Ok(Parts::Wrong(found.len() as u64 + 1)),
        }
    }
    Ok(Parts::All(found))
}

/// The variable that a value is, where it is one.
fn as_variable(alloc: Global, store: &Store, value: Value) -> Result<Option<Var>, AllocError>
    requires { IsIn store.now value }
    ensures { IfOk result (λ v. variable_in (value_at store.now value) ≡ v) }
{
    let Value::Term(t) = value else {
        return Ok(None);
    };
    match store.term(t) {
        TermNode::Var(v) => Ok(Some(copied_var(v)?)),
        TermNode::App(..) => Ok(None),
    }
}

/// The variables that the arguments are.
pub(crate) fn as_variables(
    alloc: Global,
    store: &Store,
    args: &[Value],
) -> Result<Variables, AllocError>
    requires { All (IsIn store.now) args.now }
    ensures { IfOk result (λ found. kinds_of variable_in 1 (values_at store.now args.now) ≡ kinds_found found) }
{
    let mut vars: Vec<Var> = Vec::new(alloc);
    for arg in args {
        match as_variable(alloc, store, *arg)? {
            Some(v) => vars.push(v)?,
            None => return Ok(Variables::Wrong(vars.len() as u64 + 1)),
        }
    }
    Ok(Variables::All(vars))
}
