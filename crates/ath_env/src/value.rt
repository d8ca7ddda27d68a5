// Values.

ghost use Rattle.std.specs.Prelude.{◌≡◌, ◌<◌, Option, IfOk, length};
ghost use Rattle.ath_sorts.specs.Signature.{Signature, boolean};
ghost use Rattle.ath_sorts.specs.Equality.{same_sort};
ghost use Rattle.ath_terms.specs.Trees.{Grows, sent_at};
ghost use Rattle.ath_terms.specs.SortsIn.{IsSortedIn};
ghost use Rattle.ath_env.specs.Values.{sentence_of, value_of};
ghost use Rattle.ath_env.specs.Stands.{IsIn, value_at, IsSentenceOf};

use ath_sorts::sorts::BOOLEAN;
use ath_sorts::{Sort, Sym};
use ath_terms::{SentNode, Store};
use ath_trees::{Conn, Quant, SentId, TermId};
use std::alloc::AllocError;

/// A value, whose terms and sentences are numbers of a `Store`. An atom is always a `Term`.
#[derive(Clone, Copy, Debug)]
pub enum Value {
    Term(TermId),
    Sent(SentId),
    /// a symbol that isn't applied, as `=`
    Symbol(Sym),
    Conn(Conn),
    Quant(Quant),
    /// the mark `<==`
    Back,
    /// a primitive method: `claim` is 0, and `mp` is 1
    PrimMethod(u32),
}

/// Whether the sort is Boolean.
fn is_boolean(sort: &Sort) -> bool
    ensures { result ≡ same_sort sort.now boolean }
{
    match sort {
        Sort::Var(_) => false,
        Sort::Con(name, args) => name.0 == BOOLEAN.0 && args.as_slice().is_empty(),
    }
}

/// The sentence that a value is, where it is one: a sentence, or the atom of a term of sort Boolean.
pub fn sentence(store: &mut Store, value: Value) -> Result<Option<SentId>, AllocError>
    requires { IsIn store.old value }
    ensures grows { Grows store.old store.new }
    ensures sorted { (sig : Signature) → IsSortedIn sig store.old → IsSortedIn sig store.new }
    ensures sentence { IfOk result (λ found. IsSentenceOf store.new found (sentence_of (value_at store.old value))) }
{
    match value {
        Value::Term(t) => {
            if !is_boolean(store.sort_of(t)) {
                return Ok(None);
            }
            let p = store.plain_atom(t)?;
            Ok(Some(p))
        }
        Value::Sent(p) => Ok(Some(p)),
        _ => Ok(None),
    }
}

/// The value that a sentence is: an atom is the value of its term.
pub fn value_of(store: &Store, p: SentId) -> Value
    requires { p.0 < length store.now.sents }
    ensures inside { IsIn store.now result }
    ensures value { (sig : Signature) → IsSortedIn sig store.now → value_at store.now result ≡ value_of (sent_at store.now.sents p.0) }
{
    match store.sent(p) {
        SentNode::Atom(t) => Value::Term(*t),
        _other => Value::Sent(p),
    }
}
