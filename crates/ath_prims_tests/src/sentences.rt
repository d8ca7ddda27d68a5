// The sentences of the tests.

ghost use Rattle.std.specs.Prelude.{◌<◌, IfOk, length};
ghost use Rattle.ath_terms.specs.Trees.{Grows};

use ath_sorts::Sym;
use ath_sorts::sorts::{BOOLEAN, con};
use ath_terms::{BuildError, SentNode, Store};
use ath_trees::{Binary, Conn, SentId};
use sqlite_items::Items;
use std::alloc::Global;

/// A sentence over constants, which are named by number: 1 is `true`, and 2 is `false`.
#[derive(Clone, Copy)]
pub enum Text {
    Letter(usize),
    Not(usize),
    NotNot(usize),
    Joined(Binary, usize, usize),
}

fn letter(alloc: Global, store: &mut Store, name: usize) -> Result<SentId, BuildError>
    ensures grows { Grows store.old store.new }
    ensures inside { IfOk result (λ p. p.0 < length store.new.sents) }
{
    let sort = con(alloc, BOOLEAN, Items::new(alloc))?;
    let term = store.raw_app(alloc, Sym(name), &Vec::new(alloc), &Vec::new(alloc), &sort)?;
    let atom = store.plain_atom(term)?;
    Ok(atom)
}

fn negate(alloc: Global, store: &mut Store, p: SentId) -> Result<SentId, BuildError>
    requires { p.0 < length store.old.sents }
    ensures grows { Grows store.old store.new }
    ensures inside { IfOk result (λ p. p.0 < length store.new.sents) }
{
    let node = SentNode::Conn(Conn::Not, Items::from_slice(alloc, &[p])?);
    let sent = store.raw_sent(alloc, &node)?;
    Ok(sent)
}

fn join(
    alloc: Global,
    store: &mut Store,
    connective: Binary,
    p: SentId,
    q: SentId,
) -> Result<SentId, BuildError>
    requires left { p.0 < length store.old.sents }
    requires right { q.0 < length store.old.sents }
    ensures grows { Grows store.old store.new }
    ensures inside { IfOk result (λ p. p.0 < length store.new.sents) }
{
    let node = SentNode::Conn(connective.conn(), Items::from_slice(alloc, &[p, q])?);
    let sent = store.raw_sent(alloc, &node)?;
    Ok(sent)
}

/// The sentence, built anew.
pub(crate) fn build(alloc: Global, store: &mut Store, text: Text) -> Result<SentId, BuildError>
    ensures grows { Grows store.old store.new }
    ensures inside { IfOk result (λ p. p.0 < length store.new.sents) }
{
    match text {
        Text::Letter(name) => {
            let p = letter(alloc, store, name)?;
            Ok(p)
        }
        Text::Not(name) => {
            let p = letter(alloc, store, name)?;
            let q = negate(alloc, store, p)?;
            Ok(q)
        }
        Text::NotNot(name) => {
            let p = letter(alloc, store, name)?;
            let q = negate(alloc, store, p)?;
            let r = negate(alloc, store, q)?;
            Ok(r)
        }
        Text::Joined(connective, first, second) => {
            let p = letter(alloc, store, first)?;
            let q = letter(alloc, store, second)?;
            let r = join(alloc, store, connective, p, q)?;
            Ok(r)
        }
    }
}

/// The sentence that is negated so often.
pub(crate) fn negated(
    alloc: Global,
    store: &mut Store,
    p: SentId,
    times: usize,
) -> Result<SentId, BuildError>
    requires { p.0 < length store.old.sents }
    ensures { IfOk result (λ p. p.0 < length store.new.sents) }
{
    let mut whole = p;
    for _ in 0..times {
        whole = negate(alloc, store, whole)?;
    }
    Ok(whole)
}

/// The sentence that is joined with itself so often.
pub(crate) fn doubled(
    alloc: Global,
    store: &mut Store,
    p: SentId,
    times: usize,
) -> Result<SentId, BuildError>
    requires { p.0 < length store.old.sents }
    ensures { IfOk result (λ p. p.0 < length store.new.sents) }
{
    let mut whole = p;
    for _ in 0..times {
        whole = join(alloc, store, Binary::And, whole, whole)?;
    }
    Ok(whole)
}
