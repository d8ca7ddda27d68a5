// What a row concludes.

ghost use Rattle.std.specs.Prelude.{◌≡◌, ◌<◌, IfOk, length};
ghost use Rattle.ath_sorts.specs.Signature.{Signature};
ghost use Rattle.ath_terms.specs.Measure.{IsBuilt};
ghost use Rattle.ath_terms.specs.SortsIn.{IsSortedIn};
ghost use Rattle.ath_terms.specs.Trees.{Trees, Grows, IsSent};
ghost use Rattle.ath_trees.specs.Tree.{Sent, atom, constant, joined};
ghost use Rattle.ath_trees.specs.WellSorted.{IsWellSorted};
ghost use Rattle.ath_calculus.specs.Derives.{truth};
ghost use Rattle.ath_prims.specs.Applied.{concluded, part};
ghost use Rattle.ath_prims.specs.Stands.{AreIn, HasConstants, IsConcluded, parts_at, sentence_at};

use crate::applying::PrimError;
use crate::bindings::{Bindings, found};
use crate::schema::{Conclusion, Part};
use ath_sorts::Sym;
use ath_sorts::sorts::{BOOLEAN, con};
use ath_terms::{BuildError, SentNode, Store, TermNode};
use ath_trees::{Binary, SentId};
use sqlite_items::Items;
use std::alloc::{AllocError, Global};

/// The constants `true` and `false`.
const TRUE: Sym = Sym(1);

const FALSE: Sym = Sym(2);

/// The sentence of a constant of sort Boolean.
fn truth_value(alloc: Global, store: &mut Store, f: Sym) -> Result<SentId, AllocError>
    ensures grows { Grows store.old store.new }
    ensures tree { IfOk result (λ p. IsSent store.new p.0 (atom (constant f))) }
    ensures sorted { (sig : Signature) → IsSortedIn sig store.old → IsWellSorted sig (atom (constant f)) → IsSortedIn sig store.new }
{
    let sort = con(alloc, BOOLEAN, Items::new(alloc))?;
    let node = TermNode::App(f, Items::new(alloc), Items::new(alloc));
    let term = store.add_term(node, sort, 1, 1)?;
    let atom = store.plain_atom(term)?;
    Ok(atom)
}

/// The sentence of a part.
fn part(
    alloc: Global,
    store: &mut Store,
    bindings: Bindings,
    name: Part,
) -> Result<SentId, AllocError>
    requires { AreIn store.old bindings }
    ensures grows { Grows store.old store.new }
    ensures tree { IfOk result (λ p. IsSent store.new p.0 (part name (parts_at store.old bindings))) }
    ensures sorted { (sig : Signature) → IsSortedIn sig store.old → IsWellSorted sig truth → IsSortedIn sig store.new }
{
    match found(bindings, name) {
        Some(p) => Ok(p),
        None => {
            let p = truth_value(alloc, store, TRUE)?;
            Ok(p)
        }
    }
}

/// Two sentences under a connective.
fn join(
    alloc: Global,
    store: &mut Store,
    connective: Binary,
    p: SentId,
    q: SentId,
) -> Result<SentId, BuildError>
    requires left { p.0 < length store.old.sents }
    requires right { q.0 < length store.old.sents }
    ensures grows { Grows store.old store.new }
    ensures built { IsBuilt store.new result (joined connective (sentence_at store.old p) (sentence_at store.old q)) }
    ensures sorted { (sig : Signature) → IsSortedIn sig store.old → IsSortedIn sig store.new }
{
    let parts = Items::from_slice(alloc, &[p, q])?;
    let node = SentNode::Conn(connective.conn(), parts);
    let sent = store.raw_sent(alloc, &node)?;
    Ok(sent)
}

/// The same answer, as one of a method.
fn limited(made: Result<SentId, BuildError>) -> Result<SentId, PrimError>
    ensures { (s : Trees) (x : Sent) → IsBuilt s made x → IsConcluded s x result }
{
    match made {
        Ok(sent) => Ok(sent),
        Err(BuildError::TooLarge(nodes)) => Err(PrimError::TooLarge(nodes)),
        Err(BuildError::TooDeep(levels)) => Err(PrimError::TooDeep(levels)),
        Err(_) => Err(PrimError::Memory),
    }
}

/// The sentence that is concluded from these parts.
pub(crate) fn conclude(
    alloc: Global,
    store: &mut Store,
    conclusion: Conclusion,
    bindings: Bindings,
) -> Result<SentId, PrimError>
    requires { AreIn store.old bindings }
    ensures grows { Grows store.old store.new }
    ensures built { IsConcluded store.new (concluded conclusion (parts_at store.old bindings)) result }
    ensures sorted { (sig : Signature) → IsSortedIn sig store.old → HasConstants sig → IsSortedIn sig store.new }
{
    match conclusion {
        Conclusion::Bare(name) => {
            let p = part(alloc, store, bindings, name)?;
            Ok(p)
        }
        Conclusion::Built(connective, first, second) => {
            let p = part(alloc, store, bindings, first)?;
            let q = part(alloc, store, bindings, second)?;
            let made = join(alloc, store, connective, p, q);
            limited(made)
        }
        Conclusion::True => {
            let p = truth_value(alloc, store, TRUE)?;
            Ok(p)
        }
        Conclusion::False => {
            let p = truth_value(alloc, store, FALSE)?;
            Ok(p)
        }
    }
}
