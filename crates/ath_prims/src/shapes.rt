// Which sentences have which shape.

ghost use Rattle.std.specs.Prelude.{◌≡◌, ◌<◌, length, option_and_then, option_map};
ghost use Rattle.ath_prims.specs.Applied.{bound_to, fits, negand, sides};
ghost use Rattle.ath_prims.specs.Stands.{AreFound, AreIn, IsFit, IsFound, IsIn, parts_at, sentence_at};

use crate::bindings::{Bindings, bind};
use crate::schema::{Part, Shape};
use ath_terms::{SentNode, Store};
use ath_trees::{Binary, Conn, SentId};

/// The sentence that a sentence negates.
fn negand(store: &Store, p: SentId) -> Option<SentId>
    requires { p.0 < length store.now.sents }
    ensures { IsFound store.now result (negand (sentence_at store.now p)) }
{
    match store.sent(p) {
        SentNode::Conn(conn, parts) => {
            if *conn != Conn::Not {
                return None;
            }
            Some(parts.as_slice()[0])
        }
        _ => None,
    }
}

/// The sentence that a sentence negates twice.
fn inner_negand(store: &Store, p: SentId) -> Option<SentId>
    requires { p.0 < length store.now.sents }
    ensures { IsFound store.now result (option_and_then negand (negand (sentence_at store.now p))) }
{
    match negand(store, p) {
        Some(q) => negand(store, q),
        None => None,
    }
}

/// The two sentences that a sentence joins by this connective.
fn sides(store: &Store, connective: Binary, p: SentId) -> Option<(SentId, SentId)>
    requires { p.0 < length store.now.sents }
    ensures { AreFound store.now result (sides connective (sentence_at store.now p)) }
{
    match store.sent(p) {
        SentNode::Conn(conn, parts) => {
            if *conn != connective.conn() {
                return None;
            }
            let parts = parts.as_slice();
            Some((parts[0], parts[1]))
        }
        _ => None,
    }
}

/// Finds a part in what was taken from a sentence.
fn bind_found(
    store: &Store,
    bindings: Bindings,
    part: Part,
    taken: Option<SentId>,
) -> Option<Bindings>
    requires inside { AreIn store.now bindings }
    requires taken { IsIn store.now taken }
    ensures { IsFit store.now result (option_and_then (λ q. bound_to part q (parts_at store.now bindings)) (option_map (sentence_at store.now) taken)) }
{
    match taken {
        Some(q) => bind(store, bindings, part, q),
        None => None,
    }
}

/// Finds two parts in the sides of a sentence.
fn bind_sides(
    store: &Store,
    bindings: Bindings,
    first: Part,
    second: Part,
    sides: (SentId, SentId),
) -> Option<Bindings>
    requires inside { AreIn store.now bindings }
    requires left { sides.0.0 < length store.now.sents }
    requires right { sides.1.0 < length store.now.sents }
    ensures { IsFit store.now result (option_and_then (bound_to second (sentence_at store.now sides.1)) (bound_to first (sentence_at store.now sides.0) (parts_at store.now bindings))) }
{
    let (p, q) = sides;
    match bind(store, bindings, first, p) {
        Some(bound) => bind(store, bound, second, q),
        None => None,
    }
}

/// The parts that are found where a sentence has the shape, beside those found before.
pub(crate) fn fit(store: &Store, shape: Shape, p: SentId, bindings: Bindings) -> Option<Bindings>
    requires sentence { p.0 < length store.now.sents }
    requires inside { AreIn store.now bindings }
    ensures { IsFit store.now result (fits shape (sentence_at store.now p) (parts_at store.now bindings)) }
{
    match shape {
        Shape::Any(part) => bind(store, bindings, part, p),
        Shape::Not(part) => bind_found(store, bindings, part, negand(store, p)),
        Shape::NotNot(part) => bind_found(store, bindings, part, inner_negand(store, p)),
        Shape::Joined(connective, first, second) => match sides(store, connective, p) {
            Some(found) => bind_sides(store, bindings, first, second, found),
            None => None,
        },
    }
}
