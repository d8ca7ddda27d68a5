// The parts of a schema that are found.

ghost use Rattle.std.specs.Prelude.{◌≡◌, ◌<◌, Some, length, option_map};
ghost use Rattle.ath_terms.specs.Trees.{Trees};
ghost use Rattle.ath_prims.specs.Applied.{found, with_part, bound_to, no_parts};
ghost use Rattle.ath_prims.specs.Stands.{AreIn, IsFit, IsFound, parts_at, sentence_at};

use crate::schema::Part;
use ath_alpha::is_alpha_equal;
use ath_terms::Store;
use ath_trees::SentId;

/// The sentence of each part, where it is found.
#[derive(Clone, Copy, Debug)]
pub struct Bindings {
    pub a: Option<SentId>,
    pub b: Option<SentId>,
    pub c: Option<SentId>,
}

/// No part is found.
pub(crate) fn no_bindings() -> Bindings
    ensures { (s : Trees) → AreIn s result × (parts_at s result ≡ no_parts) }
{
    Bindings {
        a: None,
        b: None,
        c: None,
    }
}

/// The sentence of a part.
pub(crate) fn found(bindings: Bindings, part: Part) -> Option<SentId>
    ensures { (s : Trees) → AreIn s bindings → IsFound s result (found part (parts_at s bindings)) }
{
    match part {
        Part::A => bindings.a,
        Part::B => bindings.b,
        Part::C => bindings.c,
    }
}

fn with_part(bindings: Bindings, part: Part, p: SentId) -> Bindings
    ensures inside { (s : Trees) → AreIn s bindings → p.0 < length s.sents → AreIn s result }
    ensures parts { (s : Trees) → parts_at s result ≡ with_part part (sentence_at s p) (parts_at s bindings) }
{
    match part {
        Part::A => Bindings {
            a: Some(p),
            ..bindings
        },
        Part::B => Bindings {
            b: Some(p),
            ..bindings
        },
        Part::C => Bindings {
            c: Some(p),
            ..bindings
        },
    }
}

/// The parts with a sentence for this one; none where another is found for it. One that was found before stays.
pub(crate) fn bind(store: &Store, bindings: Bindings, part: Part, p: SentId) -> Option<Bindings>
    requires inside { AreIn store.now bindings }
    requires sentence { p.0 < length store.now.sents }
    ensures { IsFit store.now result (bound_to part (sentence_at store.now p) (parts_at store.now bindings)) }
{
    match found(bindings, part) {
        Some(q) => {
            if is_alpha_equal(store, q, p) {
                return Some(bindings);
            }
            None
        }
        None => Some(with_part(bindings, part, p)),
    }
}
