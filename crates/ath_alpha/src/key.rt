// Keys of sentences that are alike but for sorts.

ghost use Rattle.std.specs.Prelude.{◌<◌, length};
ghost use Rattle.ath_alpha.specs.Keys.{IsKey};

use crate::alike::are_like_sents;
use crate::binders::Binders;
use ath_terms::Store;
use ath_trees::SentId;

/// The least number of a sentence whose nameless form is that of this one with all sorts left out.
pub fn alpha_key(store: &Store, p: SentId) -> usize
    requires { p.0 < length store.now.sents }
    ensures { IsKey store.now.sents p.0 result }
{
    for i in 0..p.0 {
        if are_like_sents(store, false, &Binders::Outside, SentId(i), p) {
            return i;
        }
    }
    p.0
}
