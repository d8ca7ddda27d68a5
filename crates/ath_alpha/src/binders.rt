// Pairs of variables under the binders around them.

ghost use Rattle.std.specs.Prelude.{◌≡◌, ℕ};
ghost use Rattle.ath_alpha.specs.Binders.{lefts_of, rights_of, meeting};
ghost use Rattle.ath_trees.specs.Nameless.{placed};

use ath_terms::variables::is_same_var;
use ath_trees::Var;

/// The variables of the binders around two places, pair by pair, the innermost first.
#[derive(Clone, Copy)]
pub enum Binders<'a> {
    Outside,
    Under(&'a Var, &'a Var, &'a Binders<'a>),
}

/// How two variables meet: bound by binders at one place, both free, or neither.
#[derive(Clone, Copy)]
pub enum Meeting {
    Bound,
    Free,
    Apart,
}

/// How two variables meet, each under its binders.
pub fn meeting_of(binders: &Binders, v: &Var, w: &Var) -> Meeting
    ensures { (i : ℕ) → result ≡ meeting (placed (lefts_of binders.now) i v.now) (placed (rights_of binders.now) i w.now) }
{
    match binders {
        Binders::Outside => Meeting::Free,
        Binders::Under(a, b, outer) => {
            let here = is_same_var(a, v);
            let there = is_same_var(b, w);
            if here {
                return if there {
                    Meeting::Bound
                } else {
                    Meeting::Apart
                };
            }
            if there {
                return Meeting::Apart;
            }
            meeting_of(outer, v, w)
        }
    }
}
