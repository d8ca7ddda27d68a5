// Which free variables may be in a tree, so that a walk for one that isn't there can be saved.

ghost use Rattle.std.specs.Prelude.{◌≡◌};
ghost use Rattle.ath_trees.specs.Groups.{group_of, no_groups, only, both, may_have};

use crate::node::Var;

/// The group of a name with its index.
fn group_of(v: &Var) -> u64
    ensures { result ≡ group_of v.now }
{
    (v.name.0 as u64 % 64 + v.index % 64) % 64
}

/// Some of the 64 groups into which names with their indices fall, each a bit.
#[derive(Clone, Copy)]
pub struct NameGroups {
    pub bits: u64,
}

impl NameGroups {
    pub fn none() -> NameGroups
        ensures { result ≡ no_groups }
    {
        NameGroups { bits: 0 }
    }

    /// The group of a variable.
    pub fn only(v: &Var) -> NameGroups
        ensures { result ≡ only v.now }
    {
        NameGroups {
            bits: 1 << group_of(v),
        }
    }

    /// The groups of both.
    pub fn and(self, other: NameGroups) -> NameGroups
        ensures { result ≡ both self other }
    {
        NameGroups {
            bits: self.bits | other.bits,
        }
    }

    /// Whether the variable's group is among them.
    pub fn may_have(self, v: &Var) -> bool
        ensures { result ≡ may_have self v.now }
    {
        (self.bits >> group_of(v)) & 1 == 1
    }
}
