// Keys of variables, for tables.

ghost use Rattle.std.specs.Prelude.{◌≡◌};
ghost use Rattle.ath_terms.specs.Found.{name_key, var_key};

use crate::digest::digest_of;
use ath_sorts::Sym;
use ath_trees::Var;

/// A name with an index: the key of a variable among those of all names.
#[derive(Drop, PartialEq, Eq, Hash)]
pub struct NameKey {
    pub name: Sym,
    pub index: u64,
}

/// The key of a variable among all: those of two variables that differ mostly differ, and needn't.
#[derive(Drop, PartialEq, Eq, Hash)]
pub struct VarKey {
    pub namesakes: NameKey,
    pub digest: u64,
}

pub fn name_key(v: &Var) -> NameKey
    ensures { result ≡ name_key v.now }
{
    NameKey {
        name: v.name,
        index: v.index,
    }
}

pub fn var_key(v: &Var) -> VarKey
    ensures { result ≡ var_key v.now }
{
    VarKey {
        namesakes: name_key(v),
        digest: digest_of(&v.sort),
    }
}
