// Infix operators.

ghost use Rattle.std.specs.Prelude.{◌≡◌, ◌==◌, IfOk};
ghost use Rattle.std.specs.Map.{lookup};
ghost use Rattle.ath_reader.specs.Operators.{first_operators};

use ath_sorts::Sym;
use ath_syntax::Group;
use indexmap::IndexMap;
use std::alloc::{AllocError, Global};
use std::marker::Model;

/// The words of infix contents that are operators, by their numbers. Contracts see a list of words, each with its level
/// and grouping.
#[derive(Drop)]
pub struct OpTable {
    operators: IndexMap<Sym, (u32, Group)>,
}

impl Model for OpTable {
    ghost use Rattle.std.specs.Prelude.{ℕ, List};
    ghost use Rattle.ath_sorts.specs.declared.sorts.Sym.{Sym as Word};
    ghost use Rattle.ath_syntax.specs.declared.place.Group.{Group as Grouping};

    ghost Value = { List (Word × (ℕ × Grouping)) };

    ghost view = { λ t. t.operators.entries };
}

impl OpTable {
    /// The operators that are there at first: `<==>`, `==>`, `|`, `&`, the prefix `~`, `=` and `=/=`.
    pub fn new(alloc: Global) -> Result<OpTable, AllocError>
        ensures { IfOk result (λ t. t ≡ first_operators) }
    {
        let mut operators = IndexMap::new(alloc);
        operators.insert(Sym(9), (100, Group::Right))?;
        operators.insert(Sym(8), (200, Group::Right))?;
        operators.insert(Sym(6), (300, Group::Right))?;
        operators.insert(Sym(5), (400, Group::Right))?;
        operators.insert(Sym(7), (500, Group::Right))?;
        operators.insert(Sym(3), (600, Group::Left))?;
        operators.insert(Sym(4), (600, Group::Left))?;
        Ok(OpTable { operators })
    }

    /// The level of a word, from 100 to 999, and its grouping; None exactly where it is no operator. What has a greater
    /// level binds tighter.
    pub fn get(&self, word: Sym) -> Option<(u32, Group)>
        ensures { result ≡ lookup (λ w. word.0 == w.0) self.now }
    {
        self.operators.get(&word).copied()
    }
}
