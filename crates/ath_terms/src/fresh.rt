// The counters of fresh names.

ghost use Rattle.std.specs.Prelude.{◌≡◌, ◌<◌, ◌+◌, ◌^◌};
ghost use Rattle.std.specs.List.{All};
ghost use Rattle.ath_terms.specs.Fresh.{is_taken, IsFreshIndex};

use ath_sorts::{SVar, Sym};

/// The next index of a fresh variable, and the number of the next sort variable that is made.
#[derive(Clone, Copy)]
pub struct Fresh {
    pub var: u64,
    pub sort: u64,
}

impl Fresh {
    /// The counters at the beginning.
    pub fn first() -> Fresh
        ensures { result ≡ record { var = 1; sort = 1 } }
    {
        Fresh { var: 1, sort: 1 }
    }

    /// The next sort variable.
    pub fn sort_var(&mut self) -> SVar
        requires { self.old.sort < 2 ^ 62 }
        ensures made { result ≡ SVar.Made self.old.sort }
        ensures after { self.new ≡ record { var = self.old.var; sort = self.old.sort + 1 } }
    {
        let number = self.sort;
        self.sort = number + 1;
        SVar::Made(number)
    }

    /// The least index, not below the counter, with which the name isn't taken. The counter becomes one more than it.
    pub fn index(&mut self, name: Sym, taken: &Vec<(Sym, u64)>) -> u64
        requires counter { self.old.var < 2 ^ 62 }
        requires indices { All (λ e. e.1 < 2 ^ 62) taken.now.items }
        ensures index { IsFreshIndex self.old.var name taken.now.items result }
        ensures after { self.new ≡ record { var = result + 1; sort = self.old.sort } }
    {
        let index = free_index(self.var, name, taken.as_slice());
        self.var = index + 1;
        index
    }
}

fn is_taken(taken: &[(Sym, u64)], name: Sym, index: u64) -> bool
    ensures { result ≡ is_taken taken.now name index }
{
    for e in taken {
        if e.0.0 == name.0 && e.1 == index {
            return true;
        }
    }
    false
}

fn free_index(counter: u64, name: Sym, taken: &[(Sym, u64)]) -> u64
    requires counter { counter < 2 ^ 62 }
    requires indices { All (λ e. e.1 < 2 ^ 62) taken.now }
    ensures index { IsFreshIndex counter name taken.now result }
    ensures room { result < 2 ^ 62 + 1 }
{
    let mut index = counter;
    while is_taken(taken, name, index) {
        index += 1;
    }
    index
}
