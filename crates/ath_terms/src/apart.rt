// Sentences no two of whose free variables have one name and index. What is found of one is marked, so that it is looked at once.

ghost use Rattle.std.specs.Prelude.{◌≡◌, ◌<◌, true, length, is_some, IfOk};
ghost use Rattle.std.specs.Map.{lookup};
ghost use Rattle.ath_terms.specs.Found.{name_key, same_name_key};
ghost use Rattle.ath_terms.specs.Marks.{AreApart};

use crate::key::{NameKey, name_key};
use crate::store::Store;
use ath_trees::{SentId, Var};
use indexmap::IndexMap;
use std::alloc::{AllocError, Global};

fn is_filed(firsts: &IndexMap<NameKey, usize>, v: &Var) -> bool
    ensures { result ≡ is_some (lookup (same_name_key (name_key v.now)) firsts.now.entries) }
{
    firsts.get(&name_key(v)).is_some()
}

/// Whether no two of the variables have one name and index.
fn are_apart(alloc: Global, found: &[Var]) -> Result<bool, AllocError>
    ensures { IfOk result (λ b. b ≡ true → AreApart found.now) }
{
    let mut firsts = IndexMap::new(alloc);
    for i in 0..found.len() {
        if is_filed(&firsts, &found[i]) {
            return Ok(false);
        }
        firsts.insert(name_key(&found[i]), i)?;
    }
    Ok(true)
}

impl Store {
    /// Marks a sentence where no two of its free variables have one name and index.
    pub fn note_apart(&mut self, alloc: Global, p: SentId) -> Result<(), AllocError>
        requires { p.0 < length self.old.sents }
        ensures { self.new ≡ self.old }
    {
        let marks = self.sent_marks(p);
        if marks.is_apart {
            return Ok(());
        }
        let found = self.free_vars(alloc, p)?;
        let apart = are_apart(alloc, found.as_slice())?;
        if apart {
            self.mark_apart(p);
        }
        Ok(())
    }
}
