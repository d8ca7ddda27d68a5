// Lists of names and of bindings that are asked whether a name is among them.

ghost use Rattle.std.specs.Prelude.{◌≡◌, ◌∷◌, ◌++◌, [], IfOk, OnOk, map, if◌then◌else◌};
ghost use Rattle.ath_builder.specs.Names.{is_listed};

use ath_numbering::PhraseTree;
use ath_sorts::Sym;
use indexmap::IndexSet;
use sqlite_items::Items;
use std::alloc::{AllocError, Global};
use std::marker::Model;

/// Names in their order, some maybe twice. Contracts see the list of them.
#[derive(Drop)]
pub struct NameList {
    names: Items<Sym>,
    seen: IndexSet<Sym>,
}

impl Model for NameList {
    ghost use Rattle.std.specs.Prelude.{◌≡◌, List, []};
    ghost use Rattle.ath_sorts.specs.declared.sorts.Sym.{Sym as Name};
    ghost use Rattle.ath_builder.specs.Names.{noted};

    ghost Value = { List Name };

    ghost view = { λ l. l.names };

    ghost invariant = { λ l. l.seen.keys ≡ noted [] l.names };
}

impl NameList {
    /// No names.
    pub fn new(alloc: Global) -> NameList
        ensures { result ≡ [] }
    {
        NameList {
            names: Items::new(alloc),
            seen: IndexSet::new(alloc),
        }
    }

    /// Whether a name is among them. It is found in one step, however many they are.
    #[tactic(auto, using(crate::proofs::NameLaws::seen_is_listed))]
    pub fn has(&self, name: Sym) -> bool
        ensures { result ≡ is_listed name self.now }
    {
        self.seen.contains(&name)
    }

    /// The names, and this one at the end.
    #[tactic(auto, using(crate::proofs::NameLaws::noted_with))]
    pub fn with(self, name: Sym) -> Result<NameList, AllocError>
        ensures { IfOk result (λ l. l ≡ self ++ name ∷ []) }
    {
        let NameList {
            mut names,
            mut seen,
        } = self;
        names.push(name)?;
        note(&mut seen, name)?;
        Ok(NameList { names, seen })
    }

    /// The names alone.
    pub fn into_items(self) -> Items<Sym>
        ensures { result ≡ self }
    {
        let NameList { names, seen: _ } = self;
        names
    }
}

/// A name is among those that were seen.
fn note(seen: &mut IndexSet<Sym>, name: Sym) -> Result<(), AllocError>
    ensures { OnOk result (seen.new.keys ≡ (if is_listed name seen.old.keys then seen.old.keys else seen.old.keys ++ name ∷ [])) }
{
    seen.insert(name)?;
    Ok(())
}

/// Bindings in their order. Contracts see the list of them.
#[derive(Drop)]
pub struct BindingList {
    rows: Items<(Sym, PhraseTree)>,
    names: NameList,
}

impl Model for BindingList {
    ghost use Rattle.std.specs.Prelude.{◌≡◌, List, map};
    ghost use Rattle.std.specs.Coded.{codes};
    ghost use Rattle.ath_sorts.specs.declared.sorts.Sym.{Sym as Name};
    ghost use Rattle.ath_numbering.specs.declared.tree.PhraseTree.{PhraseTree as Tree};
    ghost use Rattle.ath_numbering.specs.contracts.tree.PhraseTree as phrase_tree;

    ghost Value = { List (Name × Tree) };

    ghost coded = { Prim.hlevel (codes, phrase_tree.the_row.coded) };

    ghost view = { λ l. l.rows };

    ghost invariant = { λ l. l.names ≡ map (λ b. b.0) l.rows };
}

impl BindingList {
    /// No bindings.
    pub fn new(alloc: Global) -> BindingList
        ensures { result ≡ [] }
    {
        BindingList {
            rows: Items::new(alloc),
            names: NameList::new(alloc),
        }
    }

    pub fn as_slice(&self) -> &[(Sym, PhraseTree)]
        ensures { result.now ≡ self.now }
    {
        self.rows.as_slice()
    }

    /// Whether a name is bound by one of them. It is found in one step, however many they are.
    pub fn has(&self, name: Sym) -> bool
        ensures { result ≡ is_listed name (map (λ b. b.0) self.now) }
    {
        self.names.has(name)
    }

    /// The bindings, and this one at the end.
    pub fn with(self, name: Sym, body: PhraseTree) -> Result<BindingList, AllocError>
        ensures { IfOk result (λ l. l ≡ self ++ (name, body) ∷ []) }
    {
        let BindingList { mut rows, names } = self;
        rows.push((name, body))?;
        let names = names.with(name)?;
        Ok(BindingList { rows, names })
    }

    /// The bindings alone.
    pub fn into_items(self) -> Items<(Sym, PhraseTree)>
        ensures { result ≡ self }
    {
        let BindingList { rows, names: _ } = self;
        rows
    }
}
