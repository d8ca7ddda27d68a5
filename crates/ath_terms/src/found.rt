// Variables that were found, each once, in the order in which they were found first.

ghost use Rattle.std.specs.Prelude.{◌≡◌, ◌++◌, ◌∷◌, [], find, IfOk, OnOk};
ghost use Rattle.std.specs.List.{list_any};
ghost use Rattle.std.specs.Option.{option_copied};
ghost use Rattle.ath_trees.specs.Variables.{is_namesake, same_var, with_var};
ghost use Rattle.ath_terms.specs.Found.{var_key, same_var_key};

use crate::key::{VarKey, var_key};
use ath_sorts::sorts::{copied, is_same};
use ath_trees::Var;
use indexmap::IndexMap;
use std::alloc::{AllocError, Global};
use std::marker::Model;

/// Whether two variables have one name and one index.
pub fn is_namesake(v: &Var, w: &Var) -> bool
    ensures { result ≡ is_namesake v.now w.now }
{
    v.name.0 == w.name.0 && v.index == w.index
}

/// Whether two variables are one.
pub fn is_same_var(v: &Var, w: &Var) -> bool
    ensures { result ≡ same_var v.now w.now }
{
    is_namesake(v, w) && is_same(&v.sort, &w.sort)
}

/// Whether a variable is among them.
pub fn is_found(found: &[Var], v: &Var) -> bool
    ensures { result ≡ list_any (same_var v.now) found.now }
{
    for w in found {
        if is_same_var(v, w) {
            return true;
        }
    }
    false
}

/// The variable again.
pub fn copied_var(v: &Var) -> Result<Var, AllocError>
    ensures { IfOk result (λ w. w ≡ v.now) }
{
    let sort = copied(&v.sort)?;
    Ok(Var {
        name: v.name,
        index: v.index,
        sort,
    })
}

/// Variables in order, with a table of the first one of each key. Contracts see the list of them.
#[derive(Drop)]
pub struct FoundVars {
    list: Vec<Var>,
    places: IndexMap<VarKey, usize>,
}

impl Model for FoundVars {
    ghost use Rattle.std.specs.Prelude.{List};
    ghost use Rattle.ath_trees.specs.declared.node.Var.{Var as Variable};
    ghost use Rattle.ath_trees.specs.contracts.node.Var as variable;
    ghost use Rattle.std.specs.Coded.{codes};
    ghost use Rattle.ath_terms.specs.Firsts.{HasFirsts};
    ghost use Rattle.ath_terms.specs.Found.{var_key, same_var_key};

    ghost Value = { List Variable };

    ghost coded = { Prim.hlevel (codes, variable.the_row.coded) };

    ghost view = { λ s. s.list.items };

    ghost invariant = { λ s. HasFirsts same_var_key var_key s.list.items s.places.entries };
}

impl FoundVars {
    /// No variables.
    pub fn new(alloc: Global) -> FoundVars
        ensures { result ≡ [] }
    {
        FoundVars {
            list: Vec::new(alloc),
            places: IndexMap::new(alloc),
        }
    }

    pub fn as_slice(&self) -> &[Var]
        ensures { result.now ≡ self.now }
    {
        self.list.as_slice()
    }

    /// The list alone.
    pub fn into_list(self) -> Vec<Var>
        ensures { result.items ≡ self }
    {
        let FoundVars { list, places: _ } = self;
        list
    }

    /// The first variable with a key.
    fn first(&self, key: &VarKey) -> Option<&Var>
        ensures { option_copied result ≡ find (λ w. same_var_key key.now (var_key w)) self.now }
    {
        let Some(at) = self.places.get(key) else {
            return None;
        };
        let Some(w) = self.list.as_slice().get(*at) else {
            return None;
        };
        if is_key(key, w) { Some(w) } else { None }
    }

    /// Whether a variable is among them. Mostly it is found in one step.
    pub fn has(&self, v: &Var) -> bool
        ensures { result ≡ list_any (same_var v.now) self.now }
    {
        let Some(w) = self.first(&var_key(v)) else {
            return false;
        };
        if is_same_var(v, w) {
            return true;
        }
        is_found(self.list.as_slice(), v)
    }

    /// Adds a variable behind those that are there.
    fn push(&mut self, v: Var) -> Result<(), AllocError>
        ensures { OnOk result (self.new ≡ self.old ++ v ∷ []) }
    {
        let key = var_key(&v);
        if self.first(&key).is_some() {
            self.list.push(v)?;
            return Ok(());
        }
        let at = self.list.as_slice().len();
        self.places.insert(key, at)?;
        self.list.push(v)?;
        Ok(())
    }

    /// Adds a variable where it isn't among them.
    pub fn add(&mut self, v: &Var) -> Result<(), AllocError>
        ensures { OnOk result (self.new ≡ with_var self.old v.now) }
    {
        if self.has(v) {
            return Ok(());
        }
        let copy = copied_var(v)?;
        self.push(copy)?;
        Ok(())
    }
}

fn is_key(key: &VarKey, w: &Var) -> bool
    ensures { result ≡ same_var_key key.now (var_key w.now) }
{
    let own = var_key(w);
    key.namesakes.name.0 == own.namesakes.name.0
        && key.namesakes.index == own.namesakes.index
        && key.digest == own.digest
}
