// Symbols, and the table of sorts and symbols that are declared.

ghost use Rattle.std.specs.Prelude.{◌≡◌, ◌++◌, ◌∷◌, [], ◌==◌, is_ok, is_some, IfOk, IfErr, OnOk, None, if◌then◌else◌};
ghost use Rattle.std.specs.Option.{option_copied};
ghost use Rattle.std.specs.List.{list_any};
ghost use Rattle.std.specs.Map.{lookup};
ghost use Rattle.ath_sorts.specs.Sorts.{occurs};
ghost use Rattle.ath_sorts.specs.Signature.{arity_of, symbol_of, initial};
ghost use Rattle.ath_sorts.specs.Declaring.{error_of, all_small, domain_fault, loose_faults, symbol_fault, use_fault, use_faults, with_sort, with_symbol};
ghost use Rattle.ath_sorts.specs.Answers.{MatchFault, IsFlaw};
ghost use Rattle.ath_sorts.specs.declared.signature.SigError.TheVariants.{Memory};

use crate::limits::{MOST_WIDTH, is_within_limits};
use crate::sorts::{BOOLEAN, SVar, Sort, Sym, con, copied, occurs_in};
use indexmap::IndexMap;
use sqlite_items::Items;
use std::alloc::{AllocError, Global};
use std::marker::Model;
use thiserror::Error;

/// A symbol: its sort parameters, and the sorts of its arguments and of its result over them.
#[derive(Drop)]
pub struct Symbol {
    pub name: Sym,
    pub params: Items<Sym>,
    pub args: Items<Sort>,
    pub result: Sort,
}

/// What is wrong with a declaration. A sort variable that isn't listed is told from a constructor that isn't there.
#[derive(Debug, Drop)]
pub enum Flaw {
    Redeclared(Sym),
    TooWide(Sym),
    UnknownVariable(Sym),
    UnknownSort(Sym),
    Arity(Sym),
    SortTooLarge,
    LooseParam(Sym),
}

/// Why a declaration is refused.
#[derive(Debug, Drop, Error)]
pub enum SigError {
    #[error("this name is declared before")]
    Redeclared(Sym),
    #[error("more than 64 parameters or arguments")]
    TooWide(Sym),
    #[error("no such sort")]
    UnknownSort(Sym),
    #[error("another number of arguments than the sort has")]
    Arity(Sym),
    #[error("a sort is above the limits")]
    SortTooLarge,
    #[error("a parameter occurs neither in an argument nor in the result")]
    LooseParam(Sym),
    #[error("out of memory")]
    Memory,
}

impl From<AllocError> for SigError {
    ghost from_gives = { λ _ e. e ≡ Memory };

    fn from(_error: AllocError) -> SigError {
        SigError::Memory
    }
}

impl From<Flaw> for SigError {
    ghost from_gives = { λ f e. e ≡ error_of f };

    fn from(flaw: Flaw) -> SigError {
        match flaw {
            Flaw::Redeclared(name) => SigError::Redeclared(name),
            Flaw::TooWide(name) => SigError::TooWide(name),
            Flaw::UnknownVariable(name) => SigError::UnknownSort(name),
            Flaw::UnknownSort(name) => SigError::UnknownSort(name),
            Flaw::Arity(name) => SigError::Arity(name),
            Flaw::SortTooLarge => SigError::SortTooLarge,
            Flaw::LooseParam(name) => SigError::LooseParam(name),
        }
    }
}

/// The sort constructors and symbols that are declared, by name.
#[derive(Drop)]
pub struct Signature {
    sorts: IndexMap<Sym, usize>,
    symbols: IndexMap<Sym, Symbol>,
}

impl Model for Signature {
    ghost use Rattle.ath_sorts.specs.Signature.{Signature as Declared};
    ghost use Rattle.std.specs.Prelude.{map};
    ghost use Rattle.ath_sorts.specs.Kept.{AreNamed};
    ghost use Rattle.ath_sorts.specs.contracts.sorts.Sort as sort;
    ghost use Rattle.std.specs.Coded.{codes};

    ghost Value = { Declared };

    ghost coded = { Prim.hlevel (codes, sort.the_row.coded) };

    ghost view = { λ s. record { sorts = s.sorts.entries; symbols = map (λ e. e.1) s.symbols.entries } };

    ghost invariant = { λ s. AreNamed s.symbols.entries };
}

impl Signature {
    /// The signature that is there at first.
    pub fn new(alloc: Global) -> Result<Signature, AllocError>
        ensures { IfOk result (λ s. s ≡ initial) }
    {
        let mut sorts = IndexMap::new(alloc);
        sorts.insert(BOOLEAN, 0)?;
        let mut symbols = IndexMap::new(alloc);
        let boolean = con(alloc, BOOLEAN, Items::new(alloc))?;
        let truth = symbol_over(alloc, Sym(1), &[], &[], &boolean)?;
        symbols.insert(Sym(1), truth)?;
        let falsity = symbol_over(alloc, Sym(2), &[], &[], &boolean)?;
        symbols.insert(Sym(2), falsity)?;
        Ok(Signature { sorts, symbols })
    }

    /// The number of arguments of the sort constructor of this name.
    pub fn sort_arity(&self, name: Sym) -> Option<usize>
        ensures { result ≡ arity_of self.now name }
    {
        self.sorts.get(&name).copied()
    }

    /// The symbol of this name.
    pub fn symbol(&self, name: Sym) -> Option<&Symbol>
        ensures { option_copied result ≡ symbol_of self.now name }
    {
        self.symbols.get(&name)
    }

    /// Adds a sort constructor with so many arguments.
    pub fn add_domain(&mut self, _alloc: Global, name: Sym, arity: usize) -> Result<(), SigError>
        ensures answer { MatchFault (domain_fault self.old name arity) result }
        ensures after { self.new ≡ (if is_ok result then with_sort self.old name arity else self.old) }
    {
        self.check_domain(name, arity)?;
        file(&mut self.sorts, name, arity)
    }

    /// Refuses a sort constructor as `add_domain` does, and adds nothing.
    pub fn check_domain(&self, name: Sym, arity: usize) -> Result<(), Flaw>
        ensures { IsFlaw (domain_fault self.now name arity) result }
    {
        if self.sort_arity(name).is_some() {
            return Err(Flaw::Redeclared(name));
        }
        if arity > MOST_WIDTH {
            return Err(Flaw::TooWide(name));
        }
        Ok(())
    }

    /// Adds a symbol. Its written variables are to be among `params`, which differ.
    pub fn add_symbol(
        &mut self,
        alloc: Global,
        name: Sym,
        params: &Vec<Sym>,
        args: &Vec<Sort>,
        result_sort: &Sort,
    ) -> Result<(), SigError>
        ensures answer { MatchFault (symbol_fault self.old name params.now.items args.now.items result_sort.now) result }
        ensures after { self.new ≡ (if is_ok result then with_symbol self.old (record { name = name; params = params.now.items; args = args.now.items; result = result_sort.now }) else self.old) }
    {
        self.check_symbol(name, params, args, result_sort)?;
        let symbol = symbol_over(alloc, name, params, args, result_sort)?;
        file(&mut self.symbols, name, symbol)
    }

    /// Whether there is a symbol of this name.
    pub fn has_symbol(&self, name: Sym) -> bool
        ensures { result ≡ is_some (symbol_of self.now name) }
    {
        self.symbol(name).is_some()
    }

    /// Refuses a symbol as `add_symbol` does, and adds nothing.
    pub fn check_symbol(
        &self,
        name: Sym,
        params: &[Sym],
        args: &[Sort],
        result_sort: &Sort,
    ) -> Result<(), Flaw>
        ensures { IsFlaw (symbol_fault self.now name params.now args.now result_sort.now) result }
    {
        if self.has_symbol(name) {
            return Err(Flaw::Redeclared(name));
        }
        if params.len() > MOST_WIDTH || args.len() > MOST_WIDTH {
            return Err(Flaw::TooWide(name));
        }
        self.check_uses(params, args)?;
        self.check_use(params, result_sort)?;
        if !are_within_limits(args, result_sort) {
            return Err(Flaw::SortTooLarge);
        }
        check_loose(params, args, result_sort)
    }

    fn check_uses(&self, params: &[Sym], sorts: &[Sort]) -> Result<(), Flaw>
        ensures { IsFlaw (use_faults self.now params.now sorts.now) result }
    {
        for sort in sorts {
            self.check_use(params, sort)?;
        }
        Ok(())
    }

    fn check_use(&self, params: &[Sym], sort: &Sort) -> Result<(), Flaw>
        ensures { IsFlaw (use_fault self.now params.now sort.now) result }
    {
        match sort {
            Sort::Var(SVar::Made(_)) => Ok(()),
            Sort::Var(SVar::Written(param)) => {
                if params.contains(param) {
                    Ok(())
                } else {
                    Err(Flaw::UnknownVariable(*param))
                }
            }
            Sort::Con(name, args) => {
                let Some(arity) = self.sort_arity(*name) else {
                    return Err(Flaw::UnknownSort(*name));
                };
                if arity != args.len() {
                    return Err(Flaw::Arity(*name));
                }
                for arg in args.as_slice() {
                    self.check_use(params, arg)?;
                }
                Ok(())
            }
        }
    }
}

/// Adds the value under a name that has none yet.
fn file<V: Drop>(table: &mut IndexMap<Sym, V>, name: Sym, value: V) -> Result<(), SigError>
    requires { lookup (λ k. name.0 == k.0) table.old.entries ≡ None }
    ensures ok { OnOk result (table.new.entries ≡ table.old.entries ++ (name, value) ∷ []) }
    ensures err { IfErr result (λ e. (e ≡ SigError.Memory) × (table.new.entries ≡ table.old.entries)) }
{
    match table.insert(name, value) {
        Ok(_) => Ok(()),
        Err(_) => Err(SigError::Memory),
    }
}

#[tactic(auto, using(crate::proofs::SignatureLaws::with_last))]
fn are_within_limits(args: &[Sort], result_sort: &Sort) -> bool
    ensures { result ≡ all_small (args.now ++ result_sort.now ∷ []) }
{
    for arg in args {
        if !is_within_limits(arg) {
            return false;
        }
    }
    is_within_limits(result_sort)
}

/// Refuses the first parameter that occurs in no argument and not in the result.
fn check_loose(params: &[Sym], args: &[Sort], result_sort: &Sort) -> Result<(), Flaw>
    ensures { IsFlaw (loose_faults (args.now ++ result_sort.now ∷ []) params.now) result }
{
    for param in params {
        if !occurs_among(*param, args, result_sort) {
            return Err(Flaw::LooseParam(*param));
        }
    }
    Ok(())
}

#[tactic(auto, using(crate::proofs::SignatureLaws::with_last))]
fn occurs_among(param: Sym, args: &[Sort], result_sort: &Sort) -> bool
    ensures { result ≡ list_any (occurs (SVar.Written param)) (args.now ++ result_sort.now ∷ []) }
{
    for arg in args {
        if occurs_in(SVar::Written(param), arg) {
            return true;
        }
    }
    occurs_in(SVar::Written(param), result_sort)
}

fn symbol_over(
    alloc: Global,
    name: Sym,
    params: &[Sym],
    args: &[Sort],
    result_sort: &Sort,
) -> Result<Symbol, AllocError>
    ensures { IfOk result (λ s. s ≡ record { name = name; params = params.now; args = args.now; result = result_sort.now }) }
{
    let params = Items::from_slice(alloc, params)?;
    let mut copies = Items::new(alloc);
    for arg in args {
        copies.push(copied(arg)?)?;
    }
    Ok(Symbol {
        name,
        params,
        args: copies,
        result: copied(result_sort)?,
    })
}
