// Domains and symbols are declared.

ghost use Rattle.std.specs.Prelude.{◌≡◌, ◌++◌, ◌∷◌, [], IfOk, OnErr, OnOk, map, is_ok, true, Ok};
ghost use Rattle.ath_declarations.specs.Outcomes.{MatchChange, IsBegun};
ghost use Rattle.ath_declarations.specs.Declarations.{declared, domain_declared, with_symbols, params_of};
ghost use Rattle.ath_declarations.specs.Steps.{HasSome, MatchTest};
ghost use Rattle.ath_declarations.specs.Texts.{sort_of};
ghost use Rattle.ath_declarations.specs.declared.declaring.DeclareError.TheVariants.{Flawed, Memory};

use crate::checks::find_taken;
use crate::params::params_over;
use crate::texts::spelled;
use ath_sorts::{Flaw, Signature, Sort, Sym};
use ath_syntax::SortText;
use sqlite_items::Items;
use std::alloc::{AllocError, Global};
use thiserror::Error;

/// Why a declaration is refused: for a flaw, which tells a sort variable from a constructor, or for want of memory.
#[derive(Debug, Drop, Error)]
pub enum DeclareError {
    #[error("the declaration is flawed")]
    Flawed(Flaw),
    #[error("out of memory")]
    Memory,
}

impl From<Flaw> for DeclareError {
    ghost from_gives = { λ f e. e ≡ Flawed f };

    fn from(flaw: Flaw) -> DeclareError {
        DeclareError::Flawed(flaw)
    }
}

impl From<AllocError> for DeclareError {
    ghost from_gives = { λ _ e. e ≡ Memory };

    fn from(_error: AllocError) -> DeclareError {
        DeclareError::Memory
    }
}

/// Declares a domain: adds the sort constructor of this name, with an argument for each sort variable of its header.
/// Refusals are `Redeclared` and `TooWide` of the name. After an error the signature is as it was.
pub fn declare_domain(
    alloc: Global,
    sig: &mut Signature,
    name: Sym,
    vars: &[Sym],
) -> Result<(), DeclareError>
    ensures outcome { MatchChange (domain_declared sig.old name vars.now) sig.old sig.new result }
    ensures unchanged { OnErr result (sig.new ≡ sig.old) }
{
    sig.check_domain(name, vars.len())?;
    if sig.add_domain(alloc, name, vars.len()).is_err() {
        return Err(DeclareError::Memory);
    }
    Ok(())
}

/// What each of the names of a declaration becomes: its parameters, and its sorts over them.
#[derive(Drop)]
struct Shape {
    params: Vec<Sym>,
    args: Vec<Sort>,
    result: Sort,
}

/// Declares symbols, together or not at all. Their parameters are those of the list, or without a list the written
/// sort variables of the sorts in order of first occurrence. The names are tested one after the other, each in the
/// order of `Signature::add_symbol`, and the first refusal refuses them all; a name listed twice is `Redeclared`. After a
/// refusal the signature is as it was; after `Memory` it may have the first few of the names.
pub fn declare(
    alloc: Global,
    sig: &mut Signature,
    names: &[Sym],
    list: &Option<Items<Sym>>,
    args: &[SortText],
    result_sort: &SortText,
) -> Result<(), DeclareError>
    ensures outcome { MatchChange (declared sig.old names.now list.now args.now result_sort.now) sig.old sig.new result }
    ensures begun { OnErr result (IsBegun sig.old sig.new names.now list.now args.now result_sort.now) }
{
    let shape = shape_of(alloc, list, args, result_sort)?;
    check_names(alloc, sig, names, &shape)?;
    add_names(alloc, sig, names, &shape)?;
    Ok(())
}

/// Refuses symbols as `declare` does, and adds none.
pub fn check_symbols(
    alloc: Global,
    sig: &Signature,
    names: &[Sym],
    list: &Option<Items<Sym>>,
    args: &[SortText],
    result_sort: &SortText,
) -> Result<(), DeclareError>
    ensures { MatchTest (declared sig.now names.now list.now args.now result_sort.now) result }
{
    let shape = shape_of(alloc, list, args, result_sort)?;
    check_names(alloc, sig, names, &shape)
}

fn shape_of(
    alloc: Global,
    list: &Option<Items<Sym>>,
    args: &[SortText],
    result_sort: &SortText,
) -> Result<Shape, AllocError>
    ensures args { IfOk result (λ s. s.args.items ≡ map sort_of args.now) }
    ensures sort { IfOk result (λ s. s.result ≡ sort_of result_sort.now) }
    ensures params { IfOk result (λ s. s.params.items ≡ params_of list.now (map sort_of args.now ++ sort_of result_sort.now ∷ [])) }
{
    let args = spelled_all(alloc, args)?;
    let result = spelled(alloc, result_sort)?;
    let params = params_over(alloc, list, &args, &result)?;
    Ok(Shape {
        params,
        args,
        result,
    })
}

fn spelled_all(alloc: Global, texts: &[SortText]) -> Result<Vec<Sort>, AllocError>
    ensures { IfOk result (λ s. s.items ≡ map sort_of texts.now) }
{
    let mut sorts = Vec::new(alloc);
    for text in texts {
        sorts.push(spelled(alloc, text)?)?;
    }
    Ok(sorts)
}

/// Tests all names before the first is added. The tests that don't speak of the name are those of the first.
fn check_names(
    alloc: Global,
    sig: &Signature,
    names: &[Sym],
    shape: &Shape,
) -> Result<(), DeclareError>
    ensures { MatchTest (with_symbols sig.now names.now shape.now.params.items shape.now.args.items shape.now.result) result }
{
    if names.is_empty() {
        return Ok(());
    }
    sig.check_symbol(names[0], &shape.params, &shape.args, &shape.result)?;
    match find_taken(alloc, sig, names)? {
        Some(name) => Err(DeclareError::Flawed(Flaw::Redeclared(name))),
        None => Ok(()),
    }
}

/// Adds names that pass their tests, so that the only error is want of memory.
fn add_names(
    alloc: Global,
    sig: &mut Signature,
    names: &[Sym],
    shape: &Shape,
) -> Result<(), AllocError>
    requires { is_ok (with_symbols sig.old names.now shape.now.params.items shape.now.args.items shape.now.result) ≡ true }
    ensures added { OnOk result (with_symbols sig.old names.now shape.now.params.items shape.now.args.items shape.now.result ≡ Ok sig.new) }
    ensures begun { OnErr result (HasSome sig.old sig.new names.now shape.now.params.items shape.now.args.items shape.now.result) }
{
    for name in names {
        let added = sig.add_symbol(alloc, *name, &shape.params, &shape.args, &shape.result);
        if added.is_err() {
            return Err(AllocError);
        }
    }
    Ok(())
}
