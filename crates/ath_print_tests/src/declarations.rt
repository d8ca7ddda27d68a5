// Declarations and sort texts, case by case. A sort is known by its number: Boolean has 0, and its constants 1 and 2.

use ath_declarations::{DeclareError, declare, declare_domain, sort_of_text};
use ath_sorts::{Flaw, SVar, SigError, Signature, Sort, Sym};
use ath_syntax::SortText;
use sqlite_items::Items;
use std::alloc::{AllocError, Global};
use std::process::Abort;
use std::test::Fail;

const DATUM: Sym = Sym(10);

const LIST: Sym = Sym(11);

const PAIR: Sym = Sym(12);

const MISSING: Sym = Sym(13);

const FIRST: Sym = Sym(20);

const SECOND: Sym = Sym(21);

const F: Sym = Sym(30);

const G: Sym = Sym(31);

const H: Sym = Sym(32);

/// A number for the kind of an answer, and the name in it.
type Told = (usize, usize);

fn told_flaw(flaw: Flaw) -> Told {
    match flaw {
        Flaw::Redeclared(name) => (1, name.0),
        Flaw::TooWide(name) => (2, name.0),
        Flaw::UnknownSort(name) => (3, name.0),
        Flaw::Arity(name) => (4, name.0),
        Flaw::SortTooLarge => (5, 0),
        Flaw::LooseParam(name) => (6, name.0),
        Flaw::UnknownVariable(name) => (8, name.0),
    }
}

fn told(answer: Result<(), DeclareError>) -> Told {
    match answer {
        Ok(_) => (0, 0),
        Err(DeclareError::Flawed(flaw)) => told_flaw(flaw),
        Err(DeclareError::Memory) => (7, 0),
    }
}

fn told_sort(answer: Result<Sort, SigError>) -> Told {
    match answer {
        Ok(_) => (0, 0),
        Err(SigError::UnknownSort(name)) => (3, name.0),
        Err(SigError::Arity(name)) => (4, name.0),
        Err(SigError::SortTooLarge) => (5, 0),
        Err(_) => (7, 0),
    }
}

/// A sort text as data.
#[derive(Clone, Copy)]
enum Written {
    Name(Sym),
    Var(Sym),
    /// this name in so many lists
    Lists(Sym, usize),
    /// a pair of names
    Pair(Sym, Sym),
    /// a list of a pair of names
    PairInList(Sym, Sym),
    /// a pair of sort variables
    VarPair(Sym, Sym),
}

fn listed(alloc: Global, item: SortText) -> Result<SortText, AllocError> {
    let mut args = Items::new(alloc);
    args.push(item)?;
    Ok(SortText::Con(LIST, args))
}

fn paired(alloc: Global, first: SortText, second: SortText) -> Result<SortText, AllocError> {
    let mut args = Items::new(alloc);
    args.push(first)?;
    args.push(second)?;
    Ok(SortText::Con(PAIR, args))
}

fn nested(alloc: Global, name: Sym, lists: usize) -> Result<SortText, AllocError> {
    let mut text = SortText::Name(name);
    for _ in 0..lists {
        text = listed(alloc, text)?;
    }
    Ok(text)
}

fn text_of(alloc: Global, sort: Written) -> Result<SortText, AllocError> {
    match sort {
        Written::Name(n) => Ok(SortText::Name(n)),
        Written::Var(v) => Ok(SortText::Var(v)),
        Written::Lists(n, lists) => nested(alloc, n, lists),
        Written::Pair(n, m) => paired(alloc, SortText::Name(n), SortText::Name(m)),
        Written::PairInList(n, m) => {
            let pair = paired(alloc, SortText::Name(n), SortText::Name(m))?;
            listed(alloc, pair)
        }
        Written::VarPair(v, w) => paired(alloc, SortText::Var(v), SortText::Var(w)),
    }
}

/// A domain of so many sort variables is declared.
fn domain(alloc: Global, sig: &mut Signature, name: Sym, width: usize) -> Result<Told, AllocError> {
    let mut vars = Vec::new(alloc);
    for i in 0..width {
        vars.push(Sym(i))?;
    }
    Ok(told(declare_domain(alloc, sig, name, vars.as_slice())))
}

const DOMAINS: [(Sym, usize, Told); 6] = [
    (DATUM, 0, (0, 0)),
    (LIST, 1, (0, 0)),
    (PAIR, 2, (0, 0)),
    (DATUM, 64, (1, 10)),
    (Sym(14), 64, (0, 0)),
    (Sym(15), 65, (2, 15)),
];

/// The constructors `DATUM`, `(LIST 'a)` and `(PAIR 'a 'b)`, and a wide one.
fn signature(rt: &(impl Abort + AllocGlobal)) -> Result<Signature, AllocError> {
    let mut sig = Signature::new(rt.alloc())?;
    for (name, width, answer) in DOMAINS {
        assert_eq!(rt; domain(rt.alloc(), &mut sig, name, width)?, answer);
    }
    Ok(sig)
}

/// Names, the list of parameters, the only argument, the result, and what is answered.
type Declaration = (
    &'static [Sym],
    Option<&'static [Sym]>,
    Option<Written>,
    Written,
    Told,
);

const PLAIN: Written = Written::Name(DATUM);

/// They are declared one after the other, over one signature.
const DECLARATIONS: [Declaration; 10] = [
    (&[F], None, Some(Written::Name(MISSING)), PLAIN, (3, 13)),
    (&[F], None, Some(Written::Lists(LIST, 1)), PLAIN, (4, 11)),
    (&[F], Some(&[FIRST]), None, PLAIN, (6, 20)),
    (&[F], Some(&[FIRST]), None, Written::Var(SECOND), (8, 21)),
    (&[F, G, F], None, None, PLAIN, (1, 30)),
    (&[F, H], None, None, PLAIN, (0, 0)),
    (&[G, H], None, None, PLAIN, (1, 32)),
    // the sort is refused at the first name, before the second is looked at
    (&[G, H], None, None, Written::Name(MISSING), (3, 13)),
    (
        &[G],
        None,
        Some(Written::VarPair(SECOND, FIRST)),
        Written::Var(SECOND),
        (0, 0),
    ),
    (&[G], None, None, PLAIN, (1, 31)),
];

fn declaration(alloc: Global, sig: &mut Signature, row: &Declaration) -> Result<Told, AllocError> {
    let (names, list, arg, result, _) = row;
    let list = match list {
        Some(params) => Some(Items::from_slice(alloc, params)?),
        None => None,
    };
    let mut args = Vec::new(alloc);
    if let Some(sort) = arg {
        args.push(text_of(alloc, *sort)?)?;
    }
    let result = text_of(alloc, *result)?;
    Ok(told(declare(alloc, sig, names, &list, args.as_slice(), &result)))
}

#[test]
fn declarations(rt: HostRuntime) -> Result<(), Fail> {
    let mut sig = signature(&rt)?;
    for row in DECLARATIONS {
        assert_eq!(rt; declaration(rt.alloc(), &mut sig, &row)?, row.4);
    }
    let Some(symbol) = sig.symbol(G) else {
        return Err(Fail::from("no symbol"));
    };
    assert!(rt; symbol.params.as_slice() == [SECOND, FIRST].as_slice());
    assert!(rt; matches!(symbol.result, Sort::Var(SVar::Written(SECOND))));
    Ok(())
}

const SORTS: [(Written, Told); 5] = [
    (Written::Pair(LIST, MISSING), (4, 11)),
    (Written::PairInList(MISSING, LIST), (3, 13)),
    (Written::VarPair(FIRST, FIRST), (0, 0)),
    (Written::Lists(DATUM, 63), (0, 0)),
    (Written::Lists(DATUM, 64), (5, 0)),
];

#[test]
fn sorts_of_texts(rt: HostRuntime) -> Result<(), Fail> {
    let sig = signature(&rt)?;
    for (sort, answer) in SORTS {
        let text = text_of(rt.alloc(), sort)?;
        assert_eq!(rt; told_sort(sort_of_text(rt.alloc(), &sig, &text)), answer);
    }
    Ok(())
}
