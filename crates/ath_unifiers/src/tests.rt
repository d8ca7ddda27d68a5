// Signatures and unification, case by case.
//
// Sorts are written behind their arguments: a letter from `u` on is a written variable, a digit a made one, `n` and `m`
// are constants, `l` has one argument and `p` two. A `;` makes a pair of the last two sorts.

use crate::{UnifyError, unify};
use ath_sorts::sorts::{SVar, Sort, Sym, con, is_same};
use ath_sorts::{SigError, Signature, SortSubst};
use sqlite_items::Items;
use std::alloc::{AllocError, Global};
use std::test::Fail;

fn name_of(letter: u8) -> Sym {
    Sym(usize::from(letter))
}

fn leaf_of(letter: u8) -> Sort {
    if letter < b'a' {
        Sort::Var(SVar::Made(u64::from(letter)))
    } else {
        Sort::Var(SVar::Written(name_of(letter)))
    }
}

/// Reads one letter: its arguments are taken from the sorts that are read, and its sort is put there.
fn read_letter(alloc: Global, read: &mut Vec<Sort>, letter: u8) -> Result<(), AllocError> {
    let mut args = Items::new(alloc);
    if letter == b'p' {
        if let Some(last) = read.pop() {
            if let Some(first) = read.pop() {
                args.push(first)?;
            }
            args.push(last)?;
        }
    }
    if letter == b'l' {
        if let Some(last) = read.pop() {
            args.push(last)?;
        }
    }
    if letter >= b'u' || letter < b'a' {
        read.push(leaf_of(letter))?;
    } else {
        read.push(con(alloc, name_of(letter), args)?)?;
    }
    Ok(())
}

fn read_sorts(alloc: Global, text: &[u8]) -> Result<Vec<Sort>, AllocError> {
    let mut read = Vec::new(alloc);
    for letter in text {
        read_letter(alloc, &mut read, *letter)?;
    }
    Ok(read)
}

fn read_pairs(alloc: Global, text: &[u8]) -> Result<Vec<(Sort, Sort)>, AllocError> {
    let mut read = Vec::new(alloc);
    let mut pairs = Vec::new(alloc);
    for letter in text {
        if *letter == b';' {
            pair_up(&mut read, &mut pairs)?;
        } else {
            read_letter(alloc, &mut read, *letter)?;
        }
    }
    Ok(pairs)
}

fn pair_up(read: &mut Vec<Sort>, pairs: &mut Vec<(Sort, Sort)>) -> Result<(), AllocError> {
    if let Some(right) = read.pop() {
        if let Some(left) = read.pop() {
            pairs.push((left, right))?;
        }
    }
    Ok(())
}

fn maps(found: &SortSubst, from: &Sort, to: &Sort) -> bool {
    let Sort::Var(v) = from else {
        return false;
    };
    match found.get(*v) {
        Some(image) => is_same(image, to),
        None => is_same(from, to),
    }
}

fn maps_all(found: &SortSubst, images: &[(Sort, Sort)]) -> bool {
    for image in images {
        if !maps(found, &image.0, &image.1) {
            return false;
        }
    }
    true
}

/// The number of the pair that clashes, 100 where a sort is too large, and 101 for a unifier with these images.
fn unified(alloc: Global, text: &[u8], images: &[u8]) -> Result<usize, AllocError> {
    let pairs = read_pairs(alloc, text)?;
    let images = read_pairs(alloc, images)?;
    match unify(alloc, &pairs) {
        Ok(found) => Ok(if maps_all(&found, &images) { 101 } else { 102 }),
        Err(UnifyError::Clash(at)) => Ok(at),
        Err(UnifyError::SortTooLarge) => Ok(100),
        Err(UnifyError::Memory) => Err(AllocError),
    }
}

#[test]
fn unifiers(rt: HostRuntime) -> Result<(), Fail> {
    let cases: [(&'static str, &'static str, usize); 14] = [
        ("nm;", "", 0),
        ("nnl;", "", 0),
        ("xxl;", "", 0),
        ("nn;xm;yx;yn;", "", 3),
        ("xyl;zx;yzl;nm;", "", 2),
        ("xxpynp;ym;", "", 1),
        ("", "xx;", 101),
        ("75;", "75;55;", 101),
        ("75;zz;yx;xz;7z;", "xy;yy;zy;5y;7y;", 101),
        ("zyl;yx;", "xy;yy;zyl;", 101),
        ("xypyxp;", "xx;yx;", 101),
        ("5x;xnl;", "5nl;xnl;", 101),
        ("xlylp5lnlp;5n;", "", 101),
        ("nlnlp nlnlp;xn;", "xn;", 101),
    ];
    for (pairs, images, want) in cases {
        assert_eq!(rt;
            unified(rt.alloc(), pairs.as_bytes(), images.as_bytes())?,
            want,
            "{pairs}"
        );
    }
    Ok(())
}

/// Pairs by which each variable from `first` on is two of the one before it.
fn chain(alloc: Global, pairs: &mut Vec<(Sort, Sort)>, first: u32) -> Result<(), AllocError> {
    let first = u64::from(first);
    for k in 0u64..60 {
        let mut twice = Items::new(alloc);
        twice.push(Sort::Var(SVar::Made(first + k)))?;
        twice.push(Sort::Var(SVar::Made(first + k)))?;
        pairs.push((
            Sort::Var(SVar::Made(first + k + 1)),
            con(alloc, Sym(7), twice)?,
        ))?;
    }
    Ok(())
}

fn is_too_large(alloc: Global, pairs: &Vec<(Sort, Sort)>) -> bool {
    matches!(&unify(alloc, pairs), Err(UnifyError::SortTooLarge))
}

/// A sort with so many nodes more than one.
fn wide(alloc: Global, more: usize) -> Result<Sort, AllocError> {
    let mut args = Items::new(alloc);
    for _ in 0..more {
        args.push(con(alloc, Sym(8), Items::new(alloc))?)?;
    }
    con(alloc, Sym(9), args)
}

/// A sort of a depth that is so much greater than one.
fn deep(alloc: Global, more: usize) -> Result<Sort, AllocError> {
    let mut sort = con(alloc, Sym(8), Items::new(alloc))?;
    for _ in 0..more {
        let mut args = Items::new(alloc);
        args.push(sort)?;
        sort = con(alloc, Sym(9), args)?;
    }
    Ok(sort)
}

fn is_image_too_large(alloc: Global, image: Sort) -> Result<bool, AllocError> {
    let mut pairs = Vec::new(alloc);
    pairs.push((Sort::Var(SVar::Made(1)), image))?;
    Ok(is_too_large(alloc, &pairs))
}

#[test]
fn large_sorts(rt: HostRuntime) -> Result<(), Fail> {
    let alloc = rt.alloc();
    assert!(rt;
        !is_image_too_large(alloc, wide(alloc, 999)?)?,
        "1,000 nodes"
    );
    assert!(rt;
        is_image_too_large(alloc, wide(alloc, 1000)?)?,
        "1,001 nodes"
    );
    assert!(rt; !is_image_too_large(alloc, deep(alloc, 63)?)?, "depth 64");
    assert!(rt; is_image_too_large(alloc, deep(alloc, 64)?)?, "depth 65");
    let mut pairs = Vec::new(alloc);
    chain(alloc, &mut pairs, 0)?;
    assert!(rt;
        is_too_large(alloc, &pairs),
        "a chain that doubles 60 times"
    );
    chain(alloc, &mut pairs, 100)?;
    pairs.push((Sort::Var(SVar::Made(60)), Sort::Var(SVar::Made(160))))?;
    assert!(rt;
        is_too_large(alloc, &pairs),
        "two chains that meet at their ends"
    );
    pairs.push((Sort::Var(SVar::Made(100)), Sort::Var(SVar::Made(60))))?;
    assert!(rt;
        matches!(&unify(alloc, &pairs), Err(UnifyError::Clash(121))),
        "one inside itself"
    );
    Ok(())
}

fn code(answer: &Result<(), SigError>) -> u8 {
    match answer {
        Ok(()) => 0,
        Err(SigError::Redeclared(_)) => 1,
        Err(SigError::TooWide(_)) => 2,
        Err(SigError::UnknownSort(_)) => 3,
        Err(SigError::Arity(_)) => 4,
        Err(SigError::SortTooLarge) => 5,
        Err(SigError::LooseParam(_)) => 6,
        Err(SigError::Memory) => 7,
    }
}

/// Declares a symbol over the parameters `x` and `y`, whose result is the last of the sorts.
fn declared(
    alloc: Global,
    sig: &mut Signature,
    name: usize,
    text: &[u8],
) -> Result<u8, AllocError> {
    let mut params = Vec::new(alloc);
    params.push(name_of(b'x'))?;
    params.push(name_of(b'y'))?;
    let mut args = read_sorts(alloc, text)?;
    match args.pop() {
        Some(result) => Ok(code(&sig.add_symbol(alloc, Sym(name), &params, &args, &result))),
        None => Ok(8),
    }
}

#[test]
fn declarations(rt: HostRuntime) -> Result<(), Fail> {
    let alloc = rt.alloc();
    let mut sig = Signature::new(alloc)?;
    assert_eq!(rt; code(&sig.add_domain(alloc, name_of(b'n'), 0)), 0);
    assert_eq!(rt; code(&sig.add_domain(alloc, name_of(b'l'), 1)), 0);
    assert_eq!(rt;
        code(&sig.add_domain(alloc, name_of(b'n'), 65)),
        1,
        "the first of two refusals"
    );
    assert_eq!(rt; code(&sig.add_domain(alloc, name_of(b'k'), 65)), 2);
    assert_eq!(rt; code(&sig.add_domain(alloc, name_of(b'k'), 64)), 0);
    let cases: [(usize, &'static str, u8); 6] = [
        (5, "xly", 0),
        (5, "xly", 1),
        (6, "zkx", 3),
        (6, "kzy", 4),
        (6, "xm", 3),
        (6, "xn", 6),
    ];
    for (name, text, want) in cases {
        assert_eq!(rt;
            declared(alloc, &mut sig, name, text.as_bytes())?,
            want,
            "{text}"
        );
    }
    assert!(rt; sig.symbol(Sym(5)).is_some() && sig.symbol(Sym(6)).is_none());
    assert!(rt; sig.sort_arity(name_of(b'k')) == Some(64));
    Ok(())
}
