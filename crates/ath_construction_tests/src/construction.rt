// Constructions, on small stores.

ghost use Rattle.std.specs.Prelude.{◌≡◌, ◌<◌, length, IfOk};
ghost use Rattle.ath_trees.specs.Tree.{var};
ghost use Rattle.ath_terms.specs.Trees.{Grows, IsTerm};

use ath_construction::{app, ascribe, atom, connective, equation, quantify, universal_closure};
use ath_sorts::sorts::{BOOLEAN, con, is_same};
use ath_sorts::{SVar, Signature, Sort, Sym};
use ath_terms::{BuildError, Fresh, SentNode, Store, TermNode};
use ath_trees::{Conn, Quant, SentId, TermId, Var};
use sqlite_items::Items;
use std::alloc::{AllocError, Global};
use std::test::Fail;

const X: Sym = Sym(150);

const N: Sym = Sym(151);

const F: Sym = Sym(152);

const G: Sym = Sym(153);

fn var_of(name: Sym, sort: Sort) -> Var
    ensures { result ≡ record { name = name; index = 0; sort = sort } }
{
    Var {
        name,
        index: 0,
        sort,
    }
}

fn variable(store: &mut Store, name: Sym, sort: Sort) -> Result<TermId, Fail>
    ensures grows { Grows store.old store.new }
    ensures tree { IfOk result (λ t. IsTerm store.new t.0 (var (record { name = name; index = 0; sort = sort }))) }
{
    let v = var_of(name, sort);
    let term = store.var(&v)?;
    Ok(term)
}

/// The equation of a term with itself.
fn reflexive(alloc: Global, store: &mut Store, t: TermId) -> Result<SentId, Fail>
    requires { t.0 < length store.old.terms }
    ensures grows { Grows store.old store.new }
    ensures inside { IfOk result (λ r. r.0 < length store.new.sents) }
{
    let sent = equation(alloc, store, t, t)?;
    Ok(sent)
}

fn constant(alloc: Global, name: Sym) -> Result<Sort, AllocError> {
    con(alloc, name, Items::new(alloc))
}

#[test]
fn an_equation_makes_sorts_one(rt: HostRuntime) -> Result<(), Fail> {
    let alloc = rt.alloc();
    let mut store = Store::new(alloc);
    let made = SVar::Made(1);
    let s = variable(&mut store, X, Sort::Var(made))?;
    let t = variable(&mut store, N, constant(alloc, N)?)?;
    let equation = equation(alloc, &mut store, s, t)?;
    let SentNode::Eq(left, right) = store.sent(equation) else {
        return Err("no equation".into());
    };
    assert!(rt; is_same(store.sort_of(*left), store.sort_of(*right)));
    assert!(rt; is_same(store.sort_of(s), &Sort::Var(made)));
    Ok(())
}

#[test]
fn refusals_show_what_was_listed(rt: HostRuntime) -> Result<(), Fail> {
    let alloc = rt.alloc();
    let mut store = Store::new(alloc);
    let t = variable(&mut store, X, constant(alloc, N)?)?;
    let u = variable(&mut store, N, constant(alloc, BOOLEAN)?)?;
    match equation(alloc, &mut store, t, u) {
        Err(BuildError::SortClash(a, b)) => {
            assert!(rt;
                is_same(&a, &constant(alloc, N)?) && is_same(&b, &constant(alloc, BOOLEAN)?)
            );
        }
        _ => return Err("no clash".into()),
    }
    match atom(alloc, &mut store, t) {
        Err(BuildError::NotBoolean(shown)) => assert_eq!(rt; shown, t),
        _ => return Err("an atom".into()),
    }
    match connective(alloc, &mut store, Conn::And, &Vec::new(alloc)) {
        Err(BuildError::ArgCount(2, 0)) => Ok(()),
        _ => Err("a connective of no parts".into()),
    }
}

/// A signature with a sort N, a symbol f from N to N, and one g from any sort to itself.
fn signature(alloc: Global) -> Result<Signature, Fail> {
    let mut sig = Signature::new(alloc)?;
    sig.add_domain(alloc, N, 0)?;
    let mut args = Vec::new(alloc);
    args.push(constant(alloc, N)?)?;
    sig.add_symbol(alloc, F, &Vec::new(alloc), &args, &constant(alloc, N)?)?;
    let mut params = Vec::new(alloc);
    params.push(X)?;
    let mut any = Vec::new(alloc);
    any.push(Sort::Var(SVar::Written(X)))?;
    sig.add_symbol(alloc, G, &params, &any, &Sort::Var(SVar::Written(X)))?;
    Ok(sig)
}

/// The application of a declared symbol to one term.
fn applied(
    alloc: Global,
    store: &mut Store,
    sig: &Signature,
    f: Sym,
    t: TermId,
) -> Result<TermId, Fail>
    requires { t.0 < length store.old.terms }
    ensures grows { Grows store.old store.new }
    ensures inside { IfOk result (λ r. r.0 < length store.new.terms) }
{
    let mut fresh = Fresh { var: 1, sort: 9 };
    let mut args = Vec::new(alloc);
    args.push(t)?;
    if sig.symbol(f).is_none() {
        return Err("no symbol".into());
    }
    let made = app(alloc, store, sig, &mut fresh, f, &args)?;
    Ok(made)
}

#[test]
fn an_application_has_the_declared_sort(rt: HostRuntime) -> Result<(), Fail> {
    let alloc = rt.alloc();
    let sig = signature(alloc)?;
    let mut store = Store::new(alloc);
    let x = variable(&mut store, X, Sort::Var(SVar::Made(1)))?;
    let made = applied(alloc, &mut store, &sig, F, x)?;
    assert!(rt; is_same(store.sort_of(made), &constant(alloc, N)?));
    assert_eq!(rt; store.size(made), 2);
    assert_eq!(rt; store.depth(made), 2);
    let TermNode::App(f, _, args) = store.term(made) else {
        return Err("no application".into());
    };
    assert_eq!(rt; *f, F);
    assert_eq!(rt; args.as_slice().len(), 1);
    let found = store.term_vars(alloc, made)?;
    let vars = found.as_slice();
    if vars.len() != 1 {
        return Err("not one variable".into());
    }
    assert!(rt; is_same(&vars[0].sort, &constant(alloc, N)?));
    Ok(())
}

#[test]
fn a_part_that_stays_as_it_is_keeps_its_number(rt: HostRuntime) -> Result<(), Fail> {
    let alloc = rt.alloc();
    let sig = signature(alloc)?;
    let mut store = Store::new(alloc);
    let x = variable(&mut store, X, constant(alloc, N)?)?;
    let same = ascribe(alloc, &mut store, x, &constant(alloc, N)?)?;
    assert_eq!(rt; same, x);
    let made = applied(alloc, &mut store, &sig, G, x)?;
    assert!(rt; is_same(store.sort_of(made), &constant(alloc, N)?));
    let TermNode::App(_, _, args) = store.term(made) else {
        return Err("no application".into());
    };
    let parts = args.as_slice();
    if parts.len() != 1 {
        return Err("not one argument".into());
    }
    assert_eq!(rt; parts[0], x);
    Ok(())
}

#[test]
fn an_ascription_makes_the_sort(rt: HostRuntime) -> Result<(), Fail> {
    let alloc = rt.alloc();
    let mut store = Store::new(alloc);
    let x = variable(&mut store, X, Sort::Var(SVar::Made(1)))?;
    let made = ascribe(alloc, &mut store, x, &constant(alloc, N)?)?;
    assert!(rt; is_same(store.sort_of(made), &constant(alloc, N)?));
    assert!(rt; is_same(store.sort_of(x), &Sort::Var(SVar::Made(1))));
    let TermNode::Var(v) = store.term(made) else {
        return Err("no variable".into());
    };
    assert_eq!(rt; v.name, X);
    Ok(())
}

#[test]
fn an_atom_is_boolean(rt: HostRuntime) -> Result<(), Fail> {
    let alloc = rt.alloc();
    let mut store = Store::new(alloc);
    let x = variable(&mut store, X, Sort::Var(SVar::Made(1)))?;
    let sent = atom(alloc, &mut store, x)?;
    let SentNode::Atom(t) = store.sent(sent) else {
        return Err("no atom".into());
    };
    assert!(rt; is_same(store.sort_of(*t), &constant(alloc, BOOLEAN)?));
    Ok(())
}

#[test]
fn a_quantifier_binds_what_has_its_name(rt: HostRuntime) -> Result<(), Fail> {
    let alloc = rt.alloc();
    let mut store = Store::new(alloc);
    let x = variable(&mut store, X, constant(alloc, N)?)?;
    let body = reflexive(alloc, &mut store, x)?;
    let v = var_of(X, Sort::Var(SVar::Made(1)));
    let sent = quantify(alloc, &mut store, Quant::Exists, &v, body)?;
    let SentNode::Quant(q, bound, inner) = store.sent(sent) else {
        return Err("no quantifier".into());
    };
    assert_eq!(rt; *q, Quant::Exists);
    assert_eq!(rt; *inner, body);
    assert!(rt; is_same(&bound.sort, &constant(alloc, N)?));
    let found = store.free_vars(alloc, sent)?;
    assert_eq!(rt; found.len(), 0);
    Ok(())
}

#[test]
fn a_binder_is_renamed_where_it_would_bind_another(rt: HostRuntime) -> Result<(), Fail> {
    let alloc = rt.alloc();
    let mut store = Store::new(alloc);
    let x = variable(&mut store, X, Sort::Var(SVar::Made(1)))?;
    let body = reflexive(alloc, &mut store, x)?;
    let v = var_of(X, constant(alloc, N)?);
    let all = store.raw_sent(alloc, &SentNode::Quant(Quant::Forall, v, body))?;
    let y = variable(&mut store, X, constant(alloc, N)?)?;
    let other = reflexive(alloc, &mut store, y)?;
    let mut parts = Vec::new(alloc);
    parts.push(all)?;
    parts.push(other)?;
    let sent = connective(alloc, &mut store, Conn::Or, &parts)?;
    let SentNode::Conn(c, ids) = store.sent(sent) else {
        return Err("no connective".into());
    };
    assert_eq!(rt; *c, Conn::Or);
    let made = ids.as_slice();
    assert_eq!(rt; made.len(), 2);
    let SentNode::Quant(_, bound, _) = store.sent(made[0]) else {
        return Err("no quantifier".into());
    };
    assert_eq!(rt; bound.index, 1);
    assert_eq!(rt; made[1], other);
    Ok(())
}

#[test]
fn a_sentence_is_closed_over_its_free_variables(rt: HostRuntime) -> Result<(), Fail> {
    let alloc = rt.alloc();
    let mut store = Store::new(alloc);
    let x = variable(&mut store, X, constant(alloc, N)?)?;
    let y = variable(&mut store, F, constant(alloc, N)?)?;
    let body = equation(alloc, &mut store, x, y)?;
    let all = universal_closure(alloc, &mut store, body)?;
    let SentNode::Quant(quant, outer, rest) = store.sent(all) else {
        return Err("no quantifier".into());
    };
    assert_eq!(rt; *quant, Quant::Forall);
    assert_eq!(rt; outer.name, X);
    let SentNode::Quant(_, inner, last) = store.sent(*rest) else {
        return Err("no second quantifier".into());
    };
    assert_eq!(rt; inner.name, F);
    assert!(rt; matches!(store.sent(*last), SentNode::Eq(..)));
    let again = universal_closure(alloc, &mut store, all)?;
    assert_eq!(rt; again, all);
    Ok(())
}
