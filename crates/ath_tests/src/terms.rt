// Connectives of two parts, and nodes on small stores.

ghost use Rattle.std.specs.Prelude.{◌<◌, length, IfOk};
ghost use Rattle.ath_trees.specs.Tree.{var};
ghost use Rattle.ath_terms.specs.Trees.{Grows, IsTerm};

use ath_sorts::sorts::{BOOLEAN, con};
use ath_sorts::{Sort, Sym};
use ath_terms::{SentNode, Store};
use ath_trees::{Binary, Conn, TermId, Var};
use sqlite_items::Items;
use std::alloc::{AllocError, Global};
use std::test::Fail;

const X: Sym = Sym(150);

const N: Sym = Sym(151);

const F: Sym = Sym(152);

fn variable(store: &mut Store, name: Sym, sort: Sort) -> Result<TermId, Fail>
    ensures grows { Grows store.old store.new }
    ensures tree { IfOk result (λ t. IsTerm store.new t.0 (var (record { name = name; index = 0; sort = sort }))) }
{
    let v = Var {
        name,
        index: 0,
        sort,
    };
    let term = store.var(&v)?;
    Ok(term)
}

fn constant(alloc: Global, name: Sym) -> Result<Sort, AllocError> {
    con(alloc, name, Items::new(alloc))
}

/// The application of f to two terms, as it is.
fn plain_pair(alloc: Global, store: &mut Store, x: TermId, y: TermId) -> Result<TermId, Fail>
    requires left { x.0 < length store.old.terms }
    requires right { y.0 < length store.old.terms }
    ensures grows { Grows store.old store.new }
    ensures inside { IfOk result (λ r. r.0 < length store.new.terms) }
{
    let mut args = Vec::new(alloc);
    args.push(x)?;
    args.push(y)?;
    let own = constant(alloc, BOOLEAN)?;
    let made = store.raw_app(alloc, F, &Vec::new(alloc), &args, &own)?;
    Ok(made)
}

#[test]
fn connectives_of_two_parts(rt: HostRuntime) -> Result<(), Fail> {
    for joining in [Binary::And, Binary::Or, Binary::If, Binary::Iff] {
        assert_eq!(rt; joining.conn().binary(), Some(joining));
    }
    assert_eq!(rt; Conn::Not.binary(), None);
    Ok(())
}

#[test]
fn variables_are_found_in_order(rt: HostRuntime) -> Result<(), Fail> {
    let alloc = rt.alloc();
    let mut store = Store::new(alloc);
    let x = variable(&mut store, X, constant(alloc, N)?)?;
    let y = variable(&mut store, N, constant(alloc, N)?)?;
    let inner = plain_pair(alloc, &mut store, y, x)?;
    let whole = plain_pair(alloc, &mut store, inner, y)?;
    let found = store.term_vars(alloc, whole)?;
    let vars = found.as_slice();
    if vars.len() != 2 {
        return Err("not two variables".into());
    }
    assert_eq!(rt; vars[0].name, N);
    assert_eq!(rt; vars[1].name, X);
    let equation = store.raw_sent(alloc, &SentNode::Eq(x, y))?;
    let both = store.free_vars(alloc, equation)?;
    let in_turn = both.as_slice();
    if in_turn.len() != 2 {
        return Err("not two free variables".into());
    }
    assert_eq!(rt; in_turn[0].name, X);
    assert_eq!(rt; in_turn[1].name, N);
    assert_eq!(rt; store.sent_size(equation), 3);
    assert_eq!(rt; store.sent_depth(equation), 2);
    Ok(())
}
