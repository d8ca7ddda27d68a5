ghost use Rattle.std.specs.Prelude.{IfOk};
ghost use Rattle.ath_env.specs.Stands.{IsIn};

use ath_env::{Value, look_up, sentence, value_of};
use ath_names::Names;
use ath_sorts::sorts::con;
use ath_sorts::{Signature, Sym};
use ath_terms::Store;
use ath_trees::Conn;
use sqlite_items::Items;
use std::process::Abort;
use std::test::Fail;

/// Looks up the name of this text.
fn found(
    rt: &(impl Abort + AllocGlobal),
    names: &mut Names,
    sig: &Signature,
    text: &str,
) -> Result<Option<Value>, Fail> {
    let alloc = rt.alloc();
    let name = names.intern(alloc, text)?;
    assert!(rt; name < names.len());
    Ok(look_up(names, sig, Sym(name)))
}

#[test]
fn names_find_their_values(rt: HostRuntime) -> Result<(), Fail> {
    let alloc = rt.alloc();
    let mut names = Names::new(alloc)?;
    let sig = Signature::new(alloc)?;
    let claim = found(&rt, &mut names, &sig, "claim")?;
    assert!(rt; matches!(claim, Some(Value::PrimMethod(0))));
    let implication = found(&rt, &mut names, &sig, "if")?;
    assert!(rt; matches!(implication, Some(Value::Conn(Conn::If))));
    let back = found(&rt, &mut names, &sig, "<==")?;
    assert!(rt; matches!(back, Some(Value::Back)));
    let none = found(&rt, &mut names, &sig, "nothing")?;
    assert!(rt; none.is_none());
    let truth = found(&rt, &mut names, &sig, "true")?;
    assert!(rt; matches!(truth, Some(Value::Symbol(Sym(1)))));
    Ok(())
}

/// Adds a constant of this sort.
fn constant(
    rt: &(impl Abort + AllocGlobal),
    store: &mut Store,
    name: usize,
    sort: usize,
) -> Result<Value, Fail>
    ensures { IfOk result (λ value. IsIn store.new value) }
{
    let alloc = rt.alloc();
    let own = con(alloc, Sym(sort), Items::new(alloc))?;
    let t = store.raw_app(alloc, Sym(name), &Vec::new(alloc), &Vec::new(alloc), &own)?;
    Ok(Value::Term(t))
}

#[test]
fn terms_of_sort_boolean_and_sentences_are_sentences(rt: HostRuntime) -> Result<(), Fail> {
    let alloc = rt.alloc();
    let mut store = Store::new(alloc);
    let truth = constant(&rt, &mut store, 1, 0)?;
    let atom = sentence(&mut store, truth)?;
    let Some(p) = atom else {
        panic!(rt; "no sentence");
    };
    let same = sentence(&mut store, Value::Sent(p))?;
    assert_eq!(rt; same, Some(p));
    let zero = constant(&rt, &mut store, 5, 4)?;
    let none = sentence(&mut store, zero)?;
    assert_eq!(rt; none, None);
    let method = sentence(&mut store, Value::PrimMethod(1))?;
    assert_eq!(rt; method, None);
    Ok(())
}

#[test]
fn an_atom_is_the_value_of_its_term(rt: HostRuntime) -> Result<(), Fail> {
    let alloc = rt.alloc();
    let mut store = Store::new(alloc);
    let truth = constant(&rt, &mut store, 1, 0)?;
    let atom = sentence(&mut store, truth)?;
    let Some(p) = atom else {
        panic!(rt; "no sentence");
    };
    assert!(rt; matches!(value_of(&store, p), Value::Term(_)));
    Ok(())
}
