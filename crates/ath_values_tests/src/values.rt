ghost use Rattle.std.specs.Prelude.{IfOk, ◌≤◌, length};
ghost use Rattle.ath_values.specs.Nodes.{IsValueIn};

use ath_sorts::Sym;
use ath_sorts::sorts::con;
use ath_syntax::Text;
use ath_terms::{SentNode, Store};
use ath_values::{Envs, Value, ValueError, ValueId};
use sqlite_items::Items;
use std::process::Abort;
use std::test::Fail;

/// The list of so many times one value.
fn listed(
    rt: &(impl Abort + AllocGlobal),
    envs: &mut Envs,
    v: ValueId,
    times: usize,
) -> Result<Result<ValueId, ValueError>, Fail>
    requires inside { IsValueIn envs.old v }
    requires few { times ≤ 4194304 }
    ensures many { length envs.old.values ≤ length envs.new.values }
    ensures inside { IfOk result (λ made. IfOk made (IsValueIn envs.new)) }
{
    let items = vec![in rt.alloc(); v; times]?;
    Ok(envs.list(Items::from_vec(items)))
}

#[test]
fn a_value_has_at_most_so_many_nodes(rt: HostRuntime) -> Result<(), Fail> {
    let alloc = rt.alloc();
    let store = Store::new(alloc);
    let mut envs = Envs::new(alloc)?;
    let mark = envs.value(&store, Value::Back)?;
    assert_eq!(rt; envs.nodes(mark), 1);
    let most = listed(&rt, &mut envs, mark, 99_999)??;
    assert_eq!(rt; envs.nodes(most), 100_000);
    assert_eq!(rt; envs.levels(most), 2);
    let more = listed(&rt, &mut envs, mark, 100_000)?;
    assert!(rt; matches!(more, Err(ValueError::TooLarge(100_001))));
    let both = listed(&rt, &mut envs, most, 2)?;
    assert!(rt; matches!(both, Err(ValueError::TooLarge(200_001))));
    Ok(())
}

#[test]
fn a_value_has_at_most_so_many_levels(rt: HostRuntime) -> Result<(), Fail> {
    let alloc = rt.alloc();
    let mut envs = Envs::new(alloc)?;
    let mut v = envs.list(Items::new(alloc))?;
    for _level in 1..2_000 {
        v = listed(&rt, &mut envs, v, 1)??;
    }
    assert_eq!(rt; envs.levels(v), 2_000);
    let more = listed(&rt, &mut envs, v, 1)?;
    assert!(rt; matches!(more, Err(ValueError::TooDeep(2_001))));
    Ok(())
}

#[test]
fn a_value_keeps_its_node(rt: HostRuntime) -> Result<(), Fail> {
    let alloc = rt.alloc();
    let store = Store::new(alloc);
    let mut envs = Envs::new(alloc)?;
    let word = Text::new(String::from_str(alloc, "word")?);
    let text = envs.value(&store, Value::Str(word))?;
    let pair = listed(&rt, &mut envs, text, 2)??;
    let symbol = envs.value(&store, Value::Symbol(Sym(7)))?;
    let Value::Str(kept) = envs.get(text) else {
        panic!(rt; "no string");
    };
    assert_eq!(rt; kept.as_str(), "word");
    let Value::List(members) = envs.get(pair) else {
        panic!(rt; "no list");
    };
    assert_eq!(rt; members.len(), 2);
    assert!(rt; matches!(members.get(1), Some(v) if *v == text));
    assert!(rt; matches!(envs.get(symbol), Value::Symbol(Sym(7))));
    Ok(())
}

#[test]
fn an_atom_is_the_value_of_its_term(rt: HostRuntime) -> Result<(), Fail> {
    let alloc = rt.alloc();
    let mut store = Store::new(alloc);
    let own = con(alloc, Sym(0), Items::new(alloc))?;
    let t = store.raw_app(alloc, Sym(150), &Vec::new(alloc), &Vec::new(alloc), &own)?;
    let p = store.plain_atom(t)?;
    let q = store.raw_sent(alloc, &SentNode::Eq(t, t))?;
    let mut envs = Envs::new(alloc)?;
    let atom = envs.sentence(&store, p)?;
    let equation = envs.sentence(&store, q)?;
    let term = envs.term(&store, t)?;
    assert!(rt; matches!(envs.get(atom), Value::Term(u) if *u == t));
    assert!(rt; matches!(envs.get(equation), Value::Sent(r) if *r == q));
    assert!(rt; matches!(envs.get(term), Value::Term(u) if *u == t));
    assert_eq!(rt; envs.nodes(equation), 3);
    assert_eq!(rt; envs.levels(equation), 2);
    Ok(())
}
