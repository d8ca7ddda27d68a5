use ath_sorts::Sym;
use ath_syntax::PhraseId;
use ath_terms::Store;
use ath_values::{Envs, Kind, Member, Value};
use sqlite_items::Items;
use std::process::Abort;
use std::test::Fail;

#[test]
fn an_address_leads_to_its_value(rt: HostRuntime) -> Result<(), Fail> {
    let alloc = rt.alloc();
    let store = Store::new(alloc);
    let mut envs = Envs::new(alloc)?;
    let v = envs.value(&store, Value::Back)?;
    let w = envs.value(&store, Value::Symbol(Sym(7)))?;
    let root = envs.root();
    let first = envs.bind(root, Sym(1), v)?;
    let second = envs.bind(first, Sym(1), w)?;
    let third = envs.bind(second, Sym(2), v)?;
    assert_eq!(rt; envs.depth(root), 0);
    assert_eq!(rt; envs.depth(third), 3);
    assert_eq!(rt; envs.ancestor(third, 1), second);
    assert_eq!(rt; envs.ancestor(third, 3), root);
    let up = envs.ancestor(third, 1);
    assert_eq!(rt; envs.at(alloc, up, 0)?, Some(w));
    let up = envs.ancestor(third, 2);
    assert_eq!(rt; envs.at(alloc, up, 0)?, Some(v));
    assert_eq!(rt; envs.at(alloc, up, 1)?, None);
    assert_eq!(rt; envs.at(alloc, root, 0)?, None);
    Ok(())
}

#[test]
fn an_earlier_environment_keeps_its_entries(rt: HostRuntime) -> Result<(), Fail> {
    let alloc = rt.alloc();
    let store = Store::new(alloc);
    let mut envs = Envs::new(alloc)?;
    let v = envs.value(&store, Value::Back)?;
    let w = envs.value(&store, Value::Symbol(Sym(7)))?;
    let root = envs.root();
    let one = envs.bind(root, Sym(1), v)?;
    let left = envs.bind(one, Sym(2), w)?;
    let right = envs.bind(one, Sym(2), v)?;
    assert_eq!(rt; envs.depth(one), 1);
    assert_eq!(rt; envs.at(alloc, one, 0)?, Some(v));
    assert_eq!(rt; envs.at(alloc, left, 0)?, Some(w));
    assert_eq!(rt; envs.at(alloc, right, 0)?, Some(v));
    assert_eq!(rt; envs.ancestor(left, 1), envs.ancestor(right, 1));
    Ok(())
}

#[test]
fn a_member_sees_its_group(rt: HostRuntime) -> Result<(), Fail> {
    let alloc = rt.alloc();
    let mut envs = Envs::new(alloc)?;
    let mut members = Items::new(alloc);
    members.push(Member {
        name: Sym(1),
        kind: Kind::Procedure,
        params: Items::new(alloc),
        body: PhraseId(0),
    })?;
    let mut params = Items::new(alloc);
    params.push(Sym(5))?;
    members.push(Member {
        name: Sym(2),
        kind: Kind::Method,
        params,
        body: PhraseId(4),
    })?;
    let root = envs.root();
    let group = envs.bind_group(root, members)?;
    let Some(second) = envs.at(alloc, group, 1)? else {
        panic!(rt; "no member");
    };
    let Value::Closure(kind, names, body, env) = envs.get(second) else {
        panic!(rt; "no closure");
    };
    assert_eq!(rt; *kind, Kind::Method);
    assert!(rt; matches!(names.get(0), Some(Sym(5))));
    assert_eq!(rt; *body, PhraseId(4));
    assert_eq!(rt; *env, group);
    assert_eq!(rt; envs.nodes(second), 1);
    assert_eq!(rt; envs.at(alloc, group, 2)?, None);
    Ok(())
}

#[test]
fn a_closure_keeps_its_environment(rt: HostRuntime) -> Result<(), Fail> {
    let alloc = rt.alloc();
    let store = Store::new(alloc);
    let mut envs = Envs::new(alloc)?;
    let v = envs.value(&store, Value::Back)?;
    let root = envs.root();
    let env = envs.bind(root, Sym(1), v)?;
    let closure = envs.closure(Kind::Procedure, Items::new(alloc), PhraseId(3), env)?;
    let later = envs.bind(env, Sym(1), closure)?;
    let Value::Closure(_, _, body, own) = envs.get(closure) else {
        panic!(rt; "no closure");
    };
    assert_eq!(rt; *body, PhraseId(3));
    assert_eq!(rt; *own, env);
    assert_eq!(rt; envs.depth(later), 2);
    Ok(())
}
