// Whether two values are equal.

ghost use Rattle.std.specs.Prelude.{◌≡◌, ◌++◌, true, length, IfOk, OnOk};
ghost use Rattle.ath_equality.specs.Equality.{equal_values, same_conn};
ghost use Rattle.ath_equality.specs.Nodes.{IsStored, are_alike, pairs, parts};
ghost use Rattle.ath_syntax.specs.Nodes.{Nodes};
ghost use Rattle.ath_terms.specs.Trees.{Trees};
ghost use Rattle.ath_trees.specs.Instance.{same_quant};
ghost use Rattle.ath_values.specs.Stands.{IsValue};
ghost use Rattle.ath_values.specs.Values.{ValueTree};

use ath_alpha::is_alpha_equal;
use ath_terms::Store;
use ath_terms::equality::is_same_term;
use ath_trees::{Conn, Quant};
use ath_values::{Envs, Value, ValueId};
use std::alloc::{AllocError, Global};

fn is_same_conn(c: Conn, d: Conn) -> bool
    ensures { result ≡ same_conn c d }
{
    match c {
        Conn::Not => matches!(d, Conn::Not),
        Conn::And => matches!(d, Conn::And),
        Conn::Or => matches!(d, Conn::Or),
        Conn::If => matches!(d, Conn::If),
        Conn::Iff => matches!(d, Conn::Iff),
    }
}

fn is_same_quant(k: Quant, l: Quant) -> bool
    ensures { result ≡ same_quant k l }
{
    match k {
        Quant::Forall => matches!(l, Quant::Forall),
        Quant::Exists => matches!(l, Quant::Exists),
    }
}

/// Whether two nodes are alike, apart from the members of lists.
fn are_alike(store: &Store, v: &Value, w: &Value) -> bool
    requires left { IsStored store.now v.now }
    requires right { IsStored store.now w.now }
    ensures { result ≡ are_alike store.now v.now w.now }
{
    match v {
        Value::Term(s) => match w {
            Value::Term(t) => is_same_term(store, *s, *t),
            _other => false,
        },
        Value::Sent(p) => match w {
            Value::Sent(q) => is_alpha_equal(store, *p, *q),
            _other => false,
        },
        Value::List(xs) => match w {
            Value::List(ys) => xs.len() == ys.len(),
            _other => false,
        },
        Value::Str(x) => match w {
            Value::Str(y) => x.as_str() == y.as_str(),
            _other => false,
        },
        Value::Symbol(f) => match w {
            Value::Symbol(g) => f.0 == g.0,
            _other => false,
        },
        Value::Conn(c) => match w {
            Value::Conn(d) => is_same_conn(*c, *d),
            _other => false,
        },
        Value::Quant(k) => match w {
            Value::Quant(l) => is_same_quant(*k, *l),
            _other => false,
        },
        Value::Back => matches!(w, Value::Back),
        _other => false,
    }
}

fn push_pairs(
    left: &mut Vec<(ValueId, ValueId)>,
    xs: &[ValueId],
    ys: &[ValueId],
) -> Result<(), AllocError>
    requires { length xs.now ≡ length ys.now }
    ensures { OnOk result (left.new.items ≡ left.old.items ++ pairs xs.now ys.now) }
{
    for i in 0..xs.len() {
        left.push((xs[i], ys[i]))?;
    }
    Ok(())
}

fn push_parts(left: &mut Vec<(ValueId, ValueId)>, v: &Value, w: &Value) -> Result<(), AllocError>
    requires { (s : Trees) × (are_alike s v.now w.now ≡ true) }
    ensures { OnOk result (left.new.items ≡ left.old.items ++ parts v.now w.now) }
{
    let Value::List(xs) = v else {
        return Ok(());
    };
    let Value::List(ys) = w else {
        return Ok(());
    };
    push_pairs(left, xs.as_slice(), ys.as_slice())
}

/// Whether two values are equal. What is left to compare stands on a stack, so that no nesting of lists is too deep.
pub fn are_equal(
    alloc: Global,
    envs: &Envs,
    store: &Store,
    v: ValueId,
    w: ValueId,
) -> Result<bool, AllocError>
    requires { (p : Nodes) × (t : ValueTree) × (u : ValueTree) × IsValue p store.now envs.now v t × IsValue p store.now envs.now w u }
    ensures { IfOk result (λ b. (p : Nodes) (t u : ValueTree) → IsValue p store.now envs.now v t → IsValue p store.now envs.now w u → b ≡ equal_values t u) }
{
    let mut left = Vec::new(alloc);
    left.push((v, w))?;
    while let Some(pair) = left.pop() {
        let x = envs.get(pair.0);
        let y = envs.get(pair.1);
        if !are_alike(store, x, y) {
            return Ok(false);
        }
        push_parts(&mut left, x, y)?;
    }
    Ok(true)
}
