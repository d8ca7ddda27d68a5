// Every variable of a sentence, and the least index at which a name is unused.

ghost use Rattle.std.specs.Prelude.{◌≡◌, ◌<◌, ◌++◌, length, IfOk, OnOk};
ghost use Rattle.ath_terms.specs.Trees.{term_at, sent_at};
ghost use Rattle.ath_trees.specs.Variables.{is_namesake, term_vars};
ghost use Rattle.ath_trees.specs.Occurrences.{is_named, every_var, at_index, ceiling, least_unused, renewed};

use ath_sorts::sorts::copied;
use ath_terms::variables::copied_var;
use ath_terms::{SentNode, Store};
use ath_trees::{SentId, TermId, Var};
use std::alloc::{AllocError, Global};

/// Adds copies of variables.
pub fn add_copies(found: &mut Vec<Var>, vars: &[Var]) -> Result<(), AllocError>
    ensures { OnOk result (found.new.items ≡ found.old.items ++ vars.now) }
{
    for i in 0..vars.len() {
        let copy = copied_var(&vars[i])?;
        found.push(copy)?;
    }
    Ok(())
}

fn add_of_term(
    alloc: Global,
    store: &Store,
    found: &mut Vec<Var>,
    t: TermId,
) -> Result<(), AllocError>
    requires { t.0 < length store.now.terms }
    ensures { OnOk result (found.new.items ≡ found.old.items ++ term_vars (term_at store.now.terms t.0)) }
{
    let vars = store.term_vars(alloc, t)?;
    add_copies(found, vars.as_slice())?;
    Ok(())
}

/// Adds every variable of a sentence: free, bound, or a binder's own.
pub fn add_every_var(
    alloc: Global,
    store: &Store,
    found: &mut Vec<Var>,
    p: SentId,
) -> Result<(), AllocError>
    requires { p.0 < length store.now.sents }
    ensures { OnOk result (found.new.items ≡ found.old.items ++ every_var (sent_at store.now.sents p.0)) }
{
    match store.sent(p) {
        SentNode::Atom(t) => {
            add_of_term(alloc, store, found, *t)?;
            Ok(())
        }
        SentNode::Eq(s, t) => {
            add_of_term(alloc, store, found, *s)?;
            add_of_term(alloc, store, found, *t)?;
            Ok(())
        }
        SentNode::Conn(_, ids) => {
            let parts = ids.as_slice();
            for i in 0..parts.len() {
                add_every_var(alloc, store, found, parts[i])?;
            }
            Ok(())
        }
        SentNode::Quant(_, v, body) => {
            let copy = copied_var(v)?;
            found.push(copy)?;
            add_every_var(alloc, store, found, *body)?;
            Ok(())
        }
    }
}

fn has_index(v: &Var, index: u64, w: &Var) -> bool
    ensures { result ≡ is_namesake (at_index v.now index) w.now }
{
    v.name.0 == w.name.0 && index == w.index
}

/// Whether one of the used variables has the name with this index.
pub fn is_index_used(v: &Var, index: u64, used: &[Var]) -> bool
    ensures { result ≡ is_named (at_index v.now index) used.now }
{
    for w in used {
        if has_index(v, index, w) {
            return true;
        }
    }
    false
}

fn least_index(v: &Var, used: &[Var]) -> u64
    ensures { result ≡ least_unused (ceiling used.now) 0 v.now used.now }
{
    for i in 0..used.len() {
        if !is_index_used(v, i as u64, used) {
            return i as u64;
        }
    }
    used.len() as u64
}

/// The variable at the least index at which none of the used ones has its name.
pub fn renewed(v: &Var, used: &[Var]) -> Result<Var, AllocError>
    ensures { IfOk result (λ r. r ≡ renewed v.now used.now) }
{
    let index = least_index(v, used);
    let sort = copied(&v.sort)?;
    Ok(Var {
        name: v.name,
        index,
        sort,
    })
}
