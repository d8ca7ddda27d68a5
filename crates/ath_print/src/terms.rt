// Variables and terms in a line.

ghost use Rattle.std.specs.Prelude.{◌≡◌, ◌<◌, ◌++◌, codes, length, map, OnOk};
ghost use Rattle.std.specs.List.{list_any};
ghost use Rattle.ath_sorts.specs.Signature.{symbol_of};
ghost use Rattle.ath_terms.specs.SortsIn.{IsSortedIn};
ghost use Rattle.ath_terms.specs.Trees.{term_at};
ghost use Rattle.ath_trees.specs.Variables.{same_var};
ghost use Rattle.ath_print.specs.Printers.{word, item, GoesOn};
ghost use Rattle.ath_print.specs.Prefix.{var_text, with_sort, occurrence, is_unsaid, leaves_unsaid, is_ascribed, term_printed, plain_printed};

use crate::draft::{Draft, is_full, put, put_number};
use crate::sorts::put_sort;
use ath_env::text_of;
use ath_names::Names;
use ath_sorts::sorts::occurs_in;
use ath_sorts::{SVar, Signature, Sort, Sym};
use ath_terms::found::is_same_var;
use ath_terms::{Store, TermNode};
use ath_trees::{TermId, Var};
use std::alloc::{AllocError, Global};

fn is_bound(v: &Var, binders: &[&Var]) -> bool
    ensures { result ≡ list_any (same_var v.now) (map (λ b. b.now) binders.now) }
{
    for binder in binders {
        if is_same_var(v, *binder) {
            return true;
        }
    }
    false
}

fn put_var(alloc: Global, names: &Names, v: &Var, draft: &mut Draft) -> Result<(), AllocError>
    ensures { OnOk result (GoesOn (word (var_text names.now v.now)) draft.old draft.new) }
{
    put(draft, "?")?;
    put(draft, text_of(names, v.name))?;
    if v.index == 0 {
        return Ok(());
    }
    put(draft, "%")?;
    put_number(alloc, draft, v.index)
}

/// A variable with its sort.
pub fn put_with_sort(
    alloc: Global,
    names: &Names,
    v: &Var,
    draft: &mut Draft,
) -> Result<(), AllocError>
    ensures { OnOk result (GoesOn (with_sort names.now v.now) draft.old draft.new) }
{
    put_var(alloc, names, v, draft)?;
    put(draft, ":")?;
    put_sort(alloc, names, &v.sort, draft)?;
    Ok(())
}

fn put_occurrence(
    alloc: Global,
    names: &Names,
    v: &Var,
    binders: &[&Var],
    draft: &mut Draft,
) -> Result<(), AllocError>
    ensures { OnOk result (GoesOn (occurrence names.now (map (λ b. b.now) binders.now) v.now) draft.old draft.new) }
{
    if is_bound(v, binders) {
        return put_var(alloc, names, v, draft);
    }
    put_with_sort(alloc, names, v, draft)
}

fn is_unsaid(args: &[Sort], param: Sym) -> bool
    ensures { result ≡ is_unsaid args.now param }
{
    for arg in args {
        if occurs_in(SVar::Written(param), arg) {
            return false;
        }
    }
    true
}

/// Whether the arguments don't say the sort of an application of this symbol.
fn leaves_unsaid(sig: &Signature, f: Sym) -> bool
    ensures { result ≡ leaves_unsaid (symbol_of sig.now f) }
{
    let Some(symbol) = sig.symbol(f) else {
        return false;
    };
    for param in symbol.params.as_slice() {
        if is_unsaid(symbol.args.as_slice(), *param) {
            return true;
        }
    }
    false
}

fn is_ascribed(sig: &Signature, store: &Store, t: TermId) -> bool
    requires { t.0 < length store.now.terms }
    ensures { result ≡ is_ascribed sig.now (term_at store.now.terms t.0) }
{
    match store.term(t) {
        TermNode::Var(_) => false,
        TermNode::App(f, _, _) => leaves_unsaid(sig, *f),
    }
}

/// A term, without its sort where it is an application.
#[cycle(terms)]
fn put_plain(
    alloc: Global,
    names: &Names,
    sig: &Signature,
    store: &Store,
    t: TermId,
    binders: &[&Var],
    draft: &mut Draft,
) -> Result<(), AllocError>
    requires inside { t.0 < length store.now.terms }
    requires sorted { IsSortedIn sig.now store.now }
    ensures { OnOk result (GoesOn (plain_printed names.now sig.now (map (λ b. b.now) binders.now) (term_at store.now.terms t.0)) draft.old draft.new) }
{
    match store.term(t) {
        TermNode::Var(v) => put_occurrence(alloc, names, v, binders, draft),
        TermNode::App(f, _, args) => {
            let parts = args.as_slice();
            if parts.is_empty() {
                return put(draft, text_of(names, *f));
            }
            put(draft, "(")?;
            put(draft, text_of(names, *f))?;
            for part in parts {
                put(draft, " ")?;
                put_term(alloc, names, sig, store, *part, binders, draft)?;
            }
            put(draft, ")")?;
            Ok(())
        }
    }
}

#[cycle(terms)]
pub fn put_term(
    alloc: Global,
    names: &Names,
    sig: &Signature,
    store: &Store,
    t: TermId,
    binders: &[&Var],
    draft: &mut Draft,
) -> Result<(), AllocError>
    requires inside { t.0 < length store.now.terms }
    requires sorted { IsSortedIn sig.now store.now }
    ensures { OnOk result (GoesOn (term_printed names.now sig.now (map (λ b. b.now) binders.now) (term_at store.now.terms t.0)) draft.old draft.new) }
{
    if is_full(draft) {
        return Ok(());
    }
    if !is_ascribed(sig, store, t) {
        return put_plain(alloc, names, sig, store, t, binders, draft);
    }
    put(draft, "(")?;
    put_plain(alloc, names, sig, store, t, binders, draft)?;
    put(draft, " : ")?;
    put_sort(alloc, names, store.sort_of(t), draft)?;
    put(draft, ")")?;
    Ok(())
}
