// Sentences in a line.

ghost use Rattle.std.specs.Prelude.{◌≡◌, ◌<◌, ◌++◌, ◌∷◌, [], codes, length, map, OnOk};
ghost use Rattle.ath_terms.specs.SortsIn.{IsSortedIn};
ghost use Rattle.ath_trees.specs.Tree.{equal};
ghost use Rattle.ath_terms.specs.Trees.{term_at, sent_at};
ghost use Rattle.ath_print.specs.Printers.{word, in_turn, GoesOn};
ghost use Rattle.ath_print.specs.Prefix.{quant_text, with_sort, sent_printed};

use crate::draft::{Draft, is_full, put};
use crate::terms::{put_term, put_with_sort};
use crate::words::{connective, quantifier};
use ath_names::Names;
use ath_sorts::Signature;
use ath_terms::{SentNode, Store};
use ath_trees::{Quant, SentId, TermId, Var};
use std::alloc::{AllocError, Global};

fn put_equation(
    alloc: Global,
    names: &Names,
    sig: &Signature,
    store: &Store,
    s: TermId,
    t: TermId,
    binders: &[&Var],
    draft: &mut Draft,
) -> Result<(), AllocError>
    requires left { s.0 < length store.now.terms }
    requires right { t.0 < length store.now.terms }
    requires sorted { IsSortedIn sig.now store.now }
    ensures { OnOk result (GoesOn (sent_printed names.now sig.now (map (λ b. b.now) binders.now) (equal (term_at store.now.terms s.0) (term_at store.now.terms t.0))) draft.old draft.new) }
{
    put(draft, "(")?;
    put(draft, "=")?;
    put(draft, " ")?;
    put_term(alloc, names, sig, store, s, binders, draft)?;
    put(draft, " ")?;
    put_term(alloc, names, sig, store, t, binders, draft)?;
    put(draft, ")")?;
    Ok(())
}

/// A quantifier and its variable, and what stands before its body.
fn put_binder(
    alloc: Global,
    names: &Names,
    quant: Quant,
    v: &Var,
    draft: &mut Draft,
) -> Result<(), AllocError>
    ensures { OnOk result (GoesOn (in_turn (word (codes "(") ∷ word (quant_text quant) ∷ word (codes " ") ∷ with_sort names.now v.now ∷ word (codes " ") ∷ [])) draft.old draft.new) }
{
    put(draft, "(")?;
    put(draft, quantifier(quant))?;
    put(draft, " ")?;
    put_with_sort(alloc, names, v, draft)?;
    put(draft, " ")?;
    Ok(())
}

/// A sentence within these binders, which are the same again after it.
pub fn put_sent<'a>(
    alloc: Global,
    names: &Names,
    sig: &Signature,
    store: &'a Store,
    p: SentId,
    binders: &mut Vec<&'a Var>,
    draft: &mut Draft,
) -> Result<(), AllocError>
    requires inside { p.0 < length store.now.sents }
    requires sorted { IsSortedIn sig.now store.now }
    ensures binders { OnOk result (map (λ b. b.now) binders.new.items ≡ map (λ b. b.now) binders.old.items) }
    ensures text { OnOk result (GoesOn (sent_printed names.now sig.now (map (λ b. b.now) binders.old.items) (sent_at store.now.sents p.0)) draft.old draft.new) }
{
    if is_full(draft) {
        return Ok(());
    }
    match store.sent(p) {
        SentNode::Atom(t) => put_term(alloc, names, sig, store, *t, binders.as_slice(), draft),
        SentNode::Eq(s, t) => {
            put_equation(alloc, names, sig, store, *s, *t, binders.as_slice(), draft)?;
            Ok(())
        }
        SentNode::Conn(conn, parts) => {
            put(draft, "(")?;
            put(draft, connective(*conn))?;
            for part in parts.as_slice() {
                put(draft, " ")?;
                put_sent(alloc, names, sig, store, *part, binders, draft)?;
            }
            put(draft, ")")?;
            Ok(())
        }
        SentNode::Quant(quant, v, body) => {
            put_binder(alloc, names, *quant, v, draft)?;
            binders.push(v)?;
            put_sent(alloc, names, sig, store, *body, binders, draft)?;
            binders.pop();
            put(draft, ")")?;
            Ok(())
        }
    }
}
