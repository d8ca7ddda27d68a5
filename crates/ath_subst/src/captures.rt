// Binders over a body into which a term is put: one that would capture a variable of the term is renamed.

ghost use Rattle.std.specs.Prelude.{◌≡◌, ◌<◌, true, false, length, IfOk, IsTrue};
ghost use Rattle.ath_sorts.specs.Signature.{Signature};
ghost use Rattle.ath_subst.specs.Captures.{is_left, binder_for, body_for};
ghost use Rattle.ath_terms.specs.SortsIn.{IsSortedIn};
ghost use Rattle.ath_terms.specs.Trees.{term_at, sent_at, Grows, IsSent};
ghost use Rattle.ath_trees.specs.Occurrences.{is_among, is_named};
ghost use Rattle.ath_trees.specs.Variables.{term_vars, free_vars};
ghost use Rattle.ath_trees.specs.WellSorted.{is_valid_sort};

use crate::binders::{Binder, renamed_binder};
use crate::occurrences::is_index_used;
use ath_terms::Store;
use ath_terms::variables::{is_found, is_same_var};
use ath_trees::{SentId, TermId, Var};
use std::alloc::{AllocError, Global};

/// Whether it is seen at once that no variable of the term has this name and index.
pub fn lacks_name(store: &Store, t: TermId, x: &Var) -> bool
    requires { t.0 < length store.now.terms }
    ensures { IsTrue result → is_named x.now (term_vars (term_at store.now.terms t.0)) ≡ false }
{
    let marks = store.marks(t);
    !marks.groups.may_have(x)
}

/// Whether it is seen at once that no free variable of the sentence has this name and index.
pub fn sent_lacks_name(store: &Store, p: SentId, x: &Var) -> bool
    requires { p.0 < length store.now.sents }
    ensures { IsTrue result → is_named x.now (free_vars (sent_at store.now.sents p.0)) ≡ false }
{
    let marks = store.sent_marks(p);
    !marks.groups.may_have(x)
}

/// Whether it is seen at once that the variable isn't in the term.
pub fn lacks(store: &Store, t: TermId, x: &Var) -> bool
    requires { t.0 < length store.now.terms }
    ensures { IsTrue result → is_among x.now (term_vars (term_at store.now.terms t.0)) ≡ false }
{
    lacks_name(store, t, x)
}

/// Whether it is seen at once that the variable isn't free in the sentence.
pub fn sent_lacks(store: &Store, p: SentId, x: &Var) -> bool
    requires { p.0 < length store.now.sents }
    ensures { IsTrue result → is_among x.now (free_vars (sent_at store.now.sents p.0)) ≡ false }
{
    sent_lacks_name(store, p, x)
}

/// Whether a variable is free in a sentence.
pub fn is_free(alloc: Global, store: &Store, x: &Var, p: SentId) -> Result<bool, AllocError>
    requires { p.0 < length store.now.sents }
    ensures { IfOk result (λ b. b ≡ is_among x.now (free_vars (sent_at store.now.sents p.0))) }
{
    if sent_lacks(store, p, x) {
        return Ok(false);
    }
    let free = store.free_vars(alloc, p)?;
    let found = is_found(free.as_slice(), x);
    Ok(found)
}

/// Whether a variable is in a term.
pub fn has_var(alloc: Global, store: &Store, x: &Var, t: TermId) -> Result<bool, AllocError>
    requires { t.0 < length store.now.terms }
    ensures { IfOk result (λ b. b ≡ is_among x.now (term_vars (term_at store.now.terms t.0))) }
{
    if lacks(store, t, x) {
        return Ok(false);
    }
    let vars = store.term_vars(alloc, t)?;
    let found = is_found(vars.as_slice(), x);
    Ok(found)
}

/// Whether the sentence of a binder and a body is left as it is where the term, whose variables are these, is put for x.
pub fn is_left(
    alloc: Global,
    store: &Store,
    x: &Var,
    by: TermId,
    used: &[Var],
    v: &Var,
    body: SentId,
) -> Result<bool, AllocError>
    requires inside { body.0 < length store.now.sents }
    requires there { by.0 < length store.now.terms }
    requires named { used.now ≡ term_vars (term_at store.now.terms by.0) }
    ensures { IfOk result (λ b. b ≡ is_left x.now (term_at store.now.terms by.0) v.now (sent_at store.now.sents body.0)) }
{
    if is_same_var(x, v) {
        return Ok(true);
    }
    if !is_index_used(v, v.index, used) {
        return Ok(false);
    }
    let free = is_free(alloc, store, x, body)?;
    Ok(!free)
}

/// The binder with its body, renamed where a variable of the term, whose variables are these, has its name and index.
pub fn open_binder(
    alloc: Global,
    store: &mut Store,
    by: TermId,
    used: &[Var],
    v: Var,
    body: SentId,
) -> Result<Binder, AllocError>
    requires inside { body.0 < length store.old.sents }
    requires there { by.0 < length store.old.terms }
    requires named { used.now ≡ term_vars (term_at store.old.terms by.0) }
    ensures grows { Grows store.old store.new }
    ensures variable { IfOk result (λ b. b.variable ≡ binder_for (term_at store.old.terms by.0) v (sent_at store.old.sents body.0)) }
    ensures body { IfOk result (λ b. IsSent store.new b.body.0 (body_for (term_at store.old.terms by.0) v (sent_at store.old.sents body.0))) }
    ensures same { is_named v (term_vars (term_at store.old.terms by.0)) ≡ false → IfOk result (λ b. (b.body ≡ body) × (store.new ≡ store.old)) }
    ensures sorted { (sig : Signature) → IsSortedIn sig store.old → is_valid_sort sig v.sort ≡ true → IsSortedIn sig store.new }
{
    if !is_index_used(&v, v.index, used) {
        return Ok(Binder { variable: v, body });
    }
    let renamed = renamed_binder(alloc, store, used, &v, body)?;
    Ok(renamed)
}
