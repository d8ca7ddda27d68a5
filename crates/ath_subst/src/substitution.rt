// Substitution, other sorts and closing. What is refused is known before anything is built.

ghost use Rattle.std.specs.Prelude.{◌≡◌, ◌<◌, true, false, not, filter, length, IfOk, OnOk, if◌then◌else◌, [], ◌∷◌, ◌++◌};
ghost use Rattle.ath_sorts.specs.Signature.{Signature};
ghost use Rattle.ath_sorts.specs.Sorts.{image, apply_to};
ghost use Rattle.ath_sorts.specs.declared.sorts.SVar.{SVar};
ghost use Rattle.ath_subst.specs.Given.{term_substituted, sent_substituted, closing_given, term_moved, sent_moved, IsTermGiven, IsSentGiven};
ghost use Rattle.ath_subst.specs.Same.{IsSame};
ghost use Rattle.ath_terms.specs.SortsIn.{IsSortedIn};
ghost use Rattle.ath_terms.specs.Trees.{term_at, sort_at, sent_at, Grows, IsTermOf, IsSent};
ghost use Rattle.ath_trees.specs.Closing.{closing};
ghost use Rattle.ath_trees.specs.Occurrences.{is_among};
ghost use Rattle.ath_trees.specs.SortUnder.{sent_at_sorts};
ghost use Rattle.ath_trees.specs.Substitution.{subst_term, subst_sent};
ghost use Rattle.ath_trees.specs.Under.{term_under};
ghost use Rattle.ath_trees.specs.Variables.{same_var, term_vars, free_vars};
ghost use Rattle.ath_trees.specs.WellSorted.{is_valid_sort};

use crate::binders::add_var;
use crate::captures::{has_var, is_free};
use crate::counts::{Counts, sent_counts, term_counts};
use crate::error::{SubstError, check_counts};
use crate::occurrences::{add_every_var, renewed};
use crate::putting::put_term;
use crate::replacing::put_sent;
use crate::sentences::{is_sent_within, sent_at_sorts};
use crate::terms::{is_term_within, term_under};
use ath_sorts::SortSubst;
use ath_terms::variables::{copied_var, is_same_var};
use ath_terms::{SentNode, Store};
use ath_trees::{Quant, SentId, TermId, Var};
use std::alloc::{AllocError, Global};

/// The term with another in place of a variable. A term without the variable is left as it is.
pub fn subst_term(
    alloc: Global,
    store: &mut Store,
    t: TermId,
    x: &Var,
    by: TermId,
) -> Result<TermId, SubstError>
    requires inside { t.0 < length store.old.terms }
    requires there { by.0 < length store.old.terms }
    requires fits { sort_at store.old.sorts by.0 ≡ x.now.sort }
    ensures sort { (sig : Signature) → IsSortedIn sig store.old → IfOk result (λ r. sort_at store.new.sorts r.0 ≡ sort_at store.old.sorts t.0) }
    ensures grows { Grows store.old store.new }
    ensures built { IsTermGiven store.new (term_substituted x.now (term_at store.old.terms by.0) (term_at store.old.terms t.0)) result }
    ensures same { subst_term x.now (term_at store.old.terms by.0) (term_at store.old.terms t.0) ≡ term_at store.old.terms t.0 → IsSame store.old store.new t result }
    ensures sorted { (sig : Signature) → IsSortedIn sig store.old → IsSortedIn sig store.new }
{
    let counts = term_counts(store, t, x, by);
    check_counts(counts)?;
    let found = has_var(alloc, store, x, t)?;
    if !found {
        return Ok(t);
    }
    let term = put_term(alloc, store, t, x, by)?;
    Ok(term)
}

/// The sentence with a term in place of a variable, and without capture. A sentence in which the variable isn't free is left as
/// it is.
pub fn subst_sent(
    alloc: Global,
    store: &mut Store,
    p: SentId,
    x: &Var,
    by: TermId,
) -> Result<SentId, SubstError>
    requires inside { p.0 < length store.old.sents }
    requires there { by.0 < length store.old.terms }
    requires fits { sort_at store.old.sorts by.0 ≡ x.now.sort }
    ensures grows { Grows store.old store.new }
    ensures built { IsSentGiven store.new (sent_substituted x.now (term_at store.old.terms by.0) (sent_at store.old.sents p.0)) result }
    ensures same { subst_sent x.now (term_at store.old.terms by.0) (sent_at store.old.sents p.0) ≡ sent_at store.old.sents p.0 → IsSame store.old store.new p result }
    ensures sorted { (sig : Signature) → IsSortedIn sig store.old → IsSortedIn sig store.new }
{
    let counts = sent_counts(store, p, x, by);
    check_counts(counts)?;
    let found = is_free(alloc, store, x, p)?;
    if !found {
        return Ok(p);
    }
    let used = store.term_vars(alloc, by)?;
    let sent = put_sent(alloc, store, p, x, by, used.as_slice())?;
    Ok(sent)
}

/// The term at other sorts.
pub fn apply_sorts_term(
    alloc: Global,
    store: &mut Store,
    t: TermId,
    s: &SortSubst,
) -> Result<TermId, SubstError>
    requires { t.0 < length store.old.terms }
    ensures grows { Grows store.old store.new }
    ensures built { (sig : Signature) → IsSortedIn sig store.old → IsTermGiven store.new (term_moved sig (image s.now) (term_at store.old.terms t.0)) result }
    ensures tree { IfOk result (λ r. IsTermOf store.new r.0 (term_under (image s.now) (term_at store.old.terms t.0)) (apply_to (image s.now) (sort_at store.old.sorts t.0))) }
    ensures same { (sig : Signature) → IsSortedIn sig store.old → term_under (image s.now) (term_at store.old.terms t.0) ≡ term_at store.old.terms t.0 → IsSame store.old store.new t result }
    ensures sorted { (sig : Signature) → IsSortedIn sig store.old → ((v : SVar) → is_valid_sort sig (image s.now v) ≡ true) → IsSortedIn sig store.new }
{
    if !is_term_within(store, s, t) {
        return Err(SubstError::SortTooLarge);
    }
    let term = term_under(alloc, store, s, t)?;
    Ok(term)
}

/// The sentence at other sorts, where a binder is renamed that another variable of its body comes to.
pub fn apply_sorts(
    alloc: Global,
    store: &mut Store,
    p: SentId,
    s: &SortSubst,
) -> Result<SentId, SubstError>
    requires { p.0 < length store.old.sents }
    ensures grows { Grows store.old store.new }
    ensures built { (sig : Signature) → IsSortedIn sig store.old → IsSentGiven store.new (sent_moved sig (image s.now) (sent_at store.old.sents p.0)) result }
    ensures tree { IfOk result (λ r. IsSent store.new r.0 (sent_at_sorts (image s.now) (sent_at store.old.sents p.0))) }
    ensures same { (sig : Signature) → IsSortedIn sig store.old → sent_at_sorts (image s.now) (sent_at store.old.sents p.0) ≡ sent_at store.old.sents p.0 → IsSame store.old store.new p result }
    ensures sorted { (sig : Signature) → IsSortedIn sig store.old → ((v : SVar) → is_valid_sort sig (image s.now v) ≡ true) → IsSortedIn sig store.new }
{
    if !is_sent_within(store, s, p) {
        return Err(SubstError::SortTooLarge);
    }
    let sent = sent_at_sorts(alloc, store, s, p)?;
    Ok(sent)
}

/// Adds a copy of a variable that isn't x.
fn add_other(found: &mut Vec<Var>, x: &Var, w: &Var) -> Result<(), AllocError>
    ensures { OnOk result (found.new.items ≡ found.old.items ++ (if same_var x.now w.now then [] else w.now ∷ [])) }
{
    if is_same_var(x, w) {
        return Ok(());
    }
    let copy = copied_var(w)?;
    found.push(copy)?;
    Ok(())
}

/// The variables that aren't x.
fn others(alloc: Global, x: &Var, all: &[Var]) -> Result<Vec<Var>, AllocError>
    ensures { IfOk result (λ found. found.items ≡ filter (λ w. not (same_var x.now w)) all.now) }
{
    let mut found = Vec::new(alloc);
    for i in 0..all.len() {
        add_other(&mut found, x, &all[i])?;
    }
    Ok(found)
}

/// The variable at the least index that no other variable of its name has in the sentence, free or bound.
fn closing(alloc: Global, store: &Store, x: &Var, p: SentId) -> Result<Var, AllocError>
    requires { p.0 < length store.now.sents }
    ensures { IfOk result (λ v. v ≡ closing x.now (sent_at store.now.sents p.0)) }
{
    let mut all = Vec::new(alloc);
    add_every_var(alloc, store, &mut all, p)?;
    let rest = others(alloc, x, all.as_slice())?;
    let variable = renewed(x, rest.as_slice())?;
    Ok(variable)
}

/// The sentence quantified over a variable, whose index becomes the least that no other variable of its name has there.
pub fn close_over(
    alloc: Global,
    store: &mut Store,
    q: Quant,
    x: &Var,
    p: SentId,
) -> Result<SentId, SubstError>
    requires { p.0 < length store.old.sents }
    ensures grows { Grows store.old store.new }
    ensures built { IsSentGiven store.new (closing_given q x.now (sent_at store.old.sents p.0)) result }
    ensures sorted { (sig : Signature) → IsSortedIn sig store.old → is_valid_sort sig x.now.sort ≡ true → IsSortedIn sig store.new }
{
    let counts = Counts {
        nodes: 1 + store.sent_size(p),
        levels: 1 + store.sent_depth(p),
    };
    check_counts(counts)?;
    let variable = closing(alloc, store, x, p)?;
    let term = add_var(store, &variable)?;
    let used = store.term_vars(alloc, term)?;
    let body = put_sent(alloc, store, p, x, term, used.as_slice())?;
    let node = SentNode::Quant(q, variable, body);
    let sent = store.add_sent(node, counts.nodes, counts.levels)?;
    Ok(sent)
}
