// The free variables of terms and sentences, each once, in the order in which they occur first.

ghost use Rattle.std.specs.Prelude.{◌≡◌, ◌<◌, length, filter, not, IfOk, OnOk, if◌then◌else◌};
ghost use Rattle.ath_terms.specs.Trees.{term_at, sent_at};
ghost use Rattle.ath_trees.specs.Variables.{same_var, with_var, with_vars, with_term, with_sent, term_vars, free_vars};

use crate::found::FoundVars;
pub use crate::found::{copied_var, is_found, is_namesake, is_same_var};
use crate::node::{SentNode, TermNode};
use crate::store::Store;
use ath_trees::{SentId, TermId, Var};
use std::alloc::{AllocError, Global};

/// Adds the variables of a term to those found before.
pub fn add_term_vars(store: &Store, found: &mut FoundVars, t: TermId) -> Result<(), AllocError>
    requires { t.0 < length store.now.terms }
    ensures { OnOk result (found.new ≡ with_term found.old (term_at store.now.terms t.0)) }
{
    match store.term(t) {
        TermNode::Var(v) => {
            found.add(v)?;
            Ok(())
        }
        TermNode::App(_, _, args) => {
            let parts = args.as_slice();
            for i in 0..parts.len() {
                add_term_vars(store, found, parts[i])?;
            }
            Ok(())
        }
    }
}

fn add_other(found: &mut FoundVars, w: &Var, v: &Var) -> Result<(), AllocError>
    ensures { OnOk result (found.new ≡ (if same_var v.now w.now then found.old else with_var found.old w.now)) }
{
    if is_same_var(v, w) {
        return Ok(());
    }
    found.add(w)
}

/// Adds those of the variables that aren't v.
fn add_others(found: &mut FoundVars, inner: &[Var], v: &Var) -> Result<(), AllocError>
    ensures { OnOk result (found.new ≡ with_vars found.old (filter (λ w. not (same_var v.now w)) inner.now)) }
{
    for i in 0..inner.len() {
        add_other(found, &inner[i], v)?;
    }
    Ok(())
}

/// Adds the free variables of a sentence to those found before.
pub fn add_sent_vars(
    alloc: Global,
    store: &Store,
    found: &mut FoundVars,
    p: SentId,
) -> Result<(), AllocError>
    requires { p.0 < length store.now.sents }
    ensures { OnOk result (found.new ≡ with_sent found.old (sent_at store.now.sents p.0)) }
{
    match store.sent(p) {
        SentNode::Atom(t) => {
            add_term_vars(store, found, *t)?;
            Ok(())
        }
        SentNode::Eq(s, t) => {
            add_term_vars(store, found, *s)?;
            add_term_vars(store, found, *t)?;
            Ok(())
        }
        SentNode::Conn(_, ids) => {
            let parts = ids.as_slice();
            for i in 0..parts.len() {
                add_sent_vars(alloc, store, found, parts[i])?;
            }
            Ok(())
        }
        SentNode::Quant(_, v, body) => {
            let mut inner = FoundVars::new(alloc);
            add_sent_vars(alloc, store, &mut inner, *body)?;
            add_others(found, inner.as_slice(), v)?;
            Ok(())
        }
    }
}

impl Store {
    /// The variables of a term.
    pub fn term_vars(&self, alloc: Global, t: TermId) -> Result<Vec<Var>, AllocError>
        requires { t.0 < length self.now.terms }
        ensures { IfOk result (λ found. found.items ≡ term_vars (term_at self.now.terms t.0)) }
    {
        let mut found = FoundVars::new(alloc);
        add_term_vars(self, &mut found, t)?;
        Ok(found.into_list())
    }

    /// The free variables of a sentence.
    pub fn free_vars(&self, alloc: Global, p: SentId) -> Result<Vec<Var>, AllocError>
        requires { p.0 < length self.now.sents }
        ensures { IfOk result (λ found. found.items ≡ free_vars (sent_at self.now.sents p.0)) }
    {
        let mut found = FoundVars::new(alloc);
        add_sent_vars(alloc, self, &mut found, p)?;
        Ok(found.into_list())
    }
}
