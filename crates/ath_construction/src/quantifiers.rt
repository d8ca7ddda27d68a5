// Quantifiers.

ghost use Rattle.std.specs.Prelude.{◌≡◌, ◌<◌, ◌&&◌, ◌∷◌, [], true, length, IfOk, OnOk};
ghost use Rattle.ath_sorts.specs.Signature.{Signature};
ghost use Rattle.ath_sorts.specs.Sorts.{is_small, image, apply_to};
ghost use Rattle.ath_sorts.specs.declared.sorts.SVar.{SVar};
ghost use Rattle.ath_trees.specs.declared.node.Quant.{Quant};
ghost use Rattle.ath_trees.specs.Tree.{bound};
ghost use Rattle.ath_terms.specs.Trees.{sent_at, Grows, IsSent};
ghost use Rattle.ath_trees.specs.Measure.{IsSmall};
ghost use Rattle.ath_trees.specs.SortsIn.{sent_has_small_sorts};
ghost use Rattle.ath_terms.specs.SortsIn.{IsSortedIn};
ghost use Rattle.ath_terms.specs.Limits.{MatchMeasured};
ghost use Rattle.ath_trees.specs.Variables.{with_sent};
ghost use Rattle.ath_trees.specs.Under.{var_under};
ghost use Rattle.ath_trees.specs.SortUnder.{sent_at_sorts};
ghost use Rattle.ath_trees.specs.WellSorted.{is_valid_sort};
ghost use Rattle.ath_construction.specs.Construction.{variable_pairs, sent_measure, made_quantifier};
ghost use Rattle.ath_construction.specs.Answers.{IsSentBuilt};

use crate::pairs::{add_variable_pairs, solve};
use ath_sorts::{Sort, SortSubst};
use ath_subst::meeting::var_under;
use ath_subst::sentences::{is_sent_within, sent_at_sorts};
use ath_terms::limits::check_limits;
use ath_terms::variables::add_sent_vars;
use ath_terms::{BuildError, FoundVars, SentNode, Store};
use ath_trees::{Quant, SentId, Var};
use std::alloc::{AllocError, Global};

/// The pairs of the variable and those that are free in the body.
fn quantifier_pairs(
    alloc: Global,
    store: &Store,
    v: &Var,
    body: SentId,
) -> Result<Vec<(Sort, Sort)>, AllocError>
    requires { body.0 < length store.now.sents }
    ensures { IfOk result (λ pairs. pairs.items ≡ variable_pairs (with_sent (v.now ∷ []) (sent_at store.now.sents body.0))) }
{
    let mut pairs = Vec::new(alloc);
    let mut found = FoundVars::new(alloc);
    found.add(v)?;
    add_sent_vars(alloc, store, &mut found, body)?;
    add_variable_pairs(alloc, &mut pairs, found.as_slice())?;
    Ok(pairs)
}

/// Whether the sorts of the variable and of the body under the substitution are within the limits.
fn is_quantifier_within(store: &Store, subst: &SortSubst, v: &Var, body: SentId) -> bool
    requires { body.0 < length store.now.sents }
    ensures { (sig : Signature) → IsSortedIn sig store.now → result ≡ (is_small (apply_to (image subst.now) v.now.sort) && sent_has_small_sorts sig (sent_at_sorts (image subst.now) (sent_at store.now.sents body.0))) }
{
    if !subst.is_within_limits(&v.sort) {
        return false;
    }
    is_sent_within(store, subst, body)
}

fn check_quantifier(
    store: &Store,
    subst: &SortSubst,
    v: &Var,
    body: SentId,
) -> Result<(), BuildError>
    requires { body.0 < length store.now.sents }
    ensures few { (k : Quant) → OnOk result (IsSmall (bound k v.now (sent_at store.now.sents body.0))) }
    ensures measured { (sig : Signature) → IsSortedIn sig store.now → (k : Quant) → MatchMeasured (sent_measure sig (bound k (var_under (image subst.now) v.now) (sent_at_sorts (image subst.now) (sent_at store.now.sents body.0)))) result }
{
    let small = is_quantifier_within(store, subst, v, body);
    let nodes = 1 + store.sent_size(body);
    let levels = 1 + store.sent_depth(body);
    check_limits(small, nodes, levels)
}

fn add_quantifier(
    alloc: Global,
    store: &mut Store,
    subst: &SortSubst,
    q: Quant,
    v: &Var,
    body: SentId,
) -> Result<SentId, AllocError>
    requires inside { body.0 < length store.old.sents }
    requires small { IsSmall (bound q v.now (sent_at store.old.sents body.0)) }
    ensures grows { Grows store.old store.new }
    ensures tree { IfOk result (λ r. IsSent store.new r.0 (bound q (var_under (image subst.now) v.now) (sent_at_sorts (image subst.now) (sent_at store.old.sents body.0)))) }
    ensures sorted { (sig : Signature) → IsSortedIn sig store.old → ((v : SVar) → is_valid_sort sig (image subst.now v) ≡ true) → is_valid_sort sig v.now.sort ≡ true → IsSortedIn sig store.new }
{
    let nodes = 1 + store.sent_size(body);
    let levels = 1 + store.sent_depth(body);
    let variable = var_under(alloc, subst, v)?;
    let inner = sent_at_sorts(alloc, store, subst, body)?;
    let sent = store.add_sent(SentNode::Quant(q, variable, inner), nodes, levels)?;
    Ok(sent)
}

/// The quantifier over a variable. What is free in the body with its name and index is made to have its sort, and is bound.
pub fn quantify(
    alloc: Global,
    store: &mut Store,
    q: Quant,
    v: &Var,
    body: SentId,
) -> Result<SentId, BuildError>
    requires { body.0 < length store.old.sents }
    ensures grows { Grows store.old store.new }
    ensures inside { IfOk result (λ r. r.0 < length store.new.sents) }
    ensures built { (sig : Signature) → IsSortedIn sig store.old → IsSentBuilt store.new (made_quantifier sig q v.now (sent_at store.old.sents body.0)) result }
    ensures sorted { (sig : Signature) → IsSortedIn sig store.old → is_valid_sort sig v.now.sort ≡ true → IsSortedIn sig store.new }
{
    let pairs = quantifier_pairs(alloc, store, v, body)?;
    let subst = solve(alloc, &pairs)?;
    check_quantifier(store, &subst, v, body)?;
    let sent = add_quantifier(alloc, store, &subst, q, v, body)?;
    Ok(sent)
}
