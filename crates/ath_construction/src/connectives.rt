// Connectives.

ghost use Rattle.std.specs.Prelude.{◌≡◌, ◌<◌, ◌≤◌, true, length, map, IfOk, OnOk, []};
ghost use Rattle.std.specs.List.{All, list_all};
ghost use Rattle.ath_sorts.specs.Signature.{Signature};
ghost use Rattle.ath_sorts.specs.Sorts.{image};
ghost use Rattle.ath_sorts.specs.declared.sorts.SVar.{SVar};
ghost use Rattle.ath_trees.specs.declared.limits.TheConstants.{MOST_PARTS};
ghost use Rattle.ath_trees.specs.declared.node.Binary.{Binary};
ghost use Rattle.ath_terms.specs.Trees.{sent_at, Grows, IsSent};
ghost use Rattle.ath_trees.specs.Tree.{negated, joined};
ghost use Rattle.ath_trees.specs.Measure.{IsSmall, sent_size, sent_depth};
ghost use Rattle.ath_trees.specs.SortsIn.{sent_has_small_sorts};
ghost use Rattle.ath_terms.specs.SortsIn.{IsSortedIn};
ghost use Rattle.ath_trees.specs.Variables.{with_sents};
ghost use Rattle.ath_trees.specs.SortUnder.{sent_at_sorts};
ghost use Rattle.ath_trees.specs.WellSorted.{is_valid_sort};
ghost use Rattle.ath_construction.specs.Construction.{takes, wanted, grouped, connected, variable_pairs, sent_measure, made_connective};
ghost use Rattle.ath_construction.specs.Answers.{IsSentBuilt};
ghost use Rattle.ath_terms.specs.Limits.{MatchMeasured};

use crate::pairs::{add_variable_pairs, solve};
use ath_sorts::{Sort, SortSubst};
use ath_subst::sentences::{is_sent_within, sent_at_sorts};
use ath_terms::limits::check_limits;
use ath_terms::variables::add_sent_vars;
use ath_terms::{BuildError, FoundVars, SentNode, Store};
use ath_trees::{Binary, Conn, SentId};
use sqlite_items::Items;
use std::alloc::{AllocError, Global};

/// Whether the connective takes so many parts.
pub fn takes(c: Conn, parts: usize) -> bool
    ensures { result ≡ takes c parts }
{
    match c {
        Conn::Not => parts == 1,
        Conn::And => 2 <= parts,
        Conn::Or => 2 <= parts,
        Conn::If => parts == 2,
        Conn::Iff => parts == 2,
    }
}

/// The number of parts that is told as wanted.
pub fn wanted(c: Conn) -> usize
    ensures { result ≡ wanted c }
{
    match c {
        Conn::Not => 1,
        Conn::And => 2,
        Conn::Or => 2,
        Conn::If => 2,
        Conn::Iff => 2,
    }
}

fn list_vars(alloc: Global, store: &Store, parts: &[SentId]) -> Result<FoundVars, AllocError>
    requires { All (λ i. i.0 < length store.now.sents) parts.now }
    ensures { IfOk result (λ found. found ≡ with_sents [] (map (λ i. sent_at store.now.sents i.0) parts.now)) }
{
    let mut found = FoundVars::new(alloc);
    for i in 0..parts.len() {
        add_sent_vars(alloc, store, &mut found, parts[i])?;
    }
    Ok(found)
}

fn connective_pairs(
    alloc: Global,
    store: &Store,
    parts: &[SentId],
) -> Result<Vec<(Sort, Sort)>, AllocError>
    requires { All (λ i. i.0 < length store.now.sents) parts.now }
    ensures { IfOk result (λ pairs. pairs.items ≡ variable_pairs (with_sents [] (map (λ i. sent_at store.now.sents i.0) parts.now))) }
{
    let mut pairs = Vec::new(alloc);
    let marks = store.list_sent_marks(parts);
    if marks.is_apart {
        return Ok(pairs);
    }
    let found = list_vars(alloc, store, parts)?;
    add_variable_pairs(alloc, &mut pairs, found.as_slice())?;
    Ok(pairs)
}

fn are_sents_within(store: &Store, subst: &SortSubst, parts: &[SentId]) -> bool
    requires { All (λ i. i.0 < length store.now.sents) parts.now }
    ensures { (sig : Signature) → IsSortedIn sig store.now → result ≡ list_all (λ i. sent_has_small_sorts sig (sent_at_sorts (image subst.now) (sent_at store.now.sents i.0))) parts.now }
{
    for i in 0..parts.len() {
        if !is_sent_within(store, subst, parts[i]) {
            return false;
        }
    }
    true
}

/// The nodes of parts that are grouped.
fn grouped_size(store: &Store, parts: &[SentId]) -> u64
    requires some { 0 < length parts.now }
    requires few { length parts.now ≤ MOST_PARTS }
    requires inside { All (λ i. i.0 < length store.now.sents) parts.now }
    ensures { (c : Binary) → result ≡ sent_size (grouped c (map (λ i. sent_at store.now.sents i.0) parts.now)) }
{
    let mut nodes: u64 = 0;
    for i in 0..parts.len() {
        nodes += 1 + store.sent_size(parts[i]);
    }
    nodes - 1
}

/// The levels of parts that are grouped.
fn grouped_depth(store: &Store, parts: &[SentId]) -> u64
    requires some { 0 < length parts.now }
    requires few { length parts.now ≤ MOST_PARTS }
    requires inside { All (λ i. i.0 < length store.now.sents) parts.now }
    ensures { (c : Binary) → result ≡ sent_depth (grouped c (map (λ i. sent_at store.now.sents i.0) parts.now)) }
{
    let mut i = parts.len() - 1;
    let mut levels = store.sent_depth(parts[i]);
    while i > 0 {
        i -= 1;
        levels = 1 + store.sent_depth(parts[i]).max(levels);
    }
    levels
}

fn connected_size(store: &Store, c: Conn, parts: &[SentId]) -> u64
    requires count { takes c (length parts.now) ≡ true }
    requires few { length parts.now ≤ MOST_PARTS }
    requires inside { All (λ i. i.0 < length store.now.sents) parts.now }
    ensures { result ≡ sent_size (connected c (map (λ i. sent_at store.now.sents i.0) parts.now)) }
{
    if c == Conn::Not {
        return 1 + store.sent_size(parts[0]);
    }
    grouped_size(store, parts)
}

fn connected_depth(store: &Store, c: Conn, parts: &[SentId]) -> u64
    requires count { takes c (length parts.now) ≡ true }
    requires few { length parts.now ≤ MOST_PARTS }
    requires inside { All (λ i. i.0 < length store.now.sents) parts.now }
    ensures { result ≡ sent_depth (connected c (map (λ i. sent_at store.now.sents i.0) parts.now)) }
{
    if c == Conn::Not {
        return 1 + store.sent_depth(parts[0]);
    }
    grouped_depth(store, parts)
}

fn check_connective(
    store: &Store,
    subst: &SortSubst,
    c: Conn,
    parts: &[SentId],
) -> Result<(), BuildError>
    requires count { takes c (length parts.now) ≡ true }
    requires few { length parts.now ≤ MOST_PARTS }
    requires inside { All (λ i. i.0 < length store.now.sents) parts.now }
    ensures few { OnOk result (IsSmall (connected c (map (λ i. sent_at store.now.sents i.0) parts.now))) }
    ensures measured { (sig : Signature) → IsSortedIn sig store.now → MatchMeasured (sent_measure sig (sent_at_sorts (image subst.now) (connected c (map (λ i. sent_at store.now.sents i.0) parts.now)))) result }
{
    let small = are_sents_within(store, subst, parts);
    let nodes = connected_size(store, c, parts);
    let levels = connected_depth(store, c, parts);
    check_limits(small, nodes, levels)
}

fn add_joined(
    alloc: Global,
    store: &mut Store,
    conn: Binary,
    p: SentId,
    q: SentId,
) -> Result<SentId, AllocError>
    requires left { p.0 < length store.old.sents }
    requires right { q.0 < length store.old.sents }
    requires small { IsSmall (joined conn (sent_at store.old.sents p.0) (sent_at store.old.sents q.0)) }
    ensures grows { Grows store.old store.new }
    ensures tree { IfOk result (λ r. IsSent store.new r.0 (joined conn (sent_at store.old.sents p.0) (sent_at store.old.sents q.0))) }
    ensures sorted { (sig : Signature) → IsSortedIn sig store.old → IsSortedIn sig store.new }
{
    let nodes = 1 + store.sent_size(p) + store.sent_size(q);
    let levels = 1 + store.sent_depth(p).max(store.sent_depth(q));
    let mut parts = Items::new(alloc);
    parts.push(p)?;
    parts.push(q)?;
    let sent = store.add_sent(SentNode::Conn(conn.conn(), parts), nodes, levels)?;
    Ok(sent)
}

fn add_negated(
    alloc: Global,
    store: &mut Store,
    subst: &SortSubst,
    p: SentId,
) -> Result<SentId, AllocError>
    requires inside { p.0 < length store.old.sents }
    requires small { IsSmall (negated (sent_at store.old.sents p.0)) }
    ensures grows { Grows store.old store.new }
    ensures tree { IfOk result (λ r. IsSent store.new r.0 (sent_at_sorts (image subst.now) (negated (sent_at store.old.sents p.0)))) }
    ensures sorted { (sig : Signature) → IsSortedIn sig store.old → ((v : SVar) → is_valid_sort sig (image subst.now v) ≡ true) → IsSortedIn sig store.new }
{
    let nodes = 1 + store.sent_size(p);
    let levels = 1 + store.sent_depth(p);
    let part = sent_at_sorts(alloc, store, subst, p)?;
    let mut parts = Items::new(alloc);
    parts.push(part)?;
    let sent = store.add_sent(SentNode::Conn(Conn::Not, parts), nodes, levels)?;
    Ok(sent)
}

fn add_grouped(
    alloc: Global,
    store: &mut Store,
    subst: &SortSubst,
    c: Binary,
    parts: &[SentId],
) -> Result<SentId, AllocError>
    requires some { 0 < length parts.now }
    requires inside { All (λ i. i.0 < length store.old.sents) parts.now }
    requires small { IsSmall (grouped c (map (λ i. sent_at store.old.sents i.0) parts.now)) }
    ensures grows { Grows store.old store.new }
    ensures tree { IfOk result (λ r. IsSent store.new r.0 (sent_at_sorts (image subst.now) (grouped c (map (λ i. sent_at store.old.sents i.0) parts.now)))) }
    ensures sorted { (sig : Signature) → IsSortedIn sig store.old → ((v : SVar) → is_valid_sort sig (image subst.now v) ≡ true) → IsSortedIn sig store.new }
{
    let mut i = parts.len() - 1;
    let mut sent = sent_at_sorts(alloc, store, subst, parts[i])?;
    while i > 0 {
        i -= 1;
        let left = sent_at_sorts(alloc, store, subst, parts[i])?;
        sent = add_joined(alloc, store, c, left, sent)?;
    }
    Ok(sent)
}

fn add_connected(
    alloc: Global,
    store: &mut Store,
    subst: &SortSubst,
    c: Conn,
    parts: &[SentId],
) -> Result<SentId, AllocError>
    requires count { takes c (length parts.now) ≡ true }
    requires inside { All (λ i. i.0 < length store.old.sents) parts.now }
    requires small { IsSmall (connected c (map (λ i. sent_at store.old.sents i.0) parts.now)) }
    ensures grows { Grows store.old store.new }
    ensures tree { IfOk result (λ r. IsSent store.new r.0 (sent_at_sorts (image subst.now) (connected c (map (λ i. sent_at store.old.sents i.0) parts.now)))) }
    ensures sorted { (sig : Signature) → IsSortedIn sig store.old → ((v : SVar) → is_valid_sort sig (image subst.now v) ≡ true) → IsSortedIn sig store.new }
{
    match c.binary() {
        None => add_negated(alloc, store, subst, parts[0]),
        Some(joining) => add_grouped(alloc, store, subst, joining, parts),
    }
}

fn build_connective(
    alloc: Global,
    store: &mut Store,
    c: Conn,
    parts: &[SentId],
) -> Result<SentId, BuildError>
    requires count { takes c (length parts.now) ≡ true }
    requires few { length parts.now ≤ MOST_PARTS }
    requires inside { All (λ i. i.0 < length store.old.sents) parts.now }
    ensures grows { Grows store.old store.new }
    ensures inside { IfOk result (λ r. r.0 < length store.new.sents) }
    ensures built { (sig : Signature) → IsSortedIn sig store.old → IsSentBuilt store.new (made_connective sig c (map (λ i. sent_at store.old.sents i.0) parts.now)) result }
    ensures sorted { (sig : Signature) → IsSortedIn sig store.old → IsSortedIn sig store.new }
{
    let pairs = connective_pairs(alloc, store, parts)?;
    let subst = solve(alloc, &pairs)?;
    check_connective(store, &subst, c, parts)?;
    let sent = add_connected(alloc, store, &subst, c, parts)?;
    Ok(sent)
}

/// The connective of some sentences, grouped to the right where there are more than two.
pub fn connective(
    alloc: Global,
    store: &mut Store,
    c: Conn,
    parts: &Vec<SentId>,
) -> Result<SentId, BuildError>
    requires few { length parts.now.items ≤ MOST_PARTS }
    requires inside { All (λ i. i.0 < length store.old.sents) parts.now.items }
    ensures grows { Grows store.old store.new }
    ensures inside { IfOk result (λ r. r.0 < length store.new.sents) }
    ensures built { (sig : Signature) → IsSortedIn sig store.old → IsSentBuilt store.new (made_connective sig c (map (λ i. sent_at store.old.sents i.0) parts.now.items)) result }
    ensures sorted { (sig : Signature) → IsSortedIn sig store.old → IsSortedIn sig store.new }
{
    if !takes(c, parts.len()) {
        return Err(BuildError::ArgCount(wanted(c), parts.len()));
    }
    match build_connective(alloc, store, c, parts.as_slice()) {
        Ok(sent) => {
            store.note_apart(alloc, sent)?;
            Ok(sent)
        }
        Err(refusal) => Err(refusal),
    }
}
