// The sort instance of one sentence that another is.

ghost use Rattle.std.specs.Prelude.{◌≡◌, ◌<◌, length, IfOk};
ghost use Rattle.ath_alpha.specs.Answer.{answer};
ghost use Rattle.ath_alpha.specs.Binders.{lefts_of, rights_of};
ghost use Rattle.ath_sorts.specs.Instances.{is_rigid};
ghost use Rattle.ath_terms.specs.Trees.{term_at, sent_at};
ghost use Rattle.ath_trees.specs.Instance.{match_term, match_sent, sort_instance};
ghost use Rattle.ath_trees.specs.Nameless.{placed, nameless_term, nameless_under};

use crate::binders::{Binders, Meeting, meeting_of};
use crate::matching::{match_sort, match_sorts};
use ath_sorts::{SVar, SortSubst};
use ath_terms::variables::is_namesake;
use ath_terms::{SentNode, Store, TermNode};
use ath_trees::{SentId, TermId, Var};
use std::alloc::{AllocError, Global};

/// Where a walk over two sentences stands: in this store and under these binders, with these sort variables rigid.
#[derive(Clone, Copy)]
struct Walk<'a> {
    store: &'a Store,
    rigid: &'a [SVar],
    binders: &'a Binders<'a>,
}

fn match_var(at: &Walk, found: &mut SortSubst, v: &Var, w: &Var) -> Result<bool, AllocError>
    ensures { IfOk result (λ b. answer b found.new ≡ match_term (is_rigid at.now.rigid.now) (placed (lefts_of at.now.binders.now) 0 v.now) (placed (rights_of at.now.binders.now) 0 w.now) found.old) }
{
    match meeting_of(at.binders, v, w) {
        Meeting::Bound => Ok(true),
        Meeting::Free => {
            if !is_namesake(v, w) {
                return Ok(false);
            }
            match_sort(found, at.rigid, &v.sort, &w.sort)
        }
        Meeting::Apart => Ok(false),
    }
}

fn match_terms(at: &Walk, found: &mut SortSubst, s: TermId, t: TermId) -> Result<bool, AllocError>
    requires left { s.0 < length at.now.store.now.terms }
    requires right { t.0 < length at.now.store.now.terms }
    ensures { IfOk result (λ b. answer b found.new ≡ match_term (is_rigid at.now.rigid.now) (nameless_term (lefts_of at.now.binders.now) (term_at at.now.store.now.terms s.0)) (nameless_term (rights_of at.now.binders.now) (term_at at.now.store.now.terms t.0)) found.old) }
{
    match at.store.term(s) {
        TermNode::Var(v) => match at.store.term(t) {
            TermNode::Var(w) => match_var(at, found, v, w),
            TermNode::App(_, _, _) => Ok(false),
        },
        TermNode::App(f, sorts, args) => match at.store.term(t) {
            TermNode::Var(_) => Ok(false),
            TermNode::App(g, rest, parts) => {
                let xs = args.as_slice();
                let ys = parts.as_slice();
                if f.0 != g.0 || xs.len() != ys.len() {
                    return Ok(false);
                }
                if !match_sorts(found, at.rigid, sorts.as_slice(), rest.as_slice())? {
                    return Ok(false);
                }
                for i in 0..xs.len() {
                    if !match_terms(at, found, xs[i], ys[i])? {
                        return Ok(false);
                    }
                }
                Ok(true)
            }
        },
    }
}

fn match_sents(at: &Walk, found: &mut SortSubst, p: SentId, q: SentId) -> Result<bool, AllocError>
    requires left { p.0 < length at.now.store.now.sents }
    requires right { q.0 < length at.now.store.now.sents }
    ensures { IfOk result (λ b. answer b found.new ≡ match_sent (is_rigid at.now.rigid.now) (nameless_under (lefts_of at.now.binders.now) (sent_at at.now.store.now.sents p.0)) (nameless_under (rights_of at.now.binders.now) (sent_at at.now.store.now.sents q.0)) found.old) }
{
    match at.store.sent(p) {
        SentNode::Atom(s) => match at.store.sent(q) {
            SentNode::Atom(t) => match_terms(at, found, *s, *t),
            SentNode::Eq(_, _) => Ok(false),
            SentNode::Conn(_, _) => Ok(false),
            SentNode::Quant(_, _, _) => Ok(false),
        },
        SentNode::Eq(s, t) => match at.store.sent(q) {
            SentNode::Atom(_) => Ok(false),
            SentNode::Eq(u, v) => {
                if !match_terms(at, found, *s, *u)? {
                    return Ok(false);
                }
                match_terms(at, found, *t, *v)
            }
            SentNode::Conn(_, _) => Ok(false),
            SentNode::Quant(_, _, _) => Ok(false),
        },
        SentNode::Conn(c, ids) => match at.store.sent(q) {
            SentNode::Atom(_) => Ok(false),
            SentNode::Eq(_, _) => Ok(false),
            SentNode::Conn(d, rest) => {
                let xs = ids.as_slice();
                let ys = rest.as_slice();
                if *c != *d || xs.len() != ys.len() {
                    return Ok(false);
                }
                for i in 0..xs.len() {
                    if !match_sents(at, found, xs[i], ys[i])? {
                        return Ok(false);
                    }
                }
                Ok(true)
            }
            SentNode::Quant(_, _, _) => Ok(false),
        },
        SentNode::Quant(k, v, body) => match at.store.sent(q) {
            SentNode::Atom(_) => Ok(false),
            SentNode::Eq(_, _) => Ok(false),
            SentNode::Conn(_, _) => Ok(false),
            SentNode::Quant(l, w, other) => {
                if *k != *l {
                    return Ok(false);
                }
                if !match_sort(found, at.rigid, &v.sort, &w.sort)? {
                    return Ok(false);
                }
                let binders = Binders::Under(v, w, at.binders);
                let inner = Walk {
                    store: at.store,
                    rigid: at.rigid,
                    binders: &binders,
                };
                match_sents(&inner, found, *body, *other)
            }
        },
    }
}

/// The substitution, off the rigid sort variables, by which one sentence becomes another but for the names and indices of
/// bound variables; none where there is none.
pub fn sort_instance(
    alloc: Global,
    store: &Store,
    p: SentId,
    q: SentId,
    rigid: &Vec<SVar>,
) -> Result<Option<SortSubst>, AllocError>
    requires left { p.0 < length store.now.sents }
    requires right { q.0 < length store.now.sents }
    ensures { IfOk result (λ found. found ≡ sort_instance (is_rigid rigid.now.items) (sent_at store.now.sents p.0) (sent_at store.now.sents q.0)) }
{
    let mut found = SortSubst::new(alloc);
    let outside = Walk {
        store,
        rigid,
        binders: &Binders::Outside,
    };
    let matched = match_sents(&outside, &mut found, p, q)?;
    if matched { Ok(Some(found)) } else { Ok(None) }
}
