// Phrases become numbered nodes.

ghost use Rattle.std.specs.Prelude.{Bool, IfOk, None, map, option_map};
ghost use Rattle.ath_numbering.specs.Trees.{phrase_of, phrases_of, bindings_of, clauses_of, branches_of, otherwise_of};
ghost use Rattle.ath_numbering.specs.Trees.{closure_at, hypothesis_at, clauses_at, let_phrase};
ghost use Rattle.ath_syntax.specs.Proper.{Proper, ProperPhrases, ProperBindings, ProperClauses, ProperBranches};
ghost use Rattle.ath_syntax.specs.Nodes.{KeepsNodes};
ghost use Rattle.ath_syntax.specs.Stands.{IsForm, IsPhrase, ArePhrases, AreBindings, AreClauses, AreBranches};
ghost use Rattle.ath_syntax.specs.Tree.{ascribe_at, apply_at, call_at, check_at, pick_any_at, pick_witness_at};

use crate::kind::is_deduction;
use crate::pattern::number_pattern;
use crate::tree::{ClauseWord, ClosureWord, HypothesisWord, LetWord, PatternTree, PhraseTree};
use ath_sorts::Sym;
use ath_syntax::{Form, Node, PatId, PhraseId, Phrases, Pos, SortText};
use sqlite_items::{Boxed, Items};
use std::alloc::{AllocError, Global};

/// The number of a phrase's node.
#[cycle(phrases)]
#[tactic(auto, using(crate::proofs::FitLaws::new_fits))]
pub fn number_phrase(
    alloc: Global,
    phrases: &mut Phrases,
    tree: PhraseTree,
) -> Result<PhraseId, AllocError>
    requires { Proper (phrase_of tree) }
    ensures stands { IfOk result (λ i. IsPhrase phrases.new i (phrase_of tree)) }
    ensures kept { KeepsNodes phrases.old phrases.new }
{
    let deduction = is_deduction(&tree);
    let (pos, form) = placed_form(alloc, phrases, tree)?;
    let number = phrases.add(Node {
        pos,
        deduction,
        form,
    })?;
    Ok(number)
}

// The place and the form of a phrase, whose parts are numbered.
#[cycle(phrases)]
#[tactic(auto, using(crate::proofs::FormLaws::name_form, crate::proofs::FormLaws::variable_form, crate::proofs::FormLaws::string_form, crate::proofs::FormLaws::list_form, crate::proofs::FormLaws::try_form, crate::proofs::FormLaws::seq_form))]
fn placed_form(
    alloc: Global,
    phrases: &mut Phrases,
    tree: PhraseTree,
) -> Result<(Pos, Form), AllocError>
    requires { Proper (phrase_of tree) }
    ensures stands { IfOk result (λ r. IsForm phrases.new r.0 r.1 (phrase_of tree)) }
    ensures kept { KeepsNodes phrases.old phrases.new }
{
    match tree {
        PhraseTree::Name(pos, name) => Ok((pos, Form::Name(name))),
        PhraseTree::Var(pos, name, number, sort) => Ok((pos, Form::Var(name, number, sort))),
        PhraseTree::Str(pos, text) => Ok((pos, Form::Str(text))),
        PhraseTree::List(pos, parts) => Ok((pos, Form::List(number_all(alloc, phrases, parts)?))),
        PhraseTree::Ascribe(pos, body, sort) => ascribe(alloc, phrases, pos, body, sort),
        PhraseTree::Apply(pos, head, args) => apply(alloc, phrases, pos, head, args),
        PhraseTree::Call(pos, head, args) => call(alloc, phrases, pos, head, args),
        PhraseTree::Closure(word, pos, names, body) => {
            closure(alloc, phrases, word, pos, names, body)
        }
        PhraseTree::Let(word, pos, rows, body) => bind(alloc, phrases, word, pos, rows, body),
        PhraseTree::Clauses(word, pos, subject, clauses) => {
            choose(alloc, phrases, word, pos, subject, clauses)
        }
        PhraseTree::Check(pos, rows, otherwise) => check(alloc, phrases, pos, rows, otherwise),
        PhraseTree::Try(pos, parts) => Ok((pos, Form::Try(number_all(alloc, phrases, parts)?))),
        PhraseTree::Seq(pos, parts) => Ok((pos, Form::Seq(number_all(alloc, phrases, parts)?))),
        PhraseTree::Hypothesis(word, pos, name, first, second) => {
            suppose(alloc, phrases, word, pos, name, first, second)
        }
        PhraseTree::PickAny(pos, names, body) => pick_any(alloc, phrases, pos, names, body),
        PhraseTree::PickWitness(pos, name, first, second) => {
            pick_witness(alloc, phrases, pos, name, first, second)
        }
    }
}

// Below, each form as its place and its form, with its parts numbered.

#[cycle(phrases)]
#[tactic(auto, using(crate::proofs::FormLaws::ascribe_form))]
fn ascribe(
    alloc: Global,
    phrases: &mut Phrases,
    pos: Pos,
    body: Boxed<PhraseTree>,
    sort: SortText,
) -> Result<(Pos, Form), AllocError>
    requires { Proper (ascribe_at pos (phrase_of body) sort) }
    ensures stands { IfOk result (λ r. IsForm phrases.new r.0 r.1 (ascribe_at pos (phrase_of body) sort)) }
    ensures kept { KeepsNodes phrases.old phrases.new }
{
    let body = number_phrase(alloc, phrases, body.into_inner())?;
    Ok((pos, Form::Ascribe(body, sort)))
}

#[cycle(phrases)]
#[tactic(auto, using(crate::proofs::FormLaws::apply_form, crate::proofs::PhraseLists::loose_phrases))]
fn apply(
    alloc: Global,
    phrases: &mut Phrases,
    pos: Pos,
    head: Boxed<PhraseTree>,
    args: Items<PhraseTree>,
) -> Result<(Pos, Form), AllocError>
    requires { Proper (apply_at pos (phrase_of head) (phrases_of (map phrase_of args))) }
    ensures stands { IfOk result (λ r. IsForm phrases.new r.0 r.1 (apply_at pos (phrase_of head) (phrases_of (map phrase_of args)))) }
    ensures kept { KeepsNodes phrases.old phrases.new }
{
    let head = number_phrase(alloc, phrases, head.into_inner())?;
    let args = number_all(alloc, phrases, args)?;
    Ok((pos, Form::Apply(head, args)))
}

#[cycle(phrases)]
#[tactic(auto, using(crate::proofs::FormLaws::call_form))]
fn call(
    alloc: Global,
    phrases: &mut Phrases,
    pos: Pos,
    head: Boxed<PhraseTree>,
    args: Items<PhraseTree>,
) -> Result<(Pos, Form), AllocError>
    requires { Proper (call_at pos (phrase_of head) (phrases_of (map phrase_of args))) }
    ensures stands { IfOk result (λ r. IsForm phrases.new r.0 r.1 (call_at pos (phrase_of head) (phrases_of (map phrase_of args)))) }
    ensures kept { KeepsNodes phrases.old phrases.new }
{
    let head = number_phrase(alloc, phrases, head.into_inner())?;
    let args = number_all(alloc, phrases, args)?;
    Ok((pos, Form::Call(head, args)))
}

// `lambda` and `method`.
#[cycle(phrases)]
#[tactic(auto, using(crate::proofs::FormLaws::lambda_form, crate::proofs::FormLaws::method_form))]
fn closure(
    alloc: Global,
    phrases: &mut Phrases,
    word: ClosureWord,
    pos: Pos,
    names: Items<Sym>,
    body: Boxed<PhraseTree>,
) -> Result<(Pos, Form), AllocError>
    requires { Proper (closure_at word pos names (phrase_of body)) }
    ensures stands { IfOk result (λ r. IsForm phrases.new r.0 r.1 (closure_at word pos names (phrase_of body))) }
    ensures kept { KeepsNodes phrases.old phrases.new }
{
    let body = number_phrase(alloc, phrases, body.into_inner())?;
    match word {
        ClosureWord::Lambda => Ok((pos, Form::Lambda(names, body))),
        ClosureWord::Method => Ok((pos, Form::Method(names, body))),
    }
}

// `let` and `letrec`.
#[cycle(phrases)]
#[tactic(auto, using(crate::proofs::FormLaws::let_form, crate::proofs::FormLaws::letrec_form, crate::proofs::PhraseLists::let_rows))]
fn bind(
    alloc: Global,
    phrases: &mut Phrases,
    word: LetWord,
    pos: Pos,
    rows: Items<(Sym, PhraseTree)>,
    body: Boxed<PhraseTree>,
) -> Result<(Pos, Form), AllocError>
    requires { Proper (let_phrase word pos (bindings_of (map (λ b. (b.0, phrase_of b.1)) rows)) (phrase_of body)) }
    ensures stands { IfOk result (λ r. IsForm phrases.new r.0 r.1 (let_phrase word pos (bindings_of (map (λ b. (b.0, phrase_of b.1)) rows)) (phrase_of body))) }
    ensures kept { KeepsNodes phrases.old phrases.new }
{
    let rows = number_bindings(alloc, phrases, rows)?;
    let body = number_phrase(alloc, phrases, body.into_inner())?;
    match word {
        LetWord::Let => Ok((pos, Form::Let(rows, body))),
        LetWord::LetRec => Ok((pos, Form::LetRec(rows, body))),
    }
}

// The forms with an expression and then clauses.
#[cycle(phrases)]
#[tactic(auto, using(crate::proofs::FormLaws::match_form, crate::proofs::FormLaws::induct_form, crate::proofs::FormLaws::cases_form))]
fn choose(
    alloc: Global,
    phrases: &mut Phrases,
    word: ClauseWord,
    pos: Pos,
    subject: Boxed<PhraseTree>,
    clauses: Items<(PatternTree, PhraseTree)>,
) -> Result<(Pos, Form), AllocError>
    requires { Proper (clauses_at word pos (phrase_of subject) (clauses_of (map (λ c. (c.0, phrase_of c.1)) clauses))) }
    ensures stands { IfOk result (λ r. IsForm phrases.new r.0 r.1 (clauses_at word pos (phrase_of subject) (clauses_of (map (λ c. (c.0, phrase_of c.1)) clauses)))) }
    ensures kept { KeepsNodes phrases.old phrases.new }
{
    let subject = number_phrase(alloc, phrases, subject.into_inner())?;
    let clauses = number_clauses(alloc, phrases, clauses)?;
    match word {
        ClauseWord::Match => Ok((pos, Form::Match(subject, clauses))),
        ClauseWord::Induct => Ok((pos, Form::Induct(subject, clauses))),
        ClauseWord::Cases => Ok((pos, Form::Cases(subject, clauses))),
    }
}

#[cycle(phrases)]
#[tactic(auto, using(crate::proofs::FormLaws::check_form, crate::proofs::FormLaws::check_else_form))]
fn check(
    alloc: Global,
    phrases: &mut Phrases,
    pos: Pos,
    rows: Items<(PhraseTree, PhraseTree)>,
    otherwise: Option<Boxed<PhraseTree>>,
) -> Result<(Pos, Form), AllocError>
    requires { Proper (check_at pos (branches_of (map (λ b. (phrase_of b.0, phrase_of b.1)) rows)) (otherwise_of (option_map phrase_of otherwise))) }
    ensures stands { IfOk result (λ r. IsForm phrases.new r.0 r.1 (check_at pos (branches_of (map (λ b. (phrase_of b.0, phrase_of b.1)) rows)) (otherwise_of (option_map phrase_of otherwise)))) }
    ensures kept { KeepsNodes phrases.old phrases.new }
{
    let rows = number_branches(alloc, phrases, rows)?;
    match otherwise {
        None => Ok((pos, Form::Check(rows, None))),
        Some(body) => {
            let body = number_phrase(alloc, phrases, body.into_inner())?;
            Ok((pos, Form::Check(rows, Some(body))))
        }
    }
}

// The forms with a sentence and then a deduction.
#[cycle(phrases)]
#[tactic(auto, using(crate::proofs::FormLaws::assume_form, crate::proofs::FormLaws::absurd_form, crate::proofs::FormLaws::conclude_form))]
fn suppose(
    alloc: Global,
    phrases: &mut Phrases,
    word: HypothesisWord,
    pos: Pos,
    name: Option<Sym>,
    first: Boxed<PhraseTree>,
    second: Boxed<PhraseTree>,
) -> Result<(Pos, Form), AllocError>
    requires { Proper (hypothesis_at word pos name (phrase_of first) (phrase_of second)) }
    ensures stands { IfOk result (λ r. IsForm phrases.new r.0 r.1 (hypothesis_at word pos name (phrase_of first) (phrase_of second))) }
    ensures kept { KeepsNodes phrases.old phrases.new }
{
    let first = number_phrase(alloc, phrases, first.into_inner())?;
    let second = number_phrase(alloc, phrases, second.into_inner())?;
    match word {
        HypothesisWord::Assume => Ok((pos, Form::Assume(name, first, second))),
        HypothesisWord::Absurd => Ok((pos, Form::Absurd(name, first, second))),
        HypothesisWord::Conclude => Ok((pos, Form::Conclude(name, first, second))),
    }
}

#[cycle(phrases)]
#[tactic(auto, using(crate::proofs::FormLaws::pick_any_form))]
fn pick_any(
    alloc: Global,
    phrases: &mut Phrases,
    pos: Pos,
    names: Items<(Sym, Option<SortText>)>,
    body: Boxed<PhraseTree>,
) -> Result<(Pos, Form), AllocError>
    requires { Proper (pick_any_at pos names (phrase_of body)) }
    ensures stands { IfOk result (λ r. IsForm phrases.new r.0 r.1 (pick_any_at pos names (phrase_of body))) }
    ensures kept { KeepsNodes phrases.old phrases.new }
{
    let body = number_phrase(alloc, phrases, body.into_inner())?;
    Ok((pos, Form::PickAny(names, body)))
}

#[cycle(phrases)]
#[tactic(auto, using(crate::proofs::FormLaws::pick_witness_form))]
fn pick_witness(
    alloc: Global,
    phrases: &mut Phrases,
    pos: Pos,
    name: Sym,
    first: Boxed<PhraseTree>,
    second: Boxed<PhraseTree>,
) -> Result<(Pos, Form), AllocError>
    requires { Proper (pick_witness_at pos name (phrase_of first) (phrase_of second)) }
    ensures stands { IfOk result (λ r. IsForm phrases.new r.0 r.1 (pick_witness_at pos name (phrase_of first) (phrase_of second))) }
    ensures kept { KeepsNodes phrases.old phrases.new }
{
    let first = number_phrase(alloc, phrases, first.into_inner())?;
    let second = number_phrase(alloc, phrases, second.into_inner())?;
    Ok((pos, Form::PickWitness(name, first, second)))
}

// The numbers of phrases. Here and below the last one's is made first, since a list gives its items from its end.
#[cycle(phrases)]
fn number_all(
    alloc: Global,
    phrases: &mut Phrases,
    trees: Items<PhraseTree>,
) -> Result<Items<PhraseId>, AllocError>
    requires { ProperPhrases None (phrases_of (map phrase_of trees)) }
    ensures stands { IfOk result (λ is. ArePhrases phrases.new is (phrases_of (map phrase_of trees))) }
    ensures kept { KeepsNodes phrases.old phrases.new }
{
    let mut trees = trees;
    let mut numbers = Vec::new(alloc);
    while let Some(tree) = trees.pop() {
        numbers.push(number_phrase(alloc, phrases, tree)?)?;
    }
    numbers.reverse();
    Ok(Items::from_vec(numbers))
}

#[cycle(phrases)]
fn number_bindings(
    alloc: Global,
    phrases: &mut Phrases,
    rows: Items<(Sym, PhraseTree)>,
) -> Result<Items<(Sym, PhraseId)>, AllocError>
    requires { ProperBindings None (bindings_of (map (λ b. (b.0, phrase_of b.1)) rows)) }
    ensures stands { IfOk result (λ is. AreBindings phrases.new is (bindings_of (map (λ b. (b.0, phrase_of b.1)) rows))) }
    ensures kept { KeepsNodes phrases.old phrases.new }
{
    let mut rows = rows;
    let mut numbers = Vec::new(alloc);
    while let Some((name, tree)) = rows.pop() {
        numbers.push((name, number_phrase(alloc, phrases, tree)?))?;
    }
    numbers.reverse();
    Ok(Items::from_vec(numbers))
}

#[cycle(phrases)]
fn number_clauses(
    alloc: Global,
    phrases: &mut Phrases,
    rows: Items<(PatternTree, PhraseTree)>,
) -> Result<Items<(PatId, PhraseId)>, AllocError>
    requires { (d : Bool) × ProperClauses d (clauses_of (map (λ c. (c.0, phrase_of c.1)) rows)) }
    ensures stands { IfOk result (λ is. AreClauses phrases.new is (clauses_of (map (λ c. (c.0, phrase_of c.1)) rows))) }
    ensures kept { KeepsNodes phrases.old phrases.new }
{
    let mut rows = rows;
    let mut numbers = Vec::new(alloc);
    while let Some((pattern, tree)) = rows.pop() {
        let pattern = number_pattern(alloc, phrases, pattern)?;
        let phrase = number_phrase(alloc, phrases, tree)?;
        numbers.push((pattern, phrase))?;
    }
    numbers.reverse();
    Ok(Items::from_vec(numbers))
}

#[cycle(phrases)]
fn number_branches(
    alloc: Global,
    phrases: &mut Phrases,
    rows: Items<(PhraseTree, PhraseTree)>,
) -> Result<Items<(PhraseId, PhraseId)>, AllocError>
    requires { (d : Bool) × ProperBranches d (branches_of (map (λ b. (phrase_of b.0, phrase_of b.1)) rows)) }
    ensures stands { IfOk result (λ is. AreBranches phrases.new is (branches_of (map (λ b. (phrase_of b.0, phrase_of b.1)) rows))) }
    ensures kept { KeepsNodes phrases.old phrases.new }
{
    let mut rows = rows;
    let mut numbers = Vec::new(alloc);
    while let Some((condition, body)) = rows.pop() {
        let condition = number_phrase(alloc, phrases, condition)?;
        let body = number_phrase(alloc, phrases, body)?;
        numbers.push((condition, body))?;
    }
    numbers.reverse();
    Ok(Items::from_vec(numbers))
}
