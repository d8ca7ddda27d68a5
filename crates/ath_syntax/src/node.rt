// Nodes of phrases and patterns.

use crate::place::Pos;
use crate::text::Text;
use ath_sorts::Sym;
use sqlite_items::Items;

/// The number of a phrase's node.
#[derive(Clone, Copy, Debug, PartialEq, Eq)]
pub struct PhraseId(pub usize);

/// The number of a pattern's node.
#[derive(Clone, Copy, Debug, PartialEq, Eq)]
pub struct PatId(pub usize);

/// A sort as it is written: a name, a sort variable, or a name with arguments in parentheses.
#[derive(Debug, Drop)]
pub enum SortText {
    Name(Sym),
    Var(Sym),
    Con(Sym, Items<SortText>),
}

/// The form of a phrase. A binding is a name with its phrase, a clause a pattern with its phrase, a clause of `Check`
/// a condition with its phrase.
#[derive(Debug, Drop)]
pub enum Form {
    Name(Sym),
    Var(Sym, u64, Option<SortText>),
    Str(Text),
    List(Items<PhraseId>),
    Ascribe(PhraseId, SortText),
    Apply(PhraseId, Items<PhraseId>),
    Call(PhraseId, Items<PhraseId>),
    Lambda(Items<Sym>, PhraseId),
    Method(Items<Sym>, PhraseId),
    Let(Items<(Sym, PhraseId)>, PhraseId),
    LetRec(Items<(Sym, PhraseId)>, PhraseId),
    Match(PhraseId, Items<(PatId, PhraseId)>),
    Check(Items<(PhraseId, PhraseId)>, Option<PhraseId>),
    Try(Items<PhraseId>),
    Seq(Items<PhraseId>),
    Assume(Option<Sym>, PhraseId, PhraseId),
    Absurd(Option<Sym>, PhraseId, PhraseId),
    PickAny(Items<(Sym, Option<SortText>)>, PhraseId),
    PickWitness(Sym, PhraseId, PhraseId),
    Induct(PhraseId, Items<(PatId, PhraseId)>),
    Cases(PhraseId, Items<(PatId, PhraseId)>),
    Conclude(Option<Sym>, PhraseId, PhraseId),
}

/// A phrase: its place, whether it is a deduction (else it is an expression), and its form.
#[derive(Drop)]
pub struct Node {
    pub pos: Pos,
    pub deduction: bool,
    pub form: Form,
}

/// A pattern. The first name of `Some` is the word `some-var`, `some-term`, `some-sent` or `some-list`.
#[derive(Drop)]
pub enum PatNode {
    Any,
    Name(Sym),
    Str(Text),
    List(Items<PatId>),
    ListOf(PatId, PatId),
    App(Sym, Items<PatId>),
    Some(Sym, Sym),
}
