// Phrases and patterns as trees, while they are read.

use ath_sorts::Sym;
use ath_syntax::{Pos, SortText, Text};
use sqlite_items::{Boxed, Items};

/// `lambda` and `method`.
#[derive(Clone, Copy)]
pub enum ClosureWord {
    Lambda,
    Method,
}

/// `let` and `letrec`.
#[derive(Clone, Copy)]
pub enum LetWord {
    Let,
    LetRec,
}

/// The forms with an expression and then clauses.
#[derive(Clone, Copy)]
pub enum ClauseWord {
    Match,
    Induct,
    Cases,
}

/// The forms with a sentence, that may be named, and then a deduction.
#[derive(Clone, Copy)]
pub enum HypothesisWord {
    Assume,
    Absurd,
    Conclude,
}

/// A pattern.
#[derive(Drop)]
pub enum PatternTree {
    Any,
    Name(Sym),
    Str(Text),
    List(Items<PatternTree>),
    ListOf(Boxed<PatternTree>, Boxed<PatternTree>),
    App(Sym, Items<PatternTree>),
    SomeOf(Sym, Sym),
}

/// A phrase. A form of one shape with others comes with its keyword.
#[derive(Drop)]
pub enum PhraseTree {
    Name(Pos, Sym),
    Var(Pos, Sym, u64, Option<SortText>),
    Str(Pos, Text),
    List(Pos, Items<PhraseTree>),
    Ascribe(Pos, Boxed<PhraseTree>, SortText),
    Apply(Pos, Boxed<PhraseTree>, Items<PhraseTree>),
    Call(Pos, Boxed<PhraseTree>, Items<PhraseTree>),
    Closure(ClosureWord, Pos, Items<Sym>, Boxed<PhraseTree>),
    Let(LetWord, Pos, Items<(Sym, PhraseTree)>, Boxed<PhraseTree>),
    Clauses(ClauseWord, Pos, Boxed<PhraseTree>, Items<(PatternTree, PhraseTree)>),
    Check(Pos, Items<(PhraseTree, PhraseTree)>, Option<Boxed<PhraseTree>>),
    Try(Pos, Items<PhraseTree>),
    Seq(Pos, Items<PhraseTree>),
    Hypothesis(HypothesisWord, Pos, Option<Sym>, Boxed<PhraseTree>, Boxed<PhraseTree>),
    PickAny(Pos, Items<(Sym, Option<SortText>)>, Boxed<PhraseTree>),
    PickWitness(Pos, Sym, Boxed<PhraseTree>, Boxed<PhraseTree>),
}

/// What a directive says.
#[derive(Drop)]
pub enum StatementTree {
    Domain(Sym, Items<Sym>),
    Datatype(Sym, Items<Sym>, Items<(Sym, Items<SortText>)>),
    Declare(Items<Sym>, Option<Items<Sym>>, Items<SortText>, SortText),
    Define(Sym, PhraseTree),
    DefineFun(Sym, Items<Sym>, PhraseTree),
    Assert(Option<Sym>, bool, PhraseTree),
    Load(Text),
    Phrase(PhraseTree),
}

/// A directive and its place.
#[derive(Drop)]
pub struct DirectiveTree {
    pub pos: Pos,
    pub statement: StatementTree,
}
