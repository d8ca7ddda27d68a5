// The values of what was read, the newest last.

ghost use Rattle.std.specs.Prelude.{◌≡◌, ◌∷◌, [], IfOk, MatchOption, map};
ghost use Rattle.std.specs.List.{list_any};
ghost use Rattle.ath_syntax.specs.Tree.{name_at, same_name};
ghost use Rattle.ath_grammar.specs.Tokens.{at};
ghost use Rattle.ath_grammar.specs.Trees.{v1, rest, place_in, name_in, text_in, sort_in, sorts_in, pattern_in, patterns_in, names_in, phrase_in, phrases_in, bindings_in, clauses_in, branches_in, label_in, binders_in, constructors_in, parameters_in, named, variable, string, deduces, saved, may_stand, seen, no_place, no_name};
ghost use Rattle.ath_numbering.specs.Trees.{pattern_of, patterns_of, phrase_of, phrases_of, directive_of};
ghost use Rattle.ath_builder.specs.Values.{value_of, held, rows_of, cases_of, pairs_of, directive_in};

use crate::names::{BindingList, NameList};
use ath_grammar::{Guard, Lexeme};
use ath_numbering::kind::is_deduction;
use ath_numbering::{DirectiveTree, PatternTree, PhraseTree, StatementTree};
use ath_sorts::Sym;
use ath_syntax::{Pos, SortText, Text};
use sqlite_items::Items;
use std::alloc::{AllocError, Global};

/// What a token or some tokens left: a place, a name, a part of a directive, or a list of parts.
#[derive(Drop)]
pub(crate) enum Value {
    Place(Pos),
    Name(Pos, Sym),
    Variable(Pos, Sym, u64),
    Text(Pos, Text),
    Sort(SortText),
    Sorts(Items<SortText>),
    Pattern(PatternTree),
    Patterns(Items<PatternTree>),
    Names(NameList),
    Phrase(PhraseTree),
    Phrases(Items<PhraseTree>),
    Bindings(BindingList),
    Clauses(Items<(PatternTree, PhraseTree)>),
    Branches(Items<(PhraseTree, PhraseTree)>),
    /// the name of a sentence, where it has one
    Label(Option<Sym>),
    Binders(Items<(Sym, Option<SortText>)>),
    Constructors(Items<(Sym, Items<SortText>)>),
    /// the sort variables of a `declare`, where they are written
    Parameters(Option<Items<Sym>>),
    Directive(DirectiveTree),
}

/// The values of what was read of a directive. Contracts see them by `held`, the newest first.
#[derive(Drop)]
pub struct Values {
    pub(crate) values: Vec<Value>,
}

// What stands for a part that isn't there.
const NO_PLACE: Pos = Pos {
    file: 0,
    line: 0,
    col: 0,
};

const NO_NAME: Sym = Sym(0);

fn no_phrase() -> PhraseTree
    ensures { phrase_of result ≡ name_at no_place no_name }
{
    PhraseTree::Name(NO_PLACE, NO_NAME)
}

impl Values {
    /// Nothing is read.
    pub fn new(alloc: Global) -> Values
        ensures { held result ≡ [] }
    {
        Values {
            values: Vec::new(alloc),
        }
    }

    /// A value becomes the newest.
    #[tactic(auto, using(crate::proofs::Held::held_last))]
    pub(crate) fn push(&mut self, value: Value) -> Result<(), AllocError>
        ensures { IfOk result (λ _. held self.new ≡ value_of value ∷ held self.old) }
    {
        self.values.push(value)?;
        Ok(())
    }

    /// Takes the newest value.
    #[tactic(auto, using(crate::proofs::Held::held_last))]
    pub(crate) fn pop(&mut self) -> Value
        ensures value { value_of result ≡ v1 (held self.old) }
        ensures rest { held self.new ≡ rest (held self.old) }
    {
        match self.values.pop() {
            Some(value) => value,
            None => Value::Label(None),
        }
    }

    pub(crate) fn place(&mut self) -> Pos
        ensures value { result ≡ place_in (v1 (held self.old)) }
        ensures rest { held self.new ≡ rest (held self.old) }
    {
        match self.pop() {
            Value::Place(pos) => pos,
            other => {
                drop(other);
                NO_PLACE
            }
        }
    }

    pub(crate) fn name(&mut self) -> Sym
        ensures value { result ≡ name_in (v1 (held self.old)) }
        ensures rest { held self.new ≡ rest (held self.old) }
    {
        match self.pop() {
            Value::Name(_, name) => name,
            other => {
                drop(other);
                NO_NAME
            }
        }
    }

    pub(crate) fn text(&mut self, alloc: Global) -> Text
        ensures value { result ≡ text_in (v1 (held self.old)) }
        ensures rest { held self.new ≡ rest (held self.old) }
    {
        match self.pop() {
            Value::Text(_, text) => text,
            other => {
                drop(other);
                Text::empty(alloc)
            }
        }
    }

    pub(crate) fn sort(&mut self) -> SortText
        ensures value { result ≡ sort_in (v1 (held self.old)) }
        ensures rest { held self.new ≡ rest (held self.old) }
    {
        match self.pop() {
            Value::Sort(sort) => sort,
            other => {
                drop(other);
                SortText::Name(NO_NAME)
            }
        }
    }

    pub(crate) fn sorts(&mut self, alloc: Global) -> Items<SortText>
        ensures value { result ≡ sorts_in (v1 (held self.old)) }
        ensures rest { held self.new ≡ rest (held self.old) }
    {
        match self.pop() {
            Value::Sorts(sorts) => sorts,
            other => {
                drop(other);
                Items::new(alloc)
            }
        }
    }

    pub(crate) fn pattern(&mut self) -> PatternTree
        ensures value { pattern_of result ≡ pattern_in (v1 (held self.old)) }
        ensures rest { held self.new ≡ rest (held self.old) }
    {
        match self.pop() {
            Value::Pattern(pattern) => pattern,
            other => {
                drop(other);
                PatternTree::Any
            }
        }
    }

    pub(crate) fn patterns(&mut self, alloc: Global) -> Items<PatternTree>
        ensures value { patterns_of (map pattern_of result) ≡ patterns_in (v1 (held self.old)) }
        ensures rest { held self.new ≡ rest (held self.old) }
    {
        match self.pop() {
            Value::Patterns(patterns) => patterns,
            other => {
                drop(other);
                Items::new(alloc)
            }
        }
    }

    pub(crate) fn names(&mut self, alloc: Global) -> NameList
        ensures value { result ≡ names_in (v1 (held self.old)) }
        ensures rest { held self.new ≡ rest (held self.old) }
    {
        match self.pop() {
            Value::Names(names) => names,
            other => {
                drop(other);
                NameList::new(alloc)
            }
        }
    }

    pub(crate) fn phrase(&mut self) -> PhraseTree
        ensures value { phrase_of result ≡ phrase_in (v1 (held self.old)) }
        ensures rest { held self.new ≡ rest (held self.old) }
    {
        match self.pop() {
            Value::Phrase(phrase) => phrase,
            other => {
                drop(other);
                no_phrase()
            }
        }
    }

    pub(crate) fn phrases(&mut self, alloc: Global) -> Items<PhraseTree>
        ensures value { phrases_of (map phrase_of result) ≡ phrases_in (v1 (held self.old)) }
        ensures rest { held self.new ≡ rest (held self.old) }
    {
        match self.pop() {
            Value::Phrases(phrases) => phrases,
            other => {
                drop(other);
                Items::new(alloc)
            }
        }
    }

    pub(crate) fn bindings(&mut self, alloc: Global) -> BindingList
        ensures value { rows_of result ≡ bindings_in (v1 (held self.old)) }
        ensures rest { held self.new ≡ rest (held self.old) }
    {
        match self.pop() {
            Value::Bindings(bindings) => bindings,
            other => {
                drop(other);
                BindingList::new(alloc)
            }
        }
    }

    pub(crate) fn clauses(&mut self, alloc: Global) -> Items<(PatternTree, PhraseTree)>
        ensures value { cases_of result ≡ clauses_in (v1 (held self.old)) }
        ensures rest { held self.new ≡ rest (held self.old) }
    {
        match self.pop() {
            Value::Clauses(clauses) => clauses,
            other => {
                drop(other);
                Items::new(alloc)
            }
        }
    }

    pub(crate) fn branches(&mut self, alloc: Global) -> Items<(PhraseTree, PhraseTree)>
        ensures value { pairs_of result ≡ branches_in (v1 (held self.old)) }
        ensures rest { held self.new ≡ rest (held self.old) }
    {
        match self.pop() {
            Value::Branches(branches) => branches,
            other => {
                drop(other);
                Items::new(alloc)
            }
        }
    }

    pub(crate) fn label(&mut self) -> Option<Sym>
        ensures value { result ≡ label_in (v1 (held self.old)) }
        ensures rest { held self.new ≡ rest (held self.old) }
    {
        match self.pop() {
            Value::Label(name) => name,
            other => {
                drop(other);
                None
            }
        }
    }

    pub(crate) fn binders(&mut self, alloc: Global) -> Items<(Sym, Option<SortText>)>
        ensures value { result ≡ binders_in (v1 (held self.old)) }
        ensures rest { held self.new ≡ rest (held self.old) }
    {
        match self.pop() {
            Value::Binders(binders) => binders,
            other => {
                drop(other);
                Items::new(alloc)
            }
        }
    }

    pub(crate) fn constructors(&mut self, alloc: Global) -> Items<(Sym, Items<SortText>)>
        ensures value { result ≡ constructors_in (v1 (held self.old)) }
        ensures rest { held self.new ≡ rest (held self.old) }
    {
        match self.pop() {
            Value::Constructors(rows) => rows,
            other => {
                drop(other);
                Items::new(alloc)
            }
        }
    }

    pub(crate) fn parameters(&mut self) -> Option<Items<Sym>>
        ensures value { result ≡ parameters_in (v1 (held self.old)) }
        ensures rest { held self.new ≡ rest (held self.old) }
    {
        match self.pop() {
            Value::Parameters(names) => names,
            other => {
                drop(other);
                None
            }
        }
    }

    pub(crate) fn named(&mut self) -> PhraseTree
        ensures value { phrase_of result ≡ named (v1 (held self.old)) }
        ensures rest { held self.new ≡ rest (held self.old) }
    {
        match self.pop() {
            Value::Name(pos, name) => PhraseTree::Name(pos, name),
            other => {
                drop(other);
                no_phrase()
            }
        }
    }

    pub(crate) fn string(&mut self) -> PhraseTree
        ensures value { phrase_of result ≡ string (v1 (held self.old)) }
        ensures rest { held self.new ≡ rest (held self.old) }
    {
        match self.pop() {
            Value::Text(pos, text) => PhraseTree::Str(pos, text),
            other => {
                drop(other);
                no_phrase()
            }
        }
    }

    pub(crate) fn variable(&mut self, sort: Option<SortText>) -> PhraseTree
        ensures value { phrase_of result ≡ variable sort (v1 (held self.old)) }
        ensures rest { held self.new ≡ rest (held self.old) }
    {
        match self.pop() {
            Value::Variable(pos, name, index) => PhraseTree::Var(pos, name, index, sort),
            other => {
                drop(other);
                no_phrase()
            }
        }
    }

    /// What a token leaves becomes the newest: its name, number or text, or the place of what it begins.
    pub fn save(&mut self, alloc: Global, pos: Pos, token: &Lexeme) -> Result<(), AllocError>
        ensures { IfOk result (λ _. held self.new ≡ saved (at pos token.now) (held self.old)) }
    {
        match token {
            Lexeme::Word(_, name) => self.push(Value::Name(pos, *name)),
            Lexeme::Wild(name) => self.push(Value::Name(pos, *name)),
            Lexeme::SomeOf(name) => self.push(Value::Name(pos, *name)),
            Lexeme::Variable(name, index) => self.push(Value::Variable(pos, *name, *index)),
            Lexeme::SortVariable(name) => self.push(Value::Name(pos, *name)),
            Lexeme::Text(text) => {
                let text = text.copy(alloc)?;
                self.push(Value::Text(pos, text))
            }
            Lexeme::Opener(_) => self.push(Value::Place(pos)),
            Lexeme::Directive(_) => self.push(Value::Place(pos)),
            Lexeme::Mark(_) => Ok(()),
        }
    }

    /// The newest value.
    #[tactic(auto, using(crate::proofs::Held::held_last))]
    fn newest(&self) -> Option<&Value>
        ensures { MatchOption result (held self.now ≡ []) (λ v. v1 (held self.now) ≡ value_of v.now) }
    {
        match self.values.as_slice().split_last() {
            None => None,
            Some((value, _)) => Some(value),
        }
    }

    /// Whether the newest value is a deduction, or begins or ends with one.
    pub fn kind(&self) -> bool
        ensures { result ≡ deduces (v1 (held self.now)) }
    {
        match self.newest() {
            None => false,
            Some(value) => deduces(value),
        }
    }

    /// Whether the newest value is a list with this name.
    fn has(&self, name: Sym) -> bool
        ensures { result ≡ list_any (same_name name) (seen (v1 (held self.now))) }
    {
        match self.newest() {
            None => false,
            Some(value) => has(value, name),
        }
    }

    /// Whether the token may stand there.
    pub fn allows(&self, guard: Guard, pos: Pos, token: &Lexeme) -> bool
        ensures { result ≡ may_stand guard (at pos token.now) (held self.now) }
    {
        match guard {
            Guard::Free => true,
            Guard::New => match token {
                Lexeme::Word(_, name) => !self.has(*name),
                Lexeme::SortVariable(name) => !self.has(*name),
                _ => !self.has(NO_NAME),
            },
        }
    }

    /// The directive that is the newest value.
    pub fn directive(self) -> DirectiveTree
        ensures { directive_of result ≡ directive_in (v1 (held self)) }
    {
        let mut values = self;
        match values.pop() {
            Value::Directive(directive) => directive,
            other => {
                drop(other);
                DirectiveTree {
                    pos: NO_PLACE,
                    statement: StatementTree::Phrase(no_phrase()),
                }
            }
        }
    }
}

#[tactic(auto, using(crate::proofs::Held::last_kind))]
fn deduces(value: &Value) -> bool
    ensures { result ≡ deduces (value_of value.now) }
{
    match value {
        Value::Phrase(phrase) => is_deduction(phrase),
        Value::Phrases(phrases) => match phrases.as_slice().first() {
            None => false,
            Some(phrase) => is_deduction(phrase),
        },
        Value::Bindings(bindings) => match bindings.as_slice().split_last() {
            None => false,
            Some((row, _)) => is_deduction(&row.1),
        },
        Value::Clauses(clauses) => match clauses.as_slice().first() {
            None => false,
            Some(row) => is_deduction(&row.1),
        },
        Value::Branches(branches) => match branches.as_slice().first() {
            None => false,
            Some(row) => is_deduction(&row.1),
        },
        _ => false,
    }
}

/// Whether a value is a list with this name.
#[tactic(auto, using(crate::proofs::Held::names_bound))]
fn has(value: &Value, name: Sym) -> bool
    ensures { result ≡ list_any (same_name name) (seen (value_of value.now)) }
{
    match value {
        Value::Names(names) => names.has(name),
        Value::Bindings(bindings) => bindings.has(name),
        _ => false,
    }
}
