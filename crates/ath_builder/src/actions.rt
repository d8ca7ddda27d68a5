// What the grammar's actions make of the newest values.

ghost use Rattle.std.specs.Prelude.{◌≡◌, ◌∷◌, ◌++◌, [], None, Ok, IfOk, map};
ghost use Rattle.ath_syntax.specs.Tree.{assert_is, check_at, no_else, else_phrase};
ghost use Rattle.ath_grammar.specs.Trees.{act_on, a_phrase, a_pattern, binders, says, name_in, binders_in, v1, v2, v3, v4, rest, rest2, rest3, rest4, place_in, names_in, phrase_in, bindings_in, clauses_in, label_in, add_pattern, add_phrase, add_binding, add_clause, add_branch};
ghost use Rattle.ath_numbering.specs.Trees.{pattern_of, patterns_of, phrase_of, phrases_of, statement_of, closure_at, let_phrase, clauses_at, hypothesis_at};
ghost use Rattle.ath_builder.specs.Values.{value_of, held, rows_of, cases_of, pairs_of};

use crate::names::{BindingList, NameList};
use crate::place::place_of;
use crate::values::{Value, Values};
use ath_grammar::Action;
use ath_numbering::{
    ClauseWord, ClosureWord, DirectiveTree, HypothesisWord, LetWord, PatternTree, PhraseTree,
    StatementTree,
};
use ath_sorts::Sym;
use ath_syntax::{Pos, SortText};
use sqlite_items::{Boxed, Items};
use std::alloc::{AllocError, Global};

impl Values {
    /// What an action makes of the newest values takes their place.
    pub fn act(&mut self, alloc: Global, action: Action) -> Result<(), AllocError>
        ensures { IfOk result (λ _. held self.new ≡ act_on action (held self.old)) }
    {
        match action {
            Action::Drop => {
                self.forget();
                Ok(())
            }
            Action::Again => self.again(),
            Action::NoSorts => self.push(Value::Sorts(Items::new(alloc))),
            Action::AddSort => self.add_sort(alloc),
            Action::NameSort => self.name_sort(),
            Action::VariableSort => self.variable_sort(),
            Action::ConSort => self.con_sort(alloc),
            Action::NoPatterns => self.push(Value::Patterns(Items::new(alloc))),
            Action::AddPattern => self.add_pattern(alloc),
            Action::AnyPattern => self.any_pattern(),
            Action::NamePattern => self.name_pattern(),
            Action::StringPattern => self.string_pattern(alloc),
            Action::ListPattern => self.list_pattern(alloc),
            Action::ListOfPattern => self.list_of_pattern(alloc),
            Action::SomePattern => self.some_pattern(),
            Action::AppPattern => self.app_pattern(alloc),
            Action::NoNames => self.push(Value::Names(NameList::new(alloc))),
            Action::OneName => self.one_name(alloc),
            Action::AddName => self.add_name(alloc),
            Action::Name => self.name_phrase(),
            Action::Variable => self.variable_phrase(),
            Action::SortedVariable => self.sorted_variable(),
            Action::String => self.string_phrase(),
            Action::NoPhrases => self.push(Value::Phrases(Items::new(alloc))),
            Action::OnePhrase => self.one_phrase(alloc),
            Action::AddPhrase => self.add_phrase(alloc),
            Action::List => self.list(alloc),
            Action::Unwrap => self.unwrap(),
            Action::Ascribe => self.ascribe(alloc),
            Action::Apply => self.apply(alloc),
            Action::Call => self.call(alloc),
            Action::Lambda => self.closure(alloc, ClosureWord::Lambda),
            Action::Method => self.closure(alloc, ClosureWord::Method),
            Action::NoBindings => self.push(Value::Bindings(BindingList::new(alloc))),
            Action::AddBinding => self.add_binding(alloc),
            Action::Let => self.bind(alloc, LetWord::Let),
            Action::LetRec => self.bind(alloc, LetWord::LetRec),
            Action::NoClauses => self.push(Value::Clauses(Items::new(alloc))),
            Action::AddClause => self.add_clause(alloc),
            Action::Match => self.choose(alloc, ClauseWord::Match),
            Action::Induct => self.choose(alloc, ClauseWord::Induct),
            Action::Cases => self.choose(alloc, ClauseWord::Cases),
            Action::NoBranches => self.push(Value::Branches(Items::new(alloc))),
            Action::AddBranch => self.add_branch(alloc),
            Action::Check => self.check(alloc),
            Action::CheckElse => self.check_else(alloc),
            Action::Try => self.attempt(alloc),
            Action::Sequence => self.sequence(alloc),
            Action::Named => self.name_label(),
            Action::Unnamed => self.no_label(),
            Action::Assume => self.suppose(alloc, HypothesisWord::Assume),
            Action::Absurd => self.suppose(alloc, HypothesisWord::Absurd),
            Action::Conclude => self.suppose(alloc, HypothesisWord::Conclude),
            Action::NoBinders => self.push(Value::Binders(Items::new(alloc))),
            Action::AddBinder => self.add_binder(alloc),
            Action::AddSortedBinder => self.add_sorted_binder(alloc),
            Action::PickAny => self.pick_any(alloc),
            Action::PickWitness => self.pick_witness(alloc),
            Action::Domain => self.domain(alloc),
            Action::NoConstructors => self.push(Value::Constructors(Items::new(alloc))),
            Action::AddConstructor => self.add_constructor(alloc),
            Action::Datatype => self.datatype(alloc),
            Action::NoParameters => self.push(Value::Parameters(None)),
            Action::Parameters => self.list_parameters(alloc),
            Action::NoArguments => self.no_arguments(alloc),
            Action::Declare => self.declare(alloc),
            Action::Define => self.define(),
            Action::DefineFun => self.define_fun(alloc),
            Action::Assert => self.assert(false),
            Action::AssertClosed => self.assert(true),
            Action::Load => self.load(alloc),
            Action::Say => self.say(),
            Action::SayAt => self.say_at(),
        }
    }

    fn forget(&mut self)
        ensures { held self.new ≡ rest (held self.old) }
    {
        drop(self.pop());
    }

    /// The value becomes the newest, where what goes beneath it was added.
    fn put_back(&mut self, added: Result<(), AllocError>, value: Value) -> Result<(), AllocError>
        ensures { IfOk result (λ _. (added ≡ Ok tt) × (held self.new ≡ value_of value ∷ held self.old)) }
    {
        match added {
            Ok(()) => self.push(value),
            Err(error) => {
                drop(value);
                Err(error)
            }
        }
    }

    fn again(&mut self) -> Result<(), AllocError>
        ensures { IfOk result (λ _. held self.new ≡ act_on Action.Again (held self.old)) }
    {
        let pos = self.place();
        self.push(Value::Place(pos))?;
        self.push(Value::Place(pos))
    }

    // A pattern, a phrase or a directive becomes the newest value.

    fn push_pattern(&mut self, pattern: PatternTree) -> Result<(), AllocError>
        ensures { IfOk result (λ _. held self.new ≡ a_pattern (pattern_of pattern) ∷ held self.old) }
    {
        self.push(Value::Pattern(pattern))
    }

    fn push_phrase(&mut self, phrase: PhraseTree) -> Result<(), AllocError>
        ensures { IfOk result (λ _. held self.new ≡ a_phrase (phrase_of phrase) ∷ held self.old) }
    {
        self.push(Value::Phrase(phrase))
    }

    /// A directive at the newest value, a place.
    fn push_directive(&mut self, statement: StatementTree) -> Result<(), AllocError>
        ensures { IfOk result (λ _. held self.new ≡ says (v1 (held self.old)) (statement_of statement) ∷ rest (held self.old)) }
    {
        let pos = self.place();
        self.push(Value::Directive(DirectiveTree { pos, statement }))
    }

    // Below, what an action makes.

    fn add_sort(&mut self, alloc: Global) -> Result<(), AllocError>
        ensures { IfOk result (λ _. held self.new ≡ act_on Action.AddSort (held self.old)) }
    {
        let sort = self.sort();
        let mut sorts = self.sorts(alloc);
        sorts.push(sort)?;
        self.push(Value::Sorts(sorts))
    }

    fn name_sort(&mut self) -> Result<(), AllocError>
        ensures { IfOk result (λ _. held self.new ≡ act_on Action.NameSort (held self.old)) }
    {
        let name = self.name();
        self.push(Value::Sort(SortText::Name(name)))
    }

    fn variable_sort(&mut self) -> Result<(), AllocError>
        ensures { IfOk result (λ _. held self.new ≡ act_on Action.VariableSort (held self.old)) }
    {
        let name = self.name();
        self.push(Value::Sort(SortText::Var(name)))
    }

    fn con_sort(&mut self, alloc: Global) -> Result<(), AllocError>
        ensures { IfOk result (λ _. held self.new ≡ act_on Action.ConSort (held self.old)) }
    {
        let sorts = self.sorts(alloc);
        let name = self.name();
        self.forget();
        self.push(Value::Sort(SortText::Con(name, sorts)))
    }

    fn add_pattern(&mut self, alloc: Global) -> Result<(), AllocError>
        ensures { IfOk result (λ _. held self.new ≡ act_on Action.AddPattern (held self.old)) }
    {
        let pattern = self.pattern();
        let patterns = with_pattern(self.patterns(alloc), pattern)?;
        self.push(Value::Patterns(patterns))
    }

    fn any_pattern(&mut self) -> Result<(), AllocError>
        ensures { IfOk result (λ _. held self.new ≡ act_on Action.AnyPattern (held self.old)) }
    {
        self.forget();
        self.push_pattern(PatternTree::Any)
    }

    fn name_pattern(&mut self) -> Result<(), AllocError>
        ensures { IfOk result (λ _. held self.new ≡ act_on Action.NamePattern (held self.old)) }
    {
        let name = self.name();
        self.push_pattern(PatternTree::Name(name))
    }

    fn string_pattern(&mut self, alloc: Global) -> Result<(), AllocError>
        ensures { IfOk result (λ _. held self.new ≡ act_on Action.StringPattern (held self.old)) }
    {
        let text = self.text(alloc);
        self.push_pattern(PatternTree::Str(text))
    }

    fn list_pattern(&mut self, alloc: Global) -> Result<(), AllocError>
        ensures { IfOk result (λ _. held self.new ≡ act_on Action.ListPattern (held self.old)) }
    {
        let parts = self.patterns(alloc);
        self.forget();
        self.push_pattern(PatternTree::List(parts))
    }

    fn list_of_pattern(&mut self, alloc: Global) -> Result<(), AllocError>
        ensures { IfOk result (λ _. held self.new ≡ act_on Action.ListOfPattern (held self.old)) }
    {
        let more = Boxed::new(alloc, self.pattern())?;
        let first = Boxed::new(alloc, self.pattern())?;
        self.forget();
        self.push_pattern(PatternTree::ListOf(first, more))
    }

    fn some_pattern(&mut self) -> Result<(), AllocError>
        ensures { IfOk result (λ _. held self.new ≡ act_on Action.SomePattern (held self.old)) }
    {
        let name = self.name();
        let word = self.name();
        self.forget();
        self.push_pattern(PatternTree::SomeOf(word, name))
    }

    fn app_pattern(&mut self, alloc: Global) -> Result<(), AllocError>
        ensures { IfOk result (λ _. held self.new ≡ act_on Action.AppPattern (held self.old)) }
    {
        let parts = self.patterns(alloc);
        let name = self.name();
        self.forget();
        self.push_pattern(PatternTree::App(name, parts))
    }

    fn one_name(&mut self, alloc: Global) -> Result<(), AllocError>
        ensures { IfOk result (λ _. held self.new ≡ act_on Action.OneName (held self.old)) }
    {
        let name = self.name();
        let names = NameList::new(alloc).with(name)?;
        self.push(Value::Names(names))
    }

    fn add_name(&mut self, alloc: Global) -> Result<(), AllocError>
        ensures { IfOk result (λ _. held self.new ≡ act_on Action.AddName (held self.old)) }
    {
        let name = self.name();
        let names = self.names(alloc).with(name)?;
        self.push(Value::Names(names))
    }

    fn name_phrase(&mut self) -> Result<(), AllocError>
        ensures { IfOk result (λ _. held self.new ≡ act_on Action.Name (held self.old)) }
    {
        let phrase = self.named();
        self.push_phrase(phrase)
    }

    fn variable_phrase(&mut self) -> Result<(), AllocError>
        ensures { IfOk result (λ _. held self.new ≡ act_on Action.Variable (held self.old)) }
    {
        let phrase = self.variable(None);
        self.push_phrase(phrase)
    }

    fn sorted_variable(&mut self) -> Result<(), AllocError>
        ensures { IfOk result (λ _. held self.new ≡ act_on Action.SortedVariable (held self.old)) }
    {
        let sort = self.sort();
        let phrase = self.variable(Some(sort));
        self.push_phrase(phrase)
    }

    fn string_phrase(&mut self) -> Result<(), AllocError>
        ensures { IfOk result (λ _. held self.new ≡ act_on Action.String (held self.old)) }
    {
        let phrase = self.string();
        self.push_phrase(phrase)
    }

    fn one_phrase(&mut self, alloc: Global) -> Result<(), AllocError>
        ensures { IfOk result (λ _. held self.new ≡ act_on Action.OnePhrase (held self.old)) }
    {
        let phrase = self.phrase();
        let mut phrases = Items::new(alloc);
        phrases.push(phrase)?;
        self.push(Value::Phrases(phrases))
    }

    fn add_phrase(&mut self, alloc: Global) -> Result<(), AllocError>
        ensures { IfOk result (λ _. held self.new ≡ act_on Action.AddPhrase (held self.old)) }
    {
        let phrase = self.phrase();
        let phrases = with_phrase(self.phrases(alloc), phrase)?;
        self.push(Value::Phrases(phrases))
    }

    fn list(&mut self, alloc: Global) -> Result<(), AllocError>
        ensures { IfOk result (λ _. held self.new ≡ act_on Action.List (held self.old)) }
    {
        let parts = self.phrases(alloc);
        let pos = self.place();
        self.push_phrase(PhraseTree::List(pos, parts))
    }

    fn unwrap(&mut self) -> Result<(), AllocError>
        ensures { IfOk result (λ _. held self.new ≡ act_on Action.Unwrap (held self.old)) }
    {
        let phrase = self.phrase();
        self.forget();
        self.push_phrase(phrase)
    }

    fn ascribe(&mut self, alloc: Global) -> Result<(), AllocError>
        ensures { IfOk result (λ _. held self.new ≡ act_on Action.Ascribe (held self.old)) }
    {
        let sort = self.sort();
        let body = Boxed::new(alloc, self.phrase())?;
        let pos = self.place();
        self.push_phrase(PhraseTree::Ascribe(pos, body, sort))
    }

    fn apply(&mut self, alloc: Global) -> Result<(), AllocError>
        ensures { IfOk result (λ _. held self.new ≡ act_on Action.Apply (held self.old)) }
    {
        let args = self.phrases(alloc);
        let head = Boxed::new(alloc, self.phrase())?;
        let pos = self.place();
        self.push_phrase(PhraseTree::Apply(pos, head, args))
    }

    fn call(&mut self, alloc: Global) -> Result<(), AllocError>
        ensures { IfOk result (λ _. held self.new ≡ act_on Action.Call (held self.old)) }
    {
        let args = self.phrases(alloc);
        let head = Boxed::new(alloc, self.phrase())?;
        let pos = self.place();
        self.push_phrase(PhraseTree::Call(pos, head, args))
    }

    fn closure(&mut self, alloc: Global, word: ClosureWord) -> Result<(), AllocError>
        ensures { IfOk result (λ _. held self.new ≡ a_phrase (closure_at word (place_in (v3 (held self.old))) (names_in (v2 (held self.old))) (phrase_in (v1 (held self.old)))) ∷ rest3 (held self.old)) }
    {
        let body = Boxed::new(alloc, self.phrase())?;
        let names = self.names(alloc).into_items();
        let pos = self.place();
        self.push_phrase(PhraseTree::Closure(word, pos, names, body))
    }

    fn add_binding(&mut self, alloc: Global) -> Result<(), AllocError>
        ensures { IfOk result (λ _. held self.new ≡ act_on Action.AddBinding (held self.old)) }
    {
        let body = self.phrase();
        let name = self.name();
        let rows = with_row(self.bindings(alloc), name, body)?;
        self.push(Value::Bindings(rows))
    }

    fn rows(&mut self, alloc: Global) -> Items<(Sym, PhraseTree)>
        ensures value { rows_of result ≡ bindings_in (v1 (held self.old)) }
        ensures rest { held self.new ≡ rest (held self.old) }
    {
        self.bindings(alloc).into_items()
    }

    fn bind(&mut self, alloc: Global, word: LetWord) -> Result<(), AllocError>
        ensures { IfOk result (λ _. held self.new ≡ a_phrase (let_phrase word (place_in (v3 (held self.old))) (bindings_in (v2 (held self.old))) (phrase_in (v1 (held self.old)))) ∷ rest3 (held self.old)) }
    {
        let body = Boxed::new(alloc, self.phrase())?;
        let rows = self.rows(alloc);
        let pos = self.place();
        self.push_phrase(let_tree(word, pos, rows, body))
    }

    fn add_clause(&mut self, alloc: Global) -> Result<(), AllocError>
        ensures { IfOk result (λ _. held self.new ≡ act_on Action.AddClause (held self.old)) }
    {
        let body = self.phrase();
        let pattern = self.pattern();
        let clauses = with_clause(self.clauses(alloc), pattern, body)?;
        self.push(Value::Clauses(clauses))
    }

    fn choose(&mut self, alloc: Global, word: ClauseWord) -> Result<(), AllocError>
        ensures { IfOk result (λ _. held self.new ≡ a_phrase (clauses_at word (place_in (v3 (held self.old))) (phrase_in (v2 (held self.old))) (clauses_in (v1 (held self.old)))) ∷ rest3 (held self.old)) }
    {
        let clauses = self.clauses(alloc);
        let subject = Boxed::new(alloc, self.phrase())?;
        let pos = self.place();
        self.push_phrase(PhraseTree::Clauses(word, pos, subject, clauses))
    }

    fn add_branch(&mut self, alloc: Global) -> Result<(), AllocError>
        ensures { IfOk result (λ _. held self.new ≡ act_on Action.AddBranch (held self.old)) }
    {
        let body = self.phrase();
        let condition = self.phrase();
        let branches = with_branch(self.branches(alloc), condition, body)?;
        self.push(Value::Branches(branches))
    }

    fn check(&mut self, alloc: Global) -> Result<(), AllocError>
        ensures { IfOk result (λ _. held self.new ≡ act_on Action.Check (held self.old)) }
    {
        let branches = self.branches(alloc);
        let pos = self.place();
        self.push_phrase(check_tree(pos, branches))
    }

    fn check_else(&mut self, alloc: Global) -> Result<(), AllocError>
        ensures { IfOk result (λ _. held self.new ≡ act_on Action.CheckElse (held self.old)) }
    {
        let body = Boxed::new(alloc, self.phrase())?;
        let branches = self.branches(alloc);
        let pos = self.place();
        self.push_phrase(check_else_tree(pos, branches, body))
    }

    fn attempt(&mut self, alloc: Global) -> Result<(), AllocError>
        ensures { IfOk result (λ _. held self.new ≡ act_on Action.Try (held self.old)) }
    {
        let parts = self.phrases(alloc);
        let pos = self.place();
        self.push_phrase(PhraseTree::Try(pos, parts))
    }

    fn sequence(&mut self, alloc: Global) -> Result<(), AllocError>
        ensures { IfOk result (λ _. held self.new ≡ act_on Action.Sequence (held self.old)) }
    {
        let parts = self.phrases(alloc);
        let pos = self.place();
        self.push_phrase(PhraseTree::Seq(pos, parts))
    }

    fn name_label(&mut self) -> Result<(), AllocError>
        ensures { IfOk result (λ _. held self.new ≡ act_on Action.Named (held self.old)) }
    {
        let name = self.name();
        self.push(Value::Label(Some(name)))
    }

    fn no_label(&mut self) -> Result<(), AllocError>
        ensures { IfOk result (λ _. held self.new ≡ act_on Action.Unnamed (held self.old)) }
    {
        let value = self.pop();
        let added = self.push(Value::Label(None));
        self.put_back(added, value)
    }

    fn suppose(&mut self, alloc: Global, word: HypothesisWord) -> Result<(), AllocError>
        ensures { IfOk result (λ _. held self.new ≡ a_phrase (hypothesis_at word (place_in (v4 (held self.old))) (label_in (v3 (held self.old))) (phrase_in (v2 (held self.old))) (phrase_in (v1 (held self.old)))) ∷ rest4 (held self.old)) }
    {
        let body = Boxed::new(alloc, self.phrase())?;
        let sentence = Boxed::new(alloc, self.phrase())?;
        let name = self.label();
        let pos = self.place();
        self.push_phrase(PhraseTree::Hypothesis(word, pos, name, sentence, body))
    }

    fn add_bare_binder(&mut self, alloc: Global) -> Result<(), AllocError>
        ensures { IfOk result (λ _. held self.new ≡ binders (binders_in (v2 (held self.old)) ++ ((name_in (v1 (held self.old)), None) ∷ [])) ∷ rest2 (held self.old)) }
    {
        let name = self.name();
        let mut names = self.binders(alloc);
        names.push((name, None))?;
        self.push(Value::Binders(names))
    }

    fn add_binder(&mut self, alloc: Global) -> Result<(), AllocError>
        ensures { IfOk result (λ _. held self.new ≡ act_on Action.AddBinder (held self.old)) }
    {
        let value = self.pop();
        let added = self.add_bare_binder(alloc);
        self.put_back(added, value)
    }

    fn add_sorted_binder(&mut self, alloc: Global) -> Result<(), AllocError>
        ensures { IfOk result (λ _. held self.new ≡ act_on Action.AddSortedBinder (held self.old)) }
    {
        let sort = self.sort();
        let name = self.name();
        let mut binders = self.binders(alloc);
        binders.push((name, Some(sort)))?;
        self.push(Value::Binders(binders))
    }

    fn pick_any(&mut self, alloc: Global) -> Result<(), AllocError>
        ensures { IfOk result (λ _. held self.new ≡ act_on Action.PickAny (held self.old)) }
    {
        let body = Boxed::new(alloc, self.phrase())?;
        let names = self.binders(alloc);
        let pos = self.place();
        self.push_phrase(PhraseTree::PickAny(pos, names, body))
    }

    fn pick_witness(&mut self, alloc: Global) -> Result<(), AllocError>
        ensures { IfOk result (λ _. held self.new ≡ act_on Action.PickWitness (held self.old)) }
    {
        let body = Boxed::new(alloc, self.phrase())?;
        let sentence = Boxed::new(alloc, self.phrase())?;
        let name = self.name();
        let pos = self.place();
        self.push_phrase(PhraseTree::PickWitness(pos, name, sentence, body))
    }

    fn domain(&mut self, alloc: Global) -> Result<(), AllocError>
        ensures { IfOk result (λ _. held self.new ≡ act_on Action.Domain (held self.old)) }
    {
        let vars = self.names(alloc).into_items();
        let name = self.name();
        self.push_directive(StatementTree::Domain(name, vars))
    }

    fn add_constructor(&mut self, alloc: Global) -> Result<(), AllocError>
        ensures { IfOk result (λ _. held self.new ≡ act_on Action.AddConstructor (held self.old)) }
    {
        let sorts = self.sorts(alloc);
        let name = self.name();
        let mut rows = self.constructors(alloc);
        rows.push((name, sorts))?;
        self.push(Value::Constructors(rows))
    }

    fn datatype(&mut self, alloc: Global) -> Result<(), AllocError>
        ensures { IfOk result (λ _. held self.new ≡ act_on Action.Datatype (held self.old)) }
    {
        let rows = self.constructors(alloc);
        let vars = self.names(alloc).into_items();
        let name = self.name();
        self.push_directive(StatementTree::Datatype(name, vars, rows))
    }

    fn list_parameters(&mut self, alloc: Global) -> Result<(), AllocError>
        ensures { IfOk result (λ _. held self.new ≡ act_on Action.Parameters (held self.old)) }
    {
        let names = self.names(alloc).into_items();
        self.forget();
        self.forget();
        self.push(Value::Parameters(Some(names)))
    }

    fn no_arguments(&mut self, alloc: Global) -> Result<(), AllocError>
        ensures { IfOk result (λ _. held self.new ≡ act_on Action.NoArguments (held self.old)) }
    {
        let value = self.pop();
        let added = self.push(Value::Sorts(Items::new(alloc)));
        self.put_back(added, value)
    }

    fn declare(&mut self, alloc: Global) -> Result<(), AllocError>
        ensures { IfOk result (λ _. held self.new ≡ act_on Action.Declare (held self.old)) }
    {
        let sort = self.sort();
        let args = self.sorts(alloc);
        let vars = self.parameters();
        let names = self.names(alloc).into_items();
        self.push_directive(StatementTree::Declare(names, vars, args, sort))
    }

    fn define(&mut self) -> Result<(), AllocError>
        ensures { IfOk result (λ _. held self.new ≡ act_on Action.Define (held self.old)) }
    {
        let body = self.phrase();
        let name = self.name();
        self.push_directive(StatementTree::Define(name, body))
    }

    fn define_fun(&mut self, alloc: Global) -> Result<(), AllocError>
        ensures { IfOk result (λ _. held self.new ≡ act_on Action.DefineFun (held self.old)) }
    {
        let body = self.phrase();
        let params = self.names(alloc).into_items();
        let name = self.name();
        self.push_directive(StatementTree::DefineFun(name, params, body))
    }

    fn assert(&mut self, closed: bool) -> Result<(), AllocError>
        ensures { IfOk result (λ _. held self.new ≡ says (v3 (held self.old)) (assert_is (label_in (v2 (held self.old))) closed (phrase_in (v1 (held self.old)))) ∷ rest3 (held self.old)) }
    {
        let body = self.phrase();
        let name = self.label();
        self.push_directive(StatementTree::Assert(name, closed, body))
    }

    fn load(&mut self, alloc: Global) -> Result<(), AllocError>
        ensures { IfOk result (λ _. held self.new ≡ act_on Action.Load (held self.old)) }
    {
        let text = self.text(alloc);
        self.push_directive(StatementTree::Load(text))
    }

    fn say(&mut self) -> Result<(), AllocError>
        ensures { IfOk result (λ _. held self.new ≡ act_on Action.Say (held self.old)) }
    {
        let phrase = self.phrase();
        let pos = place_of(&phrase);
        self.push(Value::Directive(DirectiveTree {
            pos,
            statement: StatementTree::Phrase(phrase),
        }))
    }

    fn say_at(&mut self) -> Result<(), AllocError>
        ensures { IfOk result (λ _. held self.new ≡ act_on Action.SayAt (held self.old)) }
    {
        let phrase = self.phrase();
        self.push_directive(StatementTree::Phrase(phrase))
    }
}

// Lists with one more at the end.

#[tactic(auto, using(crate::proofs::Held::patterns_last))]
fn with_pattern(
    list: Items<PatternTree>,
    pattern: PatternTree,
) -> Result<Items<PatternTree>, AllocError>
    ensures { IfOk result (λ l. patterns_of (map pattern_of l) ≡ add_pattern (patterns_of (map pattern_of list)) (pattern_of pattern)) }
{
    let mut list = list;
    list.push(pattern)?;
    Ok(list)
}

#[tactic(auto, using(crate::proofs::Held::phrases_last))]
fn with_phrase(list: Items<PhraseTree>, phrase: PhraseTree) -> Result<Items<PhraseTree>, AllocError>
    ensures { IfOk result (λ l. phrases_of (map phrase_of l) ≡ add_phrase (phrases_of (map phrase_of list)) (phrase_of phrase)) }
{
    let mut list = list;
    list.push(phrase)?;
    Ok(list)
}

#[tactic(auto, using(crate::proofs::Held::rows_last))]
fn with_row(list: BindingList, name: Sym, body: PhraseTree) -> Result<BindingList, AllocError>
    ensures { IfOk result (λ l. rows_of l ≡ add_binding (rows_of list) name (phrase_of body)) }
{
    list.with(name, body)
}

#[tactic(auto, using(crate::proofs::Held::cases_last))]
fn with_clause(
    list: Items<(PatternTree, PhraseTree)>,
    pattern: PatternTree,
    body: PhraseTree,
) -> Result<Items<(PatternTree, PhraseTree)>, AllocError>
    ensures { IfOk result (λ l. cases_of l ≡ add_clause (cases_of list) (pattern_of pattern) (phrase_of body)) }
{
    let mut list = list;
    list.push((pattern, body))?;
    Ok(list)
}

#[tactic(auto, using(crate::proofs::Held::pairs_last))]
fn with_branch(
    list: Items<(PhraseTree, PhraseTree)>,
    condition: PhraseTree,
    body: PhraseTree,
) -> Result<Items<(PhraseTree, PhraseTree)>, AllocError>
    ensures { IfOk result (λ l. pairs_of l ≡ add_branch (pairs_of list) (phrase_of condition) (phrase_of body)) }
{
    let mut list = list;
    list.push((condition, body))?;
    Ok(list)
}

// Trees whose parts stand in lists of pairs.

#[tactic(auto, using(crate::proofs::Held::let_is))]
fn let_tree(
    word: LetWord,
    pos: Pos,
    rows: Items<(Sym, PhraseTree)>,
    body: Boxed<PhraseTree>,
) -> PhraseTree
    ensures { phrase_of result ≡ let_phrase word pos (rows_of rows) (phrase_of body) }
{
    PhraseTree::Let(word, pos, rows, body)
}

#[tactic(auto, using(crate::proofs::Held::check_is))]
fn check_tree(pos: Pos, branches: Items<(PhraseTree, PhraseTree)>) -> PhraseTree
    ensures { phrase_of result ≡ check_at pos (pairs_of branches) no_else }
{
    PhraseTree::Check(pos, branches, None)
}

#[tactic(auto, using(crate::proofs::Held::check_else_is))]
fn check_else_tree(
    pos: Pos,
    branches: Items<(PhraseTree, PhraseTree)>,
    body: Boxed<PhraseTree>,
) -> PhraseTree
    ensures { phrase_of result ≡ check_at pos (pairs_of branches) (else_phrase (phrase_of body)) }
{
    PhraseTree::Check(pos, branches, Some(body))
}
