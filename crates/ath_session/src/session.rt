// A session: the state of a run, and one directive after the other.

ghost use Rattle.std.specs.Prelude.{◌≡◌, ◌≤◌, ◌<◌, nat_lt, false, [], ◌∷◌, ◌++◌, IfOk, IfSome, OnOk, Some, None, Option, length, map, take};
ghost use Rattle.ath_names.specs.Names.{first_names};
ghost use Rattle.ath_sorts.specs.Validity.{AreDistinct};
ghost use Rattle.ath_sorts.specs.declared.signature.Flaw.{Flaw};
ghost use Rattle.ath_syntax.specs.Stands.{IsDirective, IsPhrase, IsStatement};
ghost use Rattle.ath_syntax.specs.Tree.{DirectiveTree, Phrase, Statement};
ghost use Rattle.ath_reader.specs.Answering.{Answers};
ghost use Rattle.ath_declarations.specs.Declarations.{domain_declared, declared};
ghost use Rattle.ath_syntax.specs.Places.{place as place_of};
ghost use Rattle.ath_eval.specs.Outcomes.{refusal};
ghost use Rattle.ath_env.specs.Values.{sentence_of};
ghost use Rattle.ath_env.specs.Stands.{IsIn, value_at};
ghost use Rattle.ath_construction.specs.Answers.{IsSentBuilt};
ghost use Rattle.ath_sorts.specs.Signature.{Signature as Declared};
ghost use Rattle.ath_terms.specs.SortsIn.{IsSortedIn};
ghost use Rattle.ath_terms.specs.Trees.{Trees, Grows, sent_at};
ghost use Rattle.ath_print.specs.Events.{domain_added, symbols_added};
ghost use Rattle.ath_print.specs.Lines.{bytes_of_line};
ghost use Rattle.ath_print.specs.declared.limits.TheConstants.{MOST_LINE_BYTES as MostBytes};
ghost use Rattle.ath_print.specs.Stands.{IsRefusal, IsFaultIn, IsEventIn, event_of, refusal_of};
ghost use Rattle.ath_session.specs.Directives.{outcome_in, effect, limited, telling, done, declaring, declaration_refusal, asserting, asserting_built, asserting_sentence, to_assert, showing, loading, refusing};
ghost use Rattle.ath_session.specs.Session.{state_of, next_of, ParamsDiffer, IsReply, KeepsNumbers};
ghost use Rattle.ath_session.specs.Sound.{IsSound, AreFollowing};
ghost use Rattle.ath_session.specs.State.{first_state, joining, with_names};

use crate::unbuilt::unbuilt_in;
use ath_base::{Base, Origin, ScopeId};
use ath_construction::universal_closure;
use ath_declarations::{DeclareError, check_symbols, declare, declare_domain};
use ath_env::{Value, sentence};
use ath_eval::{Outcome, World, build_fault, run};
use ath_names::Names;
use ath_print::limits::MOST_LINE_BYTES;
use ath_print::{Event, Fault, FaultArg, FaultKind, line_bytes};
use ath_reader::{OpTable, Reader, SyntaxError};
use ath_sorts::{Flaw, Signature, Sym};
use ath_syntax::{Directive, PhraseId, Phrases, Pos, SortText, What};
use ath_terms::{BuildError, Fresh, Store};
use ath_trees::SentId;
use ath_words::limits::MOST_FUEL;
use sqlite_items::Items;
use std::alloc::{AllocError, Global};

/// How a run goes on after a directive.
#[derive(Debug, Drop)]
pub enum Next {
    /// with the next directive
    Go,
    /// with the text of the file of this name, in the directive's place
    Load(String),
    /// not at all: no fuel is left
    Stop,
}

/// What a directive did.
#[derive(Debug, Drop)]
pub struct Reply {
    pub events: Vec<Event>,
    pub next: Next,
}

/// A run's state, and the operators of its language.
#[derive(Drop)]
pub struct Session {
    world: World,
    operators: OpTable,
    ghost table: { take (length first_names) world.names ≡ first_names },
}

/// A reply of one event.
fn replying(alloc: Global, event: Event, next: Next) -> Result<Reply, AllocError>
    ensures { IfOk result (λ r. (r.events.items ≡ event ∷ []) × (r.next ≡ next)) }
{
    let mut events = Vec::new(alloc);
    events.push(event)?;
    Ok(Reply { events, next })
}

/// Why a declaration is refused.
fn declaration_fault(alloc: Global, flaw: Flaw) -> Result<Fault, AllocError>
    ensures { (s : Trees) → IfOk result (λ f. IsRefusal s f (declaration_refusal flaw)) }
{
    match flaw {
        Flaw::Redeclared(n) => Fault::naming(alloc, FaultKind::Redeclared, FaultArg::Name(n)),
        Flaw::TooWide(n) => Fault::naming(alloc, FaultKind::TooWide, FaultArg::Name(n)),
        Flaw::UnknownVariable(n) => {
            Fault::naming(alloc, FaultKind::UnknownSort, FaultArg::SortName(n))
        }
        Flaw::UnknownSort(n) => Fault::naming(alloc, FaultKind::UnknownSort, FaultArg::Name(n)),
        Flaw::Arity(n) => Fault::naming(alloc, FaultKind::Arity, FaultArg::Name(n)),
        Flaw::SortTooLarge => Ok(Fault::plain(alloc, FaultKind::SortTooLarge)),
        Flaw::LooseParam(n) => Fault::naming(alloc, FaultKind::LooseParam, FaultArg::SortName(n)),
    }
}

/// What is asserted of a sentence: itself, or where it is to be closed its universal closure.
fn to_assert(
    alloc: Global,
    store: &mut Store,
    closed: bool,
    p: SentId,
) -> Result<SentId, BuildError>
    requires { p.0 < length store.old.sents }
    ensures grows { Grows store.old store.new }
    ensures inside { IfOk result (λ r. r.0 < length store.new.sents) }
    ensures built { IsSentBuilt store.new (to_assert closed (sent_at store.old.sents p.0)) result }
    ensures sorted { (sig : Declared) → IsSortedIn sig store.old → IsSortedIn sig store.new }
{
    if closed {
        return universal_closure(alloc, store, p);
    }
    Ok(p)
}

impl Session {
    /// A session with so many steps.
    pub fn new(alloc: Global, fuel: u64) -> Result<Session, AllocError>
        requires { fuel ≤ MOST_FUEL }
        ensures state { IfOk result (λ s. state_of s.world ≡ first_state fuel) }
        ensures sound { IfOk result (λ s. IsSound (state_of s.world)) }
    {
        let names = match Names::new(alloc) {
            Ok(names) => names,
            Err(_) => return Err(AllocError),
        };
        let world = World {
            names,
            sig: Signature::new(alloc)?,
            store: Store::new(alloc),
            base: Base::new(alloc),
            scope: ScopeId(0),
            phrases: Phrases::new(alloc),
            fuel,
            fresh: Fresh::first(),
        };
        Ok(Session {
            world,
            operators: OpTable::new(alloc)?,
        })
    }

    /// The state, from which lines are written.
    pub fn world(&self) -> &World
        ensures { result.now ≡ self.now.world }
    {
        &self.world
    }

    /// The next directive of a text, as the reader answers it over the session's names and phrases. The operators are handed
    /// on, and not used yet.
    pub fn read(
        &mut self,
        alloc: Global,
        reader: &mut Reader,
    ) -> Result<Option<Directive>, SyntaxError>
        ensures answers { Answers reader.old reader.old.progress self.old.world.names self.old.world.phrases result reader.new self.new.world.names self.new.world.phrases }
        ensures kept { state_of self.new.world ≡ with_names self.new.world.names (state_of self.old.world) }
        ensures store { self.new.world.store ≡ self.old.world.store }
        ensures differ { IfOk result (λ found. IfSome found (λ d. ParamsDiffer d.what)) }
    {
        let world = &mut self.world;
        reader.directive(alloc, &mut world.names, &mut world.phrases, &self.operators)
    }

    /// Runs a directive that `read` gave. One that is refused keeps all but the fuel and the counters of fresh names; where
    /// memory is wanted, it may be done in part, and the run has to end. Each theorem that it tells is derivable from the
    /// sentences that were asserted before it.
    pub fn directive(&mut self, alloc: Global, directive: &Directive) -> Result<Reply, AllocError>
        requires directive { (d : DirectiveTree) × IsDirective self.old.world.phrases directive.now d }
        requires differ { ParamsDiffer directive.now.what }
        ensures numbers { KeepsNumbers self.old.world self.new.world }
        ensures reply { IfOk result (λ r. (d : DirectiveTree) → IsDirective self.old.world.phrases directive.now d → IsReply self.new.world r (effect (state_of self.old.world) d)) }
        ensures theorems { IsSound (state_of self.old.world) → IfOk result (λ r. AreFollowing (state_of self.old.world) (map (event_of self.new.world.store) r.events.items) × IsSound (state_of self.new.world)) }
    {
        let reply = self.answer(alloc, directive)?;
        Ok(reply)
    }

    /// The reply to a directive, by what isn't built in it.
    fn answer(&mut self, alloc: Global, directive: &Directive) -> Result<Reply, AllocError>
        requires directive { (d : DirectiveTree) × IsDirective self.old.world.phrases directive.now d }
        requires differ { ParamsDiffer directive.now.what }
        ensures numbers { KeepsNumbers self.old.world self.new.world }
        ensures reply { IfOk result (λ r. (d : DirectiveTree) → IsDirective self.old.world.phrases directive.now d → IsReply self.new.world r (effect (state_of self.old.world) d)) }
    {
        let world = &self.world;
        let unbuilt = unbuilt_in(&world.names, &world.phrases, directive.pos, &directive.what);
        if let Some(at) = unbuilt {
            let fault = Fault::plain(alloc, FaultKind::NotBuilt);
            let reply = self.refusal(alloc, directive.pos, at, fault)?;
            return Ok(reply);
        }
        self.run_built(alloc, directive)
    }

    /// Refuses what was read, at a place: the reply is the one event, after which the run goes on.
    pub fn refuse(&mut self, alloc: Global, at: Pos, fault: Fault) -> Result<Reply, AllocError>
        requires { IsFaultIn self.old.world.store fault }
        ensures kept { self.new ≡ self.old }
        ensures reply { IfOk result (λ r. IsReply self.new.world r (refusing (state_of self.old.world) at (refusal_of self.old.world.store fault))) }
    {
        replying(alloc, Event::Error(at, fault), Next::Go)
    }

    /// Whether the line of an event is longer than those of a directive may be.
    fn is_too_long(&self, alloc: Global, event: &Event) -> Result<bool, AllocError>
        requires { IsEventIn self.now.world.store event.now }
        ensures { IfOk result (λ long. long ≡ nat_lt MostBytes (bytes_of_line self.now.world.names self.now.world.sig (event_of self.now.world.store event.now))) }
    {
        let world = &self.world;
        let bytes = line_bytes(alloc, event, &world.names, &world.sig, &world.store)?;
        Ok(bytes > MOST_LINE_BYTES)
    }

    /// The reply to a directive at `place` of which the line would be too long.
    fn too_long(&self, alloc: Global, place: Pos) -> Result<Reply, AllocError>
        ensures { IfOk result (λ r. IsReply self.now.world r (refusing (state_of self.now.world) place (refusal FaultKind.LineTooLong []))) }
    {
        let fault = Fault::plain(alloc, FaultKind::LineTooLong);
        replying(alloc, Event::Error(place, fault), Next::Go)
    }

    /// The reply of one event to a directive at `place`, unless its line would be too long.
    fn reply(
        &self,
        alloc: Global,
        place: Pos,
        event: Event,
        next: Next,
    ) -> Result<Reply, AllocError>
        requires { IsEventIn self.now.world.store event }
        ensures { IfOk result (λ r. IsReply self.now.world r (limited (state_of self.now.world) place (record { state = state_of self.now.world; events = event_of self.now.world.store event ∷ []; next = next_of next }))) }
    {
        if self.is_too_long(alloc, &event)? {
            return self.too_long(alloc, place);
        }
        replying(alloc, event, next)
    }

    /// The reply of an error at `at` to a directive at `place`.
    fn refusal(&self, alloc: Global, place: Pos, at: Pos, fault: Fault) -> Result<Reply, AllocError>
        requires { IsFaultIn self.now.world.store fault }
        ensures { IfOk result (λ r. IsReply self.now.world r (limited (state_of self.now.world) place (refusing (state_of self.now.world) at (refusal_of self.now.world.store fault)))) }
    {
        self.reply(alloc, place, Event::Error(at, fault), Next::Go)
    }

    fn run_built(&mut self, alloc: Global, directive: &Directive) -> Result<Reply, AllocError>
        requires statement { (s : Statement) × IsStatement self.old.world.phrases directive.now.what s }
        requires differ { ParamsDiffer directive.now.what }
        ensures numbers { KeepsNumbers self.old.world self.new.world }
        ensures reply { IfOk result (λ r. (s : Statement) → IsStatement self.old.world.phrases directive.now.what s → IsReply self.new.world r (limited (state_of self.old.world) directive.now.pos (done (state_of self.old.world) directive.now.pos s))) }
    {
        match &directive.what {
            What::Domain(name, vars) => {
                self.declare_domain(alloc, directive.pos, *name, vars.as_slice())
            }
            What::Declare(names, list, args, result_sort) => {
                let args = args.as_slice();
                self.declare(
                    alloc,
                    directive.pos,
                    names.as_slice(),
                    list,
                    args,
                    result_sort,
                )
            }
            What::Assert(_, closed, phrase) => {
                self.assert(alloc, directive.pos, *closed, *phrase)
            }
            What::Load(name) => self.load(alloc, name.as_str()),
            What::Phrase(phrase) => self.show(alloc, directive.pos, *phrase),
            _other => self.refusal(
                alloc,
                directive.pos,
                directive.pos,
                Fault::plain(alloc, FaultKind::NotBuilt),
            ),
        }
    }

    fn declare_domain(
        &mut self,
        alloc: Global,
        at: Pos,
        name: Sym,
        vars: &[Sym],
    ) -> Result<Reply, AllocError>
        ensures numbers { KeepsNumbers self.old.world self.new.world }
        ensures reply { IfOk result (λ r. IsReply self.new.world r (limited (state_of self.old.world) at (declaring (state_of self.old.world) at (domain_added name) (domain_declared self.old.world.sig name vars.now)))) }
    {
        let event = Event::Domain(name);
        if self.is_too_long(alloc, &event)? {
            if let Err(flaw) = self.world.sig.check_domain(name, vars.len()) {
                return self.refuse_declaration(alloc, at, DeclareError::Flawed(flaw));
            }
            return self.too_long(alloc, at);
        }
        match declare_domain(alloc, &mut self.world.sig, name, vars) {
            Ok(()) => replying(alloc, event, Next::Go),
            Err(error) => self.refuse_declaration(alloc, at, error),
        }
    }

    fn declare(
        &mut self,
        alloc: Global,
        at: Pos,
        names: &[Sym],
        list: &Option<Items<Sym>>,
        args: &[SortText],
        result_sort: &SortText,
    ) -> Result<Reply, AllocError>
        requires differ { IfSome list.now AreDistinct }
        ensures numbers { KeepsNumbers self.old.world self.new.world }
        ensures reply { IfOk result (λ r. IsReply self.new.world r (limited (state_of self.old.world) at (declaring (state_of self.old.world) at (symbols_added names.now) (declared self.old.world.sig names.now list.now args.now result_sort.now)))) }
    {
        let event = Event::Symbols(Items::from_slice(alloc, names)?);
        if self.is_too_long(alloc, &event)? {
            let sig = &self.world.sig;
            if let Err(error) = check_symbols(alloc, sig, names, list, args, result_sort) {
                return self.refuse_declaration(alloc, at, error);
            }
            return self.too_long(alloc, at);
        }
        match declare(alloc, &mut self.world.sig, names, list, args, result_sort) {
            Ok(()) => replying(alloc, event, Next::Go),
            Err(error) => self.refuse_declaration(alloc, at, error),
        }
    }

    /// The reply to a declaration that is refused. Want of memory is handed on.
    fn refuse_declaration(
        &self,
        alloc: Global,
        at: Pos,
        error: DeclareError,
    ) -> Result<Reply, AllocError>
        ensures reply { (f : Flaw) → error ≡ DeclareError.Flawed f → IfOk result (λ r. IsReply self.now.world r (limited (state_of self.now.world) at (refusing (state_of self.now.world) at (declaration_refusal f)))) }
        ensures memory { error ≡ DeclareError.Memory → OnOk result ⊥ }
    {
        let flaw = match error {
            DeclareError::Flawed(flaw) => flaw,
            DeclareError::Memory => return Err(AllocError),
        };
        let fault = declaration_fault(alloc, flaw)?;
        let reply = self.refusal(alloc, at, at, fault)?;
        Ok(reply)
    }

    /// A sentence joins the base and is told, unless its line would be too long.
    fn join(
        &mut self,
        alloc: Global,
        place: Pos,
        p: SentId,
        origin: Origin,
        event: Event,
    ) -> Result<Reply, AllocError>
        requires inside { p.0 < length self.old.world.store.sents }
        requires known { IsEventIn self.old.world.store event }
        ensures numbers { KeepsNumbers self.old.world self.new.world }
        ensures reply { IfOk result (λ r. IsReply self.new.world r (limited (state_of self.old.world) place (telling (joining (state_of self.old.world) origin (sent_at self.old.world.store.sents p.0)) (event_of self.old.world.store event)))) }
    {
        if self.is_too_long(alloc, &event)? {
            return self.too_long(alloc, place);
        }
        let scope = self.world.base.add(self.world.scope, p, origin)?;
        self.world.scope = scope;
        replying(alloc, event, Next::Go)
    }

    /// Asserts the sentence of a phrase, or its universal closure.
    fn assert(
        &mut self,
        alloc: Global,
        place: Pos,
        closed: bool,
        phrase: PhraseId,
    ) -> Result<Reply, AllocError>
        requires phrase { (x : Phrase) × IsPhrase self.old.world.phrases phrase x }
        ensures numbers { KeepsNumbers self.old.world self.new.world }
        ensures reply { IfOk result (λ r. (x : Phrase) → IsPhrase self.old.world.phrases phrase x → IsReply self.new.world r (limited (state_of self.old.world) place (asserting (state_of self.old.world) closed (place_of x) (outcome_in (state_of self.old.world) x)))) }
    {
        let at = self.world.phrases.node(phrase).pos;
        match run(alloc, &mut self.world, phrase)? {
            Outcome::Value(value) => self.assert_value(alloc, place, closed, at, value),
            Outcome::Theorem(p) => self.assert_value(alloc, place, closed, at, Value::Sent(p)),
            Outcome::Error(fault, at) => self.refusal(alloc, place, at, fault),
            Outcome::Exhausted(at) => self.reply(alloc, place, Event::Fuel(at), Next::Stop),
        }
    }

    fn assert_value(
        &mut self,
        alloc: Global,
        place: Pos,
        closed: bool,
        at: Pos,
        value: Value,
    ) -> Result<Reply, AllocError>
        requires known { IsIn self.old.world.store value }
        ensures numbers { KeepsNumbers self.old.world self.new.world }
        ensures reply { IfOk result (λ r. IsReply self.new.world r (limited (state_of self.old.world) place (asserting_sentence (state_of self.old.world) closed at (sentence_of (value_at self.old.world.store value))))) }
    {
        let Some(p) = sentence(&mut self.world.store, value)? else {
            let fault = Fault::plain(alloc, FaultKind::NotSentence);
            let reply = self.refusal(alloc, place, at, fault)?;
            return Ok(reply);
        };
        let reply = self.assert_sentence(alloc, place, closed, at, p)?;
        Ok(reply)
    }

    fn assert_sentence(
        &mut self,
        alloc: Global,
        place: Pos,
        closed: bool,
        at: Pos,
        p: SentId,
    ) -> Result<Reply, AllocError>
        requires { p.0 < length self.old.world.store.sents }
        ensures numbers { KeepsNumbers self.old.world self.new.world }
        ensures reply { IfOk result (λ r. IsReply self.new.world r (limited (state_of self.old.world) place (asserting_built (state_of self.old.world) at (to_assert closed (sent_at self.old.world.store.sents p.0))))) }
    {
        match to_assert(alloc, &mut self.world.store, closed, p) {
            Ok(p) => {
                let reply = self.join(alloc, place, p, Origin::Asserted, Event::Assertion(p))?;
                Ok(reply)
            }
            Err(error) => {
                let fault = build_fault(alloc, error)?;
                let reply = self.refusal(alloc, place, at, fault)?;
                Ok(reply)
            }
        }
    }

    /// Shows the value of an expression; the conclusion of a deduction joins the base.
    fn show(&mut self, alloc: Global, place: Pos, phrase: PhraseId) -> Result<Reply, AllocError>
        requires phrase { (x : Phrase) × IsPhrase self.old.world.phrases phrase x }
        ensures numbers { KeepsNumbers self.old.world self.new.world }
        ensures reply { IfOk result (λ r. (x : Phrase) → IsPhrase self.old.world.phrases phrase x → IsReply self.new.world r (limited (state_of self.old.world) place (showing (state_of self.old.world) (outcome_in (state_of self.old.world) x)))) }
    {
        match run(alloc, &mut self.world, phrase)? {
            Outcome::Value(value) => self.reply(alloc, place, Event::Shown(value), Next::Go),
            Outcome::Theorem(p) => {
                let event = Event::Theorem(p);
                let reply = self.join(alloc, place, p, Origin::Concluded, event)?;
                Ok(reply)
            }
            Outcome::Error(fault, at) => self.refusal(alloc, place, at, fault),
            Outcome::Exhausted(at) => self.reply(alloc, place, Event::Fuel(at), Next::Stop),
        }
    }

    /// A load is answered by the name of its file.
    fn load(&self, alloc: Global, name: &str) -> Result<Reply, AllocError>
        ensures { IfOk result (λ r. IsReply self.now.world r (loading (state_of self.now.world) name.now)) }
    {
        let name = String::from_str(alloc, name)?;
        Ok(Reply {
            events: Vec::new(alloc),
            next: Next::Load(name),
        })
    }
}
