// A reader of one token at a time: the items that are still to be read, and the values of what was.

ghost use Rattle.std.specs.Prelude.{◌≡◌, ◌<◌, [], ◌∷◌, ◌++◌, length, IfOk, IfSome, MatchOption};
ghost use Rattle.ath_grammar.specs.Grammar.{grammar};
ghost use Rattle.ath_grammar.specs.Rows.{row_of};
ghost use Rattle.ath_grammar.specs.Tables.{told_item, told_all, acts, start, by_token};
ghost use Rattle.ath_grammar.specs.Spells.{starts};
ghost use Rattle.ath_grammar.specs.Machine.{where_token, if_taken, took, opens, advance, tokens_of};
ghost use Rattle.ath_grammar.specs.Tokens.{next_class};
ghost use Rattle.ath_grammar.specs.Codes.{is_class};
ghost use Rattle.ath_grammar.specs.Directives.{directive_items};
ghost use Rattle.ath_grammar.specs.Trees.{trees};
ghost use Rattle.ath_builder.specs.Values.{held};
ghost use Rattle.ath_reader.specs.Runs.{left, seen_of, shown, fitting, OnOver};

use crate::kinds::{both, fits, told, want_of};
use crate::reader::Seen;
use ath_builder::Values;
use ath_grammar::{
    Action, Attr, Class, Guard, Item, Mark, Production, Symbol, Want, row, same_class,
};
use std::alloc::{AllocError, Global};

/// Items, the next one last, and values.
#[derive(Drop)]
pub(crate) struct Machine {
    pub(crate) items: Vec<Item>,
    pub(crate) values: Values,
}

/// What a symbol or a token does: nothing, since all was read before; it is taken; or it is refused. The bool says whether
/// the kinds of phrases fit.
#[derive(Clone, Copy)]
pub(crate) enum Step {
    Over(bool),
    Took(bool),
    Refused,
}

fn class_of(seen: &Seen) -> Class
    ensures { result ≡ next_class (tokens_of (seen_of seen.now)) }
{
    match seen {
        Seen::Token(token, _) => token.class(),
        Seen::End => Class::Mark(Mark::Other),
        Seen::Fault(_) => Class::Mark(Mark::Other),
    }
}

impl Machine {
    /// Before the first token of a directive.
    #[tactic(auto, using(crate::proofs::Machines::turned_last))]
    pub(crate) fn new(alloc: Global) -> Result<Machine, AllocError>
        ensures items { IfOk result (λ m. left m ≡ directive_items) }
        ensures values { IfOk result (λ m. held m.values ≡ []) }
    {
        let mut items = Vec::new(alloc);
        items.push(Item::Symbol(Symbol::Directive, Attr::Is(Want::Any)))?;
        Ok(Machine {
            items,
            values: Values::new(alloc),
        })
    }

    #[tactic(auto, using(crate::proofs::Machines::turned_last))]
    fn pop(&mut self) -> Option<Item>
        ensures item { MatchOption result (left self.old ≡ []) (λ item. left self.old ≡ item ∷ left self.new) }
        ensures shorter { IfSome result (λ _. length self.new.items.items < length self.old.items.items) }
        ensures values { self.new.values ≡ self.old.values }
    {
        self.items.pop()
    }

    /// Puts an item on top.
    #[tactic(auto, using(crate::proofs::Machines::turned_last))]
    fn push(&mut self, want: Want, item: Item) -> Result<(), AllocError>
        ensures items { IfOk result (λ _. left self.new ≡ told_item want item ∷ left self.old) }
        ensures values { IfOk result (λ _. held self.new.values ≡ held self.old.values) }
    {
        match item {
            Item::Symbol(symbol, attr) => {
                self.items.push(Item::Symbol(symbol, told(want, attr)))?;
            }
            Item::Token(_) => self.items.push(item)?,
            Item::Act(_) => self.items.push(item)?,
        }
        Ok(())
    }

    /// Puts a production's items on top, the first one last.
    fn put(&mut self, want: Want, items: &[Item]) -> Result<(), AllocError>
        ensures items { IfOk result (λ _. left self.new ≡ told_all want items.now ++ left self.old) }
        ensures values { IfOk result (λ _. held self.new.values ≡ held self.old.values) }
    {
        match items.split_first() {
            None => Ok(()),
            Some((item, rest)) => {
                self.put(want, rest)?;
                self.push(want, *item)
            }
        }
    }

    fn act_all(&mut self, alloc: Global, actions: &[Action]) -> Result<(), AllocError>
        ensures items { self.new.items ≡ self.old.items }
        ensures values { IfOk result (λ _. held self.new.values ≡ acts trees actions.now (held self.old.values)) }
    {
        match actions.split_first() {
            None => Ok(()),
            Some((action, rest)) => {
                self.values.act(alloc, *action)?;
                self.act_all(alloc, rest)
            }
        }
    }

    /// Takes the token, if it may stand there, and puts these items on top.
    fn take(
        &mut self,
        alloc: Global,
        seen: &Seen,
        fits: bool,
        want: Want,
        guard: Guard,
        items: &[Item],
    ) -> Result<Step, AllocError>
        ensures gives { IfOk result (λ s. shown s self.new ≡ where_token (seen_of seen.now) (λ t. if_taken (trees.allows guard t (held self.old.values)) (took fits (told_all want items.now ++ left self.old) (trees.save t (held self.old.values))))) }
        ensures over { IfOk result (λ s. OnOver s ⊥) }
    {
        let Seen::Token(token, pos) = seen else {
            return Ok(Step::Refused);
        };
        if !self.values.allows(guard, *pos, token) {
            return Ok(Step::Refused);
        }
        self.put(want, items)?;
        self.values.save(alloc, *pos, token)?;
        Ok(Step::Took(fits))
    }

    /// By a token, as a symbol of this production: as another symbol begins, and that as another, so many times.
    #[tactic(auto, using(crate::proofs::Machines::begins_as, crate::proofs::Machines::begins_not, crate::proofs::Machines::opens_behind))]
    fn begin(
        &mut self,
        alloc: Global,
        seen: &Seen,
        steps: u8,
        mixed: bool,
        want: Want,
        production: Production,
    ) -> Result<Step, AllocError>
        ensures gives { IfOk result (λ s. shown s self.new ≡ opens trees (seen_of seen.now) (left self.old) (held self.old.values) (fitting mixed (by_token steps grammar (next_class (tokens_of (seen_of seen.now))) (trees.kind (held self.old.values)) want (row_of production)))) }
        ensures over { IfOk result (λ s. OnOver s ⊥) }
    {
        match production {
            Production::Take(is, guard, items) => {
                self.take(alloc, seen, both(mixed, fits(want, is)), want, guard, items)
            }
            Production::BeginAs(is, symbol, attr, items) => {
                if steps == 0 {
                    return Ok(Step::Refused);
                }
                let inner = want_of(told(want, attr), self.values.kind());
                let mixed = both(mixed, fits(want, is));
                self.put(want, items)?;
                let production = row(symbol, class_of(seen));
                self.begin(alloc, seen, steps - 1, mixed, inner, production)
            }
            _ => Ok(Step::Refused),
        }
    }

    /// What a symbol of this production does, where this is wanted of it.
    #[tactic(auto, using(crate::proofs::Machines::begins_true, crate::proofs::Machines::over_never))]
    fn open(
        &mut self,
        alloc: Global,
        seen: &Seen,
        want: Want,
        production: Production,
    ) -> Result<Step, AllocError>
        ensures gives { IfOk result (λ s. shown s self.new ≡ opens trees (seen_of seen.now) (left self.old) (held self.old.values) (start grammar (next_class (tokens_of (seen_of seen.now))) (trees.kind (held self.old.values)) want (row_of production))) }
        ensures kept { IfOk result (λ s. OnOver s (self.new.items.items ≡ self.old.items.items)) }
    {
        match production {
            Production::Skip(is, actions) => {
                self.act_all(alloc, actions)?;
                Ok(Step::Over(fits(want, is)))
            }
            Production::Nothing => Ok(Step::Refused),
            Production::Take(is, guard, items) => {
                self.take(alloc, seen, fits(want, is), want, guard, items)
            }
            Production::BeginAs(_, _, _, _) => self.begin(alloc, seen, 2, true, want, production),
        }
    }

    /// What a symbol does with what comes next.
    fn symbol(
        &mut self,
        alloc: Global,
        seen: &Seen,
        symbol: Symbol,
        attr: Attr,
    ) -> Result<Step, AllocError>
        ensures gives { IfOk result (λ s. shown s self.new ≡ opens trees (seen_of seen.now) (left self.old) (held self.old.values) (starts trees grammar symbol attr (held self.old.values) (tokens_of (seen_of seen.now)))) }
        ensures kept { IfOk result (λ s. OnOver s (self.new.items.items ≡ self.old.items.items)) }
    {
        let want = want_of(attr, self.values.kind());
        let production = row(symbol, class_of(seen));
        self.open(alloc, seen, want, production)
    }

    /// Takes a token of this class.
    fn token(
        &mut self,
        alloc: Global,
        seen: &Seen,
        fits: bool,
        class: Class,
    ) -> Result<Step, AllocError>
        ensures { IfOk result (λ s. shown s self.new ≡ where_token (seen_of seen.now) (λ t. if_taken (is_class class t) (took fits (left self.old) (trees.save t (held self.old.values))))) }
    {
        let Seen::Token(token, pos) = seen else {
            return Ok(Step::Refused);
        };
        if !same_class(class, token.class()) {
            return Ok(Step::Refused);
        }
        self.values.save(alloc, *pos, token)?;
        Ok(Step::Took(fits))
    }

    /// One step: what comes next is taken, or refused, or all was read before it.
    #[tactic(auto, using(crate::proofs::Machines::also_both, crate::proofs::Machines::also_none, crate::proofs::Machines::also_token))]
    pub(crate) fn step(&mut self, alloc: Global, seen: &Seen) -> Result<Step, AllocError>
        ensures { IfOk result (λ s. shown s self.new ≡ advance trees grammar (seen_of seen.now) (left self.old) (held self.old.values)) }
    {
        let mut fits = true;
        loop {
            let Some(item) = self.pop() else {
                return Ok(Step::Over(fits));
            };
            match item {
                Item::Token(class) => return self.token(alloc, seen, fits, class),
                Item::Act(action) => self.values.act(alloc, action)?,
                Item::Symbol(symbol, attr) => match self.symbol(alloc, seen, symbol, attr)? {
                    Step::Over(more) => fits = both(fits, more),
                    Step::Took(more) => return Ok(Step::Took(both(fits, more))),
                    Step::Refused => return Ok(Step::Refused),
                },
            }
        }
    }
}
