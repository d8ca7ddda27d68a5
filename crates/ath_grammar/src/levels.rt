// The levels that are open behind some tokens.

ghost use Rattle.std.specs.Prelude.{◌≡◌, ◌<◌, List, [], ◌∷◌, reverse, length, IfOk, MatchOption};
ghost use Rattle.ath_grammar.specs.declared.levels.Open.{Open as Opened};
ghost use Rattle.ath_grammar.specs.declared.levels.Open.TheVariants.{Awaits as AwaitsParts};
ghost use Rattle.ath_grammar.specs.declared.class.Opener.TheVariants.{Open as RoundBracket};
ghost use Rattle.ath_grammar.specs.Levels.{level as level_of, depth_of, begun as begun_by, paired as paired_by, closed, without_first, named, opened, marked, plainly, in_fresh, in_variable, in_names, take_class};

use crate::class::{Class, Mark, Opener, WordClass};
use std::alloc::{AllocError, Global};
use std::marker::Model;

/// What is open. Each is a level, but the last two.
#[derive(Clone, Copy)]
pub enum Open {
    Bracket,
    /// a `(` with nothing behind it yet
    Fresh,
    /// the `(` of a `check`: each `(` in it is that of a clause
    Branches,
    /// a form without its own pair: so many parts and one more are to come
    Awaits(u8),
    /// a `pick-any` without its own pair, before its body
    Names,
    /// the sort of such a name
    Sort,
    /// a variable, behind which a sort may come
    Variable,
}

/// What is open behind the tokens that were taken: in contracts a list, the innermost first.
#[derive(Drop)]
pub struct Levels {
    opens: Vec<Open>,
    depth: usize,
}

impl Model for Levels {
    ghost Value = { List Opened };

    ghost view = { λ l. reverse l.opens.items };

    ghost invariant = { λ l. l.depth ≡ depth_of (reverse l.opens.items) };
}

fn level(part: Open) -> usize
    ensures { result ≡ level_of part }
{
    match part {
        Open::Sort => 0,
        Open::Variable => 0,
        _ => 1,
    }
}

fn begun(opener: Opener) -> Open
    ensures { result ≡ begun_by opener }
{
    match opener {
        Opener::Check => Open::Awaits(0),
        Opener::Try => Open::Awaits(0),
        Opener::PickAny => Open::Names,
        Opener::PickWitness => Open::Awaits(2),
        _ => Open::Awaits(1),
    }
}

fn paired(opener: Opener) -> Open
    ensures { result ≡ paired_by opener }
{
    match opener {
        Opener::Check => Open::Branches,
        _ => Open::Bracket,
    }
}

impl Levels {
    /// Nothing is open.
    pub fn new(alloc: Global) -> Self
        ensures { result ≡ [] }
    {
        Levels {
            opens: Vec::new(alloc),
            depth: 0,
        }
    }

    /// How many levels are open.
    pub fn depth(&self) -> usize
        ensures { result ≡ depth_of self.now }
    {
        self.depth
    }

    #[tactic(auto, using(crate::proofs::LevelLaws::reverse_push, crate::proofs::LevelLaws::depth_fits))]
    fn push(&mut self, part: Open) -> Result<(), AllocError>
        ensures { IfOk result (λ _. self.new ≡ part ∷ self.old) }
    {
        self.opens.push(part)?;
        self.depth += level(part);
        Ok(())
    }

    #[tactic(auto, using(crate::proofs::LevelLaws::reverse_push))]
    fn pop(&mut self) -> Option<Open>
        ensures gives { MatchOption result (self.old ≡ []) (λ part. self.old ≡ part ∷ self.new) }
        ensures none { MatchOption result (self.new ≡ []) (λ part. length self.new < length self.old) }
    {
        match self.opens.pop() {
            None => None,
            Some(part) => {
                self.depth -= level(part);
                Some(part)
            }
        }
    }

    // Ends a part, and each form whose last part it is.
    fn close(&mut self) -> Result<(), AllocError>
        ensures { IfOk result (λ _. self.new ≡ closed self.old) }
    {
        loop {
            match self.pop() {
                None => return Ok(()),
                Some(part) => match part {
                    Open::Sort => return Ok(()),
                    Open::Awaits(n) => {
                        if n > 0 {
                            return self.push(Open::Awaits(n - 1));
                        }
                    }
                    _ => return self.push(part),
                },
            }
        }
    }

    fn name(&mut self) -> Result<(), AllocError>
        ensures { IfOk result (λ _. self.new ≡ named self.old) }
    {
        match self.pop() {
            None => Ok(()),
            Some(part) => match part {
                Open::Awaits(n) => {
                    let parts = if n == 0 { 1 } else { n };
                    self.push(Open::Awaits(parts))
                }
                _ => self.push(part),
            },
        }
    }

    fn open_round(&mut self) -> Result<(), AllocError>
        ensures { IfOk result (λ _. self.new ≡ opened RoundBracket self.old) }
    {
        match self.pop() {
            None => self.push(Open::Fresh),
            Some(part) => match part {
                Open::Branches => {
                    self.push(part)?;
                    self.push(Open::Bracket)
                }
                _ => {
                    self.push(part)?;
                    self.push(Open::Fresh)
                }
            },
        }
    }

    fn begin(&mut self, opener: Opener) -> Result<(), AllocError>
        ensures { IfOk result (λ _. self.new ≡ opened opener self.old) }
    {
        match opener {
            Opener::Open => self.open_round(),
            Opener::OpenBracket => self.push(Open::Bracket),
            Opener::OpenBrace => self.push(Open::Bracket),
            _ => self.push(begun(opener)),
        }
    }

    fn close_bracket(&mut self) -> Result<(), AllocError>
        ensures { IfOk result (λ _. self.new ≡ closed (without_first self.old)) }
    {
        self.pop();
        self.close()
    }

    fn mark(&mut self, mark: Mark) -> Result<(), AllocError>
        ensures { IfOk result (λ _. self.new ≡ marked mark self.old) }
    {
        match mark {
            Mark::Close => self.close_bracket(),
            Mark::CloseBracket => self.close_bracket(),
            Mark::CloseBrace => self.close_bracket(),
            Mark::Becomes => self.name(),
            _ => Ok(()),
        }
    }

    fn take_plainly(&mut self, class: Class) -> Result<(), AllocError>
        ensures { IfOk result (λ _. self.new ≡ plainly class self.old) }
    {
        match class {
            Class::Opener(opener) => self.begin(opener),
            Class::Mark(mark) => self.mark(mark),
            Class::Directive(_) => Ok(()),
            Class::SomeOf => Ok(()),
            Class::Variable => self.push(Open::Variable),
            _ => self.close(),
        }
    }

    fn take_fresh(&mut self, class: Class) -> Result<(), AllocError>
        ensures { IfOk result (λ _. self.new ≡ in_fresh class self.old) }
    {
        match class {
            Class::Opener(opener) => match opener {
                Opener::Open => {
                    self.push(Open::Bracket)?;
                    self.push(Open::Fresh)
                }
                Opener::OpenBracket => {
                    self.push(Open::Bracket)?;
                    self.push(Open::Bracket)
                }
                Opener::OpenBrace => {
                    self.push(Open::Bracket)?;
                    self.push(Open::Bracket)
                }
                _ => self.push(paired(opener)),
            },
            _ => {
                self.push(Open::Bracket)?;
                self.take_plainly(class)
            }
        }
    }

    fn take_variable(&mut self, class: Class) -> Result<(), AllocError>
        ensures { IfOk result (λ _. self.new ≡ in_variable class self.old) }
    {
        match class {
            Class::Mark(mark) => match mark {
                Mark::Colon => Ok(()),
                _ => {
                    self.close()?;
                    self.mark(mark)
                }
            },
            _ => {
                self.close()?;
                self.take_plainly(class)
            }
        }
    }

    fn take_body(&mut self, class: Class) -> Result<(), AllocError>
        ensures { IfOk result (λ _. self.new ≡ plainly class (AwaitsParts 0 ∷ self.old)) }
    {
        self.push(Open::Awaits(0))?;
        self.take_plainly(class)
    }

    fn take_names(&mut self, class: Class) -> Result<(), AllocError>
        ensures { IfOk result (λ _. self.new ≡ in_names class self.old) }
    {
        match class {
            Class::Word(word) => match word {
                WordClass::Plain => self.push(Open::Names),
                _ => self.take_body(class),
            },
            Class::Mark(mark) => match mark {
                Mark::Colon => {
                    self.push(Open::Names)?;
                    self.push(Open::Sort)
                }
                _ => self.take_body(class),
            },
            _ => self.take_body(class),
        }
    }

    /// A token of this class more.
    pub fn take(&mut self, class: Class) -> Result<(), AllocError>
        ensures { IfOk result (λ _. self.new ≡ take_class class self.old) }
    {
        match self.pop() {
            None => self.take_plainly(class),
            Some(part) => match part {
                Open::Fresh => self.take_fresh(class),
                Open::Variable => self.take_variable(class),
                Open::Names => self.take_names(class),
                _ => {
                    self.push(part)?;
                    self.take_plainly(class)
                }
            },
        }
    }
}
