// Directives one after another.

ghost use Rattle.std.specs.Prelude.{◌≡◌, ◌≤◌, [], None, length, IfOk, IfErr};
ghost use Rattle.ath_grammar.specs.Directives.{directive_items};
ghost use Rattle.ath_names.specs.Names.{KeepsNames as NamesGrow, first_names};
ghost use Rattle.ath_syntax.specs.Nodes.{KeepsNodes};
ghost use Rattle.ath_reader.specs.declared.limits.TheConstants.{MOST_BYTES};
ghost use Rattle.ath_reader.specs.Reading.{reached};
ghost use Rattle.ath_reader.specs.Answering.{Answers};
ghost use Rattle.ath_reader.specs.Runs.{left};
ghost use Rattle.ath_builder.specs.Values.{held};
ghost use Rattle.ath_reader.specs.Steps.{Looks, refusal_of, Deepens, Turns, ReadsTree, NumbersTree, is_end};

use crate::limits::MOST_LEVELS;
use crate::machine::{Machine, Step};
use crate::operators::OpTable;
use ath_grammar::{Levels, Lexeme};
use ath_lexemes::lexeme;
use ath_names::Names;
use ath_numbering::{DirectiveTree, number_directive};
use ath_syntax::{Directive, Phrases, Pos};
use ath_tokens::{LexError, LexKind, Tokens};
use std::alloc::Global;
use std::marker::Model;
use thiserror::Error;

/// Why a text goes on with no directive.
#[derive(Clone, Copy, Debug, PartialEq, Eq)]
pub enum SyntaxKind {
    /// A lexical fault.
    Lex(LexKind),
    /// No directive goes on so.
    Unexpected,
    /// The text ends within a directive.
    Unclosed,
    /// A deduction stands where an expression has to, or an expression where a deduction has to.
    KindMix,
    /// More than `MOST_LEVELS` levels are open.
    TooDeep,
    /// Out of memory. The place then says nothing.
    Memory,
}

/// A refusal and its place: the byte of a lexical fault; the first token with which the text begins no directive; the
/// bracket or keyword that opens a level too many; or the end of the text.
#[derive(Clone, Copy, Debug, PartialEq, Eq, Error)]
#[error("{kind:?} at line {}, column {}", pos.line, pos.col)]
pub struct SyntaxError {
    pub kind: SyntaxKind,
    pub pos: Pos,
}

/// The directives of a text. Contracts see the text, the number of its file, and the byte that is reached or the refusal
/// that is given from then on.
#[derive(Drop)]
pub struct Reader {
    tokens: Tokens,
    refused: Option<SyntaxError>,
}

impl Model for Reader {
    ghost use Rattle.std.specs.Prelude.{◌≡◌, ◌≤◌, length, None};
    ghost use Rattle.ath_reader.specs.declared.limits.TheConstants.{MOST_BYTES};
    ghost use Rattle.ath_reader.specs.Reading.{Reading};
    ghost use Rattle.ath_reader.specs.Answering.{progress_of};

    ghost Value = { Reading };

    ghost view = { λ r. record {
      text = r.tokens.text;
      file = r.tokens.file;
      progress = progress_of r.refused r.tokens.at;
    } };

    ghost invariant = { λ r. (length r.tokens.text ≤ MOST_BYTES) × (r.refused ≡ None → r.tokens.refused ≡ None) };
}

impl Reader {
    /// The directives of a text of at most `MOST_BYTES` bytes, in the file of this number.
    pub fn new(text: Vec<u8>, file: usize) -> Reader
        requires { length text.items ≤ MOST_BYTES }
        ensures { result ≡ record { text = text.items; file = file; progress = reached 0 } }
    {
        Reader {
            tokens: Tokens::new(text, file),
            refused: None,
        }
    }

    /// The next directive, as soon as what comes behind it doesn't go on with it. None comes exactly at the end. After a
    /// refusal the same refusal is given again. The names are a table that began with the fixed names.
    pub fn directive(
        &mut self,
        alloc: Global,
        names: &mut Names,
        phrases: &mut Phrases,
        _operators: &OpTable,
    ) -> Result<Option<Directive>, SyntaxError>
        requires { NamesGrow first_names names.old }
        ensures answers { Answers self.old self.old.progress names.old phrases.old result self.new names.new phrases.new }
        ensures names { NamesGrow names.old names.new }
        ensures phrases { KeepsNodes phrases.old phrases.new }
    {
        if let Some(error) = self.refused {
            return Err(error);
        }
        match read_directive(alloc, &mut self.tokens, names, phrases) {
            Ok(found) => Ok(found),
            Err(error) => {
                self.refused = Some(error);
                Err(error)
            }
        }
    }
}

fn wants_memory(tokens: &Tokens) -> SyntaxError
    ensures { result.kind ≡ SyntaxKind.Memory }
{
    SyntaxError {
        kind: SyntaxKind::Memory,
        pos: tokens.end(),
    }
}

/// What comes next, to the grammar.
#[derive(Drop)]
pub(crate) enum Seen {
    Token(Lexeme, Pos),
    End,
    Fault(LexError),
}

fn look(alloc: Global, tokens: &mut Tokens, names: &mut Names) -> Result<Seen, SyntaxError>
    requires fresh { tokens.old.refused ≡ None }
    requires within { tokens.old.at ≤ length tokens.old.text }
    ensures { Looks tokens.old names.old result tokens.new names.new }
{
    match tokens.next(alloc, names) {
        Ok(Some((token, pos, _, _))) => Ok(Seen::Token(lexeme(names, token), pos)),
        Ok(None) => Ok(Seen::End),
        Err(error) => match error.kind {
            LexKind::Memory => Err(wants_memory(tokens)),
            _ => Ok(Seen::Fault(error)),
        },
    }
}

/// What was read of a directive, and the levels that are open.
#[derive(Drop)]
pub(crate) struct Begun {
    pub(crate) machine: Machine,
    pub(crate) levels: Levels,
}

/// What comes next is taken, or stands behind a whole directive.
#[derive(Drop)]
pub(crate) enum Taken {
    On(Begun),
    Whole(DirectiveTree),
}

fn begin(alloc: Global, tokens: &Tokens) -> Result<Begun, SyntaxError>
    ensures items { IfOk result (λ b. left b.machine ≡ directive_items) }
    ensures values { IfOk result (λ b. held b.machine.values ≡ []) }
    ensures levels { IfOk result (λ b. b.levels ≡ []) }
    ensures memory { IfErr result (λ e. e.kind ≡ SyntaxKind.Memory) }
{
    match Machine::new(alloc) {
        Ok(machine) => Ok(Begun {
            machine,
            levels: Levels::new(alloc),
        }),
        Err(_) => Err(wants_memory(tokens)),
    }
}

/// The refusal of what comes next, where it isn't taken.
fn refusal(tokens: &Tokens, seen: &Seen, kind: SyntaxKind) -> SyntaxError
    ensures { result ≡ refusal_of tokens.now seen.now kind }
{
    match seen {
        Seen::Token(_, pos) => SyntaxError { kind, pos: *pos },
        Seen::End => SyntaxError {
            kind: SyntaxKind::Unclosed,
            pos: tokens.end(),
        },
        Seen::Fault(error) => SyntaxError {
            kind: SyntaxKind::Lex(error.kind),
            pos: error.pos,
        },
    }
}

/// The levels behind a token that is taken.
fn deepen(tokens: &Tokens, begun: Begun, seen: &Seen) -> Result<Taken, SyntaxError>
    ensures { Deepens tokens.now begun seen.now result }
{
    let Begun {
        machine,
        mut levels,
    } = begun;
    let Seen::Token(token, pos) = seen else {
        return Err(refusal(tokens, seen, SyntaxKind::Unexpected));
    };
    if levels.take(token.class()).is_err() {
        return Err(wants_memory(tokens));
    }
    if MOST_LEVELS < levels.depth() {
        return Err(SyntaxError {
            kind: SyntaxKind::TooDeep,
            pos: *pos,
        });
    }
    Ok(Taken::On(Begun { machine, levels }))
}

/// What becomes of what was read by what comes next.
#[tactic(auto, using(crate::proofs::Steps::turns_whole, crate::proofs::Steps::turns_over, crate::proofs::Steps::turns_mixed, crate::proofs::Steps::turns_refused, crate::proofs::Steps::turns_deep))]
fn turn(alloc: Global, tokens: &Tokens, begun: Begun, seen: &Seen) -> Result<Taken, SyntaxError>
    ensures { Turns tokens.now begun seen.now result }
{
    let Begun {
        mut machine,
        levels,
    } = begun;
    let Ok(step) = machine.step(alloc, seen) else {
        return Err(wants_memory(tokens));
    };
    match step {
        Step::Over(fits) => {
            if fits {
                return Ok(Taken::Whole(machine.values.directive()));
            }
            Err(refusal(tokens, seen, SyntaxKind::Unexpected))
        }
        Step::Took(fits) => {
            if fits {
                return deepen(tokens, Begun { machine, levels }, seen);
            }
            Err(refusal(tokens, seen, SyntaxKind::KindMix))
        }
        Step::Refused => Err(refusal(tokens, seen, SyntaxKind::Unexpected)),
    }
}

fn is_end(seen: &Seen) -> bool
    ensures { result ≡ is_end seen.now }
{
    match seen {
        Seen::Token(_, _) => false,
        Seen::End => true,
        Seen::Fault(_) => false,
    }
}

/// The next directive as a tree.
fn read_tree(
    alloc: Global,
    tokens: &mut Tokens,
    names: &mut Names,
) -> Result<Option<DirectiveTree>, SyntaxError>
    requires { tokens.old.refused ≡ None }
    ensures { ReadsTree tokens.old names.old result tokens.new names.new }
{
    let mut state = begin(alloc, tokens)?;
    let mut begun = false;
    loop {
        let mark = tokens.mark();
        let seen = look(alloc, tokens, names)?;
        if !begun && is_end(&seen) {
            return Ok(None);
        }
        match turn(alloc, tokens, state, &seen)? {
            Taken::On(next) => state = next,
            Taken::Whole(tree) => {
                tokens.back_to(mark);
                return Ok(Some(tree));
            }
        }
        begun = true;
    }
}

fn read_directive(
    alloc: Global,
    tokens: &mut Tokens,
    names: &mut Names,
    phrases: &mut Phrases,
) -> Result<Option<Directive>, SyntaxError>
    requires fresh { tokens.old.refused ≡ None }
    requires short { length tokens.old.text ≤ MOST_BYTES }
    requires table { NamesGrow first_names names.old }
    ensures { NumbersTree tokens.old names.old phrases.old result tokens.new names.new phrases.new }
{
    // The contract of `len` says that no two names have one text.
    let _count = names.len();
    let Some(tree) = read_tree(alloc, tokens, names)? else {
        return Ok(None);
    };
    match number_directive(alloc, phrases, tree) {
        Ok(directive) => Ok(Some(directive)),
        Err(_) => Err(wants_memory(tokens)),
    }
}
