// What the reader gives of a text.

ghost use Rattle.ath_names.specs.Names.{KeepsNames as NamesGrow, first_names};
ghost use Rattle.ath_syntax.specs.Stands.{IsDirective};
ghost use Rattle.ath_syntax.specs.Tree.{DirectiveTree};

use ath_names::Names;
use ath_reader::{MOST_BYTES, OpTable, Reader};
use ath_syntax::{Directive, Phrases, What};
use std::alloc::Global;
use std::test::Fail;

/// A directive; of a phrase, whether it is a deduction, and its form.
fn shown(alloc: Global, directive: &Directive, phrases: &Phrases) -> Result<String, Fail>
    requires { (t : DirectiveTree) × IsDirective phrases.now directive.now t }
{
    let shown = match &directive.what {
        What::Phrase(number) => {
            let node = phrases.node(*number);
            let kind = if node.deduction {
                "deduction"
            } else {
                "expression"
            };
            format!(in alloc; "{kind} {:?}", node.form)?
        }
        what => format!(in alloc; "{:?}", what)?,
    };
    Ok(shown)
}

/// What comes next.
#[tactic(auto, using(crate::proofs::Standing::names_grown))]
fn next(
    alloc: Global,
    reader: &mut Reader,
    names: &mut Names,
    phrases: &mut Phrases,
    operators: &OpTable,
) -> Result<String, Fail>
    requires { NamesGrow first_names names.old }
    ensures { NamesGrow first_names names.new }
{
    match reader.directive(alloc, names, phrases, operators) {
        Ok(Some(directive)) => shown(alloc, &directive, phrases),
        Ok(None) => Ok(String::from_str(alloc, "end")?),
        Err(error) => {
            let shown = format!(in alloc;
                "{:?} @{}:{}.",
                error.kind, error.pos.line, error.pos.col
            )?;
            Ok(shown)
        }
    }
}

/// Whether what is shown has each of these words.
fn has_words(shown: &str, words: &str) -> bool {
    for word in words.split(' ') {
        if !shown.contains(word) {
            return false;
        }
    }
    true
}

/// Whether a text gives this, one after another, parted by `; `.
pub(crate) fn gives(alloc: Global, text: &[u8], wanted: &str) -> Result<bool, Fail> {
    if text.len() > MOST_BYTES {
        return Ok(false);
    }
    let mut names = Names::new(alloc)?;
    let mut phrases = Phrases::new(alloc);
    let operators = OpTable::new(alloc)?;
    let mut reader = Reader::new(Vec::from_slice(alloc, text)?, 3);
    for words in wanted.split("; ") {
        let shown = next(alloc, &mut reader, &mut names, &mut phrases, &operators)?;
        if !has_words(shown.as_str(), words) {
            return Ok(false);
        }
    }
    Ok(true)
}
