// Directives whose phrases are numbered.

ghost use Rattle.std.specs.Prelude.{IfOk};
ghost use Rattle.ath_numbering.specs.Trees.{statement_of, directive_of};
ghost use Rattle.ath_syntax.specs.Proper.{ProperStatement, ProperDirective};
ghost use Rattle.ath_syntax.specs.Nodes.{KeepsNodes};
ghost use Rattle.ath_syntax.specs.Stands.{IsStatement, IsDirective};

use crate::number::number_phrase;
use crate::tree::{DirectiveTree, StatementTree};
use ath_syntax::{Directive, Phrases, What};
use std::alloc::{AllocError, Global};

/// A directive with the number of its phrase.
#[tactic(auto, using(crate::proofs::StatementLaws::directive_stands))]
pub fn number_directive(
    alloc: Global,
    phrases: &mut Phrases,
    tree: DirectiveTree,
) -> Result<Directive, AllocError>
    requires { ProperDirective (directive_of tree) }
    ensures stands { IfOk result (λ d. IsDirective phrases.new d (directive_of tree)) }
    ensures kept { KeepsNodes phrases.old phrases.new }
{
    let DirectiveTree { pos, statement } = tree;
    let what = number_statement(alloc, phrases, statement)?;
    Ok(Directive { pos, what })
}

#[tactic(auto, using(crate::proofs::StatementLaws::statement_stands))]
fn number_statement(
    alloc: Global,
    phrases: &mut Phrases,
    tree: StatementTree,
) -> Result<What, AllocError>
    requires { ProperStatement (statement_of tree) }
    ensures stands { IfOk result (λ w. IsStatement phrases.new w (statement_of tree)) }
    ensures kept { KeepsNodes phrases.old phrases.new }
{
    match tree {
        StatementTree::Domain(name, vars) => Ok(What::Domain(name, vars)),
        StatementTree::Datatype(name, vars, rows) => Ok(What::Datatype(name, vars, rows)),
        StatementTree::Declare(names, vars, args, sort) => {
            Ok(What::Declare(names, vars, args, sort))
        }
        StatementTree::Define(name, body) => {
            let body = number_phrase(alloc, phrases, body)?;
            Ok(What::Define(name, body))
        }
        StatementTree::DefineFun(name, params, body) => {
            let body = number_phrase(alloc, phrases, body)?;
            Ok(What::DefineFun(name, params, body))
        }
        StatementTree::Assert(name, closed, body) => {
            let body = number_phrase(alloc, phrases, body)?;
            Ok(What::Assert(name, closed, body))
        }
        StatementTree::Load(file) => Ok(What::Load(file)),
        StatementTree::Phrase(body) => {
            let body = number_phrase(alloc, phrases, body)?;
            Ok(What::Phrase(body))
        }
    }
}
