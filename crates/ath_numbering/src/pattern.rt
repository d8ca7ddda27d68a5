// Patterns become numbered nodes.

ghost use Rattle.std.specs.Prelude.{IfOk, map};
ghost use Rattle.ath_numbering.specs.Trees.{pattern_of, patterns_of};
ghost use Rattle.ath_syntax.specs.Proper.{ProperPattern, ProperPatterns};
ghost use Rattle.ath_syntax.specs.Nodes.{KeepsNodes};
ghost use Rattle.ath_syntax.specs.Stands.{IsPattern, IsPatternNode, ArePatterns};

use crate::tree::PatternTree;
use ath_syntax::{PatId, PatNode, Phrases};
use sqlite_items::Items;
use std::alloc::{AllocError, Global};

/// The number of a pattern's node.
#[cycle(patterns)]
pub fn number_pattern(
    alloc: Global,
    phrases: &mut Phrases,
    tree: PatternTree,
) -> Result<PatId, AllocError>
    requires { ProperPattern (pattern_of tree) }
    ensures stands { IfOk result (λ i. IsPattern phrases.new.patterns i (pattern_of tree)) }
    ensures kept { KeepsNodes phrases.old phrases.new }
{
    let node = pattern_node(alloc, phrases, tree)?;
    let number = phrases.add_pat(node)?;
    Ok(number)
}

// The node of a pattern, whose parts are numbered.
#[cycle(patterns)]
fn pattern_node(
    alloc: Global,
    phrases: &mut Phrases,
    tree: PatternTree,
) -> Result<PatNode, AllocError>
    requires { ProperPattern (pattern_of tree) }
    ensures stands { IfOk result (λ n. IsPatternNode phrases.new.patterns n (pattern_of tree)) }
    ensures kept { KeepsNodes phrases.old phrases.new }
{
    match tree {
        PatternTree::Any => Ok(PatNode::Any),
        PatternTree::Name(name) => Ok(PatNode::Name(name)),
        PatternTree::Str(text) => Ok(PatNode::Str(text)),
        PatternTree::List(parts) => {
            let parts = number_patterns(alloc, phrases, parts)?;
            Ok(PatNode::List(parts))
        }
        PatternTree::ListOf(first, rest) => {
            let first = number_pattern(alloc, phrases, first.into_inner())?;
            let rest = number_pattern(alloc, phrases, rest.into_inner())?;
            Ok(PatNode::ListOf(first, rest))
        }
        PatternTree::App(name, parts) => {
            let parts = number_patterns(alloc, phrases, parts)?;
            Ok(PatNode::App(name, parts))
        }
        PatternTree::SomeOf(kind, name) => Ok(PatNode::Some(kind, name)),
    }
}

// The numbers of patterns. The last one's is made first, since a list gives its items from its end.
#[cycle(patterns)]
fn number_patterns(
    alloc: Global,
    phrases: &mut Phrases,
    trees: Items<PatternTree>,
) -> Result<Items<PatId>, AllocError>
    requires { ProperPatterns (patterns_of (map pattern_of trees)) }
    ensures stands { IfOk result (λ is. ArePatterns phrases.new.patterns is (patterns_of (map pattern_of trees))) }
    ensures kept { KeepsNodes phrases.old phrases.new }
{
    let mut trees = trees;
    let mut numbers = Vec::new(alloc);
    while let Some(tree) = trees.pop() {
        numbers.push(number_pattern(alloc, phrases, tree)?)?;
    }
    numbers.reverse();
    Ok(Items::from_vec(numbers))
}
