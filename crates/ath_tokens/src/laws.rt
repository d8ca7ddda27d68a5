//! Laws of the cut of a text, over its definition alone: the contract of each is what is proved.

ghost use Rattle.ath_tokens.specs.Laws.{FoundIsLongest, EndedIsEnd};

/// A token's text spells it by the table of tokens, no longer text from its start spells any, and
/// only blanks and comments stand before it.
pub fn found_is_longest()
    ensures { FoundIsLongest }
{}

/// Where the text ends, only blanks and comments are left.
pub fn ended_is_end()
    ensures { EndedIsEnd }
{}
