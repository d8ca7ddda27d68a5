//! The laws of reading back.

ghost use Rattle.ath_reading_back.specs.Laws.{PrintsAreReadBack};

/// What is printed of a sentence is read back: its tokens spell one directive alone, which is its text tree, where names are
/// declared ones, variables have names and indices of tokens, and no bracket is too deep.
pub fn prints_are_read_back()
    ensures { PrintsAreReadBack }
{}
