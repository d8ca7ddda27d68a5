// Levels of operators.

ghost use Rattle.std.specs.Prelude.{◌≡◌};
ghost use Rattle.std.specs.Str.{all_ascii_digits};
ghost use Rattle.ath_lexemes.specs.Level.{level_of};

/// The level that a word gives: it is written in digits, with leading zeros or without, and is from 601 to 999.
pub fn level(word: &str) -> Option<u32>
    ensures { result ≡ level_of word.now }
{
    if !is_digits(word.as_bytes()) {
        return None;
    }
    let Ok(level) = word.parse::<u32>() else {
        return None;
    };
    if level < 601 || 999 < level {
        return None;
    }
    Some(level)
}

fn is_digits(text: &[u8]) -> bool
    ensures { result ≡ all_ascii_digits text.now }
{
    for byte in text {
        if !byte.is_ascii_digit() {
            return false;
        }
    }
    true
}
