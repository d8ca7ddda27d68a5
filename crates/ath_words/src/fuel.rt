// The fuel of a run.

ghost use Rattle.std.specs.Prelude.{◌≡◌, Some, option_map};
ghost use Rattle.std.specs.Str.{all_ascii_digits};
ghost use Rattle.ath_words.specs.Words.{fuel_of, is_number};

use crate::limits::{MOST_FUEL, USUAL_FUEL};

/// The fuel that the text of `--fuel` writes, where it is there.
pub fn fuel(text: Option<&str>) -> Option<u64>
    ensures { result ≡ fuel_of (option_map (λ t. t.now) text.entry) }
{
    match text {
        Some(text) => written(text),
        None => Some(USUAL_FUEL),
    }
}

fn written(text: &str) -> Option<u64>
    ensures { result ≡ fuel_of (Some text.now) }
{
    if !is_digits(text.as_bytes()) || text.as_bytes().starts_with(b"0") {
        return None;
    }
    let Ok(fuel) = text.parse::<u64>() else {
        return None;
    };
    if MOST_FUEL < fuel {
        return None;
    }
    Some(fuel)
}

fn is_digits(text: &[u8]) -> bool
    ensures { result ≡ all_ascii_digits text.now }
{
    for byte in text {
        if !byte.is_ascii_digit() {
            return false;
        }
    }
    true
}
