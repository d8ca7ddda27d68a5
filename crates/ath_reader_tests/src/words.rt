// Levels of operators, as words.

use ath_lexemes::level;

#[test]
fn levels_of_words(rt: HostRuntime) {
    for (text, wanted) in [
        ("601", Some(601)),
        ("999", Some(999)),
        ("0700", Some(700)),
        ("600", None),
        ("1000", None),
        ("+700", None),
        ("7a0", None),
        ("18446744073709552316", None),
    ] {
        assert_eq!(rt; level(text), wanted);
    }
}
