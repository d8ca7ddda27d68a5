// The examples of docs/ERRORS.md; tools/examples.py writes this file.

use crate::reports::expect_lines;
use ath_session::Status;
use std::alloc::{AllocError, Global};
use std::test::Fail;

/// The text that these parts make.
pub(crate) fn text_of(alloc: Global, parts: &[(&[u8], u64)]) -> Result<Vec<u8>, AllocError> {
    let mut text = Vec::new(alloc);
    for (part, times) in parts {
        for _ in 0..*times {
            text.extend_from_slice(part)?;
        }
    }
    Ok(text)
}

/// Files with what is printed for each.
const EXAMPLES: [(&[u8], &str); 22] = [
    // BadChar
    (
        b"declare A: Boolean\nA \\ A\n",
        "Symbols: A\nTerm: A\nError: \"x.ath\":2:3: BadChar\n",
    ),
    // BadUtf8
    (b"# caf\xC3\n", "Error: \"x.ath\":1:6: BadUtf8\n"),
    // OpenString
    (
        b"declare A: Boolean\nload \"a.ath\n",
        "Symbols: A\nError: \"x.ath\":2:6: OpenString\n",
    ),
    // Unexpected
    (
        b"declare A: Boolean\n(assert A))\n",
        "Symbols: A\nAssertion: A\nError: \"x.ath\":2:11: Unexpected\n",
    ),
    // Unclosed
    (
        b"declare A: Boolean\n(assert (and A A)\n",
        "Symbols: A\nError: \"x.ath\":3:1: Unclosed\n",
    ),
    // KindMix
    (
        b"declare A: Boolean\n(not (!claim A))\n",
        "Symbols: A\nError: \"x.ath\":2:7: KindMix\n",
    ),
    // NotBuilt
    (b"define x := true\n", "Error: \"x.ath\":1:1: NotBuilt\n"),
    // Redeclared
    (
        b"declare A: Boolean\ndeclare B, A: Boolean\n",
        "Symbols: A\nError: \"x.ath\":2:1: Redeclared A\n",
    ),
    // UnknownSort
    (
        b"declare zero: N\ndeclare f: ('T) ['S] -> 'T\n",
        "Error: \"x.ath\":1:1: UnknownSort N\nError: \"x.ath\":2:1: UnknownSort 'S\n",
    ),
    // Arity
    (
        b"domain N\ndomain (List 'T)\ndeclare l: (List N N)\n",
        "Domain: N\nDomain: List\nError: \"x.ath\":3:1: Arity List\n",
    ),
    // LooseParam
    (
        b"declare A: ('T) Boolean\n",
        "Error: \"x.ath\":1:1: LooseParam 'T\n",
    ),
    // Unbound
    (b"assert A\n", "Error: \"x.ath\":1:8: Unbound A\n"),
    // ArgCount
    (
        b"declare A: Boolean\n(if A)\n(forall ?x)\n",
        "Symbols: A\nError: \"x.ath\":2:1: ArgCount 2 1\nError: \"x.ath\":3:1: ArgCount 2 1\n",
    ),
    // WrongKind
    (
        b"declare f: [Boolean] -> Boolean\n(f not)\ndeclare c: Boolean\n(forall ?x c (f ?x))\n",
        "Symbols: f\nError: \"x.ath\":2:1: WrongKind 1\nSymbols: c\nError: \"x.ath\":4:1: WrongKind 2\n",
    ),
    // SortClash
    (
        b"domain N\ndeclare zero: N\n(= zero true)\n(exists ?x:Boolean (= ?x zero))\n",
        "Domain: N\nSymbols: zero\nError: \"x.ath\":3:1: SortClash N Boolean\nError: \"x.ath\":4:1: SortClash Boolean N\n",
    ),
    // NotBoolean
    (
        b"domain N\ndeclare zero: N\n(and zero true)\n(forall ?x zero)\n",
        "Domain: N\nSymbols: zero\nError: \"x.ath\":3:1: NotBoolean zero\nError: \"x.ath\":4:1: NotBoolean zero\n",
    ),
    // NotApplicable
    (
        b"declare A: Boolean\n(A true)\n",
        "Symbols: A\nError: \"x.ath\":2:1: NotApplicable\n",
    ),
    // NotSentence
    (
        b"domain N\nassert ?x:N\nassert* ?x\n",
        "Domain: N\nError: \"x.ath\":2:8: NotSentence\nError: \"x.ath\":3:9: NotSentence\n",
    ),
    // NotInBase
    (
        b"declare A: Boolean\n(!claim A)\nassert (forall ?x (if ?x ?y))\n(!claim (forall ?z (if ?z ?y)))\n(!claim (forall ?x (if ?x ?z)))\n",
        "Symbols: A\nError: \"x.ath\":2:1: NotInBase A\nAssertion: (forall ?x:Boolean (if ?x ?y:Boolean))\nTheorem: (forall ?z:Boolean (if ?z ?y:Boolean))\nError: \"x.ath\":5:1: NotInBase (forall ?x:Boolean (if ?x ?z:Boolean))\n",
    ),
    // WrongShape
    (
        b"declare A, B: Boolean\n(!mp A A)\n(!mp (if A B) B)\n",
        "Symbols: A, B\nError: \"x.ath\":2:1: WrongShape 1\nError: \"x.ath\":3:1: WrongShape 2\n",
    ),
    // NotMethod
    (
        b"declare mp: Boolean\n(!mp true)\n",
        "Symbols: mp\nError: \"x.ath\":2:1: NotMethod\n",
    ),
    // TooManyLoads
    (b"load \"x.ath\"\n", "Error: \"x.ath\":1:1: TooManyLoads\n"),
];

#[test]
fn the_examples_of_errors(rt: HostRuntime) -> Result<(), Fail> {
    for (text, lines) in EXAMPLES {
        expect_lines(&rt, text, lines, Status::Errors)?;
    }
    Ok(())
}

/// The same of files that say a part again and again: the parts, each with how often it stands there.
const LARGE_EXAMPLES: [(&[(&[u8], u64)], &str); 8] = [
    // NameTooLong
    (
        &[(b"declare ", 1), (b"a", 201), (b": Boolean\n", 1)],
        "Error: \"x.ath\":1:9: NameTooLong\n",
    ),
    // TooDeep, of a text
    (
        &[
            (b"declare A: Boolean\n", 1),
            (b"(not ", 501),
            (b"A", 1),
            (b")", 501),
            (b"\n", 1),
        ],
        "Symbols: A\nError: \"x.ath\":2:2501: TooDeep\n",
    ),
    // TooWide
    (
        &[
            (b"domain N\ndeclare f: [", 1),
            (b"N ", 65),
            (b"] -> N\n", 1),
        ],
        "Domain: N\nError: \"x.ath\":2:1: TooWide f\n",
    ),
    // SortTooLarge
    (
        &[
            (b"domain N\ndomain (List 'T)\ndeclare x: ", 1),
            (b"(List ", 64),
            (b"N", 1),
            (b")", 64),
            (b"\n", 1),
        ],
        "Domain: N\nDomain: List\nError: \"x.ath\":3:1: SortTooLarge\n",
    ),
    // TooLarge
    (
        &[
            (b"declare A: Boolean\n(and", 1),
            (b" A", 50001),
            (b")\n", 1),
        ],
        "Symbols: A\nError: \"x.ath\":2:1: TooLarge 100001\n",
    ),
    // TooDeep, of a sentence
    (
        &[
            (b"declare A: Boolean\n(and", 1),
            (b" A", 2001),
            (b")\nassert* (and", 1),
            (b" A", 1999),
            (b" ?b)\n", 1),
        ],
        "Symbols: A\nError: \"x.ath\":2:1: TooDeep 2001\nError: \"x.ath\":3:9: TooDeep 2001\n",
    ),
    // LineTooLong
    (
        &[
            (
                b"domain D\ndomain (a-domain-whose-name-makes-lines-long 'T)\ndeclare c:",
                1,
            ),
            (b" (a-domain-whose-name-makes-lines-long", 63),
            (b" D", 1),
            (b")", 63),
            (
                b"\ndeclare P: ('S) ['S 'S 'S 'S 'S 'S 'S 'S] -> Boolean\n(and",
                1,
            ),
            (b" (P c ?x ?x ?x ?x ?x ?x ?x)", 1000),
            (b")\n", 1),
        ],
        "Domain: D\nDomain: a-domain-whose-name-makes-lines-long\nSymbols: c\nSymbols: P\nError: \"x.ath\":5:1: LineTooLong\n",
    ),
    // FileTooLong
    (
        &[(b"#", 4194305), (b"\n", 1)],
        "Error: \"x.ath\":1:1: FileTooLong\n",
    ),
];

#[test]
fn the_large_examples_of_errors(rt: HostRuntime) -> Result<(), Fail> {
    for (parts, lines) in LARGE_EXAMPLES {
        let text = text_of(rt.alloc(), parts)?;
        expect_lines(&rt, text.as_slice(), lines, Status::Errors)?;
    }
    Ok(())
}
