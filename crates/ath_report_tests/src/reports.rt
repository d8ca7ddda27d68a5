// Whole reports of scripts.

use ath_io::{MemoryShelf, MemorySink};
use ath_session::{Status, athena};
use std::alloc::{AllocError, Global};
use std::process::Abort;
use std::test::Fail;

/// A text with its name.
type File = (&'static str, &'static [u8]);

/// A run: its words, the texts by name, what is printed, and the status.
type Run = (
    &'static [&'static str],
    &'static [File],
    &'static str,
    Status,
);

fn words(alloc: Global, words: &[&str]) -> Result<Vec<String>, AllocError> {
    let mut all = Vec::new(alloc);
    for word in words {
        all.push(String::from_str(alloc, word)?)?;
    }
    Ok(all)
}

/// A shelf of these names with their texts.
fn shelf_of(alloc: Global, files: &[(&str, &[u8])]) -> Result<MemoryShelf, AllocError> {
    let mut texts = Vec::new(alloc);
    for (name, text) in files {
        texts.push((String::from_str(alloc, name)?, text.to_vec(alloc)?))?;
    }
    Ok(MemoryShelf::new(alloc, texts, Vec::new(alloc)))
}

/// Runs these words over a shelf of these files, and compares the lines and the status with these.
pub(crate) fn expect_report(
    rt: &(impl Abort + AllocGlobal),
    named: &[&str],
    files: &[(&str, &[u8])],
    lines: &str,
    status: Status,
) -> Result<(), AllocError> {
    let alloc = rt.alloc();
    let mut shelf = shelf_of(alloc, files)?;
    let mut sink = MemorySink::new(alloc, 1_000_000, Vec::new(alloc))?;
    let answer = athena(alloc, &words(alloc, named)?, &mut shelf, &mut sink);
    assert_eq!(rt; sink.bytes(), lines.as_bytes(), "{lines}");
    assert_eq!(rt; answer, status, "{lines}");
    Ok(())
}

/// Runs a script of the name `x.ath`.
pub(crate) fn expect_lines(
    rt: &(impl Abort + AllocGlobal),
    script: &[u8],
    lines: &str,
    status: Status,
) -> Result<(), AllocError> {
    expect_report(rt, &["x.ath"], &[("x.ath", script)], lines, status)
}

const FIRST: &[u8] = b"(declare (A B) Boolean)\n(assert (if A B))\n(assert A)\n(!mp (if A B) A)\n";

const FIRST_LINES: &str = "Symbols: A, B\nAssertion: (if A B)\nAssertion: A\nTheorem: B\n";

const SCRIPTS: [(&[u8], &str, Status); 17] = [
    (FIRST, FIRST_LINES, Status::Clean),
    (b"# nothing\n", "", Status::Clean),
    (
        b"declare A, B: Boolean\n(!mp (if A B) A)\n(!claim A) A\n",
        "Symbols: A, B\nError: \"x.ath\":2:1: NotInBase (if A B)\nError: \"x.ath\":3:1: NotInBase A\nTerm: A\n",
        Status::Errors,
    ),
    (
        b"declare A: Boolean declare B, A: Boolean B declare C, C: Boolean declare true: Boolean",
        "Symbols: A\nError: \"x.ath\":1:20: Redeclared A\nError: \"x.ath\":1:42: Unbound B\nError: \"x.ath\":1:44: Redeclared C\nError: \"x.ath\":1:66: Redeclared true\n",
        Status::Errors,
    ),
    (
        b"declare mp: Boolean (!mp mp) (if mp true) claim <== (if A true)",
        "Symbols: mp\nError: \"x.ath\":1:21: NotMethod\nSentence: (if mp true)\nMethod: claim\nSymbol: <==\nError: \"x.ath\":1:57: Unbound A\n",
        Status::Errors,
    ),
    (
        b"declare A: Boolean (if A A A) (if claim A) (!mp A []) assert mp (!mp A A) (!claim)",
        "Symbols: A\nError: \"x.ath\":1:20: ArgCount 2 3\nError: \"x.ath\":1:31: WrongKind 1\nError: \"x.ath\":1:51: NotBuilt\nError: \"x.ath\":1:62: NotSentence\nError: \"x.ath\":1:65: WrongShape 1\nError: \"x.ath\":1:75: ArgCount 1 0\n",
        Status::Errors,
    ),
    (
        b"domain N\ndomain (List 'T)\ndeclare zero: N\ndeclare nil: (List 'T)\n(= nil zero)",
        "Domain: N\nDomain: List\nSymbols: zero\nSymbols: nil\nError: \"x.ath\":5:1: SortClash (List 'S1) N\n",
        Status::Errors,
    ),
    (
        b"domain N declare a, b, a: N a b",
        "Domain: N\nError: \"x.ath\":1:10: Redeclared a\nError: \"x.ath\":1:29: Unbound a\nError: \"x.ath\":1:31: Unbound b\n",
        Status::Errors,
    ),
    (
        b"(define x true)",
        "Error: \"x.ath\":1:1: NotBuilt\n",
        Status::Errors,
    ),
    (
        b"(declare A Boolean)\n(A = A)",
        "Symbols: A\nError: \"x.ath\":2:4: Unexpected\n",
        Status::Errors,
    ),
    (
        b"(declare A Boolean)\n\"\xC3",
        "Symbols: A\nError: \"x.ath\":2:2: BadUtf8\n",
        Status::Errors,
    ),
    (
        b"(declare A Boolean)\n(and (!claim A) A)",
        "Symbols: A\nError: \"x.ath\":2:7: KindMix\n",
        Status::Errors,
    ),
    (
        b"load \"x.ath\"",
        "Error: \"x.ath\":1:1: TooManyLoads\n",
        Status::Errors,
    ),
    // Deductions as arguments. Each concludes for the later arguments and for the method; of these conclusions a directive
    // leaves its own alone, and after a refusal none.
    (
        b"declare A, B, C: Boolean\nassert (if A B)\nassert (if B C)\nassert A\n(!mp (if B C) (!mp (if A B) A))\n(!claim C)\n(!claim B)\n(!mp (!claim (if A B)) (!claim A))",
        "Symbols: A, B, C\nAssertion: (if A B)\nAssertion: (if B C)\nAssertion: A\nTheorem: C\nTheorem: C\nError: \"x.ath\":7:1: NotInBase B\nTheorem: B\n",
        Status::Errors,
    ),
    (
        b"declare A, B, C: Boolean\nassert (if A (if B C))\nassert A\n(!mp (!mp (if A (if B C)) A) (!claim (if B C)))\n(!mp (!mp (if A (if B C)) A) B)\n(!claim (if B C))",
        "Symbols: A, B, C\nAssertion: (if A (if B C))\nAssertion: A\nError: \"x.ath\":4:1: WrongShape 2\nError: \"x.ath\":5:1: NotInBase B\nError: \"x.ath\":6:1: NotInBase (if B C)\n",
        Status::Errors,
    ),
    (
        b"declare A, B, C: Boolean\nassert (if A (if B C))\nassert A\n(!mp (!mp (if A (if B C)) A) (!mp (if B C) B))\nassert B\n(!mp (!mp (if A (if B C)) A) B)\n(!claim (!claim B))",
        "Symbols: A, B, C\nAssertion: (if A (if B C))\nAssertion: A\nError: \"x.ath\":4:30: NotInBase B\nAssertion: B\nTheorem: C\nTheorem: B\n",
        Status::Errors,
    ),
    (
        b"declare A: Boolean\nassert A\n(!claim (!claim (!claim A)))\n(!claim (!claim))\n(!mp (!claim A))\n(!claim (!claim A) (!claim A))",
        "Symbols: A\nAssertion: A\nTheorem: A\nError: \"x.ath\":4:9: ArgCount 1 0\nError: \"x.ath\":5:1: ArgCount 2 1\nError: \"x.ath\":6:1: ArgCount 1 2\n",
        Status::Errors,
    ),
];

#[test]
fn scripts_give_their_reports(rt: HostRuntime) -> Result<(), Fail> {
    for (script, lines, status) in SCRIPTS {
        expect_lines(&rt, script, lines, status)?;
    }
    Ok(())
}

const DECLARATIONS: &[u8] =
    b"domain N\ndomain N\ndeclare f: [M] -> N\ndeclare f: [(N N)] -> N\ndeclare f: ('T) [N] -> N\ndatatype B := b | b\n";

const DECLARATION_LINES: &str =
    "Domain: N\nError: \"r30.ath\":2:1: Redeclared N\nError: \"r30.ath\":3:1: UnknownSort M\nError: \"r30.ath\":4:1: Arity N\nError: \"r30.ath\":5:1: LooseParam 'T\nError: \"r30.ath\":6:1: NotBuilt\n";

const STEPS: File = (
    "steps.ath",
    b"(declare A Boolean)\n(assert A)\n(!claim A)\nA\n",
);

const RUNS: [Run; 8] = [
    // refused declarations
    (
        &["r30.ath"],
        &[("r30.ath", DECLARATIONS)],
        DECLARATION_LINES,
        Status::Errors,
    ),
    // files in order, and a syntax error that ends its own
    (
        &["twice.ath", "x.ath"],
        &[
            ("twice.ath", b"(declare A Boolean)\n(assert A))\nA"),
            ("x.ath", b"A"),
        ],
        "Symbols: A\nAssertion: A\nError: \"twice.ath\":2:11: Unexpected\nTerm: A\n",
        Status::Errors,
    ),
    // loads
    (
        &["m.ath"],
        &[
            ("m.ath", b"load \"a.ath\" A"),
            ("a.ath", b"declare A: Boolean"),
        ],
        "Symbols: A\nTerm: A\n",
        Status::Clean,
    ),
    (
        &["a.ath"],
        &[
            ("a.ath", b"load \"b.ath\" load \"b.ath\" true"),
            ("b.ath", b"declare A: Boolean"),
        ],
        "Symbols: A\nError: \"b.ath\":1:1: Redeclared A\nTerm: true\n",
        Status::Errors,
    ),
    (
        &["m.ath"],
        &[("m.ath", b"true load \"a.ath\" true")],
        "Term: true\n",
        Status::SourceFault,
    ),
    (
        &["first.ath", "other.ath"],
        &[("first.ath", FIRST)],
        FIRST_LINES,
        Status::SourceFault,
    ),
    // steps
    (
        &["--fuel", "5", "steps.ath"],
        &[STEPS],
        "Symbols: A\nAssertion: A\nTheorem: A\nTerm: A\n",
        Status::Clean,
    ),
    (
        &["steps.ath", "--fuel=4"],
        &[STEPS],
        "Symbols: A\nAssertion: A\nTheorem: A\nFuel: \"steps.ath\":4:1: out of fuel\n",
        Status::Fuel,
    ),
];

#[test]
fn files_loads_and_steps_give_their_reports(rt: HostRuntime) -> Result<(), Fail> {
    for (named, files, lines, status) in RUNS {
        expect_report(&rt, named, files, lines, status)?;
    }
    Ok(())
}

/// These words are a usage fault, for which nothing is asked and nothing is put.
fn expect_usage(rt: &(impl Abort + AllocGlobal), row: &[&str]) -> Result<(), AllocError> {
    let alloc = rt.alloc();
    let mut shelf = shelf_of(alloc, &[("a.ath", FIRST)])?;
    let mut sink = MemorySink::new(alloc, 100, Vec::new(alloc))?;
    let answer = athena(alloc, &words(alloc, row)?, &mut shelf, &mut sink);
    assert_eq!(rt; answer, Status::Usage);
    assert_eq!(rt; shelf.asked().len(), 0);
    assert_eq!(rt; sink.bytes().len(), 0);
    Ok(())
}

const NO_RUNS: [&[&str]; 4] = [
    &[],
    &["--fuel", "0", "a.ath"],
    &["--generate", "5", "a.ath"],
    &["--help"],
];

#[test]
fn other_words_ask_for_nothing(rt: HostRuntime) -> Result<(), Fail> {
    for row in NO_RUNS {
        expect_usage(&rt, row)?;
    }
    Ok(())
}

#[test]
fn a_failed_put_ends_the_report(rt: HostRuntime) -> Result<(), Fail> {
    let alloc = rt.alloc();
    let mut shelf = shelf_of(alloc, &[("first.ath", FIRST)])?;
    let mut sink = MemorySink::new(alloc, 100, [(2, 0)].to_vec(alloc)?)?;
    let answer = athena(alloc, &words(alloc, &["first.ath"])?, &mut shelf, &mut sink);
    assert_eq!(rt; sink.bytes(), "Symbols: A, B\n".as_bytes());
    assert_eq!(rt; answer, Status::SinkFault);
    Ok(())
}
