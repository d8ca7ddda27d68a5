// Whole reports of scripts with quantifiers, closed assertions, and sentences that differ in their bound variables.

use crate::examples::text_of;
use crate::reports::{expect_lines, expect_report};
use ath_session::Status;
use std::alloc::AllocError;
use std::process::Abort;
use std::test::Fail;

/// A directive, which is one line of a script, and the line that is printed for it.
type Row = (&'static str, &'static str);

/// Runs the script of these directives, and compares its report with these lines.
fn expect_rows(
    rt: &(impl Abort + AllocGlobal),
    rows: &[Row],
    status: Status,
) -> Result<(), AllocError> {
    let mut script = Vec::new(rt.alloc());
    let mut lines = String::new(rt.alloc());
    for (directive, line) in rows {
        script.extend_from_slice(directive.as_bytes())?;
        script.push(b'\n')?;
        lines.push_str(line)?;
        lines.push('\n')?;
    }
    expect_lines(rt, script.as_slice(), lines.as_str(), status)
}

/// Quantifiers as they are printed: a bound variable has its sort at its binder alone.
const PRINTED: [Row; 19] = [
    ("domain N", "Domain: N"),
    ("domain (L 'T)", "Domain: L"),
    ("declare R: [N N] -> Boolean", "Symbols: R"),
    ("declare nil: (L 'T)", "Symbols: nil"),
    ("declare S: ['A 'B] -> Boolean", "Symbols: S"),
    (
        "(forall ?x%1 (R ?x%1 ?x))",
        "Sentence: (forall ?x%1:N (R ?x%1 ?x:N))",
    ),
    (
        "assert (forall ?x (exists ?y (= ?x ?y)))",
        "Assertion: (forall ?x:'S1 (exists ?y:'S1 (= ?x ?y)))",
    ),
    (
        "(exists ?y%1:'S1 (= ?y:'S1 ?y%1))",
        "Sentence: (exists ?y%1:'S1 (= ?y:'S1 ?y%1))",
    ),
    (
        "(forall ?x (forall ?x%1 (forall ?x%2 (and (R ?x%1 ?x%2) (R ?x ?x%3)))))",
        "Sentence: (forall ?x:N (forall ?x%1:N (forall ?x%2:N (and (R ?x%1 ?x%2) (R ?x ?x%3:N)))))",
    ),
    (
        "(forall ?x:(L (L 'T)) (= ?x nil))",
        "Sentence: (forall ?x:(L (L 'S1)) (= ?x (nil : (L (L 'S1)))))",
    ),
    (
        "(forall ?x:(L 'B) (exists ?y:(L 'A) (S ?x ?y)))",
        "Sentence: (forall ?x:(L 'S1) (exists ?y:(L 'S2) (S ?x ?y)))",
    ),
    ("(S ?x:'B ?y:'A)", "Term: (S ?x:'S1 ?y:'S2)"),
    (
        "(S (S ?x ?y) (S nil ?x))",
        "Term: (S (S ?x:'S1 ?y:'S2) (S (nil : (L 'S3)) ?x:'S1))",
    ),
    (
        "(and (S ?x ?y) (forall ?x (S ?x ?y)))",
        "Sentence: (and (S ?x:'S1 ?y:'S2) (forall ?x:'S3 (S ?x ?y:'S2)))",
    ),
    (
        "(exists ?x:'A (S ?x nil))",
        "Sentence: (exists ?x:'S1 (S ?x (nil : (L 'S2))))",
    ),
    (
        "(forall ?b:'B (if (exists ?a:'A (S ?a ?b)) (S nil ?b)))",
        "Sentence: (forall ?b:'S1 (if (exists ?a:'S2 (S ?a ?b)) (S (nil : (L 'S3)) ?b)))",
    ),
    (
        "(exists ?y%1:'S1 (= ?y:'S1 ?y%1))",
        "Sentence: (exists ?y%1:'S1 (= ?y:'S1 ?y%1))",
    ),
    ("forall", "Symbol: forall"),
    (
        "(forall ?p (if ?p ?p))",
        "Sentence: (forall ?p:Boolean (if ?p ?p))",
    ),
];

/// Refusals of quantifiers.
const REFUSED: [Row; 29] = [
    ("domain N", "Domain: N"),
    ("domain D", "Domain: D"),
    ("declare P: [N] -> Boolean", "Symbols: P"),
    ("declare c: N", "Symbols: c"),
    ("declare A: Boolean", "Symbols: A"),
    ("(forall)", "Error: \"x.ath\":6:1: ArgCount 2 0"),
    ("(forall ?x)", "Error: \"x.ath\":7:1: ArgCount 2 1"),
    ("(exists (P ?x))", "Error: \"x.ath\":8:1: ArgCount 2 1"),
    ("(forall c (P c))", "Error: \"x.ath\":9:1: WrongKind 1"),
    ("(forall ?x c (P ?x))", "Error: \"x.ath\":10:1: WrongKind 2"),
    ("(forall ?x ?y P)", "Error: \"x.ath\":11:1: WrongKind 3"),
    ("(forall c P)", "Error: \"x.ath\":12:1: WrongKind 1"),
    ("(forall ?x c)", "Error: \"x.ath\":13:1: NotBoolean c"),
    ("(forall ?x ?y:N)", "Error: \"x.ath\":14:1: NotBoolean ?y:N"),
    ("(forall ?x mp)", "Error: \"x.ath\":15:1: WrongKind 2"),
    ("(forall (P ?x) ?x A)", "Error: \"x.ath\":16:1: WrongKind 1"),
    (
        "(forall ?x:D (P ?x))",
        "Error: \"x.ath\":17:1: SortClash D N",
    ),
    (
        "(forall ?y:N ?x:D (if (P ?y) (P ?x)))",
        "Error: \"x.ath\":18:1: SortClash D N",
    ),
    (
        "(exists ?x (and (P ?x) (= ?x ?x:D)))",
        "Error: \"x.ath\":19:12: SortClash N D",
    ),
    (
        "(forall ?x (and (= ?x ?y) (exists ?y:D (= ?y ?x)) (P ?y)))",
        "Error: \"x.ath\":20:12: SortClash 'S1 N",
    ),
    ("(forall ?x ?x:N)", "Error: \"x.ath\":21:1: NotBoolean ?x:N"),
    (
        "(forall ?x:D ?x:N (P ?x))",
        "Sentence: (forall ?x:D (forall ?x:N (P ?x)))",
    ),
    (
        "(forall ?x:N ?x:D (P ?x))",
        "Error: \"x.ath\":23:1: SortClash D N",
    ),
    (
        "(forall ?x (P zork))",
        "Error: \"x.ath\":24:15: Unbound zork",
    ),
    ("(zork ?x (P ?x))", "Error: \"x.ath\":25:2: Unbound zork"),
    (
        "(forall ?x:M (P ?x))",
        "Error: \"x.ath\":26:9: UnknownSort M",
    ),
    ("(forall A A)", "Error: \"x.ath\":27:1: WrongKind 1"),
    ("(exists ?x ?x A mp)", "Error: \"x.ath\":28:1: WrongKind 3"),
    (
        "(forall ?p (exists ?q (= ?p ?q:N)))",
        "Sentence: (forall ?p:N (exists ?q:N (= ?p ?q)))",
    ),
];

/// The sorts of a quantifier are unified in order of occurrence, the binder first.
const SORTS: [Row; 18] = [
    ("domain N", "Domain: N"),
    ("domain D", "Domain: D"),
    ("domain (L 'T)", "Domain: L"),
    ("declare P: [N] -> Boolean", "Symbols: P"),
    ("declare Q: [D] -> Boolean", "Symbols: Q"),
    ("declare nil: (L 'T)", "Symbols: nil"),
    (
        "(forall ?x (or (P ?x) (Q ?x)))",
        "Error: \"x.ath\":7:12: SortClash N D",
    ),
    (
        "(forall ?x:(L 'T) (= ?x ?y:(L N)))",
        "Sentence: (forall ?x:(L N) (= ?x ?y:(L N)))",
    ),
    (
        "(forall ?x:(L 'T) (and (= ?x ?y:(L N)) (= ?x ?z:(L D))))",
        "Error: \"x.ath\":9:19: SortClash (L N) (L D)",
    ),
    (
        "(forall ?y (and (= ?x ?y) (P ?y) (Q ?x)))",
        "Error: \"x.ath\":10:12: SortClash 'S1 D",
    ),
    (
        "(and (forall ?x (P ?x)) (forall ?x (Q ?x)))",
        "Sentence: (and (forall ?x:N (P ?x)) (forall ?x:D (Q ?x)))",
    ),
    (
        "(and (forall ?x (P ?y)) (forall ?x (Q ?y)))",
        "Error: \"x.ath\":12:1: SortClash N D",
    ),
    (
        "(and (P ?y) (forall ?y (Q ?y)) (Q ?y))",
        "Error: \"x.ath\":13:1: SortClash N D",
    ),
    (
        "(iff (forall ?x (= ?x ?y)) (Q ?y))",
        "Sentence: (iff (forall ?x:D (= ?x ?y:D)) (Q ?y:D))",
    ),
    (
        "(iff (forall ?x (= ?x ?y)) (= ?y nil))",
        "Sentence: (iff (forall ?x:(L 'S1) (= ?x ?y:(L 'S1))) (= ?y:(L 'S1) (nil : (L 'S1))))",
    ),
    (
        "(not (forall ?x:'A (= ?x ?y)))",
        "Sentence: (not (forall ?x:'S1 (= ?x ?y:'S1)))",
    ),
    (
        "(exists ?x:'A (forall ?y:'B (= ?x ?y)))",
        "Sentence: (exists ?x:'S1 (forall ?y:'S1 (= ?x ?y)))",
    ),
    (
        "(exists ?x:'A ?y:'A ?z:'B (and (= ?x ?y) (= ?z ?z)))",
        "Sentence: (exists ?x:'S1 (exists ?y:'S1 (exists ?z:'S2 (and (= ?x ?y) (= ?z ?z)))))",
    ),
];

/// What `assert*` closes: the first variable is outermost, and its index becomes the least that is left.
const CLOSED: [Row; 34] = [
    ("domain N", "Domain: N"),
    ("declare P: [N] -> Boolean", "Symbols: P"),
    ("declare R: [N N] -> Boolean", "Symbols: R"),
    ("assert* (P ?x%5)", "Assertion: (forall ?x:N (P ?x))"),
    (
        "assert* (R ?x%5 ?x%9)",
        "Assertion: (forall ?x%1:N (forall ?x:N (R ?x%1 ?x)))",
    ),
    (
        "assert* (R ?x%1 ?x)",
        "Assertion: (forall ?x%1:N (forall ?x:N (R ?x%1 ?x)))",
    ),
    (
        "assert* (R ?x ?x%1)",
        "Assertion: (forall ?x:N (forall ?x%1:N (R ?x ?x%1)))",
    ),
    (
        "assert* (R ?x%2 ?x%1)",
        "Assertion: (forall ?x%1:N (forall ?x:N (R ?x%1 ?x)))",
    ),
    (
        "assert* (and (P ?x%1) (exists ?x (P ?x)))",
        "Assertion: (forall ?x%1:N (and (P ?x%1) (exists ?x:N (P ?x))))",
    ),
    (
        "assert* (and (P ?x%1) (exists ?x%1 (R ?x%1 ?y)))",
        "Assertion: (forall ?x:N (forall ?y:N (and (P ?x) (exists ?x%1:N (R ?x%1 ?y)))))",
    ),
    (
        "assert* (and (P ?x) (exists ?x (P ?x)))",
        "Assertion: (forall ?x:N (and (P ?x) (exists ?x:N (P ?x))))",
    ),
    (
        "assert* (and (P ?x) (and (exists ?x (P ?x)) (exists ?x%1 (P ?x%1))))",
        "Assertion: (forall ?x:N (and (P ?x) (and (exists ?x:N (P ?x)) (exists ?x%1:N (P ?x%1)))))",
    ),
    (
        "assert* (and (P ?x%7) (and (exists ?x%2 (P ?x%2)) (exists ?x%1 (P ?x%1))))",
        "Assertion: (forall ?x:N (and (P ?x) (and (exists ?x%2:N (P ?x%2)) (exists ?x%1:N (P ?x%1)))))",
    ),
    (
        "assert* (exists ?x (R ?x ?x%3))",
        "Assertion: (forall ?x%1:N (exists ?x:N (R ?x ?x%1)))",
    ),
    (
        "assert* (exists ?x%1 (R ?x%1 ?x%3))",
        "Assertion: (forall ?x:N (exists ?x%1:N (R ?x%1 ?x)))",
    ),
    (
        "assert* (and (R ?x%1 ?y%1) (R ?y ?x))",
        "Assertion: (forall ?x%1:N (forall ?y%1:N (forall ?y:N (forall ?x:N (and (R ?x%1 ?y%1) (R ?y ?x))))))",
    ),
    (
        "assert* (and (R ?x%3 ?x%2) (P ?x%1))",
        "Assertion: (forall ?x%2:N (forall ?x%1:N (forall ?x:N (and (R ?x%2 ?x%1) (P ?x)))))",
    ),
    (
        "assert* (and (R ?x%1 ?x%2) (P ?x%3))",
        "Assertion: (forall ?x%1:N (forall ?x%2:N (forall ?x:N (and (R ?x%1 ?x%2) (P ?x)))))",
    ),
    ("declare A: Boolean", "Symbols: A"),
    ("assert* A", "Assertion: A"),
    (
        "assert* (forall ?x (P ?x))",
        "Assertion: (forall ?x:N (P ?x))",
    ),
    ("assert* ?b:Boolean", "Assertion: (forall ?b:Boolean ?b)"),
    ("assert* (= ?x ?x)", "Assertion: (forall ?x:'S1 (= ?x ?x))"),
    (
        "assert* (if (= ?u ?v) (= ?v:'T ?u))",
        "Assertion: (forall ?u:'S1 (forall ?v:'S1 (if (= ?u ?v) (= ?v ?u))))",
    ),
    (
        "assert* (R ?y ?x)",
        "Assertion: (forall ?y:N (forall ?x:N (R ?y ?x)))",
    ),
    (
        "assert* (and (R ?y ?x) (P ?z))",
        "Assertion: (forall ?y:N (forall ?x:N (forall ?z:N (and (R ?y ?x) (P ?z)))))",
    ),
    (
        "assert* (and (exists ?x (R ?x ?y)) (P ?x))",
        "Assertion: (forall ?y:N (forall ?x:N (and (exists ?x:N (R ?x ?y)) (P ?x))))",
    ),
    ("assert* ?x:N", "Error: \"x.ath\":28:9: NotSentence"),
    ("assert* P", "Error: \"x.ath\":29:9: NotSentence"),
    ("assert* (P zork)", "Error: \"x.ath\":30:12: Unbound zork"),
    ("assert* p := A", "Error: \"x.ath\":31:1: NotBuilt"),
    (
        "(!claim (forall ?y (forall ?x (R ?y ?x))))",
        "Theorem: (forall ?y:N (forall ?x:N (R ?y ?x)))",
    ),
    (
        "(!claim (R ?y ?x))",
        "Error: \"x.ath\":33:1: NotInBase (R ?y:N ?x:N)",
    ),
    ("(assert* (P ?x))", "Assertion: (forall ?x:N (P ?x))"),
];

/// Claims up to the names and indices of bound variables.
const CLAIMED: [Row; 33] = [
    ("domain D", "Domain: D"),
    ("domain E", "Domain: E"),
    ("declare P: [D] -> Boolean", "Symbols: P"),
    ("declare R: [D D] -> Boolean", "Symbols: R"),
    ("declare A: Boolean", "Symbols: A"),
    (
        "assert (forall ?x (P ?x))",
        "Assertion: (forall ?x:D (P ?x))",
    ),
    (
        "(!claim (forall ?z (P ?z)))",
        "Theorem: (forall ?z:D (P ?z))",
    ),
    (
        "(!claim (forall ?x%7 (P ?x%7)))",
        "Theorem: (forall ?x%7:D (P ?x%7))",
    ),
    (
        "(!claim (exists ?x (P ?x)))",
        "Error: \"x.ath\":9:1: NotInBase (exists ?x:D (P ?x))",
    ),
    (
        "assert (forall ?x (exists ?y (R ?x ?y)))",
        "Assertion: (forall ?x:D (exists ?y:D (R ?x ?y)))",
    ),
    (
        "(!claim (forall ?y (exists ?x (R ?y ?x))))",
        "Theorem: (forall ?y:D (exists ?x:D (R ?y ?x)))",
    ),
    (
        "(!claim (forall ?y (exists ?x (R ?x ?y))))",
        "Error: \"x.ath\":12:1: NotInBase (forall ?y:D (exists ?x:D (R ?x ?y)))",
    ),
    (
        "(!claim (forall ?x%1 (exists ?x (R ?x%1 ?x))))",
        "Theorem: (forall ?x%1:D (exists ?x:D (R ?x%1 ?x)))",
    ),
    (
        "(!claim (forall ?x (exists ?x (R ?x ?x))))",
        "Error: \"x.ath\":14:1: NotInBase (forall ?x:'S1 (exists ?x:D (R ?x ?x)))",
    ),
    (
        "assert (forall ?x (R ?x ?y))",
        "Assertion: (forall ?x:D (R ?x ?y:D))",
    ),
    (
        "(!claim (forall ?z (R ?z ?y)))",
        "Theorem: (forall ?z:D (R ?z ?y:D))",
    ),
    (
        "(!claim (forall ?z (R ?z ?x)))",
        "Error: \"x.ath\":17:1: NotInBase (forall ?z:D (R ?z ?x:D))",
    ),
    (
        "(!claim (forall ?x (R ?x ?y%1)))",
        "Error: \"x.ath\":18:1: NotInBase (forall ?x:D (R ?x ?y%1:D))",
    ),
    (
        "(!claim (forall ?y (R ?y ?y)))",
        "Error: \"x.ath\":19:1: NotInBase (forall ?y:D (R ?y ?y))",
    ),
    (
        "assert (forall ?x:D (exists ?x (P ?x)))",
        "Assertion: (forall ?x:D (exists ?x:D (P ?x)))",
    ),
    (
        "(!claim (forall ?y:D (exists ?z (P ?z))))",
        "Theorem: (forall ?y:D (exists ?z:D (P ?z)))",
    ),
    (
        "(!claim (forall ?y (exists ?z:D (P ?y))))",
        "Error: \"x.ath\":22:1: NotInBase (forall ?y:D (exists ?z:D (P ?y)))",
    ),
    (
        "assert (forall ?x:D (= ?x ?x))",
        "Assertion: (forall ?x:D (= ?x ?x))",
    ),
    (
        "(!claim (forall ?y:D (= ?y ?y)))",
        "Theorem: (forall ?y:D (= ?y ?y))",
    ),
    (
        "(!claim (forall ?x:E (= ?x ?x)))",
        "Error: \"x.ath\":25:1: NotInBase (forall ?x:E (= ?x ?x))",
    ),
    ("assert (exists ?x:D A)", "Assertion: (exists ?x:D A)"),
    ("(!claim (exists ?y:D A))", "Theorem: (exists ?y:D A)"),
    (
        "(!claim (exists ?x:E A))",
        "Error: \"x.ath\":28:1: NotInBase (exists ?x:E A)",
    ),
    (
        "assert (and (forall ?x (P ?x)) (exists ?x (R ?x ?z)))",
        "Assertion: (and (forall ?x:D (P ?x)) (exists ?x:D (R ?x ?z:D)))",
    ),
    (
        "(!claim (and (forall ?y (P ?y)) (exists ?y (R ?y ?z))))",
        "Theorem: (and (forall ?y:D (P ?y)) (exists ?y:D (R ?y ?z:D)))",
    ),
    (
        "(!claim (and (forall ?y (P ?y)) (exists ?y (R ?y ?x))))",
        "Error: \"x.ath\":31:1: NotInBase (and (forall ?y:D (P ?y)) (exists ?y:D (R ?y ?x:D)))",
    ),
    (
        "assert (forall ?x:'T (= ?x ?x))",
        "Assertion: (forall ?x:'S1 (= ?x ?x))",
    ),
    (
        "(!claim (forall ?y:'T (= ?y ?y)))",
        "Theorem: (forall ?y:'S1 (= ?y ?y))",
    ),
];

/// Modus ponens up to the names and indices of bound variables.
const DETACHED: [Row; 23] = [
    ("domain D", "Domain: D"),
    ("domain E", "Domain: E"),
    ("declare P: [D] -> Boolean", "Symbols: P"),
    ("declare R: [D D] -> Boolean", "Symbols: R"),
    ("declare A: Boolean", "Symbols: A"),
    (
        "assert (if (forall ?x (P ?x)) (exists ?y (R ?y ?z)))",
        "Assertion: (if (forall ?x:D (P ?x)) (exists ?y:D (R ?y ?z:D)))",
    ),
    (
        "assert (forall ?u (P ?u))",
        "Assertion: (forall ?u:D (P ?u))",
    ),
    (
        "(!mp (if (forall ?x (P ?x)) (exists ?y (R ?y ?z))) (forall ?u (P ?u)))",
        "Theorem: (exists ?y:D (R ?y ?z:D))",
    ),
    (
        "(!mp (if (forall ?v (P ?v)) (exists ?w%2 (R ?w%2 ?z))) (forall ?x%3 (P ?x%3)))",
        "Theorem: (exists ?w%2:D (R ?w%2 ?z:D))",
    ),
    (
        "(!claim (exists ?x (R ?x ?z)))",
        "Theorem: (exists ?x:D (R ?x ?z:D))",
    ),
    (
        "(!claim (exists ?z (R ?z ?z)))",
        "Error: \"x.ath\":11:1: NotInBase (exists ?z:D (R ?z ?z))",
    ),
    (
        "(!mp (if (forall ?x (P ?x)) (exists ?y (R ?y ?u))) (forall ?u (P ?u)))",
        "Error: \"x.ath\":12:1: NotInBase (if (forall ?x:D (P ?x)) (exists ?y:D (R ?y ?u:D)))",
    ),
    (
        "(!mp (if (forall ?x (P ?x)) (exists ?y (R ?y ?z))) (exists ?u (P ?u)))",
        "Error: \"x.ath\":13:1: WrongShape 2",
    ),
    ("assert (if (P ?x) A)", "Assertion: (if (P ?x:D) A)"),
    ("assert (P ?y)", "Assertion: (P ?y:D)"),
    (
        "(!mp (if (P ?x) A) (P ?y))",
        "Error: \"x.ath\":16:1: WrongShape 2",
    ),
    (
        "assert (if (exists ?x:D A) (exists ?x:E A))",
        "Assertion: (if (exists ?x:D A) (exists ?x:E A))",
    ),
    ("assert (exists ?y:E A)", "Assertion: (exists ?y:E A)"),
    (
        "(!mp (if (exists ?x:D A) (exists ?x:E A)) (exists ?y:E A))",
        "Error: \"x.ath\":19:1: WrongShape 2",
    ),
    ("assert (exists ?y:D A)", "Assertion: (exists ?y:D A)"),
    (
        "(!mp (if (exists ?x:D A) (exists ?x:E A)) (exists ?x%4:D A))",
        "Theorem: (exists ?x:E A)",
    ),
    (
        "(!mp (forall ?x (P ?x)) A)",
        "Error: \"x.ath\":22:1: WrongShape 1",
    ),
    ("(!mp forall A)", "Error: \"x.ath\":23:1: WrongKind 1"),
];

#[test]
fn quantifiers_are_built_or_refused(rt: HostRuntime) -> Result<(), Fail> {
    expect_rows(&rt, &PRINTED, Status::Clean)?;
    expect_rows(&rt, &REFUSED, Status::Errors)?;
    expect_rows(&rt, &SORTS, Status::Errors)?;
    Ok(())
}

#[test]
fn closed_assertions_give_their_reports(rt: HostRuntime) -> Result<(), Fail> {
    expect_rows(&rt, &CLOSED, Status::Errors)?;
    Ok(())
}

#[test]
fn names_of_bound_variables_do_not_count(rt: HostRuntime) -> Result<(), Fail> {
    expect_rows(&rt, &CLAIMED, Status::Errors)?;
    expect_rows(&rt, &DETACHED, Status::Errors)?;
    Ok(())
}

/// The parts of a text, each with how often it stands there.
type Parts = &'static [(&'static [u8], u64)];

/// Scripts and their reports. A connective of many parts has a level for each of them, and a node for each but one.
const AT_THE_LIMITS: [(Parts, Parts, Status); 7] = [
    // 1,999 levels; each variable adds one
    (
        &[
            (
                b"domain N declare P: [N] -> Boolean declare A: Boolean\nassert* (and",
                1,
            ),
            (b" A", 1997),
            (b" (P ?x))", 1),
        ],
        &[
            (
                b"Domain: N\nSymbols: P\nSymbols: A\nAssertion: (forall ?x:N ",
                1,
            ),
            (b"(and A ", 1997),
            (b"(P ?x)", 1),
            (b")", 1998),
            (b"\n", 1),
        ],
        Status::Clean,
    ),
    // 2,000
    (
        &[
            (
                b"domain N declare P: [N] -> Boolean declare A: Boolean\nassert* (and",
                1,
            ),
            (b" A", 1998),
            (b" (P ?x))", 1),
        ],
        &[(
            b"Domain: N\nSymbols: P\nSymbols: A\nError: \"x.ath\":2:9: TooDeep 2001\n",
            1,
        )],
        Status::Errors,
    ),
    // 1,999 and two variables
    (
        &[
            (
                b"domain N declare P: [N] -> Boolean declare A: Boolean\nassert* (and",
                1,
            ),
            (b" A", 1996),
            (b" (P ?x) (P ?y))", 1),
        ],
        &[(
            b"Domain: N\nSymbols: P\nSymbols: A\nError: \"x.ath\":2:9: TooDeep 2001\n",
            1,
        )],
        Status::Errors,
    ),
    // a quantifier of many variables has a level for each
    (
        &[
            (b"domain N declare A: Boolean\n(forall", 1),
            (b" ?x:N", 1999),
            (b" A)", 1),
        ],
        &[
            (b"Domain: N\nSymbols: A\nSentence: ", 1),
            (b"(forall ?x:N ", 1999),
            (b"A", 1),
            (b")", 1999),
            (b"\n", 1),
        ],
        Status::Clean,
    ),
    (
        &[
            (b"domain N declare A: Boolean\n(forall", 1),
            (b" ?x:N", 2500),
            (b" A)", 1),
        ],
        &[(
            b"Domain: N\nSymbols: A\nError: \"x.ath\":2:1: TooDeep 2001\n",
            1,
        )],
        Status::Errors,
    ),
    // 99,999 nodes
    (
        &[
            (b"domain N declare c: N declare g: [", 1),
            (b"N ", 62),
            (b"] -> Boolean declare A: Boolean\nassert* (and ", 1),
            (
                b"(g c c c c c c c c c c c c c c c c c c c c c c c c c c c c c c c c c c c c c c c c c c c c c c c c c c c c c c c c c c c c c c) ",
                1562,
            ),
            (b"A ", 15),
            (b"?b)", 1),
        ],
        &[
            (
                b"Domain: N\nSymbols: c\nSymbols: g\nSymbols: A\nAssertion: (forall ?b:Boolean ",
                1,
            ),
            (
                b"(and (g c c c c c c c c c c c c c c c c c c c c c c c c c c c c c c c c c c c c c c c c c c c c c c c c c c c c c c c c c c c c c c) ",
                1562,
            ),
            (b"(and A ", 15),
            (b"?b", 1),
            (b")", 1578),
            (b"\n", 1),
        ],
        Status::Clean,
    ),
    // 100,000
    (
        &[
            (b"domain N declare c: N declare g: [", 1),
            (b"N ", 62),
            (b"] -> Boolean declare A: Boolean\nassert* (not (and ", 1),
            (
                b"(g c c c c c c c c c c c c c c c c c c c c c c c c c c c c c c c c c c c c c c c c c c c c c c c c c c c c c c c c c c c c c c) ",
                1562,
            ),
            (b"A ", 15),
            (b"?b))", 1),
        ],
        &[(
            b"Domain: N\nSymbols: c\nSymbols: g\nSymbols: A\nError: \"x.ath\":2:9: TooLarge 100001\n",
            1,
        )],
        Status::Errors,
    ),
];

#[test]
fn closings_are_refused_above_the_limits(rt: HostRuntime) -> Result<(), Fail> {
    let alloc = rt.alloc();
    for (script, lines, status) in AT_THE_LIMITS {
        let script = text_of(alloc, script)?;
        let lines = text_of(alloc, lines)?;
        let Ok(lines) = str::from_utf8(lines.as_slice()) else {
            return Err("no text".into());
        };
        expect_lines(&rt, script.as_slice(), lines, status)?;
    }
    Ok(())
}

const STEPS: &[u8] =
    b"domain N declare P: [N] -> Boolean\nassert* (forall ?x (P ?x))\n(!claim (forall ?y (P ?y)))\n";

#[test]
fn quantifiers_take_steps(rt: HostRuntime) -> Result<(), Fail> {
    expect_report(
        &rt,
        &["--fuel", "14", "x.ath"],
        &[("x.ath", STEPS)],
        "Domain: N\nSymbols: P\nAssertion: (forall ?x:N (P ?x))\nTheorem: (forall ?y:N (P ?y))\n",
        Status::Clean,
    )?;
    expect_report(
        &rt,
        &["--fuel", "10", "x.ath"],
        &[("x.ath", STEPS)],
        "Domain: N\nSymbols: P\nAssertion: (forall ?x:N (P ?x))\nFuel: \"x.ath\":3:17: out of fuel\n",
        Status::Fuel,
    )?;
    Ok(())
}
