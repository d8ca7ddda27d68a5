// As many levels as may be open, and one more, for each bracket and each keyword.

use crate::reading::gives;
use std::alloc::Global;
use std::test::Fail;

// What opens levels and may stand in itself: its beginning, the innermost, its end, how many may stand in one another,
// and how far into the next the bracket or keyword stands that opens a level too many.
type Row = (&'static str, &'static str, &'static str, usize, usize);

// brackets, and forms in their own pair alone
const BRACKETS: [Row; 12] = [
    ("(f ", "x", ")", 500, 0),
    ("(", "[]", ")", 499, 1),
    ("[", "x", "]", 500, 0),
    ("{", "(!f)", "}", 499, 1),
    ("(!f ", "x", ")", 500, 0),
    ("(match x (x ", "x", "))", 250, 0),
    ("(dmatch x (x ", "(!f)", "))", 249, 13),
    ("(by-induction x (x ", "(!f)", "))", 249, 19),
    ("(datatype-cases x (x ", "(!f)", "))", 249, 21),
    ("(check (x ", "x", "))", 250, 0),
    ("(try ", "x", ")", 500, 0),
    ("(dbegin ", "(!f)", ")", 499, 8),
];

// forms that also stand without it
const FORMS: [Row; 25] = [
    ("lambda () ", "x", "", 499, 7),
    ("method () (!", "x", ")", 250, 0),
    ("let { x := x } ", "x", "", 499, 4),
    ("let ((x x)) ", "x", "", 498, 5),
    ("let ((x ", "x", ")) x", 166, 5),
    ("dlet { x := x } ", "(!f)", "", 499, 5),
    ("letrec { x := lambda () x } ", "x", "", 497, 21),
    ("letrec ((x (lambda () ", "x", "))) x", 124, 19),
    ("match ", "x", " { x => x }", 499, 8),
    ("match x { x => ", "x", " }", 250, 0),
    ("dmatch x { x => ", "(!f)", " }", 249, 16),
    ("by-induction x { x => ", "(!f)", " }", 249, 22),
    ("datatype-cases x { x => ", "(!f)", " }", 249, 24),
    ("check { x => ", "x", " }", 250, 0),
    ("check { x => x | else => ", "x", " }", 250, 0),
    ("try { ", "x", " }", 250, 0),
    ("assume x ", "(!f)", "", 499, 9),
    ("assume x := x ", "(!f)", "", 499, 14),
    ("suppose-absurd x ", "(!f)", "", 499, 17),
    ("suppose-absurd x := x ", "(!f)", "", 499, 22),
    ("conclude x ", "(!f)", "", 499, 11),
    ("conclude x := x ", "(!f)", "", 499, 16),
    ("pick-any x ", "(!f)", "", 499, 11),
    ("pick-any x:(N N) ", "(!f)", "", 499, 11),
    ("pick-witness x x ", "(!f)", "", 499, 17),
];

// sorts, patterns and what stands in directives: what stands before the row, and behind it
const ELSEWHERE: [(&str, Row, &str); 7] = [
    ("?x:", ("(N ", "N", ")", 500, 0), ""),
    ("match x { ", ("(f ", "x", ")", 498, 0), " => x }"),
    ("match x { ", ("[", "x", "]", 498, 0), " => x }"),
    ("define x := ", ("(f ", "x", ")", 500, 0), ""),
    ("(define x ", ("(f ", "x", ")", 499, 0), ")"),
    ("(assert ", ("(f ", "x", ")", 499, 0), ")"),
    ("assert x := ", ("(f ", "x", ")", 500, 0), ""),
];

/// So many of the row in one another.
fn nested(
    alloc: Global,
    before: &str,
    row: (&str, &str, &str, usize, usize),
    behind: &str,
    times: usize,
) -> Result<String, Fail> {
    let (open, innermost, close, _, _) = row;
    let open = open.repeat(alloc, times)?;
    let close = close.repeat(alloc, times)?;
    let text = format!(in alloc; "{before}{open}{innermost}{close}{behind}")?;
    Ok(text)
}

/// Whether as many as may are read, and one more is refused at its place.
fn ends_there(
    alloc: Global,
    before: &str,
    row: (&str, &str, &str, usize, usize),
    behind: &str,
) -> Result<bool, Fail> {
    let (open, _, _, most, into) = row;
    let column = open.len().saturating_mul(most).saturating_add(before.len());
    let column = column.saturating_add(into).saturating_add(1);
    let refusal = format!(in alloc; "TooDeep @1:{column}.")?;
    let fits = nested(alloc, before, row, behind, most)?;
    let deep = nested(alloc, before, row, behind, most.saturating_add(1))?;
    Ok(gives(alloc, fits.as_bytes(), "(; end")? && gives(alloc, deep.as_bytes(), refusal.as_str())?)
}

/// The same for the row in pairs of parentheses.
fn ends_there_in_pairs(alloc: Global, row: Row) -> Result<bool, Fail> {
    let (open, innermost, close, most, into) = row;
    let open = format!(in alloc; "({open}")?;
    let close = format!(in alloc; "{close})")?;
    let into = if into == 0 { 0 } else { into.saturating_add(1) };
    ends_there(
        alloc,
        "",
        (open.as_str(), innermost, close.as_str(), most, into),
        "",
    )
}

#[test]
fn each_bracket_and_form_has_as_many_levels(rt: HostRuntime) -> Result<(), Fail> {
    for row in &BRACKETS {
        assert!(rt; ends_there(rt.alloc(), "", *row, "")?);
    }
    for row in &FORMS {
        assert!(rt; ends_there(rt.alloc(), "", *row, "")?);
        assert!(rt; ends_there_in_pairs(rt.alloc(), *row)?);
    }
    for (before, row, behind) in &ELSEWHERE {
        assert!(rt; ends_there(rt.alloc(), before, *row, behind)?);
    }
    Ok(())
}
