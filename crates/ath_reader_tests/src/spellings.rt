// Both spellings of phrases and directives, and what is no directive.

use crate::reading::gives;
use std::test::Fail;

/// A text, and what is shown of each of its directives and of its end or its refusal: words of it, as far as `;`.
type Row = (&'static [u8], &'static str);

const PHRASES: [Row; 44] = [
    (b"x", "expression Name(; end"),
    (b"M.x", "expression Name(; end"),
    (b"?x", "expression Var( None); end"),
    (b"?x:(List 'S)", "expression Var( Some(; end"),
    (b"(?x : N)", "expression Var( Some(; end"),
    (b"\"text\"", "expression Str(; end"),
    (b"[] [x [\"a\"]]", "expression List(; expression List(; end"),
    (b"(x : (List N))", "expression Ascribe(; end"),
    (
        b"(x) (f x y) (= x y) (& x y)",
        "expression Apply(; expression Apply(; expression Apply(; expression Apply(; end",
    ),
    (b"((f x)) ([x])", "expression Apply(; expression List(; end"),
    (
        b"(!f) (!f x (!g x))",
        "deduction Call(; deduction Call(; end",
    ),
    (
        b"lambda () x (lambda (x _ _) x)",
        "expression Lambda(; expression Lambda(; end",
    ),
    (
        b"method (x) (!x) (method () (!f))",
        "expression Method(; expression Method(; end",
    ),
    (b"let ((x y) (z (f x))) z", "expression Let(; end"),
    (b"(let { x := y ; z := (!f) } (!g))", "deduction Let(; end"),
    (b"dlet ((x y)) (!f)", "deduction Let(; end"),
    (
        b"letrec ((f (lambda () x)) (g ((method () (!f))))) f",
        "expression LetRec(; end",
    ),
    (
        b"letrec { f := lambda () g; g := lambda () f } (!f)",
        "deduction LetRec(; end",
    ),
    (b"(match x (y z) (_ z))", "expression Match(; end"),
    (
        b"match x { y => z | [a (f b)] => z }",
        "expression Match(; end",
    ),
    (
        b"match x { (list-of a b) => y | (some-term c) => y | \"s\" => y }",
        "expression Match(; end",
    ),
    (b"(dmatch x { y => (!f) })", "deduction Match(; end"),
    (b"(check (x y) (z y))", "expression Check( None); end"),
    (b"(check (x y) (else y))", "expression Check( Some(; end"),
    (
        b"check { x => (!f) | else => (!g) }",
        "deduction Check( Some(; end",
    ),
    (b"check { x => y }", "expression Check( None); end"),
    (b"(try x y)", "expression Try(; end"),
    (b"try { (!f) | (!g) }", "deduction Try(; end"),
    (b"(dbegin (!f) (!g))", "deduction Seq(; end"),
    (b"{ (!f) ; (!g) }", "deduction Seq(; end"),
    (b"assume x (!f)", "deduction Assume(None; end"),
    (b"(assume h := x (!f))", "deduction Assume(Some(; end"),
    (b"suppose-absurd x (!f)", "deduction Absurd(None; end"),
    (b"suppose-absurd h := x (!f)", "deduction Absurd(Some(; end"),
    (b"pick-any x y:N z (!f)", "deduction PickAny(; end"),
    (b"(pick-witness x y (!f))", "deduction PickWitness(; end"),
    (b"pick-witness x (!g) (!f)", "deduction PickWitness(; end"),
    (
        b"(by-induction x (zero (!f)) ((S n) (!f)))",
        "deduction Induct(; end",
    ),
    (
        b"by-induction x { zero => (!f) | (S n) => (!f) }",
        "deduction Induct(; end",
    ),
    (b"(datatype-cases x (zero (!f)))", "deduction Cases(; end"),
    (
        b"datatype-cases x { zero => (!f) | (S _) => (!f) }",
        "deduction Cases(; end",
    ),
    (b"conclude x (!f)", "deduction Conclude(None; end"),
    (b"conclude h := x (!f)", "deduction Conclude(Some(; end"),
    (b"# nothing\n", "end"),
];

const DIRECTIVES: [Row; 16] = [
    (
        b"(domain N) domain N",
        "Domain(Sym(151), []; Domain(Sym(151), []; end",
    ),
    (
        b"(domain (M 'S 'T)) domain (M 'S)",
        "Domain(Sym(151), [Sym(152), Sym(153)]; Domain(Sym(151), [Sym(152)]; end",
    ),
    (
        b"(datatype N zero (S N))",
        "Datatype(Sym(151), [] [(Sym(152), (Sym(153), [Name(Sym(151))]; end",
    ),
    (
        b"datatype (List 'T) := nil | (cons 'T (List 'T)) x",
        "Datatype(Sym(151), [Sym(152)] [(Sym(153), (Sym(154), [Var(Sym(152)), Con(Sym(151), [Var(Sym(152))]; expression Name(; end",
    ),
    (
        b"(declare f N) (declare (f g) (-> (N N) N))",
        "Declare( [Sym(151)] None, [] Name(Sym(152)); Declare( [Sym(151), Sym(153)] None, [Name(Sym(152)), Name(Sym(152))] Name(Sym(152))); end",
    ),
    (
        b"(declare f ('T) (-> ('T) N))",
        "Declare( [Sym(151)] Some( [Sym(152)] [Var(Sym(152))] Name(Sym(154))); end",
    ),
    (
        b"declare f, g: N declare f: [N N] -> N",
        "Declare( [Sym(151), Sym(152)] None, [] Name(Sym(153))); Declare( [Sym(151)] None, [Name(Sym(153)), Name(Sym(153))] Name(Sym(153))); end",
    ),
    (
        b"declare f: ('T) [(List 'T)] -> N declare c: () N",
        "Declare( [Sym(151)] Some( [Sym(152)] [Con(Sym(153), [Var(Sym(152))] Name(Sym(155))); Declare( [Sym(156)] Some( [] Name(Sym(155))); end",
    ),
    (b"(define x y) define x := (!f)", "Define(; Define(; end"),
    (
        b"(define (f x _) y) define (f) := y",
        "DefineFun(; DefineFun( []; end",
    ),
    (
        b"(assert x) (assert* x)",
        "Assert(None, false,; Assert(None, true,; end",
    ),
    (
        b"assert x assert* x assert h := x",
        "Assert(None, false,; Assert(None, true,; Assert(Some( false,; end",
    ),
    (b"assert* h := (f x)", "Assert(Some( true,; end"),
    (b"(load \"f\") load \"f\"", "Load(; Load(; end"),
    (b"assert ?x x", "Assert(None, false,; expression Name(; end"),
    (
        b"assert (x)(y)",
        "Assert(None, false,; expression Apply(; end",
    ),
];

const REFUSALS: [Row; 60] = [
    (
        b"(declare A Boolean)\n\x22\xC3",
        "Declare( None, []; Lex(BadUtf8) @2:2.",
    ),
    (
        b"(declare A Boolean)\n(assert A))\nA",
        "Declare( None, []; Assert(None, false,; Unexpected @2:11.",
    ),
    (
        b"(declare A Boolean)\n(and (!claim A) A)",
        "Declare( None, []; KindMix @2:7.",
    ),
    (b"(A = A)", "Unexpected @1:4."),
    (b"[A (!claim A)]", "KindMix @1:5."),
    (b"(assume A A)", "KindMix @1:11."),
    (b"lambda (x) (!claim x)", "KindMix @1:13."),
    (b"method (x) x", "KindMix @1:12."),
    (b"{ (!claim A); A }", "KindMix @1:15."),
    (b"(try A (!claim A))", "KindMix @1:9."),
    (b"try { (!claim A) | \x22a\x22 }", "KindMix @1:20."),
    (b"match (!claim A) { A => A }", "KindMix @1:8."),
    (b"(match A (A (!claim A)) (B B))", "KindMix @1:28."),
    (b"(!(!claim A) A)", "KindMix @1:4."),
    (b"let ((x (!claim A))) x", "KindMix @1:22."),
    (b"dlet ((x A)) x", "KindMix @1:14."),
    (b"dmatch A { A => A }", "KindMix @1:17."),
    (b"(check (A A) (else (!claim A)))", "KindMix @1:21."),
    (b"(if { (!claim A) } A)", "KindMix @1:5."),
    (b"((!claim A) A)", "KindMix @1:13."),
    (b"((!claim A) : Boolean)", "KindMix @1:13."),
    (b"[(let ((x A)) (!claim x))]", "KindMix @1:16."),
    (b"(if (!claim A", "KindMix @1:6."),
    (b"(if ] (!claim A)", "Unexpected @1:5."),
    (b"(pick-any x y)", "KindMix @1:14."),
    (b"pick-any x y assert A", "Unexpected @1:14."),
    (b"pick-any x y", "Unclosed @1:13."),
    (b"((!m) ~ x)", "Unexpected @1:7."),
    (b"match A (A A)", "Unexpected @1:9."),
    (b"(match A)", "Unexpected @1:9."),
    (b"match A { A => A | }", "Unexpected @1:20."),
    (b"(match A (?x A))", "Unexpected @1:11."),
    (b"(match A ((list-of x) x))", "Unexpected @1:21."),
    (b"(check (else A))", "Unexpected @1:9."),
    (b"lambda (x x) x", "Unexpected @1:11."),
    (b"lambda (M.x) x", "Unexpected @1:9."),
    (
        b"letrec ((f (lambda () x)) (f (lambda () x))) x",
        "Unexpected @1:28.",
    ),
    (b"letrec ((f x)) x", "Unexpected @1:12."),
    (b"(lambda (x) x true)", "Unexpected @1:15."),
    (b"assume M.x := p (!f)", "Unexpected @1:12."),
    (b"(define x := F)", "Unexpected @1:11."),
    (b"define x F", "Unexpected @1:10."),
    (b"(assert x := E)", "Unexpected @1:11."),
    (b"(declare f: N)", "Unexpected @1:11."),
    (b"(datatype N := a)", "Unexpected @1:13."),
    (b"(declare () Boolean)", "Unexpected @1:11."),
    (b"declare f: ('T 'T) 'T", "Unexpected @1:16."),
    (b"domain (M)", "Unexpected @1:10."),
    (b"module M {", "Unexpected @1:1."),
    (b"(open M)", "Unexpected @1:2."),
    (b"()", "Unexpected @1:2."),
    (b"(if ) `", "expression Apply(; Lex(BadChar) @1:7."),
    (b") \x22", "Unexpected @1:1."),
    (b"(if ` )", "Lex(BadChar) @1:5."),
    (b"(if A B # (\n\n  ", "Unclosed @3:3."),
    (b"match A { (_ y) => A }", "Unexpected @1:12."),
    (b"(~ : S)", "Unexpected @1:2."),
    (b"((!m) = A)", "Unexpected @1:7."),
    (b"(pick-witness w pick-any x y (!m))", "Unexpected @1:34."),
    (b"?x \x22", "expression Var( None); Lex(OpenString) @1:4."),
];

#[test]
fn both_spellings_and_refusals(rt: HostRuntime) -> Result<(), Fail> {
    for table in [&PHRASES[..], &DIRECTIVES[..], &REFUSALS[..]] {
        for (text, wanted) in table {
            assert!(rt; gives(rt.alloc(), text, wanted)?, "{wanted}");
        }
    }
    Ok(())
}
