// Tokens, and faults in texts.

use ath_names::{MOST_NAME_BYTES, Names};
use ath_tokens::{Token, Tokens};
use std::alloc::Global;
use std::test::Fail;

/// A text, and its tokens, each with its place and its range, and the end or the fault.
type Row = (&'static [u8], &'static str);

const ROWS: [Row; 46] = [
    (
        b"(declare A Boolean)",
        "Punct(40) 1:1 0-1; Word(Sym(150)) 1:2 1-8; Word(Sym(151)) 1:10 9-10; Word(Sym(0)) 1:12 11-18; Punct(41) 1:19 18-19; end",
    ),
    (
        b"x:=y : =",
        "Word(Sym(150)) 1:1 0-1; Becomes 1:2 1-3; Word(Sym(151)) 1:4 3-4; Punct(58) 1:6 5-6; Word(Sym(3)) 1:8 7-8; end",
    ),
    (b"::=", "Punct(58) 1:1 0-1; Becomes 1:2 1-3; end"),
    (b":==", "Becomes 1:1 0-2; Word(Sym(3)) 1:3 2-3; end"),
    (
        b"M.x .a. b..c",
        "Word(Sym(150)) 1:1 0-3; Punct(46) 1:5 4-5; Word(Sym(151)) 1:6 5-6; Punct(46) 1:7 6-7; Word(Sym(152)) 1:9 8-9; Punct(46) 1:10 9-10; Punct(46) 1:11 10-11; Word(Sym(153)) 1:12 11-12; end",
    ),
    (
        b"a.'b",
        "Word(Sym(150)) 1:1 0-1; Punct(46) 1:2 1-2; SortVar(Sym(151)) 1:3 2-4; end",
    ),
    (
        b"iff?, and', ==>z",
        "Word(Sym(150)) 1:1 0-4; Punct(44) 1:5 4-5; Word(Sym(151)) 1:7 6-10; Punct(44) 1:11 10-11; Word(Sym(152)) 1:13 12-16; end",
    ),
    (
        b"?x?x%3 ?x%120",
        "Var(Sym(150), 3) 1:1 0-6; Var(Sym(151), 120) 1:8 7-13; end",
    ),
    (b"?x%0", "Var(Sym(150), 0) 1:1 0-2; BadChar 1:3"),
    (b"?x%", "Var(Sym(150), 0) 1:1 0-2; BadChar 1:3"),
    (b"?x%y", "Var(Sym(150), 0) 1:1 0-2; BadChar 1:3"),
    (
        b"?x%1234567890123456789",
        "Var(Sym(150), 123456789012345678) 1:1 0-21; Word(Sym(151)) 1:22 21-22; end",
    ),
    (
        b"?M.x",
        "Var(Sym(150), 0) 1:1 0-2; Punct(46) 1:3 2-3; Word(Sym(151)) 1:4 3-4; end",
    ),
    (
        b"'S ('T)",
        "SortVar(Sym(150)) 1:1 0-2; Punct(40) 1:4 3-4; SortVar(Sym(151)) 1:5 4-6; Punct(41) 1:7 6-7; end",
    ),
    (
        b"[]{}|;!",
        "Punct(91) 1:1 0-1; Punct(93) 1:2 1-2; Punct(123) 1:3 2-3; Punct(125) 1:4 3-4; Punct(124) 1:5 4-5; Punct(59) 1:6 5-6; Punct(33) 1:7 6-7; end",
    ),
    (
        b"\t\tA\r\n\r\n \tB\r\n",
        "Word(Sym(150)) 1:3 2-3; Word(Sym(151)) 3:3 9-10; end",
    ),
    (
        b"A#x\nB # (\n#\n##\nC",
        "Word(Sym(150)) 1:1 0-1; Word(Sym(151)) 2:1 4-5; Word(Sym(152)) 5:1 15-16; end",
    ),
    (b"# nothing", "end"),
    (b"# \xC3\xA9\nA", "Word(Sym(150)) 2:1 5-6; end"),
    (
        b"\"\" \"a\nb\" c",
        "[] 1:1 0-2; [97, 10, 98] 1:4 3-8; Word(Sym(150)) 2:4 9-10; end",
    ),
    (
        b"\"\\\"\\\\\\n\\t\\x41\\x7f#\"",
        "[34, 92, 10, 9, 65, 127, 35] 1:1 0-19; end",
    ),
    (b"\"\xC3\xA9\"", "[195, 169] 1:1 0-4; end"),
    (b" `", "BadChar 1:2"),
    (b"\n%", "BadChar 2:1"),
    (b"?", "BadChar 1:1"),
    (b"? x", "BadChar 1:1"),
    (b"??x", "BadChar 1:1"),
    (b"''x", "BadChar 1:1"),
    (b"'\xFF", "BadUtf8 1:2"),
    (b"?\x80", "BadUtf8 1:2"),
    (b"?\xC3", "BadChar 1:1"),
    (b"ab\xC3\xA9", "Word(Sym(150)) 1:1 0-2; BadChar 1:3"),
    (b" \xC3(", "BadUtf8 1:2"),
    (b"\xC0\x80", "BadUtf8 1:1"),
    (b"\xC3", "BadUtf8 1:1"),
    (b"A\x00", "Word(Sym(150)) 1:1 0-1; BadChar 1:2"),
    (b"# \xE2\x82\n", "BadUtf8 1:3"),
    (b"A # ab\x80", "Word(Sym(150)) 1:1 0-1; BadUtf8 1:7"),
    (b"\"a\nb", "OpenString 1:1"),
    (b"\n\"\xC3", "BadUtf8 2:2"),
    (b"\"\\", "OpenString 1:1"),
    (b"\"\\x4", "OpenString 1:1"),
    (b"\"a\\q\"", "BadChar 1:3"),
    (b"\"\\x80\"", "BadChar 1:2"),
    (b"\"\\\xC3", "BadChar 1:2"),
    (b"\"\\\xFF", "BadUtf8 1:3"),
];

/// What comes next.
fn next(alloc: Global, tokens: &mut Tokens, names: &mut Names) -> Result<String, Fail> {
    let shown = match tokens.next(alloc, names) {
        Ok(Some((token, pos, start, end))) => {
            let token = token_shown(alloc, &token)?;
            format!(in alloc; "{token} {}:{} {}-{}", pos.line, pos.col, start, end)?
        }
        Ok(None) => String::from_str(alloc, "end")?,
        Err(error) => format!(in alloc; "{:?} {}:{}", error.kind, error.pos.line, error.pos.col)?,
    };
    Ok(shown)
}

fn token_shown(alloc: Global, token: &Token) -> Result<String, Fail> {
    let shown = match token {
        Token::Str(text) => format!(in alloc; "{:?}", text.as_str().as_bytes())?,
        token => format!(in alloc; "{:?}", token)?,
    };
    Ok(shown)
}

fn gives(alloc: Global, text: &[u8], wanted: &str) -> Result<bool, Fail> {
    let mut names = Names::new(alloc)?;
    let mut tokens = Tokens::new(Vec::from_slice(alloc, text)?, 3);
    for want in wanted.split("; ") {
        if next(alloc, &mut tokens, &mut names)?.as_str() != want {
            return Ok(false);
        }
    }
    Ok(true)
}

#[test]
fn tokens_and_faults(rt: HostRuntime) -> Result<(), Fail> {
    for (text, wanted) in &ROWS {
        assert!(rt; gives(rt.alloc(), text, wanted)?, "{wanted}");
    }
    Ok(())
}

#[test]
fn longest_names(rt: HostRuntime) -> Result<(), Fail> {
    let alloc = rt.alloc();
    let longest = "n".repeat(alloc, MOST_NAME_BYTES)?;
    for (text, wanted) in [
        (format!(in alloc; "{longest}")?, "Word(Sym(150)) 1:1 0-200"),
        (
            format!(in alloc; "?{longest}%12")?,
            "Var(Sym(150), 12) 1:1 0-204",
        ),
        (
            format!(in alloc; "'{longest}")?,
            "SortVar(Sym(150)) 1:1 0-201",
        ),
        (format!(in alloc; "\n  {longest}n (")?, "NameTooLong 2:3"),
        (format!(in alloc; "?{longest}n%1")?, "NameTooLong 1:1"),
        (format!(in alloc; "'{longest}n")?, "NameTooLong 1:1"),
        (format!(in alloc; "{longest}.b")?, "NameTooLong 1:1"),
    ] {
        assert!(rt; gives(alloc, text.as_bytes(), wanted)?, "{wanted}");
    }
    Ok(())
}
