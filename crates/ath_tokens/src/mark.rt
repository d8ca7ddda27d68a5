// Places in a text, found by counting line ends once.

ghost use Rattle.std.specs.Prelude.{◌≡◌, ◌+◌, ◌≤◌, ◌<◌, length};
ghost use Rattle.ath_tokens.specs.Cut.{place_of};
ghost use Rattle.ath_tokens.specs.Mark.{IsMark};

use ath_syntax::Pos;

/// A byte of a text, the number of line ends before it, and the byte at which its line begins.
#[derive(Clone, Copy)]
pub struct Mark {
    pub at: usize,
    pub lines: u64,
    pub line_start: usize,
}

/// The mark of a later byte.
pub(crate) fn moved(text: &[u8], from: Mark, to: usize) -> Mark
    requires mark { IsMark text.now from }
    requires later { from.at ≤ to }
    requires within { to ≤ length text.now }
    ensures mark { IsMark text.now result }
    ensures at { result.at ≡ to }
{
    let mut mark = from;
    while mark.at < to {
        let byte = text[mark.at];
        mark.at += 1;
        if byte == b'\n' {
            mark.lines += 1;
            mark.line_start = mark.at;
        }
    }
    mark
}

/// The place of a marked byte, or of the end.
pub(crate) fn place(text: &[u8], file: usize, mark: Mark) -> Pos
    requires { IsMark text.now mark }
    ensures { result ≡ place_of file text.now mark.at }
{
    Pos {
        file,
        line: mark.lines + 1,
        col: (mark.at - mark.line_start) as u64 + 1,
    }
}
