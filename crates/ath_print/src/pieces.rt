// Texts, and texts in quotes, at the end of others.

ghost use Rattle.std.specs.Prelude.{◌≡◌, ◌<◌, ◌++◌, OnOk};
ghost use Rattle.ath_print.specs.Lines.{hex_digit, escaped, quoted};

use std::alloc::AllocError;

pub fn push(out: &mut Vec<u8>, piece: &str) -> Result<(), AllocError>
    ensures { OnOk result (out.new.items ≡ out.old.items ++ piece.now) }
{
    out.extend_from_slice(piece.as_bytes())
}

fn hex(d: u8) -> u8
    requires { d < 16 }
    ensures { result ≡ hex_digit d }
{
    if d < 10 { b'0' + d } else { b'a' - 10 + d }
}

fn push_escaped(out: &mut Vec<u8>, b: u8) -> Result<(), AllocError>
    ensures { OnOk result (out.new.items ≡ out.old.items ++ escaped b) }
{
    match b {
        b'"' => push(out, "\\\""),
        b'\\' => push(out, "\\\\"),
        b'\n' => push(out, "\\n"),
        b'\t' => push(out, "\\t"),
        _ => {
            if b < 32 || b == 127 {
                push(out, "\\x")?;
                out.push(hex(b / 16))?;
                out.push(hex(b % 16))?;
                return Ok(());
            }
            out.push(b)?;
            Ok(())
        }
    }
}

pub fn push_quoted(out: &mut Vec<u8>, piece: &str) -> Result<(), AllocError>
    ensures { OnOk result (out.new.items ≡ out.old.items ++ quoted piece.now) }
{
    push(out, "\"")?;
    for b in piece.as_bytes() {
        push_escaped(out, *b)?;
    }
    push(out, "\"")
}
