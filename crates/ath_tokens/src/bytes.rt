// Classes of bytes.

ghost use Rattle.std.specs.Prelude.{◌≡◌};
ghost use Rattle.std.specs.Int.{is_in_range};
ghost use Rattle.ath_tokens.specs.Bytes.{is_blank as blank, is_word_char as word_char, begins_part as part_begins, is_punct as punct_byte, begins_character as character_begins};

pub(crate) fn is_blank(byte: u8) -> bool
    ensures { result ≡ blank byte }
{
    b" \t\r\n".contains(&byte)
}

pub(crate) fn is_word_char(byte: u8) -> bool
    ensures { result ≡ word_char byte }
{
    byte.is_ascii_alphanumeric() || b"+-*/<>=&~^@$_'?".contains(&byte)
}

/// Whether a part of a name may begin with the byte.
pub(crate) fn begins_part(byte: u8) -> bool
    ensures { result ≡ part_begins byte }
{
    is_word_char(byte) && byte != b'\'' && byte != b'?'
}

pub(crate) fn is_punct(byte: u8) -> bool
    ensures { result ≡ punct_byte byte }
{
    b"()[]{}|,;!:.".contains(&byte)
}

/// Whether the UTF-8 of some character begins with the byte.
pub(crate) fn begins_character(byte: u8) -> bool
    ensures { result ≡ character_begins byte }
{
    byte < 0x80 || (0xC2..=0xF4).contains(&byte)
}

pub(crate) fn is_octal_digit(byte: u8) -> bool
    ensures { result ≡ is_in_range 48 55 byte }
{
    (b'0'..=b'7').contains(&byte)
}
