//! The classes of bytes.
ghost use Rattle.std.specs.Prelude.{◌≡◌};
ghost use Rattle.mpy_lexer.specs.Bytes.{is_blank, is_white, is_quote, is_name_start, is_name_byte};
ghost use Rattle.mpy_lexer.specs.Bytes.{is_meta_letter};

/// Whether the byte is a tab or a space.
pub(crate) fn is_blank(byte: u8) -> bool
    ensures { result ≡ is_blank byte }
{
    byte == b'\t' || byte == b' '
}

/// Whether the byte is white space; the one that ends a line is.
pub(crate) fn is_white(byte: u8) -> bool
    ensures { result ≡ is_white byte }
{
    is_blank(byte) || byte == b'\n' || byte == b'\r'
}

pub(crate) fn is_quote(byte: u8) -> bool
    ensures { result ≡ is_quote byte }
{
    byte == b'\'' || byte == b'"'
}

/// Whether a name may begin with the byte.
pub(crate) fn is_name_start(byte: u8) -> bool
    ensures { result ≡ is_name_start byte }
{
    byte.is_ascii_alphabetic() || byte == b'_'
}

/// Whether a name may have the byte behind its first one: a letter, a digit or an underscore.
pub fn is_name_byte(byte: u8) -> bool
    ensures { result ≡ is_name_byte byte }
{
    is_name_start(byte) || byte.is_ascii_digit()
}

/// Whether the byte may follow the `$` of a metavariable.
pub(crate) fn is_meta_letter(byte: u8) -> bool
    ensures { result ≡ is_meta_letter byte }
{
    byte == b'a' || byte == b'v' || byte == b'n' || byte == b'c' || byte == b'o'
}
