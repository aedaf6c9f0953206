//! Tokens of the lines of rules.
ghost use Rattle.std.specs.Prelude.{◌≡◌};
ghost use Rattle.eml_reader.specs.RuleLines.{is_mark, is_name, is_number, is_text, is_word};

use mpy_lexer::{Kind, Token};

/// Whether a token is a name with these bytes that isn't reserved.
pub fn is_word(word: &[u8], t: &Token) -> bool
    ensures { result ≡ is_word word.now t.now }
{
    matches!(t.kind, Kind::Name) && t.text.bytes() == word
}

/// Whether a token is this mark.
pub fn is_mark(mark: &[u8], t: &Token) -> bool
    ensures { result ≡ is_mark mark.now t.now }
{
    matches!(t.kind, Kind::Mark) && t.text.bytes() == mark
}

/// Whether a token of this kind is a name, reserved or not.
pub fn is_name(kind: Kind) -> bool
    ensures { result ≡ is_name kind }
{
    matches!(kind, Kind::Name | Kind::Reserved)
}

/// Whether a token of this kind is a number.
pub fn is_number(kind: Kind) -> bool
    ensures { result ≡ is_number kind }
{
    matches!(kind, Kind::Number)
}

/// Whether a token of this kind is a text.
pub fn is_text(kind: Kind) -> bool
    ensures { result ≡ is_text kind }
{
    matches!(kind, Kind::Text)
}
