//! Number literals.
ghost use Rattle.std.specs.Prelude.{◌≡◌, ◌<◌, ◌≤◌, length};
ghost use Rattle.std.specs.Char.{is_ascii_digit};
ghost use Rattle.std.specs.List.{prefix_len};
ghost use Rattle.mpy_lexer.specs.Pieces.{number_of, digits_len, number_at, is_glued};

use crate::bytes::is_name_byte;
use crate::forms::Kind;
use crate::pieces::{Piece, Sort};

const LARGEST: u64 = 2_147_483_647;

/// The number that digits write, if it is at most 2147483647.
pub fn number_of(digits: &[u8]) -> Option<u32>
    ensures { result ≡ number_of digits.now }
{
    let mut value = 0;
    for digit in digits {
        value = value * 10 + u64::from(digit.saturating_sub(b'0'));
        if value > LARGEST {
            return None;
        }
    }
    Some(value as u32)
}

fn digit_count(text: &[u8]) -> usize
    ensures same { result ≡ prefix_len is_ascii_digit text.now }
    ensures within { result ≤ length text.now }
{
    text.iter().take_while(|b| b.is_ascii_digit()).count()
}

// How long the number at the front is: one digit if that is 0, or else all digits.
fn digits_len(text: &[u8]) -> usize
    ensures same { result ≡ digits_len text.now }
    ensures within { result ≤ length text.now }
{
    match text {
        [] => 0,
        [b'0', ..] => 1,
        _ => digit_count(text),
    }
}

// Whether the text goes on with a byte that no number may have behind it.
fn is_glued(text: &[u8]) -> bool
    ensures { result ≡ is_glued text.now }
{
    match text {
        [] => false,
        [first, ..] => is_name_byte(*first) || *first == b'.',
    }
}

/// The number at the front of the text, whose first byte is a digit.
#[tactic(auto, unfolding(crate::specs::Pieces::number_at))]
pub(crate) fn number_at(text: &[u8]) -> Piece
    ensures same { result ≡ number_at text.now }
    ensures within { result.len ≤ length text.now }
{
    let len = digits_len(text);
    let sort = if number_of(&text[..len]).is_some() && !is_glued(&text[len..]) {
        Sort::Token(Kind::Number)
    } else {
        Sort::Wrong
    };
    Piece { sort, len }
}
