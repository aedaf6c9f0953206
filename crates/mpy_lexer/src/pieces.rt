//! What stands at a place of a physical line.
ghost use Rattle.std.specs.Prelude.{◌≡◌, ◌<◌, ◌≤◌, ◌+◌, ◌==◌, ◌&&◌, not, false, length, IfSome};
ghost use Rattle.std.specs.List.{prefix_len};
ghost use Rattle.mpy_lexer.specs.Bytes.{is_name_byte, is_white};
ghost use Rattle.mpy_lexer.specs.Pieces.{closing, has_wrong_escape, text_to, name_at, piece_at};

use crate::bytes::{is_name_byte, is_name_start, is_quote, is_white};
use crate::forms::{Form, Kind};
use crate::numbers::number_at;
use crate::signs::sign_at;
use crate::words::is_reserved;

/// What a piece of a physical line is.
#[derive(Clone, Copy, Drop)]
pub(crate) enum Sort {
    /// White space.
    Space,
    /// A comment, up to the end of the line.
    Comment,
    /// What is no token.
    Wrong,
    Token(Kind),
}

/// The piece at a place: what it is, and how many bytes it has.
#[derive(Clone, Copy, Drop)]
pub(crate) struct Piece {
    pub(crate) sort: Sort,
    pub(crate) len: usize,
}

// Whether the byte is this one, and no backslash took it.
fn is_bare(taken: bool, byte: u8, wanted: u8) -> bool
    ensures { result ≡ (not taken && byte == wanted) }
{
    !taken && byte == wanted
}

// How far the closing quote reaches in what follows the opening one.
#[tactic(auto, unfolding(crate::specs::Pieces::closing))]
fn closing(quote: u8, body: &[u8]) -> Option<usize>
    ensures same { result ≡ closing quote false body.now }
    ensures within { IfSome result (λ n. n ≤ length body.now) }
{
    let mut taken = false;
    for (i, byte) in body.iter().enumerate() {
        if is_bare(taken, *byte, quote) {
            return Some(i + 1);
        }
        taken = is_bare(taken, *byte, b'\\');
    }
    None
}

// Whether a backslash takes a byte that is no backslash and no quote.
#[tactic(auto, unfolding(crate::specs::Pieces::has_wrong_escape))]
fn has_wrong_escape(text: &[u8]) -> bool
    ensures { result ≡ has_wrong_escape false text.now }
{
    let mut taken = false;
    for byte in text {
        if taken && !(*byte == b'\\' || is_quote(*byte)) {
            return true;
        }
        taken = is_bare(taken, *byte, b'\\');
    }
    false
}

// The text literal whose opening quote stands before the body.
fn text_at(quote: u8, body: &[u8]) -> Piece
    ensures same { result ≡ text_to body.now (closing quote false body.now) }
    ensures within { result.len ≤ 1 + length body.now }
{
    match closing(quote, body) {
        None => Piece {
            sort: Sort::Wrong,
            len: 1 + body.len(),
        },
        Some(len) => Piece {
            sort: if has_wrong_escape(&body[..len]) {
                Sort::Wrong
            } else {
                Sort::Token(Kind::Text)
            },
            len: 1 + len,
        },
    }
}

fn name_len(text: &[u8]) -> usize
    ensures same { result ≡ prefix_len is_name_byte text.now }
    ensures within { result ≤ length text.now }
{
    text.iter().take_while(|b| is_name_byte(**b)).count()
}

fn white_len(text: &[u8]) -> usize
    ensures same { result ≡ prefix_len is_white text.now }
    ensures within { result ≤ length text.now }
{
    text.iter().take_while(|b| is_white(**b)).count()
}

// The name at the front of the text.
#[tactic(auto, unfolding(crate::specs::Pieces::name_at))]
fn name_at(text: &[u8]) -> Piece
    ensures same { result ≡ name_at text.now }
    ensures within { result.len ≤ length text.now }
{
    let len = name_len(text);
    let kind = if is_reserved(&text[..len]) {
        Kind::Reserved
    } else {
        Kind::Name
    };
    Piece {
        sort: Sort::Token(kind),
        len,
    }
}

/// The longest form at the front of the text.
#[tactic(auto, unfolding(crate::specs::Pieces::piece_at))]
pub(crate) fn piece_at(form: Form, text: &[u8]) -> Piece
    ensures same { result ≡ piece_at form text.now }
    ensures within { result.len ≤ length text.now }
{
    match text {
        [] => Piece {
            sort: Sort::Space,
            len: 0,
        },
        [b'#', ..] => Piece {
            sort: Sort::Comment,
            len: text.len(),
        },
        [first, body @ ..] if is_quote(*first) => text_at(*first, body),
        [first, ..] if is_white(*first) => Piece {
            sort: Sort::Space,
            len: white_len(text),
        },
        [first, ..] if is_name_start(*first) => name_at(text),
        [first, ..] if first.is_ascii_digit() => number_at(text),
        _ => sign_at(form, text),
    }
}
