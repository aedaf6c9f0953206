//! Metavariables and marks.
ghost use Rattle.std.specs.Prelude.{◌≡◌, ◌<◌, ◌≤◌, length};
ghost use Rattle.mpy_lexer.specs.Pieces.{meta_len, meta_len_in, sign_at};

use crate::bytes::is_meta_letter;
use crate::forms::{Form, Kind};
use crate::pieces::{Piece, Sort};
use crate::words::mark_len;

// How long the metavariable at the front is; 0 where none begins there.
fn meta_len(text: &[u8]) -> usize
    ensures same { result ≡ meta_len text.now }
    ensures within { result ≤ length text.now }
{
    let [b'$', letter, rest @ ..] = text else {
        return 0;
    };
    if !is_meta_letter(*letter) {
        return 0;
    }
    match rest {
        [digit, b'\'', ..] if digit.is_ascii_digit() => 4,
        [digit, ..] if digit.is_ascii_digit() => 3,
        [b'\'', ..] => 3,
        _ => 2,
    }
}

fn meta_len_in(form: Form, text: &[u8]) -> usize
    ensures same { result ≡ meta_len_in form text.now }
    ensures within { result ≤ length text.now }
{
    match form {
        Form::Program => 0,
        Form::Rules => meta_len(text),
    }
}

/// The metavariable or the mark at the front of the text, or a byte that begins nothing.
#[tactic(auto, unfolding(crate::specs::Pieces::sign_at))]
pub(crate) fn sign_at(form: Form, text: &[u8]) -> Piece
    ensures same { result ≡ sign_at form text.now }
    ensures within { 0 < length text.now → result.len ≤ length text.now }
{
    let meta = meta_len_in(form, text);
    if meta > 0 {
        return Piece {
            sort: Sort::Token(Kind::Meta),
            len: meta,
        };
    }
    let mark = mark_len(form, text);
    if mark > 0 {
        return Piece {
            sort: Sort::Token(Kind::Mark),
            len: mark,
        };
    }
    Piece {
        sort: Sort::Wrong,
        len: 1,
    }
}
