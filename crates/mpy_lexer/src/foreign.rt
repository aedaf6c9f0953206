//! The bytes that may stand outside comments.
ghost use Rattle.std.specs.Prelude.{◌≡◌};
ghost use Rattle.mpy_lexer.specs.PhysicalLines.{is_line_feed_next, is_allowed, has_foreign_byte};
ghost use Rattle.mpy_lexer.specs.PhysicalLines.{is_foreign};

use crate::pieces::Sort;

fn is_line_feed_next(rest: &[u8]) -> bool
    ensures { result ≡ is_line_feed_next rest.now }
{
    match rest {
        [] => false,
        [next, ..] => *next == b'\n',
    }
}

// Whether the byte may stand before the rest; a tab only in white space.
fn is_allowed(in_space: bool, byte: u8, rest: &[u8]) -> bool
    ensures { result ≡ is_allowed in_space byte rest.now }
{
    match byte {
        b' '..=b'~' | b'\n' => true,
        b'\r' => is_line_feed_next(rest),
        b'\t' => in_space,
        _ => false,
    }
}

#[tactic(auto, unfolding(crate::specs::PhysicalLines::has_foreign_byte))]
fn has_foreign_byte(in_space: bool, bytes: &[u8]) -> bool
    ensures { result ≡ has_foreign_byte in_space bytes.now }
{
    for (i, byte) in bytes.iter().enumerate() {
        if !is_allowed(in_space, *byte, &bytes[i + 1..]) {
            return true;
        }
    }
    false
}

/// Whether a piece of this sort, with these bytes, has one that may not stand there.
pub(crate) fn is_foreign(sort: Sort, bytes: &[u8]) -> bool
    ensures { result ≡ is_foreign sort bytes.now }
{
    match sort {
        Sort::Space => has_foreign_byte(true, bytes),
        Sort::Comment => false,
        Sort::Wrong | Sort::Token(_) => has_foreign_byte(false, bytes),
    }
}
