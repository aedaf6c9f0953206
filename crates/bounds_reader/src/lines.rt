//! The physical lines of a text.
ghost use Rattle.std.specs.Prelude.{◌≡◌, ◌<◌, ◌≤◌, ◌^◌, length, map, drop, IfOk};
ghost use Rattle.mpy_lexer.specs.PhysicalLines.{byte_order_mark_len, physical_lines};
ghost use Rattle.mpy_lexer.specs.Seen.{line_len};
ghost use Rattle.bounds_reader.specs.Files.{text_lines};

use crate::NoMemory;
use std::alloc::Global;

const BYTE_ORDER_MARK: [u8; 3] = [0xEF, 0xBB, 0xBF];

// How many bytes are passed over at the front of a text.
#[tactic(auto, unfolding(mpy_lexer::specs::PhysicalLines::byte_order_mark_len))]
fn byte_order_mark_len(bytes: &[u8]) -> usize
    ensures same { result ≡ byte_order_mark_len bytes.now }
    ensures within { result ≤ length bytes.now }
{
    if bytes.starts_with(&BYTE_ORDER_MARK) {
        3
    } else {
        0
    }
}

// How long the first physical line is, with the byte that ends it.
#[tactic(auto, unfolding(mpy_lexer::specs::Seen::line_len))]
fn line_len(text: &[u8]) -> usize
    ensures same { result ≡ line_len text.now }
    ensures within { result ≤ length text.now }
{
    for (i, byte) in text.iter().enumerate() {
        if *byte == b'\n' {
            return i + 1;
        }
    }
    text.len()
}

/// The physical lines of a text, each with the byte that ends it.
pub(crate) fn text_lines(alloc: Global, bytes: &[u8]) -> Result<Vec<&[u8]>, NoMemory>
    ensures lines { IfOk result (λ v. map (λ l. l.now) v.items ≡ text_lines bytes.now) }
    ensures few { IfOk result (λ v. length v.items ≤ length bytes.now) }
{
    let mut at = byte_order_mark_len(bytes);
    let mut lines = Vec::new(alloc);
    while at < bytes.len() {
        let end = at + line_len(&bytes[at..]);
        lines.push(&bytes[at..end])?;
        at = end;
    }
    Ok(lines)
}
