//! The characters that a text literal spells.
ghost use Rattle.std.specs.Prelude.{◌≡◌, ◌<◌, ◌≤◌, length, option_map, IfOk, IfSome};
ghost use Rattle.mpy_tree.specs.Printable.{ArePrintable};
ghost use Rattle.mpy_lexer.specs.TextLiterals.{is_printable, is_escapable, character_at};
ghost use Rattle.mpy_lexer.specs.TextLiterals.{is_last, characters, literal_characters};

use crate::NoMemory;
use crate::bytes::is_quote;
use std::alloc::Global;

fn is_printable(byte: u8) -> bool
    ensures { result ≡ is_printable byte }
{
    (32..=126).contains(&byte)
}

fn is_escapable(byte: u8) -> bool
    ensures { result ≡ is_escapable byte }
{
    byte == b'\\' || byte == b'\'' || byte == b'"'
}

// The next character of a literal and what stands behind it, where neither the closing quote nor an
// error stands there.
fn character_at(quote: u8, bytes: &[u8]) -> Option<(u8, &[u8])>
    ensures same { option_map (λ x. (x.0, x.1.now)) result ≡ character_at quote bytes.now }
    ensures shorter { IfSome result (λ x. length x.1.now < length bytes.now) }
    ensures printable { IfSome result (λ x. (32 ≤ x.0) × (x.0 ≤ 126)) }
{
    let [first, behind @ ..] = bytes else {
        return None;
    };
    let [taken, next @ ..] = behind else {
        return None;
    };
    if *first == quote {
        None
    } else if *first == b'\\' {
        if is_escapable(*taken) {
            Some((*taken, next))
        } else {
            None
        }
    } else if is_printable(*first) {
        Some((*first, behind))
    } else {
        None
    }
}

// Whether the closing quote is all that is left.
fn is_last(quote: u8, bytes: &[u8]) -> bool
    ensures { result ≡ is_last quote bytes.now }
{
    match bytes {
        [last] => *last == quote,
        _ => false,
    }
}

// The characters of a literal behind its opening quote, if it is one.
#[tactic(auto, using(crate::proofs::Characters::walk))]
fn characters(alloc: Global, quote: u8, bytes: &[u8]) -> Result<Option<Vec<u8>>, NoMemory>
    ensures same { IfOk result (λ o. option_map (λ v. v.items) o ≡ characters quote bytes.now) }
    ensures printable { IfOk result (λ o. IfSome o (λ v. ArePrintable v.items)) }
{
    let mut found = Vec::new(alloc);
    let mut rest = bytes;
    while let Some((character, behind)) = character_at(quote, rest) {
        found.push(character)?;
        rest = behind;
    }
    if is_last(quote, rest) {
        Ok(Some(found))
    } else {
        Ok(None)
    }
}

/// The characters that a text literal spells, each of them printable: a backslash stands for the
/// character behind it. `bytes` are the whole literal, with its quotes; None where they are no
/// literal.
pub fn literal_characters(alloc: Global, bytes: &[u8]) -> Result<Option<Vec<u8>>, NoMemory>
    ensures same { IfOk result (λ o. option_map (λ v. v.items) o ≡ literal_characters bytes.now) }
    ensures printable { IfOk result (λ o. IfSome o (λ v. ArePrintable v.items)) }
{
    let [quote, rest @ ..] = bytes else {
        return Ok(None);
    };
    if !is_quote(*quote) {
        return Ok(None);
    }
    characters(alloc, *quote, rest)
}
