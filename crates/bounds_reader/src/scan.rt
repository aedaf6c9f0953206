//! Numbers and text literals at the front of a text.
ghost use Rattle.std.specs.Prelude.{◌≡◌, ◌≤◌, ◌==◌, ◌&&◌, not, false, true, length, option_map};
ghost use Rattle.std.specs.Prelude.{IfOk, IfSome};
ghost use Rattle.std.specs.Char.{is_ascii_digit};
ghost use Rattle.std.specs.List.{list_all};
ghost use Rattle.mpy_lexer.specs.Bytes.{is_quote};
ghost use Rattle.mpy_lexer.specs.Pieces.{number_value, closing};
ghost use Rattle.bounds_reader.specs.Scanning.{is_numeral, numeral_of, digits_len, numeral_at};
ghost use Rattle.bounds_reader.specs.Scanning.{negated, signed_at, literal_at};

use crate::NoMemory;
use mpy_lexer::literal_characters;
use mpy_tree::Chars;
use std::alloc::Global;

const LARGEST: u32 = 2_147_483_647;

fn digits_len(text: &[u8]) -> usize
    ensures same { result ≡ digits_len text.now }
    ensures within { result ≤ length text.now }
{
    text.iter().take_while(|b| b.is_ascii_digit()).count()
}

fn is_numeral(digits: &[u8]) -> bool
    ensures { result ≡ is_numeral digits.now }
{
    match digits {
        [] => false,
        [first, rest @ ..] => rest.len() <= 9 && (*first != b'0' || rest.is_empty()),
    }
}

fn number_value(digits: &[u8]) -> u64
    requires digits { list_all is_ascii_digit digits.now ≡ true }
    requires few { length digits.now ≤ 10 }
    ensures { result ≡ number_value digits.now }
{
    let mut value = 0;
    for digit in digits {
        value = value * 10 + u64::from(*digit - b'0');
    }
    value
}

// The number that digits write, if it is at most the limit.
#[tactic(auto, unfolding(crate::specs::Scanning::numeral_of))]
fn numeral_of(limit: u32, digits: &[u8]) -> Option<u32>
    requires { list_all is_ascii_digit digits.now ≡ true }
    ensures same { result ≡ numeral_of limit digits.now }
    ensures within { IfSome result (λ n. n ≤ limit) }
{
    if !is_numeral(digits) {
        return None;
    }
    let value = number_value(digits);
    if value <= u64::from(limit) {
        Some(value as u32)
    } else {
        None
    }
}

// All digits at the front as a number, and the rest.
#[tactic(auto, unfolding(crate::specs::Scanning::numeral_at))]
fn numeral_at(limit: u32, text: &[u8]) -> Option<(u32, &[u8])>
    ensures same { option_map (λ x. (x.0, x.1.now)) result ≡ numeral_at limit text.now }
    ensures within { IfSome result (λ x. x.0 ≤ limit) }
{
    let (digits, rest) = text.split_at(digits_len(text));
    let number = numeral_of(limit, digits)?;
    Some((number, rest))
}

// The number behind a minus.
fn negated(size: u32) -> Option<i32>
    requires { size ≤ 2147483648 }
    ensures { result ≡ negated size }
{
    if size == 0 {
        None
    } else {
        Some(-1 - (size - 1) as i32)
    }
}

/// The number from -2147483648 to 2147483647 at the front of a text, and the rest: all digits
/// there, with a minus before them if the number is below 0, and without leading zeros.
#[tactic(auto, unfolding(crate::specs::Scanning::signed_at))]
pub fn signed_at(text: &[u8]) -> Option<(i32, &[u8])>
    ensures { option_map (λ x. (x.0, x.1.now)) result ≡ signed_at text.now }
{
    match text {
        [] => None,
        [b'-', unsigned @ ..] => {
            let (size, rest) = numeral_at(LARGEST + 1, unsigned)?;
            let number = negated(size)?;
            Some((number, rest))
        }
        _ => {
            let (number, rest) = numeral_at(LARGEST, text)?;
            Some((number as i32, rest))
        }
    }
}

fn is_quote(byte: u8) -> bool
    ensures { result ≡ is_quote byte }
{
    byte == b'\'' || byte == b'"'
}

// Whether the byte is this one, and no backslash took it.
fn is_bare(taken: bool, byte: u8, wanted: u8) -> bool
    ensures { result ≡ (not taken && byte == wanted) }
{
    !taken && byte == wanted
}

// How far the closing quote reaches in what follows the opening one.
#[tactic(auto, unfolding(mpy_lexer::specs::Pieces::closing))]
fn closing(quote: u8, body: &[u8]) -> Option<usize>
    ensures same { result ≡ closing quote false body.now }
    ensures within { IfSome result (λ n. n ≤ length body.now) }
{
    let mut taken = false;
    for (i, byte) in body.iter().enumerate() {
        if is_bare(taken, *byte, quote) {
            return Some(i + 1);
        }
        taken = is_bare(taken, *byte, b'\\');
    }
    None
}

/// The characters of the text literal at the front of a text, and the rest.
#[tactic(auto, unfolding(crate::specs::Scanning::literal_at))]
pub fn literal_at(alloc: Global, text: &[u8]) -> Result<Option<(Chars, &[u8])>, NoMemory>
    ensures { IfOk result (λ o. option_map (λ x. (x.0, x.1.now)) o ≡ literal_at text.now) }
{
    let [quote, body @ ..] = text else {
        return Ok(None);
    };
    if !is_quote(*quote) {
        return Ok(None);
    }
    let Some(len) = closing(*quote, body) else {
        return Ok(None);
    };
    let (literal, rest) = text.split_at(1 + len);
    match literal_characters(alloc, literal)? {
        None => Ok(None),
        Some(characters) => Ok(Some((Chars::from_vec(characters), rest))),
    }
}
