//! Numbers in decimal.
ghost use Rattle.std.specs.Prelude.{◌≡◌, ◌↔◌, ◌<◌, ◌≤◌, ◌++◌, ℕ, List, IfNone, IfSome};
ghost use Rattle.std.specs.Prelude.{IsTrue, MatchOption, OnOk, length, slice_index};
ghost use Rattle.std.specs.Char.{is_ascii_digit};
ghost use Rattle.std.specs.Fmt.{decimal};
ghost use Rattle.std.specs.List.{prefix_len, take_while};
ghost use Rattle.std.specs.Str.Parse.{digits_value};
ghost use Rattle.step_lines.specs.Limits.{greatest_number};
ghost use Rattle.step_lines.specs.Words.{BeginsWithNumber, NextNumber, SpellsNumber};
ghost use Rattle.step_lines.specs.Words.{SpellsWithin, is_at};
ghost use Rattle.clause_base.specs.Readings.{IsReading};

use crate::NoMemory;
use itoa::Buffer;

/// The greatest number of a line.
pub const GREATEST_NUMBER: u32 = 2_147_483_647;

// How many digits there are, and the number that they write.
#[derive(Clone, Copy)]
struct Digits {
    count: usize,
    value: u32,
}

// The digits at the front of the text, unless they write more than the greatest number.
fn front_digits(text: &[u8]) -> Option<Digits>
    ensures count { IfSome result (λ d. d.count ≡ prefix_len is_ascii_digit text.now) }
    ensures within { IfSome result (λ d. d.count ≤ length text.now) }
    ensures value { IfSome result
        (λ d. d.value ≡ digits_value 10 (take_while is_ascii_digit text.now)) }
    ensures low { IfSome result (λ d. d.value ≤ greatest_number) }
    ensures none { IfNone result
        (greatest_number < digits_value 10 (take_while is_ascii_digit text.now)) }
{
    let mut value = 0u64;
    for (i, byte) in text.iter().enumerate() {
        if !byte.is_ascii_digit() {
            return Some(Digits {
                count: i,
                value: value as u32,
            });
        }
        value = value * 10 + u64::from(*byte - b'0');
        if value > u64::from(GREATEST_NUMBER) {
            return None;
        }
    }
    Some(Digits {
        count: text.len(),
        value: value as u32,
    })
}

// Whether digits are those of a number: there are some, and no 0 leads others.
fn are_canonical(digits: &[u8]) -> bool
    ensures { IsTrue result
        ↔ (0 < length digits.now) × (slice_index digits.now 0 ≡ 48 → length digits.now ≡ 1) }
{
    match digits {
        [] => false,
        [first, others @ ..] => *first != b'0' || others.is_empty(),
    }
}

// Whether a word ends before this text.
fn is_apart(text: &[u8]) -> bool
    ensures { result ≡ is_at 32 text.now }
{
    match text {
        [] => true,
        [first, ..] => *first == b' ',
    }
}

/// A number, and what stands behind it.
#[derive(Clone, Copy)]
pub(crate) struct Numeral<'a> {
    pub value: u32,
    pub behind: &'a [u8],
}

// The number that the text spells up to its first space.
fn front_number(text: &[u8]) -> Option<Numeral<'_>>
    ensures { MatchOption result
        ((n : ℕ) (behind : List ℕ) → BeginsWithNumber text.now n behind → ⊥)
        (λ r. BeginsWithNumber text.now r.value r.behind.now) }
{
    let Some(digits) = front_digits(text) else {
        return None;
    };
    let (written, behind) = text.split_at(digits.count);
    if !are_canonical(written) {
        return None;
    }
    if !is_apart(behind) {
        return None;
    }
    Some(Numeral {
        value: digits.value,
        behind,
    })
}

/// The number that the word behind the space at the front of the text spells.
pub(crate) fn next_number(text: &[u8]) -> Option<Numeral<'_>>
    ensures next { MatchOption result
        ((n : ℕ) (behind : List ℕ) → NextNumber text.now n behind → ⊥)
        (λ r. NextNumber text.now r.value r.behind.now) }
    ensures shorter { IfSome result (λ r. length r.behind.now < length text.now) }
{
    match text {
        [b' ', word @ ..] => front_number(word),
        _ => None,
    }
}

/// The number that the text spells, at most 2147483647 and without a leading zero.
pub fn number(text: &[u8]) -> Option<u32>
    ensures { IsReading (SpellsNumber text.now) result }
{
    let Some(found) = front_number(text) else {
        return None;
    };
    if !found.behind.is_empty() {
        return None;
    }
    Some(found.value)
}

/// The number from `least` to `most` that the text spells.
pub fn number_within(text: &[u8], least: u32, most: u32) -> Option<u32>
    ensures { IsReading (SpellsWithin least most text.now) result }
{
    match number(text) {
        Some(n) if least <= n && n <= most => Some(n),
        _ => None,
    }
}

/// Adds a number.
pub fn write_number(out: &mut Vec<u8>, n: u32) -> Result<(), NoMemory>
    ensures { OnOk result (out.new.items ≡ out.old.items ++ decimal n) }
{
    let mut buffer = Buffer::new();
    out.extend_from_slice(buffer.format(n).as_bytes())?;
    Ok(())
}
