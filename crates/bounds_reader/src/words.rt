//! The words at the front of a line.
ghost use Rattle.std.specs.Prelude.{◌≡◌, ◌≤◌, length, option_map, nat_abs, IfOk};
ghost use Rattle.std.specs.List.{prefix_len};
ghost use Rattle.std.specs.Option.{option_copied};
ghost use Rattle.mpy_lexer.specs.Bytes.{is_white};
ghost use Rattle.bounds_reader.specs.Items.{is_short, is_plain_name};
ghost use Rattle.bounds_reader.specs.Words.{is_plain, ends_word, carries_nothing};
ghost use Rattle.bounds_reader.specs.Reading.{behind_space, plain_at, literal_word_at, behind_word};
ghost use Rattle.bounds_reader.specs.Reading.{number_of, number_at, behind_dots, span_of, span_at};
ghost use Rattle.bounds_reader.specs.Reading.{name_at};

use crate::NoMemory;
use crate::scan::{literal_at, signed_at};
use mpy_lexer::{is_name, is_reserved};
use mpy_tree::Chars;
use std::alloc::Global;

pub(crate) fn is_white(byte: u8) -> bool
    ensures { result ≡ is_white byte }
{
    byte == b'\t' || byte == b' ' || byte == b'\n' || byte == b'\r'
}

fn is_plain(byte: u8) -> bool
    ensures { result ≡ is_plain byte }
{
    !(is_white(byte) || byte == b'\'' || byte == b'"' || byte == b'#')
}

fn white_len(line: &[u8]) -> usize
    ensures same { result ≡ prefix_len is_white line.now }
    ensures within { result ≤ length line.now }
{
    line.iter().take_while(|b| is_white(**b)).count()
}

fn plain_len(line: &[u8]) -> usize
    ensures same { result ≡ prefix_len is_plain line.now }
    ensures within { result ≤ length line.now }
{
    line.iter().take_while(|b| is_plain(**b)).count()
}

fn behind_space(line: &[u8]) -> &[u8]
    ensures { result.now ≡ behind_space line.now }
{
    &line[white_len(line)..]
}

// Whether a word ends before the rest of its line.
fn ends_word(rest: &[u8]) -> bool
    ensures { result ≡ ends_word rest.now }
{
    match rest {
        [] => true,
        [first, ..] => is_white(*first) || *first == b'#',
    }
}

/// Whether there is nothing but white space and a comment.
pub(crate) fn carries_nothing(line: &[u8]) -> bool
    ensures { result ≡ carries_nothing line.now }
{
    for byte in line {
        if !is_white(*byte) {
            return *byte == b'#';
        }
    }
    true
}

/// The plain word that the line begins with, and the rest.
#[tactic(auto, unfolding(crate::specs::Reading::plain_at))]
pub(crate) fn plain_at(line: &[u8]) -> Option<(&[u8], &[u8])>
    ensures { option_map (λ x. (x.0.now, x.1.now)) result ≡ plain_at line.now }
{
    let text = behind_space(line);
    let (word, rest) = text.split_at(plain_len(text));
    if word.is_empty() || !ends_word(rest) {
        None
    } else {
        Some((word, rest))
    }
}

/// The characters of the text literal that the line begins with, and the rest.
#[tactic(auto, unfolding(crate::specs::Reading::literal_word_at))]
pub(crate) fn literal_word_at(
    alloc: Global,
    line: &[u8],
) -> Result<Option<(Chars, &[u8])>, NoMemory>
    ensures { IfOk result (λ o. option_map (λ x. (x.0, x.1.now)) o ≡ literal_word_at line.now) }
{
    let Some((characters, rest)) = literal_at(alloc, behind_space(line))? else {
        return Ok(None);
    };
    if ends_word(rest) {
        Ok(Some((characters, rest)))
    } else {
        Ok(None)
    }
}

/// What stands behind the word, if the line begins with it.
#[tactic(auto, unfolding(crate::specs::Reading::behind_word))]
pub(crate) fn behind_word<'a>(word: &[u8], line: &'a [u8]) -> Option<&'a [u8]>
    ensures { option_copied result ≡ behind_word word.now line.now }
{
    let (found, rest) = plain_at(line)?;
    if found == word { Some(rest) } else { None }
}

const LONGEST: u32 = 999_999_999;

fn is_short(number: i32) -> bool
    ensures { result ≡ is_short number }
{
    number.unsigned_abs() <= LONGEST
}

// The number of at most nine digits that is the whole word.
#[tactic(auto, unfolding(crate::specs::Reading::number_of))]
fn number_of(word: &[u8]) -> Option<i32>
    ensures { result ≡ number_of word.now }
{
    let (number, rest) = signed_at(word)?;
    if rest.is_empty() && is_short(number) {
        Some(number)
    } else {
        None
    }
}

#[tactic(auto, unfolding(crate::specs::Reading::number_at))]
pub(crate) fn number_at(line: &[u8]) -> Option<(i32, &[u8])>
    ensures { option_map (λ x. (x.0, x.1.now)) result ≡ number_at line.now }
{
    let (word, rest) = plain_at(line)?;
    let number = number_of(word)?;
    Some((number, rest))
}

fn behind_dots(text: &[u8]) -> Option<&[u8]>
    ensures { option_copied result ≡ behind_dots text.now }
{
    match text {
        [b'.', b'.', rest @ ..] => Some(rest),
        _ => None,
    }
}

// The two numbers of a word `A..B`.
#[tactic(auto, unfolding(crate::specs::Reading::span_of))]
fn span_of(word: &[u8]) -> Option<(i32, i32)>
    ensures { result ≡ span_of word.now }
{
    let (low, rest) = signed_at(word)?;
    let high = number_of(behind_dots(rest)?)?;
    if is_short(low) {
        Some((low, high))
    } else {
        None
    }
}

/// The two numbers of the word `A..B` that the line begins with, and the rest.
#[tactic(auto, unfolding(crate::specs::Reading::span_at))]
pub(crate) fn span_at(line: &[u8]) -> Option<(i32, i32, &[u8])>
    ensures { option_map (λ x. (x.0, x.1, x.2.now)) result ≡ span_at line.now }
{
    let (word, rest) = plain_at(line)?;
    let (low, high) = span_of(word)?;
    Some((low, high, rest))
}

fn is_plain_name(word: &[u8]) -> bool
    ensures { result ≡ is_plain_name word.now }
{
    is_name(word) && !is_reserved(word)
}

/// The unreserved name that the line begins with, and the rest.
#[tactic(auto, unfolding(crate::specs::Reading::name_at))]
pub(crate) fn name_at(line: &[u8]) -> Option<(&[u8], &[u8])>
    ensures { option_map (λ x. (x.0.now, x.1.now)) result ≡ name_at line.now }
{
    let (word, rest) = plain_at(line)?;
    if is_plain_name(word) {
        Some((word, rest))
    } else {
        None
    }
}
