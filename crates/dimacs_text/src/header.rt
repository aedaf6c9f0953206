//! The line of the two numbers.
ghost use Rattle.std.specs.Prelude.{◌≡◌, ◌≤◌, ◌++◌, ℕ, List, MatchOption, length, not};
ghost use Rattle.std.specs.List.{prefix_len};
ghost use Rattle.std.specs.Fmt.{decimal};
ghost use Rattle.clause_base.specs.Readings.{IsReading};
ghost use Rattle.dimacs_text.specs.CnfTexts.{IsGap, SpellsHeader};
ghost use Rattle.dimacs_text.specs.HeaderWords.{IsBehindGap, IsNumberIn, is_digit};
ghost use Rattle.dimacs_text.specs.HeaderWords.{is_behind_number};
ghost use Rattle.dimacs_text.specs.TextLines.{is_blank};

use crate::lines::has_no_words;
use step_lines::numbers::number_within;
use step_lines::words::behind;

/// The greatest number of variables.
const MOST_VARS: u32 = 1_000_000;

/// The greatest number of clauses.
const MOST_CLAUSES: u32 = 3_000_000;

/// How many variables, and how many clauses.
#[derive(Clone, Copy)]
pub(crate) struct Header {
    pub(crate) vars: u32,
    pub(crate) count: u32,
}

fn is_blank(c: u8) -> bool
    ensures { result ≡ is_blank c }
{
    c == b' ' || c == b'\t'
}

fn blanks_len(text: &[u8]) -> usize
    ensures same { result ≡ prefix_len is_blank text.now }
    ensures within { result ≤ length text.now }
{
    text.iter().take_while(|c| is_blank(**c)).count()
}

fn is_digit(c: u8) -> bool
    ensures { result ≡ is_digit c }
{
    b'0' <= c && c <= b'9'
}

fn digits_len(text: &[u8]) -> usize
    ensures same { result ≡ prefix_len is_digit text.now }
    ensures within { result ≤ length text.now }
{
    text.iter().take_while(|c| is_digit(**c)).count()
}

// What stands behind the spaces and tabs at the front of the text, if there are any.
fn behind_gap(text: &[u8]) -> Option<&[u8]>
    ensures { MatchOption result
        ((gap rest : List ℕ) → IsGap gap → text.now ≡ gap ++ rest → ⊥)
        (λ rest. IsBehindGap text.now rest.now) }
{
    let (gap, rest) = text.split_at(blanks_len(text));
    if gap.is_empty() { None } else { Some(rest) }
}

// A number at the front of the text, and what stands behind its digits.
#[derive(Clone, Copy)]
struct NumberIn<'a> {
    number: u32,
    rest: &'a [u8],
}

fn number_in(text: &[u8], most: u32) -> Option<NumberIn<'_>>
    requires { most ≤ 3000000 }
    ensures { MatchOption result
        ((n : ℕ) (rest : List ℕ) → IsNumberIn most text.now n rest → ⊥)
        (λ f. IsNumberIn most text.now f.number f.rest.now) }
{
    let (digits, rest) = text.split_at(digits_len(text));
    let number = number_within(digits, 0, most)?;
    Some(NumberIn { number, rest })
}

/// The numbers that the line tells.
pub(crate) fn read_header(line: &[u8]) -> Option<Header>
    ensures { IsReading (λ h. SpellsHeader line.now h.vars h.count) result }
{
    let text = behind(line, b"p")?;
    let name = behind_gap(text)?;
    let tail = behind(name, b"cnf")?;
    let numbers = behind_gap(tail)?;
    let vars = number_in(numbers, MOST_VARS)?;
    let second = behind_gap(vars.rest)?;
    let count = number_in(second, MOST_CLAUSES)?;
    if !has_no_words(count.rest) {
        return None;
    }
    Some(Header {
        vars: vars.number,
        count: count.number,
    })
}
