//! The logical lines of a text.
ghost use Rattle.std.specs.Prelude.{◌≡◌, ◌≤◌, ◌||◌, if◌then◌else◌, [], length, All, OnOk, IfOk};
ghost use Rattle.std.specs.Prelude.{IfErr};
ghost use Rattle.mpy_tree.specs.Leasts.{lesser, least};
ghost use Rattle.mpy_lexer.specs.Lexing.{byte_fault, faulty_lines, logical_lines, length_fault};
ghost use Rattle.mpy_lexer.specs.Lexing.{lex, IsAnswered};
ghost use Rattle.mpy_lexer.specs.Seen.{with_more};
ghost use Rattle.mpy_lexer.specs.TokenLaws.{TokensCoverTheirSource};
ghost use Rattle.mpy_lexer.specs.Spans.{IsLineOf, LinesAreOfTheirSource};

use crate::NoMemory;
use crate::brackets::{Brackets, lesser};
use crate::forms::Form;
use crate::line::{LexCause, LexError, Line};
use crate::rows::{Row, rows};
use crate::token::Tokens;
use std::alloc::Global;

// The first line with a faulty byte, and the cause there.
#[tactic(auto, unfolding(crate::specs::Lexing::byte_fault))]
fn byte_fault(rows: &[Row]) -> Option<LexError>
    ensures { result ≡ byte_fault rows.now }
{
    for row in rows {
        if let Some(cause) = row.cause {
            let line = row.number;
            return Some(LexError::Fault { cause, line });
        }
    }
    None
}

// The lesser of the line and the row's, where something in the row is at fault.
fn with_row(line: Option<u32>, row: &Row, unmatched: bool) -> Option<u32>
    ensures { result
        ≡ (if row.now.is_wrong || unmatched then lesser line (Some row.now.number) else line) }
{
    if row.is_wrong || unmatched {
        lesser(line, row.number)
    } else {
        line
    }
}

// The least line with what is no token, or with a bracket that has no partner.
fn faulty_line(alloc: Global, rows: &[Row]) -> Result<Option<u32>, NoMemory>
    ensures { IfOk result (λ l. l ≡ least (faulty_lines [] rows.now)) }
{
    let mut opened = Brackets::new(alloc);
    let mut line = None;
    for row in rows {
        let unmatched = opened.pass(row.number, row.tokens.items())?;
        line = with_row(line, row, unmatched);
    }
    match opened.least_line() {
        None => Ok(line),
        Some(least) => Ok(lesser(line, least)),
    }
}

// Adds the tokens to the last line; where there is none, to nothing.
fn extend_last(lines: &mut Vec<Line>, more: Tokens) -> Result<(), NoMemory>
    ensures { OnOk result (lines.new.items ≡ with_more lines.old.items more) }
{
    let Some(mut line) = lines.pop() else {
        return Ok(());
    };
    line.tokens.append(more)?;
    lines.push(line)?;
    Ok(())
}

// Joins the physical lines over which a bracket is open.
fn logical_lines(alloc: Global, rows: Vec<Row>) -> Result<Vec<Line>, NoMemory>
    ensures { IfOk result (λ v. v.items ≡ logical_lines [] rows.items) }
{
    let mut opened = Brackets::new(alloc);
    let mut lines = Vec::new(alloc);
    for row in rows {
        let is_new = opened.is_empty();
        opened.pass(row.number, row.tokens.items())?;
        if !is_new {
            extend_last(&mut lines, row.tokens)?;
        } else if row.tokens.len() > 0 {
            lines.push(Line {
                line: row.number,
                column: row.column,
                tokens: row.tokens,
            })?;
        }
    }
    Ok(lines)
}

const MOST_TOKENS: usize = 400;

// The first logical line that is too long.
#[tactic(auto, unfolding(crate::specs::Lexing::length_fault))]
fn length_fault(lines: &[Line]) -> Option<LexError>
    ensures { result ≡ length_fault lines.now }
{
    for line in lines {
        if line.tokens.len() > MOST_TOKENS {
            return Some(LexError::Fault {
                cause: LexCause::LongLine,
                line: line.line,
            });
        }
    }
    None
}

/// The logical lines of a program or of rules, or the first cause for which there are none, in this
/// order: `Byte` and `Tab` at the earliest byte, `Token` on the least line, `LongLine` on the least
/// line.
pub fn lines(alloc: Global, bytes: &[u8], form: Form) -> Result<Vec<Line>, LexError>
    requires { length bytes.now ≤ 1073741824 }
    ensures lines { IfOk result (λ v. lex form bytes.now ≡ Ok v.items) }
    ensures spans { IfOk result (λ v. All (IsLineOf form bytes.now) v.items) }
    ensures fault { IfErr result (λ e. IsAnswered form bytes.now e) }
{
    let rows = rows(alloc, bytes, form)?;
    if let Some(fault) = byte_fault(rows.as_slice()) {
        return Err(fault);
    }
    if let Some(line) = faulty_line(alloc, rows.as_slice())? {
        let cause = LexCause::Token;
        return Err(LexError::Fault { cause, line });
    }
    let lines = logical_lines(alloc, rows)?;
    match length_fault(lines.as_slice()) {
        Some(fault) => Err(fault),
        None => Ok(lines),
    }
}

/// The logical lines of a text are of it, and each of their tokens has the form of its kind.
pub fn lines_of_their_source()
    ensures holds { LinesAreOfTheirSource }
{}

/// The tokens of a text that has logical lines cover it: with white space and comments between them
/// they are the whole text, in order, and each is the longest form at its place.
pub fn tokens_cover_their_source()
    ensures holds { TokensCoverTheirSource }
{}
