//! What is in the physical lines of a source.
ghost use Rattle.std.specs.Prelude.{◌≡◌, ◌<◌, ◌≤◌, ◌+◌, ◌^◌, ◌++◌, ◌||◌, ◌&&◌, if◌then◌else◌, []};
ghost use Rattle.std.specs.Prelude.{false, length, OnOk, IfOk};
ghost use Rattle.mpy_lexer.specs.Pieces.{parts};
ghost use Rattle.mpy_lexer.specs.PhysicalLines.{byte_order_mark_len, is_foreign, is_solid};
ghost use Rattle.mpy_lexer.specs.PhysicalLines.{is_wrong, token_in, begins_with_tab, column_of};
ghost use Rattle.mpy_lexer.specs.PhysicalLines.{is_program, row_of, rows_of, rows};
ghost use Rattle.mpy_lexer.specs.Seen.{seen_behind, line_len};

use crate::NoMemory;
use crate::bytes::{is_blank, is_white};
use crate::foreign::is_foreign;
use crate::forms::Form;
use crate::line::LexCause;
use crate::pieces::{Sort, piece_at};
use crate::token::{Spelling, Token, Tokens};
use std::alloc::Global;

/// What is in a physical line.
#[derive(Drop)]
pub(crate) struct Row {
    /// Its number, counted from 1.
    pub(crate) number: u32,
    /// How many spaces stand in the white space at its front.
    pub(crate) column: u32,
    /// The cause at its earliest faulty byte.
    pub(crate) cause: Option<LexCause>,
    /// Whether something in it is no token.
    pub(crate) is_wrong: bool,
    pub(crate) tokens: Tokens,
}

/// What was seen in the front of a physical line.
#[derive(Drop)]
pub(crate) struct Seen {
    /// Whether there was something besides white space and comments.
    pub(crate) is_solid: bool,
    /// Whether there was a byte that may not stand there.
    pub(crate) is_foreign: bool,
    /// Whether there was something that is no token.
    pub(crate) is_wrong: bool,
    pub(crate) tokens: Tokens,
}

fn is_solid(sort: Sort) -> bool
    ensures { result ≡ is_solid sort }
{
    match sort {
        Sort::Space | Sort::Comment => false,
        Sort::Wrong | Sort::Token(_) => true,
    }
}

fn is_wrong(sort: Sort) -> bool
    ensures { result ≡ is_wrong sort }
{
    match sort {
        Sort::Wrong => true,
        Sort::Space | Sort::Comment | Sort::Token(_) => false,
    }
}

impl Seen {
    fn new(alloc: Global) -> Seen
        ensures solid { result.is_solid ≡ false }
        ensures foreign { result.is_foreign ≡ false }
        ensures wrong { result.is_wrong ≡ false }
        ensures tokens { result.tokens ≡ [] }
    {
        Seen {
            is_solid: false,
            is_foreign: false,
            is_wrong: false,
            tokens: Tokens::new(alloc),
        }
    }

    // Goes past a piece that begins at this place of the source.
    fn pass(&mut self, alloc: Global, sort: Sort, from: u32, bytes: &[u8]) -> Result<(), NoMemory>
        requires { from + length bytes.now < 2 ^ 32 }
        ensures { OnOk result (self.new ≡ seen_behind self.old sort from bytes.now) }
    {
        self.is_solid = self.is_solid || is_solid(sort);
        self.is_foreign = self.is_foreign || is_foreign(sort, bytes);
        self.is_wrong = self.is_wrong || is_wrong(sort);
        if let Sort::Token(kind) = sort {
            let text = Spelling::from_vec(Vec::from_slice(alloc, bytes)?);
            let to = from + bytes.len() as u32;
            self.tokens.push(Token {
                kind,
                from,
                to,
                text,
            })?;
        }
        Ok(())
    }
}

// Whether a tab stands in the white space at the front.
#[tactic(auto, unfolding(crate::specs::PhysicalLines::begins_with_tab))]
fn begins_with_tab(line: &[u8]) -> bool
    ensures { result ≡ begins_with_tab line.now }
{
    line.iter()
        .take_while(|b| is_blank(**b))
        .any(|b| *b == b'\t')
}

// How many spaces stand in the white space at the front.
#[tactic(auto, unfolding(crate::specs::PhysicalLines::column_of))]
fn column_of(line: &[u8]) -> u32
    requires { length line.now < 2 ^ 32 }
    ensures { result ≡ column_of line.now }
{
    line.iter()
        .take_while(|b| is_white(**b))
        .filter(|b| **b == b' ')
        .count() as u32
}

fn byte_cause(form: Form, line: &[u8], seen: &Seen) -> Option<LexCause>
    ensures { result
        ≡ (if is_program form && begins_with_tab line.now && seen.now.is_solid
        then Some LexCause.Tab else if seen.now.is_foreign then Some LexCause.Byte else None) }
{
    let has_tab = match form {
        Form::Program => begins_with_tab(line),
        Form::Rules => false,
    };
    if has_tab && seen.is_solid {
        Some(LexCause::Tab)
    } else if seen.is_foreign {
        Some(LexCause::Byte)
    } else {
        None
    }
}

// What is in a physical line that begins at this place of the source.
fn row_of(alloc: Global, form: Form, number: u32, from: u32, line: &[u8]) -> Result<Row, NoMemory>
    requires { from + length line.now < 2 ^ 32 }
    ensures { IfOk result (λ r. r ≡ row_of form number from line.now) }
{
    let mut seen = Seen::new(alloc);
    let mut at = 0;
    while at < line.len() {
        let piece = piece_at(form, &line[at..]);
        let end = at + piece.len;
        seen.pass(alloc, piece.sort, from + at as u32, &line[at..end])?;
        at = end;
    }
    Ok(Row {
        number,
        column: column_of(line),
        cause: byte_cause(form, line, &seen),
        is_wrong: seen.is_wrong,
        tokens: seen.tokens,
    })
}

// How long the first physical line of the text is, with the byte that ends it.
#[tactic(auto, unfolding(crate::specs::Seen::line_len))]
fn line_len(text: &[u8]) -> usize
    ensures same { result ≡ line_len text.now }
    ensures within { result ≤ length text.now }
{
    for (i, byte) in text.iter().enumerate() {
        if *byte == b'\n' {
            return i + 1;
        }
    }
    text.len()
}

const BYTE_ORDER_MARK: [u8; 3] = [0xEF, 0xBB, 0xBF];

// How many bytes are passed over at the front of a source.
#[tactic(auto, unfolding(crate::specs::PhysicalLines::byte_order_mark_len))]
fn byte_order_mark_len(bytes: &[u8]) -> usize
    ensures same { result ≡ byte_order_mark_len bytes.now }
    ensures within { result ≤ length bytes.now }
{
    if bytes.starts_with(&BYTE_ORDER_MARK) {
        3
    } else {
        0
    }
}

/// What is in each physical line of a source.
pub(crate) fn rows(alloc: Global, bytes: &[u8], form: Form) -> Result<Vec<Row>, NoMemory>
    requires { length bytes.now ≤ 1073741824 }
    ensures { IfOk result (λ v. v.items ≡ rows form bytes.now) }
{
    let mut at = byte_order_mark_len(bytes);
    let mut number = 1;
    let mut rows = Vec::new(alloc);
    while at < bytes.len() {
        let end = at + line_len(&bytes[at..]);
        rows.push(row_of(alloc, form, number, at as u32, &bytes[at..end])?)?;
        number += 1;
        at = end;
    }
    Ok(rows)
}
