//! What the grammar sees of one token of a side, whatever stands beside it.
ghost use Rattle.std.specs.Prelude.{◌≡◌, IfOk};
ghost use Rattle.mpy_expressions.specs.Terminals.{terminal_of};
ghost use Rattle.eml_sides.specs.Singles.{is_mark, is_right_alone, in_rules, other_single, single};

use crate::NoMemory;
use crate::metas::meta_terminal;
use choice_tree::Mark;
use mpy_expressions::{Terminal, Word, terminals_of};
use mpy_lexer::{Kind, Token};
use std::alloc::Global;
use std::slice;

/// Whether a token is a mark with these bytes.
pub(crate) fn is_mark(token: &Token, bytes: &[u8]) -> bool
    ensures { result ≡ is_mark bytes.now token.now }
{
    match token.kind {
        Kind::Mark => token.text.bytes() == bytes,
        _ => false,
    }
}

/// Whether a token stands in right sides alone: `{`, `}` or `?`.
pub(crate) fn is_right_alone(token: &Token) -> bool
    ensures { result ≡ is_right_alone token.now }
{
    is_mark(token, b"{") || is_mark(token, b"}") || is_mark(token, b"?")
}

// What the grammar sees of a token of a program.
fn in_rules(seen: Terminal<()>) -> Terminal<Mark>
    ensures { result ≡ in_rules seen }
{
    match seen {
        Terminal::Name(x) => Terminal::Name(x),
        Terminal::Number(n) => Terminal::Number(n),
        Terminal::Text(cs) => Terminal::Text(cs),
        Terminal::Word(w) => Terminal::Word(w),
        _ => Terminal::Other,
    }
}

fn plain(alloc: Global, token: &Token) -> Result<Terminal<Mark>, NoMemory>
    ensures { IfOk result (λ t. t ≡ in_rules (terminal_of token.now)) }
{
    let mut seen = terminals_of(alloc, slice::from_ref(token))?;
    match seen.pop() {
        None => Ok(Terminal::Other),
        Some(t) => Ok(in_rules(t)),
    }
}

// What the grammar sees of a token besides the braces.
fn other_single(alloc: Global, token: &Token) -> Result<Terminal<Mark>, NoMemory>
    ensures { IfOk result (λ t. t ≡ other_single token.now) }
{
    match token.kind {
        Kind::Meta => Ok(meta_terminal(token.text.bytes())),
        _ => plain(alloc, token),
    }
}

/// What the grammar sees of a token by itself.
pub(crate) fn single(alloc: Global, token: &Token) -> Result<Terminal<Mark>, NoMemory>
    ensures { IfOk result (λ t. t ≡ single token.now) }
{
    if is_mark(token, b"{") {
        return Ok(Terminal::Word(Word::LeftBrace));
    }
    if is_mark(token, b"}") {
        return Ok(Terminal::Word(Word::RightBrace));
    }
    other_single(alloc, token)
}
