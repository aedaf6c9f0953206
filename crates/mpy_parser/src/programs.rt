//! Programs read from their text.
ghost use Rattle.std.specs.Prelude.{◌≡◌, ◌≤◌, ℕ, List, Ok, length, IfOk, IfErr};
ghost use Rattle.mpy_tree.specs.declared.refusal.Cause.{Cause as AnyCause};
ghost use Rattle.mpy_tree.specs.Syntax.{Routine};
ghost use Rattle.mpy_tree.specs.View.{routines_of};
ghost use Rattle.mpy_lexer.specs.declared.forms.Form.TheVariants as form;
ghost use Rattle.mpy_lexer.specs.Lexing.{lex};
ghost use Rattle.mpy_parser.specs.Programs.{IsProgram, IsRefused, IsAnswered, IsGiven, IsRefusal};
ghost use Rattle.mpy_parser.specs.Programs.{lexing_cause};

use crate::blocks::block_fault;
use crate::building::build;
use crate::columns::indent_fault;
use crate::entries::entries;
use crate::read_error::ReadError;
use mpy_lexer::{Form, LexCause, LexError, Line, lines};
use mpy_limits::limit_line;
use mpy_tree::{Cause, Prog};
use std::alloc::Global;

// A logical line that is too long passes a limit.
fn cause_of(cause: LexCause) -> Cause
    ensures { result ≡ lexing_cause cause }
{
    match cause {
        LexCause::Byte => Cause::Byte,
        LexCause::Tab => Cause::Tab,
        LexCause::Token => Cause::Token,
        LexCause::LongLine => Cause::Limit,
    }
}

fn logical_lines(alloc: Global, bytes: &[u8]) -> Result<Vec<Line>, ReadError>
    requires { length bytes.now ≤ 1073741824 }
    ensures ok { IfOk result (λ v. lex form.Program bytes.now ≡ Ok v.items) }
    ensures err { IfErr result (IsAnswered bytes.now) }
{
    match lines(alloc, bytes, Form::Program) {
        Ok(found) => Ok(found),
        Err(LexError::NoMemory) => Err(ReadError::NoMemory),
        Err(LexError::Fault { cause, line }) => Err(ReadError::Fault {
            cause: cause_of(cause),
            line,
        }),
    }
}

// One step after another, each over the whole text.
fn parse(alloc: Global, bytes: &[u8]) -> Result<Prog, ReadError>
    requires { length bytes.now ≤ 1073741824 }
    ensures read { IfOk result (λ p. IsProgram bytes.now (routines_of p)) }
    ensures refused { IfErr result (IsAnswered bytes.now) }
{
    let lines = logical_lines(alloc, bytes)?;
    if let Some(line) = indent_fault(alloc, &lines)? {
        let cause = Cause::Indent;
        return Err(ReadError::Fault { cause, line });
    }
    let entries = match entries(alloc, &lines)? {
        Ok(found) => found,
        Err(line) => {
            let cause = Cause::Syntax;
            return Err(ReadError::Fault { cause, line });
        }
    };
    if let Some(line) = block_fault(alloc, &entries)? {
        let cause = Cause::Block;
        return Err(ReadError::Fault { cause, line });
    }
    let program = build(alloc, entries)?;
    match limit_line(&program) {
        None => Ok(program),
        Some(line) => {
            let cause = Cause::Limit;
            Err(ReadError::Fault { cause, line })
        }
    }
}

/// Reads a program from its text, of at most 1,073,741,824 bytes.
///
/// The text is refused by the first cause that stands in it, each looked for in the whole text
/// before the next: `Byte`
/// and `Tab`, `Token`, `Limit` for a line of more than 400 tokens, `Indent`, `Syntax`, `Block`, and
/// `Limit` for what the
/// program has too much of. Takes time linear in the text.
pub fn read_prog(alloc: Global, bytes: &[u8]) -> Result<Prog, ReadError>
    requires { length bytes.now ≤ 1073741824 }
    ensures read { IfOk result (λ p. IsProgram bytes.now (routines_of p)) }
    ensures refused { IfErr result (IsAnswered bytes.now) }
    ensures program { (rs : List Routine) → IsProgram bytes.now rs → IsGiven rs result }
    ensures refusal { (c : AnyCause) (line : ℕ) → IsRefused bytes.now c line
        → IsRefusal c line result }
{
    parse(alloc, bytes)
}
