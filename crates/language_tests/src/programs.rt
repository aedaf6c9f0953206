//! Programs from their texts.

use mpy_parser::{ReadError, read_prog};
use mpy_printer::print_prog;
use mpy_tree::{Cause, Prog};
use std::alloc::Global;
use std::test::Fail;

/// The program that a text spells, or the cause and the line for which it is refused.
pub(crate) fn read(alloc: Global, text: &str) -> Result<Result<Prog, (Cause, u32)>, Fail> {
    if text.len() > 65536 {
        return Err("a long text")?;
    }
    match read_prog(alloc, text.as_bytes()) {
        Ok(program) => Ok(Ok(program)),
        Err(ReadError::Fault { cause, line }) => Ok(Err((cause, line))),
        Err(ReadError::NoMemory) => Err("no memory")?,
    }
}

/// The program that a text spells.
pub(crate) fn program(alloc: Global, text: &str) -> Result<Prog, Fail> {
    match read(alloc, text)? {
        Ok(program) => Ok(program),
        Err(_) => Err("a refusal")?,
    }
}

/// The program's text in the standard layout.
pub(crate) fn printed(alloc: Global, program: &Prog) -> Result<String, Fail> {
    match String::from_utf8(print_prog(alloc, program)?) {
        Ok(text) => Ok(text),
        Err(_) => Err("no text")?,
    }
}
