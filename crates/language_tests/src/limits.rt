//! Each limit of a program, at its boundary.

use crate::programs::{program, read};
use mpy_round_trip::print_and_read;
use mpy_tree::{Cause, same};
use std::alloc::Global;
use std::test::Fail;

/// What a program may have so many of.
#[derive(Clone, Copy, Debug, Drop)]
enum Counted {
    Tokens,
    Functions,
    Statements,
    Parameters,
    Depth,
    Nesting,
    NameBytes,
}

/// The limits, each with the line on which a text that has one more is refused.
const LIMITS: [(Counted, usize, u32); 7] = [
    (Counted::Tokens, 400, 2),
    (Counted::Functions, 8, 9),
    (Counted::Statements, 200, 202),
    (Counted::Parameters, 6, 1),
    (Counted::Depth, 32, 2),
    (Counted::Nesting, 8, 10),
    (Counted::NameBytes, 40, 2),
];

/// So many copies of a text, with another between each two.
fn joined(alloc: Global, part: &str, between: &str, count: usize) -> Result<String, Fail> {
    let mut text = String::new(alloc);
    for number in 0..count {
        if number > 0 {
            text.push_str(between)?;
        }
        text.push_str(part)?;
    }
    Ok(text)
}

/// A body of so many blocks, each in the one before.
fn nested(alloc: Global, count: usize) -> Result<String, Fail> {
    let mut text = String::new(alloc);
    for depth in 1..count {
        let column = joined(alloc, " ", "", depth)?;
        text.push_str(format!(in alloc; "{column}if x:\n")?.as_str())?;
    }
    let column = joined(alloc, " ", "", count)?;
    text.push_str(format!(in alloc; "{column}pass")?.as_str())?;
    Ok(text)
}

/// A program that has so many.
fn program_with(alloc: Global, what: Counted, count: usize) -> Result<String, Fail> {
    let text = match what {
        // `return`, brackets, and names with a comma between each two; a minus makes the count odd
        Counted::Tokens => {
            let minus = if count % 2 == 1 { "-" } else { "" };
            let names = joined(alloc, "x", ",", (count / 2).saturating_sub(1))?;
            format!(in alloc; "def f(x):\n return [{minus}{names}]\n")?
        }
        Counted::Functions => joined(alloc, "def f(x): pass", "\n", count)?,
        Counted::Statements => {
            let body = joined(alloc, " pass", "\n", count)?;
            format!(in alloc; "def f(x):\n{body}\n")?
        }
        Counted::Parameters => {
            let names = joined(alloc, "x", ", ", count)?;
            format!(in alloc; "def f({names}): pass\n")?
        }
        Counted::Depth => {
            let signs = joined(alloc, "-", "", count.saturating_sub(1))?;
            format!(in alloc; "def f(x):\n return {signs}x\n")?
        }
        Counted::Nesting => {
            let body = nested(alloc, count)?;
            format!(in alloc; "def f(x):\n{body}\n")?
        }
        Counted::NameBytes => {
            let name = joined(alloc, "n", "", count)?;
            format!(in alloc; "def f(x):\n {name} = 1\n")?
        }
    };
    Ok(text)
}

/// The refusal of a program that has so many.
fn refusal(alloc: Global, what: Counted, count: usize) -> Result<Option<(Cause, u32)>, Fail> {
    let text = program_with(alloc, what, count)?;
    Ok(read(alloc, text.as_str())?.err())
}

/// Whether a program that has so many is read again from its printed text.
fn is_read_again(alloc: Global, what: Counted, count: usize) -> Result<bool, Fail> {
    let text = program_with(alloc, what, count)?;
    let first = program(alloc, text.as_str())?;
    match print_and_read(alloc, &first) {
        Ok(again) => Ok(same(&first, &again)),
        Err(_) => Err("a refusal of the printed text")?,
    }
}

/// A program is read at each limit, and refused with one more.
#[test]
fn limits(rt: HostRuntime) -> Result<(), Fail> {
    for (what, most, line) in &LIMITS {
        assert!(rt;
            is_read_again(rt.alloc(), *what, *most)?,
            "with {most} of {what:?}"
        );
        assert_eq!(rt;
            refusal(rt.alloc(), *what, *most + 1)?,
            Some((Cause::Limit, *line))
        );
    }
    Ok(())
}

#[test]
fn largest_number(rt: HostRuntime) -> Result<(), Fail> {
    let text = "def f(x):\n return 2147483647\n";
    assert!(rt; read(rt.alloc(), text)?.is_ok());
    let text = "def f(x):\n return 2147483648\n";
    assert_eq!(rt; read(rt.alloc(), text)?.err(), Some((Cause::Token, 2)));
    Ok(())
}
