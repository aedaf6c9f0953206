//! Each level of the grammar, printed and read.

use crate::programs::{printed, program};
use mpy_round_trip::print_and_read;
use mpy_tree::same;
use std::alloc::Global;
use std::test::Fail;

/// An expression of each level.
const PARTS: [&str; 11] = [
    "a if b else c",
    "a or b",
    "a and b",
    "not a",
    "a < b",
    "a + b",
    "a * b",
    "-a",
    "a ** b",
    "a[b]",
    "a",
];

/// What stands before a part, the level that is asked of it, and what follows.
type Place = (&'static str, usize, &'static str);

/// The places of parts that are no operands of an operator between two.
const PLACES: [Place; 14] = [
    ("", 1, " if b else c"),
    ("a if ", 1, " else c"),
    ("a if b else ", 0, ""),
    ("not ", 3, ""),
    ("-", 7, ""),
    ("", 9, "[b]"),
    ("", 9, "[b:c]"),
    ("a[", 0, "]"),
    ("a[", 0, ":]"),
    ("a[:", 0, "]"),
    ("f(", 0, ")"),
    ("f(a, ", 0, ")"),
    ("[", 0, "]"),
    ("[a, ", 0, ", b]"),
];

// The places of both operands of operators, each written between the levels that it asks of them.
macro_rules! operands {
    ($($left:literal $operator:literal $right:literal),*) => {
        [$(("", $left, concat!(" ", $operator, " b")), (concat!("a ", $operator, " "), $right, "")),*]
    };
}

/// The text of a function that returns an expression, printed anew; it is read again as the same
/// program.
fn returned(alloc: Global, expression: &str) -> Result<String, Fail> {
    let text = format!(in alloc; "def f():\n    return {expression}\n")?;
    let first = program(alloc, text.as_str())?;
    let Ok(again) = print_and_read(alloc, &first) else {
        return Err("a refusal of the printed text")?;
    };
    if !same(&first, &again) {
        return Err("another program")?;
    }
    printed(alloc, &first)
}

/// Whether each part in the place stands in parentheses exactly where its level is below the one
/// asked for.
fn is_closed_where_needed(alloc: Global, place: Place) -> Result<bool, Fail> {
    let (before, asked, behind) = place;
    for (level, part) in PARTS.iter().enumerate() {
        let closed = format!(in alloc; "{before}({part}){behind}")?;
        let bare = format!(in alloc; "{before}{part}{behind}")?;
        let needed = if level < asked { &closed } else { &bare };
        let wanted = format!(in alloc; "def f():\n    return {needed}\n")?;
        if returned(alloc, closed.as_str())? != wanted {
            return Ok(false);
        }
    }
    Ok(true)
}

/// The first of the places where it isn't so.
fn first_wrong(alloc: Global, places: &[Place]) -> Result<Option<Place>, Fail> {
    for place in places {
        if !is_closed_where_needed(alloc, *place)? {
            return Ok(Some(*place));
        }
    }
    Ok(None)
}

#[test]
fn levels(rt: HostRuntime) -> Result<(), Fail> {
    let operands: [Place; 32] = operands!(
        1 "or" 2, 2 "and" 3, 5 "==" 5, 5 "!=" 5, 5 "<" 5, 5 "<=" 5, 5 ">" 5, 5 ">=" 5, 5 "in" 5, 5 "not in" 5,
        5 "+" 6, 5 "-" 6, 6 "*" 7, 6 "//" 7, 6 "%" 7, 9 "**" 7
    );
    assert_eq!(rt; first_wrong(rt.alloc(), operands.as_slice())?, None);
    assert_eq!(rt; first_wrong(rt.alloc(), PLACES.as_slice())?, None);
    Ok(())
}
