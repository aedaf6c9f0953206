//! The lines for edits, with the messages of their rules.

use crate::rule_files::read;
use choice_tree::{Edit, Edits};
use feedback_text::rule_lines;
use mpy_tree::{ArithOp, Expr, Name};
use std::alloc::Global;
use std::test::Fail;

/// What rules say, with the messages for `{new}` replaced by `x + 1` on line 12 at cost 3.
const SAID: [(&str, &str); 14] = [
    ("Is the end reached?", "Is the end reached?"),
    ("{old} {new} {line} {cost}", "{new} x + 1 12 3"),
    ("{old}{new}", "{new}x + 1"),
    ("{new}{old}", "x + 1{new}"),
    ("{", "{"),
    ("}", "}"),
    ("{}", "{}"),
    ("{line", "{line"),
    ("line}", "line}"),
    ("{{line}}", "{12}"),
    ("{{old}}", "{{new}}"),
    ("{ol{cost}d}", "{ol3d}"),
    ("{line}line}", "12line}"),
    ("{Old} { new} {costs}", "{Old} { new} {costs}"),
];

fn name(alloc: Global, x: &[u8]) -> Result<Expr, Fail> {
    Ok(Expr::Name(Name::from_vec(Vec::from_slice(alloc, x)?)))
}

/// The replacement of the name `{new}` by `x + 1`.
fn replacement(alloc: Global, rule: u32) -> Result<Edit, Fail> {
    let x = Box::new(alloc, name(alloc, b"x")?)?;
    let one = Box::new(alloc, Expr::Int(1))?;
    Ok(Edit {
        pick: 0,
        line: 12,
        rule,
        old: name(alloc, b"{new}")?,
        new: Expr::Arith(ArithOp::Add, x, one),
    })
}

/// The lines of the replacement by these rules of a file.
fn lines(alloc: Global, file: &str, by: &[u32]) -> Result<Vec<u8>, Fail> {
    let Ok(rules) = read(alloc, file)? else {
        return Err("a refusal")?;
    };
    let mut items = Vec::new(alloc);
    for rule in by {
        items.push(replacement(alloc, *rule)?)?;
    }
    Ok(rule_lines(alloc, &rules, &Edits { items })?)
}

#[test]
fn holes_are_filled_once(rt: HostRuntime) -> Result<(), Fail> {
    let alloc = rt.alloc();
    for (said, message) in &SAID {
        let file = format!(in alloc; "rule near cost 3: $n => 1\nsay '{said}'\n")?;
        let wanted = format!(in alloc; "line 12 [near, 3]: {message}\n")?;
        let text = lines(alloc, file.as_str(), &[0])?;
        assert!(rt; text.as_slice() == wanted.as_bytes(), "of {said:?}");
    }
    Ok(())
}

const FILE: &str = "rule near cost 3: $n => 1\nrule if: $n => 2\nsay 'by {cost}'\n";

/// The lines of edits by the second rule and by the first, and by one that isn't there.
const LINES: &str = "line 12 [if, 1]: by 1\nline 12 [near, 3]: replace {new} by x + 1\n";

#[test]
fn lines_are_in_the_order_of_the_edits(rt: HostRuntime) -> Result<(), Fail> {
    let text = lines(rt.alloc(), FILE, &[1, 0, 2])?;
    assert!(rt; text.as_slice() == LINES.as_bytes());
    Ok(())
}
