//! Copies and equality of programs, and lists of numbers, characters, values and names.

use crate::programs::program;
use mpy_tree::{
    ArithOp, Chars, Expr, Ints, Name, Names, Value, Values, copy_expr, copy_prog, same, same_expr,
};
use std::alloc::Global;
use std::test::Fail;

/// A statement and an expression of each kind.
const USUAL: &str =
    "def f(v):\n    x = [1, 'ab', x, -1, not 1, v[1:2], f(False), 1 + 2, 1 < 2, 1 and 2, 1 or 2, v[1], 1 if 2 else 3]\n    x += 1\n    v[0] = 1\n    v[0] -= 1\n    v.append(2)\n    print(5)\n    pass\n    while True:\n        if x:\n            break\n        else:\n            continue\n    for i in v:\n        pass\n    return\n    return 4\n";

/// Parts of that text, each with what may stand in its place so that it is another program.
const CHANGES: [(&str, &str); 16] = [
    ("[1,", "[2,"),
    ("'ab'", "'b'"),
    ("-1", "1"),
    ("1:2", "1:"),
    ("1 + 2", "1 - 2"),
    ("1 < 2", "1 <= 2"),
    ("1 and 2", "2 and 1"),
    ("1 if 2 else 3", "2 if 1 else 3"),
    ("(v)", "(w)"),
    ("x +=", "y +="),
    ("-= 1", "*= 1"),
    ("        else:\n            continue\n", ""),
    ("break", "pass"),
    ("print(5)", "print(6)"),
    ("print(5)", "v.append(5)"),
    ("return 4", "return"),
];

#[test]
fn copies_are_the_same(rt: HostRuntime) -> Result<(), Fail> {
    let alloc = rt.alloc();
    let first = program(alloc, USUAL)?;
    assert!(rt; same(&first, &copy_prog(alloc, &first)?));
    let moved = format!(in alloc; "\n# On other lines.\n{USUAL}")?;
    assert!(rt; same(&first, &program(alloc, moved.as_str())?));
    Ok(())
}

#[test]
fn each_difference_counts(rt: HostRuntime) -> Result<(), Fail> {
    let alloc = rt.alloc();
    let first = program(alloc, USUAL)?;
    for (part, instead) in &CHANGES {
        let text = USUAL.replacen(alloc, *part, *instead, 1)?;
        let other = program(alloc, text.as_str())?;
        assert!(rt; !same(&first, &other), "with {instead:?} for {part:?}");
        assert!(rt; !same(&other, &first), "with {part:?} for {instead:?}");
    }
    Ok(())
}

/// The sum of a number and `x`.
fn sum(alloc: Global, number: u32) -> Result<Expr, Fail> {
    let x = Expr::Name(Name::from_vec(Vec::from_slice(alloc, b"x")?));
    let parts = (Box::new(alloc, Expr::Int(number))?, Box::new(alloc, x)?);
    Ok(Expr::Arith(ArithOp::Add, parts.0, parts.1))
}

#[test]
fn expressions_are_copied(rt: HostRuntime) -> Result<(), Fail> {
    let one = sum(rt.alloc(), 1)?;
    assert!(rt; same_expr(&one, &copy_expr(rt.alloc(), &one)?));
    assert!(rt; !same_expr(&one, &sum(rt.alloc(), 2)?));
    Ok(())
}

fn ints(alloc: Global) -> Result<Ints, Fail> {
    Ok(Ints::from_vec(Vec::from_slice(alloc, &[1, 2])?))
}

fn chars(alloc: Global) -> Result<Chars, Fail> {
    Ok(Chars::from_vec(Vec::from_slice(alloc, b"ab")?))
}

#[test]
fn numbers_are_joined_and_cut(rt: HostRuntime) -> Result<(), Fail> {
    let thrice = ints(rt.alloc())?.repeat(rt.alloc(), 3)?;
    assert_eq!(rt; thrice.items(), [1, 2, 1, 2, 1, 2].as_slice());
    assert_eq!(rt; thrice.concat(rt.alloc(), &thrice)?.len(), 12);
    assert_eq!(rt; thrice.part(rt.alloc(), 1, 3)?.items(), [2, 1].as_slice());
    Ok(())
}

#[test]
fn characters_are_joined_and_cut(rt: HostRuntime) -> Result<(), Fail> {
    let twice = chars(rt.alloc())?.repeat(rt.alloc(), 2)?;
    assert_eq!(rt; twice.bytes(), b"abab".as_slice());
    assert_eq!(rt; twice.concat(rt.alloc(), &twice)?.len(), 8);
    assert_eq!(rt; twice.part(rt.alloc(), 1, 3)?.bytes(), b"ba".as_slice());
    assert_eq!(rt; twice.characters(rt.alloc())?.len(), 4);
    Ok(())
}

/// A value of each kind.
fn values(alloc: Global) -> Result<Values, Fail> {
    let list = Value::List(ints(alloc)?);
    let text = Value::Text(chars(alloc)?);
    let items = vec![in alloc; Value::Int(1), Value::Bool(true), list, text]?;
    Ok(Values::from_vec(items))
}

#[test]
fn values_are_copied(rt: HostRuntime) -> Result<(), Fail> {
    let copies = values(rt.alloc())?.copy()?;
    assert_eq!(rt; copies.items().len(), 4);
    Ok(())
}

#[test]
fn names_are_copied(rt: HostRuntime) -> Result<(), Fail> {
    let name = Name::from_vec(Vec::from_slice(rt.alloc(), b"x")?);
    let copies = Names::from_vec(vec![in rt.alloc(); name]?).copy()?;
    assert_eq!(rt; copies.items().len(), 1);
    Ok(())
}
