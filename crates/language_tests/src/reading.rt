//! Texts that are refused, by a separate model of the rules, and how far an expression reaches.

use crate::programs::read;
use mpy_expressions::{ExprError, read_expr};
use mpy_lexer::{Form, lines};
use mpy_tree::Cause;
use std::alloc::Global;
use std::test::Fail;

/// Texts that are refused, each with its cause and line.
const REFUSED: [(&str, Cause, u32); 37] = [
    ("def f(x):\n\treturn x\n", Cause::Tab, 2),
    ("def f(x):\n  return \x01\n", Cause::Byte, 2),
    ("def f(x):\n  return x / 2\n", Cause::Token, 2),
    ("def f(x):\n  return (x\n", Cause::Token, 2),
    (" def f(x): pass\n", Cause::Indent, 1),
    (
        "def f(x):\n    if x:\n        y = 1\n      z = 2\n",
        Cause::Indent,
        4,
    ),
    ("def f(x):\n  return 0 < x < 3\n", Cause::Syntax, 2),
    ("def f(x):\n  x + 1\n", Cause::Syntax, 2),
    ("def f(x):\n  x **= 2\n", Cause::Syntax, 2),
    ("def f(x):\n  x[0:1] = 2\n", Cause::Syntax, 2),
    ("def f(x,):\n  pass\n", Cause::Syntax, 1),
    ("def f(x):\n  if x: if x: pass\n", Cause::Syntax, 2),
    ("def f(x):\n  return x == not x\n", Cause::Syntax, 2),
    ("def f(x):\n  return 1 if x\n", Cause::Syntax, 2),
    ("def f(x):\n  x.add(1)\n", Cause::Syntax, 2),
    ("def f(x):\n  print()\n", Cause::Syntax, 2),
    ("def f(x):\n  print(1, 2)\n", Cause::Syntax, 2),
    ("def f(x):\n  print x\n", Cause::Syntax, 2),
    ("def f(x):\n  print(x).y\n", Cause::Syntax, 2),
    ("def f(x):\n  max(x)\n", Cause::Syntax, 2),
    ("def f(x):\n  prints(x)\n", Cause::Syntax, 2),
    ("print(1)\n", Cause::Block, 1),
    ("def f(x):\n", Cause::Block, 1),
    ("x = 1\n", Cause::Block, 1),
    ("def f(x):\n  x = 1\n    y = 2\n", Cause::Block, 3),
    ("def f(x):\n  if x:\n  y = 2\n", Cause::Block, 2),
    (
        "def f(x):\n  while x: pass\n  else: pass\n",
        Cause::Block,
        3,
    ),
    (
        "def f(x):\n  if x: pass\n  else: pass\n  elif x: pass\n",
        Cause::Block,
        4,
    ),
    ("def f(x):\n  def g(y): pass\n", Cause::Block, 2),
    ("def f(x):\n  if x: break\n", Cause::Block, 2),
    ("def f(x): continue\n", Cause::Block, 1),
    ("def f(a, b, c, d, e, f, g): pass\n", Cause::Limit, 1),
    (
        "def f(x):\n  y = 1\n  xxxxxxxxxxxxxxxxxxxxxxxxxxxxxxxxxxxxxxxxx = 1\n",
        Cause::Limit,
        3,
    ),
    (
        "def f(x):\n return - - - - - - - - - - - - - - - - - - - - - - - - - - - - - - - - x\n",
        Cause::Limit,
        2,
    ),
    (
        "def f(x):\n if x:\n  if x:\n   if x:\n    if x:\n     if x:\n      if x:\n       if x:\n        if x:\n         pass\n",
        Cause::Limit,
        10,
    ),
    (
        "def a(): pass\ndef b(): pass\ndef c(): pass\ndef d(): pass\ndef e(): pass\ndef f(): pass\ndef g(): pass\ndef h(): pass\ndef i(): pass\n",
        Cause::Limit,
        9,
    ),
    ("def f(x):\n  y = 1\n  @\n     z = 2\n", Cause::Token, 3),
];

#[test]
fn refusals(rt: HostRuntime) -> Result<(), Fail> {
    for (text, cause, line) in &REFUSED {
        let answer = read(rt.alloc(), *text)?;
        assert_eq!(rt; answer.err(), Some((*cause, *line)), "of {text:?}");
    }
    Ok(())
}

/// Where the longest expression of a line ends that begins at a place of its tokens.
fn end_of(alloc: Global, text: &str, from: usize) -> Result<Option<usize>, Fail> {
    if text.len() > 1000 {
        return Err("a long text")?;
    }
    let Ok(found) = lines(alloc, text.as_bytes(), Form::Program) else {
        return Err("a refusal")?;
    };
    let Some(line) = found.first() else {
        return Err("no line")?;
    };
    if from > line.tokens.len() {
        return Err("no such token")?;
    }
    match read_expr(alloc, &line.tokens, from) {
        Ok((_, end)) => Ok(Some(end)),
        Err(ExprError::NoExpr) => Ok(None),
        Err(ExprError::NoMemory) => Err("no memory")?,
    }
}

#[test]
fn longest(rt: HostRuntime) -> Result<(), Fail> {
    let alloc = rt.alloc();
    assert_eq!(rt; end_of(alloc, "x = a + b", 2)?, Some(5));
    assert_eq!(rt; end_of(alloc, "a if b", 0)?, Some(1));
    assert_eq!(rt; end_of(alloc, "f(x,) + 1", 0)?, Some(1));
    assert_eq!(rt; end_of(alloc, "a < b < c", 0)?, Some(3));
    assert_eq!(rt; end_of(alloc, "a[1:2][0].b", 0)?, Some(9));
    assert_eq!(rt; end_of(alloc, "* a", 0)?, None);
    assert_eq!(rt; end_of(alloc, "a", 1)?, None);
    Ok(())
}
