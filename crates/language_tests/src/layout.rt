//! Texts of programs in the standard layout.

use crate::programs::{printed, program};
use std::test::Fail;

/// A statement of each kind, in the standard layout.
const STANDARD: &str =
    "def f(x, v):\n    x = 1\n    x += 2\n    x -= 2\n    x *= 2\n    x //= 2\n    x %= 2\n    v[0] = x\n    v[x] -= 1\n    v.append(x)\n    print(x * 2)\n    for i in v:\n        while x:\n            if x:\n                break\n            elif y:\n                pass\n            elif z:\n                pass\n            else:\n                continue\n    if x:\n        return\n    return x\n\ndef g():\n    pass\n";

/// The same program in another layout.
const OTHER: &str =
    "\u{feff}# Two functions.\ndef f ( x,v ) :\n  x=1\n  x+=2\n  x -=2\n  x*= 2\n  x //= (2)\n  x%=2\n\n  v [ 0 ]=x\n  v[(x)] -= 1\n  v . append( x )\r\n  print (\n(x*2) )\n  for i in (v):\n   while x :\n      if((x)): break\n      elif y:\n         pass\n      elif z: pass # nothing\n      else :continue\n  if x:\n    return\n  return(\n    x)\ndef g( ):pass";

/// Texts of expressions, each with its text in the standard layout.
const LITERALS: [(&str, &str); 8] = [
    ("2147483647", "2147483647"),
    ("True", "True"),
    ("False", "False"),
    ("\"it's a \\\\\"", "'it\\'s a \\\\'"),
    ("'say \"no\"'", "'say \"no\"'"),
    ("[ ]", "[]"),
    ("f( )", "f()"),
    ("- - x", "--x"),
];

#[test]
fn programs_are_laid_out(rt: HostRuntime) -> Result<(), Fail> {
    for text in [STANDARD, OTHER] {
        let program = program(rt.alloc(), text)?;
        assert_eq!(rt; printed(rt.alloc(), &program)?.as_str(), STANDARD);
    }
    Ok(())
}

#[test]
fn literals_are_laid_out(rt: HostRuntime) -> Result<(), Fail> {
    let alloc = rt.alloc();
    for (text, wanted) in &LITERALS {
        let given = format!(in alloc; "def f():\n    return {text}\n")?;
        let wanted = format!(in alloc; "def f():\n    return {wanted}\n")?;
        let program = program(alloc, given.as_str())?;
        assert_eq!(rt; printed(alloc, &program)?, wanted);
    }
    Ok(())
}
