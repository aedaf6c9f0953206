//! Typing and sharing of programs that are entered at `f` with one number.

use crate::programs::program;
use mpy_share::unshared;
use mpy_tree::{Name, Signature, Ty, TypeError, Tys};
use mpy_types::check_types;
use std::alloc::Global;
use std::test::Fail;

/// Programs, each with how it is typed or refused.
const ROWS: [(&str, &str); 25] = [
    (
        "def f(x):\n    y = [x]\n    for a in y:\n        x += a\n    return g(x)\ndef g(z):\n    return z * 2\n",
        "6 facts",
    ),
    ("def f(x):\n    return y\n", "Name 2"),
    (
        "def f(x):\n    y = 1\n    y.append(len(x, x))\n    z.append(1)\n    return x\n",
        "Arity 3",
    ),
    ("def f(x, y):\n    return x\n", "Entry 1"),
    ("def g(x):\n    return x\n", "Entry 1"),
    (
        "def f(x):\n    x *= 2\n    y = x\n    y = 'a'\n    return x\n",
        "Type 3 Int Text",
    ),
    (
        "def f(x):\n    for c in 'ab':\n        pass\n    c = [1]\n    return x\n",
        "Type 2 List Text",
    ),
    ("def f(x):\n    y *= 2\n    return x\n", "Undetermined 2"),
    ("def f(x):\n    return f(x)\n", "Undetermined 1"),
    (
        "def f(x):\n    y = 2 * [1]\n    z = x and x\n    return x\n",
        "Type 2",
    ),
    (
        "def f(x):\n    y = True\n    while y == x:\n        pass\n    return -y\n",
        "Type 3",
    ),
    (
        "def f(x):\n    v = [x]\n    w = v if x else []\n    return x\n",
        "Shared 3",
    ),
    (
        "def f(x):\n    v = [x]\n    for a in v:\n        if a:\n            v[0] += 1\n    return x\n",
        "Shared 5",
    ),
    (
        "def f(x):\n    return len(g([x]))\ndef g(v):\n    return v\n",
        "Shared 4",
    ),
    (
        "def f(x):\n    print('a')\n    print(g(x))\n    return x\ndef g(y):\n    return [y]\n",
        "4 facts",
    ),
    (
        "def f(x):\n    v = [x]\n    for a in v:\n        print(v if a else [])\n    return x\n",
        "4 facts",
    ),
    ("def f(x):\n    print = x\n    return print\n", "3 facts"),
    (
        "def f(x):\n    print(x)\n    print = 1\n    return print\n",
        "Name 2",
    ),
    ("def f(x):\n    print(print(x))\n    return x\n", "Name 2"),
    ("def f(x):\n    x = print(1)\n    return x\n", "Name 2"),
    (
        "def f(x):\n    x += 1\n    print(y)\n    return x\n",
        "Name 3",
    ),
    (
        "def f(x):\n    return x\ndef print(x):\n    return x\n",
        "Name 3",
    ),
    ("def f(x):\n    print(max(x))\n    return x\n", "Arity 2"),
    ("def f(x):\n    print(len(x))\n    return x\n", "Type 2"),
    ("def f(x):\n    print(x)\n", "Undetermined 1"),
];

fn name(ty: Ty) -> &'static str {
    match ty {
        Ty::Int => "Int",
        Ty::Bool => "Bool",
        Ty::List => "List",
        Ty::Text => "Text",
    }
}

// How a program is typed or refused.
fn answer(alloc: Global, text: &str) -> Result<String, Fail> {
    let p = program(alloc, text)?;
    let signature = Signature {
        entry: Name::from_vec(Vec::from_slice(alloc, b"f")?),
        params: Tys::from_vec(Vec::from_slice(alloc, &[Ty::Int])?),
        free_result: false,
    };
    match check_types(alloc, &p, &signature) {
        Ok(t) => match unshared(&p, &t) {
            Ok(()) => {
                let count = t.facts.items().len();
                Ok(format!(in alloc; "{count} facts")?)
            }
            Err(line) => Ok(format!(in alloc; "Shared {line}")?),
        },
        Err(TypeError::Fault { cause, line }) => {
            let cause = cause.name();
            Ok(format!(in alloc; "{cause} {line}")?)
        }
        Err(TypeError::Conflict { line, one, other }) => {
            let first = name(one);
            let second = name(other);
            Ok(format!(in alloc; "Type {line} {first} {second}")?)
        }
        Err(TypeError::NoMemory) => Err("no memory")?,
    }
}

#[test]
fn programs_are_typed(rt: HostRuntime) -> Result<(), Fail> {
    let alloc = rt.alloc();
    for (text, wanted) in &ROWS {
        let got = answer(alloc, *text)?;
        assert_eq!(rt; got.as_str(), *wanted, "of {text}");
    }
    Ok(())
}
