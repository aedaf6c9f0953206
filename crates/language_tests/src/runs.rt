//! What programs give, by Python's rules within the limits.

use crate::programs::program;
use mpy_interp::run;
use mpy_tree::{Facts, Ints, Limits, Name, Outcome, Prog, Types, Value, Values};
use std::alloc::Global;
use std::test::Fail;

const LIMITS: Limits = Limits {
    width: 6,
    turns: 4,
    depth: 2,
    cap: 4,
    prints: 0,
};

/// The same, where two printed values are kept.
const KEEPS_TWO: Limits = Limits {
    width: 6,
    turns: 4,
    depth: 2,
    cap: 4,
    prints: 2,
};

/// Expressions, each with what it gives where `x` is 3, `v` is `[1, 2]`, and `g` gives one more
/// than its argument.
const EXPRESSIONS: [(&str, &str); 64] = [
    ("5", "5"),
    ("True", "True"),
    ("'ab'", "'ab'"),
    ("x", "3"),
    ("y", "Unset 2"),
    ("[x, 1]", "[3, 1]"),
    ("-x", "-3"),
    ("31 + 1", "Overflow 2"),
    ("-31 - 1", "-32"),
    ("-32", "Overflow 2"),
    ("not x", "False"),
    ("not 'ab' * 0", "True"),
    ("10 - 3 - 2", "5"),
    ("2 + 3 * 4", "14"),
    ("-7 // 2", "-4"),
    ("7 // -2", "-4"),
    ("7 // 0", "Divisor 2"),
    ("(-31 - 1) // -1", "Overflow 2"),
    ("-7 % 2", "1"),
    ("7 % -2", "-1"),
    ("(-31 - 1) % -1", "0"),
    ("x ** 2", "9"),
    ("-x ** 2", "-9"),
    ("x ** 4", "Overflow 2"),
    ("0 ** 0", "1"),
    ("1 ** -1", "Power 2"),
    ("v + [x]", "[1, 2, 3]"),
    ("v * 2", "[1, 2, 1, 2]"),
    ("v * -1", "[]"),
    ("'ab' * 3", "Length 2"),
    ("x == 3", "True"),
    ("v != [1, 2]", "False"),
    ("x < 3", "False"),
    ("x <= 3", "True"),
    ("x > 2", "True"),
    ("x >= 4", "False"),
    ("2 in v", "True"),
    ("'' in 'ab'", "True"),
    ("'ba' not in 'abab'", "False"),
    ("x == 0 and y == 0", "False"),
    ("x == 3 or y == 0", "True"),
    ("x < len(v) and v[x] == 0", "False"),
    ("v[x] == 0 and x < len(v)", "Index 2"),
    ("5 if x else y", "5"),
    ("y if x < 3 else 7", "7"),
    ("v[-1]", "2"),
    ("v[2]", "Index 2"),
    ("v[-3]", "Index 2"),
    ("'ab'[1]", "'b'"),
    ("v[-3:9]", "[1, 2]"),
    ("v[2:1]", "[]"),
    ("v[1:]", "[2]"),
    ("v[:-1]", "[1]"),
    ("range(3)", "[0, 1, 2]"),
    ("range(3, 0, -2)", "[3, 1]"),
    ("range(5)", "Length 2"),
    ("range(1, 2, 0)", "Step 2"),
    ("len('ab')", "2"),
    ("abs(-x)", "3"),
    ("min(x, 5) + max(x, 5)", "8"),
    ("g(x)", "4"),
    ("g(g(x))", "5"),
    ("h(x)", "Depth 6"),
    ("g(31)", "Overflow 4"),
];

/// Bodies of statements, each with what it gives.
const BODIES: [(&str, &str); 15] = [
    (
        "v = [7, x]\n    v[0] = 4\n    v[1] *= 2\n    v.append(5)\n    n = 0\n    for k in v:\n        if k == 6:\n            continue\n        elif k == 5:\n            break\n        else:\n            pass\n        n += k\n    while n <= 9 + x:\n        n = n + x\n    return n",
        "13",
    ),
    ("return", "NoValue 2"),
    ("pass", "NoValue 1"),
    (
        "i = 0\n    while i < 4:\n        i = i + 1\n    return i",
        "4",
    ),
    (
        "i = 0\n    while i < 5:\n        i = i + 1\n    return i",
        "Turns 3",
    ),
    ("for i in 'ab':\n        pass\n    return i", "'b'"),
    ("for i in []:\n        pass\n    return i", "Unset 4"),
    (
        "w = v\n    w.append(3)\n    w.append(4)\n    w.append(5)\n    return v",
        "Length 5",
    ),
    ("v[2] += y\n    return v", "Index 2"),
    ("print(x)\n    return x", "3"),
    (
        "n = 0\n    for k in v:\n        print(g(k) + n)\n        n += k\n    print(v)\n    print('ab')\n    return n",
        "3",
    ),
    ("print(x)", "NoValue 1"),
    ("print(1 // 0)\n    return x", "Divisor 2"),
    ("print(v)\n    print(y)\n    y = 1\n    return y", "Unset 3"),
    ("print(h(x))\n    return x", "Depth 7"),
];

/// Bodies of statements, each with how it ends where two printed values are kept.
const KEEPING: [(&str, &str); 15] = [
    ("pass", "None printing nothing"),
    ("return", "None printing nothing"),
    ("return x", "3 printing nothing"),
    ("print(x)\n    print(x + 1)", "None printing 3, 4"),
    (
        "print(x)\n    print(x + 1)\n    return v",
        "[1, 2] printing 3, 4",
    ),
    (
        "print(v)\n    v[0] = 7\n    print(v)",
        "None printing [1, 2], [7, 2]",
    ),
    ("print('ab')\n    print(x == 3)", "None printing 'ab', True"),
    ("print(x)\n    print(x)\n    print(x)", "Length 4"),
    ("print(x)\n    print(x)\n    print(1 // 0)", "Divisor 4"),
    ("print(x)\n    print(x)\n    return 1 // 0", "Divisor 4"),
    (
        "for i in v:\n        print(i)\n        if i == 1:\n            continue\n        return",
        "None printing 1, 2",
    ),
    ("while x:\n        x -= 1\n        print(x)", "Length 4"),
    ("print(p(x))\n    return p(x)", "3 printing 3"),
    ("print(n(x))", "NoValue 7"),
    ("print(x)\n    return f(0, v) if x else 5", "5 printing 3"),
];

fn name(alloc: Global, text: &str) -> Result<Name, Fail> {
    Ok(Name::from_vec(Vec::from_slice(alloc, text.as_bytes())?))
}

/// `f` with a body, and two functions that it may call.
fn calling(alloc: Global, body: &str) -> Result<Prog, Fail> {
    let text = format!(in alloc;
        "def f(x, v):\n    {body}\ndef g(x):\n    return x + 1\ndef h(x):\n    return g(x)\n"
    )?;
    program(alloc, text.as_str())
}

/// How `f` ends on 3 and `[1, 2]` within these limits.
fn outcome(alloc: Global, program: &Prog, limits: &Limits) -> Result<Outcome, Fail> {
    let types = Types {
        facts: Facts::from_vec(Vec::new(alloc)),
    };
    let list = Ints::from_vec(Vec::from_slice(alloc, &[1, 2])?);
    let args = Values::from_vec(vec![in alloc; Value::Int(3), Value::List(list)]?);
    Ok(run(alloc, program, &types, limits, &name(alloc, "f")?, &args)?)
}

/// A value as Python writes it.
fn shown_value(alloc: Global, value: &Value) -> Result<String, Fail> {
    Ok(match value {
        Value::Int(number) => format!(in alloc; "{number}")?,
        Value::Bool(true) => format!(in alloc; "True")?,
        Value::Bool(false) => format!(in alloc; "False")?,
        Value::List(list) => format!(in alloc; "{:?}", list.items())?,
        Value::Text(text) => match String::from_utf8(Vec::from_slice(alloc, text.bytes())?) {
            Ok(text) => format!(in alloc; "'{text}'")?,
            Err(_) => Err("no text")?,
        },
    })
}

/// The value, or the fault with its line. Where printed values are kept they stand behind the
/// value.
fn shown(alloc: Global, outcome: &Outcome, kept: bool) -> Result<String, Fail> {
    let (value, printed) = match outcome {
        Outcome::Fault { kind, line } => return Ok(format!(in alloc; "{kind:?} {line}")?),
        Outcome::Done { value, printed } => (value, printed),
    };
    let mut text = match value {
        None => format!(in alloc; "None")?,
        Some(value) => shown_value(alloc, value)?,
    };
    if kept && printed.items().is_empty() {
        text = format!(in alloc; "{text} printing nothing")?;
    }
    for (i, value) in printed.items().iter().enumerate() {
        let joint = if i == 0 { " printing" } else { "," };
        let value = shown_value(alloc, value)?;
        text = format!(in alloc; "{text}{joint} {value}")?;
    }
    Ok(text)
}

#[test]
fn expressions_give_their_values(rt: HostRuntime) -> Result<(), Fail> {
    let alloc = rt.alloc();
    for (text, wanted) in &EXPRESSIONS {
        let body = format!(in alloc; "return {text}")?;
        let given = outcome(alloc, &calling(alloc, body.as_str())?, &LIMITS)?;
        assert_eq!(rt; shown(alloc, &given, false)?.as_str(), *wanted, "of {text}");
    }
    Ok(())
}

#[test]
fn statements_run_in_order(rt: HostRuntime) -> Result<(), Fail> {
    let alloc = rt.alloc();
    for (body, wanted) in &BODIES {
        let given = outcome(alloc, &calling(alloc, *body)?, &LIMITS)?;
        assert_eq!(rt; shown(alloc, &given, false)?.as_str(), *wanted, "of {body}");
    }
    Ok(())
}

#[test]
fn printed_values_are_kept(rt: HostRuntime) -> Result<(), Fail> {
    let alloc = rt.alloc();
    for (body, wanted) in &KEEPING {
        let text = format!(in alloc;
            "def f(x, v):\n    {body}\ndef p(x):\n    print(x)\n    return x\ndef n(x):\n    return\n"
        )?;
        let given = outcome(alloc, &program(alloc, text.as_str())?, &KEEPS_TWO)?;
        assert_eq!(rt; shown(alloc, &given, true)?.as_str(), *wanted, "of {body}");
    }
    Ok(())
}
