//! Programs that are refused.

use grade_top::Status;
use std::alloc::{AllocError, Global};
use std::test::Fail;
use test_requests::{DOUBLE, Texts, graded};

/// A function that returns so many times the part, and then 0.
fn long_text(alloc: Global, part: &str, times: usize) -> Result<String, AllocError> {
    let mut text = String::from_str(alloc, "def f(x):\n    return ")?;
    for _ in 0..times {
        text.push_str(part)?;
    }
    text.push_str("0\n")?;
    Ok(text)
}

/// Texts that are refused, each with the line and the cause.
const REFUSED: [(&str, u32, &str); 31] = [
    ("def f(x):\n    return x \u{7}\n", 2, "Byte"),
    ("# fine\ndef f(x):\n\treturn x\n", 3, "Tab"),
    ("def f(x):\n    return x / 2\n", 2, "Token"),
    ("def f(x):\n    return 2147483648\n", 2, "Token"),
    ("def f(x):\n    return 01\n", 2, "Token"),
    ("def f(x):\n    return 1\n  return 2\n", 3, "Indent"),
    ("def f(x):\n    return 0 < x < 3\n", 2, "Syntax"),
    ("def f(if):\n    return 1\n", 1, "Syntax"),
    ("\n\ndef f(x):\nreturn x\n", 3, "Block"),
    ("def f(x):\n    if x:\n", 2, "Block"),
    ("def f(x):\n    return y\n", 2, "Name"),
    ("def f(x):\n    return g(x)\n", 2, "Name"),
    (
        "def f(x):\n    return x\ndef f(x):\n    return x\n",
        3,
        "Name",
    ),
    ("def len(x):\n    return x\n", 1, "Name"),
    ("def f(x):\n    y = print(x)\n    return x\n", 2, "Name"),
    (
        "def f(x):\n    print = x\n    print(x)\n    return x\n",
        3,
        "Name",
    ),
    ("def f(x):\n    print(x, x)\n    return x\n", 2, "Syntax"),
    ("def f(x):\n    return len(x, x)\n", 2, "Arity"),
    ("", 1, "Entry"),
    ("\ndef g(x):\n    return x\n", 1, "Entry"),
    ("\ndef f(x, y):\n    return x\n", 2, "Entry"),
    ("def f(x):\n    return len(1)\n", 2, "Type"),
    ("def f(x):\n    return x + True\n", 1, "Type"),
    (
        "def f(x):\n    y = x\n    y = 'a'\n    return x\n",
        2,
        "Type",
    ),
    (
        "def f(x):\n    return g(x)\ndef g(y):\n    return g(y)\n",
        1,
        "Undetermined",
    ),
    (
        "def f(x):\n    return x\ndef g(y):\n    return 1\n",
        3,
        "Undetermined",
    ),
    ("def f(x):\n    return\n", 1, "Undetermined"),
    (
        "def f(x):\n    v = [x]\n    w = v\n    return w[0]\n",
        3,
        "Shared",
    ),
    (
        "def f(x):\n    return g([x])\ndef g(v):\n    v.append(1)\n    return len(v)\n",
        4,
        "Shared",
    ),
    (
        "def f(x):\n    return g([x])[0]\ndef g(v):\n    return v\n",
        4,
        "Shared",
    ),
    (
        "def f(x):\n    v = [x]\n    for y in v:\n        v[0] = y\n    return x\n",
        4,
        "Shared",
    ),
];

/// Whether the text is refused so, as the reference and as the submission.
fn is_refused(alloc: Global, text: &str, line: u32, cause: &str) -> Result<bool, Fail> {
    let as_reference = Texts {
        reference: text,
        ..DOUBLE
    };
    let as_submission = Texts {
        submission: text,
        ..DOUBLE
    };
    Ok(
        is_written(alloc, as_reference, "ref.py", line, cause)?
            && is_written(alloc, as_submission, "sub.py", line, cause)?,
    )
}

/// Whether the refusal of this file is written.
fn is_written(
    alloc: Global,
    texts: Texts<'_>,
    name: &str,
    line: u32,
    cause: &str,
) -> Result<bool, Fail> {
    let wanted = format!(in alloc; "refused {name} line {line}: {cause}\n")?;
    let (ended, written) = graded(alloc, texts)?;
    Ok(ended == Status::Refused && written == wanted)
}

#[test]
fn programs_are_refused(rt: HostRuntime) -> Result<(), Fail> {
    for (text, line, cause) in &REFUSED {
        assert!(rt; is_refused(rt.alloc(), *text, *line, *cause)?, "{text:?}");
    }
    Ok(())
}

#[test]
fn large_programs_are_refused(rt: HostRuntime) -> Result<(), Fail> {
    for times in [32, 200] {
        let text = long_text(rt.alloc(), "0 + ", times)?;
        assert!(rt;
            is_refused(rt.alloc(), text.as_str(), 2, "Limit")?,
            "{times} sums"
        );
    }
    Ok(())
}
