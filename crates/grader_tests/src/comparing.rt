//! Programs of every form, compared on all inputs.

use grade_top::Status;
use std::test::Fail;
use test_requests::{DOUBLE, Texts, graded};

// Bounds with these parameters.
macro_rules! bounds {
    ($params:literal) => {
        concat!("width 6\nturns 4\ndepth 4\ncap 4\nentry f\n", $params)
    };
}

/// Tasks whose submission is mended or isn't, and what is written.
const MENDED: [(&str, &str, &str, &str, &str); 4] = [
    (
        bounds!("param x int -5..5\n"),
        "def f(x):\n    return x + 2\n",
        "def f(x):\n    if x < 0:\n        return x + 2\n    return x + 1\n",
        "rule more: $n => $n + 1\nsay 'on line {line}, for {cost}: {new} and not {old}'\n",
        "cost 1\nfails f(0): gives 1, wanted 2\nline 4 [more, 1]: on line 4, for 1: 1 + 1 and not 1\nprogram\ndef f(x):\n    if x < 0:\n        return x + 2\n    return x + (1 + 1)\n",
    ),
    (
        bounds!("param v list 1..2 of 0..1\n"),
        "def f(v):\n    m = v[0]\n    for x in v:\n        if x > m:\n            m = x\n    return m\n",
        "def f(v):\n    m = v[0]\n    for x in v:\n        if x < m:\n            m = v[0]\n    return m\n",
        "rule side cost 2: $a0 < $a1 => $a0' {<=, >} $a1'\nrule start: $v = $a => $v = ?$a\n",
        "cost 3\nfails f([0, 1]): gives 0, wanted 1\nline 4 [side, 2]: replace x < m by x > m\nline 5 [start, 1]: replace v[0] by x\nprogram\ndef f(v):\n    m = v[0]\n    for x in v:\n        if x > m:\n            m = x\n    return m\n",
    ),
    (
        bounds!("param n int 0..3\n"),
        "def f(n):\n    return n\n",
        "def f(n):\n    return n + 1\n",
        "rule place: return $a + $n => return $a\n",
        "cost 1\nfails f(0): gives 1, wanted 0\nline 2 [place, 1]: replace n + 1 by n\nprogram\ndef f(n):\n    return n\n",
    ),
    (
        bounds!("param n int 0..3\n"),
        "def f(n):\n    return n * n\n",
        "def f(n):\n    return n + 1\n",
        "rule lit: $n => {0, 2, 3}\n",
        "no correction\nfails f(0): gives 1, wanted 0\n",
    ),
];

#[test]
fn submissions_are_mended(rt: HostRuntime) -> Result<(), Fail> {
    for (bounds, reference, submission, rules, wanted) in &MENDED {
        let texts = Texts {
            bounds: *bounds,
            reference: *reference,
            submission: *submission,
            rules: *rules,
        };
        let (_, written) = graded(rt.alloc(), texts)?;
        assert_eq!(rt; written.as_str(), *wanted, "of {submission}");
    }
    Ok(())
}

/// Bounds with two programs that agree. The last have more than 12,000,000 inputs.
const AGREE: [(&str, &str, &str); 10] = [
    (
        bounds!("param v list 0..2 of -3..3\n"),
        "def f(v):\n    return v[0]\n",
        "def f(v):\n    return v[len(v) - len(v)]\n",
    ),
    (
        bounds!("param a list 0..2 of 0..1\n"),
        "def f(a):\n    return a + [1]\n",
        "def f(a):\n    b = a[:]\n    b.append(1)\n    return b\n",
    ),
    (
        bounds!("param x int -5..5\n"),
        "def f(x):\n    if x:\n        return 1\n    return 0\n",
        "def f(x):\n    if x: return 1\n    return 0  # \u{e9}\n",
    ),
    (
        bounds!("param s text 0..3 of 'ab'\n"),
        "def f(s):\n    t = ''\n    for c in s:\n        t = c + t\n    return s == t\n",
        "def f(s):\n    i = 0\n    while i < len(s) // 2:\n        if s[i] != s[-1 - i]:\n            return False\n        i += 1\n    return True\n",
    ),
    (
        bounds!("param p bool\nparam q bool\n"),
        "def f(p, q):\n    return p and not q\n",
        "def f(p, q):\n    return not q if p else False\n",
    ),
    (
        bounds!("param a int -5..5\nparam b int -5..5\n"),
        "def f(a, b):\n    return a // b\n",
        "def f(b, a):\n    if a == 0:\n        return 0\n    return (b - b % a) // a\n",
    ),
    (
        bounds!("param n int 0..3\n"),
        "def f(n):\n    t = 0\n    for i in range(n):\n        t += i\n    return t\n",
        "def f(n):\n    return 0 if n == 0 else f(n - 1) + n - 1\n",
    ),
    (
        bounds!(""),
        "def f():\n    return 2 + 2\n",
        "def f():\n    return 2 ** 2\n",
    ),
    (
        bounds!("param v list 0..3 of 0..2\nparam x int 0..2\n"),
        "def f(v, x):\n    return x in v\n",
        "def f(v, x):\n    for y in v:\n        if y == x:\n            return True\n    return False\n",
    ),
    (
        "width 6\nturns 4\ndepth 4\ncap 5\nentry f\nparam s text 0..5 of 'abcdefghijklmnopqrstuvwxyz'\n",
        "def f(s):\n    return s\n",
        "def f(s):\n    return s[:]\n",
    ),
];

#[test]
fn programs_agree(rt: HostRuntime) -> Result<(), Fail> {
    for (bounds, reference, submission) in &AGREE {
        let texts = Texts {
            bounds: *bounds,
            reference: *reference,
            submission: *submission,
            ..DOUBLE
        };
        let (ended, written) = graded(rt.alloc(), texts)?;
        assert_eq!(rt; ended, Status::Correct, "of {submission}");
        assert_eq!(rt; written.as_str(), "correct\n");
    }
    Ok(())
}

/// Bounds with two programs that differ on one input, and what is written of it.
const DIFFER: [(&str, &str, &str, &str); 6] = [
    (
        bounds!("param v list 0..2 of 1..1\n"),
        "def f(v):\n    d = []\n    for i in range(1, len(v)):\n        d.append(i * v[i])\n    if len(d) == 0:\n        return [0]\n    return d\n",
        "def f(v):\n    d = []\n    for i in range(0, len(v)):\n        d.append(i * v[i])\n    if len(d) == 0:\n        return [0]\n    return d\n",
        "fails f([1, 1]): gives [0, 1], wanted [1]\n",
    ),
    (
        bounds!("param s text 0..2 of 'ab'\n"),
        "def f(s):\n    return s\n",
        "def f(s):\n    return 'b' if s == 'ba' else s\n",
        "fails f('ba'): gives 'b', wanted 'ba'\n",
    ),
    (
        bounds!("param p bool\nparam q bool\n"),
        "def f(p, q):\n    return p or q\n",
        "def f(p, q):\n    return True\n",
        "fails f(False, False): gives True, wanted False\n",
    ),
    (
        bounds!("param a int 0..3\nparam b int 0..3\n"),
        "def f(a, b):\n    return b if a == 2 and b == 3 else 0\n",
        "def f(b, a):\n    return 0\n",
        "fails f(2, 3): gives 0, wanted 3\n",
    ),
    (
        bounds!(""),
        "def f():\n    return 4\n",
        "def f():\n    return 5\n",
        "fails f(): gives 5, wanted 4\n",
    ),
    (
        bounds!("param v list 0..2 of 1..1\n"),
        "def f(v):\n    return v[0] if v else 0\n",
        "def f(v):\n    return v[0]\n",
        "fails f([]): gives fault Index, wanted 0\n",
    ),
];

#[test]
fn programs_differ(rt: HostRuntime) -> Result<(), Fail> {
    for (bounds, reference, submission, fails) in &DIFFER {
        let texts = Texts {
            bounds: *bounds,
            reference: *reference,
            submission: *submission,
            ..DOUBLE
        };
        let (ended, written) = graded(rt.alloc(), texts)?;
        let wanted = format!(in rt.alloc(); "no correction\n{fails}")?;
        assert_eq!(rt; ended, Status::NoCorrection, "of {submission}");
        assert_eq!(rt; written, wanted);
    }
    Ok(())
}

/// Tasks that are refused behind their programs: a task, its rules, and what is written.
const REFUSED: [(&str, &str, &str, &str, &str); 6] = [
    (
        bounds!("param x int -5..5\n"),
        "def f(x):\n    return x\n",
        "def g(x):\n    return x\n\ndef f(x):\n    return g(x) > 0\n",
        "",
        "refused sub.py line 4: ResultType\n",
    ),
    (
        bounds!("param x int -5..5\n"),
        "def f(x):\n    return x\n",
        "def f(x):\n    return x > 0\n",
        "# no rule\n",
        "refused sub.py line 1: ResultType\n",
    ),
    (
        bounds!("param x int 4..4\n"),
        "def f(x):\n    return y\n",
        "def f(x):\n    return 1\n",
        "rule lit: $n => $a\n",
        "refused ref.py line 2: Name\n",
    ),
    (
        "width 16\nturns 4\ndepth 4\ncap 4\nentry f\nparam x int 0..999\nparam y int 0..1000\n",
        "def f(x, y):\n    return 1 // 0\n",
        "\ndef f(x, y):\n    return 1\n",
        "",
        "refused ref.py line 1: EmptyReference\n",
    ),
    (
        bounds!("param x int -5..5\n"),
        "def g(x):\n    return 1 // x\n\ndef f(x):\n    return g(x - x)\n",
        "def f(x):\n    return x\n",
        "",
        "refused ref.py line 4: EmptyReference\n",
    ),
    (
        bounds!("param v list 0..0 of 1..1\n"),
        "def f(v):\n    return v[0]\n",
        "def f(v):\n    return 1\n",
        "",
        "refused ref.py line 1: EmptyReference\n",
    ),
];

#[test]
fn tasks_are_refused(rt: HostRuntime) -> Result<(), Fail> {
    for (bounds, reference, submission, rules, wanted) in &REFUSED {
        let texts = Texts {
            bounds: *bounds,
            reference: *reference,
            submission: *submission,
            rules: *rules,
        };
        let (ended, written) = graded(rt.alloc(), texts)?;
        assert_eq!(rt; ended, Status::Refused, "of {submission}");
        assert_eq!(rt; written.as_str(), *wanted, "of {submission}");
    }
    Ok(())
}
