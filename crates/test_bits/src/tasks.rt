//! Small tasks.

ghost use Rattle.std.specs.Prelude.{◌≤◌, length};

use input_space::Task;
use std::alloc::Global;
use task_read::{TaskError, read_task};

/// The four texts of a task.
#[derive(Clone, Copy)]
pub struct Texts {
    /// The text of the bounds.
    pub bounds: &'static str,
    /// The text of the reference.
    pub reference: &'static str,
    /// The text of the submission.
    pub submission: &'static str,
    /// The text of the rules.
    pub rules: &'static str,
}

/// A product; a `while` that may make too many turns; a `for` over a list with an `if`; a `for`
/// over a text; calls, one of them of itself; a `while` with `break` and `continue`; changed
/// elements and builtins; slices of a text in a choice of which one arm may have a fault; and a
/// `print` that has a fault for one input, or with another operator for none.
pub const TASKS: [Texts; 9] = [
    Texts {
        bounds: "width 5\nturns 1\ndepth 1\ncap 1\nentry square\nparam n int 3..4\n",
        reference: "def square(n):\n    return n * n\n",
        submission: "def square(n):\n    return 2 * n\n",
        rules: "rule small cost 1: $n => {0, 1, 2}\nrule name cost 2: $n => n\n",
    },
    Texts {
        bounds: "width 5\nturns 3\ndepth 1\ncap 1\nentry f\nparam x int 0..3\n",
        reference: "def f(x):\n    i = 0\n    while i < x:\n        i = i + 1\n    \
                    return i\n",
        submission: "def f(x):\n    i = 0\n    while i <= x:\n        i = i + 1\n    \
                     return i\n",
        rules: "rule less: $a0 <= $a1 => $a0 < $a1\nrule more: $n => $n + 1\n",
    },
    Texts {
        bounds: "width 4\nturns 2\ndepth 1\ncap 3\nentry f\nparam v list 0..2 of -1..1\n",
        reference: "def f(v):\n    w = []\n    for x in v:\n        \
                    if x > 0 and len(w) < 2 or x == -1:\n            w.append(x + 1)\n        \
                    elif x not in w:\n            w = w + [x]\n        \
                    else:\n            w = [x] * 2 + w\n    return w[1:]\n",
        submission: "def f(v):\n    w = []\n    for x in v:\n        \
                     if x > 0 and len(w) < 1 or x == -1:\n            w.append(x + 1)\n        \
                     elif x not in w:\n            w = w + [x]\n        \
                     else:\n            w = [x] * 2 + w\n    return w[1:]\n",
        rules: "rule less: len($a) < $n => len($a) < 2\n\
                rule whole: $a[1:] => $a[0:]\n",
    },
    Texts {
        bounds: "width 4\nturns 2\ndepth 1\ncap 3\nentry f\nparam s text 0..2 of 'ab'\n\
                 param c text 1..1 of 'bc'\n",
        reference: "def f(s, c):\n    n = 0\n    for d in s:\n        \
                    if d == c or c + s == 'cba':\n            n += 1\n        \
                    if not d in 'b' + c:\n            n -= 1\n    \
                    return n\n",
        submission: "def f(s, c):\n    n = 0\n    for d in s:\n        \
                     if d != c or s + c == 'cba':\n            n += 1\n        \
                     if not d in 'b' + c:\n            n -= 1\n    \
                     return n\n",
        rules: "rule same: $a0 != $a1 => $a0 == $a1\nrule turn: $v0 + $v1 => $v1 + $v0\n",
    },
    Texts {
        bounds: "width 4\nturns 1\ndepth 3\ncap 1\nentry gcd\nparam a int 0..3\n\
                 param b int 0..3\n",
        reference: "def rest(a, b):\n    return a % b\n\
                    def gcd(a, b):\n    if b == 0:\n        return a\n    \
                    return gcd(b, rest(a, b))\n",
        submission: "def rest(a, b):\n    return a % b\n\
                     def gcd(a, b):\n    if b == 1:\n        return a\n    \
                     return gcd(b, rest(a, b))\n",
        rules: "rule zero: $a == 1 => $a == 0\nrule quotient: $a0 % $a1 => $a0 // $a1\n",
    },
    Texts {
        bounds: "width 5\nturns 3\ndepth 1\ncap 1\nentry f\nparam n int -1..2\n\
                 param b bool\n",
        reference: "def f(n, b):\n    i = 0\n    while True:\n        i += 1\n        \
                    if i > n or b and i == 2:\n            break\n        \
                    if i == 1:\n            continue\n        n = n - 1 if b else n\n    \
                    return i ** 2\n",
        submission: "def f(n, b):\n    i = 0\n    while True:\n        i += 1\n        \
                     if i >= n or b and i == 2:\n            break\n        \
                     if i == 1:\n            continue\n        n = n - 1 if b else n\n    \
                     return i ** 2\n",
        rules: "rule more: $a0 >= $a1 => $a0 > $a1\nrule both: $a0 and $a1 => not $a0 and $a1\n",
    },
    Texts {
        bounds: "width 4\nturns 2\ndepth 1\ncap 2\nentry f\nparam v list 1..2 of -1..0\n\
                 param n int -2..0\n",
        reference: "def f(v, n):\n    for i in range(len(v) - 1, -1, n):\n        \
                    v[i] = max(v[i], abs(n))\n    v[-1] += min(v[0], n)\n    return v\n",
        submission: "def f(v, n):\n    for i in range(len(v) - 1, -1, n):\n        \
                     v[i] = max(v[i], n)\n    v[-1] += min(v[0], n)\n    return v\n",
        rules: "rule size: max($a, $v) => max($a, abs($v))\nrule first: $v[0] => $v[1]\n",
    },
    Texts {
        bounds: "width 5\nturns 1\ndepth 1\ncap 3\nentry f\nparam s text 0..2 of 'ab'\n\
                 param i int -1..2\n",
        reference: "def f(s, i):\n    return s[i:] + s[:i] \
                    if i < len(s) and s[i] == 'a' or i == 2 or s[i] == 'b' \
                    else s * i + s[0]\n",
        submission: "def f(s, i):\n    return s[i:] + s[:i] \
                     if i < len(s) and s[i] == 'c' or i == 2 or s[i] == 'b' \
                     else s * i + s[0]\n",
        rules: "rule a: 'c' => {'a', ''}\nrule turn: $a[$v:] => $a[1:$v]\n",
    },
    Texts {
        bounds: "width 6\nturns 1\ndepth 1\ncap 1\nentry f\nparam x int 0..3\n",
        reference: "def f(x):\n    return x + 1\n",
        submission: "def f(x):\n    print(6 // x)\n    return x + 1\n",
        rules: "rule safe: $n // $a => {$n, $n % $a}\n",
    },
];

/// The bytes of a text, if they are few.
pub fn bytes_of(text: &'static str) -> &'static [u8]
    ensures { length result.now ≤ 65536 }
{
    let bytes = text.as_bytes();
    if bytes.len() <= 65_536 { bytes } else { &[] }
}

/// The task that texts spell.
pub fn task_of(alloc: Global, texts: &Texts) -> Result<Task, TaskError> {
    read_task(
        alloc,
        bytes_of(texts.bounds),
        bytes_of(texts.reference),
        bytes_of(texts.submission),
        bytes_of(texts.rules),
    )
}
