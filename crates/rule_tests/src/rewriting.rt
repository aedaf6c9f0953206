//! Rewritings of submissions by rules of which most resolutions have another type.

ghost use Rattle.std.specs.Prelude.{◌≤◌, length};

use choice_tree::choices;
use std::test::Fail;
use task_read::read_task;

/// A task whose submission has ten numbers, and one whose submission has ten lists.
const NUMBERS: (&str, &str) = (
    "width 6\nturns 1\ndepth 1\ncap 1\nentry f\nparam a int 0..1\n",
    "def f(a):\n    b = a\n    c = a\n    d = a\n    e = a\n    g = a\n    h = a\n    i = a\n    \
     j = a\n    k = a\n    return 1 + a\n",
);

const LISTS: (&str, &str) = (
    "width 6\nturns 1\ndepth 1\ncap 4\nentry f\nparam a list 0..1 of 0..1\n",
    "def f(a):\n    b = a[:]\n    c = a[:]\n    d = a[:]\n    e = a[:]\n    g = a[:]\n    h = a[:]\n    \
     i = a[:]\n    j = a[:]\n    k = a[:]\n    return a\n",
);

/// Rules for what is returned, and how many selections there are by each. The counts are those of a
/// separate model, but for the first rule, which has 100,000,001 resolutions: only 1 is a number.
const COUNTED: [((&str, &str), &str, u64); 7] = [
    (
        NUMBERS,
        "rule r: return $n + $a => return {[?$n, ?$n, ?$n, ?$n, ?$n, ?$n, ?$n, ?$n], 1}\n",
        2,
    ),
    (
        NUMBERS,
        "rule r: return $n + $a => return {?$n, [?$n, ?$n], ?$n + ?$n}\n",
        111,
    ),
    (
        NUMBERS,
        "rule r: return $n + $a => return min(?$n, max({?$a, []}, {?$n, True}))\n",
        1001,
    ),
    (
        NUMBERS,
        "rule r: return $n + $a => return {[?$n, ?$n], ?$n < ?$n}\n",
        1,
    ),
    (
        LISTS,
        "rule r: return $v => return ?$v {+, *} {?$v, 2}\n",
        111,
    ),
    (
        LISTS,
        "rule r: return $v => return {?$v[:], 1} {-, +} ?$v\n",
        101,
    ),
    (LISTS, "rule r: return $v => return ?$v {-, *} ?$v\n", 1),
];

/// The bytes of a text, if they are few.
pub(crate) fn bytes_of(text: &'static str) -> &'static [u8]
    ensures { length result.now ≤ 65536 }
{
    let bytes = text.as_bytes();
    if bytes.len() <= 65_536 { bytes } else { &[] }
}

#[test]
fn only_what_types_is_numbered(rt: HostRuntime) -> Result<(), Fail> {
    for (task, rule, count) in &COUNTED {
        let bounds = bytes_of(task.0);
        let program = bytes_of(task.1);
        let Ok(task) = read_task(rt.alloc(), bounds, program, program, bytes_of(*rule)) else {
            return Err("no task")?;
        };
        assert_eq!(rt; choices(task.tree()), *count, "by {rule}");
    }
    Ok(())
}
