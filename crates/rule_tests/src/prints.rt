//! Rewritings of what is printed.

use crate::rewriting::bytes_of;
use crate::selections::{selection, told};
use choice_tree::{choices, edits};
use input_space::Task;
use mpy_tree::{Cause, Refusal, Source};
use std::alloc::Global;
use std::test::Fail;
use task_read::{TaskError, read_task};
use tree_weights::{lift, weight};

const BOUNDS: &str = "width 6\nturns 1\ndepth 1\ncap 4\nentry f\nparam x int 0..3\n";

/// A program that is graded against itself, by rules.
fn graded(alloc: Global, program: &'static str, rules: &'static str) -> Result<Task, TaskError> {
    let source = bytes_of(program);
    read_task(alloc, bytes_of(BOUNDS), source, source, bytes_of(rules))
}

/// A print in a block.
const NESTED: &str = "def f(x):\n    if True:\n        print(x)\n    return 1\n";

/// A rule for what is returned, which isn't tried at what is printed, and a rule without a place.
const RULES: &str = "rule zero: return $a => return 0\nrule more: x => x + 1\n";

#[test]
fn an_edit_in_a_print_has_its_line(rt: HostRuntime) -> Result<(), Fail> {
    let alloc = rt.alloc();
    let Ok(task) = graded(alloc, NESTED, RULES) else {
        return Err("no task")?;
    };
    assert_eq!(rt; choices(task.tree()), 4);
    let found = edits(alloc, task.tree(), &selection(alloc, &[(0, 1)])?)?;
    assert_eq!(rt; found.items.len(), 1);
    for edit in &found.items {
        assert!(rt; told(alloc, edit)?.as_str() == "0 3 1 x: x + 1");
    }
    Ok(())
}

/// Bodies with what they weigh. A print weighs as any statement: twice the bits of `x` and one
/// more, 14; and a name weighs 1, and a sum 48 with its operands.
const WEIGHED: [(&str, u64); 3] = [
    ("def f(x):\n    x = x\n    return x\n", 30),
    ("def f(x):\n    print(x)\n    return x\n", 30),
    ("def f(x):\n    print(x + 1)\n    return x\n", 79),
];

#[test]
fn a_print_weighs_as_any_statement(rt: HostRuntime) -> Result<(), Fail> {
    let alloc = rt.alloc();
    for (program, wanted) in &WEIGHED {
        let Ok(task) = graded(alloc, *program, "") else {
            return Err("no task")?;
        };
        let bounds = task.bounds();
        let tree = lift(alloc, task.submission())?;
        let found = weight(
            &tree,
            task.submission_types(),
            &bounds.limits,
            &bounds.entry,
        );
        assert_eq!(rt; found, *wanted, "of {program}");
    }
    Ok(())
}

/// A sum whose first operand is rewritten again in both of its members, 24 sums deep.
const LARGE: &str = "def f(x):\n    \
     print(x + 1 + 1 + 1 + 1 + 1 + 1 + 1 + 1 + 1 + 1 + 1 + 1 \
     + 1 + 1 + 1 + 1 + 1 + 1 + 1 + 1 + 1 + 1 + 1 + 1)\n    \
     return x\n";

#[test]
fn a_print_may_be_too_large(rt: HostRuntime) -> Result<(), Fail> {
    let answer = graded(rt.alloc(), LARGE, "rule r: $a + 1 => $a' - 1\n");
    let large = TaskError::Refused(Refusal {
        source: Source::Submission,
        cause: Cause::TooLarge,
        line: 1,
    });
    assert!(rt; answer.err() == Some(large));
    Ok(())
}
