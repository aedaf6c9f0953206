//! The search by solver beside the one that tries all.

use cegis_loop::{Least, least};
use choice_tree::Selection;
use input_space::Task;
use list_questions::ListQuestions;
use std::alloc::Global;
use std::test::Fail;
use task_read::read_task;
use task_search::search;
use test_requests::Texts;

/// The task of these texts, if they are short and nothing refuses it.
pub(crate) fn read(alloc: Global, texts: Texts<'_>) -> Option<Task> {
    let bounds = texts.bounds.as_bytes();
    let reference = texts.reference.as_bytes();
    let submission = texts.submission.as_bytes();
    let rules = texts.rules.as_bytes();
    if bounds.len() > 1000 || reference.len() > 1000 {
        return None;
    }
    if submission.len() > 1000 || rules.len() > 1000 {
        return None;
    }
    read_task(alloc, bounds, reference, submission, rules).ok()
}

/// The cost of what was found, or why nothing was.
fn told(found: &Least<Selection>) -> Result<u32, &'static str> {
    match found {
        Least::Found { cost, .. } => Ok(*cost),
        Least::Nothing => Err("nothing"),
        Least::NoCase => Err("no case"),
        Least::Spent { .. } => Err("spent"),
        Least::NoMemory => Err("no memory"),
    }
}

const DERIVATIVE: Texts<'static> = Texts {
    bounds: "width 6\nturns 4\ndepth 1\ncap 4\nentry derivative\nparam v list 0..3 of -3..3\n",
    reference: "def derivative(v):\n    d = []\n    for i in range(1, len(v)):\n        d.append(i * v[i])\n    if len(d) == 0:\n        return [0]\n    return d\n",
    submission: "def derivative(v):\n    d = []\n    for i in range(0, len(v)):\n        d.append(i * v[i])\n    if len(d) == 5:\n        return [0]\n    return d\n",
    rules: "rule start: range($a0, $a1) => range($a0 + 1, $a1)\nrule zero: $a0 == $n => $a0 == 0\n",
};

/// Each row: a task, and the least cost of a correction, or that there is none.
#[test]
fn both_searches_agree(rt: HostRuntime) -> Result<(), Fail> {
    let alloc = rt.alloc();
    let rows: [(Texts<'_>, Result<u32, &str>); 4] = [
        (DERIVATIVE, Ok(2)),
        (
            Texts {
                submission: DERIVATIVE.reference,
                ..DERIVATIVE
            },
            Ok(0),
        ),
        (
            Texts {
                rules: "rule zero: $a0 == $n => $a0 == 0\n",
                ..DERIVATIVE
            },
            Err("nothing"),
        ),
        (
            Texts {
                reference: "def derivative(v):\n    return [1 // 0]\n",
                ..DERIVATIVE
            },
            Err("no case"),
        ),
    ];
    for (texts, wanted) in rows {
        let task = read(alloc, texts).ok_or("no task")?;
        let mut questions = ListQuestions::new(alloc, &task)?;
        let listed = least(&mut questions);
        let solved = search(alloc, &task, 200_000)?;
        assert!(rt; told(&listed) == wanted, "by trying all: {wanted:?}");
        assert!(rt; told(&solved.found) == wanted, "by solver: {wanted:?}");
    }
    Ok(())
}
