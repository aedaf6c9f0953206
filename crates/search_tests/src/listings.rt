//! All least corrections of a submission.

use crate::both_searches::read;
use grade_top::Status;
use input_space::Task;
use least_all::{Best, count_live, list_best};
use std::alloc::Global;
use std::test::Fail;
use test_requests::{Texts, answered, shelf_of, words};

/// A submission that lacks one, on one input.
const LESS: Texts<'static> = Texts {
    bounds: "width 6\nturns 4\ndepth 2\ncap 4\nentry f\nparam x int 4..4\n",
    reference: "def f(x):\n    return x + 1\n",
    submission: "def f(x):\n    return x\n",
    rules: "rule ret: return $a => return {$a + 1, 1 + $a}\n",
};

/// The status of `all` with so many corrections, and what is written.
fn listed(alloc: Global, texts: Texts<'_>, most: &str) -> Result<(Status, String), Fail> {
    let all = [
        "all",
        "b.txt",
        "ref.py",
        "sub.py",
        "rules.eml",
        most,
        "200000",
    ];
    let words = words(alloc, all.as_slice())?;
    let mut shelf = shelf_of(alloc, texts, Vec::new(alloc))?;
    answered(alloc, &words, &mut shelf)
}

/// Each row: a request, how many corrections are asked for, the status, and what is written. The
/// fourth row makes one program in two ways, and in the last the submission is right.
#[test]
fn corrections_are_listed(rt: HostRuntime) -> Result<(), Fail> {
    let alloc = rt.alloc();
    let rows = [
        (
            LESS,
            "5",
            Status::Corrected,
            "cost 1\nfound 2, whole\ncorrection 1\nline 2 [ret, 1]: replace x by x + 1\nprogram\ndef f(x):\n    return x + 1\ncorrection 2\nline 2 [ret, 1]: replace x by 1 + x\nprogram\ndef f(x):\n    return 1 + x\n",
        ),
        (
            LESS,
            "1",
            Status::Corrected,
            "cost 1\nfound 1, more\ncorrection 1\nline 2 [ret, 1]: replace x by x + 1\nprogram\ndef f(x):\n    return x + 1\n",
        ),
        (
            LESS,
            "2",
            Status::Corrected,
            "cost 1\nfound 2, whole\ncorrection 1\nline 2 [ret, 1]: replace x by x + 1\nprogram\ndef f(x):\n    return x + 1\ncorrection 2\nline 2 [ret, 1]: replace x by 1 + x\nprogram\ndef f(x):\n    return 1 + x\n",
        ),
        (
            Texts {
                rules: "rule one: return $a => return {$a + 1, $a - 1}\nrule two: return $a => return $a + 1\n",
                ..LESS
            },
            "5",
            Status::Corrected,
            "cost 1\nfound 1, whole\ncorrection 1\nline 2 [one, 1]: replace x by x + 1\nprogram\ndef f(x):\n    return x + 1\n",
        ),
        (
            Texts {
                rules: "rule less: return $a => return $a - 1\n",
                ..LESS
            },
            "5",
            Status::NoCorrection,
            "no correction\nfails f(4): gives 4, wanted 5\n",
        ),
        (
            Texts {
                submission: LESS.reference,
                ..LESS
            },
            "5",
            Status::Correct,
            "cost 0\nfound 1, whole\ncorrection 1\nprogram\ndef f(x):\n    return x + 1\n",
        ),
    ];
    for (texts, most, status, text) in rows {
        let (ended, written) = listed(alloc, texts, most)?;
        assert_eq!(rt; ended, status);
        assert_eq!(rt; written.as_str(), text);
    }
    Ok(())
}

/// Of twenty zeros ten are to be ones.
const ZEROS: Texts<'static> = Texts {
    bounds: "width 6\nturns 4\ndepth 2\ncap 4\nentry f\nparam x int 0..0\n",
    reference: "def f(x):\n    return 10\n",
    submission: "def f(x):\n    return 0 + 0 + 0 + 0 + 0 + 0 + 0 + 0 + 0 + 0 + 0 + 0 + 0 + 0 + 0 + 0 + 0 + 0 + 0 + 0\n",
    rules: "rule one: $n => 1\n",
};

fn zeros(alloc: Global) -> Result<Task, Fail> {
    match read(alloc, ZEROS) {
        Some(task) => Ok(task),
        None => Err("no task")?,
    }
}

/// There are 184,756 selections of cost 10, and 38,760 of cost 6.
#[test]
fn live_selections_are_counted(rt: HostRuntime) -> Result<(), Fail> {
    let alloc = rt.alloc();
    let task = zeros(alloc)?;
    let rows = [
        (0, 1),
        (1, 20),
        (2, 190),
        (6, 38_760),
        (10, 100_001),
        (20, 1),
        (21, 0),
    ];
    for (cost, count) in rows {
        assert_eq!(rt;
            count_live(alloc, task.tree(), cost)?,
            count,
            "of cost {cost}"
        );
    }
    Ok(())
}

#[test]
fn too_many_are_not_listed(rt: HostRuntime) -> Result<(), Fail> {
    let alloc = rt.alloc();
    let task = zeros(alloc)?;
    let best = list_best(alloc, &task, 10, 5, 200_000);
    assert!(rt; matches!(best, Best::Many));
    Ok(())
}
