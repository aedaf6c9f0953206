//! Submissions that print: what is printed is evaluated and dropped.

use grade_top::Status;
use std::test::Fail;
use test_requests::{Texts, graded};

// Bounds with this parameter.
macro_rules! bounds {
    ($param:literal) => {
        concat!(
            "width 6\nturns 4\ndepth 2\ncap 4\nentry f\nparam x int ",
            $param,
            "\n"
        )
    };
}

const REFERENCE: &str = "def f(x):\n    return x + 1\n";

/// Bounds with a submission that gives what the reference gives.
const CORRECT: [(&str, &str); 3] = [
    (
        bounds!("-5..5"),
        "def f(x):\n    print(x)\n    return x + 1\n",
    ),
    (
        bounds!("0..2"),
        "def f(x):\n    return x + 1\n    print(1 // 0)\n",
    ),
    (
        bounds!("0..2"),
        "def f(x):\n    v = [x]\n    for i in range(x):\n        print(v)\n    while not v:\n        print('never')\n    print(v[0] == x)\n    v.append(1)\n    return v[0] + v[1]\n",
    ),
];

#[test]
fn prints_change_nothing(rt: HostRuntime) -> Result<(), Fail> {
    for (bounds, submission) in &CORRECT {
        let texts = Texts {
            bounds: *bounds,
            reference: REFERENCE,
            submission: *submission,
            rules: "",
        };
        let (ended, written) = graded(rt.alloc(), texts)?;
        assert_eq!(rt; ended, Status::Correct, "of {submission}");
        assert_eq!(rt; written.as_str(), "correct\n");
    }
    Ok(())
}

/// Bounds with a submission whose print has a fault on one input, and what is written of it.
const FAULTY: [(&str, &str, &str); 3] = [
    (
        bounds!("4..4"),
        "def f(x):\n    print(1 // 0)\n    return x + 1\n",
        "no correction\nfails f(4): gives fault Divisor, wanted 5\n",
    ),
    (
        bounds!("4..4"),
        "def f(x):\n    print(y)\n    y = x\n    return y + 1\n",
        "no correction\nfails f(4): gives fault Unset, wanted 5\n",
    ),
    (
        bounds!("0..2"),
        "def g(y):\n    print(2 // y)\n    return y\n\ndef f(x):\n    return g(x) + 1\n",
        "no correction\nfails f(0): gives fault Divisor, wanted 1\n",
    ),
];

#[test]
fn faults_of_prints_count(rt: HostRuntime) -> Result<(), Fail> {
    for (bounds, submission, wanted) in &FAULTY {
        let texts = Texts {
            bounds: *bounds,
            reference: REFERENCE,
            submission: *submission,
            rules: "",
        };
        let (ended, written) = graded(rt.alloc(), texts)?;
        assert_eq!(rt; ended, Status::NoCorrection, "of {submission}");
        assert_eq!(rt; written.as_str(), *wanted);
    }
    Ok(())
}

/// What is printed is rewritten on the line of its print.
#[test]
fn prints_are_mended(rt: HostRuntime) -> Result<(), Fail> {
    let texts = Texts {
        bounds: bounds!("0..2"),
        reference: REFERENCE,
        submission: "def f(x):\n    if x < 2:\n        print(2 // x)\n    return x + 1\n",
        rules: "rule safe: $n // $a => $n\n",
    };
    let (ended, written) = graded(rt.alloc(), texts)?;
    assert_eq!(rt; ended, Status::Corrected);
    assert_eq!(rt;
        written.as_str(),
        "cost 1\nfails f(0): gives fault Divisor, wanted 1\nline 3 [safe, 1]: replace 2 // x by 2\nprogram\ndef f(x):\n    if x < 2:\n        print(2)\n    return x + 1\n"
    );
    Ok(())
}
