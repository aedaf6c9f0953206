//! What requests are answered.

use grade_top::Status;
use std::test::Fail;
use test_requests::{DOUBLE, Texts, graded};

/// Each row: a request, its status, and what is written. The last has 16,777,216 selections.
#[test]
fn requests_are_answered(rt: HostRuntime) -> Result<(), Fail> {
    let rows = [
        (
            Texts {
                submission: DOUBLE.reference,
                ..DOUBLE
            },
            Status::Correct,
            "correct\n",
        ),
        (
            Texts {
                rules: "rule lit cost 1: $n => {1, 3}\n",
                ..DOUBLE
            },
            Status::Corrected,
            "cost 1\nfails f(4): gives 8, wanted 12\nline 2 [lit, 1]: replace 2 by 3\nprogram\ndef f(x):\n    return x * 3\n",
        ),
        (
            Texts {
                rules: "rule lit cost 1: $n => {1}\n",
                ..DOUBLE
            },
            Status::NoCorrection,
            "no correction\nfails f(4): gives 8, wanted 12\n",
        ),
        (
            Texts {
                reference: "# a\n\ndef f(x): return 99\n",
                ..DOUBLE
            },
            Status::Refused,
            "refused ref.py line 3: EmptyReference\n",
        ),
        (
            Texts {
                bounds: "width 6\nturns 4\ndepth 2\ncap 12\nentry f\nparam x int 4..4\n",
                reference: "def f(x):\n    return [1, 2, 2, 2, 2, 2, 2, 2, 2, 2, 2, 3]\n",
                submission: "def f(x):\n    return [2, 2, 2, 2, 2, 2, 2, 2, 2, 2, 2, 2]\n",
                rules: "rule a cost 1: $n => {1, 2, 3}\n",
            },
            Status::Corrected,
            "cost 2\nfails f(4): gives [2, 2, 2, 2, 2, 2, 2, 2, 2, 2, 2, 2], wanted [1, 2, 2, 2, 2, 2, 2, 2, 2, 2, 2, 3]\nline 2 [a, 1]: replace 2 by 1\nline 2 [a, 1]: replace 2 by 3\nprogram\ndef f(x):\n    return [1, 2, 2, 2, 2, 2, 2, 2, 2, 2, 2, 3]\n",
        ),
    ];
    for (texts, status, written) in rows {
        let (ended, text) = graded(rt.alloc(), texts)?;
        assert_eq!(rt; ended, status);
        assert_eq!(rt; text.as_str(), written);
    }
    Ok(())
}
