//! Layouts of a submission.

use grade_top::Status;
use std::test::Fail;
use test_requests::{DOUBLE, Texts, graded};

/// Each submission with the report's line of its edit and the corrected formula.
#[test]
fn layout_is_free(rt: HostRuntime) -> Result<(), Fail> {
    let alloc = rt.alloc();
    let rows = [
        (
            "# double\n\n\ndef f(x):  # of one number\n\n    # twice\n    return (x * 2)  # done\n\n",
            "line 7 [lit, 1]: replace 2 by 3\n",
            "x * 3\n",
        ),
        (
            "def f(x): return x * 2\n",
            "line 1 [lit, 1]: replace 2 by 3\n",
            "x * 3\n",
        ),
        (
            "def f(x):\n  return((2)*x)",
            "line 2 [lit, 1]: replace 2 by 3\n",
            "3 * x\n",
        ),
        (
            "def f(\n    x\n):\n    return (2 *\n        x)\n",
            "line 4 [lit, 1]: replace 2 by 3\n",
            "3 * x\n",
        ),
        (
            "def f(x):\r\n    return x*(x-2)\r\n",
            "line 2 [lit, 1]: replace 2 by 1\n",
            "x * (x - 1)\n",
        ),
    ];
    for (submission, edit, formula) in rows {
        let texts = Texts {
            submission,
            rules: "rule lit cost 1: $n => {1, 3}\n",
            ..DOUBLE
        };
        let (ended, written) = graded(alloc, texts)?;
        let wanted = format!(in alloc;
            "cost 1\nfails f(4): gives 8, wanted 12\n{edit}program\ndef f(x):\n    return {formula}"
        )?;
        assert_eq!(rt; ended, Status::Corrected);
        assert_eq!(rt; written, wanted);
    }
    Ok(())
}
