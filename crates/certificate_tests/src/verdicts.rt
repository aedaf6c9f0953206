//! What is said of certificates.

use grade_top::Status;
use std::test::Fail;
use test_requests::{CHECK, NO_PARAMETER, ONE, RIGHT, Texts, ZERO, answered, shelf_of, words};

/// Certificates: the submission, the text, the status, and what is written. The reference returns
/// 1, and the rule writes 1 for 0.
const VERDICTS: [(&str, &str, Status, &str); 11] = [
    (
        ONE,
        RIGHT,
        Status::Correct,
        "accepted cost 0\nprogram\ndef f():\n    return 1\n",
    ),
    (
        ZERO,
        "mpycert 1\nclaim cost 1\nselection 0:1\ncase\nsession fail 0:1\nvars 1\nf 1 0\nf -1 0\nl 0 1 2 0\nsession low 0 1\nvars 2\nf 1 0\nf -1 0\nl 0 1 2 0\nend\n",
        Status::Correct,
        "accepted cost 1\nprogram\ndef f():\n    return 1\n",
    ),
    // Another formula is asked anew.
    (
        ONE,
        "mpycert 1\nclaim cost 0\nselection\ncase\nsession fail\nvars 1\nf 1 0\nf 1 0\nf -1 0\nl 0 1 3 0\nend\n",
        Status::Correct,
        "accepted cost 0\nasked anew 1\nprogram\ndef f():\n    return 1\n",
    ),
    (
        ZERO,
        "mpycert 1\nclaim cost 0\nselection\ncase\nsession fail\nvars 1\nf 1 0\nf -1 0\nl 0 1 2 0\nend\n",
        Status::Rejected,
        "rejected OtherFormula session 1 clause 2\n",
    ),
    (
        ONE,
        "mpycert 1\nclaim cost 0\nselection\ncase\nsession fail\nvars 1\nf 1 0\nf -1 0\nl 0 1 0\nend\n",
        Status::Rejected,
        "rejected BadStep session 1 step 1\n",
    ),
    (
        ONE,
        "mpycert 1\nclaim cost 0\nselection\ncase 1\nsession fail\nvars 1\nf 1 0\nf -1 0\nl 0 1 2 0\nend\n",
        Status::Rejected,
        "rejected WrongCase line 4\n",
    ),
    (
        ZERO,
        "mpycert 1\nclaim cost 2\nselection 0:1\ncase\nsession fail 0:1\nvars 1\nf 1 0\nf -1 0\nl 0 1 2 0\nend\n",
        Status::Rejected,
        "rejected WrongCost\n",
    ),
    // The cheaper question is missing; there is no case; a spent budget shows nothing.
    (
        ZERO,
        "mpycert 1\nclaim cost 1\nselection 0:1\ncase\nsession fail 0:1\nvars 1\nf 1 0\nf -1 0\nl 0 1 2 0\nend\n",
        Status::Rejected,
        "rejected WrongClaim\n",
    ),
    (
        ONE,
        "mpycert 1\nclaim cost 0\nselection\nsession fail\nvars 1\nf 1 0\nf -1 0\nl 0 1 2 0\nend\n",
        Status::Rejected,
        "rejected WrongClaim\n",
    ),
    (
        ONE,
        "mpycert 1\nclaim spent 1\nend\n",
        Status::Rejected,
        "rejected WrongClaim\n",
    ),
    (
        ONE,
        "mpycert 1\nclaim cost 0\nselection\ncase\n",
        Status::Rejected,
        "rejected CertSyntax line 5\n",
    ),
];

#[test]
fn certificates_are_judged(rt: HostRuntime) -> Result<(), Fail> {
    let alloc = rt.alloc();
    let words = words(alloc, CHECK.as_slice())?;
    for (submission, cert, status, written) in &VERDICTS {
        let texts = Texts {
            bounds: NO_PARAMETER,
            reference: ONE,
            submission: *submission,
            rules: "rule one: 0 => 1\n",
        };
        let mut shelf = shelf_of(alloc, texts, Vec::new(alloc))?;
        shelf.add("cert.txt", cert.as_bytes())?;
        let (ended, said) = answered(alloc, &words, &mut shelf)?;
        assert_eq!(rt; ended, *status, "{cert}");
        assert_eq!(rt; said.as_str(), *written);
    }
    Ok(())
}
