//! What is stored under the name of the certificate.

use grade_top::Status;
use std::test::Fail;
use test_requests::{
    NO_PARAMETER, ONE, REQUEST, RIGHT, Texts, ZERO, answered, graded_within, held, shelf_of, words,
};

/// Requests without a parameter: the reference, the submission, the rules and the budget, the
/// status, what is written, and all that `cert.txt` holds then. It held `old`.
const WHOLE: [(&str, &str, &str, &str, Status, &str, &str); 6] = [
    (ONE, ONE, "", "1", Status::Correct, "correct\n", RIGHT),
    (
        ONE,
        ZERO,
        "rule one: 0 => 1\n",
        "2",
        Status::Corrected,
        "cost 1\nfails f(): gives 0, wanted 1\nline 2 [one, 1]: replace 0 by 1\nprogram\ndef f():\n    return 1\n",
        "mpycert 1\nclaim cost 1\nselection 0:1\ncase\nsession fail 0:1\nvars 1\nf 1 0\nf -1 0\nl 0 1 2 0\nsession low 0 1\nvars 2\nf 1 0\nf -1 0\nl 0 1 2 0\nend\n",
    ),
    (
        ONE,
        ZERO,
        "rule one: 0 => 1\n",
        "1",
        Status::Spent,
        "budget spent 1\nat least cost 1\n",
        "mpycert 1\nclaim spent 1\ncase\nsession first\nvars 1\nf 1 0\nf 1 0\nsession low 0 1\nvars 2\nf 1 0\nf -1 0\nl 0 1 2 0\nsession low any 1\nvars 2\nf 1 0\nf 2 0\nsession fail 0:1\nvars 1\nf 1 0\nf -1 0\nend\n",
    ),
    (
        ONE,
        ZERO,
        "rule two: 0 => 2\n",
        "2",
        Status::NoCorrection,
        "no correction\nfails f(): gives 0, wanted 1\n",
        "mpycert 1\nclaim none\ncase\nsession low any 1\nvars 2\nf 1 0\nf -1 0\nl 0 1 2 0\nend\n",
    ),
    (
        "def f():\n    return 1 // 0\n",
        ZERO,
        "",
        "1",
        Status::Refused,
        "refused ref.py line 1: EmptyReference\n",
        "old",
    ),
    (
        ONE,
        "def f():\n    return x\n",
        "",
        "1",
        Status::Refused,
        "refused sub.py line 2: Name\n",
        "old",
    ),
];

#[test]
fn certificates_are_stored(rt: HostRuntime) -> Result<(), Fail> {
    for (reference, submission, rules, budget, status, written, cert) in &WHOLE {
        let texts = Texts {
            bounds: NO_PARAMETER,
            reference: *reference,
            submission: *submission,
            rules: *rules,
        };
        let graded = graded_within(rt.alloc(), texts, *budget)?;
        assert_eq!(rt; graded.status, *status, "of {submission} within {budget}");
        assert_eq!(rt; graded.written.as_str(), *written);
        assert_eq!(rt; graded.cert.as_str(), *cert);
    }
    Ok(())
}

/// Requests of one input, with the first lines of what `cert.txt` holds then.
const FIRST_LINES: [(Texts<'static>, &str); 2] = [
    (
        Texts {
            bounds: "width 6\nturns 4\ndepth 2\ncap 4\nentry f\nparam x int 4..4\n",
            reference: "def f(x):\n    return x + 2\n",
            submission: "def f(x):\n    return x\n",
            rules: "rule big cost 3: return $a => return $a + 2\nrule outer: return $a => return $a' + 1\nrule inner: x => x + 1\n",
        },
        "mpycert 1\nclaim cost 2\nselection 0:2 2:1\ncase 4\nsession fail 0:2 2:1\nvars ",
    ),
    (
        Texts {
            bounds: "width 3\nturns 1\ndepth 1\ncap 2\nentry f\nparam v list 2..2 of 1..1\nparam s text 1..1 of 'a'\nparam x int -2..-2\n",
            reference: "def f(v, s, x):\n    return x\n",
            submission: "def f(v, s, x):\n    return len(v)\n",
            rules: "rule other: v => v + []\n",
        },
        "mpycert 1\nclaim none\ncase [1, 1], 'a', -2\nsession low any 1\nvars ",
    ),
];

#[test]
fn certificates_name_choices_and_cases(rt: HostRuntime) -> Result<(), Fail> {
    for (texts, wanted) in &FIRST_LINES {
        let graded = graded_within(rt.alloc(), *texts, "200000")?;
        assert!(rt; graded.cert.starts_with(*wanted), "{wanted}");
    }
    Ok(())
}

/// The sources of a request, by their names.
const SOURCES: [(&str, &str); 4] = [
    ("b.txt", NO_PARAMETER),
    ("ref.py", ONE),
    ("sub.py", ONE),
    ("rules.eml", "# none\n"),
];

/// The certificate may have the name of a source, which was read by then. Other names keep what
/// they hold.
#[test]
fn a_certificate_replaces_a_source(rt: HostRuntime) -> Result<(), Fail> {
    let alloc = rt.alloc();
    let texts = Texts {
        bounds: NO_PARAMETER,
        reference: ONE,
        submission: ONE,
        rules: "# none\n",
    };
    for (name, _) in &SOURCES {
        let mut request = REQUEST;
        request[5] = *name;
        let words = words(alloc, request.as_slice())?;
        let mut shelf = shelf_of(alloc, texts, Vec::new(alloc))?;
        let (status, _) = answered(alloc, &words, &mut shelf)?;
        assert_eq!(rt; status, Status::Correct, "with {name} for the certificate");
        for (other, text) in &SOURCES {
            let now = held(alloc, &mut shelf, *other)?;
            let wanted = if *other == *name { RIGHT } else { *text };
            assert_eq!(rt; now.as_str(), wanted, "in {other} where {name} is replaced");
        }
    }
    Ok(())
}
