//! Certificates that were cut, and those with another word.

use grade_top::Status;
use std::alloc::Global;
use std::test::Fail;
use test_requests::{CHECK, Texts, answered, graded_within, shelf_of, words};

/// A derivative whose loop starts one too early, as `[1, 1]` shows alone.
const DERIVATIVE: Texts<'static> = Texts {
    bounds: "width 6\nturns 4\ndepth 1\ncap 4\nentry derivative\nparam v list 0..2 of 1..1\n",
    reference: "def derivative(v):\n    d = []\n    for i in range(1, len(v)):\n        d.append(i * v[i])\n    if len(d) == 0:\n        return [0]\n    return d\n",
    submission: "def derivative(v):\n    d = []\n    for i in range(0, len(v)):\n        d.append(i * v[i])\n    if len(d) == 0:\n        return [0]\n    return d\n",
    rules: "rule start: range($a0, $a1) => range($a0 + 1, $a1)\n",
};

/// What `check` says of a certificate of the derivative.
fn judged(alloc: Global, cert: &str) -> Result<(Status, String), Fail> {
    let words = words(alloc, CHECK.as_slice())?;
    let mut shelf = shelf_of(alloc, DERIVATIVE, Vec::new(alloc))?;
    shelf.add("cert.txt", cert.as_bytes())?;
    answered(alloc, &words, &mut shelf)
}

/// The first and the last twenty lines of the stored certificate, each with all behind it, are
/// taken away.
#[test]
fn cut_certificates_are_refused(rt: HostRuntime) -> Result<(), Fail> {
    let alloc = rt.alloc();
    let cert = graded_within(alloc, DERIVATIVE, "200000")?.cert;
    let lines = cert.as_str().matches('\n').count();
    let mut front = String::new(alloc);
    for (kept, line) in cert.as_str().lines().enumerate() {
        if kept < 20 || lines.saturating_sub(kept) <= 20 {
            let cut_at = kept.saturating_add(1);
            let wanted = format!(in alloc; "rejected CertSyntax line {cut_at}\n")?;
            let (status, said) = judged(alloc, front.as_str())?;
            assert_eq!(rt; status, Status::Rejected, "of {kept} lines");
            assert_eq!(rt; said, wanted);
        }
        front.push_str(line)?;
        front.push_str("\n")?;
    }
    let (status, _) = judged(alloc, front.as_str())?;
    assert_eq!(rt; status, Status::Correct, "of all lines");
    Ok(())
}

/// Each row: a word of a line, with what stands beside it there, another one, and how what is said
/// of the certificate begins.
const WORDS: [(&str, &str, &str); 14] = [
    ("mpycert 1", "mpycert 2", "rejected CertSyntax line 1\n"),
    ("claim cost 1", "claim cost 2", "rejected WrongCost\n"),
    (
        "claim cost 1",
        "claim cost 01",
        "rejected CertSyntax line 2\n",
    ),
    (
        "claim cost 1",
        "claim spent 1",
        "rejected CertSyntax line 3\n",
    ),
    ("selection 0:1", "selection 0:2", "rejected WrongCost\n"),
    (
        "selection 0:1",
        "selection 0:0",
        "rejected CertSyntax line 3\n",
    ),
    ("case [1, 1]", "case [1, 2]", "rejected WrongCase line 5\n"),
    ("case [1, 1]", "case [1,1]", "rejected CertSyntax line 5\n"),
    ("fail 0:1", "fail 1:1", "rejected WrongClaim\n"),
    ("low 0 ", "low 1 ", "rejected WrongClaim\n"),
    (
        "vars ",
        "vars 1",
        "accepted cost 1\nasked anew 1\nprogram\n",
    ),
    (
        "f 1 0",
        "f -1 0",
        "accepted cost 1\nasked anew 1\nprogram\n",
    ),
    ("l 0 ", "l 0 0 ", "rejected CertSyntax line "),
    ("end\n", "end \n", "rejected CertSyntax line "),
];

#[test]
fn altered_certificates_are_judged(rt: HostRuntime) -> Result<(), Fail> {
    let alloc = rt.alloc();
    let cert = graded_within(alloc, DERIVATIVE, "200000")?.cert;
    for (word, other, wanted) in &WORDS {
        let altered = cert.as_str().replacen(alloc, *word, *other, 1)?;
        let (_, said) = judged(alloc, altered.as_str())?;
        assert!(rt; said.as_str().starts_with(*wanted), "with {other}");
    }
    Ok(())
}
