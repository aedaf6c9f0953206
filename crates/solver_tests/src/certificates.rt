//! Certificates as texts: which are read, and at which line the others are refused.

use cert_text::{Cert, CertError, case_line, read_cert, write_cert};
use std::alloc::Global;
use std::test::Fail;

/// Texts that are read, and written again as they were.
const GOOD: [&str; 12] = [
    "mpycert 1\nclaim none\nend\n",
    "mpycert 1\nclaim cost 0\nselection\nend\n",
    "mpycert 1\nclaim cost 4096\nselection 0:2 2:1 2147483647:2147483647\ncase\nend\n",
    "mpycert 1\nclaim spent 200000\ncase [1, -2], 'a b', True\ncase -2147483648\nend\n",
    "mpycert 1\nclaim spent 1\nsession first\nvars 0\nf 0\nend\n",
    "mpycert 1\nclaim none\ncase 4\nsession low 4096 1\nvars 2147483647\nf 2147483647 -1 0\nend\n",
    "mpycert 1\nclaim none\nsession low any 0\nvars 3\nf 1 -2 3 0\nf -3 0\nl 1 0 2 1 0\nend\n",
    "mpycert 1\nclaim none\nsession fail 0:1 3:2\nvars 1\nf 0\nsession fail\nvars 0\nf 0\nend\n",
    "mpycert 1\nclaim none\nsession first\nvars 5\nf 1 2 3 4 5 0\nl -1 -2 -3 -4 -5 0 1 1 0\nend\n",
    "mpycert 1\nclaim none\nsession first\nvars 9\nf 1 2 3 4 5 6 7 8 9 0\nend\n",
    "mpycert 1\nclaim none\nsession first\nvars 9\nf 9 -2 3 1 5 6 -7 8 4 0\nend\n",
    "mpycert 1\nclaim cost 3\nselection 0:2 4:1\ncase [2, -7], True\ncase [], False\n\
     session low 2 1\nvars 2\nf 1 2 0\nf -1 2 0\nf -2 0\nl 2 0 1 2 0\nl 0 4 3 0\n\
     session fail 0:2 4:1\nvars 1\nf 0\nend\n",
];

/// Texts that are refused, each with the line.
const BAD: [(&str, u32); 63] = [
    (
        "mpycert 1\nclaim none\nsession first\nvars 9\nf 9 -2 3 1 5 6 -7 8 2 0\n",
        5,
    ),
    ("", 1),
    ("mpycert 1", 1),
    ("mpycert 1\n", 2),
    ("mpycert 2\n", 1),
    ("mpycert 1 \n", 1),
    ("mpycert  1\n", 1),
    ("mpycert 1\r\n", 1),
    ("mpycert 1\nclaim cost 4097\n", 2),
    ("mpycert 1\nclaim cost 04\n", 2),
    ("mpycert 1\nclaim cost -1\n", 2),
    ("mpycert 1\nclaim cost\n", 2),
    ("mpycert 1\nclaim spent 0\n", 2),
    ("mpycert 1\nclaim spent 200001\n", 2),
    ("mpycert 1\nclaim none \n", 2),
    ("mpycert 1\nclaim none", 2),
    ("mpycert 1\nclaim none\n", 3),
    ("mpycert 1\nclaim none\nend", 3),
    ("mpycert 1\nclaim none\nend\nend\n", 4),
    ("mpycert 1\nclaim none\nend\n\n", 4),
    ("mpycert 1\nclaim none\nend\n ", 4),
    ("mpycert 1\nclaim none\nselection\nend\n", 3),
    ("mpycert 1\nclaim cost 1\nend\n", 3),
    ("mpycert 1\nclaim cost 1\nselection \nend\n", 3),
    ("mpycert 1\nclaim cost 1\nselection 1:1 1:2\nend\n", 3),
    ("mpycert 1\nclaim cost 1\nselection 2:1 1:1\nend\n", 3),
    ("mpycert 1\nclaim cost 1\nselection 1:0\nend\n", 3),
    ("mpycert 1\nclaim cost 1\nselection 01:1\nend\n", 3),
    ("mpycert 1\nclaim cost 1\nselection 1:2147483648\nend\n", 3),
    ("mpycert 1\nclaim cost 1\nselection 2147483648:1\nend\n", 3),
    ("mpycert 1\nclaim cost 1\nselection 1:1  2:1\nend\n", 3),
    ("mpycert 1\nclaim cost 1\nselection 1:1:1\nend\n", 3),
    ("mpycert 1\nclaim cost 1\nselection 1\nend\n", 3),
    ("mpycert 1\nclaim none\ncase \nend\n", 3),
    ("mpycert 1\nclaim none\ncase  4\nend\n", 3),
    ("mpycert 1\nclaim none\ncase 4 \nend\n", 3),
    ("mpycert 1\nclaim none\ncase 04\nend\n", 3),
    ("mpycert 1\nclaim none\ncase [1,2]\nend\n", 3),
    (
        "mpycert 1\nclaim none\nsession first\nvars 1\nf 0\ncase 4\nend\n",
        6,
    ),
    (
        "mpycert 1\nclaim none\ncase 4\nsession low 0 2\nvars 1\n",
        4,
    ),
    ("mpycert 1\nclaim none\nsession low 4097 0\n", 3),
    ("mpycert 1\nclaim none\nsession low any\n", 3),
    ("mpycert 1\nclaim none\nsession low any 0 \n", 3),
    ("mpycert 1\nclaim none\nsession first \n", 3),
    ("mpycert 1\nclaim none\nsession fail 2:1 2:1\n", 3),
    ("mpycert 1\nclaim none\nsession first\nf 0\n", 4),
    ("mpycert 1\nclaim none\nsession first\nvars 2147483648\n", 4),
    ("mpycert 1\nclaim none\nsession first\nvars 1\nend\n", 5),
    ("mpycert 1\nclaim none\nsession first\nvars 1\nl 0 0\n", 5),
    ("mpycert 1\nclaim none\nsession first\nvars 1\nf 2 0\n", 5),
    ("mpycert 1\nclaim none\nsession first\nvars 1\nf 1 1 0\n", 5),
    (
        "mpycert 1\nclaim none\nsession first\nvars 1\nf 1 -1 0\n",
        5,
    ),
    ("mpycert 1\nclaim none\nsession first\nvars 1\nf -0 0\n", 5),
    ("mpycert 1\nclaim none\nsession first\nvars 1\nf 1\n", 5),
    ("mpycert 1\nclaim none\nsession first\nvars 1\nf 1 0 \n", 5),
    ("mpycert 1\nclaim none\nsession first\nvars 1\nf 1 00\n", 5),
    ("mpycert 1\nclaim none\nsession first\nvars 1\nf 1 0 0\n", 5),
    ("mpycert 1\nclaim none\nsession first\nvars 1\nf  1 0\n", 5),
    (
        "mpycert 1\nclaim none\nsession first\nvars 1\nf 1 0\nl 0 2 0\n",
        6,
    ),
    (
        "mpycert 1\nclaim none\nsession first\nvars 1\nf 1 0\nl 0 1\n",
        6,
    ),
    (
        "mpycert 1\nclaim none\nsession first\nvars 1\nf 1 0\nl 0 1 0\nl 0 3 0\n",
        7,
    ),
    (
        "mpycert 1\nclaim none\nsession first\nvars 1\nf 1 0\nl 0 1 0\nf 1 0\n",
        7,
    ),
    (
        "mpycert 1\nclaim none\nsession first\nvars 1\nf 1 0\nl 0 1 0\nsession first\nend\n",
        8,
    ),
];

/// The line of the refusal, or 0 where the text is read.
fn line_of(alloc: Global, text: &str) -> Option<u32> {
    let bytes = text.as_bytes();
    if bytes.len() > 1000 {
        return None;
    }
    match read_cert(alloc, bytes) {
        Ok(_) => Some(0),
        Err(CertError::Syntax(line)) => Some(line),
        Err(CertError::NoMemory) => None,
    }
}

/// The text of the certificate that the text is of, or nothing where it is of none.
fn again(alloc: Global, text: &str) -> Option<Vec<u8>> {
    let bytes = text.as_bytes();
    if bytes.len() > 1000 {
        return None;
    }
    let cert = read_cert(alloc, bytes).ok()?;
    write_cert(alloc, &cert).ok()
}

/// The lines of the cases of the certificate that the text is of.
fn case_lines(alloc: Global, text: &str) -> Option<Vec<u32>> {
    let bytes = text.as_bytes();
    if bytes.len() > 1000 {
        return None;
    }
    let cert = read_cert(alloc, bytes).ok()?;
    let mut lines = Vec::new(alloc);
    for place in 0..cert.cases.count() {
        lines.push(case_line(&cert, place + 1)).ok()?;
    }
    Some(lines)
}

#[test]
fn cases_stand_on_their_lines(rt: HostRuntime) -> Result<(), Fail> {
    let none = "mpycert 1\nclaim none\nend\n";
    let best = "mpycert 1\nclaim cost 0\nselection\ncase 1\ncase 2\nend\n";
    let spent = "mpycert 1\nclaim spent 1\ncase 1\ncase 2\nend\n";
    for (text, lines) in [(none, [].as_slice()), (best, &[4, 5]), (spent, &[3, 4])] {
        let found = case_lines(rt.alloc(), text).ok_or("not read")?;
        assert_eq!(rt; found.as_slice(), lines);
    }
    Ok(())
}

#[test]
fn certificates_are_written_as_they_were(rt: HostRuntime) -> Result<(), Fail> {
    for text in GOOD {
        let written = again(rt.alloc(), text).ok_or("not read")?;
        assert_eq!(rt; written.as_slice(), text.as_bytes());
    }
    Ok(())
}

#[test]
fn other_texts_are_refused_at_their_line(rt: HostRuntime) {
    for (text, line) in BAD {
        assert_eq!(rt; line_of(rt.alloc(), text), Some(line), "at {text:?}");
    }
}

#[test]
fn a_case_may_have_double_quotes(rt: HostRuntime) -> Result<(), Fail> {
    let text = "mpycert 1\nclaim none\ncase \"it's\"\nend\n";
    let written = again(rt.alloc(), text).ok_or("not read")?;
    let printed = "mpycert 1\nclaim none\ncase 'it\\'s'\nend\n";
    assert_eq!(rt; written.as_slice(), printed.as_bytes());
    Ok(())
}

/// The same, of copies of the parts of the certificate.
fn copied(alloc: Global, text: &str) -> Option<Vec<u8>> {
    let bytes = text.as_bytes();
    if bytes.len() > 1000 {
        return None;
    }
    let read = read_cert(alloc, bytes).ok()?;
    let cert = Cert {
        claim: read.claim,
        selection: read.selection.copy().ok()?,
        cases: read.cases.copy().ok()?,
        sessions: read.sessions.copy().ok()?,
    };
    write_cert(alloc, &cert).ok()
}

#[test]
fn copies_are_written_alike(rt: HostRuntime) -> Result<(), Fail> {
    for text in GOOD {
        let written = copied(rt.alloc(), text).ok_or("not read")?;
        assert_eq!(rt; written.as_slice(), text.as_bytes());
    }
    Ok(())
}
