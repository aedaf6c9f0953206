//! Formulas and proofs as texts: what is read, and at which line the others are refused.

use clause_base::formula::Formula;
use dimacs_text::{CnfError, read_cnf, read_proof, write_proof};
use std::alloc::{AllocError, Global};
use std::test::Fail;
use step_lines::literals::write_literals;
use step_lines::numbers::write_number;

/// Texts of formulas that are read, each with its variables and clauses.
const READ: [(&str, &str); 14] = [
    ("p cnf 0 0", "0"),
    ("p cnf 2 1\n1 -2 0\n", "2 1 -2 0"),
    ("c one\n\n \t\r\nc\np cnf 1 1\r\n1 0\r\n", "1 1 0"),
    (
        "p\tcnf  1000000 \t 2 \r \n-1000000 0 0",
        "1000000 -1000000 0 0",
    ),
    (
        "p cnf 3 2\n1\n2\nc 3 0\n3 0 -1\t-2\r0\n",
        "3 1 2 3 0 -1 -2 0",
    ),
    ("p cnf 3 1\n3 1 3 1 2 3 0\n", "3 3 1 2 0"),
    ("p cnf 2 3\n1 0\n1 2 -1 0\n2 0\n", "2 1 0 2 0"),
    ("p cnf 2 1\n1 -1 2 -2 0\n", "2"),
    ("p cnf 1 1\n1 0\n%\n0\n\n", "1 1 0"),
    ("p cnf 1 1\n1 0\n% what follows isn't read", "1 1 0"),
    ("p cnf 1 0\nc more\n", "1"),
    ("p cnf 1 1\n1 0\ncomment", "1 1 0"),
    ("p cnf 5 1\n5 4 3 2 1 -5 1 2 3 4 0\n", "5"),
    ("p cnf 5 1\n5 4 3 2 1 5 1 2 3 4 0\n", "5 5 4 3 2 1 0"),
];

/// Texts that are of the form of no formula, each with its line.
const NO_FORMULA: [(&str, u32); 35] = [
    ("", 1),
    ("\n", 2),
    ("c\nc", 3),
    ("p cnf 1 1\n2 0\n", 2),
    ("p cnf 1 1\n-2 0\n", 2),
    ("p cnf 1 1\n1 0 1\n", 2),
    ("p cnf 1 1\n1 0\n0\n", 3),
    ("p cnf 1 1\n1 0\n1 0\n", 3),
    ("p cnf 1 1\n1\n", 3),
    ("p cnf 1 1\n1", 3),
    ("p cnf 1 1", 2),
    ("p cnf 1 1\n", 2),
    ("p cnf 1 2\n1 0\n\n", 4),
    ("p cnf 1 2\n1 0\n%\n", 3),
    ("p cnf 1 1\n1\n%\n0\n", 3),
    ("%\np cnf 0 0\n", 1),
    ("1 0\np cnf 1 1\n", 1),
    (" p cnf 0 0\n", 1),
    ("p cnf 0\n", 1),
    ("p cnf 0 0 0\n", 1),
    ("pcnf 0 0\n", 1),
    ("p cnf0 0\n", 1),
    ("p CNF 0 0\n", 1),
    ("p\rcnf 0 0\n", 1),
    ("p cnf 01 0\n", 1),
    ("p cnf -1 0\n", 1),
    ("p cnf +1 0\n", 1),
    ("p cnf 1000001 0\n", 1),
    ("p cnf 0 3000001\n", 1),
    ("c\np cnf 1 1\np cnf 1 1\n1 0\n", 3),
    ("p cnf 1 1\n+1 0\n", 2),
    ("p cnf 1 1\n01 0\n", 2),
    ("p cnf 1 1\n-0\n", 2),
    ("p cnf 1 1\n1 00\n", 2),
    ("p cnf 1 1\n1 0 c\n", 2),
];

/// Texts of proofs over 4 known clauses and 2 variables that are read.
const PROOFS: [&str; 5] = [
    "end\n",
    "l 1 0 1 2 0\nend\n",
    "l 1 0 1 2 0\nl 0 5 3 4 0\nend\n",
    "l 0 1 0\nend\n",
    "l -2 1 0 0\nl 0 5 0\nl 0 6 0\nend\n",
];

/// Texts that are of the form of no proof, each with its line.
const NO_PROOF: [(&str, u32); 20] = [
    ("", 1),
    ("end", 1),
    ("end\nend\n", 2),
    ("end\n ", 2),
    ("\nend\n", 1),
    ("l 1 0 1 2 0\n", 2),
    ("l 1 0 1 2 0\nl", 2),
    ("l 1 0 1 2 0\nend", 2),
    ("l 3 0 1 2 0\nend\n", 1),
    ("l 1 1 0 1 2 0\nend\n", 1),
    ("l 1 -1 0 1 2 0\nend\n", 1),
    ("l 1 0 5 0\nend\n", 1),
    ("l 1 0 1 2 0\nl 0 6 0\nend\n", 2),
    ("l 1 0 1 2\nend\n", 1),
    ("l 1 0 1 2 0 \nend\n", 1),
    ("l 1  0 1 2 0\nend\n", 1),
    ("l 1 0 01 2 0\nend\n", 1),
    ("l 1 0 1 2 0\r\nend\n", 1),
    ("f 1 0\nend\n", 1),
    ("c one\nend\n", 1),
];

/// The number of variables, and then the clauses, each with its end.
fn shown(alloc: Global, formula: &Formula) -> Result<Vec<u8>, AllocError> {
    let mut out = Vec::new(alloc);
    write_number(&mut out, formula.vars)?;
    for i in 0..formula.clauses.len() {
        write_literals(&mut out, formula.clauses.at(i).lits.as_slice())?;
    }
    Ok(out)
}

fn line_of<T: Drop>(read: Result<T, CnfError>) -> Option<u32> {
    match read {
        Ok(_) => Some(0),
        Err(CnfError::Line(line)) => Some(line),
        Err(CnfError::NoMemory) => None,
    }
}

#[test]
fn formulas_are_read(rt: HostRuntime) -> Result<(), Fail> {
    for (text, wanted) in READ {
        let bytes = text.as_bytes();
        assert!(rt; bytes.len() < 1000);
        let formula = read_cnf(rt.alloc(), bytes).ok().ok_or("not read")?;
        let found = shown(rt.alloc(), &formula)?;
        assert_eq!(rt; found.as_slice(), wanted.as_bytes(), "at {text:?}");
    }
    Ok(())
}

#[test]
fn other_formulas_are_refused_at_their_line(rt: HostRuntime) {
    for (text, line) in NO_FORMULA {
        let bytes = text.as_bytes();
        assert!(rt; bytes.len() < 1000);
        assert_eq!(rt;
            line_of(read_cnf(rt.alloc(), bytes)),
            Some(line),
            "at {text:?}"
        );
    }
}

#[test]
fn proofs_are_written_as_they_were(rt: HostRuntime) -> Result<(), Fail> {
    for text in PROOFS {
        let bytes = text.as_bytes();
        assert!(rt; bytes.len() < 1000);
        let log = read_proof(rt.alloc(), bytes, 4, 2).ok().ok_or("not read")?;
        let written = write_proof(rt.alloc(), 4, &log)?;
        assert_eq!(rt; written.as_slice(), bytes, "at {text:?}");
    }
    Ok(())
}

#[test]
fn other_proofs_are_refused_at_their_line(rt: HostRuntime) {
    for (text, line) in NO_PROOF {
        let bytes = text.as_bytes();
        assert!(rt; bytes.len() < 1000);
        let read = read_proof(rt.alloc(), bytes, 4, 2);
        assert_eq!(rt; line_of(read), Some(line), "at {text:?}");
    }
}

/// Hints of any known clause are read, whatever the number of its step.
#[test]
fn steps_are_numbered_on_from_the_known_clauses(rt: HostRuntime) {
    let text = b"l 0 2147483647 0\nend\n".as_slice();
    for (known, line) in [(2147483646, 1), (2147483647, 0), (u32::MAX, 0)] {
        assert_eq!(rt;
            line_of(read_proof(rt.alloc(), text, known, 0)),
            Some(line),
            "{known}"
        );
    }
}
