//! The words of a command line.

use grade_io::MemShelf;
use grade_top::Status;
use std::test::Fail;
use test_requests::{REQUEST, answered, words};

/// The usage is written for every budget that isn't a number from 1 to 200000, and nothing is
/// fetched.
#[test]
fn other_words_get_the_usage(rt: HostRuntime) -> Result<(), Fail> {
    let alloc = rt.alloc();
    for budget in ["0", "007", "200001", "+5", "", "five"] {
        let mut request = REQUEST;
        request[6] = budget;
        let words = words(alloc, request.as_slice())?;
        let mut shelf = MemShelf::new(alloc, Vec::new(alloc));
        let (ended, written) = answered(alloc, &words, &mut shelf)?;
        assert_eq!(rt; ended, Status::Usage, "with the budget {budget}");
        assert!(rt; written.starts_with("usage: mpygrade grade "));
    }
    Ok(())
}

/// So it is for a run of more than four values, or without a program, for a sample of no number up
/// to 65535 or of two, for `check` without a certificate, for `pick` without a submission or with
/// 17, for `sat` without a budget or with none of the form, for `unsat` without a proof, and for no
/// words.
#[test]
fn other_commands_get_the_usage(rt: HostRuntime) -> Result<(), Fail> {
    let alloc = rt.alloc();
    let rows: [&[&str]; 13] = [
        &["run", "b.txt", "p.py", "1", "2", "3", "4", "5"],
        &["run", "b.txt"],
        &["check", "b.txt", "ref.py", "sub.py", "rules.eml"],
        &["sample"],
        &["sample", "65536"],
        &["sample", "07"],
        &["sample", "1", "2"],
        &["pick", "b.txt", "ref.py"],
        &[
            "pick", "b.txt", "ref.py", "1", "2", "3", "4", "5", "6", "7", "8", "9", "10", "11",
            "12", "13", "14", "15", "16", "17",
        ],
        &["sat", "c.cnf", "log"],
        &["sat", "c.cnf", "log", "0"],
        &["unsat", "c.cnf"],
        &[],
    ];
    for row in rows {
        let words = words(alloc, row)?;
        let mut shelf = MemShelf::new(alloc, Vec::new(alloc));
        let (ended, written) = answered(alloc, &words, &mut shelf)?;
        assert_eq!(rt; ended, Status::Usage, "of {} words", row.len());
        assert!(rt; written.starts_with("usage: mpygrade grade "));
    }
    Ok(())
}
