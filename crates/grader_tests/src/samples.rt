//! The texts that a number is made into, and the command `sample`.

use grade_io::MemShelf;
use grade_top::Status;
use sample_maker::sample;
use std::test::Fail;
use test_requests::{answered, words};

/// Numbers, with how many blocks of the submission are wrong.
const WRONG: [(u16, usize); 5] = [(0, 0), (1, 1), (165, 4), (255, 8), (65280, 0)];

/// One for each assignment, and one more for each `<=`.
fn equals_signs(text: &[u8]) -> usize {
    text.iter().filter(|c| **c == b'=').count()
}

#[test]
fn samples_have_wrong_blocks(rt: HostRuntime) -> Result<(), Fail> {
    for (number, wrong) in &WRONG {
        let texts = sample(rt.alloc(), u32::from(*number))?;
        let found = equals_signs(texts.submission.bytes());
        assert!(rt; texts.bounds.bytes().starts_with(b"width 9\n"));
        assert!(rt; texts.rules.bytes().starts_with(b"rule side: "));
        assert!(rt; equals_signs(texts.reference.bytes()) == 41, "of {number}");
        assert!(rt; found.checked_sub(41) == Some(*wrong), "of {number}");
    }
    Ok(())
}

/// The first block of 165: its limit is 165 mod 9 - 4, and its amount 1 + 165 mod 5.
#[test]
fn samples_have_programs(rt: HostRuntime) -> Result<(), Fail> {
    let texts = sample(rt.alloc(), 165)?;
    let first = b"def f(x):\n    t = 0\n    if x < -1:\n        t = t + 1\n".as_slice();
    assert!(rt; texts.reference.bytes().starts_with(first));
    assert!(rt; texts.submission.bytes().starts_with(first));
    Ok(())
}

/// Each wrong block is an edit of cost 1, and the submission has two statements for each block.
#[test]
fn samples_are_graded(rt: HostRuntime) -> Result<(), Fail> {
    let alloc = rt.alloc();
    let rows = [
        (
            "165",
            Status::Corrected,
            "sample 165\nstatements 82\nedits 4\ncost 4\n",
        ),
        (
            "0",
            Status::Correct,
            "sample 0\nstatements 82\nedits 0\ncost 0\n",
        ),
        (
            "65535",
            Status::Corrected,
            "sample 65535\nstatements 82\nedits 8\ncost 8\n",
        ),
    ];
    for (number, status, written) in rows {
        let words = words(alloc, ["sample", number].as_slice())?;
        let mut shelf = MemShelf::new(alloc, Vec::new(alloc));
        let (ended, text) = answered(alloc, &words, &mut shelf)?;
        assert_eq!(rt; ended, status, "of {number}");
        assert_eq!(rt; text.as_str(), written);
    }
    Ok(())
}
