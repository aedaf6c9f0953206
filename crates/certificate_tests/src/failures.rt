//! Devices that fail while a request is answered.

use grade_io::MemSink;
use grade_top::{Status, grade_top};
use std::test::Fail;
use test_requests::{
    CHECK, DOUBLE, NO_PARAMETER, ONE, REQUEST, RIGHT, Texts, held, shelf_of, words,
};

/// Each row: a request and its budget, the shelf's call and the sink's put that fail (0: none), the
/// status, what was written by puts of at most four bytes, and the first lines of what `cert.txt`
/// holds then. The fifth call is the store.
#[test]
fn devices_may_fail(rt: HostRuntime) -> Result<(), Fail> {
    let alloc = rt.alloc();
    let right = Texts {
        submission: DOUBLE.reference,
        ..DOUBLE
    };
    let spent = Texts {
        rules: "rule lit: $n => {1, 3}\n",
        ..DOUBLE
    };
    let refused = Texts {
        submission: "def f(x):\n    return y\n",
        ..DOUBLE
    };
    let claims_0 = "mpycert 1\nclaim cost 0\n";
    let claims_spent = "mpycert 1\nclaim spent 1\n";
    let rows: [(Texts<'_>, &str, u64, u64, Status, &[u8], &str); 14] = [
        (right, "9", 0, 0, Status::Correct, b"correct\n", claims_0),
        (right, "9", 0, 3, Status::Correct, b"correct\n", claims_0),
        (right, "9", 0, 2, Status::WriteFailed, b"corr", claims_0),
        (right, "9", 0, 1, Status::WriteFailed, b"", claims_0),
        (right, "9", 1, 0, Status::ReadFailed, b"", "old"),
        (right, "9", 2, 0, Status::ReadFailed, b"", "old"),
        (right, "9", 3, 0, Status::ReadFailed, b"", "old"),
        (right, "9", 4, 0, Status::ReadFailed, b"", "old"),
        (right, "9", 5, 0, Status::StoreFailed, b"", "old"),
        (right, "9", 5, 1, Status::StoreFailed, b"", "old"),
        (spent, "1", 5, 0, Status::StoreFailed, b"", "old"),
        (
            spent,
            "1",
            0,
            3,
            Status::WriteFailed,
            b"budget s",
            claims_spent,
        ),
        (refused, "9", 0, 2, Status::WriteFailed, b"refu", "old"),
        (refused, "9", 4, 0, Status::ReadFailed, b"", "old"),
    ];
    for (texts, budget, call, put, status, written, cert) in rows {
        let mut request = REQUEST;
        request[6] = budget;
        let words = words(alloc, request.as_slice())?;
        let mut shelf = shelf_of(alloc, texts, vec![in alloc; call]?)?;
        let mut out = MemSink::new(alloc, 4, vec![in alloc; put]?);
        let ended = grade_top(alloc, &words, &mut shelf, &mut out);
        assert_eq!(rt; ended, status, "with call {call} and put {put} failing");
        assert_eq!(rt; out.bytes(), written);
        let now = held(alloc, &mut shelf, "cert.txt")?;
        assert!(rt;
            now.starts_with(cert),
            "with call {call} and put {put} failing"
        );
    }
    Ok(())
}

/// Each row: the shelf's call and the sink's put that fail while a certificate is judged (0: none),
/// the status, and what was written by puts of at most four bytes. All calls are fetches.
#[test]
fn devices_may_fail_while_judging(rt: HostRuntime) -> Result<(), Fail> {
    let alloc = rt.alloc();
    let texts = Texts {
        bounds: NO_PARAMETER,
        reference: ONE,
        submission: ONE,
        rules: "",
    };
    let whole = b"accepted cost 0\nprogram\ndef f():\n    return 1\n";
    let rows: [(u64, u64, Status, &[u8]); 8] = [
        (0, 0, Status::Correct, whole),
        (1, 0, Status::ReadFailed, b""),
        (2, 0, Status::ReadFailed, b""),
        (3, 0, Status::ReadFailed, b""),
        (4, 0, Status::ReadFailed, b""),
        (5, 1, Status::ReadFailed, b""),
        (0, 1, Status::WriteFailed, b""),
        (0, 4, Status::WriteFailed, b"accepted cos"),
    ];
    let words = words(alloc, CHECK.as_slice())?;
    for (call, put, status, written) in rows {
        let mut shelf = shelf_of(alloc, texts, vec![in alloc; call]?)?;
        shelf.add("cert.txt", RIGHT.as_bytes())?;
        let mut out = MemSink::new(alloc, 4, vec![in alloc; put]?);
        let ended = grade_top(alloc, &words, &mut shelf, &mut out);
        assert_eq!(rt; ended, status, "with call {call} and put {put} failing");
        assert_eq!(rt; out.bytes(), written);
        let now = held(alloc, &mut shelf, "cert.txt")?;
        assert_eq!(rt; now.as_str(), RIGHT);
    }
    Ok(())
}
