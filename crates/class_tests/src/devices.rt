//! Devices that fail.
use crate::requests::{REQUEST, answered, shelf_of, words};
use class_core::{class_number, class_top};
use grade_io::MemSink;
use std::test::Fail;

/// Each row: the fetch that fails, the exit status, and what the output begins with.
#[test]
fn fetches_may_fail(rt: HostRuntime) -> Result<(), Fail> {
    let alloc = rt.alloc();
    let rows: [(u64, u8, &str); 6] = [
        (1, 5, ""),
        (2, 5, ""),
        (3, 5, ""),
        (4, 5, ""),
        (5, 0, "{\"correct\":0,\"corrected\":1,"),
        (6, 0, "{\"correct\":1,\"corrected\":0,"),
    ];
    let request = words(alloc, REQUEST.as_slice())?;
    for (fetch, wanted, front) in rows {
        let mut shelf = shelf_of(alloc, "a.py\nb.py\n", vec![in alloc; fetch]?)?;
        let (status, written) = answered(alloc, &request, &mut shelf)?;
        assert_eq!(rt; class_number(status), wanted, "the fetch {fetch}");
        assert_eq!(rt; written.as_str().is_empty(), front.is_empty());
        assert!(rt; written.as_str().starts_with(front), "{written}");
    }
    Ok(())
}

/// A put that fails leaves a front of the report.
#[test]
fn puts_may_fail(rt: HostRuntime) -> Result<(), Fail> {
    let alloc = rt.alloc();
    let request = words(alloc, REQUEST.as_slice())?;
    let mut shelf = shelf_of(alloc, "a.py\n", Vec::new(alloc))?;
    let mut out = MemSink::new(alloc, 10, vec![in alloc; 3u64]?);
    let status = class_top(alloc, &request, &mut shelf, &mut out);
    assert_eq!(rt; class_number(status), 6);
    assert_eq!(rt; out.bytes(), b"{\"correct\":1,\"correc".as_slice());
    Ok(())
}
