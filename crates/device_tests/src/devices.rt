//! What the devices in memory do with ample memory.
use grade_io::{
    FetchError, MemShelf, MemSink, PutError, Shelf, Sink, StoreError, SureShelf, SureSink,
    write_text,
};
use std::test::Fail;

/// The shelf in memory keeps bytes, and fails at the calls that were chosen and at absent names.
#[test]
fn shelf_in_memory(rt: HostRuntime) -> Result<(), Fail> {
    let alloc = rt.alloc();
    let mut shelf = MemShelf::new(alloc, vec![in alloc; 3u64, 6u64]?);
    let other = b"67".to_vec(alloc)?;
    shelf.store("other", &other)?;
    shelf.add("held", b"12345")?;
    // Each row: the name, the limit and what the fetch gives. The second row is the third call.
    let fetches: [(&str, u64, Result<&[u8], FetchError>); 4] = [
        ("other", 2, Ok(b"67")),
        ("held", 5, Err(FetchError::Failed)),
        ("held", 4, Err(FetchError::Long)),
        ("absent", 5, Err(FetchError::Failed)),
    ];
    for (name, most, wanted) in fetches {
        let fetched = shelf.fetch(alloc, name, most);
        let given = fetched
            .as_ref()
            .map(|bytes| bytes.as_slice())
            .map_err(|e| *e);
        assert!(rt; given == wanted, "{name} up to {most}");
    }
    assert_eq!(rt; shelf.store("held", &other), Err(StoreError::Failed));
    let kept = shelf.fetch(alloc, "held", 5)?;
    assert_eq!(rt; kept.as_slice(), b"12345".as_slice());
    Ok(())
}

/// Each row: the bytes that a put may take, the put that fails, the answer, and what was written.
#[test]
fn sink_in_memory(rt: HostRuntime) -> Result<(), Fail> {
    let alloc = rt.alloc();
    let cases: [(usize, u64, Result<(), PutError>, &[u8]); 4] = [
        (4, 0, Ok(()), b"correct\n"),
        (4, 2, Err(PutError::Failed), b"corr"),
        (1, 8, Err(PutError::Failed), b"correct"),
        (9, 2, Ok(()), b"correct\n"),
    ];
    for (most, put, wanted, written) in cases {
        let mut out = MemSink::new(alloc, most, vec![in alloc; put]?);
        assert_eq!(rt; out.put(b""), Ok(0), "an empty piece has no number");
        assert_eq!(rt;
            write_text(&mut out, b"correct\n"),
            wanted,
            "at {most} bytes a put"
        );
        assert_eq!(rt; out.bytes(), written);
    }
    Ok(())
}

/// The devices that never fail give an absent name's empty text, and take a piece whole.
#[test]
fn sure_devices(rt: HostRuntime) -> Result<(), Fail> {
    let alloc = rt.alloc();
    let mut shelf = SureShelf::new(alloc);
    shelf.add("held", b"12345")?;
    shelf.store("other", &b"67".to_vec(alloc)?)?;
    for (name, wanted) in [("held", "12345"), ("other", "67"), ("absent", "")] {
        let fetched = shelf.fetch(alloc, name, 5)?;
        assert_eq!(rt; fetched.as_slice(), wanted.as_bytes());
    }
    let mut out = SureSink::new(alloc);
    assert_eq!(rt; out.put(b"whole")?, 5);
    assert_eq!(rt; out.bytes(), b"whole".as_slice());
    Ok(())
}
