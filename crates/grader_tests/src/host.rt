//! The real devices, of whose content no clause speaks.
use grade_io::{FetchError, HostShelf, HostSink, Shelf, Sink, StoreError};
use grade_top::Status;
use std::fs;
use std::test::Fail;
use test_requests::{DOUBLE, REQUEST, answered, words};

/// Bytes go through the real files and the standard output.
#[test]
fn moves_bytes(rt: HostRuntime) -> Result<(), Fail> {
    let alloc = rt.alloc();
    let mut shelf = HostShelf::new(&rt);
    let mut bytes = Vec::new(alloc);
    for number in 0..5000u32 {
        bytes.push((number % 251) as u8)?;
    }
    shelf.store("short", &bytes)?;
    shelf.store("short", &b"12".to_vec(alloc)?)?;
    shelf.store("kept", &bytes)?;
    shelf.store(" kept ", &b"with blanks".to_vec(alloc)?)?;
    assert!(rt; fs::read(&rt, "kept")? == bytes, "the file has the bytes");
    fs::create_dir(&rt, "folder")?;
    // Each row: the name, the limit, and what the fetch answers.
    let fetches: [(&str, u64, Result<&[u8], FetchError>); 6] = [
        ("kept", 5000, Ok(bytes.as_slice())),
        (" kept ", 5000, Ok(b"with blanks")),
        ("kept", 4999, Err(FetchError::Long)),
        ("short", 5000, Ok(b"12")),
        ("absent", 5000, Err(FetchError::Failed)),
        ("folder", 5000, Err(FetchError::Failed)),
    ];
    for (name, most, wanted) in fetches {
        let fetched = shelf.fetch(alloc, name, most);
        let given = fetched.as_ref().map(|text| text.as_slice()).map_err(|e| *e);
        assert!(rt; given == wanted, "{name} up to {most}");
    }
    assert!(rt;
        fs::read(&rt, "kept")? == bytes,
        "other names keep their bytes"
    );
    // Each row: the name, and what the store answers for bytes and for none.
    let stores: [(&str, Result<(), StoreError>, Result<(), StoreError>); 3] = [
        (
            "absent/file",
            Err(StoreError::Failed),
            Err(StoreError::Failed),
        ),
        ("folder", Err(StoreError::Failed), Err(StoreError::Failed)),
        // A device that opens, and takes no byte.
        ("/dev/full", Err(StoreError::Failed), Ok(())),
    ];
    for (name, with_bytes, with_none) in stores {
        assert_eq!(rt; shelf.store(name, &bytes), with_bytes, "to {name}");
        assert_eq!(rt;
            shelf.store(name, &Vec::new(alloc)),
            with_none,
            "nothing to {name}"
        );
    }
    let mut out = HostSink::new(&rt);
    assert_eq!(rt; out.put(b"")?, 0);
    assert_eq!(rt; out.put(b"a line\n")?, 7);
    Ok(())
}

/// Each row: the name of the certificate, the status, and what is written. The names are those of a
/// new file, of a folder, of a file in a folder that is absent, of a device that opens and takes no
/// byte, and of a source.
#[test]
fn grades_real_files(rt: HostRuntime) -> Result<(), Fail> {
    let alloc = rt.alloc();
    let mut shelf = HostShelf::new(&rt);
    for (name, text) in [
        ("b.txt", DOUBLE.bounds),
        ("ref.py", DOUBLE.reference),
        ("sub.py", DOUBLE.reference),
        ("rules.eml", DOUBLE.rules),
    ] {
        shelf.store(name, &text.as_bytes().to_vec(alloc)?)?;
    }
    fs::create_dir(&rt, "certificates")?;
    let rows = [
        ("cert.txt", Status::Correct, "correct\n"),
        ("certificates", Status::StoreFailed, ""),
        ("absent/cert.txt", Status::StoreFailed, ""),
        ("/dev/full", Status::StoreFailed, ""),
        ("sub.py", Status::Correct, "correct\n"),
    ];
    for (name, status, written) in rows {
        let mut request = REQUEST;
        request[5] = name;
        let words = words(alloc, request.as_slice())?;
        let (ended, text) = answered(alloc, &words, &mut shelf)?;
        assert_eq!(rt; ended, status, "with {name} for the certificate");
        assert_eq!(rt; text.as_str(), written);
    }
    let cert = fs::read(&rt, "cert.txt")?;
    assert!(rt; cert.starts_with(b"mpycert 1\nclaim cost 0\n"));
    assert!(rt; fs::read(&rt, "sub.py")? == cert, "the source is replaced");
    Ok(())
}
