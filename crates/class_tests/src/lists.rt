//! Lists of files.
use crate::requests::{REQUEST, answered, shelf_of, words};
use class_core::class_number;
use std::alloc::Global;
use std::test::Fail;

/// So many times the text.
fn times(alloc: Global, text: &str, count: usize) -> Result<String, Fail> {
    let mut all = String::new(alloc);
    for _ in 0..count {
        all.push_str(text)?;
    }
    Ok(all)
}

/// A name of so many bytes, as a list of one.
fn long_name(alloc: Global, count: usize) -> Result<String, Fail> {
    let mut list = times(alloc, "n", count)?;
    list.push('\n')?;
    Ok(list)
}

/// Each row: a list, the exit status, and what the output begins with.
#[test]
fn lists_are_read(rt: HostRuntime) -> Result<(), Fail> {
    let alloc = rt.alloc();
    let all = times(alloc, "a.py\n", 256)?;
    let more = times(alloc, "a.py\n", 257)?;
    let longest = long_name(alloc, 255)?;
    let longer = long_name(alloc, 256)?;
    let unread = "{\"correct\":0,\"corrected\":0,\"entries\":[{\"file\":\"";
    let rows: [(&str, u8, &str); 11] = [
        ("", 0, "{\"correct\":0,"),
        (all.as_str(), 0, "{\"correct\":256,\"corrected\":0,"),
        (more.as_str(), 4, "refused list.txt line 257: Listing\n"),
        (longest.as_str(), 0, unread),
        (longer.as_str(), 4, "refused list.txt line 1: Listing\n"),
        ("a.py\n\u{7f}\n", 4, "refused list.txt line 2: Listing\n"),
        ("a.py\nb.py", 4, "refused list.txt line 2: Listing\n"),
        ("a.py\n\nb.py\n", 4, "refused list.txt line 2: Listing\n"),
        ("a .py\n", 4, "refused list.txt line 1: Listing\n"),
        ("a.py\na.py\n", 0, "{\"correct\":2,\"corrected\":0,"),
        ("ref.py\nnone.py\n", 0, "{\"correct\":1,\"corrected\":0,"),
    ];
    let request = words(alloc, REQUEST.as_slice())?;
    for (list, wanted, front) in rows {
        let mut shelf = shelf_of(alloc, list, Vec::new(alloc))?;
        let (status, written) = answered(alloc, &request, &mut shelf)?;
        assert_eq!(rt; class_number(status), wanted, "the list {list:?}");
        assert!(rt; written.as_str().starts_with(front), "{written}");
    }
    Ok(())
}

/// A file of 65,537 bytes is refused: a listed one in its entry, one of the four by itself.
#[test]
fn files_may_be_too_long(rt: HostRuntime) -> Result<(), Fail> {
    let alloc = rt.alloc();
    let long = times(alloc, "#", 65_537)?;
    let request = words(alloc, REQUEST.as_slice())?;
    let mut shelf = shelf_of(alloc, "b.py\na.py\n", Vec::new(alloc))?;
    shelf.add("b.py", long.as_bytes())?;
    let (status, written) = answered(alloc, &request, &mut shelf)?;
    assert_eq!(rt; class_number(status), 0);
    assert!(rt;
        written
            .as_str()
            .starts_with("{\"correct\":1,\"corrected\":0,")
    );
    assert!(rt;
        written
            .as_str()
            .contains("\"refused b.py line 0: Long\\n\",\"status\":4")
    );
    for name in ["b.txt", "ref.py", "rules.eml", "list.txt"] {
        let mut shelf = shelf_of(alloc, "a.py\n", Vec::new(alloc))?;
        shelf.add(name, long.as_bytes())?;
        let (status, written) = answered(alloc, &request, &mut shelf)?;
        assert_eq!(rt; class_number(status), 4, "{name}");
        let line = format!(in alloc; "refused {name} line 0: Long\n")?;
        assert_eq!(rt; written.as_str(), line.as_str());
    }
    Ok(())
}
