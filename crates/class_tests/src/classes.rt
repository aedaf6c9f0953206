//! Whole classes.
use crate::requests::{REQUEST, answered, shelf_of, words};
use class_core::{ClassStatus, class_number};
use std::test::Fail;

/// A submission that is right, and one that is corrected.
const BOTH: &str = concat!(
    "{\"correct\":1,\"corrected\":1,\"entries\":[{\"file\":\"a.py\",\"report\":\"correct",
    "\\n\",\"status\":0},{\"file\":\"b.py\",\"report\":\"cost 1\\nfails f(4): gives 4, ",
    "wanted 5\\nline 2 [ret, 1]: replace x by x + 1\\nprogram\\ndef f(x):\\n   ",
    " return x + 1\\n\",\"status\":1}],\"none\":0,\"refused\":0,\"spent\":0,\"unread\":",
    "0}\n",
);

/// A tab, a correction, and a file that isn't there.
const MIXED: &str = concat!(
    "{\"correct\":0,\"corrected\":1,\"entries\":[{\"file\":\"a.py\",\"report\":\"refused",
    " a.py line 2: Tab\\n\",\"status\":4},{\"file\":\"b.py\",\"report\":\"cost 1\\nfail",
    "s f(4): gives 4, wanted 5\\nline 2 [ret, 1]: replace x by x + 1\\nprogra",
    "m\\ndef f(x):\\n    return x + 1\\n\",\"status\":1},{\"file\":\"c.py\",\"report\":",
    "\"\",\"status\":5}],\"none\":0,\"refused\":1,\"spent\":0,\"unread\":1}\n",
);

/// Each row: the list, the text of `a.py`, the status, and what is written.
#[test]
fn classes_are_answered(rt: HostRuntime) -> Result<(), Fail> {
    let alloc = rt.alloc();
    let none = concat!(
        "{\"correct\":0,\"corrected\":0,\"entries\":[],\"none\":0,\"refused\":0,",
        "\"spent\":0,\"unread\":0}\n",
    );
    let rows = [
        ("a.py\nb.py\n", "def f(x):\n    return x + 1\n", BOTH),
        ("a.py\nb.py\nc.py\n", "def f(x):\n\treturn x\n", MIXED),
        ("", "", none),
    ];
    let request = words(alloc, REQUEST.as_slice())?;
    for (list, text, wanted) in rows {
        let mut shelf = shelf_of(alloc, list, Vec::new(alloc))?;
        shelf.add("a.py", text.as_bytes())?;
        let (status, written) = answered(alloc, &request, &mut shelf)?;
        assert_eq!(rt; class_number(status), 0, "the list {list:?}");
        assert_eq!(rt; written.as_str(), wanted);
    }
    Ok(())
}

/// Quotes and backslashes of names and messages are escaped.
#[test]
fn texts_are_escaped(rt: HostRuntime) -> Result<(), Fail> {
    let alloc = rt.alloc();
    let wanted = concat!(
        r#"{"correct":0,"corrected":1,"entries":["#,
        r#"{"file":"a\"\\.py","report":"refused a\"\\.py line 2: Token\n","status":4},"#,
        r#"{"file":"b.py","report":"cost 1\nfails f(4): gives 4, wanted 5\n"#,
        r#"line 2 [ret, 1]: not 'x' \\ but \"x + 1\"\nprogram\ndef f(x):\n    return x + 1\n","#,
        r#""status":1}],"none":0,"refused":1,"spent":0,"unread":0}"#,
        "\n",
    );
    let mut shelf = shelf_of(alloc, "a\"\\.py\nb.py\n", Vec::new(alloc))?;
    shelf.add("a\"\\.py", b"def f(x):\n    return '\n")?;
    shelf.add(
        "rules.eml",
        b"rule ret: return $a => return $a + 1\nsay 'not \\'{old}\\' \\\\ but \"{new}\"'\n",
    )?;
    let request = words(alloc, REQUEST.as_slice())?;
    let (status, written) = answered(alloc, &request, &mut shelf)?;
    assert_eq!(rt; class_number(status), 0);
    assert_eq!(rt; written.as_str(), wanted);
    Ok(())
}

/// One clause is too few to refute a cheaper correction and to find that none fails. The entry has
/// the text of a certificate.
#[test]
fn budgets_are_spent(rt: HostRuntime) -> Result<(), Fail> {
    let alloc = rt.alloc();
    let front = concat!(
        r#"{"correct":0,"corrected":0,"#,
        r#""entries":[{"certificate":"mpycert 1\nclaim spent 1\n"#,
    );
    let back = r#""status":3}],"none":0,"refused":0,"spent":1,"unread":0}"#;
    let mut shelf = shelf_of(alloc, "b.py\n", Vec::new(alloc))?;
    let mut request = REQUEST;
    request[4] = "1";
    let request = words(alloc, request.as_slice())?;
    let (status, written) = answered(alloc, &request, &mut shelf)?;
    assert_eq!(rt; class_number(status), 0);
    assert!(rt; written.as_str().starts_with(front), "{written}");
    assert!(rt; written.as_str().trim_end().ends_with(back), "{written}");
    Ok(())
}

/// Each row: words that ask for no class.
#[test]
fn other_words_get_the_usage(rt: HostRuntime) -> Result<(), Fail> {
    let alloc = rt.alloc();
    let rows: [&[&str]; 7] = [
        &[],
        &["b.txt", "ref.py", "rules.eml", "list.txt"],
        &["b.txt", "ref.py", "rules.eml", "list.txt", "200000", "more"],
        &["b.txt", "ref.py", "rules.eml", "list.txt", "0"],
        &["b.txt", "ref.py", "rules.eml", "list.txt", "200001"],
        &["b.txt", "ref.py", "rules.eml", "list.txt", "01"],
        &["b.txt", "ref.py", "rules.eml", "list.txt", "+1"],
    ];
    for row in rows {
        let mut shelf = shelf_of(alloc, "a.py\n", Vec::new(alloc))?;
        let (status, written) = answered(alloc, &words(alloc, row)?, &mut shelf)?;
        assert_eq!(rt; status, ClassStatus::Usage, "the words {row:?}");
        assert_eq!(rt; class_number(status), 8);
        assert_eq!(rt;
            written.as_str(),
            "usage: mpyclass BOUNDS REF RULES LIST BUDGET\n"
        );
    }
    Ok(())
}
