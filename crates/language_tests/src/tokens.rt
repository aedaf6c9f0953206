//! Texts and their lines, by a separate model of the rules, and the calls on tokens with ample
//! memory.
use mpy_lexer::{
    Form, Kind, LexCause, LexError, Line, Spelling, Token, Tokens, lines, literal_characters,
    metavariable_of,
};
use std::alloc::Global;
use std::test::Fail;

// Programs, each with its lines: of a line its number and column, of a token what it is, its span
// and its bytes.
const PROGRAMS: [(&[u8], &str); 40] = [
    (b"", ""),
    (b"\n", ""),
    (
        b"def f(x):\n    return x\n",
        "1.0 word 0-3 def name 4-5 f mark 5-6 ( name 6-7 x mark 7-8 ) mark 8-9 :; 2.4 word 14-20 return name 21-22 x",
    ),
    (
        b"x += 1 // 2 ** y\n\n  y=x",
        "1.0 name 0-1 x mark 2-4 += number 5-6 1 mark 7-9 // number 10-11 2 mark 12-14 ** name 15-16 y; 3.2 name 20-21 y mark 21-22 = name 22-23 x",
    ),
    (
        b"v = [1,\n  # two\n  2]\ny",
        "1.0 name 0-1 v mark 2-3 = mark 4-5 [ number 5-6 1 mark 6-7 , number 18-19 2 mark 19-20 ]; 4.0 name 21-22 y",
    ),
    (b"f(\n@", "Token 1"),
    (b"(\n]", "Token 1"),
    (b"([)]", "Token 1"),
    (b"a b)\n", "Token 1"),
    (b"//= /", "Token 1"),
    (b"!", "Token 1"),
    (b"x$", "Token 1"),
    (b"a { }", "Token 1"),
    (b"x => y", "1.0 name 0-1 x mark 2-3 = mark 3-4 > name 5-6 y"),
    (b"'a\\'b' \"c'\"", "1.0 text 0-6 'a\\'b' text 7-11 \"c'\""),
    (b"'\\n'", "Token 1"),
    (b"'a\nb'", "Token 1"),
    (b"'a\\\n'", "Token 1"),
    (b"'a\\\r\n'\r\n", "Token 1"),
    (b"x\r\ny\r", "Byte 2"),
    (b"x\ry", "Byte 1"),
    (b"\xEF\xBB\xBFdef # \xC3\xA9\n", "1.0 word 3-6 def"),
    (b"x \xC3\xA9", "Byte 1"),
    (b"'~ '", "1.0 text 0-4 '~ '"),
    (b"'\x7F'", "Byte 1"),
    (b"'\x1F'", "Byte 1"),
    (b" \tx", "Tab 1"),
    (b" \t# x\n\ty = 2", "Tab 2"),
    (b"x\t= 'a\tb'", "Byte 1"),
    (b"x\t= 1", "1.0 name 0-1 x mark 2-3 = number 4-5 1"),
    (b"(\n\t)", "Tab 2"),
    (b"@\n\x0C", "Byte 2"),
    (b"2147483647 0", "1.0 number 0-10 2147483647 number 11-12 0"),
    (b"2147483648", "Token 1"),
    (b"007", "Token 1"),
    (b"1.5", "Token 1"),
    (b"1_0", "Token 1"),
    (b"x.5", "1.0 name 0-1 x mark 1-2 . number 2-3 5"),
    (
        b"nonlocal notin None_",
        "1.0 word 0-8 nonlocal name 9-14 notin name 15-20 None_",
    ),
    (b"a\\\nb", "Token 1"),
];

// The same of rules.
const RULES: [(&[u8], &str); 14] = [
    (
        b"rule r: $a0 => $a0' + ?$n\n",
        "1.0 name 0-4 rule name 5-6 r mark 6-7 : meta 8-11 $a0 mark 12-14 => meta 15-19 $a0' mark 20-21 + mark 22-23 ? meta 23-25 $n",
    ),
    (b"$a' # \xC3\xA9", "1.0 meta 0-3 $a'"),
    (b"$a'\t+ 1", "1.0 meta 0-3 $a' mark 4-5 + number 6-7 1"),
    (b"$a12'x'", "1.0 meta 0-3 $a1 number 3-4 2 text 4-7 'x'"),
    (b"$a''x'", "1.0 meta 0-3 $a' text 3-6 'x'"),
    (b"$ab", "1.0 meta 0-2 $a name 2-3 b"),
    (b"$x", "Token 1"),
    (b"$1 $", "Token 1"),
    (
        b"{<,\n ==>}\nx",
        "1.0 mark 0-1 { mark 1-2 < mark 2-3 , mark 5-7 == mark 7-8 > mark 8-9 }; 3.0 name 10-11 x",
    ),
    (b"{]", "Token 1"),
    (b"\tx = '\t'", "Byte 1"),
    (b"\t x\n  y", "1.1 name 2-3 x; 2.2 name 6-7 y"),
    (b"cost 2147483648", "Token 1"),
    (
        b"=> =>= ===>",
        "1.0 mark 0-2 => mark 3-5 => mark 5-6 = mark 7-9 == mark 9-11 =>",
    ),
];

// Bytes, each with the characters that they spell as a text literal.
const LITERALS: [(&[u8], Option<&[u8]>); 10] = [
    (b"''", Some(b"")),
    (b"\"it's\"", Some(b"it's")),
    (b"'it\\'s'", Some(b"it's")),
    (b"'a\\\\b'", Some(b"a\\b")),
    (b"'\\\"'", Some(b"\"")),
    (b"'a\\n'", None),
    (b"'a", None),
    (b"'a\"", None),
    (b"'a'b'", None),
    (b"a", None),
];

// Bytes, each with the parts of the metavariable that they spell, one behind another.
const METAVARIABLES: [(&[u8], Option<(u8, Option<u8>, bool)>); 10] = [
    (b"$a", Some((b'a', None, false))),
    (b"$v0", Some((b'v', Some(b'0'), false))),
    (b"$n'", Some((b'n', None, true))),
    (b"$c9'", Some((b'c', Some(b'9'), true))),
    (b"$o", Some((b'o', None, false))),
    (b"$a'1", None),
    (b"$a12", None),
    (b"$b", None),
    (b"$", None),
    (b"a1", None),
];

fn kind_word(kind: Kind) -> &'static str {
    match kind {
        Kind::Name => "name",
        Kind::Reserved => "word",
        Kind::Number => "number",
        Kind::Text => "text",
        Kind::Mark => "mark",
        Kind::Meta => "meta",
    }
}

fn cause_word(cause: LexCause) -> &'static str {
    match cause {
        LexCause::Byte => "Byte",
        LexCause::Tab => "Tab",
        LexCause::Token => "Token",
        LexCause::LongLine => "LongLine",
    }
}

fn shown_token(alloc: Global, token: &Token) -> Result<String, Fail> {
    let text = str::from_utf8(token.text.bytes())?;
    let kind = kind_word(token.kind);
    Ok(format!(in alloc; " {kind} {}-{} {text}", token.from, token.to)?)
}

fn shown_lines(alloc: Global, lines: &[Line]) -> Result<String, Fail> {
    let mut out = String::new(alloc);
    for line in lines {
        if !out.is_empty() {
            out.push_str("; ")?;
        }
        let place = format!(in alloc; "{}.{}", line.line, line.column)?;
        out.push_str(place.as_str())?;
        for token in line.tokens.items() {
            let shown = shown_token(alloc, token)?;
            out.push_str(shown.as_str())?;
        }
    }
    Ok(out)
}

fn shown(alloc: Global, bytes: &[u8], form: Form) -> Result<String, Fail> {
    if bytes.len() > 1000 {
        return Err("a long text")?;
    }
    match lines(alloc, bytes, form) {
        Ok(found) => shown_lines(alloc, found.as_slice()),
        Err(LexError::Fault { cause, line }) => {
            let word = cause_word(cause);
            Ok(format!(in alloc; "{word} {line}")?)
        }
        Err(LexError::NoMemory) => Err("no memory")?,
    }
}

#[test]
fn programs(rt: HostRuntime) -> Result<(), Fail> {
    for (bytes, wanted) in &PROGRAMS {
        let found = shown(rt.alloc(), *bytes, Form::Program)?;
        assert_eq!(rt; found.as_str(), *wanted);
    }
    Ok(())
}

#[test]
fn rules(rt: HostRuntime) -> Result<(), Fail> {
    for (bytes, wanted) in &RULES {
        let found = shown(rt.alloc(), *bytes, Form::Rules)?;
        assert_eq!(rt; found.as_str(), *wanted);
    }
    Ok(())
}

fn is_long(alloc: Global, bytes: &[u8]) -> Result<bool, Fail> {
    if bytes.len() > 1000 {
        return Err("a long text")?;
    }
    match lines(alloc, bytes, Form::Program) {
        Ok(_) => Ok(false),
        Err(
            LexError::Fault {
                cause: LexCause::LongLine,
                line: 2,
            },
        ) => Ok(true),
        Err(_) => Err("another answer")?,
    }
}

/// A line of 400 tokens is none too many, one of 401 is.
#[test]
fn long_lines(rt: HostRuntime) -> Result<(), Fail> {
    let mut bytes = vec![in rt.alloc(); b'\n']?;
    for _ in 0..400 {
        bytes.extend_from_slice(b"x ")?;
    }
    assert!(rt; !is_long(rt.alloc(), bytes.as_slice())?);
    bytes.push(b'y')?;
    assert!(rt; is_long(rt.alloc(), bytes.as_slice())?);
    Ok(())
}

#[test]
fn literals(rt: HostRuntime) -> Result<(), Fail> {
    for (bytes, wanted) in &LITERALS {
        let found = literal_characters(rt.alloc(), *bytes)?;
        assert_eq!(rt; found.as_ref().map(|v| v.as_slice()), *wanted);
    }
    Ok(())
}

#[test]
fn metavariables(rt: HostRuntime) -> Result<(), Fail> {
    for (bytes, wanted) in &METAVARIABLES {
        let found = metavariable_of(*bytes).map(|m| (m.letter, m.digit, m.is_primed));
        assert_eq!(rt; found, *wanted);
    }
    Ok(())
}

#[test]
fn copies_and_lists(rt: HostRuntime) -> Result<(), Fail> {
    let token = Token {
        kind: Kind::Mark,
        from: 1,
        to: 3,
        text: Spelling::from_vec(b"=>".to_vec(rt.alloc())?),
    };
    let copy = token.copy()?;
    assert_eq!(rt; copy.text.bytes(), b"=>".as_slice());
    let mut tokens = Tokens::new(rt.alloc());
    tokens.push(token)?;
    let mut more = Tokens::new(rt.alloc());
    more.push(copy)?;
    tokens.append(more)?;
    assert_eq!(rt; tokens.len(), 2);
    Ok(())
}
