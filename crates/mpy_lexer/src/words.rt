//! Names, the words that are none, and the marks.
ghost use Rattle.std.specs.Prelude.{◌≡◌, ◌≤◌, length, map, nat_eq};
ghost use Rattle.std.specs.Cmp.Lexicographic.{pointwise};
ghost use Rattle.std.specs.List.{list_all, list_any};
ghost use Rattle.mpy_lexer.specs.Bytes.{is_name_byte};
ghost use Rattle.mpy_lexer.specs.TokenForms.{is_name};
ghost use Rattle.mpy_lexer.specs.Words.{is_reserved, first_len, mark_len};

use crate::bytes::{is_name_byte, is_name_start};
use crate::forms::Form;

const RESERVED: [&[u8]; 35] = [
    b"and",
    b"as",
    b"assert",
    b"async",
    b"await",
    b"break",
    b"class",
    b"continue",
    b"def",
    b"del",
    b"elif",
    b"else",
    b"except",
    b"finally",
    b"for",
    b"from",
    b"global",
    b"if",
    b"import",
    b"in",
    b"is",
    b"lambda",
    b"None",
    b"nonlocal",
    b"not",
    b"or",
    b"pass",
    b"raise",
    b"return",
    b"True",
    b"False",
    b"try",
    b"while",
    b"with",
    b"yield",
];

// The marks of programs, the longer ones first.
const PROGRAM_MARKS: [&[u8]; 25] = [
    b"//=", b"==", b"!=", b"<=", b">=", b"//", b"**", b"+=", b"-=", b"*=", b"%=", b"(", b")", b"[",
    b"]", b":", b",", b".", b"=", b"<", b">", b"+", b"-", b"*", b"%",
];

// Those of rules.
const RULE_MARKS: [&[u8]; 29] = [
    b"//=", b"=>", b"==", b"!=", b"<=", b">=", b"//", b"**", b"+=", b"-=", b"*=", b"%=", b"(",
    b")", b"[", b"]", b":", b",", b".", b"=", b"<", b">", b"+", b"-", b"*", b"%", b"?", b"{", b"}",
];

fn is_one_of(word: &[u8], words: &[&[u8]]) -> bool
    ensures { result ≡ list_any (λ w. pointwise nat_eq word.now w.now) words.now }
{
    words.iter().any(|w| word == *w)
}

fn are_name_bytes(bytes: &[u8]) -> bool
    ensures { result ≡ list_all is_name_byte bytes.now }
{
    bytes.iter().all(|b| is_name_byte(*b))
}

/// Whether the word has the form of a name: letters, digits and underscores, the first no digit.
pub fn is_name(word: &[u8]) -> bool
    ensures { result ≡ is_name word.now }
{
    match word {
        [] => false,
        [first, rest @ ..] => is_name_start(*first) && are_name_bytes(rest),
    }
}

/// Whether the word is no name though it has the form of one.
#[tactic(auto, unfolding(crate::specs::Words::is_reserved))]
pub fn is_reserved(word: &[u8]) -> bool
    ensures { result ≡ is_reserved word.now }
{
    is_one_of(word, &RESERVED)
}

// How long the first of the words is that stands at the front of the text; 0 where none does.
fn first_len(words: &[&[u8]], text: &[u8]) -> usize
    ensures same { result ≡ first_len (map (λ w. w.now) words.now) text.now }
    ensures within { result ≤ length text.now }
{
    for word in words {
        if text.starts_with(word) {
            return word.len();
        }
    }
    0
}

/// How long the longest mark is at the front of the text; 0 where there is none.
#[tactic(auto, unfolding(crate::specs::Words::mark_len))]
pub(crate) fn mark_len(form: Form, text: &[u8]) -> usize
    ensures same { result ≡ mark_len form text.now }
    ensures within { result ≤ length text.now }
{
    match form {
        Form::Program => first_len(&PROGRAM_MARKS, text),
        Form::Rules => first_len(&RULE_MARKS, text),
    }
}
