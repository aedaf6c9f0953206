//! Lines of texts, and words of lines.
ghost use Rattle.std.specs.Prelude.{◌≡◌, ◌<◌, ◌≤◌, ◌∷◌, ◌++◌, ◌==◌, [], List, ℕ, IfNone, IfSome};
ghost use Rattle.std.specs.Prelude.{length, not, true};
ghost use Rattle.std.specs.List.{list_all, prefix_len};
ghost use Rattle.dimacs_text.specs.CnfTexts.{is_inside, starts_outside};
ghost use Rattle.dimacs_text.specs.TextLines.{begins, is_space, lines_of, words_of};

use step_lines::words::{Cut, cut_at};

/// Whether a line begins with a byte.
pub(crate) fn begins(line: &[u8], byte: u8) -> bool
    ensures { result ≡ begins byte line.now }
{
    match line {
        [first, ..] => *first == byte,
        [] => false,
    }
}

fn is_space(c: u8) -> bool
    ensures { result ≡ is_space c }
{
    c == b' ' || c == b'\t' || c == b'\r'
}

/// The line at the front of the text, without the byte that ends it; none where the text is empty.
pub(crate) fn first_line(text: &[u8]) -> Option<Cut<'_>>
    ensures cut { IfSome result (λ c. lines_of text.now ≡ c.piece.now ∷ lines_of c.rest.now) }
    ensures shorter { IfSome result (λ c. length c.rest.now < length text.now) }
    ensures none { IfNone result (text.now ≡ []) }
{
    let cut = cut_at(text, b'\n');
    match cut.rest {
        [_, rest @ ..] => Some(Cut {
            piece: cut.piece,
            rest,
        }),
        [] if cut.piece.is_empty() => None,
        [] => Some(cut),
    }
}

/// The line at the front of the text; none where the text is empty, or the line ends it.
pub(crate) fn inside_line(text: &[u8]) -> Option<Cut<'_>>
    ensures cut { IfSome result (λ c. lines_of text.now ≡ c.piece.now ∷ lines_of c.rest.now) }
    ensures inside { IfSome result (λ c. is_inside c.piece.now ≡ true) }
    ensures shorter { IfSome result (λ c. length c.rest.now < length text.now) }
    ensures none { IfNone result (starts_outside (lines_of text.now) ≡ true) }
{
    let cut = first_line(text)?;
    if begins(cut.piece, b'%') {
        return None;
    }
    Some(cut)
}

fn spaces_len(text: &[u8]) -> usize
    ensures same { result ≡ prefix_len is_space text.now }
    ensures within { result ≤ length text.now }
{
    text.iter().take_while(|c| is_space(**c)).count()
}

fn word_len(text: &[u8]) -> usize
    ensures same { result ≡ prefix_len (λ c. not (is_space c)) text.now }
    ensures within { result ≤ length text.now }
{
    text.iter().take_while(|c| !is_space(**c)).count()
}

/// The word at the front of the text, behind spaces, up to the next space; none where there are
/// only spaces.
pub(crate) fn first_word(text: &[u8]) -> Option<Cut<'_>>
    ensures cut { IfSome result (λ c. words_of text.now ≡ c.piece.now ∷ words_of c.rest.now) }
    ensures shorter { IfSome result (λ c. length c.rest.now < length text.now) }
    ensures none { IfNone result (words_of text.now ≡ []) }
{
    let (_, words) = text.split_at(spaces_len(text));
    let (piece, rest) = words.split_at(word_len(words));
    if piece.is_empty() {
        return None;
    }
    Some(Cut { piece, rest })
}

/// Whether a line has no words.
pub(crate) fn has_no_words(line: &[u8]) -> bool
    ensures { result ≡ list_all is_space line.now }
{
    line.iter().all(|c| is_space(*c))
}
