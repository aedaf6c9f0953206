//! How long the text of the first value is.
ghost use Rattle.std.specs.Prelude.{◌≡◌, ◌≤◌, ◌==◌, not, length, false};
ghost use Rattle.std.specs.List.{prefix_len};
ghost use Rattle.input_space.specs.Pieces.{closed_len, list_len, number_len, value_len};

/// How long the number at the front of the text is: the comma behind it ends it.
pub(crate) fn number_len(text: &[u8]) -> usize
    ensures same { result ≡ number_len text.now }
    ensures within { result ≤ length text.now }
{
    text.iter().take_while(|c| **c != b',').count()
}

// How far the first closing bracket is away.
fn bracket_at(text: &[u8]) -> usize
    ensures same { result ≡ prefix_len (λ c. not (c == 93)) text.now }
    ensures within { result ≤ length text.now }
{
    text.iter().take_while(|c| **c != b']').count()
}

// How long the list at the front of the text is: its bracket ends it.
fn list_len(text: &[u8]) -> usize
    ensures same { result ≡ list_len text.now }
    ensures within { result ≤ length text.now }
{
    (bracket_at(text) + 1).min(text.len())
}

// How long the rest of the text literal at the front is: the quote ends it that no backslash
// stands before.
fn closed_len(quote: u8, text: &[u8]) -> usize
    ensures same { result ≡ closed_len quote false text.now }
    ensures within { result ≤ length text.now }
{
    let mut escaped = false;
    for (i, c) in text.iter().enumerate() {
        if escaped {
            escaped = false;
        } else if *c == quote {
            return i + 1;
        } else {
            escaped = *c == b'\\';
        }
    }
    text.len()
}

/// How long the value at the front of the text is, if one stands there.
pub(crate) fn value_len(text: &[u8]) -> usize
    ensures same { result ≡ value_len text.now }
    ensures within { result ≤ length text.now }
{
    match text {
        [quote @ (b'\'' | b'"'), rest @ ..] => 1 + closed_len(*quote, rest),
        [b'[', ..] => list_len(text),
        _ => number_len(text),
    }
}
