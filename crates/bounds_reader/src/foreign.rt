//! Bytes that no source may have outside comments.
ghost use Rattle.std.specs.Prelude.{◌≡◌, true, ◌+◌, ◌<◌, ◌^◌, length, map};
ghost use Rattle.mpy_lexer.specs.PhysicalLines.{is_line_feed_next, is_allowed};
ghost use Rattle.bounds_reader.specs.Files.{first_line};
ghost use Rattle.bounds_reader.specs.Modes.{allows, mode_behind, has_fault_from};

/// What the bytes at a place of a line belong to.
#[derive(Clone, Copy)]
pub(crate) enum Mode {
    Plain,
    /// A text literal, and whether a backslash takes the next byte with it.
    Text { quote: u8, taken: bool },
    Comment,
}

fn is_line_feed_next(rest: &[u8]) -> bool
    ensures { result ≡ is_line_feed_next rest.now }
{
    match rest {
        [] => false,
        [next, ..] => *next == b'\n',
    }
}

// Whether the byte may stand before the rest; a tab only in white space.
fn is_allowed(in_space: bool, byte: u8, rest: &[u8]) -> bool
    ensures { result ≡ is_allowed in_space byte rest.now }
{
    match byte {
        b' '..=b'~' | b'\n' => true,
        b'\r' => is_line_feed_next(rest),
        b'\t' => in_space,
        _ => false,
    }
}

impl Mode {
    // Whether the byte may stand before the rest.
    fn allows(self, byte: u8, rest: &[u8]) -> bool
        ensures { result ≡ allows self byte rest.now }
    {
        match self {
            Mode::Plain => is_allowed(true, byte, rest),
            Mode::Text { .. } => is_allowed(false, byte, rest),
            Mode::Comment => true,
        }
    }

    // The mode behind the byte.
    fn behind(self, byte: u8) -> Mode
        ensures { result ≡ mode_behind self byte }
    {
        match self {
            Mode::Plain => match byte {
                b'\'' | b'"' => Mode::Text {
                    quote: byte,
                    taken: false,
                },
                b'#' => Mode::Comment,
                _ => Mode::Plain,
            },
            Mode::Text { quote, taken } => {
                if !taken && byte == quote {
                    Mode::Plain
                } else {
                    let taken = !taken && byte == b'\\';
                    Mode::Text { quote, taken }
                }
            }
            Mode::Comment => Mode::Comment,
        }
    }
}

// Whether a byte of the line may not stand there.
#[tactic(auto, unfolding(crate::specs::Modes::has_fault_from))]
fn has_faulty_byte(line: &[u8]) -> bool
    ensures { result ≡ has_fault_from Mode.Plain line.now }
{
    let mut mode = Mode::Plain;
    for (i, byte) in line.iter().enumerate() {
        if !mode.allows(*byte, &line[i + 1..]) {
            return true;
        }
        mode = mode.behind(*byte);
    }
    false
}

/// The first line with such a byte, counted from 1.
pub(crate) fn byte_fault(lines: &[&[u8]]) -> Option<u32>
    requires { length lines.now < 2 ^ 31 }
    ensures { result ≡ first_line (has_fault_from Mode.Plain) 1 (map (λ l. l.now) lines.now) }
{
    for (i, line) in lines.iter().enumerate() {
        if has_faulty_byte(line) {
            return Some(i as u32 + 1);
        }
    }
    None
}
