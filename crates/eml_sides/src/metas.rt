//! The metavariables of rules.
ghost use Rattle.std.specs.Prelude.{◌≡◌};
ghost use Rattle.eml_sides.specs.Metas.{meta_of, meta_terminal};

use choice_tree::{Mark, Meta};
use mpy_expressions::Terminal;
use mpy_lexer::metavariable_of;

/// The metavariable that the bytes spell, if they spell one.
fn meta_of(bytes: &[u8]) -> Option<Meta>
    ensures { result ≡ meta_of bytes.now }
{
    let Some(m) = metavariable_of(bytes) else {
        return None;
    };
    let digit = match m.digit {
        None => None,
        Some(d) => Some(d - b'0'),
    };
    Some(Meta {
        letter: m.letter,
        digit,
        primed: m.is_primed,
    })
}

/// What the grammar sees of the bytes of a metavariable.
pub(crate) fn meta_terminal(bytes: &[u8]) -> Terminal<Mark>
    ensures { result ≡ meta_terminal (meta_of bytes.now) }
{
    let Some(m) = meta_of(bytes) else {
        return Terminal::Other;
    };
    match m.letter {
        b'o' => Terminal::Operator(Mark::Meta(m)),
        b'c' => Terminal::Comparator(Mark::Meta(m)),
        _ => Terminal::Special(Mark::Meta(m)),
    }
}
