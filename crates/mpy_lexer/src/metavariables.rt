//! The parts of a metavariable of rules.
ghost use Rattle.std.specs.Prelude.{◌≡◌, false, IfNone, IfSome};
ghost use Rattle.mpy_lexer.specs.Metavariables.{spelling, IsMetavariable};
ghost use Rattle.mpy_lexer.specs.TokenForms.{is_meta};

use crate::bytes::is_meta_letter;

/// The parts of a metavariable, each as its byte.
#[derive(Clone, Copy, PartialEq, Eq, Debug, Drop)]
pub struct Metavariable {
    /// What it stands for: `a`, `v`, `n`, `c` or `o`.
    pub letter: u8,
    /// Its digit, `0` to `9`, if it has one.
    pub digit: Option<u8>,
    /// Whether a `'` ends it.
    pub is_primed: bool,
}

/// The parts of the metavariable that the bytes spell; None exactly where they spell none.
pub fn metavariable_of(bytes: &[u8]) -> Option<Metavariable>
    ensures parts { IfSome result (λ m. IsMetavariable m × (bytes.now ≡ spelling m)) }
    ensures none { IfNone result (is_meta bytes.now ≡ false) }
{
    let [b'$', letter, rest @ ..] = bytes else {
        return None;
    };
    if !is_meta_letter(*letter) {
        return None;
    }
    let (digit, is_primed) = match rest {
        [] => (None, false),
        [b'\''] => (None, true),
        [digit] if digit.is_ascii_digit() => (Some(*digit), false),
        [digit, b'\''] if digit.is_ascii_digit() => (Some(*digit), true),
        _ => return None,
    };
    Some(Metavariable {
        letter: *letter,
        digit,
        is_primed,
    })
}
