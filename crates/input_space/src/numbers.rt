//! Numbers of 32 bits as texts.
ghost use Rattle.std.specs.Prelude.{◌≡◌, ◌↔◌, IsTrue, ℤ, Some};
ghost use Rattle.std.specs.Fmt.{signed_decimal};
ghost use Rattle.input_space.specs.Cases.{SpellsNumber};
ghost use Rattle.clause_base.specs.Readings.{IsReading};

use itoa::Buffer;

// The number that the text is read as; more texts than one are read as the same number.
fn parsed(text: &[u8]) -> Option<i32>
    ensures { (z : ℤ) → SpellsNumber text.now z → result ≡ Some z }
{
    match str::from_utf8(text) {
        Ok(text) => i32::from_str_radix(text, 10).ok(),
        Err(_) => None,
    }
}

fn is_text_of(number: i32, text: &[u8]) -> bool
    ensures { IsTrue result ↔ (text.now ≡ signed_decimal number) }
{
    let mut buffer = Buffer::new();
    buffer.format(number).as_bytes() == text
}

/// The number that the text spells.
pub(crate) fn number(text: &[u8]) -> Option<i32>
    ensures { IsReading (SpellsNumber text.now) result }
{
    match parsed(text) {
        Some(z) if is_text_of(z, text) => Some(z),
        _ => None,
    }
}
