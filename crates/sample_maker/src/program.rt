//! The two programs of a sample.
ghost use Rattle.std.specs.Prelude.{◌≡◌, ◌≤◌, ◌<◌, ◌++◌, ◌==◌, ◌&&◌, IfOk, OnOk};
ghost use Rattle.std.specs.Int.{bit_at};
ghost use Rattle.sample_maker.specs.Samples.{amount_at, block_text, is_wrong, limit_at};
ghost use Rattle.sample_maker.specs.Samples.{program_text};
ghost use Rattle.sample_maker.specs.Versions.{operator_of};

use crate::NoMemory;
use std::alloc::Global;

/// Which of the programs it is.
#[derive(Clone, Copy)]
pub enum Version {
    Reference,
    Submission,
}

/// With what a block compares x.
fn limit_at(number: u32, place: u32) -> i32
    requires number { number ≤ 65535 }
    requires place { place < 40 }
    ensures { result ≡ limit_at number place }
{
    ((7 * place + number) % 9) as i32 - 4
}

/// What a block adds.
fn amount_at(number: u32, place: u32) -> u32
    requires number { number ≤ 65535 }
    requires place { place < 40 }
    ensures { result ≡ amount_at number place }
{
    1 + (3 * place + number) % 5
}

/// Whether the submission has a block wrong.
fn is_wrong(number: u32, place: u32) -> bool
    requires place { place < 40 }
    ensures { result ≡ is_wrong number place }
{
    place % 5 == 4 && (number >> (place / 5)) & 1 == 1
}

impl Version {
    /// By which operator a block compares.
    fn operator_at(self, number: u32, place: u32) -> &'static str
        requires place { place < 40 }
        ensures { result.now ≡ operator_of self number place }
    {
        match self {
            Version::Reference => "<",
            Version::Submission => { if is_wrong(number, place) { "<=" } else { "<" } }
        }
    }
}

/// The text of a block.
fn block(alloc: Global, operator: &str, number: u32, place: u32) -> Result<Vec<u8>, NoMemory>
    requires number { number ≤ 65535 }
    requires place { place < 40 }
    ensures { IfOk result (λ t. t.items ≡ block_text operator.now number place) }
{
    let limit = limit_at(number, place);
    let amount = amount_at(number, place);
    let text = format!(in alloc; "    if x {operator} {limit}:\n        t = t + {amount}\n")?;
    Ok(text.into_bytes())
}

/// The text of a program.
pub fn program(alloc: Global, version: Version, number: u32) -> Result<Vec<u8>, NoMemory>
    requires { number ≤ 65535 }
    ensures { IfOk result (λ t. t.items ≡ program_text (operator_of version number) number) }
{
    let mut text = b"def f(x):\n    t = 0\n".to_vec(alloc)?;
    for place in 0..40 {
        let operator = version.operator_at(number, place);
        let lines = block(alloc, operator, number, place)?;
        text.extend_from_slice(lines.as_slice())?;
    }
    text.extend_from_slice(b"    return t\n")?;
    Ok(text)
}
