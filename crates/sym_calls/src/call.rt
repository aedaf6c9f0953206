//! Calls of functions.

ghost use Rattle.std.specs.Prelude.{◌≡◌, IfOk};

use bit_words::NoMemory;
use mpy_tree::{Limits, Name};
use sym_values::{SymOutcome, SymValues};

/// A call of a function, by its name.
#[derive(Drop)]
pub struct Call<B: Copy> {
    /// How many levels of calls there are from this one on.
    pub level: u32,
    pub limits: Limits,
    pub name: Name,
    pub args: SymValues<B>,
}

/// A call that was made, and what it gave.
#[derive(Drop)]
pub struct MadeCall<B: Copy> {
    pub call: Call<B>,
    pub outcome: SymOutcome<B>,
}

/// The call of a function at a level.
pub(crate) fn call_of<B: Copy>(
    level: u32,
    limits: &Limits,
    name: &Name,
    args: &SymValues<B>,
) -> Result<Call<B>, NoMemory>
    ensures { IfOk result (λ c. c
        ≡ record { level = level; limits = limits.now; name = name.now; args = args.now }) }
{
    let name = name.copy()?;
    let args = args.copy()?;
    Ok(Call {
        level,
        limits: *limits,
        name,
        args,
    })
}
