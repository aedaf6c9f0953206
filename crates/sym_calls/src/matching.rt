//! Whether two calls are one.

ghost use Rattle.std.specs.Prelude.{◌≡◌, IfOk, IsTrue};
ghost use Rattle.bit_words.specs.Logic.{OwnsAll};
ghost use Rattle.sym_values.specs.Forms.{values_bits};
ghost use Rattle.sym_calls.specs.Remembered.{IsSameCall};

use crate::call::Call;
use crate::same::same_values;
use bit_words::NoMemory;
use bit_words::logic::Logic;
use mpy_tree::Limits;
use sym_values::SymOutcome;

// Whether two limits are the same.
fn same_limits(a: &Limits, b: &Limits) -> bool
    ensures { IsTrue result → a.now ≡ b.now }
{
    a.width == b.width
        && a.turns == b.turns
        && a.depth == b.depth
        && a.cap == b.cap
        && a.prints == b.prints
}

// Whether two calls are of one function, at one level and at the same limits.
fn is_same_place<B: Copy>(c: &Call<B>, d: &Call<B>) -> bool
    ensures level { IsTrue result → c.now.level ≡ d.now.level }
    ensures limits { IsTrue result → c.now.limits ≡ d.now.limits }
    ensures name { IsTrue result → c.now.name ≡ d.now.name }
{
    c.level == d.level && same_limits(&c.limits, &d.limits) && c.name.is(&d.name)
}

/// Whether two calls are of one function, at one level, on arguments that are the same bits.
pub(crate) fn is_same_call<L: Logic>(g: &L, c: &Call<L::Bit>, d: &Call<L::Bit>) -> bool
    requires left { OwnsAll L.owns g.now (values_bits c.now.args) }
    requires right { OwnsAll L.owns g.now (values_bits d.now.args) }
    ensures { IsTrue result → IsSameCall L.reads g.now c.now d.now }
{
    is_same_place(c, d) && same_values(g, &c.args, &d.args)
}

/// An equal outcome.
pub(crate) fn copy_of<B: Copy>(outcome: &SymOutcome<B>) -> Result<SymOutcome<B>, NoMemory>
    ensures { IfOk result (λ r. r ≡ outcome.now) }
{
    let value = outcome.value.copy()?;
    Ok(SymOutcome {
        value,
        fault: outcome.fault,
    })
}
