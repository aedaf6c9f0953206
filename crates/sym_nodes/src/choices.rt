//! Picks: one of several outcomes, by the bits of a member's number.

ghost use Rattle.std.specs.Prelude.{◌≡◌, ◌<◌, ℕ, Bool, List, length, nat_eq, Some, IfOk, IsSome};
ghost use Rattle.std.specs.Prelude.{slice_get};
ghost use Rattle.std.specs.declared.result.Result.{Result};
ghost use Rattle.mpy_tree.specs.declared.outcome.Halted.{Halted};
ghost use Rattle.mpy_tree.specs.declared.typing.Ty.{Ty};
ghost use Rattle.mpy_tree.specs.declared.value.Value.{Value};
ghost use Rattle.bit_words.specs.Logic.{Extends, OwnsAll};
ghost use Rattle.bit_words.specs.Words.{nat_read};
ghost use Rattle.sym_values.specs.declared.value.SymOutcome.{SymOutcome as Outcome};
ghost use Rattle.sym_values.specs.Forms.{form_for};
ghost use Rattle.sym_values.specs.Reading.{OutcomeReads};
ghost use Rattle.sym_values.specs.Results.{IsOutcomeIn};
ghost use Rattle.sym_nodes.specs.Operands.{ArePartsIn, types_of};
ghost use Rattle.sym_nodes.specs.Members.{common_type, place_chosen};

use crate::shortcuts::choose_outcome;
use bit_words::NoMemory;
use bit_words::bits::Bits;
use bit_words::logic::Logic;
use mpy_tree::Limits;
use std::alloc::Global;
use sym_values::SymOutcome;

/// Whether a number without a sign is a given one.
pub fn is_place<L: Logic>(g: &mut L, bits: &[L::Bit], place: usize) -> Result<L::Bit, NoMemory>
    requires { OwnsAll L.owns g.old bits.now }
    ensures extends { Extends L.owns L.reads L.count g.old g.new }
    ensures owned { IfOk result (λ r. L.owns g.new r) }
    ensures value { IfOk result (λ r. (vs : List Bool) →
        L.reads g.new vs r ≡ nat_eq (nat_read L.reads g.old vs bits.now) place) }
{
    let mut alike = g.constant(true);
    let mut rest = place;
    for i in 0..bits.len() {
        let left = bits[i];
        let right = g.constant(rest % 2 == 1);
        let other = g.xor(left, right)?;
        let same = g.not(other);
        alike = g.and(alike, same)?;
        rest /= 2;
    }
    if rest != 0 {
        return Ok(g.constant(false));
    }
    Ok(alike)
}

/// The outcome of the member that some bits name, a number without a sign: of the first, the base,
/// for 0, and where there are no more members than the number.
pub fn chosen_outcome<L: Logic>(
    alloc: Global,
    g: &mut L,
    limits: &Limits,
    member: &Bits<L::Bit>,
    parts: &[SymOutcome<L::Bit>],
) -> Result<SymOutcome<L::Bit>, NoMemory>
    requires member { OwnsAll L.owns g.old member.now }
    requires parts { ArePartsIn L.owns g.old limits.now parts.now }
    requires typed { IsSome (common_type (types_of parts.now)) }
    ensures extends { Extends L.owns L.reads L.count g.old g.new }
    ensures made { IfOk result (λ r. (t : Ty) → common_type (types_of parts.now) ≡ Some t
        → IsOutcomeIn L.owns g.new (form_for limits.now t) r) }
    ensures value { IfOk result (λ r. (vs : List Bool) (o : Outcome L.Bit) (x : Result Value Halted)
        → slice_get parts.now
        (place_chosen (nat_read L.reads g.old vs member.now) (length parts.now)) ≡ Some o
        → OutcomeReads (L.reads g.old vs) o x → OutcomeReads (L.reads g.new vs) r x) }
{
    let base = &parts[0];
    let mut chosen = SymOutcome {
        value: base.value.copy()?,
        fault: base.fault,
    };
    for i in 1..parts.len() {
        let named = is_place(g, member.as_slice(), i)?;
        chosen = choose_outcome(alloc, g, named, &parts[i], &chosen)?;
    }
    Ok(chosen)
}
