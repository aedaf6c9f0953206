//! The path at the start of a body.

ghost use Rattle.std.specs.Prelude.{◌≡◌, ◌+◌, ℕ, Bool, true, List, [], ◌∷◌, ◌++◌, length, map};
ghost use Rattle.std.specs.Prelude.{drop, replicate, Some, IfOk};
ghost use Rattle.mpy_tree.specs.declared.value.Value.{Value};
ghost use Rattle.mpy_tree.specs.Running.{bound};
ghost use Rattle.bit_words.specs.Logic.{OwnsAll};
ghost use Rattle.sym_values.specs.Forms.{forms_of, values_bits};
ghost use Rattle.sym_values.specs.Reading.{map_bits};
ghost use Rattle.sym_paths.specs.Paths.{way, gone_way, reached, are_proper, ReadAs, HoldsPath};
ghost use Rattle.sym_paths.specs.Paths.{kept_proper, printed_in};
ghost use Rattle.sym_paths.specs.Places.{Begins};
ghost use Rattle.sym_paths.specs.Slots.{kept_by, local_forms, slot_forms};

use crate::path::Path;
use crate::printed::with_nothing_printed;
use crate::slots::Slots;
use bit_words::NoMemory;
use bit_words::bits::Bits;
use bit_words::logic::Logic;
use std::alloc::Global;
use sym_values::SymValues;
use sym_values::constant::zero_value;

// Bits with so many constants more.
fn with_constants<L: Logic>(
    g: &L,
    bits: Bits<L::Bit>,
    truth: bool,
    count: usize,
) -> Result<Bits<L::Bit>, NoMemory>
    requires { OwnsAll L.owns g.now bits }
    ensures owned { IfOk result (λ r. OwnsAll L.owns g.now r) }
    ensures width { IfOk result (λ r. length r ≡ length bits + count) }
    ensures value { IfOk result (λ r. (vs : List Bool) →
        map (L.reads g.now vs) r ≡ map (L.reads g.now vs) bits ++ replicate count truth) }
{
    let bit = g.constant(truth);
    let mut all = bits;
    for _ in 0..count {
        all.push(bit)?;
    }
    Ok(all)
}

// The values of all locals: those of the parameters, and a zero of its type for each other one; and
// that nothing was printed, where that is kept.
fn with_zeros<L: Logic>(
    alloc: Global,
    g: &L,
    slots: &Slots,
    args: SymValues<L::Bit>,
) -> Result<SymValues<L::Bit>, NoMemory>
    requires owned { OwnsAll L.owns g.now (values_bits args) }
    requires typed { Begins (forms_of args) (local_forms slots.now) }
    ensures owned { IfOk result (λ r. OwnsAll L.owns g.now (values_bits r)) }
    ensures forms { IfOk result (λ r. forms_of r ≡ slot_forms slots.now) }
    ensures begins { IfOk result (λ r. Begins args r) }
    ensures proper { IfOk result (λ r. (vs : List Bool) →
        are_proper (map (map_bits (L.reads g.now vs)) r)
        ≡ are_proper (map (map_bits (L.reads g.now vs)) args)) }
    ensures kept { IfOk result (λ r. (vs : List Bool) →
        printed_in slots.now.limits
        (map (map_bits (L.reads g.now vs)) (drop (length slots.now.types) r))
        ≡ kept_by slots.now) }
    ensures kept_proper { IfOk result (λ r. (vs : List Bool) →
        kept_proper slots.now.limits
        (map (map_bits (L.reads g.now vs)) (drop (length slots.now.types) r))
        ≡ true) }
{
    let mut values = args;
    for i in values.len()..slots.count() {
        let ty = slots.type_at(i);
        let zero = zero_value(alloc, g, &slots.limits, ty)?;
        values.push(zero)?;
    }
    let all = with_nothing_printed(alloc, g, slots, values)?;
    Ok(all)
}

/// The path at the start of a body whose parameters, which are the first of its locals, have these
/// arguments. It is always taken, and no other local is set.
pub fn entry<L: Logic>(
    alloc: Global,
    g: &L,
    slots: &Slots,
    args: SymValues<L::Bit>,
) -> Result<Path<L::Bit>, NoMemory>
    requires owned { OwnsAll L.owns g.now (values_bits args) }
    requires typed { Begins (forms_of args) (local_forms slots.now) }
    ensures held { IfOk result (λ r. HoldsPath L.owns g.now (slot_forms slots.now) r) }
    ensures value { IfOk result (λ r.
        (vs : List Bool) (params : List (List ℕ)) (values : List Value)
        → Begins params slots.now.names → length params ≡ length args
        → ReadAs (L.reads g.now vs) args values
        → gone_way slots.now (way (L.reads g.now vs) r ∷ [])
        ≡ reached (Some (record { locals = bound params values; printed = kept_by slots.now }))) }
{
    let given = args.len();
    let values = with_zeros(alloc, g, slots, args)?;
    let others = values.len() - given;
    let marked = with_constants(g, Bits::new(alloc), true, given)?;
    let set = with_constants(g, marked, false, others)?;
    let bit = g.constant(true);
    Ok(Path { bit, values, set })
}
