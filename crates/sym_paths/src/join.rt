//! One path in place of several.

ghost use Rattle.std.specs.Prelude.{◌≡◌, Bool, List, [], ◌∷◌, map, if◌then◌else◌, option_to_list};
ghost use Rattle.std.specs.Prelude.{IfOk};
ghost use Rattle.bit_words.specs.Logic.{Extends, OwnsAll};
ghost use Rattle.sym_values.specs.Forms.{forms_of, values_bits};
ghost use Rattle.sym_values.specs.Reading.{map_bits};
ghost use Rattle.sym_paths.specs.Paths.{way, ways, gone_way, HoldsPath, HoldsPaths};
ghost use Rattle.sym_paths.specs.Slots.{slot_forms};

use crate::path::{Many, Path};
use crate::slots::Slots;
use bit_words::NoMemory;
use bit_words::bits::Bits;
use bit_words::bitwise::choose_bits;
use bit_words::gates::or;
use bit_words::logic::Logic;
use std::alloc::Global;
use sym_values::SymValues;
use sym_values::choose::choose_value;

/// The values of one list where a bit is true, and those of another with the same forms where it
/// isn't.
pub fn choose_values<L: Logic>(
    alloc: Global,
    g: &mut L,
    test: L::Bit,
    yes: &SymValues<L::Bit>,
    no: &SymValues<L::Bit>,
) -> Result<SymValues<L::Bit>, NoMemory>
    requires test { L.owns g.old test }
    requires alike { forms_of no.now ≡ forms_of yes.now }
    requires yes { OwnsAll L.owns g.old (values_bits yes.now) }
    requires no { OwnsAll L.owns g.old (values_bits no.now) }
    ensures extends { Extends L.owns L.reads L.count g.old g.new }
    ensures owned { IfOk result (λ r. OwnsAll L.owns g.new (values_bits r)) }
    ensures forms { IfOk result (λ r. forms_of r ≡ forms_of yes.now) }
    ensures value { IfOk result (λ r. (vs : List Bool) →
        map (map_bits (L.reads g.new vs)) r
        ≡ (if L.reads g.old vs test then map (map_bits (L.reads g.old vs)) yes.now
        else map (map_bits (L.reads g.old vs)) no.now)) }
{
    let mut chosen = SymValues::new(alloc);
    for i in 0..yes.len() {
        let first = yes.at(i);
        let second = no.at(i);
        let value = choose_value(alloc, g, test, first, second)?;
        chosen.push(value)?;
    }
    Ok(chosen)
}

/// One path in place of two. The first counts where both are taken.
pub fn join_two<L: Logic>(
    alloc: Global,
    g: &mut L,
    slots: &Slots,
    a: &Path<L::Bit>,
    b: &Path<L::Bit>,
) -> Result<Path<L::Bit>, NoMemory>
    requires first { HoldsPath L.owns g.old (slot_forms slots.now) a.now }
    requires second { HoldsPath L.owns g.old (slot_forms slots.now) b.now }
    ensures extends { Extends L.owns L.reads L.count g.old g.new }
    ensures held { IfOk result (λ r. HoldsPath L.owns g.new (slot_forms slots.now) r) }
    ensures value { IfOk result (λ r. (vs : List Bool) →
        gone_way slots.now (way (L.reads g.new vs) r ∷ [])
        ≡ gone_way slots.now
        (way (L.reads g.old vs) a.now ∷ way (L.reads g.old vs) b.now ∷ [])) }
{
    let bit = or(g, a.bit, b.bit)?;
    let values = choose_values(alloc, g, a.bit, &a.values, &b.values)?;
    let set = choose_bits(alloc, g, a.bit, a.set.as_slice(), b.set.as_slice())?;
    Ok(Path { bit, values, set })
}

/// One path in place of two. Where it is known of one whether it is taken, that decides.
pub fn join_known<L: Logic>(
    alloc: Global,
    g: &mut L,
    slots: &Slots,
    a: Path<L::Bit>,
    b: Path<L::Bit>,
) -> Result<Path<L::Bit>, NoMemory>
    requires first { HoldsPath L.owns g.old (slot_forms slots.now) a }
    requires second { HoldsPath L.owns g.old (slot_forms slots.now) b }
    ensures extends { Extends L.owns L.reads L.count g.old g.new }
    ensures held { IfOk result (λ r. HoldsPath L.owns g.new (slot_forms slots.now) r) }
    ensures value { IfOk result (λ r. (vs : List Bool) →
        gone_way slots.now (way (L.reads g.new vs) r ∷ [])
        ≡ gone_way slots.now
        (way (L.reads g.old vs) a ∷ way (L.reads g.old vs) b ∷ [])) }
{
    match g.known(a.bit) {
        Some(true) => Ok(a),
        Some(false) => Ok(b),
        None => match g.known(b.bit) {
            Some(false) => Ok(a),
            _ => {
                let joined = join_two(alloc, g, slots, &a, &b)?;
                Ok(joined)
            }
        },
    }
}

/// One path in place of all, which is taken where one of them is, or none where it is known that
/// none is.
pub fn join_all<L: Logic>(
    alloc: Global,
    g: &mut L,
    slots: &Slots,
    mut all: Many<Path<L::Bit>>,
) -> Result<Option<Path<L::Bit>>, NoMemory>
    requires { HoldsPaths L.owns g.old (slot_forms slots.now) all }
    ensures extends { Extends L.owns L.reads L.count g.old g.new }
    ensures held { IfOk result (λ r.
        HoldsPaths L.owns g.new (slot_forms slots.now) (option_to_list r)) }
    ensures value { IfOk result (λ r. (vs : List Bool) →
        gone_way slots.now (ways (L.reads g.new vs) (option_to_list r))
        ≡ gone_way slots.now (ways (L.reads g.old vs) all)) }
{
    let Some(last) = all.pop() else {
        return Ok(None);
    };
    let mut joined = last;
    while let Some(path) = all.pop() {
        joined = join_known(alloc, g, slots, path, joined)?;
    }
    match g.known(joined.bit) {
        Some(false) => Ok(None),
        _ => Ok(Some(joined)),
    }
}
