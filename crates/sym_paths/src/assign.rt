//! Locals that are set.

ghost use Rattle.std.specs.Prelude.{◌≡◌, ◌<◌, Bool, List, [], ◌∷◌, length, Some, None, slice_set};
ghost use Rattle.mpy_tree.specs.declared.typing.Ty.{Ty};
ghost use Rattle.mpy_tree.specs.declared.value.Value.{Value};
ghost use Rattle.mpy_tree.specs.Values.{State, assign as assigned};
ghost use Rattle.sym_values.specs.Forms.{form_for};
ghost use Rattle.sym_values.specs.Reading.{read, sure};
ghost use Rattle.sym_values.specs.Results.{IsValueIn};
ghost use Rattle.sym_paths.specs.Paths.{way, gone_way, reached, HoldsPath};
ghost use Rattle.sym_paths.specs.Slots.{slot_forms, type_among};

use crate::path::Path;
use crate::slots::Slots;
use bit_words::bits::Bits;
use bit_words::logic::Logic;
use mpy_tree::Name;
use sym_values::SymValue;

// Bits with another one at a place.
fn replaced<B: Copy>(bits: Bits<B>, i: usize, bit: B) -> Bits<B>
    requires { i < length bits }
    ensures { result ≡ slice_set bits i bit }
{
    let mut all = bits.into_vec();
    all[i] = bit;
    Bits::from_vec(all)
}

/// A path on which a local is set to a value of its type.
pub fn assign<L: Logic>(
    g: &L,
    slots: &Slots,
    path: Path<L::Bit>,
    x: &Name,
    value: SymValue<L::Bit>,
) -> Path<L::Bit>
    requires held { HoldsPath L.owns g.now (slot_forms slots.now) path }
    requires typed { (t : Ty) × (type_among slots.now.names slots.now.types x.now ≡ Some t)
        × IsValueIn L.owns g.now (form_for slots.now.limits t) value }
    ensures held { HoldsPath L.owns g.now (slot_forms slots.now) result }
    ensures value { (vs : List Bool) (s : State) (v : Value)
        → gone_way slots.now (way (L.reads g.now vs) path ∷ []) ≡ reached (Some s)
        → read (L.reads g.now vs) value ≡ sure v
        → gone_way slots.now (way (L.reads g.now vs) result ∷ [])
        ≡ reached (Some (assigned s x.now v)) }
    ensures none { (vs : List Bool)
        → gone_way slots.now (way (L.reads g.now vs) path ∷ []) ≡ None
        → gone_way slots.now (way (L.reads g.now vs) result ∷ []) ≡ None }
{
    match slots.names.place(x) {
        None => unreachable!(),
        Some(i) => {
            let yes = g.constant(true);
            let mut values = path.values;
            values.set(i, value);
            Path {
                bit: path.bit,
                values,
                set: replaced(path.set, i, yes),
            }
        }
    }
}
