//! New variables.

ghost use Rattle.std.specs.Prelude.{◌≡◌, List, Bool, map, OnOk, IfOk};
ghost use Rattle.bit_words.specs.Logic.{Keeps};
ghost use Rattle.bit_words.specs.Results.{IsWordIn};
ghost use Rattle.bit_words.specs.Later.{AddsVariables, values_from};

use crate::NoMemory;
use crate::bits::Bits;
use crate::logic::Variables;
use std::alloc::Global;

/// So many new variables, which read as that part of the truth values. Where memory is wanting
/// some of them may have been added.
pub fn fresh_bits<V: Variables>(
    alloc: Global,
    g: &mut V,
    n: usize,
) -> Result<Bits<V::Bit>, NoMemory>
    ensures keeps { Keeps V.owns V.reads g.old g.new }
    ensures adds { OnOk result (AddsVariables V.owns V.reads V.count n g.old g.new) }
    ensures made { IfOk result (λ r. IsWordIn V.owns g.new n r) }
    ensures value { IfOk result (λ r. (vs : List Bool) →
        map (V.reads g.new vs) r ≡ values_from vs (V.count g.old) n) }
{
    let mut bits = Bits::new(alloc);
    for _ in 0..n {
        let bit = g.variable()?;
        bits.push(bit)?;
    }
    Ok(bits)
}
