//! One bit less for the same number.

ghost use Rattle.std.specs.Prelude.{◌≡◌, ◌+◌, ◌<◌, Bool, List, length, IfOk};
ghost use Rattle.bit_words.specs.Logic.{Extends, OwnsAll};
ghost use Rattle.bit_words.specs.Results.{IsCheckedIn};
ghost use Rattle.bit_words.specs.Words.{int_read, Holds, OverflowsAs};

use crate::NoMemory;
use crate::checked::Checked;
use crate::logic::Logic;
use crate::word::Word;

/// A word without its highest bit, and whether its number leaves the width that is left.
#[tactic(auto, using(crate::proofs::Kept::steps))]
pub fn narrow<L: Logic>(
    g: &mut L,
    wide: &Word<L::Bit>,
    width: usize,
) -> Result<Checked<L::Bit>, NoMemory>
    requires some { 0 < width }
    requires wider { length wide.now ≡ width + 1 }
    requires owned { OwnsAll L.owns g.old wide.now }
    ensures extends { Extends L.owns L.reads L.count g.old g.new }
    ensures made { IfOk result (λ r. IsCheckedIn L.owns g.new width r.word r.over) }
    ensures over { IfOk result (λ r. (vs : List Bool) →
        OverflowsAs (L.reads g.new vs r.over) width (int_read L.reads g.old vs wide.now)) }
    ensures value { IfOk result (λ r. (vs : List Bool) →
        Holds (int_read L.reads g.new vs r.word) width (int_read L.reads g.old vs wide.now)) }
{
    let top = wide.at(width - 1);
    let sign = wide.at(width);
    let low = wide.low_bits(width)?;
    let over = g.xor(top, sign)?;
    Ok(Checked { word: low, over })
}
