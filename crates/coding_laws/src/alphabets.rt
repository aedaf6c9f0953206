//! The alphabets of bounds.
ghost use Rattle.coding_laws.specs.Alphabets.{HasPrintable, IsPrintable};

use bounds_reader::{Bounds, Param};

fn is_printable(p: &Param)
    ensures { IsPrintable p.now }
{
    if let Param::Text { alphabet, .. } = p {
        let _bytes = alphabet.bytes();
    }
}

/// Each character of an alphabet is from 32 to 126.
pub fn alphabets_are_printable(bounds: &Bounds)
    ensures { HasPrintable bounds.now }
{
    for p in bounds.params.items() {
        is_printable(p);
    }
}
