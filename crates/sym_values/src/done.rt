//! How a run ends, as bits.

ghost use Rattle.std.specs.Prelude.{◌≡◌, ◌<◌, ◌++◌, ◌∷◌, [], length, slice_get, Some, OnOk, OnErr};

use crate::value::SymValue;
use bit_words::NoMemory;
use bit_words::bits::Bits;
use std::alloc::Global;
use std::marker::Model;

/// A printed value of any type: the number of its type, from 0 in the order Int, Bool, List, Text,
/// and its bits, the lowest places first, with room for the largest type.
#[derive(Drop)]
pub struct PrintSlot<B: Copy> {
    pub kind: Bits<B>,
    pub bits: Bits<B>,
}

/// A list of printed values.
#[derive(Drop)]
pub struct PrintSlots<B: Copy> {
    slots: Vec<PrintSlot<B>>,
}

impl<B: Copy> Model for PrintSlots<B> {
    ghost use Rattle.std.specs.Prelude.{List};
    ghost use Rattle.sym_values.specs.declared.done.PrintSlot.{PrintSlot as AnySlot};

    ghost Value = { List (AnySlot B) };

    ghost view = { λ v. v.slots.items };
}

impl<B: Copy> PrintSlots<B> {
    /// No printed values.
    pub fn new(alloc: Global) -> Self
        ensures { result ≡ [] }
    {
        PrintSlots {
            slots: Vec::new(alloc),
        }
    }

    /// How many there are.
    pub fn len(&self) -> usize
        ensures { result ≡ length self.now }
    {
        self.slots.len()
    }

    /// The printed value at a place.
    pub fn at(&self, i: usize) -> &PrintSlot<B>
        requires { i < length self.now }
        ensures { slice_get self.now i ≡ Some result.now }
    {
        &self.slots[i]
    }

    /// Adds a printed value at the end. Where memory is wanting the list stays as it was.
    pub fn push(&mut self, slot: PrintSlot<B>) -> Result<(), NoMemory>
        ensures ok { OnOk result (self.new ≡ self.old ++ slot ∷ []) }
        ensures err { OnErr result (self.new ≡ self.old) }
    {
        self.slots.push(slot)?;
        Ok(())
    }
}

/// How a run ends.
#[derive(Drop)]
pub struct SymDone<B: Copy> {
    /// The value; none where the entry's result has no type.
    pub value: Option<SymValue<B>>,
    /// Whether the run ends with the value.
    pub has: B,
    /// Whether there is a fault; all else is then open.
    pub fault: B,
    /// How many values were printed, where they are kept: 5 bits, without a sign.
    pub len: Bits<B>,
    /// The printed values, as many as may be kept. Those past the length aren't looked at.
    pub slots: PrintSlots<B>,
}
