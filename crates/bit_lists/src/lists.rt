//! A list as bits: a length without a sign, and the items.

use bit_words::bits::Bits;
use bit_words::words::Words;

/// The bits of a list, to be looked at. The length has 5 bits and no sign. The items are words of
/// one width; those past the length aren't looked at.
#[derive(Clone, Copy)]
pub struct ListParts<'a, B: Copy> {
    pub len: &'a Bits<B>,
    pub items: &'a Words<B>,
}

/// A list as bits, of the same form.
#[derive(Drop)]
pub struct BitList<B: Copy> {
    pub len: Bits<B>,
    pub items: Words<B>,
}

/// A list as bits, of the same form, and whether it passes what the items can hold or has no
/// meaning.
#[derive(Drop)]
pub struct CheckedList<B: Copy> {
    pub len: Bits<B>,
    pub items: Words<B>,
    pub fault: B,
}
