//! The logic of truth tables over six variables.

ghost use Rattle.std.specs.Prelude.{◌≡◌, ◌-◌, ◌^◌, ◌↔◌, Bool, true, false, List, not, ◌&&◌, Some};
ghost use Rattle.std.specs.Prelude.{if◌then◌else◌, IfOk, IfSome, IsOk, IsTrue};
ghost use Rattle.bit_words.specs.Bits.{differ};
ghost use Rattle.bit_words.specs.Logic.{Extends};
ghost use Rattle.bit_lanes.specs.Lane.{IsTable, reads_table};

use bit_words::NoMemory;
use bit_words::logic::Logic;

/// A logic of six variables. A bit is its truth table: bit i of the word is what it reads as under
/// the truth values whose binary number is i, the first variable lowest. So a program is run on 64
/// inputs at once, and every word belongs to the logic. A word has no room for a seventh variable.
#[derive(Clone, Copy, Drop)]
pub struct Lanes;

impl Lanes {
    /// The logic.
    pub fn new() -> Lanes {
        Lanes
    }
}

/// No operation takes memory: each succeeds.
impl Logic for Lanes {
    type Bit = u64;

    ghost owns = { λ s b. IsTable b };

    ghost reads = { λ s vs b. reads_table vs b };

    ghost count = { λ s. 6 };

    fn constant(&self, b: bool) -> u64 {
        if b { u64::MAX } else { 0 }
    }

    fn not(&self, a: u64) -> u64 {
        !a
    }

    fn and(&mut self, a: u64, b: u64) -> Result<u64, NoMemory>
        requires left { IsTable a }
        requires right { IsTable b }
        ensures extends { Extends (λ s t. IsTable t) (λ s vs t. reads_table vs t) (λ s. 6)
            self.old self.new }
        ensures owned { IfOk result (λ r. IsTable r) }
        ensures value { IfOk result (λ r. (vs : List Bool) →
            reads_table vs r ≡ (reads_table vs a && reads_table vs b)) }
        ensures always { IsOk result }
    {
        Ok(a & b)
    }

    fn choose(&mut self, c: u64, yes: u64, no: u64) -> Result<u64, NoMemory>
        requires test { IsTable c }
        requires yes { IsTable yes }
        requires no { IsTable no }
        ensures extends { Extends (λ s t. IsTable t) (λ s vs t. reads_table vs t) (λ s. 6)
            self.old self.new }
        ensures owned { IfOk result (λ r. IsTable r) }
        ensures value { IfOk result (λ r. (vs : List Bool) →
            reads_table vs r
            ≡ (if reads_table vs c then reads_table vs yes else reads_table vs no)) }
        ensures always { IsOk result }
    {
        Ok((c & yes) | (!c & no))
    }

    fn xor(&mut self, a: u64, b: u64) -> Result<u64, NoMemory>
        requires left { IsTable a }
        requires right { IsTable b }
        ensures extends { Extends (λ s t. IsTable t) (λ s vs t. reads_table vs t) (λ s. 6)
            self.old self.new }
        ensures owned { IfOk result (λ r. IsTable r) }
        ensures value { IfOk result (λ r. (vs : List Bool) →
            reads_table vs r ≡ differ (reads_table vs a) (reads_table vs b)) }
        ensures always { IsOk result }
    {
        Ok(a ^ b)
    }

    /// Whether two tables are one.
    fn same(&self, a: u64, b: u64) -> bool
        ensures exact { IsTrue result ↔ (a ≡ b) }
        ensures value { IsTrue result → (vs : List Bool) → reads_table vs a ≡ reads_table vs b }
    {
        a == b
    }

    /// What a table reads as in all lanes, where it reads as the same.
    fn known(&self, a: u64) -> Option<bool>
        ensures value { IfSome result (λ b. (vs : List Bool) → reads_table vs a ≡ b) }
        ensures never { a ≡ 0 → result ≡ Some false }
        ensures always { a ≡ 2 ^ 64 - 1 → result ≡ Some true }
    {
        if a == 0 {
            return Some(false);
        }
        if a == u64::MAX {
            return Some(true);
        }
        None
    }
}
