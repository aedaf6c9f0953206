//! What a logic owes to whoever builds bits over it.

ghost use Rattle.std.specs.Prelude.{◌≡◌, ◌+◌, ℕ, Bool, false, List, not, ◌&&◌, if◌then◌else◌, OnOk};
ghost use Rattle.std.specs.Prelude.{IfOk, IfSome, IsTrue, OnErr, slice_index_or};
ghost use Rattle.bit_words.specs.Bits.{differ};
ghost use Rattle.bit_words.specs.Logic.{Extends, Keeps};

use crate::NoMemory;

/// A state that makes bits. Each of its bits has a truth value under each list of truth values of
/// its variables.
pub trait Logic {
    type Bit: Copy;

    /// The bits that belong to a state.
    ghost owns: { Self → Self.Bit → Type 0 };

    /// What a bit reads as under truth values of the variables, the first variable first. A
    /// variable past the end of the list reads as false.
    ghost reads: { Self → List Bool → Self.Bit → Bool };

    /// How many variables a state has.
    ghost count: { Self → ℕ };

    /// The bit that always reads as `b`.
    fn constant(&self, b: bool) -> Self::Bit
        ensures owned { owns self.now result }
        ensures value { (vs : List Bool) → reads self.now vs result ≡ b };

    /// The opposite of a bit.
    fn not(&self, a: Self::Bit) -> Self::Bit
        requires { owns self.now a }
        ensures owned { owns self.now result }
        ensures value { (vs : List Bool) → reads self.now vs result ≡ not (reads self.now vs a) };

    /// Whether two bits both hold. The old bits read as before, also where memory was wanting.
    fn and(&mut self, a: Self::Bit, b: Self::Bit) -> Result<Self::Bit, NoMemory>
        requires left { owns self.old a }
        requires right { owns self.old b }
        ensures extends { Extends owns reads count self.old self.new }
        ensures owned { IfOk result (λ r. owns self.new r) }
        ensures value { IfOk result (λ r. (vs : List Bool) →
            reads self.new vs r ≡ (reads self.old vs a && reads self.old vs b)) };

    /// One bit where `c` holds, and another where it doesn't.
    fn choose(&mut self, c: Self::Bit, yes: Self::Bit, no: Self::Bit) -> Result<Self::Bit, NoMemory>
        requires test { owns self.old c }
        requires yes { owns self.old yes }
        requires no { owns self.old no }
        ensures extends { Extends owns reads count self.old self.new }
        ensures owned { IfOk result (λ r. owns self.new r) }
        ensures value { IfOk result (λ r. (vs : List Bool) →
            reads self.new vs r
            ≡ (if reads self.old vs c then reads self.old vs yes else reads self.old vs no)) }
    {
        let other = self.not(c);
        let first = self.and(c, yes)?;
        let second = self.and(other, no)?;
        let not_first = self.not(first);
        let not_second = self.not(second);
        let neither = self.and(not_first, not_second)?;
        Ok(self.not(neither))
    }

    /// One of two bits and not both.
    fn xor(&mut self, a: Self::Bit, b: Self::Bit) -> Result<Self::Bit, NoMemory>
        requires left { owns self.old a }
        requires right { owns self.old b }
        ensures extends { Extends owns reads count self.old self.new }
        ensures owned { IfOk result (λ r. owns self.new r) }
        ensures value { IfOk result (λ r. (vs : List Bool) →
            reads self.new vs r ≡ differ (reads self.old vs a) (reads self.old vs b)) }
    {
        let both = self.and(a, b)?;
        let not_a = self.not(a);
        let not_b = self.not(b);
        let neither = self.and(not_a, not_b)?;
        let not_both = self.not(both);
        let either = self.not(neither);
        self.and(not_both, either)
    }

    /// Whether two bits are one, where the logic can tell: then they read alike under all truth
    /// values, so a join of them needs none of its own.
    fn same(&self, a: Self::Bit, b: Self::Bit) -> bool
        requires left { owns self.now a }
        requires right { owns self.now b }
        ensures { IsTrue result → (vs : List Bool) → reads self.now vs a ≡ reads self.now vs b }
    {
        let _ = (a, b);
        false
    }

    /// What a bit reads as under all truth values, where the logic can tell.
    fn known(&self, a: Self::Bit) -> Option<bool>
        requires { owns self.now a }
        ensures { IfSome result (λ b. (vs : List Bool) → reads self.now vs a ≡ b) }
    {
        let _ = a;
        None
    }
}

/// A logic that can be asked for one variable more.
pub trait Variables: Logic {
    /// A new variable, the last. Where memory is wanting none is added.
    fn variable(&mut self) -> Result<Self::Bit, NoMemory>
        ensures keeps { Keeps Self.owns Self.reads self.old self.new }
        ensures added { OnOk result (Self.count self.new ≡ Self.count self.old + 1) }
        ensures refused { OnErr result (Self.count self.new ≡ Self.count self.old) }
        ensures owned { IfOk result (λ r. Self.owns self.new r) }
        ensures value { IfOk result (λ r. (vs : List Bool) →
            Self.reads self.new vs r ≡ slice_index_or vs (Self.count self.old) false) };
}
