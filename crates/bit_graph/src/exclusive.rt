//! One of two bits and not both.

ghost use Rattle.std.specs.Prelude.{◌≡◌, ◌+◌, ◌≤◌, Bool, List, IfSome, IfNone, IfOk, OnOk, length};
ghost use Rattle.bit_words.specs.Bits.{differ};
ghost use Rattle.bit_words.specs.Logic.{Extends};
ghost use Rattle.bit_graph.specs.Gates.{Owns, opposite_bit, positive_bit, reading};
ghost use Rattle.bit_graph.specs.Rules.{AreOfThree, LacksXor, NeedsXor};

use crate::gate::{GraphBit, Source};
use crate::graph::Graph;
use bit_words::NoMemory;
use bit_words::logic::Logic;

impl Graph {
    /// One of two bits and not both, by gates that are there.
    fn find_xor(&self, a: GraphBit, b: GraphBit) -> Option<GraphBit>
        requires left { Owns self.now a }
        requires right { Owns self.now b }
        ensures owned { IfSome result (λ r. Owns self.now r) }
        ensures value { IfSome result (λ r. (vs : List Bool) →
            reading self.now vs r ≡ differ (reading self.now vs a) (reading self.now vs b)) }
        ensures missing { IfNone result (LacksXor self.now a b) }
    {
        let both = self.find(a, b)?;
        let neither = self.find(self.not(a), self.not(b))?;
        let one = self.find(self.not(both), self.not(neither))?;
        Some(one)
    }

    /// One of two sources and not both, by gates that are there: those of the sources, or those of
    /// the one and the other's opposite. So a negation of either bit finds the same gates. With a
    /// constant no gate is looked for.
    pub(crate) fn find_differ(&self, a: Source, b: Source) -> Option<GraphBit>
        requires left { Owns self.now (positive_bit a) }
        requires right { Owns self.now (positive_bit b) }
        ensures owned { IfSome result (λ r. Owns self.now r) }
        ensures value { IfSome result (λ r. (vs : List Bool) →
            reading self.now vs r
            ≡ differ (reading self.now vs (positive_bit a))
            (reading self.now vs (positive_bit b))) }
        ensures missing { IfNone result (NeedsXor self.now a b) }
    {
        let first = GraphBit {
            source: a,
            positive: true,
        };
        let second = GraphBit {
            source: b,
            positive: true,
        };
        if a == Source::Constant {
            return Some(self.not(second));
        }
        if b == Source::Constant {
            return Some(self.not(first));
        }
        if let Some(bit) = self.find_xor(first, second) {
            return Some(bit);
        }
        let bit = self.find_xor(first, self.not(second))?;
        Some(self.not(bit))
    }

    /// One of two bits and not both, by three gates.
    pub(crate) fn make_xor(&mut self, a: GraphBit, b: GraphBit) -> Result<GraphBit, NoMemory>
        requires left { Owns self.old a }
        requires right { Owns self.old b }
        ensures extends { Extends Owns reading (λ g. g.variables) self.old self.new }
        ensures owned { IfOk result (λ r. Owns self.new r) }
        ensures value { IfOk result (λ r. (vs : List Bool) →
            reading self.new vs r ≡ differ (reading self.old vs a) (reading self.old vs b)) }
        ensures few { length self.new.gates ≤ length self.old.gates + 3 }
        ensures gains { OnOk result
            (AreOfThree self.old a b (opposite_bit a) (opposite_bit b) self.new) }
    {
        let both = self.and(a, b)?;
        let neither = self.and(self.not(a), self.not(b))?;
        let one = self.and(self.not(both), self.not(neither))?;
        Ok(one)
    }
}
