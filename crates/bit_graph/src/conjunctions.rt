//! What two bits both are, where it needs no new gate, and else which gate.

ghost use Rattle.std.specs.Prelude.{◌≡◌, ◌↔◌, ◌&&◌, false, [], Bool, List, IfSome, IfNone, IsTrue};
ghost use Rattle.bit_graph.specs.Gates.{Owns, gate_reads, is_positive_bit, parts_of, reading};
ghost use Rattle.bit_graph.specs.Gates.{source_of, source_reads, values_after};
ghost use Rattle.bit_graph.specs.Rules.{AreNever, Exclude, GateContradicts, GatesExclude};
ghost use Rattle.bit_graph.specs.Rules.{IsMissing, IsNeeded, IsOpenBy, IsReducedIn, IsShortened};
ghost use Rattle.bit_graph.specs.Rules.{NeedsGate, reduced_reads};

use crate::fold::fold;
use crate::gate::{Gate, GraphBit, Reduced, Source};
use crate::graph::Graph;
use crate::rules::{
    are_opposite, contradicts, exclude, fold_by_both, fold_by_parts, in_order, is_false,
};
use crate::share::number_of;
use bit_words::logic::Logic;

impl Graph {
    /// The parts of the gate that a bit or its opposite comes from.
    fn parts(&self, a: GraphBit) -> Option<Gate>
        requires { Owns self.now a }
        ensures exact { result ≡ parts_of self.now a }
        ensures owned_left { IfSome result (λ x. Owns self.now x.left) }
        ensures owned_right { IfSome result (λ x. Owns self.now x.right) }
        ensures value { IfSome result (λ x. (vs : List Bool) →
            source_reads vs (values_after vs [] self.now.gates) (source_of a)
            ≡ gate_reads vs (values_after vs [] self.now.gates) x) }
    {
        match a.source {
            Source::Made(k) => Some(self.gates[k as usize]),
            _ => None,
        }
    }

    /// The bit that two bits both are, by the parts of the first one's gate.
    fn fold_by_first(&self, a: GraphBit, b: GraphBit) -> Option<GraphBit>
        requires left { Owns self.now a }
        requires right { Owns self.now b }
        ensures owned { IfSome result (λ r. Owns self.now r) }
        ensures value { IfSome result (λ r. (vs : List Bool) →
            reading self.now vs r ≡ (reading self.now vs a && reading self.now vs b)) }
        ensures open { IfNone result ((x : Gate) → parts_of self.now a ≡ Some x → IsOpenBy a x b) }
    {
        fold_by_parts(a, self.parts(a)?, b)
    }

    /// The bit that two bits both are, by the parts of both gates.
    fn fold_by_gates(&self, a: GraphBit, b: GraphBit) -> Option<GraphBit>
        requires left { Owns self.now a }
        requires right { Owns self.now b }
        ensures owned { IfSome result (λ r. Owns self.now r) }
        ensures value { IfSome result (λ r. (vs : List Bool) →
            reading self.now vs r ≡ (reading self.now vs a && reading self.now vs b)) }
        ensures open { IfNone result ((x y : Gate) → parts_of self.now a ≡ Some x
            → parts_of self.now b ≡ Some y → Exclude x y
            → (is_positive_bit a ≡ false) × (is_positive_bit b ≡ false)) }
    {
        fold_by_both(a, self.parts(a)?, b, self.parts(b)?)
    }

    /// The bit that two bits both are, where the graph has it: by the bits themselves, or by the
    /// parts of one or of both.
    fn simplify(&self, a: GraphBit, b: GraphBit) -> Option<GraphBit>
        requires left { Owns self.now a }
        requires right { Owns self.now b }
        ensures owned { IfSome result (λ r. Owns self.now r) }
        ensures value { IfSome result (λ r. (vs : List Bool) →
            reading self.now vs r ≡ (reading self.now vs a && reading self.now vs b)) }
        ensures open { IfNone result (NeedsGate self.now a b) }
    {
        if let Some(bit) = fold(a, b) {
            return Some(bit);
        }
        if let Some(bit) = self.fold_by_first(a, b) {
            return Some(bit);
        }
        if let Some(bit) = self.fold_by_first(b, a) {
            return Some(bit);
        }
        self.fold_by_gates(a, b)
    }

    /// Whether a bit is a gate, of which another bit is the opposite of a part.
    fn gate_contradicts(&self, a: GraphBit, b: GraphBit) -> bool
        requires { Owns self.now a }
        ensures exact { IsTrue result ↔ GateContradicts self.now a b }
        ensures value { IsTrue result → (vs : List Bool) →
            (reading self.now vs a && reading self.now vs b) ≡ false }
    {
        match self.parts(a) {
            Some(x) => a.positive && contradicts(x, b),
            None => false,
        }
    }

    /// Whether two bits are gates, of which the one has the opposite of a part of the other.
    fn gates_exclude(&self, a: GraphBit, b: GraphBit) -> bool
        requires left { Owns self.now a }
        requires right { Owns self.now b }
        ensures exact { IsTrue result ↔ GatesExclude self.now a b }
        ensures value { IsTrue result → (vs : List Bool) →
            (reading self.now vs a && reading self.now vs b) ≡ false }
    {
        match (self.parts(a), self.parts(b)) {
            (Some(x), Some(y)) => a.positive && b.positive && exclude(x, y),
            _ => false,
        }
    }

    /// Whether a rule shows that two bits are never both true.
    fn is_never(&self, a: GraphBit, b: GraphBit) -> bool
        requires left { Owns self.now a }
        requires right { Owns self.now b }
        ensures exact { IsTrue result ↔ AreNever self.now a b }
        ensures value { IsTrue result → (vs : List Bool) →
            (reading self.now vs a && reading self.now vs b) ≡ false }
    {
        let by_bits = is_false(a) || (is_false(b) || are_opposite(a, b));
        by_bits
            || (self.gate_contradicts(a, b)
                || (self.gate_contradicts(b, a) || self.gates_exclude(a, b)))
    }

    /// A bit in place of the second one that is with the first one what that is: of a gate's
    /// opposite, which is the opposite of the one part or of the other, the one that the first bit
    /// leaves.
    fn shorten(&self, a: GraphBit, b: GraphBit) -> GraphBit
        requires left { Owns self.now a }
        requires right { Owns self.now b }
        ensures owned { Owns self.now result }
        ensures value { (vs : List Bool) →
            (reading self.now vs a && reading self.now vs result)
            ≡ (reading self.now vs a && reading self.now vs b) }
        ensures exact { IsShortened self.now a b result }
    {
        if b.positive {
            return b;
        }
        let Some(x) = self.parts(b) else {
            return b;
        };
        let left = self.not(x.left);
        let right = self.not(x.right);
        if self.is_never(a, left) {
            return right;
        }
        if self.is_never(a, right) {
            return left;
        }
        b
    }

    /// What two bits both are: a bit of the graph, or a gate that it may have.
    pub(crate) fn reduce(&self, a: GraphBit, b: GraphBit) -> Reduced
        requires left { Owns self.now a }
        requires right { Owns self.now b }
        ensures needed { (x : Gate) → result ≡ Reduced.New x → IsNeeded self.now a b x }
        ensures inside { IsReducedIn self.now result }
        ensures value { (vs : List Bool) →
            reduced_reads vs (values_after vs [] self.now.gates) result
            ≡ (reading self.now vs a && reading self.now vs b) }
    {
        if let Some(bit) = self.simplify(a, b) {
            return Reduced::Bit(bit);
        }
        let right = self.shorten(a, b);
        let left = self.shorten(right, a);
        if let Some(bit) = self.simplify(left, right) {
            return Reduced::Bit(bit);
        }
        Reduced::New(in_order(left, right))
    }

    /// The bit that two bits both are, where it needs no new gate.
    pub(crate) fn find(&self, a: GraphBit, b: GraphBit) -> Option<GraphBit>
        requires left { Owns self.now a }
        requires right { Owns self.now b }
        ensures owned { IfSome result (λ r. Owns self.now r) }
        ensures value { IfSome result (λ r. (vs : List Bool) →
            reading self.now vs r ≡ (reading self.now vs a && reading self.now vs b)) }
        ensures missing { IfNone result (IsMissing self.now a b) }
    {
        match self.reduce(a, b) {
            Reduced::Bit(bit) => Some(bit),
            Reduced::New(gate) => {
                let made = number_of(&self.gates, gate)?;
                Some(GraphBit {
                    source: Source::Made(made),
                    positive: true,
                })
            }
        }
    }
}
