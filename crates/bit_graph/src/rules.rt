//! Rules that look at the parts of a gate.

ghost use Rattle.std.specs.Prelude.{◌≡◌, ◌≢◌, ℕ, Bool, List, false, not, ◌&&◌, IfSome, IfNone};
ghost use Rattle.std.specs.Prelude.{IsTrue, ◌↔◌, ◌⊎◌};
ghost use Rattle.bit_graph.specs.Gates.{bit_reads, gate_reads, is_positive_bit, source_of};
ghost use Rattle.bit_graph.specs.Gates.{source_reads, IsBelow, IsGateAt, Precedes, gate_of};
ghost use Rattle.bit_graph.specs.Rules.{AreOpposite, AreSame, Contradicts, Exclude, HasPart};
ghost use Rattle.bit_graph.specs.Rules.{IsFalse, IsOpenBy};

use crate::gate::{Gate, GraphBit, Source};

/// The bit that is never true.
pub fn never() -> GraphBit
    ensures value { (vs made : List Bool) → bit_reads vs made result ≡ false }
    ensures below { (variables made : ℕ) → IsBelow variables made (source_of result) }
{
    GraphBit {
        source: Source::Constant,
        positive: false,
    }
}

/// Whether a bit is the constant that is never true.
pub fn is_false(a: GraphBit) -> bool
    ensures exact { IsTrue result ↔ IsFalse a }
    ensures value { IsTrue result → (vs made : List Bool) → bit_reads vs made a ≡ false }
{
    a.source == Source::Constant && !a.positive
}

/// Whether two bits are one.
pub fn are_same(a: GraphBit, b: GraphBit) -> bool
    ensures exact { IsTrue result ↔ AreSame a b }
    ensures value { IsTrue result → (vs made : List Bool) →
        bit_reads vs made a ≡ bit_reads vs made b }
{
    a.source == b.source && a.positive == b.positive
}

/// Whether two bits are opposites.
pub fn are_opposite(a: GraphBit, b: GraphBit) -> bool
    ensures exact { IsTrue result ↔ AreOpposite a b }
    ensures value { IsTrue result → (vs made : List Bool) →
        bit_reads vs made a ≡ not (bit_reads vs made b) }
{
    a.source == b.source && a.positive != b.positive
}

/// Whether a bit is the opposite of a part of a gate, so that they are never both true.
pub fn contradicts(x: Gate, b: GraphBit) -> bool
    ensures exact { IsTrue result ↔ Contradicts x b }
    ensures value { IsTrue result → (vs made : List Bool) →
        (gate_reads vs made x && bit_reads vs made b) ≡ false }
{
    are_opposite(x.left, b) || are_opposite(x.right, b)
}

/// Whether a bit is a part of a gate.
pub fn is_part(x: Gate, b: GraphBit) -> bool
    ensures exact { IsTrue result ↔ HasPart x b }
    ensures value { IsTrue result → (vs made : List Bool) →
        (gate_reads vs made x && bit_reads vs made b) ≡ gate_reads vs made x }
{
    are_same(x.left, b) || are_same(x.right, b)
}

/// Whether two gates have opposite parts, so that they are never both true.
pub fn exclude(x: Gate, y: Gate) -> bool
    ensures exact { IsTrue result ↔ Exclude x y }
    ensures value { IsTrue result → (vs made : List Bool) →
        (gate_reads vs made x && gate_reads vs made y) ≡ false }
{
    contradicts(x, y.left) || contradicts(x, y.right)
}

/// The bit that a gate's bit and another bit both are, by the parts of the gate.
pub fn fold_by_parts(a: GraphBit, x: Gate, b: GraphBit) -> Option<GraphBit>
    ensures value { IfSome result (λ r. (vs made : List Bool) →
        source_reads vs made (source_of a) ≡ gate_reads vs made x
        → bit_reads vs made r ≡ (bit_reads vs made a && bit_reads vs made b)) }
    ensures below { IfSome result (λ r. (variables made : ℕ) → IsBelow variables made (source_of a)
        → IsBelow variables made (source_of b) → IsBelow variables made (source_of r)) }
    ensures open { IfNone result (IsOpenBy a x b) }
{
    if contradicts(x, b) {
        return Some(if a.positive { never() } else { b });
    }
    if a.positive && is_part(x, b) {
        return Some(a);
    }
    None
}

/// The bit that the bits of two gates both are, by the parts of both.
pub fn fold_by_both(a: GraphBit, x: Gate, b: GraphBit, y: Gate) -> Option<GraphBit>
    ensures value { IfSome result (λ r. (vs made : List Bool) →
        source_reads vs made (source_of a) ≡ gate_reads vs made x
        → source_reads vs made (source_of b) ≡ gate_reads vs made y
        → bit_reads vs made r ≡ (bit_reads vs made a && bit_reads vs made b)) }
    ensures below { IfSome result (λ r. (variables made : ℕ) → IsBelow variables made (source_of a)
        → IsBelow variables made (source_of b) → IsBelow variables made (source_of r)) }
    ensures open { IfNone result (Exclude x y
        → (is_positive_bit a ≡ false) × (is_positive_bit b ≡ false)) }
{
    if !exclude(x, y) {
        return None;
    }
    if a.positive && b.positive {
        return Some(never());
    }
    if a.positive {
        return Some(a);
    }
    if b.positive {
        return Some(b);
    }
    None
}

/// The gate of two bits, the lower source on the left.
pub fn in_order(a: GraphBit, b: GraphBit) -> Gate
    requires { source_of a ≢ source_of b }
    ensures forward { Precedes (source_of a) (source_of b) → result ≡ gate_of a b }
    ensures turned { Precedes (source_of b) (source_of a) → result ≡ gate_of b a }
    ensures joins { (result ≡ gate_of a b) ⊎ (result ≡ gate_of b a) }
    ensures ordered { Precedes (source_of result.left) (source_of result.right) }
    ensures value { (vs made : List Bool) →
        gate_reads vs made result ≡ (bit_reads vs made a && bit_reads vs made b) }
    ensures gate { (variables k : ℕ) → IsBelow variables k (source_of a)
        → IsBelow variables k (source_of b) → source_of a ≢ Source.Constant
        → source_of b ≢ Source.Constant → IsGateAt variables k result }
{
    if a.source.precedes(b.source) {
        Gate { left: a, right: b }
    } else {
        Gate { left: b, right: a }
    }
}
