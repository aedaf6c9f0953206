//! Which pairs of bits need no gate.

ghost use Rattle.std.specs.Prelude.{◌≡◌, ◌≢◌, ℕ, Bool, List, ◌&&◌, IfSome, IfNone};
ghost use Rattle.bit_graph.specs.Gates.{bit_reads, source_of, IsBelow};

use crate::gate::{GraphBit, Source};

/// The bit that two bits both are, where that is one of them or a constant.
pub fn fold(a: GraphBit, b: GraphBit) -> Option<GraphBit>
    ensures value { IfSome result (λ r. (vs made : List Bool) →
        bit_reads vs made r ≡ (bit_reads vs made a && bit_reads vs made b)) }
    ensures below { IfSome result (λ r. (variables made : ℕ) → IsBelow variables made (source_of a)
        → IsBelow variables made (source_of b) → IsBelow variables made (source_of r)) }
    ensures left_open { IfNone result (source_of a ≢ Source.Constant) }
    ensures right_open { IfNone result (source_of b ≢ Source.Constant) }
    ensures differ { IfNone result (source_of a ≢ source_of b) }
{
    if a.source == Source::Constant {
        return Some(if a.positive { b } else { a });
    }
    if b.source == Source::Constant {
        return Some(if b.positive { a } else { b });
    }
    if a.source != b.source {
        return None;
    }
    if a.positive == b.positive {
        return Some(a);
    }
    Some(GraphBit {
        source: Source::Constant,
        positive: false,
    })
}
