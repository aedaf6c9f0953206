//! The bits of a graph and its gates.

ghost use Rattle.std.specs.Prelude.{◌≡◌, IsTrue, ◌↔◌};
ghost use Rattle.bit_graph.specs.Gates.{Precedes, is_positive_bit, source_of};

/// Where a bit comes from.
#[derive(Clone, Copy, PartialEq, Eq, Hash)]
pub enum Source {
    /// The constant that is true.
    Constant,
    /// A variable, counted from 0.
    Variable(u32),
    /// A gate, counted from 0 in the order of making.
    Made(u32),
}

/// A bit of a graph: a source or its opposite.
#[derive(Clone, Copy, PartialEq, Eq, Hash)]
pub struct GraphBit {
    pub(crate) source: Source,
    pub(crate) positive: bool,
}

/// The two bits that a gate joins: the gate is true where both are.
#[derive(Clone, Copy, PartialEq, Eq, Hash)]
pub struct Gate {
    pub left: GraphBit,
    pub right: GraphBit,
}

/// A conjunction of two bits: a bit that is there, or a gate that can be made.
#[derive(Clone, Copy)]
pub(crate) enum Reduced {
    Bit(GraphBit),
    New(Gate),
}

impl Source {
    /// Whether one source comes before another: the constant, then the variables, then the gates.
    pub(crate) fn precedes(self, other: Source) -> bool
        ensures { IsTrue result ↔ Precedes self other }
    {
        match (self, other) {
            (_, Source::Constant) => false,
            (Source::Constant, _) => true,
            (Source::Variable(i), Source::Variable(j)) => i < j,
            (Source::Variable(_), Source::Made(_)) => true,
            (Source::Made(_), Source::Variable(_)) => false,
            (Source::Made(i), Source::Made(j)) => i < j,
        }
    }
}

impl GraphBit {
    /// Where the bit comes from.
    pub fn source(self) -> Source
        ensures { result ≡ source_of self }
    {
        self.source
    }

    /// Whether the bit is its source, and not the opposite.
    pub fn is_positive(self) -> bool
        ensures { result ≡ is_positive_bit self }
    {
        self.positive
    }
}
