//! What flows into the slots of a program, by their numbers.
ghost use Rattle.std.specs.Prelude.{◌≡◌};
ghost use Rattle.mpy_types.specs.Inflows.{deeper, through};

use mpy_tree::TypeSet;

/// How often the members of a value are taken; `Texts` stands for twice and more.
#[derive(Clone, Copy, Drop)]
pub enum Via {
    Whole,
    Members,
    Texts,
}

impl Via {
    /// Once more.
    pub fn deeper(self) -> Via
        ensures { result ≡ deeper self }
    {
        match self {
            Via::Whole => Via::Members,
            Via::Members | Via::Texts => Via::Texts,
        }
    }

    /// The types that a value of these types has there.
    pub fn through(self, types: TypeSet) -> TypeSet
        ensures { result ≡ through self types }
    {
        match self {
            Via::Whole => types,
            Via::Members => types.members(),
            Via::Texts => types.members().members(),
        }
    }
}

/// Types, or those of a slot or its members.
#[derive(Clone, Copy, Drop)]
pub enum Source {
    Fixed(TypeSet),
    Slot(Via, usize),
}

/// The types are types of the slot of a number.
#[derive(Clone, Copy, Drop)]
pub struct Inflow {
    pub to: usize,
    pub from: Source,
}
