//! Types, and what is known of the types of a program's names.
ghost use Rattle.std.specs.Prelude.{◌≡◌, List};
ghost use Rattle.mpy_tree.specs.declared.typing.Ty.{Ty};
ghost use Rattle.mpy_tree.specs.declared.typing.Fact.{Fact};
ghost use Rattle.mpy_tree.specs.TypeSets.{just, join, members, only, within};
ghost use Rattle.mpy_tree.specs.declared.typing.TypeError.TheVariants.{NoMemory as Lacking};

use crate::NoMemory;
use crate::names::Name;
use crate::refusal::Cause;
use std::marker::Model;

/// The type of a value.
#[derive(Clone, Copy, PartialEq, Eq, Debug, Drop)]
pub enum Ty {
    Int,
    Bool,
    List,
    Text,
}

/// A set of types.
#[derive(Clone, Copy, PartialEq, Eq, Debug, Drop)]
pub struct TypeSet {
    pub int: bool,
    pub bool: bool,
    pub list: bool,
    pub text: bool,
}

impl TypeSet {
    /// No type.
    pub const NONE: TypeSet = TypeSet {
        int: false,
        bool: false,
        list: false,
        text: false,
    };

    /// The one type.
    pub fn just(ty: Ty) -> TypeSet
        ensures { result ≡ just ty }
    {
        match ty {
            Ty::Int => TypeSet {
                int: true,
                ..TypeSet::NONE
            },
            Ty::Bool => TypeSet {
                bool: true,
                ..TypeSet::NONE
            },
            Ty::List => TypeSet {
                list: true,
                ..TypeSet::NONE
            },
            Ty::Text => TypeSet {
                text: true,
                ..TypeSet::NONE
            },
        }
    }

    /// The types of both sets.
    pub fn join(self, other: TypeSet) -> TypeSet
        ensures { result ≡ join self other }
    {
        TypeSet {
            int: self.int || other.int,
            bool: self.bool || other.bool,
            list: self.list || other.list,
            text: self.text || other.text,
        }
    }

    /// The types of the members: Int of a List, Text of a Text.
    pub fn members(self) -> TypeSet
        ensures { result ≡ members self }
    {
        TypeSet {
            int: self.list,
            text: self.text,
            ..TypeSet::NONE
        }
    }

    /// The one type of the set, if it has exactly one.
    pub fn only(self) -> Option<Ty>
        ensures { result ≡ only self }
    {
        match (self.int, self.bool, self.list, self.text) {
            (true, false, false, false) => Some(Ty::Int),
            (false, true, false, false) => Some(Ty::Bool),
            (false, false, true, false) => Some(Ty::List),
            (false, false, false, true) => Some(Ty::Text),
            _ => None,
        }
    }

    /// Whether each type of this set is one of the other.
    pub fn is_within(self, other: TypeSet) -> bool
        ensures { result ≡ within self other }
    {
        (!self.int || other.int)
            && (!self.bool || other.bool)
            && (!self.list || other.list)
            && (!self.text || other.text)
    }
}

/// A list of types.
#[derive(Drop)]
pub struct Tys {
    items: Vec<Ty>,
}

impl Model for Tys {
    ghost Value = { List Ty };

    ghost view = { λ a. a.items.items };
}

impl Tys {
    /// The list that has these types.
    pub fn from_vec(items: Vec<Ty>) -> Tys
        ensures { result ≡ items.items }
    {
        Tys { items }
    }

    /// The types.
    pub fn items(&self) -> &[Ty]
        ensures { result.now ≡ self.now }
    {
        self.items.as_slice()
    }

    /// The types, given back.
    pub fn into_vec(self) -> Vec<Ty>
        ensures { result.items ≡ self }
    {
        self.items
    }
}

/// What has a type in a function: a local, or the result.
#[derive(Drop)]
pub enum Slot {
    Local(Name),
    Result,
}

/// A slot of a function, counted from 0 in order of the file, has a type.
#[derive(Drop)]
pub struct Fact {
    pub func: u32,
    pub slot: Slot,
    pub ty: Ty,
}

/// A list of facts.
#[derive(Drop)]
pub struct Facts {
    items: Vec<Fact>,
}

impl Model for Facts {
    ghost Value = { List Fact };

    ghost view = { λ a. a.items.items };
}

impl Facts {
    /// The list that has these facts.
    pub fn from_vec(items: Vec<Fact>) -> Facts
        ensures { result ≡ items.items }
    {
        Facts { items }
    }

    /// The facts.
    pub fn items(&self) -> &[Fact]
        ensures { result.now ≡ self.now }
    {
        self.items.as_slice()
    }

    /// The facts, given back.
    pub fn into_vec(self) -> Vec<Fact>
        ensures { result.items ≡ self }
    {
        self.items
    }
}

/// The types of a program's slots.
#[derive(Drop)]
pub struct Types {
    pub facts: Facts,
}

/// The function that a run enters, the types of its parameters, and whether its result may have no
/// type.
#[derive(Drop)]
pub struct Signature {
    pub entry: Name,
    pub params: Tys,
    pub free_result: bool,
}

/// The first fault of a program's names and types.
#[derive(Clone, Copy, Drop)]
pub enum TypeError {
    /// A fault of names (`Name`), of numbers of arguments (`Arity`) or of the entry (`Entry`), a
    /// slot without a type (`Undetermined`), or a node that breaks its rule (`TypeFault`).
    Fault { cause: Cause, line: u32 },
    /// A slot has several types: the first two in the order Int, Bool, List, Text.
    Conflict { line: u32, one: Ty, other: Ty },
    NoMemory,
}

impl From<NoMemory> for TypeError {
    ghost from_gives = { λ _ e. e ≡ Lacking };

    fn from(_: NoMemory) -> TypeError {
        TypeError::NoMemory
    }
}
