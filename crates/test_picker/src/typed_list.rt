//! Typed programs, and marks.
ghost use Rattle.std.specs.Prelude.{◌≡◌};

use mpy_tree::{Prog, Types};
use std::marker::Model;

/// A program, with the types of its names and results.
#[derive(Drop)]
pub struct Typed {
    pub prog: Prog,
    pub types: Types,
}

/// A list of typed programs.
#[derive(Drop)]
pub struct TypedList {
    items: Vec<Typed>,
}

impl Model for TypedList {
    ghost use Rattle.std.specs.Prelude.{List};
    ghost use Rattle.std.specs.Coded.{codes};
    ghost use Rattle.test_picker.specs.contracts.typed_list.Typed as typed;
    ghost use Rattle.test_picker.specs.declared.typed_list.Typed.{Typed as AnyTyped};

    ghost Value = { List AnyTyped };

    ghost coded = { Prim.hlevel (codes, typed.the_row.coded) };

    ghost view = { λ a. a.items.items };
}

impl TypedList {
    /// The list of these programs.
    pub fn from_vec(items: Vec<Typed>) -> TypedList
        ensures { result ≡ items.items }
    {
        TypedList { items }
    }

    /// The programs.
    pub fn items(&self) -> &[Typed]
        ensures { result.now ≡ self.now }
    {
        self.items.as_slice()
    }

    /// The programs, given back.
    pub fn into_vec(self) -> Vec<Typed>
        ensures { result.items ≡ self }
    {
        self.items
    }
}

/// The marks of programs, one for each.
#[derive(Drop)]
pub struct Marks {
    items: Vec<u32>,
}

impl Model for Marks {
    ghost use Rattle.std.specs.Prelude.{List, ℕ};

    ghost Value = { List ℕ };

    ghost view = { λ a. a.items.items };
}

impl Marks {
    /// The list of these marks.
    pub fn from_vec(items: Vec<u32>) -> Marks
        ensures { result ≡ items.items }
    {
        Marks { items }
    }

    /// The marks.
    pub fn items(&self) -> &[u32]
        ensures { result.now ≡ self.now }
    {
        self.items.as_slice()
    }

    /// The marks, given back.
    pub fn into_vec(self) -> Vec<u32>
        ensures { result.items ≡ self }
    {
        self.items
    }
}
