//! What the values of parameters may be.
ghost use Rattle.std.specs.Prelude.{◌≡◌, List};
ghost use Rattle.bounds_reader.specs.declared.params.Param.{Param as AnyParam};

use mpy_tree::Chars;
use std::marker::Model;

/// The values that a parameter of the entry may have.
#[derive(Drop)]
pub enum Param {
    /// The whole numbers from `low` to `high`.
    Int {
        low: i32,
        high: i32,
    },
    /// False and True.
    Bool,
    /// Lists of `least` to `most` numbers, each from `low` to `high`.
    List {
        least: u32,
        most: u32,
        low: i32,
        high: i32,
    },
    /// Texts of `least` to `most` characters of the alphabet.
    Text {
        least: u32,
        most: u32,
        alphabet: Chars,
    },
}

/// The parameters of the entry, in order.
#[derive(Drop)]
pub struct Params {
    items: Vec<Param>,
}

impl Model for Params {
    ghost Value = { List AnyParam };

    ghost view = { λ a. a.items.items };
}

impl Params {
    /// The list that has these parameters.
    pub fn from_vec(items: Vec<Param>) -> Params
        ensures { result ≡ items.items }
    {
        Params { items }
    }

    /// The parameters.
    pub fn items(&self) -> &[Param]
        ensures { result.now ≡ self.now }
    {
        self.items.as_slice()
    }

    /// The parameters, given back.
    pub fn into_vec(self) -> Vec<Param>
        ensures { result.items ≡ self }
    {
        self.items
    }
}
