//! Cases: the values of one input.
ghost use Rattle.std.specs.Prelude.{◌≡◌, ◌≤◌, ◌-◌, ◌++◌, ◌∷◌, [], IfOk, OnErr, OnOk, List, length};
ghost use Rattle.std.specs.Prelude.{option_to_list, take};
ghost use Rattle.input_space.specs.declared.case.Case.{Case};
ghost use Rattle.input_space.specs.declared.case.CaseError.TheVariants as case_error;

use crate::NoMemory;
use mpy_tree::Values;
use std::alloc::AllocError;
use std::marker::Model;

/// How many cases a list has at most.
const MOST_CASES: usize = 2147483647;

/// A list of values for the parameters of the graded function.
#[derive(Drop)]
pub struct Case {
    pub values: Values,
}

impl Case {
    /// An equal case.
    pub fn copy(&self) -> Result<Case, NoMemory>
        ensures { IfOk result (λ c. c ≡ self.now) }
    {
        Ok(Case {
            values: self.values.copy()?,
        })
    }
}

/// A list of cases, at most 2147483647.
#[derive(Drop)]
pub struct Cases {
    items: Vec<Case>,
}

impl Model for Cases {
    ghost Value = { List Case };

    ghost view = { λ a. a.items.items };

    ghost invariant = { λ a. length a.items.items ≤ 2147483647 };
}

impl Cases {
    /// The list that has these cases.
    pub fn from_vec(items: Vec<Case>) -> Cases
        requires { length items.items ≤ 2147483647 }
        ensures { result ≡ items.items }
    {
        Cases { items }
    }

    /// The number of cases, at most 2147483647.
    pub fn count(&self) -> u32
        ensures value { result ≡ length self.now }
        ensures few { length self.now ≤ 2147483647 }
    {
        self.items.len() as u32
    }

    /// The cases.
    pub fn items(&self) -> &[Case]
        ensures { result.now ≡ self.now }
    {
        self.items.as_slice()
    }

    /// Adds a case at the end. Where memory is wanting, or the list has 2147483647 cases, it stays
    /// as it was.
    pub fn push(&mut self, case: Case) -> Result<(), NoMemory>
        ensures more { OnOk result (self.new ≡ self.old ++ case ∷ []) }
        ensures as_before { OnErr result (self.new ≡ self.old) }
        ensures few { length self.new ≤ 2147483647 }
    {
        if self.items.len() >= MOST_CASES {
            return Err(AllocError);
        }
        self.items.push(case)?;
        Ok(())
    }

    /// Takes the last case back, if there is one.
    pub fn pop(&mut self) -> Option<Case>
        ensures items { self.old ≡ self.new ++ option_to_list result }
        ensures rest { self.new ≡ take (length self.old - 1) self.old }
    {
        self.items.pop()
    }

    /// The cases, given back.
    pub fn into_vec(self) -> Vec<Case>
        ensures { result.items ≡ self }
    {
        self.items
    }

    /// An equal list.
    pub fn copy(&self) -> Result<Cases, NoMemory>
        ensures { IfOk result (λ n. n ≡ self.now) }
    {
        let mut copies = Vec::new(*self.items.allocator());
        for c in &self.items {
            copies.push(c.copy()?)?;
        }
        Ok(Cases { items: copies })
    }
}

/// Why a text isn't read as a case.
#[derive(Clone, Copy, PartialEq, Eq, Debug, Drop)]
pub enum CaseError {
    /// The text isn't values joined by `, `.
    NoCase,
    /// There was no memory.
    NoMemory,
}

impl From<NoMemory> for CaseError {
    ghost from_gives = { λ _ e. e ≡ case_error.NoMemory };

    fn from(_error: NoMemory) -> CaseError {
        CaseError::NoMemory
    }
}
