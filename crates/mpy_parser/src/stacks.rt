//! Stacks, seen as lists with what was put last at the front.
ghost use Rattle.std.specs.Prelude.{◌≡◌, ◌∷◌, [], OnOk, option_copied};
ghost use Rattle.mpy_parser.specs.Open.{nearest, beyond};

use crate::NoMemory;
use std::alloc::Global;
use std::marker::Model;

#[derive(Drop)]
pub(crate) struct Stack<T> {
    items: Vec<T>,
}

impl<T> Model for Stack<T> {
    ghost use Rattle.std.specs.Prelude.{List, reverse};

    ghost Value = { List T };

    ghost view = { λ s. reverse s.items.items };
}

impl<T> Stack<T> {
    pub(crate) fn new(alloc: Global) -> Stack<T>
        ensures { result ≡ [] }
    {
        Stack {
            items: Vec::new(alloc),
        }
    }

    pub(crate) fn push(&mut self, value: T) -> Result<(), NoMemory>
    where
        T: Drop,
        ensures { OnOk result (self.new ≡ value ∷ self.old) }
    {
        self.items.push(value)?;
        Ok(())
    }

    pub(crate) fn pop(&mut self) -> Option<T>
        ensures value { result ≡ nearest self.old }
        ensures rest { self.new ≡ beyond self.old }
    {
        self.items.pop()
    }

    pub(crate) fn top(&self) -> Option<T>
    where
        T: Copy,
        ensures { result ≡ nearest self.now }
    {
        self.items.last().copied()
    }

    pub(crate) fn peek(&self) -> Option<&T>
        ensures { option_copied result ≡ nearest self.now }
    {
        self.items.last()
    }

    /// What was put, the last first.
    pub(crate) fn into_vec(self) -> Vec<T>
        ensures { result.items ≡ self }
    {
        let mut items = self.items;
        items.reverse();
        items
    }
}
