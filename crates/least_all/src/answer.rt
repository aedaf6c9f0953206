//! What is answered where all best corrections are asked for.
ghost use Rattle.std.specs.Prelude.{◌≡◌, ◌++◌, ◌∷◌, [], OnErr, OnOk};

use crate::NoMemory;
use choice_tree::Selection;
use input_space::Sessions;
use std::alloc::Global;
use std::marker::Model;

/// A list of selections.
#[derive(Drop)]
pub struct Selections {
    items: Vec<Selection>,
}

impl Model for Selections {
    ghost use Rattle.std.specs.Prelude.{List};
    ghost use Rattle.choice_tree.specs.declared.selection.Choice.{Choice};

    ghost Value = { List (List Choice) };

    ghost view = { λ s. s.items.items };
}

impl Selections {
    /// The list of no selections.
    pub fn new(alloc: Global) -> Selections
        ensures { result ≡ [] }
    {
        Selections {
            items: Vec::new(alloc),
        }
    }

    /// The selections.
    pub fn items(&self) -> &[Selection]
        ensures { result.now ≡ self.now }
    {
        self.items.as_slice()
    }

    /// Adds a selection at the end. Where memory is wanting the list stays as it was.
    pub fn push(&mut self, selection: Selection) -> Result<(), NoMemory>
        ensures more { OnOk result (self.new ≡ self.old ++ selection ∷ []) }
        ensures as_before { OnErr result (self.new ≡ self.old) }
    {
        self.items.push(selection)?;
        Ok(())
    }
}

/// The best corrections of a task.
#[derive(Drop)]
pub enum Best {
    /// The selections of the first programs of the best list, and whether these are all of it.
    Listed { picks: Selections, whole: bool },
    /// More live selections have the cost than are looked at.
    Many,
    /// As many clauses were logged as the budget allows, in these sessions.
    Spent { sessions: Sessions },
    /// There was no memory.
    NoMemory,
}
