//! What the lines of a bounds file say.
ghost use Rattle.std.specs.Prelude.{◌≡◌, ◌++◌, [], ◌∷◌, None, OnOk, IfOk};
ghost use Rattle.bounds_reader.specs.Files.{on};
ghost use Rattle.bounds_reader.specs.Items.{behind, place_of};
ghost use Rattle.bounds_reader.specs.Views.{item_view, seen, HasOrder, IsPassed};

use crate::NoMemory;
use crate::items::{Item, Named, item_at};
use crate::place::Place;
use crate::words::carries_nothing;
use mpy_tree::Name;
use std::alloc::Global;

/// A number, and its line.
#[derive(Clone, Copy)]
pub(crate) struct NumberLine {
    pub(crate) line: u32,
    pub(crate) number: i32,
}

/// A name, and its line.
#[derive(Drop)]
pub(crate) struct NameLine {
    pub(crate) line: u32,
    pub(crate) name: Name,
}

/// A parameter, and its line.
#[derive(Drop)]
pub(crate) struct ParamLine {
    pub(crate) line: u32,
    pub(crate) param: Named,
}

/// What the lines so far say, up to the place that is due.
#[derive(Drop)]
pub(crate) struct File {
    pub(crate) due: Place,
    pub(crate) width: NumberLine,
    pub(crate) turns: NumberLine,
    pub(crate) depth: NumberLine,
    pub(crate) cap: NumberLine,
    pub(crate) entry: NameLine,
    pub(crate) params: Vec<ParamLine>,
    /// How many printed values are compared, if any are.
    pub(crate) compared: Option<NumberLine>,
}

impl File {
    /// Nothing is said yet.
    pub(crate) fn new(alloc: Global) -> File
        ensures due { result.due ≡ Place.Width }
        ensures empty { result.params.items ≡ [] }
        ensures uncompared { result.compared ≡ None }
    {
        let unread = NumberLine { line: 0, number: 0 };
        File {
            due: Place::Width,
            width: unread,
            turns: unread,
            depth: unread,
            cap: unread,
            entry: NameLine {
                line: 0,
                name: Name::from_vec(Vec::new(alloc)),
            },
            params: Vec::new(alloc),
            compared: None,
        }
    }

    // Takes what a line says.
    fn add(&mut self, line: u32, item: Item) -> Result<(), NoMemory>
        requires due { place_of (item_view item) ≡ self.old.due }
        requires order { HasOrder self.old }
        ensures due { OnOk result (self.new.due ≡ behind (item_view item)) }
        ensures seen { OnOk result
            (seen self.new ≡ seen self.old ++ on line (item_view item) ∷ []) }
        ensures order { OnOk result (HasOrder self.new) }
    {
        let due = item.behind();
        match item {
            Item::Width(number) => self.width = NumberLine { line, number },
            Item::Turns(number) => self.turns = NumberLine { line, number },
            Item::Depth(number) => self.depth = NumberLine { line, number },
            Item::Cap(number) => self.cap = NumberLine { line, number },
            Item::Entry(name) => self.entry = NameLine { line, name },
            Item::Param(param) => self.params.push(ParamLine { line, param })?,
            Item::Compare(number) => self.compared = Some(NumberLine { line, number }),
        }
        self.due = due;
        Ok(())
    }

    /// Takes the line of this number, if it has no words or spells the item that is due.
    pub(crate) fn take(&mut self, alloc: Global, number: u32, line: &[u8]) -> Result<bool, NoMemory>
        requires { HasOrder self.old }
        ensures { IfOk result (IsPassed self.old self.new number line.now) }
    {
        if carries_nothing(line) {
            return Ok(true);
        }
        let Some(item) = item_at(alloc, self.due, line)? else {
            return Ok(false);
        };
        self.add(number, item)?;
        Ok(true)
    }
}
