//! A typed program that is run over a logic of bits.
ghost use Rattle.std.specs.Prelude.{◌≡◌, Bool, List, map, IfOk};
ghost use Rattle.mpy_tree.specs.declared.value.Value.{Value};
ghost use Rattle.mpy_tree.specs.Running.{evaluated};
ghost use Rattle.bit_words.specs.Logic.{Extends};
ghost use Rattle.sym_values.specs.Printed.{DoneReads};
ghost use Rattle.sym_values.specs.Reading.{read, sure};
ghost use Rattle.task_bits.specs.Tasks.{AreArgumentsOf};
ghost use Rattle.test_picker.specs.LaneInputs.{IsEndIn};
ghost use Rattle.test_picker.specs.Programs.{IsTypedFor, program_of};
ghost use Rattle.test_picker.specs.Settings.{IsWhole};

use crate::NoMemory;
use crate::typed_list::Typed;
use bit_words::logic::Logic;
use bounds_reader::Bounds;
use choice_tree::WProg;
use std::alloc::Global;
use sym_expr::Picks;
use sym_stmt::sym_run;
use sym_values::{SymDone, SymValue};
use tree_weights::lift;

/// A typed program, and its weighted tree, which has no picks.
#[derive(Drop)]
pub(crate) struct Program<'a> {
    pub(crate) typed: &'a Typed,
    pub(crate) tree: WProg,
}

impl Program<'_> {
    /// The program that is typed so.
    pub(crate) fn new(alloc: Global, typed: &Typed) -> Result<Program<'_>, NoMemory>
        ensures typed { IfOk result (λ p. p.typed.now ≡ typed.now) }
        ensures whole { IfOk result IsWhole }
    {
        let tree = lift(alloc, &typed.prog)?;
        Ok(Program { typed, tree })
    }

    /// How the program ends on arguments: under all truth values it reads as the end of its run on
    /// their values.
    pub(crate) fn run<L: Logic>(
        &self,
        alloc: Global,
        g: &mut L,
        bounds: &Bounds,
        args: &Vec<SymValue<L::Bit>>,
    ) -> Result<SymDone<L::Bit>, NoMemory>
        requires whole { IsWhole self.now }
        requires typed { IsTypedFor bounds.now self.now.typed.now }
        requires args { AreArgumentsOf L.owns g.old bounds.now args.now.items }
        ensures extends { Extends L.owns L.reads L.count g.old g.new }
        ensures made { IfOk result (λ r. IsEndIn L.owns g.new bounds.now self.now.typed.now r) }
        ensures value { IfOk result (λ r. (vs : List Bool) (x : List Value)
            → map (read (L.reads g.old vs)) args.now.items ≡ map sure x
            → DoneReads bounds.now.limits (L.reads g.new vs) r (evaluated bounds.now.limits
            (program_of self.now.typed.now) bounds.now.entry x)) }
    {
        let picks = Picks::new(alloc);
        let done = sym_run(
            alloc,
            g,
            &self.tree,
            &self.typed.types,
            &bounds.limits,
            &bounds.entry,
            &picks,
            args,
        )?;
        Ok(done)
    }
}
