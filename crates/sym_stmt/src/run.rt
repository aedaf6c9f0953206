//! Weighted programs.

ghost use Rattle.std.specs.Prelude.{◌≡◌, ℕ, Bool, List, map, IfOk};
ghost use Rattle.mpy_tree.specs.declared.value.Value.{Value};
ghost use Rattle.mpy_tree.specs.Running.{evaluated};
ghost use Rattle.mpy_tree.specs.Shapes.{program_shape};
ghost use Rattle.mpy_tree.specs.Syntax.{Routine};
ghost use Rattle.bit_words.specs.Logic.{Extends, OwnsAll};
ghost use Rattle.choice_tree.specs.Selections.{plain};
ghost use Rattle.choice_tree.specs.StatementViews.{weighted_prog};
ghost use Rattle.sym_values.specs.Forms.{joined};
ghost use Rattle.sym_values.specs.Reading.{read, sure};
ghost use Rattle.sym_values.specs.Printed.{DoneReads, IsDoneIn};
ghost use Rattle.sym_nodes.specs.Environments.{HasPicks, PicksRead};
ghost use Rattle.sym_nodes.specs.Operands.{ty_of};
ghost use Rattle.sym_expr.specs.Signatures.{AreArgumentsIn};
ghost use Rattle.sym_nodes.specs.Views.{env_of};
ghost use Rattle.sym_stmt.specs.Programs.{TypesProgram, end_form, entry_within};

use crate::depths::remembering;
use crate::known_run::known_run;
use crate::program::Program;
use bit_words::NoMemory;
use bit_words::bits::Bits;
use bit_words::logic::Logic;
use choice_tree::WProg;
use mpy_tree::{Limits, Name, Names, Types};
use std::alloc::Global;
use std::marker::Brand;
use sym_expr::{Picks, View};
use sym_values::{SymDone, SymValue, SymValues};

/// How a weighted program ends on arguments of the entry's types: under all truth values it reads
/// as the end of the plain program that the picks choose.
pub fn sym_run<L: Logic>(
    alloc: Global,
    g: &mut L,
    w: &WProg,
    t: &Types,
    l: &Limits,
    entry: &Name,
    picks: &Picks<L::Bit>,
    args: &Vec<SymValue<L::Bit>>,
) -> Result<SymDone<L::Bit>, NoMemory>
    requires typed { TypesProgram t.now.facts w.now
        (entry_within l.now entry.now (map ty_of args.now.items)) }
    requires args { AreArgumentsIn L.owns g.old l.now args.now.items }
    requires picks { OwnsAll L.owns g.old (joined picks.now) }
    requires many { HasPicks picks.now (weighted_prog w.now) }
    ensures extends { Extends L.owns L.reads L.count g.old g.new }
    ensures made { IfOk result (λ r. IsDoneIn L.owns g.new l.now
        (end_form l.now w.now t.now.facts entry.now) r) }
    ensures value { IfOk result (λ r.
        (vs : List Bool) (m : ℕ → ℕ) (values : List Value) (p : List Routine)
        → PicksRead (L.reads g.old vs) picks.now m
        → map (read (L.reads g.old vs)) args.now.items ≡ map sure values
        → program_shape p ≡ plain m (weighted_prog w.now)
        → DoneReads l.now (L.reads g.new vs) r (evaluated l.now p entry.now values)) }
{
    let program = Program { tree: w, types: t };
    let names = Names::from_vec(Vec::new(alloc));
    let values = SymValues::new(alloc);
    let set = Bits::new(alloc);
    let view = View {
        names: &names,
        values: &values,
        set: &set,
        picks,
        limits: l,
        depth: 0,
    };
    if let Some(outcome) = known_run(alloc, g, &program, &view, entry, args)? {
        return Ok(outcome);
    }
    let given = copies(alloc, args)?;
    let outcome = remembering::<L, Brand>(alloc, g, &program, &view, entry, given)?;
    Ok(outcome)
}

// Equal values.
fn copies<B: Copy>(alloc: Global, args: &Vec<SymValue<B>>) -> Result<SymValues<B>, NoMemory>
    ensures { IfOk result (λ r. r ≡ args.now.items) }
{
    let mut all = SymValues::new(alloc);
    for x in args {
        let copy = x.copy()?;
        all.push(copy)?;
    }
    Ok(all)
}
