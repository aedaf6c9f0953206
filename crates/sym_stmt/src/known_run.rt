//! Weighted programs whose picks and arguments are all known. The program that the picks choose is
//! run on values.

ghost use Rattle.std.specs.Prelude.{◌≡◌, ℕ, Bool, List, map, Some, IfOk, IfSome};
ghost use Rattle.mpy_tree.specs.declared.value.Value.{Value};
ghost use Rattle.mpy_tree.specs.Running.{evaluated};
ghost use Rattle.mpy_tree.specs.Shapes.{program_shape};
ghost use Rattle.mpy_tree.specs.Syntax.{Routine};
ghost use Rattle.bit_words.specs.Logic.{OwnsAll};
ghost use Rattle.choice_tree.specs.Selections.{plain};
ghost use Rattle.choice_tree.specs.StatementViews.{weighted_prog};
ghost use Rattle.sym_values.specs.Forms.{joined, values_bits};
ghost use Rattle.sym_values.specs.Printed.{DoneReads, IsDoneIn};
ghost use Rattle.sym_values.specs.Reading.{read, sure};
ghost use Rattle.sym_nodes.specs.Environments.{HasPicks, PicksRead};
ghost use Rattle.sym_nodes.specs.Views.{env_of};
ghost use Rattle.sym_stmt.specs.Programs.{end_form};

use crate::constant_end::constant_end;
use crate::known_picks::known_selection;
use crate::program::Program;
use bit_words::NoMemory;
use bit_words::logic::Logic;
use choice_tree::plain;
use known_values::known_value;
use mpy_interp::run;
use mpy_tree::{Name, Values};
use std::alloc::Global;
use sym_expr::View;
use sym_values::{SymDone, SymValue};

/// The values of all arguments, where they are known.
fn known_arguments<L: Logic>(
    alloc: Global,
    g: &L,
    args: &[SymValue<L::Bit>],
) -> Result<Option<Values>, NoMemory>
    requires { OwnsAll L.owns g.now (values_bits args.now) }
    ensures { IfOk result (λ r. IfSome r (λ values. (vs : List Bool) →
        map (read (L.reads g.now vs)) args.now ≡ map sure values)) }
{
    let mut values = Vec::new(alloc);
    for arg in args {
        match known_value(alloc, g, arg)? {
            None => return Ok(None),
            Some(value) => values.push(value)?,
        }
    }
    Ok(Some(Values::from_vec(values)))
}

/// How the program that the picks choose ends, where these and the arguments are known.
pub fn known_run<L: Logic>(
    alloc: Global,
    g: &L,
    program: &Program<'_>,
    view: &View<'_, L::Bit>,
    entry: &Name,
    args: &[SymValue<L::Bit>],
) -> Result<Option<SymDone<L::Bit>>, NoMemory>
    requires picks { OwnsAll L.owns g.now (joined (env_of view.now).picks) }
    requires many { HasPicks (env_of view.now).picks (weighted_prog program.now.tree.now) }
    requires args { OwnsAll L.owns g.now (values_bits args.now) }
    ensures made { IfOk result (λ r. IfSome r (IsDoneIn L.owns g.now (env_of view.now).limits
        (end_form (env_of view.now).limits program.now.tree.now program.now.types.now.facts
        entry.now))) }
    ensures value { IfOk result (λ r. IfSome r (λ o.
        (vs : List Bool) (m : ℕ → ℕ) (values : List Value) (p : List Routine)
        → PicksRead (L.reads g.now vs) (env_of view.now).picks m
        → map (read (L.reads g.now vs)) args.now ≡ map sure values
        → program_shape p ≡ plain m (weighted_prog program.now.tree.now)
        → DoneReads (env_of view.now).limits (L.reads g.now vs) o
        (evaluated (env_of view.now).limits p entry.now values))) }
{
    let Some(values) = known_arguments(alloc, g, args)? else {
        return Ok(None);
    };
    let Some(selection) = known_selection(alloc, g, view.picks)? else {
        return Ok(None);
    };
    let chosen = plain(alloc, program.tree, &selection)?;
    let end = run(alloc, &chosen, program.types, view.limits, entry, &values)?;
    let ty = program.given_type(entry);
    let constant = constant_end(alloc, g, view.limits, ty, &end)?;
    Ok(constant)
}
