//! Arguments and picks whose bits are new variables.

ghost use Rattle.std.specs.Prelude.{IfOk};
ghost use Rattle.bit_words.specs.Logic.{Keeps};
ghost use Rattle.input_space.specs.TaskParts.{task_with};
ghost use Rattle.task_bits.specs.Tasks.{AreArgumentsOf, ArePicksOf};

use bit_words::NoMemory;
use bit_words::logic::Variables;
use bounds_reader::Bounds;
use choice_tree::Selection;
use input_bits::fresh_values;
use input_space::{Case, Task, in_bounds, signature};
use pick_bits::{RangedMembers, fresh_members};
use selection_numbers::MemberCounts;
use std::alloc::{AllocError, Global};
use sym_nodes::Picks;
use sym_values::SymValue;
use task_bits::{constant_case, constant_picks};

/// Arguments for the parameters of bounds.
fn variable_arguments<V: Variables>(
    alloc: Global,
    g: &mut V,
    bounds: &Bounds,
) -> Result<Vec<SymValue<V::Bit>>, NoMemory>
    ensures keeps { Keeps V.owns V.reads g.old g.new }
    ensures made { IfOk result (λ r. AreArgumentsOf V.owns g.new bounds.now r.items) }
{
    let signature = signature(alloc, bounds)?;
    let values = fresh_values(alloc, g, &bounds.limits, signature.params.items())?;
    Ok(values.into_vec())
}

/// Those of an input within the bounds as constants, if one is given. The variables are added all
/// the same.
pub fn arguments<V: Variables>(
    alloc: Global,
    g: &mut V,
    bounds: &Bounds,
    case: Option<&Case>,
) -> Result<Vec<SymValue<V::Bit>>, NoMemory>
    ensures keeps { Keeps V.owns V.reads g.old g.new }
    ensures made { IfOk result (λ r. AreArgumentsOf V.owns g.new bounds.now r.items) }
{
    let variables = variable_arguments(alloc, g, bounds)?;
    match case {
        None => Ok(variables),
        Some(given) => {
            if in_bounds(bounds, given) {
                constant_case(alloc, g, bounds, given)
            } else {
                Err(AllocError)
            }
        }
    }
}

/// The members of the picks of a task's weighted tree.
pub fn variable_members<V: Variables>(
    alloc: Global,
    g: &mut V,
    task: &Task,
) -> Result<RangedMembers<V::Bit>, NoMemory>
    ensures keeps { Keeps V.owns V.reads g.old g.new }
    ensures made { IfOk result (λ r. ArePicksOf V.owns g.new (task_with task.now)
        r.members.items) }
{
    let counts = MemberCounts::of(alloc, task.tree())?;
    let ranged = fresh_members(alloc, g, &counts)?;
    Ok(ranged)
}

/// The picks, as constants if a selection is given. The variables are added all the same.
pub fn picks_of<V: Variables>(
    alloc: Global,
    g: &mut V,
    task: &Task,
    selection: Option<&Selection>,
) -> Result<Picks<V::Bit>, NoMemory>
    ensures keeps { Keeps V.owns V.reads g.old g.new }
    ensures made { IfOk result (λ r. ArePicksOf V.owns g.new (task_with task.now) r) }
{
    let ranged = variable_members(alloc, g, task)?;
    match selection {
        None => Ok(Picks::from_vec(ranged.members)),
        Some(chosen) => constant_picks(alloc, g, task, chosen),
    }
}
