//! An input, and a selection of a task's weighted tree, as constant bits.

ghost use Rattle.std.specs.Prelude.{◌≡◌, ◌<◌, ◌^◌, Bool, List, map, IfOk};
ghost use Rattle.bit_words.specs.Logic.{OwnsAll};
ghost use Rattle.bit_words.specs.Words.{nat_read};
ghost use Rattle.choice_tree.specs.Choices.{member_of};
ghost use Rattle.input_space.specs.Agreement.{IsInput};
ghost use Rattle.input_space.specs.TaskParts.{task_with};
ghost use Rattle.sym_values.specs.Reading.{read, sure};
ghost use Rattle.sym_nodes.specs.Environments.{PicksRead};
ghost use Rattle.task_bits.specs.Tasks.{AreArgumentsOf, ArePicksOf};

use bit_words::NoMemory;
use bit_words::bits::Bits;
use bit_words::logic::Logic;
use bounds_reader::Bounds;
use choice_tree::Selection;
use input_space::{Case, Task, inputs_fit};
use selection_numbers::{MemberCounts, few_picks};
use std::alloc::Global;
use sym_expr::Picks;
use sym_values::SymValue;
use sym_values::constant::constant_value;

/// The values of an input, as constant bits.
pub fn constant_case<L: Logic>(
    alloc: Global,
    g: &L,
    bounds: &Bounds,
    case: &Case,
) -> Result<Vec<SymValue<L::Bit>>, NoMemory>
    requires { IsInput bounds.now case.now.values }
    ensures made { IfOk result (λ r. AreArgumentsOf L.owns g.now bounds.now r.items) }
    ensures value { IfOk result (λ r. (vs : List Bool)
        → map (read (L.reads g.now vs)) r.items ≡ map sure case.now.values) }
{
    inputs_fit();
    let mut args = Vec::new(alloc);
    for value in case.values.items() {
        let arg = constant_value(alloc, g, &bounds.limits, value)?;
        args.push(arg)?;
    }
    Ok(args)
}

/// The members of a selection, as constant bits.
pub fn constant_picks<L: Logic>(
    alloc: Global,
    g: &L,
    task: &Task,
    selection: &Selection,
) -> Result<Picks<L::Bit>, NoMemory>
    ensures made { IfOk result (λ r. ArePicksOf L.owns g.now (task_with task.now) r) }
    ensures value { IfOk result (λ r. (vs : List Bool)
        → PicksRead (L.reads g.now vs) r (member_of selection.now)) }
{
    task.is_sound();
    few_picks();
    let counts = MemberCounts::of(alloc, task.tree())?;
    let mut picks = Picks::new(alloc);
    for i in 0..counts.len() {
        let member = selection.member(i as u32);
        let bits = member_bits(alloc, g, member)?;
        picks.push(bits)?;
    }
    Ok(picks)
}

// How many bits the number of a member is given: 16 where they do, since a longer number is never
// looked up as a known one.
fn width_of(member: u32) -> usize
    ensures { member < 2 ^ result }
{
    if member < 65536 { 16 } else { 32 }
}

// The number of a member, as constant bits.
fn member_bits<L: Logic>(alloc: Global, g: &L, member: u32) -> Result<Bits<L::Bit>, NoMemory>
    ensures made { IfOk result (λ r. OwnsAll L.owns g.now r) }
    ensures value { IfOk result (λ r. (vs : List Bool) → nat_read L.reads g.now vs r ≡ member) }
{
    let mut bits = Bits::new(alloc);
    let mut rest = member;
    for _ in 0..width_of(member) {
        let digit = g.constant(rest % 2 == 1);
        bits.push(digit)?;
        rest /= 2;
    }
    Ok(bits)
}
