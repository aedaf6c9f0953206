//! The cost of the rewritings of a task's submission, as bits.

ghost use Rattle.std.specs.Prelude.{◌≡◌, ℕ, Bool, List, map, IfOk};
ghost use Rattle.bit_words.specs.Logic.{Extends};
ghost use Rattle.bit_words.specs.Results.{IsWordIn};
ghost use Rattle.choice_tree.specs.Selections.{cost};
ghost use Rattle.input_space.specs.TaskParts.{task_with};
ghost use Rattle.input_space.specs.Tasks.{tree_of};
ghost use Rattle.sym_cost.specs.Notations.{counter};
ghost use Rattle.sym_nodes.specs.Environments.{PicksRead};
ghost use Rattle.task_bits.specs.Tasks.{ArePicksOf};

use bit_words::NoMemory;
use bit_words::bits::Bits;
use bit_words::logic::Logic;
use input_space::Task;
use std::alloc::Global;
use sym_cost::cost_reaches;
use sym_expr::Picks;

/// The cost of the members that the picks choose, as a counter of so many bits, of which bit j,
/// from 0, is true exactly where the cost is at least j + 1.
pub fn task_cost_reaches<L: Logic>(
    alloc: Global,
    g: &mut L,
    task: &Task,
    picks: &Picks<L::Bit>,
    bound: u32,
) -> Result<Bits<L::Bit>, NoMemory>
    requires { ArePicksOf L.owns g.old (task_with task.now) picks.now }
    ensures extends { Extends L.owns L.reads L.count g.old g.new }
    ensures made { IfOk result (λ r. IsWordIn L.owns g.new bound r) }
    ensures value { IfOk result (λ r. (vs : List Bool) (m : ℕ → ℕ)
        → PicksRead (L.reads g.old vs) picks.now m
        → map (L.reads g.new vs) r ≡ counter bound (cost m (tree_of (task_with task.now)))) }
{
    let tree = task.tree();
    let counter = cost_reaches(alloc, g, tree, picks, bound)?;
    Ok(counter)
}
