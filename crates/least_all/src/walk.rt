//! The live selections of a cost, counted, and those that agree, listed.
ghost use Rattle.std.specs.Prelude.{◌≡◌, min, length, IfOk};
ghost use Rattle.choice_tree.specs.StatementViews.{weighted_prog};
ghost use Rattle.cost_levels.specs.Counts.{count_most};
ghost use Rattle.cost_levels.specs.Levels.{level};
ghost use Rattle.input_space.specs.TaskParts.{task_with};
ghost use Rattle.least_all.specs.Answers.{IsBestOf};

use crate::NoMemory;
use crate::answer::Best;
use crate::listing::list;
use choice_tree::WProg;
use cost_levels::{COUNT_MOST, Levels, levels_rise, selections_have_levels};
use input_space::Task;
use std::alloc::Global;

/// How many live selections of a weighted tree have a cost; 100,001 where there are more than
/// 100,000.
pub fn count_live(alloc: Global, w: &WProg, cost: u32) -> Result<u32, NoMemory>
    ensures { IfOk result (λ n. n ≡ min (length (level (weighted_prog w.now) cost)) count_most) }
{
    let levels = Levels::of(alloc, w)?;
    levels.count(alloc, cost)
}

/// The first `most` programs of the best list of a task at a cost, by their selections. At most so
/// many clauses are logged.
pub fn list_best(alloc: Global, t: &Task, cost: u32, most: u32, budget: u32) -> Best
    ensures { IsBestOf (task_with t.now) cost most budget result }
{
    match find_best(alloc, t, cost, most, budget) {
        Ok(best) => best,
        Err(_) => Best::NoMemory,
    }
}

// The same, where want of memory is an error.
fn find_best(alloc: Global, t: &Task, cost: u32, most: u32, budget: u32) -> Result<Best, NoMemory>
    ensures { IfOk result (IsBestOf (task_with t.now) cost most budget) }
{
    levels_rise();
    selections_have_levels();
    let levels = Levels::of(alloc, t.tree())?;
    let count = levels.count(alloc, cost)?;
    if count >= COUNT_MOST {
        return Ok(Best::Many);
    }
    let selections = levels.in_order(alloc, cost)?;
    list(alloc, t, &selections, most, budget)
}
