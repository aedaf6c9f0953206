//! A task, read from its four texts.
ghost use Rattle.std.specs.Prelude.{◌≤◌, length, IfErr, IfOk};
ghost use Rattle.mpy_tree.specs.declared.refusal.Refusal.{Refusal as AnyRefusal};
ghost use Rattle.input_space.specs.TaskParts.{task_with};
ghost use Rattle.input_space.specs.Tasks.{Task as AnyTask};
ghost use Rattle.task_read.specs.Errors.{IsTaskGiven, IsTaskRefused, RefusesAs};
ghost use Rattle.task_read.specs.TaskSteps.{task_step};

use crate::error::TaskError;
use crate::parts::{compare_results, read_parts, small_tree};
use input_space::Task;
use std::alloc::Global;

// One step after another.
fn read_in_order(
    alloc: Global,
    bounds: &[u8],
    reference: &[u8],
    submission: &[u8],
    rules: &[u8],
) -> Result<Task, TaskError>
    requires bounds { length bounds.now ≤ 1073741824 }
    requires reference { length reference.now ≤ 1073741824 }
    requires submission { length submission.now ≤ 1073741824 }
    requires rules { length rules.now ≤ 1073741824 }
    ensures read { IfOk result (λ t. (task_step bounds.now reference.now submission.now
        rules.now).gives (task_with t)) }
    ensures refused { IfErr result (RefusesAs (task_step bounds.now reference.now submission.now
        rules.now).refuses) }
{
    let parts = read_parts(alloc, bounds, reference, submission, rules)?;
    compare_results(&parts)?;
    let tree = small_tree(alloc, &parts)?;
    Ok(Task::new(parts, tree))
}

/// Reads the task that four texts spell: bounds, a reference, a submission and rules.
///
/// # Errors
///
/// The first refusal, each step over its whole source before the next: of the bounds; of the
/// reference; of the submission; of the rules; `ResultType` where the two entries don't give
/// results of one type; and `TooLarge` where the weighted tree of the submission has more than
/// 1,000,000 nodes, or its choices times the inputs are more than 1,000,000. The last two stand at
/// the line of the submission's entry.
pub fn read_task(
    alloc: Global,
    bounds: &[u8],
    reference: &[u8],
    submission: &[u8],
    rules: &[u8],
) -> Result<Task, TaskError>
    requires bounds { length bounds.now ≤ 1073741824 }
    requires reference { length reference.now ≤ 1073741824 }
    requires submission { length submission.now ≤ 1073741824 }
    requires rules { length rules.now ≤ 1073741824 }
    ensures read { IfOk result (λ t. (task_step bounds.now reference.now submission.now
        rules.now).gives (task_with t)) }
    ensures refused { IfErr result (RefusesAs (task_step bounds.now reference.now submission.now
        rules.now).refuses) }
    ensures task { (k : AnyTask)
        → (task_step bounds.now reference.now submission.now rules.now).gives k
        → IsTaskGiven k result }
    ensures refusal { (r : AnyRefusal)
        → (task_step bounds.now reference.now submission.now rules.now).refuses r
        → IsTaskRefused r result }
{
    read_in_order(alloc, bounds, reference, submission, rules)
}
