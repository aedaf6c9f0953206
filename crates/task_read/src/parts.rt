//! The parts of a task, each read by itself, and what must hold of them together.
ghost use Rattle.std.specs.Prelude.{◌≡◌, ◌↔◌, ◌<◌, ◌≤◌, IfErr, IfOk, IsTrue, OnOk, length};
ghost use Rattle.mpy_tree.specs.declared.refusal.Cause.TheVariants as cause;
ghost use Rattle.choice_tree.specs.Selections.{most_cost};
ghost use Rattle.choice_tree.specs.StatementViews.{weighted_prog};
ghost use Rattle.choice_tree.specs.WeightedTrees.{size};
ghost use Rattle.input_space.specs.TaskParts.{task_with};
ghost use Rattle.input_space.specs.Tasks.{IsTooLarge, tree_of, weights};
ghost use Rattle.task_read.specs.Errors.{RefusesAs};
ghost use Rattle.task_read.specs.Steps.{refuse_if};
ghost use Rattle.task_read.specs.TaskSteps.{AreReady, GiveOneType, at_entry, parts_step};
ghost use Rattle.task_read.specs.declared.error.TaskError.TheVariants as task_error;

use crate::bounds::read_task_bounds;
use crate::entry::{entry_line, result_type};
use crate::error::{TaskError, refused};
use crate::program::read_program;
use crate::rules::read_task_rules;
use bounds_reader::Bounds;
use choice_tree::{WProg, most_cost};
use eml_rewrite::{RewriteError, rewrite};
use input_space::TaskParts;
use mpy_round_trip::what_is_read_is_proper;
use mpy_tree::{Cause, Source};
use mpy_types::FactList;
use std::alloc::Global;
use tree_weights::{NoMemory, lift, weight};

// The reference and the weighted tree weigh no more than this together.
const MOST_WEIGHT: u64 = 1_000_000;

// The greatest cost is no more than this.
const MOST_COST: u32 = 4096;

/// Reads each part of a task from its text, in order.
pub(crate) fn read_parts(
    alloc: Global,
    bounds: &[u8],
    reference: &[u8],
    submission: &[u8],
    rules: &[u8],
) -> Result<TaskParts, TaskError>
    requires bounds { length bounds.now ≤ 1073741824 }
    requires reference { length reference.now ≤ 1073741824 }
    requires submission { length submission.now ≤ 1073741824 }
    requires rules { length rules.now ≤ 1073741824 }
    ensures read { IfOk result (λ p. (parts_step bounds.now reference.now submission.now
        rules.now).gives (task_with p)) }
    ensures ready { IfOk result (λ p. AreReady (task_with p)) }
    ensures refused { IfErr result (RefusesAs (parts_step bounds.now reference.now submission.now
        rules.now).refuses) }
{
    what_is_read_is_proper();
    let bounds = read_task_bounds(alloc, bounds)?;
    let (reference, reference_types) = read_program(alloc, &bounds, reference, Source::Reference)?;
    let (submission, submission_types) = read_program(
        alloc,
        &bounds,
        submission,
        Source::Submission,
    )?;
    let rules = read_task_rules(alloc, rules)?;
    Ok(TaskParts {
        bounds,
        reference,
        reference_types,
        submission,
        submission_types,
        rules,
    })
}

// A refusal of the submission, at the line of its entry.
fn at_entry(parts: &TaskParts, cause: Cause) -> TaskError
    ensures { result ≡ task_error.Refused (at_entry cause (task_with parts.now)) }
{
    let line = entry_line(&parts.bounds, &parts.submission);
    refused(Source::Submission, cause, line)
}

/// That both entries give results of one type.
pub(crate) fn compare_results(parts: &TaskParts) -> Result<(), TaskError>
    ensures one_type { OnOk result (GiveOneType (task_with parts.now)) }
    ensures refused { IfErr result (RefusesAs (refuse_if (GiveOneType (task_with parts.now) → ⊥)
        (at_entry cause.ResultType (task_with parts.now))).refuses) }
{
    let wanted = result_type(&parts.bounds, &parts.reference, &parts.reference_types);
    let given = result_type(&parts.bounds, &parts.submission, &parts.submission_types);
    if wanted == given {
        Ok(())
    } else {
        Err(at_entry(parts, Cause::ResultType))
    }
}

// The weighted tree of the submission, unless it has too many nodes.
fn tree(alloc: Global, parts: &TaskParts) -> Result<WProg, TaskError>
    requires { AreReady (task_with parts.now) }
    ensures tree { IfOk result (λ w. weighted_prog w ≡ tree_of (task_with parts.now)) }
    ensures size { OnOk result (size (tree_of (task_with parts.now)) ≤ 1000000) }
    ensures refused { IfErr result (RefusesAs (refuse_if (IsTooLarge (task_with parts.now))
        (at_entry cause.TooLarge (task_with parts.now))).refuses) }
{
    let known = FactList {
        facts: parts.submission_types.facts.items(),
    };
    match rewrite(alloc, &parts.submission, &known, &parts.rules) {
        Ok(tree) => Ok(tree),
        Err(RewriteError::Large) => Err(at_entry(parts, Cause::TooLarge)),
        Err(RewriteError::NoMemory) => Err(TaskError::NoMemory),
    }
}

// Whether the reference and a weighted tree of the submission weigh too much together.
fn weighs_too_much(alloc: Global, parts: &TaskParts, tree: &WProg) -> Result<bool, NoMemory>
    requires { weighted_prog tree.now ≡ tree_of (task_with parts.now) }
    ensures { IfOk result (λ b. IsTrue b ↔ (1000000 < weights (task_with parts.now))) }
{
    let limits = &parts.bounds.limits;
    let entry = &parts.bounds.entry;
    let reference = lift(alloc, &parts.reference)?;
    let wanted = weight(&reference, &parts.reference_types, limits, entry);
    let given = weight(tree, &parts.submission_types, limits, entry);
    Ok(wanted + given > MOST_WEIGHT)
}

// Whether the greatest cost of a selection of the tree of the submission is too great.
fn costs_too_much(parts: &TaskParts, tree: &WProg) -> bool
    requires ready { AreReady (task_with parts.now) }
    requires tree { weighted_prog tree.now ≡ tree_of (task_with parts.now) }
    requires size { size (tree_of (task_with parts.now)) ≤ 1000000 }
    ensures { IsTrue result ↔ (4096 < most_cost (tree_of (task_with parts.now))) }
{
    most_cost(tree) > MOST_COST
}

/// The weighted tree of the submission, unless the task is too large.
pub(crate) fn small_tree(alloc: Global, parts: &TaskParts) -> Result<WProg, TaskError>
    requires { AreReady (task_with parts.now) }
    ensures tree { IfOk result (λ w. weighted_prog w ≡ tree_of (task_with parts.now)) }
    ensures small { OnOk result (IsTooLarge (task_with parts.now) → ⊥) }
    ensures refused { IfErr result (RefusesAs (refuse_if (IsTooLarge (task_with parts.now))
        (at_entry cause.TooLarge (task_with parts.now))).refuses) }
{
    let tree = tree(alloc, parts)?;
    if weighs_too_much(alloc, parts, &tree)? || costs_too_much(parts, &tree) {
        return Err(at_entry(parts, Cause::TooLarge));
    }
    Ok(tree)
}
