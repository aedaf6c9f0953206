//! What is graded.
ghost use Rattle.std.specs.Prelude.{◌≡◌};
ghost use Rattle.choice_tree.specs.StatementViews.{weighted_prog};
ghost use Rattle.input_space.specs.TaskParts.{task_with};
ghost use Rattle.input_space.specs.Tasks.{IsSound, tree_of};

use bounds_reader::Bounds;
use choice_tree::{Rules, WProg};
use mpy_tree::{Prog, Types};
use std::marker::Model;

/// The parts of a task: the bounds, the two programs with the types of their names, and the rules.
#[derive(Drop)]
pub struct TaskParts {
    pub bounds: Bounds,
    pub reference: Prog,
    pub reference_types: Types,
    pub submission: Prog,
    pub submission_types: Types,
    pub rules: Rules,
}

/// What is graded: the bounds, the reference and the submission with the types of their names, the
/// rules, and the weighted tree of all rewritings of the submission.
///
/// Both programs are typed for the entry of the bounds, share no list and give results of one type;
/// the rules have no fault; and the tree is small enough, weighs little enough with the reference,
/// and costs little enough to be searched.
#[derive(Drop)]
pub struct Task {
    parts: TaskParts,
    tree: WProg,
}

impl Model for Task {
    ghost use Rattle.input_space.specs.declared.task.TaskParts.{TaskParts};
    ghost use Rattle.input_space.specs.contracts.task.TaskParts.{the_row};

    ghost Value = { TaskParts };

    ghost coded = { the_row.coded };

    ghost use Rattle.std.specs.Prelude.{◌≡◌};
    ghost use Rattle.choice_tree.specs.StatementViews.{weighted_prog};
    ghost use Rattle.input_space.specs.TaskParts.{task_with};
    ghost use Rattle.input_space.specs.Tasks.{IsSound, tree_of};

    ghost view = { λ t. t.parts };

    ghost invariant = { λ t. IsSound (task_with t.parts)
        × (weighted_prog t.tree ≡ tree_of (task_with t.parts)) };
}

impl Task {
    /// The task of these parts, with the weighted tree of the submission.
    pub fn new(parts: TaskParts, tree: WProg) -> Task
        requires sound { IsSound (task_with parts) }
        requires rewritten { weighted_prog tree ≡ tree_of (task_with parts) }
        ensures { result ≡ parts }
    {
        Task { parts, tree }
    }

    /// What holds of each task.
    pub fn is_sound(&self)
        ensures { IsSound (task_with self.now) }
    {
        let _ = &self.parts;
    }

    /// The bounds.
    pub fn bounds(&self) -> &Bounds
        ensures { result.now ≡ self.now.bounds }
    {
        &self.parts.bounds
    }

    /// The reference.
    pub fn reference(&self) -> &Prog
        ensures { result.now ≡ self.now.reference }
    {
        &self.parts.reference
    }

    /// The types of the reference's names and results.
    pub fn reference_types(&self) -> &Types
        ensures { result.now ≡ self.now.reference_types }
    {
        &self.parts.reference_types
    }

    /// The submission.
    pub fn submission(&self) -> &Prog
        ensures { result.now ≡ self.now.submission }
    {
        &self.parts.submission
    }

    /// The types of the submission's names and results.
    pub fn submission_types(&self) -> &Types
        ensures { result.now ≡ self.now.submission_types }
    {
        &self.parts.submission_types
    }

    /// The rules.
    pub fn rules(&self) -> &Rules
        ensures { result.now ≡ self.now.rules }
    {
        &self.parts.rules
    }

    /// The weighted tree of all rewritings of the submission.
    pub fn tree(&self) -> &WProg
        ensures { weighted_prog result.now ≡ tree_of (task_with self.now) }
    {
        &self.tree
    }
}
