//! The programs of a task, run on its inputs.
#![tactic(auto)]

ghost use Rattle.std.specs.Prelude.{◌≡◌, ◌↔◌, IfOk, IsTrue};
ghost use Rattle.mpy_tree.specs.View.{routines_of};
ghost use Rattle.input_space.specs.Agreement.{ends_on};
ghost use Rattle.input_space.specs.TaskParts.{task_with};
ghost use Rattle.input_space.specs.TaskSpace.{Meets, wanted};

use input_space::{Case, Task};
use mpy_interp::run;
use mpy_tree::{Outcome, Prog, Types};
use std::alloc::{AllocError, Global};

/// Want of memory, where a call has no other refusal.
pub type NoMemory = AllocError;

/// A task whose programs are run.
#[derive(Clone, Copy)]
pub struct Runs<'a> {
    pub alloc: Global,
    pub task: &'a Task,
}

impl Runs<'_> {
    // How a program ends on a case, where its names have these types.
    fn outcome(&self, program: &Prog, types: &Types, case: &Case) -> Result<Outcome, NoMemory>
        ensures { IfOk result (λ o. o ≡ ends_on self.now.task.now.bounds (routines_of program.now)
            case.now.values) }
    {
        let bounds = self.task.bounds();
        run(
            self.alloc,
            program,
            types,
            &bounds.limits,
            &bounds.entry,
            &case.values,
        )
    }

    /// How the reference ends on a case.
    pub fn reference(&self, case: &Case) -> Result<Outcome, NoMemory>
        ensures { IfOk result (λ o. o ≡ wanted (task_with self.now.task.now) case.now.values) }
    {
        self.outcome(self.task.reference(), self.task.reference_types(), case)
    }

    /// How the submission ends on a case.
    pub fn submission(&self, case: &Case) -> Result<Outcome, NoMemory>
        ensures { IfOk result (λ o. o ≡ ends_on self.now.task.now.bounds
            (task_with self.now.task.now).submission case.now.values) }
    {
        self.outcome(self.task.submission(), self.task.submission_types(), case)
    }

    /// How a program that was made of the submission ends on a case.
    pub fn program(&self, program: &Prog, case: &Case) -> Result<Outcome, NoMemory>
        ensures { IfOk result (λ o. o ≡ ends_on self.now.task.now.bounds (routines_of program.now)
            case.now.values) }
    {
        self.outcome(program, self.task.submission_types(), case)
    }

    /// Whether a program that was made of the submission gives the value of the reference on a
    /// case, where that gives one: the reference ends as is said.
    pub fn meets(&self, program: &Prog, case: &Case, end: &Outcome) -> Result<bool, NoMemory>
        requires { end.now ≡ wanted (task_with self.now.task.now) case.now.values }
        ensures { IfOk result (λ b. IsTrue b ↔ Meets (task_with self.now.task.now)
            (routines_of program.now) case.now) }
    {
        if end.is_done() {
            Ok(self.program(program, case)?.is(end))
        } else {
            Ok(true)
        }
    }
}
