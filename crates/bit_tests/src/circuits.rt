//! The programs of a task as circuits.

ghost use Rattle.task_bits.specs.Tasks.{AreArgumentsOf};

use bit_graph::gate::GraphBit;
use bit_graph::graph::Graph;
use bit_words::NoMemory;
use bit_words::logic::Variables;
use choice_tree::Selection;
use input_space::{Case, Task};
use mpy_tree::{Limits, Outcome};
use std::alloc::Global;
use sym_values::{SymDone, SymValue};
use task_bits::{candidates, reference};
use test_bits::{Truths, arguments, picks_of};

/// A program of a task.
#[derive(Clone, Copy)]
pub(crate) enum Program<'a> {
    Reference,
    /// The rewriting of a selection, or if there is none that of variable picks.
    Rewriting(Option<&'a Selection>),
}

/// How one of them ends.
fn outcome<V: Variables>(
    alloc: Global,
    g: &mut V,
    task: &Task,
    program: Program<'_>,
    args: &Vec<SymValue<V::Bit>>,
) -> Result<SymDone<V::Bit>, NoMemory>
    requires { AreArgumentsOf V.owns g.old task.now.bounds args.now.items }
{
    match program {
        Program::Reference => {
            let outcome = reference(alloc, g, task, args)?;
            Ok(outcome)
        }
        Program::Rewriting(selection) => {
            let picks = picks_of(alloc, g, task, selection)?;
            let outcome = candidates(alloc, g, task, &picks, args)?;
            Ok(outcome)
        }
    }
}

/// An end over a graph, whose first variables are those of the arguments and of the picks.
#[derive(Drop)]
pub(crate) struct Circuit {
    graph: Graph,
    outcome: SymDone<GraphBit>,
}

impl Circuit {
    /// That of a program on an input within the bounds, or if there is none on variable arguments.
    pub(crate) fn of(
        alloc: Global,
        task: &Task,
        program: Program<'_>,
        case: Option<&Case>,
    ) -> Result<Circuit, NoMemory> {
        let mut graph = Graph::new(alloc)?;
        let args = arguments(alloc, &mut graph, task.bounds(), case)?;
        let outcome = outcome(alloc, &mut graph, task, program, &args)?;
        Ok(Circuit { graph, outcome })
    }

    /// Whether it reads as the end of a run under truth values of its variables.
    pub(crate) fn reads(
        &self,
        alloc: Global,
        limits: &Limits,
        variables: Vec<bool>,
        end: &Outcome,
    ) -> Result<bool, NoMemory> {
        let truths = Truths::under(alloc, &self.graph, variables)?;
        truths.read_done(alloc, &self.graph, limits, &self.outcome, end)
    }
}
