//! The outcomes of the programs of tasks as bits, beside their runs.

use crate::circuits::{Circuit, Program};
use bit_words::NoMemory;
use choice_tree::{Selection, plain};
use input_space::{Case, Task};
use selection_numbers::MemberCounts;
use std::alloc::Global;
use std::test::Fail;
use test_bits::{
    TASKS, Texts, end_of, inputs_of, push_members, selections_of, task_of, truths_of_case,
};

/// Whether a circuit reads as the run of a selection on an input under their truth values.
fn pair_reads(
    alloc: Global,
    task: &Task,
    circuit: &Circuit,
    selection: &Selection,
    case: &Case,
) -> Result<bool, NoMemory> {
    let mut values = truths_of_case(alloc, task.bounds(), case)?;
    let counts = MemberCounts::of(alloc, task.tree())?;
    push_members(&mut values, &counts, selection)?;
    let program = plain(alloc, task.tree(), selection)?;
    let end = end_of(alloc, task, &program, case)?;
    circuit.reads(alloc, &task.bounds().limits, values, &end)
}

/// Whether it does so on each of these inputs.
fn selection_reads(
    alloc: Global,
    task: &Task,
    circuit: &Circuit,
    selection: &Selection,
    cases: &[Case],
) -> Result<bool, NoMemory> {
    for case in cases {
        if !pair_reads(alloc, task, circuit, selection, case)? {
            return Ok(false);
        }
    }
    Ok(true)
}

/// The one in a list that is alone.
fn only<T>(all: &[T]) -> Option<&T> {
    if all.len() == 1 { all.first() } else { None }
}

/// Whether one circuit reads as the runs of all these selections on all these inputs. A selection
/// or an input that is alone is constant in it.
fn circuit_is_right(
    alloc: Global,
    task: &Task,
    selections: &[Selection],
    cases: &[Case],
) -> Result<bool, NoMemory> {
    let program = Program::Rewriting(only(selections));
    let circuit = Circuit::of(alloc, task, program, only(cases))?;
    for selection in selections {
        if !selection_reads(alloc, task, &circuit, selection, cases)? {
            return Ok(false);
        }
    }
    Ok(true)
}

/// So many selections, and so many inputs, have one circuit.
type Sizes = (usize, usize);

/// Whether all circuits of so many selections and inputs are right.
fn circuits_are_right(
    alloc: Global,
    task: &Task,
    selections: &[Selection],
    cases: &[Case],
    sizes: Sizes,
) -> Result<bool, NoMemory> {
    for some in selections.chunks(sizes.0.max(1)) {
        for inputs in cases.chunks(sizes.1.max(1)) {
            if !circuit_is_right(alloc, task, some, inputs)? {
                return Ok(false);
            }
        }
    }
    Ok(true)
}

/// Whether those of all selections of a task on all inputs are.
fn task_is_right(alloc: Global, texts: &Texts, sizes: Sizes) -> Result<bool, Fail> {
    let task = task_of(alloc, texts)?;
    let cases = inputs_of(alloc, task.bounds())?;
    let selections = selections_of(alloc, &task)?;
    let right = circuits_are_right(alloc, &task, &selections, &cases, sizes)?;
    Ok(right && cases.len() > 1 && selections.len() > 1)
}

const ALL: usize = 1000;

/// Over constants each selection reads as its run on each input.
#[test]
fn constants_read_as_runs(rt: HostRuntime) -> Result<(), Fail> {
    let alloc = rt.alloc();
    for texts in &TASKS {
        let right = task_is_right(alloc, texts, (1, 1))?;
        assert!(rt; right, "{}", texts.submission);
    }
    Ok(())
}

/// Over variables for the arguments each selection does so.
#[test]
fn arguments_read_as_runs(rt: HostRuntime) -> Result<(), Fail> {
    let alloc = rt.alloc();
    for texts in &TASKS {
        let right = task_is_right(alloc, texts, (1, ALL))?;
        assert!(rt; right, "{}", texts.submission);
    }
    Ok(())
}

/// Over variables for the picks each input does so.
#[test]
fn picks_read_as_runs(rt: HostRuntime) -> Result<(), Fail> {
    let alloc = rt.alloc();
    for texts in &TASKS {
        let right = task_is_right(alloc, texts, (ALL, 1))?;
        assert!(rt; right, "{}", texts.submission);
    }
    Ok(())
}

/// Over variables for both one circuit does so for all.
#[test]
fn wholes_read_as_runs(rt: HostRuntime) -> Result<(), Fail> {
    let alloc = rt.alloc();
    for texts in &TASKS {
        let right = task_is_right(alloc, texts, (ALL, ALL))?;
        assert!(rt; right, "{}", texts.submission);
    }
    Ok(())
}

/// Whether the circuit of the reference over variables reads as its run on each of these inputs.
fn reference_reads(alloc: Global, task: &Task, cases: &[Case]) -> Result<bool, NoMemory> {
    let circuit = Circuit::of(alloc, task, Program::Reference, None)?;
    for case in cases {
        let values = truths_of_case(alloc, task.bounds(), case)?;
        let end = end_of(alloc, task, task.reference(), case)?;
        if !circuit.reads(alloc, &task.bounds().limits, values, &end)? {
            return Ok(false);
        }
    }
    Ok(true)
}

/// Whether it does so on all inputs of a task.
fn reference_is_right(alloc: Global, texts: &Texts) -> Result<bool, Fail> {
    let task = task_of(alloc, texts)?;
    let cases = inputs_of(alloc, task.bounds())?;
    let right = reference_reads(alloc, &task, &cases)?;
    Ok(right && cases.len() > 1)
}

/// References read as their runs.
#[test]
fn references_read_as_runs(rt: HostRuntime) -> Result<(), Fail> {
    let alloc = rt.alloc();
    for texts in &TASKS {
        let right = reference_is_right(alloc, texts)?;
        assert!(rt; right, "{}", texts.reference);
    }
    Ok(())
}
