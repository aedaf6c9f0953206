//! The inputs and the selections of a task, how its programs end, and the truth values that spell
//! inputs and selections.

use crate::outcomes::{Truths, shown_bits};
use bit_graph::gate::GraphBit;
use bit_graph::graph::Graph;
use bit_words::NoMemory;
use bounds_reader::Bounds;
use choice_tree::{Selection, choices};
use input_space::{Case, Task, case_at, in_bounds, inputs_count};
use mpy_interp::run;
use mpy_tree::{Outcome, Prog};
use pick_bits::member_bits;
use selection_numbers::MemberCounts;
use std::alloc::{AllocError, Global};
use sym_values::SymValue;
use task_bits::constant_case;

/// The inputs within bounds, if they are few.
pub fn inputs_of(alloc: Global, bounds: &Bounds) -> Result<Vec<Case>, NoMemory> {
    let mut all = Vec::new(alloc);
    let count = inputs_count(bounds);
    if count < 1000 {
        for i in 0..count {
            all.push(case_at(alloc, bounds, i)?)?;
        }
    }
    Ok(all)
}

/// The selections of a task's weighted tree in the order of their numbers, if they are few.
pub fn selections_of(alloc: Global, task: &Task) -> Result<Vec<Selection>, NoMemory> {
    let mut all = Vec::new(alloc);
    let counts = MemberCounts::of(alloc, task.tree())?;
    let count = choices(task.tree());
    if count < 1000 && counts.len() < 1000 {
        for number in 0..count as u32 {
            all.push(counts.selection(alloc, number)?)?;
        }
    }
    Ok(all)
}

/// How a program of a task ends on an input.
pub fn end_of(
    alloc: Global,
    task: &Task,
    program: &Prog,
    case: &Case,
) -> Result<Outcome, NoMemory> {
    let bounds = task.bounds();
    let types = task.submission_types();
    run(
        alloc,
        program,
        types,
        &bounds.limits,
        &bounds.entry,
        &case.values,
    )
}

/// Appends the truth values of the bits of a value of constants.
fn push_value(
    alloc: Global,
    truths: &mut Vec<bool>,
    constants: &Truths,
    value: &SymValue<GraphBit>,
) -> Result<(), NoMemory> {
    let bits = shown_bits(alloc, value, usize::MAX)?;
    for bit in &bits {
        truths.push(constants.of(*bit))?;
    }
    Ok(())
}

/// The truth values of the bits of values of constants, in order.
fn truths_of_values(
    alloc: Global,
    constants: &Truths,
    values: &[SymValue<GraphBit>],
) -> Result<Vec<bool>, NoMemory> {
    let mut truths = Vec::new(alloc);
    for value in values {
        push_value(alloc, &mut truths, constants, value)?;
    }
    Ok(truths)
}

/// The truth values of the bits of an input within bounds.
pub fn truths_of_case(alloc: Global, bounds: &Bounds, case: &Case) -> Result<Vec<bool>, NoMemory> {
    if !in_bounds(bounds, case) {
        return Err(AllocError);
    }
    let g = Graph::new(alloc)?;
    let constants = Truths::under(alloc, &g, Vec::new(alloc))?;
    let values = constant_case(alloc, &g, bounds, case)?;
    truths_of_values(alloc, &constants, &values)
}

/// Appends the digits of a number without a sign, the lowest first.
fn push_digits(truths: &mut Vec<bool>, number: u32, width: usize) -> Result<(), NoMemory> {
    let mut rest = number;
    for _ in 0..width {
        truths.push(rest % 2 == 1)?;
        rest /= 2;
    }
    Ok(())
}

/// So many truth values, as the digits of a number, the lowest first.
pub fn truths_of_number(alloc: Global, number: u32, width: usize) -> Result<Vec<bool>, NoMemory> {
    let mut truths = Vec::new(alloc);
    push_digits(&mut truths, number, width)?;
    Ok(truths)
}

/// Appends the truth values of the bits of the members that a selection chooses, in order of the
/// picks.
pub fn push_members(
    truths: &mut Vec<bool>,
    counts: &MemberCounts,
    selection: &Selection,
) -> Result<(), NoMemory> {
    let mut pick = 0u32;
    for i in 0..counts.len() {
        let width = member_bits(counts.others(i).saturating_add(1));
        push_digits(truths, selection.member(pick), width)?;
        pick = pick.wrapping_add(1);
    }
    Ok(())
}
