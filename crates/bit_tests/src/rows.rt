//! Programs whose ends on an input are known, as bits.

use crate::circuits::{Circuit, Program};
use bit_words::NoMemory;
use input_space::{Case, Task, read_case};
use mpy_tree::{FaultKind, Outcome, Values};
use std::alloc::Global;
use std::test::Fail;
use test_bits::{Texts, bytes_of, task_of, truths_of_case};

/// What a run gives: a value, or a fault.
#[derive(Clone, Copy, Drop)]
enum End {
    Value(&'static str),
    Fault,
}

/// Bounds, a program, an input and what the program gives.
type Row = (&'static str, &'static str, &'static str, End);

const TWO_NUMBERS: &str = "width 6\nturns 4\ndepth 2\ncap 4\nentry f\n\
                           param a int -8..8\nparam b int -8..8\n";

const LIST_AND_NUMBER: &str = "width 6\nturns 4\ndepth 2\ncap 4\nentry f\n\
                               param v list 0..2 of -3..3\nparam i int 0..3\n";

const LIST: &str = "width 6\nturns 4\ndepth 2\ncap 4\nentry f\nparam v list 0..2 of 1..2\n";

const QUOTIENT: &str = "def f(a, b):\n    return a // b\n";

const REMAINDER: &str = "def f(a, b):\n    return a % b\n";

const LAST: &str = "def f(v):\n    return v[-1]\n";

const ALL: &str = "def f(v):\n    return v[-3:9]\n";

const NONE: &str = "def f(v):\n    return v[2:1]\n";

/// Quotients and remainders of either sign; an index behind the length, tested before and after;
/// and places counted from the end, and ends past those of a list.
const ROWS: [Row; 13] = [
    (TWO_NUMBERS, QUOTIENT, "-7, 2", End::Value("-4")),
    (TWO_NUMBERS, QUOTIENT, "7, -2", End::Value("-4")),
    (TWO_NUMBERS, QUOTIENT, "7, 0", End::Fault),
    (TWO_NUMBERS, REMAINDER, "-7, 2", End::Value("1")),
    (TWO_NUMBERS, REMAINDER, "7, -2", End::Value("-1")),
    (
        LIST_AND_NUMBER,
        "def f(v, i):\n    return i < len(v) and v[i] == 0\n",
        "[1, 2], 2",
        End::Value("False"),
    ),
    (
        LIST_AND_NUMBER,
        "def f(v, i):\n    return v[i] == 0 and i < len(v)\n",
        "[1, 2], 2",
        End::Fault,
    ),
    (LIST, LAST, "[1, 2]", End::Value("2")),
    (LIST, LAST, "[]", End::Fault),
    (LIST, ALL, "[1, 2]", End::Value("[1, 2]")),
    (LIST, ALL, "[]", End::Value("[]")),
    (LIST, NONE, "[1, 2]", End::Value("[]")),
    (LIST, NONE, "[]", End::Value("[]")),
];

/// What a run gives.
fn outcome_of(alloc: Global, end: End) -> Result<Outcome, Fail> {
    match end {
        End::Fault => Ok(Outcome::Fault {
            kind: FaultKind::Index,
            line: 2,
        }),
        End::Value(text) => {
            let mut values = read_case(alloc, bytes_of(text))?.values.into_vec();
            let value = values.pop().ok_or("no value")?;
            Ok(Outcome::Done {
                value: Some(value),
                printed: Values::from_vec(Vec::new(alloc)),
            })
        }
    }
}

/// Whether the circuit of a program, on an input if one is given, reads as an end.
fn circuit_reads(
    alloc: Global,
    task: &Task,
    program: Program<'_>,
    given: Option<&Case>,
    case: &Case,
    end: &Outcome,
) -> Result<bool, NoMemory> {
    let circuit = Circuit::of(alloc, task, program, given)?;
    let values = truths_of_case(alloc, task.bounds(), case)?;
    circuit.reads(alloc, &task.bounds().limits, values, end)
}

/// Whether the circuits of a program, over constants and over variables, do so.
fn program_reads(
    alloc: Global,
    task: &Task,
    program: Program<'_>,
    case: &Case,
    end: &Outcome,
) -> Result<bool, NoMemory> {
    let constants = circuit_reads(alloc, task, program, Some(case), case, end)?;
    let variables = circuit_reads(alloc, task, program, None, case, end)?;
    Ok(constants && variables)
}

/// Whether both programs of a task do so.
fn task_reads(alloc: Global, task: &Task, case: &Case, end: &Outcome) -> Result<bool, NoMemory> {
    let reference = program_reads(alloc, task, Program::Reference, case, end)?;
    let submission = program_reads(alloc, task, Program::Rewriting(None), case, end)?;
    Ok(reference && submission)
}

/// Whether the program of a row gives what is known, as a reference and as a submission.
fn row_is_right(alloc: Global, row: &Row) -> Result<bool, Fail> {
    let (bounds, program, input, end) = *row;
    let texts = Texts {
        bounds,
        reference: program,
        submission: program,
        rules: "",
    };
    let task = task_of(alloc, &texts)?;
    let case = read_case(alloc, bytes_of(input))?;
    let end = outcome_of(alloc, end)?;
    let right = task_reads(alloc, &task, &case, &end)?;
    Ok(right)
}

/// The program of each row gives what is known.
#[test]
fn programs_end_as_known(rt: HostRuntime) -> Result<(), Fail> {
    let alloc = rt.alloc();
    for row in &ROWS {
        let right = row_is_right(alloc, row)?;
        assert!(rt; right, "{} on {}", row.1, row.2);
    }
    Ok(())
}
