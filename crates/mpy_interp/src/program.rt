//! How a program ends on its arguments.
ghost use Rattle.std.specs.Prelude.{◌≡◌, IfOk, MatchOption, None, Some};
ghost use Rattle.mpy_tree.specs.View.{routine_of, routines_of};
ghost use Rattle.value_operations.specs.Answers.{Meets, MeetsBy};
ghost use Rattle.mpy_tree.specs.Running.{no_calls, found, enter, evaluated, given_by, done_by};
ghost use Rattle.mpy_tree.specs.Running.{kept_first, done_with};
ghost use Rattle.mpy_tree.specs.Outcomes.{run_outcome};
ghost use Rattle.mpy_interp.specs.Ends.{done_of};

use crate::calls::Calls;
use crate::completion::Completion;
use crate::frame::Frame;
use crate::machine::Machine;
use mpy_tree::{FaultKind, Func, Limits, Name, NoMemory, Outcome, Prog, Types, Value, Values};
use std::alloc::{AllocError, Global};
use value_operations::{Stop, faulted, stuck};

/// How a run of the program ends on these arguments, of which the function `entry` is called.
///
/// The program needn't be typed: where it is stuck, the fault is Unset. So the types aren't looked
/// at.
pub fn run(
    alloc: Global,
    p: &Prog,
    _t: &Types,
    l: &Limits,
    entry: &Name,
    args: &Values,
) -> Result<Outcome, NoMemory>
    ensures { IfOk result (λ o. o ≡ run_outcome l.now (routines_of p.now) entry.now args.now) }
{
    match evaluate(alloc, p, l, entry, args.copy()?.into_vec()) {
        Ok(end) => Ok(Outcome::Done {
            value: end.value,
            printed: end.printed,
        }),
        Err(Stop::Halted(h)) => Ok(Outcome::Fault {
            kind: h.halt.told(),
            line: h.line,
        }),
        Err(Stop::NoMemory) => Err(AllocError),
    }
}

/// No call goes deeper.
#[derive(Clone, Copy, Drop)]
struct NoCalls;

impl Calls for NoCalls {
    ghost gives = { λ _. no_calls };

    fn call(&self, _alloc: Global, _f: &Name, _args: Vec<Value>, line: u32) -> Result<Value, Stop> {
        Err(faulted(FaultKind::Depth, line))
    }
}

/// Calls of a program's functions, whose own calls are those of `below`.
#[derive(Clone, Copy, Drop)]
struct Deeper<'a, C: Calls> {
    limits: &'a Limits,
    program: &'a Prog,
    below: C,
}

impl<C: Calls> Calls for Deeper<'_, C> {
    ghost gives = { λ d f vs line.
        enter given_by None d.limits.now (C.gives d.below)
        (found (routines_of d.program.now) f) vs line };

    fn call(&self, alloc: Global, f: &Name, args: Vec<Value>, line: u32) -> Result<Value, Stop> {
        let machine = Machine {
            alloc,
            limits: self.limits,
            calls: &self.below,
        };
        match func_named(self.program, f) {
            None => Err(stuck(line)),
            Some(func) => machine.enter(func, args, line),
        }
    }
}

impl<C: Calls> Deeper<'_, C> {
    // Runs the program from its entry on.
    fn begin(&self, alloc: Global, entry: &Name, args: Vec<Value>) -> Result<End, Stop>
        ensures { MeetsBy done_of result (enter done_by (kept_first self.now.limits.now)
            self.now.limits.now (C.gives self.now.below)
            (found (routines_of self.now.program.now) entry.now) args.items 1) }
    {
        let machine = Machine {
            alloc,
            limits: self.limits,
            calls: &self.below,
        };
        match func_named(self.program, entry) {
            None => Err(stuck(1)),
            Some(func) => machine.begin(func, args),
        }
    }
}

// The function of a name, if there is one.
fn func_named<'p>(p: &'p Prog, f: &Name) -> Option<&'p Func>
    ensures { MatchOption result (found (routines_of p.now) f.now ≡ None)
        (λ r. found (routines_of p.now) f.now ≡ Some (routine_of r.now)) }
{
    for func in &p.funcs.items {
        if f.is(&func.name) {
            return Some(func);
        }
    }
    None
}

// How a run ends, where no fault ends it.
#[derive(Drop)]
struct End {
    value: Option<Value>,
    printed: Values,
}

impl<C: Calls> Machine<'_, C> {
    // Runs a function's body on its arguments, for a call on a line. What it prints is dropped.
    fn enter(&self, func: &Func, args: Vec<Value>, line: u32) -> Result<Value, Stop>
        ensures { Meets result (enter given_by None self.now.limits.now
            (C.gives self.now.calls.now) (Some (routine_of func.now)) args.items line) }
    {
        let params = func.params.items();
        if args.len() != params.len() {
            return Err(stuck(line));
        }
        let mut frame = Frame::bind(self.alloc, params, args, None)?;
        match self.exec_block(&mut frame, &func.body)? {
            Completion::Returned(Some(v)) => Ok(v),
            _ => Err(faulted(FaultKind::NoValue, func.line)),
        }
    }

    // Runs the entry's body on its arguments.
    fn begin(&self, func: &Func, args: Vec<Value>) -> Result<End, Stop>
        ensures { MeetsBy done_of result (enter done_by (kept_first self.now.limits.now)
            self.now.limits.now (C.gives self.now.calls.now) (Some (routine_of func.now))
            args.items 1) }
    {
        let params = func.params.items();
        if args.len() != params.len() {
            return Err(stuck(1));
        }
        let mut frame = Frame::bind(
            self.alloc,
            params,
            args,
            kept_at_first(self.alloc, self.limits),
        )?;
        let value = match self.exec_block(&mut frame, &func.body)? {
            Completion::Returned(value) => value,
            _ => None,
        };
        end_with(self.alloc, func.line, value, frame.printed)
    }
}

// What is kept of printed values when a run begins.
fn kept_at_first(alloc: Global, l: &Limits) -> Option<Values>
    ensures { result ≡ kept_first l.now }
{
    if l.prints == 0 {
        return None;
    }
    Some(Values::from_vec(Vec::new(alloc)))
}

// How a run ends with a value or without one, where this was kept. Without a value it ends where
// printed values are kept alone; the line is that of the entry.
fn end_with(
    alloc: Global,
    line: u32,
    value: Option<Value>,
    kept: Option<Values>,
) -> Result<End, Stop>
    ensures { MeetsBy done_of result (done_with line kept value) }
{
    match kept {
        Some(printed) => Ok(End { value, printed }),
        None => match value {
            None => Err(faulted(FaultKind::NoValue, line)),
            Some(v) => Ok(End {
                value: Some(v),
                printed: Values::from_vec(Vec::new(alloc)),
            }),
        },
    }
}

// How the program ends. A level of calls is a type of its own, so that
// the interpreter of each is proved to end by the program's tree alone.
fn evaluate(
    alloc: Global,
    p: &Prog,
    l: &Limits,
    entry: &Name,
    args: Vec<Value>,
) -> Result<End, Stop>
    ensures { MeetsBy done_of result (evaluated l.now (routines_of p.now) entry.now args.items) }
{
    let one = Deeper {
        limits: l,
        program: p,
        below: NoCalls,
    };
    if l.depth == 1 {
        return one.begin(alloc, entry, args);
    }
    let two = Deeper {
        limits: l,
        program: p,
        below: one,
    };
    if l.depth == 2 {
        return two.begin(alloc, entry, args);
    }
    let three = Deeper {
        limits: l,
        program: p,
        below: two,
    };
    if l.depth == 3 {
        return three.begin(alloc, entry, args);
    }
    let four = Deeper {
        limits: l,
        program: p,
        below: three,
    };
    if l.depth == 4 {
        return four.begin(alloc, entry, args);
    }
    let five = Deeper {
        limits: l,
        program: p,
        below: four,
    };
    if l.depth == 5 {
        return five.begin(alloc, entry, args);
    }
    let six = Deeper {
        limits: l,
        program: p,
        below: five,
    };
    if l.depth == 6 {
        return six.begin(alloc, entry, args);
    }
    let seven = Deeper {
        limits: l,
        program: p,
        below: six,
    };
    if l.depth == 7 {
        return seven.begin(alloc, entry, args);
    }
    let eight = Deeper {
        limits: l,
        program: p,
        below: seven,
    };
    eight.begin(alloc, entry, args)
}
