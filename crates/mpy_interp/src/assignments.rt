//! The assignments.
ghost use Rattle.std.specs.Prelude.{◌≡◌};
ghost use Rattle.mpy_tree.specs.View.{term_of};
ghost use Rattle.mpy_interp.specs.Completions.{EndsAs};
ghost use Rattle.mpy_interp.specs.Frames.{locals_of, state_of};
ghost use Rattle.mpy_tree.specs.Expressions.{value_of};
ghost use Rattle.mpy_tree.specs.Operations.{arith, append};
ghost use Rattle.mpy_tree.specs.Statements.{store, set_by, set_at, set_at_by};

use crate::calls::Calls;
use crate::completion::Completion;
use crate::frame::Frame;
use crate::machine::Machine;
use mpy_tree::{ArithOp, Expr, Name};
use value_operations::{Stop, element_at, operate};

/// The element `x[i]` of a list.
#[derive(Drop)]
pub struct Place<'a> {
    pub x: &'a Name,
    pub i: &'a Expr,
}

/// The change `op= e`.
#[derive(Drop)]
pub struct Change<'a> {
    pub op: ArithOp,
    pub e: &'a Expr,
}

impl<C: Calls> Machine<'_, C> {
    /// Runs `x = e`.
    #[inline(never)]
    pub fn assign<'a>(
        &self,
        frame: &mut Frame<'a>,
        line: u32,
        x: &'a Name,
        e: &Expr,
    ) -> Result<Completion, Stop>
        ensures { EndsAs result (state_of frame.new) (store (state_of frame.old) x.now
            (value_of self.now.limits.now (C.gives self.now.calls.now)
            (locals_of frame.old) line (term_of e.now))) }
    {
        let v = self.value(frame, line, e)?;
        frame.set(x, v)?;
        Ok(Completion::Next)
    }

    /// Runs `x op= e`.
    #[inline(never)]
    pub fn augment<'a>(
        &self,
        frame: &mut Frame<'a>,
        line: u32,
        x: &'a Name,
        op: ArithOp,
        e: &Expr,
    ) -> Result<Completion, Stop>
        ensures { EndsAs result (state_of frame.new) (store (state_of frame.old) x.now
            (set_by self.now.limits.now (C.gives self.now.calls.now)
            (state_of frame.old) line x.now (arith self.now.limits.now op) (term_of e.now))) }
    {
        let v = frame.find(line, x)?;
        let w = self.value(frame, line, e)?;
        let new = operate(self.alloc, self.limits, line, op, v, &w)?;
        frame.set(x, new)?;
        Ok(Completion::Next)
    }

    /// Runs `x.append(e)`.
    #[inline(never)]
    pub fn append(
        &self,
        frame: &mut Frame<'_>,
        line: u32,
        x: &Name,
        e: &Expr,
    ) -> Result<Completion, Stop>
        ensures { EndsAs result (state_of frame.new) (store (state_of frame.old) x.now
            (set_by self.now.limits.now (C.gives self.now.calls.now)
            (state_of frame.old) line x.now (append self.now.limits.now) (term_of e.now))) }
    {
        frame.find(line, x)?;
        let w = self.value(frame, line, e)?;
        frame.append(self.limits, line, x, &w)?;
        Ok(Completion::Next)
    }

    /// Runs `x[i] = e`.
    #[inline(never)]
    pub fn put(
        &self,
        frame: &mut Frame<'_>,
        line: u32,
        x: &Name,
        i: &Expr,
        e: &Expr,
    ) -> Result<Completion, Stop>
        ensures { EndsAs result (state_of frame.new) (store (state_of frame.old) x.now
            (set_at self.now.limits.now (C.gives self.now.calls.now)
            (state_of frame.old) line x.now (term_of i.now) (term_of e.now))) }
    {
        let w = self.value(frame, line, e)?;
        frame.find(line, x)?;
        let k = self.value(frame, line, i)?;
        frame.put(line, x, &k, &w)?;
        Ok(Completion::Next)
    }

    /// Runs `x[i] op= e`.
    #[inline(never)]
    pub fn augment_at(
        &self,
        frame: &mut Frame<'_>,
        line: u32,
        place: &Place<'_>,
        change: &Change<'_>,
    ) -> Result<Completion, Stop>
        ensures { EndsAs result (state_of frame.new)
            (store (state_of frame.old) place.now.x.now
            (set_at_by self.now.limits.now (C.gives self.now.calls.now)
            (state_of frame.old) line place.now.x.now (term_of place.now.i.now)
            (arith self.now.limits.now change.now.op) (term_of change.now.e.now))) }
    {
        let v = frame.find(line, place.x)?;
        let k = self.value(frame, line, place.i)?;
        let old = element_at(self.alloc, line, v, &k)?;
        let w = self.value(frame, line, change.e)?;
        let new = operate(self.alloc, self.limits, line, change.op, &old, &w)?;
        frame.put(line, place.x, &k, &new)?;
        Ok(Completion::Next)
    }
}
