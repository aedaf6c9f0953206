//! The statements of a body.
ghost use Rattle.std.specs.Prelude.{◌≡◌, ℕ, List};
ghost use Rattle.mpy_tree.specs.Syntax as ast;
ghost use Rattle.mpy_tree.specs.View.{term_of, maybe_term, action_of, block_of, branches_of};
ghost use Rattle.mpy_tree.specs.View.{block_or_none};
ghost use Rattle.mpy_interp.specs.Completions.{EndsAs};
ghost use Rattle.mpy_interp.specs.Frames.{locals_of, state_of};
ghost use Rattle.mpy_tree.specs.Operations.{members};
ghost use Rattle.mpy_tree.specs.Expressions.{value_of};
ghost use Rattle.mpy_tree.specs.Statements.{for_turns, give, given, printed, run_block, run_action};
ghost use Rattle.mpy_tree.specs.Statements.{run_arms, run_else};
ghost use Rattle.mpy_tree.specs.Values.{on_line};

use crate::assignments::{Change, Place};
use crate::calls::Calls;
use crate::completion::Completion;
use crate::frame::Frame;
use crate::machine::Machine;
use mpy_tree::{Act, Arms, Expr, FaultKind, Name, Stmts, Value};
use value_operations::{Stop, faulted, is_true, member_at};

impl<C: Calls> Machine<'_, C> {
    /// Runs a body.
    #[cycle(exec)]
    pub fn exec_block<'a>(&self, frame: &mut Frame<'a>, body: &'a Stmts) -> Result<Completion, Stop>
        ensures { EndsAs result (state_of frame.new)
            (run_block self.now.limits.now (C.gives self.now.calls.now)
            (block_of body.now) (state_of frame.old)) }
    {
        for s in &body.items {
            match self.exec_act(frame, s.line, &s.act)? {
                Completion::Next => {}
                Completion::Broke => return Ok(Completion::Broke),
                Completion::Continued => return Ok(Completion::Continued),
                Completion::Returned(v) => return Ok(Completion::Returned(v)),
            }
        }
        Ok(Completion::Next)
    }

    // Runs one statement.
    #[cycle(exec)]
    fn exec_act<'a>(
        &self,
        frame: &mut Frame<'a>,
        line: u32,
        act: &'a Act,
    ) -> Result<Completion, Stop>
        ensures { EndsAs result (state_of frame.new)
            (run_action self.now.limits.now (C.gives self.now.calls.now)
            (action_of act.now) line (state_of frame.old)) }
    {
        match act {
            Act::Assign(x, e) => self.assign(frame, line, x, e),
            Act::Augment(x, op, e) => self.augment(frame, line, x, *op, e),
            Act::Put(x, i, e) => self.put(frame, line, x, i, e),
            Act::AugmentAt(x, i, op, e) => {
                self.augment_at(frame, line, &Place { x, i }, &Change { op: *op, e })
            }
            Act::Append(x, e) => self.append(frame, line, x, e),
            Act::Print(e) => self.exec_print(frame, line, e),
            Act::Return(e) => self.exec_return(frame, line, e),
            Act::Pass => Ok(Completion::Next),
            Act::Break => Ok(Completion::Broke),
            Act::Continue => Ok(Completion::Continued),
            Act::If(arms, last) => self.exec_if(frame, arms, last),
            Act::While(e, body) => self.exec_while(frame, body, line, e),
            Act::For(x, e, body) => self.exec_for(frame, body, line, x, e),
        }
    }

    // Runs `print(e)`.
    #[inline(never)]
    fn exec_print(&self, frame: &mut Frame<'_>, line: u32, e: &Expr) -> Result<Completion, Stop>
        ensures { EndsAs result (state_of frame.new)
            (given (value_of self.now.limits.now (C.gives self.now.calls.now)
            (locals_of frame.old) line (term_of e.now))
            (printed self.now.limits.now.prints line (state_of frame.old))) }
    {
        let v = self.value(frame, line, e)?;
        frame.keep(self.limits.prints, line, v)?;
        Ok(Completion::Next)
    }

    // Runs a `return`.
    #[inline(never)]
    fn exec_return(
        &self,
        frame: &Frame<'_>,
        line: u32,
        e: &Option<Expr>,
    ) -> Result<Completion, Stop>
        ensures { EndsAs result (state_of frame.now)
            (give self.now.limits.now (C.gives self.now.calls.now)
            (state_of frame.now) line (maybe_term e.now)) }
    {
        match e {
            None => match &frame.printed {
                None => Err(faulted(FaultKind::NoValue, line)),
                Some(_) => Ok(Completion::Returned(None)),
            },
            Some(e) => {
                let v = self.value(frame, line, e)?;
                Ok(Completion::Returned(Some(v)))
            }
        }
    }

    // Runs the first arm whose test holds, or else the last body.
    #[inline(never)]
    #[cycle(exec)]
    fn exec_if<'a>(
        &self,
        frame: &mut Frame<'a>,
        arms: &'a Arms,
        last: &'a Option<Stmts>,
    ) -> Result<Completion, Stop>
        ensures { EndsAs result (state_of frame.new)
            (run_arms self.now.limits.now (C.gives self.now.calls.now)
            (branches_of arms.now)
            (run_else self.now.limits.now (C.gives self.now.calls.now)
            (block_or_none last.now) (state_of frame.old))
            (state_of frame.old)) }
    {
        for arm in &arms.items {
            let v = self.test(frame, arm.line, &arm.test)?;
            if is_true(&v) {
                return self.exec_block(frame, &arm.body);
            }
        }
        match last {
            None => Ok(Completion::Next),
            Some(body) => self.exec_block(frame, body),
        }
    }

    // Runs a `while`.
    #[tactic(auto, using(crate::proofs::Turning::one_turn, crate::proofs::Turning::no_turn))]
    #[inline(never)]
    #[cycle(exec)]
    fn exec_while<'a>(
        &self,
        frame: &mut Frame<'a>,
        body: &'a Stmts,
        line: u32,
        test: &Expr,
    ) -> Result<Completion, Stop>
        ensures { EndsAs result (state_of frame.new)
            (run_action self.now.limits.now (C.gives self.now.calls.now)
            (ast.While (term_of test.now) (block_of body.now)) line (state_of frame.old)) }
    {
        let mut left = self.limits.turns;
        'turns: loop {
            let v = self.test(frame, line, test)?;
            if !is_true(&v) {
                return Ok(Completion::Next);
            }
            if left == 0 {
                return Err(faulted(FaultKind::Turns, line));
            }
            match self.exec_block(frame, body)? {
                Completion::Next => {}
                Completion::Continued => {}
                Completion::Broke => return Ok(Completion::Next),
                Completion::Returned(v) => return Ok(Completion::Returned(v)),
            }
            left -= 1;
        }
    }

    // Runs a `for`.
    #[inline(never)]
    #[cycle(exec)]
    fn exec_for<'a>(
        &self,
        frame: &mut Frame<'a>,
        body: &'a Stmts,
        line: u32,
        x: &'a Name,
        e: &Expr,
    ) -> Result<Completion, Stop>
        ensures { EndsAs result (state_of frame.new)
            (run_action self.now.limits.now (C.gives self.now.calls.now)
            (ast.For x.now (term_of e.now) (block_of body.now)) line (state_of frame.old)) }
    {
        let list = self.value(frame, line, e)?;
        self.exec_over(frame, body, line, x, &list)
    }

    // Runs the turns of a `for` over a value.
    #[tactic(auto, using(crate::proofs::Turning::turns))]
    #[cycle(exec)]
    fn exec_over<'a>(
        &self,
        frame: &mut Frame<'a>,
        body: &'a Stmts,
        line: u32,
        x: &'a Name,
        list: &Value,
    ) -> Result<Completion, Stop>
        ensures { EndsAs result (state_of frame.new)
            (given (on_line line (members list.now)) (λ vs.
            for_turns vs self.now.limits.now.turns x.now
            (run_block self.now.limits.now (C.gives self.now.calls.now) (block_of body.now))
            line (state_of frame.old))) }
    {
        let mut turn = 0;
        'turns: loop {
            let v = match member_at(self.alloc, line, list, turn as usize)? {
                None => return Ok(Completion::Next),
                Some(v) => v,
            };
            if turn == self.limits.turns {
                return Err(faulted(FaultKind::Turns, line));
            }
            frame.set(x, v)?;
            match self.exec_block(frame, body)? {
                Completion::Next => {}
                Completion::Continued => {}
                Completion::Broke => return Ok(Completion::Next),
                Completion::Returned(v) => return Ok(Completion::Returned(v)),
            }
            turn += 1;
        }
    }
}
