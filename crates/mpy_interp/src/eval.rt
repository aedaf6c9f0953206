//! The values of expressions.
ghost use Rattle.std.specs.Prelude.{◌≡◌, ℕ, List, map};
ghost use Rattle.mpy_tree.specs.Syntax as ast;
ghost use Rattle.mpy_tree.specs.View.{term_of, terms_of, end_by};
ghost use Rattle.value_operations.specs.Answers.{Meets, MeetsBy};
ghost use Rattle.mpy_interp.specs.Frames.{locals_of};
ghost use Rattle.mpy_interp.specs.Operands.{value_behind};
ghost use Rattle.mpy_tree.specs.Expressions.{value_of, values_of, maybe_value_of};

use crate::calls::Calls;
use crate::frame::Frame;
use crate::machine::Machine;
use crate::operand::Operand;
use mpy_tree::{ArithOp, CmpOp, Expr, Exprs, Name, Value};
use value_operations::{
    Stop, compared, element_at, is_true, list_literal, make_number, negate, operate, part_between,
    stuck, text_literal,
};

impl<C: Calls> Machine<'_, C> {
    /// The value of an expression in a statement on a line.
    #[cycle(eval)]
    pub fn eval(&self, frame: &Frame<'_>, line: u32, e: &Expr) -> Result<Value, Stop>
        ensures { Meets result (value_of self.now.limits.now (C.gives self.now.calls.now)
            (locals_of frame.now) line (term_of e.now)) }
    {
        match e {
            Expr::Int(n) => make_number(self.limits, line, *n as i64),
            Expr::Bool(b) => Ok(Value::Bool(*b)),
            Expr::Name(x) => frame.get(line, x),
            Expr::Text(cs) => text_literal(self.limits, line, cs),
            Expr::List(es) => self.eval_list(frame, line, es),
            Expr::Neg(a) => self.eval_neg(frame, line, a),
            Expr::Not(a) => self.eval_not(frame, line, a),
            Expr::Arith(op, a, b) => self.eval_arith(frame, line, *op, a, b),
            Expr::Cmp(op, a, b) => self.eval_cmp(frame, line, *op, a, b),
            Expr::And(a, b) => self.eval_and(frame, line, a, b),
            Expr::Or(a, b) => self.eval_or(frame, line, a, b),
            Expr::Cond { test, yes, no } => self.eval_cond(frame, line, test, yes, no),
            Expr::Index(a, i) => self.eval_index(frame, line, a, i),
            Expr::Slice(a, start, end) => self.eval_slice(frame, line, a, start, end),
            Expr::Call(f, es) => self.eval_call(frame, line, f, es),
        }
    }

    /// The value of an expression, by the shortcut where it gives a number and isn't a name.
    #[cycle(eval)]
    pub fn value(&self, frame: &Frame<'_>, line: u32, e: &Expr) -> Result<Value, Stop>
        ensures { Meets result (value_of self.now.limits.now (C.gives self.now.calls.now)
            (locals_of frame.now) line (term_of e.now)) }
    {
        match e {
            Expr::Name(x) => frame.get(line, x),
            _ => match self.number(frame, line, e) {
                Some(z) => Ok(Value::Int(z)),
                None => self.eval(frame, line, e),
            },
        }
    }

    /// The value of a test, by the shortcut where it gives a truth.
    #[cycle(eval)]
    pub fn test(&self, frame: &Frame<'_>, line: u32, e: &Expr) -> Result<Value, Stop>
        ensures { Meets result (value_of self.now.limits.now (C.gives self.now.calls.now)
            (locals_of frame.now) line (term_of e.now)) }
    {
        match self.truth(frame, line, e) {
            Some(b) => Ok(Value::Bool(b)),
            None => self.eval(frame, line, e),
        }
    }

    // The value of an expression that an operator is applied to. A local isn't copied for it.
    #[cycle(eval)]
    fn operand<'f>(&self, frame: &'f Frame<'_>, line: u32, e: &Expr) -> Result<Operand<'f>, Stop>
        ensures { MeetsBy value_behind result
            (value_of self.now.limits.now (C.gives self.now.calls.now)
            (locals_of frame.now) line (term_of e.now)) }
    {
        match e {
            Expr::Name(x) => Ok(Operand::Local(frame.find(line, x)?)),
            _ => Ok(Operand::Made(self.eval(frame, line, e)?)),
        }
    }

    // The value of a list literal.
    #[inline(never)]
    #[cycle(eval)]
    fn eval_list(&self, frame: &Frame<'_>, line: u32, es: &Exprs) -> Result<Value, Stop>
        ensures { Meets result (value_of self.now.limits.now (C.gives self.now.calls.now)
            (locals_of frame.now) line (ast.List (terms_of es.now))) }
    {
        let vs = self.eval_all(frame, line, es)?;
        list_literal(self.alloc, self.limits, line, &vs)
    }

    // The value of `-a`.
    #[inline(never)]
    #[cycle(eval)]
    fn eval_neg(&self, frame: &Frame<'_>, line: u32, a: &Expr) -> Result<Value, Stop>
        ensures { Meets result (value_of self.now.limits.now (C.gives self.now.calls.now)
            (locals_of frame.now) line (ast.Neg (term_of a.now))) }
    {
        let v = self.operand(frame, line, a)?;
        negate(self.limits, line, v.value())
    }

    // The value of `not a`.
    #[inline(never)]
    #[cycle(eval)]
    fn eval_not(&self, frame: &Frame<'_>, line: u32, a: &Expr) -> Result<Value, Stop>
        ensures { Meets result (value_of self.now.limits.now (C.gives self.now.calls.now)
            (locals_of frame.now) line (ast.Not (term_of a.now))) }
    {
        let v = self.operand(frame, line, a)?;
        Ok(Value::Bool(!is_true(v.value())))
    }

    // The value of `a op b`.
    #[inline(never)]
    #[cycle(eval)]
    fn eval_arith(
        &self,
        frame: &Frame<'_>,
        line: u32,
        op: ArithOp,
        a: &Expr,
        b: &Expr,
    ) -> Result<Value, Stop>
        ensures { Meets result (value_of self.now.limits.now (C.gives self.now.calls.now)
            (locals_of frame.now) line (ast.Arith op (term_of a.now) (term_of b.now))) }
    {
        let v = self.operand(frame, line, a)?;
        let w = self.operand(frame, line, b)?;
        operate(self.alloc, self.limits, line, op, v.value(), w.value())
    }

    // The value of a comparison.
    #[inline(never)]
    #[cycle(eval)]
    fn eval_cmp(
        &self,
        frame: &Frame<'_>,
        line: u32,
        op: CmpOp,
        a: &Expr,
        b: &Expr,
    ) -> Result<Value, Stop>
        ensures { Meets result (value_of self.now.limits.now (C.gives self.now.calls.now)
            (locals_of frame.now) line (ast.Cmp op (term_of a.now) (term_of b.now))) }
    {
        let v = self.operand(frame, line, a)?;
        let w = self.operand(frame, line, b)?;
        compared(line, op, v.value(), w.value())
    }

    // The value of `a and b`.
    #[inline(never)]
    #[cycle(eval)]
    fn eval_and(&self, frame: &Frame<'_>, line: u32, a: &Expr, b: &Expr) -> Result<Value, Stop>
        ensures { Meets result (value_of self.now.limits.now (C.gives self.now.calls.now)
            (locals_of frame.now) line (ast.And (term_of a.now) (term_of b.now))) }
    {
        match self.test(frame, line, a)? {
            Value::Bool(true) => self.test(frame, line, b),
            Value::Bool(false) => Ok(Value::Bool(false)),
            _ => Err(stuck(line)),
        }
    }

    // The value of `a or b`.
    #[inline(never)]
    #[cycle(eval)]
    fn eval_or(&self, frame: &Frame<'_>, line: u32, a: &Expr, b: &Expr) -> Result<Value, Stop>
        ensures { Meets result (value_of self.now.limits.now (C.gives self.now.calls.now)
            (locals_of frame.now) line (ast.Or (term_of a.now) (term_of b.now))) }
    {
        match self.test(frame, line, a)? {
            Value::Bool(true) => Ok(Value::Bool(true)),
            Value::Bool(false) => self.test(frame, line, b),
            _ => Err(stuck(line)),
        }
    }

    // The value of `yes if test else no`.
    #[inline(never)]
    #[cycle(eval)]
    fn eval_cond(
        &self,
        frame: &Frame<'_>,
        line: u32,
        test: &Expr,
        yes: &Expr,
        no: &Expr,
    ) -> Result<Value, Stop>
        ensures { Meets result (value_of self.now.limits.now (C.gives self.now.calls.now)
            (locals_of frame.now) line
            (ast.Cond (term_of test.now) (term_of yes.now) (term_of no.now))) }
    {
        let v = self.test(frame, line, test)?;
        if is_true(&v) {
            self.value(frame, line, yes)
        } else {
            self.value(frame, line, no)
        }
    }

    // The value of `a[i]`.
    #[inline(never)]
    #[cycle(eval)]
    fn eval_index(&self, frame: &Frame<'_>, line: u32, a: &Expr, i: &Expr) -> Result<Value, Stop>
        ensures { Meets result (value_of self.now.limits.now (C.gives self.now.calls.now)
            (locals_of frame.now) line (ast.Index (term_of a.now) (term_of i.now))) }
    {
        let v = self.operand(frame, line, a)?;
        let k = self.value(frame, line, i)?;
        element_at(self.alloc, line, v.value(), &k)
    }

    // The value of `a[start:end]`.
    #[inline(never)]
    #[cycle(eval)]
    fn eval_slice(
        &self,
        frame: &Frame<'_>,
        line: u32,
        a: &Expr,
        start: &Option<Box<Expr>>,
        end: &Option<Box<Expr>>,
    ) -> Result<Value, Stop>
        ensures { Meets result (value_of self.now.limits.now (C.gives self.now.calls.now)
            (locals_of frame.now) line (ast.Slice (term_of a.now)
            (end_by (λ b. term_of b.value) start.now) (end_by (λ b. term_of b.value) end.now))) }
    {
        let v = self.operand(frame, line, a)?;
        let from = self.eval_end(frame, line, start)?;
        let to = self.eval_end(frame, line, end)?;
        part_between(self.alloc, line, v.value(), from, to)
    }

    // The value of a call.
    #[inline(never)]
    #[cycle(eval)]
    fn eval_call(&self, frame: &Frame<'_>, line: u32, f: &Name, es: &Exprs) -> Result<Value, Stop>
        ensures { Meets result (value_of self.now.limits.now (C.gives self.now.calls.now)
            (locals_of frame.now) line (ast.Call f.now (terms_of es.now))) }
    {
        match self.number_alone(frame, line, es) {
            Some(z) => self.apply_to_number(f, z, line),
            None => {
                let vs = self.eval_all(frame, line, es)?;
                self.apply(f, vs, line)
            }
        }
    }

    // The values of expressions, from left to right.
    #[inline(never)]
    #[cycle(eval)]
    fn eval_all(&self, frame: &Frame<'_>, line: u32, es: &Exprs) -> Result<Vec<Value>, Stop>
        ensures { MeetsBy (λ v. v.items) result
            (values_of self.now.limits.now (C.gives self.now.calls.now)
            (locals_of frame.now) line (terms_of es.now)) }
    {
        let mut values = Vec::new(self.alloc);
        for e in &es.items {
            values.push(self.value(frame, line, e)?)?;
        }
        Ok(values)
    }

    // The value of an end of a slice, which may be missing.
    #[inline(never)]
    #[cycle(eval)]
    fn eval_end(
        &self,
        frame: &Frame<'_>,
        line: u32,
        e: &Option<Box<Expr>>,
    ) -> Result<Option<Value>, Stop>
        ensures { Meets result (maybe_value_of self.now.limits.now (C.gives self.now.calls.now)
            (locals_of frame.now) line (end_by (λ b. term_of b.value) e.now)) }
    {
        match e {
            None => Ok(None),
            Some(e) => Ok(Some(self.value(frame, line, e)?)),
        }
    }
}
