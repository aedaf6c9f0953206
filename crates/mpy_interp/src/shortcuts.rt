//! Numbers and truths that expressions give, found with neither a copy of a value nor a fault.
//! Where nothing is found, nothing is said: the expression is evaluated then.
ghost use Rattle.std.specs.Prelude.{◌≡◌, IfSome};
ghost use Rattle.mpy_tree.specs.Syntax as ast;
ghost use Rattle.mpy_tree.specs.View.{term_of, terms_of};
ghost use Rattle.mpy_interp.specs.Answers.{GivesCharacter, GivesTruth};
ghost use Rattle.value_operations.specs.Answers.{GivesNumber};
ghost use Rattle.mpy_interp.specs.Answers.{GivesNumberAlone, length_given};
ghost use Rattle.mpy_interp.specs.Frames.{locals_of};
ghost use Rattle.mpy_tree.specs.Expressions.{value_of, values_of};

use crate::calls::Calls;
use crate::frame::Frame;
use crate::machine::Machine;
use mpy_tree::{ArithOp, Builtin, CmpOp, Expr, Exprs, Name, Value};
use value_operations::{byte_in, length_of_value, number_by, number_in, relate_numbers, within};

impl<C: Calls> Machine<'_, C> {
    /// The number that an expression gives, if it is found.
    #[cycle(number)]
    pub fn number(&self, frame: &Frame<'_>, line: u32, e: &Expr) -> Option<i32>
        ensures { GivesNumber result (value_of self.now.limits.now (C.gives self.now.calls.now)
            (locals_of frame.now) line (term_of e.now)) }
    {
        match e {
            Expr::Int(n) => within(self.limits, *n as i64),
            Expr::Name(x) => frame.number(x),
            Expr::Neg(a) => within(self.limits, -(self.number(frame, line, a)? as i64)),
            Expr::Arith(op, a, b) => self.number_by(frame, line, *op, a, b),
            Expr::Index(a, i) => self.number_at(frame, line, a, i),
            Expr::Call(f, es) => self.number_of_call(frame, line, f, es),
            _ => None,
        }
    }

    // The number that `a op b` gives, if it is found.
    #[cycle(number)]
    fn number_by(
        &self,
        frame: &Frame<'_>,
        line: u32,
        op: ArithOp,
        a: &Expr,
        b: &Expr,
    ) -> Option<i32>
        ensures { GivesNumber result (value_of self.now.limits.now (C.gives self.now.calls.now)
            (locals_of frame.now) line (ast.Arith op (term_of a.now) (term_of b.now))) }
    {
        let v = self.number(frame, line, a)?;
        let w = self.number(frame, line, b)?;
        number_by(self.limits, op, v, w)
    }

    // The number that `a[i]` gives, if `a` is a name and it is found.
    #[cycle(number)]
    fn number_at(&self, frame: &Frame<'_>, line: u32, a: &Expr, i: &Expr) -> Option<i32>
        ensures { GivesNumber result (value_of self.now.limits.now (C.gives self.now.calls.now)
            (locals_of frame.now) line (ast.Index (term_of a.now) (term_of i.now))) }
    {
        let xs = frame.list(name_in(a)?)?;
        let k = self.number(frame, line, i)?;
        number_in(xs, k)
    }

    // The number that a call gives, if it is that of `len` on a name and it is found.
    fn number_of_call(&self, frame: &Frame<'_>, line: u32, f: &Name, es: &Exprs) -> Option<i32>
        ensures { GivesNumber result (value_of self.now.limits.now (C.gives self.now.calls.now)
            (locals_of frame.now) line (ast.Call f.now (terms_of es.now))) }
    {
        match (es.items(), Builtin::of(f.bytes())) {
            ([e], Some(Builtin::Len)) => self.length(frame, line, e),
            _ => None,
        }
    }

    // The length of a name's value, if it is found.
    fn length(&self, frame: &Frame<'_>, line: u32, e: &Expr) -> Option<i32>
        ensures { GivesNumber result (length_given self.now.limits.now line
            (value_of self.now.limits.now (C.gives self.now.calls.now)
            (locals_of frame.now) line (term_of e.now))) }
    {
        length_of_value(self.limits, frame.local(name_in(e)?)?)
    }

    /// The number that the one argument of a call gives, if there is just one and it is found.
    pub fn number_alone(&self, frame: &Frame<'_>, line: u32, es: &Exprs) -> Option<i32>
        ensures { GivesNumberAlone result (values_of self.now.limits.now
            (C.gives self.now.calls.now) (locals_of frame.now) line (terms_of es.now)) }
    {
        match es.items() {
            [e] => self.number(frame, line, e),
            _ => None,
        }
    }

    /// The truth that an expression gives, if it is found.
    pub fn truth(&self, frame: &Frame<'_>, line: u32, e: &Expr) -> Option<bool>
        ensures { GivesTruth result (value_of self.now.limits.now (C.gives self.now.calls.now)
            (locals_of frame.now) line (term_of e.now)) }
    {
        match e {
            Expr::Bool(b) => Some(*b),
            Expr::Not(a) => Some(!self.truth(frame, line, a)?),
            Expr::And(a, b) => {
                if self.truth(frame, line, a)? {
                    self.truth(frame, line, b)
                } else {
                    Some(false)
                }
            }
            Expr::Or(a, b) => {
                if self.truth(frame, line, a)? {
                    Some(true)
                } else {
                    self.truth(frame, line, b)
                }
            }
            Expr::Cmp(op, a, b) => self.relation(frame, line, *op, a, b),
            _ => None,
        }
    }

    // Whether a comparison of numbers or of characters holds, if that is found.
    fn relation(&self, frame: &Frame<'_>, line: u32, op: CmpOp, a: &Expr, b: &Expr) -> Option<bool>
        ensures { GivesTruth result (value_of self.now.limits.now (C.gives self.now.calls.now)
            (locals_of frame.now) line (ast.Cmp op (term_of a.now) (term_of b.now))) }
    {
        match self.number(frame, line, a) {
            Some(v) => relate_numbers(op, v, self.number(frame, line, b)?),
            None => self.relation_of_characters(frame, line, op, a, b),
        }
    }

    // Whether two characters are equal, or aren't, if that is found.
    fn relation_of_characters(
        &self,
        frame: &Frame<'_>,
        line: u32,
        op: CmpOp,
        a: &Expr,
        b: &Expr,
    ) -> Option<bool>
        ensures { GivesTruth result (value_of self.now.limits.now (C.gives self.now.calls.now)
            (locals_of frame.now) line (ast.Cmp op (term_of a.now) (term_of b.now))) }
    {
        let c = self.character(frame, line, a)?;
        let d = self.character(frame, line, b)?;
        match op {
            CmpOp::Eq => Some(c == d),
            CmpOp::Ne => Some(c != d),
            _ => None,
        }
    }

    // The character that an expression gives, if it is `a[i]` of a name's text and it is found.
    fn character(&self, frame: &Frame<'_>, line: u32, e: &Expr) -> Option<u8>
        ensures { GivesCharacter result (value_of self.now.limits.now
            (C.gives self.now.calls.now) (locals_of frame.now) line (term_of e.now)) }
    {
        match e {
            Expr::Index(a, i) => {
                let cs = frame.text(name_in(a)?)?;
                let k = self.number(frame, line, i)?;
                byte_in(cs, k)
            }
            _ => None,
        }
    }
}

// The name that an expression is.
fn name_in(e: &Expr) -> Option<&Name>
    ensures { IfSome result (λ x. term_of e.now ≡ ast.Name x.now) }
{
    match e {
        Expr::Name(x) => Some(x),
        _ => None,
    }
}
