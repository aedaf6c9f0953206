//! The locals of a call, and what is kept of printed values.
ghost use Rattle.std.specs.Prelude.{◌≡◌, IfOk, OnOk, MatchOption, IfSome, Some, None};
ghost use Rattle.value_operations.specs.Answers.{Meets, MeetsBy};
ghost use Rattle.mpy_tree.specs.Values.{on_line, set_or_fault, assign};
ghost use Rattle.mpy_tree.specs.Running.{bound};
ghost use Rattle.mpy_interp.specs.Frames.{Changes, changed, locals_of, looked, place_of, state_of};
ghost use Rattle.mpy_tree.specs.Operations.{append, put};
ghost use Rattle.mpy_tree.specs.Statements.{printed};

use mpy_tree::{Chars, FaultKind, Ints, Limits, Name, NoMemory, Value, Values};
use std::alloc::Global;
use std::mem::replace;
use value_operations::{Stop, append_to, faulted, replace_at};

/// A local that is set, by its name in the program.
#[derive(Drop)]
pub struct Binding<'a> {
    pub name: &'a Name,
    pub value: Value,
}

/// The locals of a call, in the order in which they were set, and the values that were printed so
/// far, where these are kept.
#[derive(Drop)]
pub struct Frame<'a> {
    pub locals: Vec<Binding<'a>>,
    pub printed: Option<Values>,
}

impl<'a> Frame<'a> {
    /// The parameters have the arguments, and this is kept of printed values.
    pub fn bind(
        alloc: Global,
        params: &'a [Name],
        args: Vec<Value>,
        printed: Option<Values>,
    ) -> Result<Frame<'a>, NoMemory>
        ensures locals { IfOk result (λ f. locals_of f ≡ bound params.now args.items) }
        ensures printed { IfOk result (λ f. f.printed ≡ printed) }
    {
        let locals = bindings(alloc, params, args)?;
        Ok(Frame { locals, printed })
    }

    /// The value of a local, if it is set.
    #[inline]
    pub fn local(&self, x: &Name) -> Option<&Value>
        ensures { MatchOption result (locals_of self.now x.now ≡ None)
            (λ v. locals_of self.now x.now ≡ Some v.now) }
    {
        for b in &self.locals {
            if x.is(b.name) {
                return Some(&b.value);
            }
        }
        None
    }

    /// The number that a local is, if it is one.
    #[inline]
    pub fn number(&self, x: &Name) -> Option<i32>
        ensures { IfSome result (λ z. locals_of self.now x.now ≡ Some (Value.Int z)) }
    {
        match self.local(x)? {
            Value::Int(z) => Some(*z),
            _ => None,
        }
    }

    /// The list that a local is, if it is one.
    #[inline]
    pub fn list(&self, x: &Name) -> Option<&Ints>
        ensures { IfSome result (λ xs. locals_of self.now x.now ≡ Some (Value.List xs.now)) }
    {
        match self.local(x)? {
            Value::List(xs) => Some(xs),
            _ => None,
        }
    }

    /// The text that a local is, if it is one.
    #[inline]
    pub fn text(&self, x: &Name) -> Option<&Chars>
        ensures { IfSome result (λ cs. locals_of self.now x.now ≡ Some (Value.Text cs.now)) }
    {
        match self.local(x)? {
            Value::Text(cs) => Some(cs),
            _ => None,
        }
    }

    /// The value of a local, which must be set.
    pub fn find(&self, line: u32, x: &Name) -> Result<&Value, Stop>
        ensures { MeetsBy (λ v. v.now) result
            (on_line line (set_or_fault (locals_of self.now x.now))) }
    {
        match self.local(x) {
            Some(v) => Ok(v),
            None => Err(faulted(FaultKind::Unset, line)),
        }
    }

    /// A copy of the value of a local.
    pub fn get(&self, line: u32, x: &Name) -> Result<Value, Stop>
        ensures { Meets result (on_line line (set_or_fault (locals_of self.now x.now))) }
    {
        let v = self.find(line, x)?;
        Ok(v.copy()?)
    }

    /// A local is set to a value.
    pub fn set(&mut self, x: &'a Name, v: Value) -> Result<(), NoMemory>
        ensures { OnOk result (state_of self.new ≡ assign (state_of self.old) x.now v) }
    {
        match self.place(x) {
            Some(k) => self.locals[k].value = v,
            None => self.locals.push(Binding { name: x, value: v })?,
        }
        Ok(())
    }

    /// An element of a list is replaced, `x[i] = w`. After a fault nothing is said of `x`.
    pub fn put(&mut self, line: u32, x: &Name, i: &Value, w: &Value) -> Result<(), Stop>
        ensures { Changes result (state_of self.new)
            (changed (state_of self.old) line x.now (λ v. put v i.now w.now)) }
    {
        match self.place(x) {
            Some(k) => put_in(&mut self.locals[k].value, line, i, w),
            None => Err(faulted(FaultKind::Unset, line)),
        }
    }

    /// A list gets one more number, `x.append(w)`. After a fault nothing is said of `x`.
    pub fn append(&mut self, l: &Limits, line: u32, x: &Name, w: &Value) -> Result<(), Stop>
        ensures { Changes result (state_of self.new)
            (changed (state_of self.old) line x.now (λ v. append l.now v w.now)) }
    {
        match self.place(x) {
            Some(k) => append_in(&mut self.locals[k].value, l, line, w),
            None => Err(faulted(FaultKind::Unset, line)),
        }
    }

    /// Keeps a printed value, where they are kept, of which there may be so many.
    pub fn keep(&mut self, most: u32, line: u32, v: Value) -> Result<(), Stop>
        ensures { Changes result (state_of self.new) (printed most line (state_of self.old) v) }
    {
        match &mut self.printed {
            None => Ok(()),
            Some(kept) => {
                if kept.items().len() >= most as usize {
                    return Err(faulted(FaultKind::Length, line));
                }
                kept.push(v)?;
                Ok(())
            }
        }
    }

    // Where the binding of a name stands.
    fn place(&self, x: &Name) -> Option<usize>
        ensures { result ≡ place_of self.now.locals.items x.now }
    {
        self.locals.iter().position(|b| x.is(b.name))
    }
}

// The names with the values, one for each.
fn bindings<'a>(
    alloc: Global,
    names: &'a [Name],
    values: Vec<Value>,
) -> Result<Vec<Binding<'a>>, NoMemory>
    ensures { IfOk result (λ bs. looked bs.items ≡ bound names.now values.items) }
{
    let mut locals = Vec::new(alloc);
    for value in values {
        if let Some(name) = names.get(locals.len()) {
            locals.push(Binding { name, value })?;
        }
    }
    Ok(locals)
}

// Replaces an element of a list where it stands.
fn put_in(v: &mut Value, line: u32, i: &Value, w: &Value) -> Result<(), Stop>
    ensures { MeetsBy (λ _. v.new) result (on_line line (put v.old i.now w.now)) }
{
    let old = replace(v, Value::Int(0));
    *v = replace_at(line, old, i, w)?;
    Ok(())
}

// Gives a list one more number where it stands.
fn append_in(v: &mut Value, l: &Limits, line: u32, w: &Value) -> Result<(), Stop>
    ensures { MeetsBy (λ _. v.new) result (on_line line (append l.now v.old w.now)) }
{
    let old = replace(v, Value::Int(0));
    *v = append_to(l, line, old, w)?;
    Ok(())
}
