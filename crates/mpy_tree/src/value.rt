//! Values, and lists of them.
ghost use Rattle.std.specs.Prelude.{◌≡◌, ◌↔◌, ◌++◌, ◌∷◌, [], IfOk, OnOk, OnErr, IsTrue};
ghost use Rattle.std.specs.Prelude.{List};
ghost use Rattle.mpy_tree.specs.Fitting.{type_of};
ghost use Rattle.mpy_tree.specs.declared.value.Value.{Value as AnyValue};

use crate::NoMemory;
use crate::lists::{Chars, Ints};
use crate::typing::Ty;
use std::alloc::Global;
use std::marker::Model;

/// A value.
#[derive(Drop)]
pub enum Value {
    Int(i32),
    Bool(bool),
    List(Ints),
    Text(Chars),
}

impl Value {
    /// The type of the value.
    pub fn ty(&self) -> Ty
        ensures { result ≡ type_of self.now }
    {
        match self {
            Value::Int(_) => Ty::Int,
            Value::Bool(_) => Ty::Bool,
            Value::List(_) => Ty::List,
            Value::Text(_) => Ty::Text,
        }
    }

    /// Whether two values are one: of one type, with equal contents.
    pub fn is(&self, other: &Value) -> bool
        ensures { IsTrue result ↔ (self.now ≡ other.now) }
    {
        match (self, other) {
            (Value::Int(m), Value::Int(n)) => *m == *n,
            (Value::Bool(b), Value::Bool(c)) => *b == *c,
            (Value::List(l), Value::List(m)) => l.items() == m.items(),
            (Value::Text(t), Value::Text(u)) => t.bytes() == u.bytes(),
            _ => false,
        }
    }

    /// An equal value.
    pub fn copy(&self) -> Result<Value, NoMemory>
        ensures { IfOk result (λ v. v ≡ self.now) }
    {
        match self {
            Value::Int(n) => Ok(Value::Int(*n)),
            Value::Bool(b) => Ok(Value::Bool(*b)),
            Value::List(l) => Ok(Value::List(l.copy()?)),
            Value::Text(t) => Ok(Value::Text(t.copy()?)),
        }
    }
}

/// A list of values, such as the arguments of a call.
#[derive(Drop)]
pub struct Values {
    items: Vec<Value>,
}

impl Model for Values {
    ghost Value = { List AnyValue };

    ghost view = { λ a. a.items.items };
}

impl Values {
    /// The list that has these values.
    pub fn from_vec(items: Vec<Value>) -> Values
        ensures { result ≡ items.items }
    {
        Values { items }
    }

    /// The values.
    pub fn items(&self) -> &[Value]
        ensures { result.now ≡ self.now }
    {
        self.items.as_slice()
    }

    /// The values, given back.
    pub fn into_vec(self) -> Vec<Value>
        ensures { result.items ≡ self }
    {
        self.items
    }

    /// Adds a value at the end. Where memory is wanting the list stays as it was.
    pub fn push(&mut self, v: Value) -> Result<(), NoMemory>
        ensures ok { OnOk result (self.new ≡ self.old ++ v ∷ []) }
        ensures err { OnErr result (self.new ≡ self.old) }
    {
        self.items.push(v)?;
        Ok(())
    }

    /// Whether two lists have the same values in the same order.
    pub fn is(&self, other: &Values) -> bool
        ensures { IsTrue result ↔ (self.now ≡ other.now) }
    {
        if self.items.len() != other.items.len() {
            return false;
        }
        for i in 0..self.items.len() {
            if !self.items[i].is(&other.items[i]) {
                return false;
            }
        }
        true
    }

    /// An equal list.
    pub fn copy(&self) -> Result<Values, NoMemory>
        ensures { IfOk result (λ n. n ≡ self.now) }
    {
        let mut copies = Vec::new(*self.items.allocator());
        for v in &self.items {
            copies.push(v.copy()?)?;
        }
        Ok(Values { items: copies })
    }
}
