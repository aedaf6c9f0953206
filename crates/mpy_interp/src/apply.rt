//! Calls by name.
ghost use Rattle.std.specs.Prelude.{◌≡◌, ◌∷◌, []};
ghost use Rattle.value_operations.specs.Answers.{Meets};
ghost use Rattle.mpy_tree.specs.Expressions.{apply};

use crate::calls::Calls;
use crate::machine::Machine;
use mpy_tree::{Builtin, Name, Value};
use value_operations::{Stop, call_builtin};

impl<C: Calls> Machine<'_, C> {
    /// What a call of a builtin, or else of a function of the program, gives.
    pub fn apply(&self, f: &Name, args: Vec<Value>, line: u32) -> Result<Value, Stop>
        ensures { Meets result (apply self.now.limits.now (C.gives self.now.calls.now)
            f.now args.items line) }
    {
        match Builtin::of(f.bytes()) {
            Some(b) => call_builtin(self.alloc, self.limits, line, b, &args),
            None => self.calls.call(self.alloc, f, args, line),
        }
    }

    /// What such a call gives on a number alone.
    pub fn apply_to_number(&self, f: &Name, z: i32, line: u32) -> Result<Value, Stop>
        ensures { Meets result (apply self.now.limits.now (C.gives self.now.calls.now)
            f.now (Value.Int z ∷ []) line) }
    {
        match Builtin::of(f.bytes()) {
            Some(b) => call_builtin(self.alloc, self.limits, line, b, &[Value::Int(z)]),
            None => {
                let mut args = Vec::with_capacity(self.alloc, 1)?;
                args.push(Value::Int(z))?;
                self.calls.call(self.alloc, f, args, line)
            }
        }
    }
}
