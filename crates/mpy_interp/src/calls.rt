//! Calls of the program's functions.
ghost use Rattle.std.specs.Prelude.{◌≡◌, ℕ, List};
ghost use Rattle.std.specs.declared.result.Result.{Result};
ghost use Rattle.mpy_tree.specs.declared.value.Value.{Value};
ghost use Rattle.mpy_tree.specs.declared.outcome.Halted.{Halted};
ghost use Rattle.value_operations.specs.Answers.{Meets};

use mpy_tree::{Name, Value};
use std::alloc::Global;
use value_operations::Stop;

/// What calls of the program's functions give.
pub trait Calls {
    ghost gives: { Self → List ℕ → List Value → ℕ → Result Value Halted };

    fn call(&self, alloc: Global, f: &Name, args: Vec<Value>, line: u32) -> Result<Value, Stop>
        ensures { Meets result (gives self.now f.now args.items line) };
}
