//! The function of a program that a run enters.
ghost use Rattle.std.specs.Prelude.{◌≡◌};
ghost use Rattle.mpy_tree.specs.View.{routines_of};
ghost use Rattle.input_space.specs.Tasks.{entry_line, result_type};

use bounds_reader::Bounds;
use mpy_tree::{Prog, Ty, Types};
use mpy_types::{FactList, Known};

/// The line of the `def` of the entry, and 1 where there is none.
pub fn entry_line(bounds: &Bounds, program: &Prog) -> u32
    ensures { result ≡ entry_line bounds.now (routines_of program.now) }
{
    for func in &program.funcs.items {
        if bounds.entry.is(&func.name) {
            return func.line;
        }
    }
    1
}

/// The type of what the entry gives, where it has one.
pub fn result_type(bounds: &Bounds, program: &Prog, types: &Types) -> Option<Ty>
    ensures { result ≡ result_type bounds.now (routines_of program.now) types.now.facts }
{
    let known = FactList {
        facts: types.facts.items(),
    };
    for (i, func) in program.funcs.items.iter().enumerate() {
        if bounds.entry.is(&func.name) {
            return known.result(i).only();
        }
    }
    None
}
