//! Functions whose bodies are weighed.
ghost use Rattle.std.specs.Prelude.{◌≡◌, ◌≤◌, ◌^◌};
ghost use Rattle.tree_weights.specs.Views.{scope_in};
ghost use Rattle.tree_weights.specs.Weights.{statement_weight};

use crate::locals::locals_weight;
use crate::program::TypedProgram;

/// A function, by its number, whose calls may go so many levels deeper, and what a statement of it
/// weighs.
#[derive(Drop)]
pub struct Frame<'a> {
    pub program: TypedProgram<'a>,
    pub number: usize,
    pub levels: u32,
    pub step: u128,
    ghost step_is: { step ≡ statement_weight program.limits.now (scope_in program number) },
    ghost step_small: { step ≤ 2 ^ 80 },
}

impl<'a> Frame<'a> {
    /// The function of this number.
    pub fn new(program: TypedProgram<'a>, number: usize, levels: u32) -> Frame<'a>
        ensures program { result.program ≡ program.entry }
        ensures number { result.number ≡ number }
        ensures levels { result.levels ≡ levels }
    {
        let locals = locals_weight(program.limits, number, program.facts.facts);
        let step = 2 * (locals + program.printed_bits(number));
        Frame {
            program,
            number,
            levels,
            step,
        }
    }
}
