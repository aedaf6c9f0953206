//! Weighted programs with the types of their names, and limits.
ghost use Rattle.std.specs.Prelude.{◌≡◌, ◌≤◌, map, option_map};
ghost use Rattle.mpy_tree.specs.Builtins.{builtin_of};
ghost use Rattle.choice_tree.specs.StatementViews.{weighted_func};
ghost use Rattle.choice_tree.specs.WeightedViews.{weighteds};
ghost use Rattle.tree_weights.specs.Functions.{function_of};
ghost use Rattle.tree_weights.specs.RootTypes.{called_type, result_type};
ghost use Rattle.tree_weights.specs.Views.{found_seen, functions_in, scope_in};
ghost use Rattle.tree_weights.specs.Weights.{printed_bits};

use crate::amounts::kept_bits;
use choice_tree::WFunc;
use mpy_scopes::builtin_gives;
use mpy_tree::{Builtin, Limits, Name, Ty};
use mpy_types::{FactList, Known};

/// The functions of a weighted program, the number of the one that a run enters, the facts that
/// give the types of names, and the limits of the run.
#[derive(Clone, Copy, Drop)]
pub struct TypedProgram<'a> {
    pub funcs: &'a [WFunc],
    pub entry: usize,
    pub facts: FactList<'a>,
    pub limits: &'a Limits,
}

/// A function with its number.
#[derive(Clone, Copy, Drop)]
pub struct Found<'a> {
    pub number: usize,
    pub func: &'a WFunc,
}

/// The first function of a name.
pub fn find_function<'a>(funcs: &'a [WFunc], f: &Name) -> Option<Found<'a>>
    ensures { option_map found_seen result ≡ function_of (weighteds (map weighted_func funcs.now))
        f.now }
{
    for (number, func) in funcs.iter().enumerate() {
        if f.is(&func.name) {
            return Some(Found { number, func });
        }
    }
    None
}

impl<'a> TypedProgram<'a> {
    /// The first function of a name.
    pub fn find(&self, f: &Name) -> Option<Found<'a>>
        ensures { option_map found_seen result ≡ function_of (functions_in self.now) f.now }
    {
        find_function(self.funcs, f)
    }

    /// How many bits the printed values have that a function, by its number, keeps.
    pub fn printed_bits(&self, number: usize) -> u128
        ensures bits { result ≡ printed_bits self.now.limits.now (scope_in self.now number) }
        ensures small { result ≤ 4096 }
    {
        if number == self.entry {
            kept_bits(self.limits)
        } else {
            0
        }
    }

    /// The type that a call of a name gives.
    pub fn call_type(&self, f: &Name) -> Option<Ty>
        ensures { result ≡ called_type (builtin_of f.now) (result_type (scope_in self.now 0)
            (function_of (functions_in self.now) f.now)) }
    {
        match Builtin::of(f.bytes()) {
            Some(b) => Some(builtin_gives(b)),
            None => match self.find(f) {
                None => None,
                Some(found) => self.facts.result(found.number).only(),
            },
        }
    }
}
