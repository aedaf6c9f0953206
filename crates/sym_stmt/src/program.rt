//! Weighted programs with the types of their slots.

ghost use Rattle.std.specs.Prelude.{◌≡◌, ◌<◌, length, Some, IfSome, IsSome};
ghost use Rattle.sym_expr.specs.Signatures.{result_type};
ghost use Rattle.sym_stmt.specs.Programs.{functions_of, number_of, signatures_of};

use choice_tree::WProg;
use mpy_tree::{Name, Ty, Types};
use mpy_types::{FactList, Known};

/// A weighted program, and the facts that give its slots their types.
#[derive(Clone, Copy, Drop)]
pub struct Program<'a> {
    pub tree: &'a WProg,
    pub types: &'a Types,
}

impl Program<'_> {
    /// The facts as a set.
    pub fn facts(&self) -> FactList<'_>
        ensures { result.facts.now ≡ self.now.types.now.facts }
    {
        FactList {
            facts: self.types.facts.items(),
        }
    }

    /// The number of the first function of a name.
    pub fn number(&self, f: &Name) -> Option<usize>
        ensures first { result ≡ number_of (functions_of self.now.tree.now) f.now }
        ensures within { IfSome result (λ i. i < length (functions_of self.now.tree.now)) }
    {
        self.tree
            .funcs
            .items
            .iter()
            .position(|func| f.is(&func.name))
    }

    /// The type of what a function gives.
    pub fn result_type(&self, f: &Name) -> Ty
        requires { IsSome
            (result_type (signatures_of self.now.tree.now self.now.types.now.facts) f.now) }
        ensures { result_type (signatures_of self.now.tree.now self.now.types.now.facts) f.now
            ≡ Some result }
    {
        match self.number(f) {
            None => unreachable!(),
            Some(i) => match self.facts().result(i).only() {
                None => unreachable!(),
                Some(ty) => ty,
            },
        }
    }

    /// The type of what the entry of a run gives, if it has one.
    pub fn given_type(&self, f: &Name) -> Option<Ty>
        ensures { result ≡ result_type
            (signatures_of self.now.tree.now self.now.types.now.facts) f.now }
    {
        match self.number(f) {
            None => None,
            Some(i) => self.facts().result(i).only(),
        }
    }
}
