//! What is known of the types of a program's names.
ghost use Rattle.std.specs.Prelude.{◌≡◌, ℕ, List};
ghost use Rattle.mpy_tree.specs.View.{routines_of};
ghost use Rattle.mpy_tree.specs.declared.typing.Slot.{Slot};
ghost use Rattle.mpy_tree.specs.declared.typing.Slot.TheVariants as slot;
ghost use Rattle.mpy_tree.specs.declared.typing.TypeSet.{TypeSet as Set};
ghost use Rattle.mpy_tree.specs.SetTypes.{FactSet};

use mpy_tree::{Name, Prog, TypeSet};

/// A set of facts.
pub trait Known {
    ghost gives: { Self → FactSet };

    /// The types of a local of a function.
    fn local(&self, func: usize, x: &Name) -> TypeSet
        ensures { result ≡ gives self.now func (slot.Local x.now) };

    /// The types of a function's result.
    fn result(&self, func: usize) -> TypeSet
        ensures { result ≡ gives self.now func slot.Result };
}
