//! Laws of the types of weighted expressions.

ghost use Rattle.std.specs.Prelude.{◌≡◌, ℕ, Some};
ghost use Rattle.mpy_tree.specs.declared.typing.Ty.{Ty};
ghost use Rattle.choice_tree.specs.Selections.{plain};
ghost use Rattle.choice_tree.specs.Typing.{Scope, type_of as type_of_tree};
ghost use Rattle.choice_tree.specs.WeightedTrees.{Weighted};
ghost use Rattle.sym_nodes.specs.Plain.{type_of};

/// Where a weighted expression has a type, each of its plain expressions has it.
pub fn plain_expressions_have_the_type()
    ensures { (m : ℕ → ℕ) (σ : Scope) (w : Weighted) (t : Ty) → type_of σ w ≡ Some t
        → type_of_tree σ (plain m w) ≡ Some t }
{}
