//! Laws of the types and the weights of weighted trees.
ghost use Rattle.std.specs.Prelude.{◌≡◌, List};
ghost use Rattle.mpy_tree.specs.declared.typing.Fact.{Fact};
ghost use Rattle.mpy_tree.specs.Shapes.{program_shape};
ghost use Rattle.mpy_tree.specs.Syntax.{Routine};
ghost use Rattle.choice_tree.specs.declared.tree.WProg.{WProg};
ghost use Rattle.choice_tree.specs.StatementViews.{weighted_prog};
ghost use Rattle.choice_tree.specs.WeightedTrees.{base_of};
ghost use Rattle.tree_weights.specs.TypeLaws.{RootsHaveTypes};

/// Where the bases of a weighted program make this program, the type by which an expression is
/// weighed is that of its base by the rules of typing, if the base keeps them.
pub fn roots_have_types()
    ensures { (facts : List Fact) (p : List Routine) (w : WProg) → program_shape p ≡ base_of
        (weighted_prog w) → RootsHaveTypes facts p w }
{}
