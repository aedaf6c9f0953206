//! Laws of weighted trees.
ghost use Rattle.std.specs.Prelude.{◌≡◌, List};
ghost use Rattle.mpy_tree.specs.Syntax.{Routine, Term};
ghost use Rattle.mpy_tree.specs.Rules.{type_in};
ghost use Rattle.mpy_tree.specs.Shapes.{program_shape, shape};
ghost use Rattle.choice_tree.specs.Typing.{Scope, type_of};
ghost use Rattle.choice_tree.specs.Templates.{KeepPrimes};
ghost use Rattle.choice_tree.specs.Contexts.{Setting, elsewhere, outermost};
ghost use Rattle.choice_tree.specs.Rewriting.{Rewrites};
ghost use Rattle.choice_tree.specs.Growing.{weighted_program};
ghost use Rattle.choice_tree.specs.Selections.{IsGreatestCost, MadeBySelections};

/// The selections that fit the weighted tree of a program make exactly its rewritings, with their
/// costs and edits.
pub fn selections_are_rewritings()
    ensures { (g : Setting) (s : List Routine) → KeepPrimes g.rules → MadeBySelections
        (weighted_program g s) (Rewrites g elsewhere 0 (outermost g) (program_shape s)) }
{}

/// The type of the tree of a term is that of the term, by the rules of typing.
pub fn trees_have_the_types_of_terms()
    ensures { (σ : Scope) (t : Term) → type_of σ (shape t) ≡ type_in σ.slots σ.program σ.number t }
{}

/// In the weighted tree of a program no selection costs more than the greatest cost, and one that
/// fits costs as much.
pub fn greatest_cost_is_reached()
    ensures { (g : Setting) (s : List Routine) → IsGreatestCost (weighted_program g s) }
{}
