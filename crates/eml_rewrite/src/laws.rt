//! Laws of weighted trees of programs.
ghost use Rattle.std.specs.Prelude.{◌≡◌, ◌≤◌, ◌*◌, ℕ, All, List, []};
ghost use Rattle.mpy_tree.specs.Syntax.{Routine};
ghost use Rattle.mpy_tree.specs.Shapes.{program_shape};
ghost use Rattle.choice_tree.specs.declared.tree.WProg.{WProg};
ghost use Rattle.choice_tree.specs.Contexts.{Setting, elsewhere, outermost};
ghost use Rattle.choice_tree.specs.Costs.{all_costs};
ghost use Rattle.choice_tree.specs.Growing.{weighted_program};
ghost use Rattle.choice_tree.specs.Rewriting.{Rewrites};
ghost use Rattle.choice_tree.specs.Selections.{MadeBySelections};
ghost use Rattle.choice_tree.specs.StatementViews.{weighted_prog};
ghost use Rattle.choice_tree.specs.Templates.{KeepPrimes};
ghost use Rattle.choice_tree.specs.WeightedTrees.{lifted, size};

/// The selections that fit a tree that `rewrite` gives make exactly the rewritings of the program,
/// with their costs and edits.
pub fn rewritten_trees_have_all_rewritings()
    ensures { (g : Setting) (s : List Routine) (w : WProg) → KeepPrimes g.rules → weighted_prog w ≡
        weighted_program g s → MadeBySelections (weighted_prog w) (Rewrites g elsewhere 0
        (outermost g) (program_shape s)) }
{}

/// Where no rule costs more than a number, all members of the tree of a program together cost no
/// more than that number for each of its nodes.
pub fn rewritten_trees_have_small_costs()
    ensures { (g : Setting) (s : List Routine) (n : ℕ) → All (λ r. r.cost ≤ n) g.rules → all_costs
        (weighted_program g s) ≤ n * size (weighted_program g s) }
{}

/// The tree of the rewritings of a program by no rules is the program without picks, which `lift`
/// gives.
pub fn trees_by_no_rules_are_lifted()
    ensures { (g : Setting) (s : List Routine) → g.rules ≡ [] → weighted_program g s ≡ lifted
        (program_shape s) }
{}
