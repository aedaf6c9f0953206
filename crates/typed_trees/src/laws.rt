//! Laws of the types of weighted trees that rules make.
ghost use Rattle.std.specs.Prelude.{◌≡◌, ℕ};
ghost use Rattle.mpy_tree.specs.Shapes.{shape};
ghost use Rattle.mpy_tree.specs.Syntax.{Term};
ghost use Rattle.choice_tree.specs.declared.rules.Rules.{Rules};
ghost use Rattle.choice_tree.specs.RuleViews.{corrections_of};
ghost use Rattle.choice_tree.specs.Typing.{Scope};
ghost use Rattle.choice_tree.specs.WeightedTrees.{Weighted, numbered};
ghost use Rattle.sym_nodes.specs.Plain.{type_of};
ghost use Rattle.typed_trees.specs.TypingLaws.{CallsFollowFromSlots, GrownHaveTypes};
ghost use Rattle.typed_trees.specs.TypingLaws.{NodeTypesFollowFromLocals, TypesFollow};
ghost use Rattle.typed_trees.specs.TypingLaws.{TypesFollowFromLocals, WeightedFunctionsAreTyped};
ghost use Rattle.typed_trees.specs.TypingLaws.{WeightedProgramsAreTyped};
ghost use Rattle.typed_trees.specs.Wholes.{IsWhole, MakeWholes};

/// The weighted tree that rules make of an expression, by any number of steps, has its type.
pub fn grown_trees_have_the_type()
    ensures { GrownHaveTypes }
{}

/// Numbers of picks change no type.
pub fn numbers_change_no_type()
    ensures { (σ : Scope) (w : Weighted) (from : ℕ) → type_of σ (numbered w from) ≡ type_of σ w }
{}

/// Each node of the tree of a term has all its parts.
pub fn terms_are_whole()
    ensures { (t : Term) → IsWhole (shape t) }
{}

/// So has each node of the right sides of rules.
pub fn rules_make_wholes()
    ensures { (rules : Rules) → MakeWholes (corrections_of rules) }
{}

/// The type of a tree without calls of functions follows from the types of the locals.
pub fn types_follow_from_locals()
    ensures { TypesFollowFromLocals }
{}

/// So does that of a node from those of its parts.
pub fn node_types_follow_from_locals()
    ensures { NodeTypesFollowFromLocals }
{}

/// The type of any tree follows from those of the locals and of the calls.
pub fn types_follow()
    ensures { TypesFollow }
{}

/// The types of calls follow from those of the slots of the program's functions.
pub fn calls_follow_from_slots()
    ensures { CallsFollowFromSlots }
{}

/// The weighted tree of a program that facts type is typed.
pub fn weighted_programs_are_typed()
    ensures { WeightedProgramsAreTyped }
{}

/// So is each function of the code's weighted program.
pub fn weighted_functions_are_typed()
    ensures { WeightedFunctionsAreTyped }
{}
