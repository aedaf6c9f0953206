//! Laws of resolutions, and of rules that match.
ghost use Rattle.std.specs.Prelude.{◌≡◌, ◌<◌, ℕ, List, Option, Some, length, slice_get};
ghost use Rattle.mpy_tree.specs.Syntax.{Term};
ghost use Rattle.mpy_tree.specs.Shapes.{shape};
ghost use Rattle.mpy_tree.specs.Trees.{Tree};
ghost use Rattle.choice_tree.specs.declared.rules.Place.{Place};
ghost use Rattle.choice_tree.specs.Templates.{Template, Correction};
ghost use Rattle.choice_tree.specs.Heads.{HasParts, root};
ghost use Rattle.choice_tree.specs.Typing.{Scope};
ghost use Rattle.choice_tree.specs.Matching.{Bindings};
ghost use Rattle.choice_tree.specs.Drafts.{proposals, resolutions};
ghost use Rattle.eml_match.specs.MatchedRules.{matched_by, proposals_by};
ghost use Rattle.eml_match.specs.Parts.{parts};
ghost use Rattle.eml_match.specs.Resolutions.{count, locals_for, resolution};

/// The resolutions of a right side are those of the numbers below their count, in order.
pub fn resolutions_by_number()
    ensures counted { (p : Template) (σ : Scope) (β : Bindings) → length (resolutions σ β p) ≡
        count p (locals_for σ β) β }
    ensures resolved { (p : Template) (σ : Scope) (β : Bindings) (r : ℕ) → r < count p
        (locals_for σ β) β → slice_get (resolutions σ β p) r ≡ Some (resolution p (locals_for σ β) β
        r) }
{}

/// What rules propose for a term is what those that match propose.
pub fn matching_rules_propose()
    ensures { (here : Place → Option Bindings) (σ : Scope) (rules : List Correction) (t : Tree) →
        proposals here σ rules t ≡ proposals_by σ (matched_by here rules t) }
{}

/// An expression has as many parts as its kind has.
pub fn heads_have_parts()
    ensures { (t : Term) → HasParts (root (shape t)) (length (parts (shape t))) }
{}
