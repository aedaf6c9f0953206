//! Laws of reports.
ghost use Rattle.std.specs.Prelude.{◌≡◌, ℕ, List, map};
ghost use Rattle.std.specs.List.Sorted.{IsStrictlyIncreasing};
ghost use Rattle.mpy_tree.specs.Syntax.{Routine};
ghost use Rattle.choice_tree.specs.declared.selection.Choice.{Choice};
ghost use Rattle.choice_tree.specs.Choices.{member_of};
ghost use Rattle.choice_tree.specs.Selections.{edited_picks};
ghost use Rattle.input_space.specs.Tasks.{Rewrites, Task, tree_of};
ghost use Rattle.feedback_text.specs.declared.answer.Answer.{Answer};
ghost use Rattle.feedback_text.specs.declared.holes.Hole.{Hole};
ghost use Rattle.feedback_text.specs.Answers.{Edit, edit_tree};
ghost use Rattle.feedback_text.specs.EditRules.{AreByRules};
ghost use Rattle.feedback_text.specs.Messages.{FillsAlone};
ghost use Rattle.feedback_text.specs.ReportViews.{IsReportOf};

/// An answer has one report.
pub fn one_report()
    ensures { (k : Task) (a : Answer) (text other : List ℕ)
        → IsReportOf k a text → IsReportOf k a other → text ≡ other }
{}

/// Each text has one message: the text is read once, from left to right, and each hole is filled.
pub fn messages_are_filled()
    ensures { (value : Hole → List ℕ) (text : List ℕ) → FillsAlone value text }
{}

/// Each edit of a rewriting is by one of the rules, so that it has its line in the report, and the
/// costs of these rules add up to the cost of the rewriting.
pub fn edits_are_by_rules()
    ensures { (k : Task) (p : List Routine) (cost : ℕ) (edits : List Edit)
        → Rewrites k p cost (map edit_tree edits) → AreByRules k.rules cost edits }
{}

/// The picks of the edits that a selection makes rise, so that the lines of a report are in the
/// order of the picks.
pub fn edits_are_in_order()
    ensures { (k : Task) (s : List Choice)
        → IsStrictlyIncreasing (edited_picks (member_of s) (tree_of k)) }
{}
