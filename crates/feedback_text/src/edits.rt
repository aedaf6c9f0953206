//! The lines for edits.
ghost use Rattle.std.specs.Prelude.{◌≡◌, ◌++◌, IfOk, OnOk, map, slice_get};
ghost use Rattle.std.specs.Option.{option_map};
ghost use Rattle.choice_tree.specs.RuleViews.{correction_of, corrections_of};
ghost use Rattle.feedback_text.specs.Messages.{filled};
ghost use Rattle.feedback_text.specs.ReportViews.{edit_of};
ghost use Rattle.feedback_text.specs.Reports.{edit_by, edits_text, message, value_in};

use crate::NoMemory;
use crate::holes::{Hole, split_hole};
use crate::texts::{push_expr, push_number};
use choice_tree::{Edit, Edits, Rule, Rules};
use std::alloc::Global;

/// An edit, and its rule.
#[derive(Clone, Copy)]
struct EditBy<'a> {
    alloc: Global,
    edit: &'a Edit,
    rule: &'a Rule,
}

impl EditBy<'_> {
    /// Adds what is put into a hole of the message.
    fn push_value(&self, out: &mut Vec<u8>, hole: Hole) -> Result<(), NoMemory>
        ensures { OnOk result (out.new.items ≡ out.old.items ++ value_in (edit_of self.now.edit.now)
            (correction_of self.now.rule.now) hole) }
    {
        match hole {
            Hole::Line => push_number(self.alloc, out, self.edit.line),
            Hole::Old => push_expr(self.alloc, out, &self.edit.old),
            Hole::New => push_expr(self.alloc, out, &self.edit.new),
            Hole::Cost => push_number(self.alloc, out, self.rule.cost),
        }
    }

    /// Adds what the rule says, with the holes filled.
    #[tactic(auto, using(crate::proofs::MessageLaws::filled_hole))]
    fn push_filled(&self, out: &mut Vec<u8>, say: &[u8]) -> Result<(), NoMemory>
        ensures { OnOk result (out.new.items ≡ out.old.items ++ filled (value_in
            (edit_of self.now.edit.now) (correction_of self.now.rule.now)) say.now) }
    {
        let mut rest = say;
        while let [first, behind @ ..] = rest {
            match split_hole(rest) {
                Some((hole, after)) => {
                    self.push_value(out, hole)?;
                    rest = after;
                }
                None => {
                    out.push(*first)?;
                    rest = behind;
                }
            }
        }
        Ok(())
    }

    /// Adds the message.
    fn push_message(&self, out: &mut Vec<u8>) -> Result<(), NoMemory>
        ensures { OnOk result (out.new.items ≡ out.old.items ++ message (edit_of self.now.edit.now)
            (correction_of self.now.rule.now) (correction_of self.now.rule.now).say) }
    {
        match &self.rule.say {
            Some(say) => self.push_filled(out, say.bytes()),
            None => {
                out.extend_from_slice(b"replace ")?;
                self.push_value(out, Hole::Old)?;
                out.extend_from_slice(b" by ")?;
                self.push_value(out, Hole::New)
            }
        }
    }

    /// The line.
    fn line(&self) -> Result<Vec<u8>, NoMemory>
        ensures { IfOk result (λ v. v.items ≡ edit_by (edit_of self.now.edit.now)
            (correction_of self.now.rule.now)) }
    {
        let mut text = b"line ".to_vec(self.alloc)?;
        push_number(self.alloc, &mut text, self.edit.line)?;
        text.extend_from_slice(b" [")?;
        text.extend_from_slice(self.rule.name.bytes())?;
        text.extend_from_slice(b", ")?;
        push_number(self.alloc, &mut text, self.rule.cost)?;
        text.extend_from_slice(b"]: ")?;
        self.push_message(&mut text)?;
        text.extend_from_slice(b"\n")?;
        Ok(text)
    }
}

/// The rule that an edit names.
fn rule_by<'a>(rules: &'a Rules, edit: &Edit) -> Option<&'a Rule>
    ensures { option_map (λ r. correction_of r.now) result
        ≡ slice_get (corrections_of rules.now) edit.now.rule }
{
    rules.items.get(edit.rule as usize)
}

/// The lines for edits, one for each: `line L [RULE, K]: MESSAGE`, with the edit's line, and the
/// name and the cost of its rule. An edit that names none of the rules has no line.
///
/// The message is what the rule says, read once from left to right, with each `{line}`, `{old}`,
/// `{new}` and `{cost}` replaced; where the rule says nothing it is `replace OLD by NEW`.
pub fn rule_lines(alloc: Global, rules: &Rules, edits: &Edits) -> Result<Vec<u8>, NoMemory>
    ensures { IfOk result (λ v. v.items ≡ edits_text (corrections_of rules.now)
        (map edit_of edits.now.items.items)) }
{
    let mut text = Vec::new(alloc);
    for edit in &edits.items {
        if let Some(rule) = rule_by(rules, edit) {
            let by = EditBy { alloc, edit, rule };
            text.extend_from_slice(by.line()?.as_slice())?;
        }
    }
    Ok(text)
}
