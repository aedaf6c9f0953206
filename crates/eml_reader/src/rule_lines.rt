//! The rule, or the message of a rule, that a logical line spells.
ghost use Rattle.std.specs.Prelude.{◌≡◌, IfOk, option_map};
ghost use Rattle.mpy_lexer.specs.TextLiterals.{literal_characters};
ghost use Rattle.choice_tree.specs.RuleViews.{correction_of};
ghost use Rattle.eml_sides.specs.SideViews.{pattern_of, replacement_of};
ghost use Rattle.eml_reader.specs.HeadViews.{head_seen};
ghost use Rattle.eml_reader.specs.RuleReading.{at_arrow, message_of, rule_from, rule_of};
ghost use Rattle.eml_reader.specs.RuleReading.{rule_of_sides};

use crate::NoMemory;
use crate::heads::{Head, at_arrow, head_of};
use crate::tokens::{is_text, is_word};
use choice_tree::{Pattern, Right, Rule};
use eml_sides::{left_side, right_side};
use mpy_lexer::{Line, Token, literal_characters};
use mpy_tree::{Chars, Name};
use std::alloc::Global;

/// The rule that a line spells, without a message.
#[tactic(auto, unfolding(crate::specs::RuleReading::rule_of))]
pub fn rule_of(alloc: Global, line: &Line) -> Result<Option<Rule>, NoMemory>
    ensures { IfOk result (λ r. option_map correction_of r ≡ rule_of line.now) }
{
    match head_of(line.tokens.items()) {
        None => Ok(None),
        Some(head) => rule_of_head(alloc, line.line, head),
    }
}

// The rule of a head and of what stands behind it.
fn rule_of_head(alloc: Global, line: u32, head: Head<'_>) -> Result<Option<Rule>, NoMemory>
    ensures { IfOk result (λ r. option_map correction_of r ≡ rule_of_sides line (head_seen
        head.entry) (at_arrow head.entry.sides.now)) }
{
    match at_arrow(head.sides) {
        None => Ok(None),
        Some((left, right)) => {
            let left = left_side(alloc, left)?;
            let right = right_side(alloc, right)?;
            rule_from(line, head, left, right)
        }
    }
}

// The rule of a head and of two sides, if both are there.
fn rule_from(
    line: u32,
    head: Head<'_>,
    left: Option<Pattern>,
    right: Option<Right>,
) -> Result<Option<Rule>, NoMemory>
    ensures { IfOk result (λ r. option_map correction_of r ≡ rule_from line (head_seen head.entry)
        (option_map pattern_of left) (option_map replacement_of right)) }
{
    match left {
        None => Ok(None),
        Some(left) => match right {
            None => Ok(None),
            Some(right) => {
                let name = Name::from_vec(head.name.text.copy()?.into_vec());
                Ok(Some(Rule {
                    line,
                    name,
                    cost: head.cost,
                    left,
                    right,
                    say: None,
                }))
            }
        },
    }
}

/// The message that a line spells.
#[tactic(auto, unfolding(crate::specs::RuleReading::message_of))]
pub fn message_of(alloc: Global, line: &Line) -> Result<Option<Chars>, NoMemory>
    ensures { IfOk result (λ r. r ≡ message_of line.now) }
{
    match line.tokens.items() {
        [say, text] => {
            if is_word(b"say", say) && is_text(text.kind) {
                text_of(alloc, text)
            } else {
                Ok(None)
            }
        }
        _ => Ok(None),
    }
}

// The characters of a text.
fn text_of(alloc: Global, token: &Token) -> Result<Option<Chars>, NoMemory>
    ensures { IfOk result (λ r. r ≡ literal_characters token.now.text) }
{
    match literal_characters(alloc, token.text.bytes())? {
        None => Ok(None),
        Some(found) => Ok(Some(Chars::from_vec(found))),
    }
}
