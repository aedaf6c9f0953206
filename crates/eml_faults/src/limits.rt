//! Rules that pass a limit.
ghost use Rattle.std.specs.Prelude.{◌≡◌, map};
ghost use Rattle.choice_tree.specs.RuleViews.{correction_of, template_of};
ghost use Rattle.eml_faults.specs.LimitFaults.{is_large, limit_fault, passes_limit};

use crate::nodes::{has_long, is_deeper, set_count};
use choice_tree::{PExpr, Rule};

const MAX_DEPTH: u32 = 32;

const MAX_RULES: usize = 64;

const MAX_RESOLUTIONS: u64 = 64;

const MAX_COST: u32 = 9;

// Whether a side is too deep, or has a name that is too long.
fn is_large(e: &PExpr) -> bool
    ensures { result ≡ is_large (template_of e.now) }
{
    is_deeper(e, MAX_DEPTH) || has_long(e)
}

// Whether a rule passes a limit.
fn passes_limit(rule: &Rule) -> bool
    ensures { result ≡ passes_limit (correction_of rule.now) }
{
    rule.cost < 1
        || rule.cost > MAX_COST
        || rule.name.is_long()
        || is_large(&rule.left.term)
        || is_large(&rule.right.term)
        || set_count(&rule.right.term) > MAX_RESOLUTIONS
}

/// The line of the first rule that passes a limit: behind 64 others, a cost outside 1 to 9, a side
/// deeper than 32, a name of more than 40 bytes, or a right side with more than 64 resolutions of
/// its sets. Takes time linear in the rules.
pub fn limit_line(rules: &[Rule]) -> Option<u32>
    ensures { result ≡ limit_fault (map correction_of rules.now) }
{
    for (i, rule) in rules.iter().enumerate() {
        if i >= MAX_RULES || passes_limit(rule) {
            return Some(rule.line);
        }
    }
    None
}
