//! The rules of a task.
ghost use Rattle.std.specs.Prelude.{◌≤◌, length, IfErr, IfOk};
ghost use Rattle.choice_tree.specs.RuleViews.{corrections_of};
ghost use Rattle.eml_reader.specs.RuleFiles.{IsRefused, IsRules};
ghost use Rattle.mpy_tree.specs.declared.refusal.Source.TheVariants.{Rules as of_rules};
ghost use Rattle.task_read.specs.Errors.{RefusesBy};

use crate::error::{TaskError, refused};
use choice_tree::Rules;
use eml_reader::{RuleError, read_rules};
use mpy_tree::Source;
use std::alloc::Global;

/// Reads the rules of a task.
///
/// # Errors
///
/// The first refusal of the rules.
pub(crate) fn read_task_rules(alloc: Global, bytes: &[u8]) -> Result<Rules, TaskError>
    requires { length bytes.now ≤ 1073741824 }
    ensures read { IfOk result (λ rules. IsRules bytes.now (corrections_of rules)) }
    ensures refused { IfErr result (RefusesBy of_rules (IsRefused bytes.now)) }
{
    match read_rules(alloc, bytes) {
        Ok(rules) => Ok(rules),
        Err(RuleError::NoMemory) => Err(TaskError::NoMemory),
        Err(RuleError::Fault { cause, line }) => Err(refused(Source::Rules, cause, line)),
    }
}
