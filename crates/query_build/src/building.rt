//! The formula of a question, and what an answer to it spells.

ghost use Rattle.std.specs.Prelude.{◌≡◌, ◌≤◌, ◌<◌, ◌≢◌, ◌+◌, [], All, IfOk, IsSome, Some, length};
ghost use Rattle.clause_base.specs.Formulas.{IsLedBy};
ghost use Rattle.input_space.specs.Sessions.{cases_of, question_of};
ghost use Rattle.input_space.specs.Statements.{bits_of};
ghost use Rattle.input_space.specs.TaskCoding.{StatesQuery, coding};
ghost use Rattle.input_space.specs.TaskParts.{task_with};
ghost use Rattle.query_build.specs.Asking.{AreWanted, own_bits};

use crate::NoMemory;
use crate::goals::goal;
use bit_graph::graph::Graph;
use choice_tree::Selection;
use clause_base::formula::Formula;
use clause_base::truths::Truths;
use cnf_build::build::to_formula;
use input_bits::decode_values;
use input_space::{Case, Cases, Query, Task, signature};
use std::alloc::Global;

/// The formula that states a question about a task, where these cases are kept. Variable 1 is true,
/// then come the question's own variables, and what these don't decide is a gate.
pub fn formula(alloc: Global, t: &Task, kept: &Cases, q: &Query) -> Result<Formula, NoMemory>
    requires wanted { AreWanted (task_with t.now) kept.now }
    requires cases { cases_of q.now ≤ length kept.now }
    ensures states { IfOk result (λ f. StatesQuery (task_with t.now) kept.now q.now f.vars
        f.clauses) }
    ensures led { IfOk result (λ f. IsLedBy
        (bits_of (coding (task_with t.now)) (question_of q.now) + 1) f.vars f.clauses) }
    ensures own { IfOk result (λ f.
        bits_of (coding (task_with t.now)) (question_of q.now) + 1 ≤ f.vars) }
    ensures none_empty { IfOk result (λ f. All (λ c. c.lits ≢ []) f.clauses) }
    ensures some { IfOk result (λ f. 0 < length f.clauses) }
    ensures few { IfOk result (λ f. (f.vars ≤ 2147483647) × (length f.clauses ≤ 2147483647)) }
{
    let mut g = Graph::new(alloc)?;
    let goal = goal(alloc, &mut g, t, kept, q)?;
    let formula = to_formula(alloc, &g, goal)?;
    Ok(formula)
}

/// The input that the values of a formula's variables spell.
pub fn decode_case(alloc: Global, t: &Task, v: &Truths) -> Result<Case, NoMemory>
    requires own { (coding (task_with t.now)).input_bits + 1 ≤ length v.now }
    requires few { length v.now ≤ 2147483647 }
    requires spelled { IsSome ((coding (task_with t.now)).input
        (own_bits (coding (task_with t.now)).input_bits v.now)) }
    ensures { IfOk result (λ x. (coding (task_with t.now)).input
        (own_bits (coding (task_with t.now)).input_bits v.now) ≡ Some x) }
{
    let bounds = t.bounds();
    let signature = signature(alloc, bounds)?;
    match decode_values(alloc, &bounds.limits, signature.params.items(), v, 1)? {
        Some(values) => Ok(Case { values }),
        None => unreachable!(),
    }
}

/// The selection that the values of a formula's variables spell. It names no pick in a member that
/// isn't chosen.
pub fn decode_selection(alloc: Global, t: &Task, v: &Truths) -> Result<Selection, NoMemory>
    requires own { (coding (task_with t.now)).choice_bits + 1 ≤ length v.now }
    requires few { length v.now ≤ 2147483647 }
    requires spelled { IsSome ((coding (task_with t.now)).choice
        (own_bits (coding (task_with t.now)).choice_bits v.now)) }
    ensures { IfOk result (λ s. (coding (task_with t.now)).choice
        (own_bits (coding (task_with t.now)).choice_bits v.now) ≡ Some s) }
{
    let tree = t.tree();
    match pick_bits::decode_selection(alloc, tree, v, 1)? {
        Some(selection) => Ok(selection),
        None => unreachable!(),
    }
}
