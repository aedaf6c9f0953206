//! The cases, the cost and the questions of a certificate.

ghost use Rattle.std.specs.List.{Contains};
ghost use Rattle.std.specs.Prelude.{◌≡◌, ◌↔◌, ◌≤◌, ◌∷◌, [], All, IfOk, IsTrue, MatchOption, None};
ghost use Rattle.std.specs.Prelude.{length, map};
ghost use Rattle.choice_tree.specs.declared.selection.Choice.{Choice};
ghost use Rattle.clause_base.specs.Logs.{Refutes};
ghost use Rattle.certificate_judge.specs.Verdicts.{AreInputs, HasItsCost, IsWrongCase, ShowsClaim};
ghost use Rattle.certificate_laws.specs.Right.{least_queries, none_queries};
ghost use Rattle.input_space.specs.declared.session.Query.TheVariants as query;
ghost use Rattle.input_space.specs.TaskParts.{task_with};
ghost use Rattle.input_space.specs.TaskSpace.{wanted_inputs};

use crate::NoMemory;
use cert_text::{Cert, Claim};
use choice_tree::{Choice, Selection, cost, fits};
use input_space::{Case, Query, Session, Task, in_bounds};
use std::alloc::Global;
use task_runs::Runs;

// Whether a case is an input within the bounds on which the reference gives a value.
fn is_wanted(runs: &Runs<'_>, case: &Case) -> Result<bool, NoMemory>
    ensures { IfOk result (λ b. IsTrue b
        ↔ Contains (wanted_inputs (task_with runs.now.task.now)) case.now) }
{
    if !in_bounds(runs.task.bounds(), case) {
        return Ok(false);
    }
    let end = runs.reference(case)?;
    Ok(end.is_done())
}

/// The place, counted from 1, of the first case that isn't an input on which the reference gives a
/// value.
pub(crate) fn first_wrong(alloc: Global, t: &Task, c: &Cert) -> Result<Option<u32>, NoMemory>
    ensures { IfOk result (λ o. MatchOption o (AreInputs (task_with t.now) c.now)
        (IsWrongCase (task_with t.now) c.now)) }
{
    let runs = Runs { alloc, task: t };
    let cases = c.cases.items();
    for i in 0..c.cases.count() {
        if !is_wanted(&runs, &cases[i as usize])? {
            return Ok(Some(i + 1));
        }
    }
    Ok(None)
}

/// Whether the cost that is claimed is that of the selection.
pub(crate) fn has_its_cost(t: &Task, c: &Cert) -> bool
    ensures { IsTrue result ↔ HasItsCost (task_with t.now) c.now c.now.claim }
{
    t.is_sound();
    match c.claim {
        Claim::Cost(claimed) => {
            let tree = t.tree();
            fits(tree, &c.selection) && cost(tree, &c.selection) == claimed
        }
        Claim::Nothing | Claim::Spent(_) => true,
    }
}

// Whether two selections are equal.
fn same_choices(first: &[Choice], second: &[Choice]) -> bool
    ensures { IsTrue result ↔ (first.now ≡ second.now) }
{
    if first.len() != second.len() {
        return false;
    }
    for i in 0..first.len() {
        if first[i] != second[i] {
            return false;
        }
    }
    true
}

// Whether a session asks whether a selection fails.
fn asks_failure(x: &Session, selection: &Selection) -> bool
    ensures { IsTrue result ↔ (x.now.query ≡ query.Fail selection.now) }
{
    match &x.query {
        Query::Fail(asked) => same_choices(asked.items(), selection.items()),
        Query::First | Query::Low { .. } => false,
    }
}

// Whether a session asks for a selection within a bound that agrees on so many cases.
fn asks_low(x: &Session, wanted: Option<u32>, count: u32) -> bool
    ensures { IsTrue result ↔ (x.now.query ≡ query.Low wanted count) }
{
    match &x.query {
        Query::Low { most, cases } => *most == wanted && *cases == count,
        Query::First | Query::Fail(_) => false,
    }
}

// Whether the sessions ask whether the selection fails, and, if it costs something, for one that is
// cheaper.
fn ask_least(xs: &[Session], selection: &Selection, cost: u32, count: u32) -> bool
    ensures { IsTrue result
        ↔ (map (λ x. x.query) xs.now ≡ least_queries selection.now cost count) }
{
    if cost == 0 {
        return xs.len() == 1 && asks_failure(&xs[0], selection);
    }
    xs.len() == 2 && asks_failure(&xs[0], selection) && asks_low(&xs[1], Some(cost - 1), count)
}

// Whether the one session asks for a selection of any cost.
fn ask_any(xs: &[Session], count: u32) -> bool
    ensures { IsTrue result ↔ (map (λ x. x.query) xs.now ≡ none_queries count) }
{
    xs.len() == 1 && asks_low(&xs[0], None, count)
}

// Whether the log of each session refutes.
fn all_refute(xs: &[Session]) -> bool
    ensures { IsTrue result ↔ All (λ x. Refutes x.log.steps) xs.now }
{
    for x in xs {
        if !x.log.refutes() {
            return false;
        }
    }
    true
}

/// Whether the sessions are those of the claim, over a case at least, and each log refutes.
pub(crate) fn shows_claim(c: &Cert) -> bool
    ensures { IsTrue result ↔ ShowsClaim c.now c.now.claim }
{
    let count = c.cases.count();
    let xs = c.sessions.items();
    let asked = match c.claim {
        Claim::Cost(cost) => ask_least(xs, &c.selection, cost, count),
        Claim::Nothing => ask_any(xs, count),
        Claim::Spent(_) => false,
    };
    asked && count > 0 && all_refute(xs)
}
