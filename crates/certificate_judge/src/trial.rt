//! The judge.

ghost use Rattle.std.specs.Prelude.{IfOk};
ghost use Rattle.cert_text.specs.Limits.{KeepsForm};
ghost use Rattle.certificate_judge.specs.Trials.{IsTried};
ghost use Rattle.certificate_judge.specs.Verdicts.{IsInForm, IsKnownBy, IsVerdict};
ghost use Rattle.input_space.specs.TaskParts.{task_with};

use crate::NoMemory;
use crate::form::{first_wrong, has_its_cost, shows_claim};
use crate::look::{Look, look_at};
use crate::verdict::Verdict;
use cert_text::{Cert, Claim};
use certificate_laws::right_certificates_show;
use choice_tree::plain;
use coding_laws::alphabets_are_printable;
use input_space::Task;
use std::alloc::Global;

// What was found of the sessions of a certificate in form.
pub(crate) enum Trial {
    // They pass, so many of them made anew.
    Passes(u32),
    // One decides.
    Decides(Verdict),
}

// The sessions of a certificate in form: the first that decides does.
fn try_sessions(alloc: Global, t: &Task, c: &Cert) -> Result<Trial, NoMemory>
    requires keeps { KeepsForm c.now }
    requires form { IsInForm (task_with t.now) c.now }
    ensures { IfOk result (IsTried (task_with t.now) c.now) }
{
    let mut anew = 0;
    let sessions = c.sessions.items();
    for i in 0..c.sessions.count() {
        match look_at(alloc, t, &c.cases, &sessions[i as usize])? {
            Look::Follows => {}
            Look::Anew => anew += 1,
            Look::Other {
                clause,
                built,
                shown,
            } => {
                return Ok(Trial::Decides(Verdict::OtherFormula {
                    session: i + 1,
                    clause,
                    built,
                    shown,
                }));
            }
            Look::Bad(step) => {
                return Ok(Trial::Decides(Verdict::BadStep {
                    session: i + 1,
                    step,
                }));
            }
        }
    }
    Ok(Trial::Passes(anew))
}

// The verdict on a certificate in form.
fn judge_sessions(alloc: Global, t: &Task, c: &Cert) -> Result<Verdict, NoMemory>
    requires keeps { KeepsForm c.now }
    requires form { IsInForm (task_with t.now) c.now }
    ensures { IfOk result (IsVerdict (task_with t.now) c.now) }
{
    let anew = match try_sessions(alloc, t, c)? {
        Trial::Passes(anew) => anew,
        Trial::Decides(verdict) => return Ok(verdict),
    };
    match c.claim {
        Claim::Cost(cost) => Ok(Verdict::Accepted {
            cost,
            program: plain(alloc, t.tree(), &c.selection)?,
            anew,
        }),
        Claim::Nothing => Ok(Verdict::AcceptedNone { anew }),
        Claim::Spent(_) => unreachable!(),
    }
}

// As `judge`, where memory may lack.
fn judge_all(alloc: Global, t: &Task, c: &Cert) -> Result<Verdict, NoMemory>
    requires { KeepsForm c.now }
    ensures { IfOk result (IsVerdict (task_with t.now) c.now) }
{
    if let Some(case) = first_wrong(alloc, t, c)? {
        return Ok(Verdict::WrongCase { case });
    }
    if !has_its_cost(t, c) {
        return Ok(Verdict::WrongCost);
    }
    if !shows_claim(c) {
        return Ok(Verdict::WrongClaim);
    }
    judge_sessions(alloc, t, c)
}

/// Judges a certificate, whatever wrote it: its cases, its cost, its questions, and then session by
/// session its formula and its steps. A question is asked anew, with at most 200,000 logged
/// clauses, only where the formula of its session isn't the one that is built here.
pub fn judge(alloc: Global, t: &Task, c: &Cert) -> Verdict
    requires { KeepsForm c.now }
    // The first condition that stands.
    ensures verdict { IsVerdict (task_with t.now) c.now result }
    // An accepted program is a best rewriting; by an accepted claim of none no rewriting agrees.
    ensures known { IsKnownBy (task_with t.now) c.now result }
{
    right_certificates_show();
    t.is_sound();
    alphabets_are_printable(t.bounds());
    match judge_all(alloc, t, c) {
        Ok(verdict) => verdict,
        Err(_) => Verdict::NoMemory,
    }
}
