//! What the lines that were read have told.
ghost use Rattle.std.specs.Prelude.{◌≡◌, ◌≤◌, ◌++◌, ◌∷◌, [], length, IfOk};
ghost use Rattle.cert_text.specs.Drafts.{AddsClaim, AddsSelection, AddsVars, GoesOn, Next};
ghost use Rattle.std.specs.Prelude.{true};
ghost use Rattle.std.specs.List.{list_all};
ghost use Rattle.clause_base.specs.Formulas.{in_range};
ghost use Rattle.clause_base.specs.Readings.{IsReading};
ghost use Rattle.step_lines.specs.Steps.{SpellsStep};
ghost use Rattle.cert_text.specs.Drafts.{IsSession, SpellsClause, bare, next_number};
ghost use Rattle.cert_text.specs.Drafts.{with_session};
ghost use Rattle.cert_text.specs.declared.draft.Draft.TheVariants as draft;

use crate::NoMemory;
use crate::cases::read_case_line;
use crate::cert::{Cert, Claim};
use crate::claims::{read_claim, read_selection};
use crate::clauses::{read_clause, read_vars};
use crate::queries::read_query;
use choice_tree::Selection;
use clause_base::clause::Clause;
use clause_base::formula::{Clauses, Formula};
use clause_base::log::{Log, Step, Steps};
use input_space::{Cases, Query, Session, Sessions};
use std::alloc::Global;
use step_lines::steps::read_step;

/// A certificate of which the first lines were read.
#[derive(Drop)]
pub(crate) enum Draft {
    /// Nothing was read.
    Start,
    /// The claim comes next.
    Opened,
    /// A cost is claimed, and its selection comes next.
    Claimed(u32),
    /// Cases or sessions come next.
    Cases(Cert),
    /// A session's question was read, and its number of variables comes next.
    Asked(Cert, Query),
    /// A session's clauses come next.
    Inside(Cert, Session),
    /// The end was read.
    Whole(Cert),
}

fn bare(alloc: Global, claim: Claim, selection: Selection) -> Cert
    ensures { result ≡ bare claim selection }
{
    Cert {
        claim,
        selection,
        cases: Cases::from_vec(Vec::new(alloc)),
        sessions: Sessions::new(alloc),
    }
}

fn claimed(alloc: Global, line: &[u8]) -> Option<Draft>
    ensures { IsReading (AddsClaim line.now) result }
{
    match read_claim(line)? {
        Claim::Cost(n) => Some(Draft::Claimed(n)),
        other => {
            let selection = Selection::from_vec(Vec::new(alloc));
            Some(Draft::Cases(bare(alloc, other, selection)))
        }
    }
}

fn selected(alloc: Global, cost: u32, line: &[u8]) -> Result<Option<Draft>, NoMemory>
    ensures { IfOk result (λ o. IsReading (AddsSelection cost line.now) o) }
{
    match read_selection(alloc, line)? {
        Some(selection) => Ok(Some(Draft::Cases(bare(alloc, Claim::Cost(cost), selection)))),
        None => Ok(None),
    }
}

// What comes behind whole sessions: another one, or the end.
fn gone_on(alloc: Global, cert: Cert, line: &[u8]) -> Result<Option<Draft>, NoMemory>
    ensures { IfOk result (λ o. IsReading (GoesOn cert line.now) o) }
{
    if let Some(query) = read_query(alloc, line, cert.cases.items().len())? {
        return Ok(Some(Draft::Asked(cert, query)));
    }
    if line == b"end".as_slice() {
        return Ok(Some(Draft::Whole(cert)));
    }
    Ok(None)
}

fn more_cases(alloc: Global, mut cert: Cert, line: &[u8]) -> Result<Option<Draft>, NoMemory>
    requires { length line.now ≤ 1073741824 }
    ensures { IfOk result (λ o. IsReading (Next (draft.Cases cert) line.now) o) }
{
    match read_case_line(alloc, line)? {
        Some(case) => {
            cert.cases.push(case)?;
            Ok(Some(Draft::Cases(cert)))
        }
        None => gone_on(alloc, cert, line),
    }
}

fn numbered(alloc: Global, cert: Cert, query: Query, line: &[u8]) -> Option<Draft>
    ensures { IsReading (AddsVars cert query line.now) result }
{
    let vars = read_vars(line)?;
    let clauses = Clauses::new(alloc);
    let steps = Steps::new(alloc);
    let session = Session {
        query,
        formula: Formula { vars, clauses },
        log: Log { steps },
    };
    Some(Draft::Inside(cert, session))
}

fn with_clause(mut session: Session, clause: Clause) -> Result<Session, NoMemory>
    requires { list_all (in_range session.formula.vars) clause.lits ≡ true }
    ensures { IfOk result (λ s. IsSession s session.query session.formula.vars
        (session.formula.clauses ++ clause ∷ []) session.log.steps) }
{
    session.formula.clauses.push(clause)?;
    Ok(session)
}

fn with_step(mut session: Session, step: Step) -> Result<Session, NoMemory>
    ensures { IfOk result (λ s. IsSession s session.query session.formula.vars
        session.formula.clauses (session.log.steps ++ step ∷ [])) }
{
    session.log.steps.push(step)?;
    Ok(session)
}

// What comes behind a whole session.
fn closed(
    alloc: Global,
    mut cert: Cert,
    session: Session,
    line: &[u8],
) -> Result<Option<Draft>, NoMemory>
    ensures { IfOk result (λ o. IsReading (GoesOn (with_session cert session) line.now) o) }
{
    cert.sessions.push(session)?;
    gone_on(alloc, cert, line)
}

// The clauses of the formula come before those of the log.
fn more_clauses(alloc: Global, session: &Session, line: &[u8]) -> Result<Option<Clause>, NoMemory>
    ensures { IfOk result (λ o. IsReading (λ k. (session.now.log.steps ≡ [])
        × SpellsClause session.now.formula.vars line.now k) o) }
{
    if session.log.steps.len() > 0 {
        return Ok(None);
    }
    read_clause(alloc, session.formula.vars, line)
}

// The number of the next clause.
fn number_of_next(session: &Session) -> usize
    ensures { result ≡ next_number session.now }
{
    session.formula.clauses.count() as usize + session.log.steps.count() as usize + 1
}

fn more_steps(alloc: Global, session: &Session, line: &[u8]) -> Result<Option<Step>, NoMemory>
    ensures { IfOk result (λ o. IsReading (SpellsStep session.now.formula.vars
        (next_number session.now) line.now) o) }
{
    let own_number = number_of_next(session);
    read_step(alloc, session.formula.vars, own_number, line)
}

fn inside(
    alloc: Global,
    cert: Cert,
    session: Session,
    line: &[u8],
) -> Result<Option<Draft>, NoMemory>
    ensures { IfOk result (λ o. IsReading (Next (draft.Inside cert session) line.now) o) }
{
    if let Some(clause) = more_clauses(alloc, &session, line)? {
        return Ok(Some(Draft::Inside(cert, with_clause(session, clause)?)));
    }
    if session.formula.clauses.len() == 0 {
        return Ok(None);
    }
    if let Some(step) = more_steps(alloc, &session, line)? {
        return Ok(Some(Draft::Inside(cert, with_step(session, step)?)));
    }
    closed(alloc, cert, session, line)
}

impl Draft {
    /// The draft with one line more, if the line can come next.
    pub(crate) fn next(self, alloc: Global, line: &[u8]) -> Result<Option<Draft>, NoMemory>
        requires { length line.now ≤ 1073741824 }
        ensures { IfOk result (λ o. IsReading (Next self line.now) o) }
    {
        match self {
            Draft::Start if line == b"mpycert 1".as_slice() => Ok(Some(Draft::Opened)),
            Draft::Start => Ok(None),
            Draft::Opened => Ok(claimed(alloc, line)),
            Draft::Claimed(cost) => selected(alloc, cost, line),
            Draft::Cases(cert) => more_cases(alloc, cert, line),
            Draft::Asked(cert, query) => Ok(numbered(alloc, cert, query, line)),
            Draft::Inside(cert, session) => inside(alloc, cert, session, line),
            Draft::Whole(_) => Ok(None),
        }
    }
}
