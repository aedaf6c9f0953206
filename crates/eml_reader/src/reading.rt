//! Rules read from their file.
ghost use Rattle.std.specs.Prelude.{◌≡◌, ◌≤◌, ◌++◌, ◌∷◌, [], ℕ, List, None, Ok, length, map};
ghost use Rattle.std.specs.Prelude.{IfOk, IfErr};
ghost use Rattle.mpy_tree.specs.declared.refusal.Cause.{Cause as AnyCause};
ghost use Rattle.mpy_lexer.specs.declared.forms.Form.TheVariants as form;
ghost use Rattle.mpy_lexer.specs.declared.line.Line.{Line as AnyLine};
ghost use Rattle.mpy_lexer.specs.Lexing.{lex};
ghost use Rattle.choice_tree.specs.Templates.{Correction};
ghost use Rattle.choice_tree.specs.RuleViews.{correction_of, corrections_of};
ghost use Rattle.eml_reader.specs.RuleFiles.{IsAnswered, IsGiven, IsRefusal, IsRefused, IsRules};
ghost use Rattle.eml_reader.specs.RuleFiles.{SpellsFile, lexing_cause};
ghost use Rattle.eml_reader.specs.RuleReading.{behind, rules_behind, rules_of};
ghost use Rattle.eml_reader.specs.RuleLines.{with_message};
ghost use Rattle.eml_reader.specs.ReadingViews.{IsMisspelled, after, with_rest};

use crate::NoMemory;
use crate::rule_error::RuleError;
use crate::rule_lines::{message_of, rule_of};
use choice_tree::{Rule, Rules};
use eml_faults::{limit_line, meaning_fault};
use mpy_lexer::{Form, LexCause, LexError, Line, lines};
use mpy_tree::{Cause, Chars};
use std::alloc::Global;

/// The rules of the lines so far. The last one stands apart while the next line may be its message.
#[derive(Drop)]
pub(crate) struct Reading {
    pub(crate) rules: Vec<Rule>,
    pub(crate) open: Option<Rule>,
}

// The rules with one more line, if it spells a rule or the message of the rule before it.
fn with_line(alloc: Global, read: Reading, line: &Line) -> Result<Option<Reading>, NoMemory>
    ensures { IfOk result (λ r. (ls : List AnyLine) → with_rest read (line.now ∷ ls) ≡ after
        line.now r ls) }
{
    let Reading { rules, open } = read;
    match open {
        None => with_rule(alloc, rules, line),
        Some(rule) => match message_of(alloc, line)? {
            None => {
                let rules = pushed(rules, rule)?;
                with_rule(alloc, rules, line)
            }
            Some(text) => {
                let rules = pushed(rules, with_message(rule, text))?;
                Ok(Some(Reading { rules, open: None }))
            }
        },
    }
}

fn with_message(rule: Rule, text: Chars) -> Rule
    ensures { correction_of result ≡ with_message (correction_of rule) text }
{
    let mut said = rule;
    said.say = Some(text);
    said
}

fn pushed(rules: Vec<Rule>, rule: Rule) -> Result<Vec<Rule>, NoMemory>
    ensures { IfOk result (λ v. map correction_of v.items ≡ map correction_of rules.items ++
        correction_of rule ∷ []) }
{
    let mut all = rules;
    all.push(rule)?;
    Ok(all)
}

// The rules with the rule of a line, if it spells one.
fn with_rule(alloc: Global, rules: Vec<Rule>, line: &Line) -> Result<Option<Reading>, NoMemory>
    ensures { IfOk result (λ r. (ls : List AnyLine) → behind (map correction_of rules.items)
        (rules_behind None (line.now ∷ ls)) ≡ after line.now r ls) }
{
    match rule_of(alloc, line)? {
        None => Ok(None),
        Some(rule) => Ok(Some(Reading {
            rules,
            open: Some(rule),
        })),
    }
}

// All rules, the last one too.
fn closed(read: Reading) -> Result<Vec<Rule>, NoMemory>
    ensures { IfOk result (λ v. with_rest read [] ≡ Ok (map correction_of v.items)) }
{
    let Reading { rules, open } = read;
    match open {
        None => Ok(rules),
        Some(rule) => pushed(rules, rule),
    }
}

// The rules of logical lines.
fn rules_of(alloc: Global, lines: &[Line]) -> Result<Vec<Rule>, RuleError>
    ensures read { IfOk result (λ v. rules_of lines.now ≡ Ok (map correction_of v.items)) }
    ensures refused { IfErr result (IsMisspelled lines.now) }
{
    let mut read = Reading {
        rules: Vec::new(alloc),
        open: None,
    };
    for line in lines {
        match with_line(alloc, read, line)? {
            None => return Err(RuleError::Fault {
                cause: Cause::Syntax,
                line: line.line,
            }),
            Some(next) => read = next,
        }
    }
    Ok(closed(read)?)
}

fn cause_of(cause: LexCause) -> Cause
    ensures { result ≡ lexing_cause cause }
{
    match cause {
        LexCause::Byte => Cause::Byte,
        LexCause::Tab => Cause::Tab,
        LexCause::Token => Cause::Token,
        LexCause::LongLine => Cause::Limit,
    }
}

fn logical_lines(alloc: Global, bytes: &[u8]) -> Result<Vec<Line>, RuleError>
    requires { length bytes.now ≤ 1073741824 }
    ensures ok { IfOk result (λ v. lex form.Rules bytes.now ≡ Ok v.items) }
    ensures err { IfErr result (IsAnswered bytes.now) }
{
    match lines(alloc, bytes, Form::Rules) {
        Ok(found) => Ok(found),
        Err(LexError::NoMemory) => Err(RuleError::NoMemory),
        Err(LexError::Fault { cause, line }) => Err(RuleError::Fault {
            cause: cause_of(cause),
            line,
        }),
    }
}

// The rules that the lines spell.
fn spelled(alloc: Global, bytes: &[u8]) -> Result<Vec<Rule>, RuleError>
    requires { length bytes.now ≤ 1073741824 }
    ensures read { IfOk result (λ v. SpellsFile bytes.now (map correction_of v.items)) }
    ensures refused { IfErr result (IsAnswered bytes.now) }
{
    let lines = logical_lines(alloc, bytes)?;
    rules_of(alloc, &lines)
}

// One step after another, each over the whole file.
fn parse(alloc: Global, bytes: &[u8]) -> Result<Rules, RuleError>
    requires { length bytes.now ≤ 1073741824 }
    ensures read { IfOk result (λ p. IsRules bytes.now (corrections_of p)) }
    ensures refused { IfErr result (IsAnswered bytes.now) }
{
    let rules = spelled(alloc, bytes)?;
    match limit_line(&rules) {
        Some(line) => Err(RuleError::Fault {
            cause: Cause::Limit,
            line,
        }),
        None => match meaning_fault(alloc, &rules)? {
            None => Ok(Rules { items: rules }),
            Some(fault) => Err(RuleError::Fault {
                cause: fault.cause,
                line: fault.line,
            }),
        },
    }
}

/// Reads rules from their file, of at most 1,073,741,824 bytes.
///
/// The file is refused by the first cause that stands in it, each looked for in the whole file
/// before the next: `Byte`; `Token`; `Limit` for a line of more than 400 tokens; `Syntax` on the
/// first line that spells neither a rule nor the message of the rule before it; `Limit` for what
/// passes a limit of rules; and on the first rule that has one `RuleTwice`, `RuleMeta`,
/// `RulePrime`, `Name` or `Arity`.
pub fn read_rules(alloc: Global, bytes: &[u8]) -> Result<Rules, RuleError>
    requires { length bytes.now ≤ 1073741824 }
    ensures read { IfOk result (λ p. IsRules bytes.now (corrections_of p)) }
    ensures refused { IfErr result (IsAnswered bytes.now) }
    ensures rules { (rs : List Correction) → IsRules bytes.now rs → IsGiven rs result }
    ensures refusal { (c : AnyCause) (line : ℕ) → IsRefused bytes.now c line
        → IsRefusal c line result }
{
    parse(alloc, bytes)
}
