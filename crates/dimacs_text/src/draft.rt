//! What the words of a formula's text have told so far.
ghost use Rattle.std.specs.Prelude.{◌≡◌, ◌≤◌, true};
ghost use Rattle.std.specs.List.{list_all};
ghost use Rattle.clause_base.specs.Formulas.{clauses_in_range, in_range};

use crate::NoMemory;
use crate::header::Header;
use crate::lines::{begins, first_word};
use crate::tidy::with_clause;
use clause_base::formula::{Clauses, Formula};
use clause_base::lit::Lit;
use clause_base::lits::Lits;
use std::alloc::Global;
use step_lines::literals::literal;

/// Whole clauses, and the literals of one that was begun.
#[derive(Drop)]
pub(crate) struct Draft {
    /// How many variables and clauses the header tells.
    vars: u32,
    count: u32,
    /// How many clauses were ended.
    done: u32,
    /// What is kept of them.
    clauses: Clauses,
    /// The literals of the clause that was begun, as they stand there.
    pending: Lits,
    ghost room: { done ≤ count },
    ghost kept_in_range: { clauses_in_range vars clauses ≡ true },
    ghost pending_in_range: { list_all (in_range vars) pending ≡ true },
}

impl Draft {
    ghost use Rattle.std.specs.Prelude.{◌≡◌, ◌∷◌, ◌<◌, [], IfOk, MatchOption, true};
    ghost use Rattle.clause_base.specs.Formulas.{in_range};
    ghost use Rattle.step_lines.specs.LineForms.{literal_text};
    ghost use Rattle.dimacs_text.specs.CnfDrafts.{Grows, IsDraft, IsFinished, IsStuck, IsStuckIn};
    ghost use Rattle.dimacs_text.specs.CnfDrafts.{IsUnfinished};
    ghost use Rattle.dimacs_text.specs.CnfTexts.{body_words, zero_word};
    ghost use Rattle.dimacs_text.specs.TextLines.{words_of};

    /// No clause of a formula with such a header, with room for as many as a text of so many bytes
    /// may have: the word that ends a clause takes a byte, and so does what stands before it.
    pub(crate) fn new(alloc: Global, header: Header, bytes: usize) -> Result<Draft, NoMemory>
        ensures vars { IfOk result (λ d. d.vars ≡ header.vars) }
        ensures count { IfOk result (λ d. d.count ≡ header.count) }
        ensures none { IfOk result (IsDraft []) }
    {
        let room = (header.count as usize).min(bytes / 2 + 1);
        let clauses = Clauses::with_capacity(alloc, room)?;
        Ok(Draft {
            vars: header.vars,
            count: header.count,
            done: 0,
            clauses,
            pending: Lits::new(alloc),
        })
    }

    fn with_literal(mut self, l: Lit) -> Result<Draft, NoMemory>
        requires more { self.done < self.count }
        requires within { in_range self.vars l ≡ true }
        ensures { IfOk result (λ d. Grows self (literal_text l ∷ []) d) }
    {
        self.pending.push(l)?;
        Ok(self)
    }

    fn with_end(self, alloc: Global) -> Result<Draft, NoMemory>
        requires { self.done < self.count }
        ensures { IfOk result (λ d. Grows self (zero_word ∷ []) d) }
    {
        let vars = self.vars;
        let count = self.count;
        let done = self.done + 1;
        let clauses = with_clause(alloc, self.clauses, self.pending.as_slice())?;
        Ok(Draft {
            vars,
            count,
            done,
            clauses,
            pending: Lits::new(alloc),
        })
    }

    // The draft with one word more, if the word can come next.
    fn with_word(self, alloc: Global, word: &[u8]) -> Result<Option<Draft>, NoMemory>
        ensures { IfOk result (λ o. MatchOption o
            (IsStuck self word.now)
            (λ d. Grows self (word.now ∷ []) d)) }
    {
        if self.done == self.count {
            return Ok(None);
        }
        if word == b"0".as_slice() {
            return Ok(Some(self.with_end(alloc)?));
        }
        match literal(self.vars, word) {
            Some(l) => Ok(Some(self.with_literal(l)?)),
            None => Ok(None),
        }
    }

    // The draft with the words of a line, if they can come next.
    fn with_words(self, alloc: Global, line: &[u8]) -> Result<Option<Draft>, NoMemory>
        ensures { IfOk result (λ o. MatchOption o
            (IsStuckIn self (words_of line.now))
            (λ d. Grows self (words_of line.now) d)) }
    {
        let mut draft = self;
        let mut rest = line;
        'words: loop {
            let Some(word) = first_word(rest) else {
                return Ok(Some(draft));
            };
            let Some(next) = draft.with_word(alloc, word.piece)? else {
                return Ok(None);
            };
            draft = next;
            rest = word.rest;
        }
    }

    /// The draft with the words of a line behind the header, if they can come next. A comment has
    /// none.
    pub(crate) fn with_line(self, alloc: Global, line: &[u8]) -> Result<Option<Draft>, NoMemory>
        ensures { IfOk result (λ o. MatchOption o
            (IsStuckIn self (body_words line.now))
            (λ d. Grows self (body_words line.now) d)) }
    {
        if begins(line, b'c') {
            return Ok(Some(self));
        }
        self.with_words(alloc, line)
    }

    /// The formula, where there are enough clauses and none is begun.
    pub(crate) fn finished(self) -> Option<Formula>
        ensures { MatchOption result (IsUnfinished self) (λ f. IsFinished self f) }
    {
        if self.done != self.count || !self.pending.as_slice().is_empty() {
            return None;
        }
        Some(Formula {
            vars: self.vars,
            clauses: self.clauses,
        })
    }
}
