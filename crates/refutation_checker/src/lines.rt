//! The lines of a section, each read exactly: the value that a line spells, or that it spells none.

ghost use Rattle.std.specs.Prelude.{◌≡◌, ◌<◌, ◌^◌, MatchOption, IfOk, All};
ghost use Rattle.sat_formula.specs.Lit.{IsBelow};
ghost use Rattle.refutation_checker.specs.Certificate.{IsStep, clause_text, kind_text, step_text};
ghost use Rattle.refutation_checker.specs.inner.Reading.{Spells, SpellsNone};
ghost use Rattle.refutation_checker.specs.inner.Lines.{IsHeader, IsLevel, IsQuestion, header_line, level_word, question_line};

use crate::log::Step;
use crate::printing::kind_name;
use crate::section::QueryName;
use crate::words::{after, cut, hints, is, lits, number};
use sat_formula::Clause;
use std::alloc::{AllocError, Global};
use tla_values::List;

/// What a section's first line says.
#[derive(Clone, Copy, Debug)]
pub(crate) struct Question {
    pub level: u32,
    pub typed: bool,
    pub query: QueryName,
}

/// The numbers of variables and of clauses.
#[derive(Clone, Copy, Debug)]
pub(crate) struct Header {
    pub vars: usize,
    pub clauses: u64,
}

// Whether it is the word `typed`, and the level, which is 0 there.
fn read_level(word: &[u8]) -> Option<(bool, u32)>
    ensures { MatchOption result (SpellsNone level_word IsLevel word.now) (Spells level_word IsLevel word.now) }
{
    if is(word, b"typed") {
        return Some((true, 0));
    }
    match number(word, 1 << 32) {
        Some(n) => Some((false, n as u32)),
        None => None,
    }
}

fn read_kind(word: &[u8]) -> Option<QueryName>
    ensures { MatchOption result ((q : QueryName) → word.now ≡ kind_text q → ⊥) (λ q. word.now ≡ kind_text q) }
{
    if is(word, kind_name(QueryName::StepWrong)) {
        Some(QueryName::StepWrong)
    } else if is(word, kind_name(QueryName::StepBig)) {
        Some(QueryName::StepBig)
    } else if is(word, kind_name(QueryName::InvNotTrue)) {
        Some(QueryName::InvNotTrue)
    } else if is(word, kind_name(QueryName::InvBig)) {
        Some(QueryName::InvBig)
    } else if is(word, kind_name(QueryName::AssumeBig)) {
        Some(QueryName::AssumeBig)
    } else {
        None
    }
}

pub(crate) fn read_question(line: &[u8]) -> Option<Question>
    ensures { MatchOption result (SpellsNone question_line IsQuestion line.now)
        (Spells question_line IsQuestion line.now) }
{
    let words = after(line, b"query ")?;
    let (level_word, kind_word) = cut(words, b' ')?;
    let (typed, level) = read_level(level_word)?;
    let query = read_kind(kind_word)?;
    Some(Question {
        level,
        typed,
        query,
    })
}

pub(crate) fn read_header(line: &[u8]) -> Option<Header>
    ensures { MatchOption result (SpellsNone header_line IsHeader line.now)
        (Spells header_line IsHeader line.now) }
{
    let words = after(line, b"p cnf ")?;
    let (vars_word, clauses_word) = cut(words, b' ')?;
    let vars = number(vars_word, 1 << 31)?;
    let clauses = number(clauses_word, 1 << 63)?;
    Some(Header {
        vars: vars as usize,
        clauses,
    })
}

pub(crate) fn read_clause(
    alloc: Global,
    line: &[u8],
    vars: usize,
) -> Result<Option<Clause>, AllocError>
    requires { vars < 2 ^ 31 }
    ensures { IfOk result (λ o. MatchOption o (SpellsNone clause_text (All (IsBelow vars)) line.now)
        (Spells clause_text (All (IsBelow vars)) line.now)) }
{
    let Some((lits, behind)) = lits(alloc, line, vars)? else {
        return Ok(None);
    };
    match behind {
        Some(_) => Ok(None),
        None => Ok(Some(Clause::from_vec(lits))),
    }
}

pub(crate) fn read_step(alloc: Global, line: &[u8], vars: usize) -> Result<Option<Step>, AllocError>
    requires { vars < 2 ^ 31 }
    ensures { IfOk result (λ o. MatchOption o (SpellsNone step_text (IsStep vars) line.now)
        (Spells step_text (IsStep vars) line.now)) }
{
    let Some((id_word, words)) = cut(line, b' ') else {
        return Ok(None);
    };
    let Some(id) = number(id_word, 1 << 63) else {
        return Ok(None);
    };
    let Some((lits, behind)) = lits(alloc, words, vars)? else {
        return Ok(None);
    };
    let Some(hint_words) = behind else {
        return Ok(None);
    };
    let Some((hints, behind)) = hints(alloc, hint_words)? else {
        return Ok(None);
    };
    match behind {
        Some(_) => Ok(None),
        None => Ok(Some(Step {
            id,
            lits: Clause::from_vec(lits),
            hints: List::from_vec(hints),
        })),
    }
}
