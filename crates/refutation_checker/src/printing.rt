//! The text of a certificate.

ghost use Rattle.std.specs.Prelude.{◌≡◌, ◌++◌, ◌∷◌, [], IfOk, OnOk, codes, decimal, flat_map};
ghost use Rattle.refutation_checker.specs.Certificate.{clause_text, end_text, first_line, header_text, kind_text, level_text, lit_text, query_text, section_text, step_text, text_of_lines};

use crate::log::Step;
use crate::section::{QueryName, Section};
use itoa::Buffer;
use sat_formula::{Clause, Lit};
use std::alloc::{AllocError, Global};

/// The first line of a certificate, with its line feed.
pub fn certificate_head() -> &'static [u8]
    ensures { result.now ≡ text_of_lines (first_line ∷ []) }
{
    b"tla-refutation 1\n"
}

/// The text of a section, each of its lines ended by a line feed: `query LEVEL KIND`,
/// `p cnf V C`, the C clauses, `log`, the steps, and `end` or `open`. A section in the grammar is
/// read back from it by [`read_certificate`](crate::read_certificate).
pub fn print_section(alloc: Global, section: &Section) -> Result<Vec<u8>, AllocError>
    ensures { IfOk result (λ bytes. bytes.items ≡ section_text section.now) }
{
    let mut out = Vec::new(alloc);
    let clauses = section.formula.clauses.clauses();
    print_query(section, &mut out)?;
    print_header(section.formula.vars, clauses.len(), &mut out)?;
    print_clauses(clauses, &mut out)?;
    append(b"log\n", &mut out)?;
    print_steps(section.log.as_slice(), &mut out)?;
    print_end(section.is_open, &mut out)?;
    Ok(out)
}

fn print_query(section: &Section, out: &mut Vec<u8>) -> Result<(), AllocError>
    ensures { OnOk result (out.new.items ≡ out.old.items ++ query_text section.now ++ 10 ∷ []) }
{
    append(b"query ", out)?;
    print_level(section.typed, section.level, out)?;
    append(b" ", out)?;
    append(kind_name(section.query), out)?;
    append(b"\n", out)
}

fn print_level(typed: bool, level: u32, out: &mut Vec<u8>) -> Result<(), AllocError>
    ensures { OnOk result (out.new.items ≡ out.old.items ++ level_text typed level) }
{
    if typed {
        append(b"typed", out)
    } else {
        print_number(level as u64, out)
    }
}

pub(crate) fn kind_name(query: QueryName) -> &'static [u8]
    ensures { result.now ≡ kind_text query }
{
    match query {
        QueryName::StepWrong => b"step-wrong",
        QueryName::StepBig => b"step-big",
        QueryName::InvNotTrue => b"inv-false",
        QueryName::InvBig => b"inv-big",
        QueryName::AssumeBig => b"assume-big",
    }
}

fn print_header(vars: usize, clauses: usize, out: &mut Vec<u8>) -> Result<(), AllocError>
    ensures { OnOk result (out.new.items ≡ out.old.items ++ header_text vars clauses ++ 10 ∷ []) }
{
    append(b"p cnf ", out)?;
    print_number(vars as u64, out)?;
    append(b" ", out)?;
    print_number(clauses as u64, out)?;
    append(b"\n", out)
}

fn print_clauses(clauses: &[Clause], out: &mut Vec<u8>) -> Result<(), AllocError>
    ensures { OnOk result
        (out.new.items ≡ out.old.items ++ flat_map (λ c. clause_text c ++ 10 ∷ []) clauses.now) }
{
    for c in clauses {
        print_clause_line(c.lits(), out)?;
    }
    Ok(())
}

fn print_clause_line(lits: &[Lit], out: &mut Vec<u8>) -> Result<(), AllocError>
    ensures { OnOk result (out.new.items ≡ out.old.items ++ (clause_text lits.now ++ 10 ∷ [])) }
{
    print_lits(lits, out)?;
    append(b"0\n", out)
}

fn print_steps(steps: &[Step], out: &mut Vec<u8>) -> Result<(), AllocError>
    ensures { OnOk result
        (out.new.items ≡ out.old.items ++ flat_map (λ s. step_text s ++ 10 ∷ []) steps.now) }
{
    for s in steps {
        print_step_line(s, out)?;
    }
    Ok(())
}

fn print_step_line(step: &Step, out: &mut Vec<u8>) -> Result<(), AllocError>
    ensures { OnOk result (out.new.items ≡ out.old.items ++ (step_text step.now ++ 10 ∷ [])) }
{
    print_number(step.id, out)?;
    append(b" ", out)?;
    print_lits(step.lits.lits(), out)?;
    append(b"0 ", out)?;
    print_hints(step.hints.as_slice(), out)?;
    append(b"0\n", out)
}

// Each literal with a blank after it.
fn print_lits(lits: &[Lit], out: &mut Vec<u8>) -> Result<(), AllocError>
    ensures { OnOk result
        (out.new.items ≡ out.old.items ++ flat_map (λ l. lit_text l ++ codes " ") lits.now) }
{
    for l in lits {
        print_lit(*l, out)?;
    }
    Ok(())
}

fn print_lit(l: Lit, out: &mut Vec<u8>) -> Result<(), AllocError>
    ensures { OnOk result (out.new.items ≡ out.old.items ++ (lit_text l ++ codes " ")) }
{
    if l.neg {
        append(b"-", out)?;
    }
    let mut buffer = Buffer::new();
    append(buffer.format(l.var as u128 + 1).as_bytes(), out)?;
    append(b" ", out)
}

// Each hint with a blank after it.
fn print_hints(hints: &[u64], out: &mut Vec<u8>) -> Result<(), AllocError>
    ensures { OnOk result
        (out.new.items ≡ out.old.items ++ flat_map (λ h. decimal h ++ codes " ") hints.now) }
{
    for h in hints {
        print_hint(*h, out)?;
    }
    Ok(())
}

fn print_hint(h: u64, out: &mut Vec<u8>) -> Result<(), AllocError>
    ensures { OnOk result (out.new.items ≡ out.old.items ++ (decimal h ++ codes " ")) }
{
    print_number(h, out)?;
    append(b" ", out)
}

fn print_end(is_open: bool, out: &mut Vec<u8>) -> Result<(), AllocError>
    ensures { OnOk result (out.new.items ≡ out.old.items ++ end_text is_open ++ 10 ∷ []) }
{
    if is_open {
        append(b"open\n", out)
    } else {
        append(b"end\n", out)
    }
}

fn print_number(n: u64, out: &mut Vec<u8>) -> Result<(), AllocError>
    ensures { OnOk result (out.new.items ≡ out.old.items ++ decimal n) }
{
    let mut buffer = Buffer::new();
    append(buffer.format(n).as_bytes(), out)
}

fn append(bytes: &[u8], out: &mut Vec<u8>) -> Result<(), AllocError>
    ensures { OnOk result (out.new.items ≡ out.old.items ++ bytes.now) }
{
    out.extend_from_slice(bytes)
}
