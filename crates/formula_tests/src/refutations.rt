ghost use Rattle.std.specs.Prelude.{◌≡◌, []};

use refutation_checker::{
    Check, Log, QueryName, Recheck, Section, Step, Trail, certificate_head, check, follows,
    print_section, read_certificate, recheck,
};
use sat_formula::{Clause, Clauses, Cnf, Lit};
use std::alloc::{AllocError, Global};
use std::test::Fail;
use tla_values::List;

// Literals as DIMACS writes them: from 1 on, negative for a negation.
fn clause(alloc: Global, lits: &[i32]) -> Result<Clause, AllocError> {
    let mut made = Vec::new(alloc);
    for l in lits {
        if *l > 0 && *l < 1000 {
            made.push(Lit {
                var: (*l - 1) as usize,
                neg: false,
            })?;
        } else if *l < 0 && *l > -1000 {
            made.push(Lit {
                var: (-*l - 1) as usize,
                neg: true,
            })?;
        }
    }
    Ok(Clause::from_vec(made))
}

fn step(alloc: Global, id: u64, lits: &[i32], hints: &[u64]) -> Result<Step, AllocError> {
    let lits = clause(alloc, lits)?;
    let hints = List::from_vec(Vec::from_slice(alloc, hints)?);
    Ok(Step { id, lits, hints })
}

// The four clauses over two variables, which no assignment satisfies.
fn four(alloc: Global) -> Result<Cnf, AllocError> {
    let mut clauses = Clauses::new(alloc);
    clauses.push(clause(alloc, &[1, 2])?)?;
    clauses.push(clause(alloc, &[-1, 2])?)?;
    clauses.push(clause(alloc, &[1, -2])?)?;
    clauses.push(clause(alloc, &[-1, -2])?)?;
    Ok(Cnf { vars: 2, clauses })
}

// The answer to this first step and the empty clause with these hints.
fn answer(alloc: Global, first: Step, hints: &[u64]) -> Result<Check, AllocError> {
    let mut steps = Vec::new(alloc);
    steps.push(first)?;
    steps.push(step(alloc, 6, &[], hints)?)?;
    check(alloc, &four(alloc)?, &Log::from_vec(steps))
}

// A step's number, literals and hints, the hints of the empty clause behind it, and the answer.
type Case<'a> = (u64, &'a [i32], &'a [u64], &'a [u64], Check);

// The first case that is answered otherwise, from 0.
fn first_wrong(alloc: Global, cases: &[Case]) -> Result<Option<usize>, AllocError> {
    for i in 0..cases.len() {
        let case = &cases[i];
        let first = step(alloc, case.0, case.1, case.2)?;
        if answer(alloc, first, case.3)? != case.4 {
            return Ok(Some(i));
        }
    }
    Ok(None)
}

const CASES: [Case<'static>; 11] = [
    // a refutation, and one in which a literal is named twice and counts once
    (5, &[2], &[1, 2], &[5, 3, 4], Check::Yes),
    (5, &[2, 2], &[1, 2], &[5, 3, 4], Check::Yes),
    // negated, not false at the end, its own number, a literal beside its negation, no hints, number 0, a number that is
    // not the next
    (5, &[-2], &[1, 2], &[5, 3, 4], Check::No(5)),
    (5, &[2], &[1], &[5, 3, 4], Check::No(5)),
    (5, &[2], &[1, 5], &[5, 3, 4], Check::No(5)),
    (5, &[2, -2], &[1, 2], &[5, 3, 4], Check::No(5)),
    (5, &[2], &[], &[5, 3, 4], Check::No(5)),
    (5, &[2], &[0, 1, 2], &[5, 3, 4], Check::No(5)),
    (7, &[2], &[1, 2], &[5, 3, 4], Check::No(7)),
    // the first hint's clause has two literals that are not false
    (5, &[2], &[1, 2], &[3, 5, 3, 4], Check::No(6)),
    // a hint after the clause that is false
    (5, &[2], &[1, 2], &[5, 3, 4, 1], Check::No(6)),
];

#[test]
fn a_refutation_is_accepted_and_the_first_wrong_step_named(rt: HostRuntime) -> Result<(), Fail> {
    assert_eq!(rt; first_wrong(rt.alloc(), &CASES)?, None);
    Ok(())
}

// Whether this step of one literal follows from the four clauses.
fn asked(alloc: Global, trail: &mut Trail, id: u64, lit: i32, hint: u64) -> Result<bool, AllocError>
    requires { trail.old ≡ [] }
    ensures { trail.new ≡ [] }
{
    let one = step(alloc, id, &[lit], &[hint, hint.saturating_add(1)])?;
    let formula = four(alloc)?;
    follows(formula.clauses.clauses(), &[], &one, trail)
}

// One trail serves all steps.
#[test]
fn steps_are_asked_one_by_one(rt: HostRuntime) -> Result<(), Fail> {
    let alloc = rt.alloc();
    let mut trail = Trail::new(alloc, 1)?;
    let first = asked(alloc, &mut trail, 5, 2, 1)?;
    let wrong_number = asked(alloc, &mut trail, 6, 2, 1)?;
    let wrong_hints = asked(alloc, &mut trail, 5, 2, 3)?;
    let last = asked(alloc, &mut trail, 5, -2, 3)?;
    assert_eq!(rt;
        (first, wrong_number, wrong_hints, last),
        (true, false, false, true)
    );
    Ok(())
}

#[test]
fn a_log_without_the_empty_clause_is_open(rt: HostRuntime) -> Result<(), Fail> {
    let alloc = rt.alloc();
    let none = Log::from_vec(Vec::new(alloc));
    assert_eq!(rt; check(alloc, &four(alloc)?, &none)?, Check::Open);
    let mut steps = Vec::new(alloc);
    steps.push(step(alloc, 5, &[2], &[1, 2])?)?;
    assert_eq!(rt;
        check(alloc, &four(alloc)?, &Log::from_vec(steps))?,
        Check::Open
    );
    Ok(())
}

#[test]
fn a_refuted_section_is_printed(rt: HostRuntime) -> Result<(), Fail> {
    let alloc = rt.alloc();
    let mut steps = Vec::new(alloc);
    steps.push(step(alloc, 5, &[2], &[1, 2])?)?;
    steps.push(step(alloc, 6, &[], &[5, 3, 4])?)?;
    let section = Section {
        level: 0,
        typed: false,
        query: QueryName::InvNotTrue,
        formula: four(alloc)?,
        log: Log::from_vec(steps),
        is_open: false,
    };
    let text =
        b"query 0 inv-false\np cnf 2 4\n1 2 0\n-1 2 0\n1 -2 0\n-1 -2 0\nlog\n5 2 0 1 2 0\n6 0 5 3 4 0\nend\n";
    assert_eq!(rt; print_section(alloc, &section)?.as_slice(), text.as_slice());
    assert_eq!(rt; certificate_head(), b"tla-refutation 1\n".as_slice());
    Ok(())
}

// The text of an open section with the greatest variable, without steps.
fn open_text(
    alloc: Global,
    level: u32,
    typed: bool,
    query: QueryName,
) -> Result<Vec<u8>, AllocError> {
    let mut lits = Vec::new(alloc);
    lits.push(Lit {
        var: usize::MAX,
        neg: true,
    })?;
    let mut clauses = Clauses::new(alloc);
    clauses.push(Clause::from_vec(lits))?;
    let section = Section {
        level,
        typed,
        query,
        formula: Cnf { vars: 7, clauses },
        log: Log::from_vec(Vec::new(alloc)),
        is_open: true,
    };
    print_section(alloc, &section)
}

fn is_printed(
    alloc: Global,
    level: u32,
    typed: bool,
    query: QueryName,
    text: &str,
) -> Result<bool, AllocError> {
    let printed = open_text(alloc, level, typed, query)?;
    Ok(printed.as_slice() == text.as_bytes())
}

const WRONG: &str = "query 4294967295 step-wrong\np cnf 7 1\n-18446744073709551616 0\nlog\nopen\n";

const BIG: &str = "query 10 step-big\np cnf 7 1\n-18446744073709551616 0\nlog\nopen\n";

const INVARIANT: &str = "query typed inv-big\np cnf 7 1\n-18446744073709551616 0\nlog\nopen\n";

const ASSUMPTION: &str = "query typed assume-big\np cnf 7 1\n-18446744073709551616 0\nlog\nopen\n";

#[test]
fn each_question_has_its_words(rt: HostRuntime) -> Result<(), Fail> {
    let alloc = rt.alloc();
    assert!(rt; is_printed(alloc, u32::MAX, false, QueryName::StepWrong, WRONG)?);
    assert!(rt; is_printed(alloc, 10, false, QueryName::StepBig, BIG)?);
    assert!(rt; is_printed(alloc, 0, true, QueryName::InvBig, INVARIANT)?);
    assert!(rt; is_printed(alloc, 0, true, QueryName::AssumeBig, ASSUMPTION)?);
    Ok(())
}

// A certificate of one refuted section, line by line.
const LINES: [&str; 11] = [
    "tla-refutation 1",
    "query 0 inv-false",
    "p cnf 2 4",
    "1 2 0",
    "-1 2 0",
    "1 -2 0",
    "-1 -2 0",
    "log",
    "5 2 0 1 2 0",
    "6 0 5 3 4 0",
    "end",
];

// The text of the lines up to `from`, this text, and the lines from `to` on.
fn spliced(alloc: Global, from: usize, text: &str, to: usize) -> Result<Vec<u8>, AllocError> {
    let mut bytes = Vec::new(alloc);
    for (i, line) in LINES.iter().enumerate() {
        if i == from {
            bytes.extend_from_slice(text.as_bytes())?;
        }
        if i < from || i >= to {
            bytes.extend_from_slice(line.as_bytes())?;
            bytes.push(b'\n')?;
        }
    }
    if from >= LINES.len() {
        bytes.extend_from_slice(text.as_bytes())?;
    }
    Ok(bytes)
}

// The answer to the certificate with this text in place of its lines from `from` to before `to`.
fn answer_to(alloc: Global, from: usize, text: &str, to: usize) -> Result<Recheck, AllocError> {
    recheck(alloc, &spliced(alloc, from, text, to)?)
}

#[test]
fn a_certificate_is_accepted_with_its_counts(rt: HostRuntime) -> Result<(), Fail> {
    let alloc = rt.alloc();
    let second = "query typed assume-big\np cnf 0 1\n0\nlog\n1 0 1 0\nend\n";
    let open = "query 4294967295 step-big\np cnf 2147483647 0\nlog\nopen\n";
    for (from, text, to, want) in [
        (11, "", 11, Recheck::Accepted(1, 0)),
        (9, "open\n", 11, Recheck::Accepted(0, 1)),
        (8, "open\n", 11, Recheck::Accepted(0, 1)),
        (1, "", 11, Recheck::Accepted(0, 0)),
        (11, open, 11, Recheck::Accepted(1, 1)),
        (11, second, 11, Recheck::BadStep(2, 1)),
        (2, "p cnf 2147483647 4\n", 3, Recheck::Accepted(1, 0)),
        (1, "query typed step-wrong\n", 2, Recheck::Accepted(1, 0)),
        // a literal that is named twice, and a step after the empty clause
        (8, "5 2 2 0 1 2 0\n", 9, Recheck::Accepted(1, 0)),
        (10, "7 0 5 3 4 0\nend\n", 11, Recheck::Accepted(1, 0)),
    ] {
        assert_eq!(rt; answer_to(alloc, from, text, to)?, want, "{text}");
    }
    Ok(())
}

#[test]
fn the_first_step_that_does_not_follow_is_named(rt: HostRuntime) -> Result<(), Fail> {
    let alloc = rt.alloc();
    for (from, text, to, want) in [
        (8, "5 -2 0 1 2 0\n", 9, Recheck::BadStep(1, 5)),
        (9, "6 0 3 5 3 4 0\n", 10, Recheck::BadStep(1, 6)),
        (8, "5 2 0 1 5 0\n", 9, Recheck::BadStep(1, 5)),
        (8, "0 2 0 1 2 0\n", 9, Recheck::BadStep(1, 0)),
        (
            8,
            "9223372036854775807 2 0 1 2 0\n",
            9,
            Recheck::BadStep(1, 9223372036854775807),
        ),
        (
            8,
            "5 2 0 9223372036854775807 0\n",
            9,
            Recheck::BadStep(1, 5),
        ),
    ] {
        assert_eq!(rt; answer_to(alloc, from, text, to)?, want, "{text}");
    }
    Ok(())
}

#[test]
fn a_certificate_that_is_cut_lacks_its_next_line(rt: HostRuntime) -> Result<(), Fail> {
    let alloc = rt.alloc();
    for (lines, want) in [
        (0, Recheck::BadLine(1)),
        (1, Recheck::Accepted(0, 0)),
        (2, Recheck::BadLine(3)),
        (3, Recheck::BadLine(4)),
        (4, Recheck::BadLine(5)),
        (5, Recheck::BadLine(6)),
        (6, Recheck::BadLine(7)),
        (7, Recheck::BadLine(8)),
        (8, Recheck::BadLine(9)),
        (9, Recheck::BadLine(10)),
        (10, Recheck::BadLine(11)),
    ] {
        assert_eq!(rt; answer_to(alloc, lines, "", 11)?, want, "{lines}");
    }
    Ok(())
}

#[test]
fn the_first_line_outside_the_grammar_is_named(rt: HostRuntime) -> Result<(), Fail> {
    let alloc = rt.alloc();
    for (from, text, to, line) in [
        // the first line, and no line feed at the end
        (0, "tla-refutation 2\n", 1, 1),
        (0, " tla-refutation 1\n", 1, 1),
        (10, "end", 11, 11),
        (11, "\n", 11, 12),
        (11, "query", 11, 12),
        // levels and kinds
        (1, "query 4294967296 inv-false\n", 2, 2),
        (1, "query 00 inv-false\n", 2, 2),
        (1, "query -1 inv-false\n", 2, 2),
        (1, "query 0 inv-true\n", 2, 2),
        (1, "query 0  inv-false\n", 2, 2),
        // the numbers of variables and clauses
        (2, "p cnf 2147483648 4\n", 3, 3),
        (2, "p cnf 2 9223372036854775808\n", 3, 3),
        (2, "p cnf 2 9223372036854775807\n", 3, 8),
        (2, "p cnf 2 5\n", 3, 8),
        (2, "p cnf 2 3\n", 3, 7),
        (2, "p cnf 1 4\n", 3, 4),
        (2, "p cnf 2 18446744073709551616\n", 3, 3),
    ] {
        assert_eq!(rt;
            answer_to(alloc, from, text, to)?,
            Recheck::BadLine(line),
            "{text}"
        );
    }
    Ok(())
}

#[test]
fn clauses_steps_and_ends_have_their_forms(rt: HostRuntime) -> Result<(), Fail> {
    let alloc = rt.alloc();
    for (from, text, to, line) in [
        (3, "1 3 0\n", 4, 4),
        (3, "1 -0 2 0\n", 4, 4),
        (3, "01 2 0\n", 4, 4),
        (3, "1 2\n", 4, 4),
        (3, "1 2 0 \n", 4, 4),
        (3, "1 2 0\r\n", 4, 4),
        (8, "05 2 0 1 2 0\n", 9, 9),
        (8, "5 2 0 01 2 0\n", 9, 9),
        (8, "5 2 0 1 0 2 0\n", 9, 9),
        (8, "5 2 0 1 2\n", 9, 9),
        (8, "5 3 0 1 2 0\n", 9, 9),
        (8, "9223372036854775808 2 0 1 2 0\n", 9, 9),
        (8, "5 2 0 9223372036854775808 0\n", 9, 9),
        // `end` behind a step with literals or none, `open` behind one without
        (9, "", 10, 10),
        (8, "", 10, 9),
        (10, "open\n", 11, 11),
        (9, "6 0 5 3 4 0\n7 1 0 5 3 4 0\nopen\n", 11, 12),
    ] {
        assert_eq!(rt;
            answer_to(alloc, from, text, to)?,
            Recheck::BadLine(line),
            "{text}"
        );
    }
    Ok(())
}

// Line 1 and the sections that are read from the text, printed again.
fn printed_again(alloc: Global, text: &[u8]) -> Result<Option<Vec<u8>>, AllocError> {
    let Ok(certificate) = read_certificate(alloc, text) else {
        return Ok(None);
    };
    let mut bytes = Vec::from_slice(alloc, certificate_head())?;
    for s in certificate.as_slice() {
        bytes.extend_from_slice(print_section(alloc, s)?.as_slice())?;
    }
    Ok(Some(bytes))
}

#[test]
fn what_is_read_is_printed_again(rt: HostRuntime) -> Result<(), Fail> {
    let alloc = rt.alloc();
    let typed = "query typed assume-big\np cnf 7 2\n-7 1 0\n0\nlog\n0 1 -1 0 9 0\nopen\n";
    let text = spliced(alloc, 11, typed, 11)?;
    let again = printed_again(alloc, &text)?.ok_or("no certificate")?;
    assert_eq!(rt; again.as_slice(), text.as_slice());
    Ok(())
}

#[test]
fn ten_thousand_sections_on_the_greatest_variable_are_checked_at_once(
    rt: HostRuntime,
) -> Result<(), Fail> {
    let alloc = rt.alloc();
    let section =
        b"query 0 inv-false\np cnf 2147483647 2\n2147483647 0\n-2147483647 0\nlog\n3 0 1 2 0\nend\n";
    let mut bytes = Vec::from_slice(alloc, certificate_head())?;
    for _ in 0..10_000 {
        bytes.extend_from_slice(section)?;
    }
    assert_eq!(rt; recheck(alloc, &bytes)?, Recheck::Accepted(10_000, 0));
    Ok(())
}
