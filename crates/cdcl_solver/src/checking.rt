//! Whether a step follows, tested over the clauses of the search.
//!
//! What is learned is tested, so that nothing which the analysis does has to be believed. The solver
//! has this test of its own since its clauses are at hand as codes, which the analysis has just read.
//! The independent checker stays `refutation_checker`.

ghost use Rattle.std.specs.Prelude.{◌≡◌, ◌+◌, [], length, map, All, IsTrue, IfSome};
ghost use Rattle.sat_formula.specs.Lit.{IsBelow};
ghost use Rattle.refutation_checker.specs.Follows.{Follows, Propagates};
ghost use Rattle.watched_search.specs.Codes.{literal};
ghost use Rattle.watched_search.specs.Trail.{lits_of};
ghost use Rattle.cdcl_solver.specs.inner.Checking.{empty_trail, IsClauseOf, IsStatus, Assumes, IsAlone};

use refutation_checker::Step;
use sat_formula::Lit;
use watched_search::{Entry, Search, Trail, literal_of};

/// Whether the step follows from the clauses of the search. The trail is empty, and is so again at the
/// return. A step that names a literal twice, or a literal beside its negation, is refused. The time
/// goes by the literals of the step and of the clauses that its hints name.
pub fn follows(search: &Search, step: &Step, trail: &mut Trail) -> bool
    requires empty { trail.old ≡ empty_trail search.now.vars }
    requires below { All (IsBelow search.now.vars) step.now.lits }
    ensures follows { IsTrue result → Follows search.now.clauses step.now }
    ensures trail { trail.new ≡ trail.old }
{
    let followed = is_forced(search, step, trail);
    trail.back(0);
    followed
}

// What `follows` answers. What it made true is left on the trail.
fn is_forced(search: &Search, step: &Step, trail: &mut Trail) -> bool
    requires empty { trail.old ≡ empty_trail search.now.vars }
    requires below { All (IsBelow search.now.vars) step.now.lits }
    ensures follows { IsTrue result → Follows search.now.clauses step.now }
    ensures kept { trail.new ≡ record trail.old { entries = trail.new.entries } }
{
    is_next(search, step.id)
        && assume_false(step.lits.lits(), trail)
        && hints_work(search, step.hints.as_slice(), trail)
}

// Whether the number is the one behind that of the last clause.
fn is_next(search: &Search, id: u64) -> bool
    ensures { IsTrue result → id ≡ length search.now.clauses + 1 }
{
    id > 0 && (id - 1) as usize == search.count()
}

// Makes each literal false, unless one has a value already.
fn assume_false(lits: &[Lit], trail: &mut Trail) -> bool
    requires empty { trail.old.entries ≡ [] }
    requires below { All (IsBelow trail.old.room) lits.now }
    ensures assumed { IsTrue result → Assumes lits.now (lits_of trail.new.entries) }
    ensures kept { trail.new ≡ record trail.old { entries = trail.new.entries } }
{
    for l in lits {
        if trail.value(*l).is_some() {
            return false;
        }
        trail.push(Entry {
            lit: l.negated(),
            reason: None,
        });
    }
    true
}

// Whether each hint's clause is a unit under what the earlier ones made true, and the last one's
// is false.
fn hints_work(search: &Search, hints: &[u64], trail: &mut Trail) -> bool
    requires { trail.old.room ≡ search.now.vars }
    ensures works { IsTrue result →
        Propagates search.now.clauses (lits_of trail.old.entries) hints.now }
    ensures kept { trail.new ≡ record trail.old { entries = trail.new.entries } }
{
    for (i, number) in hints.iter().enumerate() {
        let Some(codes) = clause_of(search, *number) else {
            return false;
        };
        match status_of(codes, trail) {
            Status::Falsified => return i + 1 == hints.len(),
            Status::OneLeft(lit) => trail.push(Entry { lit, reason: None }),
            Status::Other => return false,
        }
    }
    false
}

// The codes of the clause with this number, from 1 on.
fn clause_of<'a>(search: &'a Search, number: u64) -> Option<&'a [u32]>
    ensures { IfSome result (λ codes. IsClauseOf search.now number codes.now) }
{
    if number == 0 || number as usize > search.count() {
        return None;
    }
    Some(search.codes(number as usize - 1))
}

// What a clause is under a trail: false, a unit with this literal, or neither.
#[derive(Clone, Copy, Debug)]
enum Status {
    Falsified,
    OneLeft(Lit),
    Other,
}

// What the clause of these codes is. Most of its literals are false, which is asked first.
fn status_of(codes: &[u32], trail: &Trail) -> Status
    requires { All (IsBelow trail.now.room) (map (λ n. literal n) codes.now) }
    ensures { IsStatus (lits_of trail.now.entries) (map (λ n. literal n) codes.now) result }
{
    let mut found: Option<u32> = None;
    for code in codes {
        if !trail.is_false(*code) {
            if trail.is_true(literal_of(*code as usize)) || !is_alone(found, *code) {
                return Status::Other;
            }
            found = Some(*code);
        }
    }
    match found {
        None => Status::Falsified,
        Some(code) => Status::OneLeft(literal_of(code as usize)),
    }
}

// Whether no other code was found. One that is named twice counts once.
fn is_alone(found: Option<u32>, code: u32) -> bool
    ensures { IsTrue result → IsAlone found code }
{
    match found {
        None => true,
        Some(other) => other == code,
    }
}
