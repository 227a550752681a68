//! What the solver answers, against known formulas, the plain solver and the plain search.

ghost use Rattle.std.specs.Prelude.{◌≡◌, ◌<◌, ◌≤◌};

use cdcl_solver::{Answer, solve};
use plain_search::search;
use refutation_checker::{Check, check};
use sat_formula::{Formula, Lit, value};
use std::alloc::{AllocError, Global};
use std::test::Fail;

// An answer, with whether it shows what it says, and the number of steps of an open log.
#[derive(Clone, Copy, Debug, PartialEq, Eq)]
enum Told {
    Sat(bool),
    Unsat(bool),
    Spent(usize),
    Misuse,
}

// What the solver answers.
fn answer_to(
    alloc: Global,
    f: &Formula,
    assume: Lit,
    budget: Option<u64>,
) -> Result<Told, AllocError> {
    if assume.var >= f.vars() {
        return Ok(Told::Misuse);
    }
    let answer = solve(alloc, f, assume, budget)?;
    shown(alloc, f, assume, answer)
}

// What the plain solver answers.
fn plain_answer_to(
    alloc: Global,
    f: &Formula,
    assume: Lit,
    budget: Option<u64>,
) -> Result<Told, AllocError> {
    if assume.var >= f.vars() {
        return Ok(Told::Misuse);
    }
    let answer = plain_solver::solve(alloc, f, assume, budget)?;
    shown(alloc, f, assume, answer)
}

fn shown(alloc: Global, f: &Formula, assume: Lit, answer: Answer) -> Result<Told, AllocError> {
    if assume.var >= f.vars() {
        return Ok(Told::Misuse);
    }
    match answer {
        Answer::Sat(a) => {
            let whole = a.values().len() == f.vars();
            Ok(Told::Sat(whole && f.satisfies(&a) && value(assume, &a)))
        }
        Answer::Unsat(log) => {
            let cnf = f.with_unit(alloc, assume)?;
            Ok(Told::Unsat(check(alloc, &cnf, &log)? == Check::Yes))
        }
        Answer::Spent(log) => Ok(Told::Spent(log.len())),
    }
}

// A formula with this many variables beside `top`.
fn formula_over(alloc: Global, count: u8) -> Result<Formula, AllocError> {
    let mut f = Formula::new(alloc)?;
    for _ in 0..count {
        let _ = f.fresh()?;
    }
    Ok(f)
}

// Adds a clause, where the formula has its variables.
fn add(f: &mut Formula, clause: &[Lit]) -> Result<(), AllocError> {
    let vars = f.vars();
    if clause.iter().all(|l| l.var < vars) {
        f.add(clause)?;
    }
    Ok(())
}

// Pigeon i sits in hole j.
fn sits(i: u8, j: u8) -> Lit {
    Lit {
        var: 4 * i as usize + j as usize + 1,
        neg: false,
    }
}

// Five pigeons, each in one of four holes, and no two in one.
fn pigeons(alloc: Global) -> Result<Formula, AllocError> {
    let mut f = formula_over(alloc, 20)?;
    for i in 0..5 {
        add(&mut f, &[sits(i, 0), sits(i, 1), sits(i, 2), sits(i, 3)])?;
        for other in 0..i {
            for j in 0..4 {
                add(&mut f, &[sits(i, j).negated(), sits(other, j).negated()])?;
            }
        }
    }
    Ok(f)
}

#[test]
fn five_pigeons_do_not_fit_into_four_holes(rt: HostRuntime) -> Result<(), Fail> {
    let f = pigeons(rt.alloc())?;
    let top = f.top();
    for (budget, wanted) in [
        (None, Told::Unsat(true)),
        (Some(1), Told::Spent(1)),
        (Some(0), Told::Spent(0)),
        (Some(1000), Told::Unsat(true)),
    ] {
        assert_eq!(rt; answer_to(rt.alloc(), &f, top, budget)?, wanted);
    }
    Ok(())
}

#[test]
fn three_of_the_four_clauses_over_two_variables_make_both_true(
    rt: HostRuntime,
) -> Result<(), Fail> {
    let mut f = Formula::new(rt.alloc())?;
    let x = f.fresh()?;
    let y = f.fresh()?;
    add(&mut f, &[x, y])?;
    add(&mut f, &[x.negated(), y])?;
    add(&mut f, &[x, y.negated()])?;
    let top = f.top();
    match solve(rt.alloc(), &f, top, None)? {
        Answer::Sat(a) => assert_eq!(rt; a.values(), [true, true, true].as_slice()),
        _ => assert!(rt; false),
    }
    add(&mut f, &[x.negated(), y.negated()])?;
    assert_eq!(rt; answer_to(rt.alloc(), &f, top, None)?, Told::Unsat(true));
    Ok(())
}

// A stream of pseudorandom numbers below a bound (the generator MMIX of Knuth, "The Art of Computer
// Programming", volume 2).
#[derive(Drop)]
struct Random {
    state: u64,
}

impl Random {
    fn below(&mut self, bound: u8) -> u8
        requires { 0 < bound }
        ensures { result < bound }
    {
        self.state = self
            .state
            .wrapping_mul(6364136223846793005)
            .wrapping_add(1442695040888963407);
        ((self.state >> 33) % bound as u64) as u8
    }
}

// Adds a random clause of two or three literals over the variables below `count`.
fn add_random_clause(random: &mut Random, f: &mut Formula, count: u8) -> Result<(), AllocError>
    requires { 0 < count }
{
    let mut lits = [f.top().negated(); 3];
    let length = if random.below(8) == 0 { 2 } else { 3 };
    for i in 0..length {
        lits[i] = random_literal(random, count);
    }
    add(f, &lits[..length])
}

fn random_literal(random: &mut Random, count: u8) -> Lit
    requires { 0 < count }
{
    Lit {
        var: random.below(count) as usize,
        neg: random.below(2) == 0,
    }
}

// What the two solvers and the plain search say of a random formula and literal.
fn all_three(alloc: Global, random: &mut Random) -> Result<(Told, Told, bool), AllocError> {
    let count = 4 + random.below(9);
    let mut f = formula_over(alloc, count - 1)?;
    for _ in 0..2 * count + random.below(20) {
        add_random_clause(random, &mut f, count)?;
    }
    let assume = random_literal(random, count);
    let answer = answer_to(alloc, &f, assume, None)?;
    let plain = plain_answer_to(alloc, &f, assume, None)?;
    Ok((answer, plain, is_satisfiable(alloc, &f, assume)?))
}

fn is_satisfiable(alloc: Global, f: &Formula, assume: Lit) -> Result<bool, AllocError> {
    if assume.var >= f.vars() {
        return Ok(false);
    }
    let cnf = f.with_unit(alloc, assume)?;
    Ok(search(alloc, &cnf)?.is_some())
}

// How many of the random formulas the three agree on.
fn agreements(alloc: Global, cases: u32) -> Result<(u32, u32), AllocError> {
    let mut random = Random { state: 18 };
    let mut agreed: u32 = 0;
    let mut satisfiable: u32 = 0;
    for _ in 0..cases {
        match all_three(alloc, &mut random)? {
            (Told::Sat(true), Told::Sat(true), true) => {
                agreed = agreed.saturating_add(1);
                satisfiable = satisfiable.saturating_add(1);
            }
            (Told::Unsat(true), Told::Unsat(true), false) => agreed = agreed.saturating_add(1),
            _ => {}
        }
    }
    Ok((agreed, satisfiable))
}

// Whether an assignment satisfies each of the larger random formulas, as minisat 2.2.1 answers.
const LARGER: &str =
    "yyynnnyyyynnynynnyyynyynnnnyyynynnyyyyynynnnyyynnnnnyynnyyyyynynnyyyyyynyynnnnyy\
nyynnnnnynnnnynnynnnnyyyyynynynnyynynynnnnyyynnnynnyynnyynnyyyyyynnyynyyyyyyynyy\
nnynyynnnynnnynnnnnnnynnnnyyyynnnynnynnnnyyynnnynnyyyyynnnnnnynnnyynynnnynnnyyny\
nnnnnynyyynynnnnnnynnnyynyynnyyynynyyynnyynynynyyynynyyyynnn";

// What the solver says of a random formula over 30 to 60 variables.
fn larger(alloc: Global, random: &mut Random) -> Result<Told, AllocError> {
    let count = 30 + random.below(31);
    let mut f = formula_over(alloc, count - 1)?;
    for _ in 0..3 * count + count / 2 {
        add_random_clause(random, &mut f, count)?;
    }
    let top = f.top();
    answer_to(alloc, &f, top, None)
}

// How many of the larger formulas have another answer.
fn differing(alloc: Global, answers: &str) -> Result<u32, AllocError> {
    let mut random = Random { state: 60 };
    let mut count: u32 = 0;
    for answer in answers.as_bytes() {
        let wanted = if *answer == b'y' {
            Told::Sat(true)
        } else {
            Told::Unsat(true)
        };
        if larger(alloc, &mut random)? != wanted {
            count = count.saturating_add(1);
        }
    }
    Ok(count)
}

#[test]
fn larger_formulas_have_the_answers_of_another_solver(rt: HostRuntime) -> Result<(), Fail> {
    assert_eq!(rt; LARGER.len(), 300);
    assert_eq!(rt; differing(rt.alloc(), LARGER)?, 0);
    Ok(())
}

// What the solver says of a random formula of 1000 clauses over 250 variables within a budget.
fn large(alloc: Global, random: &mut Random, budget: u64) -> Result<Told, AllocError> {
    let mut f = formula_over(alloc, 249)?;
    for _ in 0..1000 {
        let a = random_literal(random, 250);
        let b = random_literal(random, 250);
        let c = random_literal(random, 250);
        add(&mut f, &[a, b, c])?;
    }
    let top = f.top();
    answer_to(alloc, &f, top, Some(budget))
}

// How many of ten such formulas are satisfied within a budget.
fn satisfied(alloc: Global, budget: u64) -> Result<u32, AllocError> {
    let mut random = Random { state: 200 };
    let mut count: u32 = 0;
    for _ in 0..10 {
        if large(alloc, &mut random, budget)? == Told::Sat(true) {
            count = count.saturating_add(1);
        }
    }
    Ok(count)
}

// Without the walk the search satisfies two of them within this budget, and with it seven.
#[test]
fn a_walk_beside_the_search_finds_assignments_sooner(rt: HostRuntime) -> Result<(), Fail> {
    let found = satisfied(rt.alloc(), 2000)?;
    assert!(rt; found >= 5, "{found}");
    Ok(())
}

#[test]
fn the_solver_agrees_with_the_plain_ones(rt: HostRuntime) -> Result<(), Fail> {
    let (agreed, satisfiable) = agreements(rt.alloc(), 4000)?;
    assert_eq!(rt; agreed, 4000);
    assert!(rt; satisfiable > 1000 && satisfiable < 3000, "{satisfiable}");
    Ok(())
}
