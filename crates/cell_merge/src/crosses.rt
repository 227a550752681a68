//! Gates over two lists of literals, place by place.

ghost use Rattle.cell_merge.specs.inner.Crosses.{AreAlong, AreBoth, AreImplied, Covers, any_both, each_holds};
ghost use Rattle.sat_formula.specs.Formula.{Grows, HasValue};
ghost use Rattle.sat_formula.specs.Lit.{lit_value, values};
ghost use Rattle.std.specs.List.{list_all};
ghost use Rattle.std.specs.Prelude.{◌≡◌, ◌<◌, ◌&&◌, Bool, IfOk, IsTrue, List, true};

use sat_formula::{Formula, Lit};
use std::alloc::{AllocError, Global};

// Literals for the items of two cells.
#[derive(Drop)]
pub(crate) struct Sides {
    pub(crate) left: Vec<Lit>,
    pub(crate) right: Vec<Lit>,
}

// A literal that is true exactly where both are at some place.
#[tactic(auto, using(sat_formula::proofs::Extension::gates))]
pub(crate) fn meets(formula: &mut Formula, xs: &[Lit], ys: &[Lit]) -> Result<Lit, AllocError>
    requires { AreAlong formula.old.vars xs.now ys.now }
    ensures value { IfOk result (λ l. HasValue formula.new l (λ a. any_both (values xs.now a) (values ys.now a))) }
    ensures grows { Grows formula.old formula.new }
{
    let mut any = formula.top().negated();
    for i in 0..xs.len() {
        let both = formula.and(xs[i], ys[i])?;
        any = formula.or(any, both)?;
    }
    Ok(any)
}

// For each literal one that is true too where both l and the test at its place are.
#[tactic(auto, using(sat_formula::proofs::Extension::gates))]
pub(crate) fn cover(
    alloc: Global,
    formula: &mut Formula,
    l: Lit,
    row: &[Lit],
    covered: &[Lit],
) -> Result<Vec<Lit>, AllocError>
    requires below { l.var < formula.old.vars }
    requires lists { AreAlong formula.old.vars row.now covered.now }
    ensures covers { IfOk result (λ r. Covers formula.new l row.now covered.now r.items) }
    ensures grows { Grows formula.old formula.new }
{
    let mut more = Vec::new(alloc);
    for i in 0..covered.len() {
        let both = formula.and(l, row[i])?;
        let one = formula.or(covered[i], both)?;
        more.push(one)?;
    }
    Ok(more)
}

// For each literal one that is true where it is false or its test is true.
#[tactic(auto, using(sat_formula::proofs::Extension::gates))]
pub(crate) fn implied(
    alloc: Global,
    formula: &mut Formula,
    xs: &[Lit],
    tests: &[Lit],
) -> Result<Vec<Lit>, AllocError>
    requires lists { AreAlong formula.old.vars xs.now tests.now }
    ensures implied { IfOk result (λ r. AreImplied formula.new xs.now tests.now r.items) }
    ensures grows { Grows formula.old formula.new }
{
    let mut all = Vec::new(alloc);
    for i in 0..xs.len() {
        let holds = formula.or(xs[i].negated(), tests[i])?;
        all.push(holds)?;
    }
    Ok(all)
}

// Whether the literal is one of them.
fn has(lits: &[Lit], l: Lit) -> bool
    ensures { IsTrue result → (a : List Bool) → list_all (λ x. lit_value x a) lits.now ≡ true → lit_value l a ≡ true }
{
    for x in lits {
        if *x == l {
            return true;
        }
    }
    false
}

// The literals of the first list, and those of the second that are none of them.
fn without_repeats(alloc: Global, xs: &[Lit], ys: &[Lit]) -> Result<Vec<Lit>, AllocError>
    ensures { IfOk result (λ r. AreBoth xs.now ys.now r.items) }
{
    let mut all = Vec::from_slice(alloc, xs)?;
    for y in ys {
        if !has(xs, *y) {
            all.push(*y)?;
        }
    }
    Ok(all)
}

// A literal that is true exactly where each test of the one and of the other is, whose literal is true.
#[tactic(auto, using(sat_formula::proofs::Extension::gates))]
pub(crate) fn mutual(
    alloc: Global,
    formula: &mut Formula,
    items: &Sides,
    tests: &Sides,
) -> Result<Lit, AllocError>
    requires left { AreAlong formula.old.vars items.now.left.items tests.now.left.items }
    requires right { AreAlong formula.old.vars items.now.right.items tests.now.right.items }
    ensures value { IfOk result (λ l. HasValue formula.new l (λ a.
        each_holds (values items.now.left.items a) (values tests.now.left.items a)
        && each_holds (values items.now.right.items a) (values tests.now.right.items a))) }
    ensures grows { Grows formula.old formula.new }
{
    let left = implied(alloc, formula, items.left.as_slice(), tests.left.as_slice())?;
    let right = implied(
        alloc,
        formula,
        items.right.as_slice(),
        tests.right.as_slice(),
    )?;
    let both = without_repeats(alloc, left.as_slice(), right.as_slice())?;
    let all = formula.and_all(alloc, both.as_slice())?;
    Ok(all)
}
