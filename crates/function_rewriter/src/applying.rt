//! What functions give.

ghost use Rattle.cell_arena.specs.Cells.{kind_at};
ghost use Rattle.cell_arena.specs.Decode.{decode, present_pairs};
ghost use Rattle.cell_arena.specs.Growth.{Grows as BuildGrows};
ghost use Rattle.cell_merge.specs.Arrows.{ArrowsNamed, arrows_of};
ghost use Rattle.cell_merge.specs.Sorts.{IsOver, OneType};
ghost use Rattle.function_rewriter.specs.Arrows.{Applies, TakesArgument};
ghost use Rattle.function_rewriter.specs.inner.Arrows.{AndsEach, ArrowsAndArgument, ChoosesFirst, Hits, IsFunctionIn, IsMatch, Matches};
ghost use Rattle.sat_formula.specs.Formula.{Grows, HasValue};
ghost use Rattle.sat_formula.specs.Lit.{IsBelow, lit_value};
ghost use Rattle.std.specs.List.{list_any};
ghost use Rattle.std.specs.Prelude.{◌<◌, ◌≡◌, ◌↔◌, All, IfOk, IfSome, [], is_some, length, map, not};
ghost use Rattle.tla_values.specs.Sets.{apply};

use crate::arrows::arrow_at;
use cell_arena::{Arena, Build, CellId, CellKind};
use cell_merge::{choose_cell, known, same_in};
use sat_formula::{Formula, Lit};
use std::alloc::{AllocError, Global};

// Where the arrow is there, whether its argument has the value of the cell. An arrow that is never
// there is not compared.
#[tactic(auto, using(sat_formula::proofs::Extension::gates))]
fn match_argument(
    arena: &Arena,
    formula: &mut Formula,
    arrow: (Lit, CellId, CellId),
    x: CellId,
) -> Result<Lit, AllocError>
    requires over { IsOver arena.now formula.old }
    requires types { OneType arena.now.kinds x arrow.1 }
    requires below { arrow.0.var < formula.old.vars }
    ensures test { IfOk result (IsMatch arena.now formula.new arrow x) }
    ensures grows { Grows formula.old formula.new }
{
    if let Some(false) = known(formula, arrow.0) {
        return Ok(arrow.0);
    }
    let one = same_in(arena, formula, x, arrow.1)?;
    Ok(one)
}

// For each arrow that is there whether its argument has the value of the cell.
#[tactic(auto, using(sat_formula::proofs::Extension::gates, cell_merge::proofs::Names::over))]
pub(crate) fn match_arguments(
    arena: &Arena,
    formula: &mut Formula,
    arrows: &[(Lit, CellId, CellId)],
    x: CellId,
) -> Result<Vec<Lit>, AllocError>
    requires over { IsOver arena.now formula.old }
    requires arrows { ArrowsAndArgument arena.now.kinds formula.old.vars arrows.now x }
    ensures matches { IfOk result (λ ls. Matches arena.now formula.new arrows.now x (length arrows.now) ls.items) }
    ensures grows { Grows formula.old formula.new }
{
    let mut tests = Vec::new(arena.alloc());
    for arrow in arrows {
        let test = match_argument(arena, formula, *arrow, x)?;
        tests.push(test)?;
    }
    Ok(tests)
}

// For each arrow whether it is there and its other literal is true.
#[tactic(auto, using(sat_formula::proofs::Extension::gates))]
fn and_each(
    alloc: Global,
    formula: &mut Formula,
    arrows: &[(Lit, CellId, CellId)],
    tests: &[Lit],
) -> Result<Vec<Lit>, AllocError>
    requires one_each { length tests.now ≡ length arrows.now }
    requires arrows_named { ArrowsNamed formula.old.vars arrows.now }
    requires tests_named { All (IsBelow formula.old.vars) tests.now }
    ensures ands { IfOk result (λ ls. AndsEach formula.new arrows.now tests.now (length arrows.now) ls.items) }
    ensures grows { Grows formula.old formula.new }
{
    let mut hits = Vec::new(alloc);
    for i in 0..arrows.len() {
        let hit = formula.and(arrows[i].0, tests[i])?;
        hits.push(hit)?;
    }
    Ok(hits)
}

// The negation of each literal.
fn negations(alloc: Global, lits: &[Lit]) -> Result<Vec<Lit>, AllocError>
    ensures { IfOk result (λ r. r.items ≡ map (λ l. record { var = l.var; neg = not l.neg }) lits.now) }
{
    lits.iter().map(|l| l.negated()).collect(alloc)
}

// Whether no literal is true.
#[tactic(auto, using(sat_formula::proofs::Extension::gates))]
fn none_of(alloc: Global, formula: &mut Formula, lits: &[Lit]) -> Result<Lit, AllocError>
    requires named { All (IsBelow formula.old.vars) lits.now }
    ensures value { IfOk result (λ l. HasValue formula.new l (λ a. not (list_any (λ x. lit_value x a) lits.now))) }
    ensures grows { Grows formula.old formula.new }
{
    let others = negations(alloc, lits)?;
    let none = formula.and_all(alloc, others.as_slice())?;
    Ok(none)
}

// For each arrow whether it is there and its argument has the value of the cell, and whether there is
// no such arrow.
#[tactic(auto, using(sat_formula::proofs::Extension::gates))]
fn find(
    arena: &Arena,
    formula: &mut Formula,
    arrows: &[(Lit, CellId, CellId)],
    x: CellId,
) -> Result<(Vec<Lit>, Lit), AllocError>
    requires over { IsOver arena.now formula.old }
    requires arrows { ArrowsAndArgument arena.now.kinds formula.old.vars arrows.now x }
    ensures hits { IfOk result (λ r. Hits arena.now formula.new arrows.now x (length arrows.now) r.0.items) }
    ensures outside { IfOk result (λ r. HasValue formula.new r.1
        (λ a. not (is_some (apply (present_pairs a (decode arena.now a) arrows.now) (decode arena.now a x))))) }
    ensures grows { Grows formula.old formula.new }
{
    let tests = match_arguments(arena, formula, arrows, x)?;
    let hits = and_each(arena.alloc(), formula, arrows, tests.as_slice())?;
    let found = hits.as_slice();
    let outside = none_of(arena.alloc(), formula, found)?;
    Ok((hits, outside))
}

// The result of the first arrow whose literal is true, and of the last one where none is.
#[tactic(auto, using(cell_arena::proofs::Growing::growing))]
fn choose_first(b: &mut Build, f: CellId, hits: &[Lit]) -> Result<CellId, AllocError>
    requires function { IsFunctionIn b.old.arena.kinds f }
    requires some { 0 < length hits.now }
    requires one_each { length hits.now ≡ length (arrows_of (kind_at b.old.arena.kinds f)) }
    requires named { All (IsBelow b.old.formula.vars) hits.now }
    ensures chosen { IfOk result (ChoosesFirst b.old b.new f hits.now 0) }
    ensures grows { BuildGrows b.old b.new }
{
    let count = hits.len();
    let last = arrow_at(&b.arena, f, count - 1);
    let mut cell = last.2;
    for i in 1..count {
        let place = count - 1 - i;
        let arrow = arrow_at(&b.arena, f, place);
        cell = choose_cell(b, hits[place], arrow.2, cell)?;
    }
    Ok(cell)
}

/// What the function gives at the argument, and a literal that is true where this is outside of its
/// domain. `None` exactly where the function cell has no edge.
#[tactic(auto, using(cell_arena::proofs::Growing::growing))]
pub fn at(b: &mut Build, f: CellId, x: CellId) -> Result<Option<(CellId, Lit)>, AllocError>
    requires { TakesArgument b.old.arena.kinds f x }
    ensures none { IfOk result (λ r. (r ≡ None) ↔ (kind_at b.old.arena.kinds f ≡ CellKind.Fun [])) }
    ensures applies { IfOk result (λ r. IfSome r (Applies b.old b.new f x)) }
    ensures grows { BuildGrows b.old b.new }
{
    let CellKind::Fun(arrows) = b.arena.kind(f) else {
        return Ok(None);
    };
    if arrows.len() == 0 {
        return Ok(None);
    }
    let list = arrows.as_slice();
    let (hits, outside) = find(&b.arena, &mut b.formula, list, x)?;
    let found = hits.as_slice();
    let cell = choose_first(b, f, found)?;
    Ok(Some((cell, outside)))
}
