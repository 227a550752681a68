//! Functions with another result at an argument.

ghost use Rattle.cell_arena.specs.Cells.{kind_at};
ghost use Rattle.cell_arena.specs.Decode.{decode};
ghost use Rattle.cell_arena.specs.Growth.{Grows as BuildGrows};
ghost use Rattle.cell_merge.specs.Arrows.{arrows_of};
ghost use Rattle.cell_merge.specs.Sorts.{IsOver, OfSort, function_of as function_sort};
ghost use Rattle.function_rewriter.specs.Arrows.{MakesFunction, TakesArgument, TakesPair};
ghost use Rattle.function_rewriter.specs.Functions.{pairs_of};
ghost use Rattle.function_rewriter.specs.inner.Arrows.{FunctionAndResult, Matches, Updates};
ghost use Rattle.sat_formula.specs.Formula.{Grows};
ghost use Rattle.sat_formula.specs.Lit.{IsBelow};
ghost use Rattle.std.specs.Prelude.{◌≡◌, All, IfOk, length};
ghost use Rattle.tla_values.specs.Sets.{override_at};

use crate::applying::match_arguments;
use crate::arrows::arrow_at;
use cell_arena::{Arena, Build, CellId, CellKind};
use cell_merge::choose_cell;
use sat_formula::{Formula, Lit};
use std::alloc::AllocError;
use tla_values::List;

// For each arrow of the function that is there whether its argument has the value of the cell.
#[tactic(auto, using(sat_formula::proofs::Extension::gates))]
fn argument_tests(
    arena: &Arena,
    formula: &mut Formula,
    f: CellId,
    x: CellId,
) -> Result<Vec<Lit>, AllocError>
    requires over { IsOver arena.now formula.old }
    requires types { TakesArgument arena.now.kinds f x }
    ensures matches { IfOk result (λ ls. let es = arrows_of (kind_at arena.now.kinds f) in Matches arena.now formula.new es x (length es) ls.items) }
    ensures grows { Grows formula.old formula.new }
{
    let CellKind::Fun(arrows) = arena.kind(f) else {
        return Ok(Vec::new(arena.alloc()));
    };
    let tests = match_arguments(arena, formula, arrows.as_slice(), x)?;
    Ok(tests)
}

// The arrows of the function, with another result where the literal is true.
#[tactic(auto, using(cell_arena::proofs::Growing::growing))]
fn update_arrows(
    b: &mut Build,
    f: CellId,
    tests: &[Lit],
    v: CellId,
) -> Result<Vec<(Lit, CellId, CellId)>, AllocError>
    requires types { FunctionAndResult b.old.arena.kinds f v }
    requires one_each { length tests.now ≡ length (arrows_of (kind_at b.old.arena.kinds f)) }
    requires named { All (IsBelow b.old.formula.vars) tests.now }
    ensures updates { IfOk result (λ out. Updates b.old b.new f tests.now v (length tests.now) out.items) }
    ensures grows { BuildGrows b.old b.new }
{
    let mut out = Vec::new(b.arena.alloc());
    for i in 0..tests.len() {
        let arrow = arrow_at(&b.arena, f, i);
        let chosen = choose_cell(b, tests[i], v, arrow.2)?;
        out.push((arrow.0, arrow.1, chosen))?;
    }
    Ok(out)
}

/// The function with another result at the argument, where this is in its domain; outside of it
/// nothing changes. It has as many arrows as before.
#[tactic(auto, using(cell_arena::proofs::Growing::growing))]
pub fn update(b: &mut Build, f: CellId, x: CellId, v: CellId) -> Result<CellId, AllocError>
    requires { TakesPair b.old.arena.kinds f x v }
    ensures made { IfOk result (λ id. MakesFunction b.new id
        (λ a. override_at (pairs_of (decode b.old.arena a f)) (decode b.old.arena a x) (decode b.old.arena a v))
        (λ s t. OfSort b.old.arena.kinds (function_sort s t) f × OfSort b.old.arena.kinds t v)) }
    ensures grows { BuildGrows b.old b.new }
{
    let tests = argument_tests(&b.arena, &mut b.formula, f, x)?;
    let arrows = update_arrows(b, f, tests.as_slice(), v)?;
    let id = b.fun(List::from_vec(arrows))?;
    Ok(id)
}
