//! The domains of functions.

ghost use Rattle.cell_arena.specs.Cells.{kind_at};
ghost use Rattle.cell_arena.specs.Growth.{Grows as BuildGrows};
ghost use Rattle.cell_merge.specs.Arrows.{argument_edges};
ghost use Rattle.cell_merge.specs.Composites.{parts_of};
ghost use Rattle.cell_merge.specs.Edges.{JoinsAll, OneSort};
ghost use Rattle.cell_merge.specs.Sorts.{name, number};
ghost use Rattle.function_rewriter.specs.Arrows.{HasDomain, IsDomain};
ghost use Rattle.function_rewriter.specs.inner.Arrows.{IsArguments, IsFunctionIn};
ghost use Rattle.function_rewriter.specs.inner.Constants.{HasNames, IsConstantSet, names_of, numbers_from};
ghost use Rattle.sat_formula.specs.Formula.{Grows};
ghost use Rattle.std.specs.Prelude.{◌<◌, IfOk, IsTrue, length, map, pos};
ghost use Rattle.tla_values.specs.Integers.{fits_width};

use crate::arrows::to_arguments;
use crate::constants::{number_edges, text_edges};
use crate::names::name_indexes;
use cell_arena::{Arena, Build, CellId, CellKind};
use cell_merge::{join_alike, part_count};
use sat_formula::{Formula, Lit};
use std::alloc::AllocError;
use tla_values::{List, Value};

// The edges to the arguments, with one for those that are alike.
#[tactic(auto, using(sat_formula::proofs::Extension::gates))]
fn joined_arguments(
    arena: &Arena,
    formula: &mut Formula,
    arrows: &[(Lit, CellId, CellId)],
) -> Result<Vec<(Lit, CellId)>, AllocError>
    requires { OneSort arena.now.kinds formula.old.vars (argument_edges arrows.now) }
    ensures joins { IfOk result (λ out. JoinsAll arena.now formula.new (argument_edges arrows.now) (argument_edges arrows.now) out.items) }
    ensures grows { Grows formula.old formula.new }
{
    let edges = to_arguments(arena.alloc(), arrows)?;
    let joined = join_alike(arena, formula, edges.as_slice())?;
    Ok(joined)
}

// The set of the arguments of a function.
#[tactic(auto, using(cell_arena::proofs::Growing::growing))]
fn function_domain(b: &mut Build, f: CellId) -> Result<CellId, AllocError>
    requires { IsFunctionIn b.old.arena.kinds f }
    ensures arguments { IfOk result (IsArguments b.old b.new f) }
    ensures grows { BuildGrows b.old b.new }
{
    let CellKind::Fun(arrows) = b.arena.kind(f) else {
        return Ok(f);
    };
    let edges = joined_arguments(&b.arena, &mut b.formula, arrows.as_slice())?;
    let id = b.set(List::from_vec(edges))?;
    Ok(id)
}

// The set of the names of a record.
#[tactic(auto, using(cell_arena::proofs::Growing::growing))]
fn record_domain(b: &mut Build, r: CellId) -> Result<CellId, AllocError>
    requires { HasNames b.old.arena r }
    ensures names { IfOk result (IsConstantSet b.new name (map (λ n. Value.Text n) (names_of (kind_at b.old.arena.kinds r)))) }
    ensures grows { BuildGrows b.old b.new }
{
    let indexes = name_indexes(b, r)?;
    let edges = text_edges(b, indexes.as_slice())?;
    let id = b.set(List::from_vec(edges))?;
    Ok(id)
}

// The set of the numbers of the parts of a tuple.
#[tactic(auto, using(cell_arena::proofs::Growing::growing))]
fn tuple_domain(b: &mut Build, t: CellId) -> Result<CellId, AllocError>
    requires there { t.index < length b.old.arena.kinds }
    requires fits { IsTrue (fits_width b.old.arena.width (pos (length (parts_of (kind_at b.old.arena.kinds t))))) }
    ensures numbers { IfOk result (IsConstantSet b.new number (numbers_from 1 (length (parts_of (kind_at b.old.arena.kinds t))))) }
    ensures grows { BuildGrows b.old b.new }
{
    let count = part_count(&b.arena, t);
    let edges = number_edges(b, count)?;
    let id = b.set(List::from_vec(edges))?;
    Ok(id)
}

/// The set of the arguments: of a function, those of its arrows, with one edge for those that are
/// alike; of a record its names, which are texts of the build; of a tuple the numbers from 1 to that of
/// its parts, which fits the width.
#[tactic(auto, using(cell_arena::proofs::Growing::growing))]
pub fn domain(b: &mut Build, f: CellId) -> Result<CellId, AllocError>
    requires { HasDomain b.old f }
    ensures domain { IfOk result (IsDomain b.old b.new f) }
    ensures grows { BuildGrows b.old b.new }
{
    match b.arena.kind(f) {
        CellKind::Fun(_) => {
            let arguments = function_domain(b, f)?;
            Ok(arguments)
        }
        CellKind::Rec(_) => {
            let names = record_domain(b, f)?;
            Ok(names)
        }
        CellKind::Tup(_) => {
            let numbers = tuple_domain(b, f)?;
            Ok(numbers)
        }
        _ => Ok(f),
    }
}
