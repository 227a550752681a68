//! The set of the members that pass, and the set of a body's values.

ghost use Rattle.cell_arena.specs.Growth.{Grows as BuildGrows};
ghost use Rattle.cell_merge.specs.Sorts.{IsOver, truth};
ghost use Rattle.member_choices.specs.Binders.{MakesImages, MakesPart};
ghost use Rattle.member_choices.specs.Choices.{AreBodies, BodiesOfOne, ChoicesBelow, ChoicesOfOne};
ghost use Rattle.member_choices.specs.inner.Tests.{AreOver, KeepsChoices, KeepsMembers};
ghost use Rattle.sat_formula.specs.Formula.{Grows};
ghost use Rattle.sat_formula.specs.Lit.{IsBelow};
ghost use Rattle.std.specs.Prelude.{◌≡◌, All, IfOk, length};
ghost use Rattle.tla_meaning.specs.declared.op.Op.TheVariants as op;

use crate::bodies::join_bodies;
use crate::choice::Choice;
use crate::edges::{cells_of, set_of_cells};
use cell_arena::{Arena, Build, CellId};
use cell_merge::known;
use outcome_cells::{Cells, Faults, bits_of};
use sat_formula::{Formula, Lit};
use std::alloc::{AllocError, Global};
use tla_values::List;

// The choices' one cells, each there where its choice is there and its other literal is true. One that is then never
// there is left out.
#[tactic(auto, using(sat_formula::proofs::Extension::gates))]
fn keep_choices(
    alloc: Global,
    f: &mut Formula,
    cs: &[Choice],
    lits: &[Lit],
) -> Result<Vec<(Lit, CellId)>, AllocError>
    requires one_each { length lits.now ≡ length cs.now }
    requires below { ChoicesBelow f.old.vars cs.now }
    requires named { All (IsBelow f.old.vars) lits.now }
    requires ones { All (λ c. length c.cells ≡ 1) cs.now }
    ensures keeps { IfOk result (λ out. KeepsChoices f.new cs.now cs.now lits.now out.items) }
    ensures grows { Grows f.old f.new }
{
    let mut out = Vec::new(alloc);
    for i in 0..cs.len() {
        let both = f.and(cs[i].there, lits[i])?;
        if let Some(false) = known(f, both) {
            continue;
        }
        out.push((both, cs[i].cells.as_slice()[0]))?;
    }
    Ok(out)
}

// Edges to the members at which the body is true, and the faults of the bodies.
#[tactic(auto, using(sat_formula::proofs::Extension::gates))]
fn keep_members(
    arena: &Arena,
    f: &mut Formula,
    cs: &[Choice],
    bodies: &[Cells],
) -> Result<(Vec<(Lit, CellId)>, Faults), AllocError>
    requires over { IsOver arena.now f.old }
    requires bodies { AreOver arena.now.kinds f.old.vars truth cs.now bodies.now }
    requires ones { All (λ c. length c.cells ≡ 1) cs.now }
    ensures keeps { IfOk result (λ r. KeepsMembers arena.now f.new cs.now bodies.now r.0.items r.1) }
    ensures grows { Grows f.old f.new }
{
    let alloc = arena.alloc();
    let faults = join_bodies(alloc, f, cs, bodies)?;
    let bits = bits_of(alloc, arena, bodies)?;
    let edges = keep_choices(alloc, f, cs, bits.as_slice())?;
    Ok((edges, faults))
}

/// `{x \in S: P}`: the set of the members at which the body is true, of choices of one cell. The edges stay as they
/// are, since joining alike ones again would take the square of their number.
#[tactic(auto, using(cell_arena::proofs::Growing::growing))]
pub fn kept(b: &mut Build, cs: &[Choice], bodies: &[Cells]) -> Result<Cells, AllocError>
    requires bodies { AreBodies b.old truth cs.now bodies.now }
    requires choices { ChoicesOfOne b.old.arena.kinds cs.now }
    ensures makes { IfOk result (MakesPart b.old b.new op.Filter cs.now bodies.now) }
    ensures grows { BuildGrows b.old b.new }
{
    let (edges, faults) = keep_members(&b.arena, &mut b.formula, cs, bodies)?;
    let cell = b.set(List::from_vec(edges))?;
    Ok(Cells {
        cell,
        wrong: faults.wrong,
        big: faults.big,
    })
}

/// `{e: x \in S}`: the set of the body's values at the choices that are there, with one edge for those that are alike.
#[tactic(auto, using(cell_arena::proofs::Growing::growing))]
pub fn images(b: &mut Build, cs: &[Choice], bodies: &[Cells]) -> Result<Cells, AllocError>
    requires { BodiesOfOne b.old cs.now bodies.now }
    ensures makes { IfOk result (MakesImages b.old b.new op.MapTo cs.now bodies.now) }
    ensures grows { BuildGrows b.old b.new }
{
    let alloc = b.arena.alloc();
    let faults = join_bodies(alloc, &mut b.formula, cs, bodies)?;
    let values = cells_of(alloc, bodies)?;
    let cell = set_of_cells(b, cs, values.as_slice())?;
    Ok(Cells {
        cell,
        wrong: faults.wrong,
        big: faults.big,
    })
}
