//! Two sets made into one, with one edge for a member of each where the two are alike.

ghost use Rattle.cell_arena.specs.declared.kinds.CellKind.{CellKind as AnyKind};
ghost use Rattle.cell_merge.specs.Edges.{AreNamed, JoinBelow, JoinsAll, Merges, OneSort, TwoSets, joined};
ghost use Rattle.cell_merge.specs.inner.Parts.{AreThere, Joining, Joins, Parted};
ghost use Rattle.sat_formula.specs.Formula.{Grows, HasValue};
ghost use Rattle.sat_formula.specs.Lit.{lit_value};
ghost use Rattle.std.specs.Prelude.{◌<◌, IfOk, List, OnOk, length};

use crate::likeness::alike;
use cell_arena::{Arena, CellId};
use sat_formula::{Formula, Lit};
use std::alloc::AllocError;

/// How two sets are made into one.
#[derive(Clone, Copy)]
pub enum Join {
    /// The members of both.
    Either,
    /// The members of the first where the literal is true, and else those of the second.
    Chosen(Lit),
}

// A literal that is there where a member is that has this literal in the one set and that in the
// other.
#[tactic(auto, using(sat_formula::proofs::Extension::gates))]
fn join_literals(formula: &mut Formula, join: Join, l: Lit, m: Lit) -> Result<Lit, AllocError>
    requires join_below { JoinBelow formula.old.vars join }
    requires l_below { l.var < formula.old.vars }
    requires m_below { m.var < formula.old.vars }
    ensures value { IfOk result (λ r. HasValue formula.new r (λ a. joined join a (lit_value l a) (lit_value m a))) }
    ensures grows { Grows formula.old formula.new }
{
    match join {
        Join::Either => {
            let either = formula.or(l, m)?;
            Ok(either)
        }
        Join::Chosen(c) => {
            let chosen = formula.mux(c, l, m)?;
            Ok(chosen)
        }
    }
}

// One edge more, unless its literal is the negation of `top`.
#[tactic(auto, using(sat_formula::proofs::Extension::gates))]
fn join_onto(
    formula: &mut Formula,
    join: Join,
    parts: (Lit, Lit),
    cell: CellId,
    out: &mut Vec<(Lit, CellId)>,
) -> Result<(), AllocError>
    requires join_below { JoinBelow formula.old.vars join }
    requires first_below { parts.0.var < formula.old.vars }
    requires second_below { parts.1.var < formula.old.vars }
    requires named { AreNamed formula.old.vars out.old.items }
    ensures joins { OnOk result ((ks : List AnyKind) → Joins ks formula.new join parts.0 parts.1 cell out.old.items out.new.items) }
    ensures grows { Grows formula.old formula.new }
{
    let there = join_literals(formula, join, parts.0, parts.1)?;
    if there == formula.top().negated() {
        return Ok(());
    }
    out.push((there, cell))?;
    Ok(())
}

// What leads to a cell that is made as this one, as one literal, and the other edges.
#[tactic(auto, using(sat_formula::proofs::Extension::gates))]
fn part(
    arena: &Arena,
    formula: &mut Formula,
    cell: CellId,
    edges: &[(Lit, CellId)],
) -> Result<(Lit, Vec<(Lit, CellId)>), AllocError>
    requires cell_there { cell.index < length arena.now.kinds }
    requires there { AreThere (length arena.now.kinds) edges.now }
    requires named { AreNamed formula.old.vars edges.now }
    ensures parted { IfOk result (λ r. Parted arena.now formula.new cell edges.now edges.now r.0 r.1.items) }
    ensures grows { Grows formula.old formula.new }
{
    let mut found = formula.top().negated();
    let mut others = Vec::new(arena.alloc());
    for (l, e) in edges {
        if alike(arena, cell, *e) {
            found = formula.or(found, *l)?;
            continue;
        }
        others.push((*l, *e))?;
    }
    Ok((found, others))
}

// The edges of the first set, joined with what is alike in the second, and what is left of that.
#[tactic(auto, using(sat_formula::proofs::Extension::gates))]
fn join_front(
    arena: &Arena,
    formula: &mut Formula,
    join: Join,
    es: &[(Lit, CellId)],
    fs: &[(Lit, CellId)],
) -> Result<(Vec<(Lit, CellId)>, Vec<(Lit, CellId)>), AllocError>
    requires join_below { JoinBelow formula.old.vars join }
    requires sets { TwoSets arena.now.kinds formula.old.vars es.now fs.now }
    ensures joining { IfOk result (λ r. Joining arena.now formula.new join es.now es.now fs.now r.0.items r.1.items) }
    ensures grows { Grows formula.old formula.new }
{
    let alloc = arena.alloc();
    let mut out = Vec::new(alloc);
    let mut rest = Vec::from_slice(alloc, fs)?;
    for (l, e) in es {
        let (found, others) = part(arena, formula, *e, rest.as_slice())?;
        rest = others;
        join_onto(formula, join, (*l, found), *e, &mut out)?;
    }
    Ok((out, rest))
}

/// The edges with one for those that lead to alike cells, whose literal is true where one of theirs
/// is. An edge whose literal is the negation of `top` is left out.
#[tactic(auto, using(sat_formula::proofs::Extension::gates))]
pub fn join_alike(
    arena: &Arena,
    formula: &mut Formula,
    edges: &[(Lit, CellId)],
) -> Result<Vec<(Lit, CellId)>, AllocError>
    requires edges { OneSort arena.now.kinds formula.old.vars edges.now }
    ensures joins { IfOk result (λ out. JoinsAll arena.now formula.new edges.now edges.now out.items) }
    ensures grows { Grows formula.old formula.new }
{
    let mut out = Vec::new(arena.alloc());
    for (l, e) in edges {
        let (found, others) = part(arena, formula, *e, out.as_slice())?;
        out = others;
        join_onto(formula, Join::Either, (*l, found), *e, &mut out)?;
    }
    Ok(out)
}

// The edges of two sets, in each of which no two are alike, as those of one.
#[tactic(auto, using(sat_formula::proofs::Extension::gates))]
fn merge_distinct(
    arena: &Arena,
    formula: &mut Formula,
    join: Join,
    es: &[(Lit, CellId)],
    fs: &[(Lit, CellId)],
) -> Result<Vec<(Lit, CellId)>, AllocError>
    requires join_below { JoinBelow formula.old.vars join }
    requires sets { TwoSets arena.now.kinds formula.old.vars es.now fs.now }
    ensures merges { IfOk result (λ out. Merges arena.now formula.new join es.now fs.now out.items) }
    ensures grows { Grows formula.old formula.new }
{
    let (mut out, rest) = join_front(arena, formula, join, es, fs)?;
    let none = formula.top().negated();
    for (l, e) in rest.as_slice() {
        join_onto(formula, join, (none, *l), *e, &mut out)?;
    }
    Ok(out)
}

/// The edges of two sets as those of one. Members that are alike, of one set or of both, have one
/// edge, whose literal is joined of theirs; where the two literals are the same, nothing is added
/// for it. An edge whose literal is the negation of `top` is left out.
#[tactic(auto, using(sat_formula::proofs::Extension::gates))]
pub fn merge_edges(
    arena: &Arena,
    formula: &mut Formula,
    join: Join,
    es: &[(Lit, CellId)],
    fs: &[(Lit, CellId)],
) -> Result<Vec<(Lit, CellId)>, AllocError>
    requires join_below { JoinBelow formula.old.vars join }
    requires sets { TwoSets arena.now.kinds formula.old.vars es.now fs.now }
    ensures merges { IfOk result (λ out. Merges arena.now formula.new join es.now fs.now out.items) }
    ensures grows { Grows formula.old formula.new }
{
    let left = join_alike(arena, formula, es)?;
    let right = join_alike(arena, formula, fs)?;
    let out = merge_distinct(arena, formula, join, left.as_slice(), right.as_slice())?;
    Ok(out)
}
