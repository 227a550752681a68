//! Operators on sets.

ghost use Rattle.cell_arena.specs.Growth.{Grows};
ghost use Rattle.cell_merge.specs.Picks.{IsSetCell};
ghost use Rattle.cell_merge.specs.Sorts.{SetsOfOneType, number, set_of};
ghost use Rattle.function_rewriter.specs.FunctionSets.{AreSetCells};
ghost use Rattle.outcome_cells.specs.Shows.{AreCells};
ghost use Rattle.set_rewriter.specs.Edges.{IsSetOfSets};
ghost use Rattle.std.specs.Prelude.{◌≡◌, ◌∷◌, IfOk, List as Items, [], map};
ghost use Rattle.tla_meaning.specs.declared.op.Op.TheVariants as op;
ghost use Rattle.value_operators.specs.Operands.{HasFunctionSorts, HasRow, HasSorts, OfOneSort};

use cell_arena::{Build, CellId};
use cell_merge::join_alike;
use outcome_cells::{Cells, big_where, sure};
use sat_formula::Lit;
use set_rewriter::{big_union, cardinality};
use std::alloc::{AllocError, Global};
use tla_values::List;

// The cells as edges that are always there.
fn always(alloc: Global, top: Lit, cells: &[CellId]) -> Result<Vec<(Lit, CellId)>, AllocError>
    ensures { IfOk result (λ v. v.items ≡ map (λ c. (top, c)) cells.now) }
{
    cells.iter().map(|c| (top, *c)).collect(alloc)
}

/// The set of these members, which have one sort. Each is compared with each, so that members that are alike have one
/// edge; nothing is added to the formula. (Specifying Systems, section 16.1.6.)
#[tactic(auto, using(cell_arena::proofs::Growing::growing))]
pub fn set(b: &mut Build, members: &[CellId]) -> Result<Cells, AllocError>
    requires { OfOneSort b.old.arena.kinds members.now }
    ensures cells { IfOk result (HasSorts b.old b.new (λ s. s) set_of members.now) }
    ensures row { IfOk result (HasRow b.old b.new op.SetEnum members.now) }
    ensures grows { Grows b.old b.new }
{
    let top = b.formula.top();
    let all = always(b.arena.alloc(), top, members)?;
    let edges = join_alike(&b.arena, &mut b.formula, all.as_slice())?;
    let id = b.set(List::from_vec(edges))?;
    Ok(sure(b, id))
}

/// The members of either set. (Specifying Systems, section 16.1.6.)
#[tactic(auto, using(cell_arena::proofs::Growing::growing))]
pub fn union(b: &mut Build, x: CellId, y: CellId) -> Result<Cells, AllocError>
    requires { SetsOfOneType b.old.arena.kinds x y }
    ensures cells { IfOk result (HasSorts b.old b.new set_of set_of (x ∷ y ∷ [])) }
    ensures row { IfOk result (HasRow b.old b.new op.Cup (x ∷ y ∷ [])) }
    ensures grows { Grows b.old b.new }
{
    let id = set_rewriter::union(b, x, y)?;
    Ok(sure(b, id))
}

/// The members of both sets. (Specifying Systems, section 16.1.6.)
#[tactic(auto, using(cell_arena::proofs::Growing::growing))]
pub fn inter(b: &mut Build, x: CellId, y: CellId) -> Result<Cells, AllocError>
    requires { SetsOfOneType b.old.arena.kinds x y }
    ensures cells { IfOk result (HasSorts b.old b.new set_of set_of (x ∷ y ∷ [])) }
    ensures row { IfOk result (HasRow b.old b.new op.Cap (x ∷ y ∷ [])) }
    ensures grows { Grows b.old b.new }
{
    let id = set_rewriter::inter(b, x, y)?;
    Ok(sure(b, id))
}

/// The members of the first set that are none of the second. (Specifying Systems, section 16.1.6.)
#[tactic(auto, using(cell_arena::proofs::Growing::growing))]
pub fn without(b: &mut Build, x: CellId, y: CellId) -> Result<Cells, AllocError>
    requires { SetsOfOneType b.old.arena.kinds x y }
    ensures cells { IfOk result (HasSorts b.old b.new set_of set_of (x ∷ y ∷ [])) }
    ensures row { IfOk result (HasRow b.old b.new op.Minus (x ∷ y ∷ [])) }
    ensures grows { Grows b.old b.new }
{
    let id = set_rewriter::minus(b, x, y)?;
    Ok(sure(b, id))
}

/// The members of the sets that are members, as UNION. (Specifying Systems, section 16.1.6.)
#[tactic(auto, using(cell_arena::proofs::Growing::growing))]
pub fn flatten(b: &mut Build, sets: CellId) -> Result<Cells, AllocError>
    requires { IsSetOfSets b.old sets }
    ensures cells { IfOk result (HasSorts b.old b.new (λ s. set_of (set_of s)) set_of (sets ∷ [])) }
    ensures row { IfOk result (HasRow b.old b.new op.BigUnion (sets ∷ [])) }
    ensures grows { Grows b.old b.new }
{
    let id = big_union(b, sets)?;
    Ok(sure(b, id))
}

/// All subsets of the set, as SUBSET. (Specifying Systems, section 16.1.6.)
#[tactic(auto, using(cell_arena::proofs::Growing::growing))]
pub fn subsets(b: &mut Build, set: CellId) -> Result<Cells, AllocError>
    requires { IsSetCell b.old set }
    ensures cells { IfOk result (HasSorts b.old b.new set_of (λ s. set_of (set_of s)) (set ∷ [])) }
    ensures row { IfOk result (HasRow b.old b.new op.Powerset (set ∷ [])) }
    ensures grows { Grows b.old b.new }
{
    let id = set_rewriter::subsets(b, set)?;
    Ok(sure(b, id))
}

/// All functions from the first set to the second, as [S -> T]. (Specifying Systems, section 16.1.7.)
#[tactic(auto, using(cell_arena::proofs::Growing::growing))]
pub fn functions(b: &mut Build, from: CellId, to: CellId) -> Result<Cells, AllocError>
    requires { AreSetCells b.old from to }
    ensures cells { IfOk result (HasFunctionSorts b.old b.new from to) }
    ensures row { IfOk result (HasRow b.old b.new op.FunSet (from ∷ to ∷ [])) }
    ensures grows { Grows b.old b.new }
{
    let id = function_rewriter::functions(b, from, to)?;
    Ok(sure(b, id))
}

/// The number of members, as Cardinality, Big where it is outside of the width. (Specifying Systems, section 18.2.)
#[tactic(auto, using(cell_arena::proofs::Growing::growing))]
pub fn count(b: &mut Build, set: CellId) -> Result<Cells, AllocError>
    requires { IsSetCell b.old set }
    ensures cells { IfOk result (AreCells b.new number) }
    ensures row { IfOk result (HasRow b.old b.new op.Cardinality (set ∷ [])) }
    ensures grows { Grows b.old b.new }
{
    let (id, outside) = cardinality(b, set)?;
    Ok(big_where(b, id, outside))
}
