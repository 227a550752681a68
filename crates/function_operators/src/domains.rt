//! Domains.

ghost use Rattle.cell_arena.specs.Growth.{Grows};
ghost use Rattle.cell_merge.specs.Sorts.{OfSort, Sort, number, set_of};
ghost use Rattle.function_operators.specs.Operands.{HasArguments, HasRow, domain_sort};
ghost use Rattle.function_operators.specs.inner.Found.{IsTupleCell};
ghost use Rattle.outcome_cells.specs.Shows.{AreCells};
ghost use Rattle.std.specs.Prelude.{IfOk, [], ◌∷◌};
ghost use Rattle.tla_meaning.specs.declared.op.Op.TheVariants as op;

use crate::widths::fits;
use cell_arena::{Build, CellId, CellKind};
use cell_merge::part_count;
use function_rewriter::domain as set_of_arguments;
use outcome_cells::{Cells, big_where, sure};
use sequence_rewriter::seq_domain;
use std::alloc::AllocError;
use typed_cells::set_of_edges;

// The numbers from 1 to that of the parts, Big where this is outside of the width.
#[tactic(auto, using(cell_arena::proofs::Growing::growing))]
fn tuple_domain(b: &mut Build, t: CellId) -> Result<Cells, AllocError>
    requires { IsTupleCell b.old.arena.kinds t }
    ensures row { IfOk result (HasRow b.old b.new op.Domain (t ∷ [])) }
    ensures cells { IfOk result (AreCells b.new (set_of number)) }
    ensures grows { Grows b.old b.new }
{
    if fits(b.width(), part_count(&b.arena, t)) {
        let id = set_of_arguments(b, t)?;
        return Ok(sure(b, id));
    }
    let alloc = b.arena.alloc();
    let id = set_of_edges(b, Vec::new(alloc))?;
    let top = b.formula.top();
    Ok(big_where(b, id, top))
}

/// The set of the arguments: of a function's, of the numbers from 1 to the length of a sequence or
/// tuple, which is Big where this is outside of the width, or of a record's names. (Specifying
/// Systems, section 16.1.7.)
#[tactic(auto, using(cell_arena::proofs::Growing::growing))]
pub fn domain(b: &mut Build, f: CellId) -> Result<Cells, AllocError>
    requires { HasArguments b.old f }
    ensures row { IfOk result (HasRow b.old b.new op.Domain (f ∷ [])) }
    ensures cells { IfOk result (λ r. (s : Sort) → OfSort b.old.arena.kinds s f → AreCells b.new (domain_sort s) r) }
    ensures grows { Grows b.old b.new }
{
    match b.arena.kind(f) {
        CellKind::Seq(_, _) => {
            let (id, outside) = seq_domain(b, f)?;
            Ok(big_where(b, id, outside))
        }
        CellKind::Tup(_) => {
            let cells = tuple_domain(b, f)?;
            Ok(cells)
        }
        _ => {
            let id = set_of_arguments(b, f)?;
            Ok(sure(b, id))
        }
    }
}
