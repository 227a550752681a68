//! Free choices of the members of a pick's sets.

ghost use Rattle.cell_arena.specs.Growth.{Grows};
ghost use Rattle.cell_merge.specs.Picks.{IsSetCell};
ghost use Rattle.expr_rewriter.specs.inner.Parts.{AreTrees, CanRewriteAll};
ghost use Rattle.kernel_trees.specs.Paths.{sets as sets_of};
ghost use Rattle.path_cells.specs.inner.Steps.{HasNoChoice, PicksEach, cells_of};
ghost use Rattle.std.specs.Prelude.{◌≡◌, All, IfOk, IfSome, None};

use cell_arena::{Build, CellId};
use cell_merge::pick;
use expr_rewriter::{CellEnv, Cells, rewrite};
use kernel_trees::Ker;
use sat_formula::Lit;
use std::alloc::AllocError;

/// The cells of the sets of a pick, all of which are evaluated.
#[tactic(auto, using(cell_arena::proofs::Growing::growing))]
pub(crate) fn sets(
    b: &mut Build,
    env: &CellEnv,
    ps: &[(u32, Ker)],
) -> Result<Vec<Cells>, AllocError>
    requires { CanRewriteAll b.old env.now (sets_of ps.now) }
    ensures trees { IfOk result (λ xs. AreTrees b.new env.entry.now (sets_of ps.now) xs.items) }
    ensures grows { Grows b.old b.new }
{
    let mut made = Vec::new(b.arena.alloc());
    for i in 0..ps.len() {
        let pair = &ps[i];
        let x = rewrite(b, &pair.1, env)?;
        made.push(x)?;
    }
    Ok(made)
}

/// A cell and a literal for each set: where all the literals are true each cell has a member of its set as its value,
/// and members of all sets, whichever they are, are their values under some extension of an older assignment. `None`
/// only where some set is always empty.
#[tactic(auto, using(cell_arena::proofs::Growing::growing))]
pub(crate) fn pick_each(
    b: &mut Build,
    xs: &[Cells],
) -> Result<Option<(Vec<CellId>, Vec<Lit>)>, AllocError>
    requires { All (λ x. IsSetCell b.old x.cell) xs.now }
    ensures none { IfOk result (λ r. r ≡ None → HasNoChoice b.old (cells_of xs.now)) }
    ensures picks { IfOk result (λ r. IfSome r (λ c.
        PicksEach b.old b.new (cells_of xs.now) c.0.items c.1.items)) }
    ensures grows { Grows b.old b.new }
{
    let mut cells = Vec::new(b.arena.alloc());
    let mut lits = Vec::new(b.arena.alloc());
    for i in 0..xs.len() {
        let x = &xs[i];
        let Some(picked) = pick(b, x.cell)? else {
            return Ok(None);
        };
        cells.push(picked.0)?;
        lits.push(picked.1)?;
    }
    Ok(Some((cells, lits)))
}
