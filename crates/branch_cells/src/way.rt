// From where paths are taken.

use cell_arena::CellId;
use expr_rewriter::CellEnv;
use kernel_shapes::Shape;
use shape_bounds::Target;
use tla_values::List;

/// From where paths are taken: the cells that names have before any of them is assigned, their shapes, of which `Empty`
/// stands for none, where the paths assign, the width, and for each name the cell that it has where a path gives it no
/// value.
#[derive(Drop)]
pub struct Way {
    pub env: CellEnv,
    pub now: List<Shape>,
    pub next: List<Shape>,
    pub target: Target,
    pub width: u32,
    pub others: List<CellId>,
}
