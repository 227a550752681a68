// What names have: a cell of their type, the cells or shapes of a state, or those of the constants
// alone.

ghost use Rattle.cell_arena.specs.Growth.{Grows};
ghost use Rattle.kernel_shapes.specs.declared.bounds.Shape.TheVariants as code;
ghost use Rattle.sat_formula.specs.Formula.{WellFormed};
ghost use Rattle.std.specs.Prelude.{[], ◌≡◌, IfOk, None, Some, map, if◌then◌else◌};
ghost use Rattle.step_encoder.specs.inner.Asked.{count};
ghost use Rattle.step_branches.specs.Ways.{of_constants, shapes_of_constants};
ghost use Rattle.typed_cells.specs.Known.{IsTextAmong};
ghost use Rattle.typed_cells.specs.inner.Defaulted.{AreDefaults};

use cell_arena::{Build, CellId};
use kernel_shapes::{Shape, copy_shape};
use snowcat_rows::Ty;
use std::alloc::{AllocError, Global};
use typed_cells::default_cell;

// A formula names its own variables alone. The laws of levels ask it of each build on the way.
pub(crate) fn formed(b: &Build)
    ensures { WellFormed b.now.formula }
{
    let _ = b.formula.vars();
}

// The default of each type.
#[tactic(auto, using(cell_arena::proofs::Growing::growing))]
pub(crate) fn default_cells(b: &mut Build, types: &[Ty]) -> Result<Vec<CellId>, AllocError>
    requires { IsTextAmong b.old.arena.texts [] }
    ensures cells { IfOk result (λ cs. AreDefaults b.new types.now cs.items) }
    ensures grows { Grows b.old b.new }
{
    let mut cells = Vec::new(b.arena.alloc());
    for i in 0..types.len() {
        let id = default_cell(b, &types[i])?;
        cells.push(id)?;
    }
    Ok(cells)
}

// How many names are constants.
pub(crate) fn constant_count(fixed: &[bool]) -> usize
    ensures { result ≡ count fixed.now }
{
    fixed.iter().filter(|b| **b).count()
}

pub(crate) fn no_cells(alloc: Global, fixed: &[bool]) -> Result<Vec<Option<CellId>>, AllocError>
    ensures { IfOk result (λ r. r.items ≡ map (λ _. None) fixed.now) }
{
    fixed.iter().map(|_| None).collect(alloc)
}

pub(crate) fn all_cells(alloc: Global, cells: &[CellId]) -> Result<Vec<Option<CellId>>, AllocError>
    ensures { IfOk result (λ r. r.items ≡ map (λ id. Some id) cells.now) }
{
    cells.iter().map(|id| Some(*id)).collect(alloc)
}

// The cells of the constants, and none of the other names.
pub(crate) fn constant_cells(
    alloc: Global,
    fixed: &[bool],
    cells: &[CellId],
) -> Result<Vec<Option<CellId>>, AllocError>
    ensures { IfOk result (λ r. r.items ≡ of_constants fixed.now cells.now) }
{
    let mut items = Vec::new(alloc);
    for (constant, id) in fixed.iter().zip(cells) {
        let item = cell_if(*constant, *id);
        items.push(item)?;
    }
    Ok(items)
}

fn cell_if(constant: bool, id: CellId) -> Option<CellId>
    ensures { result ≡ (if constant then Some id else None) }
{
    if constant { Some(id) } else { None }
}

pub(crate) fn no_shapes(alloc: Global, fixed: &[bool]) -> Result<Vec<Shape>, AllocError>
    ensures { IfOk result (λ r. r.items ≡ map (λ _. code.Empty) fixed.now) }
{
    fixed.iter().map(|_| Shape::Empty).collect(alloc)
}

pub(crate) fn copy_shapes(alloc: Global, shapes: &[Shape]) -> Result<Vec<Shape>, AllocError>
    ensures { IfOk result (λ r. r.items ≡ shapes.now) }
{
    let mut copies = Vec::new(alloc);
    for i in 0..shapes.len() {
        let copy = copy_shape(alloc, &shapes[i])?;
        copies.push(copy)?;
    }
    Ok(copies)
}

// The shapes of the constants, and Empty, which stands for none, of the other names.
pub(crate) fn constant_shapes(
    alloc: Global,
    fixed: &[bool],
    shapes: &[Shape],
) -> Result<Vec<Shape>, AllocError>
    ensures { IfOk result (λ r. r.items ≡ shapes_of_constants fixed.now shapes.now) }
{
    let mut copies = Vec::new(alloc);
    for (constant, shape) in fixed.iter().zip(shapes) {
        let copy = shape_if(alloc, *constant, shape)?;
        copies.push(copy)?;
    }
    Ok(copies)
}

fn shape_if(alloc: Global, constant: bool, shape: &Shape) -> Result<Shape, AllocError>
    ensures { IfOk result (λ r. r ≡ (if constant then shape.now else code.Empty)) }
{
    if constant {
        copy_shape(alloc, shape)
    } else {
        Ok(Shape::Empty)
    }
}
