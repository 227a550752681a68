// Rows of the table of shapes that go by a type.
ghost use Rattle.std.specs.Prelude.{ℕ, [], ◌∷◌, ◌≡◌, IfOk, map};
ghost use Rattle.kernel_trees.specs.TypeKinds.{kind_of};
ghost use Rattle.kernel_shapes.specs.Codes.{mean};
ghost use Rattle.kernel_shapes.specs.Kernel.{kind_or_truth};
ghost use Rattle.kernel_shapes.specs.Rows.{a_sequence, no_literal, the_places};
ghost use Rattle.kernel_shapes.specs.Trees.{domain_row, tuple_row};
ghost use Rattle.shape_bounds.specs.inner.Forms.{domain_by, items_by};
ghost use Rattle.shape_bounds.specs.Kept.{IsWidth};
ghost use Rattle.shape_bounds.specs.inner.Table.{row_kept};

use crate::intervals::interval;
use crate::joins::join_all;
use crate::kinds::{TypeForm, type_form};
use crate::making::{sequence, set};
use crate::parts::{copy_part, count, inside};
use kernel_shapes::Shape;
use snowcat_rows::Ty;
use std::alloc::{AllocError, Global};
use tla_values::List;

// The domain of a function, a sequence, a tuple or a record.
pub(crate) fn domain_of(alloc: Global, t: &Ty, a: &Shape, width: u32) -> Result<Shape, AllocError>
    requires sized { IsWidth width }
    ensures { IfOk result (λ r. mean r
        ≡ row_kept width (domain_row (kind_or_truth (kind_of t.now))) no_literal (mean a.now ∷ [])) }
{
    match type_form(t) {
        Some(form) => domain_by(alloc, form, a, width),
        None => Err(AllocError),
    }
}

fn domain_by(alloc: Global, form: TypeForm, a: &Shape, width: u32) -> Result<Shape, AllocError>
    requires sized { IsWidth width }
    ensures { IfOk result (λ r. mean r ≡ row_kept width (domain_by form) no_literal (mean a.now ∷ [])) }
{
    match form {
        TypeForm::Function => {
            let argument = copy_part(alloc, inside(a))?;
            set(alloc, count(a), argument)
        }
        TypeForm::Record => set(alloc, count(a), Shape::Atom),
        TypeForm::Sequence => places_of(alloc, a, width),
        TypeForm::Other => places_of(alloc, a, width),
    }
}

// The numbers of places.
fn places_of(alloc: Global, a: &Shape, width: u32) -> Result<Shape, AllocError>
    requires sized { IsWidth width }
    ensures { IfOk result (λ r. mean r ≡ row_kept width the_places no_literal (mean a.now ∷ [])) }
{
    let most = count(a);
    set(alloc, most, interval(1, i128::from(most), width))
}

// A tuple or a sequence of items.
pub(crate) fn items_of(alloc: Global, t: &Ty, items: Vec<Shape>) -> Result<Shape, AllocError>
    ensures { IfOk result (λ r. (w : ℕ) → mean r
        ≡ row_kept w (tuple_row (kind_or_truth (kind_of t.now))) no_literal (map mean items.items)) }
{
    match type_form(t) {
        Some(form) => items_by(alloc, form, items),
        None => Err(AllocError),
    }
}

fn items_by(alloc: Global, form: TypeForm, items: Vec<Shape>) -> Result<Shape, AllocError>
    ensures { IfOk result (λ r. (w : ℕ) → mean r ≡ row_kept w (items_by form) no_literal (map mean items.items)) }
{
    match form {
        TypeForm::Sequence => sequence_of(alloc, items.as_slice()),
        TypeForm::Function | TypeForm::Record | TypeForm::Other => Ok(Shape::Tup(List::from_vec(
            items,
        ))),
    }
}

fn sequence_of(alloc: Global, items: &[Shape]) -> Result<Shape, AllocError>
    ensures { IfOk result (λ r. (w : ℕ) → mean r ≡ row_kept w a_sequence no_literal (map mean items.now)) }
{
    let item = join_all(alloc, items)?;
    sequence(alloc, items.len() as u64, item)
}
