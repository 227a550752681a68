// For each variable the place at which its binding may stand.
ghost use Rattle.std.specs.Prelude.{ℕ, ◌≡◌, OnOk, get_or};
ghost use Rattle.snowcat_rows.specs.Chains.{Variable as AnyVariable};
ghost use Rattle.snowcat_rows.specs.Codes.{variable};
ghost use Rattle.snowcat_rows.specs.inner.Places.{entry};

use crate::occurrences::Unknown;
use std::alloc::{AllocError, Global};

// A place that was never set is 0. A reader compares the variable of the binding that stands there, so a place that is
// out of date does no harm.
#[derive(Drop)]
pub(crate) struct Places {
    types: Vec<usize>,
    rows: Vec<usize>,
}

impl Places {
    // No place is set.
    pub(crate) fn new(alloc: Global) -> Places
        ensures { (x : AnyVariable) → entry result x ≡ 0 }
    {
        Places {
            types: Vec::new(alloc),
            rows: Vec::new(alloc),
        }
    }

    // The place of the variable.
    pub(crate) fn of(&self, x: Unknown) -> usize
        ensures { result ≡ entry self.now (variable x) }
    {
        match x {
            Unknown::Type(v) => read(self.types.as_slice(), v),
            Unknown::Row(r) => read(self.rows.as_slice(), r),
        }
    }

    // Sets the place of the variable.
    pub(crate) fn set(&mut self, x: Unknown, place: usize) -> Result<(), AllocError>
        ensures own { OnOk result (entry self.new (variable x) ≡ place) }
        ensures others { (y : AnyVariable) → (y ≡ variable x → ⊥) → entry self.new y ≡ entry self.old y }
    {
        match x {
            Unknown::Type(v) => write(&mut self.types, v, place),
            Unknown::Row(r) => write(&mut self.rows, r, place),
        }
    }
}

// The number at the index, or 0 past the end.
fn read(xs: &[usize], index: u32) -> usize
    ensures { result ≡ get_or xs.now index 0 }
{
    let at = index as usize;
    if at < xs.len() { xs[at] } else { 0 }
}

// Writes the number at the index, behind zeros where the list was shorter.
fn write(xs: &mut Vec<usize>, index: u32, value: usize) -> Result<(), AllocError>
    ensures own { OnOk result (get_or xs.new.items index 0 ≡ value) }
    ensures others { (j : ℕ) → (j ≡ index → ⊥) → get_or xs.new.items j 0 ≡ get_or xs.old.items j 0 }
{
    let at = index as usize;
    while xs.len() <= at {
        xs.push(0)?;
    }
    xs[at] = value;
    Ok(())
}
