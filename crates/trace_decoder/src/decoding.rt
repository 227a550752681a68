//! The value of a cell, and the state of several.

ghost use Rattle.cell_arena.specs.Decode.{decode};
ghost use Rattle.std.specs.Prelude.{◌<◌, ◌≡◌, All, IfOk, length, map};

use crate::decoder::Decoder;
use cell_arena::{Build, CellId};
use sat_formula::Assignment;
use std::alloc::{AllocError, Global};
use std::collections::BTreeMap;
use tla_meaning::State;
use tla_values::{List, Value};

/// The value of a cell under an assignment. It is normal, and of the cell's type. An assignment that
/// satisfies the formula of the build gives the codes of texts and the lengths of sequences within
/// their ranges; under any other a text is the empty one where its code is none, and a sequence ends
/// with its places.
pub fn decode(alloc: Global, b: &Build, id: CellId, a: &Assignment) -> Result<Value, AllocError>
    requires { id.index < length b.now.arena.kinds }
    ensures { IfOk result (λ v. v ≡ decode b.now.arena a.now id) }
{
    let decoder = Decoder::new(alloc, b, a);
    let mut known = BTreeMap::new(alloc);
    decoder.value(&mut known, id)
}

/// The state of the values of cells under an assignment, in the order of the cells, as `decode` gives
/// them.
pub fn decode_state(
    alloc: Global,
    b: &Build,
    cells: &List<CellId>,
    a: &Assignment,
) -> Result<State, AllocError>
    requires { All (λ id. id.index < length b.now.arena.kinds) cells.now }
    ensures { IfOk result (λ s. s.vals ≡ map (decode b.now.arena a.now) cells.now) }
{
    let decoder = Decoder::new(alloc, b, a);
    let mut known = BTreeMap::new(alloc);
    let mut values = Vec::new(alloc);
    for id in cells.as_slice() {
        let value = decoder.value(&mut known, *id)?;
        values.push(value)?;
    }
    Ok(State {
        vals: List::from_vec(values),
    })
}
