// The states for which the cells of levels stand.
ghost use Rattle.std.specs.Prelude.{◌≤◌, IfOk, length};
ghost use Rattle.step_encoder.specs.Encoders.{IsEncoder};
ghost use Rattle.bounded_engine.specs.inner.Finding.{AreCellsOf, AreDecoded, IsDecoded};

use cell_arena::CellId;
use sat_formula::Assignment;
use std::alloc::{AllocError, Global};
use step_encoder::Encoder;
use tla_meaning::State;
use tla_values::List;
use trace_decoder::{decode_state, decoded_values_have_their_types};

/// The states of the first levels under an assignment.
pub(crate) fn decode_states(
    alloc: Global,
    encoder: &Encoder,
    count: u32,
    assignment: &Assignment,
) -> Result<List<State>, AllocError>
    requires encoder { IsEncoder encoder.now }
    requires there { count ≤ length encoder.now.levels }
    ensures { IfOk result (AreDecoded encoder.now assignment.now count) }
{
    let mut states = Vec::new(alloc);
    for level in 0..count {
        let state = decode_cells(alloc, encoder, encoder.cells(level), assignment)?;
        states.push(state)?;
    }
    Ok(List::from_vec(states))
}

/// The state of a level's cells under an assignment.
pub(crate) fn decode_cells(
    alloc: Global,
    encoder: &Encoder,
    cells: &List<CellId>,
    assignment: &Assignment,
) -> Result<State, AllocError>
    requires encoder { IsEncoder encoder.now }
    requires cells { AreCellsOf encoder.now cells.now }
    ensures { IfOk result (IsDecoded encoder.now cells.now assignment.now) }
{
    decoded_values_have_their_types();
    decode_state(alloc, &encoder.build, cells, assignment)
}
