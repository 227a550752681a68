// An encoder's levels, counted.
ghost use Rattle.std.specs.Prelude.{◌≡◌, ◌<◌, OnOk, length};
ghost use Rattle.accepted_systems.specs.Checking.{CanCheck};
ghost use Rattle.step_encoder.specs.Encoders.{AddsLevel, IsEncoder};

use front_end::Accepted;
use std::alloc::{AllocError, Global};
use step_encoder::Encoder;

/// How many there are in an encoder.
#[derive(Drop)]
pub(crate) struct Sizes {
    pub clauses: usize,
    pub variables: usize,
    pub cells: usize,
}

/// The sizes behind the start and as many steps as the length.
pub(crate) fn sizes_of(alloc: Global, a: &Accepted) -> Result<Sizes, AllocError>
    requires { CanCheck a.now }
{
    let mut encoder = Encoder::new(alloc, &a.system, a.width)?;
    for level in 0..a.length + 1 {
        add_level(&mut encoder, level)?;
    }
    Ok(Sizes {
        clauses: encoder.build.formula.clauses().clauses().len(),
        variables: encoder.build.formula.vars(),
        cells: encoder.build.arena.len(),
    })
}

// The encoder with its next level.
fn add_level(encoder: &mut Encoder, level: u32) -> Result<(), AllocError>
    requires encoder { IsEncoder encoder.old }
    requires next { (length encoder.old.levels ≡ level) × (level < 4294967295) }
    ensures { OnOk result (AddsLevel encoder.old encoder.new) }
{
    if level == 0 {
        encoder.start()
    } else {
        encoder.advance()
    }
}
