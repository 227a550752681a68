//! The encoder of a system's levels.
ghost use Rattle.std.specs.Prelude.{[], ◌+◌, ◌<◌, ◌≡◌, ◌≤◌, IfOk, OnOk, Some, length, slice_get};
ghost use Rattle.cell_arena.specs.Growth.{Grows};
ghost use Rattle.step_encoder.specs.inner.Growing.{HasMore};
ghost use Rattle.step_encoder.specs.Encoders.{AddsLevel, AsksAt, IsEncoder, IsOfLevels};
ghost use Rattle.step_encoder.specs.Encoders.{literal_of, width_of};
ghost use Rattle.encoder_laws.specs.declared.level.LevelCells.{LevelCells as Level};
ghost use Rattle.step_laws.specs.Encodable.{CanEncode};

use crate::starting::first_level;
use crate::stepping::next_level;
use cell_arena::{Build, CellId};
use encoder_laws::LevelCells;
use kernel_shapes::Shape;
use kernel_trees::System;
use sat_formula::Lit;
use shape_bounds::{next_shapes, start_shapes};
use std::alloc::{AllocError, Global};
use system_texts::texts_of;
use tla_meaning::Query;
use tla_values::List;

/// The levels so far of a system's executions under a width. Level 0 is the start. The shapes are
/// those of the newest level.
#[derive(Drop)]
pub struct Encoder<'a> {
    pub system: &'a System,
    pub build: Build,
    pub levels: List<LevelCells>,
    pub shapes: List<Shape>,
}

impl<'a> Encoder<'a> {
    /// An encoder without levels.
    pub fn new(alloc: Global, system: &'a System, width: u32) -> Result<Encoder<'a>, AllocError>
        requires system { CanEncode system.now }
        requires narrow { 4 ≤ width }
        requires wide { width ≤ 64 }
        ensures encoder { IfOk result (λ e. IsEncoder e × (width_of e ≡ width)) }
        ensures begins { IfOk result (λ e. (e.system.now ≡ system.now) × (e.levels ≡ [])) }
    {
        let texts = texts_of(alloc, system)?;
        let build = Build::new(alloc, &texts, width)?;
        Ok(Encoder {
            system,
            build,
            levels: List::new(alloc),
            shapes: List::new(alloc),
        })
    }

    /// The first level: the states at which the start is TRUE. There is none so far.
    pub fn start(&mut self) -> Result<(), AllocError>
        requires encoder { IsEncoder self.old }
        requires empty { self.old.levels ≡ [] }
        ensures adds { OnOk result (AddsLevel self.old self.new) }
        ensures grows { OnOk result (Grows self.old.build self.new.build) }
    {
        let alloc = self.build.arena.alloc();
        let width = self.build.width();
        let shapes = start_shapes(alloc, self.system, width)?;
        let level = first_level(&mut self.build, self.system, &shapes)?;
        self.add(level, shapes)?;
        Ok(())
    }

    /// One level more: the states to which a step leads from those of the last level. There is one,
    /// and there are fewer than 2^32 - 1.
    pub fn advance(&mut self) -> Result<(), AllocError>
        requires encoder { IsEncoder self.old }
        requires some { 0 < length self.old.levels }
        requires few { length self.old.levels < 4294967295 }
        ensures adds { OnOk result (AddsLevel self.old self.new) }
        ensures grows { OnOk result (Grows self.old.build self.new.build) }
    {
        let alloc = self.build.arena.alloc();
        let width = self.build.width();
        let shapes = next_shapes(alloc, self.system, &self.shapes, width)?;
        let levels = self.levels.as_slice();
        let last = &levels[levels.len() - 1];
        let level = next_level(&mut self.build, self.system, last, &self.shapes, &shapes)?;
        self.add(level, shapes)?;
        Ok(())
    }

    // The level as the newest, with its shapes.
    fn add(&mut self, level: LevelCells, shapes: List<Shape>) -> Result<(), AllocError>
        ensures { OnOk result (HasMore self.old self.new level shapes) }
    {
        self.levels.push(level)?;
        self.shapes = shapes;
        Ok(())
    }

    /// How many levels there are.
    pub fn levels(&self) -> usize
        ensures { result ≡ length self.now.levels }
    {
        self.levels.as_slice().len()
    }

    /// The literal that is true where the question of the level holds.
    pub fn query(&self, level: u32, q: Query) -> Lit
        requires encoder { IsEncoder self.now }
        requires there { level < length self.now.levels }
        requires asked { IsOfLevels q }
        ensures { (x : Level) → slice_get self.now.levels level ≡ Some x →
            (result ≡ literal_of x q) × AsksAt self.now level x q }
    {
        let x = &self.levels.as_slice()[level as usize];
        literal(x, q)
    }

    /// The cells of the level's state, one for each name. Where the literal of a fault of the step
    /// is true they are a state at which the start, or to which the step, has it.
    pub fn cells(&self, level: u32) -> &List<CellId>
        requires there { level < length self.now.levels }
        ensures { (x : Level) → slice_get self.now.levels level ≡ Some x → result.now ≡ x.cells }
    {
        &self.levels.as_slice()[level as usize].cells
    }

    /// The cells of a state at which the start, or to which the step, has a fault, where it has
    /// one: those of the level.
    pub fn attempt(&self, level: u32) -> &List<CellId>
        requires there { level < length self.now.levels }
        ensures { (x : Level) → slice_get self.now.levels level ≡ Some x → result.now ≡ x.cells }
    {
        self.cells(level)
    }
}

fn literal(x: &LevelCells, q: Query) -> Lit
    ensures { result ≡ literal_of x.now q }
{
    match q {
        Query::StepWrong => x.step_wrong,
        Query::StepBig | Query::AssumeBig => x.step_big,
        Query::InvNotTrue => x.not_true,
        Query::InvBig => x.inv_big,
    }
}
