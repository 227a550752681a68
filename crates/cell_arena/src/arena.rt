//! Cells in the order in which they were made, no two of which are of one kind.

ghost use Rattle.std.specs.Prelude.{◌≡◌, ◌<◌, ◌≤◌, ◌++◌, ◌∷◌, ◌^◌, [], Bool, List, length, IfNone, IfOk, IfSome, OnOk, OnErr};
ghost use Rattle.cell_arena.specs.Cells.{WellBuilt, IsHeld, AllDiffer, kind_at};
ghost use Rattle.cell_arena.specs.Decode.{decode, kind_value};
ghost use Rattle.cell_arena.specs.inner.Places.{IsNew, IsOfKind};

use crate::chains::Chains;
use crate::kinds::{CellId, CellKind};
use std::alloc::{AllocError, Global};
use std::marker::Model;
use tla_values::{List, Text, copy_texts};

/// Cells of different kinds, each of which refers to older ones only. Contracts see an arena as its
/// texts, its width, the kinds of its cells, and a number above all variables that they name.
#[derive(Drop)]
pub struct Arena {
    alloc: Global,
    texts: List<Text>,
    width: u32,
    kinds: Vec<CellKind>,
    vars: usize,
    chains: Chains,
}

impl Model for Arena {
    ghost use Rattle.cell_arena.specs.Cells.{Cells, WellBuilt};
    ghost use Rattle.cell_arena.specs.inner.Places.{AreChains};

    ghost Value = { Cells };

    ghost view = { λ a. record { texts = a.texts; width = a.width; kinds = a.kinds.items; vars = a.vars } };

    ghost invariant = { λ a. WellBuilt (record { texts = a.texts; width = a.width; kinds = a.kinds.items; vars = a.vars }) × AreChains a.kinds.items a.chains };
}

impl Arena {
    // No cells yet.
    pub(crate) fn new(alloc: Global, texts: &List<Text>, width: u32) -> Result<Arena, AllocError>
        requires differ { AllDiffer texts.now }
        requires from { 4 ≤ width }
        requires to { width ≤ 64 }
        ensures same { IfOk result (λ a. a ≡ record { texts = texts.now; width = width; kinds = []; vars = 0 }) }
        ensures built { IfOk result WellBuilt }
    {
        if texts.len() >= 1 << 31 {
            return Err(AllocError);
        }
        let texts = copy_texts(alloc, texts)?;
        let chains = Chains::new(alloc)?;
        Ok(Arena {
            alloc,
            texts,
            width,
            kinds: Vec::new(alloc),
            vars: 0,
            chains,
        })
    }

    /// The allocator of the cells.
    pub fn alloc(&self) -> Global {
        self.alloc
    }

    /// How many cells there are.
    pub fn len(&self) -> usize
        ensures { result ≡ length self.now.kinds }
    {
        self.kinds.len()
    }

    /// The texts that the codes of text cells stand for.
    pub(crate) fn texts(&self) -> &List<Text>
        ensures { result.now ≡ self.now.texts }
    {
        &self.texts
    }

    /// The width of words.
    pub(crate) fn width(&self) -> u32
        ensures { result ≡ self.now.width }
    {
        self.width
    }

    /// The kind of a cell. It takes no memory.
    #[tactic(auto, using(crate::proofs::Decoding::decoding))]
    pub fn kind(&self, id: CellId) -> &CellKind
        requires { id.index < length self.now.kinds }
        ensures same { result.now ≡ kind_at self.now.kinds id }
        ensures held { IsHeld id.index self.now.vars self.now.width result.now }
        ensures decodes { (a : List Bool) → decode self.now a id ≡ kind_value self.now.texts a (decode self.now a) result.now }
    {
        &self.kinds[id.index]
    }

    // The cell of this kind, where there is one.
    pub(crate) fn find(&self, kind: &CellKind) -> Option<CellId>
        ensures found { IfSome result (IsOfKind self.now.kinds kind.now) }
        ensures none { IfNone result (IsNew self.now.kinds kind.now) }
    {
        self.chains.find(&self.kinds, kind)
    }

    // One more cell, of a new kind, over a formula with this many variables.
    pub(crate) fn push(&mut self, kind: CellKind, vars: usize) -> Result<CellId, AllocError>
        requires more { self.old.vars ≤ vars }
        requires held { IsHeld (length self.old.kinds) vars self.old.width kind }
        requires new { IsNew self.old.kinds kind }
        ensures id { IfOk result (λ id. id.index ≡ length self.old.kinds) }
        ensures added { OnOk result (self.new ≡ record self.old { kinds = self.old.kinds ++ kind ∷ []; vars = vars }) }
        ensures kept { OnErr result (self.new ≡ self.old) }
        ensures built { WellBuilt self.new }
    {
        let index = self.kinds.len();
        self.kinds.reserve(1)?;
        self.chains.push(&kind)?;
        self.kinds.push_reserved(kind);
        self.vars = vars;
        Ok(CellId { index })
    }
}
