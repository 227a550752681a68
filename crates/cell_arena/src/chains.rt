//! Chains of cells, by which the cell of a kind is found.

ghost use Rattle.cell_arena.specs.inner.Places.{AddsPlace, AreChains, IsNew, IsOfKind, SameChains, chain_of};
ghost use Rattle.std.specs.Prelude.{◌≡◌, [], IfNone, IfOk, IfSome, OnErr, OnOk, length};

use crate::alike::same_kind;
use crate::hashing::number_of;
use crate::kinds::{CellId, CellKind};
use std::alloc::{AllocError, Global};

// How many chains there are.
const COUNT: usize = 65_536;

// The places of cells, from 1, each in the chain of its kind's number.
#[derive(Drop)]
pub(crate) struct Chains {
    // The newest place of each chain; 0 where it has none.
    heads: Vec<usize>,
    // At each place the next older one of its chain.
    links: Vec<usize>,
}

impl Chains {
    // The chains of no cells.
    pub(crate) fn new(alloc: Global) -> Result<Chains, AllocError>
        ensures { IfOk result (AreChains []) }
    {
        let mut heads = Vec::new(alloc);
        heads.resize(COUNT, 0)?;
        Ok(Chains {
            heads,
            links: Vec::new(alloc),
        })
    }

    // The cell of this kind, where there is one.
    pub(crate) fn find(&self, kinds: &[CellKind], kind: &CellKind) -> Option<CellId>
        requires { AreChains kinds.now self.now }
        ensures found { IfSome result (IsOfKind kinds.now kind.now) }
        ensures none { IfNone result (IsNew kinds.now kind.now) }
    {
        let mut place = self.heads[number_of(kind) % COUNT];
        while place > 0 {
            let index = place - 1;
            if same_kind(&kinds[index], kind) {
                return Some(CellId { index });
            }
            let older = self.links[index];
            place = older;
        }
        None
    }

    // One more cell, of this kind.
    pub(crate) fn push(&mut self, kind: &CellKind) -> Result<(), AllocError>
        requires { length self.old.heads.items ≡ 65536 }
        ensures added { OnOk result (AddsPlace self.old self.new (chain_of kind.now)) }
        ensures kept { OnErr result (SameChains self.old self.new) }
    {
        let chain = number_of(kind) % COUNT;
        let head = self.heads[chain];
        self.links.push(head)?;
        self.heads[chain] = self.links.len();
        Ok(())
    }
}
