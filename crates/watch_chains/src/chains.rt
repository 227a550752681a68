// The lists, kept as a first link for each code and a next link for each slot.
ghost use Rattle.std.specs.Prelude.{◌≡◌, ◌^◌, ◌<◌, ◌∷◌, ◌++◌, [], List, length, max, replicate, IfOk, OnOk, OnErr, Contains, slice_get, slice_set, slice_index_or};
ghost use Rattle.watch_chains.specs.Chains.{place_of, follow, LeadsOn, IsPacked};
ghost use Rattle.watch_chains.specs.Watches.{list_at, IsSlot, IsAbsent, IsWatchTable, IsFollowed, TakesOut};

use crate::Link;
use crate::table::LinkTable;
use std::alloc::{AllocError, Global};
use std::marker::Model;

/// One list of links for each literal code. A link stands in at most one list.
#[derive(Drop)]
pub struct WatchChains {
    // The first link of each list, by code.
    firsts: LinkTable,
    // The link behind each slot, by place. What a slot in no list has is not read.
    nexts: LinkTable,
}

impl Model for WatchChains {
    ghost use Rattle.std.specs.Prelude.{◌/◌, length};
    ghost use Rattle.watch_chains.specs.Watches.{Watches};
    ghost use Rattle.watch_chains.specs.Chains.{lists_of, Chained};

    ghost Value = { Watches };

    ghost view = { λ c. record {
      room = length c.nexts / 2;
      lists = lists_of c.firsts c.nexts;
    } };

    ghost invariant = { λ c. Chained c.firsts c.nexts (lists_of c.firsts c.nexts) };
}

impl WatchChains {
    /// An empty list for each code below `codes`, and room for no clause.
    pub fn new(alloc: Global, codes: usize) -> Result<WatchChains, AllocError>
        ensures { IfOk result (λ c. c ≡ record { room = 0; lists = replicate codes [] }) }
    {
        let firsts = LinkTable::with_places(alloc, codes)?;
        Ok(WatchChains {
            firsts,
            nexts: LinkTable::new(alloc),
        })
    }

    /// Makes room for the clauses below `clauses`, whose links can then be linked. A refusal, which
    /// comes only for want of memory or from 2^31 clauses on, changes nothing.
    pub fn reserve(&mut self, clauses: usize) -> Result<(), AllocError>
        ensures grown { OnOk result (self.new ≡ record self.old { room = max self.old.room clauses }) }
        ensures refused { OnErr result (self.new ≡ self.old) }
    {
        let Some(slots) = clauses.checked_mul(2) else {
            return Err(AllocError);
        };
        if self.nexts.len() < slots {
            self.nexts.grow(slots)?;
        }
        Ok(())
    }

    /// Puts `l` to the front of the list of `code`.
    pub fn link(&mut self, code: usize, l: Link)
        requires code { code < length self.old.lists }
        requires slot { IsSlot self.old.room l }
        requires absent { IsAbsent self.old.lists l }
        ensures { self.new ≡ record self.old {
          lists = slice_set self.old.lists code (l ∷ list_at self.old.lists code);
        } }
    {
        let first = self.firsts.get(code);
        let _ = self.nexts.len();
        self.nexts.set(l.place(), first);
        self.firsts.set(code, Some(l));
    }

    /// Takes the link behind `before`, or the first, out of the list of `code`, and answers it.
    pub fn unlink(&mut self, code: usize, before: Option<Link>) -> Link
        requires code { code < length self.old.lists }
        requires followed { IsFollowed (list_at self.old.lists code) before }
        ensures taken { TakesOut (list_at self.old.lists code) (list_at self.new.lists code) before result }
        ensures absent { IsAbsent self.new.lists result }
        ensures rest { self.new ≡ record self.old {
          lists = slice_set self.old.lists code (list_at self.new.lists code);
        } }
    {
        match before {
            None => take_first(&mut self.firsts, &self.nexts, code),
            Some(before) => take_behind(&mut self.nexts, before),
        }
    }

    /// The first link of the list of `code`, and `None` exactly where the list is empty.
    pub fn first(&self, code: usize) -> Option<Link>
        requires { code < length self.now.lists }
        ensures front { result ≡ slice_get (list_at self.now.lists code) 0 }
        ensures table { IsWatchTable self.now.room self.now.lists }
    {
        self.firsts.get(code)
    }

    /// The link behind `l` in the list of `code`, and `None` exactly where `l` is the last.
    pub fn next_of(&self, code: usize, l: Link) -> Option<Link>
        requires code { code < length self.now.lists }
        requires linked { Contains (list_at self.now.lists code) l }
        ensures { (front rest : List Link) → list_at self.now.lists code ≡ front ++ l ∷ rest
            → result ≡ slice_get rest 0 }
    {
        next_link(&self.nexts, l)
    }
}

// The link behind `l`.
fn next_link(nexts: &LinkTable, l: Link) -> Option<Link>
    requires { place_of l < length nexts.now }
    ensures same { result ≡ follow nexts.now l }
    ensures packed { IsPacked result }
    ensures small { length nexts.now < 2 ^ 32 }
{
    let _ = nexts.len();
    nexts.get(l.place())
}

// Takes out the first link of the list of `code`.
fn take_first(firsts: &mut LinkTable, nexts: &LinkTable, code: usize) -> Link
    requires code { code < length firsts.old }
    requires first { LeadsOn nexts.now (slice_index_or firsts.old code None) }
    ensures taken { slice_index_or firsts.old code None ≡ Some result }
    ensures firsts { firsts.new ≡ slice_set firsts.old code (follow nexts.now result) }
{
    let taken = firsts.get(code).unwrap();
    firsts.set(code, next_link(nexts, taken));
    taken
}

// Takes out the link behind `before`.
fn take_behind(nexts: &mut LinkTable, before: Link) -> Link
    requires before { place_of before < length nexts.old }
    requires next { LeadsOn nexts.old (follow nexts.old before) }
    ensures taken { follow nexts.old before ≡ Some result }
    ensures nexts { nexts.new ≡ slice_set nexts.old (place_of before) (follow nexts.old result) }
{
    let taken = next_link(nexts, before).unwrap();
    let behind = next_link(nexts, taken);
    nexts.set(before.place(), behind);
    taken
}
