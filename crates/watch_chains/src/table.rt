//! Links by number, in little memory.

ghost use Rattle.std.specs.Prelude.{◌≡◌, ℕ, ◌^◌, ◌<◌, ◌≤◌, [], length, replicate, IfOk, OnOk, OnErr, slice_index_or, slice_set, None};
ghost use Rattle.watch_chains.specs.Chains.{linked, IsPacked, IsLonger};

use crate::Link;
use std::alloc::{AllocError, Global};
use std::marker::Model;

// Stands where there is no link.
const NOTHING: u32 = 4_294_967_295;

/// A table of links, each of which may be missing. Contracts see it as a list. It has less than 2^32
/// places.
#[derive(Drop)]
pub struct LinkTable {
    // For each link twice its clause, and its slot.
    numbers: Vec<u32>,
}

impl Model for LinkTable {
    ghost use Rattle.std.specs.Prelude.{List, Option, length, ◌<◌, ◌^◌};
    ghost use Rattle.watch_chains.specs.declared.link.Link.{Link};

    ghost Value = { List (Option Link) };

    ghost use Rattle.watch_chains.specs.Chains.{links_in};

    ghost view = { λ t. links_in t.numbers.items };

    ghost invariant = { λ t. length t.numbers.items < 2 ^ 32 };
}

impl LinkTable {
    /// No places yet. The table keeps the allocator.
    pub fn new(alloc: Global) -> LinkTable
        ensures { result ≡ [] }
    {
        LinkTable {
            numbers: Vec::new(alloc),
        }
    }

    /// A table of `n` places without a link.
    pub fn with_places(alloc: Global, n: usize) -> Result<LinkTable, AllocError>
        ensures { IfOk result (λ t. t ≡ replicate n None) }
    {
        if n > NOTHING as usize {
            return Err(AllocError);
        }
        let numbers = vec![in alloc; NOTHING; n]?;
        Ok(LinkTable { numbers })
    }

    /// How many places there are.
    pub fn len(&self) -> usize
        ensures same { result ≡ length self.now }
        ensures small { result < 2 ^ 32 }
    {
        self.numbers.len()
    }

    /// The link at a place.
    pub fn get(&self, i: usize) -> Option<Link>
        requires { i < length self.now }
        ensures same { result ≡ slice_index_or self.now i None }
        ensures packed { IsPacked result }
    {
        link_of(self.numbers[i])
    }

    /// Puts a link, or none, at a place.
    pub fn set(&mut self, i: usize, l: Option<Link>)
        requires place { i < length self.old }
        requires packed { IsPacked l }
        ensures { self.new ≡ slice_set self.old i l }
    {
        self.numbers[i] = number_of(l);
    }

    /// Adds places without a link, until there are `n`. A refusal changes nothing.
    pub fn grow(&mut self, n: usize) -> Result<(), AllocError>
        requires { length self.old ≤ n }
        ensures longer { OnOk result (IsLonger n self.old self.new) }
        ensures err { OnErr result (self.new ≡ self.old) }
    {
        if n > NOTHING as usize {
            return Err(AllocError);
        }
        self.numbers.resize(n, NOTHING)?;
        Ok(())
    }
}

// The link of a number.
fn link_of(number: u32) -> Option<Link>
    ensures same { result ≡ linked number }
    ensures packed { IsPacked result }
{
    if number == NOTHING {
        None
    } else {
        Some(Link {
            clause: (number / 2) as usize,
            slot: (number % 2) as u8,
        })
    }
}

// The number of a link.
fn number_of(l: Option<Link>) -> u32
    requires { IsPacked l }
    ensures { linked result ≡ l }
{
    match l {
        None => NOTHING,
        Some(l) => l.place() as u32,
    }
}
