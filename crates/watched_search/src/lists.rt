//! What a literal watches.

ghost use Rattle.std.specs.Prelude.{◌≡◌, ◌+◌, ◌<◌, ◌++◌, ◌∷◌, [], length, slice_index_or, slice_set, OnOk, OnErr};
ghost use Rattle.std.specs.List.{swap_remove};
ghost use Rattle.watched_search.specs.inner.Lists.{link_of as link_in};

use std::alloc::{AllocError, Global};
use std::marker::Model;
use watch_chains::Link;

/// A clause that a literal watches: its link, as twice the clause's number with the slot added, and
/// the code of a literal of the clause, which needs no look where that one is true.
#[derive(Clone, Copy, Debug)]
pub struct Watch {
    pub link: u32,
    pub blocker: u32,
}

/// What a literal watches, and how much there is room for. Contracts see both.
#[derive(Drop)]
pub struct WatchList {
    watches: Vec<Watch>,
    room: usize,
}

impl Model for WatchList {
    ghost use Rattle.std.specs.Prelude.{◌≤◌};
    ghost use Rattle.std.specs.Vec.{vec_capacity};
    ghost use Rattle.watched_search.specs.inner.Lists.{ListView};

    ghost Value = { ListView };

    ghost view = { λ t. record { watches = t.watches.items; room = t.room } };

    ghost invariant = { λ t. t.room ≤ vec_capacity t.watches };
}

impl WatchList {
    /// Nothing, with room for nothing. The list keeps the allocator.
    pub fn new(alloc: Global) -> WatchList
        ensures { result ≡ record { watches = []; room = 0 } }
    {
        WatchList {
            watches: Vec::new(alloc),
            room: 0,
        }
    }

    /// The watches.
    pub fn watches(&self) -> &[Watch]
        ensures { result.now ≡ self.now.watches }
    {
        let _ = &self.room;
        self.watches.as_slice()
    }

    /// The watch at this place.
    pub fn get(&self, i: usize) -> Watch
        requires { i < length self.now.watches }
        ensures { slice_index_or self.now.watches i result ≡ result }
    {
        let _ = &self.room;
        self.watches[i]
    }

    /// Puts another watch in the place of one.
    pub fn replace(&mut self, i: usize, watch: Watch)
        requires { i < length self.old.watches }
        ensures { self.new ≡ record self.old { watches = slice_set self.old.watches i watch } }
    {
        self.watches[i] = watch;
    }

    /// Takes a watch out, and moves the last one into its place.
    pub fn take_out(&mut self, i: usize) -> Watch
        requires { i < length self.old.watches }
        ensures value { slice_index_or self.old.watches i result ≡ result }
        ensures left { self.new ≡ record self.old { watches = swap_remove self.old.watches i result } }
    {
        self.watches.swap_remove(i)
    }

    /// Adds a watch at the end, for which there is room.
    pub fn push(&mut self, watch: Watch)
        requires { length self.old.watches < self.old.room }
        ensures { self.new ≡ record self.old { watches = self.old.watches ++ watch ∷ [] } }
    {
        self.watches.push_reserved(watch);
    }

    /// Makes room for one more. A refusal changes nothing.
    pub fn make_room(&mut self) -> Result<(), AllocError>
        ensures ok { OnOk result (self.new ≡ record self.old { room = self.old.room + 1 }) }
        ensures err { OnErr result (self.new ≡ self.old) }
    {
        let Some(room) = self.room.checked_add(1) else {
            return Err(AllocError);
        };
        let missing = room.saturating_sub(self.watches.len());
        self.watches.reserve(missing)?;
        self.room = room;
        Ok(())
    }
}

/// The link of a watch.
pub fn link_of(watch: Watch) -> Link
    ensures { result ≡ link_in watch }
{
    Link {
        clause: (watch.link / 2) as usize,
        slot: (watch.link % 2) as u8,
    }
}
