//! Clauses with two literals that watch each.

ghost use Rattle.std.specs.Prelude.{◌≡◌, ◌≢◌, ◌+◌, ◌*◌, ◌^◌, ◌<◌, ◌≤◌, ◌++◌, ◌∷◌, [], length, map, replicate, IfOk, OnOk, OnErr, All, Contains, slice_index_or, Some};
ghost use Rattle.sat_formula.specs.declared.lit.Lit.{Lit as Literal};
ghost use Rattle.sat_formula.specs.Lit.{IsBelow};
ghost use Rattle.watch_chains.specs.declared.link.Link.{Link as Place};
ghost use Rattle.watch_chains.specs.Chains.{place_of};
ghost use Rattle.watch_chains.specs.Watches.{list_at, IsSlot};
ghost use Rattle.watched_search.specs.Codes.{code, literal};
ghost use Rattle.watched_search.specs.Searching.{clause_at, lit_at};
ghost use Rattle.watched_search.specs.inner.Keeping.{slot_of, other_of, watch_at, IsPaired};
ghost use Rattle.watched_search.specs.inner.Spans.{watching, IsSmall};
ghost use Rattle.watched_search.specs.inner.Lists.{links_of, no_list, IsBlocked, IsRoomier, MakesRoom};
ghost use Rattle.watched_search.specs.inner.Moving.{IsAt, IsMoved, IsPair, IsAdded};

use crate::clauses::Store;
use crate::codes::{code_of, literal_of};
use crate::lists::{Watch, WatchList};
use sat_formula::Lit;
use std::alloc::{AllocError, Global};
use std::marker::Model;
use watch_chains::Link;

// Codes of literals have at most 32 bits, and one such number stands where nothing watches.
const MOST_VARS: usize = 2_147_483_647;

const NOTHING: u32 = 4_294_967_295;

/// A link, and where it stands in the list of a literal.
#[derive(Clone, Copy, Debug)]
pub struct Standing {
    pub lit: Lit,
    pub place: usize,
    pub link: Link,
}

/// Clauses over the variables below a fixed number. Two different literals of a clause watch it,
/// where it has them: each of its two slots stands in the list of one. A list has room for each clause
/// that names its literal, so that a watch can move without memory.
#[derive(Drop)]
pub struct WatchedClauses {
    vars: usize,
    store: Store,
    // What watches in each slot, two for each clause, as a number.
    slots: Vec<u32>,
    lists: Vec<WatchList>,
}

impl Model for WatchedClauses {
    ghost use Rattle.std.specs.Prelude.{All, ◌^◌, ◌<◌};
    ghost use Rattle.watched_search.specs.inner.Keeping.{Watched, IsPaired};
    ghost use Rattle.watched_search.specs.inner.Lists.{links_in, AreBlocked, HasRoom};
    ghost use Rattle.watched_search.specs.inner.Spans.{watching_in};

    ghost Value = { Watched };

    ghost view = { λ w. record {
      vars = w.vars;
      clauses = w.store;
      slots = watching_in w.slots.items;
      chains = links_in w.lists.items;
    } };

    ghost invariant = { λ w.
        IsPaired (record { vars = w.vars; clauses = w.store; slots = watching_in w.slots.items; chains = links_in w.lists.items })
        × All (AreBlocked w.store) w.lists.items
        × HasRoom w.vars w.store w.lists.items
        × (w.vars < 2 ^ 31) };
}

impl WatchedClauses {
    /// No clauses over the variables below `vars`. 2^31 variables or more are want of memory.
    pub fn new(alloc: Global, vars: usize) -> Result<WatchedClauses, AllocError>
        ensures vars { IfOk result (λ w. w.vars ≡ vars) }
        ensures empty { IfOk result (λ w. w.clauses ≡ []) }
    {
        if vars > MOST_VARS {
            return Err(AllocError);
        }
        let lists = empty_lists(alloc, 2 * vars)?;
        Ok(WatchedClauses {
            vars,
            store: Store::new(alloc),
            slots: Vec::new(alloc),
            lists,
        })
    }

    /// The number that all variables are below.
    pub fn vars(&self) -> usize
        ensures { result ≡ self.now.vars }
    {
        let _ = &self.store;
        self.vars
    }

    /// How many clauses there are.
    pub fn count(&self) -> usize
        ensures same { result ≡ length self.now.clauses }
        ensures paired { IsPaired self.now }
    {
        self.store.count()
    }

    /// How many literals the clause has, each as often as it is named.
    pub fn size(&self, c: usize) -> usize
        requires { c < length self.now.clauses }
        ensures { result ≡ length (clause_at self.now.clauses c) }
    {
        self.store.size(c)
    }

    /// The clause's literal at this place.
    pub fn lit(&self, c: usize, k: usize) -> Lit
        requires clause { c < length self.now.clauses }
        requires place { k < length (clause_at self.now.clauses c) }
        ensures same { result ≡ lit_at (clause_at self.now.clauses c) k }
        ensures below { result.var < self.now.vars }
    {
        self.store.lit(c, k)
    }

    /// The codes of the clause's literals, which are read faster than the literals.
    pub fn codes(&self, c: usize) -> &[u32]
        requires { c < length self.now.clauses }
        ensures same { map (λ n. literal n) result.now ≡ clause_at self.now.clauses c }
        ensures below { All (IsBelow self.now.vars) (clause_at self.now.clauses c) }
    {
        self.store.codes(c)
    }

    /// A place of the clause, or its end: the one that was marked last, or the first.
    pub fn mark(&self, c: usize) -> usize
        requires { c < length self.now.clauses }
        ensures { result ≤ length (clause_at self.now.clauses c) }
    {
        self.store.mark(c)
    }

    /// Marks a place of the clause.
    pub fn set_mark(&mut self, c: usize, k: usize)
        requires { c < length self.old.clauses }
        ensures { self.new ≡ self.old }
    {
        if k < MOST_VARS {
            self.store.set_mark(c, k as u32);
        }
    }

    /// What watches in a slot.
    pub fn watch(&self, k: Link) -> Option<Lit>
        requires { IsSlot (length self.now.clauses) k }
        ensures { result ≡ watch_at self.now.slots k }
    {
        let _ = &self.store;
        watch_of(self.slots[place(k)])
    }

    /// What watches in the other slot of a clause that the literal watches.
    pub fn other_watch(&self, l: Lit, k: Link) -> Lit
        requires below { l.var < self.now.vars }
        requires linked { Contains (list_at self.now.chains (code l)) k }
        ensures same { watch_at self.now.slots (other_of k) ≡ Some result }
        ensures below { result.var < self.now.vars }
        ensures paired { IsPaired self.now }
    {
        let _ = &self.store;
        let other = Link {
            clause: k.clause,
            slot: 1 - k.slot,
        };
        watch_of(self.slots[place(other)]).unwrap()
    }

    /// What the literal watches: its links, each with a literal of its clause at hand.
    pub fn watches(&self, l: Lit) -> &[Watch]
        requires { l.var < self.now.vars }
        ensures links { links_of result.now ≡ list_at self.now.chains (code l) }
        ensures blocked { All (IsBlocked self.now.clauses) result.now }
    {
        let _ = &self.store;
        self.lists[code_of(l)].watches()
    }

    /// Lets the watch have another literal of the clause at hand.
    pub fn set_blocker(&mut self, at: Standing, l: Lit)
        requires at { IsAt self.old at.lit at.place at.link }
        requires member { Contains (clause_at self.old.clauses at.link.clause) l }
        requires below { l.var < self.old.vars }
        ensures { self.new ≡ self.old }
    {
        let _ = &self.store;
        let list = code_of(at.lit);
        let watch = self.lists[list].get(at.place);
        self.lists[list].replace(
            at.place,
            Watch {
                link: watch.link,
                blocker: code_of(l) as u32,
            },
        );
    }

    /// Lets `v` watch in the slot of the link in the place of the literal in whose list it stands.
    pub fn move_to(&mut self, at: Standing, v: Lit)
        requires at { IsAt self.old at.lit at.place at.link }
        requires new { v.var < self.old.vars }
        requires other { v ≢ at.lit }
        requires member { Contains (clause_at self.old.clauses at.link.clause) v }
        requires apart { (m : Literal) → watch_at self.old.slots (other_of at.link) ≡ Some m → v ≢ m }
        ensures moved { IsMoved self.old self.new at.lit at.place at.link v }
        ensures paired { IsPaired self.new }
    {
        let watch = self.lists[code_of(at.lit)].take_out(at.place);
        self.lists[code_of(v)].push(watch);
        self.slots[watch.link as usize] = number_of(Some(v));
    }

    /// Adds a clause at the end, watched by its first literal and the first that differs from it. A
    /// refusal, which comes for want of memory or where all clauses have 2^32 literals, changes nothing.
    pub fn add(&mut self, clause: &[Lit]) -> Result<(), AllocError>
        requires { All (IsBelow self.old.vars) clause.now }
        ensures added { OnOk result (IsAdded self.old self.new clause.now) }
        ensures err { OnErr result (self.new ≡ self.old) }
    {
        let c = self.store.count();
        if c >= MOST_VARS {
            return Err(AllocError);
        }
        make_room(&mut self.lists, clause)?;
        self.slots.reserve(2)?;
        self.store.push(clause)?;
        match pair_of(clause) {
            None => {
                self.slots.push_reserved(NOTHING);
                self.slots.push_reserved(NOTHING);
            }
            Some((a, b)) => {
                self.slots.push_reserved(number_of(Some(a)));
                self.slots.push_reserved(number_of(Some(b)));
                let first = code_of(a);
                let second = code_of(b);
                self.lists[first].push(Watch {
                    link: 2 * c as u32,
                    blocker: second as u32,
                });
                self.lists[second].push(Watch {
                    link: 2 * c as u32 + 1,
                    blocker: first as u32,
                });
            }
        }
        Ok(())
    }
}

// So many lists with nothing in them.
fn empty_lists(alloc: Global, count: usize) -> Result<Vec<WatchList>, AllocError>
    ensures { IfOk result (λ v. v.items ≡ replicate count no_list) }
{
    let mut lists = Vec::with_capacity(alloc, count)?;
    for _ in 0..count {
        lists.push(WatchList::new(alloc))?;
    }
    Ok(lists)
}

// Makes room for one more watch of each literal of the clause.
fn make_room(lists: &mut Vec<WatchList>, clause: &[Lit]) -> Result<(), AllocError>
    requires { All (λ l. code l < length lists.old.items) clause.now }
    ensures roomier { IsRoomier lists.old.items lists.new.items }
    ensures room { OnOk result (MakesRoom lists.old.items lists.new.items clause.now) }
{
    for l in clause {
        lists[code_of(*l)].make_room()?;
    }
    Ok(())
}

// Where a slot stands among the slots of all clauses.
fn place(k: Link) -> usize
    requires { 2 * k.clause + k.slot < 2 ^ 64 }
    ensures { result ≡ place_of k }
{
    2 * k.clause + k.slot as usize
}

// What watches, by its number.
fn watch_of(number: u32) -> Option<Lit>
    ensures { result ≡ watching number }
{
    if number == NOTHING {
        None
    } else {
        Some(literal_of(number as usize))
    }
}

// The number of what watches.
fn number_of(watch: Option<Lit>) -> u32
    requires { IsSmall watch }
    ensures { watching result ≡ watch }
{
    match watch {
        None => NOTHING,
        Some(l) => code_of(l) as u32,
    }
}

// The clause's first literal, and the first that differs from it.
fn pair_of(clause: &[Lit]) -> Option<(Lit, Lit)>
    ensures { IsPair clause.now result }
{
    let first = *clause.first()?;
    for l in clause {
        if *l != first {
            return Some((first, *l));
        }
    }
    None
}
