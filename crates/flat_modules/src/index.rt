// Keys in the order in which they came, each with the last place before where it stands.
ghost use Rattle.std.specs.Prelude.{◌≡◌, ◌∷◌, ◌++◌, ◌-◌, ◌<◌, ◌≤◌, [], get_or, length, take, IfOk, OnOk, OnErr};
ghost use Rattle.flat_modules.specs.inner.Places.{AddsKey, AreChains, DropsKey, IsInBucket, SameChains, key_of, place_of};

use std::alloc::{AllocError, Global};
use std::marker::Model;

// How many buckets there are at first.
const FIRST_BUCKETS: usize = 16;

// Contracts see the keys alone.
#[derive(Drop)]
pub(crate) struct Index {
    alloc: Global,
    keys: Vec<usize>,
    chains: Chains,
}

// The places of keys by buckets, from 1.
#[derive(Drop)]
struct Chains {
    // The last place of each bucket.
    heads: Vec<usize>,
    // At each place the last before of its bucket.
    links: Vec<usize>,
}

impl Model for Index {
    ghost use Rattle.std.specs.Prelude.{List as Items, ℕ};
    ghost use Rattle.std.specs.Coded.{coded_list, coded_ℕ};
    ghost use Rattle.flat_modules.specs.inner.Places.{AreChains};

    ghost Value = { Items ℕ };

    ghost coded = { coded_list coded_ℕ };

    ghost view = { λ i. i.keys.items };

    ghost invariant = { λ i. AreChains i.keys.items i.chains };
}

impl Index {
    pub(crate) fn new(alloc: Global) -> Index
        ensures { result ≡ [] }
    {
        Index {
            alloc,
            keys: Vec::new(alloc),
            chains: Chains {
                heads: Vec::new(alloc),
                links: Vec::new(alloc),
            },
        }
    }

    // The last place of a key, from 1; 0 where it has none.
    pub(crate) fn last(&self, key: usize) -> usize
        ensures { result ≡ place_of key self.now }
    {
        if self.chains.heads.is_empty() {
            return 0;
        }
        let bucket = key % self.chains.heads.len();
        let head = self.chains.heads[bucket];
        self.chains.seek(&self.keys, head, key)
    }

    // The key at a place, from 0.
    pub(crate) fn key(&self, place: usize) -> usize
        requires { place < length self.now }
        ensures { result ≡ get_or self.now place 0 }
    {
        self.keys[place]
    }

    // The last place before this one of the key that stands there.
    pub(crate) fn before(&self, place: usize) -> usize
        requires some { 0 < place }
        requires within { place ≤ length self.now }
        ensures { result ≡ place_of (get_or self.now (place - 1) 0) (take (place - 1) self.now) }
    {
        let key = self.keys[place - 1];
        let link = self.chains.links[place - 1];
        self.chains.seek(&self.keys, link, key)
    }

    pub(crate) fn push(&mut self, key: usize) -> Result<(), AllocError>
        ensures added { OnOk result (self.new ≡ self.old ++ (key ∷ [])) }
        ensures kept { OnErr result (self.new ≡ self.old) }
    {
        self.chains.make_room(self.alloc, &self.keys)?;
        self.keys.reserve(1)?;
        self.chains.push(key)?;
        self.keys.push_reserved(key);
        Ok(())
    }

    // Takes the last key out.
    pub(crate) fn pop(&mut self)
        requires { 0 < length self.old }
        ensures { self.new ≡ take (length self.old - 1) self.old }
    {
        let last = self.keys.len() - 1;
        let key = self.keys[last];
        self.keys.truncate(last);
        self.chains.pop(last, key);
    }
}

impl Chains {
    // From a place of a key's bucket the last up to there where the key stands; 0 where it has none.
    fn seek(&self, keys: &[usize], from: usize, key: usize) -> usize
        requires chained { AreChains keys.now self.now }
        requires begins { IsInBucket (length self.now.heads.items) key keys.now from }
        ensures { result ≡ place_of key (take from keys.now) }
    {
        let mut place = from;
        while place > 0 {
            let here = keys[place - 1];
            if here == key {
                return place;
            }
            place = self.links[place - 1];
        }
        0
    }

    // More buckets where there are no more than keys.
    fn make_room(&mut self, alloc: Global, keys: &[usize]) -> Result<(), AllocError>
        requires { AreChains keys.now self.old }
        ensures kept { AreChains keys.now self.new }
        ensures room { OnOk result (0 < length self.new.heads.items) }
    {
        if keys.len() < self.heads.len() {
            return Ok(());
        }
        let size = usize::max(FIRST_BUCKETS, keys.len().saturating_mul(2));
        let chains = Chains::new(alloc, keys, size)?;
        self.heads = chains.heads;
        self.links = chains.links;
        Ok(())
    }

    // The chains of these keys in so many buckets.
    fn new(alloc: Global, keys: &[usize], size: usize) -> Result<Chains, AllocError>
        requires { 0 < size }
        ensures chained { IfOk result (λ c. AreChains keys.now c) }
        ensures size { IfOk result (λ c. length c.heads.items ≡ size) }
    {
        let mut chains = Chains {
            heads: Vec::new(alloc),
            links: Vec::new(alloc),
        };
        chains.heads.resize(size, 0)?;
        for key in keys {
            chains.push(*key)?;
        }
        Ok(chains)
    }

    // Adds a key behind the others.
    fn push(&mut self, key: usize) -> Result<(), AllocError>
        requires { 0 < length self.old.heads.items }
        ensures added { OnOk result (AddsKey self.old self.new key) }
        ensures kept { OnErr result (SameChains self.old self.new) }
    {
        let bucket = key % self.heads.len();
        let head = self.heads[bucket];
        self.links.push(head)?;
        self.heads[bucket] = self.links.len();
        Ok(())
    }

    // Takes the key out that is the last, behind so many.
    fn pop(&mut self, last: usize, key: usize)
        requires some { last < length self.old.links.items }
        requires buckets { 0 < length self.old.heads.items }
        ensures { DropsKey self.old self.new last key }
    {
        let bucket = key % self.heads.len();
        let before = self.links[last];
        self.links.truncate(last);
        self.heads[bucket] = before;
    }
}

// The key of a name.
pub(crate) fn key_of(name: &[u8]) -> usize
    ensures { result ≡ key_of name.now }
{
    let mut key = 0;
    for byte in name {
        key = (key * 31 + usize::from(*byte)) % 4_294_967_296;
    }
    key
}
