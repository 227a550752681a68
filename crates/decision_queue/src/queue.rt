// The list, kept as links by index in both directions.
ghost use Rattle.std.specs.Prelude.{◌≡◌, ◌≢◌, ℕ, ◌+◌, ◌^◌, ◌<◌, ◌∷◌, length, IfOk, Contains, All, AllPairs, slice_get, slice_index_or};
ghost use Rattle.std.specs.List.{range_with_len};
ghost use Rattle.decision_queue.specs.Queue.{without};

use std::alloc::{AllocError, Global};
use std::marker::Model;

/// A list of distinct numbers below a limit.
#[derive(Drop)]
pub struct DecisionQueue {
    // The numbers are below it. It stands itself before the first number and behind the last, so that
    // the links run in a ring and no call has a case for the ends.
    room: usize,
    // What stands behind each number, and before it. What a number that was taken out has is not read.
    next: Vec<usize>,
    prev: Vec<usize>,
}

impl Model for DecisionQueue {
    ghost use Rattle.decision_queue.specs.Queue.{Queue};
    ghost use Rattle.decision_queue.specs.Ring.{walk, Linked};

    ghost Value = { Queue };

    ghost view = { λ q. record { room = q.room; items = walk q.next.items q.room q.room q.room } };

    ghost invariant = { λ q. Linked q.room q.next.items q.prev.items (walk q.next.items q.room q.room q.room) };
}

impl DecisionQueue {
    /// The numbers below `n`, in order.
    pub fn new(alloc: Global, n: usize) -> Result<DecisionQueue, AllocError>
        ensures { IfOk result (λ q. q ≡ record { room = n; items = range_with_len 0 n }) }
    {
        if n == usize::MAX {
            return Err(AllocError);
        }
        let next = followers(alloc, n)?;
        let prev = leaders(alloc, n)?;
        Ok(DecisionQueue {
            room: n,
            next,
            prev,
        })
    }

    /// The first number, and `None` exactly where the list is empty.
    pub fn first(&self) -> Option<usize>
        ensures front { result ≡ slice_get self.now.items 0 }
        ensures below { All (λ v. v < self.now.room) self.now.items }
        ensures distinct { AllPairs (λ v w. v ≢ w) self.now.items }
    {
        let v = self.next[self.room];
        if v == self.room { None } else { Some(v) }
    }

    /// Takes `v`, which is in the list, out.
    pub fn unlink(&mut self, v: usize)
        requires { Contains self.old.items v }
        ensures { self.new ≡ record self.old { items = without v self.old.items } }
    {
        let before = self.prev[v];
        let after = self.next[v];
        self.next[before] = after;
        self.prev[after] = before;
    }

    /// Puts `v`, which is not in the list, to the front.
    pub fn relink(&mut self, v: usize)
        requires below { v < self.old.room }
        requires absent { Contains self.old.items v → ⊥ }
        ensures { self.new ≡ record self.old { items = v ∷ self.old.items } }
    {
        let after = self.next[self.room];
        self.next[v] = after;
        self.prev[v] = self.room;
        self.next[self.room] = v;
        self.prev[after] = v;
    }

    /// Moves `v`, which is in the list, to the front.
    pub fn bump(&mut self, v: usize)
        requires { Contains self.old.items v }
        ensures { self.new ≡ record self.old { items = v ∷ without v self.old.items } }
    {
        // The proof learns here how the list is kept, and so that `v` is below the limit.
        let _ = &self.room;
        self.unlink(v);
        self.relink(v);
    }
}

// 1, 2 and so on up to n, and then 0.
fn followers(alloc: Global, n: usize) -> Result<Vec<usize>, AllocError>
    requires { n + 1 < 2 ^ 64 }
    ensures size { IfOk result (λ v. length v.items ≡ n + 1) }
    ensures each { IfOk result (λ v. (k : ℕ) → k < n → slice_index_or v.items k 0 ≡ k + 1) }
    ensures last { IfOk result (λ v. slice_index_or v.items n 0 ≡ 0) }
{
    let mut v = Vec::with_capacity(alloc, n + 1)?;
    for i in 0..n {
        v.push(i + 1)?;
    }
    v.push(0)?;
    Ok(v)
}

// n, and then 0, 1 and so on below n.
fn leaders(alloc: Global, n: usize) -> Result<Vec<usize>, AllocError>
    requires { n + 1 < 2 ^ 64 }
    ensures size { IfOk result (λ v. length v.items ≡ n + 1) }
    ensures first { IfOk result (λ v. slice_index_or v.items 0 0 ≡ n) }
    ensures each { IfOk result (λ v. (k : ℕ) → k < n → slice_index_or v.items (k + 1) 0 ≡ k) }
{
    let mut v = Vec::with_capacity(alloc, n + 1)?;
    v.push(n)?;
    for i in 0..n {
        v.push(i)?;
    }
    Ok(v)
}
