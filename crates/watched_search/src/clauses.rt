//! Clauses by number, in little memory.

ghost use Rattle.std.specs.Prelude.{◌≡◌, ◌+◌, ◌^◌, ◌<◌, ◌≤◌, ◌++◌, ◌∷◌, [], length, map, OnOk, OnErr, IfOk, All};
ghost use Rattle.std.specs.Vec.{vec_capacity};
ghost use Rattle.sat_formula.specs.Lit.{IsBelow};
ghost use Rattle.watched_search.specs.Codes.{code, literal};
ghost use Rattle.watched_search.specs.Searching.{clause_at, lit_at};

use crate::codes::{code_of, literal_of};
use sat_formula::Lit;
use std::alloc::{AllocError, Global};
use std::marker::Model;

// Where a clause's literals stand, and a place among them that a caller marked, in what its contract
// does not speak of.
#[derive(Clone, Copy, Debug)]
pub struct Span {
    pub start: u32,
    pub end: u32,
    pub mark: u32,
}

/// Clauses whose literals stand in one list. Contracts see a list of lists of literals.
#[derive(Drop)]
pub struct Store {
    // The codes of the literals, one clause behind another.
    codes: Vec<u32>,
    spans: Vec<Span>,
}

impl Model for Store {
    ghost use Rattle.std.specs.Prelude.{List, map, length, All};
    ghost use Rattle.sat_formula.specs.declared.lit.Lit.{Lit};

    ghost Value = { List (List Lit) };

    ghost use Rattle.watched_search.specs.inner.Spans.{literals_in, IsWithin};

    ghost view = { λ s. map (λ x. literals_in s.codes.items x) s.spans.items };

    ghost invariant = { λ s. All (IsWithin (length s.codes.items)) s.spans.items };
}

impl Store {
    /// No clauses yet. The store keeps the allocator.
    pub fn new(alloc: Global) -> Store
        ensures { result ≡ [] }
    {
        Store {
            codes: Vec::new(alloc),
            spans: Vec::new(alloc),
        }
    }

    /// How many clauses there are.
    pub fn count(&self) -> usize
        ensures { result ≡ length self.now }
    {
        self.spans.len()
    }

    /// How many literals the clause has, each as often as it is named.
    pub fn size(&self, c: usize) -> usize
        requires { c < length self.now }
        ensures { result ≡ length (clause_at self.now c) }
    {
        let span = self.spans[c];
        (span.end - span.start) as usize
    }

    /// The clause's literal at this place.
    pub fn lit(&self, c: usize, k: usize) -> Lit
        requires clause { c < length self.now }
        requires place { k < length (clause_at self.now c) }
        ensures { result ≡ lit_at (clause_at self.now c) k }
    {
        let span = self.spans[c];
        let number = self.codes[span.start as usize + k];
        literal_of(number as usize)
    }

    /// The codes of the clause's literals.
    pub fn codes(&self, c: usize) -> &[u32]
        requires { c < length self.now }
        ensures { map (λ n. literal n) result.now ≡ clause_at self.now c }
    {
        let span = self.spans[c];
        &self.codes[span.start as usize..span.end as usize]
    }

    /// A place of the clause, or its end: the one that was marked last, or the first.
    pub fn mark(&self, c: usize) -> usize
        requires { c < length self.now }
        ensures { result ≤ length (clause_at self.now c) }
    {
        let span = self.spans[c];
        if span.mark < span.end - span.start {
            span.mark as usize
        } else {
            0
        }
    }

    /// Marks a place of the clause.
    pub fn set_mark(&mut self, c: usize, k: u32)
        requires { c < length self.old }
        ensures { self.new ≡ self.old }
    {
        let span = self.spans[c];
        self.spans[c] = Span {
            start: span.start,
            end: span.end,
            mark: k,
        };
    }

    /// Adds a clause at the end. A refusal, which comes for want of memory or where there are 2^32
    /// literals, changes nothing.
    pub fn push(&mut self, clause: &[Lit]) -> Result<(), AllocError>
        requires { All (IsBelow (2 ^ 31)) clause.now }
        ensures ok { OnOk result (self.new ≡ self.old ++ clause.now ∷ []) }
        ensures err { OnErr result (self.new ≡ self.old) }
    {
        let start = small(self.codes.len())?;
        let size = small(clause.len())?;
        let Some(end) = start.checked_add(size) else {
            return Err(AllocError);
        };
        self.spans.reserve(1)?;
        self.codes.reserve(clause.len())?;
        push_codes(&mut self.codes, clause);
        self.spans.push_reserved(Span {
            start,
            end,
            mark: 0,
        });
        Ok(())
    }
}

// The number, where it has at most 32 bits.
fn small(n: usize) -> Result<u32, AllocError>
    ensures { IfOk result (λ r. r ≡ n) }
{
    match u32::try_from(n) {
        Ok(number) => Ok(number),
        Err(_) => Err(AllocError),
    }
}

// Adds the codes of the literals, for which there is room.
fn push_codes(codes: &mut Vec<u32>, clause: &[Lit])
    requires below { All (IsBelow (2 ^ 31)) clause.now }
    requires room { length codes.old.items + length clause.now ≤ vec_capacity codes.old }
    ensures { codes.new.items ≡ codes.old.items ++ map code clause.now }
{
    for l in clause {
        codes.push_reserved(code_of(*l) as u32);
    }
}
