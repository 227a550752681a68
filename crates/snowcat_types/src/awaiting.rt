// The nodes that wait once all entries are visited, and which of them goes on next.
ghost use Rattle.std.specs.Prelude.{◌≡◌, IfOk, OnOk, map};
ghost use Rattle.snowcat_rows.specs.Views.{kept_by};
ghost use Rattle.snowcat_types.specs.inner.Awaited.{IsAwaiting, IsBegun, IsCaughtUp, IsFound, IsNext};

use crate::deciding::{kind_of, variable_of};
use crate::kinds::Kind;
use crate::ordering::{Turns, is_marked};
use crate::waiting::{Wait, default_kind, place_of};
use crate::watching::Watching;
use snowcat_rows::Subst;
use std::alloc::{AllocError, Global};
use tla_meaning::Place;

// Of the nodes in the order of their visits.
#[derive(Drop)]
pub(crate) struct Awaiting {
    // Which of them wait.
    marks: Vec<bool>,
    watching: Watching,
    turns: Turns,
    // The places of those that took their default, in this order.
    defaults: Vec<Place>,
}

impl Awaiting {
    pub(crate) fn new(alloc: Global, waits: &[&Wait]) -> Result<Awaiting, AllocError>
        ensures { IfOk result (λ a. IsBegun (map (λ w. w.now) waits.now) a) }
    {
        let marks = vec![in alloc; true; waits.len()]?;
        let watching = Watching::new(alloc, waits.len())?;
        let turns = Turns::new(alloc, waits)?;
        Ok(Awaiting {
            marks,
            watching,
            turns,
            defaults: Vec::new(alloc),
        })
    }

    // A node whose choice is decided; it waits no more. Each that is looked at before and is not decided is looked at
    // again where the variable is bound to which its type leads.
    fn next_decided(
        &mut self,
        alloc: Global,
        subst: &Subst,
        waits: &[&Wait],
    ) -> Result<Option<usize>, AllocError>
        requires { IsAwaiting (kept_by subst.now) (map (λ w. w.now) waits.now) self.old }
        ensures { IfOk result (λ r. IsFound subst.now (map (λ w. w.now) waits.now) self.old r self.new) }
    {
        'agenda: while let Some(node) = self.watching.next() {
            if !is_marked(self.marks.as_slice(), node) {
                continue;
            }
            let Some(variable) = variable_of(subst, waits[node]) else {
                self.marks[node] = false;
                return Ok(Some(node));
            };
            self.watching.watch(alloc, variable, node)?;
        }
        Ok(None)
    }

    // The node that goes on next, which waits no more, with the kind of its choice: one that is decided, or where
    // there is none the first, by default.
    pub(crate) fn next(
        &mut self,
        alloc: Global,
        subst: &Subst,
        waits: &[&Wait],
    ) -> Result<Option<(usize, Kind)>, AllocError>
        requires { IsAwaiting (kept_by subst.now) (map (λ w. w.now) waits.now) self.old }
        ensures { IfOk result (λ r. IsNext subst.now (map (λ w. w.now) waits.now) self.old r self.new) }
    {
        if let Some(node) = self.next_decided(alloc, subst, waits)? {
            return Ok(Some((node, kind_of(subst, waits[node]))));
        }
        match self.turns.first(self.marks.as_slice()) {
            Some(node) => {
                let wait = waits[node];
                self.marks[node] = false;
                self.defaults.push(place_of(wait))?;
                Ok(Some((node, default_kind(wait))))
            }
            None => Ok(None),
        }
    }

    // The nodes are to be looked at whose types lead to variables that are bound from the i-th binding on.
    pub(crate) fn release_from(
        &mut self,
        alloc: Global,
        subst: &Subst,
        mark: usize,
    ) -> Result<(), AllocError>
        ensures { OnOk result (IsCaughtUp subst.now mark self.old self.new) }
    {
        self.watching.release_from(alloc, subst, mark)?;
        Ok(())
    }

    pub(crate) fn defaults(&self) -> &[Place]
        ensures { result.now ≡ self.now.defaults.items }
    {
        self.defaults.as_slice()
    }
}
