// The names that an action may assign and that a path has not assigned yet.
ghost use Rattle.std.specs.Prelude.{◌≡◌, ℕ, List, ◌∷◌, [], IfOk};
ghost use Rattle.kernel_trees.specs.ActionNames.{marks};
ghost use Rattle.kernel_trees.specs.Paths.{Marks};
ghost use Rattle.assignment_finder.specs.inner.Open.{IsFirstOpen, IsOpen, MayAssign, open_by};

use kernel_trees::AssignableNames;
use std::alloc::{AllocError, Global};

// The names that may be assigned, and a mark for each declared one that was.
#[derive(Drop)]
pub(crate) struct OpenNames {
    pub(crate) marked: AssignableNames,
    pub(crate) assigned: Vec<bool>,
}

// All are open.
pub(crate) fn all_open(alloc: Global, marked: AssignableNames) -> Result<OpenNames, AllocError>
    ensures { IfOk result (λ o. IsOpen (marks marked) [] o) }
{
    let assigned = vec![in alloc; false; marked.declared]?;
    Ok(OpenNames { marked, assigned })
}

impl OpenNames {
    // Whether the name may be assigned, and is not yet.
    pub(crate) fn holds(&self, name: usize, primed: bool) -> bool
        ensures { result ≡ open_by self.now name primed }
    {
        let assigned = match self.assigned.get(name) {
            Some(assigned) => *assigned,
            None => false,
        };
        self.marked.holds(name, primed) && !assigned
    }

    // The name is open no more.
    pub(crate) fn close(&mut self, name: usize)
        ensures { (m : Marks) (before : List ℕ) → MayAssign m name → IsOpen m before self.old → IsOpen m (name ∷ before) self.new }
    {
        if let Some(assigned) = self.assigned.get_mut(name) {
            *assigned = true;
        }
    }

    // The first declared name that is open, where names are primed.
    pub(crate) fn first_open(&self) -> Option<usize>
        ensures { IsFirstOpen (open_by self.now) result }
    {
        for name in 0..self.marked.declared {
            if self.holds(name, true) {
                return Some(name);
            }
        }
        None
    }
}
