// Which nodes are looked at: all of them once, and again where a variable is bound to which the type that decides leads.
ghost use Rattle.std.specs.Prelude.{◌<◌, IfOk, IfSome, OnOk, length, take};
ghost use Rattle.snowcat_rows.specs.Views.{kept_by};
ghost use Rattle.snowcat_types.specs.inner.Awaited.{AreAlike, HasFrom, Holds, IsReleased, IsTaken, IsWatched};

use snowcat_rows::Subst;
use std::alloc::{AllocError, Global};
use std::mem;
use tla_values::List;

#[derive(Drop)]
pub(crate) struct Watching {
    // For each variable the nodes that are looked at again where it is bound; none for those beyond.
    lists: Vec<List<usize>>,
    // The nodes that are to be looked at, from the last on.
    agenda: Vec<usize>,
}

// The numbers below the count, the first of them last.
fn numbers(alloc: Global, count: usize) -> Result<Vec<usize>, AllocError>
    ensures { IfOk result (λ v. HasFrom 0 count v.items) }
{
    let mut all = Vec::new(alloc);
    for i in 0..count {
        all.push(count - 1 - i)?;
    }
    Ok(all)
}

// Room for the variable's list.
fn reach(alloc: Global, lists: &mut Vec<List<usize>>, variable: usize) -> Result<(), AllocError>
    ensures reached { OnOk result (variable < length lists.new.items) }
    ensures alike { OnOk result (AreAlike lists.old.items lists.new.items) }
{
    'room: while lists.len() <= variable {
        lists.push(List::new(alloc))?;
    }
    Ok(())
}

impl Watching {
    // The nodes of the numbers below the count are to be looked at, the first of them first.
    pub(crate) fn new(alloc: Global, count: usize) -> Result<Watching, AllocError>
        ensures { IfOk result (λ g. HasFrom 0 count g.agenda.items) }
    {
        let agenda = numbers(alloc, count)?;
        Ok(Watching {
            lists: Vec::new(alloc),
            agenda,
        })
    }

    // The node that is to be looked at next.
    pub(crate) fn next(&mut self) -> Option<usize>
        ensures taken { IsTaken self.old result self.new }
        ensures fewer { IfSome result (λ i. length self.new.agenda.items < length self.old.agenda.items) }
    {
        self.agenda.pop()
    }

    // The node is looked at again where the variable is bound.
    pub(crate) fn watch(
        &mut self,
        alloc: Global,
        variable: u32,
        node: usize,
    ) -> Result<(), AllocError>
        ensures { OnOk result (IsWatched self.old variable node self.new) }
    {
        reach(alloc, &mut self.lists, variable as usize)?;
        self.lists[variable as usize].push(node)?;
        Ok(())
    }

    // The nodes on the variable's list are to be looked at.
    fn release(&mut self, alloc: Global, variable: u32) -> Result<(), AllocError>
        ensures { OnOk result (IsReleased self.old variable self.new) }
    {
        let place = variable as usize;
        if place < self.lists.len() {
            let list = mem::replace(&mut self.lists[place], List::new(alloc));
            let mut nodes = list.into_vec();
            self.agenda.append(&mut nodes)?;
        }
        Ok(())
    }

    // The nodes on the lists of all variables that are bound from the i-th binding on are to be looked at.
    pub(crate) fn release_from(
        &mut self,
        alloc: Global,
        subst: &Subst,
        mark: usize,
    ) -> Result<(), AllocError>
        ensures { OnOk result (Holds (take mark (kept_by subst.now)) self.old (kept_by subst.now) self.new) }
    {
        for i in mark..subst.bound() {
            if let Some(variable) = subst.bound_type(i) {
                self.release(alloc, variable)?;
            }
        }
        Ok(())
    }
}
