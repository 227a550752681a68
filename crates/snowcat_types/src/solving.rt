// The types of a job, from what it asks: its nodes are visited in order, then each node that waits takes the choice that is
// decided, and the first of them its default where none is.
ghost use Rattle.std.specs.Prelude.{◌≡◌, ◌<◌, [], IfErr, IfOk, List as Items, map};
ghost use Rattle.std.specs.Bool.{MatchBool};
ghost use Rattle.snowcat_rows.specs.Views.{issued_of, kept_by};
ghost use Rattle.snowcat_types.specs.Systems.{Asks, Waits};
ghost use Rattle.snowcat_types.specs.Waiting.{place_of};
ghost use Rattle.snowcat_types.specs.declared.kinds.Kind.TheVariants.{NotFormed};
ghost use Rattle.snowcat_types.specs.inner.Awaited.{IsRunning, IsStep};
ghost use Rattle.snowcat_types.specs.inner.Gathered.{AllNamedIn, EntriesNamed, EntryNamed, SystemNamed, entry_of, requirements_of, system_of_built};
ghost use Rattle.snowcat_types.specs.inner.Runs.{EntryInside, HasReached, HasVisited, IsFault, IsFitting, IsPlaced, IsTypedBy, IsVisit};
ghost use Rattle.snowcat_types.specs.inner.Solved.{AllInside, WaitInside};

use crate::asking::ask_all;
use crate::awaiting::Awaiting;
use crate::choosing::choose;
use crate::deciding::kind_of;
use crate::faults::TypeFault;
use crate::gathered::{Entry, Requirement, System};
use crate::kinds::Kind;
use crate::waiting::{Wait, place_of};
use snowcat_rows::{Subst, UnifyFault};
use std::alloc::{AllocError, Global};
use tla_meaning::Place;
use tla_values::List;

// Whether nothing is known of a type.
fn is_open(kind: Kind) -> bool
    ensures { MatchBool result (kind ≡ NotFormed) (kind ≡ NotFormed → ⊥) }
{
    match kind {
        Kind::NotFormed => true,
        Kind::Function | Kind::Sequence | Kind::Tuple | Kind::Record | Kind::Other => false,
    }
}

fn copy_places(alloc: Global, places: &[Place]) -> Result<List<Place>, AllocError>
    ensures { IfOk result (λ copy. copy ≡ places.now) }
{
    let mut copy = Vec::new(alloc);
    copy.extend_from_slice(places)?;
    Ok(List::from_vec(copy))
}

// The fault at the place, where the nodes at the places took their default.
fn clash_at(alloc: Global, fault: UnifyFault, place: Place, places: &[Place]) -> TypeFault
    ensures { IsPlaced fault place places.now result }
{
    match fault {
        UnifyFault::Clash(a, b) => match copy_places(alloc, places) {
            Ok(places) => TypeFault::Clash(place, a, b, places),
            Err(fault) => TypeFault::Memory(fault),
        },
        UnifyFault::Memory(fault) => TypeFault::Memory(fault),
    }
}

// Visits a row.
fn visit_row(
    alloc: Global,
    subst: &mut Subst,
    place: Place,
    asked: &[Requirement],
) -> Result<(), TypeFault>
    requires within { AllInside (issued_of subst.old) (requirements_of asked.now) }
    requires named { AllNamedIn asked.now }
    ensures { (ws : Items Wait) → IsVisit (Asks place (requirements_of asked.now)) ws subst.old ws subst.new result }
{
    match ask_all(alloc, subst, asked) {
        Ok(()) => Ok(()),
        Err(fault) => Err(clash_at(alloc, fault, place, &[])),
    }
}

// Visits a node that waits: it takes its choice, or goes on waiting.
fn visit_wait<'a>(
    alloc: Global,
    subst: &mut Subst,
    waits: &mut Vec<&'a Wait>,
    wait: &'a Wait,
) -> Result<(), TypeFault>
    requires { WaitInside (issued_of subst.old) wait.now }
    ensures { IsVisit (Waits wait.now) (map (λ w. w.now) waits.old.items) subst.old (map (λ w. w.now) waits.new.items) subst.new result }
{
    let kind = kind_of(subst, wait);
    if is_open(kind) {
        waits.push(wait)?;
        return Ok(());
    }
    match choose(alloc, subst, wait, kind) {
        Ok(()) => Ok(()),
        Err(fault) => Err(clash_at(alloc, fault, place_of(wait), &[])),
    }
}

fn visit<'a>(
    alloc: Global,
    subst: &mut Subst,
    waits: &mut Vec<&'a Wait>,
    entry: &'a Entry,
) -> Result<(), TypeFault>
    requires inside { EntryInside (issued_of subst.old) (entry_of entry.now) }
    requires named { EntryNamed entry.now }
    ensures { IsVisit (entry_of entry.now) (map (λ w. w.now) waits.old.items) subst.old (map (λ w. w.now) waits.new.items) subst.new result }
{
    match entry {
        Entry::Asks(place, asked) => visit_row(alloc, subst, *place, asked.as_slice()),
        Entry::Waits(wait) => visit_wait(alloc, subst, waits, wait),
    }
}

// Visits all entries: the nodes that wait then.
fn visit_all<'a>(
    alloc: Global,
    subst: &mut Subst,
    system: &'a System,
) -> Result<Vec<&'a Wait>, TypeFault>
    requires named { EntriesNamed system.now.entries }
    requires started { HasVisited (system_of_built system.now) [] [] subst.old }
    ensures visited { IfOk result (λ waits. HasReached (system_of_built system.now) (map (λ w. w.now) waits.items) [] subst.new) }
    ensures fault { IfErr result (λ e. IsFault (system_of_built system.now) e) }
{
    let entries = system.entries.as_slice();
    let mut waits = Vec::new(alloc);
    for i in 0..entries.len() {
        visit(alloc, subst, &mut waits, &entries[i])?;
    }
    Ok(waits)
}

// The node that goes on next takes its choice: it is one that is decided, or where there is none the first, by default.
// False where no node waits.
fn go_on(
    alloc: Global,
    subst: &mut Subst,
    system: &System,
    waits: &[&Wait],
    awaiting: &mut Awaiting,
) -> Result<bool, TypeFault>
    requires { IsRunning (system_of_built system.now) (map (λ w. w.now) waits.now) awaiting.old subst.old }
    ensures on { IfOk result (λ more. IsStep (system_of_built system.now) (map (λ w. w.now) waits.now)
        awaiting.old more awaiting.new subst.new) }
    ensures fault { IfErr result (λ e. IsFault (system_of_built system.now) e) }
{
    let Some((node, kind)) = awaiting.next(alloc, subst, waits)? else {
        return Ok(false);
    };
    let wait = waits[node];
    let mark = subst.bound();
    match choose(alloc, subst, wait, kind) {
        Ok(()) => {
            awaiting.release_from(alloc, subst, mark)?;
            Ok(true)
        }
        Err(fault) => Err(clash_at(alloc, fault, place_of(wait), awaiting.defaults())),
    }
}

// The unknown types of the system, of which nothing is known.
fn issued(alloc: Global, count: u32) -> Subst
    ensures { (issued_of result ≡ count) × (kept_by result ≡ []) }
{
    let mut subst = Subst::new(alloc);
    for known in 0..count {
        let _ = subst.fresh();
    }
    subst
}

// What is asked of the declared names is met.
fn started(alloc: Global, system: &System) -> Result<Subst, TypeFault>
    requires named { AllNamedIn system.now.declared }
    requires fitting { IsFitting (system_of_built system.now) }
    ensures started { IfOk result (λ s. HasVisited (system_of_built system.now) [] [] s) }
    ensures fault { IfErr result (λ e. IsFault (system_of_built system.now) e) }
{
    let mut subst = issued(alloc, system.count);
    match ask_all(alloc, &mut subst, system.declared.as_slice()) {
        Ok(()) => Ok(subst),
        Err(UnifyFault::Clash(_, _)) => unreachable!(),
        Err(UnifyFault::Memory(fault)) => Err(TypeFault::Memory(fault)),
    }
}

/// What stands for the unknown types of the system in a typing.
pub(crate) fn solve(alloc: Global, system: &System) -> Result<Subst, TypeFault>
    requires named { SystemNamed system.now }
    requires fitting { IsFitting (system_of_built system.now) }
    ensures typed { IfOk result (λ s. IsTypedBy (system_of_built system.now) s) }
    ensures fault { IfErr result (λ e. IsFault (system_of_built system.now) e) }
{
    let mut subst = started(alloc, system)?;
    let waits = visit_all(alloc, &mut subst, system)?;
    let mut awaiting = Awaiting::new(alloc, waits.as_slice())?;
    'steps: while go_on(alloc, &mut subst, system, waits.as_slice(), &mut awaiting)? {}
    Ok(subst)
}
