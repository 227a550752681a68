// The chains beside one plain list of links with their codes.
ghost use Rattle.std.specs.Prelude.{◌≡◌, ◌<◌, length, IfOk, OnOk, IsTrue};
ghost use Rattle.watch_chains.specs.Watches.{list_at, IsSlot, IsAbsent, IsFollowed};

use crate::passing::passes;
use std::alloc::{AllocError, Global};
use std::test::Fail;
use watch_chains::{Link, WatchChains};

fn made(alloc: Global, codes: usize, clauses: usize) -> Result<WatchChains, AllocError>
    ensures codes { IfOk result (λ chains. length chains.lists ≡ codes) }
    ensures room { IfOk result (λ chains. chains.room ≡ clauses) }
{
    let mut chains = WatchChains::new(alloc, codes)?;
    chains.reserve(clauses)?;
    Ok(chains)
}

// The list of a code, read link by link.
fn contents(alloc: Global, chains: &WatchChains, code: usize) -> Result<Vec<Link>, AllocError>
    requires { code < length chains.now.lists }
    ensures { IfOk result (λ links. links.items ≡ list_at chains.now.lists code) }
{
    let mut links = Vec::new(alloc);
    let mut at = chains.first(code);
    'links: while let Some(l) = at {
        links.push(l)?;
        at = chains.next_of(code, l);
    }
    Ok(links)
}

fn is_free(alloc: Global, chains: &WatchChains, codes: usize, l: Link) -> Result<bool, AllocError>
    requires { codes ≡ length chains.now.lists }
    ensures { IfOk result (λ free. IsTrue free → IsAbsent chains.now.lists l) }
{
    for code in 0..codes {
        if contents(alloc, chains, code)?.as_slice().contains(&l) {
            return Ok(false);
        }
    }
    Ok(true)
}

// What stands before the place, as `unlink` takes it.
fn before(list: &[Link], at: usize) -> Option<Link>
    requires { at < length list.now }
    ensures { IsFollowed list.now result }
{
    if at == 0 { None } else { Some(list[at - 1]) }
}

// Links a free link in both.
fn link(
    chains: &mut WatchChains,
    plain: &mut Vec<(usize, Link)>,
    code: usize,
    l: Link,
) -> Result<(), AllocError>
    requires code { code < length chains.old.lists }
    requires slot { IsSlot chains.old.room l }
    requires absent { IsAbsent chains.old.lists l }
    ensures codes { length chains.new.lists ≡ length chains.old.lists }
    ensures room { chains.new.room ≡ chains.old.room }
{
    chains.link(code, l);
    plain.insert(0, (code, l))?;
    Ok(())
}

// Takes what stands at the place out of both, if there is something. It answers whether that was taken out.
fn take_out(
    alloc: Global,
    chains: &mut WatchChains,
    plain: &mut Vec<(usize, Link)>,
    code: usize,
    at: usize,
) -> Result<bool, AllocError>
    requires code { code < length chains.old.lists }
    ensures codes { length chains.new.lists ≡ length chains.old.lists }
    ensures room { chains.new.room ≡ chains.old.room }
{
    let list = contents(alloc, chains, code)?;
    if at >= list.len() {
        return Ok(true);
    }
    let taken = chains.unlink(code, before(&list, at));
    plain.retain(|(_, link)| *link != taken);
    Ok(taken == list[at])
}

// Links a free link, and otherwise takes out what stands at the place.
fn apply(
    alloc: Global,
    chains: &mut WatchChains,
    plain: &mut Vec<(usize, Link)>,
    codes: usize,
    code: usize,
    l: Link,
    at: usize,
) -> Result<bool, AllocError>
    requires codes { codes ≡ length chains.old.lists }
    requires code { code < codes }
    requires slot { IsSlot chains.old.room l }
    ensures codes { length chains.new.lists ≡ length chains.old.lists }
    ensures room { chains.new.room ≡ chains.old.room }
{
    if is_free(alloc, chains, codes, l)? {
        link(chains, plain, code, l)?;
        return Ok(true);
    }
    take_out(alloc, chains, plain, code, at)
}

// Whether the list has the links of the code in the plain list.
fn agrees(list: &[Link], plain: &[(usize, Link)], code: usize) -> bool {
    let mut rest = list.iter();
    for (owner, l) in plain {
        if *owner == code && rest.next() != Some(l) {
            return false;
        }
    }
    rest.next().is_none()
}

fn agrees_at(
    alloc: Global,
    chains: &WatchChains,
    plain: &[(usize, Link)],
    code: usize,
) -> Result<bool, AllocError>
    requires { code < length chains.now.lists }
{
    Ok(agrees(&contents(alloc, chains, code)?, plain, code))
}

// Whether each list has the links of its code in the plain list.
fn all_agree(
    alloc: Global,
    chains: &WatchChains,
    plain: &[(usize, Link)],
    codes: usize,
) -> Result<bool, AllocError>
    requires { codes ≡ length chains.now.lists }
{
    for code in 0..codes {
        if !agrees_at(alloc, chains, plain, code)? {
            return Ok(false);
        }
    }
    Ok(true)
}

fn has_links(
    alloc: Global,
    chains: &WatchChains,
    code: usize,
    links: &[Link],
) -> Result<bool, AllocError>
    requires { code < length chains.now.lists }
{
    Ok(contents(alloc, chains, code)?.as_slice() == links)
}

// Links or takes out each link in turn, in the list of 5, as `apply` does: how many steps come before the first after
// which the list has other links than these, or another list has some.
fn count_right(
    alloc: Global,
    chains: &mut WatchChains,
    plain: &mut Vec<(usize, Link)>,
    steps: &[(Link, usize, &[Link])],
) -> Result<usize, AllocError>
    requires codes { length chains.old.lists ≡ 6 }
    requires room { chains.old.room ≡ 3 }
{
    'steps: for i in 0..steps.len() {
        let (l, at, expected) = steps[i];
        if l.clause >= 3 || l.slot >= 2 || !apply(alloc, chains, plain, 6, 5, l, at)? {
            return Ok(i);
        }
        if !has_links(alloc, chains, 5, expected)? || !all_agree(alloc, chains, plain, 6)? {
            return Ok(i);
        }
    }
    Ok(steps.len())
}

const C0: Link = Link { clause: 0, slot: 0 };

const C1: Link = Link { clause: 1, slot: 1 };

const C2: Link = Link { clause: 2, slot: 0 };

// The link to link, or the place to take out, and the list afterwards.
static STEPS: [(Link, usize, &[Link]); 6] = [
    (C0, 0, &[C0]),
    (C1, 0, &[C1, C0]),
    (C2, 0, &[C2, C1, C0]),
    (C0, 1, &[C2, C0]),
    (C0, 1, &[C2]),
    (C2, 0, &[]),
];

fn count_steps(alloc: Global) -> Result<usize, AllocError> {
    let mut chains = made(alloc, 6, 3)?;
    count_right(alloc, &mut chains, &mut Vec::new(alloc), &STEPS)
}

#[test]
fn links_go_to_the_front_and_come_out_behind_another(rt: HostRuntime) -> Result<(), Fail> {
    passes(&rt, count_steps(rt.alloc()), 6)
}

// The next number of a pseudo-random sequence.
fn draw(state: &mut u64) -> usize {
    *state = state
        .wrapping_mul(6364136223846793005)
        .wrapping_add(1442695040888963407);
    (*state >> 33) as usize
}

// How many of so many random calls there are before the first after which the chains and the plain list differ.
fn count_alike(
    alloc: Global,
    chains: &mut WatchChains,
    plain: &mut Vec<(usize, Link)>,
    count: usize,
) -> Result<usize, AllocError>
    requires codes { length chains.old.lists ≡ 3 }
    requires room { chains.old.room ≡ 6 }
{
    let mut state = 1;
    'calls: for call in 0..count {
        let code = draw(&mut state) % 3;
        let clause = draw(&mut state) % 6;
        let slot = (draw(&mut state) % 2) as u8;
        let at = draw(&mut state) % 5;
        let right = apply(alloc, chains, plain, 3, code, Link { clause, slot }, at)?;
        if !right || !all_agree(alloc, chains, plain, 3)? {
            return Ok(call);
        }
    }
    Ok(count)
}

fn count_calls(alloc: Global, count: usize) -> Result<usize, AllocError> {
    let mut chains = made(alloc, 3, 6)?;
    count_alike(alloc, &mut chains, &mut Vec::new(alloc), count)
}

#[test]
fn thousands_of_random_calls_agree_with_a_plain_list(rt: HostRuntime) -> Result<(), Fail> {
    passes(&rt, count_calls(rt.alloc(), 4000), 4000)
}
