// The queue beside a plain list.
ghost use Rattle.std.specs.Prelude.{◌≡◌, IfOk, OnOk};
ghost use Rattle.std.specs.List.{range_with_len};
ghost use Rattle.decision_queue.specs.Queue.{without};

use crate::passing::passes;
use decision_queue::DecisionQueue;
use std::alloc::{AllocError, Global};
use std::test::Fail;

#[derive(Drop, Clone, Copy)]
enum Call {
    Unlink,
    Relink,
    Bump,
}

fn numbers(alloc: Global, n: usize) -> Result<Vec<usize>, AllocError>
    ensures { IfOk result (λ v. v.items ≡ range_with_len 0 n) }
{
    let mut numbers = Vec::new(alloc);
    for i in 0..n {
        numbers.push(i)?;
    }
    Ok(numbers)
}

fn kept(alloc: Global, plain: &[usize], v: usize) -> Result<Vec<usize>, AllocError>
    ensures { IfOk result (λ kept. kept.items ≡ without v plain.now) }
{
    let mut kept = Vec::new(alloc);
    for x in plain {
        if *x != v {
            kept.push(*x)?;
        }
    }
    Ok(kept)
}

// Makes a call on the queue and on the plain list, if its condition holds.
fn apply(
    alloc: Global,
    queue: &mut DecisionQueue,
    plain: &mut Vec<usize>,
    room: usize,
    call: Call,
    v: usize,
) -> Result<(), AllocError>
    requires same { plain.old.items ≡ queue.old.items }
    requires room { room ≡ queue.old.room }
    ensures same { OnOk result (plain.new.items ≡ queue.new.items) }
    ensures room { queue.new.room ≡ queue.old.room }
{
    let held = plain.as_slice().contains(&v);
    match call {
        Call::Unlink if held => {
            queue.unlink(v);
            *plain = kept(alloc, plain, v)?;
        }
        Call::Bump if held => {
            queue.bump(v);
            *plain = kept(alloc, plain, v)?;
            plain.insert(0, v)?;
        }
        Call::Relink if !held && v < room => {
            queue.relink(v);
            plain.insert(0, v)?;
        }
        _ => {}
    }
    Ok(())
}

// A queue of the numbers below `n` after the calls.
fn queue_after(
    alloc: Global,
    n: usize,
    calls: &[(Call, usize)],
) -> Result<DecisionQueue, AllocError> {
    let mut queue = DecisionQueue::new(alloc, n)?;
    let mut plain = numbers(alloc, n)?;
    'calls: for (call, v) in calls {
        apply(alloc, &mut queue, &mut plain, n, *call, *v)?;
    }
    Ok(queue)
}

// Whether the queue has the numbers of the list. It takes them out.
fn drains_as(queue: &mut DecisionQueue, expected: &[usize]) -> bool {
    for v in expected {
        let Some(first) = queue.first() else {
            return false;
        };
        if first != *v {
            return false;
        }
        queue.unlink(first);
    }
    queue.first().is_none()
}

// The next number of a pseudo-random sequence.
fn draw(state: &mut u64) -> usize {
    *state = state
        .wrapping_mul(6364136223846793005)
        .wrapping_add(1442695040888963407);
    (*state >> 33) as usize
}

fn drawn_call(state: &mut u64) -> Call {
    match draw(state) % 3 {
        0 => Call::Unlink,
        1 => Call::Relink,
        _ => Call::Bump,
    }
}

// The calls on a queue of 0, 1 and 2, and what it has then.
static ROWS: [(&[(Call, usize)], &[usize]); 4] = [
    (&[], &[0, 1, 2]),
    (&[(Call::Unlink, 0), (Call::Unlink, 2)], &[1]),
    (
        &[(Call::Unlink, 0), (Call::Unlink, 2), (Call::Relink, 0)],
        &[0, 1],
    ),
    (
        &[
            (Call::Unlink, 0),
            (Call::Unlink, 2),
            (Call::Relink, 0),
            (Call::Bump, 1),
        ],
        &[1, 0],
    ),
];

fn leaves(alloc: Global, calls: &[(Call, usize)], expected: &[usize]) -> Result<bool, AllocError> {
    let mut queue = queue_after(alloc, 3, calls)?;
    Ok(drains_as(&mut queue, expected))
}

// How many rows are right before the first that is wrong.
fn count_right(alloc: Global) -> Result<usize, AllocError> {
    for (i, (calls, expected)) in ROWS.iter().enumerate() {
        if !leaves(alloc, *calls, *expected)? {
            return Ok(i);
        }
    }
    Ok(ROWS.len())
}

#[test]
fn calls_move_numbers_to_the_front_and_out(rt: HostRuntime) -> Result<(), Fail> {
    passes(&rt, count_right(rt.alloc()), 4)
}

// How many of so many random calls there are before the first after which the queue and the plain list begin with other
// numbers.
fn count_alike(
    alloc: Global,
    queue: &mut DecisionQueue,
    plain: &mut Vec<usize>,
    count: usize,
) -> Result<usize, AllocError>
    requires same { plain.old.items ≡ queue.old.items }
    requires room { queue.old.room ≡ 12 }
{
    let mut state = 1;
    'calls: for call in 0..count {
        let v = draw(&mut state) % 12;
        apply(alloc, queue, plain, 12, drawn_call(&mut state), v)?;
        if queue.first() != plain.first().copied() {
            return Ok(call);
        }
    }
    Ok(count)
}

// The same, and none if other numbers are left at the end.
fn count_calls(alloc: Global) -> Result<usize, AllocError> {
    let mut queue = DecisionQueue::new(alloc, 12)?;
    let mut plain = numbers(alloc, 12)?;
    let alike = count_alike(alloc, &mut queue, &mut plain, 5000)?;
    if drains_as(&mut queue, &plain) {
        Ok(alike)
    } else {
        Ok(0)
    }
}

#[test]
fn thousands_of_random_calls_agree_with_a_plain_list(rt: HostRuntime) -> Result<(), Fail> {
    passes(&rt, count_calls(rt.alloc()), 5000)
}
