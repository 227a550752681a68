// The waiting nodes of a node; begin with `waits_of` at the end.
ghost use Rattle.std.specs.Prelude.{◌≡◌, ◌+◌, ◌++◌, ◌∷◌, [], IfOk, OnOk, drop, length, take};
ghost use Rattle.tla_meaning.specs.declared.op.Op.TheVariants as ops;
ghost use Rattle.snowcat_types.specs.Waiting.{first_literal, literal_of, second_literal, waiting, waiting_indexes, waiting_updates};

use crate::waiting::{Index, Sight, Wait};
use std::alloc::{AllocError, Global};
use tla_meaning::{Op, Place};
use tla_values::copy_text;

// ---- literals

fn copy_index(alloc: Global, index: &Index) -> Result<Index, AllocError>
    ensures { IfOk result (λ i. i ≡ index.now) }
{
    match index {
        Index::Number(n) => Ok(Index::Number(*n)),
        Index::Word(text) => {
            let text = copy_text(alloc, text)?;
            Ok(Index::Word(text))
        }
        Index::NoLiteral => Ok(Index::NoLiteral),
    }
}

fn first_literal(alloc: Global, sights: &[Sight]) -> Result<Index, AllocError>
    ensures { IfOk result (λ i. i ≡ first_literal sights.now) }
{
    match sights {
        [] => Ok(Index::NoLiteral),
        [first, ..] => copy_index(alloc, &first.literal),
    }
}

fn second_literal(alloc: Global, sights: &[Sight]) -> Result<Index, AllocError>
    ensures { IfOk result (λ i. i ≡ second_literal sights.now) }
{
    match sights {
        [] => Ok(Index::NoLiteral),
        [_] => Ok(Index::NoLiteral),
        [_, second, ..] => copy_index(alloc, &second.literal),
    }
}

/// Whether a node of this operator over these children is a literal.
pub(crate) fn literal_of(alloc: Global, op: &Op, sights: &[Sight]) -> Result<Index, AllocError>
    ensures { IfOk result (λ i. i ≡ literal_of op.now sights.now) }
{
    match op {
        Op::Int(i) => Ok(Index::Number(*i)),
        Op::Str(text) => {
            let text = copy_text(alloc, text)?;
            Ok(Index::Word(text))
        }
        Op::Noted(_) => first_literal(alloc, sights),
        _ => Ok(Index::NoLiteral),
    }
}

// ---- numbers of unknown types

/// The number of an unknown type behind the first; past 2^32 is want of memory.
pub(crate) fn number_behind(first: u32, k: usize) -> Result<u32, AllocError>
    ensures { IfOk result (λ v. v ≡ first + k) }
{
    match u32::try_from(k) {
        Ok(k) => match first.checked_add(k) {
            Some(v) => Ok(v),
            None => Err(AllocError),
        },
        Err(_) => Err(AllocError),
    }
}

fn plus(a: usize, b: usize) -> Result<usize, AllocError>
    ensures { IfOk result (λ k. k ≡ a + b) }
{
    match a.checked_add(b) {
        Some(k) => Ok(k),
        None => Err(AllocError),
    }
}

// ---- the indexes of an EXCEPT

// That of an EXCEPT's `i`-th index, the node that is reached so far having the type `from`.
fn index_wait(
    alloc: Global,
    first: u32,
    from: u32,
    i: usize,
    index: &Sight,
) -> Result<Wait, AllocError>
    ensures { IfOk result (λ w. w ∷ [] ≡ waiting_indexes first from i 1 (index.now ∷ [])) }
{
    let twice = plus(i, i)?;
    let own = number_behind(first, plus(twice, 1)?)?;
    let reached = number_behind(first, plus(twice, 2)?)?;
    let literal = copy_index(alloc, &index.literal)?;
    Ok(Wait::Apply(index.place, from, own, reached, literal))
}

// The type that is reached by the `i`-th index.
fn reached_by(first: u32, i: usize) -> Result<u32, AllocError>
    ensures { IfOk result (λ v. v ≡ first + (i + i + 2)) }
{
    let twice = plus(i, i)?;
    number_behind(first, plus(twice, 2)?)
}

// Those of the indexes of an update, the first being the EXCEPT's `i`-th.
fn push_indexes(
    waits: &mut Vec<Wait>,
    alloc: Global,
    first: u32,
    i: usize,
    indexes: &[Sight],
) -> Result<(), AllocError>
    ensures { OnOk result (waits.new.items
        ≡ waits.old.items ++ waiting_indexes first first i (length indexes.now) indexes.now) }
{
    let mut from = first;
    for j in 0..indexes.len() {
        let at = plus(i, j)?;
        let wait = index_wait(alloc, first, from, at, &indexes[j])?;
        waits.push(wait)?;
        from = reached_by(first, at)?;
    }
    Ok(())
}

// So many from that place on, as far as there are some.
fn part_of(sights: &[Sight], start: usize, n: usize) -> &[Sight]
    ensures { result.now ≡ take n (drop start sights.now) }
{
    if start >= sights.len() {
        return &[];
    }
    let rest = &sights[start..];
    if n < rest.len() { &rest[..n] } else { rest }
}

fn except_waits(
    alloc: Global,
    first: u32,
    counts: &[usize],
    indexes: &[Sight],
) -> Result<Vec<Wait>, AllocError>
    ensures { IfOk result (λ ws. ws.items ≡ waiting_updates first 0 counts.now indexes.now) }
{
    let mut waits = Vec::new(alloc);
    let mut i = 0usize;
    let mut start = 0usize;
    for n in counts {
        push_indexes(&mut waits, alloc, first, i, part_of(indexes, start, *n))?;
        i = plus(i, *n)?;
        start = plus(start, plus(*n, 1)?)?;
    }
    Ok(waits)
}

// ---- the others

fn one_wait(alloc: Global, wait: Wait) -> Result<Vec<Wait>, AllocError>
    ensures { IfOk result (λ ws. ws.items ≡ wait ∷ []) }
{
    let mut waits = Vec::new(alloc);
    waits.push(wait)?;
    Ok(waits)
}

fn apply_waits(
    alloc: Global,
    place: Place,
    first: u32,
    sights: &[Sight],
) -> Result<Vec<Wait>, AllocError>
    ensures { IfOk result (λ ws. ws.items ≡ waiting place ops.Apply first sights.now) }
{
    let argument = number_behind(first, 1)?;
    let value = number_behind(first, 2)?;
    let literal = second_literal(alloc, sights)?;
    one_wait(alloc, Wait::Apply(place, first, argument, value, literal))
}

fn domain_waits(alloc: Global, place: Place, first: u32) -> Result<Vec<Wait>, AllocError>
    ensures { IfOk result (λ ws. ws.items ≡ waiting place ops.Domain first []) }
{
    let whole = number_behind(first, 1)?;
    let argument = number_behind(first, 2)?;
    let value = number_behind(first, 3)?;
    one_wait(alloc, Wait::Domain(place, first, whole, argument, value))
}

fn tuple_waits(
    alloc: Global,
    place: Place,
    first: u32,
    sights: &[Sight],
) -> Result<Vec<Wait>, AllocError>
    ensures { IfOk result (λ ws. ws.items ≡ waiting place ops.Tuple first sights.now) }
{
    if sights.is_empty() {
        return Ok(Vec::new(alloc));
    }
    let item = number_behind(first, 1)?;
    let items = number_behind(first, 2)?;
    let count = number_behind(0, sights.len())?;
    one_wait(alloc, Wait::Tuple(place, first, item, items, count))
}

// The first child of an EXCEPT is what it changes.
fn update_waits(
    alloc: Global,
    first: u32,
    counts: &[usize],
    sights: &[Sight],
) -> Result<Vec<Wait>, AllocError>
    ensures { IfOk result (λ ws. (p : Place) → ws.items
        ≡ waiting p (ops.Except counts.now) first sights.now) }
{
    if sights.is_empty() {
        return Ok(Vec::new(alloc));
    }
    except_waits(alloc, first, counts, &sights[1..])
}

/// The waiting nodes of a node of this operator, whose unknown types begin with that number.
pub(crate) fn waits_of(
    alloc: Global,
    place: Place,
    op: &Op,
    first: u32,
    sights: &[Sight],
) -> Result<Vec<Wait>, AllocError>
    ensures { IfOk result (λ ws. ws.items ≡ waiting place op.now first sights.now) }
{
    match op {
        Op::Apply => apply_waits(alloc, place, first, sights),
        Op::Except(counts) => update_waits(alloc, first, counts.as_slice(), sights),
        Op::Domain => domain_waits(alloc, place, first),
        Op::Tuple => tuple_waits(alloc, place, first, sights),
        _ => Ok(Vec::new(alloc)),
    }
}
