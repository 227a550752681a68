// The rows of folds and of EXCEPT.
ghost use Rattle.std.specs.Prelude.{◌≡◌, ◌+◌, ◌∷◌, [], IfOk, OnOk, ◌++◌, map};
ghost use Rattle.snowcat_rows.specs.Types.{mean};
ghost use Rattle.snowcat_types.specs.TypeForms.{seq_type};
ghost use Rattle.snowcat_types.specs.Rows.{index_types, plain, reached_after, typed_names, update_operands};
ghost use Rattle.snowcat_types.specs.inner.Built.{means, operand_of, signature_of, unknown_from, update_of};

use crate::forms::{Operand, Row, one, plains, seq_at, two, typed_names, unknown};
use snowcat_rows::Ty;
use std::alloc::{AllocError, Global};
use tla_values::{List, Text};

#[tactic(auto, using(snowcat_rows::proofs::Means::means))]
pub fn fold_row(alloc: Global, first: u32, names: &[Text]) -> Result<Row, AllocError>
    ensures { IfOk result (λ r. signature_of r ≡ record {
      operands = record {
        type = unknown_from first 0;
        under = typed_names names.now (unknown_from first 0 ∷ unknown_from first 1 ∷ []);
      } ∷ plain (unknown_from first 0) ∷ plain (seq_type (unknown_from first 1)) ∷ [];
      result = unknown_from first 0;
    }) }
{
    let bound = two(alloc, unknown(first, 0)?, unknown(first, 1)?)?;
    let under = typed_names(alloc, names, bound.as_slice())?;
    let body = unknown(first, 0)?;
    let others = plains(
        alloc,
        two(alloc, unknown(first, 0)?, seq_at(alloc, first, 1)?)?,
    )?;
    let mut operands = Vec::new(alloc);
    operands.push(Operand { of: body, under })?;
    push_all(&mut operands, others)?;
    let of = unknown(first, 0)?;
    Ok(Row {
        operands: List::from_vec(operands),
        result: of,
    })
}

// The number of the type of an EXCEPT's index, counted through all updates, or of the type reached by it.
fn number_at(i: usize, j: usize, more: usize) -> Result<usize, AllocError>
    ensures { IfOk result (λ k. k ≡ (i + j) + (i + j) + more) }
{
    let Some(at) = i.checked_add(j) else {
        return Err(AllocError);
    };
    let Some(twice) = at.checked_add(at) else {
        return Err(AllocError);
    };
    match twice.checked_add(more) {
        Some(k) => Ok(k),
        None => Err(AllocError),
    }
}

// The types of `n` indexes from the `i`-th on.
fn indexes(alloc: Global, first: u32, i: usize, n: usize) -> Result<Vec<Ty>, AllocError>
    ensures { IfOk result (λ v. means v.items ≡ index_types (unknown_from first) i n) }
{
    let mut types = Vec::new(alloc);
    for j in 0..n {
        let k = number_at(i, j, 1)?;
        let next = unknown(first, k)?;
        types.push(next)?;
    }
    Ok(types)
}

// The type that is reached by them.
fn reached(first: u32, i: usize, n: usize) -> Result<Ty, AllocError>
    ensures { IfOk result (λ t. mean t ≡ reached_after (unknown_from first) i n) }
{
    if n == 0 {
        let whole = unknown(first, 0)?;
        return Ok(whole);
    }
    let k = number_at(i, n - 1, 2)?;
    let last = unknown(first, k)?;
    Ok(last)
}

// The operands of an update: its indexes, and its right side, in which the names stand for what was there.
fn update(
    alloc: Global,
    first: u32,
    names: &[Text],
    i: usize,
    n: usize,
) -> Result<Vec<Operand>, AllocError>
    ensures { IfOk result (λ os. map operand_of os.items ≡ update_of names.now (unknown_from first) i n) }
{
    let types = indexes(alloc, first, i, n)?;
    let bound = one(alloc, reached(first, i, n)?)?;
    let under = typed_names(alloc, names, bound.as_slice())?;
    let of = reached(first, i, n)?;
    let mut operands = plains(alloc, types)?;
    operands.push(Operand { of, under })?;
    Ok(operands)
}

fn push_all(operands: &mut Vec<Operand>, others: Vec<Operand>) -> Result<(), AllocError>
    ensures { OnOk result (operands.new.items ≡ operands.old.items ++ others.items) }
{
    for other in others {
        operands.push(other)?;
    }
    Ok(())
}

fn updates(
    alloc: Global,
    first: u32,
    names: &[Text],
    counts: &[usize],
) -> Result<Vec<Operand>, AllocError>
    ensures { IfOk result (λ os. map operand_of os.items
        ≡ update_operands names.now (unknown_from first) 0 counts.now) }
{
    let mut operands = Vec::new(alloc);
    let mut i = 0usize;
    for n in counts {
        let others = update(alloc, first, names, i, *n)?;
        push_all(&mut operands, others)?;
        match i.checked_add(*n) {
            Some(next) => i = next,
            None => return Err(AllocError),
        }
    }
    Ok(operands)
}

pub fn except_row(
    alloc: Global,
    first: u32,
    names: &[Text],
    counts: &[usize],
) -> Result<Row, AllocError>
    ensures { IfOk result (λ r. signature_of r
        ≡ record {
          operands = plain (unknown_from first 0) ∷ update_operands names.now (unknown_from first) 0 counts.now;
          result = unknown_from first 0;
        }) }
{
    let whole = one(alloc, unknown(first, 0)?)?;
    let others = updates(alloc, first, names, counts)?;
    let mut operands = plains(alloc, whole)?;
    push_all(&mut operands, others)?;
    let of = unknown(first, 0)?;
    Ok(Row {
        operands: List::from_vec(operands),
        result: of,
    })
}
