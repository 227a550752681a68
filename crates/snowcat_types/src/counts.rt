// How many unknown types a row of the table speaks of, in the table's families; begin with `type_count` at the end.
ghost use Rattle.std.specs.Prelude.{◌≡◌, ◌+◌, IfOk};
ghost use Rattle.snowcat_types.specs.Rows.{binder_row, equality_row, function_row, number_row, record_row, sequence_row, set_row, sum, tuple_row, type_row};

use std::alloc::AllocError;
use tla_meaning::Op;
use tla_values::Text;

fn plus(a: usize, b: usize) -> Result<usize, AllocError>
    ensures { IfOk result (λ k. k ≡ a + b) }
{
    match a.checked_add(b) {
        Some(k) => Ok(k),
        None => Err(AllocError),
    }
}

fn sum_of(counts: &[usize]) -> Result<usize, AllocError>
    ensures { IfOk result (λ k. k ≡ sum counts.now) }
{
    let mut whole = 0;
    for count in counts {
        whole = plus(whole, *count)?;
    }
    Ok(whole)
}

fn except_count(counts: &[usize]) -> Result<usize, AllocError>
    ensures { IfOk result (λ k. k ≡ 1 + (sum counts.now + sum counts.now)) }
{
    let indexes = sum_of(counts)?;
    let both = plus(indexes, indexes)?;
    let whole = plus(1, both)?;
    Ok(whole)
}

fn tuple_count(n: usize) -> Result<usize, AllocError>
    ensures { IfOk result (λ k. k ≡ (tuple_row n).unknowns) }
{
    if n == 0 {
        return Ok(1);
    }
    plus(n, 2)
}

fn sequence_count(op: &Op, names: &[Text], n: usize) -> Result<usize, AllocError>
    ensures { IfOk result (λ k. k ≡ (sequence_row op.now names.now n).unknowns) }
{
    match op {
        Op::Tuple => tuple_count(n),
        Op::Len | Op::Append | Op::Concat | Op::Head | Op::Tail | Op::SubSeq => Ok(1),
        Op::Fold => Ok(2),
        _ => Ok(0),
    }
}

fn record_count(op: &Op, names: &[Text], n: usize) -> Result<usize, AllocError>
    ensures { IfOk result (λ k. k ≡ (record_row op.now names.now n).unknowns) }
{
    match op {
        Op::RecSet(_) => Ok(n),
        Op::Record(_) => Ok(n),
        Op::Field(_) => Ok(2),
        _ => sequence_count(op, names, n),
    }
}

fn function_count(op: &Op, names: &[Text], n: usize) -> Result<usize, AllocError>
    ensures { IfOk result (λ k. k ≡ (function_row op.now names.now n).unknowns) }
{
    match op {
        Op::FunSet | Op::Merge | Op::Single => Ok(2),
        Op::Apply => Ok(3),
        Op::Except(counts) => except_count(counts.as_slice()),
        Op::Domain => Ok(4),
        _ => record_count(op, names, n),
    }
}

fn binder_count(op: &Op, names: &[Text], n: usize) -> Result<usize, AllocError>
    ensures { IfOk result (λ k. k ≡ (binder_row op.now names.now n).unknowns) }
{
    match op {
        Op::Exists | Op::Forall | Op::Filter => Ok(names.len()),
        Op::MapTo | Op::Lambda => plus(names.len(), 1),
        _ => function_count(op, names, n),
    }
}

fn set_count(op: &Op, names: &[Text], n: usize) -> Result<usize, AllocError>
    ensures { IfOk result (λ k. k ≡ (set_row op.now names.now n).unknowns) }
{
    match op {
        Op::SetEnum | Op::Cup | Op::Cap | Op::Minus | Op::Powerset => Ok(1),
        Op::BigUnion | Op::SeqSet | Op::Cardinality | Op::IsFinite => Ok(1),
        Op::Product => Ok(n),
        Op::BooleanSet | Op::IntSet | Op::NatSet | Op::StringSet => Ok(0),
        _ => binder_count(op, names, n),
    }
}

fn number_count(op: &Op, names: &[Text], n: usize) -> Result<usize, AllocError>
    ensures { IfOk result (λ k. k ≡ (number_row op.now names.now n).unknowns) }
{
    match op {
        Op::Lt | Op::Gt | Op::Le | Op::Ge => Ok(0),
        Op::Add | Op::Sub | Op::Mul | Op::Neg => Ok(0),
        Op::Div | Op::Mod | Op::Pow | Op::Range => Ok(0),
        _ => set_count(op, names, n),
    }
}

fn equality_count(op: &Op, names: &[Text], n: usize) -> Result<usize, AllocError>
    ensures { IfOk result (λ k. k ≡ (equality_row op.now names.now n).unknowns) }
{
    match op {
        Op::Eq | Op::Ne | Op::Assign => Ok(1),
        Op::In | Op::NotIn | Op::SubsetEq => Ok(1),
        _ => number_count(op, names, n),
    }
}

/// How many types the row of the operator speaks of, where the node binds these names and has `n` children. Past the
/// greatest number is want of memory.
pub fn type_count(op: &Op, names: &[Text], n: usize) -> Result<usize, AllocError>
    ensures { IfOk result (λ k. k ≡ (type_row op.now names.now n).unknowns) }
{
    match op {
        Op::Bool(_) | Op::Int(_) | Op::Str(_) => Ok(0),
        Op::And | Op::Or | Op::Implies | Op::Not | Op::Iff => Ok(0),
        Op::If => Ok(1),
        Op::Case(_) => Ok(1),
        _ => equality_count(op, names, n),
    }
}
