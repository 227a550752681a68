// The table of types, in its families: each goes on with the one above it. The numbers of a row's unknown types
// begin at `first`; begin with `type_row` at the end.
ghost use Rattle.std.specs.Prelude.{◌≡◌, ◌+◌, ◌∷◌, [], IfOk, OnOk, ◌++◌, length, map, replicate, true, zip};
ghost use Rattle.snowcat_rows.specs.LiteralTypes.{literal_type};
ghost use Rattle.snowcat_rows.specs.Types.{mean};
ghost use Rattle.snowcat_types.specs.TypeForms.{bool_type, fun_type, int_type, record_type, seq_type, set_type, tuple_type};
ghost use Rattle.snowcat_types.specs.Rows.{argument_type, binder_row, branches, equality_row, first_type, from_type, function_row, gives, number_row, over, record_row, sequence_row, set_row, sets_of, tuple_row, type_row, typed_names};
ghost use Rattle.snowcat_types.specs.inner.Built.{means, signature_of, unknown_from};
ghost use Rattle.snowcat_types.specs.inner.Gathered.{IsNamed};
ghost use Rattle.snowcat_types.specs.inner.Named.{RowNamed, has_fields};

use crate::forms::{
    Operand, Row, argument_of, copies, function_at, function_of, gives, one, plains, record_of,
    seq_at, set_at, set_of, sets_of, three, tuple_of, two, typed_names, unknown, unknowns,
};
use crate::updates::{except_row, fold_row};
use snowcat_rows::{Ty, literal_type};
use std::alloc::{AllocError, Global};
use tla_meaning::Op;
use tla_values::{List, Text};

// ---- a type without operands

#[tactic(auto, using(snowcat_rows::proofs::Means::means))]
pub fn leaf_row(alloc: Global, of: Ty) -> Result<Row, AllocError>
    ensures mean { IfOk result (λ r. signature_of r ≡ gives [] (mean of)) }
    ensures named { IsNamed of → IfOk result (λ r. RowNamed r) }
{
    gives(alloc, Vec::new(alloc), of)
}

#[tactic(auto, using(snowcat_rows::proofs::Means::means))]
fn set_leaf(alloc: Global, item: Ty) -> Result<Row, AllocError>
    ensures { IfOk result (λ r. signature_of r ≡ gives [] (set_type (mean item))) }
{
    let of = set_of(alloc, item)?;
    leaf_row(alloc, of)
}

#[tactic(auto, using(snowcat_rows::proofs::Means::means))]
fn text_row(alloc: Global, text: &Text) -> Result<Row, AllocError>
    ensures { IfOk result (λ r. signature_of r ≡ gives [] (literal_type text.now)) }
{
    let of = literal_type(alloc, text.bytes())?;
    leaf_row(alloc, of)
}

// ---- truth values and choices

#[tactic(auto, using(snowcat_rows::proofs::Means::means))]
fn truths_row(alloc: Global, n: usize) -> Result<Row, AllocError>
    ensures { IfOk result (λ r. signature_of r ≡ gives (replicate n bool_type) bool_type) }
{
    let types = copies(alloc, n, &Ty::Bool)?;
    gives(alloc, types, Ty::Bool)
}

#[tactic(auto, using(snowcat_rows::proofs::Means::means))]
fn two_truths_row(alloc: Global) -> Result<Row, AllocError>
    ensures { IfOk result (λ r. signature_of r ≡ gives (bool_type ∷ bool_type ∷ []) bool_type) }
{
    let types = two(alloc, Ty::Bool, Ty::Bool)?;
    gives(alloc, types, Ty::Bool)
}

#[tactic(auto, using(snowcat_rows::proofs::Means::means))]
fn one_truth_row(alloc: Global) -> Result<Row, AllocError>
    ensures { IfOk result (λ r. signature_of r ≡ gives (bool_type ∷ []) bool_type) }
{
    let types = one(alloc, Ty::Bool)?;
    gives(alloc, types, Ty::Bool)
}

#[tactic(auto, using(snowcat_rows::proofs::Means::means))]
fn if_row(alloc: Global, first: u32) -> Result<Row, AllocError>
    ensures { let a = unknown_from first in IfOk result (λ r. signature_of r
        ≡ gives (bool_type ∷ a 0 ∷ a 0 ∷ []) (a 0)) }
{
    let types = three(alloc, Ty::Bool, unknown(first, 0)?, unknown(first, 0)?)?;
    let of = unknown(first, 0)?;
    gives(alloc, types, of)
}

#[tactic(auto, using(snowcat_rows::proofs::Means::means))]
fn push_branch(types: &mut Vec<Ty>, branch: Ty) -> Result<(), AllocError>
    ensures { OnOk result (means types.new.items ≡ means types.old.items ++ (bool_type ∷ mean branch ∷ [])) }
{
    types.push(Ty::Bool)?;
    types.push(branch)?;
    Ok(())
}

// Guards with their branches; one at the end is that of OTHER.
#[tactic(auto, using(snowcat_rows::proofs::Means::means))]
fn branches(alloc: Global, first: u32, n: usize) -> Result<Vec<Ty>, AllocError>
    ensures { IfOk result (λ v. means v.items ≡ branches (unknown_from first 0) n) }
{
    let mut types = Vec::new(alloc);
    let mut left = n;
    while left > 1 {
        let branch = unknown(first, 0)?;
        push_branch(&mut types, branch)?;
        left -= 2;
    }
    if left == 1 {
        let branch = unknown(first, 0)?;
        types.push(branch)?;
    }
    Ok(types)
}

#[tactic(auto, using(snowcat_rows::proofs::Means::means))]
fn case_row(alloc: Global, first: u32, n: usize) -> Result<Row, AllocError>
    ensures { let a = unknown_from first in IfOk result (λ r. signature_of r
        ≡ gives (branches (a 0) n) (a 0)) }
{
    let types = branches(alloc, first, n)?;
    let of = unknown(first, 0)?;
    gives(alloc, types, of)
}

// ---- equality and membership

#[tactic(auto, using(snowcat_rows::proofs::Means::means))]
fn equal_row(alloc: Global, first: u32) -> Result<Row, AllocError>
    ensures { let a = unknown_from first in IfOk result (λ r. signature_of r
        ≡ gives (a 0 ∷ a 0 ∷ []) (bool_type)) }
{
    let types = two(alloc, unknown(first, 0)?, unknown(first, 0)?)?;
    let of = Ty::Bool;
    gives(alloc, types, of)
}

#[tactic(auto, using(snowcat_rows::proofs::Means::means))]
fn member_row(alloc: Global, first: u32) -> Result<Row, AllocError>
    ensures { let a = unknown_from first in IfOk result (λ r. signature_of r
        ≡ gives (a 0 ∷ set_type (a 0) ∷ []) (bool_type)) }
{
    let types = two(alloc, unknown(first, 0)?, set_at(alloc, first, 0)?)?;
    let of = Ty::Bool;
    gives(alloc, types, of)
}

// Two sets of one type.
#[tactic(auto, using(snowcat_rows::proofs::Means::means))]
fn sets_row(alloc: Global, first: u32, of: Ty) -> Result<Row, AllocError>
    ensures { let a = unknown_from first in IfOk result (λ r. signature_of r
        ≡ gives (set_type (a 0) ∷ set_type (a 0) ∷ []) (mean of)) }
{
    let types = two(alloc, set_at(alloc, first, 0)?, set_at(alloc, first, 0)?)?;
    gives(alloc, types, of)
}

// ---- numbers

#[tactic(auto, using(snowcat_rows::proofs::Means::means))]
fn numbers_row(alloc: Global, of: Ty) -> Result<Row, AllocError>
    ensures { IfOk result (λ r. signature_of r ≡ gives (int_type ∷ int_type ∷ []) (mean of)) }
{
    let types = two(alloc, Ty::Int, Ty::Int)?;
    gives(alloc, types, of)
}

#[tactic(auto, using(snowcat_rows::proofs::Means::means))]
fn negative_row(alloc: Global) -> Result<Row, AllocError>
    ensures { IfOk result (λ r. signature_of r ≡ gives (int_type ∷ []) (int_type)) }
{
    let types = one(alloc, Ty::Int)?;
    let of = Ty::Int;
    gives(alloc, types, of)
}

#[tactic(auto, using(snowcat_rows::proofs::Means::means))]
fn range_row(alloc: Global) -> Result<Row, AllocError>
    ensures { IfOk result (λ r. signature_of r ≡ gives (int_type ∷ int_type ∷ []) (set_type int_type)) }
{
    let of = set_of(alloc, Ty::Int)?;
    numbers_row(alloc, of)
}

// ---- sets

#[tactic(auto, using(snowcat_rows::proofs::Means::means))]
fn items_row(alloc: Global, first: u32, n: usize) -> Result<Row, AllocError>
    ensures { let a = unknown_from first in IfOk result (λ r. signature_of r
        ≡ gives (replicate n (a 0)) (set_type (a 0))) }
{
    let item = unknown(first, 0)?;
    let types = copies(alloc, n, &item)?;
    let of = set_of(alloc, item)?;
    gives(alloc, types, of)
}

#[tactic(auto, using(snowcat_rows::proofs::Means::means))]
fn joined_row(alloc: Global, first: u32) -> Result<Row, AllocError>
    ensures { let a = unknown_from first in IfOk result (λ r. signature_of r
        ≡ gives (set_type (a 0) ∷ set_type (a 0) ∷ []) (set_type (a 0))) }
{
    let of = set_at(alloc, first, 0)?;
    sets_row(alloc, first, of)
}

#[tactic(auto, using(snowcat_rows::proofs::Means::means))]
fn subsets_row(alloc: Global, first: u32) -> Result<Row, AllocError>
    ensures { let a = unknown_from first in IfOk result (λ r. signature_of r
        ≡ gives (set_type (a 0) ∷ []) (set_type (set_type (a 0)))) }
{
    let types = one(alloc, set_at(alloc, first, 0)?)?;
    let of = set_of(alloc, set_at(alloc, first, 0)?)?;
    gives(alloc, types, of)
}

#[tactic(auto, using(snowcat_rows::proofs::Means::means))]
fn product_row(alloc: Global, first: u32, n: usize) -> Result<Row, AllocError>
    ensures { let a = unknown_from first in IfOk result (λ r. signature_of r
        ≡ gives (sets_of (from_type a 0 n)) (set_type (tuple_type (from_type a 0 n)))) }
{
    let types = sets_of(alloc, unknowns(alloc, first, 0, n)?)?;
    let of = set_of(alloc, tuple_of(unknowns(alloc, first, 0, n)?))?;
    gives(alloc, types, of)
}

#[tactic(auto, using(snowcat_rows::proofs::Means::means))]
fn union_row(alloc: Global, first: u32) -> Result<Row, AllocError>
    ensures { let a = unknown_from first in IfOk result (λ r. signature_of r
        ≡ gives (set_type (set_type (a 0)) ∷ []) (set_type (a 0))) }
{
    let types = one(alloc, set_of(alloc, set_at(alloc, first, 0)?)?)?;
    let of = set_at(alloc, first, 0)?;
    gives(alloc, types, of)
}

#[tactic(auto, using(snowcat_rows::proofs::Means::means))]
fn sequences_row(alloc: Global, first: u32) -> Result<Row, AllocError>
    ensures { let a = unknown_from first in IfOk result (λ r. signature_of r
        ≡ gives (set_type (a 0) ∷ []) (set_type (seq_type (a 0)))) }
{
    let types = one(alloc, set_at(alloc, first, 0)?)?;
    let of = set_of(alloc, seq_at(alloc, first, 0)?)?;
    gives(alloc, types, of)
}

#[tactic(auto, using(snowcat_rows::proofs::Means::means))]
fn one_set_row(alloc: Global, first: u32, of: Ty) -> Result<Row, AllocError>
    ensures { let a = unknown_from first in IfOk result (λ r. signature_of r
        ≡ gives (set_type (a 0) ∷ []) (mean of)) }
{
    let types = one(alloc, set_at(alloc, first, 0)?)?;
    gives(alloc, types, of)
}

// ---- functions and records

#[tactic(auto, using(snowcat_rows::proofs::Means::means))]
fn functions_row(alloc: Global, first: u32) -> Result<Row, AllocError>
    ensures { let a = unknown_from first in IfOk result (λ r. signature_of r
        ≡ gives (set_type (a 0) ∷ set_type (a 1) ∷ []) (set_type (fun_type (a 0) (a 1)))) }
{
    let types = two(alloc, set_at(alloc, first, 0)?, set_at(alloc, first, 1)?)?;
    let of = set_of(alloc, function_at(alloc, first)?)?;
    gives(alloc, types, of)
}

#[tactic(auto, using(snowcat_rows::proofs::Means::means))]
fn apply_row(alloc: Global, first: u32) -> Result<Row, AllocError>
    ensures { let a = unknown_from first in IfOk result (λ r. signature_of r
        ≡ gives (a 0 ∷ a 1 ∷ []) (a 2)) }
{
    let types = two(alloc, unknown(first, 0)?, unknown(first, 1)?)?;
    let of = unknown(first, 2)?;
    gives(alloc, types, of)
}

// A domain or a field.
#[tactic(auto, using(snowcat_rows::proofs::Means::means))]
fn part_row(alloc: Global, first: u32) -> Result<Row, AllocError>
    ensures { let a = unknown_from first in IfOk result (λ r. signature_of r ≡ gives (a 0 ∷ []) (a 1)) }
{
    let types = one(alloc, unknown(first, 0)?)?;
    let of = unknown(first, 1)?;
    gives(alloc, types, of)
}

#[tactic(auto, using(snowcat_rows::proofs::Means::means))]
fn merge_row(alloc: Global, first: u32) -> Result<Row, AllocError>
    ensures { let a = unknown_from first in IfOk result (λ r. signature_of r
        ≡ gives (fun_type (a 0) (a 1) ∷ fun_type (a 0) (a 1) ∷ []) (fun_type (a 0) (a 1))) }
{
    let types = two(
        alloc,
        function_at(alloc, first)?,
        function_at(alloc, first)?,
    )?;
    let of = function_at(alloc, first)?;
    gives(alloc, types, of)
}

#[tactic(auto, using(snowcat_rows::proofs::Means::means))]
fn single_row(alloc: Global, first: u32) -> Result<Row, AllocError>
    ensures { let a = unknown_from first in IfOk result (λ r. signature_of r
        ≡ gives (a 0 ∷ a 1 ∷ []) (fun_type (a 0) (a 1))) }
{
    let types = two(alloc, unknown(first, 0)?, unknown(first, 1)?)?;
    let of = function_at(alloc, first)?;
    gives(alloc, types, of)
}

#[tactic(auto, using(snowcat_rows::proofs::Means::means))]
fn records_row(alloc: Global, first: u32, names: &[Text], n: usize) -> Result<Row, AllocError>
    ensures mean { let a = unknown_from first in IfOk result (λ r. signature_of r
        ≡ gives (sets_of (from_type a 0 n)) (set_type (record_type (zip names.now (from_type a 0 n))))) }
    ensures named { IfOk result (λ r. RowNamed r) }
{
    let items = unknowns(alloc, first, 0, n)?;
    let of = set_of(alloc, record_of(alloc, names, items.as_slice())?)?;
    let types = sets_of(alloc, items)?;
    gives(alloc, types, of)
}

#[tactic(auto, using(snowcat_rows::proofs::Means::means))]
fn record_of_row(alloc: Global, first: u32, names: &[Text], n: usize) -> Result<Row, AllocError>
    ensures mean { let a = unknown_from first in IfOk result (λ r. signature_of r
        ≡ gives (from_type a 0 n) (record_type (zip names.now (from_type a 0 n)))) }
    ensures named { IfOk result (λ r. RowNamed r) }
{
    let types = unknowns(alloc, first, 0, n)?;
    let of = record_of(alloc, names, types.as_slice())?;
    gives(alloc, types, of)
}

// ---- tuples and sequences

#[tactic(auto, using(snowcat_rows::proofs::Means::means))]
fn items_tuple(alloc: Global, first: u32, n: usize) -> Result<Row, AllocError>
    ensures { let a = unknown_from first in IfOk result (λ r. signature_of r
        ≡ gives (from_type a 2 n) (a 0)) }
{
    let types = unknowns(alloc, first, 2, n)?;
    let of = unknown(first, 0)?;
    gives(alloc, types, of)
}

#[tactic(auto, using(snowcat_rows::proofs::Means::means))]
fn empty_tuple(alloc: Global, first: u32) -> Result<Row, AllocError>
    ensures { let a = unknown_from first in IfOk result (λ r. signature_of r ≡ gives [] (seq_type (a 0))) }
{
    let of = seq_at(alloc, first, 0)?;
    leaf_row(alloc, of)
}

#[tactic(auto, using(snowcat_rows::proofs::Means::means))]
fn tuple_row(alloc: Global, first: u32, n: usize) -> Result<Row, AllocError>
    ensures { IfOk result (λ r. signature_of r ≡ (tuple_row n).says (unknown_from first)) }
{
    if n == 0 {
        return empty_tuple(alloc, first);
    }
    items_tuple(alloc, first, n)
}

#[tactic(auto, using(snowcat_rows::proofs::Means::means))]
fn one_seq_row(alloc: Global, first: u32, of: Ty) -> Result<Row, AllocError>
    ensures { let a = unknown_from first in IfOk result (λ r. signature_of r
        ≡ gives (seq_type (a 0) ∷ []) (mean of)) }
{
    let types = one(alloc, seq_at(alloc, first, 0)?)?;
    gives(alloc, types, of)
}

#[tactic(auto, using(snowcat_rows::proofs::Means::means))]
fn append_row(alloc: Global, first: u32) -> Result<Row, AllocError>
    ensures { let a = unknown_from first in IfOk result (λ r. signature_of r
        ≡ gives (seq_type (a 0) ∷ a 0 ∷ []) (seq_type (a 0))) }
{
    let types = two(alloc, seq_at(alloc, first, 0)?, unknown(first, 0)?)?;
    let of = seq_at(alloc, first, 0)?;
    gives(alloc, types, of)
}

#[tactic(auto, using(snowcat_rows::proofs::Means::means))]
fn concat_row(alloc: Global, first: u32) -> Result<Row, AllocError>
    ensures { let a = unknown_from first in IfOk result (λ r. signature_of r
        ≡ gives (seq_type (a 0) ∷ seq_type (a 0) ∷ []) (seq_type (a 0))) }
{
    let types = two(alloc, seq_at(alloc, first, 0)?, seq_at(alloc, first, 0)?)?;
    let of = seq_at(alloc, first, 0)?;
    gives(alloc, types, of)
}

#[tactic(auto, using(snowcat_rows::proofs::Means::means))]
fn head_row(alloc: Global, first: u32) -> Result<Row, AllocError>
    ensures { let a = unknown_from first in IfOk result (λ r. signature_of r
        ≡ gives (seq_type (a 0) ∷ []) (a 0)) }
{
    let of = unknown(first, 0)?;
    one_seq_row(alloc, first, of)
}

#[tactic(auto, using(snowcat_rows::proofs::Means::means))]
fn tail_row(alloc: Global, first: u32) -> Result<Row, AllocError>
    ensures { let a = unknown_from first in IfOk result (λ r. signature_of r
        ≡ gives (seq_type (a 0) ∷ []) (seq_type (a 0))) }
{
    let of = seq_at(alloc, first, 0)?;
    one_seq_row(alloc, first, of)
}

#[tactic(auto, using(snowcat_rows::proofs::Means::means))]
fn slice_row(alloc: Global, first: u32) -> Result<Row, AllocError>
    ensures { let a = unknown_from first in IfOk result (λ r. signature_of r
        ≡ gives (seq_type (a 0) ∷ int_type ∷ int_type ∷ []) (seq_type (a 0))) }
{
    let types = three(alloc, seq_at(alloc, first, 0)?, Ty::Int, Ty::Int)?;
    let of = seq_at(alloc, first, 0)?;
    gives(alloc, types, of)
}

// ---- binders

#[tactic(auto, using(snowcat_rows::proofs::Means::means))]
fn over_row(alloc: Global, first: u32, names: &[Text], body: Ty, of: Ty) -> Result<Row, AllocError>
    ensures { let a = unknown_from first in IfOk result (λ r. signature_of r
        ≡ over names.now a (mean body) (mean of)) }
{
    let types = unknowns(alloc, first, 0, names.len())?;
    let under = typed_names(alloc, names, types.as_slice())?;
    let mut operands = plains(alloc, sets_of(alloc, types)?)?;
    operands.push(Operand { of: body, under })?;
    Ok(Row {
        operands: List::from_vec(operands),
        result: of,
    })
}

#[tactic(auto, using(snowcat_rows::proofs::Means::means))]
fn test_row(alloc: Global, first: u32, names: &[Text]) -> Result<Row, AllocError>
    ensures { let a = unknown_from first in IfOk result (λ r. signature_of r
        ≡ over names.now a bool_type bool_type) }
{
    over_row(alloc, first, names, Ty::Bool, Ty::Bool)
}

#[tactic(auto, using(snowcat_rows::proofs::Means::means))]
fn first_name(first: u32, n: usize) -> Result<Ty, AllocError>
    ensures { IfOk result (λ t. mean t ≡ first_type (from_type (unknown_from first) 0 n)) }
{
    if n == 0 {
        return Ok(Ty::Bool);
    }
    unknown(first, 0)
}

#[tactic(auto, using(snowcat_rows::proofs::Means::means))]
fn filter_row(alloc: Global, first: u32, names: &[Text]) -> Result<Row, AllocError>
    ensures { let a = unknown_from first in IfOk result (λ r. signature_of r
        ≡ over names.now a bool_type (set_type (first_type (from_type a 0 (length names.now))))) }
{
    let of = set_of(alloc, first_name(first, names.len())?)?;
    over_row(alloc, first, names, Ty::Bool, of)
}

#[tactic(auto, using(snowcat_rows::proofs::Means::means))]
fn map_row(alloc: Global, first: u32, names: &[Text]) -> Result<Row, AllocError>
    ensures { let a = unknown_from first in IfOk result (λ r. signature_of r
        ≡ over names.now a (a (length names.now)) (set_type (a (length names.now)))) }
{
    let body = unknown(first, names.len())?;
    let of = set_at(alloc, first, names.len())?;
    over_row(alloc, first, names, body, of)
}

#[tactic(auto, using(snowcat_rows::proofs::Means::means))]
fn lambda_row(alloc: Global, first: u32, names: &[Text]) -> Result<Row, AllocError>
    ensures { let a = unknown_from first in IfOk result (λ r. signature_of r
        ≡ over names.now a (a (length names.now))
        (fun_type (argument_type (from_type a 0 (length names.now))) (a (length names.now)))) }
{
    let argument = argument_of(alloc, unknowns(alloc, first, 0, names.len())?)?;
    let of = function_of(alloc, argument, unknown(first, names.len())?)?;
    let body = unknown(first, names.len())?;
    over_row(alloc, first, names, body, of)
}

// ---- the families

#[tactic(auto, using(snowcat_rows::proofs::Means::means))]
fn sequence_row(
    alloc: Global,
    op: &Op,
    names: &[Text],
    n: usize,
    first: u32,
) -> Result<Row, AllocError>
    ensures { IfOk result (λ r. signature_of r ≡ (sequence_row op.now names.now n).says (unknown_from first)) }
{
    match op {
        Op::Tuple => tuple_row(alloc, first, n),
        Op::Len => one_seq_row(alloc, first, Ty::Int),
        Op::Append => append_row(alloc, first),
        Op::Concat => concat_row(alloc, first),
        Op::Head => head_row(alloc, first),
        Op::Tail => tail_row(alloc, first),
        Op::SubSeq => slice_row(alloc, first),
        Op::Fold => fold_row(alloc, first, names),
        _ => leaf_row(alloc, Ty::Bool),
    }
}

#[tactic(auto, using(snowcat_rows::proofs::Means::means))]
fn record_row(
    alloc: Global,
    op: &Op,
    names: &[Text],
    n: usize,
    first: u32,
) -> Result<Row, AllocError>
    ensures mean { IfOk result (λ r. signature_of r ≡ (record_row op.now names.now n).says (unknown_from first)) }
    ensures named { has_fields op.now ≡ true → IfOk result (λ r. RowNamed r) }
{
    match op {
        Op::RecSet(fields) => records_row(alloc, first, fields.as_slice(), n),
        Op::Record(fields) => record_of_row(alloc, first, fields.as_slice(), n),
        Op::Field(_) => part_row(alloc, first),
        _ => sequence_row(alloc, op, names, n, first),
    }
}

#[tactic(auto, using(snowcat_rows::proofs::Means::means))]
fn function_row(
    alloc: Global,
    op: &Op,
    names: &[Text],
    n: usize,
    first: u32,
) -> Result<Row, AllocError>
    ensures mean { IfOk result (λ r. signature_of r ≡ (function_row op.now names.now n).says (unknown_from first)) }
    ensures named { has_fields op.now ≡ true → IfOk result (λ r. RowNamed r) }
{
    match op {
        Op::FunSet => functions_row(alloc, first),
        Op::Apply => apply_row(alloc, first),
        Op::Except(counts) => except_row(alloc, first, names, counts.as_slice()),
        Op::Domain => part_row(alloc, first),
        Op::Merge => merge_row(alloc, first),
        Op::Single => single_row(alloc, first),
        _ => record_row(alloc, op, names, n, first),
    }
}

#[tactic(auto, using(snowcat_rows::proofs::Means::means))]
fn binder_row(
    alloc: Global,
    op: &Op,
    names: &[Text],
    n: usize,
    first: u32,
) -> Result<Row, AllocError>
    ensures mean { IfOk result (λ r. signature_of r ≡ (binder_row op.now names.now n).says (unknown_from first)) }
    ensures named { has_fields op.now ≡ true → IfOk result (λ r. RowNamed r) }
{
    match op {
        Op::Exists | Op::Forall => test_row(alloc, first, names),
        Op::Filter => filter_row(alloc, first, names),
        Op::MapTo => map_row(alloc, first, names),
        Op::Lambda => lambda_row(alloc, first, names),
        _ => function_row(alloc, op, names, n, first),
    }
}

#[tactic(auto, using(snowcat_rows::proofs::Means::means))]
fn set_row(alloc: Global, op: &Op, names: &[Text], n: usize, first: u32) -> Result<Row, AllocError>
    ensures mean { IfOk result (λ r. signature_of r ≡ (set_row op.now names.now n).says (unknown_from first)) }
    ensures named { has_fields op.now ≡ true → IfOk result (λ r. RowNamed r) }
{
    match op {
        Op::SetEnum => items_row(alloc, first, n),
        Op::Cup | Op::Cap | Op::Minus => joined_row(alloc, first),
        Op::Powerset => subsets_row(alloc, first),
        Op::Product => product_row(alloc, first, n),
        Op::BigUnion => union_row(alloc, first),
        Op::BooleanSet => set_leaf(alloc, Ty::Bool),
        Op::IntSet | Op::NatSet => set_leaf(alloc, Ty::Int),
        Op::StringSet => set_leaf(alloc, Ty::Str),
        Op::SeqSet => sequences_row(alloc, first),
        Op::Cardinality => one_set_row(alloc, first, Ty::Int),
        Op::IsFinite => one_set_row(alloc, first, Ty::Bool),
        _ => binder_row(alloc, op, names, n, first),
    }
}

#[tactic(auto, using(snowcat_rows::proofs::Means::means))]
fn number_row(
    alloc: Global,
    op: &Op,
    names: &[Text],
    n: usize,
    first: u32,
) -> Result<Row, AllocError>
    ensures mean { IfOk result (λ r. signature_of r ≡ (number_row op.now names.now n).says (unknown_from first)) }
    ensures named { has_fields op.now ≡ true → IfOk result (λ r. RowNamed r) }
{
    match op {
        Op::Lt | Op::Gt | Op::Le | Op::Ge => numbers_row(alloc, Ty::Bool),
        Op::Add | Op::Sub | Op::Mul => numbers_row(alloc, Ty::Int),
        Op::Div | Op::Mod | Op::Pow => numbers_row(alloc, Ty::Int),
        Op::Neg => negative_row(alloc),
        Op::Range => range_row(alloc),
        _ => set_row(alloc, op, names, n, first),
    }
}

#[tactic(auto, using(snowcat_rows::proofs::Means::means))]
fn equality_row(
    alloc: Global,
    op: &Op,
    names: &[Text],
    n: usize,
    first: u32,
) -> Result<Row, AllocError>
    ensures mean { IfOk result (λ r. signature_of r ≡ (equality_row op.now names.now n).says (unknown_from first)) }
    ensures named { has_fields op.now ≡ true → IfOk result (λ r. RowNamed r) }
{
    match op {
        Op::Eq | Op::Ne | Op::Assign => equal_row(alloc, first),
        Op::In | Op::NotIn => member_row(alloc, first),
        Op::SubsetEq => sets_row(alloc, first, Ty::Bool),
        _ => number_row(alloc, op, names, n, first),
    }
}

#[tactic(auto, using(snowcat_rows::proofs::Means::means))]
pub fn type_row(
    alloc: Global,
    op: &Op,
    names: &[Text],
    n: usize,
    first: u32,
) -> Result<Row, AllocError>
    ensures mean { IfOk result (λ r. signature_of r ≡ (type_row op.now names.now n).says (unknown_from first)) }
    ensures named { has_fields op.now ≡ true → IfOk result (λ r. RowNamed r) }
{
    match op {
        Op::Bool(_) => leaf_row(alloc, Ty::Bool),
        Op::Int(_) => leaf_row(alloc, Ty::Int),
        Op::Str(text) => text_row(alloc, text),
        Op::And | Op::Or => truths_row(alloc, n),
        Op::Implies | Op::Iff => two_truths_row(alloc),
        Op::Not => one_truth_row(alloc),
        Op::If => if_row(alloc, first),
        Op::Case(_) => case_row(alloc, first, n),
        _ => equality_row(alloc, op, names, n, first),
    }
}
