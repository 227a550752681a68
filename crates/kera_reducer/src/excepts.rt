// EXCEPT: the tree of the node from those of its children.
ghost use Rattle.std.specs.Prelude.{◌≡◌, [], IfOk, Some, length, nat_eq, not, option_copied};
ghost use Rattle.std.specs.List.{list_all};
ghost use Rattle.tla_values.specs.declared.value.Value.{out-Value};
ghost use Rattle.tla_meaning.specs.declared.op.Op.TheVariants.{Except as except_op};
ghost use Rattle.kernel_reduction.specs.Rows.{all_plain, behind, is_literal_op, is_plain, is_plain_value, item};
ghost use Rattle.kera_reducer.specs.inner.Excepts.{AreChildren, AreIndexesRead, ArePairs, AreRead, IsBegun, IsChanged, IsChangedAt, IsChangedByLet, IsExceptMade, IsIndexRead, IsLetOfPairs, IsOperandRead, IsPopped, are_paths, around, begun, closed, pair_of, paired, rest_of, rest_types};
ghost use Rattle.kera_reducer.specs.inner.Standing.{MakesValue};

use crate::making::Made;
use crate::naming::{let_in, pair_type};
use crate::nodes::{binary, bound, tree, unary};
use crate::part_types::part_type;
use kernel_trees::{Ker, KerOp, copy_ker};
use snowcat_rows::{Ty, copy_type};
use std::alloc::{AllocError, Global};
use tla_meaning::Place;
use tla_values::{List, Value};

// What is evaluated before any right side: the function, and the indexes of all paths in a row.
#[derive(Drop)]
struct Operands {
    function: Ker,
    indexes: Vec<Ker>,
}

#[derive(Drop)]
struct Children {
    operands: Operands,
    rights: Vec<Ker>,
}

// An update whose new value is not made yet: what it updates, at which index, and the number of the old value there.
#[derive(Drop)]
struct Opened {
    ty: Ty,
    function: Ker,
    index: Ker,
    number: u32,
}

// The updates along a path up to an index, and what the next index updates: its type, its tree, and the next number.
#[derive(Drop)]
struct Begun {
    outer: List<Opened>,
    ty: Ty,
    function: Ker,
    number: u32,
}

// ---- operands

// The next trees of a stack, so many.
fn taken(alloc: Global, stack: &mut Vec<Ker>, count: usize) -> Result<Vec<Ker>, AllocError>
    ensures { IfOk result (λ ks. IsPopped count stack.old.items ks.items stack.new.items) }
{
    let mut front = Vec::new(alloc);
    for _ in 0..count {
        let Some(next) = stack.pop() else {
            return Err(AllocError);
        };
        front.push(next)?;
    }
    Ok(front)
}

// The children of an EXCEPT whose paths have so many indexes.
fn split(alloc: Global, counts: &[usize], kids: Vec<Ker>) -> Result<Children, AllocError>
    ensures { IfOk result (λ c. AreChildren counts.now kids.items c) }
{
    let mut stack = kids;
    stack.reverse();
    let mut functions = taken(alloc, &mut stack, 1)?;
    let mut indexes = Vec::new(alloc);
    let mut rights = Vec::new(alloc);
    for count in counts {
        let mut path = taken(alloc, &mut stack, *count)?;
        indexes.append(&mut path)?;
        let mut right = taken(alloc, &mut stack, 1)?;
        rights.append(&mut right)?;
    }
    if !stack.is_empty() {
        return Err(AllocError);
    }
    match functions.pop() {
        Some(function) => Ok(Children {
            operands: Operands { function, indexes },
            rights,
        }),
        None => Err(AllocError),
    }
}

fn have_indexes(counts: &[usize]) -> bool
    ensures { result ≡ list_all (λ c. not (nat_eq c 0)) counts.now }
{
    counts.iter().all(|count| *count != 0)
}

// Whether there is an update and each has an index.
fn are_paths(counts: &[usize]) -> bool
    ensures { result ≡ are_paths counts.now }
{
    !counts.is_empty() && have_indexes(counts)
}

// ---- pairs of operands

// The type of the pairs of an operand and those behind it, by the type of those.
fn rest_type(alloc: Global, operand: &Ty, behind: Option<&Ty>) -> Result<Ty, AllocError>
    ensures { IfOk result (λ t. t ≡ rest_of operand.now (option_copied behind.entry)) }
{
    match behind {
        Some(rest) => pair_type(alloc, operand, rest),
        None => copy_type(alloc, operand),
    }
}

// The types of the pairs that begin with each of some operands.
fn rest_types(alloc: Global, operands: &[Ker]) -> Result<Vec<Ty>, AllocError>
    ensures { IfOk result (λ ts. ts.items ≡ rest_types operands.now) }
{
    let mut types = Vec::new(alloc);
    let mut left = operands.len();
    while 0 < left {
        left -= 1;
        let ty = rest_type(alloc, &operands[left].ty, types.last())?;
        types.push(ty)?;
    }
    types.reverse();
    Ok(types)
}

// A pair.
fn pair(alloc: Global, place: Place, first: Ker, second: Ker) -> Result<Ker, AllocError>
    ensures { IfOk result (λ k. k ≡ pair_of place first second) }
{
    let ty = pair_type(alloc, &first.ty, &second.ty)?;
    binary(alloc, place, ty, KerOp::TupOf, (first, second))
}

// Operands in pairs.
fn paired(alloc: Global, place: Place, function: Ker, indexes: Vec<Ker>) -> Result<Ker, AllocError>
    ensures { IfOk result (λ k. k ≡ paired place function indexes.items) }
{
    let mut before = indexes;
    let Some(last) = before.pop() else {
        return Ok(function);
    };
    let mut behind = last;
    while let Some(index) = before.pop() {
        behind = pair(alloc, place, index, behind)?;
    }
    pair(alloc, place, function, behind)
}

// ---- updates

// An update with its new value.
fn around(alloc: Global, place: Place, update: Opened, value: Ker) -> Result<Ker, AllocError>
    ensures { IfOk result (λ k. k ≡ around place update value) }
{
    let mut kids = Vec::new(alloc);
    kids.push(update.function)?;
    kids.push(update.index)?;
    kids.push(value)?;
    let mut numbers = Vec::new(alloc);
    numbers.push(update.number)?;
    Ok(tree(place, update.ty, KerOp::Update, kids, numbers))
}

// A path with one index more.
fn begin(alloc: Global, place: Place, path: Begun, index: Ker) -> Result<Begun, AllocError>
    ensures { IfOk result (λ b. begun place path index ≡ Some b) }
{
    let ty = part_type(alloc, &path.ty, &index.op)?;
    let old = bound(alloc, place, copy_type(alloc, &ty)?, path.number);
    let next = path.number.checked_add(1).ok_or(AllocError)?;
    let mut outer = path.outer;
    outer.push(Opened {
        ty: path.ty,
        function: path.function,
        index,
        number: path.number,
    })?;
    Ok(Begun {
        outer,
        ty,
        function: old,
        number: next,
    })
}

// The updates along a path of these indexes, of a value that the function has.
fn begin_all(made: &Made, function: Ker, indexes: Vec<Ker>) -> Result<Begun, AllocError>
    ensures { IfOk result (λ b. IsBegun made.now function indexes.items b) }
{
    let mut path = Begun {
        outer: List::new(made.alloc),
        ty: copy_type(made.alloc, made.ty)?,
        function,
        number: made.number(2)?,
    };
    for index in indexes {
        path = begin(made.alloc, made.place, path, index)?;
    }
    Ok(path)
}

// The outermost of the updates, with the new value in the innermost.
fn finished(
    alloc: Global,
    place: Place,
    updates: List<Opened>,
    right: Ker,
) -> Result<Ker, AllocError>
    ensures { IfOk result (λ k. k ≡ closed place updates right) }
{
    let mut outer = updates.into_vec();
    let mut tree = right;
    while let Some(update) = outer.pop() {
        tree = around(alloc, place, update, tree)?;
    }
    Ok(tree)
}

// A function with a new value at the end of a path.
fn changed_at(made: &Made, function: Ker, path: Vec<Ker>, right: Ker) -> Result<Ker, AllocError>
    ensures { IfOk result (λ k. IsChangedAt made.now function (path.items, right) k) }
{
    let begun = begin_all(made, function, path)?;
    finished(made.alloc, made.place, begun.outer, right)
}

// One update behind the other.
fn changed(
    made: &Made,
    counts: &[usize],
    operands: Operands,
    rights: Vec<Ker>,
) -> Result<Ker, AllocError>
    ensures { IfOk result (λ k. IsChanged made.now counts.now operands rights.items k) }
{
    let mut indexes = operands.indexes;
    indexes.reverse();
    let mut rights = rights;
    rights.reverse();
    let mut tree = operands.function;
    for count in counts {
        let path = taken(made.alloc, &mut indexes, *count)?;
        let Some(right) = rights.pop() else {
            return Err(AllocError);
        };
        tree = changed_at(made, tree, path, right)?;
    }
    Ok(tree)
}

// ---- the LET

// The pairs that a LET names: their type, those of the pairs that begin with each index, and the number.
#[derive(Drop)]
struct Pairs {
    ty: Ty,
    rests: Vec<Ty>,
    number: u32,
}

// An item of a tuple.
fn item(alloc: Global, place: Place, ty: &Ty, number: usize, tuple: Ker) -> Result<Ker, AllocError>
    ensures { IfOk result (λ k. k ≡ item place ty.now number tuple) }
{
    let ty = copy_type(alloc, ty)?;
    unary(alloc, place, ty, KerOp::Item(number), tuple)
}

// What is behind some operands of the pairs; the types are those of what follows each of them.
fn behind(alloc: Global, place: Place, pairs: Ker, rests: &[Ty]) -> Result<Ker, AllocError>
    ensures { IfOk result (λ k. k ≡ behind place pairs rests.now) }
{
    let mut tree = pairs;
    for ty in rests {
        tree = item(alloc, place, ty, 2, tree)?;
    }
    Ok(tree)
}

// An operand, read from the pairs.
fn read_operand(
    alloc: Global,
    pairs: &Pairs,
    rests: &[Ty],
    last: bool,
    operand: &Ker,
) -> Result<Ker, AllocError>
    ensures { IfOk result (λ k. IsOperandRead pairs.now rests.now last operand.now k) }
{
    let ty = copy_type(alloc, &pairs.ty)?;
    let whole = bound(alloc, operand.place, ty, pairs.number);
    let left = behind(alloc, operand.place, whole, rests)?;
    if last {
        return Ok(left);
    }
    item(alloc, operand.place, &operand.ty, 1, left)
}

fn is_literal(op: &KerOp) -> bool
    ensures { result ≡ is_literal_op op.now }
{
    match op {
        KerOp::Const(_) => true,
        _ => false,
    }
}

// An index, read from the pairs, but a literal as it is.
fn read_index(
    alloc: Global,
    pairs: &Pairs,
    rests: &[Ty],
    last: bool,
    index: &Ker,
) -> Result<Ker, AllocError>
    ensures { IfOk result (λ k. IsIndexRead pairs.now rests.now last index.now k) }
{
    if is_literal(&index.op) {
        copy_ker(alloc, index)
    } else {
        read_operand(alloc, pairs, rests, last, index)
    }
}

// All indexes; the types are those of the pairs that begin with each.
fn read_all(
    alloc: Global,
    pairs: &Pairs,
    rests: &[Ty],
    indexes: &[Ker],
) -> Result<Vec<Ker>, AllocError>
    requires { length rests.now ≡ length indexes.now }
    ensures { IfOk result (λ ks. AreIndexesRead pairs.now rests.now indexes.now ks.items) }
{
    let mut read = Vec::new(alloc);
    for (i, index) in indexes.iter().enumerate() {
        let tree = read_index(alloc, pairs, &rests[..i + 1], i + 1 == indexes.len(), index)?;
        read.push(tree)?;
    }
    Ok(read)
}

// The pairs of the operands, under the second number of the node.
fn pairs_of(made: &Made, operands: &Operands) -> Result<Pairs, AllocError>
    ensures { IfOk result (λ p. ArePairs made.now.depth operands.now p) }
{
    let rests = rest_types(made.alloc, operands.indexes.as_slice())?;
    let ty = rest_type(made.alloc, &operands.function.ty, rests.first())?;
    let number = made.number(1)?;
    Ok(Pairs { ty, rests, number })
}

// The operands, read from the pairs.
fn read_operands(alloc: Global, pairs: &Pairs, operands: &Operands) -> Result<Operands, AllocError>
    requires { length pairs.now.rests.items ≡ length operands.now.indexes.items }
    ensures { IfOk result (λ r. AreRead pairs.now operands.now r) }
{
    let indexes = read_all(
        alloc,
        pairs,
        pairs.rests.as_slice(),
        operands.indexes.as_slice(),
    )?;
    let function = read_operand(alloc, pairs, &[], false, &operands.function)?;
    Ok(Operands { function, indexes })
}

// `LET y == named IN body`, where y stands for the pairs.
fn let_pairs(made: &Made, pairs: &Pairs, named: Ker, body: Ker) -> Result<Ker, AllocError>
    ensures { IfOk result (λ k. IsLetOfPairs made.now pairs.now named body k) }
{
    let items = copy_type(made.alloc, &pairs.ty)?;
    let whole = copy_type(made.alloc, made.ty)?;
    let_in(made, whole, items, named, body)
}

// The updates, where the operands are named by these pairs.
fn changed_by_pairs(
    made: &Made,
    counts: &[usize],
    pairs: &Pairs,
    operands: Operands,
    rights: Vec<Ker>,
) -> Result<Ker, AllocError>
    requires { ArePairs made.now.depth operands pairs.now }
    ensures { IfOk result (λ k. IsChangedByLet made.now counts.now operands rights.items k) }
{
    let read = read_operands(made.alloc, pairs, &operands)?;
    let body = changed(made, counts, read, rights)?;
    let named = paired(made.alloc, made.place, operands.function, operands.indexes)?;
    let tree = let_pairs(made, pairs, named, body)?;
    Ok(tree)
}

// An EXCEPT of which an index may have a fault: `LET y == <<f, <<i, j>>>> IN ..`.
fn changed_by_let(
    made: &Made,
    counts: &[usize],
    operands: Operands,
    rights: Vec<Ker>,
) -> Result<Ker, AllocError>
    ensures { IfOk result (λ k. IsChangedByLet made.now counts.now operands rights.items k) }
{
    let pairs = pairs_of(made, &operands)?;
    changed_by_pairs(made, counts, &pairs, operands, rights)
}

// ---- the node

fn is_plain_value(value: &Value) -> bool
    ensures { result ≡ is_plain_value (out-Value value.now) }
{
    match value {
        Value::Bool(_) | Value::Text(_) => true,
        Value::Int(number) => -8 <= *number && *number < 8,
        Value::Set(_) | Value::Fun(_) => false,
    }
}

fn is_plain(index: &Ker) -> bool
    ensures { result ≡ is_plain index.now }
{
    match &index.op {
        KerOp::Const(value) => is_plain_value(value),
        _ => false,
    }
}

fn are_plain(indexes: &[Ker]) -> bool
    ensures { result ≡ list_all is_plain indexes.now }
{
    indexes.iter().all(|index| is_plain(index))
}

// Whether no index but the first can have a fault.
fn all_plain(indexes: &[Ker]) -> bool
    ensures { result ≡ all_plain indexes.now }
{
    match indexes.split_first() {
        Some((_, others)) => are_plain(others),
        None => true,
    }
}

// The tree of an EXCEPT whose paths have so many indexes, from those of its children: the function, and of each update
// the indexes and the right side.
fn except_of(made: &Made, counts: &[usize], kids: Vec<Ker>) -> Result<Ker, AllocError>
    ensures { IfOk result (λ k. IsExceptMade made.now counts.now kids.items k) }
{
    if !are_paths(counts) {
        return Err(AllocError);
    }
    let children = split(made.alloc, counts, kids)?;
    if all_plain(children.operands.indexes.as_slice()) {
        changed(made, counts, children.operands, children.rights)
    } else {
        changed_by_let(made, counts, children.operands, children.rights)
    }
}

/// An EXCEPT, which binds one name.
pub(crate) fn except(made: &Made, counts: &[usize], kids: Vec<Ker>) -> Result<Ker, AllocError>
    ensures { IfOk result (λ k. MakesValue made.now (except_op counts.now) kids.items k) }
{
    if made.bound != 1 {
        return Err(AllocError);
    }
    except_of(made, counts, kids)
}
