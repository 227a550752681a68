// Operands that are named: a LET is a fold over one item.
ghost use Rattle.std.specs.Prelude.{◌≡◌, ◌∷◌, IfOk, []};
ghost use Rattle.tla_meaning.specs.declared.op.Op.TheVariants.{Apply as apply, Iff as iff, Single as single};
ghost use Rattle.snowcat_rows.specs.declared.types.Ty.TheVariants.{Seq as seq_type, Set as set_type};
ghost use Rattle.kernel_trees.specs.declared.kernel.KerOp.TheVariants.{SeqOf as seq_op, SetOf as set_op};
ghost use Rattle.kernel_reduction.specs.Making.{pair_type};
ghost use Rattle.kernel_reduction.specs.Rows.{item, node, pair, type_of};
ghost use Rattle.kera_reducer.specs.inner.Standing.{IsField, IsItem, IsNamedPair, MakesOf, fold_of, function_of, item_let_of, let_of_node, longer_of, read_of, same_truth_of};

use crate::making::Made;
use crate::nodes::{binary, bound, natural_at, negation, node, tree, two, unary};
use kernel_trees::{Ker, KerOp};
use snowcat_rows::{Ty, copy_type};
use std::alloc::{AllocError, Global};
use tla_values::{Boxed, List, Value, copy_text};

/// Two operands that are named as a pair: the type of the pair, the pair, and its two items as they are read.
#[derive(Drop)]
pub(crate) struct NamedPair {
    pub(crate) pairs: Ty,
    pub(crate) operands: Ker,
    pub(crate) first: Ker,
    pub(crate) second: Ker,
}

fn sequence_type(alloc: Global, items: &Ty) -> Result<Ty, AllocError>
    ensures { IfOk result (λ t. t ≡ seq_type items.now) }
{
    let items = copy_type(alloc, items)?;
    Ok(Ty::Seq(Boxed::new(alloc, items)?))
}

pub(crate) fn pair_type(alloc: Global, first: &Ty, second: &Ty) -> Result<Ty, AllocError>
    ensures { IfOk result (λ t. t ≡ pair_type first.now second.now) }
{
    let first = copy_type(alloc, first)?;
    let second = copy_type(alloc, second)?;
    let items = vec![in alloc; first, second]?;
    Ok(Ty::Tup(List::from_vec(items)))
}

// `Append(x, body)`, where x is the sequence so far.
fn longer(made: &Made, whole: &Ty, body: Ker) -> Result<Ker, AllocError>
    ensures { IfOk result (λ k. k ≡ longer_of made.now whole.now body) }
{
    let so_far = sequence_type(made.alloc, whole)?;
    let ty = sequence_type(made.alloc, whole)?;
    let so_far = bound(made.alloc, made.place, so_far, made.depth);
    binary(made.alloc, made.place, ty, KerOp::Push, (so_far, body))
}

// `<< >>`.
fn empty(made: &Made, items: &Ty) -> Result<Ker, AllocError>
    ensures { IfOk result (λ k. k ≡ node made.now.place (seq_type items.now) seq_op []) }
{
    let ty = sequence_type(made.alloc, items)?;
    Ok(node(
        made.alloc,
        made.place,
        ty,
        KerOp::SeqOf,
        Vec::new(made.alloc),
    ))
}

// The fold of a LET: the longer sequence, none, and one item.
fn fold(made: &Made, whole: &Ty, longer: Ker, none: Ker, one: Ker) -> Result<Ker, AllocError>
    ensures { IfOk result (λ k. k ≡ fold_of made.now whole.now longer none one) }
{
    let kids = vec![in made.alloc; longer, none, one]?;
    let ty = sequence_type(made.alloc, whole)?;
    let named = made.number(1)?;
    let numbers = vec![in made.alloc; made.depth, named]?;
    Ok(tree(made.place, ty, KerOp::FoldLeft, kids, numbers))
}

// `<<what>>`.
fn one_item(made: &Made, items: Ty, what: Ker) -> Result<Ker, AllocError>
    ensures { IfOk result (λ k. k ≡ node made.now.place (seq_type items) seq_op (what ∷ [])) }
{
    let ty = Ty::Seq(Boxed::new(made.alloc, items)?);
    unary(made.alloc, made.place, ty, KerOp::SeqOf, what)
}

/// `LET y == what IN body`, of type `whole`, where y has the second number of the node.
pub(crate) fn let_in(
    made: &Made,
    whole: Ty,
    items: Ty,
    what: Ker,
    body: Ker,
) -> Result<Ker, AllocError>
    ensures { IfOk result (λ k. k ≡ let_of_node made.now whole items what body) }
{
    let longer = longer(made, &whole, body)?;
    let one = one_item(made, items, what)?;
    let none = empty(made, &whole)?;
    let folded = fold(made, &whole, longer, none, one)?;
    unary(made.alloc, made.place, whole, KerOp::First, folded)
}

// An item of the named pair, as it stands for an operand.
fn item_read(made: &Made, pairs: &Ty, number: usize, operand: &Ker) -> Result<Ker, AllocError>
    ensures { IfOk result (λ k. k ≡ read_of made.now number pairs.now operand.now) }
{
    let named = made.number(1)?;
    let ty = copy_type(made.alloc, &operand.ty)?;
    let of_pair = copy_type(made.alloc, pairs)?;
    let pair = bound(made.alloc, operand.place, of_pair, named);
    unary(made.alloc, operand.place, ty, KerOp::Item(number), pair)
}

fn paired(made: &Made, pairs: &Ty, left: Ker, right: Ker) -> Result<Ker, AllocError>
    ensures { IfOk result (λ k. k ≡ pair made.now.place pairs.now left right) }
{
    let ty = copy_type(made.alloc, pairs)?;
    binary(made.alloc, made.place, ty, KerOp::TupOf, (left, right))
}

// The items of the named pair, as they stand for the operands.
fn reads(made: &Made, pairs: &Ty, left: &Ker, right: &Ker) -> Result<(Ker, Ker), AllocError>
    ensures { IfOk result (λ r. r ≡ (read_of made.now 1 pairs.now left.now, read_of made.now 2 pairs.now right.now)) }
{
    let first = item_read(made, pairs, 1, left)?;
    let second = item_read(made, pairs, 2, right)?;
    Ok((first, second))
}

/// The operands as a pair that is named.
pub(crate) fn name_pair(made: &Made, left: Ker, right: Ker) -> Result<NamedPair, AllocError>
    ensures { IfOk result (λ n. IsNamedPair made.now left right n) }
{
    let pairs = pair_type(made.alloc, &left.ty, &right.ty)?;
    let reads = reads(made, &pairs, &left, &right)?;
    let operands = paired(made, &pairs, left, right)?;
    let (first, second) = reads;
    Ok(NamedPair {
        pairs,
        operands,
        first,
        second,
    })
}

// `~a = ~b`.
fn same_truth(made: &Made, first: Ker, second: Ker) -> Result<Ker, AllocError>
    ensures { IfOk result (λ k. k ≡ same_truth_of made.now first second) }
{
    let first = negation(made.alloc, made.place, first)?;
    let second = negation(made.alloc, made.place, second)?;
    binary(
        made.alloc,
        made.place,
        Ty::Bool,
        KerOp::Equal,
        (first, second),
    )
}

/// `LET y == <<a, b>> IN ~y[1] = ~y[2]`.
pub(crate) fn equivalence(made: &Made, kids: Vec<Ker>) -> Result<Ker, AllocError>
    ensures { IfOk result (λ k. MakesOf made.now iff kids.items k) }
{
    let (left, right) = two(kids)?;
    let NamedPair {
        pairs,
        operands,
        first,
        second,
    } = name_pair(made, left, right)?;
    let equal = same_truth(made, first, second)?;
    let_in(made, Ty::Bool, pairs, operands, equal)
}

// `{argument}`.
fn one_member(made: &Made, argument: Ker) -> Result<Ker, AllocError>
    ensures { IfOk result (λ k. k ≡ node made.now.place (set_type (type_of argument)) set_op (argument ∷ [])) }
{
    let items = copy_type(made.alloc, &argument.ty)?;
    let ty = Ty::Set(Boxed::new(made.alloc, items)?);
    unary(made.alloc, made.place, ty, KerOp::SetOf, argument)
}

// The function from an argument to a value, under the third number of the node.
fn function(made: &Made, argument: Ker, value: Ker) -> Result<Ker, AllocError>
    ensures { IfOk result (λ k. k ≡ function_of made.now argument value) }
{
    let set = one_member(made, argument)?;
    let kids = vec![in made.alloc; set, value]?;
    let bound = made.number(2)?;
    let numbers = vec![in made.alloc; bound]?;
    made.binding(KerOp::FunOf, kids, numbers)
}

/// `LET y == <<a, b>> IN [z \in {y[1]} |-> y[2]]`.
pub(crate) fn single(made: &Made, kids: Vec<Ker>) -> Result<Ker, AllocError>
    ensures { IfOk result (λ k. MakesOf made.now single kids.items k) }
{
    let (left, right) = two(kids)?;
    let NamedPair {
        pairs,
        operands,
        first,
        second,
    } = name_pair(made, left, right)?;
    let whole = copy_type(made.alloc, made.ty)?;
    let body = function(made, first, second)?;
    let_in(made, whole, pairs, operands, body)
}

// The item of a tuple at a number, as a node of this node's type.
fn item_at(made: &Made, number: usize, tuple: Ker) -> Result<Ker, AllocError>
    ensures { IfOk result (λ k. k ≡ item made.now.place made.now.ty.now number tuple) }
{
    let ty = copy_type(made.alloc, made.ty)?;
    unary(made.alloc, made.place, ty, KerOp::Item(number), tuple)
}

// `LET y == <<t, i>> IN y[1][i]`.
fn item_by_let(made: &Made, number: usize, tuple: Ker, index: Ker) -> Result<Ker, AllocError>
    ensures { IfOk result (λ k. k ≡ item_let_of made.now tuple index number) }
{
    let NamedPair {
        pairs,
        operands,
        first,
        second: _,
    } = name_pair(made, tuple, index)?;
    let whole = copy_type(made.alloc, made.ty)?;
    let body = item_at(made, number, first)?;
    let_in(made, whole, pairs, operands, body)
}

// An item of a tuple at a literal, which may be too big.
fn item(made: &Made, tuple: Ker, index: Ker) -> Result<Ker, AllocError>
    ensures { IfOk result (λ k. IsItem made.now tuple index k) }
{
    let number = natural_at(&index)?;
    if number <= 7 {
        item_at(made, number, tuple)
    } else {
        item_by_let(made, number, tuple, index)
    }
}

// A field of a record at a literal.
fn field(made: &Made, fields: Ker, name: &Ker) -> Result<Ker, AllocError>
    ensures { IfOk result (λ k. IsField made.now fields name.now k) }
{
    let KerOp::Const(Value::Text(name)) = &name.op else {
        return Err(AllocError);
    };
    let ty = copy_type(made.alloc, made.ty)?;
    let name = copy_text(made.alloc, name)?;
    unary(made.alloc, made.place, ty, KerOp::FieldOf(name), fields)
}

/// A tuple or a record that is applied.
pub(crate) fn application(made: &Made, kids: Vec<Ker>) -> Result<Ker, AllocError>
    ensures { IfOk result (λ k. MakesOf made.now apply kids.items k) }
{
    let (applied, index) = two(kids)?;
    match applied.ty {
        Ty::Tup(_) => item(made, applied, index),
        Ty::Rec(_, _) => field(made, applied, &index),
        _ => Err(AllocError),
    }
}
