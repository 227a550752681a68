// Operators that the kernel has, and those that a few nodes stand for.
ghost use Rattle.std.specs.Prelude.{◌≡◌, IfOk, IfSome, true};
ghost use Rattle.tla_meaning.specs.declared.op.Op.TheVariants.{BooleanSet as boolean_set, Gt as greater, Implies as implies, IsFinite as is_finite, Le as less_or_equal, Neg as negated_number, Range as interval};
ghost use Rattle.kernel_reduction.specs.BuildsTyped.{is_applied};
ghost use Rattle.kera_reducer.specs.inner.Standing.{IsFixed, IsSame, MakesOf, is_negated};

use crate::cases::nested_ifs;
use crate::making::Made;
use crate::naming::{application, equivalence, single};
use crate::nodes::{binary, negation, node, none, number, only, tree, truth, two};
use crate::powers::power;
use kernel_trees::{Ker, KerOp};
use snowcat_rows::{Ty, copy_type};
use std::alloc::AllocError;
use tla_meaning::Op;
use tla_values::{Value, copy_text, copy_texts};

// The logic, numbers and sets of the kernel.
fn logic_or_set(op: &Op) -> Option<KerOp>
    ensures { IfSome result (λ o. IsFixed op.now o) }
{
    match op {
        Op::And => Some(KerOp::And),
        Op::Or => Some(KerOp::Or),
        Op::Not => Some(KerOp::Not),
        Op::If => Some(KerOp::If),
        Op::Eq => Some(KerOp::Equal),
        Op::Lt => Some(KerOp::Less),
        Op::Add => Some(KerOp::Plus),
        Op::Sub => Some(KerOp::Minus),
        Op::Mul => Some(KerOp::Times),
        Op::Div => Some(KerOp::Quotient),
        Op::Mod => Some(KerOp::Remainder),
        Op::SetEnum => Some(KerOp::SetOf),
        Op::In => Some(KerOp::Member),
        Op::SubsetEq => Some(KerOp::Included),
        Op::BigUnion => Some(KerOp::Flatten),
        Op::Cup => Some(KerOp::Union),
        Op::Cap => Some(KerOp::Inter),
        Op::Minus => Some(KerOp::Without),
        Op::Powerset => Some(KerOp::Subsets),
        Op::FunSet => Some(KerOp::Functions),
        Op::Cardinality => Some(KerOp::Count),
        Op::IntSet => Some(KerOp::IntForm),
        Op::NatSet => Some(KerOp::NatForm),
        Op::StringSet => Some(KerOp::TextForm),
        Op::SeqSet => Some(KerOp::SeqForm),
        Op::Product => Some(KerOp::TupForm),
        _ => None,
    }
}

// The functions and sequences of the kernel.
fn function_or_sequence(op: &Op) -> Option<KerOp>
    ensures { IfSome result (λ o. IsFixed op.now o) }
{
    match op {
        Op::Domain => Some(KerOp::Domain),
        Op::Merge => Some(KerOp::Join),
        Op::Len => Some(KerOp::Length),
        Op::Append => Some(KerOp::Push),
        Op::Head => Some(KerOp::First),
        Op::Tail => Some(KerOp::Rest),
        Op::SubSeq => Some(KerOp::Slice),
        Op::Concat => Some(KerOp::Glue),
        _ => logic_or_set(op),
    }
}

// Whether the first operand is neither a tuple nor a record.
fn is_applied(kids: &[Ker]) -> bool
    ensures { result ≡ is_applied kids.now }
{
    match kids {
        [function, ..] => !matches!(function.ty, Ty::Tup(_) | Ty::Rec(_, _)),
        [] => true,
    }
}

/// The operator of the kernel that takes the same operands, if there is one.
pub(crate) fn same_operator(made: &Made, op: &Op, kids: &[Ker]) -> Result<Option<KerOp>, AllocError>
    ensures { IfOk result (λ o. IfSome o (λ ko. IsSame made.now op.now kids.now ko)) }
{
    match op {
        Op::Tuple if matches!(made.ty, Ty::Seq(_)) => Ok(Some(KerOp::SeqOf)),
        Op::Tuple => Ok(Some(KerOp::TupOf)),
        Op::Apply if is_applied(kids) => Ok(Some(KerOp::At)),
        Op::Record(names) => Ok(Some(KerOp::RecOf(copy_texts(made.alloc, names)?))),
        Op::RecSet(names) => Ok(Some(KerOp::RecForm(copy_texts(made.alloc, names)?))),
        Op::Field(name) => Ok(Some(KerOp::FieldOf(copy_text(made.alloc, name)?))),
        _ => Ok(function_or_sequence(op)),
    }
}

/// A literal or a declared name.
pub(crate) fn literal(made: &Made, op: &Op, kids: Vec<Ker>) -> Result<Ker, AllocError>
    ensures { IfOk result (λ k. MakesOf made.now op.now kids.items k) }
{
    none(kids.as_slice())?;
    match op {
        Op::Bool(value) => made.whole(KerOp::Const(Value::Bool(*value)), kids),
        Op::Int(value) => made.whole(KerOp::Const(Value::Int(*value)), kids),
        Op::Str(value) => made.whole(
            KerOp::Const(Value::Text(copy_text(made.alloc, value)?)),
            kids,
        ),
        Op::Name(number, primed) => made.whole(KerOp::Name(*number, *primed), kids),
        _ => Err(AllocError),
    }
}

// `~(a /\ ~b)`.
fn implication(made: &Made, kids: Vec<Ker>) -> Result<Ker, AllocError>
    ensures { IfOk result (λ k. MakesOf made.now implies kids.items k) }
{
    let (left, right) = two(kids)?;
    let fails = negation(made.alloc, made.place, right)?;
    let both = binary(made.alloc, made.place, Ty::Bool, KerOp::And, (left, fails))?;
    let whole = negation(made.alloc, made.place, both)?;
    Ok(whole)
}

// A relation of the kernel between the operands as they stand, negated.
fn negated(made: &Made, op: &Op, relation: KerOp, kids: Vec<Ker>) -> Result<Ker, AllocError>
    requires row { is_negated op.now relation ≡ true }
    ensures { IfOk result (λ k. MakesOf made.now op.now kids.items k) }
{
    let holds = node(made.alloc, made.place, Ty::Bool, relation, kids);
    negation(made.alloc, made.place, holds)
}

// The comparison with its operands turned round.
fn turned(made: &Made, kids: Vec<Ker>) -> Result<Ker, AllocError>
    ensures { IfOk result (λ k. MakesOf made.now greater kids.items k) }
{
    let (left, right) = two(kids)?;
    binary(made.alloc, made.place, Ty::Bool, KerOp::Less, (right, left))
}

// Where the comparison does not hold with its operands turned round.
fn at_most(made: &Made, kids: Vec<Ker>) -> Result<Ker, AllocError>
    ensures { IfOk result (λ k. MakesOf made.now less_or_equal kids.items k) }
{
    let (left, right) = two(kids)?;
    let greater = binary(made.alloc, made.place, Ty::Bool, KerOp::Less, (right, left))?;
    negation(made.alloc, made.place, greater)
}

// `0 - a`.
fn negative(made: &Made, kids: Vec<Ker>) -> Result<Ker, AllocError>
    ensures { IfOk result (λ k. MakesOf made.now negated_number kids.items k) }
{
    let operand = only(kids)?;
    let zero = number(made.alloc, made.place, Ty::Int, 0);
    binary(
        made.alloc,
        made.place,
        Ty::Int,
        KerOp::Minus,
        (zero, operand),
    )
}

// `\A x \in S: TRUE`.
fn finite(made: &Made, kids: Vec<Ker>) -> Result<Ker, AllocError>
    ensures { IfOk result (λ k. MakesOf made.now is_finite kids.items k) }
{
    let operand = only(kids)?;
    let holds = truth(made.alloc, made.place, true);
    let kids = vec![in made.alloc; operand, holds]?;
    let numbers = vec![in made.alloc; made.depth]?;
    Ok(tree(made.place, Ty::Bool, KerOp::Every, kids, numbers))
}

// `{FALSE, TRUE}`.
fn truth_values(made: &Made, kids: Vec<Ker>) -> Result<Ker, AllocError>
    ensures { IfOk result (λ k. MakesOf made.now boolean_set kids.items k) }
{
    none(kids.as_slice())?;
    let fails = truth(made.alloc, made.place, false);
    let holds = truth(made.alloc, made.place, true);
    let values = vec![in made.alloc; fails, holds]?;
    made.whole(KerOp::SetOf, values)
}

fn range(made: &Made, kids: Vec<Ker>) -> Result<Ker, AllocError>
    ensures { IfOk result (λ k. MakesOf made.now interval kids.items k) }
{
    let ends = two(kids)?;
    let ty = copy_type(made.alloc, made.ty)?;
    binary(made.alloc, made.place, ty, KerOp::Range, ends)
}

/// An operator that the kernel lacks.
pub(crate) fn by_others(made: &Made, op: &Op, kids: Vec<Ker>) -> Result<Ker, AllocError>
    ensures { IfOk result (λ k. MakesOf made.now op.now kids.items k) }
{
    match op {
        Op::Assign => Ok(node(made.alloc, made.place, Ty::Bool, KerOp::Equal, kids)),
        Op::Implies => implication(made, kids),
        Op::Ne => negated(made, op, KerOp::Equal, kids),
        Op::NotIn => negated(made, op, KerOp::Member, kids),
        Op::Ge => negated(made, op, KerOp::Less, kids),
        Op::Gt => turned(made, kids),
        Op::Le => at_most(made, kids),
        Op::Neg => negative(made, kids),
        Op::IsFinite => finite(made, kids),
        Op::BooleanSet => truth_values(made, kids),
        Op::Range => range(made, kids),
        Op::Iff => equivalence(made, kids),
        Op::Single => single(made, kids),
        Op::Apply => application(made, kids),
        Op::Pow => power(made, kids),
        Op::Case(_) => nested_ifs(made, kids),
        Op::Noted(_) => only(kids),
        _ => Err(AllocError),
    }
}
