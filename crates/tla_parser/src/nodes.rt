// Nodes of trees, and what operators make of their operands.
ghost use Rattle.std.specs.Prelude.{◌≡◌, ◌++◌, ◌∷◌, [], IfOk, max, MatchOption, OnOk};
ghost use Rattle.tla_meaning.specs.declared.expr.Expr.{out-Expr};
ghost use Rattle.tla_parser.specs.Trees.{first_tree, grown, index_of, infix_node, infix_op, is_exponent, leaf, name_of, node, prefix_node, prefix_op, raised, rotated};

use crate::looks::look;
use crate::signs::Sign;
use std::alloc::{AllocError, Global};
use tla_lexer::{Token, TokenKind};
use tla_meaning::{Expr, Form, Op, Place, copy_expr};
use tla_values::{List, Text};

pub(crate) const NOWHERE: Place = Place {
    file: 0,
    line: 0,
    col: 0,
};

pub(crate) fn leaf(alloc: Global, place: Place, op: Op) -> Expr
    ensures { result ≡ leaf place op }
{
    Expr {
        place,
        op,
        args: List::new(alloc),
        binds: List::new(alloc),
    }
}

pub(crate) fn node(place: Place, op: Op, binds: List<Text>, args: List<Expr>) -> Expr
    ensures { result ≡ node place op binds args }
{
    Expr {
        place,
        op,
        args,
        binds,
    }
}

#[tactic(auto, unfolding(crate::specs::Trees::infix_op))]
fn infix_op(sign: Sign) -> Op
    ensures { result ≡ infix_op sign }
{
    match sign {
        Sign::Wedge => Op::And,
        Sign::Vee => Op::Or,
        Sign::DoubleArrow => Op::Implies,
        Sign::Equivalence => Op::Iff,
        Sign::LeadsTo => Op::Outside(Form::Temporal),
        Sign::Equals => Op::Eq,
        Sign::Differs => Op::Ne,
        Sign::Less => Op::Lt,
        Sign::Greater => Op::Gt,
        Sign::AtMost => Op::Le,
        Sign::AtLeast => Op::Ge,
        Sign::Element => Op::In,
        Sign::NotElement => Op::NotIn,
        Sign::Included => Op::SubsetEq,
        Sign::Assigns => Op::Assign,
        Sign::Overrides => Op::Merge,
        Sign::Pairs => Op::Single,
        Sign::UnionSign => Op::Cup,
        Sign::Intersection => Op::Cap,
        Sign::Difference => Op::Minus,
        Sign::Dots => Op::Range,
        Sign::Plus => Op::Add,
        Sign::Percent => Op::Mod,
        Sign::Times => Op::Product,
        Sign::Dash => Op::Sub,
        Sign::Star => Op::Mul,
        Sign::Quotient => Op::Div,
        Sign::Circle => Op::Concat,
        _ => Op::Pow,
    }
}

#[tactic(auto, unfolding(crate::specs::Trees::prefix_op))]
fn prefix_op(sign: Sign) -> Op
    ensures { result ≡ prefix_op sign }
{
    match sign {
        Sign::Tilde => Op::Not,
        Sign::UnchangedWord => Op::Unchanged,
        Sign::EnabledWord => Op::Outside(Form::Enabled),
        Sign::Square | Sign::Diamond => Op::Outside(Form::Temporal),
        Sign::SubsetWord => Op::Powerset,
        Sign::UnionWord => Op::BigUnion,
        Sign::DomainWord => Op::Domain,
        _ => Op::Neg,
    }
}

/// The node of a prefix operator.
pub(crate) fn prefix_node(
    alloc: Global,
    operator: &Token,
    operand: Expr,
) -> Result<Expr, AllocError>
    ensures { IfOk result (λ e. e ≡ prefix_node operator.now operand) }
{
    let mut args = Vec::new(alloc);
    args.push(operand)?;
    let op = prefix_op(look(operator).sign);
    Ok(node(operator.place, op, List::new(alloc), List::from_vec(args)))
}

/// The node of an infix operator, or the chain on its left with one more operand.
pub(crate) fn infix_node(
    alloc: Global,
    joined: bool,
    operator: &Token,
    left: Expr,
    right: Expr,
) -> Result<Expr, AllocError>
    ensures { IfOk result (λ e. e ≡ infix_node joined operator.now left right) }
{
    if joined {
        return grown(left, right);
    }
    let op = raised(infix_op(look(operator).sign), is_exponent(&right.op));
    let args = pair(alloc, left, right)?;
    Ok(node(operator.place, op, List::new(alloc), args))
}

// Whether it is a number from 1 to 127.
fn is_exponent(op: &Op) -> bool
    ensures { result ≡ is_exponent op.now }
{
    match op {
        Op::Int(n) => 1 <= *n && *n <= 127,
        _ => false,
    }
}

// A power with another exponent is a form that is only refused.
fn raised(op: Op, exponent: bool) -> Op
    ensures { result ≡ raised op exponent }
{
    match op {
        Op::Pow if !exponent => Op::Outside(Form::Power),
        op => op,
    }
}

fn grown(chain: Expr, operand: Expr) -> Result<Expr, AllocError>
    ensures { IfOk result (λ e. e ≡ grown (out-Expr chain) operand) }
{
    let Expr {
        place,
        op,
        args,
        binds,
    } = chain;
    let mut args = args.into_vec();
    args.push(operand)?;
    Ok(node(place, op, binds, List::from_vec(args)))
}

/// The two, in a list.
pub(crate) fn pair(alloc: Global, first: Expr, second: Expr) -> Result<List<Expr>, AllocError>
    ensures { IfOk result (λ es. es ≡ first ∷ second ∷ []) }
{
    let mut items = Vec::new(alloc);
    items.push(first)?;
    items.push(second)?;
    Ok(List::from_vec(items))
}

/// The list with one more item.
pub(crate) fn added<T>(items: List<T>, item: T) -> Result<List<T>, AllocError>
where
    T: Drop,
    ensures { IfOk result (λ l. l ≡ items ++ item ∷ []) }
{
    let mut items = items.into_vec();
    items.push(item)?;
    Ok(List::from_vec(items))
}

/// What the indexes of an application are: one, or a tuple.
pub(crate) fn index_of(alloc: Global, place: Place, indexes: List<Expr>) -> Expr
    ensures { result ≡ index_of place indexes }
{
    if indexes.len() != 1 {
        return node(place, Op::Tuple, List::new(alloc), indexes);
    }
    let mut indexes = indexes.into_vec();
    match indexes.pop() {
        Some(only) => only,
        None => leaf(alloc, place, Op::Tuple),
    }
}

/// The first item and those behind it.
pub(crate) fn first_and_rest(items: List<Expr>) -> Option<(Expr, List<Expr>)>
    ensures { MatchOption result (items ≡ []) (λ r. items ≡ r.0 ∷ r.1) }
{
    let mut items = items.into_vec();
    if items.is_empty() {
        return None;
    }
    let first = items.remove(0);
    Some((first, List::from_vec(items)))
}

/// The first item at the end.
pub(crate) fn rotated(alloc: Global, items: List<Expr>) -> Result<List<Expr>, AllocError>
    ensures { IfOk result (λ es. es ≡ rotated items) }
{
    match first_and_rest(items) {
        None => Ok(List::new(alloc)),
        Some((first, rest)) => added(rest, first),
    }
}

/// The items of the first list, and then those of the second.
pub(crate) fn joined<T>(first: List<T>, second: List<T>) -> Result<List<T>, AllocError>
where
    T: Drop,
    ensures { IfOk result (λ l. l ≡ first ++ second) }
{
    let mut items = first;
    for item in second.into_vec() {
        items = added(items, item)?;
    }
    Ok(items)
}
