//! The expressions of the operators, whose operands are the names of a state in their order.

use std::alloc::{AllocError, Global};
use tla_meaning::{Expr, Op, Place};
use tla_values::{List, Text};

const PLACE: Place = Place {
    file: 0,
    line: 1,
    col: 1,
};

fn node(alloc: Global, op: Op, args: Vec<Expr>) -> Expr {
    Expr {
        place: PLACE,
        op,
        args: List::from_vec(args),
        binds: List::new(alloc),
    }
}

fn leaf(alloc: Global, op: Op) -> Expr {
    node(alloc, op, Vec::new(alloc))
}

// The operand of this number, from 0.
fn operand(alloc: Global, i: usize) -> Expr {
    leaf(alloc, Op::Name(i, false))
}

// The operator of all operands.
fn of_all(alloc: Global, op: Op, count: usize) -> Result<Expr, AllocError> {
    let mut args = Vec::new(alloc);
    for i in 0..count {
        args.push(operand(alloc, i))?;
    }
    Ok(node(alloc, op, args))
}

// The operator of two expressions.
fn of_two(alloc: Global, op: Op, x: Expr, y: Expr) -> Result<Expr, AllocError> {
    let args = vec![in alloc; x, y]?;
    Ok(node(alloc, op, args))
}

// EXCEPT with one index, and the name of what stands there.
fn exception(alloc: Global) -> Result<(Op, List<Text>), AllocError> {
    let binds = vec![in alloc; byte_text(alloc, b'@')?]?;
    let indexes = vec![in alloc; 1]?;
    Ok((Op::Except(List::from_vec(indexes)), List::from_vec(binds)))
}

// [x EXCEPT ![i] = y]
fn except(alloc: Global, x: Expr, i: Expr, y: Expr) -> Result<Expr, AllocError> {
    let args = vec![in alloc; x, i, y]?;
    let (op, binds) = exception(alloc)?;
    Ok(Expr {
        place: PLACE,
        op,
        args: List::from_vec(args),
        binds,
    })
}

fn byte_text(alloc: Global, byte: u8) -> Result<Text, AllocError> {
    Ok(Text::from_vec(Vec::from_slice(alloc, &[byte])?))
}

fn text(alloc: Global, byte: u8) -> Result<Expr, AllocError> {
    Ok(leaf(alloc, Op::Str(byte_text(alloc, byte)?)))
}

fn digit(alloc: Global, byte: u8) -> Expr {
    leaf(alloc, Op::Int(i128::from(byte) - 48))
}

// IF l THEN a :> r ELSE <<>>, of the operands from this number on.
fn arrow(alloc: Global, first: usize) -> Result<Expr, AllocError> {
    let from = operand(alloc, first.saturating_add(1));
    let to = operand(alloc, first.saturating_add(2));
    let single = of_two(alloc, Op::Single, from, to)?;
    let args = vec![in alloc; operand(alloc, first), single, leaf(alloc, Op::Tuple)]?;
    Ok(node(alloc, Op::If, args))
}

// The arrow of the operands from this number on behind others.
fn with_arrow(alloc: Global, whole: Expr, first: usize) -> Result<Expr, AllocError> {
    let one = arrow(alloc, first)?;
    of_two(alloc, Op::Merge, whole, one)
}

// All arrows, one behind another.
fn arrows(alloc: Global, count: usize) -> Result<Expr, AllocError> {
    let mut whole = leaf(alloc, Op::Tuple);
    for i in 0..count / 3 {
        whole = with_arrow(alloc, whole, 3 * i)?;
    }
    Ok(whole)
}

// Another field or item.
fn with_part(alloc: Global, key: Expr) -> Result<Expr, AllocError> {
    except(alloc, operand(alloc, 0), key, operand(alloc, 1))
}

// The strict operator of a call.
fn operator(op: &str) -> Op {
    match op {
        "at" => Op::Apply,
        "domain" => Op::Domain,
        "join" => Op::Merge,
        "same" => Op::Eq,
        "choose" => Op::If,
        "functions" => Op::FunSet,
        "pick" => Op::FunSet,
        _ => sequence_operator(op),
    }
}

fn sequence_operator(op: &str) -> Op {
    match op {
        "length" => Op::Len,
        "push" => Op::Append,
        "glue" => Op::Concat,
        "rest" => Op::Tail,
        _ => Op::SubSeq,
    }
}

/// The expression of a call on so many operands.
pub fn tree(alloc: Global, op: &str, key: u8, count: usize) -> Result<Expr, AllocError> {
    match op {
        "make" => arrows(alloc, count),
        "update" => except(
            alloc,
            operand(alloc, 0),
            operand(alloc, 1),
            operand(alloc, 2),
        ),
        "field" => of_all(alloc, Op::Field(byte_text(alloc, key)?), 1),
        "with_field" => with_part(alloc, text(alloc, key)?),
        "item" => of_two(alloc, Op::Apply, operand(alloc, 0), digit(alloc, key)),
        "with_item" => with_part(alloc, digit(alloc, key)),
        _ => of_all(alloc, operator(op), count),
    }
}
