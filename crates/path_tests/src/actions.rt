//! Small actions in postfix notation.
//!
//! An action is written in postfix notation, a byte a step, and each node stands at its byte's column, from 1. `T`, `F`,
//! `N`: TRUE, FALSE, no case; `c`: the constant; `x`, `y`, `X`, `Y`: the two variables, and primed; `s`: a set; `~`, `&`,
//! `|`, `?`: Not, And, Or and If of the last; `E`, `D`: an `\E` over the last with one set or two; `A`, `O`: And and Or of
//! all so far; `1`: a number; `=`, `e`: Equal and Member of the last two; `i`, `n`, `q`, `P`, `f`, `R`, `p`: the forms
//! `Int`, `Nat`, `Seq(S)`, `SUBSET S`, `[S -> T]`, `[a: S]` and `S \X T`.

use kernel_trees::{Ker, KerOp};
use snowcat_rows::Ty;
use std::alloc::{AllocError, Global};
use std::mem;
use tla_meaning::{Decl, Place};
use tla_values::{List, Text, Value};

fn at(col: u32) -> Place {
    Place {
        file: 0,
        line: 1,
        col,
    }
}

#[derive(Drop)]
struct Postfix {
    alloc: Global,
    trees: Vec<Ker>,
}

impl Postfix {
    // The last trees, so many.
    fn last(&mut self, count: usize) -> Result<List<Ker>, AllocError> {
        let mut found = Vec::new(self.alloc);
        for _ in 0..count {
            if let Some(k) = self.trees.pop() {
                found.insert(0, k)?;
            }
        }
        Ok(List::from_vec(found))
    }

    fn all(&mut self) -> List<Ker> {
        List::from_vec(mem::replace(&mut self.trees, Vec::new(self.alloc)))
    }

    fn args(&mut self, byte: u8) -> Result<List<Ker>, AllocError> {
        match byte {
            b'~' | b'q' | b'P' | b'R' => self.last(1),
            b'&' | b'|' | b'E' => self.last(2),
            b'=' | b'e' | b'f' | b'p' => self.last(2),
            b'?' | b'D' => self.last(3),
            b'A' | b'O' => Ok(self.all()),
            _ => Ok(List::new(self.alloc)),
        }
    }

    fn step(&mut self, byte: u8, col: u32) -> Result<(), AllocError> {
        let args = self.args(byte)?;
        let k = node(self.alloc, byte, col, args)?;
        self.trees.push(k)?;
        Ok(())
    }

    // The last tree, or no case where there is none.
    fn read(&mut self, text: &[u8]) -> Result<Ker, AllocError> {
        let mut col: u32 = 0;
        for byte in text {
            col = col.saturating_add(1);
            self.step(*byte, col)?;
        }
        match self.trees.pop() {
            Some(k) => Ok(k),
            None => Ok(leaf(self.alloc)),
        }
    }
}

fn leaf(alloc: Global) -> Ker {
    Ker {
        place: at(0),
        ty: Ty::Bool,
        op: KerOp::NoCase,
        args: List::new(alloc),
        binds: List::new(alloc),
    }
}

fn node(alloc: Global, byte: u8, col: u32, args: List<Ker>) -> Result<Ker, AllocError> {
    let binds = binds_of(alloc, byte)?;
    let op = op_of(alloc, byte)?;
    Ok(Ker {
        place: at(col),
        ty: Ty::Bool,
        op,
        args,
        binds,
    })
}

fn binds_of(alloc: Global, byte: u8) -> Result<List<u32>, AllocError> {
    let mut binds = List::new(alloc);
    if byte == b'E' || byte == b'D' {
        binds.push(1)?;
    }
    if byte == b'D' {
        binds.push(2)?;
    }
    Ok(binds)
}

fn record_form(alloc: Global) -> Result<KerOp, AllocError> {
    let mut names = List::new(alloc);
    names.push(Text::from_vec(Vec::from_slice(alloc, b"a")?))?;
    Ok(KerOp::RecForm(names))
}

fn op_of(alloc: Global, byte: u8) -> Result<KerOp, AllocError> {
    match byte {
        b'i' => Ok(KerOp::IntForm),
        b'n' => Ok(KerOp::NatForm),
        b'q' => Ok(KerOp::SeqForm),
        b'P' => Ok(KerOp::Subsets),
        b'f' => Ok(KerOp::Functions),
        b'p' => Ok(KerOp::TupForm),
        b'R' => record_form(alloc),
        _ => Ok(value_op(byte)),
    }
}

fn value_op(byte: u8) -> KerOp {
    match byte {
        b'F' => KerOp::Const(Value::Bool(false)),
        b'N' => KerOp::NoCase,
        b'c' => KerOp::Name(0, false),
        b'x' => KerOp::Name(1, false),
        b'y' => KerOp::Name(2, false),
        b'X' => KerOp::Name(1, true),
        b'Y' => KerOp::Name(2, true),
        b's' => KerOp::SetOf,
        b'~' => KerOp::Not,
        b'&' | b'A' => KerOp::And,
        b'|' | b'O' => KerOp::Or,
        b'?' => KerOp::If,
        b'E' | b'D' => KerOp::Some,
        b'1' => KerOp::Const(Value::Int(1)),
        b'=' => KerOp::Equal,
        b'e' => KerOp::Member,
        _ => KerOp::Const(Value::Bool(true)),
    }
}

/// The action of a text.
pub(crate) fn action(alloc: Global, text: &[u8]) -> Result<Ker, AllocError> {
    let mut p = Postfix {
        alloc,
        trees: Vec::new(alloc),
    };
    let read = p.read(text);
    drop(p);
    read
}

fn declared(alloc: Global, constant: bool) -> Decl {
    Decl {
        name: Text::from_vec(Vec::new(alloc)),
        place: at(0),
        constant,
        note: Text::from_vec(Vec::new(alloc)),
    }
}

/// A constant and two variables.
pub(crate) fn names(alloc: Global) -> Result<List<Decl>, AllocError> {
    let mut names = List::new(alloc);
    names.push(declared(alloc, true))?;
    names.push(declared(alloc, false))?;
    names.push(declared(alloc, false))?;
    Ok(names)
}
