// The text of a tree, in the notation that `reader` reads.
use std::alloc::{AllocError, Global};
use tla_meaning::{Expr, Form, Op, Place};

pub(crate) fn show(alloc: Global, e: &Expr, out: &mut Vec<u8>) -> Result<(), AllocError> {
    let is_leaf = e.args.as_slice().is_empty() && !is_operator(&e.op);
    if !is_leaf {
        out.push(b'(')?;
    }
    show_op(alloc, &e.op, out)?;
    show_place(alloc, e.place, out)?;
    show_names(alloc, e, out)?;
    for operand in e.args.as_slice() {
        out.push(b' ')?;
        show(alloc, operand, out)?;
    }
    if !is_leaf {
        out.push(b')')?;
    }
    Ok(())
}

fn is_operator(op: &Op) -> bool {
    matches!(op, Op::SetEnum | Op::Tuple | Op::And | Op::Or)
}

pub(crate) fn show_place(alloc: Global, place: Place, out: &mut Vec<u8>) -> Result<(), AllocError> {
    if place.line != 0 {
        let line = place.line;
        out.extend_from_slice(format!(in alloc; ":{line}")?.as_bytes())?;
    }
    Ok(())
}

fn show_names(alloc: Global, e: &Expr, out: &mut Vec<u8>) -> Result<(), AllocError> {
    let mut names = Vec::new(alloc);
    if let Op::Except(counts) = &e.op {
        for count in counts.as_slice() {
            names.extend_from_slice(format!(in alloc; " {count}")?.as_bytes())?;
        }
    }
    if let Op::Noted(note) = &e.op {
        names.push(b' ')?;
        for byte in note.bytes() {
            names.push(if *byte == b' ' { b'_' } else { *byte })?;
        }
    }
    for name in e.binds.as_slice() {
        names.push(b' ')?;
        names.extend_from_slice(name.bytes())?;
    }
    if let [_, rest @ ..] = names.as_slice() {
        out.extend_from_slice(b" [")?;
        out.extend_from_slice(rest)?;
        out.push(b']')?;
    }
    Ok(())
}

fn show_op(alloc: Global, op: &Op, out: &mut Vec<u8>) -> Result<(), AllocError> {
    match op {
        Op::Int(n) => out.extend_from_slice(format!(in alloc; "{n}")?.as_bytes()),
        Op::Name(i, primed) => {
            out.extend_from_slice(format!(in alloc; "${i}")?.as_bytes())?;
            if *primed {
                out.push(b'\'')?;
            }
            Ok(())
        }
        Op::Bound(name) => {
            out.push(b'%')?;
            out.extend_from_slice(name.bytes())
        }
        Op::Use(name) | Op::Param(name) => {
            out.extend_from_slice(b"use-")?;
            out.extend_from_slice(name.bytes())
        }
        op => out.extend_from_slice(word(op)),
    }
}

fn word(op: &Op) -> &'static [u8] {
    match op {
        Op::Bool(true) => b"TRUE",
        Op::Bool(false) => b"FALSE",
        Op::And => b"and",
        Op::Or => b"or",
        Op::Not => b"not",
        Op::Eq => b"eq",
        Op::In => b"in",
        Op::Add => b"add",
        Op::SetEnum => b"set",
        Op::Tuple => b"tuple",
        Op::Apply => b"apply",
        Op::Exists => b"exists",
        Op::Filter => b"filter",
        Op::Lambda => b"lambda",
        Op::Fold => b"fold",
        Op::Except(_) => b"except",
        Op::Noted(_) => b"noted",
        Op::Outside(form) => form_word(*form),
        _ => b"another",
    }
}

pub(crate) fn form_word(form: Form) -> &'static [u8] {
    match form {
        Form::Choose => b"#choose",
        Form::Prime => b"#prime",
        Form::Variable => b"#variable",
        Form::DoublePrime => b"#double-prime",
        _ => b"#form",
    }
}
