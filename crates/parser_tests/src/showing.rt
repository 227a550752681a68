// The text of trees, for tests: a node as `(label binds : operands)`, uses and literals bare.
use std::alloc::{AllocError, Global};
use tla_meaning::{Decl, Def, Expr, Form, Module, Op, Unit};
use tla_values::{List, Text};

fn form_label(form: Form) -> &'static str {
    match form {
        Form::Choose => "choose",
        Form::Enabled => "enabled",
        Form::Power => "power",
        Form::Temporal => "temporal",
        Form::Unbounded => "unbounded",
        _ => "other",
    }
}

fn set_label(op: &Op) -> &'static str {
    match op {
        Op::In => "in",
        Op::NotIn => "notin",
        Op::SubsetEq => "subseteq",
        Op::SetEnum => "set",
        Op::Cup => "cup",
        Op::Cap => "cap",
        Op::Minus => "minus",
        Op::Powerset => "subset",
        Op::FunSet => "funset",
        Op::RecSet(_) => "recset",
        Op::Product => "product",
        Op::BigUnion => "union",
        Op::BooleanSet => "BOOLEAN",
        Op::StringSet => "STRING",
        Op::Filter => "filter",
        Op::MapTo => "map",
        _ => "?",
    }
}

fn function_label(op: &Op) -> &'static str {
    match op {
        Op::Lambda => "fun",
        Op::Apply => "apply",
        Op::Except(_) => "except",
        Op::Domain => "domain",
        Op::Merge => "merge",
        Op::Single => "single",
        Op::Record(_) => "record",
        Op::Field(_) => "field",
        Op::Tuple => "tuple",
        Op::Concat => "concat",
        Op::Fold => "fold",
        Op::Let(_) => "let",
        Op::Prime => "prime",
        Op::Unchanged => "unchanged",
        Op::Boxed => "boxed",
        Op::Angled => "angled",
        Op::Outside(form) => form_label(*form),
        _ => set_label(op),
    }
}

fn label(op: &Op) -> &'static str {
    match op {
        Op::And => "and",
        Op::Or => "or",
        Op::Implies => "implies",
        Op::Not => "not",
        Op::Iff => "iff",
        Op::If => "if",
        Op::Case(false) => "case",
        Op::Case(true) => "caseother",
        Op::Eq => "eq",
        Op::Ne => "ne",
        Op::Assign => "assign",
        Op::Lt => "lt",
        Op::Gt => "gt",
        Op::Le => "le",
        Op::Ge => "ge",
        Op::Add => "add",
        Op::Sub => "sub",
        Op::Mul => "mul",
        Op::Neg => "neg",
        Op::Div => "div",
        Op::Mod => "mod",
        Op::Pow => "pow",
        Op::Range => "range",
        Op::Exists => "exists",
        Op::Forall => "forall",
        _ => function_label(op),
    }
}

fn put(out: &mut Vec<u8>, text: &str) -> Result<(), AllocError> {
    out.extend_from_slice(text.as_bytes())?;
    Ok(())
}

pub(crate) fn put_number(alloc: Global, out: &mut Vec<u8>, n: i128) -> Result<(), AllocError> {
    let text = format!(in alloc; "{n}")?;
    put(out, text.as_str())
}

fn put_texts(out: &mut Vec<u8>, texts: &List<Text>) -> Result<(), AllocError> {
    for text in texts.as_slice() {
        put(out, " ")?;
        out.extend_from_slice(text.bytes())?;
    }
    Ok(())
}

// Names and numbers that stand at the node.
fn put_detail(alloc: Global, out: &mut Vec<u8>, op: &Op) -> Result<(), AllocError> {
    match op {
        Op::Record(names) => put_texts(out, names),
        Op::RecSet(names) => put_texts(out, names),
        Op::Field(name) => {
            put(out, " ")?;
            out.extend_from_slice(name.bytes())?;
            Ok(())
        }
        Op::Except(counts) => {
            for count in counts.as_slice() {
                put(out, " ")?;
                put_number(alloc, out, *count as i128)?;
            }
            Ok(())
        }
        Op::Let(lets) => {
            for (name, count) in lets.as_slice() {
                put(out, " ")?;
                out.extend_from_slice(name.bytes())?;
                put(out, "/")?;
                put_number(alloc, out, *count as i128)?;
            }
            Ok(())
        }
        _ => Ok(()),
    }
}

// A leaf's own text, where the node is one.
fn put_leaf(alloc: Global, out: &mut Vec<u8>, op: &Op) -> Result<bool, AllocError> {
    match op {
        Op::Bool(true) => put(out, "TRUE")?,
        Op::Bool(false) => put(out, "FALSE")?,
        Op::Int(n) => put_number(alloc, out, *n)?,
        Op::Str(text) => {
            put(out, "\"")?;
            out.extend_from_slice(text.bytes())?;
        }
        Op::Use(name) => {
            out.extend_from_slice(name.bytes())?;
        }
        Op::Bound(name) => {
            out.extend_from_slice(name.bytes())?;
        }
        _ => return Ok(false),
    }
    Ok(true)
}

fn put_place(alloc: Global, out: &mut Vec<u8>, e: &Expr, places: bool) -> Result<(), AllocError> {
    if places {
        put(out, "@")?;
        put_number(alloc, out, e.place.col as i128)?;
    }
    Ok(())
}

/// Adds the tree's text, with the column of each node where places are asked for.
pub(crate) fn put_tree(
    alloc: Global,
    out: &mut Vec<u8>,
    e: &Expr,
    places: bool,
) -> Result<(), AllocError> {
    let bare = e.args.is_empty();
    if bare && put_leaf(alloc, out, &e.op)? {
        return put_place(alloc, out, e, places);
    }
    put(out, "(")?;
    if !put_leaf(alloc, out, &e.op)? {
        put(out, label(&e.op))?;
    }
    put_place(alloc, out, e, places)?;
    put_detail(alloc, out, &e.op)?;
    if !e.binds.is_empty() {
        put(out, " [")?;
        put_texts(out, &e.binds)?;
        put(out, " ]")?;
    }
    for arg in e.args.as_slice() {
        put(out, " ")?;
        put_tree(alloc, out, arg, places)?;
    }
    put(out, ")")
}

fn put_decls(out: &mut Vec<u8>, decls: &[Decl]) -> Result<(), AllocError> {
    put(out, "declare")?;
    for decl in decls {
        let kind = if decl.constant {
            " constant "
        } else {
            " variable "
        };
        put(out, kind)?;
        out.extend_from_slice(decl.name.bytes())?;
        put(out, " <")?;
        out.extend_from_slice(decl.note.bytes())?;
        put(out, ">")?;
    }
    Ok(())
}

fn put_definition(alloc: Global, out: &mut Vec<u8>, def: &Def) -> Result<(), AllocError> {
    out.extend_from_slice(def.name.bytes())?;
    put_texts(out, &def.params)?;
    put(out, " <")?;
    out.extend_from_slice(def.note.bytes())?;
    put(out, "> ")?;
    put_tree(alloc, out, &def.body, false)
}

fn put_replacements(
    alloc: Global,
    out: &mut Vec<u8>,
    pairs: &[(Text, Expr)],
) -> Result<(), AllocError> {
    for (name, e) in pairs {
        put(out, " ")?;
        out.extend_from_slice(name.bytes())?;
        put(out, " <- ")?;
        put_tree(alloc, out, e, false)?;
    }
    Ok(())
}

fn put_recursive(
    alloc: Global,
    out: &mut Vec<u8>,
    rows: &[(Text, usize)],
) -> Result<(), AllocError> {
    put(out, "recursive")?;
    for (name, count) in rows {
        put(out, " ")?;
        out.extend_from_slice(name.bytes())?;
        put(out, "/")?;
        put_number(alloc, out, *count as i128)?;
    }
    Ok(())
}

fn put_unit(alloc: Global, out: &mut Vec<u8>, unit: &Unit) -> Result<(), AllocError> {
    match unit {
        Unit::Declare(decls) => put_decls(out, decls.as_slice()),
        Unit::Assume(e) => {
            put(out, "assume ")?;
            put_tree(alloc, out, e, false)
        }
        Unit::Theorem(e) => {
            put(out, "theorem ")?;
            put_tree(alloc, out, e, false)
        }
        Unit::Define(def, local) => {
            put(out, if *local { "local " } else { "define " })?;
            put_definition(alloc, out, def)
        }
        Unit::Instance(name, module, pairs, local, _) => {
            let kind = if *local {
                "local instance "
            } else {
                "instance "
            };
            put(out, kind)?;
            if let Some(name) = name {
                out.extend_from_slice(name.bytes())?;
                put(out, " ")?;
            }
            out.extend_from_slice(module.bytes())?;
            put_replacements(alloc, out, pairs.as_slice())
        }
        Unit::Recursive(rows) => put_recursive(alloc, out, rows.as_slice()),
    }
}

/// Adds the module's text: its name, what it extends, and a line for each unit.
pub(crate) fn put_module(
    alloc: Global,
    out: &mut Vec<u8>,
    module: &Module,
) -> Result<(), AllocError> {
    out.extend_from_slice(module.name.bytes())?;
    put_texts(out, &module.extends)?;
    for unit in module.units.as_slice() {
        put(out, "\n")?;
        put_unit(alloc, out, unit)?;
    }
    Ok(())
}
