// Equal trees.
ghost use Rattle.std.specs.Prelude.{◌≡◌, IfOk};

use crate::expr::{Decl, Expr};
use crate::op::Op;
use std::alloc::{AllocError, Global};
use tla_values::{List, Text, copy_text, copy_texts};

fn copy_numbers(alloc: Global, numbers: &List<usize>) -> Result<List<usize>, AllocError>
    ensures { IfOk result (λ l. l ≡ numbers.now) }
{
    let items = Vec::from_slice(alloc, numbers.as_slice())?;
    Ok(List::from_vec(items))
}

fn copy_lets(alloc: Global, lets: &List<(Text, usize)>) -> Result<List<(Text, usize)>, AllocError>
    ensures { IfOk result (λ l. l ≡ lets.now) }
{
    let mut items = Vec::new(alloc);
    for (name, count) in lets.as_slice() {
        items.push((copy_text(alloc, name)?, *count))?;
    }
    Ok(List::from_vec(items))
}

/// An equal operator.
pub fn copy_op(alloc: Global, op: &Op) -> Result<Op, AllocError>
    ensures { IfOk result (λ o. o ≡ op.now) }
{
    match op {
        Op::Bool(b) => Ok(Op::Bool(*b)),
        Op::Int(n) => Ok(Op::Int(*n)),
        Op::Str(t) => Ok(Op::Str(copy_text(alloc, t)?)),
        Op::Case(other) => Ok(Op::Case(*other)),
        Op::RecSet(names) => Ok(Op::RecSet(copy_texts(alloc, names)?)),
        Op::Except(counts) => Ok(Op::Except(copy_numbers(alloc, counts)?)),
        Op::Record(names) => Ok(Op::Record(copy_texts(alloc, names)?)),
        Op::Field(name) => Ok(Op::Field(copy_text(alloc, name)?)),
        Op::Use(name) => Ok(Op::Use(copy_text(alloc, name)?)),
        Op::Param(name) => Ok(Op::Param(copy_text(alloc, name)?)),
        Op::Let(lets) => Ok(Op::Let(copy_lets(alloc, lets)?)),
        Op::Noted(note) => Ok(Op::Noted(copy_text(alloc, note)?)),
        Op::Name(i, primed) => Ok(Op::Name(*i, *primed)),
        Op::Bound(name) => Ok(Op::Bound(copy_text(alloc, name)?)),
        Op::Outside(form) => Ok(Op::Outside(*form)),
        Op::And => Ok(Op::And),
        Op::Or => Ok(Op::Or),
        Op::Implies => Ok(Op::Implies),
        Op::Not => Ok(Op::Not),
        Op::Iff => Ok(Op::Iff),
        Op::If => Ok(Op::If),
        Op::Eq => Ok(Op::Eq),
        Op::Ne => Ok(Op::Ne),
        Op::Assign => Ok(Op::Assign),
        Op::In => Ok(Op::In),
        Op::NotIn => Ok(Op::NotIn),
        Op::SubsetEq => Ok(Op::SubsetEq),
        Op::Lt => Ok(Op::Lt),
        Op::Gt => Ok(Op::Gt),
        Op::Le => Ok(Op::Le),
        Op::Ge => Ok(Op::Ge),
        Op::Add => Ok(Op::Add),
        Op::Sub => Ok(Op::Sub),
        Op::Mul => Ok(Op::Mul),
        Op::Neg => Ok(Op::Neg),
        Op::Div => Ok(Op::Div),
        Op::Mod => Ok(Op::Mod),
        Op::Pow => Ok(Op::Pow),
        Op::Range => Ok(Op::Range),
        Op::SetEnum => Ok(Op::SetEnum),
        Op::Cup => Ok(Op::Cup),
        Op::Cap => Ok(Op::Cap),
        Op::Minus => Ok(Op::Minus),
        Op::Powerset => Ok(Op::Powerset),
        Op::FunSet => Ok(Op::FunSet),
        Op::Product => Ok(Op::Product),
        Op::BigUnion => Ok(Op::BigUnion),
        Op::BooleanSet => Ok(Op::BooleanSet),
        Op::IntSet => Ok(Op::IntSet),
        Op::NatSet => Ok(Op::NatSet),
        Op::StringSet => Ok(Op::StringSet),
        Op::SeqSet => Ok(Op::SeqSet),
        Op::Cardinality => Ok(Op::Cardinality),
        Op::IsFinite => Ok(Op::IsFinite),
        Op::Exists => Ok(Op::Exists),
        Op::Forall => Ok(Op::Forall),
        Op::Filter => Ok(Op::Filter),
        Op::MapTo => Ok(Op::MapTo),
        Op::Lambda => Ok(Op::Lambda),
        Op::Apply => Ok(Op::Apply),
        Op::Domain => Ok(Op::Domain),
        Op::Merge => Ok(Op::Merge),
        Op::Single => Ok(Op::Single),
        Op::Tuple => Ok(Op::Tuple),
        Op::Len => Ok(Op::Len),
        Op::Append => Ok(Op::Append),
        Op::Concat => Ok(Op::Concat),
        Op::Head => Ok(Op::Head),
        Op::Tail => Ok(Op::Tail),
        Op::SubSeq => Ok(Op::SubSeq),
        Op::Fold => Ok(Op::Fold),
        Op::Prime => Ok(Op::Prime),
        Op::Unchanged => Ok(Op::Unchanged),
        Op::Boxed => Ok(Op::Boxed),
        Op::Angled => Ok(Op::Angled),
    }
}

/// An equal expression.
#[cycle(copy)]
pub fn copy_expr(alloc: Global, e: &Expr) -> Result<Expr, AllocError>
    ensures { IfOk result (λ f. f ≡ e.now) }
{
    let op = copy_op(alloc, &e.op)?;
    let args = copy_exprs(alloc, e.args.as_slice())?;
    let binds = copy_texts(alloc, &e.binds)?;
    Ok(Expr {
        place: e.place,
        op,
        args,
        binds,
    })
}

#[cycle(copy)]
fn copy_exprs(alloc: Global, es: &[Expr]) -> Result<List<Expr>, AllocError>
    ensures { IfOk result (λ l. l ≡ es.now) }
{
    let mut items = Vec::new(alloc);
    for e in es {
        let item = copy_expr(alloc, e)?;
        items.push(item)?;
    }
    Ok(List::from_vec(items))
}

pub(crate) fn copy_decls(alloc: Global, decls: &List<Decl>) -> Result<List<Decl>, AllocError>
    ensures { IfOk result (λ l. l ≡ decls.now) }
{
    let mut items = Vec::new(alloc);
    for decl in decls.as_slice() {
        items.push(copy_decl(alloc, decl)?)?;
    }
    Ok(List::from_vec(items))
}

fn copy_decl(alloc: Global, decl: &Decl) -> Result<Decl, AllocError>
    ensures { IfOk result (λ d. d ≡ decl.now) }
{
    let name = copy_text(alloc, &decl.name)?;
    let note = copy_text(alloc, &decl.note)?;
    Ok(Decl {
        name,
        place: decl.place,
        constant: decl.constant,
        note,
    })
}

pub(crate) fn copy_aliases(
    alloc: Global,
    aliases: &List<(Text, Text)>,
) -> Result<List<(Text, Text)>, AllocError>
    ensures { IfOk result (λ l. l ≡ aliases.now) }
{
    let mut items = Vec::new(alloc);
    for (name, text) in aliases.as_slice() {
        items.push((copy_text(alloc, name)?, copy_text(alloc, text)?))?;
    }
    Ok(List::from_vec(items))
}

pub(crate) fn copy_named(
    alloc: Global,
    named: &List<(Text, Expr)>,
) -> Result<List<(Text, Expr)>, AllocError>
    ensures { IfOk result (λ l. l ≡ named.now) }
{
    let mut items = Vec::new(alloc);
    for (name, e) in named.as_slice() {
        items.push((copy_text(alloc, name)?, copy_expr(alloc, e)?))?;
    }
    Ok(List::from_vec(items))
}
