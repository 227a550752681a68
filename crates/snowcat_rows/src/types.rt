// Types, and copies of them.
ghost use Rattle.std.specs.Prelude.{◌≡◌, IfOk};

use std::alloc::{AllocError, Global};
use tla_values::{Boxed, List, Text, copy_text};

/// A type. Type variables and row variables are named by numbers; a number may be that of one of each.
#[derive(Drop)]
pub enum Ty {
    Bool,
    Int,
    Str,
    /// An uninterpreted type.
    Named(Text),
    /// A type variable.
    Var(u32),
    Set(Boxed<Ty>),
    Seq(Boxed<Ty>),
    /// A function from the first to the second.
    Fun(Boxed<Ty>, Boxed<Ty>),
    Tup(List<Ty>),
    /// A record of these fields; an open one has a row variable, which stands for further fields.
    Rec(List<(Text, Ty)>, Option<u32>),
    /// An operator from the arguments to a result.
    Oper(List<Ty>, Boxed<Ty>),
}

/// The types of a job: of its declared names in their order, and of each part's nodes, where a node comes before its
/// children.
#[derive(Drop)]
pub struct Typed {
    pub names: List<Ty>,
    pub parts: List<List<Ty>>,
}

/// An equal type.
#[cycle(copy)]
pub fn copy_type(alloc: Global, t: &Ty) -> Result<Ty, AllocError>
    ensures { IfOk result (λ r. r ≡ t.now) }
{
    match t {
        Ty::Bool => Ok(Ty::Bool),
        Ty::Int => Ok(Ty::Int),
        Ty::Str => Ok(Ty::Str),
        Ty::Named(name) => {
            let name = copy_text(alloc, name)?;
            Ok(Ty::Named(name))
        }
        Ty::Var(v) => Ok(Ty::Var(*v)),
        Ty::Set(a) => {
            let item = copy_type(alloc, a.get())?;
            Ok(Ty::Set(Boxed::new(alloc, item)?))
        }
        Ty::Seq(a) => {
            let item = copy_type(alloc, a.get())?;
            Ok(Ty::Seq(Boxed::new(alloc, item)?))
        }
        Ty::Fun(a, b) => {
            let argument = copy_type(alloc, a.get())?;
            let value = copy_type(alloc, b.get())?;
            Ok(Ty::Fun(Boxed::new(alloc, argument)?, Boxed::new(alloc, value)?))
        }
        Ty::Tup(ts) => {
            let items = copy_all(alloc, ts.as_slice())?;
            Ok(Ty::Tup(items))
        }
        Ty::Rec(fs, tail) => {
            let fields = copy_fields(alloc, fs.as_slice())?;
            Ok(Ty::Rec(fields, *tail))
        }
        Ty::Oper(ts, b) => {
            let arguments = copy_all(alloc, ts.as_slice())?;
            let value = copy_type(alloc, b.get())?;
            Ok(Ty::Oper(arguments, Boxed::new(alloc, value)?))
        }
    }
}

#[cycle(copy)]
fn copy_all(alloc: Global, ts: &[Ty]) -> Result<List<Ty>, AllocError>
    ensures { IfOk result (λ r. r ≡ ts.now) }
{
    let mut items = Vec::new(alloc);
    for t in ts {
        let item = copy_type(alloc, t)?;
        items.push(item)?;
    }
    Ok(List::from_vec(items))
}

#[cycle(copy)]
fn copy_fields(alloc: Global, fs: &[(Text, Ty)]) -> Result<List<(Text, Ty)>, AllocError>
    ensures { IfOk result (λ r. r ≡ fs.now) }
{
    let mut items = Vec::new(alloc);
    for f in fs {
        let name = copy_text(alloc, &f.0)?;
        let item = copy_type(alloc, &f.1)?;
        items.push((name, item))?;
    }
    Ok(List::from_vec(items))
}
