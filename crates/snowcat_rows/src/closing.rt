// Types that leave nothing open, and types without operator types.
ghost use Rattle.std.specs.Prelude.{◌≡◌, IfOk, map};
ghost use Rattle.std.specs.List.{list_all};
ghost use Rattle.std.specs.Bool.{MatchBool};
ghost use Rattle.snowcat_rows.specs.Types.{mean, row};
ghost use Rattle.snowcat_rows.specs.Substitutions.{apply};
ghost use Rattle.snowcat_rows.specs.Closing.{closing};
ghost use Rattle.snowcat_rows.specs.Codes.{changed, has, named};
ghost use Rattle.snowcat_rows.specs.FieldNames.{names as names_of, names_differ};
ghost use Rattle.snowcat_rows.specs.inner.Naming.{fields_named};

use crate::types::Ty;
use std::alloc::{AllocError, Global};
use tla_values::{Boxed, List, Text, copy_text};

/// The type with `Int` for each of its type variables, where an open record has no further fields: what a type is once
/// nothing more is asked of it.
#[tactic(auto, using(crate::proofs::Means::means, crate::proofs::Naming::differs))]
#[cycle(closed)]
pub fn closed(alloc: Global, t: &Ty) -> Result<Ty, AllocError>
    ensures mean { IfOk result (λ r. mean r ≡ apply closing (mean t.now)) }
    ensures named { IfOk result (λ r. names_differ r ≡ names_differ t.now) }
{
    match t {
        Ty::Bool => Ok(Ty::Bool),
        Ty::Int => Ok(Ty::Int),
        Ty::Str => Ok(Ty::Str),
        Ty::Named(name) => {
            let name = copy_text(alloc, name)?;
            Ok(Ty::Named(name))
        }
        Ty::Var(_) => Ok(Ty::Int),
        Ty::Set(a) => {
            let item = closed(alloc, a.get())?;
            Ok(Ty::Set(Boxed::new(alloc, item)?))
        }
        Ty::Seq(a) => {
            let item = closed(alloc, a.get())?;
            Ok(Ty::Seq(Boxed::new(alloc, item)?))
        }
        Ty::Fun(x, y) => {
            let argument = closed(alloc, x.get())?;
            let value = closed(alloc, y.get())?;
            Ok(Ty::Fun(Boxed::new(alloc, argument)?, Boxed::new(alloc, value)?))
        }
        Ty::Tup(ts) => {
            let items = all_closed(alloc, ts.as_slice())?;
            Ok(Ty::Tup(items))
        }
        Ty::Rec(fs, _) => {
            let fields = fields_closed(alloc, fs.as_slice())?;
            Ok(Ty::Rec(fields, None))
        }
        Ty::Oper(ts, y) => {
            let arguments = all_closed(alloc, ts.as_slice())?;
            let value = closed(alloc, y.get())?;
            Ok(Ty::Oper(arguments, Boxed::new(alloc, value)?))
        }
    }
}

#[tactic(auto, using(crate::proofs::Means::means, crate::proofs::Naming::differs))]
#[cycle(closed)]
fn all_closed(alloc: Global, ts: &[Ty]) -> Result<List<Ty>, AllocError>
    ensures mean { IfOk result (λ r. row (map mean r) ≡ apply closing (row (map mean ts.now))) }
    ensures named { IfOk result (λ r. list_all names_differ r ≡ list_all names_differ ts.now) }
{
    let mut items = Vec::new(alloc);
    for t in ts {
        let item = closed(alloc, t)?;
        items.push(item)?;
    }
    Ok(List::from_vec(items))
}

#[tactic(auto, using(crate::proofs::Means::means, crate::proofs::Naming::differs))]
#[cycle(closed)]
fn fields_closed(alloc: Global, fs: &[(Text, Ty)]) -> Result<List<(Text, Ty)>, AllocError>
    ensures mean { IfOk result (λ r. named r ≡ changed closing fs.now) }
    ensures names { IfOk result (λ r. names_of r ≡ names_of fs.now) }
    ensures named { IfOk result (λ r. fields_named r ≡ fields_named fs.now) }
{
    let mut items = Vec::new(alloc);
    for f in fs {
        let name = copy_text(alloc, &f.0)?;
        let item = closed(alloc, &f.1)?;
        items.push((name, item))?;
    }
    Ok(List::from_vec(items))
}
