// Rows of the table of types, and the types in them.
ghost use Rattle.std.specs.Prelude.{◌≡◌, ◌+◌, ◌∷◌, [], IfOk, OnOk, map, replicate, true, zip};
ghost use Rattle.snowcat_rows.specs.FieldNames.{names};
ghost use Rattle.snowcat_rows.specs.TypeTexts.{is_among};
ghost use Rattle.snowcat_rows.specs.Types.{mean};
ghost use Rattle.snowcat_rows.specs.inner.Naming.{record_named};
ghost use Rattle.snowcat_types.specs.TypeForms.{fun_type, record_type, seq_type, set_type, tuple_type};
ghost use Rattle.snowcat_types.specs.Rows.{argument_type, from_type, gives, plain, sets_of, typed_names};
ghost use Rattle.snowcat_types.specs.inner.Built.{means, operand_of, scope_of, signature_of, type_at, unknown_from};
ghost use Rattle.snowcat_types.specs.inner.Gathered.{IsNamed, TypesNamed};
ghost use Rattle.snowcat_types.specs.inner.Named.{OperandsNamed, RowNamed, Tells, TellsBehind};

use snowcat_rows::{Ty, copy_type};
use std::alloc::{AllocError, Global};
use tla_values::{Boxed, List, Text, copy_text, same_text};

/// What an operand is to have: its type, and the names that the node binds in it.
#[derive(Drop)]
pub struct Operand {
    pub of: Ty,
    pub under: List<(Text, Ty)>,
}

/// The operands of a node, and its type.
#[derive(Drop)]
pub struct Row {
    pub operands: List<Operand>,
    pub result: Ty,
}

/// The unknown type of a number behind the first; past 2^32 is want of memory.
#[tactic(auto, using(snowcat_rows::proofs::Means::means))]
pub fn unknown(first: u32, k: usize) -> Result<Ty, AllocError>
    ensures { IfOk result (λ t. mean t ≡ unknown_from first k) }
{
    match u32::try_from(k) {
        Ok(k) => match first.checked_add(k) {
            Some(v) => Ok(Ty::Var(v)),
            None => Err(AllocError),
        },
        Err(_) => Err(AllocError),
    }
}

#[tactic(auto, using(snowcat_rows::proofs::Means::means, snowcat_rows::proofs::Naming::differs))]
pub fn set_of(alloc: Global, item: Ty) -> Result<Ty, AllocError>
    ensures mean { IfOk result (λ t. mean t ≡ set_type (mean item)) }
    ensures named { IsNamed item → IfOk result (λ t. IsNamed t) }
{
    let item = Boxed::new(alloc, item)?;
    Ok(Ty::Set(item))
}

#[tactic(auto, using(snowcat_rows::proofs::Means::means))]
pub fn seq_of(alloc: Global, item: Ty) -> Result<Ty, AllocError>
    ensures { IfOk result (λ t. mean t ≡ seq_type (mean item)) }
{
    let item = Boxed::new(alloc, item)?;
    Ok(Ty::Seq(item))
}

#[tactic(auto, using(snowcat_rows::proofs::Means::means))]
pub fn function_of(alloc: Global, argument: Ty, value: Ty) -> Result<Ty, AllocError>
    ensures { IfOk result (λ t. mean t ≡ fun_type (mean argument) (mean value)) }
{
    let argument = Boxed::new(alloc, argument)?;
    let value = Boxed::new(alloc, value)?;
    Ok(Ty::Fun(argument, value))
}

#[tactic(auto, using(snowcat_rows::proofs::Means::means))]
pub fn tuple_of(items: Vec<Ty>) -> Ty
    ensures { mean result ≡ tuple_type (means items.items) }
{
    Ty::Tup(List::from_vec(items))
}

fn plain(alloc: Global, of: Ty) -> Operand
    ensures mean { operand_of result ≡ plain (mean of) }
    ensures named { IsNamed of → OperandsNamed (result ∷ []) }
{
    Operand {
        of,
        under: List::new(alloc),
    }
}

// Operands in which nothing is bound.
pub fn plains(alloc: Global, types: Vec<Ty>) -> Result<Vec<Operand>, AllocError>
    ensures mean { IfOk result (λ os. map operand_of os.items ≡ map plain (means types.items)) }
    ensures named { TypesNamed types.items → IfOk result (λ os. OperandsNamed os.items) }
{
    let mut operands = Vec::new(alloc);
    for of in types {
        operands.push(plain(alloc, of))?;
    }
    Ok(operands)
}

/// Operands of these types, and a result of that one.
pub fn gives(alloc: Global, types: Vec<Ty>, of: Ty) -> Result<Row, AllocError>
    ensures mean { IfOk result (λ r. signature_of r ≡ gives (means types.items) (mean of)) }
    ensures named { TypesNamed types.items → IsNamed of → IfOk result (λ r. RowNamed r) }
{
    let operands = plains(alloc, types)?;
    Ok(Row {
        operands: List::from_vec(operands),
        result: of,
    })
}

pub fn one(alloc: Global, a: Ty) -> Result<Vec<Ty>, AllocError>
    ensures mean { IfOk result (λ v. means v.items ≡ mean a ∷ []) }
    ensures named { IsNamed a → IfOk result (λ v. TypesNamed v.items) }
{
    let mut types = Vec::new(alloc);
    types.push(a)?;
    Ok(types)
}

pub fn two(alloc: Global, a: Ty, b: Ty) -> Result<Vec<Ty>, AllocError>
    ensures { IfOk result (λ v. means v.items ≡ mean a ∷ mean b ∷ []) }
{
    let mut types = Vec::new(alloc);
    types.push(a)?;
    types.push(b)?;
    Ok(types)
}

pub fn three(alloc: Global, a: Ty, b: Ty, c: Ty) -> Result<Vec<Ty>, AllocError>
    ensures { IfOk result (λ v. means v.items ≡ mean a ∷ mean b ∷ mean c ∷ []) }
{
    let mut types = Vec::new(alloc);
    types.push(a)?;
    types.push(b)?;
    types.push(c)?;
    Ok(types)
}

/// So many copies.
pub fn copies(alloc: Global, n: usize, a: &Ty) -> Result<Vec<Ty>, AllocError>
    ensures { IfOk result (λ v. means v.items ≡ replicate n (mean a.now)) }
{
    let mut types = Vec::new(alloc);
    for _ in 0..n {
        let copy = copy_type(alloc, a)?;
        types.push(copy)?;
    }
    Ok(types)
}

/// So many unknown types, the first of which has this number behind `first`.
pub fn unknowns(alloc: Global, first: u32, start: usize, n: usize) -> Result<Vec<Ty>, AllocError>
    ensures { IfOk result (λ v. means v.items ≡ from_type (unknown_from first) start n) }
{
    let mut types = Vec::new(alloc);
    for i in 0..n {
        let Some(k) = start.checked_add(i) else {
            return Err(AllocError);
        };
        let next = unknown(first, k)?;
        types.push(next)?;
    }
    Ok(types)
}

/// The sets of these types.
pub fn sets_of(alloc: Global, types: Vec<Ty>) -> Result<Vec<Ty>, AllocError>
    ensures { IfOk result (λ v. means v.items ≡ sets_of (means types.items)) }
{
    let mut sets = Vec::new(alloc);
    for item in types {
        let set = set_of(alloc, item)?;
        sets.push(set)?;
    }
    Ok(sets)
}

/// The tuple of the types, or the one that there is.
#[tactic(auto, using(snowcat_rows::proofs::Means::means))]
pub fn argument_of(alloc: Global, types: Vec<Ty>) -> Result<Ty, AllocError>
    ensures { IfOk result (λ t. mean t ≡ argument_type (means types.items)) }
{
    if types.len() == 1 {
        let one = copy_type(alloc, &types[0])?;
        return Ok(one);
    }
    Ok(tuple_of(types))
}

/// Each name with its type, and Bool where there is none.
pub fn typed_names(
    alloc: Global,
    names: &[Text],
    types: &[Ty],
) -> Result<List<(Text, Ty)>, AllocError>
    ensures { IfOk result (λ xs. scope_of xs ≡ typed_names names.now (means types.now)) }
{
    let mut scope = Vec::new(alloc);
    for i in 0..names.len() {
        let name = copy_text(alloc, &names[i])?;
        let of = type_at(alloc, types, i)?;
        scope.push((name, of))?;
    }
    Ok(List::from_vec(scope))
}

#[tactic(auto, using(snowcat_rows::proofs::Means::means))]
fn type_at(alloc: Global, types: &[Ty], i: usize) -> Result<Ty, AllocError>
    ensures { IfOk result (λ t. mean t ≡ type_at (means types.now) i) }
{
    if i < types.len() {
        let of = copy_type(alloc, &types[i])?;
        return Ok(of);
    }
    Ok(Ty::Bool)
}

/// The record of these fields and no others; of a name that stands twice the first counts.
pub fn record_of(alloc: Global, names: &[Text], types: &[Ty]) -> Result<Ty, AllocError>
    ensures mean { IfOk result (λ t. mean t ≡ record_type (zip names.now (means types.now))) }
    ensures named { TypesNamed types.now → IfOk result (λ t. IsNamed t) }
{
    let fields = zipped(alloc, names, types)?;
    Ok(Ty::Rec(List::from_vec(fields), None))
}

fn has_field(fields: &[(Text, Ty)], name: &Text) -> bool
    ensures { result ≡ is_among name.now (names fields.now) }
{
    for i in 0..fields.len() {
        if same_text(name, &fields[i].0) {
            return true;
        }
    }
    false
}

// The field stands there too, behind those of its name.
fn push_behind(
    fields: &mut Vec<(Text, Ty)>,
    alloc: Global,
    name: &Text,
    of: &Ty,
) -> Result<(), AllocError>
    ensures tells { OnOk result
        (TellsBehind fields.old.items name.now (mean of.now) fields.new.items) }
    ensures named { record_named fields.old.items ≡ true → IsNamed of.now
        → OnOk result (record_named fields.new.items ≡ true) }
{
    if has_field(fields.as_slice(), name) {
        return Ok(());
    }
    let name = copy_text(alloc, name)?;
    let of = copy_type(alloc, of)?;
    fields.push((name, of))?;
    Ok(())
}

// Each name with its type, a name that stands twice with its first.
fn zipped(alloc: Global, names: &[Text], types: &[Ty]) -> Result<Vec<(Text, Ty)>, AllocError>
    ensures tells { IfOk result (λ fs. Tells fs.items names.now types.now) }
    ensures named { TypesNamed types.now → IfOk result (λ fs. record_named fs.items ≡ true) }
{
    let mut fields = Vec::new(alloc);
    for i in 0..names.len() {
        if i >= types.len() {
            return Ok(fields);
        }
        push_behind(&mut fields, alloc, &names[i], &types[i])?;
    }
    Ok(fields)
}

#[tactic(auto, using(snowcat_rows::proofs::Means::means))]
pub fn set_at(alloc: Global, first: u32, k: usize) -> Result<Ty, AllocError>
    ensures { IfOk result (λ t. mean t ≡ set_type (unknown_from first k)) }
{
    set_of(alloc, unknown(first, k)?)
}

#[tactic(auto, using(snowcat_rows::proofs::Means::means))]
pub fn seq_at(alloc: Global, first: u32, k: usize) -> Result<Ty, AllocError>
    ensures { IfOk result (λ t. mean t ≡ seq_type (unknown_from first k)) }
{
    seq_of(alloc, unknown(first, k)?)
}

#[tactic(auto, using(snowcat_rows::proofs::Means::means))]
pub fn function_at(alloc: Global, first: u32) -> Result<Ty, AllocError>
    ensures { IfOk result (λ t. mean t ≡ fun_type (unknown_from first 0) (unknown_from first 1)) }
{
    function_of(alloc, unknown(first, 0)?, unknown(first, 1)?)
}
