// Sets of values: the empty set is the empty list, and members stand in increasing order.
ghost use Rattle.std.specs.List.{All};
ghost use Rattle.std.specs.Prelude.{◌++◌, ◌≡◌, IfOk, IsTrue, OnOk};
ghost use Rattle.tla_values.specs.Sets.{
  Normal,
  increasing,
  insert,
  inter_of,
  member,
  minus,
  set_of,
  subset,
  union_of,
};

use crate::list::List;
use crate::order::compare;
use crate::search::find_member;
use crate::value::{Value, copy_value};
use std::alloc::{AllocError, Global};

/// The set of the items, which may stand in any order and be repeated. Normal where the items are.
/// Source: Specifying Systems, section 16.1.6.
pub fn set_of(alloc: Global, items: List<Value>) -> Result<Value, AllocError>
    ensures set { IfOk result (λ v. v ≡ Value.Set (set_of items)) }
    ensures normal { All Normal items → IfOk result Normal }
{
    let mut rest = items.into_vec();
    // From the least on, so that each member goes to the end.
    rest.sort_by(|a, b| compare(b, a))?;
    let mut members = Vec::new(alloc);
    while let Some(v) = rest.pop() {
        insert(&mut members, v)?;
    }
    Ok(Value::Set(List::from_vec(members)))
}

// One more member of a set.
fn insert(members: &mut Vec<Value>, v: Value) -> Result<(), AllocError>
    requires { IsTrue (increasing members.old.items) }
    ensures { OnOk result (members.new.items ≡ insert v members.old.items) }
{
    match find_member(members.as_slice(), &v) {
        Ok(_) => Ok(()),
        Err(place) => {
            members.insert(place, v)?;
            Ok(())
        }
    }
}

/// Whether the value is a member of the set. Takes no memory.
pub fn member(v: &Value, set: &List<Value>) -> bool
    requires { Normal (Value.Set set.now) }
    ensures { result ≡ member v.now set.now }
{
    is_member(v, set.as_slice())
}

fn is_member(v: &Value, members: &[Value]) -> bool
    requires { IsTrue (increasing members.now) }
    ensures { result ≡ member v.now members.now }
{
    match find_member(members, v) {
        Ok(_) => true,
        Err(_) => false,
    }
}

/// Whether each member of `a` is one of `b`. Takes no memory.
pub fn subset(a: &List<Value>, b: &List<Value>) -> bool
    requires { Normal (Value.Set b.now) }
    ensures { result ≡ subset a.now b.now }
{
    are_members(a.as_slice(), b.as_slice())
}

fn are_members(items: &[Value], members: &[Value]) -> bool
    requires { IsTrue (increasing members.now) }
    ensures { result ≡ subset items.now members.now }
{
    for item in items {
        if !is_member(item, members) {
            return false;
        }
    }
    true
}

/// The members of `a` and those of `b`.
pub fn union_of(alloc: Global, a: &List<Value>, b: &List<Value>) -> Result<Value, AllocError>
    requires left { Normal (Value.Set a.now) }
    requires right { Normal (Value.Set b.now) }
    ensures set { IfOk result (λ v. v ≡ Value.Set (union_of a.now b.now)) }
    ensures normal { IfOk result Normal }
{
    let mut items = Vec::new(alloc);
    copy_onto(alloc, a.as_slice(), &mut items)?;
    copy_onto(alloc, b.as_slice(), &mut items)?;
    let union = set_of(alloc, List::from_vec(items))?;
    Ok(union)
}

/// Adds equal values at the end. After a refusal some of them may be there.
pub fn copy_onto(alloc: Global, items: &[Value], out: &mut Vec<Value>) -> Result<(), AllocError>
    ensures { OnOk result (out.new.items ≡ out.old.items ++ items.now) }
{
    for item in items {
        let copy = copy_value(alloc, item)?;
        out.push(copy)?;
    }
    Ok(())
}

/// The members of `a` that are members of `b`.
pub fn inter_of(alloc: Global, a: &List<Value>, b: &List<Value>) -> Result<Value, AllocError>
    requires left { Normal (Value.Set a.now) }
    requires right { Normal (Value.Set b.now) }
    ensures set { IfOk result (λ v. v ≡ Value.Set (inter_of a.now b.now)) }
    ensures normal { IfOk result Normal }
{
    let members = common(alloc, a.as_slice(), b.as_slice())?;
    Ok(Value::Set(List::from_vec(members)))
}

fn common(alloc: Global, a: &[Value], b: &[Value]) -> Result<Vec<Value>, AllocError>
    requires { IsTrue (increasing b.now) }
    ensures { IfOk result (λ v. v.items ≡ inter_of a.now b.now) }
{
    let mut members = Vec::new(alloc);
    for item in a {
        if is_member(item, b) {
            let copy = copy_value(alloc, item)?;
            members.push(copy)?;
        }
    }
    Ok(members)
}

/// The members of `a` that are not members of `b`.
pub fn minus(alloc: Global, a: &List<Value>, b: &List<Value>) -> Result<Value, AllocError>
    requires left { Normal (Value.Set a.now) }
    requires right { Normal (Value.Set b.now) }
    ensures set { IfOk result (λ v. v ≡ Value.Set (minus a.now b.now)) }
    ensures normal { IfOk result Normal }
{
    let members = others(alloc, a.as_slice(), b.as_slice())?;
    Ok(Value::Set(List::from_vec(members)))
}

fn others(alloc: Global, a: &[Value], b: &[Value]) -> Result<Vec<Value>, AllocError>
    requires { IsTrue (increasing b.now) }
    ensures { IfOk result (λ v. v.items ≡ minus a.now b.now) }
{
    let mut members = Vec::new(alloc);
    for item in a {
        if !is_member(item, b) {
            let copy = copy_value(alloc, item)?;
            members.push(copy)?;
        }
    }
    Ok(members)
}
