// The text of values.
ghost use Rattle.std.specs.Fmt.{signed_decimal};
ghost use Rattle.std.specs.Prelude.{[], ℕ, IsTrue, List as Items, ◌++◌, ◌==◌, ◌≡◌, OnOk, codes, if◌then◌else◌, flat_map, map, option_map, pos, unwrap_or};
ghost use Rattle.std.specs.Ordering.{int_eq};
ghost use Rattle.tla_values.specs.declared.value.Value.{Value as Member};
ghost use Rattle.tla_values.specs.Show.{
  Begins,
  Ends,
  integers_fit,
  are_named,
  counts_from,
  escaped,
  function_text,
  is_at,
  pairs_shown,
  pairs_text,
  quoted,
  record_text,
  set_text,
  shown,
  text_of,
  tuple_text,
};

use crate::names::is_name;
use crate::value::Value;
use itoa::Buffer;
use std::alloc::{AllocError, Global};

/// The text of a value can be read back in one way only, where its integers lie within 128 bits and no digit stands
/// behind it.
pub fn texts_are_read_one_way()
    ensures { (v u : Member) (r q : Items ℕ) → IsTrue (integers_fit 128 v) → IsTrue (integers_fit 128 u) → Ends r → Ends q
        → text_of v ++ r ≡ text_of u ++ q → (v ≡ u) × (r ≡ q) }
{}

/// Adds the text of a value: `TRUE`, `-5`, `"a\"b"`, `{1, 2}`, `<<1, 2>>`, `[a |-> 1]`, `(0 :> 1 @@ 2 :> 3)`.
///
/// A function whose arguments are 1 to n, with n 0 too, is written as a tuple, one whose arguments are all texts
/// that are names as a record. The bytes `"` and `\`, tab, line feed, form feed and carriage return of a text are
/// written with a backslash, all others as they are. After a refusal `out` begins with its old bytes.
/// Source: Specifying Systems, chapters 14 and 16.
pub fn show(_alloc: Global, v: &Value, out: &mut Vec<u8>) -> Result<(), AllocError>
    ensures text { OnOk result (out.new.items ≡ out.old.items ++ text_of v.now) }
    ensures begins { Begins out.old.items out.new.items }
{
    show_value(v, out)
}

#[cycle(show_value)]
fn show_value(v: &Value, out: &mut Vec<u8>) -> Result<(), AllocError>
    ensures text { OnOk result (out.new.items ≡ out.old.items ++ text_of v.now) }
    ensures begins { Begins out.old.items out.new.items }
{
    match v {
        Value::Bool(b) => show_bool(*b, out),
        Value::Int(n) => show_number(*n, out),
        Value::Text(t) => show_text(t.bytes(), out),
        Value::Set(members) => show_set(members.as_slice(), out),
        Value::Fun(pairs) => show_function(pairs.as_slice(), out),
    }
}

fn show_bool(b: bool, out: &mut Vec<u8>) -> Result<(), AllocError>
    ensures text { OnOk result
        (out.new.items ≡ out.old.items ++ (if b then codes "TRUE" else codes "FALSE")) }
    ensures begins { Begins out.old.items out.new.items }
{
    if b {
        append(b"TRUE", out)
    } else {
        append(b"FALSE", out)
    }
}

fn show_number(n: i128, out: &mut Vec<u8>) -> Result<(), AllocError>
    ensures text { OnOk result (out.new.items ≡ out.old.items ++ signed_decimal n) }
    ensures begins { Begins out.old.items out.new.items }
{
    let mut buffer = Buffer::new();
    append(buffer.format(n).as_bytes(), out)
}

fn show_text(text: &[u8], out: &mut Vec<u8>) -> Result<(), AllocError>
    ensures text { OnOk result (out.new.items ≡ out.old.items ++ quoted text.now) }
    ensures begins { Begins out.old.items out.new.items }
{
    append(b"\"", out)?;
    show_bytes(text, out)?;
    append(b"\"", out)
}

fn show_bytes(text: &[u8], out: &mut Vec<u8>) -> Result<(), AllocError>
    ensures text { OnOk result (out.new.items ≡ out.old.items ++ flat_map escaped text.now) }
    ensures begins { Begins out.old.items out.new.items }
{
    for byte in text {
        show_byte(*byte, out)?;
    }
    Ok(())
}

fn show_byte(byte: u8, out: &mut Vec<u8>) -> Result<(), AllocError>
    ensures text { OnOk result (out.new.items ≡ out.old.items ++ escaped byte) }
    ensures begins { Begins out.old.items out.new.items }
{
    match byte {
        b'"' => append(b"\\\"", out),
        b'\\' => append(b"\\\\", out),
        b'\t' => append(b"\\t", out),
        b'\n' => append(b"\\n", out),
        12 => append(b"\\f", out),
        b'\r' => append(b"\\r", out),
        _ => append(&[byte], out),
    }
}

#[cycle(show_value)]
fn show_set(members: &[Value], out: &mut Vec<u8>) -> Result<(), AllocError>
    ensures text { OnOk result (out.new.items ≡ out.old.items ++ set_text (map shown members.now)) }
    ensures begins { Begins out.old.items out.new.items }
{
    append(b"{", out)?;
    for i in 0..members.len() {
        separate(i, b", ", out)?;
        show_value(&members[i], out)?;
    }
    append(b"}", out)
}

#[cycle(show_value)]
fn show_function(pairs: &[(Value, Value)], out: &mut Vec<u8>) -> Result<(), AllocError>
    ensures text { OnOk result (out.new.items ≡ out.old.items ++ function_text (pairs_shown pairs.now)) }
    ensures begins { Begins out.old.items out.new.items }
{
    if counts_up(pairs) {
        show_tuple(pairs, out)
    } else if all_named(pairs) {
        show_record(pairs, out)
    } else {
        show_pairs(pairs, out)
    }
}

// Whether the arguments are 1 to n.
fn counts_up(pairs: &[(Value, Value)]) -> bool
    ensures { result ≡ counts_from 1 (pairs_shown pairs.now) }
{
    for i in 0..pairs.len() {
        if !is_number(&pairs[i].0, i + 1) {
            return false;
        }
    }
    true
}

fn is_number(v: &Value, n: usize) -> bool
    ensures { result ≡ is_at n (shown v.now).number }
{
    match v {
        Value::Int(z) => same_number(*z, n),
        Value::Bool(_) => false,
        Value::Text(_) => false,
        Value::Set(_) => false,
        Value::Fun(_) => false,
    }
}

fn same_number(z: i128, n: usize) -> bool
    ensures { result ≡ int_eq z (pos n) }
{
    z == n as i128
}

// Whether the arguments are texts that are names.
fn all_named(pairs: &[(Value, Value)]) -> bool
    ensures { result ≡ are_named (pairs_shown pairs.now) }
{
    for (argument, _) in pairs {
        if name_of(argument).is_none() {
            return false;
        }
    }
    true
}

// The text, where it is a name.
fn name_of(v: &Value) -> Option<&[u8]>
    ensures { option_map (λ x. x.now) result ≡ (shown v.now).name }
{
    match v {
        Value::Text(t) => {
            let bytes = t.bytes();
            if is_name(bytes) { Some(bytes) } else { None }
        }
        Value::Bool(_) => None,
        Value::Int(_) => None,
        Value::Set(_) => None,
        Value::Fun(_) => None,
    }
}

#[cycle(show_value)]
fn show_tuple(pairs: &[(Value, Value)], out: &mut Vec<u8>) -> Result<(), AllocError>
    ensures text { OnOk result (out.new.items ≡ out.old.items ++ tuple_text (pairs_shown pairs.now)) }
    ensures begins { Begins out.old.items out.new.items }
{
    append(b"<<", out)?;
    for i in 0..pairs.len() {
        separate(i, b", ", out)?;
        show_value(&pairs[i].1, out)?;
    }
    append(b">>", out)
}

#[cycle(show_value)]
fn show_record(pairs: &[(Value, Value)], out: &mut Vec<u8>) -> Result<(), AllocError>
    ensures text { OnOk result (out.new.items ≡ out.old.items ++ record_text (pairs_shown pairs.now)) }
    ensures begins { Begins out.old.items out.new.items }
{
    append(b"[", out)?;
    for i in 0..pairs.len() {
        let pair = &pairs[i];
        separate(i, b", ", out)?;
        show_name(&pair.0, out)?;
        append(b" |-> ", out)?;
        show_value(&pair.1, out)?;
    }
    append(b"]", out)
}

// The name of a field; nothing where it is none.
fn show_name(v: &Value, out: &mut Vec<u8>) -> Result<(), AllocError>
    ensures text { OnOk result
        (out.new.items ≡ out.old.items ++ unwrap_or (shown v.now).name []) }
    ensures begins { Begins out.old.items out.new.items }
{
    match name_of(v) {
        Some(name) => append(name, out),
        None => Ok(()),
    }
}

#[cycle(show_value)]
fn show_pairs(pairs: &[(Value, Value)], out: &mut Vec<u8>) -> Result<(), AllocError>
    ensures text { OnOk result (out.new.items ≡ out.old.items ++ pairs_text (pairs_shown pairs.now)) }
    ensures begins { Begins out.old.items out.new.items }
{
    append(b"(", out)?;
    for i in 0..pairs.len() {
        let pair = &pairs[i];
        separate(i, b" @@ ", out)?;
        show_value(&pair.0, out)?;
        append(b" :> ", out)?;
        show_value(&pair.1, out)?;
    }
    append(b")", out)
}

// What stands before the item at a place of a list.
fn separate(i: usize, separator: &[u8], out: &mut Vec<u8>) -> Result<(), AllocError>
    ensures text { OnOk result
        (out.new.items ≡ out.old.items ++ (if i == 0 then [] else separator.now)) }
    ensures begins { Begins out.old.items out.new.items }
{
    if i == 0 {
        Ok(())
    } else {
        append(separator, out)
    }
}

fn append(bytes: &[u8], out: &mut Vec<u8>) -> Result<(), AllocError>
    ensures text { OnOk result (out.new.items ≡ out.old.items ++ bytes.now) }
    ensures begins { Begins out.old.items out.new.items }
{
    out.extend_from_slice(bytes)
}
