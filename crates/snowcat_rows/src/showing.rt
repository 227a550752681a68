// The text of a type.
ghost use Rattle.std.specs.Prelude.{ℕ, List as Items, [], ◌∷◌, ◌<◌, ◌==◌, ◌%◌, ◌≡◌, ◌++◌, OnOk, codes, if◌then◌else◌, length, map};
ghost use Rattle.std.specs.List.{join_by};
ghost use Rattle.snowcat_rows.specs.Letters.{letter, letter_count, round_text, variable_text};
ghost use Rattle.snowcat_rows.specs.Texts.{fields_text, form_of, items_text, operand_text, result_text, tail_text, type_text, typed_field};
ghost use Rattle.snowcat_rows.specs.declared.types.Ty.{Ty as AnyType};
ghost use Rattle.snowcat_rows.specs.Readings.{IsReadAs, number};
ghost use Rattle.snowcat_rows.specs.declared.marks.Seen.{Seen};
ghost use Rattle.snowcat_rows.specs.Said.{IsReadBack, IsRegular, IsSaid, IsSpelled};
ghost use Rattle.snowcat_rows.specs.Spellable.{Spellable};
ghost use Rattle.snowcat_rows.specs.Types.{Term as AnyTerm, mean};
ghost use Rattle.tla_values.specs.Show.{Begins};

use crate::types::Ty;
use itoa::Buffer;
use std::alloc::{AllocError, Global};
use tla_values::Text;

// The letters that variables are shown by.
const LETTER_COUNT: u32 = 26;

// What decides where a type's text stands in parentheses.
#[derive(Clone, Copy, Drop)]
pub(crate) enum Form {
    Operand,
    Function,
    Operator,
}

/// Adds the text of a type: `Set(Int)`, `Int -> Str -> Bool`, `<<Int, Str>>`, `{f: Int, b}`, `(Int, a) => Bool`.
///
/// A variable's text is the letter of its number, `a` to `z`, and behind `z` the letters again with their round: `a1` to
/// `z1`, `a2` and so on; a row variable's too, so that two types that are shown together are numbered first
/// ([`renumbered`](crate::renumbered)). A function stands in parentheses to the left of `->`, an operator on both sides. After a refusal `out` begins with its old bytes.
/// Source: the Apalache manual, "Type System 1.2".
pub fn show_type(_alloc: Global, t: &Ty, out: &mut Vec<u8>) -> Result<(), AllocError>
    ensures text { OnOk result (out.new.items ≡ out.old.items ++ type_text t.now) }
    ensures begins { Begins out.old.items out.new.items }
{
    show_part(t, out)
}

#[tactic(auto, using(crate::proofs::TextForms::texts))]
#[cycle(show_part)]
fn show_part(t: &Ty, out: &mut Vec<u8>) -> Result<(), AllocError>
    ensures text { OnOk result (out.new.items ≡ out.old.items ++ type_text t.now) }
    ensures begins { Begins out.old.items out.new.items }
{
    match t {
        Ty::Bool => append(b"Bool", out),
        Ty::Int => append(b"Int", out),
        Ty::Str => append(b"Str", out),
        Ty::Named(name) => append(name.bytes(), out),
        Ty::Var(v) => show_variable(*v, out),
        Ty::Set(a) => show_between(b"Set(", a.get(), out),
        Ty::Seq(a) => show_between(b"Seq(", a.get(), out),
        Ty::Fun(a, b) => {
            show_operand(a.get(), out)?;
            append(b" -> ", out)?;
            show_result(b.get(), out)?;
            Ok(())
        }
        Ty::Tup(ts) => show_tuple(ts.as_slice(), out),
        Ty::Rec(fs, tail) => show_record(fs.as_slice(), *tail, out),
        Ty::Oper(ts, b) => {
            append(b"(", out)?;
            show_items(ts.as_slice(), out)?;
            append(b") => ", out)?;
            show_part(b.get(), out)?;
            Ok(())
        }
    }
}

/// The text of a type is one of the texts that spell it, where some text says the type, with any aliases and whatever
/// numbers the variables have: as for each type that [`read_type`](crate::read_type) answers.
pub fn shown_types_are_spelled()
    ensures { (t : AnyType) → IsRegular t → IsSaid (mean t) → IsSpelled t }
{}

/// What is shown of such a type is read back as the type, without aliases: variables have other numbers, equal where
/// they were equal and different where they were different.
pub fn shown_types_are_read_back()
    ensures { (t : AnyType) → IsRegular t → IsSaid (mean t) → IsReadBack t }
{}

/// Some text says a type just where its names are in form, every tuple and record has a part and each row variable
/// stands after the same field names wherever it stands; so of what a text is read as.
pub fn said_types_are_spellable()
    ensures read { (aliases : Items (Items ℕ × Items ℕ)) (text : Items ℕ) (t : AnyTerm)
        → IsReadAs aliases text t → IsSaid t }
    ensures said { (t : AnyTerm) → IsSaid t → Spellable t }
    ensures spellable { (t : AnyType) → IsRegular t → Spellable (mean t) → IsSaid (mean t) }
{}

#[tactic(auto, using(crate::proofs::TextForms::texts))]
fn read_form(t: &Ty) -> Form
    ensures { result ≡ form_of t.now }
{
    match t {
        Ty::Bool => Form::Operand,
        Ty::Int => Form::Operand,
        Ty::Str => Form::Operand,
        Ty::Named(_) => Form::Operand,
        Ty::Var(_) => Form::Operand,
        Ty::Set(_) => Form::Operand,
        Ty::Seq(_) => Form::Operand,
        Ty::Fun(_, _) => Form::Function,
        Ty::Tup(_) => Form::Operand,
        Ty::Rec(_, _) => Form::Operand,
        Ty::Oper(_, _) => Form::Operator,
    }
}

#[cycle(show_part)]
fn show_between(head: &[u8], t: &Ty, out: &mut Vec<u8>) -> Result<(), AllocError>
    ensures text { OnOk result
        (out.new.items ≡ out.old.items ++ (head.now ++ type_text t.now ++ codes ")")) }
    ensures begins { Begins out.old.items out.new.items }
{
    append(head, out)?;
    show_part(t, out)?;
    append(b")", out)
}

#[cycle(show_part)]
fn show_operand(t: &Ty, out: &mut Vec<u8>) -> Result<(), AllocError>
    ensures text { OnOk result
        (out.new.items ≡ out.old.items ++ operand_text (form_of t.now) (type_text t.now)) }
    ensures begins { Begins out.old.items out.new.items }
{
    match read_form(t) {
        Form::Operand => show_part(t, out),
        Form::Function => show_between(b"(", t, out),
        Form::Operator => show_between(b"(", t, out),
    }
}

#[cycle(show_part)]
fn show_result(t: &Ty, out: &mut Vec<u8>) -> Result<(), AllocError>
    ensures text { OnOk result
        (out.new.items ≡ out.old.items ++ result_text (form_of t.now) (type_text t.now)) }
    ensures begins { Begins out.old.items out.new.items }
{
    match read_form(t) {
        Form::Operand => show_part(t, out),
        Form::Function => show_part(t, out),
        Form::Operator => show_between(b"(", t, out),
    }
}

#[cycle(show_part)]
fn show_tuple(ts: &[Ty], out: &mut Vec<u8>) -> Result<(), AllocError>
    ensures text { OnOk result (out.new.items ≡ out.old.items
        ++ (codes "<<" ++ items_text (map type_text ts.now) ++ codes ">>")) }
    ensures begins { Begins out.old.items out.new.items }
{
    append(b"<<", out)?;
    show_items(ts, out)?;
    append(b">>", out)
}

#[cycle(show_part)]
fn show_items(ts: &[Ty], out: &mut Vec<u8>) -> Result<(), AllocError>
    ensures text { OnOk result
        (out.new.items ≡ out.old.items ++ items_text (map type_text ts.now)) }
    ensures begins { Begins out.old.items out.new.items }
{
    for i in 0..ts.len() {
        separate(i, out)?;
        show_part(&ts[i], out)?;
    }
    Ok(())
}

#[cycle(show_part)]
fn show_record(fs: &[(Text, Ty)], tail: Option<u32>, out: &mut Vec<u8>) -> Result<(), AllocError>
    ensures text { OnOk result (out.new.items ≡ out.old.items
        ++ (codes "{" ++ fields_text (map typed_field fs.now) ++ tail_text (length fs.now) tail ++ codes "}")) }
    ensures begins { Begins out.old.items out.new.items }
{
    append(b"{", out)?;
    show_fields(fs, out)?;
    show_tail(fs.len(), tail, out)?;
    append(b"}", out)
}

#[cycle(show_part)]
fn show_fields(fs: &[(Text, Ty)], out: &mut Vec<u8>) -> Result<(), AllocError>
    ensures text { OnOk result
        (out.new.items ≡ out.old.items ++ fields_text (map typed_field fs.now)) }
    ensures begins { Begins out.old.items out.new.items }
{
    for i in 0..fs.len() {
        let f = &fs[i];
        separate(i, out)?;
        append(f.0.bytes(), out)?;
        append(b": ", out)?;
        show_part(&f.1, out)?;
    }
    Ok(())
}

// The row variable behind so many fields.
fn show_tail(count: usize, tail: Option<u32>, out: &mut Vec<u8>) -> Result<(), AllocError>
    ensures text { OnOk result (out.new.items ≡ out.old.items ++ tail_text count tail) }
    ensures begins { Begins out.old.items out.new.items }
{
    match tail {
        None => Ok(()),
        Some(r) => {
            separate(count, out)?;
            show_variable(r, out)
        }
    }
}

#[tactic(auto, using(crate::proofs::TextForms::variable_written))]
fn show_variable(n: u32, out: &mut Vec<u8>) -> Result<(), AllocError>
    ensures text { OnOk result (out.new.items ≡ out.old.items ++ variable_text n) }
    ensures begins { Begins out.old.items out.new.items }
{
    show_letter(n, out)?;
    show_round(n / LETTER_COUNT, out)?;
    Ok(())
}

fn show_letter(n: u32, out: &mut Vec<u8>) -> Result<(), AllocError>
    ensures text { OnOk result (out.new.items ≡ out.old.items ++ letter (n % letter_count) ∷ []) }
    ensures begins { Begins out.old.items out.new.items }
{
    out.push(b'a' + (n % LETTER_COUNT) as u8)?;
    Ok(())
}

// How often the letters were gone through, where they were.
fn show_round(n: u32, out: &mut Vec<u8>) -> Result<(), AllocError>
    ensures text { OnOk result (out.new.items ≡ out.old.items ++ round_text n) }
    ensures begins { Begins out.old.items out.new.items }
{
    if n == 0 {
        return Ok(());
    }
    let mut buffer = Buffer::new();
    append(buffer.format(n).as_bytes(), out)
}

// What stands before the item at a place of a list.
fn separate(i: usize, out: &mut Vec<u8>) -> Result<(), AllocError>
    ensures text { OnOk result
        (out.new.items ≡ out.old.items ++ (if i == 0 then [] else codes ", ")) }
    ensures begins { Begins out.old.items out.new.items }
{
    if i == 0 { Ok(()) } else { append(b", ", out) }
}

fn append(bytes: &[u8], out: &mut Vec<u8>) -> Result<(), AllocError>
    ensures text { OnOk result (out.new.items ≡ out.old.items ++ bytes.now) }
    ensures begins { Begins out.old.items out.new.items }
{
    out.extend_from_slice(bytes)
}
