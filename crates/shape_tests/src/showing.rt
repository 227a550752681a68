// Shapes, levels and refusals as texts; `notation` says how shapes are written.
use kernel_shapes::{Shape, Shapes};
use shape_bounds::ShapeFault;
use std::alloc::{AllocError, Global};
use std::str;
use tla_meaning::Place;
use tla_values::{List, Text};

#[cycle(write)]
pub(crate) fn put_shape(alloc: Global, shape: &Shape, out: &mut String) -> Result<(), AllocError> {
    match shape {
        Shape::Atom => return out.push_str("Atom"),
        Shape::Empty => return out.push_str("Empty"),
        Shape::Num(low, high) => put_numbers(alloc, *low, *high, out)?,
        Shape::Set(n, a) => {
            put_count(alloc, "(Set ", *n, out)?;
            put_part(alloc, a.get(), out)?;
        }
        Shape::Fun(n, a, b) => {
            put_count(alloc, "(Fun ", *n, out)?;
            put_part(alloc, a.get(), out)?;
            put_part(alloc, b.get(), out)?;
        }
        Shape::Seq(n, a) => {
            put_count(alloc, "(Seq ", *n, out)?;
            put_part(alloc, a.get(), out)?;
        }
        Shape::Tup(items) => put_items(alloc, items.as_slice(), out)?,
        Shape::Rec(fields) => put_fields(alloc, fields.as_slice(), out)?,
    }
    out.push_str(")")
}

#[cycle(write)]
fn put_part(alloc: Global, shape: &Shape, out: &mut String) -> Result<(), AllocError> {
    out.push_str(" ")?;
    put_shape(alloc, shape, out)
}

#[cycle(write)]
fn put_items(alloc: Global, items: &[Shape], out: &mut String) -> Result<(), AllocError> {
    out.push_str("(Tup")?;
    for item in items {
        put_part(alloc, item, out)?;
    }
    Ok(())
}

#[cycle(write)]
fn put_fields(alloc: Global, fields: &[(Text, Shape)], out: &mut String) -> Result<(), AllocError> {
    put_names(fields, out)?;
    for field in fields {
        put_part(alloc, &field.1, out)?;
    }
    Ok(())
}

fn put_names(fields: &[(Text, Shape)], out: &mut String) -> Result<(), AllocError> {
    out.push_str("(Rec [")?;
    for (i, field) in fields.iter().enumerate() {
        if i > 0 {
            out.push_str(" ")?;
        }
        out.push_str(str::from_utf8(field.0.bytes()).unwrap_or("?"))?;
    }
    out.push_str("]")
}

fn put_numbers(alloc: Global, low: i128, high: i128, out: &mut String) -> Result<(), AllocError> {
    let text = format!(in alloc; "(Num {low} {high}")?;
    out.push_str(text.as_str())
}

fn put_count(alloc: Global, word: &str, n: u64, out: &mut String) -> Result<(), AllocError> {
    if n == u64::MAX {
        out.push_str(word)?;
        return out.push_str("most");
    }
    let text = format!(in alloc; "{word}{n}")?;
    out.push_str(text.as_str())
}

// The shapes of the names at a level.
fn put_level(alloc: Global, shapes: &[Shape], out: &mut String) -> Result<(), AllocError> {
    for (i, shape) in shapes.iter().enumerate() {
        if i > 0 {
            out.push_str(" ")?;
        }
        put_shape(alloc, shape, out)?;
    }
    Ok(())
}

const MOST_SHOWN: usize = 8;

fn put_levels(alloc: Global, levels: &[List<Shape>], out: &mut String) -> Result<(), AllocError> {
    for (i, level) in levels.iter().enumerate() {
        if i > 0 {
            out.push_str(" / ")?;
        }
        put_level(alloc, level.as_slice(), out)?;
    }
    Ok(())
}

// Of many levels the number and the last two.
fn levels_text(alloc: Global, levels: &[List<Shape>]) -> Result<String, AllocError> {
    let count = levels.len();
    if count <= MOST_SHOWN {
        let mut out = String::new(alloc);
        put_levels(alloc, levels, &mut out)?;
        return Ok(out);
    }
    let mut out = format!(in alloc; "of {count} the last ")?;
    put_levels(alloc, &levels[count - 2..], &mut out)?;
    Ok(out)
}

fn fault_text(
    alloc: Global,
    word: &str,
    level: u32,
    place: Place,
    number: u64,
) -> Result<String, AllocError> {
    format!(in alloc; "{word}: level {level}, column {}, {number}", place.col)
}

/// The shapes of the names at each level, or what is past its limit.
pub(crate) fn answer_text(
    alloc: Global,
    answer: &Result<Shapes, ShapeFault>,
) -> Result<String, AllocError> {
    match answer {
        Ok(shapes) => levels_text(alloc, shapes.levels.as_slice()),
        Err(ShapeFault::TooLarge(level, place, number)) => {
            fault_text(alloc, "too large", *level, *place, *number)
        }
        Err(ShapeFault::TooLong(level, place, number)) => {
            fault_text(alloc, "too long", *level, *place, *number)
        }
        Err(ShapeFault::Memory(_)) => Err(AllocError),
    }
}
