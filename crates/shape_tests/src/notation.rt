// Numbers and shapes read from texts: `Atom`, `Empty`, `(Num 1 2)`, `(Set 3 A)`, `(Fun 3 A B)`, `(Seq 3 A)`, `(Tup A B)`,
// `(Rec [f g] A B)`, where `most` is the greatest number that is kept.
use job_text::read;
use kernel_shapes::Shape;
use std::alloc::{AllocError, Global};
use std::str;
use tla_meaning::{Expr, Op};
use tla_values::{Boxed, List, Text, copy_text};

/// The width at which all rows are answered.
pub(crate) const WIDTH: u32 = 8;

/// A number in decimal digits.
pub(crate) fn numeral(word: &str) -> u32 {
    word.parse::<u32>().unwrap_or(0)
}

/// Shapes with blanks between them.
pub(crate) fn shapes_in(alloc: Global, text: &str) -> Result<List<Shape>, AllocError> {
    let trees = read(alloc, text.as_bytes())?;
    let shapes = shapes_of(alloc, trees.as_slice())?;
    Ok(List::from_vec(shapes))
}

#[cycle(read)]
fn shapes_of(alloc: Global, trees: &[Expr]) -> Result<Vec<Shape>, AllocError> {
    let mut shapes = Vec::new(alloc);
    for tree in trees {
        let shape = shape_of(alloc, tree)?;
        shapes.push(shape)?;
    }
    Ok(shapes)
}

// A number is read as an interval of its own.
#[cycle(read)]
fn shape_of(alloc: Global, tree: &Expr) -> Result<Shape, AllocError> {
    match &tree.op {
        Op::Int(n) => Ok(numeric(*n)),
        Op::Bound(word) => Ok(named(word.bytes())),
        Op::Use(word) => {
            let parts = shapes_of(alloc, tree.args.as_slice())?;
            compound(alloc, word.bytes(), tree.binds.as_slice(), parts)
        }
        _ => Ok(Shape::Empty),
    }
}

fn numeric(n: i128) -> Shape {
    Shape::Num(n, n)
}

// A word without parts; the reader of trees has no numbers below 0.
fn named(word: &[u8]) -> Shape {
    match word {
        b"Atom" => Shape::Atom,
        b"Empty" => Shape::Empty,
        b"most" => numeric(i128::from(u64::MAX)),
        number => {
            let number = str::from_utf8(number).unwrap_or("");
            numeric(number.parse::<i128>().unwrap_or(0))
        }
    }
}

fn compound(
    alloc: Global,
    word: &[u8],
    names: &[Text],
    mut parts: Vec<Shape>,
) -> Result<Shape, AllocError> {
    match word {
        b"Num" => Ok(Shape::Num(low_end(parts.first()), low_end(parts.last()))),
        b"Tup" => Ok(Shape::Tup(List::from_vec(parts))),
        b"Rec" => record(alloc, names, parts),
        b"Fun" => {
            let values = last(alloc, &mut parts)?;
            let arguments = last(alloc, &mut parts)?;
            Ok(Shape::Fun(count(&parts), arguments, values))
        }
        b"Set" => {
            let members = last(alloc, &mut parts)?;
            Ok(Shape::Set(count(&parts), members))
        }
        _ => {
            let items = last(alloc, &mut parts)?;
            Ok(Shape::Seq(count(&parts), items))
        }
    }
}

fn last(alloc: Global, parts: &mut Vec<Shape>) -> Result<Boxed<Shape>, AllocError> {
    Boxed::new(alloc, parts.pop().unwrap_or(Shape::Empty))
}

fn low_end(part: Option<&Shape>) -> i128 {
    match part {
        Some(Shape::Num(low, _)) => *low,
        _ => 0,
    }
}

fn count(parts: &[Shape]) -> u64 {
    u64::try_from(low_end(parts.first())).unwrap_or(0)
}

fn record(alloc: Global, names: &[Text], parts: Vec<Shape>) -> Result<Shape, AllocError> {
    let mut fields = Vec::new(alloc);
    for (name, part) in names.iter().zip(parts.into_iter()) {
        let name = copy_text(alloc, name)?;
        fields.push((name, part))?;
    }
    Ok(Shape::Rec(List::from_vec(fields)))
}
