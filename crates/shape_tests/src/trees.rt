// What is answered of a tree of a kernel. The questions are `of PLACE: NOW; NEXT; BOUND` for its shape and
// `bounds PLACE: NOW; NEXT; BOUND` for the bounds of its ranges. PLACE has the numbers of the children that lead to it
// from the first invariant, with `.` between them; BOUND is a record's shape with numbers for fields.
use crate::notation::{WIDTH, numeral, shapes_in};
use crate::showing::put_shape;
use kernel_shapes::{Shape, copy_shape};
use kernel_trees::{Ker, KerJob, KerOp};
use shape_bounds::{shape_of, with_bounds};
use std::alloc::{AllocError, Global};
use std::str;
use tla_values::{List, Text, Value};

// The shapes of the names in a state and in the next one, and of what is bound.
#[derive(Drop)]
struct Given {
    now: List<Shape>,
    next: List<Shape>,
    bound: List<(u32, Shape)>,
}

fn given_in(alloc: Global, text: &str) -> Result<Given, AllocError> {
    let (now, rest) = text.split_once(";").unwrap_or((text, ""));
    let (next, bound) = rest.split_once(";").unwrap_or((rest, ""));
    let now = shapes_in(alloc, now)?;
    let next = shapes_in(alloc, next)?;
    let bound = bound_in(alloc, bound)?;
    Ok(Given { now, next, bound })
}

fn bound_in(alloc: Global, text: &str) -> Result<List<(u32, Shape)>, AllocError> {
    let shapes = shapes_in(alloc, text)?;
    match shapes.as_slice().first() {
        Some(Shape::Rec(fields)) => numbered(alloc, fields.as_slice()),
        _ => Ok(List::new(alloc)),
    }
}

fn numbered(alloc: Global, fields: &[(Text, Shape)]) -> Result<List<(u32, Shape)>, AllocError> {
    let mut bound = Vec::new(alloc);
    for field in fields {
        let name = numeral(str::from_utf8(field.0.bytes()).unwrap_or(""));
        let shape = copy_shape(alloc, &field.1)?;
        bound.push((name, shape))?;
    }
    Ok(List::from_vec(bound))
}

// The tree at a place.
fn part<'a>(root: &'a Ker, place: &str) -> &'a Ker {
    let mut tree = root;
    for step in place.split(".") {
        if let Some(child) = tree.args.as_slice().get(child_number(step)) {
            tree = child;
        }
    }
    tree
}

fn child_number(step: &str) -> usize {
    step.parse::<usize>().unwrap_or(usize::MAX)
}

// ---- trees as texts

#[cycle(count)]
fn nodes(k: &Ker) -> usize {
    let mut count: usize = 1;
    for child in k.args.as_slice() {
        count = count.wrapping_add(nodes(child));
    }
    count
}

// The column of each range, and its bounds.
#[cycle(write)]
fn put_ranges(alloc: Global, k: &Ker, out: &mut String) -> Result<(), AllocError> {
    if let KerOp::Range = &k.op {
        let text = range_text(alloc, k)?;
        out.push_str(text.as_str())?;
    }
    for child in k.args.as_slice() {
        put_ranges(alloc, child, out)?;
    }
    Ok(())
}

fn range_text(alloc: Global, k: &Ker) -> Result<String, AllocError> {
    let column = k.place.col;
    match k.args.as_slice() {
        [_, _, low, high] => {
            format!(in alloc; "; {column}: {}..{}", constant(low), constant(high))
        }
        _ => format!(in alloc; "; {column}: without bounds"),
    }
}

fn constant(k: &Ker) -> i128 {
    match &k.op {
        KerOp::Const(Value::Int(n)) => *n,
        _ => i128::MAX,
    }
}

fn tree_text(alloc: Global, tree: &Ker) -> Result<String, AllocError> {
    let mut out = format!(in alloc; "{} nodes", nodes(tree))?;
    put_ranges(alloc, tree, &mut out)?;
    Ok(out)
}

// ---- answers

fn shape_text(alloc: Global, tree: &Ker, given: &Given) -> Result<String, AllocError> {
    let shape = shape_of(alloc, tree, &given.now, &given.next, &given.bound, WIDTH)?;
    let mut out = String::new(alloc);
    put_shape(alloc, &shape, &mut out)?;
    Ok(out)
}

fn bounds_text(alloc: Global, tree: &Ker, given: &Given) -> Result<String, AllocError> {
    let bounded = with_bounds(alloc, tree, &given.now, &given.next, &given.bound, WIDTH)?;
    let text = tree_text(alloc, &bounded);
    drop(bounded);
    text
}

fn answer(alloc: Global, question: &str, root: &Ker) -> Result<String, AllocError> {
    let (asked, given) = question.split_once(": ").unwrap_or((question, ""));
    let (word, place) = asked.split_once(" ").unwrap_or((asked, ""));
    let tree = part(root, place);
    let given = given_in(alloc, given)?;
    let text = if word == "of" {
        shape_text(alloc, tree, &given)
    } else {
        bounds_text(alloc, tree, &given)
    };
    drop(given);
    text
}

/// Whether a question is one of a tree.
pub(crate) fn is_of_tree(question: &str) -> bool {
    question.starts_with("of") || question.starts_with("bounds")
}

/// The text of what is answered of the first invariant of a kernel.
pub(crate) fn tree_answer(
    alloc: Global,
    question: &str,
    kernel: &KerJob,
) -> Result<String, AllocError> {
    match kernel.invs.as_slice().first() {
        Some(root) => answer(alloc, question, root),
        None => String::from_str(alloc, "no invariant"),
    }
}
