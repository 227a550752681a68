// What is answered of the levels of a system.
use crate::notation::{WIDTH, numeral, shapes_in};
use crate::showing::answer_text;
use crate::systems::{Missing, kernel_of, system_of};
use crate::trees::{is_of_tree, tree_answer};
use kernel_shapes::{Bounds, Shape, Shapes};
use kernel_trees::{KerJob, System};
use shape_bounds::{ShapeFault, shapes, shapes_from, typed_shapes};
use std::alloc::{AllocError, Global};
use tla_meaning::{Decl, Job};
use tla_values::List;

fn bounds_of(size: u32, ends: Option<&Shape>) -> Bounds {
    let (low, high) = match ends {
        Some(Shape::Num(low, high)) => (*low, *high),
        _ => (0, 0),
    };
    Bounds { low, high, size }
}

// The answer to `shapes LENGTH`, `from LENGTH: SHAPES` or `typed SIZE: ENDS`.
fn answer(alloc: Global, question: &str, system: &System) -> Result<Shapes, ShapeFault> {
    let (word, rest) = question.split_once(" ").unwrap_or((question, ""));
    let (count, given) = rest.split_once(": ").unwrap_or((rest, ""));
    let given = shapes_in(alloc, given)?;
    match word {
        "shapes" => shapes(alloc, system, numeral(count), WIDTH),
        "from" => shapes_from(alloc, system, &given, numeral(count), WIDTH),
        _ => {
            let bounds = bounds_of(numeral(count), given.as_slice().first());
            typed_shapes(alloc, system, &bounds, WIDTH)
        }
    }
}

fn system_answer(alloc: Global, question: &str, system: &System) -> Result<String, AllocError> {
    let found = answer(alloc, question, system);
    let text = answer_text(alloc, &found);
    drop(found);
    text
}

// A large value ends by one call, beside no call that may fail.
fn asked(alloc: Global, question: &str, system: System) -> Result<String, AllocError> {
    let text = system_answer(alloc, question, &system);
    drop(system);
    text
}

fn kernel_answer(
    alloc: Global,
    question: &str,
    names: &List<Decl>,
    kernel: KerJob,
) -> Result<String, AllocError> {
    if is_of_tree(question) {
        let text = tree_answer(alloc, question, &kernel);
        drop(kernel);
        return text;
    }
    match system_of(alloc, names, kernel) {
        Ok(system) => asked(alloc, question, system),
        Err(Missing(word)) => String::from_str(alloc, word),
    }
}

/// The text of what is answered of a job.
pub(crate) fn job_answer(alloc: Global, question: &str, job: &Job) -> Result<String, AllocError> {
    match kernel_of(alloc, job) {
        Ok(kernel) => kernel_answer(alloc, question, &job.names, kernel),
        Err(Missing(word)) => String::from_str(alloc, word),
    }
}
