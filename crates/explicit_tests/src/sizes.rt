// Encodings have the clauses, variables and cells that they had, within what they may have: what makes them larger is
// seen.
ghost use Rattle.accepted_systems.specs.Checking.{CanCheck};

use crate::accepting::{accepted, file};
use crate::counting::{Sizes, sizes_of};
use crate::passing::passes;
use crate::requests::request;
use crate::sized_modules::MODULES;
use front_end::{Accepted, Request};
use std::alloc::{AllocError, Global};
use std::test::Fail;
use tool_outside::MemoryFiles;

fn of_accepted(alloc: Global, accepted: &Accepted) -> Result<Option<Sizes>, AllocError>
    requires { CanCheck accepted.now }
{
    Ok(Some(sizes_of(alloc, accepted)?))
}

// The sizes of what is accepted of a request.
fn of_files(
    alloc: Global,
    request: &Request,
    files: &mut MemoryFiles,
) -> Result<Option<Sizes>, AllocError> {
    match accepted(alloc, request, files) {
        Ok(accepted) => {
            let sizes = of_accepted(alloc, &accepted);
            drop(accepted);
            sizes
        }
        Err(_) => Ok(None),
    }
}

fn of_request(
    alloc: Global,
    request: &Request,
    name: &str,
    module: &str,
) -> Result<Option<Sizes>, AllocError> {
    let mut files = file(alloc, name, module)?;
    of_files(alloc, request, &mut files)
}

// The sizes of a module to a length, where it is accepted.
fn sizes_of_module(
    alloc: Global,
    name: &str,
    steps: u32,
    module: &str,
) -> Result<Option<Sizes>, AllocError> {
    let file = format!(in alloc; "{name}.tla")?;
    let request = request(alloc, file.as_str(), "Inv", None, 32, steps)?;
    let sizes = of_request(alloc, &request, file.as_str(), module);
    drop(request);
    sizes
}

// What stands before the first blank, and behind it.
fn cut(words: &str) -> (&str, &str) {
    words.split_once(' ').unwrap_or((words, ""))
}

fn number(word: &str) -> usize {
    word.parse::<usize>().unwrap_or(0)
}

// The sizes that three numbers say.
fn sizes_in(words: &str) -> Sizes {
    let (clauses, rest) = cut(words);
    let (variables, cells) = cut(rest);
    Sizes {
        clauses: number(clauses),
        variables: number(variables),
        cells: number(cells),
    }
}

fn are_within(sizes: &Sizes, most: &Sizes) -> bool {
    sizes.clauses <= most.clauses && sizes.variables <= most.variables && sizes.cells <= most.cells
}

// A line of the report on a module, whose text begins behind its head.
fn line_of(alloc: Global, text: &str) -> Result<String, AllocError> {
    let (head, module) = text.split_once('\n').unwrap_or((text, ""));
    let (name, rest) = cut(head);
    let (steps, most) = cut(rest);
    let steps = steps.parse::<u32>().unwrap_or(0);
    let Some(sizes) = sizes_of_module(alloc, name, steps, module)? else {
        return format!(in alloc; "{name} is refused\n");
    };
    let end = if are_within(&sizes, &sizes_in(most)) {
        ""
    } else {
        ": too many"
    };
    format!(in alloc;
        "{name} {steps}: {} clauses, {} variables, {} cells{end}\n",
        sizes.clauses, sizes.variables, sizes.cells
    )
}

fn report(alloc: Global) -> Result<String, AllocError> {
    let mut lines = String::new(alloc);
    for text in MODULES.split("\n>").skip(1) {
        let line = line_of(alloc, text)?;
        lines.push_str(line.as_str())?;
    }
    Ok(lines)
}

// What is measured now. Each number is within the bounds of its module's head.
const SIZES: &str = "DieHard 10: 35872 clauses, 9658 variables, 303 cells
TwoPhase 8: 5674 clauses, 1715 variables, 924 cells
Ring 8: 9769 clauses, 2179 variables, 2859 cells
";

#[test]
fn encodings_have_their_sizes(rt: HostRuntime) -> Result<(), Fail> {
    passes(&rt, report(rt.alloc()), SIZES)
}
