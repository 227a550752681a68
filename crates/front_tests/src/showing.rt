// Answers as words.
use assignment_finder::AssignFault;
use front_end::{Accepted, FrontFault, Refusal};
use kernel_trees::KerFault;
use op_inliner::InlineFault;
use shape_bounds::ShapeFault;
use snowcat_types::TypeFault;
use std::alloc::{AllocError, Global};
use tla_meaning::Place;
use tla_modules::ModuleFault;
use tla_parser::ParseFault;
use tla_values::Text;
use transition_splitter::SplitFault;

fn at(alloc: Global, words: &str, p: Place) -> Result<String, AllocError> {
    format!(in alloc; "{words} {}:{}:{}", p.file, p.line, p.col)
}

// The number of a name, and a place.
fn numbered_at(alloc: Global, words: &str, name: usize, p: Place) -> Result<String, AllocError> {
    format!(in alloc; "{words} {name} {}:{}:{}", p.file, p.line, p.col)
}

// What there is too much of, at which level and place.
fn limit_at(
    alloc: Global,
    words: &str,
    number: u64,
    level: u32,
    p: Place,
) -> Result<String, AllocError> {
    format!(in alloc; "{words} {number} {level} {}:{}:{}", p.file, p.line, p.col)
}

fn with_name(alloc: Global, words: &str, name: &Text) -> Result<String, AllocError> {
    let name = str::from_utf8(name.bytes()).unwrap_or("?");
    format!(in alloc; "{words} {name}")
}

fn named_at(alloc: Global, words: &str, name: &Text, p: Place) -> Result<String, AllocError> {
    let name = str::from_utf8(name.bytes()).unwrap_or("?");
    format!(in alloc; "{words} {name} {}:{}:{}", p.file, p.line, p.col)
}

fn module_words(alloc: Global, fault: &ModuleFault) -> Result<String, AllocError> {
    match fault {
        ModuleFault::Missing(name) => with_name(alloc, "Module Missing", name),
        ModuleFault::Unknown(name, p) => named_at(alloc, "Module Unknown", name, *p),
        ModuleFault::Parse(ParseFault::BadGrammar(p)) => at(alloc, "Module Parse BadGrammar", *p),
        ModuleFault::Read(name) => with_name(alloc, "Module Read", name),
        _ => String::from_str(alloc, "Module"),
    }
}

fn inline_words(alloc: Global, fault: &InlineFault) -> Result<String, AllocError> {
    match fault {
        InlineFault::NoOperator(name) => with_name(alloc, "Inline NoOperator", name),
        InlineFault::Reached(_, p) => at(alloc, "Inline Reached", *p),
        _ => String::from_str(alloc, "Inline"),
    }
}

fn type_words(alloc: Global, fault: &TypeFault) -> Result<String, AllocError> {
    match fault {
        TypeFault::NotAnnotated(name, _) => with_name(alloc, "Type NotAnnotated", name),
        TypeFault::BadAnnotation(p) => at(alloc, "Type BadAnnotation", *p),
        TypeFault::Clash(p, _, _, _) => at(alloc, "Type Clash", *p),
        TypeFault::Memory(_) => Err(AllocError),
    }
}

fn assign_words(alloc: Global, fault: &AssignFault) -> Result<String, AllocError> {
    match fault {
        AssignFault::Unassigned(name, p) => numbered_at(alloc, "Assign Unassigned", *name, *p),
        AssignFault::ReadEarly(name, p) => numbered_at(alloc, "Assign ReadEarly", *name, *p),
        AssignFault::Infinite(p) => at(alloc, "Assign Infinite", *p),
        AssignFault::Memory(_) => Err(AllocError),
    }
}

fn shape_words(alloc: Global, fault: &ShapeFault) -> Result<String, AllocError> {
    match fault {
        ShapeFault::TooLarge(level, p, number) => {
            limit_at(alloc, "Shape TooLarge", *number, *level, *p)
        }
        ShapeFault::TooLong(level, p, number) => {
            limit_at(alloc, "Shape TooLong", *number, *level, *p)
        }
        ShapeFault::Memory(_) => Err(AllocError),
    }
}

fn fault_words(alloc: Global, fault: &FrontFault) -> Result<String, AllocError> {
    match fault {
        FrontFault::Module(fault) => module_words(alloc, fault),
        FrontFault::Inline(fault) => inline_words(alloc, fault),
        FrontFault::Type(fault) => type_words(alloc, fault),
        FrontFault::Ker(KerFault::NotFinite(p)) => at(alloc, "Ker NotFinite", *p),
        FrontFault::Ker(KerFault::Memory(_)) => Err(AllocError),
        FrontFault::Split(SplitFault::TooManyPaths(n)) => format!(in alloc;
            "Split TooManyPaths {n}"
        ),
        FrontFault::Split(SplitFault::Memory(_)) => Err(AllocError),
        FrontFault::Assign(fault) => assign_words(alloc, fault),
        FrontFault::Shape(fault) => shape_words(alloc, fault),
        FrontFault::Memory(_) => Err(AllocError),
    }
}

/// The fault; the names of the refusal are there exactly where there is a job.
pub(crate) fn refusal_words(alloc: Global, refusal: &Refusal) -> Result<String, AllocError> {
    let words = fault_words(alloc, &refusal.fault)?;
    let has_job = !words.as_str().starts_with("Module") && !words.as_str().starts_with("Inline");
    if has_job == refusal.names.as_slice().is_empty() {
        return format!(in alloc; "{} with names of another stage", words.as_str());
    }
    Ok(words)
}

/// The numbers of paths and of levels.
pub(crate) fn accepted_words(alloc: Global, accepted: &Accepted) -> Result<String, AllocError> {
    let system = &accepted.system;
    format!(in alloc;
        "accepted, paths {} {} {}, levels {}",
        system.constants.as_slice().len(),
        system.start.as_slice().len(),
        system.next.as_slice().len(),
        accepted.shapes.levels.as_slice().len()
    )
}
