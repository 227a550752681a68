// Why a typed job has no kernel, a kernel too many paths, a path no assignments, a system no shapes.
ghost use Rattle.std.specs.Prelude.{◌≡◌, ◌++◌, OnOk};
ghost use Rattle.front_end.specs.Lines.{assign_text, declared_name, ker_text, shape_text, split_text};

use crate::line_parts::{add_between, add_placed, add_words};
use assignment_finder::AssignFault;
use kernel_trees::KerFault;
use shape_bounds::ShapeFault;
use std::alloc::{AllocError, Global};
use tla_meaning::Decl;
use tla_values::Text;
use trace_text::show_place;
use transition_splitter::SplitFault;

// Each of these adds the cause with its place to what is written.

pub(crate) fn add_ker_fault(
    fault: &KerFault,
    files: &[Text],
    out: &mut Vec<u8>,
) -> Result<(), AllocError>
    ensures { OnOk result (out.new.items ≡ out.old.items ++ ker_text files.now fault.now) }
{
    match fault {
        KerFault::NotFinite(at) => add_placed(b"refused: infinite set at ", *at, files, out),
        KerFault::Memory(_) => add_words(b"out of memory", out),
    }
}

pub(crate) fn add_split_fault(
    alloc: Global,
    fault: &SplitFault,
    out: &mut Vec<u8>,
) -> Result<(), AllocError>
    ensures { OnOk result (out.new.items ≡ out.old.items ++ split_text fault.now) }
{
    match fault {
        SplitFault::TooManyPaths(count) => {
            let words = format!(in alloc; "refused: {count} paths")?;
            add_words(words.as_bytes(), out)
        }
        SplitFault::Memory(_) => add_words(b"out of memory", out),
    }
}

pub(crate) fn add_assign_fault(
    fault: &AssignFault,
    files: &[Text],
    names: &[Decl],
    out: &mut Vec<u8>,
) -> Result<(), AllocError>
    ensures { OnOk result (out.new.items ≡ out.old.items ++ assign_text files.now names.now fault.now) }
{
    match fault {
        AssignFault::Unassigned(number, at) => {
            let name = declared_name(names, *number);
            add_between(
                b"refused: name ",
                name,
                b" is not assigned on the path at ",
                out,
            )?;
            show_place(*at, files, out)
        }
        AssignFault::ReadEarly(number, at) => {
            let name = declared_name(names, *number);
            add_between(
                b"refused: name ",
                name,
                b" is read before it is assigned at ",
                out,
            )?;
            show_place(*at, files, out)
        }
        AssignFault::Infinite(at) => add_placed(b"refused: infinite set at ", *at, files, out),
        AssignFault::Memory(_) => add_words(b"out of memory", out),
    }
}

// The declared name of a number, and nothing where there is none.
fn declared_name(names: &[Decl], number: usize) -> &[u8]
    ensures { result.now ≡ declared_name names.now number }
{
    match names.get(number) {
        Some(declared) => declared.name.bytes(),
        None => b"",
    }
}

pub(crate) fn add_shape_fault(
    alloc: Global,
    fault: &ShapeFault,
    files: &[Text],
    out: &mut Vec<u8>,
) -> Result<(), AllocError>
    ensures { OnOk result (out.new.items ≡ out.old.items ++ shape_text files.now fault.now) }
{
    match fault {
        ShapeFault::TooLarge(level, at, count) => {
            let words = format!(in alloc; "refused: {count} members at level {level} at ")?;
            add_placed(words.as_bytes(), *at, files, out)
        }
        ShapeFault::TooLong(level, at, count) => {
            let words = format!(in alloc; "refused: {count} places at level {level} at ")?;
            add_placed(words.as_bytes(), *at, files, out)
        }
        ShapeFault::Memory(_) => add_words(b"out of memory", out),
    }
}
