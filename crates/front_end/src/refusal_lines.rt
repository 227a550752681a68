// The line that says why modules and a request are refused.
ghost use Rattle.std.specs.Prelude.{◌≡◌, ◌++◌, IfOk, OnOk};
ghost use Rattle.front_end.specs.Lines.{fault_text, refusal_text};

use crate::fault::{FrontFault, Refusal};
use crate::inline_lines::add_inline_fault;
use crate::kernel_lines::{add_assign_fault, add_ker_fault, add_shape_fault, add_split_fault};
use crate::line_parts::add_words;
use crate::module_lines::add_module_fault;
use crate::type_lines::add_type_fault;
use std::alloc::{AllocError, Global};
use tla_meaning::Decl;
use tla_values::Text;

/// The line that says why modules and a request are refused, with its line feed.
///
/// A place is printed as `Module:line:column`, the module being its file's name without folder and `.tla`. A file and a
/// name are those of their numbers in the refusal, and nothing is printed where it has none of that number. The variables
/// of two types that clash are `a`, `b` and so on, in the order in which they occur.
pub fn refusal_text(alloc: Global, refusal: &Refusal) -> Result<Vec<u8>, AllocError>
    ensures { IfOk result (λ line. line.items ≡ refusal_text refusal.now) }
{
    let mut line = Vec::new(alloc);
    add_fault(
        alloc,
        &refusal.fault,
        refusal.files.as_slice(),
        refusal.names.as_slice(),
        &mut line,
    )?;
    line.extend_from_slice(b"\n")?;
    Ok(line)
}

// Adds the line without its line feed.
fn add_fault(
    alloc: Global,
    fault: &FrontFault,
    files: &[Text],
    names: &[Decl],
    out: &mut Vec<u8>,
) -> Result<(), AllocError>
    ensures { OnOk result (out.new.items ≡ out.old.items ++ fault_text files.now names.now fault.now) }
{
    match fault {
        FrontFault::Module(fault) => add_module_fault(alloc, fault, files, out),
        FrontFault::Inline(fault) => add_inline_fault(alloc, fault, files, out),
        FrontFault::Type(fault) => add_type_fault(alloc, fault, files, out),
        FrontFault::Ker(fault) => add_ker_fault(fault, files, out),
        FrontFault::Split(fault) => add_split_fault(alloc, fault, out),
        FrontFault::Assign(fault) => add_assign_fault(fault, files, names, out),
        FrontFault::Shape(fault) => add_shape_fault(alloc, fault, files, out),
        FrontFault::Memory(_) => add_words(b"out of memory", out),
    }
}
