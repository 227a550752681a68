// Why operators make no job.
ghost use Rattle.std.specs.Prelude.{◌≡◌, ◌++◌, OnOk};
ghost use Rattle.front_end.specs.Lines.{form_text, inline_text};

use crate::line_parts::{add_between, add_name, add_words};
use op_inliner::InlineFault;
use std::alloc::{AllocError, Global};
use tla_meaning::Form;
use tla_values::Text;
use trace_text::show_place;

// Adds the cause to what is written.
pub(crate) fn add_inline_fault(
    alloc: Global,
    fault: &InlineFault,
    files: &[Text],
    out: &mut Vec<u8>,
) -> Result<(), AllocError>
    ensures { OnOk result (out.new.items ≡ out.old.items ++ inline_text files.now fault.now) }
{
    match fault {
        InlineFault::NoOperator(name) => add_name(b"refused: no operator ", name.bytes(), out),
        InlineFault::TooLarge(name, nodes) => {
            let words = format!(in alloc; "refused: {nodes} nodes after expansion of ")?;
            add_name(words.as_bytes(), name.bytes(), out)
        }
        InlineFault::TooDeep(name) => add_name(
            b"refused: nesting past 400 after expansion of ",
            name.bytes(),
            out,
        ),
        InlineFault::Reached(form, at) => {
            let form = form_text(*form).as_bytes();
            add_between(b"refused: ", form, b" is reached at ", out)?;
            show_place(*at, files, out)
        }
        InlineFault::Memory(_) => add_words(b"out of memory", out),
    }
}

// The words for a form that is refused where it is reached.
fn form_text(form: Form) -> &'static str
    ensures { result.now ≡ form_text form }
{
    match form {
        Form::Choose => "CHOOSE",
        Form::Enabled => "ENABLED",
        Form::Recursive => "RECURSIVE",
        Form::Temporal => "TEMPORAL",
        Form::Unbounded => "UNBOUNDED QUANTIFIER",
        Form::Power => "POWER",
        Form::Prime => "PRIME",
        Form::Variable => "VARIABLE",
        Form::DoublePrime => "DOUBLE PRIME",
        Form::Library => "LIBRARY",
    }
}
