// Why a job has no typing.
ghost use Rattle.std.specs.Prelude.{◌≡◌, ◌++◌, flat_map, OnOk};
ghost use Rattle.front_end.specs.Lines.{behind_place, defaults_text, two_types, typing_text};
ghost use Rattle.snowcat_rows.specs.Numbered.{numbered_together};

use crate::line_parts::{add_between, add_placed, add_words};
use snowcat_rows::{Ty, renumbered, show_type};
use snowcat_types::TypeFault;
use std::alloc::{AllocError, Global};
use tla_meaning::Place;
use tla_values::Text;

// Each of these adds to what is written.

pub(crate) fn add_type_fault(
    alloc: Global,
    fault: &TypeFault,
    files: &[Text],
    out: &mut Vec<u8>,
) -> Result<(), AllocError>
    ensures { OnOk result (out.new.items ≡ out.old.items ++ typing_text files.now fault.now) }
{
    match fault {
        TypeFault::NotAnnotated(name, _) => {
            add_between(b"refused: name ", name.bytes(), b" has no type", out)
        }
        TypeFault::BadAnnotation(at) => add_placed(b"refused: bad type at ", *at, files, out),
        TypeFault::Clash(at, a, b, defaults) => {
            add_words(b"refused: ", out)?;
            add_types(alloc, a, b, out)?;
            add_placed(b" clash at ", *at, files, out)?;
            add_defaults(defaults.as_slice(), files, out)
        }
        TypeFault::Memory(_) => add_words(b"out of memory", out),
    }
}

// Two types that clash, with their variables numbered together.
fn add_types(alloc: Global, a: &Ty, b: &Ty, out: &mut Vec<u8>) -> Result<(), AllocError>
    ensures { OnOk result (out.new.items ≡ out.old.items ++ two_types (numbered_together a.now b.now)) }
{
    let both = renumbered(alloc, a, b)?;
    add_words(b"types ", out)?;
    show_type(alloc, &both.0, out)?;
    add_words(b" and ", out)?;
    show_type(alloc, &both.1, out)
}

// The places of the nodes that took their default.
fn add_defaults(places: &[Place], files: &[Text], out: &mut Vec<u8>) -> Result<(), AllocError>
    ensures { OnOk result (out.new.items ≡ out.old.items ++ defaults_text files.now places.now) }
{
    match places.split_first() {
        None => Ok(()),
        Some((first, others)) => {
            add_placed(b"; defaults at ", *first, files, out)?;
            add_places(others, files, out)
        }
    }
}

// Places, each behind a comma.
fn add_places(places: &[Place], files: &[Text], out: &mut Vec<u8>) -> Result<(), AllocError>
    ensures { OnOk result (out.new.items ≡ out.old.items ++ flat_map (behind_place files.now) places.now) }
{
    for at in places {
        add_placed(b", ", *at, files, out)?;
    }
    Ok(())
}
