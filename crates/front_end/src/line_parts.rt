// The parts of which lines are made. Each of these adds to what is written.
ghost use Rattle.std.specs.Prelude.{◌≡◌, ◌++◌, OnOk};
ghost use Rattle.trace_text.specs.Reports.{place_text};

use std::alloc::AllocError;
use tla_meaning::Place;
use tla_values::Text;
use trace_text::show_place;

pub(crate) fn add_words(words: &[u8], out: &mut Vec<u8>) -> Result<(), AllocError>
    ensures { OnOk result (out.new.items ≡ out.old.items ++ words.now) }
{
    out.extend_from_slice(words)
}

// Adds words and a place.
pub(crate) fn add_placed(
    words: &[u8],
    at: Place,
    files: &[Text],
    out: &mut Vec<u8>,
) -> Result<(), AllocError>
    ensures { OnOk result (out.new.items ≡ out.old.items ++ (words.now ++ place_text files.now at)) }
{
    add_words(words, out)?;
    show_place(at, files, out)
}

// Adds a name behind words.
pub(crate) fn add_name(words: &[u8], name: &[u8], out: &mut Vec<u8>) -> Result<(), AllocError>
    ensures { OnOk result (out.new.items ≡ out.old.items ++ (words.now ++ name.now)) }
{
    add_words(words, out)?;
    add_words(name, out)
}

// Adds a name between words.
pub(crate) fn add_between(
    before: &[u8],
    name: &[u8],
    behind: &[u8],
    out: &mut Vec<u8>,
) -> Result<(), AllocError>
    ensures { OnOk result (out.new.items ≡ out.old.items ++ (before.now ++ (name.now ++ behind.now))) }
{
    add_name(before, name, out)?;
    add_words(behind, out)
}
