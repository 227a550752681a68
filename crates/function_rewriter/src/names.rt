//! The names of records among the texts of a build.

ghost use Rattle.cell_arena.specs.Cells.{kind_at};
ghost use Rattle.function_rewriter.specs.inner.Constants.{AreIndexes, HasNames, IsNameIndex, names_of};
ghost use Rattle.std.specs.Prelude.{◌<◌, ◌≡◌, ◌↔◌, IfOk, IfSome, IsTrue, [], is_some, length, map, slice_index_or};
ghost use Rattle.tla_values.specs.Sets.{member};

use cell_arena::{Build, CellId, CellKind};
use std::alloc::AllocError;
use tla_values::{Text, Value, same_text};

/// The first index at which the text stands among the texts. It takes no memory.
pub fn index_of(texts: &[Text], text: &Text) -> Option<usize>
    ensures found { IfSome result (λ i. (i < length texts.now) × (slice_index_or texts.now i [] ≡ text.now)) }
    ensures none { IsTrue (is_some result) ↔ IsTrue (member (Value.Text text.now) (map (λ t. Value.Text t) texts.now)) }
{
    for i in 0..texts.len() {
        if same_text(&texts[i], text) {
            return Some(i);
        }
    }
    None
}

// The index of the record's name at the place.
fn name_index(b: &Build, r: CellId, place: usize) -> usize
    requires names { HasNames b.now.arena r }
    requires within { place < length (names_of (kind_at b.now.arena.kinds r)) }
    ensures { IsNameIndex b.now.arena r place result }
{
    let CellKind::Rec(fields) = b.arena.kind(r) else {
        return 0;
    };
    let list = fields.as_slice();
    let texts = b.texts().as_slice();
    let Some(index) = index_of(texts, &list[place].0) else {
        return 0;
    };
    index
}

// The indexes of the record's names in their order.
pub(crate) fn name_indexes(b: &Build, r: CellId) -> Result<Vec<usize>, AllocError>
    requires { HasNames b.now.arena r }
    ensures { IfOk result (λ is. AreIndexes b.now.arena.texts (names_of (kind_at b.now.arena.kinds r)) is.items) }
{
    let count = name_count(b, r);
    let mut indexes = Vec::new(b.arena.alloc());
    for place in 0..count {
        let index = name_index(b, r, place);
        indexes.push(index)?;
    }
    Ok(indexes)
}

// How many names the record has.
fn name_count(b: &Build, r: CellId) -> usize
    requires { r.index < length b.now.arena.kinds }
    ensures { result ≡ length (names_of (kind_at b.now.arena.kinds r)) }
{
    if let CellKind::Rec(fields) = b.arena.kind(r) {
        return fields.as_slice().len();
    }
    0
}
