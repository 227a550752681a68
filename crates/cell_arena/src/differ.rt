//! Whether texts differ.

ghost use Rattle.cell_arena.specs.Cells.{AllDiffer};
ghost use Rattle.std.specs.Prelude.{◌↔◌, ◌≡◌, IsTrue, map};
ghost use Rattle.tla_values.specs.Sets.{member};
ghost use Rattle.tla_values.specs.declared.value.Value.{Value};

use tla_values::{Text, Value, same_text};

/// Whether no two of the texts are equal. It takes no memory.
pub fn all_differ(texts: &[Text]) -> bool
    ensures { IsTrue result ↔ AllDiffer texts.now }
{
    for i in 0..texts.len() {
        if stands_in(&texts[i], &texts[i + 1..]) {
            return false;
        }
    }
    true
}

fn stands_in(text: &Text, texts: &[Text]) -> bool
    ensures { result ≡ member (Value.Text text.now) (map (λ t. Value.Text t) texts.now) }
{
    for other in texts {
        if same_text(text, other) {
            return true;
        }
    }
    false
}
