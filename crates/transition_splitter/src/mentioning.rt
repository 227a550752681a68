// Whether a tree holds a name that may be assigned.
ghost use Rattle.std.specs.Prelude.{◌≡◌};
ghost use Rattle.std.specs.List.{list_any};
ghost use Rattle.kernel_trees.specs.Paths.{mentions};
ghost use Rattle.kernel_trees.specs.ActionNames.{marks};

use kernel_trees::{AssignableNames, Ker, KerOp};

#[cycle(mentioning)]
fn mentions(marked: AssignableNames, k: &Ker) -> bool
    ensures { result ≡ mentions (marks marked) k.now }
{
    match &k.op {
        KerOp::Name(name, primed) => marked.holds(*name, *primed),
        KerOp::Const(_) => false,
        KerOp::NoCase => false,
        KerOp::Range => match k.args.as_slice() {
            [] => false,
            [low] => mentions(marked, low),
            [low, high, ..] => mentions(marked, low) || mentions(marked, high),
        },
        _ => any_mentions(marked, k.args.as_slice()),
    }
}

// Whether one of these trees holds a name that may be assigned.
#[cycle(mentioning)]
pub(crate) fn any_mentions(marked: AssignableNames, ks: &[Ker]) -> bool
    ensures { result ≡ list_any (mentions (marks marked)) ks.now }
{
    for k in ks {
        if mentions(marked, k) {
            return true;
        }
    }
    false
}
