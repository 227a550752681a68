// Which trees hold a name that an action may assign.
ghost use Rattle.std.specs.Prelude.{◌≡◌};
ghost use Rattle.kernel_reduction.specs.Reduction.{any_mentioned, mentioned};

use kernel_trees::counts;
use tla_meaning::{Assignable, Expr, Op};

#[cycle(mentions)]
fn mentions(e: &Expr, assignable: Assignable) -> bool
    ensures { result ≡ mentioned assignable e.now }
{
    match &e.op {
        Op::Name(number, primed) => counts(assignable, *number, *primed),
        _ => any_mentions(e.args.as_slice(), assignable),
    }
}

/// Whether one of the trees holds such a name.
#[cycle(mentions)]
pub(crate) fn any_mentions(es: &[Expr], assignable: Assignable) -> bool
    ensures { result ≡ any_mentioned assignable es.now }
{
    for e in es {
        if mentions(e, assignable) {
            return true;
        }
    }
    false
}
