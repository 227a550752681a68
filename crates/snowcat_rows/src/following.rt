// What a type is at its root.
ghost use Rattle.snowcat_rows.specs.Types.{mean};
ghost use Rattle.snowcat_rows.specs.Chains.{Chain, sub_of};
ghost use Rattle.snowcat_rows.specs.Codes.{bindings_of};
ghost use Rattle.snowcat_rows.specs.Roots.{IsRoot};
ghost use Rattle.snowcat_rows.specs.inner.Places.{Indexed};

use crate::bindings::Bound;
use crate::places::Places;
use crate::replacement::type_bound;
use crate::types::Ty;

// The type, or what its variable is bound to, as long as that is a bound variable again. A binding holds no variable
// that was bound before it, so as many steps as there are bindings suffice.
pub(crate) fn follow_root<'a>(t: &'a Ty, bindings: &'a [Bound], places: &Places) -> &'a Ty
    requires chain { Chain (bindings_of bindings.now) }
    requires indexed { Indexed places.now bindings.now }
    ensures { IsRoot (sub_of (bindings_of bindings.now)) (mean t.now) (mean result.now) }
{
    let mut current = t;
    for step in 0..bindings.len() {
        match current {
            Ty::Var(v) => match type_bound(bindings, places, *v) {
                Some(bound) => current = bound,
                None => return current,
            },
            _ => return current,
        }
    }
    current
}
