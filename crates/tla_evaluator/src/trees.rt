// Trees after expansion, parts of lists of trees, and the names that count as assigned in them.
ghost use denote.Param.Weighed.{most};
ghost use Rattle.std.specs.Prelude.{◌≡◌, ◌≤◌, IfOk, drop, take, ℕ};
ghost use Rattle.std.specs.List.{list_all, list_any};
ghost use Rattle.tla_meaning.specs.Actions.{counts};
ghost use Rattle.tla_evaluator.specs.Trees.{is_expanded, is_expanded_op};
ghost use Rattle.tla_evaluator.specs.inner.Branches.{GivesBranch, first_tree};
ghost use Rattle.tla_evaluator.specs.inner.Mentions.{mentions};

use crate::answers::{Answer, Stop};
use tla_meaning::{Assignable, Expr, Op, Place};

// Whether the operator is left after expansion.
pub(crate) fn is_expanded_op(op: &Op) -> bool
    ensures { result ≡ is_expanded_op op.now }
{
    !matches!(
        op,
        Op::Use(_) | Op::Param(_) | Op::Let(_) | Op::Prime | Op::Unchanged | Op::Boxed | Op::Angled
    )
}

/// Whether the tree is expanded: no use of a definition, parameter, LET, prime of an expression, UNCHANGED, `[A]_v` or
/// `<<A>>_v` is left in it. Takes no memory.
#[cycle(expanded)]
pub fn is_expanded(e: &Expr) -> bool
    ensures { result ≡ is_expanded e.now }
{
    is_expanded_op(&e.op) && all_expanded(e.args.as_slice())
}

#[cycle(expanded)]
fn all_expanded(trees: &[Expr]) -> bool
    ensures { result ≡ list_all is_expanded trees.now }
{
    for e in trees {
        if !is_expanded(e) {
            return false;
        }
    }
    true
}

fn counts(assigned: Assignable, i: usize, primed: bool) -> bool
    ensures { result ≡ counts assigned i primed }
{
    match assigned {
        Assignable::Every => true,
        Assignable::Primed => primed,
        Assignable::Constants(constants) => i < constants,
        Assignable::Variables(constants) => constants <= i,
        Assignable::PrimedVariables(constants) => primed && constants <= i,
    }
}

// Whether the tree holds a name that counts as assigned.
#[cycle(mentions)]
fn mentions(e: &Expr, assigned: Assignable) -> bool
    ensures { result ≡ mentions assigned e.now }
{
    match &e.op {
        Op::Name(i, primed) => counts(assigned, *i, *primed),
        op => is_expanded_op(op) && any_mentions(e.args.as_slice(), assigned),
    }
}

#[cycle(mentions)]
pub(crate) fn any_mentions(trees: &[Expr], assigned: Assignable) -> bool
    ensures { result ≡ list_any (mentions assigned) trees.now }
{
    for e in trees {
        if mentions(e, assigned) {
            return true;
        }
    }
    false
}

// The first of these trees.
pub(crate) fn first(trees: &[Expr], place: Place) -> Answer<&Expr>
    ensures tree { GivesBranch (first_tree place trees.now) result }
    ensures deep { IfOk result (λ e. (f : Expr → ℕ) → f e.now ≤ most f trees.now) }
{
    trees.first().ok_or(Stop::Wrong(place))
}

// The first n trees, or all where there are fewer.
pub(crate) fn front(trees: &[Expr], n: usize) -> &[Expr]
    ensures { result.now ≡ take n trees.now }
{
    if n < trees.len() { &trees[..n] } else { trees }
}

// The trees behind the first n.
pub(crate) fn after(trees: &[Expr], n: usize) -> &[Expr]
    ensures { result.now ≡ drop n trees.now }
{
    if n < trees.len() { &trees[n..] } else { &[] }
}
