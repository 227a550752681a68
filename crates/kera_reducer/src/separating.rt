// EXCEPTs that are apart: no right side of one, in which a name stands for what it updates, is below its annotations an
// EXCEPT of that name at the same place. In a module each right side stands behind its EXCEPT.
ghost use Rattle.std.specs.Prelude.{◌≡◌, ◌∷◌, ◌||◌, [], drop, map, not};
ghost use Rattle.std.specs.List.{list_all};
ghost use Rattle.tla_meaning.specs.Scopes.{same_text};
ghost use Rattle.tla_meaning.specs.Symbols.{same_place};
ghost use Rattle.tla_meaning.specs.declared.expr.Expr.{out-Expr};
ghost use Rattle.kernel_shapes.specs.Trees.{is_bound_name, is_except};
ghost use Rattle.kernel_reduction.specs.JobPaths.{below_notes};
ghost use Rattle.kernel_reduction.specs.SizeLaws.{begins_below, goes_on, is_apart};
ghost use Rattle.kernel_reduction.specs.WellFormed.{are_apart};

use tla_meaning::{Expr, Job, Op, Place};
use tla_values::Text;

fn same_text(a: &Text, b: &Text) -> bool
    ensures { result ≡ same_text a.now b.now }
{
    a.bytes().cmp(b.bytes()).is_eq()
}

fn same_place(p: Place, q: Place) -> bool
    ensures { result ≡ same_place p q }
{
    p.file == q.file && p.line == q.line && p.col == q.col
}

// Whether a tree is the bound name, below its annotations.
fn is_name(name: &Text, e: &Expr) -> bool
    ensures { result ≡ is_bound_name name.now (out-Expr (below_notes e.now)).op }
{
    match &e.op {
        Op::Noted(_) => match e.args.as_slice() {
            [inner, ..] => is_name(name, inner),
            [] => false,
        },
        Op::Bound(other) => same_text(name, other),
        _ => false,
    }
}

fn begins_below(name: &Text, es: &[Expr]) -> bool
    ensures { result ≡ begins_below name.now es.now }
{
    match es {
        [e, ..] => is_name(name, e),
        [] => false,
    }
}

// Whether a right side goes on along the path of an EXCEPT at the place, which binds the name.
fn goes_on(place: Place, name: &Text, e: &Expr) -> bool
    ensures { result ≡ goes_on place (name.now ∷ []) e.now }
{
    match &e.op {
        Op::Noted(_) => match e.args.as_slice() {
            [inner, ..] => goes_on(place, name, inner),
            [] => false,
        },
        Op::Except(_) => same_place(place, e.place) && begins_below(name, e.args.as_slice()),
        _ => false,
    }
}

fn none_goes_on(place: Place, name: &Text, es: &[Expr]) -> bool
    ensures { result ≡ list_all (λ e. not (goes_on place (name.now ∷ []) e)) es.now }
{
    for e in es {
        if goes_on(place, name, e) {
            return false;
        }
    }
    true
}

// Whether no right side of a node goes on along its path.
fn is_node_apart(e: &Expr) -> bool
    ensures { result ≡ (not (is_except (out-Expr e.now).op) || list_all (λ k. not (goes_on (out-Expr e.now).place (out-Expr e.now).binds k)) (drop 1 (out-Expr e.now).args)) }
{
    match &e.op {
        Op::Except(_) => match (e.binds.as_slice(), e.args.as_slice()) {
            ([name], [_, rest @ ..]) => none_goes_on(e.place, name, rest),
            _ => true,
        },
        _ => true,
    }
}

#[cycle(separate)]
fn is_apart(e: &Expr) -> bool
    ensures { result ≡ is_apart e.now }
{
    is_node_apart(e) && all_apart(e.args.as_slice())
}

#[cycle(separate)]
fn all_apart(es: &[Expr]) -> bool
    ensures { result ≡ list_all is_apart es.now }
{
    for e in es {
        if !is_apart(e) {
            return false;
        }
    }
    true
}

fn are_tests_apart(invs: &[(Text, Expr)]) -> bool
    ensures { result ≡ list_all is_apart (map (λ v. v.1) invs.now) }
{
    for inv in invs {
        if !is_apart(&inv.1) {
            return false;
        }
    }
    true
}

/// Whether the EXCEPTs of a job are apart.
pub(crate) fn are_apart(job: &Job) -> bool
    ensures { result ≡ are_apart job.now }
{
    is_apart(&job.cinit)
        && is_apart(&job.assume)
        && is_apart(&job.init)
        && is_apart(&job.next)
        && are_tests_apart(job.invs.as_slice())
}
