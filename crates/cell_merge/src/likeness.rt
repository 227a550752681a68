//! What is known without a gate: literals of the first variable, and cells that are made in one way.

ghost use Rattle.cell_arena.specs.Decode.{decode};
ghost use Rattle.sat_formula.specs.Formula.{Satisfies};
ghost use Rattle.sat_formula.specs.Lit.{lit_value};
ghost use Rattle.std.specs.Prelude.{◌≡◌, ◌<◌, Bool, IfSome, IsTrue, List, if◌then◌else◌, length, nat_eq, not};

use cell_arena::{Arena, CellId, CellKind};
use sat_formula::{Formula, Lit};
use tla_values::same_text;

/// The value of `top` and of its negation; of any other literal none.
#[tactic(auto, using(crate::proofs::Chosen::top_value))]
pub fn known(formula: &Formula, l: Lit) -> Option<bool>
    ensures same { result ≡ (if nat_eq l.var 0 then Some (not l.neg) else None) }
    ensures value { IfSome result (λ v. (a : List Bool) → Satisfies a formula.now → lit_value l a ≡ v) }
{
    if l.var == formula.top().var {
        return Some(!l.neg);
    }
    None
}

// Whether the literals are the same ones in one order.
fn same_literals(v: &[Lit], w: &[Lit]) -> bool
    ensures { IsTrue result → v.now ≡ w.now }
{
    if v.len() != w.len() {
        return false;
    }
    for i in 0..v.len() {
        if v[i] != w[i] {
            return false;
        }
    }
    true
}

// Whether the two are one cell or are made in one way, as equal constants are: then they have one
// value under every assignment. It adds nothing to a formula.
#[cycle(alike)]
pub(crate) fn alike(arena: &Arena, x: CellId, y: CellId) -> bool
    requires x_there { x.index < length arena.now.kinds }
    requires y_there { y.index < length arena.now.kinds }
    ensures { IsTrue result → (a : List Bool) → decode arena.now a x ≡ decode arena.now a y }
{
    if x == y {
        return true;
    }
    match arena.kind(x) {
        CellKind::Bit(l) => {
            if let CellKind::Bit(m) = arena.kind(y) {
                return *l == *m;
            }
        }
        CellKind::Word(v) => {
            if let CellKind::Word(w) = arena.kind(y) {
                return same_literals(v.lits(), w.lits());
            }
        }
        CellKind::Text(v) => {
            if let CellKind::Text(w) = arena.kind(y) {
                return same_literals(v.lits(), w.lits());
            }
        }
        CellKind::Set(_) => return alike_sets(arena, x, y),
        CellKind::Rec(_) => return alike_records(arena, x, y),
        CellKind::Fun(_) => return alike_functions(arena, x, y),
        CellKind::Tup(_) => return alike_tuples(arena, x, y),
        CellKind::Seq(_, _) => return alike_sequences(arena, x, y),
    }
    false
}

// Whether the two sets have the same literals to members that are alike, in one order.
#[cycle(alike)]
fn alike_sets(arena: &Arena, x: CellId, y: CellId) -> bool
    requires x_there { x.index < length arena.now.kinds }
    requires y_there { y.index < length arena.now.kinds }
    ensures { IsTrue result → (a : List Bool) → decode arena.now a x ≡ decode arena.now a y }
{
    let CellKind::Set(left) = arena.kind(x) else {
        return false;
    };
    let CellKind::Set(right) = arena.kind(y) else {
        return false;
    };
    let es = left.as_slice();
    let fs = right.as_slice();
    if es.len() != fs.len() {
        return false;
    }
    for i in 0..es.len() {
        let (l, e) = es[i];
        let (m, f) = fs[i];
        if l != m {
            return false;
        }
        if !alike(arena, e, f) {
            return false;
        }
    }
    true
}

// Whether the two records have the same names for parts that are alike, in one order.
#[cycle(alike)]
fn alike_records(arena: &Arena, x: CellId, y: CellId) -> bool
    requires x_there { x.index < length arena.now.kinds }
    requires y_there { y.index < length arena.now.kinds }
    ensures { IsTrue result → (a : List Bool) → decode arena.now a x ≡ decode arena.now a y }
{
    let CellKind::Rec(left) = arena.kind(x) else {
        return false;
    };
    let CellKind::Rec(right) = arena.kind(y) else {
        return false;
    };
    let es = left.as_slice();
    let fs = right.as_slice();
    if es.len() != fs.len() {
        return false;
    }
    for i in 0..es.len() {
        let e = &es[i];
        let f = &fs[i];
        if !same_text(&e.0, &f.0) {
            return false;
        }
        if !alike(arena, e.1, f.1) {
            return false;
        }
    }
    true
}

// Whether the two tuples have parts that are alike, in one order.
#[cycle(alike)]
fn alike_tuples(arena: &Arena, x: CellId, y: CellId) -> bool
    requires x_there { x.index < length arena.now.kinds }
    requires y_there { y.index < length arena.now.kinds }
    ensures { IsTrue result → (a : List Bool) → decode arena.now a x ≡ decode arena.now a y }
{
    let CellKind::Tup(left) = arena.kind(x) else {
        return false;
    };
    let CellKind::Tup(right) = arena.kind(y) else {
        return false;
    };
    let ps = left.as_slice();
    let qs = right.as_slice();
    if ps.len() != qs.len() {
        return false;
    }
    for i in 0..ps.len() {
        if !alike(arena, ps[i], qs[i]) {
            return false;
        }
    }
    true
}

// Whether the two functions have the same literals to arguments and results that are alike, in one
// order.
#[cycle(alike)]
fn alike_functions(arena: &Arena, x: CellId, y: CellId) -> bool
    requires x_there { x.index < length arena.now.kinds }
    requires y_there { y.index < length arena.now.kinds }
    ensures { IsTrue result → (a : List Bool) → decode arena.now a x ≡ decode arena.now a y }
{
    let CellKind::Fun(left) = arena.kind(x) else {
        return false;
    };
    let CellKind::Fun(right) = arena.kind(y) else {
        return false;
    };
    let es = left.as_slice();
    let fs = right.as_slice();
    if es.len() != fs.len() {
        return false;
    }
    for i in 0..es.len() {
        let (here, e, v) = es[i];
        let (there, f, w) = fs[i];
        if here != there {
            return false;
        }
        if !alike(arena, e, f) {
            return false;
        }
        if !alike(arena, v, w) {
            return false;
        }
    }
    true
}

// Whether the two sequences have one length by the same literals, and places that are alike, in one
// order.
#[cycle(alike)]
fn alike_sequences(arena: &Arena, x: CellId, y: CellId) -> bool
    requires x_there { x.index < length arena.now.kinds }
    requires y_there { y.index < length arena.now.kinds }
    ensures { IsTrue result → (a : List Bool) → decode arena.now a x ≡ decode arena.now a y }
{
    let CellKind::Seq(v, left) = arena.kind(x) else {
        return false;
    };
    let CellKind::Seq(w, right) = arena.kind(y) else {
        return false;
    };
    if !same_literals(v.lits(), w.lits()) {
        return false;
    }
    let ps = left.as_slice();
    let qs = right.as_slice();
    if ps.len() != qs.len() {
        return false;
    }
    for i in 0..ps.len() {
        if !alike(arena, ps[i], qs[i]) {
            return false;
        }
    }
    true
}
