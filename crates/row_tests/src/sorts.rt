//! Of which sorts cells are, found by looking at them.

ghost use Rattle.cell_arena.specs.Cells.{kind_at};
ghost use Rattle.cell_merge.specs.Edges.{edges_of};
ghost use Rattle.cell_merge.specs.Sorts.{OfSort, OneType, function_of, number, sequence_of, set_of, truth};
ghost use Rattle.function_rewriter.specs.Arrows.{HasDomain};
ghost use Rattle.function_rewriter.specs.Functions.{HasField, HasItem};
ghost use Rattle.row_tests.specs.Shapes.{record_sort, tuple_sort, width_of};
ghost use Rattle.std.specs.Prelude.{◌<◌, ◌≡◌, ◌∷◌, IfSome, IsTrue, [], length};

use cell_arena::{Build, CellId, CellKind};
use cell_merge::part_count;
use sat_formula::Lit;
use tla_values::Text;

/// Whether the cell is there.
pub fn is_there(b: &Build, id: CellId) -> bool
    ensures { IsTrue result → id.index < length b.now.arena.kinds }
{
    id.index < b.arena.len()
}

/// A number.
pub fn is_number(b: &Build, id: CellId) -> bool
    ensures { IsTrue result → OfSort b.now.arena.kinds number id }
{
    if id.index >= b.arena.len() {
        return false;
    }
    match b.arena.kind(id) {
        CellKind::Word(_) => true,
        _ => false,
    }
}

/// A truth value.
pub fn is_truth(b: &Build, id: CellId) -> bool
    ensures { IsTrue result → OfSort b.now.arena.kinds truth id }
{
    if id.index >= b.arena.len() {
        return false;
    }
    match b.arena.kind(id) {
        CellKind::Bit(_) => true,
        _ => false,
    }
}

/// A set of numbers.
pub fn is_set(b: &Build, id: CellId) -> bool
    ensures { IsTrue result → OfSort b.now.arena.kinds (set_of number) id }
{
    if id.index >= b.arena.len() {
        return false;
    }
    match b.arena.kind(id) {
        CellKind::Set(edges) => edges.as_slice().iter().all(|e| is_number(b, e.1)),
        _ => false,
    }
}

/// A function from numbers to numbers.
pub fn is_function(b: &Build, id: CellId) -> bool
    ensures { IsTrue result → OfSort b.now.arena.kinds (function_of number number) id }
{
    if id.index >= b.arena.len() {
        return false;
    }
    match b.arena.kind(id) {
        CellKind::Fun(arrows) => {
            let list = arrows.as_slice();
            list.iter().all(|e| is_number(b, e.1)) && list.iter().all(|e| is_number(b, e.2))
        }
        _ => false,
    }
}

/// A function from numbers to truth values.
pub fn is_test(b: &Build, id: CellId) -> bool
    ensures { IsTrue result → OfSort b.now.arena.kinds (function_of number truth) id }
{
    if id.index >= b.arena.len() {
        return false;
    }
    match b.arena.kind(id) {
        CellKind::Fun(arrows) => {
            let list = arrows.as_slice();
            list.iter().all(|e| is_number(b, e.1)) && list.iter().all(|e| is_truth(b, e.2))
        }
        _ => false,
    }
}

/// A sequence of numbers.
pub fn is_sequence(b: &Build, id: CellId) -> bool
    ensures { IsTrue result → OfSort b.now.arena.kinds (sequence_of number) id }
{
    if id.index >= b.arena.len() {
        return false;
    }
    match b.arena.kind(id) {
        CellKind::Seq(_, places) => places.as_slice().iter().all(|p| is_number(b, *p)),
        _ => false,
    }
}

/// A tuple of numbers.
pub fn is_tuple(b: &Build, id: CellId) -> bool
    ensures { IsTrue result → OfSort b.now.arena.kinds (tuple_sort (width_of b.now.arena.kinds id)) id }
{
    if id.index >= b.arena.len() {
        return false;
    }
    match b.arena.kind(id) {
        CellKind::Tup(parts) => parts.as_slice().iter().all(|p| is_number(b, *p)),
        _ => false,
    }
}

// Whether the text is this one byte.
fn is_name(text: &Text, code: u8) -> bool
    ensures { IsTrue result → text.now ≡ code ∷ [] }
{
    match text.bytes() {
        [byte] => *byte == code,
        _ => false,
    }
}

/// A record of two numbers, n and p.
pub fn is_record(b: &Build, id: CellId) -> bool
    ensures { IsTrue result → OfSort b.now.arena.kinds record_sort id }
{
    if id.index >= b.arena.len() {
        return false;
    }
    let CellKind::Rec(fields) = b.arena.kind(id) else {
        return false;
    };
    let [x, y] = fields.as_slice() else {
        return false;
    };
    is_name(&x.0, b'n') && is_name(&y.0, b'p') && is_number(b, x.1) && is_number(b, y.1)
}

/// A record of two numbers, of which one has the name.
pub fn has_field(b: &Build, r: CellId, name: &Text) -> bool
    ensures { IsTrue result → HasField b.now.arena.kinds r name.now }
{
    if !is_record(b, r) {
        return false;
    }
    if is_name(name, b'n') {
        return true;
    }
    is_name(name, b'p')
}

/// A tuple of numbers, of which one has the number, from 1.
pub fn has_item(b: &Build, t: CellId, i: usize) -> bool
    ensures { IsTrue result → HasItem b.now.arena.kinds t i }
{
    if !is_tuple(b, t) || i < 1 {
        return false;
    }
    let count = part_count(&b.arena, t);
    i <= count
}

/// A tuple of fewer than eight numbers.
pub fn is_short(b: &Build, t: CellId) -> bool
    ensures { IsTrue result → HasDomain b.now t }
{
    let _ = b.width();
    if !is_tuple(b, t) {
        return false;
    }
    let count = part_count(&b.arena, t);
    count < 8
}

// Two tuples of as many numbers.
fn are_tuples(b: &Build, x: CellId, y: CellId) -> bool
    ensures { IsTrue result → OneType b.now.arena.kinds x y }
{
    if !is_tuple(b, x) || !is_tuple(b, y) {
        return false;
    }
    let left = part_count(&b.arena, x);
    let right = part_count(&b.arena, y);
    left == right
}

// Two functions to numbers or to truth values.
fn are_functions(b: &Build, x: CellId, y: CellId) -> bool
    ensures { IsTrue result → OneType b.now.arena.kinds x y }
{
    if is_function(b, x) && is_function(b, y) {
        return true;
    }
    is_test(b, x) && is_test(b, y)
}

// Two records.
fn are_records(b: &Build, x: CellId, y: CellId) -> bool
    ensures { IsTrue result → OneType b.now.arena.kinds x y }
{
    is_record(b, x) && is_record(b, y)
}

// Two sequences.
fn are_sequences(b: &Build, x: CellId, y: CellId) -> bool
    ensures { IsTrue result → OneType b.now.arena.kinds x y }
{
    is_sequence(b, x) && is_sequence(b, y)
}

/// Whether the two are of one of these sorts.
pub fn have_one_type(b: &Build, x: CellId, y: CellId) -> bool
    ensures { IsTrue result → OneType b.now.arena.kinds x y }
{
    are_functions(b, x, y) || are_tuples(b, x, y) || are_records(b, x, y) || are_sequences(b, x, y)
}

/// How many edges a set has.
pub fn edge_count(b: &Build, id: CellId) -> usize
    requires { id.index < length b.now.arena.kinds }
    ensures { result ≡ length (edges_of (kind_at b.now.arena.kinds id)) }
{
    match b.arena.kind(id) {
        CellKind::Set(edges) => edges.as_slice().len(),
        _ => 0,
    }
}

/// The literal of a truth value, and none of any other cell.
pub fn literal_in(b: &Build, id: CellId) -> Option<Lit>
    ensures { IfSome result (λ l. l.var < b.now.formula.vars) }
{
    if id.index >= b.arena.len() {
        return None;
    }
    match b.arena.kind(id) {
        CellKind::Bit(l) if l.var < b.formula.vars() => Some(*l),
        _ => None,
    }
}
