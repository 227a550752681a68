// Equal shapes.
ghost use Rattle.std.specs.Prelude.{map, ◌&&◌, ◌≡◌};
ghost use Rattle.tla_meaning.specs.Scopes.{same_text};
ghost use Rattle.kernel_shapes.specs.Codes.{mean};
ghost use Rattle.kernel_shapes.specs.Shape.{Atom, Empty, Num, same_names, shapes};
ghost use Rattle.shape_bounds.specs.inner.Equality.{same, same_items};

use kernel_shapes::Shape;
use tla_values::Text;

#[cycle(same)]
fn is_same(a: &Shape, b: &Shape) -> bool
    ensures { result ≡ same (mean a.now) (mean b.now) }
{
    match a {
        Shape::Atom => is_atom(b),
        Shape::Num(low, high) => is_interval(*low, *high, b),
        Shape::Set(n, x) => match b {
            Shape::Set(m, y) => *n == *m && is_same(x.get(), y.get()),
            Shape::Atom | Shape::Num(..) | Shape::Fun(..) | Shape::Seq(..) => false,
            Shape::Rec(_) | Shape::Tup(_) | Shape::Empty => false,
        },
        Shape::Fun(n, x, v) => match b {
            Shape::Fun(m, y, w) => {
                *n == *m && is_same(x.get(), y.get()) && is_same(v.get(), w.get())
            }
            Shape::Atom | Shape::Num(..) | Shape::Set(..) | Shape::Seq(..) => false,
            Shape::Rec(_) | Shape::Tup(_) | Shape::Empty => false,
        },
        Shape::Seq(n, x) => match b {
            Shape::Seq(m, y) => *n == *m && is_same(x.get(), y.get()),
            Shape::Atom | Shape::Num(..) | Shape::Set(..) | Shape::Fun(..) => false,
            Shape::Rec(_) | Shape::Tup(_) | Shape::Empty => false,
        },
        Shape::Rec(xs) => match b {
            Shape::Rec(ys) => same_fields(xs.as_slice(), ys.as_slice()),
            Shape::Atom | Shape::Num(..) | Shape::Set(..) | Shape::Fun(..) => false,
            Shape::Seq(..) | Shape::Tup(_) | Shape::Empty => false,
        },
        Shape::Tup(xs) => match b {
            Shape::Tup(ys) => are_same(xs.as_slice(), ys.as_slice()),
            Shape::Atom | Shape::Num(..) | Shape::Set(..) | Shape::Fun(..) => false,
            Shape::Seq(..) | Shape::Rec(_) | Shape::Empty => false,
        },
        Shape::Empty => is_empty(b),
    }
}

fn is_atom(b: &Shape) -> bool
    ensures { result ≡ same Atom (mean b.now) }
{
    match b {
        Shape::Atom => true,
        Shape::Num(..) | Shape::Set(..) | Shape::Fun(..) | Shape::Seq(..) => false,
        Shape::Rec(_) | Shape::Tup(_) | Shape::Empty => false,
    }
}

fn is_empty(b: &Shape) -> bool
    ensures { result ≡ same Empty (mean b.now) }
{
    match b {
        Shape::Empty => true,
        Shape::Num(..) | Shape::Set(..) | Shape::Fun(..) | Shape::Seq(..) => false,
        Shape::Rec(_) | Shape::Tup(_) | Shape::Atom => false,
    }
}

fn is_interval(low: i128, high: i128, b: &Shape) -> bool
    ensures { result ≡ same (Num low high) (mean b.now) }
{
    match b {
        Shape::Num(least, most) => low == *least && high == *most,
        Shape::Atom | Shape::Set(..) | Shape::Fun(..) | Shape::Seq(..) => false,
        Shape::Rec(_) | Shape::Tup(_) | Shape::Empty => false,
    }
}

// As many, and equal in turn.
#[cycle(same)]
pub(crate) fn are_same(xs: &[Shape], ys: &[Shape]) -> bool
    ensures { result ≡ same_items (shapes (map mean xs.now)) (shapes (map mean ys.now)) }
{
    if xs.len() != ys.len() {
        return false;
    }
    for i in 0..xs.len() {
        if !is_same(&xs[i], &ys[i]) {
            return false;
        }
    }
    true
}

#[cycle(same)]
fn same_fields(xs: &[(Text, Shape)], ys: &[(Text, Shape)]) -> bool
    ensures { result ≡ (same_names (map (λ x. x.0) xs.now) (map (λ y. y.0) ys.now)
        && same_items (shapes (map (λ x. mean x.1) xs.now)) (shapes (map (λ y. mean y.1) ys.now))) }
{
    if xs.len() != ys.len() {
        return false;
    }
    for i in 0..xs.len() {
        if !same_name(&xs[i].0, &ys[i].0) || !is_same(&xs[i].1, &ys[i].1) {
            return false;
        }
    }
    true
}

fn same_name(x: &Text, y: &Text) -> bool
    ensures { result ≡ same_text x.now y.now }
{
    x.bytes().cmp(y.bytes()).is_eq()
}
