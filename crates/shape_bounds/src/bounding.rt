// Trees whose ranges carry the ends of their numbers.
ghost use Rattle.std.specs.Prelude.{◌≡◌, IfOk};
ghost use Rattle.kernel_trees.specs.declared.kernel.Ker.{out-Ker};
ghost use Rattle.kernel_shapes.specs.Codes.{mean};
ghost use Rattle.tree_bounds.specs.Bounded.{constant, high_end, low_end};
ghost use Rattle.shape_bounds.specs.Kept.{IsWidth};
ghost use Rattle.shape_bounds.specs.inner.Bounding.{AreBounded, AreChildren, HasEnds, IsBounded, chosen, node_with, with_pair};

use crate::joins::join_all;
use crate::names::Names;
use crate::stacks::Stack;
use crate::under::{is_binding, stands_under};
use kernel_shapes::Shape;
use kernel_trees::{Ker, KerOp, copy_ker_op};
use snowcat_rows::{Ty, copy_type};
use std::alloc::{AllocError, Global};
use tla_meaning::Place;
use tla_values::{List, Value};

impl Names {
    // A tree that is evaluated where the numbers of each of these stacks are bound.
    #[cycle(bounds)]
    pub(crate) fn bounded(&mut self, k: &Ker, stacks: &[Stack]) -> Result<Ker, AllocError>
        requires sized { IsWidth self.old.width }
        ensures { IfOk result (λ r. IsBounded self.old self.new k.now stacks.now r) }
    {
        let ends = self.ends(k, stacks)?;
        let children = self.children(k, stacks)?;
        let args = with_pair(self.alloc, k.place, ends, children)?;
        node(self.alloc, k, args)
    }

    #[cycle(bounds)]
    fn children(&mut self, k: &Ker, stacks: &[Stack]) -> Result<Vec<Ker>, AllocError>
        requires sized { IsWidth self.old.width }
        ensures { IfOk result (λ rs. AreChildren self.old self.new k.now stacks.now rs.items) }
    {
        if !is_binding(&k.op) {
            return self.bounded_each(k, stacks, stacks);
        }
        let under = self.under_all(k, stacks)?;
        self.bounded_each(k, stacks, under.as_slice())
    }

    // The children, of which some stand under bound numbers.
    #[cycle(bounds)]
    fn bounded_each(
        &mut self,
        k: &Ker,
        stacks: &[Stack],
        under: &[Stack],
    ) -> Result<Vec<Ker>, AllocError>
        requires sized { IsWidth self.old.width }
        ensures { IfOk result (λ rs. AreBounded self.old self.new k.now stacks.now under.now
            rs.items) }
    {
        let args = k.args.as_slice();
        let numbers = k.binds.len();
        let mut bounded = Vec::new(self.alloc);
        for i in 0..args.len() {
            let chosen = chosen(stands_under(&k.op, numbers, i), under, stacks);
            let child = self.bounded(&args[i], chosen)?;
            bounded.push(child)?;
        }
        Ok(bounded)
    }

    // The bounds of a range's numbers over all extents; no other node has some.
    fn ends(&mut self, k: &Ker, stacks: &[Stack]) -> Result<Option<(i128, i128)>, AllocError>
        requires sized { IsWidth self.old.width }
        ensures { IfOk result (λ r. HasEnds self.old self.new k.now stacks.now r) }
    {
        match &k.op {
            KerOp::Range => {
                let shapes = self.shapes_at(k, stacks)?;
                let whole = join_all(self.alloc, shapes.as_slice())?;
                Ok(Some(range_ends(&whole)))
            }
            _ => Ok(None),
        }
    }
}

fn chosen<'a>(inner: bool, under: &'a [Stack], stacks: &'a [Stack]) -> &'a [Stack]
    ensures { result.now ≡ chosen inner under.now stacks.now }
{
    if inner { under } else { stacks }
}

// The ends of the members of a set of numbers; 0 and 0 where it has none.
fn range_ends(a: &Shape) -> (i128, i128)
    ensures { result ≡ (low_end (mean a.now), high_end (mean a.now)) }
{
    match a {
        Shape::Set(_, member) => match member.get() {
            Shape::Num(low, high) => (*low, *high),
            Shape::Atom | Shape::Set(..) | Shape::Fun(..) | Shape::Seq(..) => (0, 0),
            Shape::Rec(_) | Shape::Tup(_) | Shape::Empty => (0, 0),
        },
        Shape::Atom | Shape::Num(..) | Shape::Fun(..) | Shape::Seq(..) => (0, 0),
        Shape::Rec(_) | Shape::Tup(_) | Shape::Empty => (0, 0),
    }
}

// The two ends of a range, and these bounds behind them.
fn with_pair(
    alloc: Global,
    place: Place,
    ends: Option<(i128, i128)>,
    children: Vec<Ker>,
) -> Result<Vec<Ker>, AllocError>
    ensures { IfOk result (λ rs. rs.items ≡ with_pair place ends children.items) }
{
    let mut args = children;
    if let Some((low, high)) = ends {
        if args.len() >= 2 {
            args.truncate(2);
            args.push(constant(alloc, place, low))?;
            args.push(constant(alloc, place, high))?;
        }
    }
    Ok(args)
}

// An integer.
fn constant(alloc: Global, place: Place, n: i128) -> Ker
    ensures { result ≡ constant place n }
{
    Ker {
        place,
        ty: Ty::Int,
        op: KerOp::Const(Value::Int(n)),
        args: List::new(alloc),
        binds: List::new(alloc),
    }
}

// The node of a tree with other children.
fn node(alloc: Global, k: &Ker, args: Vec<Ker>) -> Result<Ker, AllocError>
    ensures { IfOk result (λ r. r ≡ node_with (out-Ker k.now) args.items) }
{
    let binds = Vec::from_slice(alloc, k.binds.as_slice())?;
    let ty = copy_type(alloc, &k.ty)?;
    let op = copy_ker_op(alloc, &k.op)?;
    Ok(Ker {
        place: k.place,
        ty,
        op,
        args: List::from_vec(args),
        binds: List::from_vec(binds),
    })
}
