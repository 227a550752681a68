// The shape of a kernel tree by those of the names that it reads, and which number in it is past its limit.
ghost use Rattle.std.specs.Prelude.{[], ◌∷◌, ◌≡◌, IfOk, map, take, true};
ghost use Rattle.kernel_trees.specs.declared.kernel.Ker.{out-Ker};
ghost use Rattle.kernel_trees.specs.declared.kernel.KerOp.TheVariants as ker;
ghost use Rattle.kernel_shapes.specs.Kernel.{ker_sized};
ghost use Rattle.kernel_shapes.specs.Codes.{mean};
ghost use Rattle.kernel_shapes.specs.Sized.{Position, operand};
ghost use Rattle.shape_bounds.specs.Kept.{IsWidth};
ghost use Rattle.shape_bounds.specs.inner.Nodes.{is_binder, is_endless, is_listed, is_membership, is_product, second_of, subset_operand};
ghost use Rattle.shape_bounds.specs.inner.Steps.{SizesSteps};
ghost use Rattle.shape_bounds.specs.Sizes.{Sizes, SizesEach, SizesUnder, stands};
ghost use Rattle.shape_bounds.specs.inner.Table.{literal};
ghost use Rattle.shape_bounds.specs.inner.Updated.{SizesBeyond, SizesRight, goes_on};

use crate::joins::join_all;
use crate::names::{Names, Site};
use crate::nodes::{binder_shape, constant, is_plain, literal_of};
use crate::parts::{Literal, applied, copy_part, count, inside, pair};
use crate::records::insides;
use crate::rows::{functions_of, range, row, subsets_of};
use crate::typed::{domain_of, items_of};
use crate::updates::{goes_on, joined_at};
use kernel_shapes::{Shape, copy_shape};
use kernel_trees::{Ker, KerOp};
use std::alloc::AllocError;
use tla_meaning::Place;

impl Names {
    /// The shape of a kernel tree where names have these shapes, in numbers of members up to 2^64 - 1, which stands for all
    /// greater ones; and in `first` the one that comes first of the numbers past their limits, of this tree and of those
    /// looked at before. (Konnov, Kukovec and Tran, "TLA+ Model Checking Made Symbolic", OOPSLA 2019, on static bounds of
    /// cells.)
    ///
    /// Want of memory stands also for a tree that is not sound, and for a fold of 2^64 - 1 steps or more.
    #[cycle(size)]
    pub fn size(&mut self, k: &Ker, at: Site) -> Result<Shape, AllocError>
        requires sized { IsWidth self.old.width }
        ensures { IfOk result (λ r.
            Sizes self.old self.new (ker_sized self.old.width k.now) (stands at) r) }
    {
        match &k.op {
            KerOp::Const(value) => Ok(constant(value, self.width)),
            KerOp::Name(i, primed) => self.name(k, *i, *primed),
            KerOp::Bound(n) => self.bound_name(k, *n),
            KerOp::Filter | KerOp::MapOver | KerOp::FunOf => self.binder(k),
            KerOp::Some | KerOp::Every => self.binder(k),
            KerOp::Member | KerOp::Included => self.membership(k),
            KerOp::Subsets => self.subsets(k, at),
            KerOp::Functions => self.functions(k, at),
            KerOp::RecForm(_) | KerOp::TupForm => self.product(k, at),
            KerOp::IntForm | KerOp::NatForm => self.endless(k),
            KerOp::TextForm | KerOp::SeqForm => self.endless(k),
            KerOp::Range => self.range(k),
            KerOp::Item(i) => self.item(k, *i),
            KerOp::NoCase => Ok(Shape::Empty),
            KerOp::Domain => self.domain(k),
            KerOp::TupOf | KerOp::SeqOf => self.listed(k),
            KerOp::FoldLeft => self.fold(k),
            KerOp::Update => self.update(k),
            _ => self.plain(k),
        }
    }

    // A declared name.
    fn name(&mut self, k: &Ker, i: usize, primed: bool) -> Result<Shape, AllocError>
        requires sized { IsWidth self.old.width }
        requires named { (out-Ker k.now).op ≡ ker.Name i primed }
        ensures { IfOk result (λ r. (q : Position) →
            Sizes self.old self.new (ker_sized self.old.width k.now) q r) }
    {
        let shape = self.declared(i, primed)?;
        self.count(k.place, &shape);
        Ok(shape)
    }

    // What is bound under a number.
    fn bound_name(&mut self, k: &Ker, n: u32) -> Result<Shape, AllocError>
        requires sized { IsWidth self.old.width }
        requires named { (out-Ker k.now).op ≡ ker.Bound n }
        ensures { IfOk result (λ r. (q : Position) →
            Sizes self.old self.new (ker_sized self.old.width k.now) q r) }
    {
        let shape = self.bound_to(n)?;
        self.count(k.place, &shape);
        Ok(shape)
    }

    // The shapes of the first trees, so many.
    #[cycle(size)]
    pub(crate) fn sizes(
        &mut self,
        ks: &[Ker],
        number: usize,
        at: Site,
    ) -> Result<Vec<Shape>, AllocError>
        requires sized { IsWidth self.old.width }
        ensures { IfOk result (λ rs. SizesEach self.old self.new
            (map (ker_sized self.old.width) (take number ks.now)) (stands at) rs.items) }
    {
        if number > ks.len() {
            return Err(AllocError);
        }
        let mut shapes = Vec::new(self.alloc);
        for i in 0..number {
            let k = &ks[i];
            let shape = self.size(k, at)?;
            shapes.push(shape)?;
        }
        Ok(shapes)
    }

    // Of an operator that walks all its children.
    #[cycle(size)]
    fn plain(&mut self, k: &Ker) -> Result<Shape, AllocError>
        requires sized { IsWidth self.old.width }
        ensures { IfOk result (λ r. (q : Position) →
            Sizes self.old self.new (ker_sized self.old.width k.now) q r) }
    {
        if !is_plain(&k.op) {
            return Err(AllocError);
        }
        let args = k.args.as_slice();
        let operands = self.sizes(args, args.len(), Site::Walked)?;
        let shapes = operands.as_slice();
        let shape = row(self.alloc, &k.op, second_literal(args), shapes, self.width)?;
        self.count(k.place, &shape);
        Ok(shape)
    }

    // A membership or an inclusion.
    #[cycle(size)]
    fn membership(&mut self, k: &Ker) -> Result<Shape, AllocError>
        requires sized { IsWidth self.old.width }
        requires kind { is_membership (out-Ker k.now).op ≡ true }
        ensures { IfOk result (λ r. (q : Position) →
            Sizes self.old self.new (ker_sized self.old.width k.now) q r) }
    {
        match k.args.as_slice() {
            [member, set] => {
                self.size(member, Site::Walked)?;
                self.size(set, Site::Form)?;
                Ok(Shape::Atom)
            }
            _ => Err(AllocError),
        }
    }

    // A node that binds numbers over sets.
    #[cycle(size)]
    fn binder(&mut self, k: &Ker) -> Result<Shape, AllocError>
        requires sized { IsWidth self.old.width }
        requires kind { is_binder (out-Ker k.now).op ≡ true }
        ensures { IfOk result (λ r. (q : Position) →
            Sizes self.old self.new (ker_sized self.old.width k.now) q r) }
    {
        let args = k.args.as_slice();
        let numbers = k.binds.as_slice();
        if args.is_empty() || args.len() - 1 != numbers.len() {
            return Err(AllocError);
        }
        let sets = self.sizes(args, numbers.len(), Site::Walked)?;
        let members = insides(self.alloc, sets.as_slice())?;
        let body = self.under(&args[numbers.len()], numbers, members.as_slice())?;
        let shape = binder_shape(self.alloc, &k.op, sets.as_slice(), body)?;
        self.count(k.place, &shape);
        Ok(shape)
    }

    // Of a tree that is walked where further numbers have these shapes.
    #[cycle(size)]
    fn under(&mut self, body: &Ker, numbers: &[u32], shapes: &[Shape]) -> Result<Shape, AllocError>
        requires sized { IsWidth self.old.width }
        ensures { IfOk result (λ r. SizesUnder self.old self.new
            (ker_sized self.old.width body.now) numbers.now (map mean shapes.now) r) }
    {
        let bound = self.bound.as_slice();
        let before = bound.len();
        self.bind(numbers, shapes)?;
        let shape = self.size(body, Site::Walked)?;
        self.bound.truncate(before);
        Ok(shape)
    }

    // The set of all subsets.
    #[cycle(size)]
    fn subsets(&mut self, k: &Ker, at: Site) -> Result<Shape, AllocError>
        requires sized { IsWidth self.old.width }
        requires kind { (out-Ker k.now).op ≡ ker.Subsets }
        ensures { IfOk result (λ r.
            Sizes self.old self.new (ker_sized self.old.width k.now) (stands at) r) }
    {
        match k.args.as_slice() {
            [set] => {
                let operand = self.size(set, set_site(at))?;
                let shape = subsets_of(self.alloc, &operand)?;
                self.count_walked(k.place, &shape, at);
                Ok(shape)
            }
            _ => Err(AllocError),
        }
    }

    // The set of all functions.
    #[cycle(size)]
    fn functions(&mut self, k: &Ker, at: Site) -> Result<Shape, AllocError>
        requires sized { IsWidth self.old.width }
        requires kind { (out-Ker k.now).op ≡ ker.Functions }
        ensures { IfOk result (λ r.
            Sizes self.old self.new (ker_sized self.old.width k.now) (stands at) r) }
    {
        match k.args.as_slice() {
            [arguments, values] => {
                let a = self.size(arguments, Site::Walked)?;
                let b = self.size(values, operand_site(at))?;
                let shape = functions_of(self.alloc, &a, &b)?;
                self.count_walked(k.place, &shape, at);
                Ok(shape)
            }
            _ => Err(AllocError),
        }
    }

    // The set of all records, or of all tuples.
    #[cycle(size)]
    fn product(&mut self, k: &Ker, at: Site) -> Result<Shape, AllocError>
        requires sized { IsWidth self.old.width }
        requires kind { is_product (out-Ker k.now).op ≡ true }
        ensures { IfOk result (λ r.
            Sizes self.old self.new (ker_sized self.old.width k.now) (stands at) r) }
    {
        let args = k.args.as_slice();
        let operands = self.sizes(args, args.len(), operand_site(at))?;
        let shapes = operands.as_slice();
        let shape = row(self.alloc, &k.op, Literal::None, shapes, self.width)?;
        self.count_walked(k.place, &shape, at);
        Ok(shape)
    }

    // An infinite set.
    #[cycle(size)]
    fn endless(&mut self, k: &Ker) -> Result<Shape, AllocError>
        requires sized { IsWidth self.old.width }
        requires kind { is_endless (out-Ker k.now).op ≡ true }
        ensures { IfOk result (λ r. (q : Position) →
            Sizes self.old self.new (ker_sized self.old.width k.now) q r) }
    {
        let args = k.args.as_slice();
        self.sizes(args, args.len(), Site::Form)?;
        Ok(Shape::Empty)
    }

    // The numbers from one to another; bounds that stand behind are not read.
    #[cycle(size)]
    fn range(&mut self, k: &Ker) -> Result<Shape, AllocError>
        requires sized { IsWidth self.old.width }
        requires kind { (out-Ker k.now).op ≡ ker.Range }
        ensures { IfOk result (λ r. (q : Position) →
            Sizes self.old self.new (ker_sized self.old.width k.now) q r) }
    {
        match k.args.as_slice() {
            [low, high, ..] => {
                let a = self.size(low, Site::Walked)?;
                let b = self.size(high, Site::Walked)?;
                let shape = range(self.alloc, &a, &b)?;
                self.count(k.place, &shape);
                Ok(shape)
            }
            _ => Err(AllocError),
        }
    }

    // An item of a tuple.
    #[cycle(size)]
    fn item(&mut self, k: &Ker, i: usize) -> Result<Shape, AllocError>
        requires sized { IsWidth self.old.width }
        requires kind { (out-Ker k.now).op ≡ ker.Item i }
        ensures { IfOk result (λ r. (q : Position) →
            Sizes self.old self.new (ker_sized self.old.width k.now) q r) }
    {
        match k.args.as_slice() {
            [whole] => {
                let a = self.size(whole, Site::Walked)?;
                let shape = copy_part(self.alloc, applied(&a, Literal::Number(i as i128)))?;
                self.count(k.place, &shape);
                Ok(shape)
            }
            _ => Err(AllocError),
        }
    }

    // The domain of a function, a sequence, a tuple or a record.
    #[cycle(size)]
    fn domain(&mut self, k: &Ker) -> Result<Shape, AllocError>
        requires sized { IsWidth self.old.width }
        requires kind { (out-Ker k.now).op ≡ ker.Domain }
        ensures { IfOk result (λ r. (q : Position) →
            Sizes self.old self.new (ker_sized self.old.width k.now) q r) }
    {
        match k.args.as_slice() {
            [whole] => {
                let a = self.size(whole, Site::Walked)?;
                let shape = domain_of(self.alloc, &whole.ty, &a, self.width)?;
                self.count(k.place, &shape);
                Ok(shape)
            }
            _ => Err(AllocError),
        }
    }

    // A tuple or a sequence of items.
    #[cycle(size)]
    fn listed(&mut self, k: &Ker) -> Result<Shape, AllocError>
        requires sized { IsWidth self.old.width }
        requires kind { is_listed (out-Ker k.now).op ≡ true }
        ensures { IfOk result (λ r. (q : Position) →
            Sizes self.old self.new (ker_sized self.old.width k.now) q r) }
    {
        let args = k.args.as_slice();
        let items = self.sizes(args, args.len(), Site::Walked)?;
        let shape = items_of(self.alloc, &k.ty, items)?;
        self.count(k.place, &shape);
        Ok(shape)
    }

    // A fold of a list from the left.
    #[cycle(size)]
    fn fold(&mut self, k: &Ker) -> Result<Shape, AllocError>
        requires sized { IsWidth self.old.width }
        requires kind { (out-Ker k.now).op ≡ ker.FoldLeft }
        ensures { IfOk result (λ r. (q : Position) →
            Sizes self.old self.new (ker_sized self.old.width k.now) q r) }
    {
        let numbers = k.binds.as_slice();
        if numbers.len() != 2 {
            return Err(AllocError);
        }
        match k.args.as_slice() {
            [body, start, list] => {
                let first = self.size(start, Site::Walked)?;
                let items = self.size(list, Site::Walked)?;
                let values = self.steps(body, numbers, first, &items)?;
                let shape = join_all(self.alloc, values.as_slice())?;
                self.count(k.place, &shape);
                Ok(shape)
            }
            _ => Err(AllocError),
        }
    }

    // The values that a fold goes through: the start, and what the body gives at each item of a list.
    #[cycle(size)]
    pub(crate) fn steps(
        &mut self,
        body: &Ker,
        numbers: &[u32],
        start: Shape,
        list: &Shape,
    ) -> Result<Vec<Shape>, AllocError>
        requires sized { IsWidth self.old.width }
        ensures { IfOk result (λ rs. SizesSteps self.old self.new
            (ker_sized self.old.width body.now) numbers.now (mean start) (mean list.now) rs.items) }
    {
        let number = count(list);
        if number == u64::MAX {
            return Err(AllocError);
        }
        let mut values = Vec::new(self.alloc);
        let mut value = start;
        for _ in 0..number {
            let shapes = pair(self.alloc, &value, inside(list))?;
            let next = self.under(body, numbers, shapes.as_slice())?;
            values.push(value)?;
            value = next;
        }
        values.push(value)?;
        Ok(values)
    }

    // An update at an index.
    #[cycle(size)]
    fn update(&mut self, k: &Ker) -> Result<Shape, AllocError>
        requires sized { IsWidth self.old.width }
        requires kind { (out-Ker k.now).op ≡ ker.Update }
        ensures { IfOk result (λ r. (q : Position) →
            Sizes self.old self.new (ker_sized self.old.width k.now) q r) }
    {
        match k.args.as_slice() {
            [updated, ..] => {
                let whole = self.size(updated, Site::Walked)?;
                let shape = self.changed(k, &whole)?;
                self.count(k.place, &shape);
                Ok(shape)
            }
            _ => Err(AllocError),
        }
    }

    // An update of what has a shape, without a number of its own.
    #[cycle(size)]
    fn changed(&mut self, k: &Ker, whole: &Shape) -> Result<Shape, AllocError>
        requires sized { IsWidth self.old.width }
        requires kind { (out-Ker k.now).op ≡ ker.Update }
        ensures { IfOk result (λ r.
            SizesBeyond self.old self.new self.old.width k.now (mean whole.now) r) }
    {
        let numbers = k.binds.as_slice();
        if numbers.len() != 1 {
            return Err(AllocError);
        }
        match k.args.as_slice() {
            [_, index, right] => {
                self.size(index, Site::Walked)?;
                let written = literal_of(index);
                let part = copy_part(self.alloc, applied(whole, written))?;
                let new = self.right(right, k.place, numbers[0], part)?;
                let shape = joined_at(self.alloc, whole, written, &new)?;
                Ok(shape)
            }
            _ => Err(AllocError),
        }
    }

    // The right side of an update at a place, where the number that it binds has the shape of the part.
    #[cycle(size)]
    fn right(
        &mut self,
        right: &Ker,
        place: Place,
        number: u32,
        part: Shape,
    ) -> Result<Shape, AllocError>
        requires sized { IsWidth self.old.width }
        ensures { IfOk result (λ r. SizesRight self.old self.new (goes_on place number right.now)
            (ker_sized self.old.width right.now) (number ∷ []) (mean part ∷ []) r) }
    {
        if !goes_on(place, number, right) {
            return self.under(right, &[number], &[part]);
        }
        let bound = self.bound.as_slice();
        let before = bound.len();
        let copy = copy_shape(self.alloc, &part)?;
        self.bound.push((number, copy))?;
        let shape = self.changed(right, &part)?;
        self.bound.truncate(before);
        Ok(shape)
    }
}

// The literal that stands second.
fn second_literal(ks: &[Ker]) -> Literal
    ensures { literal result ≡ second_of ks.now }
{
    match ks {
        [] => Literal::None,
        [_] => Literal::None,
        [_, k, ..] => literal_of(k),
    }
}

// Where the operand of a set of subsets stands.
fn set_site(at: Site) -> Site
    ensures { stands result ≡ subset_operand (stands at) }
{
    match at {
        Site::Form => Site::Form,
        Site::Walked | Site::Assigned | Site::Picked => Site::Walked,
    }
}

// Where the operands of a set of functions, records or tuples stand.
fn operand_site(at: Site) -> Site
    ensures { stands result ≡ operand (stands at) }
{
    match at {
        Site::Form => Site::Form,
        Site::Assigned => Site::Assigned,
        Site::Walked | Site::Picked => Site::Walked,
    }
}
