// The tree of a definition, with the names of levels, built from its root on and no deeper than it may be.
ghost use Rattle.std.specs.Prelude.{◌≡◌, ◌≤◌, ◌++◌, ◌∷◌, [], alloc_error, replicate, false, suc, true, IfOk, IfSome, None, OnOk, Some, length};
ghost use Rattle.tla_meaning.specs.declared.expr.Expr.{out-Expr};
ghost use Rattle.tla_meaning.specs.declared.op.Op.TheVariants.{And as conjunction, Angled as angled, Boxed as boxed, Eq as equals, Not as negation, Or as disjunction, Tuple as tuple};
ghost use Rattle.tla_meaning.specs.Meaning.{except_marks, role};
ghost use Rattle.op_inliner.specs.declared.parts.PartKind.TheVariants.{Step as next_step};
ghost use Rattle.tla_meaning.specs.Scopes.{find_last};
ghost use Rattle.op_inliner.specs.declared.trees.Stop.TheVariants.{Memory as wants_memory};
ghost use Rattle.op_inliner.specs.Inlining.{level_name, level_names, new_name};
ghost use Rattle.op_inliner.specs.Primes.{inner_node, name_at, stays, variable_at};
ghost use Rattle.op_inliner.specs.inner.Building.{Builds, BuildsAll, IsChild, IsNode, IsOpened, binds_at, child_trees, equation_of, first, is_plain, kept_children, marks_in, op_at, seen, spot_of};
ghost use Rattle.op_inliner.specs.inner.Frames.{levelled, names_at};
ghost use Rattle.op_inliner.specs.inner.Spots.{aside};

use crate::frames::{Frame, bind, find_level};
use crate::parts::PartKind;
use crate::spots::{Spot, below_notes, root};
use std::alloc::{AllocError, AllocFailed, Global};
use tla_meaning::{Expr, Form, Op, Place, copy_op};
use tla_values::{List, Text, copy_texts};

// Why no tree is built.
#[derive(Drop)]
pub(crate) enum Stop {
    // It has more levels.
    Deep,
    Memory(AllocError),
}

impl From<AllocError> for Stop {
    ghost from_gives = { λ _ e. e ≡ wants_memory alloc_error };

    fn from(_: AllocError) -> Self {
        Stop::Memory(AllocError)
    }
}

impl<T: Drop> From<AllocFailed<T>> for Stop {
    ghost from_gives = { λ _ e. e ≡ wants_memory alloc_error };

    fn from(_: AllocFailed<T>) -> Self {
        Stop::Memory(AllocError)
    }
}

// The part of a job that is built, in a module with so many constants.
#[derive(Clone, Copy)]
pub(crate) struct Part {
    pub(crate) alloc: Global,
    pub(crate) kind: PartKind,
    pub(crate) constants: usize,
}

// A node, with the spot of its children and that of those under its bound names, which are marked.
#[derive(Drop)]
pub(crate) struct Node<'a> {
    outer: Spot<'a>,
    inner: Spot<'a>,
    marks: Vec<bool>,
}

fn child<'a>(spot: Spot<'a>, e: &'a Expr) -> Spot<'a>
    ensures { IsChild spot.entry e.now result }
{
    Spot {
        e,
        scope: spot.scope,
        level: spot.level,
        primes: spot.primes,
    }
}

fn single(alloc: Global, place: Place, op: Op, operand: Expr) -> Result<Expr, AllocError>
    ensures { IfOk result (λ e. e ≡ inner_node place op (operand ∷ [])) }
{
    let mut args = Vec::new(alloc);
    args.push(operand)?;
    Ok(Expr {
        place,
        op,
        args: List::from_vec(args),
        binds: List::new(alloc),
    })
}

fn double(
    alloc: Global,
    place: Place,
    op: Op,
    first: Expr,
    second: Expr,
) -> Result<Expr, AllocError>
    ensures { IfOk result (λ e. e ≡ inner_node place op (first ∷ second ∷ [])) }
{
    let mut args = Vec::new(alloc);
    args.push(first)?;
    args.push(second)?;
    Ok(Expr {
        place,
        op,
        args: List::from_vec(args),
        binds: List::new(alloc),
    })
}

// ---- names of levels

fn level_name(alloc: Global, level: u16, name: &Text) -> Result<Text, AllocError>
    ensures { IfOk result (λ t. t ≡ level_name level name.now) }
{
    let mut bytes = Vec::new(alloc);
    bytes.push((level / 256) as u8)?;
    bytes.push((level % 256) as u8)?;
    bytes.extend_from_slice(name.bytes())?;
    Ok(Text::from_vec(bytes))
}

fn level_names(alloc: Global, level: u16, names: &[Text]) -> Result<List<Text>, AllocError>
    ensures { IfOk result (λ ts. ts ≡ level_names level names.now) }
{
    let mut all = Vec::new(alloc);
    for name in names {
        all.push(level_name(alloc, level, name)?)?;
    }
    Ok(List::from_vec(all))
}

// The name of a bound name's level; one that is not bound has none.
fn bound_name(
    alloc: Global,
    name: &Text,
    scope: usize,
    frames: &[Frame],
) -> Result<Text, AllocError>
    requires scope { scope ≤ length frames.now }
    ensures { IfOk result (λ t. t ≡ new_name (find_last name.now (names_at frames.now scope).bound)) }
{
    match find_level(name, scope, frames) {
        Some(level) => level_name(alloc, level, name),
        None => Ok(Text::from_vec(Vec::new(alloc))),
    }
}

fn binds_at(alloc: Global, spot: Spot) -> Result<List<Text>, AllocError>
    ensures { IfOk result (λ ts. ts ≡ binds_at spot.entry.level (out-Expr spot.entry.e.now).op (out-Expr spot.entry.e.now).binds) }
{
    match &spot.e.op {
        Op::Bound(_) => copy_texts(alloc, &spot.e.binds),
        _ => level_names(alloc, spot.level, spot.e.binds.as_slice()),
    }
}

// ---- which children stand under bound names

fn add_behind(n: usize, marks: &mut Vec<bool>) -> Result<(), AllocError>
    ensures { OnOk result (marks.new.items ≡ marks.old.items ++ (replicate n false ++ true ∷ [])) }
{
    for _ in 0..n {
        marks.push(false)?;
    }
    marks.push(true)?;
    Ok(())
}

fn except_marks(alloc: Global, counts: &[usize]) -> Result<Vec<bool>, AllocError>
    ensures { IfOk result (λ v. v.items ≡ false ∷ except_marks counts.now) }
{
    let mut marks = Vec::new(alloc);
    marks.push(false)?;
    for n in counts {
        add_behind(*n, &mut marks)?;
    }
    Ok(marks)
}

pub(crate) fn marks(alloc: Global, op: &Op, n: usize) -> Result<Vec<bool>, AllocError>
    ensures { IfOk result (λ v. v.items ≡ marks_in (role op.now n)) }
{
    match op {
        Op::Exists | Op::Forall | Op::Filter | Op::MapTo | Op::Lambda => {
            let mut marks = Vec::new(alloc);
            add_behind(n, &mut marks)?;
            Ok(marks)
        }
        Op::Fold => {
            let mut marks = Vec::new(alloc);
            marks.push(true)?;
            Ok(marks)
        }
        Op::Except(counts) => except_marks(alloc, counts.as_slice()),
        _ => Ok(Vec::new(alloc)),
    }
}

// ---- primes

fn step_variable(i: usize, primes: usize) -> Op
    ensures { result ≡ variable_at next_step i primes }
{
    if primes == 0 {
        Op::Name(i, false)
    } else if primes == 1 {
        Op::Name(i, true)
    } else {
        Op::Outside(Form::DoublePrime)
    }
}

// A variable under so many primes.
fn variable_at(kind: PartKind, i: usize, primes: usize) -> Op
    ensures { result ≡ variable_at kind i primes }
{
    match kind {
        PartKind::Step => step_variable(i, primes),
        PartKind::Constants => {
            if primes == 0 {
                Op::Outside(Form::Variable)
            } else {
                Op::Outside(Form::Prime)
            }
        }
        PartKind::Start | PartKind::Inv => {
            if primes == 0 {
                Op::Name(i, false)
            } else {
                Op::Outside(Form::Prime)
            }
        }
    }
}

impl Part {
    fn name_at(self, i: usize, primed: bool, primes: usize) -> Result<Op, AllocError>
        ensures { IfOk result (λ o. o ≡ name_at self.kind (first self.constants) i primed primes) }
    {
        if i < self.constants {
            return Ok(Op::Name(i, false));
        }
        if !primed {
            return Ok(variable_at(self.kind, i, primes));
        }
        match primes.checked_add(1) {
            Some(primes) => Ok(variable_at(self.kind, i, primes)),
            None => Err(AllocError),
        }
    }

    // The operator of the node at a spot.
    fn op_at(self, spot: Spot, frames: &[Frame]) -> Result<Op, AllocError>
        requires scope { spot.scope ≤ length frames.now }
        ensures { IfOk result (λ o. o ≡ op_at self (names_at frames.now spot.entry.scope) spot.entry.primes (out-Expr spot.entry.e.now).op) }
    {
        match &spot.e.op {
            Op::Name(i, primed) => self.name_at(*i, *primed, spot.primes),
            Op::Bound(name) => {
                let name = bound_name(self.alloc, name, spot.scope, frames)?;
                Ok(Op::Bound(name))
            }
            op => copy_op(self.alloc, op),
        }
    }
}

impl Part {
    // The tree of a spot.
    #[cycle(tree)]
    pub(crate) fn tree<'a>(
        self,
        spot: Spot<'a>,
        left: usize,
        frames: &mut Vec<Frame<'a>>,
    ) -> Result<Expr, Stop>
        requires scope { spot.scope ≤ length frames.old.items }
        ensures built { Builds left (seen self frames.old.items spot.entry).tree result }
        ensures kept { OnOk result (frames.new.items ≡ frames.old.items) }
    {
        let outside = frames.len();
        let spot = root(spot, frames)?;
        let tree = self.rooted(spot, left, frames)?;
        frames.truncate(outside);
        Ok(tree)
    }

    // The tree of a node.
    #[cycle(tree)]
    fn rooted<'a>(
        self,
        spot: Spot<'a>,
        left: usize,
        frames: &mut Vec<Frame<'a>>,
    ) -> Result<Expr, Stop>
        requires scope { spot.scope ≤ length frames.old.items }
        requires root { aside spot ≡ false }
        ensures built { Builds left (seen self frames.old.items spot.entry).tree result }
        ensures kept { OnOk result (frames.new.items ≡ frames.old.items) }
    {
        let place = spot.e.place;
        match (&spot.e.op, spot.e.args.as_slice()) {
            (Op::Unchanged, [v]) => {
                let kept = child(spot, v);
                self.kept(kept, place, left, frames)
            }
            (Op::Boxed, [action, v]) => {
                let either = child(spot, action);
                let or_kept = child(spot, v);
                self.boxed(either, or_kept, place, left, frames)
            }
            (Op::Angled, [action, v]) => {
                let both = child(spot, action);
                let and_changed = child(spot, v);
                self.angled(both, and_changed, place, left, frames)
            }
            _ => self.node(spot, left, frames),
        }
    }

    // `[A]_v`: A or UNCHANGED v.
    #[cycle(tree)]
    fn boxed<'a>(
        self,
        action: Spot<'a>,
        v: Spot<'a>,
        place: Place,
        left: usize,
        frames: &mut Vec<Frame<'a>>,
    ) -> Result<Expr, Stop>
        requires action { action.scope ≤ length frames.old.items }
        requires v { v.scope ≤ length frames.old.items }
        ensures built { Builds left
            (inner_node place disjunction ((seen self frames.old.items action.entry).tree ∷ (seen self frames.old.items v.entry).kept place ∷ [])) result }
        ensures kept { OnOk result (frames.new.items ≡ frames.old.items) }
    {
        if left == 0 {
            return Err(Stop::Deep);
        }
        let first = self.tree(action, left - 1, frames)?;
        let second = self.kept(v, place, left - 1, frames)?;
        let whole = double(self.alloc, place, Op::Or, first, second)?;
        Ok(whole)
    }

    // `<<A>>_v`: A, and v changes.
    #[cycle(tree)]
    fn angled<'a>(
        self,
        action: Spot<'a>,
        v: Spot<'a>,
        place: Place,
        left: usize,
        frames: &mut Vec<Frame<'a>>,
    ) -> Result<Expr, Stop>
        requires action { action.scope ≤ length frames.old.items }
        requires v { v.scope ≤ length frames.old.items }
        ensures built { Builds left
            (inner_node place conjunction ((seen self frames.old.items action.entry).tree ∷ inner_node place negation ((seen self frames.old.items v.entry).kept place ∷ []) ∷ [])) result }
        ensures kept { OnOk result (frames.new.items ≡ frames.old.items) }
    {
        if left == 0 {
            return Err(Stop::Deep);
        }
        let first = self.tree(action, left - 1, frames)?;
        let second = self.changed(v, place, left - 1, frames)?;
        let whole = double(self.alloc, place, Op::And, first, second)?;
        Ok(whole)
    }

    #[cycle(tree)]
    fn changed<'a>(
        self,
        v: Spot<'a>,
        place: Place,
        left: usize,
        frames: &mut Vec<Frame<'a>>,
    ) -> Result<Expr, Stop>
        requires v { v.scope ≤ length frames.old.items }
        ensures built { Builds left (inner_node place negation ((seen self frames.old.items v.entry).kept place ∷ [])) result }
        ensures kept { OnOk result (frames.new.items ≡ frames.old.items) }
    {
        if left == 0 {
            return Err(Stop::Deep);
        }
        let kept = self.kept(v, place, left - 1, frames)?;
        let whole = single(self.alloc, place, Op::Not, kept)?;
        Ok(whole)
    }

    // A node that is no other tree's.
    #[cycle(tree)]
    fn node<'a>(
        self,
        spot: Spot<'a>,
        left: usize,
        frames: &mut Vec<Frame<'a>>,
    ) -> Result<Expr, Stop>
        requires scope { spot.scope ≤ length frames.old.items }
        requires root { aside spot ≡ false }
        requires plain { is_plain (out-Expr spot.e.now).op (out-Expr spot.e.now).args ≡ true }
        ensures built { Builds left (seen self frames.old.items spot.entry).tree result }
        ensures kept { OnOk result (frames.new.items ≡ frames.old.items) }
    {
        if left == 0 {
            return Err(Stop::Deep);
        }
        let outside = frames.len();
        let op = self.op_at(spot, frames.as_slice())?;
        let binds = binds_at(self.alloc, spot)?;
        let node = self.opened(spot, frames)?;
        let args = self.children(&node, left - 1, frames)?;
        frames.truncate(outside);
        Ok(Expr {
            place: spot.e.place,
            op,
            args,
            binds,
        })
    }

    // A node with its bound names in scope.
    fn opened<'a>(self, spot: Spot<'a>, frames: &mut Vec<Frame<'a>>) -> Result<Node<'a>, AllocError>
        requires scope { spot.scope ≤ length frames.old.items }
        ensures { IfOk result (IsOpened frames.old.items frames.new.items spot.entry) }
    {
        let names = spot.e.binds.as_slice();
        let marks = marks(self.alloc, &spot.e.op, names.len())?;
        let Some(level) = spot.level.checked_add(1) else {
            return Err(AllocError);
        };
        let scope = bind(names, spot.level, spot.scope, frames)?;
        let inner = Spot {
            e: spot.e,
            scope,
            level,
            primes: spot.primes,
        };
        Ok(Node {
            outer: spot,
            inner,
            marks,
        })
    }

    #[cycle(tree)]
    fn children<'a>(
        self,
        node: &Node<'a>,
        left: usize,
        frames: &mut Vec<Frame<'a>>,
    ) -> Result<List<Expr>, Stop>
        requires { IsNode frames.old.items node.now }
        ensures built { BuildsAll left (child_trees self frames.old.items node.now) result }
        ensures kept { OnOk result (frames.new.items ≡ frames.old.items) }
    {
        let mut all = Vec::new(self.alloc);
        let args = node.outer.e.args.as_slice();
        for i in 0..args.len() {
            let spot = node.child(i, &args[i]);
            all.push(self.tree(spot, left, frames)?)?;
        }
        Ok(List::from_vec(all))
    }

    // ---- UNCHANGED

    // The tree of UNCHANGED of a spot, at a place.
    #[cycle(tree)]
    fn kept<'a>(
        self,
        spot: Spot<'a>,
        place: Place,
        left: usize,
        frames: &mut Vec<Frame<'a>>,
    ) -> Result<Expr, Stop>
        requires scope { spot.scope ≤ length frames.old.items }
        ensures built { Builds left ((seen self frames.old.items spot.entry).kept place) result }
        ensures kept { OnOk result (frames.new.items ≡ frames.old.items) }
    {
        let outside = frames.len();
        let top = root(spot, frames)?;
        let below = below_notes(top, frames)?;
        let tree = match below.e.op {
            Op::Tuple => self.kept_tuple(below, place, left, frames)?,
            Op::Noted(_) | Op::Prime => self.kept_nothing(place, left)?,
            _ => self.equation(top, place, left, frames)?,
        };
        frames.truncate(outside);
        Ok(tree)
    }

    // UNCHANGED without its operand.
    fn kept_nothing(self, place: Place, left: usize) -> Result<Expr, Stop>
        ensures { Builds left (stays place) result }
    {
        if left == 0 {
            return Err(Stop::Deep);
        }
        Ok(Expr {
            place,
            op: Op::Unchanged,
            args: List::new(self.alloc),
            binds: List::new(self.alloc),
        })
    }

    // `v' = v`.
    #[cycle(tree)]
    fn equation<'a>(
        self,
        v: Spot<'a>,
        place: Place,
        left: usize,
        frames: &mut Vec<Frame<'a>>,
    ) -> Result<Expr, Stop>
        requires scope { v.scope ≤ length frames.old.items }
        ensures built { Builds left (equation_of self frames.old.items v.entry place) result }
        ensures kept { OnOk result (frames.new.items ≡ frames.old.items) }
    {
        if left == 0 {
            return Err(Stop::Deep);
        }
        let Some(primes) = v.primes.checked_add(1) else {
            return Err(Stop::Memory(AllocError));
        };
        let next = Spot {
            e: v.e,
            scope: v.scope,
            level: v.level,
            primes,
        };
        let first = self.tree(next, left - 1, frames)?;
        let second = self.tree(v, left - 1, frames)?;
        let whole = double(self.alloc, place, Op::Eq, first, second)?;
        Ok(whole)
    }

    // The conjunction of UNCHANGED of the items of a tuple.
    #[cycle(tree)]
    fn kept_tuple<'a>(
        self,
        tuple: Spot<'a>,
        place: Place,
        left: usize,
        frames: &mut Vec<Frame<'a>>,
    ) -> Result<Expr, Stop>
        requires scope { tuple.scope ≤ length frames.old.items }
        ensures built { Builds left (inner_node place conjunction (kept_children self frames.old.items tuple.entry place)) result }
        ensures kept { OnOk result (frames.new.items ≡ frames.old.items) }
    {
        if left == 0 {
            return Err(Stop::Deep);
        }
        let args = self.kept_items(tuple, place, left - 1, frames)?;
        Ok(Expr {
            place,
            op: Op::And,
            args,
            binds: List::new(self.alloc),
        })
    }

    #[cycle(tree)]
    fn kept_items<'a>(
        self,
        tuple: Spot<'a>,
        place: Place,
        left: usize,
        frames: &mut Vec<Frame<'a>>,
    ) -> Result<List<Expr>, Stop>
        requires scope { tuple.scope ≤ length frames.old.items }
        ensures built { BuildsAll left (kept_children self frames.old.items tuple.entry place) result }
        ensures kept { OnOk result (frames.new.items ≡ frames.old.items) }
    {
        let mut all = Vec::new(self.alloc);
        for item in tuple.e.args.as_slice() {
            let spot = child(tuple, item);
            all.push(self.kept(spot, place, left, frames)?)?;
        }
        Ok(List::from_vec(all))
    }
}

impl<'a> Node<'a> {
    // The spot of the child of this number.
    fn child(&self, i: usize, e: &'a Expr) -> Spot<'a>
        ensures { IsChild (spot_of self.now i) e.now result }
    {
        match self.marks.as_slice().get(i) {
            Some(true) => child(self.inner, e),
            _ => child(self.outer, e),
        }
    }
}
