// What a tree asks of its types: its nodes are visited one by one. Begin with `visit`.
ghost use Rattle.std.specs.Prelude.{◌≡◌, ◌+◌, ◌++◌, ◌∷◌, [], ◌<◌, IfOk, OnOk, drop, length, map};
ghost use Rattle.snowcat_types.specs.Rows.{with_bound};
ghost use Rattle.snowcat_types.specs.Systems.{all_wait, fields_asked, operands_meet, under_first, visit};
ghost use Rattle.snowcat_types.specs.inner.Built.{context_of, means, operand_of, scope_of};
ghost use Rattle.snowcat_types.specs.inner.Gathered.{AllNamedIn, EntriesNamed, IsNamed, TypesNamed, entries_of, requirements_of};
ghost use Rattle.snowcat_types.specs.inner.Named.{GatheringNamed, OperandsNamed, ScopeNamed};
ghost use Rattle.snowcat_types.specs.inner.Visiting.{IsClosed, IsOpened, Visited};

use crate::around::{Around, row_count, row_of};
use crate::forms::Operand;
use crate::gathered::{Entry, Requirement};
use crate::undecided::{literal_of, number_behind, waits_of};
use crate::waiting::{Sight, Wait};
use snowcat_rows::{Ty, copy_type};
use std::alloc::{AllocError, Global};
use tla_meaning::{Expr, Op};
use tla_values::{List, Text, copy_text};

/// What is gathered so far.
#[derive(Drop)]
pub struct Gathering {
    pub around: Around,
    /// The first unknown type that no node has.
    pub next: u32,
    /// The types of the nodes of one part.
    pub types: Vec<Ty>,
    pub entries: Vec<Entry>,
    /// The parts that are done.
    pub parts: Vec<List<Ty>>,
}

/// What the node above must know of a node.
#[derive(Drop)]
pub struct Seen {
    pub of: Ty,
    pub sight: Sight,
}

/// The same of several nodes.
#[derive(Drop)]
pub struct AllSeen {
    pub types: Vec<Ty>,
    pub sights: Vec<Sight>,
}

/// A node whose children are visited.
#[derive(Drop)]
pub struct Opened {
    /// Where its type stands.
    pub at: usize,
    /// Its first unknown type.
    pub first: u32,
    pub operands: List<Operand>,
}

impl AllSeen {
    fn new(alloc: Global) -> AllSeen
        ensures { (result.types.items ≡ []) × (result.sights.items ≡ []) }
    {
        AllSeen {
            types: Vec::new(alloc),
            sights: Vec::new(alloc),
        }
    }

    fn push(&mut self, seen: Seen) -> Result<(), AllocError>
        ensures { OnOk result ((self.new.types.items ≡ self.old.types.items ++ seen.of ∷ [])
            × (self.new.sights.items ≡ self.old.sights.items ++ seen.sight ∷ [])) }
    {
        let Seen { of, sight } = seen;
        self.types.push(of)?;
        self.sights.push(sight)?;
        Ok(())
    }
}

// What the node binds in its `i`-th child.
fn under(operands: &[Operand], i: usize) -> &[(Text, Ty)]
    ensures scope { scope_of result.now ≡ under_first (drop i (map operand_of operands.now)) }
    ensures named { OperandsNamed operands.now → ScopeNamed result.now }
{
    if i < operands.len() {
        operands[i].under.as_slice()
    } else {
        &[]
    }
}

// Each operand has the type that the table asks.
fn equals(
    alloc: Global,
    operands: List<Operand>,
    types: Vec<Ty>,
) -> Result<Vec<Requirement>, AllocError>
    ensures asked { IfOk result (λ rs. requirements_of rs.items
        ≡ operands_meet (map operand_of operands) (means types.items)) }
    ensures named { OperandsNamed operands → TypesNamed types.items
        → IfOk result (λ rs. AllNamedIn rs.items) }
{
    let mut asked = Vec::new(alloc);
    for (operand, of) in operands.into_vec().into_iter().zip(types) {
        asked.push(Requirement::Equal(operand.of, of))?;
    }
    Ok(asked)
}

// A field is asked for besides.
fn push_field(
    asked: &mut Vec<Requirement>,
    alloc: Global,
    op: &Op,
    first: u32,
) -> Result<(), AllocError>
    ensures asked { OnOk result (requirements_of asked.new.items
        ≡ requirements_of asked.old.items ++ fields_asked op.now first) }
    ensures named { AllNamedIn asked.old.items → OnOk result (AllNamedIn asked.new.items) }
{
    if let Op::Field(name) = op {
        let name = copy_text(alloc, name)?;
        let field = number_behind(first, 1)?;
        asked.push(Requirement::FieldOf(first, name, field))?;
    }
    Ok(())
}

// What a node of this operator asks.
fn asks(
    alloc: Global,
    op: &Op,
    first: u32,
    operands: List<Operand>,
    types: Vec<Ty>,
) -> Result<List<Requirement>, AllocError>
    ensures asked { IfOk result (λ rs. requirements_of rs
        ≡ operands_meet (map operand_of operands) (means types.items)
        ++ fields_asked op.now first) }
    ensures named { OperandsNamed operands → TypesNamed types.items
        → IfOk result (λ rs. AllNamedIn rs) }
{
    let mut asked = equals(alloc, operands, types)?;
    push_field(&mut asked, alloc, op, first)?;
    Ok(List::from_vec(asked))
}

// These names are bound too.
fn bind(bound: &mut Vec<(Text, Ty)>, alloc: Global, names: &[(Text, Ty)]) -> Result<(), AllocError>
    ensures bound { OnOk result (bound.new.items ≡ bound.old.items ++ names.now) }
    ensures named { ScopeNamed bound.old.items → ScopeNamed names.now
        → OnOk result (ScopeNamed bound.new.items) }
{
    for name in names {
        let of = copy_type(alloc, &name.1)?;
        let name = copy_text(alloc, &name.0)?;
        bound.push((name, of))?;
    }
    Ok(())
}

fn push_waits(entries: &mut Vec<Entry>, waits: Vec<Wait>) -> Result<(), AllocError>
    ensures added { OnOk result (entries_of entries.new.items
        ≡ entries_of entries.old.items ++ all_wait waits.items) }
    ensures named { EntriesNamed entries.old.items → OnOk result (EntriesNamed entries.new.items) }
{
    for wait in waits {
        entries.push(Entry::Waits(wait))?;
    }
    Ok(())
}

impl Gathering {
    // The node has its type and its unknown types.
    fn open(&mut self, alloc: Global, e: &Expr) -> Result<Opened, AllocError>
        ensures opened { IfOk result (λ o. IsOpened self.old self.new e.now o) }
        ensures named { GatheringNamed self.old
            → IfOk result (λ o. GatheringNamed self.new × OperandsNamed o.operands) }
    {
        let first = self.next;
        let at = self.types.len();
        let count = row_count(&self.around, e)?;
        let next = number_behind(first, count)?;
        let row = row_of(alloc, &self.around, e, first)?;
        self.types.push(row.result)?;
        self.next = next;
        Ok(Opened {
            at,
            first,
            operands: row.operands,
        })
    }

    // What the node itself adds, behind its children.
    fn close(
        &mut self,
        alloc: Global,
        e: &Expr,
        opened: Opened,
        children: AllSeen,
    ) -> Result<Seen, AllocError>
        requires { opened.at < length self.old.types.items }
        ensures closed { IfOk result (λ s. IsClosed self.old self.new e.now opened children s) }
        ensures named { GatheringNamed self.old → OperandsNamed opened.operands
            → TypesNamed children.types.items
            → IfOk result (λ s. GatheringNamed self.new × IsNamed s.of) }
    {
        let Opened {
            at,
            first,
            operands,
        } = opened;
        let AllSeen { types, sights } = children;
        let asked = asks(alloc, &e.op, first, operands, types)?;
        self.entries.push(Entry::Asks(e.place, asked))?;
        let waits = waits_of(alloc, e.place, &e.op, first, sights.as_slice())?;
        push_waits(&mut self.entries, waits)?;
        let literal = literal_of(alloc, &e.op, sights.as_slice())?;
        let of = copy_type(alloc, &self.types[at])?;
        let sight = Sight {
            place: e.place,
            literal,
        };
        Ok(Seen { of, sight })
    }
}

// A child of a node that binds these names in it.
#[cycle(trees)]
fn visit_under(
    e: &Expr,
    alloc: Global,
    names: &[(Text, Ty)],
    whole: &mut Gathering,
) -> Result<Seen, AllocError>
    ensures visited { IfOk result (λ s. Visited whole.old whole.new
        (visit e.now whole.old.next
        (with_bound (scope_of names.now) (context_of whole.old.around))) s) }
    ensures named { GatheringNamed whole.old → ScopeNamed names.now
        → IfOk result (λ s. GatheringNamed whole.new × IsNamed s.of) }
{
    let outside = whole.around.bound.len();
    bind(&mut whole.around.bound, alloc, names)?;
    let seen = visit(e, alloc, whole)?;
    whole.around.bound.truncate(outside);
    Ok(seen)
}

/// Adds what the tree asks, its unknown types being the next ones.
#[cycle(trees)]
pub(crate) fn visit(e: &Expr, alloc: Global, whole: &mut Gathering) -> Result<Seen, AllocError>
    ensures visited { IfOk result (λ s. Visited whole.old whole.new
        (visit e.now whole.old.next (context_of whole.old.around)) s) }
    ensures named { GatheringNamed whole.old
        → IfOk result (λ s. GatheringNamed whole.new × IsNamed s.of) }
{
    let opened = whole.open(alloc, e)?;
    let mut children = AllSeen::new(alloc);
    let trees = e.args.as_slice();
    for i in 0..trees.len() {
        let names = under(opened.operands.as_slice(), i);
        let seen = visit_under(&trees[i], alloc, names, whole)?;
        children.push(seen)?;
    }
    let node = whole.close(alloc, e, opened, children)?;
    Ok(node)
}
