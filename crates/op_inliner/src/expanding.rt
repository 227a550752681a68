// What is answered of an operator and of a job.
ghost use Rattle.std.specs.Prelude.{◌≡◌, ◌++◌, [], filter, IfOk, IsTrue, length, map, OnOk, option_copied};
ghost use Rattle.tla_meaning.specs.Jobs.{names_of};
ghost use Rattle.tla_meaning.specs.Folds.{with_lambdas};
ghost use Rattle.tla_meaning.specs.Scopes.{find_last};
ghost use Rattle.op_inliner.specs.Answers.{IsAnswered, assume_answer, checked, cinit_answer, expand_answer, invs_answer, job_answer, size, up_to};
ghost use Rattle.op_inliner.specs.Expansion.{assumed, assumptions_expanded, at_first, conjunction_of};
ghost use Rattle.op_inliner.specs.Known.{are_known, arities_of, wants};
ghost use Rattle.op_inliner.specs.Means.{IsJobOf, IsTreeOf, Means};
ghost use Rattle.op_inliner.specs.inner.Building.{Builds};
ghost use Rattle.op_inliner.specs.inner.Expanding.{IsReady, finished, kind_of, use_of};

use crate::bodies::{assumption_of, bodies_of};
use crate::checks::{LEVELS, NODES, checked};
use crate::frames::define_module;
use crate::naming::given_back;
use crate::parts::{InlineFault, PartKind};
use crate::passes::{definitions_counted, nodes_of, nodes_of_assumed};
use crate::scope::{Entry, same_name};
use crate::spots::Spot;
use crate::trees::{Part, Stop};
use std::alloc::{AllocError, Global};
use tla_meaning::{Decl, Def, Expr, Flat, Job, Op, Place};
use tla_values::{List, Text, copy_text, copy_texts};

// A module with what its definitions stand for, what they count and the number of its constants.
#[derive(Clone, Copy)]
pub(crate) struct Module<'a> {
    alloc: Global,
    flat: &'a Flat,
    bodies: &'a [Expr],
    counts: &'a [Entry],
    constants: usize,
}

impl<'a> Module<'a> {
    // The tree that an expression of the module becomes.
    fn finished(self, kind: PartKind, e: &Expr) -> Result<Expr, Stop>
        requires ready { IsReady self }
        ensures { Builds 400 (finished self.entry kind e.now) result }
    {
        let mut frames = Vec::new(self.alloc);
        let scope = define_module(self.flat.defs.as_slice(), self.bodies, &mut frames)?;
        let part = Part {
            alloc: self.alloc,
            kind,
            constants: self.constants,
        };
        let spot = Spot {
            e,
            scope,
            level: 0,
            primes: 0,
        };
        let tree = part.tree(spot, LEVELS, &mut frames)?;
        let mut pairs = Vec::new(self.alloc);
        let whole = given_back(self.alloc, &tree, &mut pairs)?;
        Ok(whole)
    }

    // What is answered of an expression that counts as an operator of this name.
    fn answered(
        self,
        kind: PartKind,
        e: &Expr,
        name: &Text,
        nodes: u64,
    ) -> Result<Expr, InlineFault>
        requires ready { IsReady self }
        requires nodes { nodes ≡ up_to 1000000000000 (size (finished self kind e.now)) }
        ensures { IsAnswered (checked name.now (finished self.entry kind e.now)) result }
    {
        if nodes > NODES {
            let name = copy_text(self.alloc, name)?;
            return Err(InlineFault::TooLarge(name, nodes));
        }
        match self.finished(kind, e) {
            Ok(tree) => checked(self.alloc, name, nodes, tree),
            Err(Stop::Deep) => {
                let name = copy_text(self.alloc, name)?;
                Err(InlineFault::TooDeep(name))
            }
            Err(Stop::Memory(fault)) => Err(InlineFault::Memory(fault)),
        }
    }

    // What is answered of a name in a part.
    fn expanded(self, kind: PartKind, name: &Text) -> Result<Expr, InlineFault>
        requires ready { IsReady self }
        ensures { IsAnswered (expand_answer self.entry.flat.now name.now kind) result }
    {
        if !is_operator(self.flat.defs.as_slice(), name) {
            let name = copy_text(self.alloc, name)?;
            return Err(InlineFault::NoOperator(name));
        }
        let nodes = nodes_of(self.alloc, name, self.counts)?;
        let e = use_of(self.alloc, name)?;
        self.answered(kind, &e, name, nodes)
    }
}

// Whether an operator without parameters has this name.
fn is_operator(defs: &[Def], name: &Text) -> bool
    ensures { result ≡ wants 0 (find_last name.now (arities_of defs.now [])) }
{
    let mut i = defs.len();
    while i > 0 {
        i -= 1;
        let def = &defs[i];
        if same_name(name, &def.name) {
            return def.params.as_slice().is_empty();
        }
    }
    false
}

// The use of a name, where no module wrote it.
fn use_of(alloc: Global, name: &Text) -> Result<Expr, AllocError>
    ensures { IfOk result (λ e. e ≡ use_of name.now) }
{
    let name = copy_text(alloc, name)?;
    Ok(at_first(alloc, Op::Use(name), Vec::new(alloc)))
}

fn at_first(alloc: Global, op: Op, args: Vec<Expr>) -> Expr
    ensures { result ≡ at_first op args.items }
{
    let place = Place {
        file: 0,
        line: 1,
        col: 1,
    };
    Expr {
        place,
        op,
        args: List::from_vec(args),
        binds: List::new(alloc),
    }
}

// The assumptions as one expression.
fn assumed(alloc: Global, flat: &Flat) -> Result<Expr, AllocError>
    ensures { IfOk result (λ e. e ≡ assumed flat.now) }
{
    let mut all = Vec::new(alloc);
    for e in flat.assumes.as_slice() {
        all.push(assumption_of(alloc, e)?)?;
    }
    Ok(conjunction_of(alloc, all))
}

fn conjunction_of(alloc: Global, trees: Vec<Expr>) -> Expr
    ensures { result ≡ conjunction_of trees.items }
{
    let mut trees = trees;
    if trees.len() > 1 {
        return at_first(alloc, Op::And, trees);
    }
    match trees.pop() {
        Some(e) => e,
        None => at_first(alloc, Op::Bool(true), Vec::new(alloc)),
    }
}

fn count_of_constants(decls: &[Decl]) -> usize
    ensures { result ≡ length (filter (λ d. d.constant) decls.now) }
{
    let mut count = 0;
    for decl in decls {
        if decl.constant {
            count += 1;
        }
    }
    count
}

// ---- jobs

impl<'a> Module<'a> {
    fn cinit(self, name: &Option<Text>) -> Result<Expr, InlineFault>
        requires ready { IsReady self }
        ensures { IsAnswered (cinit_answer self.entry.flat.now name.now) result }
    {
        match name {
            Some(name) => self.expanded(PartKind::Constants, name),
            None => Ok(at_first(self.alloc, Op::Bool(true), Vec::new(self.alloc))),
        }
    }

    // The assumptions, which have so many nodes.
    fn assumptions(self, e: &Expr, nodes: u64) -> Result<Expr, InlineFault>
        requires ready { IsReady self }
        requires assumed { e.now ≡ assumed self.flat.now }
        requires nodes { nodes ≡ up_to 1000000000000 (size (assumptions_expanded self.flat.now)) }
        ensures { IsAnswered (assume_answer self.entry.flat.now) result }
    {
        let name = Text::from_vec(Vec::from_slice(self.alloc, b"ASSUME")?);
        self.answered(PartKind::Constants, e, &name, nodes)
    }

    fn invariants(self, names: &[Text]) -> Result<List<(Text, Expr)>, InlineFault>
        requires ready { IsReady self }
        ensures { IsAnswered (invs_answer self.entry.flat.now names.now) result }
    {
        let mut all = Vec::new(self.alloc);
        for name in names {
            let e = self.expanded(PartKind::Inv, name)?;
            let name = copy_text(self.alloc, name)?;
            all.push((name, e))?;
        }
        Ok(List::from_vec(all))
    }
}

// The names of a job's parts.
#[derive(Clone, Copy)]
struct PartNames<'a> {
    init: &'a Text,
    next: &'a Text,
    cinit: &'a Option<Text>,
    invs: &'a [Text],
}

impl<'a> Module<'a> {
    // What is answered of these names, where the assumptions have so many nodes.
    fn job(self, given: &Expr, nodes: u64, names: PartNames) -> Result<Job, InlineFault>
        requires ready { IsReady self }
        requires given { given.now ≡ assumed self.flat.now }
        requires nodes { nodes ≡ up_to 1000000000000 (size (assumptions_expanded self.flat.now)) }
        ensures { IsAnswered (job_answer self.entry.flat.now names.entry.init.now names.entry.next.now names.entry.cinit.now names.entry.invs.now) result }
    {
        let files = copy_texts(self.alloc, &self.flat.files)?;
        let declared = names_of(self.alloc, self.flat)?;
        let aliases = copy_aliases(self.alloc, self.flat.aliases.as_slice())?;
        let cinit = self.cinit(names.cinit)?;
        let assume = self.assumptions(given, nodes)?;
        let init = self.expanded(PartKind::Start, names.init)?;
        let next = self.expanded(PartKind::Step, names.next)?;
        let invs = self.invariants(names.invs)?;
        Ok(Job {
            files,
            names: declared,
            aliases,
            cinit,
            assume,
            init,
            next,
            invs,
        })
    }
}

// The declarations of one kind.
fn push_decls(
    alloc: Global,
    decls: &[Decl],
    constant: bool,
    all: &mut Vec<Decl>,
) -> Result<(), AllocError>
    ensures { OnOk result (all.new.items ≡ all.old.items ++ kind_of constant decls.now) }
{
    for decl in decls {
        if decl.constant == constant {
            all.push(copy_decl(alloc, decl)?)?;
        }
    }
    Ok(())
}

fn copy_decl(alloc: Global, decl: &Decl) -> Result<Decl, AllocError>
    ensures { IfOk result (λ d. d ≡ decl.now) }
{
    let name = copy_text(alloc, &decl.name)?;
    let note = copy_text(alloc, &decl.note)?;
    Ok(Decl {
        name,
        place: decl.place,
        constant: decl.constant,
        note,
    })
}

// The names of a job: constants first.
fn names_of(alloc: Global, flat: &Flat) -> Result<List<Decl>, AllocError>
    ensures { IfOk result (λ ds. ds ≡ names_of flat.now) }
{
    let mut all = Vec::new(alloc);
    push_decls(alloc, flat.decls.as_slice(), true, &mut all)?;
    push_decls(alloc, flat.decls.as_slice(), false, &mut all)?;
    Ok(List::from_vec(all))
}

fn copy_aliases(alloc: Global, aliases: &[(Text, Text)]) -> Result<List<(Text, Text)>, AllocError>
    ensures { IfOk result (λ es. es ≡ aliases.now) }
{
    let mut all = Vec::new(alloc);
    for alias in aliases {
        let name = copy_text(alloc, &alias.0)?;
        let text = copy_text(alloc, &alias.1)?;
        all.push((name, text))?;
    }
    Ok(List::from_vec(all))
}

fn text(alloc: Global, name: &str) -> Result<Text, AllocError>
    ensures { IfOk result (λ t. t ≡ name.now) }
{
    Ok(Text::from_vec(Vec::from_slice(alloc, name.as_bytes())?))
}

fn optional_text(alloc: Global, name: Option<&str>) -> Result<Option<Text>, AllocError>
    ensures { IfOk result (λ t. t ≡ option_copied name.entry) }
{
    match name {
        Some(name) => Ok(Some(text(alloc, name)?)),
        None => Ok(None),
    }
}

/// The tree of an operator of a flat module in a part of a job: each use in it stands for the definition's body with
/// its arguments by name, primes stand at the variables, and UNCHANGED is spelled out. It means what the operator means
/// in the module (Specifying Systems, section 17.1). Of the faults the first counts that `InlineFault` lists.
pub fn expand(alloc: Global, flat: &Flat, name: &str, part: PartKind) -> Result<Expr, InlineFault>
    requires known { IsTrue (are_known flat.now) }
    ensures answer { IsAnswered (expand_answer flat.now name.now part) result }
    ensures means { IfOk result (λ e. IsTreeOf flat.now e × Means flat.now name.now e) }
{
    let defs = flat.defs.as_slice();
    let bodies = bodies_of(alloc, defs)?;
    let counts = definitions_counted(alloc, defs, bodies.as_slice())?;
    let module = Module {
        alloc,
        flat,
        bodies: bodies.as_slice(),
        counts: counts.as_slice(),
        constants: count_of_constants(flat.decls.as_slice()),
    };
    let name = text(alloc, name)?;
    module.expanded(part, &name)
}

/// The job of these names of a flat module: CInit or TRUE, the assumptions, Init, Next and the invariants in their
/// order, each expanded as a part of its own. It has the module's files and aliases, and its names with the constants
/// first. The first part that is refused, in this order, is the one whose fault is answered.
pub fn job_of(
    alloc: Global,
    flat: &Flat,
    init: &str,
    next: &str,
    cinit: Option<&str>,
    invs: &List<Text>,
) -> Result<Job, InlineFault>
    requires known { IsTrue (are_known flat.now) }
    ensures answer { IsAnswered
        (job_answer flat.now init.now next.now (option_copied cinit.entry) invs.now) result }
    ensures means { IfOk result
        (IsJobOf flat.now init.now next.now (option_copied cinit.entry) invs.now) }
{
    let defs = flat.defs.as_slice();
    let bodies = bodies_of(alloc, defs)?;
    let mut counts = definitions_counted(alloc, defs, bodies.as_slice())?;
    let assumptions = assumed(alloc, flat)?;
    let nodes = nodes_of_assumed(alloc, &assumptions, &mut counts)?;
    let module = Module {
        alloc,
        flat,
        bodies: bodies.as_slice(),
        counts: counts.as_slice(),
        constants: count_of_constants(flat.decls.as_slice()),
    };
    let init = text(alloc, init)?;
    let next = text(alloc, next)?;
    let cinit = optional_text(alloc, cinit)?;
    let invariants = invs.as_slice();
    let names = PartNames {
        init: &init,
        next: &next,
        cinit: &cinit,
        invs: invariants,
    };
    module.job(&assumptions, nodes, names)
}
