//! The cells of a case: of each name in a state and in the next one, and of its tree.

ghost use Rattle.cell_arena.specs.Growth.{Grows};
ghost use Rattle.expr_rewriter.specs.Rewriting.{CanRewrite, texts_in};
ghost use Rattle.kernel_trees.specs.Systems.{sound_job};
ghost use Rattle.rewriting_tests.specs.Cases.{HasCells, HasKind, HaveKinds, IsSoundIn};
ghost use Rattle.rewriting_tests.specs.inner.Among.{AreAmong};
ghost use Rattle.std.specs.Prelude.{◌<◌, ◌∷◌, ◌≡◌, ◌≤◌, IfOk, IfSome, IsTrue, Some, [], map};
ghost use Rattle.typed_cells.specs.KindSorts.{OfType};
ghost use Rattle.rewriting_tests.specs.OfTypes.{OfTypes};

use crate::given::{Freedom, Given};
use crate::shapes::bounded_tree;
use crate::texts::{is_text_among, is_tree_among};
use crate::value_cells::value_cell;
use cell_arena::{Build, CellId, all_differ};
use cell_merge::choose_cell;
use expr_rewriter::{CellEnv, Cells, rewrite};
use kernel_trees::{Ker, KerJob};
use sat_formula::Lit;
use snowcat_rows::Ty;
use std::alloc::{AllocError, Global};
use tla_values::{List, Text};

/// The texts of all cases: the empty one, names of fields, and literals.
const TEXTS: &str = " a b c s t u id";

/// How many literals are free from the start: one for each name, which has its first value where that is true, and a
/// last one, which turns these for the next state.
pub const FREE: usize = 4;

/// How many there are.
#[derive(Clone, Copy, Drop, PartialEq, Eq)]
pub struct Size {
    pub variables: usize,
    pub clauses: usize,
    pub cells: usize,
}

/// The cells of a case, and what those of its tree have added.
#[derive(Drop)]
pub struct Setting {
    pub b: Build,
    pub env: CellEnv,
    pub found: Cells,
    pub added: Size,
}

fn case_texts(alloc: Global) -> Result<List<Text>, AllocError> {
    let mut texts = List::new(alloc);
    for word in TEXTS.split(" ") {
        let text = Text::from_vec(Vec::from_slice(alloc, word.as_bytes())?);
        texts.push(text)?;
    }
    Ok(texts)
}

// A build of these texts, of which the first literals are free.
#[tactic(auto, using(cell_arena::proofs::Growing::growing))]
fn begun(alloc: Global, texts: &List<Text>, width: u32) -> Result<Build, AllocError>
    requires from { 4 ≤ width }
    requires to { width ≤ 64 }
    ensures { IfOk result (λ b. b.arena.texts ≡ texts.now) }
{
    if !all_differ(texts.as_slice()) {
        return Err(AllocError);
    }
    let mut b = Build::new(alloc, texts, width)?;
    free_literals(&mut b)?;
    Ok(b)
}

#[tactic(auto, using(cell_arena::proofs::Growing::growing))]
fn free(b: &mut Build) -> Result<Lit, AllocError>
    ensures { Grows b.old b.new }
{
    let l = b.formula.fresh()?;
    Ok(l)
}

#[tactic(auto, using(cell_arena::proofs::Growing::growing))]
fn free_literals(b: &mut Build) -> Result<(), AllocError>
    ensures { Grows b.old b.new }
{
    for _i in 0..FREE {
        let _l = free(b)?;
    }
    Ok(())
}

// A build to which the texts of the tree belong; none where one is no text of the cases.
fn begun_for(alloc: Global, k: &Ker, width: u32) -> Result<Option<Build>, AllocError>
    requires from { 4 ≤ width }
    requires to { width ≤ 64 }
    ensures { IfOk result (λ o. IfSome o (λ b. AreAmong b.arena.texts ([] ∷ texts_in k.now))) }
{
    let texts = case_texts(alloc)?;
    let words = texts.as_slice();
    let empty = Text::from_vec(Vec::new(alloc));
    if !is_text_among(&empty, words) || !is_tree_among(k, words) {
        return Ok(None);
    }
    let b = begun(alloc, &texts, width)?;
    Ok(Some(b))
}

// The literal under which the name has its first value.
#[tactic(auto, using(cell_arena::proofs::Growing::growing))]
fn name_literal(b: &mut Build, name: usize, turned: bool) -> Result<Lit, AllocError>
    ensures below { IfOk result (λ l. l.var < b.new.formula.vars) }
    ensures grows { Grows b.old b.new }
{
    let var = name.wrapping_add(1);
    if var >= FREE || FREE >= b.formula.vars() {
        return Err(AllocError);
    }
    let l = Lit { var, neg: false };
    if !turned {
        return Ok(l);
    }
    let turn = Lit {
        var: FREE,
        neg: false,
    };
    let x = b.formula.xor(l, turn)?;
    Ok(x)
}

// A cell of the second value, which is that of the first where results alone are free.
#[tactic(auto, using(cell_arena::proofs::Growing::growing))]
fn second_cell(
    b: &mut Build,
    ty: &Ty,
    given: &Given,
    name: usize,
    first: CellId,
) -> Result<CellId, AllocError>
    requires { OfType b.old.arena.kinds ty.now first }
    ensures cell { IfOk result (OfType b.new.arena.kinds ty.now) }
    ensures grows { Grows b.old b.new }
{
    let Some(v) = given.seconds.as_slice().get(name) else {
        return Err(AllocError);
    };
    match given.free {
        Freedom::Results => Ok(first),
        Freedom::Lowest => {
            let id = value_cell(b, v, ty, Freedom::Lowest)?;
            Ok(id)
        }
        Freedom::Nothing => {
            let id = value_cell(b, v, ty, Freedom::Nothing)?;
            Ok(id)
        }
    }
}

// The cell of the first value where the literal is true, and else that of the second.
#[tactic(auto, using(cell_arena::proofs::Growing::growing))]
fn chosen(b: &mut Build, ty: &Ty, l: Lit, x: CellId, y: CellId) -> Result<CellId, AllocError>
    requires kind { HasKind ty.now }
    requires below { l.var < b.old.formula.vars }
    requires first { OfType b.old.arena.kinds ty.now x }
    requires second { OfType b.old.arena.kinds ty.now y }
    ensures cell { IfOk result (OfType b.new.arena.kinds ty.now) }
    ensures grows { Grows b.old b.new }
{
    let id = choose_cell(b, l, x, y)?;
    Ok(id)
}

// A cell of a name in a state, or where its literal is turned in the next one.
#[tactic(auto, using(cell_arena::proofs::Growing::growing))]
fn name_cell(
    b: &mut Build,
    ty: &Ty,
    given: &Given,
    name: usize,
    turned: bool,
) -> Result<CellId, AllocError>
    requires { HasKind ty.now }
    ensures cell { IfOk result (OfType b.new.arena.kinds ty.now) }
    ensures grows { Grows b.old b.new }
{
    let Some(v) = given.firsts.as_slice().get(name) else {
        return Err(AllocError);
    };
    let x = value_cell(b, v, ty, given.free)?;
    let y = second_cell(b, ty, given, name, x)?;
    let l = name_literal(b, name, turned)?;
    let id = chosen(b, ty, l, x, y)?;
    Ok(id)
}

#[tactic(auto, using(cell_arena::proofs::Growing::growing))]
fn name_cells(
    b: &mut Build,
    types: &[Ty],
    given: &Given,
    turned: bool,
) -> Result<Vec<CellId>, AllocError>
    requires { HaveKinds types.now }
    ensures cells { IfOk result (λ cs. OfTypes b.new.arena.kinds types.now cs.items) }
    ensures grows { Grows b.old b.new }
{
    let mut cells = Vec::new(b.arena.alloc());
    for i in 0..types.len() {
        let id = name_cell(b, &types[i], given, i, turned)?;
        cells.push(id)?;
    }
    Ok(cells)
}

fn present(alloc: Global, ids: &[CellId]) -> Result<List<Option<CellId>>, AllocError>
    ensures { IfOk result (λ l. l ≡ map Some ids.now) }
{
    let mut out = Vec::new(alloc);
    for id in ids {
        out.push(Some(*id))?;
    }
    Ok(List::from_vec(out))
}

// A cell of each name in a state, and another one in the next state.
#[tactic(auto, using(cell_arena::proofs::Growing::growing))]
fn environment(b: &mut Build, types: &[Ty], given: &Given) -> Result<CellEnv, AllocError>
    requires { HaveKinds types.now }
    ensures cells { IfOk result (HasCells b.new.arena.kinds types.now) }
    ensures grows { Grows b.old b.new }
{
    let alloc = b.arena.alloc();
    let now = name_cells(b, types, given, false)?;
    let later = name_cells(b, types, given, true)?;
    let next = present(alloc, later.as_slice())?;
    Ok(CellEnv {
        now: List::from_vec(now),
        next,
        bound: List::new(alloc),
    })
}

fn measure(b: &Build) -> Size {
    Size {
        variables: b.formula.vars(),
        clauses: b.formula.clauses().clauses().len(),
        cells: b.arena.len(),
    }
}

// What one size has beyond another.
fn beyond(after: Size, before: Size) -> Size {
    Size {
        variables: after.variables.saturating_sub(before.variables),
        clauses: after.clauses.saturating_sub(before.clauses),
        cells: after.cells.saturating_sub(before.cells),
    }
}

// The cells of the tree, and what they add.
#[tactic(auto, using(cell_arena::proofs::Growing::growing))]
fn measured(b: &mut Build, k: &Ker, env: &CellEnv) -> Result<(Cells, Size), AllocError>
    requires { CanRewrite b.old k.now env.now }
{
    let before = measure(b);
    let found = rewrite(b, k, env)?;
    let added = beyond(measure(b), before);
    Ok((found, added))
}

// The cells of a tree of the kernel over a build that has its texts.
fn cells_in(
    mut b: Build,
    kernel: &KerJob,
    k: &Ker,
    given: &Given,
) -> Result<Option<Setting>, AllocError>
    requires sound { IsSoundIn kernel.now k.now }
    requires texts { AreAmong b.arena.texts ([] ∷ texts_in k.now) }
{
    let env = environment(&mut b, kernel.names.as_slice(), given)?;
    let (found, added) = measured(&mut b, k, &env)?;
    Ok(Some(Setting {
        b,
        env,
        found,
        added,
    }))
}

// None where its texts are none of the cases'.
fn rewritten(
    alloc: Global,
    kernel: &KerJob,
    k: &Ker,
    given: &Given,
    width: u32,
) -> Result<Option<Setting>, AllocError>
    requires from { 4 ≤ width }
    requires to { width ≤ 64 }
    requires sound { IsSoundIn kernel.now k.now }
{
    match begun_for(alloc, k, width)? {
        Some(b) => cells_in(b, kernel, k, given),
        None => Ok(None),
    }
}

/// The cells of a case at this width; none where its tree cannot be asked.
pub fn set_up(
    alloc: Global,
    kernel: &KerJob,
    given: &Given,
    width: u32,
) -> Result<Option<Setting>, AllocError>
    requires sound { IsTrue (sound_job kernel.now) }
    requires from { 4 ≤ width }
    requires to { width ≤ 64 }
{
    match bounded_tree(alloc, kernel, given.free, width)? {
        Some(k) => {
            let setting = rewritten(alloc, kernel, &k, given, width);
            drop(k);
            setting
        }
        None => Ok(None),
    }
}
