// What a job asks of its types: begin with `gather` at the end.
ghost use Rattle.std.specs.Prelude.{◌≡◌, ◌+◌, ◌++◌, ◌∷◌, [], IfOk, OnOk, length, map};
ghost use Rattle.snowcat_rows.specs.Types.{mean};
ghost use Rattle.snowcat_types.specs.Requirements.{Equal};
ghost use Rattle.snowcat_types.specs.Systems.{Asks, count_declared, declared_types, names_from, parts_of, system};
ghost use Rattle.snowcat_types.specs.TypeForms.{bool_type};
ghost use Rattle.snowcat_types.specs.inner.Built.{means};
ghost use Rattle.snowcat_types.specs.inner.Gathered.{AllNamedIn, DeclaredNamed, EntryNamed, IsNamed, NotesNamed, RequirementNamed, SystemNamed, ToldNamed, TypesNamed, annotations_of, entry_of, requirements_of, system_of_built};
ghost use Rattle.snowcat_types.specs.inner.Named.{GatheringNamed};
ghost use Rattle.snowcat_types.specs.inner.Visiting.{AddsParts, AreDeclared, IsStart};

use crate::around::Around;
use crate::gathered::{Entry, Requirement, System};
use crate::told::Told;
use crate::trees::{Gathering, Seen, visit};
use crate::undecided::number_behind;
use snowcat_rows::{Ty, copy_moved};
use std::alloc::{AllocError, Global};
use std::mem;
use tla_meaning::{Expr, Job};
use tla_values::{List, Text};

// ---- declared names

/// What is asked of the unknown types of the declared names, and the first unknown type
/// behind those of their annotations.
#[derive(Drop)]
pub struct Names {
    pub asked: Vec<Requirement>,
    pub next: u32,
}

fn names_of(alloc: Global, n: usize) -> Result<Vec<Ty>, AllocError>
    ensures mean { IfOk result (λ ts. means ts.items ≡ names_from 0 n) }
    ensures named { IfOk result (λ ts. TypesNamed ts.items) }
{
    let mut names = Vec::new(alloc);
    for i in 0..n {
        let v = number_behind(0, i)?;
        names.push(Ty::Var(v))?;
    }
    Ok(names)
}

// The unknown type of that number is this type, whose variables are unknown types from `first` on.
fn declared_type(
    alloc: Global,
    of: &Ty,
    first: u32,
    number: usize,
) -> Result<Requirement, AllocError>
    ensures asked { IfOk result (λ r. requirements_of (r ∷ [])
        ≡ declared_types number first ((mean of.now, 0) ∷ [])) }
    ensures named { IsNamed of.now → IfOk result (λ r. RequirementNamed r) }
{
    let number = number_behind(0, number)?;
    let of = copy_moved(alloc, of, first)?;
    Ok(Requirement::Equal(of, Ty::Var(number)))
}

fn declared_names(alloc: Global, declared: &[(Ty, u32)]) -> Result<Names, AllocError>
    ensures asked { IfOk result (λ n. AreDeclared declared.now n) }
    ensures named { DeclaredNamed declared.now → IfOk result (λ n. AllNamedIn n.asked.items) }
{
    let mut asked = Vec::new(alloc);
    let mut next = number_behind(0, declared.len())?;
    for i in 0..declared.len() {
        let told = &declared[i];
        let one = declared_type(alloc, &told.0, next, i)?;
        asked.push(one)?;
        next = later(next, told.1)?;
    }
    Ok(Names { asked, next })
}

fn later(v: u32, n: u32) -> Result<u32, AllocError>
    ensures { IfOk result (λ k. k ≡ v + n) }
{
    match v.checked_add(n) {
        Some(k) => Ok(k),
        None => Err(AllocError),
    }
}

// ---- the parts

// A part with this root is a truth value.
fn root_asks(alloc: Global, root: Seen) -> Result<Entry, AllocError>
    ensures asked { IfOk result (λ e. entry_of e
        ≡ Asks root.sight.place (Equal bool_type (mean root.of) ∷ [])) }
    ensures named { IsNamed root.of → IfOk result (λ e. EntryNamed e) }
{
    let place = root.sight.place;
    let asked = vec![in alloc; Requirement::Equal(Ty::Bool, root.of)]?;
    Ok(Entry::Asks(place, List::from_vec(asked)))
}

impl Gathering {
    // A part: nothing is bound around it.
    fn add_part(&mut self, alloc: Global, e: &Expr) -> Result<(), AllocError>
        ensures added { OnOk result (AddsParts self.old self.new (e.now ∷ [])) }
        ensures named { GatheringNamed self.old → OnOk result (GatheringNamed self.new) }
    {
        self.types.clear();
        let root = visit(e, alloc, self)?;
        let asked = root_asks(alloc, root)?;
        self.entries.push(asked)?;
        let types = mem::replace(&mut self.types, Vec::new(alloc));
        self.parts.push(List::from_vec(types))?;
        Ok(())
    }

    fn add_invariants(&mut self, alloc: Global, invs: &[(Text, Expr)]) -> Result<(), AllocError>
        ensures added { OnOk result (AddsParts self.old self.new (map (λ v. v.1) invs.now)) }
        ensures named { GatheringNamed self.old → OnOk result (GatheringNamed self.new) }
    {
        for inv in invs {
            self.add_part(alloc, &inv.1)?;
        }
        Ok(())
    }

    fn add_job(&mut self, alloc: Global, job: &Job) -> Result<(), AllocError>
        ensures added { OnOk result (AddsParts self.old self.new (parts_of job.now)) }
        ensures named { GatheringNamed self.old → OnOk result (GatheringNamed self.new) }
    {
        self.add_part(alloc, &job.cinit)?;
        self.add_part(alloc, &job.assume)?;
        self.add_part(alloc, &job.init)?;
        self.add_part(alloc, &job.next)?;
        self.add_invariants(alloc, job.invs.as_slice())?;
        Ok(())
    }
}

fn nothing(alloc: Global, notes: List<(Text, Option<Ty>)>, next: u32) -> Gathering
    ensures start { IsStart result notes next }
    ensures named { NotesNamed notes → GatheringNamed result }
{
    Gathering {
        around: Around {
            notes,
            bound: Vec::new(alloc),
        },
        next,
        types: Vec::new(alloc),
        entries: Vec::new(alloc),
        parts: Vec::new(alloc),
    }
}

/// The unknown types of the job, and what is asked of them. 2^32 unknown types are want of memory.
pub(crate) fn gather(alloc: Global, told: Told, job: &Job) -> Result<System, AllocError>
    requires named { ToldNamed told }
    ensures system { IfOk result (λ s. system_of_built s ≡ system (annotations_of told) job.now) }
    ensures named { IfOk result (λ s. SystemNamed s) }
{
    let Told { declared, notes } = told;
    let count = declared.as_slice().len();
    let named = declared_names(alloc, declared.as_slice())?;
    let names = names_of(alloc, count)?;
    let mut whole = nothing(alloc, notes, named.next);
    whole.add_job(alloc, job)?;
    Ok(System {
        count: whole.next,
        declared: List::from_vec(named.asked),
        entries: List::from_vec(whole.entries),
        names: List::from_vec(names),
        parts: List::from_vec(whole.parts),
    })
}
