//! Set forms of cells.

ghost use Rattle.cell_arena.specs.Cells.{Cells as Arena};
ghost use Rattle.cell_arena.specs.declared.build.Build.{Build};
ghost use Rattle.cell_merge.specs.Sorts.{Sort, set_of};
ghost use Rattle.form_cells.specs.FormSorts.{AreForms};
ghost use Rattle.form_cells.specs.FormValues.{ShowsForm};
ghost use Rattle.outcome_cells.specs.Shows.{AreCells, Shows, ShowsFault};
ghost use Rattle.std.specs.Prelude.{Bool, List as AnyList};
ghost use Rattle.tla_meaning.specs.Forms.{Formed, form_fault};
ghost use Rattle.tla_meaning.specs.Meaning.{plain as plain_form};
ghost use Rattle.tla_meaning.specs.declared.outcome.Outcome.{Outcome};

use cell_arena::CellId;
use outcome_cells::{Cells, Faults};
use sat_formula::Lit;
use tla_values::{Boxed, List, Text};

/// A set form, over the cells of the sets of which it is made (Specifying Systems, section 16.1).
#[derive(Drop)]
pub enum Form {
    /// The set of a cell.
    Plain(CellId),
    /// `Int`.
    Ints,
    /// `Nat`.
    Nats,
    /// `STRING`.
    Texts,
    /// `Seq(F)`.
    Sequences(Boxed<Form>),
    /// `SUBSET F`.
    Subsets(Boxed<Form>),
    /// `[S -> F]`, where S is the set of a cell.
    Functions(CellId, Boxed<Form>),
    /// `[a: F, b: G]`.
    Records(List<Text>, List<Form>),
    /// `F \X G`.
    Tuples(List<Form>),
}

/// A form, and literals that are true where there is a fault in its place.
#[derive(Drop)]
pub struct FormCells {
    pub form: Form,
    pub wrong: Lit,
    pub big: Lit,
}

impl FormCells {
    /// The set of the cells as a form, under the same faults.
    pub fn of_set(x: Cells) -> FormCells
        ensures shows { (c : Arena) (a : AnyList Bool) (o : Outcome) → Shows c a x o → ShowsForm c a result (plain_form o) }
        ensures sort { (b : Build) (s : Sort) → AreCells b (set_of s) x → AreForms b s result }
    {
        FormCells {
            form: Form::Plain(x.cell),
            wrong: x.wrong,
            big: x.big,
        }
    }

    /// The literals alone: they show the fault of what the form shows.
    pub fn faults(&self) -> Faults
        ensures { (c : Arena) (a : AnyList Bool) (o : Formed) → ShowsForm c a self.now o → ShowsFault a result (form_fault o) }
    {
        Faults {
            wrong: self.wrong,
            big: self.big,
        }
    }
}
