// The notes in the trees of a job.
ghost use Rattle.std.specs.Prelude.{◌≤◌, ◌∷◌, [], Contains, IfOk, IsTrue, MatchResult, OnOk, length, map};
ghost use Rattle.snowcat_rows.specs.Views.{known_by};
ghost use Rattle.snowcat_types.specs.Annotated.{all_notes, notes_in, own_note};
ghost use Rattle.snowcat_types.specs.Systems.{parts_of};
ghost use Rattle.snowcat_types.specs.inner.Telling.{Heeds, HearsBesides, IsSettled, Learns, texts};

use crate::earliest::earlier;
use crate::saying::said;
use snowcat_rows::{Aliases, Ty};
use std::alloc::{AllocError, Global};
use std::cmp::Ordering;
use tla_meaning::{Expr, Job, Op, Place};
use tla_values::{Text, copy_text};

/// What the texts of notes bind, and the least place of an annotation that is no type. The texts are in the order of
/// their bytes, on which nothing but the time depends.
#[derive(Drop)]
pub struct Heard {
    pub known: Vec<(Text, Option<Ty>)>,
    pub worst: Option<Place>,
}

// Where the text stands, or where it is to be put.
fn find(known: &[(Text, Option<Ty>)], text: &Text) -> Result<usize, usize>
    ensures { MatchResult result (λ i. (i ≤ length known.now) × Contains (texts known.now) text.now)
        (λ i. i ≤ length known.now) }
{
    let mut low = 0;
    let mut high = known.len();
    while low < high {
        let middle = low + (high - low) / 2;
        match text.bytes().cmp(known[middle].0.bytes()) {
            Ordering::Less => high = middle,
            Ordering::Equal => return Ok(middle),
            Ordering::Greater => low = middle + 1,
        }
    }
    Err(low)
}

impl Heard {
    // Each text is read once, and where an annotation is bad those at no lesser place need not be read.
    fn is_settled(&self, text: &Text, place: Place) -> bool
        ensures { IsTrue result → IsSettled self.now text.now place }
    {
        if find(self.known.as_slice(), text).is_ok() {
            return true;
        }
        match self.worst {
            Some(worst) => !place.is_before(worst),
            None => false,
        }
    }

    fn learn(&mut self, text: Text, binds: Option<Ty>) -> Result<(), AllocError>
        ensures { OnOk result (Learns self.old (text, binds) self.new) }
    {
        let at = match find(self.known.as_slice(), &text) {
            Ok(i) => i,
            Err(i) => i,
        };
        self.known.insert(at, (text, binds))?;
        Ok(())
    }

    fn hear(
        &mut self,
        alloc: Global,
        aliases: &Aliases,
        text: &Text,
        place: Place,
    ) -> Result<(), AllocError>
        ensures { OnOk result
            (HearsBesides (known_by aliases.now) self.old ((text.now, place) ∷ []) self.new) }
    {
        if self.is_settled(text, place) {
            return Ok(());
        }
        let name = copy_text(alloc, text)?;
        match said(alloc, aliases, text.bytes())? {
            Some(binds) => {
                self.learn(name, binds)?;
                Ok(())
            }
            None => {
                self.worst = Some(earlier(self.worst, place));
                Ok(())
            }
        }
    }

    fn hear_node(
        &mut self,
        alloc: Global,
        aliases: &Aliases,
        op: &Op,
        place: Place,
    ) -> Result<(), AllocError>
        ensures { OnOk result
            (HearsBesides (known_by aliases.now) self.old (own_note op.now place) self.new) }
    {
        match op {
            Op::Noted(text) => {
                self.hear(alloc, aliases, text, place)?;
                Ok(())
            }
            _ => Ok(()),
        }
    }

    #[cycle(trees)]
    fn hear_tree(&mut self, alloc: Global, aliases: &Aliases, e: &Expr) -> Result<(), AllocError>
        ensures { OnOk result
            (HearsBesides (known_by aliases.now) self.old (notes_in e.now) self.new) }
    {
        self.hear_node(alloc, aliases, &e.op, e.place)?;
        self.hear_trees(alloc, aliases, e.args.as_slice())?;
        Ok(())
    }

    #[cycle(trees)]
    fn hear_trees(
        &mut self,
        alloc: Global,
        aliases: &Aliases,
        trees: &[Expr],
    ) -> Result<(), AllocError>
        ensures { OnOk result
            (HearsBesides (known_by aliases.now) self.old (all_notes trees.now) self.new) }
    {
        for e in trees {
            self.hear_tree(alloc, aliases, e)?;
        }
        Ok(())
    }

    fn hear_invariants(
        &mut self,
        alloc: Global,
        aliases: &Aliases,
        invs: &[(Text, Expr)],
    ) -> Result<(), AllocError>
        ensures { OnOk result (HearsBesides (known_by aliases.now) self.old
            (all_notes (map (λ v. v.1) invs.now)) self.new) }
    {
        for inv in invs {
            self.hear_tree(alloc, aliases, &inv.1)?;
        }
        Ok(())
    }

    fn hear_job(&mut self, alloc: Global, aliases: &Aliases, job: &Job) -> Result<(), AllocError>
        ensures { OnOk result (HearsBesides (known_by aliases.now) self.old
            (all_notes (parts_of job.now)) self.new) }
    {
        let cinit = self.hear_tree(alloc, aliases, &job.cinit)?;
        let assume = self.hear_tree(alloc, aliases, &job.assume)?;
        let init = self.hear_tree(alloc, aliases, &job.init)?;
        let next = self.hear_tree(alloc, aliases, &job.next)?;
        self.hear_invariants(alloc, aliases, job.invs.as_slice())?;
        Ok(())
    }
}

/// What the notes in the trees of the job bind, where `worst` is the least place of a bad name.
pub fn hear_job(
    alloc: Global,
    aliases: &Aliases,
    job: &Job,
    worst: Option<Place>,
) -> Result<Heard, AllocError>
    ensures { IfOk result (Heeds (known_by aliases.now) worst (all_notes (parts_of job.now))) }
{
    let mut heard = Heard {
        known: Vec::new(alloc),
        worst,
    };
    heard.hear_job(alloc, aliases, job)?;
    Ok(heard)
}
