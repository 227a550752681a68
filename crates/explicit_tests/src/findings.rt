// What is found: the first question that holds, and where.
use crate::asking::Seen;
use std::alloc::{AllocError, Global};
use tla_meaning::{Place, Query};
use trace_text::{Fault, Part, Verdict, Where};

/// A question that holds at a level, and each place at which an operator is outside its domain or an
/// integer outside the width; none where an invariant is FALSE.
#[derive(Drop)]
pub(crate) struct Found {
    pub level: u32,
    pub query: Query,
    pub places: Vec<Option<Place>>,
}

/// The same at one place.
#[derive(Clone, Copy, Debug, Drop, PartialEq, Eq)]
pub(crate) struct Finding {
    pub level: u32,
    pub query: Query,
    pub place: Option<Place>,
}

/// The places of faults.
#[derive(Drop)]
pub(crate) struct Faults {
    wrong: Vec<Option<Place>>,
    big: Vec<Option<Place>>,
}

fn add_place(places: &mut Vec<Option<Place>>, place: Option<Place>) -> Result<(), AllocError> {
    if !places.contains(&place) {
        places.push(place)?;
    }
    Ok(())
}

impl Faults {
    pub fn new(alloc: Global) -> Faults {
        Faults {
            wrong: Vec::new(alloc),
            big: Vec::new(alloc),
        }
    }

    /// Adds what is Wrong or Big.
    pub fn add(&mut self, seen: Seen) -> Result<(), AllocError> {
        match seen {
            Seen::Wrong(place) => add_place(&mut self.wrong, Some(place)),
            Seen::Big(place) => add_place(&mut self.big, Some(place)),
            _ => Ok(()),
        }
    }

    /// The same, and what is not TRUE among what is Wrong.
    pub fn add_false(&mut self, seen: Seen) -> Result<(), AllocError> {
        if seen == Seen::No {
            return add_place(&mut self.wrong, None);
        }
        self.add(seen)
    }

    /// What is found by the first of two questions that holds: what is Wrong, and what is Big.
    pub fn first(self, level: u32, of_wrong: Query, of_big: Query) -> Option<Found> {
        let Faults { wrong, big } = self;
        if !wrong.is_empty() {
            return Some(Found {
                level,
                query: of_wrong,
                places: wrong,
            });
        }
        if big.is_empty() {
            return None;
        }
        Some(Found {
            level,
            query: of_big,
            places: big,
        })
    }
}

/// What a verdict tells.
#[derive(Clone, Copy, Debug, Drop, PartialEq, Eq)]
pub(crate) enum Told {
    /// No level up to this one errs.
    Clean(u32),
    /// This is found.
    Finds(Finding),
    /// No such answer is to be given to a check of levels without a budget.
    Other,
}

fn finds(level: u32, query: Query, place: Option<Place>) -> Told {
    Told::Finds(Finding {
        level,
        query,
        place,
    })
}

fn of_fault(level: u32, fault: &Fault) -> Told {
    match fault {
        Fault::InvFalse(_) => finds(level, Query::InvNotTrue, None),
        Fault::InvWrong(_, place) => finds(level, Query::InvNotTrue, Some(*place)),
        Fault::StartWrong(place) if level == 0 => finds(level, Query::StepWrong, Some(*place)),
        Fault::StepWrong(place) if level > 0 => finds(level, Query::StepWrong, Some(*place)),
        _ => Told::Other,
    }
}

fn of_part(level: u32, part: &Part, place: Place) -> Told {
    match part {
        Part::Start if level == 0 => finds(level, Query::StepBig, Some(place)),
        Part::Step if level > 0 => finds(level, Query::StepBig, Some(place)),
        Part::Inv(_) => finds(level, Query::InvBig, Some(place)),
        _ => Told::Other,
    }
}

/// What a verdict tells.
pub(crate) fn what_is_told(verdict: &Verdict) -> Told {
    match verdict {
        Verdict::Clean(level) => Told::Clean(*level),
        Verdict::Error(level, fault, _) => of_fault(*level, fault),
        Verdict::Overflow(Where::Level(level), part, place, _) => of_part(*level, part, *place),
        _ => Told::Other,
    }
}

/// Whether this is one of what is found.
pub(crate) fn is_among(found: &Found, finding: Finding) -> bool {
    found.level == finding.level
        && found.query == finding.query
        && found.places.contains(&finding.place)
}
