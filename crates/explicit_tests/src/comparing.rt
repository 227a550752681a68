// What the engine answers of the modules of the table, beside what is found by the search.
ghost use Rattle.front_end.specs.Accepted.{IsAccepted};
ghost use Rattle.accepted_systems.specs.Checking.{CanCheck};

use crate::accepting::{accepted, file};
use crate::findings::{Finding, Found, Told, is_among, what_is_told};
use crate::first_modules::FIRST;
use crate::passing::passes;
use crate::records::{invariants, module, options};
use crate::requests::request;
use crate::searching::{Space, search, states_of};
use crate::second_modules::SECOND;
use crate::taking::shows;
use bounded_engine::check_to;
use front_end::{Accepted, Request};
use std::alloc::{AllocError, Global};
use std::test::Fail;
use tla_meaning::{Job, Query};
use tool_outside::MemoryFiles;
use trace_text::Verdict;

// What the search finds in the modules of each table; none differs.
const FIRST_TALLY: &str =
    "clean 54, step wrong 11, step big 4, not true 31, invariant big 0, 11 of these late";

const SECOND_TALLY: &str =
    "clean 54, step wrong 6, step big 2, not true 35, invariant big 3, 6 of these late";

// What comes of a module: both find no error, or this one; or they differ, as the text says.
#[derive(Drop)]
enum Compared {
    Clean,
    Errs(Finding),
    Differs(String),
}

// The search's side of a difference.
fn found_text(alloc: Global, found: &Option<Found>) -> Result<String, AllocError> {
    match found {
        None => String::from_str(alloc, "nothing"),
        Some(found) => format!(in alloc;
            "level {} {:?} at {:?}",
            found.level,
            found.query,
            found.places.first()
        ),
    }
}

fn difference(
    alloc: Global,
    told: Told,
    found: &Option<Found>,
    is_shown: bool,
) -> Result<Compared, AllocError> {
    let found = found_text(alloc, found)?;
    Ok(Compared::Differs(format!(in alloc;
        "told {:?}, found {}, shown {is_shown}",
        told,
        found.as_str()
    )?))
}

fn beside(
    alloc: Global,
    job: &Job,
    width: u32,
    length: u32,
    verdict: &Verdict,
    found: &Option<Found>,
) -> Result<Compared, AllocError> {
    let told = what_is_told(verdict);
    match (told, found) {
        (Told::Clean(level), None) if level == length => Ok(Compared::Clean),
        (Told::Finds(finding), Some(of_search)) => {
            let is_shown = shows(alloc, job, width, finding, verdict)?;
            if is_shown && is_among(of_search, finding) {
                return Ok(Compared::Errs(finding));
            }
            difference(alloc, told, found, is_shown)
        }
        _ => difference(alloc, told, found, false),
    }
}

fn found_in(
    alloc: Global,
    job: &Job,
    width: u32,
    length: u32,
) -> Result<Option<Found>, AllocError> {
    let states = states_of(alloc, job)?;
    let space = Space { job, width, states };
    search(alloc, &space, length)
}

fn beside_engine(
    alloc: Global,
    accepted: &Accepted,
    found: &Option<Found>,
) -> Result<Compared, AllocError>
    requires accepted { IsAccepted accepted.now }
    requires ready { CanCheck accepted.now }
{
    let run = check_to(alloc, accepted, None)?;
    let compared = beside(
        alloc,
        &accepted.job,
        accepted.width,
        accepted.length,
        &run.verdict,
        found,
    );
    drop(run);
    compared
}

fn of_accepted(alloc: Global, accepted: &Accepted) -> Result<Compared, AllocError>
    requires accepted { IsAccepted accepted.now }
    requires ready { CanCheck accepted.now }
{
    let found = found_in(alloc, &accepted.job, accepted.width, accepted.length)?;
    let compared = beside_engine(alloc, accepted, &found);
    drop(found);
    compared
}

fn refused(alloc: Global, line: &[u8]) -> Result<Compared, AllocError> {
    let text = str::from_utf8(line).unwrap_or("refused");
    Ok(Compared::Differs(String::from_str(alloc, text)?))
}

fn of_files(
    alloc: Global,
    request: &Request,
    files: &mut MemoryFiles,
) -> Result<Compared, AllocError> {
    match accepted(alloc, request, files) {
        Ok(accepted) => {
            let compared = of_accepted(alloc, &accepted);
            drop(accepted);
            compared
        }
        Err(line) => refused(alloc, &line),
    }
}

fn files_of(alloc: Global, record: &str) -> Result<MemoryFiles, AllocError> {
    let text = module(alloc, record)?;
    file(alloc, "Row.tla", text.as_str())
}

fn of_request(alloc: Global, request: &Request, record: &str) -> Result<Compared, AllocError> {
    let mut files = files_of(alloc, record)?;
    of_files(alloc, request, &mut files)
}

fn requested(alloc: Global, record: &str) -> Result<Request, AllocError> {
    let (width, length) = options(record);
    let invs = invariants(alloc, record)?;
    request(alloc, "Row.tla", invs.as_str(), None, width, length)
}

// What comes of the module of a record.
fn of_record(alloc: Global, record: &str) -> Result<Compared, AllocError> {
    let request = requested(alloc, record)?;
    let compared = of_request(alloc, &request, record);
    drop(request);
    compared
}

// How many modules agree, by what is found, how many of these err at level 2 or later, and the
// modules that differ.
#[derive(Drop)]
struct Tally {
    clean: usize,
    late: usize,
    step_wrong: usize,
    step_big: usize,
    not_true: usize,
    inv_big: usize,
    differs: String,
}

impl Tally {
    fn new(alloc: Global) -> Tally {
        Tally {
            clean: 0,
            late: 0,
            step_wrong: 0,
            step_big: 0,
            not_true: 0,
            inv_big: 0,
            differs: String::new(alloc),
        }
    }

    fn add_finding(&mut self, finding: Finding) {
        if finding.level >= 2 {
            self.late = self.late.wrapping_add(1);
        }
        match finding.query {
            Query::StepWrong => self.step_wrong = self.step_wrong.wrapping_add(1),
            Query::StepBig => self.step_big = self.step_big.wrapping_add(1),
            Query::InvNotTrue => self.not_true = self.not_true.wrapping_add(1),
            Query::InvBig => self.inv_big = self.inv_big.wrapping_add(1),
            Query::AssumeBig => {}
        }
    }

    fn add(&mut self, record: &str, compared: Compared) -> Result<(), AllocError> {
        match compared {
            Compared::Clean => self.clean = self.clean.wrapping_add(1),
            Compared::Errs(finding) => self.add_finding(finding),
            Compared::Differs(text) => return self.add_difference(text.as_str(), record),
        }
        Ok(())
    }

    fn add_difference(&mut self, text: &str, record: &str) -> Result<(), AllocError> {
        self.differs.push_str(text)?;
        self.differs.push_str("\n")?;
        self.differs.push_str(record)?;
        self.differs.push_str("\n")
    }

    fn text(&self, alloc: Global) -> Result<String, AllocError> {
        format!(in alloc;
            "{}clean {}, step wrong {}, step big {}, not true {}, invariant big {}, {} of these late",
            self.differs.as_str(),
            self.clean,
            self.step_wrong,
            self.step_big,
            self.not_true,
            self.inv_big,
            self.late
        )
    }
}

fn tallied(alloc: Global, table: &str) -> Result<String, AllocError> {
    let mut tally = Tally::new(alloc);
    for record in table.split("\n>") {
        let compared = of_record(alloc, record)?;
        tally.add(record, compared)?;
    }
    tally.text(alloc)
}

#[test]
fn first_modules_agree_with_a_plain_search(rt: HostRuntime) -> Result<(), Fail> {
    passes(&rt, tallied(rt.alloc(), FIRST), FIRST_TALLY)
}

#[test]
fn second_modules_agree_with_a_plain_search(rt: HostRuntime) -> Result<(), Fail> {
    passes(&rt, tallied(rt.alloc(), SECOND), SECOND_TALLY)
}
