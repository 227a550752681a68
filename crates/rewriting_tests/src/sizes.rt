//! What expressions add to a formula, as engineers write them: variables, clauses and cells, at width 16.

ghost use Rattle.kernel_trees.specs.Systems.{sound_job};
ghost use Rattle.std.specs.Prelude.{IsTrue};

use crate::given::{Freedom, Given, names_given};
use crate::jobs::{job_in, kernel_in};
use crate::reports::{ended, passes, put_line, unlike};
use crate::settings::{Size, set_up};
use kernel_trees::KerJob;
use std::alloc::{AllocError, Global};
use std::test::Fail;
use tla_meaning::Job;

// An expression over N members, arguments or places a line, and what it adds at the first number: a larger number is to
// be looked at. Members and arguments are known; whether they are there, truth values and numbers elsewhere are free.
const SIZES: &str =
    r#"x: Int -> Int = (lambda [i] (range 1 N) i) | (forall [i] (range 1 N) (ge (apply x i) 0)) ==> 114 466 26 linear
x: Int -> Int = (lambda [i] (range 1 N) i); y: Int = 3 | (exists [i] (range 1 N) (eq (apply x i) y)) ==> 250 1114 17 linear
x: Set(Int) = (range 1 N); y: Int = 2 | (filter [i] x (gt i y)) ==> 119 365 9 linear
x: Set(Int) = (range 1 N) | (map [i] x <i TRUE>) ==> 0 0 10 linear
x: Set({a: Str, b: Int}) = (map [i] (range 1 N) (record [a b] "s" i)); y: Int = 2 | (cup x {(record [a b] "t" y)}) ==> 0 0 4 linear
x: Set({a: Str, b: Int}) = (map [i] (range 1 N) (record [a b] "s" i)); y: Int = 2 | (exists [m] x (and (eq (field [a] m) "s") (eq (field [b] m) y))) ==> 17 169 10 linear
x: Set({a: Str, b: Int}) = (map [i] (range 1 N) (record [a b] "s" i)); y: Int = 2 | (filter [m] x (eq (field [b] m) y)) ==> 16 160 9 linear
x: Int -> Int = (lambda [i] (range 1 N) i); y: Int = 3 | (except:1 [1] x y (add @ 1)) ==> 290 1260 17 linear
x: Int -> Int = (lambda [i] (range 1 N) i); y: Int = 3 | (lambda [i] (range 1 N) (if (eq i y) 1 (apply x i))) ==> 257 1001 25 linear
x: Int -> {a: Int -> Int} = (lambda [i] (range 1 N) (record [a] (lambda [j] {1 2} i))); y: Int = 3 | (except:1 [3] x y "a" 2 (add @ 1)) ==> 561 2343 65 linear
x: Int -> Int = (lambda [i] (range 1 N) i) | (in x (funset (range 1 N) (nat))) ==> 123 493 10 linear
x: Seq(Int) = (noted [0 Seq(Int)] <1 2 3>) | (fold [s i] (add s i) 0 x) ==> 99 393 3 linear
x: Set(Int) = (range 1 N) | (in 3 x) ==> 0 0 1 linear
x: Set(Int) = (range 1 N) | (subseteq x (range 1 N)) ==> 0 0 2 linear
x: Int -> Int = (lambda [i] (range 1 N) i) | (eq (domain x) (range 1 N)) ==> 1 9 3 linear
x: Set(Int) = (range 1 N) | (cardinality x) ==> 34 119 1 not linear"#;

// Over more of them.
const LARGE: &str =
    r#"x: Set(Int) = (range 1 N); y: Int = 2 | (filter [i] x (gt i y)) ==> 119 365 9 linear"#;

// The numbers of members of an expression, in ascending order.
#[derive(Clone, Copy, Drop)]
struct Members {
    few: usize,
    more: usize,
    many: usize,
}

const SMALL: Members = Members {
    few: 8,
    more: 16,
    many: 64,
};

const WIDE: Members = Members {
    few: 8,
    more: 64,
    many: 512,
};

fn added_given(alloc: Global, kernel: &KerJob, given: &Given) -> Result<Size, AllocError>
    requires { IsTrue (sound_job kernel.now) }
{
    match set_up(alloc, kernel, given, 16)? {
        Some(setting) => {
            let size = setting.added;
            drop(setting);
            Ok(size)
        }
        None => Err(AllocError),
    }
}

fn added(alloc: Global, kernel: &KerJob, job: &Job) -> Result<Size, AllocError>
    requires { IsTrue (sound_job kernel.now) }
{
    let given = names_given(alloc, job, kernel.names.len(), 16, Freedom::Results)?;
    let size = added_given(alloc, kernel, &given);
    drop(given);
    size
}

fn added_job(alloc: Global, job: &Job) -> Result<Size, AllocError> {
    match kernel_in(alloc, job)? {
        Some(kernel) => {
            let size = added(alloc, &kernel, job);
            drop(kernel);
            size
        }
        None => Err(AllocError),
    }
}

// What the expression of a line adds where N is this number.
fn added_at(alloc: Global, line: &str, n: usize) -> Result<Size, AllocError> {
    let number = format!(in alloc; "{n}")?;
    let text = line.replace(alloc, "N", number.as_str())?;
    let job = job_in(alloc, text.as_str())?;
    let size = added_job(alloc, &job);
    drop(job);
    size
}

// Whether a number grows by at most as much for each member further on as before: equal gates and
// cells are made once.
fn is_linear(members: Members, few: usize, more: usize, many: usize) -> bool {
    let before = members.more.wrapping_sub(members.few);
    let behind = members.many.wrapping_sub(members.more);
    many.wrapping_sub(more).wrapping_mul(before) <= more.wrapping_sub(few).wrapping_mul(behind)
}

fn are_linear(members: Members, few: Size, more: Size, many: Size) -> bool {
    is_linear(members, few.variables, more.variables, many.variables)
        && is_linear(members, few.clauses, more.clauses, many.clauses)
        && is_linear(members, few.cells, more.cells, many.cells)
}

// The numbers at few members, and how they grow.
fn sizes(alloc: Global, line: &str, members: Members) -> Result<String, AllocError> {
    let few = added_at(alloc, line, members.few)?;
    let more = added_at(alloc, line, members.more)?;
    let many = added_at(alloc, line, members.many)?;
    let word = if are_linear(members, few, more, many) {
        "linear"
    } else {
        "not linear"
    };
    let Size {
        variables,
        clauses,
        cells,
    } = few;
    format!(in alloc; "{variables} {clauses} {cells} {word}")
}

// The lines whose sizes are others.
fn report(alloc: Global, table: &str, members: Members) -> Result<String, AllocError> {
    let mut out = String::new(alloc);
    let mut cases: usize = 0;
    for row in table.lines() {
        let (line, want) = row.split_once(" ==> ").unwrap_or((row, ""));
        let found = sizes(alloc, line, members)?;
        put_line(alloc, row, unlike(found.as_str(), want), &mut out)?;
        cases = cases.wrapping_add(1);
    }
    ended(alloc, &mut out, cases)?;
    Ok(out)
}

#[test]
fn expressions_add_what_they_did(rt: HostRuntime) -> Result<(), Fail> {
    passes(&rt, report(rt.alloc(), SIZES, SMALL), "16 cases")
}

#[test]
fn a_filter_over_512_members_is_linear(rt: HostRuntime) -> Result<(), Fail> {
    passes(&rt, report(rt.alloc(), LARGE, WIDE), "1 cases")
}
