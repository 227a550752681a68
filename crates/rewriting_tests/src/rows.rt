//! Expressions with what they give, and expressions of which nothing can be wrong or too big.

ghost use Rattle.kernel_trees.specs.Systems.{sound_job};
ghost use Rattle.std.specs.Prelude.{◌≤◌, IsTrue};

use crate::agreeing::shown;
use crate::decoding::extended;
use crate::given::{Freedom, Given, names_given};
use crate::jobs::{job_in, kernel_in};
use crate::reports::{ended, passes, put_line, unlike};
use crate::settings::{Setting, set_up};
use kernel_trees::KerJob;
use std::alloc::{AllocError, Global};
use std::str;
use std::test::Fail;
use tla_meaning::Job;

// What they give by the language, at width 8: where each name has the first of its values, and the second.
const ROWS: &str =
    r#"x: Int -> Int = (lambda [i] (range 1 3) i) | (eq (apply x 9) 0) ==> wrong; wrong
x: Int -> Int = (lambda [i] (range 1 3) i) | (not (and (in 9 (domain x)) (eq (apply x 9) 1))) ==> TRUE; TRUE
x: Int -> Int = (lambda [i] (range 1 3) i) | (exists [i] (range 1 4) (eq (apply x i) 1)) ==> wrong; wrong
x: Int -> Int = (lambda [i] (range 1 3) i) | (exists [i] (range 1 3) (eq (apply x i) 1)) ==> TRUE; TRUE
x: Int = 0 or 1 | (eq (div 1 x) 2) ==> wrong; FALSE
x: Int = 0 or 1 | (in x' {}) ==> FALSE; FALSE
x: Int -> Int = (lambda [i] (range 1 3) i) or (lambda [i] (range 9 9) 1) | (eq (except [1] x 9 0) x) ==> TRUE; FALSE
x: Int = 1 or 2 | (eq (cardinality {1 x}) 1) ==> TRUE; FALSE
x: Int -> Int = (lambda [i] {1} 1) or (lambda [i] {1} 2) | (eq (domain x) {1}) ==> TRUE; TRUE
x: Int -> Int = (lambda [i] {1} 1) or (lambda [i] {1} 2) | (eq (apply x 1) 1) ==> TRUE; FALSE
x: Int -> Int = (lambda [i] {1} 1) or (lambda [i] {1} 2) | (in x' (funset {(apply x 1) 1} (range 1 2))) ==> TRUE; FALSE
x: Bool = TRUE or FALSE | (forall [s] (powerset (range 1 8)) x) ==> TRUE; FALSE
x: Int -> Bool = (lambda [i] (range 1 40) TRUE) or (lambda [i] (range 1 40) (lt i 7)) | (forall [i] (range 1 40) (in (apply x i) (boolean))) ==> TRUE; TRUE
x: Int -> Bool = (lambda [i] (range 1 40) TRUE) or (lambda [i] (range 1 39) TRUE) | (in x' (funset (range 1 40) (boolean))) ==> TRUE; FALSE
x: Int = 4 or 5 | (eq (mod x 2) 0) ==> TRUE; FALSE
x: Int = 3 or 5 | (ne x 5) ==> TRUE; FALSE
x: Int = 7 or 127 | (gt (add x 1) x) ==> TRUE; big
x: Set(Int) = (range 1 40) or (range 1 41) | (forall [i] x (le i 40)) ==> TRUE; FALSE
x: Seq(Int) = (noted [0 Seq(Int)] <1 2>) or (noted [0 Seq(Int)] <1 2 3>) | (and (lt (len x) 4) (eq (head (tail x)) 2)) ==> TRUE; TRUE
x: Seq(Int) = (noted [0 Seq(Int)] <1 2 3 3>) or (noted [0 Seq(Int)] <1>) | (and (lt (len x) 4) (eq (head (tail x)) 2)) ==> FALSE; wrong
x: Seq(Int) = (noted [0 Seq(Int)] <1 2>) or (noted [0 Seq(Int)] <1 2 3>) | (eq (tail (tail (tail x))) <>) ==> wrong; TRUE
x: Seq(Int) = (noted [0 Seq(Int)] <1 2>) or (noted [0 Seq(Int)] <>) | (append x 3) ==> <<1, 2, 3>>; <<3>>
x: Int = 120 or 127 | (add x 1) ==> 121; big
x: Int = 0 or 1 | (or (eq x 0) (eq (div 1 x) 2)) ==> TRUE; FALSE
x: Int = 0 or 1 | (add (div 1 x) (add 127 1)) ==> wrong; big
x: Int -> {a: Int, b: Bool} = (lambda [i] {1 2} (record [a b] i TRUE)) or (lambda [i] {2} (record [b a] FALSE 3)) | (except:1 [2] x 1 "a" (add @ 4)) ==> <<[a |-> 5, b |-> TRUE], [a |-> 2, b |-> TRUE]>>; (2 :> [a |-> 3, b |-> FALSE])
x: Seq(Int) = (noted [0 Seq(Int)] <1 2 3>) or (noted [0 Seq(Int)] <100 27 1>) | (fold [s i] (add s i) 0 x) ==> 6; big
x: Bool = TRUE or FALSE | (forall [s] (powerset (range 1 16)) x) ==> TRUE; FALSE"#;

// At width 4.
const NARROW: &str = r#"x: Int = 6 or 7 | (gt (add x 1) x) ==> TRUE; big
x: Int = 6 or 7 | (add x 1) ==> 7; big
x: Int = (neg 7) or (sub (neg 7) 1) | (sub x 1) ==> -8; big
x: Int = 2 or 3 | (mul x 4) ==> big; big
x: Int = (neg 2) or 1 | (mul x 4) ==> -8; 4
x: Int = 2 or 3 | (pow x 2) ==> 4; big"#;

// Without operators that are partial, and behind such ones that are decided when the cells are built.
const TOTAL: &str = r#"x: Bool = TRUE or FALSE; y: Bool = TRUE or FALSE | (or x (and y (not x)))
x: Set(Int) = {1 2} or {2 3} | (exists [i] x (lt i 2))
x: Set(Int) = {1 2} or {2 3} | (filter [i] x (lt i 2))
x: Set(Int) = {1 2} or {2 3} | (map [i j] x x <i j>)
x: Set({a: Str, b: Int}) = {(record [a b] "s" 1)} or {(record [a b] "t" 2)} | (cup x {(record [b a] 3 "u")})
x: Set({a: Str, b: Int}) = {(record [a b] "s" 1)} or {(record [a b] "t" 2)} | (exists [m] x (and (eq (field [a] m) "s") (lt (field [b] m) 2)))
x: Int -> Int = (lambda [i] {1 2} i) or (lambda [i] {1 2} 3) | (except:1 [1] x 1 @)
x: Int -> Int = (lambda [i] {1 2} i) or (lambda [i] {1 2} 3) | (in x (funset (range 1 2) (nat)))
x: Int -> Int = (lambda [i] {1 2} i) or (lambda [i] {1 2} 3) | (domain x)
x: Int = 1 or 2; y: Int = 1 or 2 | (if (lt x y) x y)
x: Int -> Int = (lambda [i] {1 2} i) or (lambda [i] {1 2} 3) | (forall [i] (range 1 2) (eq (apply x i) 1))
x: Seq(Int) = (noted [0 Seq(Int)] <1 2>) or (noted [0 Seq(Int)] <3>) | (append x 4)
x: <<Int, Bool>> = <1 TRUE> or <2 FALSE> | (apply x 1)
x: Bool = TRUE or FALSE | (and x FALSE (eq (div 1 0) 1))
x: Bool = TRUE or FALSE | (if FALSE (div 1 0) 2)
x: Bool = TRUE or FALSE | (exists [i] {} (eq (div 1 0) i))"#;

// The text of what the cells say where the free literals have these bits.
fn told(alloc: Global, setting: &Setting, mask: u64) -> Result<Vec<u8>, AllocError> {
    let a = extended(alloc, &setting.b.formula, mask)?;
    shown(alloc, setting, &a)
}

// Where each name has the first of its values, and the second.
fn both(alloc: Global, setting: &Setting) -> Result<Vec<u8>, AllocError> {
    let mut out = told(alloc, setting, 7)?;
    let second = told(alloc, setting, 0)?;
    out.extend_from_slice(b"; ")?;
    out.extend_from_slice(second.as_slice())?;
    Ok(out)
}

// Whether both literals are the negation of `top`.
fn is_sure(setting: &Setting) -> bool {
    let never = setting.b.formula.top().negated();
    setting.found.wrong == never && setting.found.big == never
}

// What is asked of a case.
#[derive(Clone, Copy, Drop)]
enum Question {
    /// What it gives.
    Values,
    /// Whether it can have no fault.
    Faults,
}

fn answer(alloc: Global, setting: &Setting, question: Question) -> Result<Vec<u8>, AllocError> {
    match question {
        Question::Values => both(alloc, setting),
        Question::Faults => {
            let word = if is_sure(setting) { "sure" } else { "not sure" };
            Vec::from_slice(alloc, word.as_bytes())
        }
    }
}

fn answer_given(
    alloc: Global,
    kernel: &KerJob,
    given: &Given,
    question: Question,
    width: u32,
) -> Result<Vec<u8>, AllocError>
    requires sound { IsTrue (sound_job kernel.now) }
    requires from { 4 ≤ width }
    requires to { width ≤ 64 }
{
    match set_up(alloc, kernel, given, width)? {
        Some(setting) => {
            let text = answer(alloc, &setting, question);
            drop(setting);
            text
        }
        None => Vec::from_slice(alloc, b"no cells"),
    }
}

fn answer_of(
    alloc: Global,
    kernel: &KerJob,
    job: &Job,
    question: Question,
    width: u32,
) -> Result<Vec<u8>, AllocError>
    requires sound { IsTrue (sound_job kernel.now) }
    requires from { 4 ≤ width }
    requires to { width ≤ 64 }
{
    let given = names_given(alloc, job, kernel.names.len(), width, Freedom::Nothing)?;
    let text = answer_given(alloc, kernel, &given, question, width);
    drop(given);
    text
}

fn answer_job(
    alloc: Global,
    job: &Job,
    question: Question,
    width: u32,
) -> Result<Vec<u8>, AllocError>
    requires from { 4 ≤ width }
    requires to { width ≤ 64 }
{
    match kernel_in(alloc, job)? {
        Some(kernel) => {
            let text = answer_of(alloc, &kernel, job, question, width);
            drop(kernel);
            text
        }
        None => Vec::from_slice(alloc, b"no kernel"),
    }
}

fn answer_in(
    alloc: Global,
    line: &str,
    question: Question,
    width: u32,
) -> Result<Vec<u8>, AllocError>
    requires from { 4 ≤ width }
    requires to { width ≤ 64 }
{
    let job = job_in(alloc, line)?;
    let text = answer_job(alloc, &job, question, width);
    drop(job);
    text
}

// The rows that give anything else, and how many there are; a row without an answer asks whether there can be no fault.
fn report(alloc: Global, table: &str, width: u32) -> Result<String, AllocError>
    requires from { 4 ≤ width }
    requires to { width ≤ 64 }
{
    let mut out = String::new(alloc);
    let mut cases: usize = 0;
    for row in table.lines() {
        let (line, want) = row.split_once(" ==> ").unwrap_or((row, "sure"));
        let question = if want == "sure" {
            Question::Faults
        } else {
            Question::Values
        };
        let found = answer_in(alloc, line, question, width)?;
        let text = str::from_utf8(found.as_slice()).unwrap_or("?");
        put_line(alloc, row, unlike(text, want), &mut out)?;
        cases = cases.wrapping_add(1);
    }
    ended(alloc, &mut out, cases)?;
    Ok(out)
}

#[test]
fn expressions_give_what_the_language_says(rt: HostRuntime) -> Result<(), Fail> {
    passes(&rt, report(rt.alloc(), ROWS, 8), "28 cases")
}

#[test]
fn the_least_and_the_greatest_number_are_told_from_those_beyond(
    rt: HostRuntime,
) -> Result<(), Fail> {
    passes(&rt, report(rt.alloc(), NARROW, 4), "6 cases")
}

#[test]
fn without_partial_operators_there_are_no_faults(rt: HostRuntime) -> Result<(), Fail> {
    passes(&rt, report(rt.alloc(), TOTAL, 8), "16 cases")
}
