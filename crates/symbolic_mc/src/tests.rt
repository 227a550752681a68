// What the program answers of its words, of small modules and of certificates, and how it ends where a call fails. Expected
// lines are written by hand, from the meaning of the language (Specifying Systems, chapter 16).
use std::alloc::{AllocError, Global};
use std::test::Fail;
use tla_values::List;
use tool_outside::MemoryFiles;

pub(crate) mod sets;
mod walks;

use crate::tests::sets::{passes, report_of, written_over};

const TOGGLE: &str = r#"
>file Toggle.tla
---- MODULE Toggle ----
VARIABLE
  \* @type: Bool;
  x
Init == x = FALSE
Next == \/ x = FALSE /\ x' = TRUE
        \/ x = TRUE /\ x' = FALSE
Inv == x = FALSE
===="#;

// Next asks both values of y at once, and so is never enabled.
const STUCK: &str = r#"
>file Toggle.tla
---- MODULE Toggle ----
VARIABLES
  \* @type: Bool;
  x,
  \* @type: Bool;
  y
Init == x = FALSE /\ y \in BOOLEAN
Next == \/ y = FALSE /\ y = TRUE /\ x' = TRUE /\ y' \in BOOLEAN
Inv == x = FALSE
===="#;

// q becomes whether a and b differ, and r becomes TRUE where it is not that: never, and the solver must try values of a
// and of b to say so.
const CROSSED: &str = r#"
>file Toggle.tla
---- MODULE Toggle ----
VARIABLES
  \* @type: Bool;
  a,
  \* @type: Bool;
  b,
  \* @type: Bool;
  p,
  \* @type: Bool;
  q,
  \* @type: Bool;
  r
Init == a \in BOOLEAN /\ b \in BOOLEAN /\ p = FALSE /\ q = FALSE /\ r = FALSE
Next == \/ a = TRUE /\ b = TRUE /\ p = FALSE /\ a' = TRUE /\ b' = TRUE /\ p' = TRUE /\ q' = FALSE /\ r' = FALSE
        \/ a = TRUE /\ b = FALSE /\ p = FALSE /\ a' = TRUE /\ b' = FALSE /\ p' = TRUE /\ q' = TRUE /\ r' = FALSE
        \/ a = FALSE /\ b = TRUE /\ p = FALSE /\ a' = FALSE /\ b' = TRUE /\ p' = TRUE /\ q' = TRUE /\ r' = FALSE
        \/ a = FALSE /\ b = FALSE /\ p = FALSE /\ a' = FALSE /\ b' = FALSE /\ p' = TRUE /\ q' = FALSE /\ r' = FALSE
        \/ a = TRUE /\ b = TRUE /\ p = TRUE /\ q = TRUE /\ a' = TRUE /\ b' = TRUE /\ p' = TRUE /\ q' = TRUE /\ r' = TRUE
        \/ a = TRUE /\ b = FALSE /\ p = TRUE /\ q = FALSE /\ a' = TRUE /\ b' = FALSE /\ p' = TRUE /\ q' = FALSE /\ r' = TRUE
        \/ a = FALSE /\ b = TRUE /\ p = TRUE /\ q = FALSE /\ a' = FALSE /\ b' = TRUE /\ p' = TRUE /\ q' = FALSE /\ r' = TRUE
        \/ a = FALSE /\ b = FALSE /\ p = TRUE /\ q = TRUE /\ a' = FALSE /\ b' = FALSE /\ p' = TRUE /\ q' = TRUE /\ r' = TRUE
Inv == r = FALSE
===="#;

// In the second both values start, the third is written as by hand (comments, lists of bullets, brackets, conjuncts in any
// order), and in the fifth no state starts.
const VERDICTS: &str = r#"
>set
>12 check Toggle.tla 1
error at level 1: invariant Inv is FALSE
state 0
/\ x = FALSE
state 1
/\ x = TRUE
>set
>file Toggle.tla
---- MODULE Toggle ----
VARIABLE
  \* @type: Bool;
  x
Init == x \in BOOLEAN
Next == \/ x = FALSE /\ x' = TRUE
        \/ x = TRUE /\ x' = FALSE
Inv == x = FALSE
====
>12 check Toggle.tla 0
error at level 0: invariant Inv is FALSE
state 0
/\ x = TRUE
>set
>file Toggle.tla
This file holds a module.
---- MODULE Toggle ----
VARIABLES
  \* @type: Bool;
  x,
  \* The other. @type: Bool;
  y

Init ==
  /\ y = TRUE
  /\ (x = FALSE)

(* Either of the two. *)
Next ==
  \/ /\ y' = FALSE
     /\ x = FALSE
     /\ x' = TRUE
  \/ (y' \in BOOLEAN /\ x = TRUE) /\ x' = FALSE

--------
Inv == /\ x = FALSE
====
What is behind is not read.
>12 check Toggle.tla 1
error at level 1: invariant Inv is FALSE
state 0
/\ x = FALSE
/\ y = TRUE
state 1
/\ x = TRUE
/\ y = FALSE
>set
>file Toggle.tla
---- MODULE Toggle ----
VARIABLE
  \* @type: Bool;
  x
Init == x = FALSE
Next == \/ x = FALSE /\ x' = TRUE
        \/ x = TRUE /\ x' = FALSE
Inv == x # TRUE
====
>12 check Toggle.tla 1
error at level 1: invariant Inv is FALSE
state 0
/\ x = FALSE
state 1
/\ x = TRUE
>set
>file Toggle.tla
---- MODULE Toggle ----
VARIABLE
  \* @type: Bool;
  x
Init == x = FALSE /\ x = TRUE
Next == \/ x = FALSE /\ x' = TRUE
Inv == x = FALSE
====
>0 check Toggle.tla 1
no error to 1
>set
>0 check Toggle.tla 0
no error to 0"#;

#[test]
fn verdicts_have_their_status_and_their_bytes(rt: HostRuntime) -> Result<(), Fail> {
    passes(&rt, report_of(rt.alloc(), TOGGLE, VERDICTS), "6 right")
}

const REFUSALS: &str = r#"
>set
>file Toggle.tla
>30 check Toggle.tla 1
refused: no module header in Toggle
>set
>30 check Gone.tla 1
refused: module Gone is missing
>30 check far/Gone.tla 1
refused: module Gone is missing
>30 check Gone 1
refused: module Gone is missing"#;

#[test]
fn refusals_have_their_status_and_their_bytes(rt: HostRuntime) -> Result<(), Fail> {
    passes(&rt, report_of(rt.alloc(), TOGGLE, REFUSALS), "4 right")
}

const REFUSED_TEXTS: &str = r#"
>set
>row Bool
Init == x = FALSE
Next == x' = x
Inv == x /\ x \/ x
>30 check Row.tla 0
refused: grammar at Row:8:1
>set
>row Bool
Init == x = FALSE
Next == x' = x
Inv == x ? x
>30 check Row.tla 0
refused: bad token at Row:8:10
>set
>row Bool
Init == x = FALSE
Next == x' = x
Inv == x (* no end
>30 check Row.tla 0
refused: open comment at Row:8:10
>set
>row Bool
Init == x = FALSE
Next == x' = x
Inv == 170141183460469231731687303715884105728
>30 check Row.tla 0
refused: number past 128 bits at Row:8:8
>set
>row Bool
Init == x = FALSE
Next == x' = x
Inv == \E <<a, b>> \in {} : x
>30 check Row.tla 0
refused: tuple pattern is not supported at Row:8:11"#;

#[test]
fn refusals_of_a_text_name_their_place_and_cause(rt: HostRuntime) -> Result<(), Fail> {
    passes(&rt, report_of(rt.alloc(), "", REFUSED_TEXTS), "5 right")
}

// So many signs in an invariant, and behind it this answer.
fn signs(alloc: Global, count: usize, answer: &str) -> Result<String, AllocError> {
    let mut text = String::from_str(
        alloc,
        "\n>set\n>row Bool\nInit == x = FALSE\nNext == x' = x\nInv == ",
    )?;
    for _sign in 0..count {
        text.push_str("~")?;
    }
    text.push_str("TRUE\n")?;
    text.push_str(answer)?;
    Ok(text)
}

fn signs_report(alloc: Global, count: usize, answer: &str) -> Result<String, AllocError> {
    let text = signs(alloc, count, answer)?;
    report_of(alloc, "", text.as_str())
}

const READ: &str = r#">12 check Row.tla 0
error at level 0: invariant Inv is FALSE
state 0
/\ x = FALSE"#;

const TOO_DEEP: &str = ">30 check Row.tla 0\nrefused: nesting past 400 at Row:8:1";

#[test]
fn four_hundred_levels_are_read_and_no_more(rt: HostRuntime) -> Result<(), Fail> {
    passes(&rt, signs_report(rt.alloc(), 399, READ), "1 right")?;
    passes(&rt, signs_report(rt.alloc(), 400, TOO_DEEP), "1 right")
}

// Behind the read come the create of the certificate, its first line and its six sections.
const FAILING_CALLS: &str = r#"
>set 1
>41 check Toggle.tla 1
write fault: Toggle.cert
>set 2
>41 check Toggle.tla 1
write fault: Toggle.cert
>set 3
>41 check Toggle.tla 1
write fault: Toggle.cert
>set 4
>41 check Toggle.tla 1
write fault: Toggle.cert
>set 5
>41 check Toggle.tla 1
write fault: Toggle.cert
>set 6
>41 check Toggle.tla 1
write fault: Toggle.cert
>set 7
>41 check Toggle.tla 1
write fault: Toggle.cert
>set 8
>41 check Toggle.tla 1
write fault: Toggle.cert
>set 9
>12 check Toggle.tla 1
error at level 1: invariant Inv is FALSE
state 0
/\ x = FALSE
state 1
/\ x = TRUE"#;

#[test]
fn each_call_of_the_files_that_fails_is_told(rt: HostRuntime) -> Result<(), Fail> {
    passes(&rt, report_of(rt.alloc(), TOGGLE, FAILING_CALLS), "9 right")
}

const CERTIFICATES: &str = r#"
>set
>12 check Toggle.tla 1
error at level 1: invariant Inv is FALSE
state 0
/\ x = FALSE
state 1
/\ x = TRUE
>0 recheck Toggle.cert
accepted: 6 refuted, 0 open
>set
>0 check Toggle.tla 0
no error to 0
>0 recheck Toggle.cert
accepted: 4 refuted, 0 open
>set
>30 check Toggle.txt 2
refused: module Toggle.txt is missing
>14 recheck Toggle.cert
certificate refused: no file"#;

const CROSSED_CERTIFICATE: &str = r#"
>set
>0 check Toggle.tla 2
no error to 2
>0 recheck Toggle.cert
accepted: 12 refuted, 0 open"#;

#[test]
fn the_certificate_of_a_verdict_is_accepted(rt: HostRuntime) -> Result<(), Fail> {
    passes(&rt, report_of(rt.alloc(), TOGGLE, CERTIFICATES), "6 right")?;
    passes(
        &rt,
        report_of(rt.alloc(), CROSSED, CROSSED_CERTIFICATE),
        "2 right",
    )
}

// A certificate of two variables as the format's description has it, and with one line changed or cut.
const CERTIFICATE_BYTES: &str = r#"
>set
>file A.cert
tla-refutation 1
query 0 inv-false
p cnf 2 4
1 2 0
-1 2 0
1 -2 0
-1 -2 0
log
5 2 0 1 2 0
6 0 5 3 4 0
end
>0 recheck A.cert
accepted: 1 refuted, 0 open
>set
>file A.cert
tla-refutation 1
query 0 inv-false
p cnf 2 4
1 2 0
-1 2 0
1 -2 0
-1 -2 0
log
5 -2 0 1 2 0
6 0 5 3 4 0
end
>14 recheck A.cert
certificate refused: query 1 step 5
>set
>file A.cert
tla-refutation 1
query 0 inv-false
p cnf 2 4
1 2 0
-1 2 0
1 -2 0
-1 -2 0
log
5 2 0 1 2 0
6 0 3 5 3 4 0
end
>14 recheck A.cert
certificate refused: query 1 step 6
>set
>file A.cert
tla-refutation 1
query 0 inv-false
p cnf 2 4
1 2 0
-1 2 0
1 -2 0
-1 -2 0
log
5 2 0 1 2 0
>14 recheck A.cert
certificate refused: line 10
>set
>file A.cert
tla-refutation 1
query 0 inv-false
p cnf 2 4
1 2 0
-1 2 0
1 -2 0
-1 -2 0
log
5 2 0 1 2 0
open
>0 recheck A.cert
accepted: 0 refuted, 1 open"#;

#[test]
fn certificates_are_accepted_or_refused_by_their_bytes(rt: HostRuntime) -> Result<(), Fail> {
    passes(&rt, report_of(rt.alloc(), "", CERTIFICATE_BYTES), "5 right")
}

// With a budget the check ends at the level that needs more, with an open section.
const BUDGETS: &str = r#"
>set
>21 check Toggle.tla 2 1
unknown: conflict budget 1 spent at level 2
>0 recheck Toggle.cert
accepted: 10 refuted, 1 open
>set
>0 check Toggle.tla 2 1000
no error to 2
>set
>file Toggle.tla
---- MODULE Toggle ----
VARIABLE
  \* @type: Bool;
  x
Init == x = FALSE
Next == \/ x = FALSE /\ x' = TRUE
        \/ x = TRUE /\ x' = FALSE
Inv == x = FALSE
====
>12 check Toggle.tla 1 1
error at level 1: invariant Inv is FALSE
state 0
/\ x = FALSE
state 1
/\ x = TRUE"#;

#[test]
fn a_budget_of_conflicts_is_spent(rt: HostRuntime) -> Result<(), Fail> {
    passes(&rt, report_of(rt.alloc(), CROSSED, BUDGETS), "4 right")
}

// Where the write of a line fails, exactly the lines before it were written.
const LINES: &str = r#"
>set - 0
>41 check Toggle.tla 1
>set - 1
>41 check Toggle.tla 1
error at level 1: invariant Inv is FALSE
>set - 2
>41 check Toggle.tla 1
error at level 1: invariant Inv is FALSE
state 0
>set - 3
>41 check Toggle.tla 1
error at level 1: invariant Inv is FALSE
state 0
/\ x = FALSE
>set - 4
>41 check Toggle.tla 1
error at level 1: invariant Inv is FALSE
state 0
/\ x = FALSE
state 1
>set - 5
>12 check Toggle.tla 1
error at level 1: invariant Inv is FALSE
state 0
/\ x = FALSE
state 1
/\ x = TRUE"#;

#[test]
fn each_line_is_a_write_of_its_own(rt: HostRuntime) -> Result<(), Fail> {
    passes(&rt, report_of(rt.alloc(), TOGGLE, LINES), "6 right")
}

const LENGTHS: &str = r#"
>set
>0 check Toggle.tla 2
no error to 2
>0 check Toggle.tla 13
no error to 13
>0 check Toggle.tla 60
no error to 60
>set
>file Toggle.tla
---- MODULE Toggle ----
VARIABLE
  \* @type: Bool;
  x
Init == x = FALSE
Next == \/ x = FALSE /\ x' = TRUE
        \/ x = TRUE /\ x' = FALSE
Inv == x = FALSE
====
>12 check Toggle.tla 1000
error at level 1: invariant Inv is FALSE
state 0
/\ x = FALSE
state 1
/\ x = TRUE"#;

#[test]
fn lengths_of_every_size_have_their_answer(rt: HostRuntime) -> Result<(), Fail> {
    passes(&rt, report_of(rt.alloc(), STUCK, LENGTHS), "4 right")
}

const FAULTS: &str = r#"
>set 0
>40 check Toggle.tla 1
read fault: Toggle.tla
>set - 2
>41 check Toggle.tla 1
error at level 1: invariant Inv is FALSE
state 0
>set 0 0
>41 check Toggle.tla 1"#;

#[test]
fn faults_have_their_status_and_their_bytes(rt: HostRuntime) -> Result<(), Fail> {
    passes(&rt, report_of(rt.alloc(), TOGGLE, FAULTS), "3 right")
}

const WORDS: &str = r#"
>set
>31
usage: symbolic_mc check|induct|audit|recheck|ring OPTIONS NAMES
>31 check
usage: symbolic_mc check|induct|audit|recheck|ring OPTIONS NAMES
>31 check Toggle.tla
usage: symbolic_mc check|induct|audit|recheck|ring OPTIONS NAMES
>31 check Toggle.tla 1001
usage: symbolic_mc check|induct|audit|recheck|ring OPTIONS NAMES
>31 check Toggle.tla -1
usage: symbolic_mc check|induct|audit|recheck|ring OPTIONS NAMES
>31 check Toggle.tla 1x
usage: symbolic_mc check|induct|audit|recheck|ring OPTIONS NAMES
>31 check Toggle.tla ""
usage: symbolic_mc check|induct|audit|recheck|ring OPTIONS NAMES
>31 check Toggle.tla 1 0
usage: symbolic_mc check|induct|audit|recheck|ring OPTIONS NAMES
>31 check Toggle.tla 1 1000000001
usage: symbolic_mc check|induct|audit|recheck|ring OPTIONS NAMES
>31 check Toggle.tla 1 1 1
usage: symbolic_mc check|induct|audit|recheck|ring OPTIONS NAMES
>31 recheck
usage: symbolic_mc check|induct|audit|recheck|ring OPTIONS NAMES
>31 recheck Toggle.cert 1
usage: symbolic_mc check|induct|audit|recheck|ring OPTIONS NAMES
>set - 0
>41 check Toggle.tla 1000"#;

#[test]
fn words_of_another_form_give_the_usage(rt: HostRuntime) -> Result<(), Fail> {
    passes(&rt, report_of(rt.alloc(), TOGGLE, WORDS), "13 right")
}

// Of the sixteen variables the first has a guard, and all become TRUE or stay free.
const STUCK_AND_SIXTEEN: &str = r#"
>set
>0 check Toggle.tla 6
no error to 6
>set
>file Toggle.tla
---- MODULE Toggle ----
VARIABLES
  \* @type: Bool;
  a,
  \* @type: Bool;
  b,
  \* @type: Bool;
  c,
  \* @type: Bool;
  d,
  \* @type: Bool;
  e,
  \* @type: Bool;
  f,
  \* @type: Bool;
  g,
  \* @type: Bool;
  h,
  \* @type: Bool;
  i,
  \* @type: Bool;
  j,
  \* @type: Bool;
  k,
  \* @type: Bool;
  l,
  \* @type: Bool;
  m,
  \* @type: Bool;
  n,
  \* @type: Bool;
  o,
  \* @type: Bool;
  p
Init == a = FALSE /\ b = FALSE /\ c = FALSE /\ d = FALSE /\ e = FALSE /\ f = FALSE /\ g = FALSE /\ h = FALSE /\ i = FALSE /\ j = FALSE /\ k = FALSE /\ l = FALSE /\ m = FALSE /\ n = FALSE /\ o = FALSE /\ p = FALSE
Next == \/ a = FALSE /\ a' = TRUE /\ b' = FALSE /\ c' = FALSE /\ d' = FALSE /\ e' = FALSE /\ f' = FALSE /\ g' = FALSE /\ h' = FALSE /\ i' = FALSE /\ j' = FALSE /\ k' = FALSE /\ l' = FALSE /\ m' = FALSE /\ n' = FALSE /\ o' = FALSE /\ p' = TRUE
Inv == p = FALSE
====
>12 check Toggle.tla 1
error at level 1: invariant Inv is FALSE
state 0
/\ a = FALSE
/\ b = FALSE
/\ c = FALSE
/\ d = FALSE
/\ e = FALSE
/\ f = FALSE
/\ g = FALSE
/\ h = FALSE
/\ i = FALSE
/\ j = FALSE
/\ k = FALSE
/\ l = FALSE
/\ m = FALSE
/\ n = FALSE
/\ o = FALSE
/\ p = FALSE
state 1
/\ a = TRUE
/\ b = FALSE
/\ c = FALSE
/\ d = FALSE
/\ e = FALSE
/\ f = FALSE
/\ g = FALSE
/\ h = FALSE
/\ i = FALSE
/\ j = FALSE
/\ k = FALSE
/\ l = FALSE
/\ m = FALSE
/\ n = FALSE
/\ o = FALSE
/\ p = TRUE"#;

#[test]
fn a_module_that_never_steps_and_one_of_sixteen_variables(rt: HostRuntime) -> Result<(), Fail> {
    passes(
        &rt,
        report_of(rt.alloc(), STUCK, STUCK_AND_SIXTEEN),
        "2 right",
    )
}

const TOGGLE_REPORT: &str = "error at level 1: invariant Inv is FALSE
state 0
/\\ x = FALSE
state 1
/\\ x = TRUE
";

// Where memory runs out, the status says so and a part of the report, or of the line for it, is there.
fn kind_of(written: &str) -> &'static str {
    let (status, text) = written.split_once('\n').unwrap_or((written, ""));
    let is_part = match status {
        "12" => TOGGLE_REPORT.starts_with(text),
        "50" => TOGGLE_REPORT.starts_with(text) || "out of memory\n".starts_with(text),
        _ => false,
    };
    if is_part { "a part" } else { "another text" }
}

fn kind_of_toggle(alloc: Global) -> Result<String, AllocError> {
    let mut files = MemoryFiles::new(alloc, List::new(alloc));
    let written = written_over(alloc, TOGGLE, "check Toggle.tla 1", &mut files);
    drop(files);
    let written = written?;
    String::from_str(alloc, kind_of(written.as_str()))
}

#[test]
fn a_refused_allocation_leaves_a_prefix(rt: HostRuntime) -> Result<(), Fail> {
    passes(&rt, kind_of_toggle(rt.alloc()), "a part")
}
