// Modules that people know, as they stand in `examples/`, and what is answered of them.
use crate::tests::sets::{passes, report_of, written_over};
use std::alloc::{AllocError, Global};
use std::str;
use std::test::Fail;
use tla_values::List;
use tool_outside::MemoryFiles;

// No other execution of six steps puts four gallons into the big jug.
const DIE_HARD: &str = r#"
>set
>file DieHard.tla
---- MODULE DieHard ----
EXTENDS Integers
VARIABLES
  \* @type: Int;
  big,
  \* @type: Int;
  small
Init == big = 0 /\ small = 0
ToBig == IF big + small <= 5
  THEN big' = big + small /\ small' = 0
  ELSE big' = 5 /\ small' = small - (5 - big)
ToSmall == IF big + small <= 3
  THEN big' = 0 /\ small' = big + small
  ELSE big' = big - (3 - small) /\ small' = 3
Next == \/ big' = 5 /\ small' = small
        \/ big' = big /\ small' = 3
        \/ big' = 0 /\ small' = small
        \/ big' = big /\ small' = 0
        \/ ToBig
        \/ ToSmall
Inv == big # 4
====
>0 check DieHard.tla 5
no error to 5
>12 check DieHard.tla 10
error at level 6: invariant Inv is FALSE
state 0
/\ big = 0
/\ small = 0
state 1
/\ big = 5
/\ small = 0
state 2
/\ big = 2
/\ small = 3
state 3
/\ big = 2
/\ small = 0
state 4
/\ big = 0
/\ small = 2
state 5
/\ big = 5
/\ small = 2
state 6
/\ big = 4
/\ small = 3"#;

#[test]
fn four_gallons_are_measured_in_six_steps(rt: HostRuntime) -> Result<(), Fail> {
    passes(&rt, report_of(rt.alloc(), "", DIE_HARD), "2 right")
}

const TWO_PHASE_AND_PLUS: &str = r#"
>set
>file TwoPhase.tla
---- MODULE TwoPhase ----
VARIABLES
  \* @type: Str -> Str;
  rm,
  \* @type: Str;
  tm,
  \* @type: Set(Str);
  ready,
  \* @type: Set({kind: Str, from: Str});
  msgs
RM == {"r1", "r2", "r3"}
Msg(k, f) == [kind |-> k, from |-> f]
Init == /\ rm = [r \in RM |-> "working"]
        /\ tm = "init" /\ ready = {} /\ msgs = {}
Receive(r) == /\ tm = "init" /\ Msg("Prepared", r) \in msgs
              /\ ready' = ready \cup {r}
              /\ UNCHANGED <<rm, tm, msgs>>
Decide(k, s) == /\ tm = "init" /\ tm' = s
                /\ msgs' = msgs \cup {Msg(k, "")}
                /\ UNCHANGED <<rm, ready>>
Prepare(r) == /\ rm[r] = "working"
              /\ rm' = [rm EXCEPT ![r] = "prepared"]
              /\ msgs' = msgs \cup {Msg("Prepared", r)}
              /\ UNCHANGED <<tm, ready>>
Give(r) == /\ rm[r] = "working"
           /\ rm' = [rm EXCEPT ![r] = "aborted"]
           /\ UNCHANGED <<tm, ready, msgs>>
Obey(r, k, s) == /\ Msg(k, "") \in msgs
                 /\ rm' = [rm EXCEPT ![r] = s]
                 /\ UNCHANGED <<tm, ready, msgs>>
Next == \/ ready = RM /\ Decide("Commit", "committed")
        \/ Decide("Abort", "aborted")
        \/ \E r \in RM: \/ Receive(r) \/ Prepare(r) \/ Give(r)
                        \/ Obey(r, "Commit", "committed")
                        \/ Obey(r, "Abort", "aborted")
Inv == \A a \in RM: \A b \in RM:
         ~(rm[a] = "aborted" /\ rm[b] = "committed")
====
>0 check TwoPhase.tla 8
no error to 8
>set
>file Plus.tla
---- MODULE Plus ----
EXTENDS Integers, TLC
\* BEGIN TRANSLATION
VARIABLES
  \* @type: Int -> Str;
  pc,
  \* @type: Int;
  x
vars == << pc, x >>
ProcSet == (1..2)
Init == (* Global variables *)
        /\ x = 0
        /\ pc = [self \in ProcSet |-> "a"]
a(self) == /\ pc[self] = "a"
           /\ x' = x + 1
           /\ pc' = [pc EXCEPT ![self] = "Done"]
p(self) == a(self)
Terminating == /\ \A self \in ProcSet: pc[self] = "Done"
               /\ UNCHANGED vars
Next == (\E self \in 1..2: p(self))
           \/ Terminating
Spec == Init /\ [][Next]_vars
Termination == <>(\A self \in ProcSet: pc[self] = "Done")
\* END TRANSLATION
Inv == x <= 2
====
>0 check Plus.tla 3
no error to 3"#;

#[test]
fn two_phase_commit_and_a_translation_have_no_error(rt: HostRuntime) -> Result<(), Fail> {
    passes(
        &rt,
        report_of(rt.alloc(), "", TWO_PHASE_AND_PLUS),
        "2 right",
    )
}

// Five pigeons in four holes: four questions are refuted, and with one conflict the third is left open.
const PIGEONS: &str = r#"
>file Row.tla
---- MODULE Row ----
EXTENDS Integers, Sequences, FiniteSets
VARIABLE
  \* @type: Int -> Int;
  x
Init == x \in [1..5 -> 1..4]
Next == x' = x
Inv == \E i \in 1..5: \E j \in 1..5: i < j /\ x[i] = x[j]
===="#;

const BUDGETS: &str = r#"
>set
>0 check Row.tla 0
no error to 0
>set
>21 check Row.tla 0 1
unknown: conflict budget 1 spent at level 0"#;

#[test]
fn pigeons_want_more_than_one_conflict(rt: HostRuntime) -> Result<(), Fail> {
    passes(&rt, report_of(rt.alloc(), PIGEONS, BUDGETS), "2 right")
}

const CERTIFICATES: &str = r#"
>set
>0 check Row.tla 0
no error to 0
>0 recheck Row.cert
accepted: 4 refuted, 0 open
>set
>21 check Row.tla 0 1
unknown: conflict budget 1 spent at level 0
>0 recheck Row.cert
accepted: 2 refuted, 1 open"#;

// How many steps of a log are not the empty clause.
fn steps_in(log: &str) -> usize {
    let mut count: usize = 0;
    for line in log.lines() {
        let Some((_, clause)) = line.split_once(' ') else {
            return count;
        };
        if !clause.starts_with("0 ") {
            count = count.wrapping_add(1);
        }
    }
    count
}

// Whether there are none such in a certificate, or one, or more.
fn amount_in(certificate: &str) -> &'static str {
    let mut count: usize = 0;
    for log in certificate.split("\nlog\n").skip(1) {
        count = count.wrapping_add(steps_in(log));
    }
    match count {
        0 => "none",
        1 => "one",
        _ => "more",
    }
}

// The same of the certificate of a check of the pigeons.
fn amount_learned(alloc: Global, words: &str) -> Result<&'static str, AllocError> {
    let mut files = MemoryFiles::new(alloc, List::new(alloc));
    let written = written_over(alloc, PIGEONS, words, &mut files);
    let certificate = files.get("Row.cert").unwrap_or(b"");
    let amount = amount_in(str::from_utf8(certificate).unwrap_or("?"));
    drop(files);
    drop(written?);
    Ok(amount)
}

fn amounts(alloc: Global) -> Result<String, AllocError> {
    let closed = amount_learned(alloc, "check Row.tla 0")?;
    let open = amount_learned(alloc, "check Row.tla 0 1")?;
    format!(in alloc; "{closed}, {open}")
}

#[test]
fn certificates_of_pigeons_are_accepted(rt: HostRuntime) -> Result<(), Fail> {
    passes(&rt, report_of(rt.alloc(), PIGEONS, CERTIFICATES), "4 right")?;
    passes(&rt, amounts(rt.alloc()), "more, one")
}
