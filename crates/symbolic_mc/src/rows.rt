// What is answered where modules are joined and definitions expanded.
use crate::tests::sets::{passes, report_of};
use std::alloc::{AllocError, Global};
use std::test::Fail;

// Two lamps of one module under names of their own, and one that is extended.
const HALL: &str = r#"
>set
>file far/Hall.tla
---- MODULE Hall ----
EXTENDS Lamp
VARIABLES
  \* @type: Bool;
  door,
  \* @type: Bool;
  stairs
Door == INSTANCE Lamp WITH on <- door
Stairs == INSTANCE Lamp WITH on <- stairs
Init == Is(FALSE) /\ Door!Is(FALSE) /\ Stairs!Is(TRUE)
Next == \/ Switch(FALSE, TRUE) /\ Door!Is(TRUE)' /\ stairs' = TRUE
        \/ Switch(TRUE, FALSE) /\ Door!Switch(TRUE, FALSE) /\ Stairs!Is(FALSE)'
Dark == Is(FALSE) /\ Stairs!Is(FALSE)
Inv == Stairs!Is(TRUE)
====
>file far/Lamp.tla
---- MODULE Lamp ----
VARIABLE
  \* @type: Bool;
  on
Is(b) == on = b
Switch(a, b) == Is(a) /\ Is(b)'
====
>12 check far/Hall.tla 2
error at level 2: invariant Inv is FALSE
state 0
/\ on = FALSE
/\ door = FALSE
/\ stairs = TRUE
state 1
/\ on = TRUE
/\ door = TRUE
/\ stairs = TRUE
state 2
/\ on = FALSE
/\ door = FALSE
/\ stairs = FALSE"#;

#[test]
fn an_error_of_joined_modules_has_its_trace(rt: HostRuntime) -> Result<(), Fail> {
    passes(&rt, report_of(rt.alloc(), "", HALL), "1 right")
}

const NAMES: &str = r#"
>set
>row Int
I == INSTANCE Inc WITH c <- 2
Init == x = 0
Next == x' = I!Add(x)
Inv == x # 4
>30 check Row.tla 2
refused: module Inc is missing
>set
>row Int
Init == x = 0
Next == x' = x
Inv == x = CHOOSE y \in {0}: TRUE
>30 check Row.tla 2
refused: CHOOSE is reached at Row:8:12
>set
>row Int
ASSUME x = 0
Init == x = 0
Next == x' = x
Inv == TRUE
>30 check Row.tla 2
refused: VARIABLE is reached at Row:6:8
>set
>row Int
Init == x = 0
Next == x' = y
Inv == Off(x)
>30 check Row.tla 2
refused: name y is unknown at Row:7:14
>set
>row Int
Init == x = 0
Next == x' = x
Inv == Len(x, x)
>30 check Row.tla 2
refused: 2 arguments for 1 at Row:8:8
>set
>row Int
Init == x = 0
x == 1
Next == x' = x
>30 check Row.tla 2
refused: name x is declared at Row:5:3 and at Row:7:1
>set
>row Int
Init == x = 0
Next == x' = x
>30 check Row.tla 2
refused: no operator Inv"#;

#[test]
fn names_and_forms_are_refused_at_their_places(rt: HostRuntime) -> Result<(), Fail> {
    passes(&rt, report_of(rt.alloc(), "", NAMES), "7 right")
}

const TYPES: &str = r#"
>set
>file Row.tla
---- MODULE Row ----
EXTENDS Integers
VARIABLE
  x
Init == x = 1 /\ x = 2
Next == x' = x
Inv == FALSE
====
>30 check Row.tla 2
refused: name x has no type
>set
>file Row.tla
---- MODULE Row ----
EXTENDS Integers
VARIABLE
  \* @type: Intt;
  x
Init == x = 1 /\ x = 2
Next == x' = x
Inv == FALSE
====
>30 check Row.tla 2
refused: bad type at Row:5:3
>set
>row Int
Init == x = 0
Next == x' = x
Inv == x = TRUE
>30 check Row.tla 2
refused: types Int and Bool clash at Row:8:10
>set
>row Int
Init == x = 0
Next == x' = x
Inv == {1, "a"} = {}
>30 check Row.tla 2
refused: types Int and Str clash at Row:8:8
>set
>row Int
Init == x = 0
Next == x' = x
Inv == <<1, 2>> = <<1, "a">>
>30 check Row.tla 2
refused: types Int and Str clash at Row:8:19; defaults at Row:8:8"#;

#[test]
fn jobs_without_types_are_refused(rt: HostRuntime) -> Result<(), Fail> {
    passes(&rt, report_of(rt.alloc(), "", TYPES), "5 right")
}

const ROOT: &str = r#"
>file Row.tla
---- MODULE Row ----
EXTENDS A
===="#;

const JOINED: &str = r#"
>set
>file A.tla
---- MODULE A ----
EXTENDS Row
====
>30 check Row.tla 2
refused: modules mention each other: Row, A, Row
>set
>file A.tla
---- MODULE B ----
====
>30 check Row.tla 2
refused: file A holds module B
>set
>file A.tla
---- MODULE A ----
x == 
====
>30 check Row.tla 2
refused: grammar at A:2:1"#;

#[test]
fn modules_that_cannot_be_joined_are_refused(rt: HostRuntime) -> Result<(), Fail> {
    passes(&rt, report_of(rt.alloc(), ROOT, JOINED), "3 right")
}

fn put_empty(alloc: Global, number: usize, text: &mut String) -> Result<(), AllocError> {
    let file = format!(in alloc; "\n>file M{number}.tla\n---- MODULE M{number} ----\n====")?;
    text.push_str(file.as_str())
}

fn put_name(alloc: Global, number: usize, text: &mut String) -> Result<(), AllocError> {
    let comma = if number == 1 { "" } else { "," };
    let name = format!(in alloc; "{comma} M{number}")?;
    text.push_str(name.as_str())
}

// Row extends so many modules, M1 and so on, each empty.
fn extending(alloc: Global, count: usize, answer: &str) -> Result<String, AllocError> {
    let mut text = String::from_str(alloc, "\n>set")?;
    for number in 1..count.saturating_add(1) {
        put_empty(alloc, number, &mut text)?;
    }
    text.push_str("\n>file Row.tla\n---- MODULE Row ----\nEXTENDS")?;
    for number in 1..count.saturating_add(1) {
        put_name(alloc, number, &mut text)?;
    }
    text.push_str("\n====\n>30 check Row.tla 0\n")?;
    text.push_str(answer)?;
    Ok(text)
}

fn extending_report(alloc: Global, count: usize, answer: &str) -> Result<String, AllocError> {
    let text = extending(alloc, count, answer)?;
    report_of(alloc, "", text.as_str())
}

#[test]
fn at_most_sixty_four_modules_are_joined(rt: HostRuntime) -> Result<(), Fail> {
    let alloc = rt.alloc();
    let most = extending_report(alloc, 63, "refused: no operator Init");
    passes(&rt, most, "1 right")?;
    let more = extending_report(alloc, 64, "refused: more than 64 modules");
    passes(&rt, more, "1 right")
}

// D0 has three nodes, and each definition one more than twice those before it.
fn doubling(alloc: Global, last: usize, nodes: u64) -> Result<String, AllocError> {
    let mut text = String::from_str(
        alloc,
        "\n>set\n>row Int\nInit == x = 0\nNext == x' = x\nD0 == 1 + 1\n",
    )?;
    for before in 0..last {
        put_double(alloc, before, &mut text)?;
    }
    let end = format!(in alloc;
        "Inv == D{last} = 0\n>30 check Row.tla 2\nrefused: {nodes} nodes after expansion of Inv"
    )?;
    text.push_str(end.as_str())?;
    Ok(text)
}

fn put_double(alloc: Global, before: usize, text: &mut String) -> Result<(), AllocError> {
    let next = before.saturating_add(1);
    let line = format!(in alloc; "D{next} == D{before} + D{before}\n")?;
    text.push_str(line.as_str())
}

fn doubling_report(alloc: Global, last: usize, nodes: u64) -> Result<String, AllocError> {
    let text = doubling(alloc, last, nodes)?;
    report_of(alloc, "", text.as_str())
}

#[test]
fn more_than_a_million_nodes_are_refused(rt: HostRuntime) -> Result<(), Fail> {
    passes(&rt, doubling_report(rt.alloc(), 18, 1_048_577), "1 right")?;
    passes(
        &rt,
        doubling_report(rt.alloc(), 60, 1_000_000_000_000),
        "1 right",
    )
}
