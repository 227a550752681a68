// A walk through thirteen states, which is checked from each of them on.
use crate::tests::sets::{passes, report_of};
use std::alloc::{AllocError, Global};
use std::test::Fail;

// The states, numbered by a, b, c and d; in the last one e is TRUE.
const STATES: &str = r#"a = FALSE /\ b = FALSE /\ c = FALSE /\ d = FALSE /\ e = FALSE
a = FALSE /\ b = FALSE /\ c = FALSE /\ d = TRUE /\ e = FALSE
a = FALSE /\ b = FALSE /\ c = TRUE /\ d = FALSE /\ e = FALSE
a = FALSE /\ b = FALSE /\ c = TRUE /\ d = TRUE /\ e = FALSE
a = FALSE /\ b = TRUE /\ c = FALSE /\ d = FALSE /\ e = FALSE
a = FALSE /\ b = TRUE /\ c = FALSE /\ d = TRUE /\ e = FALSE
a = FALSE /\ b = TRUE /\ c = TRUE /\ d = FALSE /\ e = FALSE
a = FALSE /\ b = TRUE /\ c = TRUE /\ d = TRUE /\ e = FALSE
a = TRUE /\ b = FALSE /\ c = FALSE /\ d = FALSE /\ e = FALSE
a = TRUE /\ b = FALSE /\ c = FALSE /\ d = TRUE /\ e = FALSE
a = TRUE /\ b = FALSE /\ c = TRUE /\ d = FALSE /\ e = FALSE
a = TRUE /\ b = FALSE /\ c = TRUE /\ d = TRUE /\ e = FALSE
a = TRUE /\ b = TRUE /\ c = FALSE /\ d = FALSE /\ e = TRUE"#;

// The module up to the state in which it starts, and behind it.
const HEAD: &str = r#"
>set
>file Toggle.tla
---- MODULE Toggle ----
VARIABLES
  \* @type: Bool;
  a,
  \* @type: Bool;
  b,
  \* @type: Bool;
  c,
  \* @type: Bool;
  d,
  \* @type: Bool;
  e
Init == "#;

const TAIL: &str = r#"
Next == \/ a = FALSE /\ b = FALSE /\ c = FALSE /\ d = FALSE /\ a' = FALSE /\ b' = FALSE /\ c' = FALSE /\ d' = TRUE /\ e' = FALSE
        \/ a = FALSE /\ b = FALSE /\ c = FALSE /\ d = TRUE /\ a' = FALSE /\ b' = FALSE /\ c' = TRUE /\ d' = FALSE /\ e' = FALSE
        \/ a = FALSE /\ b = FALSE /\ c = TRUE /\ d = FALSE /\ a' = FALSE /\ b' = FALSE /\ c' = TRUE /\ d' = TRUE /\ e' = FALSE
        \/ a = FALSE /\ b = FALSE /\ c = TRUE /\ d = TRUE /\ a' = FALSE /\ b' = TRUE /\ c' = FALSE /\ d' = FALSE /\ e' = FALSE
        \/ a = FALSE /\ b = TRUE /\ c = FALSE /\ d = FALSE /\ a' = FALSE /\ b' = TRUE /\ c' = FALSE /\ d' = TRUE /\ e' = FALSE
        \/ a = FALSE /\ b = TRUE /\ c = FALSE /\ d = TRUE /\ a' = FALSE /\ b' = TRUE /\ c' = TRUE /\ d' = FALSE /\ e' = FALSE
        \/ a = FALSE /\ b = TRUE /\ c = TRUE /\ d = FALSE /\ a' = FALSE /\ b' = TRUE /\ c' = TRUE /\ d' = TRUE /\ e' = FALSE
        \/ a = FALSE /\ b = TRUE /\ c = TRUE /\ d = TRUE /\ a' = TRUE /\ b' = FALSE /\ c' = FALSE /\ d' = FALSE /\ e' = FALSE
        \/ a = TRUE /\ b = FALSE /\ c = FALSE /\ d = FALSE /\ a' = TRUE /\ b' = FALSE /\ c' = FALSE /\ d' = TRUE /\ e' = FALSE
        \/ a = TRUE /\ b = FALSE /\ c = FALSE /\ d = TRUE /\ a' = TRUE /\ b' = FALSE /\ c' = TRUE /\ d' = FALSE /\ e' = FALSE
        \/ a = TRUE /\ b = FALSE /\ c = TRUE /\ d = FALSE /\ a' = TRUE /\ b' = FALSE /\ c' = TRUE /\ d' = TRUE /\ e' = FALSE
        \/ a = TRUE /\ b = FALSE /\ c = TRUE /\ d = TRUE /\ a' = TRUE /\ b' = TRUE /\ c' = FALSE /\ d' = FALSE /\ e' = TRUE
Inv == e = FALSE
===="#;

// The module that starts in the state of this number.
fn put_module(number: usize, text: &mut String) -> Result<(), AllocError> {
    text.push_str(HEAD)?;
    text.push_str(STATES.lines().nth(number).unwrap_or(""))?;
    text.push_str(TAIL)
}

fn put_state(state: &str, text: &mut String) -> Result<(), AllocError> {
    for part in state.split(" /\\ ") {
        text.push_str("\n/\\ ")?;
        text.push_str(part)?;
    }
    Ok(())
}

fn put_states(alloc: Global, first: usize, text: &mut String) -> Result<(), AllocError> {
    for (number, state) in STATES.lines().skip(first).enumerate() {
        let head = format!(in alloc; "\nstate {number}")?;
        text.push_str(head.as_str())?;
        put_state(state, text)?;
    }
    Ok(())
}

// The walk from so many steps before its end on, and its trace.
fn put_walk(alloc: Global, steps: usize, text: &mut String) -> Result<(), AllocError> {
    let first = 12usize.saturating_sub(steps);
    let answer = format!(in alloc;
        "\n>12 check Toggle.tla 12\nerror at level {steps}: invariant Inv is FALSE"
    )?;
    put_module(first, text)?;
    text.push_str(answer.as_str())?;
    put_states(alloc, first, text)
}

fn walks(alloc: Global) -> Result<String, AllocError> {
    let mut text = String::new(alloc);
    for steps in 0..13 {
        put_walk(alloc, steps, &mut text)?;
    }
    put_module(0, &mut text)?;
    text.push_str("\n>0 check Toggle.tla 11\nno error to 11")?;
    Ok(text)
}

fn walks_report(alloc: Global) -> Result<String, AllocError> {
    let text = walks(alloc)?;
    report_of(alloc, "", text.as_str())
}

#[test]
fn an_error_is_found_at_each_least_level_to_twelve(rt: HostRuntime) -> Result<(), Fail> {
    passes(&rt, walks_report(rt.alloc()), "14 right")
}
