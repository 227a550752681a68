// Modules with one variable, and what is answered of their check. Expected lines are written by hand, from the meaning of
// the language (Specifying Systems, chapter 16).
use crate::tests::sets::{passes, report_of};
use std::test::Fail;

// A module that one case has an instance of.
const INC: &str = r#"
>file Inc.tla
---- MODULE Inc ----
EXTENDS Integers
CONSTANT
  \* @type: Int;
  c
Add(a) == a + c
===="#;

const ROWS: &str = r#"
>set
>row Int
Init == x = 1 /\ x = 2
Next == x' = x
Inv == FALSE
>0 check Row.tla 10
no error to 10
>set
>row Int -> Int
Init == x = [i \in 1..3 |-> i]
Next == x[9] = 0 /\ x' = x
Inv == TRUE
>12 check Row.tla 1
error at level 1: step is outside an operator's domain at Row:7:10
state 0
/\ x = <<1, 2, 3>>
attempt
/\ x = <<1, 2, 3>>
>set
>row Int -> Int
Init == x = [i \in 1..3 |-> i]
Next == x' = x
Inv == ~(9 \in DOMAIN x /\ x[9] = 1)
>0 check Row.tla 0
no error to 0
>set
>row Int -> Int
Init == x = [i \in 1..3 |-> i]
Next == x' = x
Inv == \E i \in 1..4: x[i] = 1
>12 check Row.tla 0
error at level 0: invariant Inv is outside an operator's domain at Row:8:24
state 0
/\ x = <<1, 2, 3>>
>set
>row Int
Init == x = 0
Next == \/ x' = 1
        \/ x' = 1 /\ 1 \div x = 2
Inv == TRUE
>12 check Row.tla 1
error at level 1: step is outside an operator's domain at Row:8:24
state 0
/\ x = 0
attempt
/\ x = 1
>set
>row Int
Init == x = 0
Next == x' \in {}
Inv == x = 0
>0 check Row.tla 10
no error to 10
>set
>row Int -> Int
Init == x = [i \in 1..3 |-> i]
Next == x' = x
Inv == [x EXCEPT ![9] = 0] = x
>0 check Row.tla 0
no error to 0
>set
>row Int
Init == x = 1
Next == x' = x
Inv == Cardinality({1, x}) = 1
>0 check Row.tla 2
no error to 2
>set
>row Int -> Int
Init == x = [i \in {1} |-> 1]
Next == x' \in [{x[1], 1} -> 1..2]
Inv == DOMAIN x = {1}
>0 check Row.tla 1
no error to 1
>set
>row Int -> Int
Init == x = [i \in {1} |-> 1]
Next == x' \in [{x[1], 1} -> 1..2]
Inv == x[1] = 1
>12 check Row.tla 1
error at level 1: invariant Inv is FALSE
state 0
/\ x = <<1>>
state 1
/\ x = <<2>>
>set
>row Int
Init == x = 0
Next == x' = 1 \/ x = 0
Inv == TRUE
>30 check Row.tla 10
refused: name x is not assigned on the path at Row:7:21
>set
>row Bool
Init == x = TRUE
Next == x' = x
Inv == \A S \in SUBSET (1..16): x
>0 check Row.tla 0
no error to 0
>set
>row Bool
Init == x = TRUE
Next == x' = x
Inv == \A S \in SUBSET (1..17): x
>30 check Row.tla 0
refused: 131072 members at level 0 at Row:8:17
>set
>row Bool
Init == x = FALSE
Next == x' = x
Inv == \/ TRUE
       \/ x
       /\ x
>12 check Row.tla 0
error at level 0: invariant Inv is FALSE
state 0
/\ x = FALSE
>set
>row Bool
Init == x = FALSE
Next == x' = x
Inv == \/ TRUE
       \/ x
        /\ x
>0 check Row.tla 0
no error to 0
>set
>row Seq(Int)
Init == x = <<1, 2>>
Next == x' = Append(x, 3)
Inv == Len(x) < 4 /\ Head(Tail(x)) = 2
>12 check Row.tla 5
error at level 2: invariant Inv is FALSE
state 0
/\ x = <<1, 2>>
state 1
/\ x = <<1, 2, 3>>
state 2
/\ x = <<1, 2, 3, 3>>
>set
>row Seq(Int)
Init == x = <<1, 2>>
Next == x' = Append(x, 3)
Inv == Tail(Tail(Tail(x))) = <<>>
>12 check Row.tla 5
error at level 0: invariant Inv is outside an operator's domain at Row:8:8
state 0
/\ x = <<1, 2>>
>set
>row Int
I == INSTANCE Inc WITH c <- 2
Init == x = 0
Next == x' = I!Add(x)
Inv == x # 4
>12 check Row.tla 3
error at level 2: invariant Inv is FALSE
state 0
/\ x = 0
state 1
/\ x = 2
state 2
/\ x = 4
>set
>row Int
Init == x = 2147483647
Next == x' = x
Inv == x + 1 > x
>20 check Row.tla 0
unknown: integer out of range at level 0: invariant Inv at Row:8:10
state 0
/\ x = 2147483647
>set
>row Int
ASSUME 1 = 2
Init == x = 5
Next == x' = x
Inv == FALSE
>0 check Row.tla 1
no error to 1
>set
>row Int -> Bool
Init == x \in [1..40 -> BOOLEAN]
Next == x' \in [1..40 -> BOOLEAN]
Inv == \A i \in 1..40: x[i] \in BOOLEAN
>0 check Row.tla 3
no error to 3"#;

#[test]
fn modules_are_checked_as_they_say(rt: HostRuntime) -> Result<(), Fail> {
    passes(&rt, report_of(rt.alloc(), INC, ROWS), "21 right")
}
