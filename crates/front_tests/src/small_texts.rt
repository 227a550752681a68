// The other modules of examples/, written by docs/protocols.py.
pub(crate) const SMALL: &str = r#"
>root Toggle 1 2
---- MODULE Toggle ----
VARIABLE
  \* @type: Bool;
  x
Init == x = FALSE
Next == \/ x = FALSE /\ x' = TRUE
        \/ x = TRUE /\ x' = FALSE
Inv == x = FALSE
====
>root Hall 1 2
---- MODULE Hall ----
(* A hall with two lamps. Whoever passes lights the one at the door, and then
   the last one out switches both off: the hall is dark after two steps. *)
VARIABLES
  \* @type: Bool;
  door,
  \* @type: Bool;
  stairs

Door == INSTANCE Lamp WITH on <- door
Stairs == INSTANCE Lamp WITH on <- stairs

Init == Door!Is(FALSE) /\ Stairs!Is(TRUE)
Next == \/ Door!Switch(FALSE, TRUE) /\ Stairs!Switch(TRUE, TRUE)
        \/ Door!Switch(TRUE, FALSE) /\ Stairs!Is(FALSE)'

\* One is lit. It does not hold.
Inv == Stairs!Is(TRUE)
====
>part Lamp
---- MODULE Lamp ----
(* A lamp, which is lit or not. *)
VARIABLE
  \* @type: Bool;
  on

Is(b) == on = b
Switch(a, b) == Is(a) /\ Is(b)'
====
>root DieHard 1 8
---- MODULE DieHard ----
EXTENDS Integers
VARIABLES
  \* @type: Int;
  big,
  \* @type: Int;
  small
Init == big = 0 /\ small = 0
ToBig == IF big + small <= 5
  THEN big' = big + small /\ small' = 0
  ELSE big' = 5 /\ small' = small - (5 - big)
ToSmall == IF big + small <= 3
  THEN big' = 0 /\ small' = big + small
  ELSE big' = big - (3 - small) /\ small' = 3
Next == \/ big' = 5 /\ small' = small
        \/ big' = big /\ small' = 3
        \/ big' = 0 /\ small' = small
        \/ big' = big /\ small' = 0
        \/ ToBig
        \/ ToSmall
Inv == big # 4
====
>root TwoPhase 1 7
---- MODULE TwoPhase ----
VARIABLES
  \* @type: Str -> Str;
  rm,
  \* @type: Str;
  tm,
  \* @type: Set(Str);
  ready,
  \* @type: Set({kind: Str, from: Str});
  msgs
RM == {"r1", "r2", "r3"}
Msg(k, f) == [kind |-> k, from |-> f]
Init == /\ rm = [r \in RM |-> "working"]
        /\ tm = "init" /\ ready = {} /\ msgs = {}
Receive(r) == /\ tm = "init" /\ Msg("Prepared", r) \in msgs
              /\ ready' = ready \cup {r}
              /\ UNCHANGED <<rm, tm, msgs>>
Decide(k, s) == /\ tm = "init" /\ tm' = s
                /\ msgs' = msgs \cup {Msg(k, "")}
                /\ UNCHANGED <<rm, ready>>
Prepare(r) == /\ rm[r] = "working"
              /\ rm' = [rm EXCEPT ![r] = "prepared"]
              /\ msgs' = msgs \cup {Msg("Prepared", r)}
              /\ UNCHANGED <<tm, ready>>
Give(r) == /\ rm[r] = "working"
           /\ rm' = [rm EXCEPT ![r] = "aborted"]
           /\ UNCHANGED <<tm, ready, msgs>>
Obey(r, k, s) == /\ Msg(k, "") \in msgs
                 /\ rm' = [rm EXCEPT ![r] = s]
                 /\ UNCHANGED <<tm, ready, msgs>>
Next == \/ ready = RM /\ Decide("Commit", "committed")
        \/ Decide("Abort", "aborted")
        \/ \E r \in RM: \/ Receive(r) \/ Prepare(r) \/ Give(r)
                        \/ Obey(r, "Commit", "committed")
                        \/ Obey(r, "Abort", "aborted")
Inv == \A a \in RM: \A b \in RM:
         ~(rm[a] = "aborted" /\ rm[b] = "committed")
====
>root Plus 1 2
---- MODULE Plus ----
EXTENDS Integers, TLC
\* BEGIN TRANSLATION
VARIABLES
  \* @type: Int -> Str;
  pc,
  \* @type: Int;
  x
vars == << pc, x >>
ProcSet == (1..2)
Init == (* Global variables *)
        /\ x = 0
        /\ pc = [self \in ProcSet |-> "a"]
a(self) == /\ pc[self] = "a"
           /\ x' = x + 1
           /\ pc' = [pc EXCEPT ![self] = "Done"]
p(self) == a(self)
Terminating == /\ \A self \in ProcSet: pc[self] = "Done"
               /\ UNCHANGED vars
Next == (\E self \in 1..2: p(self))
           \/ Terminating
Spec == Init /\ [][Next]_vars
Termination == <>(\A self \in ProcSet: pc[self] = "Done")
\* END TRANSLATION
Inv == x <= 2
====
>root Ring 1 1
---- MODULE Ring ----
(* One token on a ring of N places, which is always at one place. Inv: it is never at two. It
   holds. *)
EXTENDS Integers
VARIABLE
  \* @type: Int -> Bool;
  token
N == 4
Init == token = [i \in 1..N |-> i = 1]
Next == \E i \in 1..N: token[i] /\ token' = [token EXCEPT
  ![i] = FALSE, ![IF i = N THEN 1 ELSE i + 1] = TRUE]
Inv == \A i \in 1..N: \A j \in 1..N: token[i] /\ token[j] => i = j
====
>root Steps 1 1
---- MODULE Steps ----
(* A counter that goes up by an instance of the module Inc, whose constant is 2 there.
   Inv: the counter is not 4. It breaks at level 2. *)
EXTENDS Integers
VARIABLE
  \* @type: Int;
  counter
Two == INSTANCE Inc WITH c <- 2
Init == counter = 0
Next == counter' = Two!Add(counter)
Inv == counter # 4
====
>part Inc
---- MODULE Inc ----
EXTENDS Integers
CONSTANT
  \* @type: Int;
  c
Add(n) == n + c
====
"#;
