// Modules, and the kernels of the jobs that they make, in the form that `samples` tells. What is expected was written
// from the texts and the rows of the reduction, and not from what is answered.

pub(crate) const TOGGLE: &str = r#"---- MODULE Toggle ----
VARIABLE
  \* @type: Bool;
  x
Init == x = FALSE
Next == \/ x = FALSE /\ x' = TRUE
        \/ x = TRUE /\ x' = FALSE
Inv == x = FALSE
====
"#;

pub(crate) const TOGGLE_KERNEL: &str = r#"names x: Bool;
texts
cinit TRUE
assume TRUE
init (equal x FALSE)
next (or (and (equal x FALSE) (equal x' TRUE)) (and (equal x TRUE) (equal x' FALSE)))
inv (equal x FALSE)
"#;

pub(crate) const DIE_HARD: &str = r#"---- MODULE DieHard ----
EXTENDS Integers
VARIABLES
  \* @type: Int;
  big,
  \* @type: Int;
  small
Init == big = 0 /\ small = 0
ToBig == IF big + small <= 5
  THEN big' = big + small /\ small' = 0
  ELSE big' = 5 /\ small' = small - (5 - big)
ToSmall == IF big + small <= 3
  THEN big' = 0 /\ small' = big + small
  ELSE big' = big - (3 - small) /\ small' = 3
Next == \/ big' = 5 /\ small' = small
        \/ big' = big /\ small' = 3
        \/ big' = 0 /\ small' = small
        \/ big' = big /\ small' = 0
        \/ ToBig
        \/ ToSmall
Inv == big # 4
====
"#;

pub(crate) const DIE_HARD_KERNEL: &str = r#"names big: Int; small: Int;
texts
cinit TRUE
assume TRUE
init (and (equal big 0) (equal small 0))
next (or (and (equal big' 5) (equal small' small)) (and (equal big' big) (equal small' 3)) (and (equal big' 0) (equal small' small)) (and (equal big' big) (equal small' 0)) (if (not (less 5 (plus big small))) (and (equal big' (plus big small)) (equal small' 0)) (and (equal big' 5) (equal small' (minus small (minus 5 big))))) (if (not (less 3 (plus big small))) (and (equal big' 0) (equal small' (plus big small))) (and (equal big' (minus big (minus 3 small))) (equal small' 3))))
inv (not (equal big 4))
"#;

pub(crate) const TWO_PHASE: &str = r#"---- MODULE TwoPhase ----
VARIABLES
  \* @type: Str -> Str;
  rm,
  \* @type: Str;
  tm,
  \* @type: Set(Str);
  ready,
  \* @type: Set({kind: Str, from: Str});
  msgs
RM == {"r1", "r2", "r3"}
Msg(k, f) == [kind |-> k, from |-> f]
Init == /\ rm = [r \in RM |-> "working"]
        /\ tm = "init" /\ ready = {} /\ msgs = {}
Receive(r) == /\ tm = "init" /\ Msg("Prepared", r) \in msgs
              /\ ready' = ready \cup {r}
              /\ UNCHANGED <<rm, tm, msgs>>
Decide(k, s) == /\ tm = "init" /\ tm' = s
                /\ msgs' = msgs \cup {Msg(k, "")}
                /\ UNCHANGED <<rm, ready>>
Prepare(r) == /\ rm[r] = "working"
              /\ rm' = [rm EXCEPT ![r] = "prepared"]
              /\ msgs' = msgs \cup {Msg("Prepared", r)}
              /\ UNCHANGED <<tm, ready>>
Give(r) == /\ rm[r] = "working"
           /\ rm' = [rm EXCEPT ![r] = "aborted"]
           /\ UNCHANGED <<tm, ready, msgs>>
Obey(r, k, s) == /\ Msg(k, "") \in msgs
                 /\ rm' = [rm EXCEPT ![r] = s]
                 /\ UNCHANGED <<tm, ready, msgs>>
Next == \/ ready = RM /\ Decide("Commit", "committed")
        \/ Decide("Abort", "aborted")
        \/ \E r \in RM: \/ Receive(r) \/ Prepare(r) \/ Give(r)
                        \/ Obey(r, "Commit", "committed")
                        \/ Obey(r, "Abort", "aborted")
Inv == \A a \in RM: \A b \in RM:
         ~(rm[a] = "aborted" /\ rm[b] = "committed")
====
"#;

pub(crate) const TWO_PHASE_KERNEL: &str =
    r#"names rm: Str -> Str; tm: Str; ready: Set(Str); msgs: Set({kind: Str, from: Str});
texts "r1" "r2" "r3" "working" "init" "committed" "Commit" "" "aborted" "Abort" "Prepared" "prepared"
cinit TRUE
assume TRUE
init (and (equal rm (fun-of [0] {"r1" "r2" "r3"} "working")) (and (equal tm "init") (equal ready {}) (equal msgs {})))
next (or (and (equal ready {"r1" "r2" "r3"}) (and (and (equal tm "init") (equal tm' "committed")) (equal msgs' (union msgs {(rec-of [kind from] "Commit" "")})) (and (equal rm' rm) (equal ready' ready)))) (and (and (equal tm "init") (equal tm' "aborted")) (equal msgs' (union msgs {(rec-of [kind from] "Abort" "")})) (and (equal rm' rm) (equal ready' ready))) (some [0] {"r1" "r2" "r3"} (or (or (and (and (equal tm "init") (member (rec-of [kind from] "Prepared" #0) msgs)) (equal ready' (union ready {#0})) (and (equal rm' rm) (equal tm' tm) (equal msgs' msgs))) (and (equal (at rm #0) "working") (equal rm' (update [3] rm #0 "prepared")) (equal msgs' (union msgs {(rec-of [kind from] "Prepared" #0)})) (and (equal tm' tm) (equal ready' ready))) (and (equal (at rm #0) "working") (equal rm' (update [3] rm #0 "aborted")) (and (equal tm' tm) (equal ready' ready) (equal msgs' msgs)))) (and (member (rec-of [kind from] "Commit" "") msgs) (equal rm' (update [3] rm #0 "committed")) (and (equal tm' tm) (equal ready' ready) (equal msgs' msgs))) (and (member (rec-of [kind from] "Abort" "") msgs) (equal rm' (update [3] rm #0 "aborted")) (and (equal tm' tm) (equal ready' ready) (equal msgs' msgs))))))
inv (every [0] {"r1" "r2" "r3"} (every [1] {"r1" "r2" "r3"} (not (and (equal (at rm #0) "aborted") (equal (at rm #1) "committed")))))
"#;

pub(crate) const PLUS: &str = r#"---- MODULE Plus ----
EXTENDS Integers, TLC
\* BEGIN TRANSLATION
VARIABLES
  \* @type: Int -> Str;
  pc,
  \* @type: Int;
  x
vars == << pc, x >>
ProcSet == (1..2)
Init == (* Global variables *)
        /\ x = 0
        /\ pc = [self \in ProcSet |-> "a"]
a(self) == /\ pc[self] = "a"
           /\ x' = x + 1
           /\ pc' = [pc EXCEPT ![self] = "Done"]
p(self) == a(self)
Terminating == /\ \A self \in ProcSet: pc[self] = "Done"
               /\ UNCHANGED vars
Next == (\E self \in 1..2: p(self))
           \/ Terminating
Spec == Init /\ [][Next]_vars
Termination == <>(\A self \in ProcSet: pc[self] = "Done")
\* END TRANSLATION
Inv == x <= 2
====
"#;

pub(crate) const PLUS_KERNEL: &str = r#"names pc: Int -> Str; x: Int;
texts "a" "Done"
cinit TRUE
assume TRUE
init (and (equal x 0) (equal pc (fun-of [0] (range 1 2) "a")))
next (or (some [0] (range 1 2) (and (equal (at pc #0) "a") (equal x' (plus x 1)) (equal pc' (update [3] pc #0 "Done")))) (and (every [0] (range 1 2) (equal (at pc #0) "Done")) (and (equal pc' pc) (equal x' x))))
inv (not (less 2 x))
"#;

pub(crate) const RING: &str = r#"---- MODULE Ring ----
EXTENDS Integers
VARIABLE
  \* @type: Int -> Bool;
  token
Init == token = [i \in 1..3 |-> i = 1]
Next == \E i \in 1..3: token[i] /\ token' = [token EXCEPT
  ![i] = FALSE, ![IF i = 3 THEN 1 ELSE i + 1] = TRUE]
Inv == \A i \in 1..3: \A j \in 1..3: token[i] /\ token[j] => i = j
====
"#;

pub(crate) const RING_KERNEL: &str = r#"names token: Int -> Bool;
texts
cinit TRUE
assume TRUE
init (equal token (fun-of [0] (range 1 3) (equal #0 1)))
next (some [0] (range 1 3) (and (at token #0) (equal token' (first (fold-left [1 2] (push #1 (update [3] (update [3] (item [1] #2) (item [1] (item [2] #2)) FALSE) (item [2] (item [2] #2)) TRUE)) (seq-of) (seq-of <token <#0 (if (equal #0 3) 1 (plus #0 1))>>))))))
inv (every [0] (range 1 3) (every [1] (range 1 3) (not (and (and (at token #0) (at token #1)) (not (equal #0 #1))))))
"#;

// A constant, and an operator that is used under an assumption too.
pub(crate) const INC: &str = r#"---- MODULE Counting ----
EXTENDS Inc
VARIABLE
  \* @type: Int;
  x
ASSUME c > 0
CInit == c = 1 \/ c = 2
Init == x = Add(0)
Next == x' = Add(x)
Inv == Add(x) >= c
====
---- MODULE Inc ----
EXTENDS Integers
CONSTANT
  \* @type: Int;
  c
Add(n) == n + c
====
"#;

pub(crate) const INC_KERNEL: &str = r#"names constant c: Int; x: Int;
texts
cinit (or (equal c 1) (equal c 2))
assume (less 0 c)
init (equal x (plus 0 c))
next (equal x' (plus x c))
inv (not (less (plus x c) c))
"#;

// A set that no value is, where a value stands.
pub(crate) const ROW: &str = r#"---- MODULE Row ----
EXTENDS Integers
VARIABLE
  \* @type: Int;
  x
Init == x = 0
Next == x' = x
Inv == \A i \in Int: i = i
====
"#;
