// What users write: sets of modules with what is expected of them, in the form that `reader` reads.

pub(crate) const USERS: &str = r##">case CHOOSE in an invariant
>file Row
---- MODULE Row ----
EXTENDS Integers, Sequences, FiniteSets
VARIABLE
  \* @type: Int;
  x
Init == x = 0
Next == x' = x
Inv == x = CHOOSE y \in {0}: TRUE
====
>job Init Next - Inv
refused: CHOOSE is reached at Row:8:12
>types Init Next - Inv
refused: CHOOSE is reached at Row:8:12
>job Init Next -
cinit TRUE
assume TRUE
init (Eq $x 0)
next (Eq $x' $x)

>case a PlusCal translation
>file Plus
---- MODULE Plus ----
EXTENDS Integers, TLC
\* BEGIN TRANSLATION
VARIABLES
  \* @type: Int -> Str;
  pc,
  \* @type: Int;
  x
vars == << pc, x >>
ProcSet == (1..2)
Init == (* Global variables *)
        /\ x = 0
        /\ pc = [self \in ProcSet |-> "a"]
a(self) == /\ pc[self] = "a"
           /\ x' = x + 1
           /\ pc' = [pc EXCEPT ![self] = "Done"]
p(self) == a(self)
Terminating == /\ \A self \in ProcSet: pc[self] = "Done"
               /\ UNCHANGED vars
Next == (\E self \in 1..2: p(self))
           \/ Terminating
Spec == Init /\ [][Next]_vars
Termination == <>(\A self \in ProcSet: pc[self] = "Done")
\* END TRANSLATION
Inv == x <= 2
====
>files Plus
>names pc x
>flat
variable pc Plus:6:3
variable x Plus:8:3
define vars/0 Plus:9:1
define ProcSet/0 Plus:10:1
define Init/0 Plus:11:1
define a/1 Plus:14:1
define p/1 Plus:17:1
define Terminating/0 Plus:18:1
define Next/0 Plus:20:1
define Spec/0 Plus:22:1
define Termination/0 Plus:23:1
define Inv/0 Plus:25:1
>job Init Next - Inv
cinit TRUE
assume TRUE
init (And%12:9 (Eq $x 0) (Eq $pc (Lambda%13:17 {self} (Range%10:14 1 2) "a")))
next (Or%21:12 (Exists%20:10 {self} (Range%20:23 1 2) (And%14:12 (Eq (Apply%14:17 $pc self%20:30) "a") (Eq $x'%15:15 (Add $x 1)) (Eq $pc'%16:15 (Except%16:21 [1] {@} $pc self%20:30 "Done")))) (And%18:16 (Forall {self} (Range%10:14 1 2) (Eq (Apply $pc self%18:43) "Done")) (And (Eq $pc'%9:12 $pc%9:12) (Eq $x'%9:16 $x%9:16))))
inv Inv (Le $x 2)
>types Init Next - Inv
pc: Int -> Str
x: Int
>expand Spec start
refused: TEMPORAL is reached at Plus:22:17
>expand Termination inv
refused: TEMPORAL is reached at Plus:23:16

>case definitions with parameters in a protocol
>file TwoPhase
---- MODULE TwoPhase ----
VARIABLES
  \* @type: Str -> Str;
  rm,
  \* @type: Str;
  tm,
  \* @type: Set(Str);
  ready,
  \* @type: Set({kind: Str, from: Str});
  msgs
RM == {"r1", "r2", "r3"}
Msg(k, f) == [kind |-> k, from |-> f]
Init == /\ rm = [r \in RM |-> "working"]
        /\ tm = "init" /\ ready = {} /\ msgs = {}
Receive(r) == /\ tm = "init" /\ Msg("Prepared", r) \in msgs
              /\ ready' = ready \cup {r}
              /\ UNCHANGED <<rm, tm, msgs>>
Decide(k, s) == /\ tm = "init" /\ tm' = s
                /\ msgs' = msgs \cup {Msg(k, "")}
                /\ UNCHANGED <<rm, ready>>
Obey(r, k, s) == /\ Msg(k, "") \in msgs
                 /\ rm' = [rm EXCEPT ![r] = s]
                 /\ UNCHANGED <<tm, ready, msgs>>
Next == \/ ready = RM /\ Decide("Commit", "committed")
        \/ \E r \in RM: \/ Receive(r)
                        \/ Obey(r, "Abort", "aborted")
Inv == \A a \in RM: \A b \in RM:
         ~(rm[a] = "aborted" /\ rm[b] = "committed")
====
>names rm tm ready msgs
>job Init Next - Inv
cinit TRUE
assume TRUE
init (And (Eq $rm (Lambda {r} (SetEnum "r1" "r2" "r3") "working")) (And (Eq $tm "init") (Eq $ready (SetEnum)) (Eq $msgs (SetEnum))))
next (Or (And (Eq $ready (SetEnum "r1" "r2" "r3")) (And (And (Eq $tm "init") (Eq $tm' "committed")) (Eq $msgs' (Cup $msgs (SetEnum (Record [kind from] "Commit" "")))) (And (Eq $rm' $rm) (Eq $ready' $ready)))) (Exists {r} (SetEnum "r1" "r2" "r3") (Or (And (And (Eq $tm "init") (In (Record [kind from] "Prepared" r) $msgs)) (Eq $ready' (Cup $ready (SetEnum r))) (And (Eq $rm' $rm) (Eq $tm' $tm) (Eq $msgs' $msgs))) (And (In (Record [kind from] "Abort" "") $msgs) (Eq $rm' (Except [1] {@} $rm r "aborted")) (And (Eq $tm' $tm) (Eq $ready' $ready) (Eq $msgs' $msgs))))))
inv Inv (Forall {a} (SetEnum "r1" "r2" "r3") (Forall {b} (SetEnum "r1" "r2" "r3") (Not (And (Eq (Apply $rm a) "aborted") (Eq (Apply $rm b) "committed")))))

>case records, sets of functions and CASE behind definitions
>file Root
---- MODULE Root ----
EXTENDS Integers
VARIABLES r, f
Set(n) == 0..n
Rec(a, b) == [lo |-> a, hi |-> b]
Recs(S) == [lo: S, hi: Set(2)]
Funs(S, T) == [S -> T]
Three(S) == S \X Set(1) \X BOOLEAN
Pick(e) == CASE e.lo = 1 -> e.hi [] e.lo = 2 -> 0 [] OTHER -> -e.lo
Part(e) == CASE e.lo = 1 -> e.hi [] e.lo = 2 -> 0
All == {<<i, j>>: i, j \in Set(1), k \in Set(2)}
Inv == /\ r \in Recs(Set(1)) /\ f \in Funs(Set(1), SUBSET Set(2)) /\ r \in Three({r})
       /\ Pick(Rec(1, 2)) = Part([r EXCEPT !.lo = Pick(r)]) /\ f[1, 2] \subseteq UNION {Set(3), DOMAIN f} /\ All = {}
====
>expand Inv inv
(And (And (In $r (RecSet [lo hi] (Range 0 1) (Range 0 2))) (In $f (FunSet (Range 0 1) (Powerset (Range 0 2))))
    (In $r (Product%8:15 (SetEnum $r) (Range 0 1) BooleanSet)))
  (And (Eq
      (Case [other] (Eq (Field%9:18 [lo] (Record [lo hi] 1 2)) 1) (Field [hi] (Record [lo hi] 1 2))
        (Eq (Field [lo] (Record [lo hi] 1 2)) 2) 0 (Neg%9:63 (Field [lo] (Record [lo hi] 1 2))))
      (Case [] (Eq (Field [lo] (Except [1] {@} $r "lo"%13:45 (Case [other] (Eq (Field [lo] $r) 1) (Field [hi] $r) (Eq (Field [lo] $r) 2) 0 (Neg (Field [lo] $r))))) 1)
        (Field [hi] (Except [1] {@} $r "lo" (Case [other] (Eq (Field [lo] $r) 1) (Field [hi] $r) (Eq (Field [lo] $r) 2) 0 (Neg (Field [lo] $r)))))
        (Eq (Field [lo] (Except [1] {@} $r "lo" (Case [other] (Eq (Field [lo] $r) 1) (Field [hi] $r) (Eq (Field [lo] $r) 2) 0 (Neg (Field [lo] $r))))) 2) 0))
    (SubsetEq (Apply%13:65 $f (Tuple%13:65 1 2)) (BigUnion (SetEnum (Range 0 3) (Domain $f))))
    (Eq (MapTo {i j k} (Range 0 1) (Range 0 1) (Range 0 2) (Tuple i j)) (SetEnum))))

>case an annotated definition whose parameter stands under UNCHANGED
>file Root
---- MODULE Root ----
VARIABLES x, y
\* @type: (Int) => Bool;
Keep(v) == UNCHANGED v
One == Keep(x)
Two == Keep(<<x, y>>)
====
>expand One step
(Noted%4:1 [0 (Int) => Bool] (Eq (Noted%4:1 [1 (Int) => Bool] $x'%5:13) (Noted%4:1 [1 (Int) => Bool] $x%5:13)))
>expand Two step
(Noted%4:1 [0 (Int) => Bool] (And (Eq $x' $x) (Eq $y' $y)))

>case an argument under every kind of binder
>file Root
---- MODULE Root ----
EXTENDS Integers, Apalache
VARIABLE s
All(a) == \A y \in {a}: y = a
Sub(a) == {y \in {a}: y = a}
Map(a) == {y + a: y \in {a}}
Fun(a) == [y \in {a}, z \in {a} |-> y + a]
Fold(a) == ApaFoldSeqLeft(LAMBDA y, z: y + z + a, a, s)
Inv == \E y \in {1}: All(y) /\ Sub(y) = Map(y) /\ Fun(y)[y, y] = Fold(y)
====
>expand Inv inv
(Exists {y} (SetEnum 1) (And
  (Forall {?1} (SetEnum y) (Eq ?1 y))
  (Eq (Filter {?2} (SetEnum y) (Eq ?2 y)) (MapTo {?3} (SetEnum y) (Add ?3 y)))
  (Eq (Apply (Lambda {?4 z} (SetEnum y) (SetEnum y) (Add ?4 y)) (Tuple y y)) (Fold {?5 z} (Add (Add ?5 z) y) y $s))))

>case a fold by name that reads a bound name called a
>file Root
---- MODULE Root ----
EXTENDS Integers, Apalache
VARIABLE s
Inv == \E a \in {1}: LET op(m, n) == m * n + a IN ApaFoldSeqLeft(op, a, s) = a
====
>expand Inv inv
(Exists {a} (SetEnum 1) (Eq (Fold {?1 b} (Add (Mul ?1 b) a) a $s) a))

>case field names are no names
>file Root
---- MODULE Root ----
VARIABLES x, r
Inv == [x |-> x, gone |-> 1].x = [r EXCEPT !.x = x, !.none[r.x] = @].x /\ r \in [x: {x}, r: {r}]
====
>expand Inv inv
(And (Eq (Field%3:29 [x] (Record%3:8 [x gone] $x%3:15 1)) (Field [x] (Except%3:34 [1 2] {@} $r "x"%3:45 $x "none"%3:54 (Field [x] $r) @)))
  (In $r (RecSet [x r] (SetEnum $x) (SetEnum $r))))

>case a standard name that is bound
>file Root
---- MODULE Root ----
EXTENDS Sequences
A == \E Nat \in {1}: Nat = 1
B == \E Head \in {1}: Head = 1
====
>refused refused: name Head is declared at Root:1:1 and at Root:4:6

>case a standard name by EXTENDS and by an instance
>file Root
---- MODULE Root ----
EXTENDS Integers
INSTANCE M
I == INSTANCE M
Inv == Op \subseteq Nat /\ I!Op \subseteq I!Nat
====
>file M
---- MODULE M ----
EXTENDS Naturals
Op == {1} \cup {n \in {2}: n \in Nat}
====
>files Root M
>flat
define Op/0 M:3:1
define I!Op/0 M:3:1
define Inv/0 Root:5:1
>expand Inv inv
(And (SubsetEq%5:11 (Cup%1:3:11 (SetEnum 1) (Filter {n} (SetEnum 2) (In n NatSet))) NatSet%5:21)
  (SubsetEq%5:33 (Cup (SetEnum 1) (Filter {n} (SetEnum 2) (In n NatSet))) NatSet%5:43))

>case an annotation in an instance
>file Root
---- MODULE Root ----
VARIABLE x
I == INSTANCE M WITH c <- x, v <- x
Next == I!Op(2)
====
>file M
---- MODULE M ----
CONSTANT
  \* @type: Int;
  c
VARIABLE
  \* @type: Int;
  v
\* @type: (Int) => Bool;
Op(n) == v' = c + n
====
>expand Next step
(Noted%1:9:1 [0 (Int) => Bool] (Eq $x'%3:35 (Add%1:9:17 $x%3:27 (Noted%1:9:1 [1 (Int) => Bool] 2%4:14))))
"##;
