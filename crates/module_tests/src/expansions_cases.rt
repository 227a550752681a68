// Expansion: sets of modules with what is expected of them, in the form that `reader` reads.

pub(crate) const EXPANSIONS: &str = r##">case LET in LET with parameters
>file Root
---- MODULE Root ----
VARIABLE x
Twice(k) ==
  LET add(m) == LET step(n) == n + k + m IN step(step(m))
      base == add(1)
  IN add(base) * k
Inv == Twice(x) = 0
====
>expand Inv inv
(Eq (Mul%6:16
  (Add%4:38 (Add%4:34
      (Add (Add (Add (Add (Add (Add 1 $x) 1) $x) 1)
        $x) (Add (Add (Add (Add 1 $x) 1) $x) 1))
      $x) (Add (Add (Add (Add 1 $x) 1) $x) 1))
  $x) 0)

>case a LET name and a parameter of one name in different scopes
>file Root
---- MODULE Root ----
F(n) == n + 1
G(n) == LET k == F(n * 2) h(m) == F(m) + n IN h(k)
Inv == LET n == 5 IN G(n + F(n)) = 0
====
>expand Inv inv
(Eq (Add (Add (Add (Mul (Add 5 (Add 5 1)) 2) 1) 1) (Add 5 (Add 5 1))) 0)

>case a LET body keeps the binder of its place
>file Root
---- MODULE Root ----
VARIABLE s
Inv == \E i \in s: LET k == {i} h(m) == {m, i} IN \A j \in k: h(j) = k
====
>expand Inv inv
(Exists {i} $s (Forall {j} (SetEnum i) (Eq (SetEnum j i) (SetEnum i))))

>case an argument would be captured by a bound name
>file Root
---- MODULE Root ----
F(a) == \E y \in {1, 2}: y = a
Some == \A y \in {3, 4}: F(y)
Both == \A y \in {5}: F(y) /\ \E z \in {y}: F(z) = F(y)
====
>expand Some inv
(Forall%3:9 {y} (SetEnum 3 4) (Exists%2:9 {?1} (SetEnum 1 2) (Eq%2:28 ?1%2:26 y%3:28)))
>expand Both inv
(Forall {y} (SetEnum 5) (And (Exists {?1} (SetEnum 1 2) (Eq ?1 y))
  (Exists {z} (SetEnum y) (Eq (Exists {y} (SetEnum 1 2) (Eq y z)) (Exists {?2} (SetEnum 1 2) (Eq ?2 y))))))

>case an argument stands under two binders of its own name's kind
>file Root
---- MODULE Root ----
F(a, S) == \E y, z \in S: {y, z} = a
G(b) == [y \in b |-> F(y, b)]
Inv == {F(z, {z}): z \in {1}} = {G({y}): y \in {2}}
====
>expand Inv inv
(Eq (MapTo {z} (SetEnum 1) (Exists {y ?1} (SetEnum z) (SetEnum z) (Eq (SetEnum y ?1) z)))
  (MapTo {y} (SetEnum 2) (Lambda {?2} (SetEnum y) (Exists {y z} (SetEnum y) (SetEnum y) (Eq (SetEnum y z) ?2)))))

>case a parameter under a prime
>file Root
---- MODULE Root ----
CONSTANT c
VARIABLES x, y
P(a) == a' = a
Q(a, b) == P(a + b) /\ (a * c)' = b
Next == \E n \in {1}: P(x) /\ Q(y, x - n) /\ P(n)
====
>expand Next step
(Exists {n} (SetEnum 1) (And%6:28
  (Eq%4:12 $x'%6:25 $x%6:25)
  (And (Eq (Add $y'%6:33 (Sub $x'%6:36 n%6:40)) (Add $y (Sub $x n))) (Eq (Mul $y' $c) (Sub $x n)))
  (Eq n n)))

>case a prime over a defined action and over a use
>file Root
---- MODULE Root ----
VARIABLES x, y
A == x = 1 \/ y = x
B(a) == A' /\ (a = LET k == x IN k + y)'
Next == B(x) /\ (\E n \in {x}: n = y)' /\ [z \in {x} |-> x]'[y] = 1
====
>expand Next step
(And (And (Or%3:12 (Eq $x'%3:6 1) (Eq $y'%3:15 $x'%3:19)) (Eq $x'%5:11 (Add $x'%4:29 $y'%4:38)))
  (Exists {n} (SetEnum $x') (Eq n $y'))
  (Eq (Apply (Lambda {z} (SetEnum $x') $x') $y) 1))

>case a parameter under two primes
>file Root
---- MODULE Root ----
CONSTANT c
VARIABLE x
P(a) == a'
Good == P(P(c + 1)) = P(x)
One == x' = P(P(x))
Two == x' = 0 /\ P(x') = 1
Three == \E n \in {1}: P(n'') = n /\ P(P(P(n))) = P(x)'
Four == P(c)' = LET k == x' IN k'
====
>expand Good step
(Eq (Add $c%5:13 1) $x'%5:25)
>expand One step
refused: DOUBLE PRIME is reached at Root:6:17
>expand Two step
refused: DOUBLE PRIME is reached at Root:7:20
>expand Three step
refused: DOUBLE PRIME is reached at Root:8:53
>expand Four step
refused: DOUBLE PRIME is reached at Root:9:26

>case primes outside a step
>file Root
---- MODULE Root ----
CONSTANT c
VARIABLES x, y
P(a) == a'
Init == x = P(c) /\ y = (1 + c)'
Bad == x = 1 /\ P(y) = 2
Worse == x = 1 /\ P(P(y)) = x'
Same == UNCHANGED c
Kept == UNCHANGED x
None == UNCHANGED <<>>
====
>expand Init start
(And (Eq $x $c) (Eq $y (Add 1 $c)))
>expand Init inv
(And (Eq $x $c) (Eq $y (Add 1 $c)))
>expand Bad start
refused: PRIME is reached at Root:6:19
>expand Bad step
(And (Eq $x 1) (Eq $y'%6:19 2))
>expand Worse inv
refused: PRIME is reached at Root:7:23
>expand Worse step
refused: DOUBLE PRIME is reached at Root:7:23
>expand Same constants
(Eq $c $c)
>expand Kept inv
refused: PRIME is reached at Root:9:19
>expand None start
(And)

>case variables in CInit
>file Root
---- MODULE Root ----
VARIABLE x
CONSTANT c
CInit == c = 1 /\ c' = c
Seen == c = 1 /\ x = c
Primed == c = 1 /\ x' = x
Kept == UNCHANGED x
Twice == c = 1 /\ (x')' = c
====
>expand CInit constants
(And (Eq $c 1) (Eq $c $c))
>expand Seen constants
refused: VARIABLE is reached at Root:5:18
>expand Primed constants
refused: PRIME is reached at Root:6:20
>expand Kept constants
refused: PRIME is reached at Root:7:19
>expand Twice constants
refused: PRIME is reached at Root:8:20

>case UNCHANGED
>file Root
---- MODULE Root ----
CONSTANT c
VARIABLES x, y, z
vars == <<x, y>>
two(a) == <<a, <<y, z>>>>
pick == IF x = y THEN vars ELSE <<y, x>>
One == UNCHANGED x
Two == UNCHANGED <<x, y, z>>
Named == UNCHANGED vars
Nested == UNCHANGED <<vars, <<z>>, <<>>, c>>
Param == UNCHANGED two(x)
Let == UNCHANGED LET k == z IN <<k, x + k>>
Expr == UNCHANGED (x + y * c)
Choice == UNCHANGED pick
Field == UNCHANGED x[1]
====
>expand One step
(Eq $x'%7:18 $x%7:18)
>expand Two step
(And (Eq $x'%8:20 $x%8:20) (Eq $y' $y) (Eq $z' $z))
>expand Named step
(And (Eq $x'%4:11 $x%4:11) (Eq $y' $y))
>expand Nested step
(And (And (Eq $x' $x) (Eq $y' $y)) (And (Eq $z' $z)) (And) (Eq $c $c))
>expand Param step
(And (Eq $x'%11:24 $x%11:24) (And (Eq $y'%5:18 $y) (Eq $z' $z)))
>expand Let step
(And (Eq $z'%12:27 $z%12:27) (Eq (Add $x' $z') (Add $x $z)))
>expand Expr step
(Eq (Add%13:22 $x' (Mul $y' $c)) (Add%13:22 $x (Mul $y $c)))
>expand Choice step
(Eq (If%6:9 (Eq $x' $y') (Tuple%4:9 $x' $y') (Tuple%6:33 $y' $x')) (If (Eq $x $y) (Tuple $x $y) (Tuple $y $x)))
>expand Field step
(Eq (Apply $x' 1) (Apply $x 1))

>case UNCHANGED of a parameter, and under a prime
>file Root
---- MODULE Root ----
CONSTANT c
VARIABLES x, y
Keep(v) == UNCHANGED v
Both(a, b) == Keep(<<a, b>>) /\ Keep(a)
Next == Both(x, y)
Late == Keep(c)' /\ (\E n \in {x}: Keep(n))'
Bad == Keep(c)' /\ Keep(y)'
Worse == UNCHANGED (x')
====
>expand Next step
(And%5:30 (And (Eq $x'%6:14 $x%6:14) (Eq $y'%6:17 $y%6:17)) (Eq $x' $x))
>expand Late step
(And (Eq $c $c) (Exists {n} (SetEnum $x') (Eq n n)))
>expand Bad step
refused: DOUBLE PRIME is reached at Root:8:25
>expand Worse step
refused: DOUBLE PRIME is reached at Root:9:21

>case [A]_v and <<A>>_v
>file Root
---- MODULE Root ----
VARIABLES x, y
vars == <<x, y>>
A(n) == x' = n
Box == [A(1)]_x
BoxTuple == [A(1) \/ A(2)]_<<x, y>>
BoxVars == [A(x)]_vars
Angle == <<A(1)>>_y
AngleVars == <<A(y)>>_vars
AngleExpr == <<A(y)>>_(x + y)
Late == ([x = 1]_<<>>)' /\ (<<TRUE>>_(1))'
Bad == ([x = 1]_y)'
Prime == [x = 1]_x'
====
>expand Box step
(Or (Eq%4:12 $x'%4:9 1%5:11) (Eq $x'%5:15 $x%5:15))
>expand BoxTuple step
(Or (Or (Eq $x' 1) (Eq $x' 2)) (And (Eq $x' $x) (Eq $y' $y)))
>expand BoxVars step
(Or (Eq $x' $x%7:15) (And (Eq $x'%3:11 $x) (Eq $y' $y)))
>expand Angle step
(And (Eq $x' 1) (Not (Eq $y'%8:19 $y%8:19)))
>expand AngleVars step
(And (Eq $x' $y) (Not (And (Eq $x' $x) (Eq $y' $y))))
>expand AngleExpr step
(And (Eq $x' $y) (Not (Eq (Add $x' $y') (Add $x $y))))
>expand Late step
(And (Or (Eq $x' 1) (And)) (And TRUE (Not (Eq 1 1))))
>expand Bad step
refused: DOUBLE PRIME is reached at Root:12:17
>expand Prime step
refused: DOUBLE PRIME is reached at Root:13:18
>expand Box start
refused: PRIME is reached at Root:4:9

>case an Except's @ in an argument
>file Root
---- MODULE Root ----
VARIABLES f, g
Up(a) == [g EXCEPT ![1] = a]
Plain == [f EXCEPT ![1] = @ + 1]
Arg == [f EXCEPT ![1] = Up(@)]
ArgTwice == [f EXCEPT ![1] = Up(@)[1] + @]
Own(a) == [g EXCEPT ![a] = @ + a]
Both == [f EXCEPT ![1] = Own(@), ![2] = @]
Let == [f EXCEPT ![1] = LET old == @ IN [g EXCEPT ![2] = <<old, @>>]]
Index == [f EXCEPT ![1] = Own(1)]
====
>expand Plain inv
(Except%4:10 [1] {@} $f 1 (Add @%4:27 1))
>expand Arg inv
(Except%5:8 [1] {@} $f 1 (Except%3:10 [1] {?1} $g 1 @%5:28))
>expand ArgTwice inv
(Except [1] {@} $f 1 (Add (Apply (Except [1] {?1} $g 1 @) 1) @))
>expand Both inv
(Except [1 1] {@} $f 1 (Except%7:11 [1] {?1} $g @%8:30 (Add ?1%7:28 @%8:30)) 2 @%8:41)
>expand Let inv
(Except [1] {@} $f 1 (Except%9:41 [1] {?1} $g 2 (Tuple @%9:36 ?1%9:65)))
>expand Index inv
(Except [1] {@} $f 1 (Except [1] {@} $g 1 (Add @ 1)))

>case nested Excepts with @ of their own and of another
>file Root
---- MODULE Root ----
VARIABLE f
In(a, b) == [f EXCEPT ![1] = <<a, @, b>>]
Out(a) == [f EXCEPT ![2] = In(a, @)]
Three == [f EXCEPT ![3] = Out(@)]
Own == [f EXCEPT ![4] = [@ EXCEPT ![5] = @ + 1]]
Fields == [f EXCEPT !.a[1] = @, !.b.c = [f EXCEPT !.d = @], ![1, 2] = 3]
====
>expand Out inv
refused: no operator Out
>expand Three inv
(Except%5:10 [1] {@} $f 3 (Except%4:11 [1] {?1} $f 2 (Except%3:13 [1] {?2} $f 1 (Tuple @%5:31 ?2%3:35 ?1%4:34))))
>expand Own inv
(Except%6:8 [1] {@} $f 4 (Except%6:25 [1] {@} @%6:26 5 (Add @%6:42 1)))
>expand Fields inv
(Except [2 2 1] {@} $f "a"%7:22 1 @ "b"%7:34 "c"%7:36 (Except [1] {@} $f "d"%7:52 @) (Tuple%7:62 1 2) 3)

>case @ read under a prime, and primed
>file Root
---- MODULE Root ----
VARIABLES f, x
P(a) == a'
Next == f' = [f EXCEPT ![x] = P(@) + P(x)] /\ P([f EXCEPT ![x] = @]) = f
====
>expand Next step
(And (Eq $f' (Except [1] {@} $f $x (Add @%4:33 $x'%4:40))) (Eq (Except [1] {@} $f' $x' @) $f))

>case folds by LAMBDA and by name
>file Root
---- MODULE Root ----
EXTENDS Integers, Apalache
VARIABLES s, x
Plus(m, n) == m + n * x
Deep(m, n) == \E a \in {n}: a = m
I == INSTANCE M WITH k <- x
Lam == ApaFoldSeqLeft(LAMBDA p, q: p + q + x, 0, s)
Name == ApaFoldSeqLeft(Plus, x, s)
Inst == I!Op(2, 1)
Local == LET add(p, q) == p - q * x IN ApaFoldSeqLeft(add, 1, s)
Late == (ApaFoldSeqLeft(Plus, x, s))' = x
Capture == ApaFoldSeqLeft(Deep, 1, s)
InFold == ApaFoldSeqLeft(LAMBDA p, q: ApaFoldSeqLeft(Plus, p, q), x, s)
====
>file M
---- MODULE M ----
CONSTANT k
Op(u, v) == u * v + k
====
>expand Lam inv
(Fold%7:8 {p q} (Add (Add p q) $x) 0 $s)
>expand Name inv
(Fold%8:9 {a b} (Add%4:17 a (Mul b $x)) $x $s)
>expand Inst inv
(Add%1:3:19 (Mul 2 1) $x)
>expand Local inv
(Fold {a b} (Sub a (Mul b $x)) 1 $s)
>expand Late step
(Eq (Fold {a b} (Add a (Mul b $x'%4:23)) $x' $s') $x)
>expand Capture inv
(Fold {a b} (Exists {?1} (SetEnum b) (Eq ?1 a)) 1 $s)
>expand InFold inv
(Fold {p q} (Fold {a b} (Add a (Mul b $x)) p q) $x $s)

>case a fold by a name in whose scope a and b are
>file Root
---- MODULE Root ----
EXTENDS Integers, Apalache
VARIABLES a, s
Op(m, n) == m + n + a
Inv == \A b \in {1}: ApaFoldSeqLeft(Op, b, s) = a + b
Under(b) == LET op(m, n) == m + n + b IN ApaFoldSeqLeft(op, 0, s)
Inv2 == \E i \in {1}: Under(i) = i
====
>expand Inv inv
(Forall {b} (SetEnum 1) (Eq (Fold {a b} (Add (Add a b) $a) b $s) (Add $a b)))
>expand Inv2 inv
(Exists {i} (SetEnum 1) (Eq (Fold {a b} (Add (Add a b) i) 0 $s) i))

>case a fold by the name of a standard operator
>file Root
---- MODULE Root ----
EXTENDS Sequences, Apalache
VARIABLE s
Inv == ApaFoldSeqLeft(Append, <<>>, s) = s
====
>expand Inv inv
(Eq (Fold%4:8 {a b} (Append a b) (Tuple) $s) $s)

>case a fold by a name with another number of parameters
>file Root
---- MODULE Root ----
EXTENDS Apalache
VARIABLE s
One(a) == a
Inv == ApaFoldSeqLeft(One, 0, s) = ApaFoldSeqLeft(s, 0, s)
====
>refused refused: 2 arguments for 1 at Root:5:23

>case the names of a fold's LAMBDA may not repeat names in scope
>file Root
---- MODULE Root ----
EXTENDS Integers, Apalache
VARIABLE s
Inv == 1 = ApaFoldSeqLeft(LAMBDA a, s: a, 0, <<>>)
====
>refused refused: name s is declared at Root:3:10 and at Root:4:12

>case definitions that are aliases, and arguments that are not read
>file Root
---- MODULE Root ----
VARIABLE x
D0 == x
D1 == D0
D2 == LET k == D1 IN k
First(a, b) == a
Inv == First(D2, CHOOSE y \in {1}: TRUE) = LET bad == \E z: TRUE u(p) == bad IN First(1, u(bad))
Id(a) == a
Id2(a) == Id(Id(a))
Next == Id2(Id2(x))' = 1
====
>expand Inv inv
(Eq%7:42 $x%3:7 1%7:87)
>expand Next step
(Eq $x'%10:17 1)

>case POWER, TEMPORAL and ENABLED
>file Root
---- MODULE Root ----
EXTENDS Integers
VARIABLE x
three == 3
Good == x ^ 3 + 2 ^ 127 = 0
P0 == x ^ 0 = 0
P128 == x ^ 128 = 0
PDef == x ^ three = 0
PBoth == (CHOOSE y \in {1}: TRUE) ^ x = x ^ 0
Next == x' = x
Spec == x = 0 /\ [][Next]_x /\ WF_x(Next)
Fair == WF_x(Next)
Leads == x = 0 ~> x = 1
Event == <>(x = 1)
En == ENABLED Next
Later == \/ x = CHOOSE y \in {1}: TRUE
         \/ ENABLED Next
====
>expand Good inv
(Eq (Add (Pow%5:11 $x 3) (Pow 2 127)) 0)
>expand P0 inv
refused: POWER is reached at Root:6:9
>expand P128 inv
refused: POWER is reached at Root:7:11
>expand PBoth inv
refused: POWER is reached at Root:9:35
>expand Spec start
refused: TEMPORAL is reached at Root:11:18
>expand Fair step
refused: TEMPORAL is reached at Root:12:9
>expand Leads inv
refused: TEMPORAL is reached at Root:13:16
>expand Event inv
refused: TEMPORAL is reached at Root:14:10
>expand En inv
refused: ENABLED is reached at Root:15:7
>expand Later inv
refused: CHOOSE is reached at Root:16:17

>case the first form in preorder, not the least place
>file Root
---- MODULE Root ----
VARIABLE x
Early == x = CHOOSE y \in {1}: TRUE
Later == \E z: z = x
Inv == Later /\ Early
Deep == [a |-> Early, b |-> Later]
====
>expand Inv inv
refused: UNBOUNDED QUANTIFIER is reached at Root:4:10
>expand Deep inv
refused: CHOOSE is reached at Root:3:14

>case no operator
>file Root
---- MODULE Root ----
EXTENDS A
VARIABLE x
F(a) == a
I == INSTANCE B
Inv == F(x) = I!k
Nat == 1
====
>file A
---- MODULE A ----
LOCAL h == 1
k(a) == h
LOCAL J == INSTANCE B
====
>file B
---- MODULE B ----
k == 2
====
>flat
variable x Root:3:10
define !!/0 A:2:7
define k/1 A:3:1
define !!/0 B:2:1
define F/1 Root:4:1
define I!k/0 B:2:1
define Inv/0 Root:6:1
define Nat/0 Root:7:1
>expand F inv
refused: no operator F
>expand x inv
refused: no operator x
>expand h inv
refused: no operator h
>expand k inv
refused: no operator k
>expand I inv
refused: no operator I
>expand J!k inv
refused: no operator J!k
>expand Gone inv
refused: no operator Gone
>expand I!k inv
2%2:2:6
>expand Nat inv
1
>job Gone Gone2 Gone3 Gone4
refused: no operator Gone3
>job Gone Gone2 - Gone4
refused: no operator Gone
>job Nat Gone2 - Gone4
refused: no operator Gone2
>job Nat Nat - Inv Gone4 F
refused: no operator Gone4

>case the parts of a job in order
>file Root
---- MODULE Root ----
VARIABLE x
CONSTANT c
Cin == c = 1
CBad == x = 1
ASSUME c > 0
Init == x = c
IBad == x' = c
Next == x' = x
NBad == (x')' = x
Inv == x = 1
VBad == CHOOSE y \in {1}: x' = 1
====
>job Init Next Cin Inv
cinit (Eq%4:10 $c 1)
assume (Gt%6:10 $c 0)
init (Eq $x $c)
next (Eq $x' $x)
inv Inv (Eq $x 1)
>job Init Next - Inv Init
cinit TRUE%1:1
assume (Gt%6:10 $c 0)
init (Eq $x $c)
next (Eq $x' $x)
inv Inv (Eq $x 1)
inv Init (Eq $x $c)
>job IBad NBad CBad VBad Gone
refused: VARIABLE is reached at Root:5:9
>job IBad NBad Cin VBad Gone
refused: PRIME is reached at Root:8:9
>job Init NBad Cin VBad Gone
refused: DOUBLE PRIME is reached at Root:10:10
>job Init Next Cin VBad Gone
refused: CHOOSE is reached at Root:12:9
>job Init Next Cin Inv Gone
refused: no operator Gone

>case a variable in ASSUME
>file Row
---- MODULE Row ----
EXTENDS Integers, Sequences, FiniteSets
VARIABLE
  \* @type: Int;
  x
ASSUME x = 0
Init == x' = 0
Next == x' = x
Inv == x = 0
====
>job Init Next - Inv
refused: VARIABLE is reached at Row:6:8
>job Gone Next - Inv
refused: VARIABLE is reached at Row:6:8

>case a form in the second assumption
>file Root
---- MODULE Root ----
EXTENDS A
CONSTANT c
VARIABLE x
ASSUME c = 1 /\ x = 2
Init == x = 1
====
>file A
---- MODULE A ----
CONSTANT k
ASSUME k = 1
ASSUME \E n: n' = k
====
>job Init Init -
refused: UNBOUNDED QUANTIFIER is reached at A:4:8

>case annotations of definitions are carried to each use
>file Root
---- MODULE Root ----
EXTENDS Integers
VARIABLE x
\* @type: (Int, Int) => Int;
F(a, b) == a + b + a
\* @type: Int;
k == 3
G(a) == F(a, k)
Inv == F(x, 1) = G(k)
====
>expand Inv inv
(Eq (Noted%5:1 [0 (Int, Int) => Int] (Add%5:18 (Add%5:14
    (Noted%5:1 [1 (Int, Int) => Int] $x%9:10) (Noted%5:1 [2 (Int, Int) => Int] 1))
    (Noted%5:1 [1 (Int, Int) => Int] $x)))
  (Noted [0 (Int, Int) => Int] (Add (Add
    (Noted [1 (Int, Int) => Int] (Noted%7:1 [0 Int] 3)) (Noted [2 (Int, Int) => Int] (Noted%7:1 [0 Int] 3)))
    (Noted [1 (Int, Int) => Int] (Noted [0 Int] 3)))))
>expand k inv
(Noted%7:1 [0 Int] 3%7:6)

>case annotations of LOCAL, of several, with variables, of a LET and of a fold
>file Root
---- MODULE Root ----
EXTENDS Integers, Apalache
VARIABLE x
\* @type: Int;
LOCAL one == 1
LOCAL
\* @type: Bool; and @type: Int;
two == TRUE
\* @type: (a) => a;
Id(p) == p
\* nothing here
three == 3
\* @type: (Int, Int) => Int;
Op(p, q) == q
Inv == one = Id(three)
Let == LET
    \* @type: Int;
    k == 4 IN two = (k = 4)
Fold == ApaFoldSeqLeft(Op, 0, x)
====
>expand Inv inv
(Eq (Noted%5:7 [0 Int] 1) (Noted%10:1 [0 (a) => a] (Noted%10:1 [1 (a) => a] 3%12:10)))
>expand Let inv
(Eq (Noted%8:1 [0 Bool] TRUE) (Eq 4 4))
>expand Fold inv
(Fold {a b} (Noted%14:1 [0 (Int, Int) => Int] (Noted%14:1 [2 (Int, Int) => Int] b)) 0 $x)

>case annotations under a prime and under UNCHANGED
>file Root
---- MODULE Root ----
EXTENDS Integers
VARIABLES x, y
\* @type: <<Int, Int>>;
vars == <<x, y>>
\* @type: Int;
sum == x + y
\* @type: (Int) => Bool;
Up(a) == a' = a + 1
Late == sum' = 3
Kept == UNCHANGED sum
KeptVars == UNCHANGED vars
Mixed == UNCHANGED <<vars, sum>>
Param == Up(sum)
====
>expand Late step
(Eq (Noted%7:1 [0 Int] (Add $x' $y')) 3)
>expand Kept step
(Eq (Noted [0 Int] (Add $x' $y')) (Noted [0 Int] (Add $x $y)))
>expand KeptVars step
(And (Eq $x' $x) (Eq $y' $y))
>expand Mixed step
(And (And (Eq $x' $x) (Eq $y' $y)) (Eq (Noted [0 Int] (Add $x' $y')) (Noted [0 Int] (Add $x $y))))
>expand Param step
(Noted%9:1 [0 (Int) => Bool] (Eq%9:13
  (Noted%9:1 [1 (Int) => Bool] (Noted%7:1 [0 Int] (Add $x' $y')))
  (Add (Noted [1 (Int) => Bool] (Noted [0 Int] (Add $x $y))) 1)))
"##;
