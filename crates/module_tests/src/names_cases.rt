// Names, forms, the least place: sets of modules with what is expected of them, in the form that `reader` reads.

pub(crate) const NAMES: &str = r##">case a definition used before it stands
>file Root
---- MODULE Root ----
A == 1
Inv == A = B
B == 1
====
>files Root
>refused refused: name B is unknown at Root:3:12

>case a definition that uses itself without RECURSIVE
>file Root
---- MODULE Root ----
F(n) == IF n = 0 THEN 0 ELSE F(n - 1)
====
>files Root
>refused refused: name F is unknown at Root:2:30

>case a definition without a function at its root uses itself
>file Root
---- MODULE Root ----
S == {1}
f == {[n \in S |-> f[n]]}
====
>refused refused: name f is unknown at Root:3:20

>case RECURSIVE: uses before, inside and behind the definition
>file Root
---- MODULE Root ----
EXTENDS Integers
RECURSIVE F(_), G
Before == 1 + F(1)
F(n) == IF n = 0 THEN 0 ELSE F(n - 1)
Behind == 1 + F(2)
Alone == G
Free == F(3) = 2 \/ TRUE
Inv == LET k == F(1) IN TRUE
====
>flat
define Before/0 Root:4:1
define F/1 Root:5:1
define Behind/0 Root:6:1
define Alone/0 Root:7:1
define Free/0 Root:8:1
define Inv/0 Root:9:1
>expand Before inv
refused: RECURSIVE is reached at Root:4:15
>expand Behind inv
refused: RECURSIVE is reached at Root:5:30
>expand Alone inv
refused: RECURSIVE is reached at Root:7:10
>expand Free inv
refused: RECURSIVE is reached at Root:5:30
>expand Inv inv
TRUE%9:25
>expand F inv
refused: no operator F
>expand G inv
refused: no operator G

>case RECURSIVE of another number
>file Root
---- MODULE Root ----
RECURSIVE F(_, _)
A == F(1)
F(a, b) == a
====
>refused refused: 1 arguments for 2 at Root:3:6

>case RECURSIVE declares nothing for a bound name
>file Root
---- MODULE Root ----
RECURSIVE y(_), z(_)
Inv == \E y \in {1, 2}: y = 2
z(y) == y
After == z(4)
====
>flat
define Inv/0 Root:3:1
define z/1 Root:4:1
define After/0 Root:5:1
>expand Inv inv
(Exists {y} (SetEnum 1 2) (Eq y 2))
>expand After inv
4%5:12

>case a RECURSIVE definition beside another of its name
>file Root
---- MODULE Root ----
F(a) == a
RECURSIVE F(_)
F(a) == F(a)
====
>refused refused: name F is declared at Root:2:1 and at Root:4:1

>case a function inside its own definition
>file Root
---- MODULE Root ----
EXTENDS Naturals
S == 0..3
f[n \in S] == IF n = 0 THEN 1 ELSE n * f[n - 1]
g == [n \in S |-> IF n = 0 THEN 1 ELSE g[n - 1]]
h == LET k[n \in S] == k[n] IN k[1]
Inv == f[3] = 6
One == g[1] = 1
Two == LET k[n \in S] == n IN k[1]
====
>flat
define S/0 Root:3:1
define f/0 Root:4:1
define g/0 Root:5:1
define h/0 Root:6:1
define Inv/0 Root:7:1
define One/0 Root:8:1
define Two/0 Root:9:1
>expand Inv inv
refused: RECURSIVE is reached at Root:4:40
>expand One inv
refused: RECURSIVE is reached at Root:5:40
>expand h inv
refused: RECURSIVE is reached at Root:6:24
>expand Two inv
(Apply%9:32 (Lambda%9:13 {n} (Range 0 3) n%9:26) 1)

>case CHOOSE and a quantifier without a set, reached and not reached
>file Root
---- MODULE Root ----
VARIABLE x
Min(S) == CHOOSE y \in S: \A z \in S: y = z
Any == CHOOSE y: y = x
Some == x = 0 => \E y: y = x
All == \A y, z: y = z
Inv == x = Min({0})
Clean == LET a == Any b == Some IN x = 0
====
>expand Inv inv
refused: CHOOSE is reached at Root:3:11
>expand Any inv
refused: CHOOSE is reached at Root:4:8
>expand Some inv
refused: UNBOUNDED QUANTIFIER is reached at Root:5:18
>expand All inv
refused: UNBOUNDED QUANTIFIER is reached at Root:6:8
>expand Clean inv
(Eq $x 0)

>case a name under CHOOSE may not repeat one in scope
>file Root
---- MODULE Root ----
VARIABLE x
Inv == x = CHOOSE x \in {0}: TRUE
====
>refused refused: name x is declared at Root:2:10 and at Root:3:12

>case the name that CHOOSE binds is unknown outside
>file Root
---- MODULE Root ----
Inv == 1 = CHOOSE y \in {y}: TRUE
====
>refused refused: name y is unknown at Root:2:26

>case standard names
>file Root
---- MODULE Root ----
EXTENDS Naturals, Integers, Sequences, FiniteSets, TLC, Apalache
VARIABLE s
Inv == /\ s \in Seq(Nat) /\ Len(s) \in Int
       /\ Head(s) = 1 /\ Tail(s) = Append(s, 2) /\ SubSeq(s, 1, 2) = s \o s
       /\ Cardinality({1}) = 1 /\ IsFiniteSet({1})
====
>files Root
>flat
variable s Root:3:10
define Inv/0 Root:4:1
>expand Inv inv
(And%4:8 (And (In $s (SeqSet%4:17 NatSet%4:21)) (In (Len%4:29 $s) IntSet%4:40))
  (And (Eq (Head $s) 1) (Eq (Tail $s) (Append $s 2)) (Eq (SubSeq $s 1 2) (Concat%5:72 $s $s)))
  (And (Eq (Cardinality (SetEnum 1)) 1) (IsFinite%6:35 (SetEnum 1))))

>case Sequences has no Nat
>file Root
---- MODULE Root ----
EXTENDS Sequences
Inv == 1 \in Nat
====
>refused refused: name Nat is unknown at Root:3:14

>case a standard name through an extended module
>file Root
---- MODULE Root ----
EXTENDS A
Inv == 1 \in Int
====
>file A
---- MODULE A ----
EXTENDS Integers
====
>files Root A
>flat
define Inv/0 Root:3:1
>expand Inv inv
(In 1 IntSet)

>case a standard name declared again
>file Root
---- MODULE Root ----
EXTENDS Naturals
VARIABLE x
Nat == 1
====
>refused refused: name Nat is declared at Root:1:1 and at Root:4:1

>case a standard name with another number of arguments
>file Root
---- MODULE Root ----
EXTENDS Sequences
VARIABLE s
Inv == s = Append(Len(s, s), 1) /\ s = Len
====
>refused refused: 2 arguments for 1 at Root:4:19

>case a module of the library that is none of the standard ones
>file Root
---- MODULE Root ----
EXTENDS Naturals, Bags, Reals
====
>files Root
>refused refused: module Bags is missing

>case LIBRARY is reached
>file Root
---- MODULE Root ----
EXTENDS TLC, Apalache, Sequences
VARIABLE x
A == x = 0 /\ Print("a", TRUE)
B == x \in Permutations({1, 2})
C == ConstCardinality(x = 0)
D == Assert(x = 0, "no")
E == SelectSeq(<<x>>, x) = <<>>
F == JavaTime = 1
G == LET a == PrintT("b") IN x = 0
====
>expand A inv
refused: LIBRARY is reached at Root:4:15
>expand B inv
refused: LIBRARY is reached at Root:5:12
>expand C inv
refused: LIBRARY is reached at Root:6:6
>expand D step
refused: LIBRARY is reached at Root:7:6
>expand E inv
refused: LIBRARY is reached at Root:8:6
>expand F inv
refused: LIBRARY is reached at Root:9:6
>expand G inv
(Eq $x 0)

>case an operator's name as the argument of a library operator
>file Root
---- MODULE Root ----
EXTENDS Sequences
Test(a) == a = 1
Inv == SelectSeq(<<1>>, Test) = <<1>>
====
>refused refused: 0 arguments for 1 at Root:4:25

>case a fold without Apalache
>file Root
---- MODULE Root ----
EXTENDS Sequences
Inv == ApaFoldSeqLeft(LAMBDA a, b: a + b, 0, <<1, 2>>) = 3
====
>refused refused: name ApaFoldSeqLeft is unknown at Root:3:8

>case the name of an assumption is no definition
>file Root
---- MODULE Root ----
CONSTANT c
ASSUME A == c = 1
ASSUME c > 0
AXIOM B == c < 9
THEOREM C == Nowhere => A
A == 5
C == 6
Inv == A = C
====
>flat
constant c Root:2:10
define A/0 Root:7:1
define C/0 Root:8:1
define Inv/0 Root:9:1
assume Root:3:15
assume Root:4:10
assume Root:5:14
>job Inv Inv - Inv
cinit TRUE
assume (And%1:1 (Eq $c 1) (Gt $c 0) (Lt $c 9))
init (Eq 5 6)
next (Eq 5 6)
inv Inv (Eq 5 6)

>case a use of an assumption's name
>file Root
---- MODULE Root ----
CONSTANT c
ASSUME A == c = 1
Inv == A
====
>refused refused: name A is unknown at Root:4:8

>case an assumption uses an earlier definition only
>file Root
---- MODULE Root ----
CONSTANT c
k == 1
ASSUME c = k
ASSUME c < m
m == 9
====
>refused refused: name m is unknown at Root:5:12

>case a bound name repeated in a nested binder
>file Root
---- MODULE Root ----
Inv == \E i \in {1}: \A j \in {i}: {i \in {2}: i = j} = {}
====
>refused refused: name i is declared at Root:2:8 and at Root:2:36

>case bound names side by side
>file Root
---- MODULE Root ----
Inv == (\E i \in {1}: i = 1) /\ (\A i \in {i \in {2}: i = 2}: i = 2)
j == 5
====
>expand Inv inv
(And (Exists {i} (SetEnum 1) (Eq i 1)) (Forall {i} (Filter {i} (SetEnum 2) (Eq i 2)) (Eq i 2)))

>case one binder binds a name twice
>file Root
---- MODULE Root ----
Inv == \E i, j \in {1}, i \in {2}: i = j
====
>refused refused: name i is declared at Root:2:8 and at Root:2:8

>case two names of one place
>file Root
---- MODULE Root ----
VARIABLES x, y
Inv == \E z, y, x \in {1}: z = y
====
>refused refused: name y is declared at Root:2:14 and at Root:3:8

>case a parameter may not repeat a name in scope
>file Root
---- MODULE Root ----
VARIABLE x
LOCAL F(a, x) == a
====
>refused refused: name x is declared at Root:2:10 and at Root:3:7

>case a parameter twice
>file Root
---- MODULE Root ----
F(a, b) == a + b
G(a, a) == a
====
>refused refused: name a is declared at Root:3:1 and at Root:3:1

>case a LET name and a LET parameter repeat names in scope
>file Root
---- MODULE Root ----
VARIABLE x
A == LET F(k) == k x == 2 IN F(x)
B == LET F(x) == x IN F(1)
====
>refused refused: name x is declared at Root:2:10 and at Root:3:6

>case a LET parameter repeats a name in scope
>file Root
---- MODULE Root ----
VARIABLE x
B == 1 + LET F(x) == x IN F(1)
====
>refused refused: name x is declared at Root:2:10 and at Root:3:10

>case LET names in order
>file Root
---- MODULE Root ----
A == LET a == 1 b == a + c c == 2 IN a + b + c
====
>refused refused: name c is unknown at Root:2:26

>case a LET name outside its LET
>file Root
---- MODULE Root ----
A == (LET a == 1 IN a) + a
====
>refused refused: name a is unknown at Root:2:26

>case an operator used with arguments that it does not want
>file Root
---- MODULE Root ----
VARIABLE x
F(a) == a
A == F(1) + LET g(k) == k IN g(1, 2) + x(1)
====
>refused refused: 2 arguments for 1 at Root:4:30

>case a bound name with an argument
>file Root
---- MODULE Root ----
A == \E y \in {1}: y(2) = 1
====
>refused refused: 1 arguments for 0 at Root:2:20

>case a parameter with an argument
>file Root
---- MODULE Root ----
F(g) == g(1)
====
>refused refused: 1 arguments for 0 at Root:2:9

>case names of unreached definitions are looked up
>file Root
---- MODULE Root ----
EXTENDS A
THEOREM Nowhere
Init == 1 = 1
Unreached == [a |-> nowhere]
====
>file A
---- MODULE A ----
B == gone
====
>files Root A
>refused refused: name nowhere is unknown at Root:5:21

>case the least place is by file, line and column
>file Root
---- MODULE Root ----
EXTENDS A, B
Inv == 1 = 1
====
>file A
---- MODULE A ----
F(a) == a
G == F(1, 2)
H == gone
====
>file B
---- MODULE B ----
C == gone
====
>files Root A B
>refused refused: 2 arguments for 1 at A:3:6

>case Twice counts with its later place
>file Root
---- MODULE Root ----
VARIABLE x
Inv == gone
x == 1
====
>refused refused: name gone is unknown at Root:3:8

>case Twice before what stands behind it
>file Root
---- MODULE Root ----
VARIABLE x
x == 1
Inv == gone
====
>refused refused: name x is declared at Root:2:10 and at Root:3:1

>case Twice across files counts with the greater file
>file Root
---- MODULE Root ----
EXTENDS A
VARIABLE y
z == 1
y == 2
====
>file A
---- MODULE A ----
z == 1
====
>files Root A
>refused refused: name y is declared at Root:3:10 and at Root:5:1

>case Twice between two extended modules
>file Root
---- MODULE Root ----
EXTENDS A, B
====
>file A
---- MODULE A ----
VARIABLE z
====
>file B
---- MODULE B ----
w == 1
z == 1
====
>files Root A B
>refused refused: name z is declared at A:2:10 and at B:3:1

>case three declarations of one name
>file Root
---- MODULE Root ----
VARIABLE x
x == 1
x == 2
====
>refused refused: name x is declared at Root:2:10 and at Root:3:1

>case one declaration names a name twice
>file Root
---- MODULE Root ----
VARIABLES x, y, x
====
>refused refused: name x is declared at Root:2:11 and at Root:2:17
"##;
