// INSTANCE: sets of modules with what is expected of them, in the form that `reader` reads.

pub(crate) const INSTANCES: &str = r##">case an instance with WITH
>file Row
---- MODULE Row ----
EXTENDS Integers, Sequences, FiniteSets
VARIABLE
  \* @type: Int;
  x
I == INSTANCE Inc WITH c <- 2
Init == x = 0
Next == x' = I!Add(x)
Inv == x # 4
====
>file Inc
---- MODULE Inc ----
EXTENDS Integers
CONSTANT
  \* @type: Int;
  c
Add(n) == n + c
====
>files Row Inc
>names x
>flat
variable x Row:5:3
define !!/0 -
define I!Add/1 Inc:6:1
define Init/0 Row:7:1
define Next/0 Row:8:1
define Inv/0 Row:9:1
>job Init Next - Inv
cinit TRUE%1:1
assume TRUE%1:1
init (Eq%7:11 $x%7:9 0%7:13)
next (Eq%8:12 $x'%8:9 (Add%1:6:13 $x%8:20 2%6:29))
inv Inv (Ne%9:10 $x%9:8 4%9:12)

>case an instance of a module that extends
>file Root
---- MODULE Root ----
VARIABLE x
I == INSTANCE M WITH k <- x, c <- 7
Inv == I!Op(1) = I!Base
====
>file M
---- MODULE M ----
EXTENDS B
CONSTANT k
Op(n) == Base + n * k
====
>file B
---- MODULE B ----
CONSTANT c
ASSUME c > 100
Base == c + 1
====
>files Root M B
>names x
>flat
variable x Root:2:10
define !!/0 -
define !!/0 -
define I!Base/0 B:4:1
define I!Op/1 M:4:1
define Inv/0 Root:4:1
>job Inv Inv - Inv
cinit TRUE
assume TRUE
init (Eq (Add (Add 7 1) (Mul 1 $x)) (Add 7 1))
next (Eq (Add (Add 7 1) (Mul 1 $x)) (Add 7 1))
inv Inv (Eq (Add (Add 7 1) (Mul 1 $x)) (Add 7 1))

>case WITH reaches a definition of a definition
>file Root
---- MODULE Root ----
I == INSTANCE M WITH c <- 3
J == INSTANCE M WITH c <- I!B
Inv == I!B = J!B
====
>file M
---- MODULE M ----
CONSTANT c
A == c
B == A + c
====
>files Root M
>flat
define !!/0 -
define I!A/0 M:3:1
define I!B/0 M:4:1
define !!/0 -
define J!A/0 M:3:1
define J!B/0 M:4:1
define Inv/0 Root:4:1
>expand Inv inv
(Eq (Add 3 3) (Add (Add 3 3) (Add 3 3)))

>case a declared name without WITH is the symbol of the same name
>file Root
---- MODULE Root ----
VARIABLES x, v
c == x + 1
I == INSTANCE M
Next == I!Step
====
>file M
---- MODULE M ----
CONSTANT c
VARIABLE v
Step == v' = c' /\ c = v
====
>files Root M
>names x v
>flat
variable x Root:2:11
variable v Root:2:14
define c/0 Root:3:1
define I!Step/0 M:4:1
define Next/0 Root:5:1
>expand Next step
(And%1:4:17 (Eq%1:4:12 $v'%1:4:9 (Add%3:8 $x'%3:6 1%3:10)) (Eq%1:4:22 (Add%3:8 $x%3:6 1%3:10) $v%1:4:24))

>case a missing symbol
>file Root
---- MODULE Root ----
VARIABLE x
I == INSTANCE M WITH c <- x
Inv == I!Op = x
====
>file M
---- MODULE M ----
CONSTANTS c, d
Op == c + d
====
>files Root M
>refused refused: name d is unknown at Root:3:1

>case a missing symbol of an unnamed LOCAL instance
>file Root
---- MODULE Root ----
VARIABLE x
LOCAL INSTANCE M
Inv == x = x
====
>file M
---- MODULE M ----
CONSTANT d
Op == d
====
>files Root M
>refused refused: name d is unknown at Root:3:7

>case a symbol that stands behind the instance is missing
>file Root
---- MODULE Root ----
INSTANCE M
d == 1
Inv == Op = d
====
>file M
---- MODULE M ----
CONSTANT d
Op == d
====
>files Root M
>refused refused: name d is unknown at Root:2:1

>case WITH of a name that is not declared
>file Root
---- MODULE Root ----
VARIABLE x
I == INSTANCE M WITH Op <- x
Inv == x = x
====
>file M
---- MODULE M ----
Op == 1
====
>files Root M
>refused refused: name Op is unknown at Root:3:1

>case an unknown name in WITH
>file Root
---- MODULE Root ----
VARIABLE x
I == INSTANCE M WITH c <- x + y
====
>file M
---- MODULE M ----
CONSTANT c
Op == c
====
>files Root M
>refused refused: name y is unknown at Root:3:31

>case a symbol with parameters
>file Root
---- MODULE Root ----
c(a, b) == a + b
I == INSTANCE M
====
>file M
---- MODULE M ----
CONSTANT c
Op == c
====
>files Root M
>refused refused: 0 arguments for 2 at Root:3:1

>case Unknown before Twice before Arity at one INSTANCE
>file Root
---- MODULE Root ----
I == 1
c(a) == a
I == INSTANCE M
====
>file M
---- MODULE M ----
CONSTANTS c, d
Op == c
====
>files Root M
>refused refused: name d is unknown at Root:4:1

>case Twice before Arity at one INSTANCE
>file Root
---- MODULE Root ----
I == 1
c(a) == a
I == INSTANCE M
====
>file M
---- MODULE M ----
CONSTANT c
Op == c
====
>files Root M
>refused refused: name I is declared at Root:2:1 and at Root:4:1

>case WITH is not captured by a bound name
>file Root
---- MODULE Root ----
VARIABLE x
y == x
I == INSTANCE M WITH c <- y
Inv == I!Some /\ I!Plus(4) = 4 /\ I!Let = 4
====
>file M
---- MODULE M ----
CONSTANT c
Some == \E y \in {1, 2}: y = c
Plus(y) == y + c
Let == LET y == 3 IN y + c
====
>files Root M
>flat
variable x Root:2:10
define y/0 Root:3:1
define !!/0 -
define I!Some/0 M:3:1
define I!Plus/1 M:4:1
define I!Let/0 M:5:1
define Inv/0 Root:5:1
>expand Inv inv
(And%5:15 (Exists%1:3:9 {y} (SetEnum 1 2) (Eq y%1:3:26 $x%3:6)) (Eq (Add 4 $x%3:6) 4) (Eq (Add 3 $x%3:6) 4))

>case WITH is not captured where it has the bound name itself
>file Root
---- MODULE Root ----
VARIABLES y, z
I == INSTANCE M WITH c <- y, d <- {k \in z: k = y}
Inv == I!Some
====
>file M
---- MODULE M ----
CONSTANTS c, d
Some == \E y \in d: \A k \in d: k = c /\ y \in d
====
>files Root M
>names y z
>flat
variable y Root:2:11
variable z Root:2:14
define !!/0 -
define !!/0 -
define I!Some/0 M:3:1
define Inv/0 Root:4:1
>expand Inv inv
(Exists%1:3:9 {y} (Filter%3:35 {k} $z (Eq k%3:45 $y%3:49))
  (Forall%1:3:21 {k} (Filter {k} $z (Eq k $y)) (And (Eq k%1:3:33 $y%3:27) (In y%1:3:42 (Filter {k} $z (Eq k $y))))))

>case a WITH expression with declared names under a prime
>file Root
---- MODULE Root ----
CONSTANT k
VARIABLES x, y
I == INSTANCE M WITH n <- x + y * k
Next == I!Step /\ UNCHANGED I!N
====
>file M
---- MODULE M ----
VARIABLE n
N == n
Step == n' = n + 1
====
>files Root M
>names k x y
>expand Next step
(And%5:16 (Eq%1:4:12 (Add%4:29 $x'%4:27 (Mul%4:33 $y'%4:31 $k%4:35)) (Add%1:4:16 (Add $x (Mul $y $k)) 1))
  (Eq (Add $x' (Mul $y' $k)) (Add $x (Mul $y $k))))

>case instances in instances
>file Root
---- MODULE Root ----
VARIABLE x
I == INSTANCE A WITH a <- x
Inv == I!Two(2) = I!Two(5)
====
>file A
---- MODULE A ----
CONSTANT a
J == INSTANCE B WITH b <- a + 1
Two(k) == J!Op(J!Op(k))
====
>file B
---- MODULE B ----
CONSTANT b
Op(k) == b * k
====
>files Root A B
>flat
variable x Root:2:10
define !!/0 -
define !!/0 -
define I!J!Op/1 B:3:1
define I!Two/1 A:4:1
define Inv/0 Root:4:1
>expand Inv inv
(Eq (Mul%2:3:12 (Add%1:3:29 $x%3:27 1) (Mul (Add $x 1) 2)) (Mul (Add $x 1) (Mul (Add $x 1) 5)))

>case an unnamed instance in a named one, and the other way
>file Root
---- MODULE Root ----
I == INSTANCE A WITH a <- 3
INSTANCE D WITH a <- 4
Inv == I!Op = J!Op
====
>file A
---- MODULE A ----
CONSTANT a
INSTANCE B WITH b <- a
====
>file B
---- MODULE B ----
CONSTANT b
Op == b
====
>file D
---- MODULE D ----
CONSTANT a
J == INSTANCE B WITH b <- a + a
====
>files Root A B D
>flat
define !!/0 -
define !!/0 -
define I!Op/0 B:3:1
define !!/0 -
define !!/0 -
define J!Op/0 B:3:1
define Inv/0 Root:4:1
>expand Inv inv
(Eq 3 (Add 4 4))

>case the operator of an instance and one of the root with its name
>file Root
---- MODULE Root ----
VARIABLE c
Op(k) == k + c
I == INSTANCE M
Inv == Op(I!Op) = I!Op
====
>file M
---- MODULE M ----
CONSTANT c
Op == 2 * c
====
>files Root M
>flat
variable c Root:2:10
define Op/1 Root:3:1
define I!Op/0 M:3:1
define Inv/0 Root:5:1
>expand Inv inv
(Eq (Add (Mul 2 $c%1:3:11) $c%3:14) (Mul 2 $c%1:3:11))

>case an unnamed instance with an operator of the root's name
>file Root
---- MODULE Root ----
Op == 1
INSTANCE M
====
>file M
---- MODULE M ----
A == 1
Op == 2
====
>files Root M
>refused refused: name Op is declared at Root:2:1 and at M:3:1

>case the name of an instance alone is no expression
>file Root
---- MODULE Root ----
I == INSTANCE M
Inv == I!Op = I
====
>file M
---- MODULE M ----
Op == 1
====
>files Root M
>refused refused: name I is unknown at Root:3:15

>case the name of an instance is taken
>file Root
---- MODULE Root ----
I == INSTANCE M
Inv == 1 = 1 /\ \E I \in {1}: I!Op = 1
====
>file M
---- MODULE M ----
Op == 1
====
>files Root M
>refused refused: name I is declared at Root:2:1 and at Root:3:17

>case two instances of one name
>file Root
---- MODULE Root ----
I == INSTANCE M
LOCAL I == INSTANCE N
====
>file M
---- MODULE M ----
Op == 1
====
>file N
---- MODULE N ----
Up == 1
====
>files Root M N
>refused refused: name I is declared at Root:2:1 and at Root:3:7

>case parametrized INSTANCE
>file Root
---- MODULE Root ----
I(n) == INSTANCE M WITH c <- n
Inv == 1 = 2
====
>files Root
>refused refused: parametrized INSTANCE is not supported at Root:2:9

>case one module by EXTENDS and by INSTANCE, without declared names
>file Root
---- MODULE Root ----
EXTENDS U
INSTANCE U
I == INSTANCE U
Inv == Op = I!Op
====
>file U
---- MODULE U ----
Op == 3
====
>files Root U
>flat
define Op/0 U:2:1
define I!Op/0 U:2:1
define Inv/0 Root:5:1
>expand Inv inv
(Eq 3 3)

>case one module by EXTENDS and by INSTANCE, its declared name standing for itself
>file Root
---- MODULE Root ----
EXTENDS U
INSTANCE U
Inv == Op
====
>file U
---- MODULE U ----
CONSTANT c
Op == c
====
>files Root U
>names c
>flat
constant c U:2:10
define Op/0 U:3:1
define Inv/0 Root:4:1
>expand Inv inv
$c

>case one module by EXTENDS and by INSTANCE, with another WITH
>file Root
---- MODULE Root ----
EXTENDS U
INSTANCE U WITH c <- 1
Inv == Op
====
>file U
---- MODULE U ----
CONSTANT c
Op == c
====
>files Root U
>refused refused: name Op is declared at U:3:1 and at U:3:1

>case a module by EXTENDS and behind an instance with WITH
>file Root
---- MODULE Root ----
EXTENDS Util
INSTANCE M WITH c <- 2
Inv == Op = Up
====
>file M
---- MODULE M ----
EXTENDS Util
CONSTANT c
Op == Up + c
====
>file Util
---- MODULE Util ----
Up == 1
====
>files Root Util M
>flat
define Up/0 Util:2:1
define !!/0 -
define Op/0 M:4:1
define Inv/0 Root:4:1
>expand Inv inv
(Eq (Add 1 2) 1)

>case one INSTANCE by two ways
>file Root
---- MODULE Root ----
EXTENDS A, B
Inv == OfA = OfB
====
>file A
---- MODULE A ----
EXTENDS C
OfA == Op + J!Op
====
>file B
---- MODULE B ----
EXTENDS C
OfB == J!Op
====
>file C
---- MODULE C ----
INSTANCE M WITH c <- 1
J == INSTANCE M WITH c <- 2
====
>file M
---- MODULE M ----
CONSTANT c
Op == c
====
>files Root A C M B
>flat
define !!/0 -
define Op/0 M:3:1
define !!/0 -
define J!Op/0 M:3:1
define OfA/0 A:3:1
define OfB/0 B:3:1
define Inv/0 Root:3:1
>expand Inv inv
(Eq (Add 1 2) 2)

>case two INSTANCEs with one text
>file Root
---- MODULE Root ----
EXTENDS A, B
====
>file A
---- MODULE A ----
INSTANCE M WITH c <- 1
====
>file B
---- MODULE B ----
INSTANCE M WITH c <- 1
====
>file M
---- MODULE M ----
CONSTANT c
Op == c
====
>files Root A M B
>refused refused: name Op is declared at M:3:1 and at M:3:1

>case a named instance in each of two extended modules
>file Root
---- MODULE Root ----
EXTENDS A, B
====
>file A
---- MODULE A ----
J == INSTANCE M
====
>file B
---- MODULE B ----
J == INSTANCE M
====
>file M
---- MODULE M ----
Op == 1
====
>files Root A M B
>refused refused: name J is declared at A:2:1 and at B:2:1

>case the assumption of a module that is only instantiated
>file Root
---- MODULE Root ----
EXTENDS U
I == INSTANCE M WITH c <- 5
Init == I!Op
====
>file U
---- MODULE U ----
ASSUME 1 = 1
====
>file M
---- MODULE M ----
EXTENDS U, V
CONSTANT c
ASSUME c = 4
Op == c = 5
====
>file V
---- MODULE V ----
ASSUME 2 = 3
====
>files Root U M V
>flat
define !!/0 -
define I!Op/0 M:5:1
define Init/0 Root:4:1
assume U:2:10
>job Init Init -
cinit TRUE
assume (Eq%1:2:10 1 1)
init (Eq 5 5)
next (Eq 5 5)

>case an instance of a standard module
>file Root
---- MODULE Root ----
VARIABLE s
LOCAL INSTANCE Integers
S == INSTANCE Sequences
Inv == s \in S!Seq(Int) /\ S!Len(S!Append(s, 1)) = 1
====
>files Root
>flat
variable s Root:2:10
define Inv/0 Root:5:1
>expand Inv inv
(And (In%5:10 $s (SeqSet%5:14 IntSet%5:20)) (Eq (Len%5:28 (Append%5:34 $s 1)) 1))
"##;
