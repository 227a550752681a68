// EXTENDS and LOCAL: sets of modules with what is expected of them, in the form that `reader` reads.

pub(crate) const EXTENDING: &str = r##">case diamond by EXTENDS
>file Root
---- MODULE Root ----
EXTENDS A, B
VARIABLE x
Init == x = Base + OfA + OfB
====
>file A
---- MODULE A ----
EXTENDS U
OfA == Base
====
>file B
---- MODULE B ----
EXTENDS U
OfB == Base * 2
====
>file U
---- MODULE U ----
Base == 1
====
>files Root A U B
>names x
>flat
variable x Root:3:10
define Base/0 U:2:1
define OfA/0 A:3:1
define OfB/0 B:3:1
define Init/0 Root:4:1
>expand Init start
(Eq%4:11 $x%4:9 (Add%4:24 (Add%4:18 1%2:2:9 1%2:2:9) (Mul%3:3:13 1%2:2:9 2%3:3:15)))

>case diamond with declared names and an assumption
>file Root
---- MODULE Root ----
EXTENDS A, B
VARIABLES w, z
CONSTANT d
ASSUME d = c
Init == v = c /\ w = d /\ z = 0
====
>file A
---- MODULE A ----
EXTENDS U
ASSUME c = 2
====
>file B
---- MODULE B ----
EXTENDS U
CONSTANT e
ASSUME e = 4
====
>file U
---- MODULE U ----
VARIABLE v
CONSTANT c
ASSUME c = 1
====
>files Root A U B
>names c e d v w z
>flat
variable v U:2:10
constant c U:3:10
constant e B:3:10
variable w Root:3:11
variable z Root:3:14
constant d Root:4:10
define Init/0 Root:6:1
assume U:4:10
assume A:3:10
assume B:4:10
assume Root:5:10
>job Init Init - Init
cinit TRUE%1:1
assume (And%1:1 (Eq%2:4:10 $c 1) (Eq%1:3:10 $c 2) (Eq%3:4:10 $e 4) (Eq%5:10 $d $c))
init (And%6:15 (Eq $v $c) (Eq $w $d) (Eq $z 0))
next (And%6:15 (Eq $v $c) (Eq $w $d) (Eq $z 0))
inv Init (And%6:15 (Eq $v $c) (Eq $w $d) (Eq $z 0))

>case order of items is that of mentions, not of names
>file Root
---- MODULE Root ----
EXTENDS Z, Y
First == 1
I == INSTANCE X WITH c <- First
Last == I!Op
====
>file X
---- MODULE X ----
EXTENDS W
CONSTANT c
Op == OfW + c
====
>file W
---- MODULE W ----
OfW == 8
====
>file Y
---- MODULE Y ----
OfY == OfZ
OfZ == 4
====
>file Z
---- MODULE Z ----
INSTANCE W
OfZZ == OfW
====
>files Root Z W Y X
>refused refused: name OfZ is unknown at Y:2:8

>case order of items, all names known
>file Root
---- MODULE Root ----
EXTENDS Z, Y
First == 1
I == INSTANCE X WITH c <- First
Last == I!Op
====
>file X
---- MODULE X ----
EXTENDS W
CONSTANT c
Op == OfW + c
====
>file W
---- MODULE W ----
OfW == 8
====
>file Y
---- MODULE Y ----
OfY == 4
====
>file Z
---- MODULE Z ----
INSTANCE W
OfZZ == OfW
====
>files Root Z W Y X
>flat
define OfW/0 W:2:1
define OfZZ/0 Z:3:1
define OfY/0 Y:2:1
define First/0 Root:3:1
define !!/0 -
define I!OfW/0 W:2:1
define I!Op/0 X:4:1
define Last/0 Root:5:1
>expand Last inv
(Add%4:4:11 8%2:2:8 1%3:10)
>expand I!OfW inv
8

>case LOCAL in what is extended
>file Root
---- MODULE Root ----
EXTENDS A
h == 2
Both == h + Seen
====
>file A
---- MODULE A ----
LOCAL h == 1
Seen == h
====
>files Root A
>flat
define !!/0 A:2:7
define Seen/0 A:3:1
define h/0 Root:3:1
define Both/0 Root:4:1
>expand Both inv
(Add 2 1)
>expand h inv
2

>case LOCAL of an extended module is not seen by the root
>file Root
---- MODULE Root ----
EXTENDS A
Inv == Seen = h
====
>file A
---- MODULE A ----
LOCAL h == 1
Seen == h
====
>files Root A
>refused refused: name h is unknown at Root:3:15

>case LOCAL in the root keeps its name
>file Root
---- MODULE Root ----
LOCAL Up(a) == a + 1
LOCAL Inv == Up(Up(1)) = 3
====
>flat
define Up/1 Root:2:7
define Inv/0 Root:3:7
>expand Inv inv
(Eq%3:24 (Add%2:18 (Add%2:18 1%3:20 1%2:20) 1%2:20) 3)

>case LOCAL by two ways is one hidden definition
>file Root
---- MODULE Root ----
EXTENDS A, B
Inv == OfA = OfB
====
>file A
---- MODULE A ----
EXTENDS U
OfA == Seen
====
>file B
---- MODULE B ----
EXTENDS U
LOCAL h == 2
OfB == Seen + h
====
>file U
---- MODULE U ----
LOCAL h == 1
Seen == h
====
>files Root A U B
>flat
define !!/0 U:2:7
define Seen/0 U:3:1
define OfA/0 A:3:1
define !!/0 B:3:7
define OfB/0 B:4:1
define Inv/0 Root:3:1
>expand Inv inv
(Eq 1 (Add 1 2))

>case LOCAL in an instance
>file Root
---- MODULE Root ----
h == 9
I == INSTANCE M WITH c <- h
Inv == I!Op(h) = 14
====
>file M
---- MODULE M ----
CONSTANT c
LOCAL h == c + 1
Op(k) == h + k
====
>files Root M
>flat
define h/0 Root:2:1
define !!/0 -
define !!/0 M:3:7
define I!Op/1 M:4:1
define Inv/0 Root:4:1
>expand Inv inv
(Eq (Add%1:4:12 (Add%1:3:14 9%2:6 1) 9%2:6) 14)

>case LOCAL of an instance is not seen
>file Root
---- MODULE Root ----
I == INSTANCE M WITH c <- 1
Inv == I!Op + I!h = 3
====
>file M
---- MODULE M ----
CONSTANT c
LOCAL h == c + 1
Op == h
====
>files Root M
>refused refused: name I!h is unknown at Root:3:15

>case LOCAL INSTANCE in what is extended
>file Root
---- MODULE Root ----
EXTENDS A
Op == 5
I == INSTANCE M WITH c <- 3
Inv == OfA + Op + I!Op
====
>file A
---- MODULE A ----
LOCAL INSTANCE M WITH c <- 1
LOCAL I == INSTANCE M WITH c <- 2
OfA == Op + I!Op
====
>file M
---- MODULE M ----
CONSTANT c
LOCAL h == c * 10
Op == h
====
>files Root A M
>flat
define !!/0 -
define !!/0 M:3:7
define !!/0 M:4:1
define !!/0 -
define !!/0 M:3:7
define !!/0 M:4:1
define OfA/0 A:4:1
define Op/0 Root:3:1
define !!/0 -
define !!/0 M:3:7
define I!Op/0 M:4:1
define Inv/0 Root:5:1
>expand Inv inv
(Add (Add (Add (Mul 1 10) (Mul 2 10)) 5) (Mul 3 10))

>case LOCAL INSTANCE is not seen by the extending module
>file Root
---- MODULE Root ----
EXTENDS A
Inv == OfA = I!Op
====
>file A
---- MODULE A ----
LOCAL I == INSTANCE M
OfA == I!Op
====
>file M
---- MODULE M ----
Op == 1
====
>files Root A M
>refused refused: name I!Op is unknown at Root:3:14

>case LOCAL INSTANCE of a standard module is not seen
>file Root
---- MODULE Root ----
EXTENDS A
Inv == Sum \in 0..3 /\ Sum + 1 \in Nat
====
>file A
---- MODULE A ----
LOCAL INSTANCE Naturals
Sum == IF 1 \in Nat THEN 1 + 1 ELSE 0
====
>files Root A
>refused refused: name Nat is unknown at Root:3:36

>case LOCAL INSTANCE in the root
>file Root
---- MODULE Root ----
VARIABLE x
LOCAL INSTANCE M WITH c <- x
Next == Op'
====
>file M
---- MODULE M ----
CONSTANT c
Op == c = c
====
>files Root M
>flat
variable x Root:2:10
define !!/0 -
define Op/0 M:3:1
define Next/0 Root:4:1
>expand Op step
(Eq%1:3:9 $x%3:28 $x%3:28)
>expand Next step
(Eq%1:3:9 $x'%3:28 $x'%3:28)
"##;
