// Further sets: sets of modules with what is expected of them, in the form that `reader` reads.

pub(crate) const FURTHER: &str = r##">case files in a folder
>folder specs/
>file Row
---- MODULE Row ----
EXTENDS A
====
>file A
---- MODULE A ----
x == y
====
>files Row A
>refused refused: name y is unknown at A:2:6

>case a module mentioned twice in one line
>file Row
---- MODULE Row ----
EXTENDS A, A, Naturals, Naturals
I == INSTANCE A
Inv == x = I!x
====
>file A
---- MODULE A ----
x == 1
====
>files Row A
>flat
define x/0 A:2:1
define I!x/0 A:2:1
define Inv/0 Row:4:1

>case aliases stand behind those of the modules that are mentioned
>file Row
---- MODULE Row ----
EXTENDS B, A
\* @typeAlias: one = Int;
VARIABLE
  \* @type: $one; and @typeAlias: two = Set($u);
  x
I == INSTANCE C WITH c <- x
====
>file A
---- MODULE A ----
EXTENDS U
\* @typeAlias: a = Bool;
OfA == 1
====
>file B
---- MODULE B ----
EXTENDS U
\* @typeAlias: b = Str;
OfB == 1
====
>file C
---- MODULE C ----
CONSTANT
  \* @typeAlias: c = (Int);
  c
====
>file U
---- MODULE U ----
\* @typeAlias: u = Seq(Int);
OfU == 1
====
>files Row B U A C
>aliases
u= Seq(Int)
b= Str
a= Bool
c= (Int)
one= Int
two= Set($u)

>case a bound name of an extended module has the root's name
>file Root
---- MODULE Root ----
EXTENDS A
VARIABLE y
k == y
Inv == Some(k) /\ \E m \in {y}: Some(m)
====
>file A
---- MODULE A ----
Some(k) == \E y \in {1}: y = k
m == 3
====
>files Root A
>refused refused: name m is declared at Root:5:19 and at A:3:1

>case a bound name of an extended module has the root's name, and no other clash
>file Root
---- MODULE Root ----
EXTENDS A
VARIABLE y
k == y
Inv == Some(k) /\ \E m \in {y}: Some(m)
====
>file A
---- MODULE A ----
Some(k) == \E y \in {1}: y = k
====
>files Root A
>flat
variable y Root:3:10
define Some/1 A:2:1
define k/0 Root:4:1
define Inv/0 Root:5:1
>expand Inv inv
(And (Exists {y} (SetEnum 1) (Eq y%1:2:26 $y%4:6)) (Exists {m} (SetEnum $y) (Exists {y} (SetEnum 1) (Eq y m))))

>case one LET defines a name twice
>file Root
---- MODULE Root ----
A == LET a == 1 b(a) == a IN 2
B == LET c == 1 c == 2 IN c
====
>refused refused: name a is declared at Root:2:6 and at Root:2:6

>case RECURSIVE without a definition is not exported
>file Root
---- MODULE Root ----
EXTENDS A
Inv == Own = G
====
>file A
---- MODULE A ----
RECURSIVE G
Own == G
====
>files Root A
>refused refused: name G is unknown at Root:3:14

>case RECURSIVE in an instance
>file Root
---- MODULE Root ----
I == INSTANCE M WITH c <- 1
Inv == I!F(2) = 1
====
>file M
---- MODULE M ----
CONSTANT c
RECURSIVE F(_)
Before == F(c)
F(n) == IF n = c THEN c ELSE F(n)
====
>files Root M
>flat
define !!/0 -
define I!Before/0 M:4:1
define I!F/1 M:5:1
define Inv/0 Root:3:1
>expand Inv inv
refused: RECURSIVE is reached at M:5:30
>expand I!Before inv
refused: RECURSIVE is reached at M:4:11

>case a WITH expression with a prime, a form and a tuple
>file Root
---- MODULE Root ----
VARIABLES x, y
I == INSTANCE M WITH a <- x', b <- CHOOSE z \in {x}: TRUE, v <- <<x, y>>
Good == I!A /\ I!V
BadPrime == I!APrime
BadForm == I!B = 1
====
>file M
---- MODULE M ----
VARIABLES a, b, v
A == a = 1
APrime == a' = 1
B == b
V == UNCHANGED v
====
>files Root M
>names x y
>expand Good step
(And (Eq $x'%3:27 1) (And (Eq $x'%3:67 $x%3:67) (Eq $y'%3:70 $y%3:70)))
>expand BadPrime step
refused: DOUBLE PRIME is reached at Root:3:27
>expand BadForm step
refused: CHOOSE is reached at Root:3:36

>case two unnamed INSTANCEs of a module without definitions of its own
>file Root
---- MODULE Root ----
INSTANCE M WITH c <- 1
INSTANCE M WITH c <- 2
Inv == Op = 1
====
>file M
---- MODULE M ----
EXTENDS Base
CONSTANT c
====
>file Base
---- MODULE Base ----
Op == 1
====
>files Root M Base
>flat
define !!/0 -
define Op/0 Base:2:1
define !!/0 -
define Inv/0 Root:4:1

>case a declared name that stands for Nat on two ways
>file Root
---- MODULE Root ----
EXTENDS Naturals, A
INSTANCE M
Inv == Op = OfA
====
>file A
---- MODULE A ----
EXTENDS Naturals
INSTANCE M
OfA == Op
====
>file M
---- MODULE M ----
CONSTANT Nat
Op == 1 \in Nat
====
>files Root A M
>flat
define Op/0 M:3:1
define OfA/0 A:4:1
define Inv/0 Root:4:1
>expand Inv inv
(Eq (In 1 NatSet%2:3:13) (In 1 NatSet))

>case a declared name that stands for different standard names
>file Root
---- MODULE Root ----
EXTENDS A
Nat == 1
INSTANCE M
====
>file A
---- MODULE A ----
LOCAL INSTANCE Naturals
INSTANCE M
====
>file M
---- MODULE M ----
CONSTANT Nat
Op == Nat
====
>files Root A M
>refused refused: name Op is declared at M:3:1 and at M:3:1

>case an operator of no instance
>file Root
---- MODULE Root ----
EXTENDS A
J == INSTANCE A
Inv == J!Op + K!Op
====
>file A
---- MODULE A ----
Op == 1
LOCAL K == INSTANCE B
====
>file B
---- MODULE B ----
Op(a) == a
====
>files Root A B
>refused refused: name K!Op is unknown at Root:4:15

>case the number of arguments of an instance's operator
>file Root
---- MODULE Root ----
I == INSTANCE M
Inv == I!Op(1) + I!Op(1, 2) + I!Op
====
>file M
---- MODULE M ----
Op(a) == a
====
>files Root M
>refused refused: 2 arguments for 1 at Root:3:18

>case a fault in a module that is instantiated twice
>file Root
---- MODULE Root ----
I == INSTANCE M WITH c <- 1
J == INSTANCE M WITH c <- 2
====
>file M
---- MODULE M ----
CONSTANT c
c == 1
A == gone
====
>files Root M
>refused refused: name c is declared at M:2:10 and at M:3:1

>case a bound name of an instance repeats its declared name
>file Root
---- MODULE Root ----
VARIABLE c
I == INSTANCE M WITH c <- 1, d <- c
====
>file M
---- MODULE M ----
CONSTANTS c, d
A == \E e \in {1}: e = d
B == \A c \in {1}: c = d
====
>files Root M
>refused refused: name c is declared at M:2:11 and at M:4:6

>case names behind a THEOREM of an extended module
>file Root
---- MODULE Root ----
EXTENDS A
VARIABLE x
THEOREM \A x \in Gone: Nope(x)
LEMMA L == L => M
Inv == x = 1
====
>file A
---- MODULE A ----
COROLLARY \E q: Gone!Op(q, x)
====
>files Root A
>flat
variable x Root:3:10
define Inv/0 Root:6:1
"##;
