// Sets of modules with the line that is answered of each, in the form that `sets` reads. The lines are written by hand,
// from the rules of the language and of paths and shapes, and the places counted by hand.

/// Each line of a refusal once; a form that is read nowhere, and one that is refused where it is reached, once each.
pub(crate) const LINES: &str = r##"
>set no token begins there
>file Row
---- MODULE Row ----
EXTENDS Integers
VARIABLE
  \* @type: Int;
  x
Init == x = 0
Next == x' = x
Inv == x = 0 ? 1
====
>ask
refused: bad token at Row:8:14
>set a comment is not closed
>file Row
---- MODULE Row ----
EXTENDS Integers
VARIABLE
  \* @type: Int;
  x
Init == x = 0 (* here
Next == x' = x
Inv == TRUE
====
>ask
refused: open comment at Row:6:15
>set a number past 128 bits
>file Row
---- MODULE Row ----
EXTENDS Integers
VARIABLE
  \* @type: Int;
  x
Init == x = 0
Next == x' = x
Inv == x < 170141183460469231731687303715884105728
====
>ask
refused: number past 128 bits at Row:8:12
>set a file without a header
>file Row
---- MODULE Row ----
EXTENDS Integers, A
====
>file A
x == 1
>ask
refused: no module header in A
>set a unit that is not whole
>file Row
---- MODULE Row ----
EXTENDS Integers
VARIABLE
  \* @type: Int;
  x
Init == x = 0
Next == x' = x
Inv == x =
====
>ask
refused: grammar at Row:8:1
>set a unit of 401 levels
>file Row
---- MODULE Row ----
Deep ==
>times 1 400
~
>more
TRUE
====
>ask
refused: nesting past 400 at Row:2:1
>set a module in a module
>file Row
---- MODULE Row ----
Init == TRUE
  ---- MODULE In ----
  ====
====
>ask
refused: nested MODULE is not supported at Row:3:3
>set an instance with parameters
>file Row
---- MODULE Row ----
I(a) == INSTANCE A
====
>ask
refused: parametrized INSTANCE is not supported at Row:2:9
>set a symbol that is defined
>file Row
---- MODULE Row ----
a + b == 1
====
>ask
refused: operator definition by symbol is not supported at Row:2:3
>set a written proof
>file Row
---- MODULE Row ----
THEOREM TRUE
OBVIOUS
====
>ask
refused: proof is not supported at Row:3:1
>set a parameter that is an operator
>file Row
---- MODULE Row ----
Op(F(_), a) == a
====
>ask
refused: operator parameter is not supported at Row:2:6
>set a tuple of bound names
>file Row
---- MODULE Row ----
Inv == \A <<a, b>> \in {}: TRUE
====
>ask
refused: tuple pattern is not supported at Row:2:11
>set a module that is not there
>file Row
---- MODULE Row ----
EXTENDS Gone
====
>ask
refused: module Gone is missing
>set a module of another name
>file Row
---- MODULE Row ----
EXTENDS A
====
>file A
---- MODULE B ----
====
>ask
refused: file A holds module B
>set modules in a circle
>file Row
---- MODULE Row ----
EXTENDS A
====
>file A
---- MODULE A ----
EXTENDS B
====
>file B
---- MODULE B ----
EXTENDS A
====
>ask
refused: modules mention each other: A, B, A
>set a name of nothing
>file Row
---- MODULE Row ----
EXTENDS Integers, A
====
>file A
---- MODULE A ----
a == y
====
>ask
refused: name y is unknown at A:2:6
>set a name twice
>file Row
---- MODULE Row ----
EXTENDS Integers
VARIABLE
  \* @type: Int;
  x
Init == x = 0
Next == x' = x
x == 1
====
>ask
refused: name x is declared at Row:5:3 and at Row:8:1
>set another number of arguments
>file Row
---- MODULE Row ----
EXTENDS Integers
VARIABLE
  \* @type: Int;
  x
Init == x = 0
Next == x' = x
Op(a) == a = 0
Inv == Op(x, 1)
====
>ask
refused: 2 arguments for 1 at Row:9:8
>set 65 modules
>file Row
---- MODULE Row ----
EXTENDS M1
====
>each 1 64
---- MODULE M% ----
EXTENDS M@
====
>ask
refused: more than 64 modules
>set a read that fails
>file Row
---- MODULE Row ----
====
>fails 0
>ask
read fault: Row.tla
>set a file of more than four megabytes
>file Row
---- MODULE Row ----
====
>padded 4194305
>ask
file is too long: Row.tla
>set an operator that is not there
>file Row
---- MODULE Row ----
EXTENDS Integers
VARIABLE
  \* @type: Int;
  x
Init == x = 0
Next == x' = x
Inv == TRUE
====
>ask inv=Gone
refused: no operator Gone
>set more than 1,000,000 nodes: D0 has 3 nodes, D18 4 * 2^18 - 1
>file Row
---- MODULE Row ----
EXTENDS Integers
VARIABLE
  \* @type: Int;
  x
Init == x = 0
Next == x' = x
D0 == 1 + 1
>times 0 17
D@ == D% + D%
>more
Inv == D18 = 0
====
>ask
refused: 1048577 nodes after expansion of Inv
>set more than 400 levels
>file Row
---- MODULE Row ----
EXTENDS Integers
VARIABLE
  \* @type: Int;
  x
Init == x = 0
Next == x' = x
E0 == x = 0
>times 0 398
E@ == ~ E%
>more
Inv == E399
====
>ask
refused: nesting past 400 after expansion of Inv
>set forms that are refused where they are reached
>file Row
---- MODULE Row ----
EXTENDS Integers, TLC
VARIABLE
  \* @type: Int;
  x
RECURSIVE R(_)
R(n) == IF n = 0 THEN 0 ELSE R(n - 1)
Init == x = 0
Next == x' = x
Chosen == CHOOSE y \in {1}: TRUE
Able == ENABLED Next
Again == R(1) = 1
Always == [](x = 0)
Some == \E y: y = 0
Power == 2 ^ x = 1
Primed == x' = 0
Fixed == x = 0
Printed == Print(1, TRUE)
Inv == TRUE
====
>ask inv=Chosen
refused: CHOOSE is reached at Row:10:11
>ask inv=Able
refused: ENABLED is reached at Row:11:9
>ask inv=Again
refused: RECURSIVE is reached at Row:7:30
>ask inv=Always
refused: TEMPORAL is reached at Row:13:11
>ask inv=Some
refused: UNBOUNDED QUANTIFIER is reached at Row:14:9
>ask inv=Power
refused: POWER is reached at Row:15:12
>ask inv=Primed
refused: PRIME is reached at Row:16:11
>ask cinit=Fixed
refused: VARIABLE is reached at Row:17:10
>ask inv=Printed
refused: LIBRARY is reached at Row:18:12
>set two primes
>file Row
---- MODULE Row ----
EXTENDS Integers
VARIABLE
  \* @type: Int;
  x
Init == x = 0
Next == x'' = 0
Inv == TRUE
====
>ask
refused: DOUBLE PRIME is reached at Row:7:9
>set a name without a type
>file Row
---- MODULE Row ----
EXTENDS Integers
VARIABLE
  x
Init == x = 0
Next == x' = x
Inv == TRUE
====
>ask
refused: name x has no type
>set an annotation that is no type
>file Row
---- MODULE Row ----
EXTENDS Integers
VARIABLE
  \* @type: Intt;
  x
Init == x = 0
Next == x' = x
Inv == TRUE
====
>ask
refused: bad type at Row:5:3
>set a clash of types
>file Row
---- MODULE Row ----
EXTENDS Integers
VARIABLE
  \* @type: Int;
  x
Init == x = 0
Next == x' = x
Inv == x = "a"
====
>ask
refused: types Int and Str clash at Row:8:10
>set a clash of types behind two defaults
>file Row
---- MODULE Row ----
EXTENDS Integers
VARIABLE
  \* @type: Int;
  x
Init == x = 0
Next == x' = x
Inv == <<3>> = <<4>> /\ <<1, 2>> = <<1, "a">>
====
>ask
refused: types Int and Str clash at Row:8:36; defaults at Row:8:8, Row:8:25
>set an infinite set outside a form position
>file Row
---- MODULE Row ----
EXTENDS Integers
VARIABLE
  \* @type: Int;
  x
Init == x = 0
Next == x' = x
Inv == \A i \in Int: i = i
====
>ask
refused: infinite set at Row:8:17
>set 2^13 paths
>file Row
---- MODULE Row ----
EXTENDS Integers
VARIABLE
  \* @type: Int;
  x
Init == x = 0
Next ==
>times 1 13
  /\ (x' = 0 \/ x' = 1)
>more
Inv == TRUE
====
>ask
refused: 8192 paths
>set a name that is not assigned
>file Row
---- MODULE Row ----
EXTENDS Integers
VARIABLES
  \* @type: Int;
  x,
  \* @type: Int;
  y
Init == x = 0 /\ y = 0
Next == x' = x
Inv == TRUE
====
>ask
refused: name y is not assigned on the path at Row:9:12
>set a name that is read early
>file Row
---- MODULE Row ----
EXTENDS Integers
VARIABLES
  \* @type: Int;
  y,
  \* @type: Int;
  x
Init == x = 0 /\ y = 0
Next == y' = x' /\ x' = 1
Inv == TRUE
====
>ask
refused: name x is read before it is assigned at Row:9:14
>set a member of an infinite set
>file Row
---- MODULE Row ----
EXTENDS Integers
VARIABLE
  \* @type: Int;
  x
Init == x \in Int
Next == x' = x
Inv == TRUE
====
>ask
refused: infinite set at Row:6:15
>set more than 65,536 members, on the step into level 1
>file Row
---- MODULE Row ----
EXTENDS Integers, FiniteSets
VARIABLE
  \* @type: Int;
  x
Init == x = 0
Next == x' = Cardinality(1..70000)
Inv == TRUE
====
>ask length=2
refused: 70000 members at level 1 at Row:7:27
>set more than 4,096 places: 2^n at level n
>file Row
---- MODULE Row ----
EXTENDS Integers, Sequences
VARIABLE
  \* @type: Seq(Int);
  x
Init == x = <<0>>
Next == x' = x \o x
Inv == TRUE
====
>ask length=20
refused: 8192 places at level 13 at Row:7:16"##;

/// Sets in which two causes stand: the stages come in their order, and in a stage its causes do.
pub(crate) const TWO_CAUSES: &str = r##"
>set pieces before the grammar and the name
>file Row
---- MODULE Row ----
EXTENDS A
====
>file A
---- MODULE B ----
a == 1 +
b == 1 ? 2
====
>ask
refused: bad token at A:3:8
>set the grammar of a module before one that is missing behind it
>file Row
---- MODULE Row ----
EXTENDS A, Gone
====
>file A
---- MODULE A ----
a == 1 +
====
>ask
refused: grammar at A:2:1
>set a name of nothing before a later name that is declared twice
>file Row
---- MODULE Row ----
EXTENDS Integers
VARIABLE
  \* @type: Int;
  x
Init == x = 0
Next == x' = x
Inv == y = 0
x == 1
====
>ask
refused: name y is unknown at Row:8:8
>set modules before operators
>file Row
---- MODULE Row ----
EXTENDS Integers
VARIABLE
  \* @type: Int;
  x
Init == x = 0
Next == x' = x
Inv == y = 0
====
>ask inv=Gone
refused: name y is unknown at Row:8:8
>set Init before the invariants
>file Row
---- MODULE Row ----
EXTENDS Integers
VARIABLE
  \* @type: Int;
  x
Init == x = CHOOSE y \in {1}: TRUE
Next == x' = x
Inv == TRUE
====
>ask inv=Gone
refused: CHOOSE is reached at Row:6:13
>set levels before forms
>file Row
---- MODULE Row ----
EXTENDS Integers
VARIABLE
  \* @type: Int;
  x
Init == x = 0
Next == x' = x
E0 == x = CHOOSE y \in {1}: TRUE
>times 0 398
E@ == ~ E%
>more
Inv == E399
====
>ask
refused: nesting past 400 after expansion of Inv
>set operators before types
>file Row
---- MODULE Row ----
EXTENDS Integers
VARIABLE
  \* @type: Int;
  x
Init == x = 0
Next == x' = x
Inv == x = "a"
====
>ask inv=Inv,Gone
refused: no operator Gone
>set a name without a type before an annotation that is none
>file Row
---- MODULE Row ----
EXTENDS Integers
VARIABLES
  \* @type: Intt;
  x,
  y
Init == x = 0 /\ y = 0
Next == x' = x /\ y' = y
Inv == TRUE
====
>ask
refused: name y has no type
>set types before infinite sets
>file Row
---- MODULE Row ----
EXTENDS Integers
VARIABLE
  \* @type: Int;
  x
Init == x = 0
Next == x' = x
Inv == {1, "a"} = Int
====
>ask
refused: types Int and Str clash at Row:8:8
>set infinite sets before paths
>file Row
---- MODULE Row ----
EXTENDS Integers
VARIABLE
  \* @type: Int;
  x
Init == x = 0
Next ==
>times 1 13
  /\ (x' = 0 \/ x' = 1)
>more
Inv == \A i \in Int: i = i
====
>ask
refused: infinite set at Row:21:17
>set paths before assignments
>file Row
---- MODULE Row ----
EXTENDS Integers
VARIABLE
  \* @type: Int;
  x
Init == x \in Int
Next ==
>times 1 13
  /\ (x' = 0 \/ x' = 1)
>more
Inv == TRUE
====
>ask
refused: 8192 paths
>set Init before Next
>file Row
---- MODULE Row ----
EXTENDS Integers
VARIABLE
  \* @type: Int;
  x
Init == TRUE
Next == x' > 0 /\ x' = 1
Inv == TRUE
====
>ask
refused: name x is not assigned on the path at Row:6:9
>set a read before the end of the path
>file Row
---- MODULE Row ----
EXTENDS Integers
VARIABLE
  \* @type: Int;
  x
Init == x = 0
Next == x' > 0
Inv == TRUE
====
>ask
refused: name x is read before it is assigned at Row:7:9
>set assignments before shapes
>file Row
---- MODULE Row ----
EXTENDS Integers, FiniteSets
VARIABLE
  \* @type: Int;
  x
Init == x = 0
Next == x = 0
Inv == Cardinality(1..70000) > 0
====
>ask
refused: name x is not assigned on the path at Row:7:11
>set level 0 before level 1
>file Row
---- MODULE Row ----
EXTENDS Integers, FiniteSets
VARIABLE
  \* @type: Int;
  x
Init == x = 0
Next == x' = Cardinality(1..80000)
Inv == Cardinality(1..70000) > 0
====
>ask length=2
refused: 70000 members at level 0 at Row:8:21
>set levels of executions before a typed state
>file Row
---- MODULE Row ----
EXTENDS Integers, FiniteSets
VARIABLE
  \* @type: Set(Int);
  x
Init == x = {1}
Next == x' = x
Inv == Cardinality(1..70000) > 0 /\ \A i \in SUBSET x: TRUE
====
>ask size=17
refused: 70000 members at level 0 at Row:8:21"##;
