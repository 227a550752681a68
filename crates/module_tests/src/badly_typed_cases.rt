// Modules whose jobs have no typing, with what is expected of them, in the form that `reader` reads.

pub(crate) const BADLY_TYPED: &str = r##">case no type of that name
>file Row
---- MODULE Row ----
EXTENDS Integers, Sequences, FiniteSets
VARIABLE
  \* @type: Intt;
  x
Init == x = 1 /\ x = 2
Next == x' = x
Inv == FALSE
====
>types Init Next - Inv
refused: bad type at Row:5:3

>case no annotation
>file Row
---- MODULE Row ----
EXTENDS Integers, Sequences, FiniteSets
VARIABLE
  x
Init == x = 1 /\ x = 2
Next == x' = x
Inv == FALSE
====
>types Init Next - Inv
refused: name x has no type

>case an annotation of the keyword is the first name's
>file Row
---- MODULE Row ----
\* @type: Bool;
VARIABLES x, y
Init == x = TRUE /\ y = x
Next == x' = x /\ y' = y
====
>types Init Next -
refused: name y has no type

>case of several annotations the first is taken
>file Row
---- MODULE Row ----
\* @type: Bool; and @type: Int;
VARIABLES
  \* @type: Str;
  x
Init == x = TRUE
Next == x' = x
====
>types Init Next -
x: Bool

>case a constant without an annotation comes before a variable without one, and before the other causes
>file Row
---- MODULE Row ----
EXTENDS Integers
VARIABLES
  \* @type: Intt;
  x,
  y
CONSTANT c
Init == x = 1 + "a"
Next == y' = c
====
>types Init Next -
refused: name c has no type

>case a bad type comes before a clash, the least place first
>file Row
---- MODULE Row ----
EXTENDS Integers, M
VARIABLES
  \* @type: Set(Int;
  x,
  \* @type: (Int) => Int;
  y
\* @type: (Intt) => Bool;
Low(a) == TRUE
Init == 1 = "a" /\ One = 1
Next == x' = x /\ y' = y
Inv == Low(1)
====
>file M
---- MODULE M ----
\* @type: Strr;
One == 1
====
>types Init Next - Inv
refused: bad type at Row:5:3

>case a definition's bad type before that of a name
>file Row
---- MODULE Row ----
EXTENDS M
\* @type: (Intt) => Bool;
Low(a) == TRUE
\* @type: Int -> ((Int) => Int);
Never == 1
VARIABLE
  \* @type: Intt;
  x
Init == One = 1
Next == x' = x
Inv == Low(1)
====
>file M
---- MODULE M ----
\* @type: Strr;
One == 1
====
>types Init Next - Inv
refused: bad type at Row:4:1
>types Init Next -
refused: bad type at Row:9:3

>case two types in a set
>file Row
---- MODULE Row ----
EXTENDS Integers, Sequences, FiniteSets
VARIABLE
  \* @type: Int;
  x
Init == x = 0
Next == x' = x
Inv == {1, "a"} = {}
====
>types Init Next - Inv
refused: types Int and Str clash at Row:8:8

>case clashes at the operator that asks, the earlier operand first
>file Row
---- MODULE Row ----
EXTENDS Integers, Sequences, FiniteSets
VARIABLES
  \* @type: Int;
  x,
  \* @type: {f: Int};
  r,
  \* @type: Int -> Int;
  f,
  \* @type: Seq(Int);
  q
Init == x = 0
Next == x' = x
Sum == x + "a" = 2
Both == x = 1 /\ x
Step == x' = {x}
Field == r.g = 1
Fields == r = [f |-> "s"]
At == f["a"] = 1
Update == [f EXCEPT ![x] = "s"] = f
Index == [f EXCEPT !["s"] = 1] = f
Word == q["a"] = 1
Of == DOMAIN q = {"a"}
If == IF x = 1 THEN x ELSE {x}
In == x \in x
Kind == \E i \in 1..2: i = "a"
Case == CASE x = 1 -> "a" [] OTHER -> x
Local == LET k == x + TRUE IN k = 1
====
>types Init Next - Sum
refused: types Int and Str clash at Row:14:10
>types Init Next - Both
refused: types Bool and Int clash at Row:15:15
>types Init Step -
refused: types Int and Set(Int) clash at Row:16:12
>types Init Next - Field
refused: types {g: a, b} and {f: Int} clash at Row:17:11
>types Init Next - Fields
refused: types Int and Str clash at Row:18:13
>types Init Next - At
refused: types Int and Str clash at Row:19:8
>types Init Next - Update
refused: types Int and Str clash at Row:20:23
>types Init Next - Index
refused: types Int and Str clash at Row:21:22
>types Init Next - Word
refused: types Int and Str clash at Row:22:10
>types Init Next - Of
refused: types Int and Str clash at Row:23:16
>types Init Next - If
refused: types Int and Set(Int) clash at Row:24:7
>types Init Next - In
refused: types Set(Int) and Int clash at Row:25:9
>types Init Next - Kind
refused: types Str and Int clash at Row:26:9
>types Init Next - Case
refused: types Str and Int clash at Row:27:9
>types Init Next - Local
refused: types Int and Bool clash at Row:28:21

>case parts come in order, and a node behind its operands
>file Row
---- MODULE Row ----
EXTENDS Integers
CONSTANT
  \* @type: Int;
  c
VARIABLE
  \* @type: Int;
  x
Good == x = 1 /\ (1 = 2) = TRUE
Inv == x = "a"
Next == x' = "a"
Init == x = "a"
Step == x' = x
CInit == c = "a"
Late == (x = "a") /\ x
Early == x /\ (x = "a")
ASSUME c = 1
====
>types Init Next CInit Inv
refused: types Int and Str clash at Row:14:12
>types Init Next - Inv
refused: types Int and Str clash at Row:12:11
>types Good Next - Inv
refused: types Int and Str clash at Row:11:12
>types Good Step - Inv Late
refused: types Int and Str clash at Row:10:10
>types Good Step - Late
refused: types Int and Str clash at Row:15:12
>types Good Step - Early
refused: types Int and Str clash at Row:16:18
>types Good Step - Good
c: Int
x: Int

>case an assumption comes before the start
>file Row
---- MODULE Row ----
CONSTANT
  \* @type: Str;
  c
Init == c = 1
ASSUME c \in {1}
====
>types Init Init -
refused: types Str and Int clash at Row:6:10

>case parts are truth values, and a part's root comes behind its nodes
>file Row
---- MODULE Row ----
EXTENDS Integers
CONSTANT
  \* @type: Int;
  c
VARIABLE
  \* @type: Int;
  x
Init == x = 0
Next == x' = x
Inv == 5
None == {}
More == x' + 1
Plus == c + 1
Sum == 1 + "a"
Item == <<1, 2>>
====
>types Init Next - Inv
refused: types Bool and Int clash at Row:11:8
>types None Next -
refused: types Bool and Set(a) clash at Row:12:9
>types Init More -
refused: types Bool and Int clash at Row:13:12
>types Init Next Plus
refused: types Bool and Int clash at Row:14:11
>types Init Next - Sum
refused: types Int and Str clash at Row:15:10
>types Init More - Sum
refused: types Bool and Int clash at Row:13:12
>types Init Next - Item
refused: types Bool and <<Int, Int>> clash at Row:16:9

>case an assumption is a truth value
>file Row
---- MODULE Row ----
CONSTANT
  \* @type: Int;
  c
Init == TRUE
ASSUME c
====
>types Init Init -
refused: types Bool and Int clash at Row:6:8

>case a clash behind one default
>file Row
---- MODULE Row ----
EXTENDS Integers, Sequences, FiniteSets
VARIABLE
  \* @type: Int;
  x
Init == x = 0
Next == x' = x
Inv == <<1, 2>> = <<1, "a">>
====
>types Init Next - Inv
refused: types Int and Str clash at Row:8:19; defaults at Row:8:8

>case a clash behind two defaults
>file Row
---- MODULE Row ----
VARIABLE
  \* @type: Bool;
  x
Pair == <<1>> = <<1>>
Init == x = TRUE
Next == x' = x
Inv == \E e \in {}: Pair /\ DOMAIN e = {1} /\ e = <<1>>
====
>types Init Next - Inv
refused: types Int -> a and <<Int>> clash at Row:8:51; defaults at Row:5:9, Row:8:29

>case the places of the root come before those of other files
>file Row
---- MODULE Row ----
EXTENDS M
VARIABLE
  \* @type: Bool;
  x
Init == x = TRUE
Next == x' = x
Inv == \E e \in {}: Pair /\ DOMAIN e = {1} /\ e = <<1>>
====
>file M
---- MODULE M ----
Pair == <<1>> = <<1>>
====
>types Init Next - Inv
refused: types Int -> a and <<Int>> clash at Row:8:51; defaults at Row:8:29

>case a default of another file
>file Row
---- MODULE Row ----
EXTENDS M
VARIABLE
  \* @type: Bool;
  x
Init == x = TRUE
Next == x' = x
Inv == Pair(1, "a")
====
>file M
---- MODULE M ----
Pair(u, v) == <<u>> = <<v>>
====
>types Init Next - Inv
refused: types Int and Str clash at M:2:23; defaults at M:2:15
"##;
