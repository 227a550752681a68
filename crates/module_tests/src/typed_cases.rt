// Modules and their types: sets of modules with what is expected of them, in the form that `reader` reads.

pub(crate) const TYPED: &str = r##">case a variable that toggles
>file Toggle
---- MODULE Toggle ----
VARIABLE
  \* @type: Bool;
  x
Init == x = FALSE
Next == \/ x = FALSE /\ x' = TRUE
        \/ x = TRUE /\ x' = FALSE
Inv == x = FALSE
====
>types Init Next - Inv
x: Bool

>case two jugs of water
>file DieHard
---- MODULE DieHard ----
EXTENDS Integers
VARIABLES
  \* @type: Int;
  big,
  \* @type: Int;
  small
Init == big = 0 /\ small = 0
ToBig == IF big + small <= 5
  THEN big' = big + small /\ small' = 0
  ELSE big' = 5 /\ small' = small - (5 - big)
ToSmall == IF big + small <= 3
  THEN big' = 0 /\ small' = big + small
  ELSE big' = big - (3 - small) /\ small' = 3
Next == \/ big' = 5 /\ small' = small
        \/ big' = big /\ small' = 3
        \/ big' = 0 /\ small' = small
        \/ big' = big /\ small' = 0
        \/ ToBig
        \/ ToSmall
Inv == big # 4
====
>types Init Next - Inv
big: Int
small: Int

>case two-phase commit
>file TwoPhase
---- MODULE TwoPhase ----
VARIABLES
  \* @type: Str -> Str;
  rm,
  \* @type: Str;
  tm,
  \* @type: Set(Str);
  ready,
  \* @type: Set({kind: Str, from: Str});
  msgs
RM == {"r1", "r2", "r3"}
Msg(k, f) == [kind |-> k, from |-> f]
Init == /\ rm = [r \in RM |-> "working"]
        /\ tm = "init" /\ ready = {} /\ msgs = {}
Receive(r) == /\ tm = "init" /\ Msg("Prepared", r) \in msgs
              /\ ready' = ready \cup {r}
              /\ UNCHANGED <<rm, tm, msgs>>
Decide(k, s) == /\ tm = "init" /\ tm' = s
                /\ msgs' = msgs \cup {Msg(k, "")}
                /\ UNCHANGED <<rm, ready>>
Prepare(r) == /\ rm[r] = "working"
              /\ rm' = [rm EXCEPT ![r] = "prepared"]
              /\ msgs' = msgs \cup {Msg("Prepared", r)}
              /\ UNCHANGED <<tm, ready>>
Give(r) == /\ rm[r] = "working"
           /\ rm' = [rm EXCEPT ![r] = "aborted"]
           /\ UNCHANGED <<tm, ready, msgs>>
Obey(r, k, s) == /\ Msg(k, "") \in msgs
                 /\ rm' = [rm EXCEPT ![r] = s]
                 /\ UNCHANGED <<tm, ready, msgs>>
Next == \/ ready = RM /\ Decide("Commit", "committed")
        \/ Decide("Abort", "aborted")
        \/ \E r \in RM: \/ Receive(r) \/ Prepare(r) \/ Give(r)
                        \/ Obey(r, "Commit", "committed")
                        \/ Obey(r, "Abort", "aborted")
Inv == \A a \in RM: \A b \in RM:
         ~(rm[a] = "aborted" /\ rm[b] = "committed")
====
>types Init Next - Inv
rm: Str -> Str
tm: Str
ready: Set(Str)
msgs: Set({kind: Str, from: Str})

>case a ring of three
>file Ring
---- MODULE Ring ----
EXTENDS Integers
VARIABLE
  \* @type: Int -> Bool;
  token
Init == token = [i \in 1..3 |-> i = 1]
Next == \E i \in 1..3: token[i] /\ token' = [token EXCEPT
  ![i] = FALSE, ![IF i = 3 THEN 1 ELSE i + 1] = TRUE]
Inv == \A i \in 1..3: \A j \in 1..3: token[i] /\ token[j] => i = j
====
>types Init Next - Inv
token: Int -> Bool

>case a module of definitions that is instantiated, extended, or the root
>file Row
---- MODULE Row ----
EXTENDS Integers, Sequences, FiniteSets
VARIABLE
  \* @type: Int;
  x
I == INSTANCE Inc WITH c <- 2
Init == x = 0
Next == x' = I!Add(x)
Inv == x # 4
====
>file Inc
---- MODULE Inc ----
EXTENDS Integers
CONSTANT
  \* @type: Int;
  c
Add(n) == n + c
====
>types Init Next - Inv
x: Int

>case constants come first
>file Root
---- MODULE Root ----
EXTENDS Inc
VARIABLE
  \* @type: Int;
  x
ASSUME c > 0
CInit == c \in {1, 2}
Init == x = c
Next == x' = Add(x)
Inv == x > 0
====
>file Inc
---- MODULE Inc ----
EXTENDS Integers
CONSTANT
  \* @type: Int;
  c
Add(n) == n + c
====
>types Init Next CInit Inv
c: Int
x: Int
>types Init Next - Add
refused: no operator Add

>case what engineers write, over annotated variables
>file Row
---- MODULE Row ----
EXTENDS Integers, Sequences, FiniteSets
VARIABLES
  \* @type: Int;
  n,
  \* @type: Bool;
  b,
  \* @type: Int -> Int;
  f,
  \* @type: Int -> Bool;
  g,
  \* @type: Set(Int);
  s,
  \* @type: Seq(Int);
  q
Vars == <<n, b, f, g, s, q>>
Init == /\ n = 1 /\ n = 2 /\ b = TRUE /\ b \in BOOLEAN
        /\ f = [i \in 1..3 |-> i] /\ f \in [1..5 -> 1..4]
        /\ g \in [1..40 -> BOOLEAN] /\ s = {1} /\ q = <<1, 2>>
Step == f[9] = 0 /\ n' \in {} /\ g' \in [1..40 -> BOOLEAN] /\ q' = Append(q, 3)
Step2 == \/ n' = 1
         \/ n' = 1 /\ 1 \div n = 2
Next == \/ Step /\ UNCHANGED <<b, s>> /\ f' \in [{f[1], 1} -> 1..2]
        \/ Step2 /\ UNCHANGED Vars
        \/ [Step]_Vars \/ <<Step2>>_Vars
Of == ~(9 \in DOMAIN f /\ f[9] = 1) /\ DOMAIN f = {1}
Some == \E i \in 1..4: f[i] = 1
Kept == [f EXCEPT ![9] = 0] = f
Two == \E i \in 1..5: \E j \in 1..5: i < j /\ f[i] = f[j]
Count == Cardinality({1, n}) = 1
Subsets == \A S \in SUBSET (1..17): b
Truths == \A i \in 1..40: g[i] \in BOOLEAN
Least == \A i \in s: i <= 40
Places == Len(q) < 4 /\ Head(Tail(q)) = 2 /\ Tail(Tail(Tail(q))) = <<>>
====
>types Init Next - Of Some Kept Two Count Subsets Truths Least Places
n: Int
b: Bool
f: Int -> Int
g: Int -> Bool
s: Set(Int)
q: Seq(Int)

>case what the text alone decides
>file Row
---- MODULE Row ----
EXTENDS Integers, Sequences, FiniteSets, TLC, Apalache
CONSTANTS
  \* @type: a;
  c,
  \* @type: Set(a);
  d
VARIABLES
  \* @type: a;
  fun,
  \* @type: a;
  rec,
  \* @type: {f: Int, r};
  open,
  \* @type: a;
  forms,
  \* @type: a;
  prod,
  \* @type: a;
  pairs,
  \* @type: a;
  map,
  \* @type: a -> a;
  same,
  \* @type: <<a, b>>;
  two,
  \* @type: a;
  seq,
  \* @type: a;
  tup,
  \* @type: a;
  none,
  \* @type: a;
  left
ASSUME d = {{}}
CInit == c \in {TRUE}
Init == /\ fun = [i \in 1..3 |-> {i}]
        /\ rec = [a |-> c, b |-> <<c, "s">>]
        /\ forms \in [{"1_OF_P"} -> SUBSET Seq(STRING)]
        /\ prod \in {1} \X BOOLEAN \X {"s"}
        /\ pairs = [i \in {1}, j \in BOOLEAN |-> i]
        /\ map = ("a" :> 1 @@ "b" :> 2)
        /\ none = {}
Next == /\ same' = [same EXCEPT ![1] = @ + 1]
        /\ two' = <<"s", IF c THEN 1 ELSE 2>>
        /\ seq' = SubSeq(seq, 1, 2) \o <<TRUE>>
        /\ open' = [open EXCEPT !.g = "s"]
Inv == /\ tup = <<1, 2>>
       /\ left = ApaFoldSeqLeft(LAMBDA v, e: v \cup {e}, {}, <<"s">>)
====
>types Init Next CInit Inv
c: Bool
d: Set(Set(Int))
fun: Int -> Set(Int)
rec: {a: Bool, b: <<Bool, Str>>}
open: {f: Int, g: Str}
forms: P -> Set(Seq(Str))
prod: <<Int, Bool, Str>>
pairs: <<Int, Bool>> -> Int
map: Str -> Int
same: Int -> Int
two: <<Str, Int>>
seq: Seq(Bool)
tup: <<Int, Int>>
none: Set(Int)
left: Set(Str)

>case a part that comes later decides
>file Row
---- MODULE Row ----
EXTENDS Integers, Sequences
VARIABLES
  \* @type: a;
  x,
  \* @type: a;
  y
Init == x = <<1, 2>> /\ y = <<1, 2>>
Next == x' = x /\ y' = y
Inv == Len(x) = 2
====
>types Init Next - Inv
x: Seq(Int)
y: <<Int, Int>>
>types Init Next -
x: <<Int, Int>>
y: <<Int, Int>>

>case a literal of an uninterpreted type
>file Row
---- MODULE Row ----
VARIABLES
  \* @type: B;
  x,
  \* @type: Str;
  s
Init == x = "a_OF_B" /\ s = "a_OF_b"
Next == x' \in {"a_OF_A_OF_B", x} /\ s' \in {"a_OF_Int", "_OF_B", "a_OF_"}
Other == x = "a_OF_C"
Plain == x = "a"
Free == s = "a_OF_B"
====
>types Init Next -
x: B
s: Str
>types Init Next - Other
refused: types B and C clash at Row:9:12
>types Init Next - Plain
refused: types B and Str clash at Row:10:12
>types Init Next - Free
refused: types Str and B clash at Row:11:11

>case annotated definitions
>file Row
---- MODULE Row ----
EXTENDS Integers, Apalache
VARIABLE
  \* @type: Int;
  x
\* @type: (Int, Int) => Int;
Sum(a, b) == a + b
\* @type: () => Str;
One == 1
\* @type: Int;
Two == 2
LOCAL
\* @type: (Int) => Bool;
Is(a) == a = x
\* @type: (Int, Str) => Int;
Left(v, e) == IF e = "s" THEN v ELSE v + 1
\* @type: Seq(Int);
None == <<>>
\* @type: (Set(Str)) => Bool;
Set(S) == S = {}
Init == x = Sum(1, 2) /\ Is(Two) /\ x = ApaFoldSeqLeft(Left, 0, <<"s">>)
Next == x' = Sum(x, 1) /\ Set({})
Second == Sum(x, "a") = 2
Result == One = 1
Used == Two = {}
Argument == Is(TRUE)
Empty == None = <<"a">>
Fold == x = ApaFoldSeqLeft(Left, 0, <<1>>)
====
>types Init Next -
x: Int
>types Init Next - Second
refused: types Int and Str clash at Row:7:1
>types Init Next - Result
refused: types Str and Int clash at Row:9:1
>types Init Next - Used
refused: types Int and Set(a) clash at Row:25:13
>types Init Next - Argument
refused: types Int and Bool clash at Row:14:1
>types Init Next - Empty
refused: types Int and Str clash at Row:27:17
>types Init Next - Fold
refused: types Str and Int clash at Row:28:37

>case an annotation with variables binds nothing
>file Row
---- MODULE Row ----
EXTENDS Integers
VARIABLE
  \* @type: Int;
  x
\* @type: (a) => a;
Id(p) == p
\* @type: (a, a) => Bool;
Pair(p, q) == p \in {p} /\ q \in {q}
\* @type: ({f: Int, r}) => Int;
Get(p) == p.f
\* @type: (a) => Bool;
No(p) == p
Init == Id(x) = 1 /\ Id("a") = "a" /\ Pair(1, "a")
Next == x' = Get([f |-> 1, g |-> 2]) /\ x = Get([f |-> 2])
Inv == Get([f |-> "s"]) = "s" /\ No(1) = 1
====
>types Init Next - Inv
x: Int

>case a definition is typed anew at each use
>file Row
---- MODULE Row ----
VARIABLE
  \* @type: Bool;
  x
Wrap(e) == {e}
Both(S, T) == S \cup T
Init == x = (Wrap(1) = {2}) /\ Wrap("a") = {"b"}
Next == x' = x /\ Both({}, {1}) = {} /\ Both({}, {"a"}) = {}
Inv == Both({1}, Wrap("a")) = {}
====
>types Init Next -
x: Bool
>types Init Next - Inv
refused: types Int and Str clash at Row:6:17

>case annotations inside a LET bind nothing
>file Row
---- MODULE Row ----
VARIABLE
  \* @type: Bool;
  x
Init == LET
  \* @type: Intt;
  k == 1 IN x = (k = 2)
Next == x' = x
====
>types Init Next -
x: Bool

>case an annotation of an instance
>file Row
---- MODULE Row ----
VARIABLE
  \* @type: Int;
  x
I == INSTANCE M WITH c <- x, v <- x
J == INSTANCE M WITH c <- "a", v <- x
Init == x = 1
Next == I!Op(2)
Other == J!Op(2)
Third == I!Op("a")
====
>file M
---- MODULE M ----
EXTENDS Integers
CONSTANT
  \* @type: Intt;
  c
VARIABLE v
\* @type: (Int) => Bool;
Op(n) == v' = c + n
====
>types Init Next -
x: Int
>types Init Other -
refused: types Int and Str clash at M:8:17
>types Init Third -
refused: types Int and Str clash at M:8:1

>case aliases of the modules that are mentioned
>file Row
---- MODULE Row ----
EXTENDS M
VARIABLES
  \* @type: Set($node);
  x,
  \* @type: $node -> $late;
  y
\* @typeAlias: late = Seq($set);
\* @typeAlias: node = Str;
Init == x = {"1_OF_NODE"} /\ y = [n \in x |-> <<>>]
Next == x' = Nodes /\ y' = y
====
>file M
---- MODULE M ----
LOCAL INSTANCE U
\* @typeAlias: set = Set($node);
\* @type: $set;
Nodes == {"2_OF_NODE"}
====
>file U
---- MODULE U ----
\* @typeAlias: node = Node;
\* @typeAlias: node = NODE;
One == 1
====
>types Init Next -
x: Set(NODE)
y: NODE -> Seq(Set(NODE))

>case an alias counts where those that it names stand before it
>file Row
---- MODULE Row ----
\* @typeAlias: sets = Set($items); and @typeAlias: bad = Intt;
\* @typeAlias: items = Int;
\* @typeAlias: more = <<$items, $items>>;
VARIABLES
  \* @type: $more;
  x,
  \* @type: $sets;
  y
Init == x = <<1, 2>> /\ y = {}
Next == x' = x /\ y' = y
====
>types Init Next -
refused: bad type at Row:9:3

>case an alias that no module says
>file Row
---- MODULE Row ----
VARIABLE
  \* @type: Set($gone);
  x
Init == x = {}
Next == x' = x
====
>types Init Next -
refused: bad type at Row:4:3

>case an alias of an operator type
>file Row
---- MODULE Row ----
\* @typeAlias: op = (Int) => Bool;
VARIABLE
  \* @type: Int;
  x
\* @type: $op;
Is(a) == a = x
Init == Is(1)
Next == x' = x
Inv == Is("a")
====
>types Init Next -
x: Int
>types Init Next - Inv
refused: types Int and Str clash at Row:7:1

>case a bad type in another file
>file Row
---- MODULE Row ----
EXTENDS M
VARIABLE
  \* @type: Bool;
  x
Init == x = TRUE
Next == x' = (One = 1)
Inv == Lift = 1
====
>file M
---- MODULE M ----
\* @type: Strr;
One == 1
\* @type: Int -> ((Int) => Int);
Lift == 1
====
>types Init Next -
refused: bad type at M:3:1
>types Init Init - Inv
refused: bad type at M:5:1
>types Init Init -
x: Bool

>case no operators
>file Inc
---- MODULE Inc ----
EXTENDS Integers
CONSTANT
  \* @type: Int;
  c
Add(n) == n + c
====
>types Init Next - Inv
refused: no operator Init
"##;
