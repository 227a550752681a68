// Expressions with their trees.

/// Every operator beside neighbours that could capture it.
pub(crate) const OPERATORS: &str = r#"a + b + c  => (add (add a b) c)
a - b - c  => (sub (sub a b) c)
a - b + c  => (add (sub a b) c)
a + b * c  => (add a (mul b c))
a * b + c  => (add (mul a b) c)
a * b \div c  => grammar 2:1
a ^ b ^ c  => grammar 2:1
a % b % c  => grammar 2:1
a + b % c  => grammar 2:1
a % b + c  => grammar 2:1
a * b % c  => (mod (mul a b) c)
-a + b  => (add (neg a) b)
-a * b  => (neg (mul a b))
a - -b  => (sub a (neg b))
-a ^ 2  => (neg (pow a 2))
a ^ b  => (power a b)
a ^ 0  => (power a 0)
a ^ 1  => (pow a 1)
a ^ 127  => (pow a 127)
a ^ 128  => (power a 128)
a ^ (3)  => (pow a 3)
a ^ -1  => (power a (neg 1))
a..b + c  => (range a (add b c))
a = b = c  => grammar 2:1
a = b /\ c = d  => (and (eq a b) (eq c d))
a /\ b /\ c  => (and a b c)
a \/ b \/ c  => (or a b c)
(a /\ b) /\ c  => (and (and a b) c)
a /\ (b /\ c)  => (and a (and b c))
a /\ b \/ c  => grammar 2:1
a \/ b /\ c  => grammar 2:1
a => b => c  => grammar 2:1
a /\ b => c  => (implies (and a b) c)
a <=> b => c  => (implies (iff a b) c)
a <=> b <=> c  => grammar 2:1
a ~> b  => (temporal a b)
~a /\ b  => (and (not a) b)
~a = b  => (not (eq a b))
a = ~b  => (eq a (not b))
~ ~a  => (not (not a))
[]a => b  => (implies (temporal a) b)
[]a /\ b  => (and (temporal a) b)
[]<>a  => (temporal (temporal a))
ENABLED a /\ b  => (and (enabled a) b)
UNCHANGED a \cup b  => grammar 2:1
UNCHANGED (a \cup b)  => (unchanged (cup a b))
SUBSET a \cup b  => grammar 2:1
SUBSET SUBSET a  => (subset (subset a))
DOMAIN f \cup g  => (cup (domain f) g)
UNION {a}  => (union (set a))
a \cup b \cup c  => (cup (cup a b) c)
a \cup b \cap c  => grammar 2:1
a \ b \ c  => grammar 2:1
a \in b \cup c  => (in a (cup b c))
a \notin b  => (notin a b)
a \subseteq b  => (subseteq a b)
a # b  => (ne a b)
a /= b  => (ne a b)
a <= b  => (le a b)
a =< b  => (le a b)
a >= b  => (ge a b)
a < b  => (lt a b)
a > b  => (gt a b)
a := b  => (assign a b)
a \X b \X c  => (product a b c)
(a \X b) \X c  => (product (product a b) c)
a \o b \o c  => (concat (concat a b) c)
a @@ b @@ c  => (merge (merge a b) c)
a :> b @@ c :> d  => (merge (single a b) (single c d))
a + b' * c  => (add a (mul (prime b) c))
-a'  => (neg (prime a))
~a'  => (not (prime a))
a'[b].c  => (field c (apply (prime a) b))
a[b]'  => (prime (apply a b))
a.b.c  => (field c (field b a))
x' = x + 1  => (eq (prime x) (add x 1))
"#;

pub(crate) const FORMS: &str = r#"TRUE  => TRUE
FALSE  => FALSE
BOOLEAN  => (BOOLEAN)
STRING  => (STRING)
12  => 12
"a"  => "a
(a)  => a
((a + b)) * c  => (mul (add a b) c)
{}  => (set)
{a}  => (set a)
{a, b}  => (set a b)
{x \in S : p}  => (filter [ x ] S p)
{x \in S, y}  => (set (in x S) y)
{x \in S \cup T : p /\ q}  => (filter [ x ] (cup S T) (and p q))
{e : x \in S}  => (map [ x ] S e)
{x : x \in S}  => (map [ x ] S x)
{<<x>> : x \in T}  => (map [ x ] T (tuple x))
{(<<x>> \in S) : x \in T}  => (map [ x ] T (in (tuple x) S))
{<<x>> \in S, y}  => (set (in (tuple x) S) y)
{e : x, y \in S, z \in T}  => (map [ x y z ] S S T e)
[x \in S |-> e]  => (fun [ x ] S e)
[x \in S, y \in T |-> e]  => (fun [ x y ] S T e)
[x, y \in S |-> e]  => (fun [ x y ] S S e)
[x, y \in S, z \in T |-> e]  => (fun [ x y z ] S S T e)
[S -> T]  => (funset S T)
[a |-> 1]  => (record a 1)
[a |-> 1, b |-> 2]  => (record a b 1 2)
[a |-> b, b |-> [a |-> a]]  => (record a b b (record a a))
[a : S, b : T]  => (recset a b S T)
[f EXCEPT ![i] = e]  => (except 1 [ @ ] f i e)
[f EXCEPT ![i, j][k].a = e, !.b = @]  => (except 3 1 [ @ ] f (tuple i j) k "a e "b @)
[f EXCEPT !.a[i] = @ + 1]  => (except 2 [ @ ] f "a i (add @ 1))
<<>>  => (tuple)
<<a, b>>  => (tuple a b)
[A]_v  => (boxed A v)
[A]_<<v, w>>  => (boxed A (tuple v w))
[A]_(v \o w)  => (boxed A (concat v w))
<<A>>_v  => (angled A v)
<<A>>_<<v, w>>  => (angled A (tuple v w))
[][Next]_vars  => (temporal (boxed Next vars))
WF_v(A)  => (temporal v A)
SF_<<v, w>>(A)  => (temporal (tuple v w) A)
WF_(v)(A)  => (temporal v A)
[][N]_v /\ WF_v(N)  => (and (temporal (boxed N v)) (temporal v N))
Op(a)  => (Op a)
Op(a, b)  => (Op a b)
Op(a)(b)  => grammar 2:1
I!Op  => I!Op
I!Op(a)  => (I!Op a)
f[a]  => (apply f a)
f[a, b]  => (apply f (tuple a b))
f[a][b]  => (apply (apply f a) b)
\E x \in S : p  => (exists [ x ] S p)
\E x, y \in S, z \in T : p  => (exists [ x y z ] S S T p)
\A x \in S : \E y \in T : p  => (forall [ x ] S (exists [ y ] T p))
\E x : p  => (unbounded [ x ] p)
\A x, y : p  => (unbounded [ x y ] p)
CHOOSE x \in S : p  => (choose [ x ] S p)
CHOOSE x : p  => (choose [ x ] p)
\E x \in S : p /\ q  => (exists [ x ] S (and p q))
p /\ \E x \in S : q /\ r  => (and p (exists [ x ] S (and q r)))
(\E x \in S : p) /\ q  => (and (exists [ x ] S p) q)
IF a THEN b ELSE c  => (if a b c)
IF a THEN b ELSE c + d  => (if a b (add c d))
1 + IF a THEN b ELSE c + d  => (add 1 (if a b (add c d)))
~ IF a THEN b ELSE c  => (not (if a b c))
CASE a -> b  => (case a b)
CASE a -> b [] c -> d  => (case a b c d)
CASE a -> b [] OTHER -> d  => (caseother a b d)
CASE a -> CASE b -> c [] d -> e  => (case a (case b c d e))
CASE a -> (CASE b -> c) [] d -> e  => (case a (case b c) d e)
LET a == 1 IN a + a  => (let a/0 1 (add a a))
LET f(a, b) == a g == 2 IN f(g, g)  => (let f/2 g/0 [ a b ] a 2 (f g g))
LET f[i \in S] == i IN f[1]  => (let f/0 (fun [ i ] S i) (apply f 1))
LET f[i, j \in S] == i IN f  => (let f/0 (fun [ i j ] S S i) f)
ApaFoldSeqLeft(LAMBDA a, b : a + b, 0, s)  => (fold [ a b ] (add a b) 0 s)
ApaFoldSeqLeft(Op, 0, s)  => (fold Op 0 s)
Len(s) + Cardinality({a})  => (add (Len s) (Cardinality (set a)))
x' \in [S -> T]  => (in (prime x) (funset S T))
"#;

/// Junction lists; a `;` is a line feed.
pub(crate) const LISTS: &str = r#"/\ a  => (and a)
/\ a;/\ b  => (and a b)
\/ a;\/ b;\/ c  => (or a b c)
/\ a;/\ \/ b;   \/ c;/\ d  => (and a (or b c) d)
\/ a;\/ b;/\ c  => (and (or a b) c)
\/ a;\/ b; /\ c  => (or a (and b c))
/\ a;\/ b  => (or (and a) b)
/\ a; \/ b  => (and (or a b))
/\ a /\ b;/\ c  => (and (and a b) c)
/\ a \/ b;/\ c  => (and (or a b) c)
/\ a;+ b  => (add (and a) b)
/\ a; + b  => (and (add a b))
/\ a;  = b; = c  => grammar 2:1
/\ IF a; THEN b; ELSE c;/\ d  => (and (if a b c) d)
/\ \E x \in S : p;/\ q  => (and (exists [ x ] S p) q)
/\ \E x \in S :;    /\ p;    /\ q;/\ r  => (and (exists [ x ] S (and p q)) r)
/\ (a; \/ b);/\ c  => (and (or a b) c)
/\ (a;) /\ b  => grammar 2:1
(/\ a;/\ b)  => (and (and a) b)
( /\ a;  /\ b )  => (and a b)
( /\ a;  /\ b; ) \/ c  => (or (and a b) c)
  /\ a; => b  => (implies (and a) b)
x = 1 /\ /\ a;         /\ b  => (and (eq x 1) (and a b))
IF /\ a;   /\ b; THEN c ELSE d  => (if (and a b) c d)
CASE a -> /\ b;          /\ c;     [] d -> e  => (case a (and b c) d e)
/\ CASE a -> b;  [] c -> d;/\ e  => (and (case a b c d) e)
LET a == /\ b;         /\ c; IN /\ a;    /\ a  => (let a/0 (and b c) (and a a))
/\ UNCHANGED <<a,; b>>;/\ c  => (and (unchanged (tuple a b)) c)
/\ UNCHANGED <<a,;b>>;/\ c  => grammar 2:1
"#;

pub(crate) const PLACES: &str = r#"a + b  => (add@3 a@1 b@5)
-a  => (neg@1 a@2)
a'  => (prime@2 a@1)
f[a, b]  => (apply@2 f@1 (tuple@2 a@3 b@6))
a.b  => (field@2 b a@1)
a /\ b /\ c  => (and@3 a@1 b@6 c@11)
{a}  => (set@1 a@2)
{x \in S : p}  => (filter@1 [ x ] S@8 p@12)
[f EXCEPT !.a = 1]  => (except@1 1 [ @ ] f@2 "a@12 1@17)
Op(a)  => (Op@1 a@4)
(a)  => a@2
[A]_v  => (boxed@1 A@2 v@5)
I!Op  => I!Op@1
IF a THEN b ELSE c  => (if@1 a@4 b@11 c@18)
\E x \in S : p  => (exists@1 [ x ] S@10 p@14)
/\ a;/\ b  => (and@1 a@4 b@4)
LET f[i \in S] == i IN f  => (let@1 f/0 (fun@6 [ i ] S@13 i@19) f@24)
ApaFoldSeqLeft(Op, 0, s)  => (fold@1 Op@16 0@20 s@23)
ApaFoldSeqLeft(LAMBDA a, b : a + b, 0, s)  => (fold@1 [ a b ] (add@32 a@30 b@34) 0@37 s@40)
"#;

pub(crate) const REFUSALS: &str = r#"  => grammar 2:1
a b  => grammar 3:3
a +  => grammar 2:1
(a  => grammar 2:1
a)  => grammar 2:1
1(a)  => grammar 2:1
{a,}  => grammar 2:1
Op()  => grammar 2:1
CASE OTHER -> a  => grammar 2:1
IF a THEN b  => grammar 2:1
\E x \in S p  => grammar 2:1
\E <<a, b>> \in S : p  => tuple pattern 3:4
\A x \in S, <<a, b>> \in T : p  => tuple pattern 3:13
CHOOSE <<a, b>> \in S : p  => tuple pattern 3:8
[x \in S, <<a, b>> \in T |-> p]  => tuple pattern 3:11
{<<x>> \in S : x \in T}  => grammar 2:1
{<<x, y>> \in S : p}  => grammar 2:1
[<<x, y>> \in S |-> p]  => grammar 2:1
LET f(_) == a IN a  => operator parameter 3:7
LAMBDA a, b : a  => grammar 2:1
[a |-> 1, 2]  => grammar 2:1
@@ a  => grammar 2:1
[a |-> 1, a |-> 2]  => grammar 2:1
[a : S, b : T, a : U]  => grammar 2:1
{[b |-> [a |-> 1, a |-> 2]]}  => grammar 2:1
LET ~ a == b IN a  => operator definition by symbol 3:5
LET ~ a b IN a  => grammar 2:1
LET a + b == a IN a  => operator definition by symbol 3:7
"#;
