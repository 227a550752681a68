// Modules that are refused, with the place: a line a case, `;` is a line feed, and `%` stands for 400 times `~`.

/// The first unit that is not whole, the header, and what stands behind it.
pub(crate) const FAULTS: &str = r#"---- MODULE M ----;A == 1;B == (;C == 3;====  => grammar 3:1
---- MODULE M ----;VARIABLE x;----;A == 1 +;----;====  => grammar 4:1
---- MODULE M ----;LOCAL A == 1;LOCAL B == );====  => grammar 3:1
---- MODULE M ----;A == 1;---- );====  => grammar 3:1
---- MODULE M ----;A == 1 A == 2 );====  => grammar 2:8
---- MODULE M ----;RECURSIVE F(_), G;F(a) == a;G == F(;====  => grammar 4:1
---- MODULE M ----;A == INSTANCE N WITH x <- 1, y;====  => grammar 2:1
---- MODULE M ----;INSTANCE N;LOCAL INSTANCE 5;====  => grammar 3:1
---- MODULE M ----;A == /\ TRUE;     /\ (;B == 1;====  => grammar 2:1
---- MODULE M ----;A == 1;B == 2  => grammar 3:1
---- MODULE M ----;A == LET b == 1 c == 2;====  => grammar 2:1
---- MODULE M ---- 5;A == 1;====  => grammar 1:20
---- MODULE M ----  => grammar 1:15
---- MODULE M ---- EXTENDS Naturals  => grammar 1:28
---- MODULE M ---- EXTENDS Naturals A == (;====  => grammar 1:37
---- MODULE M ---- EXTENDS 5;====  => grammar 1:20
---- MODULE M ---- EXTENDS Naturals, 5;====  => grammar 1:36
---- MODULE 5 ----;A == 1;====  => grammar 1:1
---- MODULE M ----;A == 1;B == [a |-> 1, a |-> 2];C == 3;====  => grammar 3:1
---- MODULE M ----;A == ApaFoldSeqLeft(1, 2;====  => grammar 2:1
---- MODULE M ----;A == [a |-> 1, a |-> 2];B == (;====  => grammar 2:1
---- MODULE M ----;A == 1;B == {[b |-> [a |-> 1, a |-> 2]]};----;C == (;====  => grammar 3:1
---- MODULE M ----;A == [a |-> 1, a |-> 2];B == [b : S, c : T, b : U];====  => grammar 2:1
---- MODULE M ----;A == (;B == [a |-> 1, a |-> 2];====  => grammar 2:1
"#;

/// The first unit with more than 400 levels, where all are whole.
pub(crate) const DEEP: &str = r#"---- MODULE M ----;A == %TRUE;====  => deep 2:1
---- MODULE M ----;A == 1;B == %TRUE;C == 2;====  => deep 3:1
---- MODULE M ----;LOCAL B == %TRUE;C == %TRUE;====  => deep 2:1
---- MODULE M ----;A == 1;ASSUME %TRUE;====  => deep 3:1
---- MODULE M ----;I == INSTANCE N WITH x <- 1, y <- %TRUE, z <- 2;B == 1;====  => deep 2:1
---- MODULE M ----;VARIABLE x;----;A[y \in %TRUE] == 1;====  => deep 4:1
---- MODULE M ----;A == 1 B == (%TRUE);----;====  => deep 2:8
---- MODULE M ----;A == %TRUE;B == (;====  => grammar 3:1
---- MODULE M ----;A == [a |-> 1, a |-> 2];B == %TRUE;====  => grammar 2:1
---- MODULE M ----;A == %TRUE;B == [a |-> 1, a |-> 2];====  => grammar 3:1
"#;

/// Forms of the language that are read nowhere.
pub(crate) const NOT_READ: &str =
    r#"---- MODULE M ----;A == 1;---- MODULE N ----;====  => nested MODULE 3:1
---- MODULE M ----;LOCAL a + b == 1;====  => operator definition by symbol 2:9
---- MODULE M ----;VARIABLE x;- a == 1;====  => operator definition by symbol 3:1
---- MODULE M ----;a + b == 1;B == (;====  => operator definition by symbol 2:3
---- MODULE M ----;A == (;a + b == 1;====  => grammar 2:1
---- MODULE M ----;A == 1 MODULE N;====  => grammar 2:1
---- MODULE M ----;A == LET F(a) == 1 g \cup h == 2 IN 3;====  => operator definition by symbol 2:22
---- MODULE M ----;F(a, g(_)) == 1;====  => operator parameter 2:8
---- MODULE M ----;F(a, (_)) == 1;====  => grammar 2:1
---- MODULE M ----;F((_)) == 1;====  => grammar 2:1
---- MODULE M ----;CONSTANT (_);====  => grammar 2:1
---- MODULE M ----;A == LET F(a, g(_)) == 1 IN 2;====  => operator parameter 2:17
---- MODULE M ----;CONSTANT B, C(_, _);====  => operator parameter 2:15
---- MODULE M ----;A == 1;VARIABLE x(_);====  => grammar 3:1
---- MODULE M ----;LOCAL F(a, b) == INSTANCE N;====  => parametrized INSTANCE 2:18
---- MODULE M ----;f[x \in S] == INSTANCE N;====  => grammar 2:1
---- MODULE M ----;THEOREM TRUE;OBVIOUS;====  => proof 3:1
---- MODULE M ----;THEOREM TRUE;<1>1 TRUE;====  => proof 3:1
---- MODULE M ----;f[x \in S, <<y, z>> \in T] == 1;====  => tuple pattern 2:12
---- MODULE M ----;A == {x : y \in S, <<z, u>> \in T};====  => tuple pattern 2:20
---- MODULE M ----;A == \E <<x, y>> \in S : (;====  => tuple pattern 2:9
---- MODULE M ----;A == f(a, <<b, 2>>;====  => grammar 2:1
---- MODULE M ----;A == );THEOREM TRUE;PROOF OBVIOUS;====  => grammar 2:1
---- MODULE M ----;A == [a |-> 1, _ |-> 2];====  => grammar 2:1
---- MODULE M ----;f[x \in S] == LET g(a, <<b>>) == 1 IN 2;====  => grammar 2:1
---- MODULE M ----;A == /\ \E;<<x>> \in S : p;====  => grammar 2:1
---- MODULE M ----;VARIABLE x, <<y>>;====  => grammar 2:1
---- MODULE M ----;A == LET F(a) == INSTANCE N IN 1;====  => parametrized INSTANCE 2:18
---- MODULE M ----;A == 1 F(_) == 2;====  => operator parameter 2:10
---- MODULE M ----;CONSTANT B;VARIABLE C(_);====  => grammar 3:1
---- MODULE M ----;CONSTANT B;F(C(_)) == 1;====  => operator parameter 3:5
---- MODULE M ----;RECURSIVE F(a);====  => grammar 2:1
---- MODULE M ----;LOCAL ~ a == 1;====  => operator definition by symbol 2:7
---- MODULE M ----;A == 1;~ a == 2;====  => operator definition by symbol 3:1
---- MODULE M ----;a + b;====  => grammar 2:1
---- MODULE M ----;Init = x = 0;====  => grammar 2:1
---- MODULE M ----;A == 1;~ a;====  => grammar 2:1
---- MODULE M ----;F(~ a) == 2;====  => grammar 2:1
---- MODULE M ---- MODULE N;====  => grammar 1:20
---- MODULE BY ----;A == 1;====  => grammar 1:1
---- MODULE M ----;A == 1 + BY;====  => grammar 2:1
---- MODULE M ----;A == (1 <3> 2);====  => grammar 2:1
---- MODULE M ----;A == TRUE;QED;====  => proof 3:1
---- MODULE M ----;A == [a |-> 1, a |-> 2];---- MODULE N;====  => grammar 2:1
---- MODULE M ----;A == [a |-> 1, a |-> 2];a + b == 1;====  => grammar 2:1
---- MODULE M ----;A == <<[a |-> 1, a |-> 2], \E <<x>> \in S : p>>;====  => tuple pattern 2:31
---- MODULE M ----;A == [a |-> 1, <<b>> |-> 2];====  => grammar 2:1
---- MODULE M ----;A == [a |-> 1, a |-> 2];B == \E <<x, y>> \in S : p;====  => grammar 2:1
---- MODULE M ----;A == [a |-> 1, a |-> 2];a + b == 1;====  => grammar 2:1
---- MODULE M ----;A == [a |-> 1, a |-> 2];---- MODULE N ----;====  => grammar 2:1
---- MODULE M ----;f[x \in S] == [a |-> 1, a |-> 2];CONSTANT c, d(_);====  => grammar 2:1
---- MODULE M ----;A == {[a |-> 1, a |-> 2], \E <<x, y>> \in S : p};====  => tuple pattern 2:30
"#;
