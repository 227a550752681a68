// What is found in a job before it is reduced, `TREES ==> ANSWER` a line; `job_text` says how trees are written. Of
// infinite sets the answer is the column of the least that stands outside a form position, or `none`; of texts it is the
// different ones in order.

// `1 \in Int`, `1 \notin Nat`, `{1} \subseteq Int`, `S \in SUBSET [a: {1} -> Nat, b: Seq(Int) \X STRING]`, `1 = Int`, and
// what stands where a value does in a form: the domain of functions, a set of a set, a mapped set.
pub(crate) const INFINITE: &str = r#"TRUE ==> none
(in:3 1:1 (int:7)) ==> none
(notin:3 1:1 (nat:10)) ==> none
(subseteq:5 {:1 1:2} (int:15)) ==> none
(in:3 x:1 (powerset:7 (recset:14 [a b] (funset:22 {:18 1:19} (nat:25)) (product:37 (seqs:30 (int:34)) (string:40))))) ==> none
(in:3 x:1 (noted:5 [Set] (nat:7))) ==> none
(eq:3 1:1 (int:5)) ==> 5
(eq:5 (int:1) (nat:7)) ==> 1
(in:5 (int:1) {:9 (nat:10)}) ==> 1
(in:3 x:1 (funset:11 (nat:7) (int:15))) ==> 7
(in:3 x:1 {:7 (int:8)}) ==> 8
(in:3 x:1 (cup:11 (int:7) {:15 1:16})) ==> 7
(in:3 x:1 (if:7 TRUE:10 (nat:20) (int:29))) ==> 20
(in:3 x:1 (union:7 (powerset:13 (int:20)))) ==> 20
(forall:1 [i] (int:10) (eq:17 i:15 i:19)) ==> 10
(exists:1 [f] (funset:17 {:11 1:12} (nat:20)) TRUE:25) ==> 20
(eq:20 (filter:1 [i] (nat:9) TRUE:14) {:22}) ==> 9
(eq:20 (cardinality:1 (powerset:13 (seqs:20 (int:24)))) 1:22) ==> 20
(subseteq:7 (int:1) (nat:18)) ==> 1
(and:1 (eq:9 1:7 (int:12)) (eq:4 1:2 (nat:6))) ==> 6
(eq:9 1:7 (int:12)) (eq:4 1:2 (nat:6)) ==> 6
(eq:3 1:1 (int:5)) TRUE TRUE TRUE (eq:3 1:1 (nat:4)) ==> 4
TRUE (eq:3 1:1 (string:8)) (eq:3 1:1 (int:7)) (eq:3 1:1 (nat:9)) TRUE ==> 7
"#;

// A node's text stands before those of its children, which are in order; a field's name is no text, an index `.a` is one.
pub(crate) const TEXTS: &str = r#"TRUE ==>
(eq "b" "a") ==> b a
(eq "a" "a") ==> a
(and (eq "c" "a") (eq "b" "c") (eq "a" "d")) ==> c a b d
(eq x (record [f g] "q" "p")) ==> q p
(eq (field [f] x) "f") ==> f
(eq (except [1 1] x "a" 1 "b" "a") x) ==> a b
(in x {"one" {"two"} "one"}) ==> one two
(if (eq x "") (eq "z" x) (eq x "y")) ==>  z y
(exists [i] {"u"} (eq i "t")) ==> u t
(in x (map [i] {"m"} <i "l">)) ==> m l
(eq x "5") (eq x "4") (eq x "3") (eq x "2") (eq x "1") ==> 5 4 3 2 1
(eq x "1") (eq x "2") (eq x "1") (eq x "2") (eq x "3") ==> 1 2 3
"#;
