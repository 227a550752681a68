// Types that clash, at the node that asks for them: what its row says stands first, and the earlier operand counts.

pub(crate) const CLASHES: &str = r#"(and:9 TRUE 1) ==> Bool # Int @9
(or:9 1 TRUE) ==> Bool # Int @9
(implies:9 1 TRUE) ==> Bool # Int @9
(implies:9 TRUE 1) ==> Bool # Int @9
(not:9 1) ==> Bool # Int @9
(iff:9 TRUE "a") ==> Bool # Str @9
(if:9 1 2 3) ==> Bool # Int @9
(if:9 TRUE 2 "a") ==> Int # Str @9
(case:9 1 2) ==> Bool # Int @9
(case:9 TRUE 2 TRUE "a") ==> Int # Str @9
(case:9 TRUE 2 3 4) ==> Bool # Int @9
(case-other:9 TRUE 2 "a") ==> Int # Str @9
(eq:9 1 "a") ==> Int # Str @9
(ne:9 "a" 1) ==> Str # Int @9
x: Int | (assign:9 x' "a") ==> Int # Str @9
(lt:9 "a" 1) ==> Int # Str @9
(gt:9 1 "a") ==> Int # Str @9
(le:9 "a" 1) ==> Int # Str @9
(ge:9 1 TRUE) ==> Int # Bool @9
(eq (add:9 1 "a") 2) ==> Int # Str @9
(eq (add:9 "a" 1) 2) ==> Int # Str @9
(sub:9 1 TRUE) ==> Int # Bool @9
(mul:9 TRUE 1) ==> Int # Bool @9
(neg:9 "a") ==> Int # Str @9
(div:9 1 "a") ==> Int # Str @9
(mod:9 "a" 1) ==> Int # Str @9
(pow:9 "a" 1) ==> Int # Str @9
(range:9 1 "a") ==> Int # Str @9
(range:9 "a" 1) ==> Int # Str @9
(eq {:8 1 "a"} {}) ==> Int # Str @8
(in:10 1 "a") ==> Set(Int) # Str @10
(in:12 "a" {1}) ==> Str # Int @12
(notin:12 "a" {1}) ==> Str # Int @12
(in:9 "1_OF_P" (string)) ==> P # Str @9
(eq:9 "1_OF_P" "1_OF_Q") ==> P # Q @9
(subseteq:9 {1} 2) ==> Set(Int) # Int @9
(eq (cup:10 1 {2}) {}) ==> Set(a) # Int @10
(cap:9 {1} {"a"}) ==> Int # Str @9
(minus:9 {1} 2) ==> Set(Int) # Int @9
(powerset:9 1) ==> Set(a) # Int @9
(funset:9 1 {2}) ==> Set(a) # Int @9
(funset:9 {1} 2) ==> Set(a) # Int @9
(recset:9 [f g] {1} 2) ==> Set(a) # Int @9
(product:9 1 {2}) ==> Set(a) # Int @9
(union:9 1) ==> Set(Set(a)) # Int @9
(union:9 {1}) ==> Set(a) # Int @9
(seqs:9 1) ==> Set(a) # Int @9
(cardinality:9 1) ==> Set(a) # Int @9
(finite:9 "a") ==> Set(a) # Str @9
(exists:9 [a] {} 1) ==> Bool # Int @9
(exists:9 [a] 1 TRUE) ==> Set(a) # Int @9
(forall:9 [a] {} 1) ==> Bool # Int @9
(filter:9 [a] {} 1) ==> Bool # Int @9
(map:9 [a] 1 2) ==> Set(a) # Int @9
(lambda:9 [a] 1 2) ==> Set(a) # Int @9
(exists:8 [i] (range 1 3) (eq i "a")) ==> Str # Int @8
(merge:9 (single 1 2) (single "a" 2)) ==> Int # Str @9
(merge:9 (single 1 2) (single 1 "a")) ==> Int # Str @9
(merge:9 1 (single 1 2)) ==> a -> b # Int @9
x: {f: Int} | (eq (field:9 [g] x) 1) ==> {g: a, b} # {f: Int} @9
(field:9 [g] 1) ==> {g: a, b} # Int @9
(exists:8 [r] {(record [f] 1)} (eq (field:27 [g] r) 2)) ==> {g: Int, a} # {f: Int} @8
(eq:9 (record [f] 1) (record [g] 1)) ==> {f: Int} # {g: Int} @9
(eq:9 (record [f] 1) (record [f] "a")) ==> Int # Str @9
(len:9 1) ==> Seq(a) # Int @9
(append:9 1 2) ==> Seq(a) # Int @9
(append:9 (append <> 1) "a") ==> Int # Str @9
(concat:9 (append <> 1) (append <> "a")) ==> Int # Str @9
(head:9 {1}) ==> Seq(a) # Set(Int) @9
(tail:9 1) ==> Seq(a) # Int @9
(subseq:9 1 2 3) ==> Seq(a) # Int @9
(subseq:9 <> "a" 1) ==> Int # Str @9
(subseq:9 <> 1 "a") ==> Int # Str @9
(fold:9 [a b] a 0 1) ==> Seq(a) # Int @9
(fold:9 [a b] "s" 0 <>) ==> Str # Int @9
(exists [a] {} (in:9 a a)) ==> Set(a) # a @9"#;

// A part is a truth value: its root asks for Bool, behind what its nodes ask.
pub(crate) const ROOTS: &str = r#"5:9 ==> Bool # Int @9
TRUE 5:9 ==> Bool # Int @9
TRUE TRUE TRUE TRUE TRUE TRUE 5:9 ==> Bool # Int @9
x: Int | (add:9 x' 1) TRUE ==> Bool # Int @9
{:9} TRUE TRUE ==> Bool # Set(a) @9
{:9 1} TRUE TRUE TRUE ==> Bool # Set(Int) @9
"a":9 TRUE TRUE TRUE TRUE ==> Bool # Str @9
x: Int -> Bool | x:9 ==> Bool # Int -> Bool @9
x: Int -> Int | (apply:9 x 1) ==> Bool # Int @9
(record:9 [f] 1) ==> Bool # {f: Int} @9
(noted:9 [0 Int] 5:20) ==> Bool # Int @9
(if:9 TRUE 1:5 2:3) ==> Bool # Int @9
<:9 1 2> ==> Bool # <<Int, Int>> @9
<:9> ==> Bool # Seq(a) @9
(add:9 1 (neg:7 "a")) ==> Int # Str @7
(add:9 1 "a") ==> Int # Str @9
5:9 (not:4 1) TRUE ==> Bool # Int @9
(not:9 1) 5:4 TRUE ==> Bool # Int @9
TRUE 5:9 5:4 ==> Bool # Int @9
(eq <:3 1> <:4 "a">) 5:9 ==> Bool # Int @9"#;

// Of several clashes the first in the order of visits is answered: a node behind its children, part by part, and a
// part's root behind its nodes.
pub(crate) const FIRST_CLASHES: &str = r#"(and:3 (not:7 1) (not:5 "a")) ==> Bool # Int @7
(and:3 1 (not:5 "a")) ==> Bool # Str @5
TRUE TRUE (not:9 1) (not:5 "a") TRUE ==> Bool # Int @9
TRUE TRUE TRUE TRUE TRUE (not:9 1) (not:5 "a") ==> Bool # Int @9"#;
