// Action positions, in the form of `values`: the trees are Next and an invariant, or all parts.

// Where a node is split into paths, its guards are no assignments and no ends of paths.
pub(crate) const ACTIONS: &str =
    r#"x: Int; y: Int | (and (eq x' 1) (or (eq y' 2) (eq y' 3))) TRUE ==> (and (equal x' 1) (or (equal y' 2) (equal y' 3))) / TRUE
x: Int | (assign x' 1) TRUE ==> (equal x' 1) / TRUE
x: Int | (in x' (range 1 3)) TRUE ==> (member x' (range 1 3)) / TRUE
x: Int | (ne x' 1) TRUE ==> (not (equal x' 1)) / TRUE
x: Int | (notin x' {1}) TRUE ==> (not (member x' {1})) / TRUE
x: Int | (implies (eq x 1) (eq x' 2)) TRUE ==> (not (and (equal x 1) (not (equal x' 2)))) / TRUE
x: Bool | (iff x' x) TRUE ==> (first (fold-left [0 1] (push #0 (equal (not (item [1] #1)) (not (item [2] #1)))) (seq-of) (seq-of <x' x>))) / TRUE
x: Int | (if (lt x 1) (eq x' 2) (eq x' 3)) TRUE ==> (if (less x 1) (equal x' 2) (equal x' 3)) / TRUE
x: Int | (if (eq x 1) (eq x' 2) (eq x' 3)) TRUE ==> (if (not (not (equal x 1))) (equal x' 2) (equal x' 3)) / TRUE
x: Int | (if (in x {1}) (eq x' 2) (eq x' 3)) TRUE ==> (if (not (not (member x {1}))) (equal x' 2) (equal x' 3)) / TRUE
x: Int | (if (ne x 1) (eq x' 2) (eq x' 3)) TRUE ==> (if (not (equal x 1)) (equal x' 2) (equal x' 3)) / TRUE
x: Int | (if (assign x 1) (eq x' 2) (eq x' 3)) TRUE ==> (if (not (not (equal x 1))) (equal x' 2) (equal x' 3)) / TRUE
x: Int | (if (noted [0 Bool] (eq x 1)) (eq x' 2) (eq x' 3)) TRUE ==> (if (not (not (equal x 1))) (equal x' 2) (equal x' 3)) / TRUE
x: Int | (if FALSE (eq x' 2) (eq x' 3)) TRUE ==> (if (not (not FALSE)) (equal x' 2) (equal x' 3)) / TRUE
x: Int | (if TRUE (eq x' 2) (eq x' 3)) TRUE ==> (if TRUE (equal x' 2) (equal x' 3)) / TRUE
x: Int | (if (eq x' 1) (lt x 2) (lt x 3)) TRUE ==> (if (not (not (equal x' 1))) (less x 2) (less x 3)) / TRUE
x: Int | (if (eq x 1) (lt x 2) (eq x' 3)) TRUE ==> (if (not (not (equal x 1))) (less x 2) (equal x' 3)) / TRUE
x: Int | (if (lt x 1) (if (eq x 0) (eq x' 1) (eq x' 2)) (eq x' 3)) TRUE ==> (if (less x 1) (if (not (not (equal x 0))) (equal x' 1) (equal x' 2)) (equal x' 3)) / TRUE
x: Int | (and (eq x' 1) (if (eq x 1) (eq x 2) (eq x 3))) TRUE ==> (and (equal x' 1) (if (equal x 1) (equal x 2) (equal x 3))) / TRUE
x: Int | (if (eq x 1) (if (eq x 2) (lt x 2) FALSE) (eq x' 1)) TRUE ==> (if (not (not (equal x 1))) (if (equal x 2) (less x 2) FALSE) (equal x' 1)) / TRUE
x: Int | (if (if (eq x 1) (eq x' 1) TRUE) (eq x' 2) TRUE) TRUE ==> (if (if (equal x 1) (equal x' 1) TRUE) (equal x' 2) TRUE) / TRUE
x: Int | (not (if (eq x 1) (eq x' 2) (eq x' 3))) TRUE ==> (not (if (equal x 1) (equal x' 2) (equal x' 3))) / TRUE
x: Int | (noted [0 Bool] (if (eq x 1) (eq x' 2) (eq x' 3))) TRUE ==> (if (not (not (equal x 1))) (equal x' 2) (equal x' 3)) / TRUE
x: Int | (eq x' (if (eq x 1) 2 3)) TRUE ==> (equal x' (if (equal x 1) 2 3)) / TRUE
x: Int | (exists [i] {1 2} (eq x' i)) TRUE ==> (some [0] {1 2} (equal x' #0)) / TRUE
x: Int | (exists [i j] {1} {2} (if (eq i j) (eq x' i) (eq x' j))) TRUE ==> (some [0 1] {1} {2} (if (not (not (equal #0 #1))) (equal x' #0) (equal x' #1))) / TRUE
x: Int | (forall [i] {1} (if (eq i 1) (eq x' i) (eq x' 2))) TRUE ==> (every [0] {1} (if (equal #0 1) (equal x' #0) (equal x' 2))) / TRUE
x: Int | (or (exists [i] {1} (eq x' i)) (exists [j] {2} (exists [k] {j} (eq x' k)))) TRUE ==> (or (some [0] {1} (equal x' #0)) (some [0] {2} (some [1] {#0} (equal x' #1)))) / TRUE
x: Int -> Bool | (in x' (funset {1} (boolean))) TRUE ==> (member x' (functions {1} {FALSE TRUE})) / TRUE
x: {a: Int} | (in x' (recset [a] (range 1 2))) TRUE ==> (member x' (rec-form [a] (range 1 2))) / TRUE
x: Int -> Int | (exists [f] (funset {1} {2}) (eq x' f)) TRUE ==> (some [0] (functions {1} {2}) (equal x' #0)) / TRUE
x: {a: Int} | (exists [r] (recset [a] {1}) (eq x' r)) TRUE ==> (some [0] (rec-form [a] {1}) (equal x' #0)) / TRUE
x: Int | (eq x' (pow x 2)) TRUE ==> (equal x' (first (fold-left [0 1] (push #0 (times #1 #1)) (seq-of) (seq-of x)))) / TRUE"#;

// Of each arm, that the guards before it are FALSE and its own is TRUE; then OTHER, or the end of a path.
pub(crate) const CASES: &str =
    r#"x: Int | (case (eq x 1) (eq x' 2)) TRUE ==> (or (and (not (not (equal x 1))) (equal x' 2)) (and (not (equal x 1)) (no-case))) / TRUE
x: Int | (case (eq x 1) (eq x' 2) (lt x 3) (eq x' 4)) TRUE ==> (or (and (not (not (equal x 1))) (equal x' 2)) (and (not (equal x 1)) (not (not (less x 3))) (equal x' 4)) (and (not (equal x 1)) (not (less x 3)) (no-case))) / TRUE
x: Int | (case-other (eq x 1) (eq x' 2) (eq x' 5)) TRUE ==> (or (and (not (not (equal x 1))) (equal x' 2)) (and (not (equal x 1)) (equal x' 5))) / TRUE
x: Int | (case-other (eq x 1) (eq x' 2) (lt x 3) (eq x' 4) (eq x' 5)) TRUE ==> (or (and (not (not (equal x 1))) (equal x' 2)) (and (not (equal x 1)) (not (not (less x 3))) (equal x' 4)) (and (not (equal x 1)) (not (less x 3)) (equal x' 5))) / TRUE
x: Int | (case FALSE (eq x' 1) TRUE (eq x' 2)) TRUE ==> (or (and (not (not FALSE)) (equal x' 1)) (and (not FALSE) (not (not TRUE)) (equal x' 2)) (and (not FALSE) (not TRUE) (no-case))) / TRUE
x: Int | (case (eq x' 1) (lt x 2)) TRUE ==> (or (and (not (not (equal x' 1))) (less x 2)) (and (not (equal x' 1)) (no-case))) / TRUE
x: Int | (and (eq x' 1) (case (eq x 1) (lt x 2))) TRUE ==> (and (equal x' 1) (if (equal x 1) (less x 2) (no-case))) / TRUE
x: Int | (and (eq x' 1) (case-other (eq x 1) (lt x 2) (lt x 3))) TRUE ==> (and (equal x' 1) (if (equal x 1) (less x 2) (less x 3))) / TRUE
x: Int | (eq x' (case (eq x 1) 2 (eq x 2) 3)) TRUE ==> (equal x' (if (equal x 1) 2 (if (equal x 2) 3 (no-case)))) / TRUE
x: Int | (not (case (eq x 1) (eq x' 2))) TRUE ==> (not (if (equal x 1) (equal x' 2) (no-case))) / TRUE
x: Int | (case (if (eq x 1) (eq x' 1) TRUE) (if (eq x 2) (eq x' 2) (eq x' 3))) TRUE ==> (or (and (not (not (if (equal x 1) (equal x' 1) TRUE))) (if (not (not (equal x 2))) (equal x' 2) (equal x' 3))) (and (not (if (equal x 1) (equal x' 1) TRUE)) (no-case))) / TRUE
x: Int | (exists [i] {1} (case-other (eq x i) (eq x' i) (case (lt x i) (eq x' 0)))) TRUE ==> (some [0] {1} (or (and (not (not (equal x #0))) (equal x' #0)) (and (not (equal x #0)) (or (and (not (not (less x #0))) (equal x' 0)) (and (not (less x #0)) (no-case)))))) / TRUE"#;

// CInit, the assumptions, Init, Next and invariants: a tree of each in its position, by the names that it may assign.
pub(crate) const POSITIONS: &str =
    r#"constant x: Int; y: Int | (if (eq x 1) TRUE (eq x 2)) (if (eq x 1) TRUE (eq x 2)) (if (eq x 1) TRUE (eq x 2)) (if (eq x 1) TRUE (eq x 2)) (if (eq x 1) TRUE (eq x 2)) ==> (if (not (not (equal x 1))) TRUE (equal x 2)) / (if (equal x 1) TRUE (equal x 2)) / (if (equal x 1) TRUE (equal x 2)) / (if (equal x 1) TRUE (equal x 2)) / (if (equal x 1) TRUE (equal x 2))
constant x: Int; y: Int | (if (eq y 1) TRUE (eq y 2)) (if (eq y 1) TRUE (eq y 2)) (if (eq y 1) TRUE (eq y 2)) (if (eq y 1) TRUE (eq y 2)) (if (eq y 1) TRUE (eq y 2)) ==> (if (equal y 1) TRUE (equal y 2)) / (if (equal y 1) TRUE (equal y 2)) / (if (not (not (equal y 1))) TRUE (equal y 2)) / (if (equal y 1) TRUE (equal y 2)) / (if (equal y 1) TRUE (equal y 2))
constant x: Int; y: Int | TRUE (if (eq y' 1) TRUE (eq y' 2)) TRUE (if (eq y' 1) TRUE (eq y' 2)) (if (eq y' 1) TRUE (eq y' 2)) ==> TRUE / (if (equal y' 1) TRUE (equal y' 2)) / TRUE / (if (not (not (equal y' 1))) TRUE (equal y' 2)) / (if (equal y' 1) TRUE (equal y' 2))
constant x: Int; y: Int | TRUE TRUE TRUE (if (eq x' 1) (eq x' 2) TRUE) TRUE ==> TRUE / TRUE / TRUE / (if (equal x' 1) (equal x' 2) TRUE) / TRUE
constant x: Int; y: Int | (case TRUE (eq x 1)) (case TRUE (eq x 1)) (case TRUE (eq y 1)) (case TRUE (eq y' 1)) (case TRUE (eq y 1)) ==> (or (and (not (not TRUE)) (equal x 1)) (and (not TRUE) (no-case))) / (if TRUE (equal x 1) (no-case)) / (or (and (not (not TRUE)) (equal y 1)) (and (not TRUE) (no-case))) / (or (and (not (not TRUE)) (equal y' 1)) (and (not TRUE) (no-case))) / (if TRUE (equal y 1) (no-case))
constant x: Int; y: Int | (exists [i] {1} (eq x i)) (forall [i] {1} (eq x i)) (exists [i] {1} (eq y i)) (exists [i] {1} (eq y' i)) (forall [i] {1} (eq y i)) (ne y 1) ==> (some [0] {1} (equal x #0)) / (every [0] {1} (equal x #0)) / (some [0] {1} (equal y #0)) / (some [0] {1} (equal y' #0)) / (every [0] {1} (equal y #0)) / (not (equal y 1))"#;

// The column of the least infinite set that stands outside a form position, where there is one.
pub(crate) const REFUSALS: &str = r#"(forall:1 [i] (int:11) (eq i i)) ==> infinite at 11
(forall:1 [i] {1:13} (in i (int:20))) ==> (every [0] {1} (member #0 (int-form)))
x: Int | (and (eq {1} (nat:11)) (exists [i] (int:4) TRUE)) ==> infinite at 4
x: Int | (and (eq {1} (nat:4)) (exists [i] (int:11) TRUE)) ==> infinite at 4
x: Int | (exists [i] (nat:9) TRUE) (exists [i] (int:5) TRUE) ==> infinite at 5
x: Int | (exists [i] (int:5) TRUE) (exists [i] (nat:9) TRUE) ==> infinite at 5
(eq {1} (int:9)) TRUE TRUE TRUE (eq {1} (int:11)) ==> infinite at 9
TRUE TRUE TRUE TRUE (in 1 (nat:5)) (eq {1} (int:9)) (eq {1} (int:7)) ==> infinite at 7
x: Int -> Int | (in x (funset (nat:7) (int:3))) ==> infinite at 7
x: Set(Int) | (in x (if TRUE (powerset (int:9)) {})) ==> infinite at 9
(exists [s] (powerset:10 (int:17)) TRUE) ==> infinite at 17
(exists [s] (seqs:9 (int:13)) TRUE) ==> infinite at 9
x: Int | (in x' (nat:7)) TRUE ==> (member x' (nat-form)) / TRUE
x: Int | (in (cardinality (cup (int:12) {1})) {}) ==> infinite at 12"#;
