// Shapes of trees, and trees with the bounds of their ranges. `trees` says how a line is read. What is expected was
// reckoned from the table of shapes, before anything was answered.

// What is bound, of a number that is bound twice the last; primed names; ranges, one of Empty; sets of a filter and of a
// map; applications; a fold; a number of members past the greatest that is kept.
pub(crate) const SHAPES: &str =
    r#"of 1.0: ; ; (Rec [0 0] (Num 1 1) (Num 2 9)) |  | (exists [i] {1} (in i {})) ==> (Num 2 9)
of 0: (Num 1 1); (Num 3 4); | x: Int | (in x' {}) ==> (Num 3 4)
of 0: (Num 1 3) (Num 4 6); Empty Empty; | x: Int; y: Int | (in (range x y) {}) ==> (Set 6 (Num 1 6))
of 0: Empty (Num 4 6); Empty Empty; | x: Int; y: Int | (in (range x y) {}) ==> (Set 0 Empty)
of 0: (Num 2 5); Empty; | x: Int | (in (filter [i] (range x 9) (lt i 3)) {}) ==> (Set 8 (Num 2 9))
of 0: (Set 3 (Num 1 2)) (Set 4 (Num 10 20)); Empty Empty; | x: Set(Int); y: Set(Int) | (in (map [i j] x y (add i j)) {}) ==> (Set 12 (Num 11 22))
of 0: (Fun 3 (Num 1 3) (Set 2 (Num 0 1))); Empty; | x: Int -> Set(Int) | (in (apply x 3) {}) ==> (Set 2 (Num 0 1))
of 0: (Tup Atom (Num 1 2)); Empty; | x: <<Bool, Int>> | (in (apply x 2) {}) ==> (Num 1 2)
of 0: (Seq 3 (Num 1 2)); Empty; | x: Seq(Int) | (in (fold [a b] (append a b) <> x) {}) ==> (Seq 3 (Num 1 2))
of 0: (Set 64 Atom); Empty; | x: Set(Bool) | (in (powerset x) {}) ==> (Set most (Set 64 Atom))
"#;

// Ranges under a quantifier and under two; in the body of a fold, of one over nothing and with a quantifier between; by the
// old value of a tuple's item and of a record in a function; of nothing, and of Empty; over both states, up to the end of
// the width, and by what is bound outside; a tree without ranges.
pub(crate) const RANGES: &str =
    r#"bounds: (Num 0 9); (Num 0 9); | x: Int | (exists [i] {2 5} (in x (range:7 i (add i 1)))) ==> 13 nodes; 7: 2..6
bounds: (Num 2 4); Empty; | x: Int | (forall [i] (range:3 1 x) (exists [j] (range:6 i (mul 2 i)) (lt j i))) ==> 17 nodes; 3: 1..4; 6: 1..8
bounds: ; ; |  | (in (fold [a b] (if (in b (range:7 a a)) (add a 3) (add a 3)) 5 <1 2>) {}) ==> 21 nodes; 7: 5..8
bounds: ; ; |  | (in (fold [a b] (if (in b (range:7 a a)) (add a 3) (add a 3)) 5 <>) {}) ==> 19 nodes; 7: 0..0
bounds: ; ; |  | (in (fold [a b] (if (exists [i] {a} (in b (range:7 i a))) (add a 3) (add a 3)) 5 <1 2>) {}) ==> 24 nodes; 7: 5..8
bounds: (Tup (Num 0 0) (Num 4 6)); Empty; | x: <<Int, Int>> | (eq x (except [1] x 2 (cardinality (range:9 @ 7)))) ==> 11 nodes; 9: 4..7
bounds: (Fun 3 (Num 1 3) (Rec [a] (Num 4 6))); Empty; | x: Int -> {a: Int} | (eq x (except [2] x 1 "a" (cardinality (range:9 @ 7)))) ==> 14 nodes; 9: 4..7
bounds: (Num 0 9); Empty; | x: Int | (in x (range:7 5 3)) ==> 7 nodes; 7: 5..3
bounds: Empty; Empty; | x: Int | (in 1 (range:7 x 3)) ==> 7 nodes; 7: 0..0
bounds: (Num 1 2); (Num 3 9); | x: Int | (in 1 (range:7 x x')) ==> 7 nodes; 7: 1..9
bounds: (Num 100 120); Empty; | x: Int | (in 1 (range:7 0 (add x x))) ==> 9 nodes; 7: 0..127
bounds 1: ; ; (Rec [0] (Num 2 5)) |  | (exists [i] {1} (in i (range:7 i 6))) ==> 7 nodes; 7: 2..6
bounds: (Num 0 9); Empty; | x: Int | (eq x (add x 1)) ==> 5 nodes
"#;
