// Shapes from the start of a system, and from a typed state. `rows` says how a line is read. What is expected was
// reckoned from the table of shapes, before anything was answered.

// One name each: records, functions, tuples and sequences that change, folds, members of sets, constants; then numbers
// past their limits: at the start, in the assumption, of a sequence; of two the least place at a level, and the least
// level before any place.
pub(crate) const FROM_THE_START: &str =
    r#"shapes 2 | x: {a: Int, b: Set(Int)} | (eq x (record [a b] 0 {})) (eq x' (record [b a] (cup (field [b] x) {1}) (add (field [a] x) 1))) TRUE ==> (Rec [a b] (Num 0 0) (Set 0 Empty)) / (Rec [a b] (Num 1 1) (Set 1 (Num 1 1))) / (Rec [a b] (Num 2 2) (Set 2 (Num 1 1)))
shapes 2 | x: Int -> Int | (eq x (lambda [i] (range 1 3) 0)) (eq x' (except [1] x 2 (add @ 5))) TRUE ==> (Fun 3 (Num 1 3) (Num 0 0)) / (Fun 3 (Num 1 3) (Num 0 5)) / (Fun 3 (Num 1 3) (Num 0 10))
shapes 1 | x: Int -> {a: Int, b: Bool} | (eq x (lambda [i] {1 2} (record [a b] 4 TRUE))) (eq x' (except [2] x 1 "a" (add @ 1))) TRUE ==> (Fun 2 (Num 1 2) (Rec [a b] (Num 4 4) Atom)) / (Fun 2 (Num 1 2) (Rec [a b] (Num 4 5) Atom))
shapes 1 | x: <<Int, Int>> | (eq x <1 7>) (eq x' (except [1] x 2 (sub @ 1))) TRUE ==> (Tup (Num 1 1) (Num 7 7)) / (Tup (Num 1 1) (Num 6 7))
shapes 1 | x: Int | (eq x (fold [a b] (add a b) 0 <3 4>)) (eq x' (fold [a b] (add a b) x <3 4>)) TRUE ==> (Num 0 8) / (Num 0 16)
shapes 1 | x: Int; y: Set(Int) | (and (in x (range 2 4)) (in y (powerset (range 1 17)))) (and (in x' y) (exists [s] (powerset y) (eq y' s))) TRUE ==> (Num 2 4) (Set 17 (Num 1 17)) / (Num 1 17) (Set 17 (Num 1 17))
shapes 1 | constant x: Int; y: Int | (or (eq x 2) (eq x 5)) TRUE (eq y x) (eq y' (add y x)) TRUE ==> (Num 2 5) (Num 2 5) / (Num 2 5) (Num 4 10)
shapes 2 | x: Int | (eq x 1) FALSE TRUE ==> (Num 1 1) / Empty / Empty
shapes 0 | x: Seq(Int) | (eq x (fold [a b] (concat a a) <1> <0 0 0 0 0 0 0 0 0 0 0 0>)) (eq x' (append:9 x 2)) TRUE ==> (Seq 4096 (Num 1 1))
shapes 1 | x: Seq(Int) | (eq x (fold [a b] (concat a a) <1> <0 0 0 0 0 0 0 0 0 0 0 0>)) (eq x' (append:9 x 2)) TRUE ==> too long: level 1, column 9, 4097
shapes 1 | x: Set(Set(Int)) | (eq x (powerset:9 (range 1 17))) (eq x' {}) TRUE ==> too large: level 0, column 9, 131072
shapes 1 | x: Int | TRUE (ne (powerset:9 (range 1 17)) {}) (eq x 1) (eq x' x) TRUE ==> too large: level 0, column 9, 131072
shapes 1 | x: Int | (eq x 1) (and (ne (powerset:30 (range 1 17)) {}) (ne (powerset:9 (range 1 18)) {}) (eq x' x)) TRUE ==> too large: level 1, column 9, 262144
shapes 1 | x: Int | (eq x 1) (and (ne (powerset:9 (range 1 17)) {}) (eq x' x)) (ne (powerset:40 (range 1 18)) {}) ==> too large: level 0, column 40, 262144
"#;

// Bounds in each place of a type, and a constant with the shape that it has from CInit; Init does not count, and the
// assumption and an invariant do.
pub(crate) const FROM_TYPES: &str =
    r#"typed 2: (Num -3 4) | x: {a: Int, b: Set(Int)} | (eq x (record [a b] 0 {})) (eq x' x) TRUE ==> (Rec [a b] (Num -3 4) (Set 2 (Num -3 4))) / (Rec [a b] (Num -3 4) (Set 2 (Num -3 4)))
typed 2: (Num 0 1) | x: Str -> <<Bool, Int>> | FALSE (eq x' x) TRUE ==> (Fun 2 Atom (Tup Atom (Num 0 1))) / (Fun 2 Atom (Tup Atom (Num 0 1)))
typed 3: (Num 0 9) | constant x: Int; y: Seq(Int) | (eq x 5) TRUE FALSE (eq y' (append y (add x 6))) TRUE ==> (Num 5 5) (Seq 3 (Num 0 9)) / (Num 5 5) (Seq 4 (Num 0 11))
typed 1: (Num 0 1) | x: Set(Set(Int)) | (eq x (powerset:9 (range 1 17))) (eq x' x) TRUE ==> (Set 1 (Set 1 (Num 0 1))) / (Set 1 (Set 1 (Num 0 1)))
typed 1: (Num 0 1) | x: Int | TRUE (ne (powerset:9 (range 1 17)) {}) FALSE (eq x' x) TRUE ==> too large: level 0, column 9, 131072
typed 17: (Num 0 9) | x: Set(Int) | FALSE (eq x' x) (ne (powerset:4 x) {}) ==> too large: level 0, column 4, 131072
typed 16: (Num 0 9) | x: Set(Int) | FALSE (eq x' (cup x {1})) (ne (powerset:4 x) {}) ==> too large: level 1, column 4, 131072
"#;
