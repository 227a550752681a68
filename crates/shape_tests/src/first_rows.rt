// Shapes from those at level 0. `rows` says how a line is read. What is expected was reckoned from the table of shapes,
// before anything was answered.

// A counter, also up to the end of the width; a name that stays, one that changes once, two that change places; a constant
// with another shape than CInit gives it; the join over paths; members that are picked; over no path; an Init and an
// assumption past the limits, which are not looked at; a part of a value past them, which no node has.
pub(crate) const LEVELS: &str =
    r#"from 3: (Num 5 7) | x: Int | FALSE (eq x' (add x 1)) TRUE ==> (Num 5 7) / (Num 6 8) / (Num 7 9) / (Num 8 10)
from 122: (Num 5 7) | x: Int | FALSE (eq x' (add x 1)) TRUE ==> of 123 the last (Num 126 127) / (Num 127 127)
from 1000: (Num 5 7) | x: Int | FALSE (eq x' (sub x 1)) TRUE ==> of 1001 the last (Num -128 -128) / (Num -128 -128)
from 5: (Rec [a] (Num 2 3)) | x: {a: Int} | FALSE (eq x' x) TRUE ==> (Rec [a] (Num 2 3)) / (Rec [a] (Num 2 3)) / (Rec [a] (Num 2 3)) / (Rec [a] (Num 2 3)) / (Rec [a] (Num 2 3)) / (Rec [a] (Num 2 3))
from 3: (Num 0 0) | x: Int | FALSE (eq x' 7) TRUE ==> (Num 0 0) / (Num 7 7) / (Num 7 7) / (Num 7 7)
from 3: (Num 1 2) (Num 5 9) | x: Int; y: Int | FALSE (and (eq x' y) (eq y' x)) TRUE ==> (Num 1 2) (Num 5 9) / (Num 5 9) (Num 1 2) / (Num 1 2) (Num 5 9) / (Num 5 9) (Num 1 2)
from 2: (Num 3 4) (Num 0 0) | constant x: Int; y: Int | (eq x 1) TRUE FALSE (eq y' (add y x)) TRUE ==> (Num 3 4) (Num 0 0) / (Num 3 4) (Num 3 4) / (Num 3 4) (Num 6 8)
from 2: (Num 0 0) | x: Int | FALSE (or (eq x' (add x 1)) (eq x' 7)) TRUE ==> (Num 0 0) / (Num 1 7) / (Num 2 8)
from 1: Empty (Num 1 2) | x: Set(Int); y: Int | FALSE (and (in x' (powerset (range 1 17))) (exists [i] (range y 9) (eq y' i))) TRUE ==> Empty (Num 1 2) / (Set 17 (Num 1 17)) (Num 1 9)
from 2: (Num 1 1) | x: Int | FALSE FALSE TRUE ==> (Num 1 1) / Empty / Empty
from 1: Empty | x: Set(Set(Int)) | (eq x (powerset:9 (range 1 17))) (eq x' {}) TRUE ==> Empty / (Set 0 Empty)
from 0: (Num 1 1) | x: Int | TRUE (ne (powerset:9 (range 1 17)) {}) FALSE (eq x' x) TRUE ==> (Num 1 1)
from 0: (Num 1 1) | x: Int | FALSE (and (ne (powerset:9 (range 1 17)) {}) (eq x' x)) TRUE ==> (Num 1 1)
from 1: (Set 65535 (Num 1 7)) | x: Set(Int) | FALSE (eq x' (cup:12 x {9})) TRUE ==> (Set 65535 (Num 1 7)) / (Set 65536 (Num 1 9))
from 1: (Fun 2 (Num 1 2) (Fun 65537 (Num 0 9) (Num 3 3))) | x: Int -> Int -> Int | FALSE (eq x' (except [2] x 1 2 0)) TRUE ==> (Fun 2 (Num 1 2) (Fun 65537 (Num 0 9) (Num 3 3))) / (Fun 2 (Num 1 2) (Fun 65537 (Num 0 9) (Num 0 3)))
from 0: (Set most Atom) | x: Set(Bool) | FALSE (eq x' x:7) TRUE ==> (Set most Atom)
from 1: (Set most Atom) | x: Set(Bool) | FALSE (eq x' {TRUE}) TRUE ==> (Set most Atom) / (Set 1 Atom)
"#;

// A set and a sequence that grow; numbers of the step alone, where the shapes stay, where they stay from level 1 on, and
// where two names change places; an invariant at level 0, at a later level, and at a lesser place than a number of the
// step; members before places at one place; an old value; the greatest number that is kept.
pub(crate) const REFUSALS: &str =
    r#"from 2: (Set 65535 (Num 1 7)) | x: Set(Int) | FALSE (eq x' (cup:12 x {9})) TRUE ==> too large: level 2, column 12, 65537
from 9: (Set 65535 (Num 1 7)) | x: Set(Int) | FALSE (eq x' (cup:12 x {9})) (subseteq x:2 x:3) ==> too large: level 2, column 2, 65537
from 2: (Seq 4095 (Num 1 1)) | x: Seq(Int) | FALSE (eq x' (append:9 x 1)) TRUE ==> too long: level 2, column 9, 4097
from 1: (Num 1 1) | x: Int | FALSE (and (ne (powerset:9 (range 1 17)) {}) (eq x' x)) TRUE ==> too large: level 1, column 9, 131072
from 9: (Num 0 0) | x: Int | FALSE (and (ne (powerset:9 (range 1 x)) {}) (eq x' 17)) TRUE ==> too large: level 2, column 9, 131072
from 9: (Num 1 2) (Num 1 17) | x: Int; y: Int | FALSE (and (ne (powerset:9 (range 1 x)) {}) (eq x' y) (eq y' x)) TRUE ==> too large: level 2, column 9, 131072
from 0: (Set 17 (Num 1 17)) | x: Set(Int) | FALSE (eq x' x) (ne (powerset:4 x) {}) ==> too large: level 0, column 4, 131072
from 3: (Set 15 (Num 1 9)) | x: Set(Int) | FALSE (eq x' (cup x {1})) (ne (powerset:4 x) {}) ==> too large: level 2, column 4, 131072
from 1: (Seq 4096 Atom) | x: Seq(Bool) | FALSE (and (ne (powerset:9 (range 1 17)) {}) (eq x' (append:9 x TRUE))) TRUE ==> too large: level 1, column 9, 131072
from 1: (Fun 2 (Num 1 2) (Fun 65537 (Num 0 9) (Num 3 3))) | x: Int -> Int -> Int | FALSE (eq x' (except [1] x 1 @:30)) TRUE ==> too large: level 1, column 30, 65537
from 1: (Set most Atom) | x: Set(Bool) | FALSE (eq x' x:7) TRUE ==> too large: level 1, column 7, 1000000000000
from 1: (Seq most Atom) | x: Seq(Bool) | FALSE (eq x' (append:9 x:16 TRUE)) TRUE ==> too long: level 1, column 9, 1000000000000
"#;
