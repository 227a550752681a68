//! Paths and what is so of them, a case a line: `NAMES | INIT NEXT => OUTCOMES`, as `job_text` reads names and trees.
//!
//! For each path of Next, from left to right with ` / ` between them, the outcomes of all assignments, each once:
//! `holds`, `wrong` or `big` with the values of the names in the state, `->`, and those that the path gives, `-` where it
//! gives none. They are those of the language, written by hand.

/// Faults, on one side and on another, before and behind an assignment.
pub(crate) const FAULTS: &str =
    r#"x: Int | (eq x 0) (or (eq x' 1) (and (eq x' 1) (eq (div 1 x) 2))) => holds 0 -> 1 / wrong 0 -> 1
x: Int -> Int | (eq x (lambda [i] {1 2 3} i)) (and (eq (apply x 9) 0) (eq x' x)) => wrong <<1, 2, 3>> -> -
x: Int -> Int | (eq x (lambda [i] {1 2 3} i)) (and (eq x' x) (eq (apply x 9) 0)) => wrong <<1, 2, 3>> -> <<1, 2, 3>>
x: Int | (eq x 0) (and (lt x 0) (eq x' (div 1 x))) => never
x: Int | (in x {14 15}) (eq x' (add x 1)) => holds 14 -> 15, big 15 -> -
x: Int | (in x {0 1}) (eq x' (div 1 x)) => holds 1 -> 1, wrong 0 -> -
x: Int | (in x {2 3}) (if (lt x 3) (eq x' 0) (eq x' 1)) => holds 2 -> 0 / holds 3 -> 1
x: Int | (eq x 0) (if (eq (div 1 x) 1) (eq x' 0) (eq x' 1)) => wrong 0 -> - / wrong 0 -> -
x: Int | (eq x 0) (exists [i j] {} {(div 1 x)} (eq x' j)) => wrong 0 -> -
x: Int | (eq x 0) (exists [i] {0 1} (and (eq x' 1) (lt (div 1 i) 1))) => wrong 0 -> 1"#;

/// Picks of members, by `\E` and by an assignment.
pub(crate) const PICKS: &str =
    r#"x: Int; y: Int | (and (eq x 0) (eq y 0)) (exists [i j] {1 2} {3 4} (and (eq x' i) (eq y' j))) => holds 0 0 -> 1 3, holds 0 0 -> 1 4, holds 0 0 -> 2 3, holds 0 0 -> 2 4
x: Int; y: Int | (and (eq x 0) (eq y 0)) (exists [i] {1 2} (exists [j] {i 3} (and (eq x' i) (eq y' j)))) => holds 0 0 -> 1 1, holds 0 0 -> 1 3, holds 0 0 -> 2 2, holds 0 0 -> 2 3
x: Int | (in x {0 1}) (exists [i] {x 2} (and (lt x i) (eq x' i))) => holds 0 -> 2, holds 1 -> 2
x: Int | (eq x 0) (exists [i] {} (eq x' i)) => never
x: Int | (eq x 0) (in x' {}) => never
x: Int | (eq x 0) (and (in x' {1 2}) (eq x' 2)) => holds 0 -> 2
x: Int; y: Int | (and (eq x 0) (eq y 0)) (and (in x' {1 2}) (eq y' (add x' 1))) => holds 0 0 -> 1 2, holds 0 0 -> 2 3
x: Int | (in x (range 1 2)) (in x' (range x 3)) => holds 1 -> 1, holds 1 -> 2, holds 1 -> 3, holds 2 -> 2, holds 2 -> 3
x: Int; y: Int | (and (eq x 1) (eq y 0)) (and (in x' (range x 2)) (in y' (range x' 3))) => holds 1 0 -> 1 1, holds 1 0 -> 1 2, holds 1 0 -> 1 3, holds 1 0 -> 2 2, holds 1 0 -> 2 3
x: Int; y: Int | (and (eq x 0) (eq y 0)) (exists [i] (range 1 2) (and (eq x' i) (in y' (range i 2)))) => holds 0 0 -> 1 1, holds 0 0 -> 1 2, holds 0 0 -> 2 2"#;

/// Members of forms.
pub(crate) const FORMS: &str =
    r#"x: Int -> Int | (eq x (lambda [i] {1} 1)) (in x' (funset {(apply x 1) 1} (range 1 2))) => holds <<1>> -> <<1>>, holds <<1>> -> <<2>>
x: Int -> Int | (eq x (lambda [i] {1} 1)) (in x' (funset {1} {})) => never
x: Int -> Int | (eq x (lambda [i] {1} 1)) (in x' (funset {} {1})) => holds <<1>> -> <<>>
x: Set(Int) | (eq x {}) (in x' (powerset {1 2})) => holds {} -> {1, 2}, holds {} -> {1}, holds {} -> {2}, holds {} -> {}
x: Set(Int) | (in x {{1} {2}}) (in x' (powerset x)) => holds {1} -> {1}, holds {1} -> {}, holds {2} -> {2}, holds {2} -> {}
x: Int -> Set(Int) | (eq x (lambda [i] {1} {})) (in x' (funset {1} (powerset {2}))) => holds <<{}>> -> <<{2}>>, holds <<{}>> -> <<{}>>
x: Set(Int -> Int) | (eq x {}) (in x' (powerset (funset {1} {1 2}))) => holds {} -> {<<1>>, <<2>>}, holds {} -> {<<1>>}, holds {} -> {<<2>>}, holds {} -> {}
x: Bool | (eq x TRUE) (in x' (boolean)) => holds TRUE -> FALSE, holds TRUE -> TRUE
x: Seq(Int) | (eq x (noted [0 Seq(Int)] <1 2>)) (eq x' (append x 3)) => holds <<1, 2>> -> <<1, 2, 3>>
x: Set(Int) | (eq x {}) (in x' (powerset {(div 1 0)})) => wrong {} -> -"#;

/// Steps without a choice.
pub(crate) const SIMPLE: &str = r#"x: Int | (eq x 0) (eq x' 1)
x: Int | (eq x 0) (and (eq x' (add x 1)) (lt x x'))
x: Int; y: Int | (and (eq x 0) (eq y 1)) (and (lt y x) (and (in x' {1 2}) (in y' {3 4})))
x: Int | (eq x 0) (exists [i] {1} (eq x' i))"#;
