// Actions, whose disjunctions meet every operand where one holds a primed name.
pub(crate) const ACTIONS: &str = r#"(eq x' 1) => TRUE
(eq x' 5) => FALSE
(assign x' (add x 1)) => TRUE
(in x' {0 1}) => TRUE
(in x' {}) => FALSE
(in x' (int)) => TRUE
(eq s' (append s 3)) => TRUE
(eq y' (!add 127 1)) => big
(and (eq (!apply f 9) 0) (eq f' f)) => wrong
(or (eq x' 1) (and (eq x' 1) (eq (!div 1 x) 2))) => wrong
(or (eq x' 1) (and (eq x' 2) (eq (div 1 x) 2))) => TRUE
(or (and (eq x' 1) (eq (!div 1 x) 2)) (eq x' 1)) => wrong
(or (eq x' 0) (eq x' 1)) => TRUE
(or (eq x' 0) (eq x' 5)) => FALSE
(or) => FALSE
(or (eq x' 5) (eq (!div 1 x) x')) => wrong
(or (eq (!div 1 x) x') (eq (div 2 x) x')) => wrong
(or (eq (add 127 1) x') (eq (!div 1 x) x')) => wrong
(or (eq x' 1) (eq (!add 127 1) y)) => big
(or (eq x' 1) (or TRUE (eq (div 1 x) 1))) => TRUE
(or TRUE (eq (div 1 x) 1)) => TRUE
(or (eq (!div 1 x) 1) TRUE) => wrong
(!or 1 TRUE) => wrong
(or 1 (eq x' 1)) => TRUE
(and) => TRUE
(and (eq x' 1) (eq y' 1)) => TRUE
(and (eq x' 5) (eq (div 1 x) 0)) => FALSE
(and (eq x' 1) (or TRUE (eq (div 1 x) 2))) => TRUE
(and (eq (!add 127 1) x') (eq (div 1 x) 1)) => big
(and (or (eq x' 1) (eq (add 127 1) x')) (eq (!div 1 x) 0)) => wrong
(and (or (eq x' 1) (eq (!add 127 1) x')) (eq x' 5)) => big
(and (or (eq x' 1) (eq (!add 127 1) x')) (eq x' 1)) => big
(and (or (eq x' 5) (eq (!add 127 1) x')) (eq (div 1 x) 0)) => big
(and (or (eq x' 1) (eq (!div 1 x) x')) (or (eq x' 1) (eq (div 2 x) x'))) => wrong
(and 5 (eq (div 1 x) 0)) => FALSE
(if (eq x 0) (eq x' 1) (eq x' 2)) => TRUE
(if (eq x 0) (eq x' 1) (eq (div 1 x) x')) => TRUE
(if TRUE (or (eq x' 1) (eq (!div 1 x) x')) FALSE) => wrong
(if FALSE TRUE (or (eq x' 1) (eq (!div 1 x) x'))) => wrong
(if TRUE (or TRUE (eq (div 1 x) 1)) FALSE) => TRUE
(if (or (eq x' 1) (eq (div 1 x) x')) TRUE (eq x' 2)) => TRUE
(if (eq (!div 1 x) 1) (eq x' 1) (eq x' 1)) => wrong
(if (eq (!add 127 1) 1) (eq (div 1 x) x') TRUE) => big
(!if 1 (eq x' 1) TRUE) => wrong
(case (eq x 1) (eq x' 2) (eq x 0) (eq x' 1)) => TRUE
(case TRUE (eq x' 1) (eq (div 1 x) 1) FALSE) => TRUE
(case TRUE (or (eq x' 1) (eq (!div 1 x) x'))) => wrong
(case (or (eq x' 1) (eq (div 1 x) x')) TRUE) => TRUE
(case (eq (!div 1 x) 1) (eq x' 1)) => wrong
(!case FALSE (eq x' 1)) => wrong
(!case 1 (eq x' 1)) => wrong
(case-other FALSE (eq x' 2) (eq x' 1)) => TRUE
(case-other FALSE TRUE (or (eq x' 1) (eq (!div 1 x) x'))) => wrong
(case-other TRUE (eq x' 1) (eq (div 1 x) x')) => TRUE
(exists [i] {1 2} (eq x' i)) => TRUE
(exists [i] {2 3} (eq x' i)) => FALSE
(exists [i] {} (eq (div 1 x) x')) => FALSE
(exists [i] {0 1} (eq x' (!div 1 i))) => wrong
(exists [i] {0 1} (eq x' (if (eq i 0) (add 127 1) (!div 1 0)))) => wrong
(exists [i] {1} (or (eq x' i) (eq (!div 1 x) x'))) => wrong
(exists [i] {0 1} (or TRUE (eq (div 1 i) 1))) => TRUE
(exists [i] {1 2} (and (eq x' i) (eq i 1))) => TRUE
(exists [i j] {1} {0 1} (eq x' (add i j))) => TRUE
(exists [i j] {1} {} (eq x' (div i 0))) => FALSE
(exists [i] {(!div 1 x)} (eq x' i)) => wrong
(exists [i] {!128} (eq x' (div i 0))) => big
(!exists [i] 5 (eq x' i)) => wrong
(exists [i] {1 TRUE} i) => TRUE
(exists [i] {1} i) => FALSE
(exists [i] {2 3} (exists [j] {(sub i 1)} (eq x' (sub j i)))) => FALSE
(forall [i] {1} (eq x' i)) => TRUE
(forall [i] {1 2} (or (eq x' 1) (eq (div 1 x) i))) => TRUE
(not (or (eq x' 1) (eq (div 1 x) x'))) => FALSE
(implies TRUE (or (eq x' 1) (eq (div 1 x) x'))) => TRUE
(eq (or (eq x' 1) (eq (div 1 x) x')) TRUE) => TRUE
(noted (or (eq x' 1) (eq (!div 1 x) x'))) => wrong
5 => FALSE
"#;

// CInit, the assumptions and Init, where `c` is a constant. In CInit the constants count, in Init the variables, and an
// assumption is a value.
pub(crate) const STARTS: &str = r#"TRUE (and) TRUE => TRUE
(eq c 0) (and) (eq x 0) => TRUE
(eq c 0) (and) (eq x 5) => FALSE
(eq c 5) (and) (eq (div 1 x) x) => FALSE
(or (eq c 0) (eq (!div 1 c) c)) (and) (eq x 0) => wrong
(or TRUE (and TRUE (eq (div 1 0) 1))) (and) (eq x 0) => TRUE
(or (eq c 0) (eq (add 127 1) c)) (and) (eq x (!div 1 x)) => wrong
(or (eq c 0) (eq (!add 127 1) c)) (and) (eq x 5) => big
(eq (!add 127 1) c) (and) (eq (div 1 x) x) => big
TRUE (and (eq c 0) (eq x 0)) (eq x 0) => TRUE
TRUE (and (eq c 5) (eq (div 1 c) 1)) (eq (div 1 x) x) => FALSE
TRUE (and (or (eq c 0) (eq (div 1 c) c))) (eq x 0) => TRUE
TRUE (and TRUE (eq (!div 1 c) 1)) (eq x 0) => wrong
TRUE (and (eq (!add 127 1) c) (eq (div 1 c) 1)) (eq (div 1 x) x) => big
TRUE (or (eq c 0) (eq (div 1 c) c)) (eq x 0) => TRUE
TRUE (eq (!div 1 c) c) (eq x 0) => wrong
(or (eq c 0) (eq (!add 127 1) c)) (and FALSE) (eq (div 1 x) x) => big
TRUE (and) (or (eq x 0) (eq (!div 1 x) x)) => wrong
TRUE (and) (or (eq c 0) (eq (div 1 c) c)) => TRUE
TRUE (and) (and (eq x 0) (or (eq c 0) (eq (div 1 c) 1))) => TRUE
TRUE (and) (if (eq c 0) (or (eq x 0) (eq (!div 1 c) x)) TRUE) => wrong
TRUE (and) (exists [i] {0 1} (eq x i)) => TRUE
TRUE (and) (exists [i] {0 1} (eq x (!div 1 i))) => wrong
"#;

// Next, in which a primed constant does not count.
pub(crate) const STEPS: &str = r#"(eq x' (add x 1)) => TRUE
(eq x' x) => FALSE
(or (eq x' 1) (eq (!div 1 x) x')) => wrong
(or (eq c' 0) (eq (div 1 c) c')) => TRUE
(and (eq x' 1) (or (eq c' 0) (eq (div 1 c) c'))) => TRUE
(and (eq x' 1) (or (eq x 0) (eq (div 1 x) 1))) => TRUE
(if TRUE (or (eq c' 0) (eq (div 1 c) c')) (eq x' 1)) => TRUE
(exists [i] {0 1} (eq x' (add x i))) => TRUE
(eq y' (!add 127 1)) => big
"#;

// The invariants in order: the number of the first that is not TRUE with its value.
pub(crate) const INVARIANTS: &str = r#" => 0 TRUE
TRUE => 1 TRUE
(eq x 0) (eq y 1) => 2 TRUE
(eq x 5) (eq (div 1 x) 1) => 0 FALSE
TRUE (eq x 5) FALSE => 1 FALSE
TRUE (eq (!div 1 x) 1) FALSE => 1 wrong
(eq (!add 127 1) x) (eq (div 1 x) 1) => 0 big
(or (eq x 0) (eq (div 1 x) 1)) TRUE => 2 TRUE
(not (and (in 9 (domain f)) (eq (apply f 9) 1))) => 1 TRUE
(exists [i] (range 1 4) (eq (!apply f i) 1)) => 0 wrong
(eq (except [1] f 9 0) f) => 1 TRUE
(eq (cardinality {1 y}) 1) => 1 TRUE
(and (lt (len s) 4) (eq (head (tail s)) 2)) => 1 TRUE
(eq (!tail (tail (tail s))) <>) => 0 wrong
TRUE 5 => 1 5
"#;
