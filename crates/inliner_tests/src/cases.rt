// The cases: `NAMES|DEFINITIONS|CALL|ANSWER` a line. NAMES has a letter for each declared name, `c` for a constant and `v`
// for a variable. CALL is an operator and a part, or `job` with Init, Next, CInit (`-` for none) and the invariants.
//
// The answers were written from the language (Specifying Systems, chapter 17), not taken from the program.

// Arguments, definitions in definitions, and bound names.
pub(crate) const NAMES: &str =
    r#"v|(def [Op a] (add ?a 1)) (def [Inv] (eq (Op $0) 2))|Inv inv|(eq (add $0 1) 2)
v|(def [Inv] (eq $0 2))|Missing inv|refused: NoOperator Missing
v|(def [Inv] (eq (Missing $0) 2))|Inv inv|
v|(def [Op a] ?a) (def [Inv] (Op 1 2))|Inv inv|
v|(def [Inv] Late) (def [Late] 1)|Inv inv|
v|(def [Op a] (add ?a 1))|Op inv|refused: NoOperator Op
v|(def [A] 1) (def [A] (add A 1))|A inv|(add 1 1)
v|(def [Op a] (exists [x] ?a (eq %x ?a))) (def [Inv] (exists [x] (set) (Op %x)))|Inv inv|(exists [x] (set) (exists [x'] %x (eq %x' %x)))
v|(def [Op a] (exists [x] ?a (eq %x 1))) (def [Inv] (exists [x] (set) (Op %x)))|Inv inv|(exists [x] (set) (exists [x] %x (eq %x 1)))
v|(def [Op a b] (exists [x] ?a ?b)) (def [Inv] (exists [x x'] (set) (set) (Op %x (eq %x %x'))))|Inv inv|(exists [x x'] (set) (set) (exists [x''] %x (eq %x %x')))
v|(def [Twice a] (add ?a ?a)) (def [Inv] (Twice (Twice $0)))|Inv inv|(add (add $0 $0) (add $0 $0))
v|(def [Drop a] 1) (def [Inv] (Drop #choose))|Inv inv|1
v|(def [Inv] (let [f/1 a g/0] (add ?a $0) (add (f 2) 1) (eq g (f 3))))|Inv inv|(eq (add (add 2 $0) 1) (add 3 $0))
v|(def [Op p] (let [f/1 a] (let [h/1 b] (add ?b ?p) (h ?a)) (f 5))) (def [Inv] (Op $0))|Inv inv|(add 5 $0)
v|(def [f a] 1) (def [Inv] (let [f/1 a] (add (f ?a) ?a) (f 2)))|Inv inv|(add 1 2)
v|(def [Up a] (except [1 @] $0 1 ?a)) (def [Inv] (except [1 @] $0 2 (Up %@)))|Inv inv|(except [1 @] $0 2 (except [1 @'] $0 1 %@))
v|(def [Up a] (except [1 @] $0 1 (add %@ 1))) (def [Inv] (except [1 @] $0 2 (Up 3)))|Inv inv|(except [1 @] $0 2 (except [1 @] $0 1 (add %@ 1)))
v|(def [Plus p q] (add ?p ?q)) (def [Inv] (fold:9 Plus:8 0 $0))|Inv inv|(fold:9 [a b] (add %a:8 %b:8) 0 $0)
v|(def [Inv] (fold [m n] (add %m %n) 0 $0))|Inv inv|(fold [m n] (add %m %n) 0 $0)
v|(def [Plus p] (exists [a] (set) (eq %a ?p))) (def [Q p q] (Plus ?p)) (def [Inv] (fold Q 0 $0))|Inv inv|(fold [a b] (exists [a'] (set) (eq %a' %a)) 0 $0)
"#;

// Primes, UNCHANGED and what is refused in a part.
pub(crate) const PRIMES: &str =
    r#"v|(def [Op a] (prime ?a)) (def [Next] (Op (add $0:3 $0:4)))|Next step|(add $0':3 $0':4)
cv|(def [Next] (prime (add $0:3 $1:4)))|Next step|(add $0:3 $1':4)
v|(def [D] (prime $0:5)) (def [Next] (prime D))|Next step|refused: Reached #double-prime:5
v|(def [Inv] (eq (prime $0:6) 1))|Inv inv|refused: Reached #prime:6
v|(def [Init] (eq $0':7 1))|Init start|refused: Reached #prime:7
cv|(def [C] (eq $0 $1:8))|C constants|refused: Reached #variable:8
cv|(def [C] (eq $0 1))|C constants|(eq $0 1)
v|(def [Next] (and (eq 1 1) (set #choose:9 #choose:10)))|Next step|refused: Reached #choose:9
vv|(def [vars] (tuple:2 $0:3 $1:4)) (def [Next] (unchanged:9 vars:8))|Next step|(and:9 (eq:9 $0':3 $0:3) (eq:9 $1':4 $1:4))
vv|(def [Next] (unchanged:9 (add:8 $0:3 $1:4)))|Next step|(eq:9 (add:8 $0':3 $1':4) (add:8 $0:3 $1:4))
vv|(def [Op a] (unchanged:9 ?a)) (def [Next] (Op (tuple $0 (tuple $1))))|Next step|(and:9 (eq:9 $0' $0) (and:9 (eq:9 $1' $1)))
v|(def [A] (eq $0' 1)) (def [Next] (boxed:7 A:6 $0:5))|Next step|(or:7 (eq $0' 1) (eq:7 $0':5 $0:5))
vv|(def [A] (eq $0' 1)) (def [Next] (angled:7 A (tuple:4 $0:5 $1:6)))|Next step|(and:7 (eq $0' 1) (not:7 (and:7 (eq:7 $0':5 $0:5) (eq:7 $1':6 $1:6))))
v|(def [Next] (unchanged:9 (tuple)))|Next step|(and:9)
"#;

// Annotations, and jobs.
pub(crate) const JOBS: &str =
    r#"v|(typed:5 [Op a Int] (add ?a $0)) (def [Inv] (eq (Op 1) 2))|Inv inv|(eq (noted:5 [0__Int] (add (noted:5 [1__Int] 1) $0)) 2)
v|(typed:5 [vars T] (tuple $0)) (def [Next] (unchanged:9 vars))|Next step|(and:9 (eq:9 $0' $0))
v|(typed:5 [half T] $0) (def [Next] (unchanged:9 half))|Next step|(eq:9 (noted:5 [0__T] $0') (noted:5 [0__T] $0))
cv|(def [C] (eq $0 3)) (assume (eq $0 1)) (assume (eq $0 2)) (def [I] (eq $1 $0)) (def [N] (eq $1' $1)) (def [V] (eq $1 4)) (def [W] (eq $1 5))|job I N C V W|(eq $0 3) / (and:1 (eq $0 1) (eq $0 2)) / (eq $1 $0) / (eq $1' $1) / V=(eq $1 4) / W=(eq $1 5)
v|(def [I] (eq $0 0)) (def [N] (eq $0' $0))|job I N -|TRUE:1 / TRUE:1 / (eq $0 0) / (eq $0' $0)
v|(assume (eq 1 1)) (def [I] (eq $0 0)) (def [N] (eq $0' $0))|job I N -|TRUE:1 / (eq 1 1) / (eq $0 0) / (eq $0' $0)
v|(assume (eq $0:4 1)) (def [I] #choose) (def [N] 1)|job I N -|refused: Reached #variable:4
v|(assume #choose:4) (def [I] #choose:5) (def [N] 1)|job I N Missing|refused: NoOperator Missing
v|(def [I] 1) (def [N] #choose:6) (def [V] #choose:5)|job I N - V|refused: Reached #choose:6
v|(def [I] 1) (def [N] 1) (def [V] 1) (def [W] #choose:5)|job I N - V W Missing|refused: Reached #choose:5
v|(def [I] 1) (def [N] 1) (def [V] 1)|job I Missing - V|refused: NoOperator Missing
"#;
