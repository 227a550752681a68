// Annotations of names and of definitions, aliases, and the parts of a job.

// The types of names, where there are no trees.
pub(crate) const DECLARED: &str = r#"x: Set(Int) |  ==> Set(Int)
x: Set(a); y: {f: Int, r}; z: a -> b |  ==> Set(Int); {f: Int}; Int -> Int
x: a; y: a | (and (eq x 1) (eq y "s")) ==> Bool; Bool; Int; Int; Bool; Str; Str
x: <<a, a>> | (eq (apply x 1) "s") ==> Bool; Str; <<Str, Str>>; Int; Str
x: <<a, a>> | (and (eq (apply:5 x 1) "s") (eq:9 (apply x 2) 1)) ==> Str # Int @9
x: {f: Int, r}; y: {f: Int, r} | (and (eq (field [g] x) "s") (eq (field [g] y) 1)) ==> Bool; Bool; Str; {f: Int, g: Str}; Str; Bool; Int; {f: Int, g: Int}; Int
x: Int @type: Str | (in x {}) ==> Bool; Str; Set(Str)
x: Int;@type: Str | (in x {}) ==> Bool; Int; Set(Int)
x: Int; y: Str | (eq:9 x' y) ==> Int # Str @9"#;

pub(crate) const ALIASES: &str =
    r#"$a = Int; x: $a -> Str | (in x {}) ==> Bool; Int -> Str; Set(Int -> Str)
$a = Int; $b = Set($a); x: $b | (in x {}) ==> Bool; Set(Int); Set(Set(Int))
x@4: $b | x ==> bad @4
$a = Set($b); $b = Int; x@4: $a | x ==> bad @4
$a = Set($b); $b = Int; x: $b | (in x {}) ==> Bool; Int; Set(Int)
$a = Intt; $a = Str; $a = Int; x: $a | (in x {}) ==> Bool; Str; Set(Str)
$a = Intt; x: Int | (in x {}) ==> Bool; Int; Set(Int)
$a = (Int) => Str; x@4: $a | TRUE ==> bad @4
$a = (Int) => Str | (noted:5 [1 $a] "s") ==> Int # Str @5"#;

// Why there is no type: a name without an annotation, the first; then an annotation that is no type, the least place;
// then a clash.
pub(crate) const CAUSES: &str = r#"x@3 |  ==> untyped x @3
x@7; y@4 | TRUE ==> untyped x @7
x@3: Intt; y@4 | (eq 1 "a") ==> untyped y @4
x@8; y: Int | (noted:5 [0 Intt] 1) ==> untyped x @8
x@3: Intt | (eq 1 "a") ==> bad @3
x@7: Intt; y@4: Strr | (noted:5 [0 Intt] 1) ==> bad @4
x@7: Intt; y@9: Strr | (noted:5 [0 Intt] 1) ==> bad @5
(and (noted:8 [0 Intt] TRUE) (noted:5 [0 Strr] TRUE)) ==> bad @5
(noted:5 [0 Intt] TRUE) TRUE TRUE TRUE TRUE ==> bad @5
TRUE TRUE (noted:5 [0 Intt] TRUE) TRUE TRUE ==> bad @5
x@4: (Int) => Int | TRUE ==> bad @4
x@4: Set((Int) => Int) | TRUE ==> bad @4
x@4: ((Int) => Int) | TRUE ==> bad @4"#;

// Uses of annotated definitions: the result has the number 0 and an argument its own.
pub(crate) const DEFINITIONS: &str = r#"(in (noted [0 Int] 1) {}) ==> Bool; Int; Int; Set(Int)
(noted:5 [0 Int] "a") ==> Int # Str @5
(in (noted [1 Int] "a") {}) ==> Bool; Str; Str; Set(Str)
(noted:5 [0 (Int) => Int] (noted:5 [1 (Int) => Int] "a")) ==> Int # Str @5
(noted:5 [0 (Int) => Str] 1) ==> Str # Int @5
(noted:5 [0 () => Str] 1) ==> Str # Int @5
(noted:5 [2 (Int, Str) => Bool] 1) ==> Str # Int @5
(noted [3 (Int, Str) => Bool] TRUE) ==> Bool; Bool
(noted:5 [0 ((Int) => Str)] 1) ==> Str # Int @5
(in (map [a] {} (noted [0 Str] a)) {}) ==> Bool; Set(Str); Set(Str); Str; Str; Set(Set(Str))
(in (noted [0 Seq(Int)] <1>) {}) ==> Bool; Seq(Int); Seq(Int); Int; Set(Seq(Int))
(in (noted [0 a] 1) {}) ==> Bool; Int; Int; Set(Int)
(in (noted [1 (Int, a) => a] "s") {}) ==> Bool; Str; Str; Set(Str)
(in (noted [1 ({f: Int, r}) => Int] "s") {}) ==> Bool; Str; Str; Set(Str)
(and (eq (noted:5 [0 (a) => a] (noted:5 [1 (a) => a] 1)) 1) (eq (noted:5 [0 (a) => a] (noted:5 [1 (a) => a] "a")) "a")) ==> Bool; Bool; Int; Int; Int; Int; Bool; Str; Str; Str; Str
(and (eq (cup:5 {} {1}) {}) (eq (cup:5 {} {"s"}) {})) ==> Bool; Bool; Set(Int); Set(Int); Set(Int); Int; Set(Int); Bool; Set(Str); Set(Str); Set(Str); Str; Set(Str)
(and (eq (add:5 1 1) 2) (eq (add:5 "a" 1) 2)) ==> Int # Str @5
x: {f: Int, g: Bool}; y: {f: Str} | (and (eq (field:5 [f] x) 1) (eq (field:5 [f] y) "s")) ==> Bool; Bool; Int; {f: Int, g: Bool}; Int; Bool; Str; {f: Str}; Str
x: {g: Int} | (noted:5 [0 Bool] (eq (noted:5 [1 ({g: Int}) => Bool] x) x)) ==> Bool; Bool; {g: Int}; {g: Int}; {g: Int}
(noted:5 [0 Intt] 1) ==> bad @5
(noted:5 [0 (a) => Intt] 1) ==> bad @5
(noted:5 [Int] 1) ==> bad @5
(noted:5 [0 Set((Int) => Int)] 1) ==> bad @5
(noted:5 [0 ((Int) => Int) => Int] 1) ==> bad @5
(noted:5 [0 $a] 1) ==> bad @5"#;

// CInit, the assumptions, Init, Next and the invariants are one system.
pub(crate) const PARTS: &str =
    r#"x: Int | TRUE (in x {x}) (eq x 1) (lt x' 2) (in {x} {}) (lt (len <x>) 1) ==> Bool / Bool; Int; Set(Int); Int / Bool; Int; Int / Bool; Int; Int / Bool; Set(Int); Int; Set(Set(Int)) / Bool; Int; Seq(Int); Int; Int
x: a | TRUE TRUE (eq x "s") TRUE (in x {}) ==> Bool / Bool / Bool; Str; Str / Bool / Bool; Str; Set(Str)
x: a | (in x {}) (eq x "s") TRUE TRUE TRUE ==> Bool; Str; Set(Str) / Bool; Str; Str / Bool / Bool / Bool
x: a; y: {f: a} | (field [f] y) x TRUE TRUE TRUE ==> Bool; {f: Bool} / Bool / Bool / Bool / Bool
(in <:9 1> {}) (eq (domain:5 <:7 2>) {1}) TRUE TRUE (eq <:3 1> <:4 "a">) ==> Int # Str @4 defaults 3"#;
