// The operators of the table. A name that a `map` binds over `{}` has the type that the operator asks; where nothing asks
// for one it is Int, so that operands which are Int stand in `refusals`. What is no truth value stands in front of
// `\in {}`, since the root of a part is one.

pub(crate) const LOGIC: &str = r#"TRUE ==> Bool
(in "s" {}) ==> Bool; Str; Set(Str)
(in "1_OF_P" {}) ==> Bool; P; Set(P)
(in (map [a b] {} {} (and a b)) {}) ==> Bool; Set(Bool); Set(Bool); Set(Bool); Bool; Bool; Bool; Set(Set(Bool))
(in (map [a b c] {} {} {} (or a b c)) {}) ==> Bool; Set(Bool); Set(Bool); Set(Bool); Set(Bool); Bool; Bool; Bool; Bool; Set(Set(Bool))
(and) ==> Bool
(in (map [a b] {} {} (implies a b)) {}) ==> Bool; Set(Bool); Set(Bool); Set(Bool); Bool; Bool; Bool; Set(Set(Bool))
(in (map [a b] {} {} (iff a b)) {}) ==> Bool; Set(Bool); Set(Bool); Set(Bool); Bool; Bool; Bool; Set(Set(Bool))
(in (map [a] {} (not a)) {}) ==> Bool; Set(Bool); Set(Bool); Bool; Bool; Set(Set(Bool))
(in (map [a b] {} {} (if a b "s")) {}) ==> Bool; Set(Str); Set(Bool); Set(Str); Str; Bool; Str; Str; Set(Set(Str))
(in (map [a b] {} {} (if a "s" b)) {}) ==> Bool; Set(Str); Set(Bool); Set(Str); Str; Bool; Str; Str; Set(Set(Str))
(in (map [a b c] {} {} {} (case a b c "s")) {}) ==> Bool; Set(Str); Set(Bool); Set(Str); Set(Bool); Str; Bool; Str; Bool; Str; Set(Set(Str))
(in (map [a b] {} {} (case-other a b "s")) {}) ==> Bool; Set(Str); Set(Bool); Set(Str); Str; Bool; Str; Str; Set(Set(Str))
(in (map [a] {} (eq a "s")) {}) ==> Bool; Set(Bool); Set(Str); Bool; Str; Str; Set(Set(Bool))
(in (map [a] {} (ne "s" a)) {}) ==> Bool; Set(Bool); Set(Str); Bool; Str; Str; Set(Set(Bool))
x: Str | (assign x' "s") ==> Bool; Str; Str
(in (map [a] {} (in "s" a)) {}) ==> Bool; Set(Bool); Set(Set(Str)); Bool; Str; Set(Str); Set(Set(Bool))
(in (map [a] {} (notin a {"s"})) {}) ==> Bool; Set(Bool); Set(Str); Bool; Str; Set(Str); Str; Set(Set(Bool))
(in (map [a] {} (subseteq a {"s"})) {}) ==> Bool; Set(Bool); Set(Set(Str)); Bool; Set(Str); Set(Str); Str; Set(Set(Bool))
(in (map [a] {} (subseteq {"s"} a)) {}) ==> Bool; Set(Bool); Set(Set(Str)); Bool; Set(Str); Str; Set(Str); Set(Set(Bool))"#;

pub(crate) const NUMBERS: &str = r#"(lt 1 2) ==> Bool; Int; Int
(gt 1 2) ==> Bool; Int; Int
(le 1 2) ==> Bool; Int; Int
(ge 1 2) ==> Bool; Int; Int
(in (add 1 (sub 2 (mul 3 (neg 4)))) {}) ==> Bool; Int; Int; Int; Int; Int; Int; Int; Int; Set(Int)
(in (div 7 (mod 5 (pow 2 3))) {}) ==> Bool; Int; Int; Int; Int; Int; Int; Int; Set(Int)
(in (range 1 2) {}) ==> Bool; Set(Int); Int; Int; Set(Set(Int))"#;

pub(crate) const SETS: &str = r#"(in {} {}) ==> Bool; Set(Int); Set(Set(Int))
(eq {} {}) ==> Bool; Set(Int); Set(Int)
(in (map [a] {} {a "s"}) {}) ==> Bool; Set(Set(Str)); Set(Str); Set(Str); Str; Str; Set(Set(Set(Str)))
(in (map [a] {} (cup a {"s"})) {}) ==> Bool; Set(Set(Str)); Set(Set(Str)); Set(Str); Set(Str); Set(Str); Str; Set(Set(Set(Str)))
(in (map [a] {} (cap {"s"} a)) {}) ==> Bool; Set(Set(Str)); Set(Set(Str)); Set(Str); Set(Str); Str; Set(Str); Set(Set(Set(Str)))
(in (map [a] {} (minus {"s"} a)) {}) ==> Bool; Set(Set(Str)); Set(Set(Str)); Set(Str); Set(Str); Str; Set(Str); Set(Set(Set(Str)))
(in (powerset {"s"}) {}) ==> Bool; Set(Set(Str)); Set(Str); Str; Set(Set(Set(Str)))
(in (funset {"s"} {TRUE}) {}) ==> Bool; Set(Str -> Bool); Set(Str); Str; Set(Bool); Bool; Set(Set(Str -> Bool))
(in (recset [f g] {"s"} {TRUE}) {}) ==> Bool; Set({f: Str, g: Bool}); Set(Str); Str; Set(Bool); Bool; Set(Set({f: Str, g: Bool}))
(in (product {"s"} {TRUE} {1}) {}) ==> Bool; Set(<<Str, Bool, Int>>); Set(Str); Str; Set(Bool); Bool; Set(Int); Int; Set(Set(<<Str, Bool, Int>>))
(in (union {{"s"}}) {}) ==> Bool; Set(Str); Set(Set(Str)); Set(Str); Str; Set(Set(Str))
(in (map [a] {} (cup (union a) {"s"})) {}) ==> Bool; Set(Set(Str)); Set(Set(Set(Str))); Set(Str); Set(Str); Set(Set(Str)); Set(Str); Str; Set(Set(Set(Str)))
(in (product (boolean) (int) (nat) (string)) {}) ==> Bool; Set(<<Bool, Int, Int, Str>>); Set(Bool); Set(Int); Set(Int); Set(Str); Set(Set(<<Bool, Int, Int, Str>>))
(in (seqs {"s"}) {}) ==> Bool; Set(Seq(Str)); Set(Str); Str; Set(Set(Seq(Str)))
(in (cardinality {"s"}) {}) ==> Bool; Int; Set(Str); Str; Set(Int)
(finite {"s"}) ==> Bool; Set(Str); Str"#;

pub(crate) const BINDERS: &str =
    r#"(exists [a] {"s"} (eq a "t")) ==> Bool; Set(Str); Str; Bool; Str; Str
(forall [a b] {"s"} {TRUE} (implies b (eq a "t"))) ==> Bool; Set(Str); Str; Set(Bool); Bool; Bool; Bool; Bool; Str; Str
(exists [a] {} a) ==> Bool; Set(Bool); Bool
(forall [a] {} a) ==> Bool; Set(Bool); Bool
(in (filter [a] {} a) {}) ==> Bool; Set(Bool); Set(Bool); Bool; Set(Set(Bool))
(in (filter [a] {"s"} (eq a "t")) {}) ==> Bool; Set(Str); Set(Str); Str; Bool; Str; Str; Set(Set(Str))
(in (map [a b] {"s"} {TRUE} (if b a "t")) {}) ==> Bool; Set(Str); Set(Str); Str; Set(Bool); Bool; Str; Bool; Str; Str; Set(Set(Str))
(in (lambda [a] {"s"} TRUE) {}) ==> Bool; Str -> Bool; Set(Str); Str; Bool; Set(Str -> Bool)
(in (lambda [a b] {"s"} {1} TRUE) {}) ==> Bool; <<Str, Int>> -> Bool; Set(Str); Str; Set(Int); Int; Bool; Set(<<Str, Int>> -> Bool)
(exists [a] {"s"} (exists [a] {{a}} (in "t" a))) ==> Bool; Set(Str); Str; Bool; Set(Set(Str)); Set(Str); Str; Bool; Str; Set(Str)
(exists [a b] {"s"} {a} TRUE) ==> not typable"#;

pub(crate) const FUNCTIONS: &str =
    r#"(in (single "s" TRUE) {}) ==> Bool; Str -> Bool; Str; Bool; Set(Str -> Bool)
(in (map [a] {} (merge a (single "s" TRUE))) {}) ==> Bool; Set(Str -> Bool); Set(Str -> Bool); Str -> Bool; Str -> Bool; Str -> Bool; Str; Bool; Set(Set(Str -> Bool))
(in (map [a] {} (merge (single "s" TRUE) a)) {}) ==> Bool; Set(Str -> Bool); Set(Str -> Bool); Str -> Bool; Str -> Bool; Str; Bool; Str -> Bool; Set(Set(Str -> Bool))
(in (record [f g] 1 "s") {}) ==> Bool; {f: Int, g: Str}; Int; Str; Set({f: Int, g: Str})
x: {f: Int, g: Str} | (in (field [g] x) {}) ==> Bool; Str; {f: Int, g: Str}; Set(Str)
x: {f: Int, r} | (eq (field [g] x) "s") ==> Bool; Str; {f: Int, g: Str}; Str
(exists [r] {} (eq (field [f] r) 1)) ==> Bool; Set({f: Int}); Bool; Int; {f: Int}; Int
(exists [r] {} (and (eq (field [f] r) 1) (eq (field [g] r) "s"))) ==> Bool; Set({f: Int, g: Str}); Bool; Bool; Int; {f: Int, g: Str}; Int; Bool; Str; {f: Int, g: Str}; Str
(in (record [f] "s") (recset [f] {"t"})) ==> Bool; {f: Str}; Str; Set({f: Str}); Set(Str); Str"#;

pub(crate) const SEQUENCES: &str = r#"(in <> {}) ==> Bool; Seq(Int); Set(Seq(Int))
x: Seq(Str) | (in (len x) {}) ==> Bool; Int; Seq(Str); Set(Int)
(in (append <> "s") {}) ==> Bool; Seq(Str); Seq(Str); Str; Set(Seq(Str))
(in (map [a] {} (concat a (append <> "s"))) {}) ==> Bool; Set(Seq(Str)); Set(Seq(Str)); Seq(Str); Seq(Str); Seq(Str); Seq(Str); Str; Set(Set(Seq(Str)))
(in (map [a] {} (concat (append <> "s") a)) {}) ==> Bool; Set(Seq(Str)); Set(Seq(Str)); Seq(Str); Seq(Str); Seq(Str); Str; Seq(Str); Set(Set(Seq(Str)))
x: Seq(Str) | (in (head (tail x)) {}) ==> Bool; Str; Seq(Str); Seq(Str); Set(Str)
x: Seq(Str) | (in (subseq x 1 2) {}) ==> Bool; Seq(Str); Seq(Str); Int; Int; Set(Seq(Str))
(in (fold [a b] (if b a "s") "t" <TRUE>) {}) ==> Bool; Str; Str; Bool; Str; Str; Str; Seq(Bool); Bool; Set(Str)"#;
