// Overloaded nodes: the choice that the types around them decide, or a default.

pub(crate) const TUPLES: &str =
    r#"(in <1 "s"> {}) ==> Bool; <<Int, Str>>; Int; Str; Set(<<Int, Str>>)
(eq <1> <>) ==> Bool; Seq(Int); Int; Seq(Int)
(eq <:8 1 "a"> <>) ==> Int # Str @8
(in (head <"s" "t">) {}) ==> Bool; Str; Seq(Str); Str; Str; Set(Str)
(eq <:8 1 2> <:19 1 "a">) ==> Int # Str @19 defaults 8
(eq:9 <:8 1> <:14 1 2>) ==> <<Int>> # <<Int, Int>> @14 defaults 8
x: <<Int, Str>> | (eq x <1 "s">) ==> Bool; <<Int, Str>>; <<Int, Str>>; Int; Str
x: <<Int, Int>> | (eq x <:9 1 "a">) ==> Int # Str @9
x: <<Int, Int>> | (eq x <:9 1>) ==> <<Int, Int>> # <<Int>> @9
x: <<Int, Int>> | (eq:9 x <>) ==> <<Int, Int>> # Seq(a) @9
x: Seq(Str) | (eq x <"s" "t">) ==> Bool; Seq(Str); Seq(Str); Str; Str
x: Seq(Int) | (eq x <:9 1 "a">) ==> Int # Str @9
x: Seq(Int) | (eq x <:9 "a" 1>) ==> Int # Str @9
x: Int -> Int | (eq:9 x <>) ==> Int -> Int # Seq(a) @9
x: Int | (eq x <:9 1>) ==> Int # <<Int>> @9
x: Int -> Int | (eq x <:9 1>) ==> Int -> Int # <<Int>> @9
x: Seq(<<Int, Str>>) | (eq x <<1 "s"> <2 "t">>) ==> Bool; Seq(<<Int, Str>>); Seq(<<Int, Str>>); <<Int, Str>>; Int; Str; <<Int, Str>>; Int; Str
x: <<Seq(Int), <<Int>>>> | (eq x <<1> <2>>) ==> Bool; <<Seq(Int), <<Int>>>>; <<Seq(Int), <<Int>>>>; Seq(Int); Int; <<Int>>; Int
x: Seq(Seq(Int)) | (eq x <<1 2> <>>) ==> Bool; Seq(Seq(Int)); Seq(Seq(Int)); Seq(Int); Int; Int; Seq(Int)"#;

// Applications and domains.
pub(crate) const ACCESSES: &str = r#"x: Str -> Bool | (apply x "s") ==> Bool; Str -> Bool; Str
x: Int -> Int | (apply:9 x "a") ==> Int # Str @9
x: P -> Bool | (apply x "1_OF_P") ==> Bool; P -> Bool; P
x: Str -> Bool | (apply:9 x "1_OF_P") ==> Str # P @9
x: Seq(Str) | (in (apply x 1) {}) ==> Bool; Str; Seq(Str); Int; Set(Str)
x: Seq(Str) | (apply:9 x "a") ==> Int # Str @9
x: <<Int, Str>> | (in (apply x 1) {}) ==> Bool; Int; <<Int, Str>>; Int; Set(Int)
x: <<Int, Str>> | (in (apply x 2) {}) ==> Bool; Str; <<Int, Str>>; Int; Set(Str)
x: <<Int, Str>> | (in (apply x (noted [0 Int] 2)) {}) ==> Bool; Str; <<Int, Str>>; Int; Int; Set(Str)
x: <<Int, Str>> | (apply:9 x 3) ==> <<Int, Str>> # Int -> a @9
x: <<Int, Str>> | (apply:9 x 0) ==> <<Int, Str>> # Int -> a @9
x: <<Int, Str>> | (apply:9 x (neg 1)) ==> <<Int, Str>> # Int -> a @9
x: <<Int, Int>>; y: Int | (eq (apply:9 x y) 1) ==> <<Int, Int>> # Int -> a @9
x: <<Int>> | (apply:9 x "f") ==> <<Int>> # Str -> a @9
(eq (apply:16 <:8 1 2> 3) 1) ==> <<Int, Int>> # Int -> Int @16 defaults 8
(eq (apply:16 <:8 "s" TRUE> 2) FALSE) ==> Bool; Bool; <<Str, Bool>>; Str; Bool; Int; Bool
x: {f: Int, g: Str} | (in (apply x "g") {}) ==> Bool; Str; {f: Int, g: Str}; Str; Set(Str)
x: {a_OF_B: Bool} | (apply x "a_OF_B") ==> Bool; {a_OF_B: Bool}; B
x: {f: Int} | (apply:9 x "g") ==> {f: Int} # {g: a, b} @9
x: {f: Int}; y: Str | (apply:9 x y) ==> {f: Int} # Str -> a @9
x: {f: Int} | (apply:9 x 1) ==> {f: Int} # Int -> a @9
x: Int | (apply:9 x 1) ==> Int # Int -> a @9
x: Set(Int) | (apply:9 x 1) ==> Set(Int) # Int -> a @9
(in (map [a] {} (apply a "s")) {}) ==> Bool; Set(Int); Set(Str -> Int); Int; Str -> Int; Str; Set(Set(Int))
x: Str -> Int | (in (domain x) {}) ==> Bool; Set(Str); Str -> Int; Set(Set(Str))
x: Seq(Str) | (in (domain x) {}) ==> Bool; Set(Int); Seq(Str); Set(Set(Int))
(in (domain <>) {}) ==> Bool; Set(Int); Seq(Int); Set(Set(Int))
x: <<Str, Str>> | (in (domain x) {}) ==> Bool; Set(Int); <<Str, Str>>; Set(Set(Int))
x: {f: Int} | (in (domain x) {}) ==> Bool; Set(Str); {f: Int}; Set(Set(Str))
x: {f: Int, r} | (in (domain x) {}) ==> Bool; Set(Str); {f: Int}; Set(Set(Str))
(domain:9 1) ==> Int # a -> b @9
x: Seq(Int) | (eq:9 (domain x) {"a"}) ==> Int # Str @9
x: {f: Int} | (eq:9 (domain x) {1}) ==> Str # Int @9
(in (map [a] {} (eq (domain a) {"s"})) {}) ==> Bool; Set(Bool); Set(Str -> Int); Bool; Set(Str); Str -> Int; Set(Str); Str; Set(Set(Bool))
(exists [f] {(lambda [i] {1} 2)} (eq (domain:12 f) {"a"})) ==> Int # Str @12"#;

// EXCEPT.
pub(crate) const UPDATES: &str =
    r#"x: Str -> Bool | (in (except [1] x "s" TRUE) {}) ==> Bool; Str -> Bool; Str -> Bool; Str; Bool; Set(Str -> Bool)
x: Int -> Int | (except:5 [1] x "a":9 1) ==> Int # Str @9
x: Int -> Int | (except:5 [1] x 1:9 "a") ==> Int # Str @9
x: Seq(Str) | (in (except [1] x 1 "s") {}) ==> Bool; Seq(Str); Seq(Str); Int; Str; Set(Seq(Str))
x: Seq(Str) | (except:5 [1] x "a":9 "s") ==> Int # Str @9
x: <<Int, Str>> | (in (except [1] x 2 "s") {}) ==> Bool; <<Int, Str>>; <<Int, Str>>; Int; Str; Set(<<Int, Str>>)
x: <<Int, Str>> | (except:5 [1] x 3:9 "s") ==> <<Int, Str>> # Int -> Str @9
x: {f: Int, g: Str} | (in (except [1] x "g" "s") {}) ==> Bool; {f: Int, g: Str}; {f: Int, g: Str}; Str; Str; Set({f: Int, g: Str})
x: {f: Int} | (except:5 [1] x "g":9 "s") ==> {f: Int} # {g: Str, a} @9
x: {a: Int, b: Str} | (in (except [1 1] x "a" 1 "b" "s") {}) ==> Bool; {a: Int, b: Str}; {a: Int, b: Str}; Str; Int; Str; Str; Set({a: Int, b: Str})
x: {a: Int -> {b: Set(Str)}} | (in (except [3] x "a" 1 "b" (cup @ {"s"})) {}) ==> Bool; {a: Int -> {b: Set(Str)}}; {a: Int -> {b: Set(Str)}}; Str; Int; Str; Set(Str); Set(Str); Set(Str); Str; Set({a: Int -> {b: Set(Str)}})
x: Seq(<<Str, Int>>) | (in (except [2] x 1 2 (add @ 1)) {}) ==> Bool; Seq(<<Str, Int>>); Seq(<<Str, Int>>); Int; Int; Int; Int; Int; Set(Seq(<<Str, Int>>))
x: {a: Int} | (except:5 [2] x "a":7 1:9 2) ==> Int # Int -> Int @9
x: <<Int, Str>> -> Bool | (in (except [1] x <1 "s"> TRUE) {}) ==> Bool; <<Int, Str>> -> Bool; <<Int, Str>> -> Bool; <<Int, Str>>; Int; Str; Bool; Set(<<Int, Str>> -> Bool)
(in (map [a] {} (except [1] a "s" TRUE)) {}) ==> Bool; Set(Str -> Bool); Set(Str -> Bool); Str -> Bool; Str -> Bool; Str; Bool; Set(Set(Str -> Bool))
x: Int -> Bool -> Str | (in (except [1] x 1 (except [1] @ TRUE "s")) {}) ==> Bool; Int -> Bool -> Str; Int -> Bool -> Str; Int; Bool -> Str; Bool -> Str; Bool; Str; Set(Int -> Bool -> Str)
x: Str -> Int; y: Int -> Bool | (in (except [1] x "s" (if (apply (except [1] y @ TRUE) 1) @ 2)) {}) ==> Bool; Str -> Int; Str -> Int; Str; Int; Bool; Int -> Bool; Int -> Bool; Int; Bool; Int; Int; Int; Set(Str -> Int)
x: Int -> Int | (except [1] x @ 1) ==> not typable
x: Int | (except:5 [1] x 1:9 2) ==> Int # Int -> Int @9"#;

// The first in the order of places takes its default, where no node is decided; of several at one place the one that is
// visited first.
pub(crate) const DEFAULTS: &str =
    r#"(exists [e] {} (and (eq (domain:20 e) {1}) (eq e <:36 1 2>))) ==> Int -> a # <<Int, Int>> @36 defaults 20
(exists [e] {} (and (eq e <:9 1 2>) (eq (domain:20 e) {1}))) ==> Bool; Set(<<Int, Int>>); Bool; Bool; <<Int, Int>>; <<Int, Int>>; Int; Int; Bool; Set(Int); <<Int, Int>>; Set(Int); Int
(exists [e] {} (eq (apply:10 e (if (eq e <:18 1 2>) 1 2)) 1)) ==> Int -> Int # <<Int, Int>> @18 defaults 10
(exists [f] {} (and (eq (domain:19 f) {"a"}) (eq (apply:39 f 1) 2))) ==> Str # Int @39 defaults 19
(exists [e] {} (and (eq (domain:20 e) {1}) (apply:30 e 1))) ==> Bool; Set(Int -> Bool); Bool; Bool; Set(Int); Int -> Bool; Set(Int); Int; Bool; Int -> Bool; Int
(in (map [a] {} (apply:9 a <:9 1 2>)) {}) ==> Bool; Set(Int); Set(<<Int, Int>> -> Int); Int; <<Int, Int>> -> Int; <<Int, Int>>; Int; Int; Set(Set(Int))
(exists [e] {} (and (apply:9 e <:9 1 2>) (eq e <:20 1>))) ==> <<Int, Int>> -> Bool # <<Int>> @20 defaults 9 9
(exists [e] {} (and (eq <:9 1> <:9 1>) (eq (domain:20 e) {1}) (eq e <:36 1>))) ==> Int -> a # <<Int>> @36 defaults 9 20
(eq <:8 <:9 1 2> 3> <:20 <:21 4 5> 6>) ==> Bool; <<<<Int, Int>>, Int>>; <<Int, Int>>; Int; Int; Int; <<<<Int, Int>>, Int>>; <<Int, Int>>; Int; Int; Int
(eq <:8 <:9 1 2> 3> <:20 <:21 4> 6>) ==> <<Int, Int>> # <<Int>> @21 defaults 8 9
(exists [e] {} (and (eq e <:30 1>) (eq <:20 2> (subseq <:10 3> 1 2)) (eq (domain:40 e) {"a"}))) ==> Int # Str @40 defaults 30"#;
