// EXCEPT, in the form of `values`. Each has two numbers for a LET, whether it has one or not, and behind them one for
// each index of a path.

// Without a LET where no index but the first can have a fault.
pub(crate) const UPDATES: &str =
    r#"x: Str -> Int | (in (except [1] x "a" 1) {}) ==> (member (update [2] x "a" 1) {})
x: Str -> Int | (in (except [1] x "a" (add @ 1)) {}) ==> (member (update [2] x "a" (plus #2 1)) {})
x: Str -> Int | (in (except [1 1] x "a" 1 "b" (add @ 1)) {}) ==> (member (update [2] (update [2] x "a" 1) "b" (plus #2 1)) {})
x: {a: Int, b: Int} | (in (except [1 1 1] x "a" 1 "b" @ "a" (neg @)) {}) ==> (member (update [2] (update [2] (update [2] x "a" 1) "b" #2) "a" (minus 0 #2)) {})
x: {a: Seq(Int)} | (in (except [2] x "a" 1 (add @ 1)) {}) ==> (member (update [2] x "a" (update [3] #2 1 (plus #3 1))) {})
x: {a: Int -> {b: Set(Str)}} | (in (except [3] x "a" 1 "b" (cup @ {"s"})) {}) ==> (member (update [2] x "a" (update [3] #2 1 (update [4] #3 "b" (union #4 {"s"})))) {})
x: {a: Seq(Int), b: Int} | (in (except [2 1] x "a" 1 (add @ 1) "b" @) {}) ==> (member (update [2] (update [2] x "a" (update [3] #2 1 (plus #3 1))) "b" #2) {})
x: Seq(Str) | (in (except [1] x 1 "s") {}) ==> (member (update [2] x 1 "s") {})
x: <<Int, Str>> | (in (except [1] x 2 "s") {}) ==> (member (update [2] x 2 "s") {})
x: <<Int, Int>> -> Bool | (in (except [1] x <1 2> (not @)) {}) ==> (member (update [2] x <1 2> (not #2)) {})
x: Bool -> Int | (in (except [2] (lambda [i] {1} x) 1 TRUE @) {}) ==> (member (update [2] (fun-of [0] {1} x) 1 (update [3] #2 TRUE #3)) {})
(in (except [1] (lambda [i] {1} i) 2 5) {}) ==> (member (update [2] (fun-of [0] {1} #0) 2 5) {})
x: Int -> Int; y: Int | (in (except [1] x (add y 1) (add @ y)) {}) ==> (member (update [2] x (plus y 1) (plus #2 y)) {})
x: Int -> Int; y: Int | (in (except [1 1] x y 2 1 3) {}) ==> (member (update [2] (update [2] x y 2) 1 3) {})
x: Int -> Int | (in (except [1] x 8 1) {}) ==> (member (update [2] x 8 1) {})
x: Int -> Seq(Int); y: Int | (in (except [2] x (add y 1) 7 (add @ y)) {}) ==> (member (update [2] x (plus y 1) (update [3] #2 7 (plus #3 y))) {})
x: Int -> Int -> Int | (in (except:1 [1] x 1 (except:2 [1] @ 2 (add @ 1))) {}) ==> (member (update [2] x 1 (update [5] #2 2 (plus #5 1))) {})
x: Int -> Int; y: Int -> Int | (in (except [1] x 1 (apply (except [1] y @ (add @ 1)) @)) {}) ==> (member (update [2] x 1 (at (update [5] y #2 (plus #5 1)) #2)) {})
x: Int -> Int | (in (except [1] (except [1] x 1 2) 3 (add @ 1)) {}) ==> (member (update [2] (update [2] x 1 2) 3 (plus #2 1)) {})
x: {a: Seq(Int)} | (in (except [2] x "a" (noted [0 Int] 1) @) {}) ==> (member (update [2] x "a" (update [3] #2 1 #3)) {})
x: Int -> Int; y: Int -> Int | (in (except [1] x (apply (except [1] y 1 @) 1) 2) {}) ==> (member (update [2] x (at (update [2] y 1 #2) 1) 2) {})
x: Int -> Int | (in (lambda [i] {1 2} (except [1] x i (add @ i))) {}) ==> (member (fun-of [0] {1 2} (update [3] x #0 (plus #3 #0))) {})
x: Int -> Seq(Int) | (in (lambda [i j] {1} {2} (except [2] x i 1 (add @ j))) {}) ==> (member (fun-of [0 1] {1} {2} (update [4] x #0 (update [5] #4 1 (plus #5 #1)))) {})
x: Int -> Int | (in (except [1] x 1 (cardinality (filter [i] {1} (eq i @)))) {}) ==> (member (update [2] x 1 (count (filter [3] {1} (equal #3 #2)))) {})
x: Int -> Int | (in (except [1] x (cardinality (filter [i] {1} (eq i 1))) @) {}) ==> (member (update [2] x (count (filter [0] {1} (equal #0 1))) #2) {})
x: Bool -> Bool; y: Bool | (in (except [1] x TRUE (iff @ y)) {}) ==> (member (update [2] x TRUE (first (fold-left [3 4] (push #3 (equal (not (item [1] #4)) (not (item [2] #4)))) (seq-of) (seq-of <#2 y>)))) {})
x: Int -> Int | (in (except [1] x 1 (if (eq @ 1) 2 (case (eq @ 3) @))) {}) ==> (member (update [2] x 1 (if (equal #2 1) 2 (if (equal #2 3) #2 (no-case)))) {})
x: Int -> Int | (eq x' (except [1] x 1 2)) TRUE ==> (equal x' (update [2] x 1 2)) / TRUE"#;

// With one elsewhere: the function and all indexes are evaluated in pairs, and read from these but for literals.
pub(crate) const PAIRED: &str =
    r#"x: Int -> Int; y: Int | (in (except [1 1] x 1 2 y 3) {}) ==> (member (first (fold-left [0 1] (push #0 (update [2] (update [2] (item [1] #1) 1 2) (item [2] (item [2] #1)) 3)) (seq-of) (seq-of <x <1 y>>))) {})
x: Int -> Int -> Int; y: Int; z: Int | (in (except [2] x y z (add @ 1)) {}) ==> (member (first (fold-left [0 1] (push #0 (update [2] (item [1] #1) (item [1] (item [2] #1)) (update [3] #2 (item [2] (item [2] #1)) (plus #3 1)))) (seq-of) (seq-of <x <y z>>))) {})
x: {a: Int -> Int}; y: Int | (in (except [2] x "a" y @) {}) ==> (member (first (fold-left [0 1] (push #0 (update [2] (item [1] #1) "a" (update [3] #2 (item [2] (item [2] #1)) #3))) (seq-of) (seq-of <x <"a" y>>))) {})
x: Int -> Int | (in (except [1 1] x 1 2 8 3) {}) ==> (member (first (fold-left [0 1] (push #0 (update [2] (update [2] (item [1] #1) 1 2) 8 3)) (seq-of) (seq-of <x <1 8>>))) {})
x: Int -> Int | (in (except [1 1] x 1 2 (neg 1) 3) {}) ==> (member (first (fold-left [0 1] (push #0 (update [2] (update [2] (item [1] #1) 1 2) (item [2] (item [2] #1)) 3)) (seq-of) (seq-of <x <1 (minus 0 1)>>))) {})
x: {a: Int -> Int}; y: Int | (in (except [2 2] x "a" y 1 "a" 2 @) {}) ==> (member (first (fold-left [0 1] (push #0 (update [2] (update [2] (item [1] #1) "a" (update [3] #2 (item [1] (item [2] (item [2] #1))) 1)) "a" (update [3] #2 2 #3))) (seq-of) (seq-of <x <"a" <y <"a" 2>>>>))) {})
x: Int -> Int; y: Int; z: Int | (in (except [1 1 1] x y @ z (add @ 1) (add y z) @) {}) ==> (member (first (fold-left [0 1] (push #0 (update [2] (update [2] (update [2] (item [1] #1) (item [1] (item [2] #1)) #2) (item [1] (item [2] (item [2] #1))) (plus #2 1)) (item [2] (item [2] (item [2] #1))) #2)) (seq-of) (seq-of <x <y <z (plus y z)>>>))) {})
x: Int -> Int -> Int | (in (except [2 1] x (cardinality (filter [i] {1} (eq i 1))) (cardinality (filter [i] {1} (eq i 2))) (cardinality (filter [i] {1} (eq i 3))) (cardinality (filter [i] {1} (eq i 4))) (lambda [j] {1} j)) {}) ==> (member (first (fold-left [0 1] (push #0 (update [2] (update [2] (item [1] #1) (item [1] (item [2] #1)) (update [3] #2 (item [1] (item [2] (item [2] #1))) (count (filter [4] {1} (equal #4 3))))) (item [2] (item [2] (item [2] #1))) (fun-of [3] {1} #3))) (seq-of) (seq-of <x <(count (filter [0] {1} (equal #0 1))) <(count (filter [0] {1} (equal #0 2))) (count (filter [0] {1} (equal #0 4)))>>>))) {})
x: Int -> Int | (in (lambda [i] {1} (except [1 1] x i 0 (add i 1) @)) {}) ==> (member (fun-of [0] {1} (first (fold-left [1 2] (push #1 (update [3] (update [3] (item [1] #2) (item [1] (item [2] #2)) 0) (item [2] (item [2] #2)) #3)) (seq-of) (seq-of <x <#0 (plus #0 1)>>)))) {})
x: Int -> Int; y: Int | (in (except [1 1] x y 0 y (apply (except [1 1] x y @ y @) 1)) {}) ==> (member (first (fold-left [0 1] (push #0 (update [2] (update [2] (item [1] #1) (item [1] (item [2] #1)) 0) (item [2] (item [2] #1)) (at (first (fold-left [3 4] (push #3 (update [5] (update [5] (item [1] #4) (item [1] (item [2] #4)) #5) (item [2] (item [2] #4)) #5)) (seq-of) (seq-of <x <y y>>))) 1))) (seq-of) (seq-of <x <y y>>))) {})"#;

// The types and the columns of their nodes.
pub(crate) const UPDATE_TYPES: &str =
    r#"x: {a: Seq(Int)} | (in (except [2] x "a" 1 (add @ 1)) {}) ==> (member:Bool (update:{a: Seq(Int)} [2] x:{a: Seq(Int)} "a":Str (update:Seq(Int) [3] #2:Seq(Int) 1:Int (plus:Int #3:Int 1:Int))) {:Set({a: Seq(Int)})})
x: Str -> Int -> Bool; y: Int | (in (except [2] x "a" y (not @)) {}) ==> (member:Bool (first:Str -> Int -> Bool (fold-left:Seq(Str -> Int -> Bool) [0 1] (push:Seq(Str -> Int -> Bool) #0:Seq(Str -> Int -> Bool) (update:Str -> Int -> Bool [2] (item:Str -> Int -> Bool [1] #1:<<Str -> Int -> Bool, <<Str, Int>>>>) "a":Str (update:Int -> Bool [3] #2:Int -> Bool (item:Int [2] (item:<<Str, Int>> [2] #1:<<Str -> Int -> Bool, <<Str, Int>>>>)) (not:Bool #3:Bool)))) (seq-of:Seq(Str -> Int -> Bool)) (seq-of:Seq(<<Str -> Int -> Bool, <<Str, Int>>>>) <:<<Str -> Int -> Bool, <<Str, Int>>>> x:Str -> Int -> Bool <:<<Str, Int>> "a":Str y:Int>>))) {:Set(Str -> Int -> Bool)})
x: Int -> Bool; y: Int; z: Int | (in (except [1 1] x y TRUE z @) {}) ==> (member:Bool (first:Int -> Bool (fold-left:Seq(Int -> Bool) [0 1] (push:Seq(Int -> Bool) #0:Seq(Int -> Bool) (update:Int -> Bool [2] (update:Int -> Bool [2] (item:Int -> Bool [1] #1:<<Int -> Bool, <<Int, Int>>>>) (item:Int [1] (item:<<Int, Int>> [2] #1:<<Int -> Bool, <<Int, Int>>>>)) TRUE:Bool) (item:Int [2] (item:<<Int, Int>> [2] #1:<<Int -> Bool, <<Int, Int>>>>)) #2:Bool)) (seq-of:Seq(Int -> Bool)) (seq-of:Seq(<<Int -> Bool, <<Int, Int>>>>) <:<<Int -> Bool, <<Int, Int>>>> x:Int -> Bool <:<<Int, Int>> y:Int z:Int>>))) {:Set(Int -> Bool)})"#;

pub(crate) const UPDATE_PLACES: &str =
    r#"x: {a: Seq(Int)} | (in (except:1 [2] x:2 "a":12 1:14 (add:21 @:19 1:23)) {}) ==> (member:0 (update:1 [2] x:2 "a":12 (update:1 [3] #2:1 1:14 (plus:21 #3:19 1:23))) {:0})
x: Int -> Int -> Int; y: Int; z: Int | (in (except:1 [2] x:2 y:12 z:15 @:20) {}) ==> (member:0 (first:1 (fold-left:1 [0 1] (push:1 #0:1 (update:1 [2] (item:2 [1] #1:2) (item:12 [1] (item:12 [2] #1:12)) (update:1 [3] #2:1 (item:15 [2] (item:15 [2] #1:15)) #3:20))) (seq-of:1) (seq-of:1 <:1 x:2 <:1 y:12 z:15>>))) {:0})
x: Int -> Int; y: Int | (in (except:1 [1 1] x:2 8:12 2:17 y:22 @:27) {}) ==> (member:0 (first:1 (fold-left:1 [0 1] (push:1 #0:1 (update:1 [2] (update:1 [2] (item:2 [1] #1:2) 8:12 2:17) (item:22 [2] (item:22 [2] #1:22)) #2:27)) (seq-of:1) (seq-of:1 <:1 x:2 <:1 8:12 y:22>>))) {:0})"#;
