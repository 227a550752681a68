// The types and the places of made nodes, in the form of `values`.

// Each node with its type.
pub(crate) const TYPES: &str =
    r#"x: Bool; y: Bool | (implies x y) ==> (not:Bool (and:Bool x:Bool (not:Bool y:Bool)))
x: Bool; y: Bool | (iff x y) ==> (first:Bool (fold-left:Seq(Bool) [0 1] (push:Seq(Bool) #0:Seq(Bool) (equal:Bool (not:Bool (item:Bool [1] #1:<<Bool, Bool>>)) (not:Bool (item:Bool [2] #1:<<Bool, Bool>>)))) (seq-of:Seq(Bool)) (seq-of:Seq(<<Bool, Bool>>) <:<<Bool, Bool>> x:Bool y:Bool>)))
x: Bool; y: Str | (in (case x y) {}) ==> (member:Bool (if:Str x:Bool y:Str (no-case:Str)) {:Set(Str)})
x: Int | (case (eq x 1) (eq x' 2)) TRUE ==> (or:Bool (and:Bool (not:Bool (not:Bool (equal:Bool x:Int 1:Int))) (equal:Bool x':Int 2:Int)) (and:Bool (not:Bool (equal:Bool x:Int 1:Int)) (no-case:Bool))) / TRUE:Bool
x: Int | (if (eq x 1) (eq x' 2) (eq x' 3)) TRUE ==> (if:Bool (not:Bool (not:Bool (equal:Bool x:Int 1:Int))) (equal:Bool x':Int 2:Int) (equal:Bool x':Int 3:Int)) / TRUE:Bool
x: Str; y: Set(Str) | (notin x y) ==> (not:Bool (member:Bool x:Str y:Set(Str)))
x: Int | (in (neg x) {}) ==> (member:Bool (minus:Int 0:Int x:Int) {:Set(Int)})
x: Int; y: Int | (le x y) ==> (not:Bool (less:Bool y:Int x:Int))
x: Int | (in (pow x 0) {}) ==> (member:Bool (first:Int (fold-left:Seq(Int) [0 1] (push:Seq(Int) #0:Seq(Int) (if:Int (less:Bool #1:Int #1:Int) 1:Int 1:Int)) (seq-of:Seq(Int)) (seq-of:Seq(Int) x:Int))) {:Set(Int)})
x: Int | (in (pow x 1) {}) ==> (member:Bool (first:Int (fold-left:Seq(Int) [0 1] (push:Seq(Int) #0:Seq(Int) (if:Int (less:Bool (times:Int 1:Int #1:Int) #1:Int) #1:Int #1:Int)) (seq-of:Seq(Int)) (seq-of:Seq(Int) x:Int))) {:Set(Int)})
x: Set(Str) | (finite x) ==> (every:Bool [0] x:Set(Str) TRUE:Bool)
(in (boolean) {}) ==> (member:Bool {:Set(Bool) FALSE:Bool TRUE:Bool} {:Set(Set(Bool))})
(in (single "s" 1) {}) ==> (member:Bool (first:Str -> Int (fold-left:Seq(Str -> Int) [0 1] (push:Seq(Str -> Int) #0:Seq(Str -> Int) (fun-of:Str -> Int [2] {:Set(Str) (item:Str [1] #1:<<Str, Int>>)} (item:Int [2] #1:<<Str, Int>>))) (seq-of:Seq(Str -> Int)) (seq-of:Seq(<<Str, Int>>) <:<<Str, Int>> "s":Str 1:Int>))) {:Set(Str -> Int)})
x: <<Int, Int, Int, Int, Int, Int, Int, Str>> | (in (apply x 8) {}) ==> (member:Bool (first:Str (fold-left:Seq(Str) [0 1] (push:Seq(Str) #0:Seq(Str) (item:Str [8] (item:<<Int, Int, Int, Int, Int, Int, Int, Str>> [1] #1:<<<<Int, Int, Int, Int, Int, Int, Int, Str>>, Int>>))) (seq-of:Seq(Str)) (seq-of:Seq(<<<<Int, Int, Int, Int, Int, Int, Int, Str>>, Int>>) <:<<<<Int, Int, Int, Int, Int, Int, Int, Str>>, Int>> x:<<Int, Int, Int, Int, Int, Int, Int, Str>> 8:Int>))) {:Set(Str)})
x: {f: Int, g: Str} | (in (apply x "g") {}) ==> (member:Bool (field-of:Str [g] x:{f: Int, g: Str}) {:Set(Str)})
x: <<Int, Str>> | (in (domain x) {}) ==> (member:Bool (domain:Set(Int) x:<<Int, Str>>) {:Set(Set(Int))})
x: Seq(Str) | (eq x <"s">) ==> (equal:Bool x:Seq(Str) (seq-of:Seq(Str) "s":Str))
(in "1_OF_P" {}) ==> (member:Bool "1_OF_P":P {:Set(P)})
(in (fold [a b] (if b a "s") "t" <TRUE>) {}) ==> (member:Bool (fold-left:Str [0 1] (if:Str #1:Bool #0:Str "s":Str) "t":Str (seq-of:Seq(Bool) TRUE:Bool)) {:Set(Str)})
x: Int -> Bool | (in (noted [0 Int -> Bool] x) {}) ==> (member:Bool x:Int -> Bool {:Set(Int -> Bool)})"#;

// Each node with its column.
pub(crate) const PLACES: &str =
    r#"x: Bool; y: Bool | (implies:3 x:1 y:6) ==> (not:3 (and:3 x:1 (not:3 y:6)))
x: Bool; y: Bool | (iff:3 x:1 y:7) ==> (first:3 (fold-left:3 [0 1] (push:3 #0:3 (equal:3 (not:3 (item:1 [1] #1:1)) (not:3 (item:7 [2] #1:7)))) (seq-of:3) (seq-of:3 <:3 x:1 y:7>)))
x: Int; y: Int | (ne:3 x:1 y:5) ==> (not:3 (equal:3 x:1 y:5))
x: Int; y: Set(Int) | (notin:3 x:1 y:10) ==> (not:3 (member:3 x:1 y:10))
x: Int; y: Int | (gt:3 x:1 y:5) ==> (less:3 y:5 x:1)
x: Int; y: Int | (le:3 x:1 y:6) ==> (not:3 (less:3 y:6 x:1))
x: Int; y: Int | (ge:3 x:1 y:6) ==> (not:3 (less:3 x:1 y:6))
x: Int | (in (neg:1 x:2) {}) ==> (member:0 (minus:1 0:1 x:2) {:0})
x: Int | (in (pow:2 x:1 0:3) {}) ==> (member:0 (first:2 (fold-left:2 [0 1] (push:2 #0:2 (if:2 (less:2 #1:1 #1:1) 1:2 1:2)) (seq-of:2) (seq-of:2 x:1))) {:0})
x: Int | (in (pow:2 x:1 1:3) {}) ==> (member:0 (first:2 (fold-left:2 [0 1] (push:2 #0:2 (if:2 (less:2 (times:2 1:2 #1:1) #1:1) #1:1 #1:1)) (seq-of:2) (seq-of:2 x:1))) {:0})
x: Int | (in (pow:2 x:1 3:3) {}) ==> (member:0 (first:2 (fold-left:2 [0 1] (push:2 #0:2 (times:2 (times:2 #1:1 #1:1) #1:1)) (seq-of:2) (seq-of:2 x:1))) {:0})
x: Set(Int) | (finite:1 x:13) ==> (every:1 [0] x:13 TRUE:1)
(in (boolean:4) {}) ==> (member:0 {:4 FALSE:4 TRUE:4} {:0})
x: Int; y: Int | (in (single:3 x:1 y:6) {}) ==> (member:0 (first:3 (fold-left:3 [0 1] (push:3 #0:3 (fun-of:3 [2] {:3 (item:1 [1] #1:1)} (item:6 [2] #1:6))) (seq-of:3) (seq-of:3 <:3 x:1 y:6>))) {:0})
x: <<Int, Int, Int, Int, Int, Int, Int, Str>> | (in (apply:2 x:1 8:3) {}) ==> (member:0 (first:2 (fold-left:2 [0 1] (push:2 #0:2 (item:2 [8] (item:1 [1] #1:1))) (seq-of:2) (seq-of:2 <:2 x:1 8:3>))) {:0})
x: <<Int, Str>> | (in (apply:2 x:1 2:3) {}) ==> (member:0 (item:2 [2] x:1) {:0})
x: Bool | (noted:1 [0 Bool] (not:9 x:10)) ==> (not:9 x:10)
x: Bool; y: Bool | (in (case:1 x:6 1:11 y:16 2:21) {}) ==> (member:0 (if:1 x:6 1:11 (if:1 y:16 2:21 (no-case:1))) {:0})
x: Bool; y: Bool | (in (case-other:1 x:6 1:11 y:16 2:21 3:30) {}) ==> (member:0 (if:1 x:6 1:11 (if:1 y:16 2:21 3:30)) {:0})
x: Int | (if:1 (eq:6 x:4 1:8) (eq:15 x':12 2:17) (eq:25 x':22 3:27)) TRUE:60 ==> (if:1 (not:1 (not:1 (equal:6 x:4 1:8))) (equal:15 x':12 2:17) (equal:25 x':22 3:27)) / TRUE:60
x: Int | (case:1 (eq:8 x:6 1:10) (eq:16 x':13 2:18)) TRUE:60 ==> (or:1 (and:16 (not:1 (not:1 (equal:8 x:6 1:10))) (equal:16 x':13 2:18)) (and:1 (not:1 (equal:8 x:6 1:10)) (no-case:1))) / TRUE:60
x: Int | (case-other:1 (eq:8 x:6 1:10) (eq:16 x':13 2:18) (lt:25 x:23 3:27) (eq:33 x':30 4:35) (eq:49 x':46 5:51)) TRUE:60 ==> (or:1 (and:16 (not:1 (not:1 (equal:8 x:6 1:10))) (equal:16 x':13 2:18)) (and:33 (not:1 (equal:8 x:6 1:10)) (not:1 (not:1 (less:25 x:23 3:27))) (equal:33 x':30 4:35)) (and:49 (not:1 (equal:8 x:6 1:10)) (not:1 (less:25 x:23 3:27)) (equal:49 x':46 5:51))) / TRUE:60"#;
