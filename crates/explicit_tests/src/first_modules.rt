// Small modules, written by bench/modules.py. How they are read stands in `records`.

pub(crate) const FIRST: &str = r##"8 4
x Set(Int) ; SUBSET (0..2)
Init == x \in SUBSET (0..2)
Next == \/ UNCHANGED x
        \/ UNCHANGED <<x>>
Inv == (x # {2}) \/ ((Cardinality(x) * Cardinality(x)) > 2)
>4 4
x Int ; 0..3
Init == x = (1 % 4)
Next == \/ x' = ((4 % 3) % 4)
        \/ (x <= 3) /\ (x' = ((x + 1) % 4) \/ x' = (2 % 4))
        \/ (IF (x < x) THEN x' = ((x + 1) % 4) ELSE x' = ((x + 1) % 4))
        \/ (x \in 1..2) /\ x' \in {(x % 4), ((x + 1) % 4)} /\ (x <= x')
        \/ x' \in {(x % 4), 3}
Inv == ~(x = 1)
>8 4
x {a: Int, b: Bool} ; [a: 0..1, b: BOOLEAN]
Init == x = [a |-> 1, b |-> FALSE]
Next == \/ (x' = [x EXCEPT !.a = 1 - @, !.b = ~@] \/ x' = [x EXCEPT !.a = 1])
        \/ x' = [x EXCEPT !.b = (x = [a |-> 0, b |-> TRUE])]
        \/ x' = [x EXCEPT !.a = 1 - @, !.b = ~@]
        \/ ((1 \div x.a) < x.a) /\ UNCHANGED x
Inv == (x # [a |-> 1, b |-> TRUE]) \/ ((3 + x.a) < 0)
>4 4
x Int ; 0..1
y Set(Int) ; SUBSET (0..1)
Init == y \in SUBSET (0..1) /\ x = (1 % 2)
Next == x' \in {i4 \in 0..1: (Cardinality(y) < 1)} /\ UNCHANGED y
Inv == (x # 0) \/ ((x + 6) < 3)
>32 4
x Int -> Int ; [1..2 -> 0..1]
y Set(Int) ; SUBSET (0..1)
Init == x = [i92 \in 1..2 |-> 1] /\ y = {1}
Next == \/ y' \in SUBSET (0..1) /\ (Cardinality(y) > x[1]) /\ UNCHANGED x
        \/ y' = (y \cup {1}) /\ x' = [i7 \in 1..2 |-> (i7 % 2)] /\ ((x[1] = x[2]) /\ (x[1] = x[2]))
        \/ ((2 * Cardinality(y)) \in y) /\ UNCHANGED x /\ y' = (0..1 \ y)
Inv == ((x[1] = x[2]) \/ (x[1] = x[2])) \/ ((3 + x[2]) > 0) \/ y = {0}
>8 4
x Int ; 0..4
Init == x = 4
Next == \/ (IF ((x > 2) \/ (x # 2)) THEN x' = ((x + 1) % 5) ELSE x' = ((x + 1) % 5))
        \/ UNCHANGED x
Inv == ~(x = 1)
>8 3
x Int ; 0..4
Init == x = 3
Next == \/ ~(x # 0) /\ UNCHANGED x /\ (x \in 1..2)
        \/ (IF ((x * 2) # x) THEN x' = ((x + 1) % 5) ELSE x' = (2 % 5))
        \/ (\E i3 \in {0, 2}: (\E i4 \in 0..1: (i4 # 0)) /\ x' = (CASE (x # 1) -> x [] OTHER -> 3))
        \/ (LET i5 == (x * 4) IN x' = x)
Inv == x # 2
>8 4
x Int ; 0..3
y Str ; {"p", "q", "r"}
Init == x \in {i2 \in 0..3: (i2 < 0)} /\ y = "q"
Next == y' = y /\ x' = ((x + 1) % 4)
Inv == (y # "p") \/ ((x + 2) < 2)
>4 4
x Str ; {"p", "q", "r"}
Init == x = "p"
Next == \/ x' = (CASE (x # "q") -> x [] (\A i2 \in 0..1: (x = "r")) -> "r")
        \/ x' \in {"r", (IF (x # "p") THEN x ELSE "q")}
Inv == (x = "r") => (x # "q")
>4 3
x Str ; {"p", "q", "r"}
Init == x = "q"
Next == x' = x
Inv == ~(x = "q")
>8 4
x Int ; 0..4
Init == x = ((2 * 2) % 5)
Next == \/ (x' = (x % 5) \/ x' = ((x + 1) % 5))
        \/ (x' = (x % 5) \/ x' = (x \div 2))
        \/ x' = (2 % 5)
Inv == ((x + x) # 1)
>8 3
x Bool ; BOOLEAN
y Int ; 0..3
Init == x = FALSE /\ y = 0
Next == (y # 1) /\ x' \in {(\A i2 \in 0..1: (x))} /\ (x) /\ y' = 0
Inv == (x = TRUE) => ((2 + y) < 2)
>4 3
x Set(Int) ; SUBSET (0..2)
Init == x = {2}
Next == (CASE (Cardinality(x) >= 0) -> x' = {i2 \in 0..2: (i2 <= 3)} [] OTHER -> UNCHANGED x)
Inv == (Cardinality(x) \notin x) \/ (2 \in x) \/ x = {0}
>4 4
x Str ; {"p", "q", "r"}
Init == x = "q"
Next == \/ x' = (IF (x # "r") THEN (IF (x = "r") THEN x ELSE "q") ELSE "q")
        \/ UNCHANGED x /\ ((x' = "p") \/ (x # "r"))
Inv == (x = "p") => (\A i3 \in 1..2: (x # "q"))
>32 4
x Int ; 0..2
Init == x = 2
Next == (x \in {0, 2}) /\ (CASE (x > 1) -> x' = (0 \div 2) [] (x = 2) -> UNCHANGED x)
Inv == ~(x = 1)
>4 3
x Int ; 0..1
y Int ; 0..4
Init == x = ((IF TRUE THEN 1 ELSE 0) \div 2) /\ (y = (1 % 5) \/ y = 0)
Next == \/ x' = ((0 + x) % 2) /\ ((y + 4) < x') /\ y' = ((y + 1) % 5)
        \/ x' = (1 - (0 \div 2)) /\ (\E i6 \in {0, 2}: (i6 > y) /\ y' = y)
Inv == (y # 3) \/ ((x + x) > 1)
>4 4
x Int ; 0..2
Init == x = 1
Next == \/ (\E i1 \in 1..2: x' = x)
        \/ (x \in 0..1) /\ (\E i2 \in 1..2: x' = ((x + x) % 3))
        \/ (x' = (IF (x < 4) THEN x ELSE x) \/ x' = 0) /\ ((x <= 1) \/ (x' < x))
Inv == x # 0
>4 4
x Int ; 0..2
y Int ; 0..2
Init == (x = (2 - 0) \/ x = (1 \div 2)) /\ ((x + 6) # 1) /\ (y = (0 \div 2) \/ y = ((x + 1) % 3))
Next == \/ ((x + 4) # 2) /\ y' \in {x, (1 % 3)} /\ (\A i5 \in 0..1: (y' > 1)) /\ UNCHANGED x
        \/ (y = 1) /\ UNCHANGED x /\ (~(x' >= 2) \/ (x = 0)) /\ (\E i8 \in 0..1: y' = x')
Inv == (x = 2) => (\E i9 \in 1..2: (y > 3))
>8 4
x {a: Int, b: Bool} ; [a: 0..1, b: BOOLEAN]
Init == x = [a |-> 1, b |-> TRUE]
Next == \/ x' = [x EXCEPT !.a = 1]
        \/ (x.a \in 1..2) /\ x' = [a |-> (IF (x.b) THEN 0 ELSE 1), b |-> (x.a >= 4)]
        \/ x' = [x EXCEPT !.a = 1 - @, !.b = ~@]
        \/ (x' = [x EXCEPT !.a = 1 - @, !.b = ~@] \/ x' = [a |-> 0, b |-> (x.b)])
        \/ UNCHANGED <<x>>
Inv == (x # [a |-> 1, b |-> FALSE]) \/ ((x.a + 0) # 3)
>8 4
x Int ; 0..2
y Str ; {"p", "q", "r"}
Init == y = "q" /\ (x = (2 - 0) \/ x = (0 % 3))
Next == ~(x \in 0..1) /\ UNCHANGED y /\ x' = x
Inv == (y # "r") \/ ((IF (x < 2) THEN x ELSE 3) > 0)
>8 2
x Str ; {"p", "q", "r"}
y Int -> Int ; [1..2 -> 0..2]
Init == x = "r" /\ y = [i92 \in 1..2 |-> 2]
Next == \/ (\A i3 \in {0, 2}: (x # "q")) /\ y' = [y EXCEPT ![2] = 2] /\ UNCHANGED x
        \/ UNCHANGED <<x, y>>
Inv == (y # [i98 \in 1..2 |-> i98 - 1]) \/ (y[2] < 0)
>4 4
x Int ; 0..3
Init == x = 0
Next == ((4 % x) # 0) /\ (IF (x # x) THEN x' = (1 % 4) ELSE x' = (x \div 2))
Inv == (x = 2) => ((x \in 1..2) <=> ((1 % 0) >= 2))
>4 3
x Int ; 0..4
Init == x = 2
Next == \/ (x > 4) /\ (IF (x > x) THEN x' = (x % 5) ELSE x' = (4 - x))
        \/ x' \in {x, (0 \div 2)}
        \/ (LET i4 == (x * 3) IN x' = (IF (i4 > 1) THEN 0 ELSE x))
        \/ UNCHANGED <<x>>
Inv == (x = 1) => (x \in 0..1)
>8 3
x Int ; 0..4
Init == x = 3
Next == ((x > 1) /\ (x # 2)) /\ (\E i1 \in 1..2: x' = ((x + 1) % 5))
Inv == (x = 4) => (((IF (x < 1) THEN x ELSE x) + 0) > 3)
>4 3
x Str ; {"p", "q", "r"}
Init == x = "q"
Next == \/ x' \in {"p", (IF (x # "p") THEN "r" ELSE x)}
        \/ x' = (IF (x # "r") THEN x ELSE "r")
Inv == (x # "r") \/ ((0 + 3) < 3)
>8 3
x Int -> Int ; [1..2 -> 0..1]
y Seq(Int) ; {<<>>, <<0>>, <<1>>, <<0, 0>>, <<0, 1>>, <<1, 0>>, <<1, 1>>}
Init == x = [i97 \in 1..2 |-> 0] /\ y = <<>>
Next == \/ UNCHANGED x /\ UNCHANGED y
        \/ y' = <<1>> /\ (LET i4 == Len(y) IN x' = [i5 \in DOMAIN x |-> x[3 - i5]])
Inv == (x = [i84 \in 1..2 |-> 1]) => (Head(y) < 4)
>4 3
x Set(Int) ; SUBSET (0..2)
Init == x = {0}
Next == \/ x' = {2}
        \/ (\E i3 \in 0..1: x' = {(i4 + 1) % 3: i4 \in x}) /\ ~(Cardinality(x) = Cardinality(x))
        \/ (x = {1, 2}) /\ x' = {0}
Inv == (x # {2}) \/ ((Cardinality(x) - 0) < 1)
>8 4
x Seq(Int) ; {<<>>, <<0>>, <<1>>, <<0, 0>>, <<0, 1>>, <<1, 0>>, <<1, 1>>}
Init == x = <<>>
Next == \/ (Head(x) \in {0, 2}) /\ x' = <<(1 \div 2), (x[2] % 2)>>
        \/ UNCHANGED <<x>>
Inv == (x # <<0, 1>>) \/ ((3 % 2) > 1)
>8 4
x Seq(Int) ; {<<>>, <<0>>, <<1>>, <<0, 0>>, <<0, 1>>, <<1, 0>>, <<1, 1>>}
Init == x = <<1>>
Next == (x' = (IF (x # <<>>) THEN x ELSE <<1, 1>>) \/ x' = <<1>>)
Inv == (x # <<0>>) \/ ((Len(x) * Len(x)) < 1)
>32 3
x Int ; 0..2
Init == x = 0
Next == \/ (x' = ((x + 1) % 3) \/ x' = (IF (x = 1) THEN x ELSE 2))
        \/ UNCHANGED x
        \/ x' = (CASE ~(x >= 0) -> ((x + 1) % 3) [] OTHER -> 0)
Inv == (x # 0) \/ (x # 0) \/ x = 2
>4 3
x Str ; {"p", "q", "r"}
Init == x = "q"
Next == (\E i1 \in 0..1: (\A i2 \in 0..1: (x = "q")) /\ x' = (IF (x # "q") THEN x ELSE "p"))
Inv == (x # "r") \/ ((IF (x = "q") THEN 3 ELSE 2) < 0)
>8 4
x Str ; {"p", "q", "r"}
Init == x = "q"
Next == \/ (x = "r") /\ x' \in {"p", "q", "r"}
        \/ (LET i3 == 3 IN x' = (IF (x # "p") THEN "r" ELSE "p")) /\ ((x' # "p") => (x' # "p"))
        \/ (x = "p") /\ UNCHANGED x
Inv == (x = "p") => (x = "p")
>8 3
x Set(Int) ; SUBSET (0..1)
y Str ; {"p", "q", "r"}
Init == x = {0, 1} /\ y = "r"
Next == y' = "q" /\ (\E i2 \in {0, 2}: ((y' = "p") /\ (y' = "r"))) /\ UNCHANGED x
Inv == (Cardinality(x) = Cardinality(x)) \/ (Cardinality(x) # 3) \/ y = "p"
>4 4
x Seq(Int) ; {<<>>, <<0>>, <<1>>, <<0, 0>>, <<0, 1>>, <<1, 0>>, <<1, 1>>}
Init == (x = <<0, 1>> \/ x = <<1, 1>>)
Next == \/ UNCHANGED x
        \/ UNCHANGED <<x>>
Inv == ~(x = <<>>)
>32 3
x Str ; {"p", "q", "r"}
y Int ; 0..1
Init == x = "q" /\ y = 0
Next == UNCHANGED y /\ ((y' = 0) \/ (x # "p")) /\ x' = x /\ (\E i3 \in {0, 2}: (x # "p"))
Inv == (y # 1) \/ (3 > 3)
>4 3
x Set(Int) ; SUBSET (0..2)
Init == x = {2}
Next == \/ (LET i1 == (Cardinality(x) + 6) IN x' = (0..2 \ x))
        \/ x' \in {{2}, (x \cup {2})}
        \/ UNCHANGED <<x>>
Inv == ~(x = {})
>8 3
x Set(Int) ; SUBSET (0..1)
Init == x = {0}
Next == UNCHANGED x
Inv == (x = {1}) => ((Cardinality(x) # 2) \/ (Cardinality(x) <= 4))
>32 3
x Seq(Int) ; {<<>>, <<0>>, <<1>>, <<0, 0>>, <<0, 1>>, <<1, 0>>, <<1, 1>>}
Init == x = <<1, 1>>
Next == \/ ((x = <<1, 1>>) \/ (x # <<1>>)) /\ x' \in {(IF (x = <<>>) THEN x ELSE <<0>>), <<>>}
        \/ x' = SubSeq(x, 1, 1)
Inv == (x # <<1, 1>>) \/ ((3 + x[2]) # 2)
>4 3
x {a: Int, b: Bool} ; [a: 0..1, b: BOOLEAN]
y {a: Int, b: Bool} ; [a: 0..1, b: BOOLEAN]
Init == x = [a |-> 0, b |-> TRUE] /\ y = [a |-> 0, b |-> TRUE]
Next == y' = [y EXCEPT !.b = ((y.a * 5) = x.a)] /\ UNCHANGED x
Inv == (x = [a |-> 1, b |-> FALSE]) => ((y.a + 7) >= 3)
>4 4
x Set(Int) ; SUBSET (0..2)
Init == x = {0, 1}
Next == \/ (CASE (Cardinality(x) >= 1) -> x' = {(i2 + 1) % 3: i2 \in x} [] OTHER -> UNCHANGED x)
        \/ x' = {0, 1}
Inv == (x = {}) => ((Cardinality(x) * 4) = 0)
>8 4
x Int ; 0..1
y Str ; {"p", "q", "r"}
Init == y \in {"q", "p"} /\ (x = (1 - 0) \/ x = (0 % 2))
Next == \/ UNCHANGED y /\ (x \in 1..2) /\ (\E i4 \in {0, 2}: x' = ((i4 + i4) % 2))
        \/ (LET i5 == (x * 4) IN y' = "q") /\ x' = 0
Inv == (\A i7 \in 0..1: (x > x)) \/ (y # "p") \/ x = 0
>4 3
x Int ; 0..2
y Int ; 0..3
Init == x = 2 /\ y = 3
Next == \/ x' \in {i2 \in 0..2: (x = 4)} /\ y' \in {x, (3 % 4)}
        \/ UNCHANGED <<x, y>>
Inv == (\A i5 \in 0..1: (x < i5)) \/ (y >= 1) \/ y = 0
>4 4
x Str ; {"p", "q", "r"}
Init == x = "p"
Next == \/ ~(x # "q") /\ x' = x
        \/ (x = "r") /\ (LET i2 == (0 * 2) IN x' = (IF (x = "p") THEN x ELSE "p"))
        \/ (x' = (CASE (x # "q") -> x [] (x = "r") -> "p") \/ x' = "p")
Inv == (x # "q")
>4 4
x Int ; 0..2
y Int ; 0..1
Init == x = 2 /\ y = 0
Next == \/ (CASE (x >= 4) -> y' = (y % 2) [] (x >= 2) -> UNCHANGED y) /\ x' = ((y' + 1) % 3)
        \/ (y # 0) /\ UNCHANGED x /\ UNCHANGED y
        \/ ((y # 0) <=> (x <= 4)) /\ UNCHANGED x /\ (\E i6 \in 1..2: y' = (1 - ((y + 1) % 2)))
Inv == ((x * 3) > 0)
>8 4
x Int ; 0..2
Init == x = 0
Next == \/ (x < 1) /\ (\E i1 \in 1..2: x' = i1) /\ ((x' = x') /\ (x' <= 4))
        \/ UNCHANGED <<x>>
Inv == (\E i2 \in 1..2: (i2 = i2)) \/ ((x > x) <=> (x > 0)) \/ x = 2
>8 3
x Int ; 0..1
y Int ; 0..4
Init == x = (1 % 2) /\ y = 3
Next == (\A i3 \in 0..1: ((x # x) <=> (y <= 4))) /\ (y' = 0 \/ y' = 2) /\ UNCHANGED x
Inv == ~~(x <= 1)
>4 4
x Seq(Int) ; {<<>>, <<0>>, <<1>>, <<0, 0>>, <<0, 1>>, <<1, 0>>, <<1, 1>>}
Init == x = <<0, 1>>
Next == UNCHANGED x
Inv == (x # <<>>) \/ ((IF (x = <<1, 1>>) THEN x[Len(x)] ELSE 2) # 1)
>4 4
x Bool ; BOOLEAN
y Bool ; BOOLEAN
Init == x = FALSE /\ y = FALSE
Next == \/ (x) /\ x' = ~((x) /\ (x)) /\ y' = ((3 * 2) >= 0)
        \/ (\E i3 \in 0..1: ((y) \/ (y)) /\ x' = (x)) /\ y' \in BOOLEAN
        \/ (0 <= 0) /\ x' = (((3 + 1) + 0) > 2) /\ UNCHANGED y
        \/ (y' = (\E i9 \in {0, 2}: (y)) \/ y' = (x)) /\ x' = (y)
        \/ UNCHANGED <<x, y>>
Inv == (y # TRUE) \/ ((2 * 1) # 1)
>4 3
x Int ; 0..4
y Int ; 0..1
Init == x = 3 /\ y = 0
Next == (x \in 0..1) /\ (LET i1 == (1 \div y) IN x' = ((x + 1) % 5)) /\ (y' = (0 \div 2) \/ y' = y)
Inv == (x \in 0..1)
>4 3
x Int -> Int ; [1..2 -> 0..1]
Init == x = [i82 \in 1..2 |-> i82 - 1]
Next == \/ ~~(x[1] <= 3) /\ x' = [x EXCEPT ![1] = (x[2] % 2)]
        \/ (\E i3 \in {0, 2}: ((x[1] # 4) <=> (i3 <= 0)) /\ x' = [x EXCEPT ![2] = 0])
        \/ UNCHANGED x
Inv == (x # [i87 \in 1..2 |-> 0]) \/ ((x[1] - x[1]) < 2)
>4 3
x Seq(Int) ; {<<>>, <<0>>, <<1>>, <<0, 0>>, <<0, 1>>, <<1, 0>>, <<1, 1>>}
Init == x = <<1>>
Next == \/ (\E i1 \in {0, 2}: (x = <<1, 1>>)) /\ UNCHANGED x
        \/ x' \in {<<1>>, <<>>}
        \/ x' = <<(2 % 2)>>
        \/ (x' = (IF x = <<>> THEN <<0, 1>> ELSE SubSeq(x, 2, Len(x))) \/ x' = <<0, (3 % 2)>>)
Inv == ((Len(x) \in {0, 2}) /\ (x = <<0, 1>>))
>8 4
x Str ; {"p", "q", "r"}
Init == x = "p"
Next == \/ x' = (CASE (x = "p") -> (IF (x # "p") THEN "r" ELSE "q") [] (x # "q") -> "r")
        \/ ((\A i2 \in {0, 2}: (x # "r")) \/ (x = "r")) /\ UNCHANGED x
Inv == ~(x = "q")
>8 3
x Int ; 0..3
Init == x = 1
Next == \/ (x \in 1..2) /\ (CASE ~(x < x) -> x' = (1 % 4) [] OTHER -> UNCHANGED x)
        \/ (x \in {0, 2}) /\ UNCHANGED x
Inv == (x # 3) \/ ((0 * x) > 3)
>4 3
x Bool ; BOOLEAN
y Bool ; BOOLEAN
Init == x = (3 # 4) /\ y = (1 > 2)
Next == \/ ((y) => (x)) /\ x' = (x) /\ UNCHANGED y
        \/ ~((y) <=> (x)) /\ y' \in BOOLEAN /\ UNCHANGED x
Inv == (y = TRUE) => (x)
>8 3
x Bool ; BOOLEAN
y Str ; {"p", "q", "r"}
Init == x = TRUE /\ y = "p"
Next == UNCHANGED y /\ x' = (y # "r") /\ ~(x)
Inv == (x = FALSE) => (y = "r")
>8 3
x Str ; {"p", "q", "r"}
Init == x = "r"
Next == \/ (CASE (x # "p") -> x' = "r" [] (x = "p") -> UNCHANGED x)
        \/ (LET i2 == 1 IN x' = "q")
Inv == (x # "q") \/ ((1 * 3) > 3)
>8 3
x Int ; 0..3
y Bool ; BOOLEAN
Init == x = 3 /\ y = FALSE
Next == \/ x' = ((x + 1) % 4) /\ UNCHANGED y
        \/ (\E i3 \in 1..2: x' = (3 - i3)) /\ UNCHANGED y /\ (y')
        \/ x' \in 0..3 /\ UNCHANGED y
Inv == ~(x = 0 /\ y = TRUE)
>8 3
x {a: Int, b: Bool} ; [a: 0..1, b: BOOLEAN]
Init == x = [a |-> 1, b |-> TRUE]
Next == \/ UNCHANGED x
        \/ x' = [x EXCEPT !.a = (x.a % 2)] /\ ((x.b) \/ (x.a > 3))
        \/ x' \in {[a |-> 0, b |-> (x.a # 0)], [a |-> 1, b |-> FALSE]}
Inv == (x = [a |-> 0, b |-> FALSE]) => ((3 + 2) = 4)
>8 2
x Set(Int) ; SUBSET (0..2)
y Int ; 0..4
Init == x = {0} /\ y = 1
Next == \/ y' = y /\ UNCHANGED x
        \/ x' = (0..2 \ x) /\ y' \in 0..4
        \/ UNCHANGED <<x, y>>
Inv == (y = 2) => (y > 3)
>32 4
x Str ; {"p", "q", "r"}
Init == x = "r"
Next == \/ (\E i1 \in {0, 2}: ((4 % i1) >= i1) /\ x' = (IF (x # "q") THEN "q" ELSE "q"))
        \/ UNCHANGED x
        \/ UNCHANGED <<x>>
Inv == (x # "p") \/ ((4 \div 0) > 0)
>4 3
x Str ; {"p", "q", "r"}
Init == x = (IF (0 \in {0, 2}) THEN "p" ELSE "r")
Next == \/ (2 > 3) /\ UNCHANGED x
        \/ (x # "q") /\ (CASE (x # "q") -> x' = "r" [] (x # "r") -> UNCHANGED x)
        \/ (CASE (x = "q") -> x' = "p" [] (x = "p") -> UNCHANGED x)
        \/ (x = "p") /\ (LET i5 == (2 - 1) IN x' = (IF (x = "r") THEN "q" ELSE x))
Inv == (x # "q") \/ ((0 + 2) < 2)
>8 3
x Str ; {"p", "q", "r"}
y Seq(Int) ; {<<>>, <<0>>, <<1>>, <<0, 0>>, <<0, 1>>, <<1, 0>>, <<1, 1>>}
Init == (x = "p" \/ x = (IF FALSE THEN "q" ELSE "r")) /\ y = <<1, 1>>
Next == x' \in {"p", "q", "r"} /\ y' = <<(0 % 2)>>
Inv == (y = <<1>>) => ~(y = <<1, 1>>)
>4 4
x Int ; 0..2
Init == x = 0
Next == \/ (IF ~(x > x) THEN x' = x ELSE x' = (2 - 2))
        \/ ((x * x) <= 3) /\ (x' = ((x + 1) % 3) \/ x' = 1)
        \/ (LET i3 == (x + 6) IN x' = (2 % 3))
        \/ UNCHANGED <<x>>
Inv == ~(x = 2)
>8 3
x Int ; 0..2
Init == x \in {(2 % 3), 0}
Next == \/ x' = (x % 3)
        \/ UNCHANGED x
        \/ (\E i5 \in 1..2: (\A i6 \in {0, 2}: (x >= 3)) /\ x' = ((i5 + 1) % 3))
        \/ (IF (\A i8 \in {0, 2}: (i8 = 2)) THEN x' = ((x + 1) % 3) ELSE x' = (x % 3))
        \/ ((x < 1) => (x <= 1)) /\ x' \in 0..1
Inv == (x = 2) => ((x > 1) \/ (x # x))
>32 4
x Bool ; BOOLEAN
y {a: Int, b: Bool} ; [a: 0..1, b: BOOLEAN]
Init == x = TRUE /\ y = [a |-> 1, b |-> TRUE]
Next == \/ (CASE (y.b) -> x' = ((y.a - y.a) # 2) [] (x) -> UNCHANGED x) /\ UNCHANGED y
        \/ (\E i3 \in 1..2: (y = [a |-> 0, b |-> FALSE]) /\ x' = ~(x)) /\ UNCHANGED y
        \/ UNCHANGED <<x, y>>
Inv == x # FALSE
>32 3
x Int ; 0..3
Init == x = 1
Next == \/ x' \in {i2 \in 0..3: (x \in {0, 2})}
        \/ ((x # 0) \/ (x < x)) /\ x' = (IF (x \in {0, 2}) THEN 0 ELSE ((x + 1) % 4))
        \/ (LET i4 == (6 \div 2) IN x' = (3 - 3))
        \/ (\E i5 \in {0, 2}: x' = 0)
        \/ (IF ((2 % x) > 2) THEN x' = x ELSE x' = (IF (x >= x) THEN 2 ELSE x))
Inv == (x # 0) \/ ((x * x) > 1)
>4 4
x Str ; {"p", "q", "r"}
Init == x = "q"
Next == \/ (x = "q") /\ UNCHANGED x
        \/ x' = (IF (x # "q") THEN "q" ELSE x) /\ (x = "q")
        \/ UNCHANGED <<x>>
Inv == (x = "r") \/ (\E i3 \in 1..2: (x # "p")) \/ x = "r"
>32 4
x Seq(Int) ; {<<>>, <<0>>, <<1>>, <<0, 0>>, <<0, 1>>, <<1, 0>>, <<1, 1>>}
Init == x = <<0>>
Next == \/ x' = SubSeq(x, 1, 1)
        \/ x' \in {(IF x = <<>> THEN <<0, 1>> ELSE Tail(x)), <<1, 1>>}
        \/ UNCHANGED x
Inv == (x # <<0, 1>>) \/ ((1 \div Head(x)) < 0)
>32 3
x Int ; 0..3
Init == x = (IF (TRUE /\ TRUE) THEN (IF TRUE THEN 3 ELSE 2) ELSE 0)
Next == \/ x' = 0 /\ (x >= 2)
        \/ (\E i3 \in 1..2: (\E i4 \in 1..2: (i4 <= x))) /\ x' = 2
        \/ UNCHANGED <<x>>
Inv == (x # 3) \/ ((1 \div x) # 2)
>4 2
x Set(Int) ; SUBSET (0..1)
y Set(Int) ; SUBSET (0..2)
Init == (y = {} \/ y = {0}) /\ x = {} /\ (Cardinality(x) <= 3)
Next == \/ y' \in SUBSET (0..2) /\ ((Cardinality(x) * 3) \in y') /\ x' \in {{0, 1}, (x \cup {0})}
        \/ UNCHANGED <<x, y>>
Inv == (y = {2}) => ((Cardinality(x) = 0) => (Cardinality(y) \in y))
>8 3
x Set(Int) ; SUBSET (0..1)
Init == x = {1}
Next == \/ x' \in {{}, (IF (Cardinality(x) > Cardinality(x)) THEN x ELSE x)}
        \/ (\E i3 \in {0, 2}: (\A i4 \in {0, 2}: (i4 <= 4)) /\ x' = (x \cap x))
        \/ x' = (CASE (\A i8 \in 1..2: (i8 > 1)) -> (x \cup {1}) [] OTHER -> {1})
        \/ (x' = {0} \/ x' = {(i12 + 1) % 2: i12 \in x})
        \/ UNCHANGED <<x>>
Inv == (x # {}) \/ ((Cardinality(x) - Cardinality(x)) # 0)
>8 3
x Int ; 0..1
y Int ; 0..2
Init == x = 1 /\ y = 0
Next == (x < y) /\ y' = ((1 * 4) % 3) /\ ((y' > 3) \/ (y > y')) /\ x' \in 0..0
Inv == ~(x = 0 /\ y = 1)
>8 4
x Bool ; BOOLEAN
y Set(Int) ; SUBSET (0..1)
Init == x = (\E i2 \in {0, 2}: ~(i2 < 2)) /\ y = {0, 1}
Next == \/ UNCHANGED y /\ (\E i5 \in y: (i5 < i5) /\ x' = (x))
        \/ UNCHANGED <<x, y>>
Inv == (x # TRUE) \/ ((Cardinality(y) * 2) < 2)
>4 4
x Str ; {"p", "q", "r"}
Init == x = "q"
Next == \/ ((2 + 3) # 0) /\ (LET i1 == (3 * 3) IN x' = (IF (i1 <= i1) THEN "q" ELSE x))
        \/ (x # "r") /\ (\E i2 \in 0..1: ((i2 + 6) >= 2) /\ x' = x) /\ (x # "p")
        \/ ((x # "r") => (x # "q")) /\ UNCHANGED x
        \/ UNCHANGED <<x>>
Inv == (x # "p") \/ ((1 + 2) # 1)
>4 4
x Str ; {"p", "q", "r"}
Init == (x = "r" \/ x = "r")
Next == (x = "q") /\ (x' = x \/ x' = x)
Inv == (x # "p") \/ ((0 + 0) < 0)
>8 2
x Int ; 0..4
y Int -> Int ; [1..2 -> 0..1]
Init == x = 2 /\ y = [i94 \in 1..2 |-> 1]
Next == \/ y' \in [1..2 -> 0..1] /\ (x < 4) /\ x' \in 0..4
        \/ (x \in 1..2) /\ x' \in 0..2 /\ (x \in {0, 2}) /\ y' = [y EXCEPT ![2] = (@ + 1) % 2]
        \/ UNCHANGED <<x, y>>
Inv == (x = 1) => (y[2] \in {0, 2})
>4 3
x {a: Int, b: Bool} ; [a: 0..1, b: BOOLEAN]
Init == x = [a |-> 1, b |-> FALSE]
Next == \/ (x' = [x EXCEPT !.a = 0] \/ x' = [a |-> 0, b |-> (x = [a |-> 1, b |-> FALSE])])
        \/ (CASE ((x.a * 4) > x.a) -> x' = [x EXCEPT !.a = 0] [] OTHER -> UNCHANGED x)
Inv == ~(x = [a |-> 1, b |-> TRUE])
>4 2
x Int ; 0..2
y Set(Int) ; SUBSET (0..2)
Init == x = 2 /\ y = {0}
Next == \/ (y' = (y \ {2}) \/ y' = (y \ {0})) /\ ((x # 4) => (x = 2)) /\ x' = ((x + 1) % 3)
        \/ (\A i5 \in 0..1: (i5 <= 3)) /\ y' = (y \cup {x}) /\ x' \in {x, 1}
        \/ UNCHANGED <<x, y>>
Inv == (x = 0) => ((IF (y \subseteq {0}) THEN x ELSE x) > 1)
>4 4
x Int ; 0..1
y Bool ; BOOLEAN
Init == x = 0 /\ y = TRUE
Next == \/ UNCHANGED x /\ (\E i2 \in 1..2: ~(y) /\ y' = ~(y))
        \/ y' = ((x + 4) # 1) /\ (\A i4 \in 0..1: (y')) /\ x' = (1 - (x % 2))
        \/ ~(y) /\ x' = (1 - x) /\ (\E i7 \in {0, 2}: (i7 > x)) /\ y' = (y)
        \/ UNCHANGED <<x, y>>
Inv == ((x # 1) => (y)) \/ (y) \/ x = 1
>32 4
x Set(Int) ; SUBSET (0..2)
Init == x \in {{}, {0}}
Next == (CASE (Cardinality(x) = 0) -> x' = {i3 \in 0..2: (i3 < i3)} [] OTHER -> UNCHANGED x)
Inv == (x # {}) \/ ((IF (Cardinality(x) = 0) THEN Cardinality(x) ELSE Cardinality(x)) > 3)
>32 3
x Str ; {"p", "q", "r"}
y {a: Int, b: Bool} ; [a: 0..1, b: BOOLEAN]
Init == x = "p" /\ y = [a |-> 1, b |-> FALSE]
Next == y' = [y EXCEPT !.b = (y.a < 2)] /\ x' \in {"p", "q", "r"}
Inv == (y = [a |-> 0, b |-> FALSE]) => ((y.a - 1) <= 3)
>4 4
x Str ; {"p", "q", "r"}
Init == x \in {"p", "q"} /\ (x # "p")
Next == \/ x' \in {"p", "q", "r"}
        \/ (CASE ~(x = "p") -> x' = x [] OTHER -> UNCHANGED x)
Inv == ~((x = "r") \/ (x = "p"))
>8 3
x {a: Int, b: Bool} ; [a: 0..1, b: BOOLEAN]
y Str ; {"p", "q", "r"}
Init == y = "q" /\ (x = [a |-> 1, b |-> TRUE] \/ x = [a |-> 1, b |-> TRUE])
Next == \/ (x.a \in {0, 2}) /\ x' = [a |-> 0, b |-> (x.a <= 0)] /\ (\E i4 \in 0..1: y' = y)
        \/ UNCHANGED <<x, y>>
Inv == ~(x = [a |-> 0, b |-> FALSE] /\ y = "r")
>4 3
x Bool ; BOOLEAN
y Int ; 0..4
Init == x = FALSE /\ y = 3
Next == \/ ~(x) /\ y' = y /\ ((y >= 2) /\ (x)) /\ (LET i2 == (1 + y) IN x' = ((i2 + y) < 2))
        \/ (x) /\ UNCHANGED x /\ y' = ((y + 1) % 5)
        \/ ((y * 4) >= 0) /\ x' = (y <= y) /\ UNCHANGED y /\ (x)
        \/ x' = ((y + 3) > y) /\ UNCHANGED y /\ (y > 3)
Inv == ((y * 2) # 0) \/ (x) \/ x = TRUE
>4 2
x Str ; {"p", "q", "r"}
y Set(Int) ; SUBSET (0..2)
Init == (x = "r" \/ x = (IF FALSE THEN "p" ELSE "p")) /\ ((x # "q") <=> (x = "p")) /\ y = {2}
Next == (\E i3 \in 0..1: y' = {i4 \in 0..2: (\E i5 \in y: (x = "q"))}) /\ UNCHANGED x
Inv == ~(x # "p")
>4 4
x Int ; 0..4
y Bool ; BOOLEAN
Init == x = (2 % 5) /\ y = ((x = x) => (x < 3)) /\ ((x * 4) <= 1)
Next == \/ ~~(y) /\ y' = ((y) => (x = 1)) /\ x' \in {x, (x % 5)}
        \/ (x = 2) /\ (LET i6 == (x * 5) IN x' = (1 \div 2)) /\ UNCHANGED y
Inv == ~(x = 2 /\ y = TRUE)
>8 4
x Int ; 0..3
Init == x \in {(CASE TRUE -> 1 [] OTHER -> 3), (3 % 4)}
Next == \/ (\E i3 \in 1..2: (x > i3)) /\ (\E i4 \in 0..1: x' = ((IF (i4 = i4) THEN i4 ELSE 1) % 4))
        \/ (\E i5 \in {0, 2}: ((x # 3) <=> (x # 4))) /\ UNCHANGED x
        \/ (x > x) /\ (IF ((x = 1) \/ (x <= 0)) THEN x' = 1 ELSE x' = (x % 4))
        \/ UNCHANGED x
Inv == (x # 1) \/ ((x * x) # 3)
>32 3
x Int ; 0..4
y Bool ; BOOLEAN
Init == x = 3 /\ y = FALSE
Next == y' \in BOOLEAN /\ x' = (IF (y) THEN 0 ELSE 3)
Inv == (y # TRUE) \/ ((x - 2) # 2)
>32 4
x Int -> Int ; [1..2 -> 0..1]
Init == x = [i94 \in 1..2 |-> 1]
Next == \/ x' = [i2 \in 1..2 |-> (2 % 2)]
        \/ UNCHANGED <<x>>
Inv == ~(x = [i85 \in 1..2 |-> 0])
>4 3
x Int ; 0..4
Init == x = 4
Next == \/ x' = (4 \div 2)
        \/ UNCHANGED <<x>>
Inv == (x = 3) => ((x + x) <= 3)
>4 3
x Int ; 0..2
Init == x = 2
Next == (\E i1 \in {0, 2}: (i1 = 0)) /\ (LET i2 == (x * 4) IN x' = 0)
Inv == x # 0
>4 4
x Str ; {"p", "q", "r"}
Init == x = "r"
Next == \/ (\E i1 \in 1..2: x' = "q")
        \/ UNCHANGED x
Inv == (x # "r")
>8 4
x Set(Int) ; SUBSET (0..1)
Init == x = {1}
Next == \/ UNCHANGED x
        \/ UNCHANGED <<x>>
Inv == (x # {0, 1}) \/ ((1 - Cardinality(x)) < 3)
>32 4
x Int ; 0..1
y Bool ; BOOLEAN
Init == x = 1 /\ y = FALSE
Next == y' = (x = x) /\ ((x = 0) \/ (x < x)) /\ UNCHANGED x
Inv == (y # TRUE) \/ ((x * 0) < 2)
>32 3
x Str ; {"p", "q", "r"}
y Int ; 0..2
Init == x = "p" /\ y = 1
Next == \/ (y' = (3 % 3) \/ y' = ((y + 1) % 3)) /\ (x = "r") /\ (\E i2 \in {0, 2}: x' = x)
        \/ x' = x /\ (y = y) /\ y' = (y \div 2)
        \/ (y' = (1 % 3) \/ y' = y) /\ (\E i6 \in {0, 2}: x' = "q")
Inv == (x = "q") => ((x = "q") <=> (y > y))
>32 4
x Set(Int) ; SUBSET (0..1)
y Int ; 0..3
Init == x = {} /\ y = 1
Next == y' = ((y + 1) % 4) /\ x' = (x \ {(y' % 2)})
Inv == (x = {0}) => (x \subseteq {0})
>4 3
x Bool ; BOOLEAN
y Bool ; BOOLEAN
Init == x = TRUE /\ y = TRUE
Next == \/ (\E i1 \in {0, 2}: y' = ((i1 * 3) = 1)) /\ (y) /\ (\E i2 \in 1..2: x' = (i2 >= i2))
        \/ (x) /\ x' = (x) /\ (LET i4 == (3 * 3) IN y' = (\E i5 \in 0..1: (y)))
        \/ (IF (0 >= 0) THEN x' = ~(x) ELSE x' = ((x) <=> (y))) /\ ((1 * 0) < 3) /\ y' \in BOOLEAN
        \/ UNCHANGED <<x, y>>
Inv == ~(x = FALSE /\ y = FALSE)
>4 3
x Bool ; BOOLEAN
y Seq(Int) ; {<<>>, <<0>>, <<1>>, <<0, 0>>, <<0, 1>>, <<1, 0>>, <<1, 1>>}
Init == x = TRUE /\ y = <<1, 1>>
Next == \/ (CASE ((Head(y) > 1) => (x)) -> y' = <<1>> [] OTHER -> UNCHANGED y) /\ UNCHANGED x
        \/ UNCHANGED <<x, y>>
Inv == ~(x = FALSE /\ y = <<0>>)
>32 3
x Int ; 0..3
y Int ; 0..3
Init == x = 2 /\ y = 0
Next == UNCHANGED x /\ y' = ((x + 1) % 4)
Inv == (x # 0) \/ ((3 * 3) < 2)
>32 3
x Int -> Int ; [1..2 -> 0..2]
y Str ; {"p", "q", "r"}
Init == x = [i95 \in 1..2 |-> 2] /\ ~(x[3] >= 3) /\ y = "p"
Next == \/ x' = [i4 \in 1..2 |-> ((i4 + 1) % 3)] /\ (x[3] >= x'[3]) /\ y' = "r"
        \/ UNCHANGED <<x, y>>
Inv == ~(x = [i95 \in 1..2 |-> 1] /\ y = "r")"##;
