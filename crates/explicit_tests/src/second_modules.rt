// Small modules, written by bench/modules.py. How they are read stands in `records`.

pub(crate) const SECOND: &str = r##"32 3
x Int -> Int ; [1..2 -> 0..1]
Init == x = [i96 \in 1..2 |-> 0]
Next == x' = [i2 \in DOMAIN x |-> x[3 - i2]]
Inv == (x[1] = 3) \/ ~(x[1] # x[1]) \/ x = [i97 \in 1..2 |-> i97 - 1]
>4 4
x Int ; 0..2
Init == x = (2 - 1)
Next == ((x <= x) => (x = x)) /\ (CASE ~(x >= 0) -> x' = 1 [] OTHER -> UNCHANGED x)
Inv == x # 2
>4 3
x Seq(Int) ; {<<>>, <<0>>, <<1>>, <<0, 0>>, <<0, 1>>, <<1, 0>>, <<1, 1>>}
y Int ; 0..2
Init == x = <<0, 1>> /\ y = 0
Next == \/ y' = y /\ UNCHANGED x
        \/ UNCHANGED <<x, y>>
Inv == ~(x = <<>> /\ y = 1)
>32 3
x Str ; {"p", "q", "r"}
Init == x = "q"
Next == \/ (x = "r") /\ (\E i1 \in 1..2: x' = "p")
        \/ (\E i2 \in {0, 2}: ((2 * 2) # i2)) /\ UNCHANGED x
        \/ (x = "r") /\ x' \in {"p", "q", "r"}
        \/ UNCHANGED <<x>>
Inv == (x = "r") => ((2 * 1) > 2)
>4 4
x Int -> Int ; [1..2 -> 0..2]
Init == x = [i81 \in 1..2 |-> 0]
Next == \/ UNCHANGED x
        \/ (LET i2 == (IF (x[1] = x[2]) THEN 2 ELSE 0) IN x' = [i3 \in 1..2 |-> i3])
        \/ UNCHANGED <<x>>
Inv == ((3 * 3) # 4) \/ ((x[3] < 0) => (x[1] < x[2])) \/ x = [i80 \in 1..2 |-> 0]
>8 3
x Int ; 0..1
y Int ; 0..1
Init == x = 0 /\ y = 0
Next == \/ (\E i1 \in {0, 2}: (x \in 1..2) /\ x' = ((y + 1) % 2)) /\ UNCHANGED y
        \/ UNCHANGED x /\ (y \in {0, 2}) /\ (LET i4 == (y * 4) IN y' = ((x + 1) % 2))
Inv == (x \in 0..1)
>4 4
x Int ; 0..4
y Str ; {"p", "q", "r"}
Init == y = "q" /\ x \in {i3 \in 0..4: ((1 % i3) < i3)}
Next == (x' = ((x + 1) % 5) \/ x' = (3 % 5)) /\ (\E i5 \in {0, 2}: y' = y)
Inv == ~(x = 4 /\ y = "r")
>4 4
x Int ; 0..4
Init == x = (4 - (CASE TRUE -> 3 [] OTHER -> 0))
Next == \/ ((x > x) /\ (x = 4)) /\ x' = ((x + 1) % 5)
        \/ (\A i3 \in 0..1: ((x = 2) /\ (x <= 2))) /\ x' = 1
Inv == ~(x = 1)
>32 3
x Int ; 0..2
y {a: Int, b: Bool} ; [a: 0..1, b: BOOLEAN]
Init == x = 2 /\ y = [a |-> 1, b |-> TRUE]
Next == \/ x' = ((IF (y.b) THEN x ELSE y.a) % 3) /\ y' = [y EXCEPT !.a = 1 - @, !.b = ~@]
        \/ UNCHANGED <<x, y>>
Inv == (x # 1) \/ ((x + 0) # 3)
>4 3
x Int ; 0..1
y Int ; 0..4
Init == x \in 0..1 /\ y \in 0..4
Next == \/ y' = ((y + 1) % 5) /\ x' = (IF ~(x = x) THEN x ELSE ((x + 1) % 2))
        \/ (CASE (x >= x) -> x' = ((x + 1) % 2) [] (y <= 0) -> UNCHANGED x) /\ UNCHANGED y
Inv == (y # 1) \/ ((4 \div x) # 3)
>4 3
x Set(Int) ; SUBSET (0..1)
y Str ; {"p", "q", "r"}
Init == x = {} /\ (y = "q" \/ y = (IF TRUE THEN "q" ELSE "r"))
Next == \/ UNCHANGED y /\ UNCHANGED x
        \/ UNCHANGED <<x, y>>
Inv == y # "p"
>8 4
x Int ; 0..3
Init == x = 1
Next == \/ x' \in {0, ((x + 1) % 4)}
        \/ (CASE ~(x # 0) -> x' = x [] OTHER -> UNCHANGED x)
Inv == x # 3
>8 2
x Seq(Int) ; {<<>>, <<0>>, <<1>>, <<0, 0>>, <<0, 1>>, <<1, 0>>, <<1, 1>>}
y Set(Int) ; SUBSET (0..1)
Init == x = <<>> /\ y = {1}
Next == y' = (y \cap {i3 \in 0..1: (i3 = 1)}) /\ x' = <<0>>
Inv == ~(x = <<0>> /\ y = {0})
>32 4
x Str ; {"p", "q", "r"}
y Int ; 0..3
Init == x = "p" /\ y = 3
Next == \/ (y > y) /\ y' = ((y + 1) % 4) /\ ((y <= 3) <=> (x = "p")) /\ (\E i2 \in 1..2: x' = "q")
        \/ UNCHANGED <<x, y>>
Inv == ((x = "p") \/ (y = 3)) \/ (x = "q") \/ x = "q"
>8 4
x Int ; 0..1
y Int ; 0..1
Init == x = 1 /\ y = 0
Next == \/ UNCHANGED y /\ (\E i2 \in 0..1: (y \in 1..2)) /\ (\E i3 \in 1..2: x' = ((x + 1) % 2))
        \/ UNCHANGED <<x, y>>
Inv == ~(x = 0 /\ y = 1)
>8 4
x Set(Int) ; SUBSET (0..1)
Init == (x = {0, 1} \/ x = {})
Next == \/ (CASE (Cardinality(x) >= 1) -> x' = (0..1 \ x) [] (Cardinality(x) # 2) -> UNCHANGED x)
        \/ x' \in SUBSET (0..1)
        \/ ((6 % Cardinality(x)) = Cardinality(x)) /\ x' = (0..1 \ x)
Inv == ~(x = {0})
>32 4
x Int ; 0..4
Init == x = 4
Next == \/ x' = (x % 5)
        \/ (x < x) /\ (\E i2 \in {0, 2}: x' = ((x + i2) % 5))
        \/ (IF ((x + x) # 4) THEN x' = (4 - x) ELSE x' = x) /\ (x # x)
        \/ (CASE ((x <= 3) => (x <= 3)) -> x' = (x % 5) [] OTHER -> UNCHANGED x)
Inv == (x = 1) => ((x >= x) \/ (x <= x))
>8 3
x Str ; {"p", "q", "r"}
y Bool ; BOOLEAN
Init == x = "q" /\ y = TRUE
Next == \/ UNCHANGED x /\ (0 < 4) /\ (CASE ((y) /\ (x # "p")) -> y' = (y) [] OTHER -> UNCHANGED y)
        \/ (LET i3 == (3 + 2) IN y' = (i3 < 3)) /\ x' = x
        \/ (y) /\ UNCHANGED y /\ (x # "r") /\ x' \in {"p", "p"}
        \/ y' = (\E i8 \in 0..1: (x # "q")) /\ (y) /\ x' = x
        \/ UNCHANGED <<x, y>>
Inv == (x = "r")
>4 4
x Str ; {"p", "q", "r"}
Init == x = "r"
Next == \/ x' = (IF (x # "r") THEN "r" ELSE x)
        \/ UNCHANGED x
        \/ (CASE ((x = "p") \/ (x = "q")) -> x' = x [] OTHER -> UNCHANGED x)
        \/ (x # "p") /\ (CASE (x # "p") -> x' = "r" [] (x # "q") -> UNCHANGED x)
        \/ (\E i6 \in {0, 2}: (x # "r")) /\ UNCHANGED x /\ (\E i8 \in 0..1: (x' # "r"))
Inv == (x = "r") => ((x = "r") <=> (x # "r"))
>32 2
x Int -> Int ; [1..2 -> 0..1]
y Seq(Int) ; {<<>>, <<0>>, <<1>>, <<0, 0>>, <<0, 1>>, <<1, 0>>, <<1, 1>>}
Init == x = [i96 \in 1..2 |-> 0] /\ y = <<0, 1>>
Next == \/ x' = [i2 \in 1..2 |-> (1 - 1)] /\ ~(x'[1] = x'[2]) /\ (y' = <<0, 1>> \/ y' = <<0>>)
        \/ (\E i4 \in 1..2: x' = [x EXCEPT ![1] = (@ + 1) % 2]) /\ UNCHANGED y
        \/ UNCHANGED y /\ UNCHANGED x
Inv == (x # [i86 \in 1..2 |-> 1]) \/ ((Head(y) * 3) < 2)
>8 4
x Seq(Int) ; {<<>>, <<0>>, <<1>>, <<0, 0>>, <<0, 1>>, <<1, 0>>, <<1, 1>>}
Init == x = <<1, 1>>
Next == \/ x' = (IF (x = <<>>) THEN x ELSE x)
        \/ (Len(x) = 0) /\ (LET i2 == (2 * Len(x)) IN x' = (IF (i2 = Head(x)) THEN x ELSE x))
        \/ x' = (IF Len(x) < 2 THEN Append(x, 0) ELSE x) /\ ((x # <<>>) => (x = <<1>>))
Inv == ~(x = <<0, 1>>)
>4 4
x Str ; {"p", "q", "r"}
y {a: Int, b: Bool} ; [a: 0..1, b: BOOLEAN]
Init == y = [a |-> 1, b |-> FALSE] /\ x \in {"p", (IF TRUE THEN "r" ELSE "r")}
Next == \/ (CASE ~(y.b) -> x' = x [] OTHER -> UNCHANGED x) /\ UNCHANGED y
        \/ (\E i5 \in 0..1: ((y.b) /\ (y.b)) /\ y' = [a |-> i5, b |-> (y.b)]) /\ x' = "p"
Inv == (x = "p") \/ ((x = "r") <=> (y = [a |-> 1, b |-> TRUE])) \/ y = [a |-> 0, b |-> FALSE]
>32 4
x Int ; 0..4
Init == x = 4
Next == \/ ((x > x) => ((x < 3) /\ (x <= 0))) /\ x' \in 0..3 /\ (x \in 1..2)
        \/ (x <= 0) /\ (x' = (IF (x # 2) THEN x ELSE 0) \/ x' = 3)
        \/ UNCHANGED x
Inv == (\E i5 \in {0, 2}: (i5 = i5)) \/ (x > 2) \/ x = 1
>8 3
x Bool ; BOOLEAN
y Set(Int) ; SUBSET (0..1)
Init == x = (0 = 2) /\ (x) /\ y = {1}
Next == \/ (\E i3 \in y: x' = ((0 + 0) <= 3)) /\ (\E i4 \in 1..2: ~(x') /\ y' = (y \cup {0}))
        \/ x' \in BOOLEAN /\ y' = (y \ {(Cardinality(y) % 2)})
Inv == ~(x = TRUE /\ y = {0})
>4 3
x Int ; 0..4
Init == x = 3
Next == ((x <= x) /\ (x = 2)) /\ x' = (4 - 2)
Inv == ((x = 0) <=> (x = 2)) \/ (\A i2 \in {0, 2}: (i2 > 3)) \/ x = 0
>32 3
x Int ; 0..4
Init == x = 1
Next == \/ ((x > x) /\ (x < x)) /\ (\E i1 \in 1..2: x' = ((x + 1) % 5)) /\ (x >= x)
        \/ ((x = x) \/ (x <= 1)) /\ (\E i2 \in {0, 2}: x' = (4 - (4 - 3)))
        \/ (\E i3 \in {0, 2}: ((x = 4) /\ (x # 4)) /\ x' = (0 \div 2))
Inv == (x # 3) \/ ((x + 1) # 1)
>32 3
x Seq(Int) ; {<<>>, <<0>>, <<1>>, <<0, 0>>, <<0, 1>>, <<1, 0>>, <<1, 1>>}
Init == x = <<0, 1>>
Next == \/ (x[Len(x)] \in 1..2) /\ x' = SubSeq(x, 1, 1) /\ (\A i2 \in {0, 2}: (x = <<1>>))
        \/ UNCHANGED x /\ (x'[2] \in 0..1)
Inv == (\A i4 \in {0, 2}: ~(Head(x) # 3))
>8 3
x Int ; 0..1
y Bool ; BOOLEAN
Init == (x = 1 \/ x = (0 \div 2)) /\ ((x >= 2) /\ (x >= x)) /\ y = ((x # 1) /\ (x >= 1))
Next == \/ x' = (1 - ((x + 1) % 2)) /\ y' = (\A i5 \in 0..1: (\A i6 \in 0..1: (y)))
        \/ (\E i7 \in {0, 2}: x' = ((6 \div x) % 2)) /\ UNCHANGED y
        \/ x' = ((x + 1) % 2) /\ UNCHANGED y
Inv == x # 0
>4 3
x Int ; 0..4
y Bool ; BOOLEAN
Init == x = 0 /\ ((6 % x) > 3) /\ y \in {(x > 1)}
Next == \/ UNCHANGED x /\ y' = (\A i5 \in {0, 2}: (x' # 2))
        \/ UNCHANGED <<x, y>>
Inv == ~(x = 1 /\ y = TRUE)
>4 3
x Set(Int) ; SUBSET (0..2)
y Int ; 0..3
Init == x = {0} /\ y = 2
Next == ~(y <= 2) /\ UNCHANGED y /\ (y > 2) /\ x' = (x \cup {2})
Inv == (x = {}) => ~(\A i4 \in {0, 2}: (y < 0))
>4 2
x Int -> Int ; [1..2 -> 0..2]
y Set(Int) ; SUBSET (0..1)
Init == x = [i98 \in 1..2 |-> 2] /\ y = {0, 1}
Next == \/ UNCHANGED y /\ x' = [i3 \in DOMAIN x |-> x[3 - i3]]
        \/ UNCHANGED x /\ ((x'[1] = x'[2]) => (x[1] < x[2])) /\ UNCHANGED y
        \/ (\E i6 \in 0..1: y' = {(i7 + 1) % 2: i7 \in y}) /\ x' \in [1..2 -> 0..2]
Inv == (x # [i89 \in 1..2 |-> 2]) \/ ((x[2] * 5) > 0)
>4 3
x Int ; 0..2
y {a: Int, b: Bool} ; [a: 0..1, b: BOOLEAN]
Init == x = 0 /\ y = [a |-> 0, b |-> TRUE]
Next == \/ (x' = (2 - 1) \/ x' = (IF (y.b) THEN x ELSE 2)) /\ UNCHANGED y
        \/ x' = ((x + 1) % 3) /\ y' = [y EXCEPT !.a = (x' % 2)]
Inv == x # 2
>4 4
x {a: Int, b: Bool} ; [a: 0..1, b: BOOLEAN]
Init == x = [a |-> 0, b |-> FALSE]
Next == \/ x' = [x EXCEPT !.a = 1]
        \/ UNCHANGED x
        \/ x' \in [a: 0..1, b: BOOLEAN]
Inv == ~(x.a > 0) \/ ((x.a * 5) >= x.a) \/ x = [a |-> 0, b |-> TRUE]
>8 4
x Str ; {"p", "q", "r"}
y Str ; {"p", "q", "r"}
Init == x = "q" /\ y = "r"
Next == \/ (x # "r") /\ y' = "r" /\ ~(y # "p") /\ x' \in {"p", "q", "r"}
        \/ ((y = "q") \/ (y # "r")) /\ x' \in {"r", x} /\ UNCHANGED y
Inv == ~(y = "q") \/ (\A i5 \in 1..2: (x = "q")) \/ y = "p"
>32 3
x Bool ; BOOLEAN
y Set(Int) ; SUBSET (0..1)
Init == x = TRUE /\ y = {0}
Next == \/ y' = (y \ {(1 - 1)}) /\ (Cardinality(y') > 3) /\ x' = (Cardinality(y) > 3)
        \/ UNCHANGED <<x, y>>
Inv == (y = {0, 1}) => (x)
>4 3
x Int ; 0..2
Init == x = 2
Next == \/ UNCHANGED x
        \/ (x = 4) /\ (CASE (x = 1) -> x' = (IF (x <= 0) THEN x ELSE 1) [] OTHER -> UNCHANGED x)
        \/ x' = (x \div 2) /\ (x = 4)
        \/ ((x < 0) => (x <= 0)) /\ (\E i4 \in {0, 2}: x' = ((x + 1) % 3))
Inv == ((6 % 0) = 4)
>8 4
x Bool ; BOOLEAN
y Int ; 0..1
Init == x = TRUE /\ y = 1
Next == \/ (y >= y) /\ x' \in BOOLEAN /\ (x') /\ y' \in {i3 \in 0..1: (y = 0)}
        \/ x' = ~(y # 0) /\ ~(y > 2) /\ y' = (3 % 2)
        \/ UNCHANGED <<x, y>>
Inv == x # FALSE
>4 4
x Int ; 0..3
Init == x = 2
Next == \/ (\E i1 \in 0..1: ((x < 2) /\ (i1 # 4)) /\ x' = i1)
        \/ ((x < x) => (x = 1)) /\ x' = 0
Inv == (x \in {0, 2})
>32 4
x Int ; 0..2
Init == x = 2
Next == \/ (\A i1 \in {0, 2}: (i1 < 2)) /\ UNCHANGED x
        \/ (\E i3 \in {0, 2}: (i3 = 4)) /\ x' = (x % 3)
        \/ ((x # 0) \/ (x <= x)) /\ (CASE (x < x) -> x' = (x % 3) [] (x > 1) -> UNCHANGED x)
        \/ UNCHANGED <<x>>
Inv == ~(x = 1)
>4 3
x {a: Int, b: Bool} ; [a: 0..1, b: BOOLEAN]
Init == x = [a |-> 1, b |-> FALSE]
Next == \/ (CASE (x = [a |-> 1, b |-> TRUE]) -> x' = [x EXCEPT !.a = 1] [] (x.b) -> UNCHANGED x)
        \/ x' = [a |-> 0, b |-> ((x.b) => (x.b))]
Inv == (x # [a |-> 0, b |-> FALSE]) \/ (x.a > 3)
>8 4
x Str ; {"p", "q", "r"}
Init == x = (IF (0 = 3) THEN (CASE FALSE -> "p" [] OTHER -> "r") ELSE (IF TRUE THEN "q" ELSE "q"))
Next == \/ (\E i2 \in 1..2: ((x = "p") => (x = "p")) /\ x' = (IF (x # "p") THEN "r" ELSE x))
        \/ UNCHANGED <<x>>
Inv == x # "q"
>4 3
x Int ; 0..4
Init == x = 2
Next == (LET i1 == (x + 7) IN x' = x)
Inv == x # 4
>8 3
x Int ; 0..3
y Str ; {"p", "q", "r"}
Init == x = 2 /\ y = "r"
Next == \/ (IF ((x + 3) <= x) THEN x' = (3 - x) ELSE x' = ((x + 1) % 4)) /\ (0 > 1) /\ UNCHANGED y
        \/ UNCHANGED <<x, y>>
Inv == (\A i3 \in 0..1: (y = "r"))
>8 4
x Bool ; BOOLEAN
y Int ; 0..2
Init == (x = (2 \in {0, 2}) \/ x = (\A i2 \in {0, 2}: (i2 = 2))) /\ y = ((1 * 2) % 3)
Next == \/ x' = ~(y = 3) /\ (y' = y \/ y' = ((y + 1) % 3))
        \/ (\E i6 \in {0, 2}: ~(x)) /\ y' = y /\ x' = (y \in 0..1)
Inv == ((y < 4) <=> (y = 4))
>4 4
x Bool ; BOOLEAN
y Int ; 0..4
Init == x = TRUE /\ y = 3
Next == ((y * 3) < y) /\ UNCHANGED y /\ (x) /\ x' \in {((y + 5) > 3)}
Inv == ((y * 4) < 3)
>8 4
x Str ; {"p", "q", "r"}
y Int ; 0..4
Init == x = "q" /\ y = 2
Next == \/ (\E i1 \in 1..2: y' = ((1 + y) % 5)) /\ ~(x # "r") /\ UNCHANGED x
        \/ (y' = (4 - y) \/ y' = ((y + 1) % 5)) /\ x' = "q"
Inv == (y = 0) => (y < 0)
>4 3
x Set(Int) ; SUBSET (0..2)
y Set(Int) ; SUBSET (0..1)
Init == x = {0, 1} /\ y = {0}
Next == (\A i1 \in 1..2: (i1 = 1)) /\ x' \in SUBSET (0..2) /\ y' = (y \cup {(1 - 0)})
Inv == (y # {0, 1}) \/ ((Cardinality(x) + Cardinality(x)) > 1)
>32 4
x Set(Int) ; SUBSET (0..2)
Init == x = {2}
Next == x' = {(i2 + 1) % 3: i2 \in x}
Inv == ~((Cardinality(x) * 4) # 0)
>4 3
x Int ; 0..3
y Set(Int) ; SUBSET (0..2)
Init == x = 1 /\ y = {0}
Next == \/ UNCHANGED y /\ UNCHANGED x /\ (1 \notin y)
        \/ UNCHANGED <<x, y>>
Inv == (y # {}) \/ ((IF (Cardinality(y) < x) THEN Cardinality(y) ELSE x) > 3)
>32 4
x Int ; 0..2
y Bool ; BOOLEAN
Init == y = (\E i2 \in 0..1: ((i2 # 0) <=> (i2 <= 0))) /\ x = (1 % 3)
Next == \/ UNCHANGED y /\ ((1 * x) = 2) /\ (\E i5 \in 1..2: (y) /\ x' = ((x + 1) % 3))
        \/ (\E i6 \in 1..2: (i6 <= 0)) /\ UNCHANGED y /\ x' = 2
        \/ (IF ((y) /\ (y)) THEN x' = (x % 3) ELSE x' = (x \div 2)) /\ y' = (x' \in {0, 2})
        \/ (x <= x) /\ (LET i11 == (x * x) IN y' = (\A i12 \in 1..2: (y))) /\ ~(y) /\ x' = (x % 3)
        \/ UNCHANGED y /\ x' = (IF ((x + x) >= 4) THEN (x % 3) ELSE 2)
Inv == (x = 1) => (((x + x) - 1) < 3)
>4 4
x Str ; {"p", "q", "r"}
y Bool ; BOOLEAN
Init == x = "q" /\ y = FALSE
Next == x' \in {"q", x} /\ (\E i2 \in 1..2: y' = (\E i3 \in {0, 2}: ((x = "p") /\ (x = "q"))))
Inv == (y # TRUE) \/ ((0 * 4) < 3)
>8 3
x Set(Int) ; SUBSET (0..1)
Init == x = {}
Next == \/ (\E i1 \in {0, 2}: (Cardinality(x) < i1) /\ x' = {i2 \in 0..1: (i1 > 4)})
        \/ x' \in SUBSET (0..1)
Inv == ~(x = {0, 1})
>8 3
x Int ; 0..2
Init == x = 2
Next == \/ (LET i1 == x IN x' = (2 \div 2)) /\ (\A i2 \in 0..1: (i2 < x))
        \/ (x \in {0, 2}) /\ UNCHANGED x
Inv == (x = 0) => ((5 \div x) > 3)
>4 4
x Int ; 0..3
Init == x = 1
Next == \/ x' = (3 - (3 - x))
        \/ x' = ((x + 1) % 4)
        \/ UNCHANGED x
        \/ (\E i4 \in {0, 2}: x' = ((4 \div 3) % 4))
        \/ x' \in 0..3
        \/ UNCHANGED <<x>>
Inv == ~(x = 0)
>4 3
x Str ; {"p", "q", "r"}
Init == x = "q"
Next == \/ (IF ~(x # "p") THEN x' = "q" ELSE x' = (IF (x # "q") THEN x ELSE x))
        \/ (x # "p") /\ UNCHANGED x
        \/ x' \in {"r", (IF (x = "q") THEN "p" ELSE x)}
Inv == ~(x = "r")
>4 4
x Int ; 0..4
y Bool ; BOOLEAN
Init == x = 4 /\ y = TRUE
Next == \/ (\A i1 \in 0..1: (y)) /\ y' = ((x + 7) < x) /\ (LET i3 == (x + 4) IN x' = x)
        \/ (CASE ((y) => (y)) -> x' = 0 [] OTHER -> UNCHANGED x) /\ UNCHANGED y
Inv == ~(x = 1 /\ y = FALSE)
>32 3
x Int -> Int ; [1..2 -> 0..1]
Init == x = [i98 \in 1..2 |-> 1]
Next == x' = [x EXCEPT ![3] = (CASE (x[1] = x[2]) -> 0 [] ((3 + x[3]) < 0) -> 1)]
Inv == (x # [i90 \in 1..2 |-> 1]) \/ ((x[0] + 1) > 2)
>8 4
x Bool ; BOOLEAN
y Seq(Int) ; {<<>>, <<0>>, <<1>>, <<0, 0>>, <<0, 1>>, <<1, 0>>, <<1, 1>>}
Init == x = FALSE /\ y = <<1>>
Next == \/ UNCHANGED x /\ ~(x) /\ y' = (IF Len(y) < 2 THEN (<<0>> \o y) ELSE y)
        \/ UNCHANGED y /\ (CASE (x) -> x' = (Len(y') \in 0..1) [] (y' = <<1>>) -> UNCHANGED x)
        \/ (\E i5 \in {0, 2}: y' = <<0, (0 \div 2)>>) /\ x' = (\A i7 \in 1..2: (Len(y') = 1))
Inv == (y # <<0>>) \/ ((Len(y) * Len(y)) < 3)
>8 3
x Int ; 0..4
Init == x = 3
Next == \/ (\E i1 \in 1..2: (i1 = x) /\ x' = i1)
        \/ ~(x = 1) /\ (\E i2 \in {0, 2}: ((i2 * 4) > 3) /\ x' = (2 % 5))
        \/ UNCHANGED x
        \/ (LET i4 == (2 + x) IN x' = 0)
        \/ UNCHANGED x
        \/ UNCHANGED <<x>>
Inv == (x \in {0, 2})
>4 4
x Str ; {"p", "q", "r"}
Init == x = (IF (1 < 0) THEN (IF TRUE THEN "r" ELSE "r") ELSE "q")
Next == \/ (CASE (x # "r") -> x' = (IF (x # "q") THEN "p" ELSE "r") [] (x = "q") -> UNCHANGED x)
        \/ ((x # "p") <=> (x = "q")) /\ UNCHANGED x
        \/ UNCHANGED <<x>>
Inv == (x = "r") => (x = "r")
>4 4
x Str ; {"p", "q", "r"}
Init == x = "r"
Next == ~(x = "q") /\ (IF (2 >= 2) THEN x' = "q" ELSE x' = x) /\ ((x' # "p") => (x' = "q"))
Inv == ~(x = "q")
>8 4
x Int -> Int ; [1..2 -> 0..1]
Init == (x = [i94 \in 1..2 |-> 0] \/ x = [i85 \in 1..2 |-> 0])
Next == \/ (LET i2 == (x[2] + x[2]) IN x' = [i3 \in DOMAIN x |-> x[3 - i3]])
        \/ (LET i4 == (x[2] + 1) IN x' = [x EXCEPT ![2] = 1])
        \/ (x[1] # 1) /\ (LET i6 == (x[2] + x[2]) IN x' = [x EXCEPT ![1] = x[2], ![2] = (1 - 1)])
Inv == (x = [i97 \in 1..2 |-> 1]) => ((2 * 4) >= 0)
>8 4
x Int ; 0..3
y Int ; 0..3
Init == x = 0 /\ y = 2
Next == \/ (\E i1 \in 0..1: x' = ((i1 + 1) % 4)) /\ y' \in 0..1 /\ ((x' > 3) \/ (x # 1))
        \/ (LET i4 == (y - x) IN y' = 1) /\ ((y * y') > 4) /\ (x' = (3 - y) \/ x' = 0)
        \/ (((x # 3) \/ (x # 3)) /\ (x > y)) /\ UNCHANGED x /\ UNCHANGED y
        \/ (x \in {0, 2}) /\ y' = x /\ (LET i9 == (3 * 4) IN x' = ((y' + 1) % 4))
Inv == ~(x = 2 /\ y = 0)
>4 3
x {a: Int, b: Bool} ; [a: 0..1, b: BOOLEAN]
Init == x = [a |-> 1, b |-> TRUE]
Next == (CASE (x.a <= 3) -> x' = [x EXCEPT !.a = 1 - @, !.b = ~@] [] (x.a > 0) -> UNCHANGED x)
Inv == x # [a |-> 0, b |-> FALSE]
>4 3
x Str ; {"p", "q", "r"}
Init == x = "r"
Next == \/ x' = "q"
        \/ ~(x = "r") /\ x' \in {"q", (CASE (x = "q") -> "q" [] OTHER -> "q")}
Inv == ~(x = "p")
>4 4
x Set(Int) ; SUBSET (0..2)
Init == x = {0, 1}
Next == ((Cardinality(x) >= Cardinality(x)) \/ (Cardinality(x) >= 1)) /\ UNCHANGED x
Inv == (x = {2}) => (Cardinality(x) <= 0)
>4 4
x Str ; {"p", "q", "r"}
y Int -> Int ; [1..2 -> 0..1]
Init == y = [i80 \in 1..2 |-> i80 - 1] /\ x = "r"
Next == (CASE (x # "p") -> x' = x [] (x = "r") -> UNCHANGED x) /\ (x' = "q") /\ UNCHANGED y
Inv == (y[0] <= y[0]) \/ ((x # "q") <=> (y[1] < 2)) \/ x = "p"
>4 3
x Set(Int) ; SUBSET (0..1)
Init == x = {0, 1}
Next == \/ (\E i1 \in 1..2: ~(i1 > i1) /\ x' = (x \ {1}))
        \/ x' \in SUBSET (0..1) /\ (Cardinality(x') \notin x)
        \/ UNCHANGED <<x>>
Inv == (x = {1}) => (x \subseteq {1, 2})
>4 3
x Int ; 0..3
y Bool ; BOOLEAN
Init == x = 3 /\ y = TRUE
Next == \/ x' = 0 /\ (x # x) /\ (\E i2 \in 1..2: ((y) /\ (y)) /\ y' = ((y) <=> (y)))
        \/ (x \in 0..1) /\ x' = x /\ (LET i4 == (1 - x) IN y' = (x >= 0))
Inv == ((x >= 2) => (\E i5 \in 1..2: (y)))
>4 4
x Int ; 0..2
Init == x = 1
Next == \/ (1 < x) /\ x' = ((x + 1) % 3) /\ (\E i2 \in 0..1: (x' <= x'))
        \/ x' = x
        \/ (\E i4 \in 1..2: x' = ((x + 1) % 3))
        \/ x' = (2 - (IF (x # x) THEN x ELSE x)) /\ ((x < 4) <=> (x <= 3))
Inv == (x = 0) => (x \in 0..1)
>4 3
x Set(Int) ; SUBSET (0..2)
y Int ; 0..4
Init == x = {} /\ y = 3
Next == (y \in x) /\ (CASE (y < 1) -> x' = {2} [] (y >= 1) -> UNCHANGED x) /\ y' = ((y + 1) % 5)
Inv == (x # {2}) \/ ((5 \div 3) # 2)
>8 3
x Int ; 0..2
Init == x = 1
Next == \/ (\E i1 \in 1..2: (x # 3)) /\ (\E i2 \in {0, 2}: (x # i2) /\ x' = i2) /\ (x > 4)
        \/ (\E i3 \in 1..2: ((i3 <= 1) => (i3 = x)) /\ x' = (x % 3))
Inv == (x = 2) => ((x \in {0, 2}) => (x > x))
>4 3
x Int ; 0..2
Init == x = 0
Next == \/ (CASE (x \in 1..2) -> x' = ((x + 1) % 3) [] OTHER -> UNCHANGED x)
        \/ (x' = (2 - x) \/ x' = ((x + 1) % 3))
        \/ UNCHANGED <<x>>
Inv == (x # 1) \/ ((x * 2) # 2)
>8 4
x Int ; 0..4
Init == x = 4
Next == ((x < 1) \/ (x = x)) /\ UNCHANGED x
Inv == (x # 3) \/ ((x * x) # 1)
>8 3
x {a: Int, b: Bool} ; [a: 0..1, b: BOOLEAN]
Init == x = [a |-> 0, b |-> FALSE]
Next == \/ (\E i1 \in {0, 2}: x' = [x EXCEPT !.a = 1 - @, !.b = ~@])
        \/ UNCHANGED x
        \/ x' \in [a: 0..1, b: BOOLEAN]
Inv == (x # [a |-> 1, b |-> FALSE]) \/ ((0 + x.a) > 1)
>4 4
x {a: Int, b: Bool} ; [a: 0..1, b: BOOLEAN]
Init == x = [a |-> 0, b |-> TRUE]
Next == (\E i1 \in {0, 2}: (i1 >= 2) /\ x' = [a |-> 0, b |-> (i1 # 2)])
Inv == ~(x = [a |-> 1, b |-> FALSE])
>4 3
x Int -> Int ; [1..2 -> 0..2]
Init == x = [i88 \in 1..2 |-> 1]
Next == \/ (x[2] >= x[2]) /\ (\E i1 \in {0, 2}: (i1 = 2) /\ x' = [x EXCEPT ![1] = 1])
        \/ x' = [x EXCEPT ![1] = (@ + 1) % 3]
        \/ UNCHANGED x
        \/ (\E i6 \in 1..2: x' = [x EXCEPT ![1] = x[2], ![2] = (IF (x[2] = 2) THEN i6 ELSE 2)])
Inv == (x # [i99 \in 1..2 |-> 1]) \/ ((x[1] + 6) < 0)
>8 4
x Str ; {"p", "q", "r"}
Init == x = "q"
Next == \/ (\A i1 \in 1..2: (i1 = i1)) /\ UNCHANGED x
        \/ UNCHANGED <<x>>
Inv == (x # "r") \/ ((0 - 0) < 3)
>8 2
x Int -> Int ; [1..2 -> 0..2]
y Int -> Int ; [1..2 -> 0..1]
Init == x = [i86 \in 1..2 |-> 1] /\ y = [i94 \in 1..2 |-> 0]
Next == y' = [i2 \in 1..2 |-> (3 % 2)] /\ x' = [y' EXCEPT ![2] = (3 % 3)]
Inv == (x = [i84 \in 1..2 |-> 0]) => (x[1] \in 1..2)
>4 3
x Seq(Int) ; {<<>>, <<0>>, <<1>>, <<0, 0>>, <<0, 1>>, <<1, 0>>, <<1, 1>>}
y {a: Int, b: Bool} ; [a: 0..1, b: BOOLEAN]
Init == x = <<1, 1>> /\ y = [a |-> 0, b |-> TRUE]
Next == x' \in {<<1>>, <<0>>} /\ y' = [y EXCEPT !.a = (1 - 0)]
Inv == (\E i3 \in {0, 2}: (i3 # 4)) \/ ~(y.b) \/ y = [a |-> 1, b |-> FALSE]
>4 3
x Str ; {"p", "q", "r"}
Init == x = "q"
Next == \/ (\E i1 \in 0..1: (x = "q")) /\ UNCHANGED x
        \/ (x # "r") /\ (LET i3 == (2 + 2) IN x' = (IF (i3 = 3) THEN "r" ELSE x))
        \/ x' = "q"
        \/ (IF ((x = "p") => (x # "p")) THEN x' = "q" ELSE x' = (IF (x # "r") THEN "q" ELSE "q"))
        \/ ~(x # "r") /\ UNCHANGED x
Inv == ~(x = "p")
>8 4
x {a: Int, b: Bool} ; [a: 0..1, b: BOOLEAN]
Init == x = [a |-> 1, b |-> FALSE]
Next == \/ (\E i2 \in 1..2: x' = [a |-> (1 - 1), b |-> (x.a \in 1..2)])
        \/ x' = [x EXCEPT !.a = 1 - @, !.b = ~@] /\ (\A i4 \in 0..1: (i4 < x'.a))
        \/ UNCHANGED x
        \/ x' = [x EXCEPT !.b = (x.a >= 1)]
        \/ UNCHANGED <<x>>
Inv == (x = [a |-> 0, b |-> TRUE]) => (\E i7 \in 0..1: (x = [a |-> 1, b |-> FALSE]))
>4 3
x Int ; 0..3
Init == x = 2
Next == \/ (\E i1 \in 0..1: x' = ((x * 4) % 4))
        \/ ((x = x) \/ (x > 1)) /\ (CASE (x > 1) -> x' = (x \div 2) [] (x >= 1) -> UNCHANGED x)
        \/ ((x # 0) \/ (x <= x)) /\ x' \in 0..3
Inv == (x # 0) \/ ((x + 7) < 3)
>4 4
x Int ; 0..3
Init == x = 3
Next == \/ (CASE (x # 1) -> x' = (1 % 4) [] (x >= 3) -> UNCHANGED x)
        \/ (\E i3 \in 1..2: ((x < 2) => (i3 = x)) /\ x' = (3 - 2))
        \/ (\A i4 \in 1..2: (x # 4)) /\ UNCHANGED x
Inv == (x = 3) => (x < x)
>32 4
x {a: Int, b: Bool} ; [a: 0..1, b: BOOLEAN]
Init == x = [a |-> 0, b |-> TRUE]
Next == \/ ((x = [a |-> 1, b |-> FALSE]) \/ (x.a >= x.a)) /\ x' \in [a: 0..1, b: BOOLEAN]
        \/ (~(x.b) \/ (x.a # x.a)) /\ (LET i2 == (4 \div x.a) IN x' = [x EXCEPT !.b = (x.b)])
        \/ (x' = [x EXCEPT !.b = (x.b)] \/ x' = [x EXCEPT !.a = 1 - @, !.b = ~@])
        \/ UNCHANGED <<x>>
Inv == (x # [a |-> 1, b |-> TRUE]) \/ ((x.a * 3) > 1)
>8 4
x Seq(Int) ; {<<>>, <<0>>, <<1>>, <<0, 0>>, <<0, 1>>, <<1, 0>>, <<1, 1>>}
Init == x = <<0, 1>>
Next == \/ (\E i1 \in 1..2: x' = <<(i1 % 2)>>)
        \/ x' = (IF Len(x) < 2 THEN (<<(1 - 0)>> \o x) ELSE x) /\ ((Len(x') * 4) # 3)
Inv == (x # <<0>>) \/ ((x = <<0, 1>>) /\ (x # <<1>>)) \/ x = <<0>>
>4 4
x {a: Int, b: Bool} ; [a: 0..1, b: BOOLEAN]
y Str ; {"p", "q", "r"}
Init == x = [a |-> 1, b |-> TRUE] /\ y = "r"
Next == \/ UNCHANGED x /\ (x.a = 2) /\ (\E i2 \in {0, 2}: (i2 <= 0) /\ y' = "r")
        \/ UNCHANGED <<x, y>>
Inv == (\E i3 \in {0, 2}: (i3 <= 3)) \/ ~(x.b) \/ x = [a |-> 1, b |-> FALSE]
>8 4
x Int ; 0..4
y Int ; 0..2
Init == x = (IF FALSE THEN 0 ELSE 4) /\ (x \in 0..1) /\ y \in {i3 \in 0..2: (i3 < x)}
Next == \/ UNCHANGED x /\ (x \in 0..1) /\ y' \in 0..2
        \/ (x <= 0) /\ y' \in {((y + 1) % 3), ((y + 1) % 3)} /\ x' \in {(4 - y), 4}
        \/ (\E i11 \in 1..2: y' = ((i11 + 1) % 3)) /\ UNCHANGED x
        \/ UNCHANGED <<x, y>>
Inv == x # 1
>32 3
x {a: Int, b: Bool} ; [a: 0..1, b: BOOLEAN]
Init == x = [a |-> 0, b |-> FALSE]
Next == \/ (x = [a |-> 0, b |-> TRUE]) /\ x' = [x EXCEPT !.a = 1 - @, !.b = ~@]
        \/ ((x.a * 1) < 2) /\ x' = [x EXCEPT !.b = (x = [a |-> 1, b |-> TRUE])]
Inv == ~(x = [a |-> 0, b |-> TRUE])
>8 3
x Str ; {"p", "q", "r"}
Init == x = "r"
Next == \/ UNCHANGED x
        \/ UNCHANGED <<x>>
Inv == (x # "q") \/ ((1 \div 3) # 1)
>8 3
x Bool ; BOOLEAN
y Int ; 0..4
Init == y \in 0..1 /\ x = (TRUE => FALSE)
Next == \/ x' \in BOOLEAN /\ (\E i5 \in {0, 2}: (i5 \in 1..2) /\ y' = (i5 % 5))
        \/ UNCHANGED <<x, y>>
Inv == x # TRUE
>8 3
x Seq(Int) ; {<<>>, <<0>>, <<1>>, <<0, 0>>, <<0, 1>>, <<1, 0>>, <<1, 1>>}
Init == x = <<1, 1>>
Next == \/ (x' = <<1, 1>> \/ x' = (IF Len(x) < 2 THEN Append(x, 0) ELSE x))
        \/ (\A i2 \in {0, 2}: (x # <<>>)) /\ UNCHANGED x
Inv == (x # <<1>>) \/ (x[Len(x)] > 0)
>32 3
x Seq(Int) ; {<<>>, <<0>>, <<1>>, <<0, 0>>, <<0, 1>>, <<1, 0>>, <<1, 1>>}
Init == x = <<>>
Next == (\E i1 \in 1..2: x' = (IF Len(x) < 2 THEN (<<1>> \o x) ELSE x))
Inv == (x # <<1>>) \/ ((1 + 1) < 1)
>8 4
x Set(Int) ; SUBSET (0..1)
Init == x = {1}
Next == \/ ((Cardinality(x) + Cardinality(x)) <= 3) /\ UNCHANGED x
        \/ (Cardinality(x) > 0) /\ x' = (x \cap {0}) /\ (Cardinality(x) < 3)
        \/ UNCHANGED <<x>>
Inv == (x # {0, 1}) \/ ((3 * Cardinality(x)) < 3)
>8 4
x Bool ; BOOLEAN
y Bool ; BOOLEAN
Init == x = (3 < 1) /\ y \in {(x)}
Next == \/ (x) /\ UNCHANGED x /\ (x') /\ (LET i4 == 1 IN y' = ((4 \div i4) < 2))
        \/ (y' = (y) \/ y' = (y)) /\ (x) /\ (\E i6 \in 0..1: ((x) <=> (x)) /\ x' = ((y') <=> (x)))
        \/ UNCHANGED <<x, y>>
Inv == (x)
>8 4
x Str ; {"p", "q", "r"}
Init == x = "q"
Next == \/ (x = "r") /\ UNCHANGED x /\ (x = "p")
        \/ x' = (CASE (x # "r") -> (IF (x # "p") THEN x ELSE x) [] OTHER -> "q")
Inv == ~(x = "r")
>8 4
x Bool ; BOOLEAN
y Int ; 0..2
Init == x = FALSE /\ y = 0
Next == (y \in 0..1) /\ x' \in {((y # y) => (y >= 2))} /\ ~(x) /\ (\E i2 \in 1..2: y' = (i2 % 3))
Inv == ~(x = TRUE /\ y = 1)
>4 4
x Int ; 0..4
y Bool ; BOOLEAN
Init == y = (0 >= 0) /\ x = (3 \div 2)
Next == \/ ~(x = 0) /\ UNCHANGED y /\ (x' = (4 - x) \/ x' = 2)
        \/ UNCHANGED <<x, y>>
Inv == (x \in {0, 2})
>8 4
x Set(Int) ; SUBSET (0..1)
Init == x = {0}
Next == \/ x' \in SUBSET (0..1)
        \/ (CASE (Cardinality(x) = 2) -> x' = (x \ {1}) [] (Cardinality(x) # 0) -> UNCHANGED x)
        \/ (x' = (0..1 \ x) \/ x' = (x \cup {0}))
Inv == (x # {1}) \/ ((0 * 4) > 2)
>8 4
x Seq(Int) ; {<<>>, <<0>>, <<1>>, <<0, 0>>, <<0, 1>>, <<1, 0>>, <<1, 1>>}
Init == x = <<>>
Next == \/ ((Len(x) > 2) /\ (x # <<>>)) /\ x' = <<(1 - 0), (Len(x) % 2)>>
        \/ x' = (IF Len(x) < 2 THEN Append(x, 0) ELSE x)
        \/ (\E i3 \in {0, 2}: ((0 + i3) < Len(x)) /\ x' = <<0>>)
        \/ (\E i4 \in {0, 2}: x' = (IF x = <<>> THEN <<1, 1>> ELSE Tail(x)))
        \/ UNCHANGED <<x>>
Inv == (x # <<0, 1>>) \/ ((1 * 4) > 1)"##;
