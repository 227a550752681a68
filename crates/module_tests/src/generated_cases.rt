// Many modules and large trees: sets of modules with what is expected of them, in the form that `reader` reads.

pub(crate) const GENERATED: &str = r##">case a unit past 400 levels
>file Row
---- MODULE Row ----
EXTENDS A
====
>file A
---- MODULE A ----
x == 1
y == ~~~~~~~~~~~~~~~~~~~~~~~~~~~~~~~~~~~~~~~~~~~~~~~~~~~~~~~~~~~~~~~~~~~~~~~~~~~~~~~~~~~~~~~~~~~~~~~~~~~~~~~~~~~~~~~~~~~~~~~~~~~~~~~~~~~~~~~~~~~~~~~~~~~~~~~~~~~~~~~~~~~~~~~~~~~~~~~~~~~~~~~~~~~~~~~~~~~~~~~~~~~~~~~~~~~~~~~~~~~~~~~~~~~~~~~~~~~~~~~~~~~~~~~~~~~~~~~~~~~~~~~~~~~~~~~~~~~~~~~~~~~~~~~~~~~~~~~~~~~~~~~~~~~~~~~~~~~~~~~~~~~~~~~~~~~~~~~~~~~~~~~~~~~~~~~~~~~~~~~~~~~~~~~~~~~~~~~~~~~~~~~~~~~~~~~~~~~~~~~~TRUE
====
>files Row A
>refused refused: nesting past 400 at A:3:1

>case 64 modules
>file Row
---- MODULE Row ----
EXTENDS Naturals, M1, M2, M3, M4, M5, M6, M7, M8, M9, M10, M11, M12, M13, M14, M15, M16, M17, M18, M19, M20, M21, M22, M23, M24, M25, M26, M27, M28, M29, M30, M31, M32, M33, M34, M35, M36, M37, M38, M39, M40, M41, M42, M43, M44, M45, M46, M47, M48, M49, M50, M51, M52, M53, M54, M55, M56, M57, M58, M59, M60, M61, M62, M63
Inv == 1 = 1
====
>each 1 64
---- MODULE M% ----
D% == %
====
>ok
>expand D63 inv
63

>case 65 modules
>file Row
---- MODULE Row ----
EXTENDS M1, M2, M3, M4, M5, M6, M7, M8, M9, M10, M11, M12, M13, M14, M15, M16, M17, M18, M19, M20, M21, M22, M23, M24, M25, M26, M27, M28, M29, M30, M31, M32, M33, M34, M35, M36, M37, M38, M39, M40, M41, M42, M43, M44, M45, M46, M47, M48, M49, M50, M51, M52, M53, M54, M55, M56, M57, M58, M59, M60, M61, M62, M63, M64
====
>each 1 64
---- MODULE M% ----
====
>refused refused: more than 64 modules

>case a chain of 65 modules
>file M0
---- MODULE M0 ----
EXTENDS M1
====
>each 1 63
---- MODULE M% ----
EXTENDS M@
====
>file M64
---- MODULE M64 ----
EXTENDS M0
====
>refused refused: more than 64 modules

>case a chain of 64 modules that closes
>file M0
---- MODULE M0 ----
EXTENDS M1
====
>each 1 62
---- MODULE M% ----
EXTENDS M@
====
>file M63
---- MODULE M63 ----
EXTENDS M0
====
>refused refused: modules mention each other: M0, M1, M2, M3, M4, M5, M6, M7, M8, M9, M10, M11, M12, M13, M14, M15, M16, M17, M18, M19, M20, M21, M22, M23, M24, M25, M26, M27, M28, M29, M30, M31, M32, M33, M34, M35, M36, M37, M38, M39, M40, M41, M42, M43, M44, M45, M46, M47, M48, M49, M50, M51, M52, M53, M54, M55, M56, M57, M58, M59, M60, M61, M62, M63, M0

>case a missing module before the 65th
>file Row
---- MODULE Row ----
EXTENDS M1, M2, M3, M4, M5, M6, M7, M8, M9, M10, M11, M12, M13, M14, M15, M16, M17, M18, M19, M20, M21, M22, M23, M24, M25, M26, M27, M28, M29, M30, M31, M32, M33, M34, M35, M36, M37, M38, M39, M40, M41, M42, M43, M44, M45, M46, M47, M48, M49, M50, M51, M52, M53, M54, M55, M56, M57, M58, M59, M60, M61, M62, M63, M64
====
>each 1 62
---- MODULE M% ----
====
>refused refused: module M63 is missing

>case doubling definitions at 1,048,577 nodes
>file Row
---- MODULE Row ----
EXTENDS Integers, Sequences, FiniteSets
VARIABLE
  \* @type: Int;
  x
Init == x = 0
Next == x' = x
D0 == 1 + 1
D1 == D0 + D0
D2 == D1 + D1
D3 == D2 + D2
D4 == D3 + D3
D5 == D4 + D4
D6 == D5 + D5
D7 == D6 + D6
D8 == D7 + D7
D9 == D8 + D8
D10 == D9 + D9
D11 == D10 + D10
D12 == D11 + D11
D13 == D12 + D12
D14 == D13 + D13
D15 == D14 + D14
D16 == D15 + D15
D17 == D16 + D16
D18 == D17 + D17
Inv == D18 = 0
====
>expand Inv inv
refused: 1048577 nodes after expansion of Inv
>expand D18 inv
refused: 1048575 nodes after expansion of D18
>job Init Next - D1 Inv
refused: 1048577 nodes after expansion of Inv

>case doubling definitions at 524,289 nodes
>file Row
---- MODULE Row ----
EXTENDS Integers, Sequences, FiniteSets
VARIABLE
  \* @type: Int;
  x
Init == x = 0
Next == x' = x
D0 == 1 + 1
D1 == D0 + D0
D2 == D1 + D1
D3 == D2 + D2
D4 == D3 + D3
D5 == D4 + D4
D6 == D5 + D5
D7 == D6 + D6
D8 == D7 + D7
D9 == D8 + D8
D10 == D9 + D9
D11 == D10 + D10
D12 == D11 + D11
D13 == D12 + D12
D14 == D13 + D13
D15 == D14 + D14
D16 == D15 + D15
D17 == D16 + D16
Inv == D17 = 0
====
>expand Inv inv
size 524289 levels 20

>case 400 levels after expansion, and one more
>file Root
---- MODULE Root ----
VARIABLE x
D0 == ~~~~~~~~~~~~~~~~~~~~~~~~~~~~~~~~~~~~~~~~~~~~~~~~~~~~~~~~~~~~~~~~~~~~~~~~~~~~~~~~~~~~~~~~~~~~~~~~~~~~~~~~~~~~~~~~~~~~~~~~~~~~~~~~~~~~~~~~~~~~~~~~~~~~~~~~~~~~~~~~~~~~~~~~~~~~~~~~~~~~~~~~~~~~~~~~~~~~~~~~TRUE
D1 == ~~~~~~~~~~~~~~~~~~~~~~~~~~~~~~~~~~~~~~~~~~~~~~~~~~~~~~~~~~~~~~~~~~~~~~~~~~~~~~~~~~~~~~~~~~~~~~~~~~~~~~~~~~~~~~~~~~~~~~~~~~~~~~~~~~~~~~~~~~~~~~~~~~~~~~~~~~~~~~~~~~~~~~~~~~~~~~~~~~~~~~~~~~~~~~~~~~~~~~~D0
D2 == ~D1
D3 == x = 1 /\ D2 /\ CHOOSE y \in {1}: TRUE
D4 == (CHOOSE y \in {1}: TRUE) /\ D1
D5 == LET k == D2 IN TRUE
====
>expand D1 inv
size 400 levels 400
>expand D2 inv
refused: nesting past 400 after expansion of D2
>expand D3 inv
refused: nesting past 400 after expansion of D3
>expand D4 inv
refused: nesting past 400 after expansion of D4
>expand D5 inv
TRUE
>job D1 D1 - D1 D2
refused: nesting past 400 after expansion of D2
>job D2 D4 - Gone
refused: nesting past 400 after expansion of D2

>case levels that UNCHANGED and a box make
>file Root
---- MODULE Root ----
VARIABLE x
F == ~~~~~~~~~~~~~~~~~~~~~~~~~~~~~~~~~~~~~~~~~~~~~~~~~~~~~~~~~~~~~~~~~~~~~~~~~~~~~~~~~~~~~~~~~~~~~~~~~~~~~~~~~~~~~~~~~~~~~~~~~~~~~~~~~~~~~~~~~~~~~~~~~~~~~~~~~~~~~~~~~~~~~~~~~~~~~~~~~~~~~~~~~~~~~~~~~~~~~~~~~~~~~~~~~~~~~~~~~~~~~~~~~~~~~~~~~~~~~~~~~~~~~~~~~~~~~~~~~~~~~~~~~~~~~~~~~~~~~~~~~~~~~~~~~~~~~~~~~~~~~~~~~~~~~~~~~~~~~~~~~~~~~~~~~~~~~~~~~~~~~~~~~~~~~~~~~~~~~~~~~~~~~~~~~~~~~~~~~~~~~~~~~~~~~~~~~~~~~x
G == ~F
H == ~G
A == UNCHANGED F
B == [TRUE]_F
C == <<TRUE>>_F
D == [TRUE]_G
K == <<TRUE>>_<<x, F>>
L == UNCHANGED <<G, <<F>>>>
====
>expand H step
size 400 levels 400
>expand A step
size 797 levels 399
>expand B step
size 799 levels 400
>expand C step
refused: nesting past 400 after expansion of C
>expand D step
refused: nesting past 400 after expansion of D
>expand K step
refused: nesting past 400 after expansion of K
>expand L step
refused: nesting past 400 after expansion of L

>case annotations count as nodes and as levels
>file Root
---- MODULE Root ----
VARIABLE x
\* @type: Bool;
F == ~~~~~~~~~~~~~~~~~~~~~~~~~~~~~~~~~~~~~~~~~~~~~~~~~~~~~~~~~~~~~~~~~~~~~~~~~~~~~~~~~~~~~~~~~~~~~~~~~~~~~~~~~~~~~~~~~~~~~~~~~~~~~~~~~~~~~~~~~~~~~~~~~~~~~~~~~~~~~~~~~~~~~~~~~~~~~~~~~~~~~~~~~~~~~~~~~~~~~~~~~~~~~~~~~~~~~~~~~~~~~~~~~~~~~~~~~~~~~~~~~~~~~~~~~~~~~~~~~~~~~~~~~~~~~~~~~~~~~~~~~~~~~~~~~~~~~~~~~~~~~~~~~~~~~~~~~~~~~~~~~~~~~~~~~~~~~~~~~~~~~~~~~~~~~~~~~~~~~~~~~~~~~~~~~~~~~~~~~~~~~~~~~~~~~~~~~~~~~x
G == ~F
H == ~G
====
>expand F inv
size 399 levels 399
>expand G inv
size 400 levels 400
>expand H inv
refused: nesting past 400 after expansion of H

>case ASSUME is one operator
>file Root
---- MODULE Root ----
VARIABLE x
D0 == 1 + 1
D1 == D0 + D0
D2 == D1 + D1
D3 == D2 + D2
D4 == D3 + D3
D5 == D4 + D4
D6 == D5 + D5
D7 == D6 + D6
D8 == D7 + D7
D9 == D8 + D8
D10 == D9 + D9
D11 == D10 + D10
D12 == D11 + D11
D13 == D12 + D12
D14 == D13 + D13
D15 == D14 + D14
D16 == D15 + D15
D17 == D16 + D16
ASSUME D17 = 0
ASSUME D17 = x
Init == x = 1
====
>job Init Init -
refused: 1048579 nodes after expansion of ASSUME
>job Init Init D17
refused: 1048579 nodes after expansion of ASSUME

>case levels of one assumption and of two
>file Root
---- MODULE Root ----
EXTENDS A
ASSUME ~~~~~~~~~~~~~~~~~~~~~~~~~~~~~~~~~~~~~~~~~~~~~~~~~~~~~~~~~~~~~~~~~~~~~~~~~~~~~~~~~~~~~~~~~~~~~~~~~~~~~~~~~~~~~~~~~~~~~~~~~~~~~~~~~~~~~~~~~~~~~~~~~~~~~~~~~~~~~~~~~~~~~~~~~~~~~~~~~~~~~~~~~~~~~~~~~~~~~~~~~~~~~~~~~~~~~~~~~~~~~~~~~~~~~~~~~~~~~~~~~~~~~~~~~~~~~~~~~~~~~~~~~~~~~~~~~~~~~~~~~~~~~~~~~~~~~~~~~~~~~~~~~~~~~~~~~~~~~~~~~~~~~~~~~~~~~~~~~~~~~~~~~~~~~~~~~~~~~~~~~~~~~~~~~~~~~~~~~~~~~~~~~~~~~~~~~~~~~~~TRUE
Init == TRUE
====
>file A
---- MODULE A ----
ASSUME TRUE
====
>job Init Init -
refused: nesting past 400 after expansion of ASSUME

>case TooLarge before TooDeep before Reached
>file Root
---- MODULE Root ----
VARIABLE x
RECURSIVE R(_)
D0 == 1 + 1
D1 == D0 + D0
D2 == D1 + D1
D3 == D2 + D2
D4 == D3 + D3
D5 == D4 + D4
D6 == D5 + D5
D7 == D6 + D6
D8 == D7 + D7
D9 == D8 + D8
D10 == D9 + D9
D11 == D10 + D10
D12 == D11 + D11
D13 == D12 + D12
D14 == D13 + D13
D15 == D14 + D14
D16 == D15 + D15
D17 == D16 + D16
D18 == D17 + D17
E0 == ~~~~~~~~~~~~~~~~~~~~~~~~~~~~~~~~~~~~~~~~~~~~~~~~~~~~~~~~~~~~~~~~~~~~~~~~~~~~~~~~~~~~~~~~~~~~~~~~~~~~~~~~~~~~~~~~~~~~~~~~~~~~~~~~~~~~~~~~~~~~~~~~~~~~~~~~~~~~~~~~~~~~~~~~~~~~~~~~~~~~~~~~~~~~~~~~~~~~~~~~~~~~~~~~~~~~~~~~~~~~~~~~~~~~~~~~~~~~~~~~~~~~~~~~~~~~~~~~~~~~~~~~~~~~~~~~~~~~~~~~~~~~~~~~~~~~~~~~~~~~~~~~~~~~~~~~~~~~~~~~~~~~~~~~~~~~~~~~~~~~~~~~~~~~~~TRUE
E1 == ~~~~~~~~~~~~~~~~~~~~~~~~~~~~~~~~~~~~~~~~~~~~~~~~~~~~~~~~~~~~E0
A == (CHOOSE y \in {1}: TRUE) = E1 /\ D18 = 0
B == (CHOOSE y \in {1}: TRUE) = E1
C == CHOOSE y \in {D18}: TRUE
R(a) == a
D == LET k == R(D18) IN {1}
E == D18 = x'
====
>expand A inv
refused: 1048994 nodes after expansion of A
>expand B inv
refused: nesting past 400 after expansion of B
>expand C inv
refused: 1048578 nodes after expansion of C
>expand D inv
(SetEnum 1)
>expand E inv
refused: 1048577 nodes after expansion of E

>case UNCHANGED counts twice, a tuple's items each
>file Root
---- MODULE Root ----
VARIABLE x
D0 == x + 1
D1 == D0 + D0
D2 == D1 + D1
D3 == D2 + D2
D4 == D3 + D3
D5 == D4 + D4
D6 == D5 + D5
D7 == D6 + D6
D8 == D7 + D7
D9 == D8 + D8
D10 == D9 + D9
D11 == D10 + D10
D12 == D11 + D11
D13 == D12 + D12
D14 == D13 + D13
D15 == D14 + D14
D16 == D15 + D15
D17 == D16 + D16
A == UNCHANGED D16
B == UNCHANGED D17
C == UNCHANGED <<D16, x, D16>>
Keep(v) == UNCHANGED v
D == Keep(<<D16, x, <<D16>>>>)
E == [TRUE]_D17
====
>expand A step
size 524287 levels 19
>expand B step
refused: 1048575 nodes after expansion of B
>expand C step
refused: 1048578 nodes after expansion of C
>expand D step
refused: 1048579 nodes after expansion of D
>expand E step
refused: 1048577 nodes after expansion of E

>case the greatest count that is printed
>file Root
---- MODULE Root ----
D0 == 1 + 1
D1 == D0 + D0
D2 == D1 + D1
D3 == D2 + D2
D4 == D3 + D3
D5 == D4 + D4
D6 == D5 + D5
D7 == D6 + D6
D8 == D7 + D7
D9 == D8 + D8
D10 == D9 + D9
D11 == D10 + D10
D12 == D11 + D11
D13 == D12 + D12
D14 == D13 + D13
D15 == D14 + D14
D16 == D15 + D15
D17 == D16 + D16
D18 == D17 + D17
D19 == D18 + D18
D20 == D19 + D19
D21 == D20 + D20
D22 == D21 + D21
D23 == D22 + D22
D24 == D23 + D23
D25 == D24 + D24
D26 == D25 + D25
D27 == D26 + D26
D28 == D27 + D27
D29 == D28 + D28
D30 == D29 + D29
D31 == D30 + D30
D32 == D31 + D31
D33 == D32 + D32
D34 == D33 + D33
D35 == D34 + D34
D36 == D35 + D35
D37 == D36 + D36
D38 == D37 + D37
D39 == D38 + D38
D40 == D39 + D39
D41 == D40 + D40
D42 == D41 + D41
D43 == D42 + D42
D44 == D43 + D43
D45 == D44 + D44
D46 == D45 + D45
D47 == D46 + D46
D48 == D47 + D47
D49 == D48 + D48
D50 == D49 + D49
D51 == D50 + D50
D52 == D51 + D51
D53 == D52 + D52
D54 == D53 + D53
D55 == D54 + D54
D56 == D55 + D55
D57 == D56 + D56
D58 == D57 + D57
D59 == D58 + D58
D60 == D59 + D59
====
>expand D37 inv
refused: 549755813887 nodes after expansion of D37
>expand D38 inv
refused: 1000000000000 nodes after expansion of D38
>expand D60 inv
refused: 1000000000000 nodes after expansion of D60

>case doubling by parameters
>file Root
---- MODULE Root ----
P0(a) == a + a
P1(a) == P0(P0(a))
P2(a) == P1(P1(a))
P3(a) == P2(P2(a))
P4(a) == P3(P3(a))
P5(a) == P4(P4(a))
P6(a) == P5(P5(a))
P7(a) == P6(P6(a))
P8(a) == P7(P7(a))
P9(a) == P8(P8(a))
P10(a) == P9(P9(a))
P11(a) == P10(P10(a))
N4 == P4(1)
N5 == P5(1)
N6 == P6(1)
N11 == P11(1)
Zero(a) == 0
None == Zero(P11(1))
Let == LET q(a) == P5(a) r(a) == q(q(a)) IN r(1) + q(2)
====
>expand N4 inv
size 131071 levels 17
>expand N5 inv
refused: 8589934591 nodes after expansion of N5
>expand N6 inv
refused: 1000000000000 nodes after expansion of N6
>expand N11 inv
refused: 1000000000000 nodes after expansion of N11
>expand None inv
0
>expand Let inv
refused: 1000000000000 nodes after expansion of Let
"##;
