// Where the language leaves room: sets of modules with what is expected of them, in the form that `reader` reads.

pub(crate) const ROOM: &str = r##">case @ outside of the right side of an EXCEPT
>file Root
---- MODULE Root ----
VARIABLE f
Good == [f EXCEPT ![1] = \E y \in {@}: y = @]
Bad == [f EXCEPT ![@] = 1]
====
>refused refused: name @ is unknown at Root:4:20

>case a variable used before it is declared
>file Root
---- MODULE Root ----
Inv == x = 1
VARIABLE x
====
>refused refused: name x is unknown at Root:2:8

>case a parameter with the name of its own definition
>file Root
---- MODULE Root ----
F(F) == F + 1
Inv == F(2) = 3
====
>flat
define F/1 Root:2:1
define Inv/0 Root:3:1
>expand Inv inv
(Eq (Add 2 1) 3)

>case a LOCAL operator of the root is named
>file Root
---- MODULE Root ----
VARIABLE x
LOCAL Init == x = 1
LOCAL INSTANCE M
====
>file M
---- MODULE M ----
Inv == 1 = 1
====
>job Init Init - Inv
cinit TRUE
assume TRUE
init (Eq $x 1)
next (Eq $x 1)
inv Inv (Eq 1 1)

>case an instance's operator is named
>file Root
---- MODULE Root ----
VARIABLE x
I == INSTANCE M
====
>file M
---- MODULE M ----
VARIABLE x
Inv == x = 1
====
>job I!Inv I!Inv - I!Inv
cinit TRUE
assume TRUE
init (Eq $x 1)
next (Eq $x 1)
inv I!Inv (Eq $x 1)

>case the same expression in EXTENDS and WITH
>file Root
---- MODULE Root ----
EXTENDS U
INSTANCE U WITH c <- c
====
>file U
---- MODULE U ----
CONSTANT c
Op == c
====
>files Root U
>refused refused: name Op is declared at U:3:1 and at U:3:1

>case the 65th module is missing
>file Row
---- MODULE Row ----
EXTENDS M1, M2, M3, M4, M5, M6, M7, M8, M9, M10, M11, M12, M13, M14, M15, M16, M17, M18, M19, M20, M21, M22, M23, M24, M25, M26, M27, M28, M29, M30, M31, M32, M33, M34, M35, M36, M37, M38, M39, M40, M41, M42, M43, M44, M45, M46, M47, M48, M49, M50, M51, M52, M53, M54, M55, M56, M57, M58, M59, M60, M61, M62, M63, M64
====
>file M1
---- MODULE M1 ----
====
>file M2
---- MODULE M2 ----
====
>file M3
---- MODULE M3 ----
====
>file M4
---- MODULE M4 ----
====
>file M5
---- MODULE M5 ----
====
>file M6
---- MODULE M6 ----
====
>file M7
---- MODULE M7 ----
====
>file M8
---- MODULE M8 ----
====
>file M9
---- MODULE M9 ----
====
>file M10
---- MODULE M10 ----
====
>file M11
---- MODULE M11 ----
====
>file M12
---- MODULE M12 ----
====
>file M13
---- MODULE M13 ----
====
>file M14
---- MODULE M14 ----
====
>file M15
---- MODULE M15 ----
====
>file M16
---- MODULE M16 ----
====
>file M17
---- MODULE M17 ----
====
>file M18
---- MODULE M18 ----
====
>file M19
---- MODULE M19 ----
====
>file M20
---- MODULE M20 ----
====
>file M21
---- MODULE M21 ----
====
>file M22
---- MODULE M22 ----
====
>file M23
---- MODULE M23 ----
====
>file M24
---- MODULE M24 ----
====
>file M25
---- MODULE M25 ----
====
>file M26
---- MODULE M26 ----
====
>file M27
---- MODULE M27 ----
====
>file M28
---- MODULE M28 ----
====
>file M29
---- MODULE M29 ----
====
>file M30
---- MODULE M30 ----
====
>file M31
---- MODULE M31 ----
====
>file M32
---- MODULE M32 ----
====
>file M33
---- MODULE M33 ----
====
>file M34
---- MODULE M34 ----
====
>file M35
---- MODULE M35 ----
====
>file M36
---- MODULE M36 ----
====
>file M37
---- MODULE M37 ----
====
>file M38
---- MODULE M38 ----
====
>file M39
---- MODULE M39 ----
====
>file M40
---- MODULE M40 ----
====
>file M41
---- MODULE M41 ----
====
>file M42
---- MODULE M42 ----
====
>file M43
---- MODULE M43 ----
====
>file M44
---- MODULE M44 ----
====
>file M45
---- MODULE M45 ----
====
>file M46
---- MODULE M46 ----
====
>file M47
---- MODULE M47 ----
====
>file M48
---- MODULE M48 ----
====
>file M49
---- MODULE M49 ----
====
>file M50
---- MODULE M50 ----
====
>file M51
---- MODULE M51 ----
====
>file M52
---- MODULE M52 ----
====
>file M53
---- MODULE M53 ----
====
>file M54
---- MODULE M54 ----
====
>file M55
---- MODULE M55 ----
====
>file M56
---- MODULE M56 ----
====
>file M57
---- MODULE M57 ----
====
>file M58
---- MODULE M58 ----
====
>file M59
---- MODULE M59 ----
====
>file M60
---- MODULE M60 ----
====
>file M61
---- MODULE M61 ----
====
>file M62
---- MODULE M62 ----
====
>file M63
---- MODULE M63 ----
====
>refused refused: more than 64 modules

>case a name that clashes across files, and its use
>file Root
---- MODULE Root ----
EXTENDS A
F(a, b) == a
Inv == F(1, 2)
====
>file A
---- MODULE A ----
F(a) == a
====
>files Root A
>refused refused: name F is declared at Root:3:1 and at A:2:1

>case an exponent that is a literal only after expansion
>file Root
---- MODULE Root ----
P(n) == 2 ^ n
Inv == P(3) = 8
====
>expand Inv inv
refused: POWER is reached at Root:2:11

>case one module by EXTENDS and by INSTANCE, with a LOCAL name
>file Root
---- MODULE Root ----
EXTENDS U
INSTANCE U
I == INSTANCE U
Inv == Op = I!Op
====
>file U
---- MODULE U ----
LOCAL h == 3
Op == h
====
>files Root U
>flat
define !!/0 U:2:7
define Op/0 U:3:1
define !!/0 U:2:7
define !!/0 U:2:7
define I!Op/0 U:3:1
define Inv/0 Root:5:1
>expand Inv inv
(Eq 3 3)
"##;
