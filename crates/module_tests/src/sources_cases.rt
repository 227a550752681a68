// Files: sets of modules with what is expected of them, in the form that `reader` reads.

pub(crate) const SOURCES: &str = r##">case no file of the root
>file Other
---- MODULE Other ----
====
>root Gone
>files
>refused refused: module Gone is missing

>case no file of an instance
>file Row
---- MODULE Row ----
I == INSTANCE Inc WITH c <- 2
Inv == gone
====
>files Row
>refused refused: module Inc is missing

>case no bytes
>empty Row
>files Row
>refused refused: no module header in Row

>case no header in an extended module
>file Row
---- MODULE Row ----
EXTENDS A, Gone
====
>file A
--- MODULE A ---
x == 1
>files Row A
>refused refused: no module header in A

>case no header after the word
>file Row
---- MODULES Row ----
====
>files Row
>refused refused: no module header in Row

>case another module's name in the file
>file Row
---- MODULE Row ----
EXTENDS A
====
>file A
---- MODULE B ----
EXTENDS Gone
====
>files Row A
>refused refused: file A holds module B

>case another module's name in the root
>file Row
---- MODULE row ----
EXTENDS Row
====
>files Row
>refused refused: file Row holds module row

>case the grammar before the name
>file Row
---- MODULE Row ----
INSTANCE A
====
>file A
---- MODULE B ----
x == 1 +
====
>files Row A
>refused refused: grammar at A:2:1

>case the lexer before the grammar
>file A
---- MODULE B ----
x == 1 +
y == a ? b
====
>files A
>refused refused: bad token at A:3:8

>case an open comment in an instance
>file Row
---- MODULE Row ----
I == INSTANCE A
Inv == gone
====
>file A
---- MODULE A ----
x == 1 (* one (* two *)
====
>files Row A
>refused refused: open comment at A:2:8

>case a number past 128 bits
>file A
---- MODULE A ----
x == 170141183460469231731687303715884105727
y == 170141183460469231731687303715884105728
====
>files A
>refused refused: number past 128 bits at A:3:6

>case a refused form in an extended module
>file Row
---- MODULE Row ----
EXTENDS A, Gone
====
>file A
---- MODULE A ----
CONSTANT Op(_)
====
>files Row A
>refused refused: operator parameter is not supported at A:2:13

>case the first module in reading order
>file Row
---- MODULE Row ----
EXTENDS A, B
====
>file A
---- MODULE A ----
EXTENDS C
====
>file B
)
>file C
---- MODULE C ----
x == (
====
>files Row A C
>refused refused: grammar at C:2:1

>case a mention behind a fault in the same module
>file A
---- MODULE A ----
INSTANCE Gone
x == )
====
>files A
>refused refused: grammar at A:3:1

>case the first mention that is missing
>file Row
---- MODULE Row ----
EXTENDS A
I == INSTANCE Gone1
J == INSTANCE Gone2
====
>file A
---- MODULE A ----
x == 1
====
>files Row A
>refused refused: module Gone1 is missing

>case a failed read
>file Row
---- MODULE Row ----
EXTENDS A, Gone
====
>file A
---- MODULE A ----
====
>fails 1
>refused read fault: A.tla

>case a failed read of a file that is missing
>file Row
---- MODULE Row ----
EXTENDS Gone
====
>fails 1
>refused read fault: Gone.tla

>case a cycle of two
>file Row
---- MODULE Row ----
EXTENDS A
====
>file A
---- MODULE A ----
EXTENDS Row
====
>files Row A
>refused refused: modules mention each other: Row, A, Row

>case a module that mentions itself
>file Row
---- MODULE Row ----
x == 1
I == INSTANCE Row
====
>files Row
>refused refused: modules mention each other: Row, Row

>case a cycle that the root is not in
>file Row
---- MODULE Row ----
EXTENDS Naturals, A
====
>file A
---- MODULE A ----
EXTENDS D
I == INSTANCE B
====
>file B
---- MODULE B ----
LOCAL INSTANCE C
J == INSTANCE Gone
====
>file C
---- MODULE C ----
EXTENDS D, A
====
>file D
---- MODULE D ----
====
>files Row A D B C
>refused refused: modules mention each other: A, B, C, A

>case a missing module before the mention that closes a cycle
>file Row
---- MODULE Row ----
EXTENDS A
====
>file A
---- MODULE A ----
EXTENDS Gone, Row
====
>files Row A
>refused refused: module Gone is missing

>case a cycle before a missing module
>file Row
---- MODULE Row ----
EXTENDS A
====
>file A
---- MODULE A ----
EXTENDS Row, Gone
====
>files Row A
>refused refused: modules mention each other: Row, A, Row

>case a root that is called as a standard module
>file Sequences
---- MODULE Sequences ----
EXTENDS Naturals
Len == 1
Inv == Len = 1
====
>files Sequences
>flat
define Len/0 Sequences:3:1
define Inv/0 Sequences:4:1
>expand Inv inv
(Eq 1 1)

>case a file that is called as a standard module, not the root
>file Row
---- MODULE Row ----
EXTENDS Naturals
Inv == 1 \in Nat
====
>file Naturals
---- MODULE Other ----
Nat == (
====
>files Row
>flat
define Inv/0 Row:3:1
>expand Inv inv
(In 1 NatSet)
"##;
