// Modules with their requests, and what is answered.
//
// The expected answers are written by hand, from the rules of the language and of paths and shapes.

/// Of the module `Row` a line each: the type, Init, Next and Inv, behind these the options, and the answer.
pub(crate) const ROWS: &str = r#"Int ; x = 0 ; x' = x ; TRUE ; => accepted, paths 1 1 1, levels 1
Int ; x = 0 ; x' = x ; TRUE ; length=3 => accepted, paths 1 1 1, levels 4
Int ; x = 0 ; x' = x /\ y = 0 ; TRUE ; => Module Unknown y 0:7:19
Bool ; x = FALSE ; x' = x ; x /\ x \/ x ; => Module Parse BadGrammar 0:8:1
Int ; x = 0 ; x' = x ; TRUE ; inv=Gone => Inline NoOperator Gone
Int ; x = 0 ; x' = x ; TRUE ; inv=Inv,Gone => Inline NoOperator Gone
Int ; x = 0 ; x' = x ; x = CHOOSE y \in {0}: TRUE ; => Inline Reached 0:8:12
Intt ; x = 0 ; x' = x ; TRUE ; => Type BadAnnotation 0:5:3
Int ; x = 0 ; x' = x ; {1, "a"} = {} ; => Type Clash 0:8:8
Int ; x = 0 ; x' = x ; \A i \in Int: i = i ; => Ker NotFinite 0:8:17
Int ; x = 0 ; 13 ; TRUE ; => Split TooManyPaths 8192
Int ; x = 0 ; 12 ; TRUE ; => accepted, paths 1 1 4096, levels 1
Int ; x = 0 ; x' = 1 \/ x = 0 ; TRUE ; => Assign Unassigned 0 0:7:21
Int ; x = 0 ; x' > 0 /\ x' = 1 ; TRUE ; => Assign ReadEarly 0 0:7:9
Int ; x \in Int ; x' = x ; TRUE ; => Assign Infinite 0:6:15
Int ; x \in 0..3 ; x' = x ; TRUE ; => accepted, paths 1 1 1, levels 1
Bool ; x = TRUE ; x' = x ; \A S \in SUBSET (1..16): x ; => accepted, paths 1 1 1, levels 1
Bool ; x = TRUE ; x' = x ; \A S \in SUBSET (1..17): x ; => Shape TooLarge 131072 0 0:8:17
Int ; x = 0 ; x' = x ; Cardinality(1..70000) > 0 ; => Shape TooLarge 70000 0 0:8:21
Int ; x = 0 ; x' = Cardinality(1..70000) ; TRUE ; => accepted, paths 1 1 1, levels 1
Int ; x = 0 ; x' = Cardinality(1..70000) ; TRUE ; length=2 => Shape TooLarge 70000 1 0:7:27
Seq(Int) ; x = <<0>> ; x' = x \o x ; TRUE ; length=12 => accepted, paths 1 1 1, levels 13
Seq(Int) ; x = <<0>> ; x' = x \o x ; TRUE ; length=20 => Shape TooLong 8192 13 0:7:16
Set(Int) ; x = {1} ; x' = x ; \A i \in SUBSET x: TRUE ; => accepted, paths 1 1 1, levels 1
Set(Int) ; x = {1} ; x' = x ; \A i \in SUBSET x: TRUE ; size=16 => accepted, paths 1 1 1, levels 1
Set(Int) ; x = {1} ; x' = x ; \A i \in SUBSET x: TRUE ; size=17 => Shape TooLarge 131072 0 0:8:17"#;

/// The same where two causes stand together: the stages come in their order, and so do CInit, Init and Next.
pub(crate) const PAIRS: &str =
    r#"Int ; x = 0 ; x' = x /\ y = 0 ; CHOOSE z \in {0}: TRUE ; => Module Unknown y 0:7:19
Int ; x = 0 ; x' = x ; {1, "a"} = {} ; inv=Inv,Gone => Inline NoOperator Gone
Int ; x = 0 ; x' = x ; {1, "a"} = Int ; => Type Clash 0:8:8
Int ; x = 0 ; 13 ; \A i \in Int: i = i ; => Ker NotFinite 0:8:17
Int ; x \in Int ; 13 ; TRUE ; => Split TooManyPaths 8192
Int ; TRUE ; x = 0 ; TRUE ; => Assign Unassigned 0 0:6:9
Int ; x = 0 \/ x \in Int \/ TRUE ; x' = x ; TRUE ; => Assign Infinite 0:6:24
Int ; x = 0 ; x = 0 ; Cardinality(1..70000) > 0 ; => Assign Unassigned 0 0:7:11
Set(Int) ; x = {1} ; x' = x ; Cardinality(1..70000) > 0 /\ \A i \in SUBSET x: TRUE ; size=17 => Shape TooLarge 70000 0 0:8:21"#;

/// A module with a constant, and what is answered where CInit is named.
pub(crate) const WITH_CONSTANT: &str = r#"---- MODULE Row ----
EXTENDS Integers
CONSTANT
  \* @type: Int;
  c
VARIABLE
  \* @type: Int;
  x
C == c \in 1..2 \/ c = 5
Init == x = 0
Next == x' = x + c
Inv == x # 4
===="#;

pub(crate) const CONSTANTS: &str = r#"=> Assign Unassigned 0 0:1:1
cinit=C => accepted, paths 2 1 1, levels 1
cinit=Init => Inline Reached 0:10:9
cinit=Gone => Inline NoOperator Gone"#;
