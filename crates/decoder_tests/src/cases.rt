//! Cells, a case a line: the cells, the values of the free bits a to d, and the text of what is
//! decoded.
//!
//! A cell is named by its place in the line, from 0. A literal is a bit, in capitals its negation,
//! or T or F. The first letter of a word says what it makes: B a truth cell of a literal, N a number
//! of four literals with the lowest first, X a text by its place among `f`, `g` and the empty one, S
//! a set by two letters for an edge (its literal, its member), A a function by three for an edge (its
//! literal, its argument, its result), R a record of cells with the names `g`, `f` and `h` in this
//! order, U a tuple, and Q a sequence by its length and its places.

/// The value of the last cell.
pub(crate) const VALUES: &str = r#"Ba | 0000 => FALSE
Ba | 1000 => TRUE
BA | 1000 => FALSE
BT | 0000 => TRUE
BF | 1111 => FALSE
Nabcd | 0000 => 0
Nabcd | 1010 => 5
Nabcd | 1110 => 7
Nabcd | 0001 => -8
Nabcd | 1111 => -1
NdFFA | 0001 => -7
X0 | 0000 => "f"
X1 | 0000 => "g"
X2 | 0000 => ""
S | 0000 => {}
NTFFF NFTFF Sa0b1 | 0000 => {}
NTFFF NFTFF Sa0b1 | 1000 => {1}
NTFFF NFTFF Sa0b1 | 0100 => {2}
NTFFF NFTFF Sb1a0 | 1100 => {1, 2}
NTFFF NFTFF Sa0A1 | 0000 => {2}
NTFFF ST0T0T0 | 0000 => {1}
NaFFF NbFFF Sc0d1 | 0011 => {0}
NaFFF NbFFF Sc0d1 | 1011 => {0, 1}
NaFFF NbFFF Sc0d1 | 1001 => {0}
NTFFT NTTTF NFFFF ST0T1T2 | 0000 => {-7, 0, 7}
X0 X1 X2 ST0T1T2 | 0000 => {"", "f", "g"}
NTFFF Sa0 Sb0 ST1T2 | 1100 => {{1}}
NTFFF Sa0 Sb0 ST1T2 | 1000 => {{}, {1}}
NTFFF Sa0 Sb0 Sc1d2 | 1001 => {{}}
NTFFF NFTFF ST0T1 ST0 S ST2T3T4 | 0000 => {{}, {1}, {1, 2}}
NTFFF NFTFF ST0 ST1 ST2T3 ST2 ST4T5 | 0000 => {{{1}}, {{1}, {2}}}
A | 0000 => <<>>
X0 NTFFF NFTFF Aa01b02 | 0000 => <<>>
X0 NTFFF NFTFF Aa01b02 | 1000 => [f |-> 1]
X0 NTFFF NFTFF Aa01b02 | 0100 => [f |-> 2]
X0 NTFFF NFTFF Aa01b02 | 1100 => [f |-> 1]
X0 NTFFF NFTFF Ab02a01 | 1100 => [f |-> 2]
X0 X1 NTFFF AT12T02 | 0000 => [f |-> 1, g |-> 1]
NTFFF NFTFF NTTFF AT21T12T00 | 0000 => <<1, 3, 2>>
NTFFF NFFFF AT01T10 | 0000 => (0 :> 1 @@ 1 :> 0)
NaFFF NbFFF BT BF Ac02d13 | 0011 => (0 :> TRUE)
NaFFF NbFFF BT BF Ac02d13 | 0111 => (0 :> TRUE @@ 1 :> FALSE)
NaFFF NbFFF BT BF Ac02d13 | 0001 => (0 :> FALSE)
BF BT AT01T10 | 0000 => (FALSE :> TRUE @@ TRUE :> FALSE)
NTFFF ST0 Sa0 BT AT13T23 | 1000 => ({1} :> TRUE)
NTFFF ST0 Sa0 BT AT13T23 | 0000 => ({} :> TRUE @@ {1} :> TRUE)
R | 0000 => <<>>
NTFFF R0 | 0000 => [g |-> 1]
NTFFF Ba R01 | 1000 => [f |-> TRUE, g |-> 1]
NTFFF Ba X1 R012 | 0000 => [f |-> FALSE, g |-> 1, h |-> "g"]
NTFFF Ba R01 R22 | 1000 => [f |-> [f |-> TRUE, g |-> 1], g |-> [f |-> TRUE, g |-> 1]]
NTFFF Ba R01 Sb2T2 | 0000 => {[f |-> FALSE, g |-> 1]}
U | 0000 => <<>>
NTFFF U0 | 0000 => <<1>>
NFTFF Ba X0 U201 | 1000 => <<"f", 2, TRUE>>
NFTFF U00 U11 | 0000 => <<<<2, 2>>, <<2, 2>>>>
Q0 | 0000 => <<>>
NTFFF NFTFF Q001 | 0000 => <<>>
NTFFF NFTFF Q101 | 0000 => <<1>>
NTFFF NFTFF Q201 | 0000 => <<1, 2>>
NTFFF NFTFF Q2101 | 0000 => <<2, 1>>
NTFFF Sa0 Q11 Q2222 | 1000 => <<<<{1}>>, <<{1}>>>>
"#;

/// The states of all cells.
pub(crate) const STATES: &str = r#" | 0000 => ()
NabFF | 1000 => (1)
NabFF Ba | 0100 => (2, FALSE)
NTFFF Sa0 Sb1 Sc1T2 | 1110 => (1, {1}, {{1}}, {{1}, {{1}}})
NTFFF Sa0 Sb1 Sc1T2 | 0010 => (1, {}, {}, {{}})
NTFFF Sa0 Q11 U12 X0 AT44 | 0000 => (1, {}, <<{}>>, <<{}, <<{}>>>>, "f", [f |-> "f"])
"#;
