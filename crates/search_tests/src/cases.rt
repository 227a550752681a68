//! Searches step by step, one a line: the clauses, the steps, and what they tell.
//!
//! A letter is a variable, and its negation is written as a capital; `top` is "`". A word is a clause, `-` the empty one;
//! clause 0 is `top`. The steps: `*` propagates and tells the number of a clause that is false, `~` whether there is one;
//! `+a` pushes; `<2` takes back all but two entries; `!aB` learns and tells the number; `?` tells the entries, each with
//! the number of its reason; `=a` tells a value, `@a` the place of an entry, `%` the clauses.

/// What the clauses force, and where it ends.
pub(crate) const STEPS: &str = r#"Ab Bc ; * +a * ? => open open [`0 a b1 c2]
Ab Bc ; +C * ? => open [C `0 B2 A1]
abc ; * +A +B +C * => open 1
abc ; +A +B * ? => open [A B `0 c1]
abc ; +A +B +C * * => 1 1
a A ; ~ <0 ~ => false false
Ab AB ; * +a ~ <1 ~ +A ~ => open false open open
Ab ; * +a * =a =A =b =c @b @c => open open true false true free 2 none
aBc - ; % => [`] [aBc] []
abc ; * +A * +B * ? <2 +C * ? => open open open [`0 A B c1] open [`0 A C b1]
abc Bd ; * +A * +C * ? <2 * +B * ? => open open open [`0 A C b1 d2] open open [`0 A B c1]
a Ab Bcd ; * ? +C * ? <3 ? =c =d => open [`0 a1 b2] open [`0 a1 b2 C d3] [`0 a1 b2] free free
a Ab Bcd ; * !Ac * ? => open 4 open [`0 a1 b2 c4]
abcd ; * +A * +B * <2 +C * +D * ? => open open open open open [`0 A C D b1]
"#;

/// Entries are taken back: inside a level, behind what is pending, and to the start with its units.
pub(crate) const BACK: &str =
    r#"Ab Bc Cd ; * +a * <3 ? * ? => open open [`0 a b1] open [`0 a b1 c2 d3]
Ab Cd ; * +a +c * ? <2 * ? => open open [`0 a c b1 d2] open [`0 a b1]
Ab Cd ; * +a +c <2 * ? => open open [`0 a b1]
a Ab ; * ? <0 ? * ? => open [`0 a1 b2] [] open [`0 a1 b2]
a Ab ; * <2 * ? => open open [`0 a1 b2]
abc ; * +A +B +C * <3 * ? => open 1 open [`0 A B c1]
abc ; * +A * +B * <4 * ? => open open open open [`0 A B c1]
ab Ac ; * +c * +B * <3 * ? <2 * +A * ? => open open open open [`0 c B a1] open open [`0 c A b1]
"#;

/// Clauses that are learned: false, units of an older level, true, short ones, and such with a literal twice.
pub(crate) const LEARNED: &str = r#"Ab ; * +a * !AB * <1 * +a ~ => open open 2 2 open false
Ab Cd ; * +a * +c * !AE * ? <3 * ? => open open open 3 open [`0 a b1 c d2 E3] open [`0 a b1 E3]
Ab Cd ; * +a * +c * !EA * ? <3 * ? => open open open 3 open [`0 a b1 c d2 E3] open [`0 a b1 E3]
Ab ; * +c * !a * ? <2 * ? <1 * ? => open open 2 open [`0 c a2 b1] open [`0 c a2 b1] open [`0 a2 b1]
Ab ; * +a * !A * <1 * ? => open open 2 2 open [`0 A2]
; * +a * +b * !aB !Ac * ? <2 * ? => open open open 1 2 open [`0 a b c2] open [`0 a c2]
; * +a * +b * +c * !CBA ~ <3 * ? => open open open open 1 false open [`0 a b C1]
; * +a * +b * !Bc !CA * <2 * ? => open open open 1 2 2 open [`0 a C2 B1]
; * !- * <0 * => open 1 1 1
; !- !a * => 1 2 1
aA ; * +a * ? <1 +A * ? => open open [`0 a] open [`0 A]
aa ; * ? => open [`0 a1]
aab ; * +A * ? => open open [`0 A b1]
; * +A * !aab * ? !AaA * ? => open open 1 open [`0 A b1] 2 open [`0 A b1]
; * +a +b * !ABa !AABB * => open open 1 2 2
"#;
