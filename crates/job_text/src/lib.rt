//! Small jobs as texts, for tests.
//!
//! A tree is written in prefix notation: `(word a b)` is a node with its children, `{a b}` a set and `<a b>` a tuple. `:8`
//! behind a word, or behind the `{` or `<`, is the column of its place. `[i j]` behind the word has the names that are
//! bound, the fields of a record, the numbers of an EXCEPT's indexes, or the text of a note. `x`, `y` and `z` are the
//! declared names in order and `x'` is a primed one; every other name is a bound one, and `@` that of EXCEPT.
//!
//! What is declared is written `x: T`, `x@4: T` with the column of its place, or `x` without an annotation, with
//! `constant ` in front of a constant, and `$a = T` for an alias, with `; ` between them. Trees are the last of CInit,
//! the assumptions, Init, Next and the invariants; the others are TRUE.
#![tactic(auto)]

mod jobs;
mod reader;
mod words;

pub use jobs::job_of;
pub use reader::read;
