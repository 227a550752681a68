// Set forms: what may stand on the right of a membership or an inclusion.
use tla_values::{Boxed, List, Text, Value};

/// A set form: a set, or one of those that are described by what belongs to them (Specifying Systems, section 16.1).
#[derive(Drop)]
pub enum SetForm {
    /// A value, which is to be a set.
    Plain(Value),
    /// `Int`.
    AllInts,
    /// `Nat`.
    AllNats,
    /// `STRING`.
    AllTexts,
    /// `Seq(F)`.
    Sequences(Boxed<SetForm>),
    /// `[S -> F]`.
    Functions(List<Value>, Boxed<SetForm>),
    /// `SUBSET F`.
    Subsets(Boxed<SetForm>),
    /// `[a: F, b: G]`.
    Records(List<Text>, List<SetForm>),
    /// `F \X G`.
    Tuples(List<SetForm>),
}
