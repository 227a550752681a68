// How types are formed.

/// How a type is formed, as far as it is known: what decides between the choices of an overloaded node.
#[derive(Clone, Copy, Drop)]
pub enum Kind {
    /// A variable: nothing is known yet.
    NotFormed,
    Function,
    Sequence,
    Tuple,
    Record,
    /// Any other: no overloaded node has a choice for it.
    Other,
}
