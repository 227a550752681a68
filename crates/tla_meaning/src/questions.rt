// What is asked of a job under a width.

/// A question that is asked of a level, or of one step from a typed state.
#[derive(Clone, Copy, Debug, Drop, PartialEq, Eq)]
pub enum Query {
    /// The start or a step applies an operator outside its domain.
    StepWrong,
    /// The start or a step computes an integer outside the width.
    StepBig,
    /// An invariant is FALSE, or applies an operator outside its domain.
    InvNotTrue,
    /// An invariant computes an integer outside the width.
    InvBig,
    /// The hypothesis computes an integer outside the width: asked of a typed state alone.
    AssumeBig,
}
