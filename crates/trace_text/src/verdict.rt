// What a check finds.
use tla_meaning::{Place, State};
use tla_values::{List, Text};

/// What a check finds. Levels count the steps of an execution; places are those of the module texts.
#[derive(Drop)]
pub enum Verdict {
    /// No level up to this one errs.
    Clean(u32),
    /// The invariant is inductive from the typed states within the bounds.
    Inductive,
    /// The level errs, and no lower one does.
    Error(u32, Fault, Trace),
    /// An integer outside the width was computed there.
    Overflow(Where, Part, Place, Trace),
    /// So many conflicts were spent before there was an answer there.
    Spent(u64, Where),
    /// A step from a typed state breaks the invariant or applies an operator outside its domain.
    NotInductive(Fault, Trace),
}

/// The states of an execution, and the state that it came to a fault on the way to, where there is one.
#[derive(Drop)]
pub struct Trace {
    pub states: List<State>,
    pub attempt: Option<State>,
}

/// What is wrong.
#[derive(Drop)]
pub enum Fault {
    /// The invariant of this name is FALSE at the last state.
    InvFalse(Text),
    /// The invariant of this name applies an operator outside its domain at the last state.
    InvWrong(Text, Place),
    /// The start applies an operator outside its domain.
    StartWrong(Place),
    /// Next applies an operator outside its domain.
    StepWrong(Place),
}

/// From where a question was asked.
#[derive(Clone, Copy, Debug, Drop, PartialEq, Eq)]
pub enum Where {
    /// Of the executions of so many steps.
    Level(u32),
    /// Of the typed states within the bounds.
    Typed,
}

/// Which part of a job computed an integer outside the width.
#[derive(Drop)]
pub enum Part {
    Start,
    Assumption,
    Step,
    /// The invariant of this name.
    Inv(Text),
}
