// What an expression gives in a state.
use crate::place::Place;
use tla_values::Value;

/// What an expression gives.
#[derive(Drop)]
pub enum Outcome {
    Val(Value),
    Wrong(Place),
    Big(Place),
}

/// What kept an outcome from being a value.
#[derive(Clone, Copy, Debug, Drop, PartialEq, Eq)]
pub enum Fault {
    NoFault,
    IsWrong(Place),
    IsBig(Place),
}
