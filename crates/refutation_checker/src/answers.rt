//! What the checker answers.

/// `Yes`: each step follows and the last is the empty clause. `Open`: each step follows, and the
/// last is not the empty clause or there is none. `No`: the written number of the first step that
/// does not follow.
#[derive(Clone, Copy, Debug, PartialEq, Eq)]
pub enum Check {
    Yes,
    Open,
    No(u64),
}

/// `Accepted`: each line is in the grammar and each step follows; the numbers of refuted and of
/// open sections. `BadLine`: the first line outside the grammar, counted from 1. `BadStep`: the
/// first step that does not follow, by its section, counted from 1, and its written number.
#[derive(Clone, Copy, Debug, PartialEq, Eq)]
pub enum Recheck {
    Accepted(u64, u64),
    BadLine(u64),
    BadStep(u64, u64),
}
