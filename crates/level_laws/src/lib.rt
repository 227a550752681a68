//! From the paths of a step over cells to the levels of a search and the questions that are asked of them: which formulas
//! stand for all executions of so many steps, and for no others.
#![tactic(auto)]
