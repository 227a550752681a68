//! Tests of kernel trees as cells: what the cells decode to, against what the evaluator gives of the expressions for
//! which the trees stand, and how many variables, clauses and cells they take.
#![tactic(auto)]

#[cfg(test)]
mod agreeing;
#[cfg(test)]
mod cases;
#[cfg(test)]
mod decoding;
#[cfg(test)]
mod given;
#[cfg(test)]
mod jobs;
#[cfg(test)]
mod random_cases;
#[cfg(test)]
mod reports;
#[cfg(test)]
mod rows;
#[cfg(test)]
mod settings;
#[cfg(test)]
mod shapes;
#[cfg(test)]
mod sizes;
#[cfg(test)]
mod texts;
#[cfg(test)]
mod value_cells;
