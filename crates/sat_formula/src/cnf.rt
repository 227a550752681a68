//! Plain clauses.

use crate::clause::Clauses;

/// A number of variables, and clauses whose variables are below it. No variable is set apart.
#[derive(Drop)]
pub struct Cnf {
    pub vars: usize,
    pub clauses: Clauses,
}
