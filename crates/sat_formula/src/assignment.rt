//! Assignments of truth values.

ghost use Rattle.std.specs.Prelude.{◌≡◌, ◌<◌, length};
ghost use Rattle.sat_formula.specs.Lit.{lit_value};

use crate::lit::Lit;
use std::marker::Model;

/// A truth value for each variable from 0 on. Contracts see it as that list.
#[derive(Drop)]
pub struct Assignment {
    values: Vec<bool>,
}

impl Model for Assignment {
    ghost use Rattle.std.specs.Prelude.{List, Bool};

    ghost Value = { List Bool };

    ghost view = { λ c. c.values.items };
}

impl Assignment {
    /// The assignment of these values, which takes no memory.
    pub fn from_vec(values: Vec<bool>) -> Assignment
        ensures { result ≡ values.items }
    {
        Assignment { values }
    }

    /// The values, that of variable 0 first.
    pub fn values(&self) -> &[bool]
        ensures { result.now ≡ self.now }
    {
        self.values.as_slice()
    }
}

/// The value of a literal whose variable the assignment has. It takes no memory.
pub fn value(l: Lit, a: &Assignment) -> bool
    requires { l.var < length a.now }
    ensures { result ≡ lit_value l a.now }
{
    a.values[l.var] != l.neg
}
