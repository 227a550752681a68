//! Literals.

ghost use Rattle.std.specs.Prelude.{◌≡◌, not};

/// A variable, or its negation where `neg` is true. Variables are numbered from 0.
#[derive(Clone, Copy, PartialEq, Eq, Hash, Debug)]
pub struct Lit {
    pub var: usize,
    pub neg: bool,
}

impl Lit {
    /// The literal that is true exactly where this one is false.
    pub fn negated(self) -> Lit
        ensures { result ≡ record { var = self.var; neg = not self.neg } }
    {
        Lit {
            var: self.var,
            neg: !self.neg,
        }
    }
}
