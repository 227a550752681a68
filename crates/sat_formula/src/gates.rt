//! Gates: literals with the value of a Boolean function of older literals.

ghost use Rattle.std.specs.Prelude.{◌≡◌, ℕ, ◌<◌, ◌≤◌, ◌++◌, not, ◌&&◌, ◌||◌, if◌then◌else◌, take, map, filter, nat_eq, All, IfOk, OnOk, OnErr};
ghost use Rattle.sat_formula.specs.Lit.{lit_value, IsBelow, differ};
ghost use Rattle.std.specs.List.{list_all, list_any};
ghost use Rattle.sat_formula.specs.Clause.{implications};
ghost use Rattle.sat_formula.specs.Formula.{Grows, HasValue, IsTrivialPair, IsTrivialChoice, IsTrivialList};

use crate::formula::Formula;
use crate::gate::Gate;
use crate::lit::Lit;
use std::alloc::{AllocError, Global};

impl Formula {
    // A new variable that is true exactly where both are.
    fn define_and(&mut self, x: Lit, y: Lit) -> Result<Lit, AllocError>
        requires x_below { x.var < self.old.vars }
        requires y_below { y.var < self.old.vars }
        ensures value { IfOk result (λ l. HasValue self.new l (λ a. lit_value x a && lit_value y a)) }
        ensures grows { Grows self.old self.new }
    {
        // Read for its promise: each clause so far names variables below the count.
        let _ = self.vars();
        let out = self.fresh()?;
        self.add(&[out.negated(), x])?;
        self.add(&[out.negated(), y])?;
        self.add(&[out, x.negated(), y.negated()])?;
        Ok(out)
    }

    // The literal of both, that of an older gate or of a new one.
    #[tactic(auto, using(crate::proofs::Extension::gates))]
    fn shared_and(&mut self, x: Lit, y: Lit) -> Result<Lit, AllocError>
        requires x_below { x.var < self.old.vars }
        requires y_below { y.var < self.old.vars }
        ensures value { IfOk result (λ l. HasValue self.new l (λ a. lit_value x a && lit_value y a)) }
        ensures grows { Grows self.old self.new }
    {
        let gate = Gate::both(x, y);
        if let Some(older) = self.kept(&gate) {
            return Ok(older);
        }
        let out = self.define_and(x, y)?;
        self.keep(gate, out)?;
        Ok(out)
    }

    /// A literal that is true exactly where both are. Nothing is added where the operands are
    /// equal or opposite, or one is `top` or its negation, or where both were asked for before, in
    /// either order; else one variable and three clauses.
    #[tactic(auto, using(crate::proofs::Extension::gates))]
    pub fn and(&mut self, x: Lit, y: Lit) -> Result<Lit, AllocError>
        requires x_below { x.var < self.old.vars }
        requires y_below { y.var < self.old.vars }
        ensures value { IfOk result (λ l. HasValue self.new l (λ a. lit_value x a && lit_value y a)) }
        ensures grows { Grows self.old self.new }
        ensures trivial { IsTrivialPair x y → self.new ≡ self.old }
    {
        let top = self.top();
        let bottom = top.negated();
        if x == bottom || y == bottom || x == y.negated() {
            return Ok(bottom);
        }
        if x == top || x == y {
            return Ok(y);
        }
        if y == top {
            return Ok(x);
        }
        self.shared_and(x, y)
    }

    /// A literal that is true exactly where one of them is. It adds what `and` does.
    pub fn or(&mut self, x: Lit, y: Lit) -> Result<Lit, AllocError>
        requires x_below { x.var < self.old.vars }
        requires y_below { y.var < self.old.vars }
        ensures value { IfOk result (λ l. HasValue self.new l (λ a. lit_value x a || lit_value y a)) }
        ensures grows { Grows self.old self.new }
        ensures trivial { IsTrivialPair x y → self.new ≡ self.old }
    {
        let both = self.and(x.negated(), y.negated())?;
        Ok(both.negated())
    }

    // A new variable that is y where c is true, and z elsewhere.
    fn define_mux(&mut self, c: Lit, y: Lit, z: Lit) -> Result<Lit, AllocError>
        requires c_below { c.var < self.old.vars }
        requires y_below { y.var < self.old.vars }
        requires z_below { z.var < self.old.vars }
        ensures value { IfOk result (λ l. HasValue self.new l
            (λ a. if lit_value c a then lit_value y a else lit_value z a)) }
        ensures grows { Grows self.old self.new }
    {
        // Read for its promise: each clause so far names variables below the count.
        let _ = self.vars();
        let out = self.fresh()?;
        self.add(&[c.negated(), out.negated(), y])?;
        self.add(&[c.negated(), out, y.negated()])?;
        self.add(&[c, out.negated(), z])?;
        self.add(&[c, out, z.negated()])?;
        Ok(out)
    }

    // The literal of a choice, that of an older gate or of a new one.
    #[tactic(auto, using(crate::proofs::Extension::gates))]
    fn shared_mux(&mut self, c: Lit, y: Lit, z: Lit) -> Result<Lit, AllocError>
        requires c_below { c.var < self.old.vars }
        requires y_below { y.var < self.old.vars }
        requires z_below { z.var < self.old.vars }
        ensures value { IfOk result (λ l. HasValue self.new l
            (λ a. if lit_value c a then lit_value y a else lit_value z a)) }
        ensures grows { Grows self.old self.new }
    {
        let gate = Gate::Mux(c, y, z);
        if let Some(older) = self.kept(&gate) {
            return Ok(older);
        }
        let out = self.define_mux(c, y, z)?;
        self.keep(gate, out)?;
        Ok(out)
    }

    // The same choice, by way of one whose second literal is a variable.
    #[tactic(auto, using(crate::proofs::Extension::gates))]
    fn upright_mux(&mut self, c: Lit, y: Lit, z: Lit) -> Result<Lit, AllocError>
        requires c_below { c.var < self.old.vars }
        requires y_below { y.var < self.old.vars }
        requires z_below { z.var < self.old.vars }
        ensures value { IfOk result (λ l. HasValue self.new l
            (λ a. if lit_value c a then lit_value y a else lit_value z a)) }
        ensures grows { Grows self.old self.new }
    {
        if y.neg {
            let out = self.shared_mux(c, y.negated(), z.negated())?;
            return Ok(out.negated());
        }
        self.shared_mux(c, y, z)
    }

    /// A literal that has the value of `y` where `c` is true, and that of `z` elsewhere. Nothing
    /// is added where `c` is `top` or its negation, or `y` and `z` are equal; what `and` adds,
    /// where `y` or `z` is `top` or its negation; what `xor` adds, where they are opposite; nothing
    /// where the choice was asked for before, also by the negation of `c`, or between the negations
    /// of `y` and `z`; else one variable and four clauses.
    #[tactic(auto, using(crate::proofs::Extension::gates))]
    pub fn mux(&mut self, c: Lit, y: Lit, z: Lit) -> Result<Lit, AllocError>
        requires c_below { c.var < self.old.vars }
        requires y_below { y.var < self.old.vars }
        requires z_below { z.var < self.old.vars }
        ensures value { IfOk result (λ l. HasValue self.new l
            (λ a. if lit_value c a then lit_value y a else lit_value z a)) }
        ensures grows { Grows self.old self.new }
        ensures trivial { IsTrivialChoice c y z → self.new ≡ self.old }
    {
        let top = self.top();
        if c == top || y == z {
            return Ok(y);
        }
        if c == top.negated() {
            return Ok(z);
        }
        if z.var == top.var {
            if z.neg {
                let both = self.and(c, y)?;
                return Ok(both);
            }
            let either = self.or(c.negated(), y)?;
            return Ok(either);
        }
        if y.var == top.var {
            if y.neg {
                let both = self.and(c.negated(), z)?;
                return Ok(both);
            }
            let either = self.or(c, z)?;
            return Ok(either);
        }
        if y == z.negated() {
            let same = self.iff(c, y)?;
            return Ok(same);
        }
        if c.neg {
            return self.upright_mux(c.negated(), z, y);
        }
        self.upright_mux(c, y, z)
    }

    // The literal of where the two differ, the lower variable first.
    #[tactic(auto, using(crate::proofs::Extension::gates))]
    fn shared_xor(&mut self, x: Lit, y: Lit) -> Result<Lit, AllocError>
        requires x_below { x.var < self.old.vars }
        requires y_below { y.var < self.old.vars }
        ensures value { IfOk result (λ l. HasValue self.new l (λ a. differ (lit_value x a) (lit_value y a))) }
        ensures grows { Grows self.old self.new }
    {
        if y.var < x.var {
            return self.shared_mux(y, x.negated(), x);
        }
        self.shared_mux(x, y.negated(), y)
    }

    /// A literal that is true exactly where the two differ. Nothing is added where one is `top` or
    /// its negation, or they are equal or opposite, or where `xor` or `iff` was asked of the same
    /// variables before; else one variable and four clauses.
    #[tactic(auto, using(crate::proofs::Extension::gates))]
    pub fn xor(&mut self, x: Lit, y: Lit) -> Result<Lit, AllocError>
        requires x_below { x.var < self.old.vars }
        requires y_below { y.var < self.old.vars }
        ensures value { IfOk result (λ l. HasValue self.new l (λ a. differ (lit_value x a) (lit_value y a))) }
        ensures grows { Grows self.old self.new }
        ensures trivial { IsTrivialPair x y → self.new ≡ self.old }
    {
        let top = self.top();
        if x.var == top.var {
            return Ok(Lit {
                var: y.var,
                neg: y.neg == x.neg,
            });
        }
        if y.var == top.var {
            return Ok(Lit {
                var: x.var,
                neg: x.neg == y.neg,
            });
        }
        if x.var == y.var {
            return Ok(Lit {
                var: top.var,
                neg: x.neg == y.neg,
            });
        }
        let first = Lit {
            var: x.var,
            neg: false,
        };
        let second = Lit {
            var: y.var,
            neg: false,
        };
        let out = self.shared_xor(first, second)?;
        if x.neg == y.neg {
            return Ok(out);
        }
        Ok(out.negated())
    }

    /// A literal that is true exactly where the two agree. It adds what `xor` does.
    pub fn iff(&mut self, x: Lit, y: Lit) -> Result<Lit, AllocError>
        requires x_below { x.var < self.old.vars }
        requires y_below { y.var < self.old.vars }
        ensures value { IfOk result (λ l. HasValue self.new l (λ a. not (differ (lit_value x a) (lit_value y a)))) }
        ensures grows { Grows self.old self.new }
        ensures trivial { IsTrivialPair x y → self.new ≡ self.old }
    {
        Ok(self.xor(x, y)?.negated())
    }

    // Clauses that each of the literals is true where `out` is. After a refusal some of them stand.
    fn imply_each(&mut self, out: Lit, lits: &[Lit]) -> Result<(), AllocError>
        requires out_below { out.var < self.old.vars }
        requires lits_below { All (IsBelow self.old.vars) lits.now }
        ensures vars { self.new.vars ≡ self.old.vars }
        ensures ok { OnOk result (self.new.clauses ≡ self.old.clauses ++ implications out lits.now) }
        ensures err { OnErr result ((k : ℕ) × (self.new.clauses ≡ self.old.clauses ++ take k (implications out lits.now))) }
    {
        for l in lits {
            self.add(&[out.negated(), *l])?;
        }
        Ok(())
    }

    // A new variable that is true exactly where all of them are.
    #[tactic(auto, using(crate::proofs::Extension::gates))]
    fn define_all(&mut self, alloc: Global, lits: &[Lit]) -> Result<Lit, AllocError>
        requires { All (IsBelow self.old.vars) lits.now }
        ensures value { IfOk result (λ l. HasValue self.new l (λ a. list_all (λ x. lit_value x a) lits.now)) }
        ensures grows { Grows self.old self.new }
    {
        // Read for its promise: each clause so far names variables below the count.
        let _ = self.vars();
        let mut last = negations(alloc, lits)?;
        let out = self.fresh()?;
        last.push(out)?;
        self.imply_each(out, lits)?;
        self.add(last.as_slice())?;
        Ok(out)
    }

    // The literal of all of them, that of an older gate or of a new one.
    #[tactic(auto, using(crate::proofs::Extension::gates))]
    fn shared_all(&mut self, alloc: Global, lits: &[Lit]) -> Result<Lit, AllocError>
        requires { All (IsBelow self.old.vars) lits.now }
        ensures value { IfOk result (λ l. HasValue self.new l (λ a. list_all (λ x. lit_value x a) lits.now)) }
        ensures grows { Grows self.old self.new }
    {
        let gate = Gate::AndAll(Vec::from_slice(alloc, lits)?);
        if let Some(older) = self.kept(&gate) {
            return Ok(older);
        }
        let out = self.define_all(alloc, lits)?;
        self.keep(gate, out)?;
        Ok(out)
    }

    /// A literal that is true exactly where all of them are, which is everywhere where there is
    /// none. Nothing is added where a literal is the negation of `top`, or at most one is not
    /// `top`, or where the literals other than `top` were asked for before, in the same order;
    /// else one variable, and one clause more than there are literals other than `top`.
    #[tactic(auto, using(crate::proofs::Extension::gates))]
    pub fn and_all(&mut self, alloc: Global, lits: &[Lit]) -> Result<Lit, AllocError>
        requires { All (IsBelow self.old.vars) lits.now }
        ensures value { IfOk result (λ l. HasValue self.new l (λ a. list_all (λ x. lit_value x a) lits.now)) }
        ensures grows { Grows self.old self.new }
        ensures trivial { IsTrivialList lits.now → self.new ≡ self.old }
    {
        let top = self.top();
        if has_bottom(lits) {
            return Ok(top.negated());
        }
        let open = without_top(alloc, lits)?;
        let rest = open.as_slice();
        if rest.is_empty() {
            return Ok(top);
        }
        if rest.len() == 1 {
            return Ok(rest[0]);
        }
        let all = self.shared_all(alloc, rest)?;
        Ok(all)
    }
}

// The negation of each literal, in order.
fn negations(alloc: Global, lits: &[Lit]) -> Result<Vec<Lit>, AllocError>
    ensures { IfOk result (λ r. r.items ≡ map (λ l. record { var = l.var; neg = not l.neg }) lits.now) }
{
    lits.iter().map(|l| l.negated()).collect(alloc)
}

// Whether the negation of `top` is one of them.
fn has_bottom(lits: &[Lit]) -> bool
    ensures { result ≡ list_any (λ l. nat_eq l.var 0 && l.neg) lits.now }
{
    lits.iter().any(|l| l.var == 0 && l.neg)
}

// The literals of other variables than that of `top`, in order.
fn without_top(alloc: Global, lits: &[Lit]) -> Result<Vec<Lit>, AllocError>
    ensures { IfOk result (λ r. r.items ≡ filter (λ l. not (nat_eq l.var 0)) lits.now) }
{
    lits.iter().copied().filter(|l| l.var != 0).collect(alloc)
}
