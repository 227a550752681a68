//! Gates against their truth tables, and what each call adds.

ghost use Rattle.std.specs.Prelude.{◌<◌, IfOk};

use sat_formula::{Assignment, Clause, Cnf, Formula, Lit, value};
use std::alloc::{AllocError, Global};
use std::test::Fail;

#[derive(Clone, Copy, Debug)]
enum Gate {
    And,
    Or,
    Xor,
    Iff,
    Mux,
    All,
}

const GATES: [Gate; 6] = [
    Gate::And,
    Gate::Or,
    Gate::Xor,
    Gate::Iff,
    Gate::Mux,
    Gate::All,
];

// A gate of three literals: those of two take the first two.
fn gate_of(
    alloc: Global,
    f: &mut Formula,
    g: Gate,
    x: Lit,
    y: Lit,
    z: Lit,
) -> Result<Lit, AllocError>
    requires x_below { x.var < f.old.vars }
    requires y_below { y.var < f.old.vars }
    requires z_below { z.var < f.old.vars }
    ensures { IfOk result (λ l. l.var < f.new.vars) }
{
    let l = match g {
        Gate::And => f.and(x, y)?,
        Gate::Or => f.or(x, y)?,
        Gate::Xor => f.xor(x, y)?,
        Gate::Iff => f.iff(x, y)?,
        Gate::Mux => f.mux(x, y, z)?,
        Gate::All => f.and_all(alloc, &[x, y, z])?,
    };
    Ok(l)
}

fn truth(g: Gate, x: bool, y: bool, z: bool) -> bool {
    match g {
        Gate::And => x && y,
        Gate::Or => x || y,
        Gate::Xor => x != y,
        Gate::Iff => x == y,
        Gate::Mux => if x { y } else { z },
        Gate::All => x && y && z,
    }
}

// Whether these are the values of all variables, and satisfy the formula.
fn satisfied(alloc: Global, f: &Formula, values: &[bool]) -> Result<bool, AllocError> {
    let a = Assignment::from_vec(values.to_vec(alloc)?);
    Ok(a.values().len() == f.vars() && f.satisfies(&a))
}

const CASES: [(bool, bool, bool); 8] = [
    (false, false, false),
    (false, false, true),
    (false, true, false),
    (false, true, true),
    (true, false, false),
    (true, false, true),
    (true, true, false),
    (true, true, true),
];

// A gate over three free variables: whether the formula holds at these values with the gate's
// value as it should be, with the other value, and with a false `top`.
fn choices(alloc: Global, g: Gate, x: bool, y: bool, z: bool) -> Result<[bool; 3], AllocError> {
    let mut f = Formula::new(alloc)?;
    let a = f.fresh()?;
    let b = f.fresh()?;
    let c = f.fresh()?;
    let out = gate_of(alloc, &mut f, g, a, b, c)?;
    let right = truth(g, x, y, z) != out.neg;
    Ok([
        satisfied(alloc, &f, &[true, x, y, z, right])?,
        satisfied(alloc, &f, &[true, x, y, z, !right])?,
        satisfied(alloc, &f, &[false, x, y, z, right])?,
    ])
}

#[test]
fn gates_have_their_truth_tables(rt: HostRuntime) -> Result<(), Fail> {
    for g in GATES {
        for (x, y, z) in CASES {
            assert_eq!(rt;
                choices(rt.alloc(), g, x, y, z)?,
                [true, false, false],
                "{g:?}"
            );
        }
    }
    Ok(())
}

// A gate over `top` or a free variable, each as it is or negated: how many variables and clauses
// there are then, and the gate's value where the variable is p.
fn folded(
    alloc: Global,
    g: Gate,
    x: (bool, bool),
    y: (bool, bool),
    p: bool,
) -> Result<(usize, usize, bool), AllocError> {
    let mut f = Formula::new(alloc)?;
    let top = f.top();
    let free = f.fresh()?;
    let a = Lit {
        var: if x.0 { free.var } else { top.var },
        neg: x.1,
    };
    let b = Lit {
        var: if y.0 { free.var } else { top.var },
        neg: y.1,
    };
    let out = gate_of(alloc, &mut f, g, a, b, top)?;
    let values = Assignment::from_vec([true, p].to_vec(alloc)?);
    let set = out.var < values.values().len() && value(out, &values);
    Ok((f.vars(), f.clauses().clauses().len(), set))
}

#[test]
fn gates_fold_known_and_equal_operands(rt: HostRuntime) -> Result<(), Fail> {
    for g in [Gate::And, Gate::Or, Gate::Xor, Gate::Iff] {
        for (x_free, x_neg, _) in CASES {
            for (y_free, y_neg, p) in CASES {
                let now = folded(rt.alloc(), g, (x_free, x_neg), (y_free, y_neg), p)?;
                let x = (!x_free || p) != x_neg;
                let y = (!y_free || p) != y_neg;
                assert_eq!(rt; now, (2, 1, truth(g, x, y, true)), "{g:?}");
            }
        }
    }
    Ok(())
}

#[test]
fn gates_add_one_variable_and_few_clauses(rt: HostRuntime) -> Result<(), Fail> {
    let alloc = rt.alloc();
    for (g, clauses) in [
        (Gate::And, 3),
        (Gate::Or, 3),
        (Gate::Xor, 4),
        (Gate::Iff, 4),
        (Gate::Mux, 4),
        (Gate::All, 4),
    ] {
        let mut f = Formula::new(alloc)?;
        let a = f.fresh()?;
        let b = f.fresh()?;
        let c = f.fresh()?;
        let _out = gate_of(alloc, &mut f, g, a, b.negated(), c)?;
        assert_eq!(rt;
            (f.vars(), f.clauses().clauses().len()),
            (5, clauses + 1),
            "{g:?}"
        );
    }
    Ok(())
}

// The variable of a literal, and whether it is negated.
type Operand = (usize, bool);

const A: Operand = (1, false);

const B: Operand = (2, false);

const C: Operand = (3, false);

const NOT_A: Operand = (1, true);

const NOT_B: Operand = (2, true);

const NOT_C: Operand = (3, true);

fn operand(f: &Formula, n: Operand) -> Lit
    ensures { result.var < f.now.vars }
{
    let (var, neg) = n;
    if var < f.vars() {
        Lit { var, neg }
    } else {
        f.top()
    }
}

fn asked(alloc: Global, f: &mut Formula, g: Gate, on: [Operand; 3]) -> Result<Lit, AllocError> {
    let [x, y, z] = on;
    let (a, b, c) = (operand(f, x), operand(f, y), operand(f, z));
    let l = gate_of(alloc, f, g, a, b, c)?;
    Ok(l)
}

// One gate and then another over three free variables: how many variables and clauses the second
// adds, whether its variable is that of the first, and whether its sign is the other.
fn asked_again(
    alloc: Global,
    first: (Gate, [Operand; 3]),
    second: (Gate, [Operand; 3]),
) -> Result<(usize, usize, bool, bool), AllocError> {
    let mut f = Formula::new(alloc)?;
    for _i in 0..3 {
        let _l = f.fresh()?;
    }
    let older = asked(alloc, &mut f, first.0, first.1)?;
    let vars = f.vars();
    let clauses = f.clauses().clauses().len();
    let newer = asked(alloc, &mut f, second.0, second.1)?;
    Ok((
        f.vars().saturating_sub(vars),
        f.clauses().clauses().len().saturating_sub(clauses),
        older.var == newer.var,
        older.neg != newer.neg,
    ))
}

// Two gates that ask for the same, and whether for the negation.
const SAME: [(Gate, [Operand; 3], Gate, [Operand; 3], bool); 12] = [
    (Gate::And, [A, B, C], Gate::And, [A, B, C], false),
    (Gate::And, [A, NOT_B, C], Gate::And, [NOT_B, A, C], false),
    (Gate::Or, [A, B, C], Gate::And, [NOT_B, NOT_A, C], true),
    (Gate::Xor, [A, B, C], Gate::Xor, [B, A, C], false),
    (Gate::Xor, [NOT_A, B, C], Gate::Xor, [A, B, C], true),
    (Gate::Xor, [A, B, C], Gate::Iff, [NOT_A, NOT_B, C], true),
    (Gate::Mux, [A, B, C], Gate::Mux, [A, B, C], false),
    (Gate::Mux, [A, B, C], Gate::Mux, [NOT_A, C, B], false),
    (Gate::Mux, [A, B, NOT_C], Gate::Mux, [A, NOT_B, C], true),
    (Gate::Mux, [NOT_A, NOT_B, C], Gate::Mux, [A, NOT_C, B], true),
    (Gate::Iff, [A, C, B], Gate::Mux, [A, C, NOT_C], false),
    (Gate::All, [A, NOT_B, C], Gate::All, [A, NOT_B, C], false),
];

#[test]
fn equal_gates_are_made_once(rt: HostRuntime) -> Result<(), Fail> {
    for (first, x, second, y, negated) in SAME {
        let now = asked_again(rt.alloc(), (first, x), (second, y))?;
        assert_eq!(rt; now, (0, 0, true, negated), "{first:?} {second:?}");
    }
    Ok(())
}

// Two gates that ask for different things, and how many clauses the second adds.
const DIFFERENT: [(Gate, [Operand; 3], Gate, [Operand; 3], usize); 6] = [
    (Gate::And, [A, B, C], Gate::And, [A, NOT_B, C], 3),
    (Gate::And, [A, B, C], Gate::Or, [A, B, C], 3),
    (Gate::And, [A, B, C], Gate::All, [A, B, C], 4),
    (Gate::Xor, [A, B, C], Gate::Xor, [A, C, B], 4),
    (Gate::Mux, [A, B, C], Gate::Mux, [A, C, B], 4),
    (Gate::Mux, [A, B, C], Gate::Mux, [A, B, NOT_C], 4),
];

#[test]
fn other_gates_are_made_anew(rt: HostRuntime) -> Result<(), Fail> {
    for (first, x, second, y, clauses) in DIFFERENT {
        let (vars, more, same, _) = asked_again(rt.alloc(), (first, x), (second, y))?;
        assert_eq!(rt;
            (vars, more, same),
            (1, clauses, false),
            "{first:?} {second:?}"
        );
    }
    Ok(())
}

// Whether choices by a known literal, or between one literal, are that literal, and add nothing; then how many variables
// and clauses there are, and with a known branch, which leaves an `and` or an `or`.
fn known_choices(f: &mut Formula) -> Result<(bool, [usize; 4]), AllocError> {
    let top = f.top();
    let a = f.fresh()?;
    let b = f.fresh()?;
    let first = f.mux(top, a, b)?;
    let second = f.mux(top.negated(), a, b)?;
    let alike = f.mux(a, b, b)?;
    let vars = f.vars();
    let clauses = f.clauses().clauses().len();
    let both = f.mux(a, b, top.negated())?;
    let all = f.clauses().clauses().len();
    Ok((
        first == a && second == b && alike == b,
        [vars, clauses, both.var, all],
    ))
}

#[test]
fn a_choice_by_a_known_literal_adds_nothing(rt: HostRuntime) -> Result<(), Fail> {
    let mut f = Formula::new(rt.alloc())?;
    assert_eq!(rt; known_choices(&mut f)?, (true, [3, 1, 3, 4]));
    Ok(())
}

// Two clauses, the second empty, and then a unit clause.
fn with_unit(alloc: Global, f: &mut Formula) -> Result<Cnf, AllocError> {
    let a = f.fresh()?;
    let b = f.fresh()?;
    f.add(&[a, b.negated()])?;
    f.add(&[])?;
    f.with_unit(alloc, b)
}

// Whether the clauses are these, which are written as the numbers of their variables behind their signs.
fn are(clauses: &[Clause], wanted: &[&[(usize, bool)]]) -> bool {
    if clauses.len() != wanted.len() {
        return false;
    }
    for i in 0..clauses.len() {
        let lits = clauses[i].lits();
        if lits.len() != wanted[i].len() {
            return false;
        }
        for j in 0..lits.len() {
            if (lits[j].var, lits[j].neg) != wanted[i][j] {
                return false;
            }
        }
    }
    true
}

const UNIT_LAST: [&[(usize, bool)]; 4] = [
    &[(0, false)],
    &[(1, false), (2, true)],
    &[],
    &[(2, false)],
];

#[test]
fn a_unit_clause_comes_last(rt: HostRuntime) -> Result<(), Fail> {
    let mut f = Formula::new(rt.alloc())?;
    let Cnf { vars, clauses } = with_unit(rt.alloc(), &mut f)?;
    assert_eq!(rt; vars, 3);
    assert!(rt; are(clauses.clauses(), &UNIT_LAST));
    Ok(())
}
