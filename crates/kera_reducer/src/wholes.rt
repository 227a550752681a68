// Trees that are whole: as many children and bound names at each node as its operator wants.
ghost use Rattle.std.specs.Prelude.{◌≡◌, length, map, nat_eq, suc};
ghost use Rattle.std.specs.List.{list_all};
ghost use Rattle.tla_meaning.specs.declared.expr.Expr.{out-Expr};
ghost use Rattle.snowcat_rows.specs.TypeTexts.{are_distinct, is_among};
ghost use Rattle.kernel_reduction.specs.SoundLaws.{is_whole_job};
ghost use Rattle.kernel_reduction.specs.Whole.{binds_enough, is_declared, is_whole, names_enough, operand_count};
ghost use Rattle.kera_reducer.specs.inner.Wholes.{is_node_whole, update_count};

use tla_meaning::{Expr, Job, Op};
use tla_values::Text;

// Whether these are the children of an EXCEPT: the function, and of each update its indexes and its right side.
fn has_updates(counts: &[usize], children: usize) -> bool
    ensures { result ≡ nat_eq (update_count counts.now) children }
{
    if children == 0 {
        return false;
    }
    let mut left = children - 1;
    for count in counts {
        if left <= *count {
            return false;
        }
        left = left - *count - 1;
    }
    0 == left
}

// Whether a node of the operator that binds these names has so many operands; nodes that are gone after expansion have none.
fn has_operands(op: &Op, names: &[Text], children: usize) -> bool
    ensures { result ≡ nat_eq (operand_count op.now names.now children) children }
{
    match op {
        Op::Not | Op::Neg | Op::Noted(_) | Op::Field(_) | Op::Powerset => 1 == children,
        Op::BigUnion | Op::SeqSet | Op::Cardinality | Op::IsFinite => 1 == children,
        Op::Domain | Op::Len | Op::Head | Op::Tail => 1 == children,
        Op::Implies | Op::Iff | Op::Eq | Op::Ne | Op::Assign => 2 == children,
        Op::In | Op::NotIn | Op::SubsetEq => 2 == children,
        Op::Lt | Op::Gt | Op::Le | Op::Ge | Op::Range => 2 == children,
        Op::Add | Op::Sub | Op::Mul | Op::Div | Op::Mod | Op::Pow => 2 == children,
        Op::Cup | Op::Cap | Op::Minus | Op::FunSet => 2 == children,
        Op::Apply | Op::Merge | Op::Single | Op::Append | Op::Concat => 2 == children,
        Op::If | Op::SubSeq | Op::Fold => 3 == children,
        Op::And | Op::Or | Op::SetEnum | Op::Product => true,
        Op::Record(_) | Op::RecSet(_) | Op::Tuple | Op::Case(_) => true,
        Op::Exists | Op::Forall | Op::Filter | Op::MapTo | Op::Lambda => binds(names, children),
        Op::Except(counts) => has_updates(counts.as_slice(), children),
        Op::Bool(_) | Op::Int(_) | Op::Str(_) | Op::Name(_, _) | Op::Bound(_) => 0 == children,
        Op::BooleanSet | Op::IntSet | Op::NatSet | Op::StringSet => 0 == children,
        Op::Use(_) | Op::Param(_) | Op::Let(_) | Op::Prime | Op::Unchanged => 0 == children,
        Op::Boxed | Op::Angled | Op::Outside(_) => 0 == children,
    }
}

// Whether there is a domain for each name, and a body.
fn binds(names: &[Text], children: usize) -> bool
    ensures { result ≡ nat_eq (suc (length names.now)) children }
{
    children != 0 && names.len() == children - 1
}

// Whether a filter binds one name, and a fold two.
fn binds_enough(op: &Op, names: usize) -> bool
    ensures { result ≡ binds_enough op.now names }
{
    match op {
        Op::Filter => names == 1,
        Op::Fold => names == 2,
        _ => true,
    }
}

// Whether a declared name is one of so many.
fn is_declared(count: usize, op: &Op) -> bool
    ensures { result ≡ is_declared count op.now }
{
    match op {
        Op::Name(number, _) => *number < count,
        _ => true,
    }
}

// Whether a text stands among these.
fn is_among(text: &Text, texts: &[Text]) -> bool
    ensures { result ≡ is_among text.now texts.now }
{
    for other in texts {
        if text.bytes() == other.bytes() {
            return true;
        }
    }
    false
}

fn are_distinct(texts: &[Text]) -> bool
    ensures { result ≡ are_distinct texts.now }
{
    for i in 0..texts.len() {
        if is_among(&texts[i], &texts[i + 1..]) {
            return false;
        }
    }
    true
}

// Whether a record has as many names as children, all different.
fn names_enough(op: &Op, children: usize) -> bool
    ensures { result ≡ names_enough op.now children }
{
    match op {
        Op::Record(names) | Op::RecSet(names) => {
            let names = names.as_slice();
            names.len() == children && are_distinct(names)
        }
        _ => true,
    }
}

// Whether the node is whole, among so many declared names.
fn is_node_whole(count: usize, e: &Expr) -> bool
    ensures { result ≡ is_node_whole count (out-Expr e.now).op (out-Expr e.now).binds (length (out-Expr e.now).args) }
{
    let children = e.args.as_slice().len();
    let names = e.binds.as_slice();
    has_operands(&e.op, names, children)
        && binds_enough(&e.op, names.len())
        && is_declared(count, &e.op)
        && names_enough(&e.op, children)
}

#[cycle(whole)]
fn is_whole(count: usize, e: &Expr) -> bool
    ensures { result ≡ is_whole count e.now }
{
    is_node_whole(count, e) && are_whole(count, e.args.as_slice())
}

#[cycle(whole)]
fn are_whole(count: usize, es: &[Expr]) -> bool
    ensures { result ≡ list_all (is_whole count) es.now }
{
    for e in es {
        if !is_whole(count, e) {
            return false;
        }
    }
    true
}

fn are_tests_whole(count: usize, invs: &[(Text, Expr)]) -> bool
    ensures { result ≡ list_all (is_whole count) (map (λ v. v.1) invs.now) }
{
    for inv in invs {
        if !is_whole(count, &inv.1) {
            return false;
        }
    }
    true
}

/// Whether each tree of the job is whole, where so many names are declared.
pub(crate) fn is_whole_job(count: usize, job: &Job) -> bool
    ensures { result ≡ is_whole_job count job.now }
{
    is_whole(count, &job.cinit)
        && is_whole(count, &job.assume)
        && is_whole(count, &job.init)
        && is_whole(count, &job.next)
        && are_tests_whole(count, job.invs.as_slice())
}
