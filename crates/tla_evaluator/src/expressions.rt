// Expressions, as their meaning says. An operator that is named here does not just join its operands; every other
// one joins them and then has its row of the table.
ghost use denote.Param.Weighed.{most};
ghost use Rattle.std.specs.Prelude.{◌∷◌, ◌≡◌, ◌≤◌, [], IfOk, Some, ℕ};
ghost use Rattle.std.specs.List.{All};
ghost use Rattle.tla_values.specs.Sets.{Normal};
ghost use Rattle.tla_meaning.specs.Forms.{results};
ghost use Rattle.tla_meaning.specs.Meaning.{folded, function_form, implied, in_form, updated};
ghost use Rattle.tla_meaning.specs.Operators.{table};
ghost use Rattle.tla_meaning.specs.Outcomes.{joined, strict, values};
ghost use Rattle.tla_evaluator.specs.inner.Branches.{GivesBranch, branch_in, is_malformed};
ghost use Rattle.tla_evaluator.specs.inner.Gives.{Gives, GivesAll, GivesForm, GivesForms, Guards, Updates};
ghost use Rattle.tla_evaluator.specs.inner.Nodes.{bodies_in, bound_in, except_in, fold_in, form_node, index_trees, junction, membership_test, node_in, paths_in, update_in, updates_in};
ghost use Rattle.tla_evaluator.specs.inner.Readings.{first_in, form_in, forms_in, outcomes_in, value_in, with_names};

use crate::answers::{Answer, Joined, Stop, Stored, all_of, both, join, join_faults, nothing};
use crate::binders::{bound_table, choices_of};
use crate::context::Context;
use crate::excepts::{Reached, at_path, set_path};
use crate::forms::{form_of_several, functions_from, one_form, tested};
use crate::functions::Pair;
use crate::numbers::number;
use crate::operators::{row_of, value_and_items};
use crate::trees::{after, first, front};
use std::alloc::Global;
use tla_meaning::{Expr, Fault, Op, Place, SetForm};
use tla_values::{List, Text, Value, copy_text, copy_value};

// The place of a node and the names that it binds.
#[derive(Clone, Copy, Drop)]
pub(crate) struct Site<'b> {
    pub(crate) place: Place,
    pub(crate) names: &'b [Text],
}

// The number of an update's indexes, and their values.
type Path = (usize, List<Value>);

impl Context<'_> {
    // The value of a tree.
    #[cycle(eval)]
    pub(crate) fn value(&self, e: &Expr) -> Answer<Value>
        ensures { Gives (value_in self.now e.now) result }
    {
        let place = e.place;
        let names = e.binds.as_slice();
        let args = e.args.as_slice();
        self.node(&e.op, Site { place, names }, args)
    }

    #[cycle(eval)]
    fn node(&self, op: &Op, site: Site<'_>, args: &[Expr]) -> Answer<Value>
        ensures { Gives (node_in self.now site.entry.place op.now site.entry.names.now args.now)
            result }
    {
        let place = site.place;
        match op {
            Op::Bool(b) => Ok(Value::Bool(*b)),
            Op::Int(n) => number(*n, self.width(), place),
            Op::Str(text) => Ok(Value::Text(copy_text(self.alloc, text)?)),
            Op::Name(i, primed) => self.read(*i, *primed, place),
            Op::Bound(name) => self.read_bound(name, place),
            Op::And => self.junction(false, place, args),
            Op::Or => self.junction(true, place, args),
            Op::Implies => self.implication(place, args),
            Op::If | Op::Case(_) => self.value(self.branch(op, place, args)?),
            Op::In | Op::NotIn | Op::SubsetEq => self.membership(op, place, args),
            Op::Exists | Op::Forall | Op::Filter | Op::MapTo | Op::Lambda => self.binder(
                op, site, args,
            ),
            Op::Except(counts) => self.except(counts.as_slice(), site, args),
            Op::Fold => self.fold(site, args),
            Op::Noted(_) => self.value(first(args, place)?),
            Op::Use(_) | Op::Param(_) | Op::Let(_) | Op::Prime => Err(Stop::Wrong(place)),
            Op::Unchanged | Op::Boxed | Op::Angled => Err(Stop::Wrong(place)),
            _ => self.strict(op, place, args),
        }
    }

    // The truth value of a tree.
    #[cycle(eval)]
    fn guard(&self, e: &Expr, place: Place) -> Answer<bool>
        ensures { Guards place (value_in self.now e.now) result }
    {
        match self.value(e)? {
            Value::Bool(b) => Ok(b),
            _ => Err(Stop::Wrong(place)),
        }
    }

    // The first of these trees, where the names of the node have values.
    #[cycle(eval)]
    fn under(&self, site: Site<'_>, trees: &[Expr], values: &[Value]) -> Answer<Value>
        requires { All Normal values.now }
        ensures { Gives (first_in (with_names self.now site.entry.names.now values.now)
            site.entry.place trees.now) result }
    {
        let inner = (&*self).with(&*site.names, &*values)?;
        inner.value(first(trees, site.place)?)
    }

    // All operands, joined.
    #[cycle(eval)]
    fn joined(&self, trees: &[Expr]) -> Stored<Joined<Value>>
        ensures fault { IfOk result (λ j. j.fault ≡ joined (outcomes_in self.now trees.now)) }
        ensures values { IfOk result (λ j. j.items.items ≡ values (outcomes_in self.now trees.now)) }
    {
        let mut all = nothing(self.alloc);
        for e in trees {
            let one = self.value(e);
            join(&mut all, one)?;
        }
        Ok(all)
    }

    // The values of all operands, or the join of their faults.
    #[cycle(eval)]
    pub(crate) fn operands(&self, trees: &[Expr]) -> Answer<List<Value>>
        ensures values { GivesAll (joined (outcomes_in self.now trees.now))
            (values (outcomes_in self.now trees.now)) result }
        ensures normal { IfOk result (λ vs. All Normal vs) }
    {
        self.is_readable();
        let all = self.joined(trees)?;
        all_of(all)
    }

    // An operator that joins its operands, and then has its row of the table.
    #[cycle(eval)]
    fn strict(&self, op: &Op, place: Place, trees: &[Expr]) -> Answer<Value>
        ensures { Gives (strict (outcomes_in self.now trees.now)
            (table (Some self.now.width) place op.now)) result }
    {
        let operands = self.operands(trees)?;
        row_of(self.alloc, op, place, operands.into_vec(), self.width())
    }

    // From the left, up to the first operand that has this truth value.
    #[cycle(eval)]
    fn junction(&self, decides: bool, place: Place, trees: &[Expr]) -> Answer<Value>
        ensures { Gives (junction decides place (outcomes_in self.now trees.now)) result }
    {
        for e in trees {
            let holds = self.guard(e, place)?;
            if holds == decides {
                return Ok(Value::Bool(decides));
            }
        }
        Ok(Value::Bool(!decides))
    }

    #[cycle(eval)]
    fn implication(&self, place: Place, trees: &[Expr]) -> Answer<Value>
        ensures { Gives (implied place (outcomes_in self.now trees.now)) result }
    {
        let [left, right] = trees else {
            return Err(Stop::Wrong(place));
        };
        let holds = !self.guard(left, place)? || self.guard(right, place)?;
        Ok(Value::Bool(holds))
    }

    // The branch behind the first guard that is TRUE, or else that of OTHER; IF has one guard and both.
    #[cycle(eval)]
    pub(crate) fn branch<'e>(&self, op: &Op, place: Place, trees: &'e [Expr]) -> Answer<&'e Expr>
        ensures branch { GivesBranch (branch_in self.now place op.now trees.now) result }
        ensures deep { IfOk result (λ e. (f : Expr → ℕ) → f e.now ≤ most f trees.now) }
    {
        if is_malformed(op, trees) {
            return Err(Stop::Wrong(place));
        }
        let arms = trees.len() / 2;
        for i in 0..arms {
            let holds = self.guard(&trees[2 * i], place)?;
            if holds {
                return Ok(&trees[2 * i + 1]);
            }
        }
        trees.get(2 * arms).ok_or(Stop::Wrong(place))
    }

    // `\in`, `\notin` and `\subseteq`: a value and a set form.
    #[cycle(eval)]
    fn membership(&self, op: &Op, place: Place, trees: &[Expr]) -> Answer<Value>
        ensures { Gives (in_form place (membership_test op.now place)
            (outcomes_in self.now trees.now) (forms_in self.now trees.now)) result }
    {
        let [left, right] = trees else {
            return Err(Stop::Wrong(place));
        };
        let (v, set) = both(self.value(left), self.form(right))?;
        tested(op, &v, &set, place)
    }

    // A binder: the domains, and then the body over all members.
    #[cycle(eval)]
    fn binder(&self, op: &Op, site: Site<'_>, args: &[Expr]) -> Answer<Value>
        ensures { Gives (bound_in self.now site.entry.place op.now site.entry.names.now args.now)
            result }
    {
        let sets = self.operands(front(args, site.names.len()))?;
        let alloc = self.alloc;
        let choices = choices_of(alloc, sets.as_slice())?.ok_or(Stop::Wrong(site.place))?;
        let trees = after(args, site.names.len());
        let values = self.bodies(site, trees, choices.as_slice())?;
        bound_table(alloc, op, site.place, choices.as_slice(), values.into_vec())
    }

    // The body at each choice, joined.
    #[cycle(eval)]
    fn bodies(&self, site: Site<'_>, trees: &[Expr], choices: &[List<Value>]) -> Answer<List<Value>>
        requires { All (All Normal) choices.now }
        ensures { GivesAll (joined
            (bodies_in self.now site.entry.place site.entry.names.now trees.now choices.now))
            (values (bodies_in self.now site.entry.place site.entry.names.now trees.now
            choices.now)) result }
    {
        let mut all = nothing(self.alloc);
        for choice in choices {
            let one = self.under(site, trees, choice.as_slice());
            join(&mut all, one)?;
        }
        all_of(all)
    }

    // EXCEPT: the function and all indexes, and then the updates in order.
    #[cycle(eval)]
    fn except(&self, counts: &[usize], site: Site<'_>, args: &[Expr]) -> Answer<Value>
        ensures { Gives (except_in self.now site.entry.place counts.now site.entry.names.now
            args.now) result }
    {
        let [function, ..] = args else {
            return Err(Stop::Wrong(site.place));
        };
        self.is_readable();
        let trees = after(args, 1);
        let (start, found) = both(self.value(function), self.indexes(counts, trees))?;
        let paths = found.as_slice();
        let mut result = start;
        let mut rest = trees;
        for (n, path) in paths {
            let sides = after(rest, *n);
            result = self.update(site, sides, path.as_slice(), result)?;
            rest = after(sides, 1);
        }
        Ok(result)
    }

    #[cycle(eval)]
    fn indexes(&self, counts: &[usize], trees: &[Expr]) -> Answer<List<Path>>
        ensures { GivesAll (joined (outcomes_in self.now (index_trees counts.now trees.now)))
            (paths_in self.now counts.now trees.now) result }
    {
        let mut fault = Fault::NoFault;
        let mut items = Vec::new(self.alloc);
        let mut rest = trees;
        for n in counts {
            let part = self.joined(front(rest, *n))?;
            fault = join_faults(fault, part.fault);
            items.push((*n, List::from_vec(part.items)))?;
            rest = after(after(rest, *n), 1);
        }
        all_of(Joined { fault, items })
    }

    // One update. Where the path leaves the domain nothing changes, and the right side is not evaluated.
    #[cycle(eval)]
    fn update(&self, site: Site<'_>, sides: &[Expr], path: &[Value], value: Value) -> Answer<Value>
        requires { Normal value }
        ensures { Updates site.entry.place
            (update_in self.now site.entry.place site.entry.names.now path.now sides.now) value
            result }
    {
        match at_path(&value, path) {
            Reached::At(old) => {
                self.is_readable();
                let olds = vec![in self.alloc; copy_value(self.alloc, old)?]?;
                let new = self.under(site, sides, olds.as_slice())?;
                Ok(set_path(self.alloc, &value, path, &new)?)
            }
            Reached::Outside => Ok(value),
            Reached::NoFunction => Err(Stop::Wrong(site.place)),
        }
    }

    // A fold over a sequence: the body of the value so far and each item, in order.
    #[cycle(eval)]
    fn fold(&self, site: Site<'_>, args: &[Expr]) -> Answer<Value>
        ensures { Gives (fold_in self.now site.entry.place site.entry.names.now args.now) result }
    {
        let operands = self.operands(after(args, 1))?;
        let values = operands.as_slice();
        let (start, items) = value_and_items(values).ok_or(Stop::Wrong(site.place))?;
        self.is_readable();
        let pairs = items.as_slice();
        let first = copy_value(self.alloc, start)?;
        let mut so_far = first;
        for (_, item) in pairs {
            let pair = vec![in self.alloc; so_far, copy_value(self.alloc, item)?]?;
            so_far = self.under(site, args, pair.as_slice())?;
        }
        Ok(so_far)
    }

    // The set form of a tree, or the set that its value is.
    #[cycle(eval)]
    fn form(&self, e: &Expr) -> Answer<SetForm>
        ensures { GivesForm (form_in self.now e.now) result }
    {
        self.form_of(&e.op, e)
    }

    // The same, by the operator at its node.
    #[cycle(eval)]
    fn form_of(&self, op: &Op, e: &Expr) -> Answer<SetForm>
        ensures { GivesForm (form_node self.now e.now op.now) result }
    {
        let place = e.place;
        let trees = e.args.as_slice();
        match op {
            Op::IntSet => Ok(SetForm::AllInts),
            Op::NatSet => Ok(SetForm::AllNats),
            Op::StringSet => Ok(SetForm::AllTexts),
            Op::SeqSet | Op::Powerset => match trees {
                [only] => one_form(self.alloc, op, self.form(only)?, place),
                _ => Err(Stop::Wrong(place)),
            },
            Op::FunSet => self.function_set(place, trees),
            Op::RecSet(_) | Op::Product => form_of_several(
                self.alloc,
                op,
                self.forms(trees)?,
                place,
            ),
            Op::Noted(_) => self.form(first(trees, place)?),
            _ => Ok(SetForm::Plain(self.value(e)?)),
        }
    }

    // `[S -> F]`: the set S, and the form F.
    #[cycle(eval)]
    fn function_set(&self, place: Place, trees: &[Expr]) -> Answer<SetForm>
        ensures { GivesForm (function_form place (outcomes_in self.now trees.now)
            (forms_in self.now trees.now)) result }
    {
        let [set, ..] = trees else {
            return Err(Stop::Wrong(place));
        };
        let (domain, forms) = both(self.value(set), self.forms(after(trees, 1)))?;
        functions_from(self.alloc, domain, forms, place)
    }

    // All forms, or the join of their faults.
    #[cycle(eval)]
    fn forms(&self, trees: &[Expr]) -> Answer<List<SetForm>>
        ensures { GivesForms (forms_in self.now trees.now) result }
    {
        let mut all = nothing(self.alloc);
        for e in trees {
            let one = self.form(e);
            join(&mut all, one)?;
        }
        all_of(all)
    }
}

// Whether the trees are not those of an IF.
fn is_malformed(op: &Op, trees: &[Expr]) -> bool
    ensures { result ≡ is_malformed op.now trees.now }
{
    matches!(op, Op::If) && !matches!(trees, [_, _, _])
}
