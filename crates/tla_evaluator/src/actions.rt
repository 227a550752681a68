// Actions: whether one holds between two states, and its fault.
ghost use Rattle.std.specs.List.{All};
ghost use Rattle.std.specs.Prelude.{◌≡◌, IfOk, map};
ghost use Rattle.tla_values.specs.Sets.{Normal};
ghost use Rattle.tla_meaning.specs.declared.actions.Effect.{Effect as Given};
ghost use Rattle.tla_meaning.specs.Actions.{effect_of, effects_and, effects_or, fails_by};
ghost use Rattle.tla_evaluator.specs.inner.Effects.{act_in, acts, body_in, either, exists_in, first_effect_in};
ghost use Rattle.tla_evaluator.specs.inner.Gives.{GivesEffect};
ghost use Rattle.tla_evaluator.specs.inner.Readings.{effect_in, effects_in, value_in};

use crate::answers::{Answer, Stop, Stored, join_faults};
use crate::context::Context;
use crate::expressions::Site;
use crate::sets::choices_of;
use crate::trees::{after, any_mentions, first, front};
use tla_meaning::{Assignable, Effect, Expr, Fault, Op, Place};
use tla_values::{List, Value};

pub(crate) fn effect(holds: bool, fault: Fault) -> Effect
    ensures { result ≡ record { holds = holds; fault = fault } }
{
    Effect { holds, fault }
}

fn fails_by(fault: Fault) -> Effect
    ensures { result ≡ fails_by fault }
{
    effect(false, fault)
}

// The effect that is given, or that of what stops it.
pub(crate) fn settled(answer: Answer<Effect>) -> Stored<Effect>
    ensures { (f : Given) → GivesEffect f answer → IfOk result (λ g. g ≡ f) }
{
    match answer {
        Ok(f) => Ok(f),
        Err(Stop::Wrong(p)) => Ok(fails_by(Fault::IsWrong(p))),
        Err(Stop::Big(p)) => Ok(fails_by(Fault::IsBig(p))),
        Err(Stop::Memory(e)) => Err(e),
    }
}

fn either(f: Effect, g: Effect) -> Effect
    ensures { result ≡ either f g }
{
    effect(f.holds || g.holds, join_faults(f.fault, g.fault))
}

// Whether a node with these operands acts by its parts, and not by its value.
fn is_action(op: &Op, args: &[Expr], assigned: Assignable) -> bool
    ensures { result ≡ acts assigned op.now args.now }
{
    match op {
        Op::And | Op::Exists | Op::Noted(_) => true,
        Op::Or | Op::If | Op::Case(_) => any_mentions(args, assigned),
        _ => false,
    }
}

impl Context<'_> {
    // By the outcome of a tree.
    pub(crate) fn by_value(&self, e: &Expr) -> Answer<Effect>
        ensures { GivesEffect (effect_of (value_in self.now e.now)) result }
    {
        let value = self.value(e)?;
        Ok(effect(matches!(value, Value::Bool(true)), Fault::NoFault))
    }

    // The effect of a tree.
    #[cycle(action)]
    pub(crate) fn action(&self, e: &Expr, assigned: Assignable) -> Stored<Effect>
        ensures { IfOk result (λ f. f ≡ effect_in self.now assigned e.now) }
    {
        let place = e.place;
        let names = e.binds.as_slice();
        let args = e.args.as_slice();
        if is_action(&e.op, args, assigned) {
            settled(self.act(&e.op, Site { place, names }, args, assigned))
        } else {
            settled(self.by_value(e))
        }
    }

    // The effect of a node that acts by its parts.
    #[cycle(action)]
    fn act(&self, op: &Op, site: Site<'_>, args: &[Expr], assigned: Assignable) -> Answer<Effect>
        ensures { GivesEffect (act_in self.now assigned site.entry.place op.now
            site.entry.names.now args.now) result }
    {
        let place = site.place;
        match op {
            Op::And => Ok(self.all_effects(args, assigned)?),
            Op::Exists => self.exists_effect(args, site, assigned),
            Op::Or => Ok(self.some_effect(args, assigned)?),
            Op::If | Op::Case(_) => Ok(self.action(self.branch(op, place, args)?, assigned)?),
            Op::Noted(_) => self.first_effect(args, place, assigned),
            _ => Err(Stop::Wrong(place)),
        }
    }

    // The first of these trees.
    #[cycle(action)]
    fn first_effect(&self, trees: &[Expr], place: Place, assigned: Assignable) -> Answer<Effect>
        ensures { GivesEffect (first_effect_in self.now assigned place trees.now) result }
    {
        Ok(self.action(first(trees, place)?, assigned)?)
    }

    // All operands in order, as far as they hold, also where they have a fault.
    #[cycle(action)]
    fn all_effects(&self, args: &[Expr], assigned: Assignable) -> Stored<Effect>
        ensures { IfOk result (λ f. f ≡ effects_and (effects_in self.now assigned args.now)) }
    {
        let mut fault = Fault::NoFault;
        for e in args {
            let one = self.action(e, assigned)?;
            fault = join_faults(fault, one.fault);
            if !one.holds {
                return Ok(fails_by(fault));
            }
        }
        Ok(Effect { holds: true, fault })
    }

    // One operand or more, with the faults of all.
    #[cycle(action)]
    fn some_effect(&self, args: &[Expr], assigned: Assignable) -> Stored<Effect>
        ensures { IfOk result (λ f. f ≡ effects_or (effects_in self.now assigned args.now)) }
    {
        let mut all = fails_by(Fault::NoFault);
        for e in args {
            let one = self.action(e, assigned)?;
            all = either(all, one);
        }
        Ok(all)
    }

    // A fault of the domains, or else the body over all members.
    #[cycle(action)]
    fn exists_effect(&self, args: &[Expr], site: Site<'_>, assigned: Assignable) -> Answer<Effect>
        ensures { GivesEffect (exists_in self.now assigned site.entry.place site.entry.names.now
            args.now) result }
    {
        let domains = self.operands(front(args, site.names.len()))?;
        let alloc = self.alloc;
        let choices = choices_of(alloc, domains.as_slice())?.ok_or(Stop::Wrong(site.place))?;
        let trees = after(args, site.names.len());
        self.body_effects(site, trees, choices.as_slice(), assigned)
    }

    // The body at each choice of values for the names.
    #[cycle(action)]
    fn body_effects(
        &self,
        site: Site<'_>,
        trees: &[Expr],
        choices: &[List<Value>],
        assigned: Assignable,
    ) -> Answer<Effect>
        requires { All (λ c. All Normal c) choices.now }
        ensures { GivesEffect (effects_or (map (body_in self.now assigned site.entry.place trees.now
            site.entry.names.now) choices.now)) result }
    {
        let mut all = fails_by(Fault::NoFault);
        for choice in choices {
            let inner = (&*self).with(&*site.names, choice.as_slice())?;
            let one = settled(inner.first_effect(trees, site.place, assigned))?;
            all = either(all, one);
        }
        Ok(all)
    }
}
