// The kinds of actions, and the names that one may assign.
ghost use Rattle.std.specs.Prelude.{◌≡◌, filter, length};
ghost use Rattle.tla_meaning.specs.Actions.{counts};
ghost use Rattle.kernel_trees.specs.ActionNames.{assignable_in, constants, marks};

use tla_meaning::{Assignable, Decl};

/// What an action is for: it gives the constants their values, is how executions start, or is their steps.
#[derive(Clone, Copy, Debug, Drop, PartialEq, Eq)]
pub enum ActionKind {
    /// CInit, which assigns constants.
    Constants,
    /// Init, which assigns variables.
    Start,
    /// Next, which assigns primed variables.
    Step,
}

/// The number of declared names, and which of them an action may assign.
#[derive(Clone, Copy, Drop)]
pub struct AssignableNames {
    pub declared: usize,
    pub assignable: Assignable,
}

impl AssignableNames {
    /// Whether the action may assign this name.
    pub fn holds(self, name: usize, primed: bool) -> bool
        ensures { result ≡ marks self name primed }
    {
        name < self.declared && counts(self.assignable, name, primed)
    }
}

/// Whether these assignable names hold a name, whatever number of names is declared.
pub fn counts(assignable: Assignable, name: usize, primed: bool) -> bool
    ensures { result ≡ counts assignable name primed }
{
    match assignable {
        Assignable::Every => true,
        Assignable::Primed => primed,
        Assignable::Constants(n) => name < n,
        Assignable::Variables(n) => n <= name,
        Assignable::PrimedVariables(n) => primed && n <= name,
    }
}

fn count_of_constants(names: &[Decl]) -> usize
    ensures { result ≡ constants names.now }
{
    names.iter().filter(|name| name.constant).count()
}

/// The names that an action of this kind may assign: the declared ones are those of a job, constants first.
pub fn marks_of(names: &[Decl], kind: ActionKind) -> AssignableNames
    ensures declared { result.declared ≡ length names.now }
    ensures assignable { result.assignable ≡ assignable_in kind (constants names.now) }
{
    let count = count_of_constants(names);
    let assignable = match kind {
        ActionKind::Constants => Assignable::Constants(count),
        ActionKind::Start => Assignable::Variables(count),
        ActionKind::Step => Assignable::PrimedVariables(count),
    };
    AssignableNames {
        declared: names.len(),
        assignable,
    }
}
