// What an action does in an action position.
use crate::outcome::Fault;

/// Whether an action holds, and the fault that was met on the way.
#[derive(Clone, Copy, Debug, Drop, PartialEq, Eq)]
pub struct Effect {
    pub holds: bool,
    pub fault: Fault,
}

/// The names that an action may assign: a disjunction that holds one of them is strict in all its operands. A name is
/// counted by its number, where those of the constants stand first, and by whether it is primed.
#[derive(Clone, Copy, Debug, Drop, PartialEq, Eq)]
pub enum Assignable {
    /// Every name.
    Every,
    /// The primed names.
    Primed,
    /// The constants, of which there are so many: in CInit.
    Constants(usize),
    /// The variables, behind so many constants: in Init.
    Variables(usize),
    /// The primed variables, behind so many constants: in Next.
    PrimedVariables(usize),
}
