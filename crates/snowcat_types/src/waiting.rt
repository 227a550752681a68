// Nodes whose types are tied only once the type that decides is known.
ghost use Rattle.std.specs.Prelude.{◌≡◌};
ghost use Rattle.snowcat_types.specs.Waiting.{default_kind, place_of};

use crate::kinds::Kind;
use tla_meaning::Place;
use tla_values::Text;

/// What an index is, where it is a literal.
#[derive(Drop)]
pub enum Index {
    Number(i128),
    Word(Text),
    NoLiteral,
}

/// What the choice of the node above must know of a node: its place, and whether it is a literal.
#[derive(Drop)]
pub struct Sight {
    pub place: Place,
    pub literal: Index,
}

/// A node that waits. All its types are unknown ones of its own, which are named by numbers.
#[derive(Drop)]
pub enum Wait {
    /// An application or an index of an EXCEPT: its place, the types of what is applied, of the index and of the
    /// result, and the index where it is a literal.
    Apply(Place, u32, u32, u32, Index),
    /// A domain: its place, the types of its operand, of the domain, and of the operand's arguments and values
    /// where it is a function.
    Domain(Place, u32, u32, u32, u32),
    /// A tuple with items: its place, its type, that of its items where it is a sequence, and from which number
    /// on its items have their types, and how many.
    Tuple(Place, u32, u32, u32, u32),
}

pub(crate) fn place_of(wait: &Wait) -> Place
    ensures { result ≡ place_of wait.now }
{
    match wait {
        Wait::Apply(place, _, _, _, _) => *place,
        Wait::Domain(place, _, _, _, _) => *place,
        Wait::Tuple(place, _, _, _, _) => *place,
    }
}

pub(crate) fn default_kind(wait: &Wait) -> Kind
    ensures { result ≡ default_kind wait.now }
{
    match wait {
        Wait::Apply(_, _, _, _, _) => Kind::Function,
        Wait::Domain(_, _, _, _, _) => Kind::Function,
        Wait::Tuple(_, _, _, _, _) => Kind::Tuple,
    }
}
