// The trees of the kernel.
use snowcat_rows::Ty;
use tla_meaning::Place;
use tla_values::{List, Text, Value};

/// What stands at a node. A binder has a set for each number that it binds, and then its body; what `Update` and
/// `FoldLeft` bind stands with them.
#[derive(Drop)]
pub enum KerOp {
    /// A truth value, a number or a text.
    Const(Value),
    /// A declared name, by its number, and whether it is primed.
    Name(usize, bool),
    /// What is bound under a number.
    Bound(u32),
    And,
    Or,
    Not,
    If,
    Equal,
    Less,
    Plus,
    Minus,
    Times,
    /// `\div`.
    Quotient,
    /// `%`.
    Remainder,
    /// A set of items.
    SetOf,
    Member,
    /// `\subseteq`.
    Included,
    Filter,
    /// `{e : x \in S}`.
    MapOver,
    /// `UNION S`.
    Flatten,
    /// `\cup`.
    Union,
    /// `\cap`.
    Inter,
    /// `\`.
    Without,
    /// `a..b`; two further children may bound the numbers, and are not read.
    Range,
    /// `SUBSET S`.
    Subsets,
    /// `[S -> T]`.
    Functions,
    /// `Cardinality(S)`.
    Count,
    /// `[x \in S |-> e]`.
    FunOf,
    /// `f[e]`.
    At,
    /// `[f EXCEPT ![i] = e]`: the function, an index, and the new value, in which the old one is bound.
    Update,
    Domain,
    /// `f @@ g`.
    Join,
    TupOf,
    /// The item of a tuple at a number from 1.
    Item(usize),
    /// A record with fields of these names.
    RecOf(List<Text>),
    FieldOf(Text),
    /// A sequence of items.
    SeqOf,
    /// `Len(s)`.
    Length,
    /// `Append(s, e)`.
    Push,
    /// `Head(s)`.
    First,
    /// `Tail(s)`.
    Rest,
    /// `SubSeq(s, m, n)`.
    Slice,
    /// `s \o t`.
    Glue,
    /// A fold over a sequence: the body, in which the value so far and the item are bound, the first value, and the
    /// sequence.
    FoldLeft,
    /// `\E`.
    Some,
    /// `\A`.
    Every,
    /// A CASE of which no guard is TRUE.
    NoCase,
    /// `Int`.
    IntForm,
    /// `Nat`.
    NatForm,
    /// `STRING`.
    TextForm,
    /// `Seq(S)`.
    SeqForm,
    /// `[a: S, b: T]`.
    RecForm(List<Text>),
    /// `S \X T`.
    TupForm,
}

/// A tree of the kernel.
#[derive(Drop)]
pub struct Ker {
    /// Where the node stands in the modules.
    pub place: Place,
    /// The type of its values.
    pub ty: Ty,
    pub op: KerOp,
    /// The children, in the order of the operator for which the node's stands.
    pub args: List<Ker>,
    /// The numbers that it binds.
    pub binds: List<u32>,
}
