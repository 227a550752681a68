// What the annotations of a job say.
use snowcat_rows::Ty;
use tla_values::{List, Text};

/// What the annotations of a job say.
#[derive(Drop)]
pub struct Told {
    /// Of each declared name its type, with the number of that type's variables.
    pub declared: List<(Ty, u32)>,
    /// The texts of notes, each with the type that it binds, if it binds one.
    pub notes: List<(Text, Option<Ty>)>,
}
