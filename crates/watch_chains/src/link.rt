// A link of a list.
ghost use Rattle.std.specs.Prelude.{◌≡◌, ◌+◌, ◌*◌, ◌^◌, ◌<◌};
ghost use Rattle.watch_chains.specs.Chains.{place_of};

/// One of the two slots of a clause, by which the clause stands in a list.
#[derive(Clone, Copy, Debug, PartialEq, Eq)]
pub struct Link {
    /// The number of the clause.
    pub clause: usize,
    /// 0 or 1.
    pub slot: u8,
}

impl Link {
    // Where the slot stands in a table with two entries for each clause.
    pub(crate) fn place(self) -> usize
        requires { 2 * self.clause + self.slot < 2 ^ 64 }
        ensures { result ≡ place_of self }
    {
        2 * self.clause + self.slot as usize
    }
}
