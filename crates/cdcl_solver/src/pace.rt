//! When the search goes back to its beginning.

ghost use Rattle.std.specs.Prelude.{◌<◌, ◌≤◌};

/// Goes by how many levels the literals of a learned clause are of, on average of late and from the
/// start. (Audemard and Simon, "Predicting Learnt Clauses Quality in Modern SAT Solvers", 2009.)
#[derive(Clone, Copy, Debug)]
pub struct Pace {
    // Both averages count `ONE` for each level.
    recent: u64,
    whole: u64,
    clauses: u64,
    // How many clauses were learned since the search went back.
    since: u64,
}

const ONE: u64 = 1 << 32;

// The least number of clauses between two times.
const LEAST: u64 = 50;

// About how many clauses each average is of.
const FEW: u64 = 32;

const MANY: u64 = 8192;

impl Pace {
    /// Nothing was learned yet.
    pub fn new() -> Pace {
        Pace {
            recent: 0,
            whole: 0,
            clauses: 0,
            since: 0,
        }
    }

    /// Notes a clause whose literals are of so many levels, after which the search would go back
    /// before this one. Answers the level to go back before: that one, or the first where all is to be
    /// decided anew or where such clauses have come to be of more levels than before.
    pub fn level_after(&mut self, levels: u64, level: usize, anew: bool) -> usize
        ensures { result ≤ level }
    {
        self.clauses = self.clauses.saturating_add(1);
        self.since = self.since.saturating_add(1);
        self.recent = moved(self.recent, levels, FEW);
        self.whole = moved(self.whole, levels, self.clauses.clamp(1, MANY));
        if anew || (self.since >= LEAST && self.recent / 5 * 4 > self.whole) {
            self.since = 0;
            return 0;
        }
        level
    }
}

// The average of so many, where one more comes.
fn moved(average: u64, levels: u64, count: u64) -> u64
    requires { 0 < count }
{
    let part = levels.saturating_mul(ONE) / count;
    (average - average / count).saturating_add(part)
}
