// How many paths an action has, without making them.
ghost use Rattle.std.specs.Prelude.{◌≡◌, ◌+◌, ◌*◌, map, min};
ghost use Rattle.kernel_trees.specs.Paths.{Holds, ends_at, ways};
ghost use Rattle.kernel_trees.specs.Ways.{all_of, alone, any_of};
ghost use Rattle.kernel_trees.specs.ActionNames.{marks};
ghost use Rattle.transition_splitter.specs.Splitting.{greatest_number};
ghost use Rattle.transition_splitter.specs.inner.Counts.{behind, both, number_of, tally};
ghost use Rattle.transition_splitter.specs.inner.Routes.{branch_ways, rooted, some_ways};

use crate::mentioning::any_mentions;
use kernel_trees::{AssignableNames, Ker, KerOp, is_end};

// It stands for every greater number.
const GREATEST_NUMBER: u64 = 1_000_000_000_000;

// How many paths have ended, and how many go on.
#[derive(Clone, Copy, Drop)]
pub(crate) struct Tally {
    pub(crate) ended: u64,
    pub(crate) running: u64,
}

impl Tally {
    // The number of all paths.
    pub(crate) fn total(self) -> u64
        ensures { result ≡ number_of self }
    {
        cut_sum(self.ended, self.running)
    }

    // The paths of both.
    fn or(self, other: Tally) -> Tally
        ensures { result ≡ both self other }
    {
        Tally {
            ended: cut_sum(self.ended, other.ended),
            running: cut_sum(self.running, other.running),
        }
    }

    // Each path of the first, and behind one that goes on each of the second.
    fn and(self, other: Tally) -> Tally
        ensures { result ≡ behind self other }
    {
        Tally {
            ended: cut_sum(self.ended, cut_product(self.running, other.ended)),
            running: cut_product(self.running, other.running),
        }
    }
}

fn cut(n: u64) -> u64
    ensures { result ≡ min n greatest_number }
{
    n.min(GREATEST_NUMBER)
}

fn cut_sum(a: u64, b: u64) -> u64
    ensures { result ≡ min (a + b) greatest_number }
{
    cut(a.saturating_add(b))
}

fn cut_product(a: u64, b: u64) -> u64
    ensures { result ≡ min (a * b) greatest_number }
{
    cut(a.saturating_mul(b))
}

// One operand.
fn one_operand(k: &Ker) -> Tally
    ensures { result ≡ tally (alone (Holds k.now)) }
{
    if is_end(&k.op) {
        Tally {
            ended: 1,
            running: 0,
        }
    } else {
        Tally {
            ended: 0,
            running: 1,
        }
    }
}

// The paths of an action.
#[cycle(counts)]
pub(crate) fn count(marked: AssignableNames, k: &Ker) -> Tally
    ensures { result ≡ tally (ways (marks marked) k.now) }
{
    let args = k.args.as_slice();
    match &k.op {
        KerOp::And => count_all(marked, args),
        KerOp::Or => {
            if any_mentions(marked, args) {
                count_any(marked, args)
            } else {
                one_operand(k)
            }
        }
        KerOp::If => {
            if any_mentions(marked, args) {
                count_branches(marked, k)
            } else {
                one_operand(k)
            }
        }
        KerOp::Some => count_choice(marked, k),
        _ => one_operand(k),
    }
}

// Of a conjunction.
#[cycle(counts)]
fn count_all(marked: AssignableNames, ks: &[Ker]) -> Tally
    ensures { result ≡ tally (all_of ends_at (map (ways (marks marked)) ks.now)) }
{
    let mut whole = Tally {
        ended: 0,
        running: 1,
    };
    for k in ks {
        whole = whole.and(count(marked, k));
    }
    whole
}

// Of a disjunction.
#[cycle(counts)]
fn count_any(marked: AssignableNames, ks: &[Ker]) -> Tally
    ensures { result ≡ tally (any_of (map (rooted (marks marked)) ks.now)) }
{
    let mut whole = Tally {
        ended: 0,
        running: 0,
    };
    for k in ks {
        whole = whole.or(count(marked, k));
    }
    whole
}

// Of an IF, by its guard.
#[cycle(counts)]
fn count_branches(marked: AssignableNames, k: &Ker) -> Tally
    ensures { result ≡ tally (branch_ways (marks marked) k.now) }
{
    let [_, yes, no] = k.args.as_slice() else {
        return one_operand(k);
    };
    let first = count(marked, yes);
    let second = count(marked, no);
    first.or(second)
}

// Of an `\E`, by its body.
#[cycle(counts)]
fn count_choice(marked: AssignableNames, k: &Ker) -> Tally
    ensures { result ≡ tally (some_ways (marks marked) k.now) }
{
    let Some(body) = k.args.as_slice().get(k.binds.len()) else {
        return one_operand(k);
    };
    count(marked, body)
}
