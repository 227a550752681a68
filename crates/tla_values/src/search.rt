// Binary search in sets and functions.
ghost use Rattle.std.specs.List.{AllWithin, HoldsAt};
ghost use Rattle.std.specs.List.Sorted.{IsPartitionPoint};
ghost use Rattle.std.specs.Prelude.{◌<◌, ◌≡◌, ◌≤◌, IsTrue, MatchResult, length};
ghost use Rattle.std.specs.declared.cmp.Ordering.TheVariants.{Equal, Greater, Less};
ghost use Rattle.tla_values.specs.Order.{value_cmp};
ghost use Rattle.tla_values.specs.Sets.{arguments, increasing};

use crate::order::compare;
use crate::value::Value;

// The place of a member, or else the place at which it would stand.
pub(crate) fn find_member(members: &[Value], v: &Value) -> Result<usize, usize>
    requires { IsTrue (increasing members.now) }
    ensures bound { MatchResult result (λ i. i < length members.now) (λ i. i ≤ length members.now) }
    ensures place { MatchResult result
        (HoldsAt (λ y. value_cmp y v.now ≡ Equal) members.now)
        (IsPartitionPoint (λ y. value_cmp y v.now ≡ Less) (λ y. value_cmp y v.now ≡ Greater) members.now) }
{
    members.binary_search_by(|member| compare(member, v))
}

/// The place of the pair with an argument, or else the place at which it would stand. Takes no memory.
pub fn find_argument(pairs: &[(Value, Value)], a: &Value) -> Result<usize, usize>
    requires { IsTrue (increasing (arguments pairs.now)) }
    ensures bound { MatchResult result (λ i. i < length pairs.now) (λ i. i ≤ length pairs.now) }
    ensures place { MatchResult result
        (HoldsAt (λ p. value_cmp p.0 a.now ≡ Equal) pairs.now)
        (IsPartitionPoint (λ p. value_cmp p.0 a.now ≡ Less) (λ p. value_cmp p.0 a.now ≡ Greater) pairs.now) }
{
    pairs.binary_search_by(|pair| compare(&pair.0, a))
}
