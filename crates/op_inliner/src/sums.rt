// Numbers of nodes that depend on the arguments of a definition.
ghost use Rattle.std.specs.Prelude.{◌≡◌, ◌++◌, ◌∷◌, [], IfOk, map};
ghost use Rattle.op_inliner.specs.Answers.{up_to};
ghost use Rattle.op_inliner.specs.inner.Sums.{add_factors, add_sums, combined, cut_product_of, cut_sum_of, given, limit, one_more, plain_number, times, twice};

use std::alloc::{AllocError, Global};
use tla_values::List;

// A count that stands for every greater one.
pub(crate) const LIMIT: u64 = 1_000_000_000_000;

/// A number, and how often each unknown number comes in it.
#[derive(Drop)]
pub(crate) struct Sum {
    pub(crate) base: u64,
    pub(crate) factors: List<u64>,
}

/// What an expression counts: the nodes of its tree, those of UNCHANGED of it, and 1 where it is no tuple below its
/// notes and primes.
#[derive(Drop)]
pub(crate) struct Counted {
    pub(crate) tree: Sum,
    pub(crate) kept: Sum,
    pub(crate) plain: Sum,
}

impl Sum {
    // An equal sum.
    pub(crate) fn copy(&self, alloc: Global) -> Result<Sum, AllocError>
        ensures { IfOk result (λ s. s ≡ self.now) }
    {
        let factors = Vec::from_slice(alloc, self.factors.as_slice())?;
        Ok(Sum {
            base: self.base,
            factors: List::from_vec(factors),
        })
    }
}

pub(crate) fn cut(n: u64) -> u64
    ensures { result ≡ up_to limit n }
{
    if n > LIMIT { LIMIT } else { n }
}

fn cut_sum(a: u64, b: u64) -> u64
    ensures { result ≡ cut_sum_of a b }
{
    cut(a.saturating_add(b))
}

fn cut_product(a: u64, b: u64) -> u64
    ensures { result ≡ cut_product_of a b }
{
    cut(a.saturating_mul(b))
}

// A number in which no unknown comes.
pub(crate) fn plain_number(alloc: Global, base: u64) -> Sum
    ensures { result ≡ plain_number base }
{
    Sum {
        base,
        factors: List::new(alloc),
    }
}

pub(crate) fn add_sums(alloc: Global, s: &Sum, t: &Sum) -> Result<Sum, AllocError>
    ensures { IfOk result (λ r. r ≡ add_sums s.now t.now) }
{
    let factors = add_factors(alloc, s.factors.as_slice(), t.factors.as_slice())?;
    Ok(Sum {
        base: cut_sum(s.base, t.base),
        factors,
    })
}

fn add_factors(alloc: Global, us: &[u64], vs: &[u64]) -> Result<List<u64>, AllocError>
    ensures { IfOk result (λ r. r ≡ add_factors us.now vs.now) }
{
    let mut sums = Vec::new(alloc);
    let mut i = 0;
    while i < us.len() && i < vs.len() {
        sums.push(cut_sum(us[i], vs[i]))?;
        i += 1;
    }
    sums.extend_from_slice(&us[i..])?;
    sums.extend_from_slice(&vs[i..])?;
    Ok(List::from_vec(sums))
}

fn times(alloc: Global, a: u64, s: &Sum) -> Result<Sum, AllocError>
    ensures { IfOk result (λ r. r ≡ times a s.now) }
{
    let mut factors = Vec::new(alloc);
    for u in s.factors.as_slice() {
        factors.push(cut_product(a, *u))?;
    }
    Ok(Sum {
        base: cut_product(a, s.base),
        factors: List::from_vec(factors),
    })
}

pub(crate) fn one_more(s: Sum) -> Sum
    ensures { result ≡ one_more s }
{
    Sum {
        base: cut_sum(s.base, 1),
        factors: s.factors,
    }
}

pub(crate) fn twice(alloc: Global, s: &Sum) -> Result<Sum, AllocError>
    ensures { IfOk result (λ r. r ≡ twice s.now) }
{
    add_sums(alloc, s, s)
}

// Sums in the place of unknowns.
fn combined(alloc: Global, us: &[u64], ss: &[Sum]) -> Result<Sum, AllocError>
    ensures { IfOk result (λ r. r ≡ combined us.now ss.now) }
{
    let mut i = us.len().min(ss.len());
    let mut all = plain_number(alloc, 0);
    while i > 0 {
        i -= 1;
        let part = times(alloc, us[i], &ss[i])?;
        all = add_sums(alloc, &part, &all)?;
    }
    Ok(all)
}

// The sum with these sums in the place of its unknowns from the number m on.
pub(crate) fn given(alloc: Global, m: usize, ss: &[Sum], s: &Sum) -> Result<Sum, AllocError>
    ensures { IfOk result (λ r. r ≡ given m ss.now s.now) }
{
    let factors = s.factors.as_slice();
    let m = m.min(factors.len());
    let front = Sum {
        base: s.base,
        factors: List::from_vec(Vec::from_slice(alloc, &factors[..m])?),
    };
    let behind = combined(alloc, &factors[m..], ss)?;
    let sum = add_sums(alloc, &front, &behind)?;
    Ok(sum)
}
