// What names count, and what their uses count.
ghost use Rattle.std.specs.Prelude.{◌≡◌, ◌+◌, ◌++◌, ◌∷◌, [], IfOk, IfNone, IfSome, None, OnOk, Some};
ghost use Rattle.tla_meaning.specs.Scopes.{find_last, same_text};
ghost use Rattle.op_inliner.specs.inner.Sums.{all_given, behind_all, called_sums, entry_of, flat_sums, no_sums, parameters, scope_of, unknown, unknown_count, zeros};

use crate::sums::{Counted, Sum, given, plain_number};
use std::alloc::{AllocError, Global};
use tla_values::{List, Text, copy_text};

/// What a name counts: so many unknown numbers stand before those of its own parameters.
#[derive(Drop)]
pub(crate) struct Entry {
    pub(crate) name: Text,
    pub(crate) below: usize,
    pub(crate) counted: Counted,
}

// The last entry of a name.
pub(crate) fn find_last<'a>(name: &Text, scope: &'a [Entry]) -> Option<&'a Entry>
    ensures some { IfSome result (λ e. find_last name.now (scope_of scope.now) ≡ Some (e.now.below, e.now.counted)) }
    ensures none { IfNone result (find_last name.now (scope_of scope.now) ≡ None) }
{
    let mut i = scope.len();
    while i > 0 {
        i -= 1;
        let entry = &scope[i];
        if same_name(name, &entry.name) {
            return Some(entry);
        }
    }
    None
}

pub(crate) fn same_name(a: &Text, b: &Text) -> bool
    ensures { result ≡ same_text a.now b.now }
{
    a.bytes().cmp(b.bytes()).is_eq()
}

// A use of a name, by what its arguments count.
pub(crate) fn called(
    alloc: Global,
    name: &Text,
    scope: &[Entry],
    arguments: List<Counted>,
) -> Result<Counted, AllocError>
    ensures { IfOk result (λ c. c ≡ called_sums (find_last name.now (scope_of scope.now)) arguments) }
{
    match find_last(name, scope) {
        Some(entry) => {
            let sums = flat_sums(alloc, arguments)?;
            let counted = all_given(alloc, entry.below, sums.as_slice(), &entry.counted)?;
            Ok(counted)
        }
        None => Ok(no_sums(alloc)),
    }
}

pub(crate) fn no_sums(alloc: Global) -> Counted
    ensures { result ≡ no_sums }
{
    Counted {
        tree: plain_number(alloc, 1),
        kept: plain_number(alloc, 3),
        plain: plain_number(alloc, 1),
    }
}

fn flat_sums(alloc: Global, counts: List<Counted>) -> Result<Vec<Sum>, AllocError>
    ensures { IfOk result (λ sums. sums.items ≡ flat_sums counts) }
{
    let mut sums = Vec::new(alloc);
    for counted in counts.into_vec() {
        let Counted { tree, kept, plain } = counted;
        sums.push(tree)?;
        sums.push(kept)?;
        sums.push(plain)?;
    }
    Ok(sums)
}

fn all_given(
    alloc: Global,
    below: usize,
    sums: &[Sum],
    counted: &Counted,
) -> Result<Counted, AllocError>
    ensures { IfOk result (λ c. c ≡ all_given below sums.now counted.now) }
{
    let tree = given(alloc, below, sums, &counted.tree)?;
    let kept = given(alloc, below, sums, &counted.kept)?;
    let plain = given(alloc, below, sums, &counted.plain)?;
    Ok(Counted { tree, kept, plain })
}

// The unknown number at this place.
fn unknown(alloc: Global, i: usize) -> Result<Sum, AllocError>
    ensures { IfOk result (λ s. s ≡ unknown i) }
{
    let mut factors = vec![in alloc; 0; i]?;
    factors.push(1)?;
    Ok(Sum {
        base: 0,
        factors: List::from_vec(factors),
    })
}

// Adds parameters, whose unknown numbers begin at this one, and answers where they end.
pub(crate) fn push_parameters(
    alloc: Global,
    names: &[Text],
    first: usize,
    scope: &mut Vec<Entry>,
) -> Result<usize, AllocError>
    ensures end { IfOk result (λ end. end ≡ behind_all names.now first) }
    ensures pushed { OnOk result (scope_of scope.new.items ≡ scope_of scope.old.items ++ parameters names.now first) }
{
    let mut next = first;
    for name in names {
        let entry = parameter(alloc, name, next)?;
        next = entry.below;
        scope.push(entry)?;
    }
    Ok(next)
}

fn parameter(alloc: Global, name: &Text, first: usize) -> Result<Entry, AllocError>
    ensures { IfOk result (λ e. entry_of e ≡ (name.now, (3 + first, unknown_count first))) }
{
    let tree = unknown(alloc, first)?;
    let kept = unknown(alloc, tree.factors.len())?;
    let plain = unknown(alloc, kept.factors.len())?;
    let name = copy_text(alloc, name)?;
    Ok(Entry {
        name,
        below: plain.factors.len(),
        counted: Counted { tree, kept, plain },
    })
}
