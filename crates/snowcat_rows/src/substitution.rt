// Substitutions, and the most general one that makes two types equal.
ghost use Rattle.std.specs.Prelude.{ℕ, ◌≡◌, ◌+◌, ◌<◌, ◌≤◌, [], IfOk, length, MatchResult, OnOk, alloc_error, take, true};
ghost use Rattle.snowcat_rows.specs.Types.{mean, var};
ghost use Rattle.snowcat_rows.specs.Substitutions.{apply};
ghost use Rattle.snowcat_rows.specs.Chains.{Chain, solved};
ghost use Rattle.snowcat_rows.specs.Codes.{Begins, bindings_of};
ghost use Rattle.snowcat_rows.specs.Sorting.{Within};
ghost use Rattle.snowcat_rows.specs.Unifying.{HasNames, IsMade, IsRefused};
ghost use Rattle.snowcat_rows.specs.FieldNames.{names_differ};
ghost use Rattle.snowcat_rows.specs.inner.Naming.{are_named, fault_named, round_named};
ghost use Rattle.snowcat_rows.specs.inner.Places.{Indexed};
ghost use Rattle.snowcat_rows.specs.inner.Rounds.{After};
ghost use Rattle.snowcat_rows.specs.inner.Stores.{HasBoth, IsFurther, IsKept, IsNamed, IsSolved, IsSound, IsSound-prop, bound_in};

use crate::bindings::{Bound, advance, bound_by};
use crate::differences::difference;
use crate::following::follow_root;
use crate::places::Places;
use crate::replacement::put_all;
use crate::settling::{Settled, settle};
use crate::types::{Ty, copy_type};
use std::alloc::{AllocError, Global};

/// Why two types are not made equal.
#[derive(Drop)]
pub enum UnifyFault {
    /// Two parts that stand at one place of the types and cannot be made equal, that of the first type first. What must
    /// be equal before it is put in place in both.
    Clash(Ty, Ty),
    Memory(AllocError),
}

impl From<AllocError> for UnifyFault {
    ghost use Rattle.snowcat_rows.specs.declared.substitution.UnifyFault.TheVariants.{Memory as wants_memory};

    ghost from_gives = { λ _ e. e ≡ wants_memory alloc_error };

    fn from(_: AllocError) -> Self {
        UnifyFault::Memory(AllocError)
    }
}

// What one round of the search finds.
#[derive(Drop)]
enum Round {
    Equal,
    Differs(Ty, Ty),
    // The types with the new bindings put in place.
    More(Ty, Ty),
}

// Writes the places of the bindings from the mark on.
fn note_places(places: &mut Places, bindings: &[Bound], mark: usize) -> Result<(), AllocError>
    requires chain { Chain (bindings_of bindings.now) }
    requires indexed { Indexed places.old (take mark bindings.now) }
    ensures old { Indexed places.new (take mark bindings.now) }
    ensures ok { OnOk result (Indexed places.new bindings.now) }
{
    for i in mark..bindings.len() {
        places.set(bound_by(&bindings[i]), i)?;
    }
    Ok(())
}

// What is bound, in the order in which it was bound and by places, and how many variables are issued.
#[derive(Drop)]
struct Store {
    issued: u32,
    bindings: Vec<Bound>,
    places: Places,
}

impl Store {
    // One round of the search: more bindings, or its end.
    fn run_round(&mut self, alloc: Global, a: &Ty, b: &Ty) -> Result<Round, AllocError>
        ensures further { IsFurther self.old self.new }
        ensures ok { IfOk result (λ r. After r (mean a.now) (mean b.now)
            self.old.issued (bound_in self.old) (bound_in self.new) self.new.issued) }
        ensures named { IsNamed self.old → are_named a.now b.now ≡ true
            → IfOk result (λ r. (round_named r ≡ true) × IsNamed self.new) }
    {
        let mark = self.bindings.len();
        match difference(a, b) {
            None => Ok(Round::Equal),
            Some((x, y)) => {
                if advance(alloc, &mut self.issued, &mut self.bindings, x, y)? {
                    let left = put_all(alloc, a, &self.bindings[mark..])?;
                    let right = put_all(alloc, b, &self.bindings[mark..])?;
                    return Ok(Round::More(left, right));
                }
                let first = copy_type(alloc, x)?;
                let second = copy_type(alloc, y)?;
                Ok(Round::Differs(first, second))
            }
        }
    }

    // Adds the bindings that make the types equal.
    fn solve(&mut self, alloc: Global, a: &Ty, b: &Ty) -> Result<(), UnifyFault>
        requires sound { IsSound self.old }
        requires within { HasBoth self.old (mean a.now) (mean b.now) }
        requires named { are_named a.now b.now ≡ true }
        ensures further { IsFurther self.old self.new }
        ensures solved { MatchResult result
            (λ _. IsSolved self.old self.new (mean a.now) (mean b.now))
            (λ e. IsRefused e self.old.issued (bound_in self.old) (mean a.now) (mean b.now)) }
        ensures clash { MatchResult result (λ _. Unit {0}) (λ e. fault_named e ≡ true) }
    {
        let mut left = settle(alloc, a, self.bindings.as_slice(), &self.places)?;
        let mut right = settle(alloc, b, self.bindings.as_slice(), &self.places)?;
        'search: loop {
            match self.run_round(alloc, &left, &right) {
                Ok(Round::Equal) => return Ok(()),
                Ok(Round::Differs(x, y)) => return Err(UnifyFault::Clash(x, y)),
                Ok(Round::More(x, y)) => {
                    left = x;
                    right = y;
                }
                Err(_) => return Err(UnifyFault::Memory(AllocError)),
            }
        }
    }

    // Adds the bindings that make the types equal, and their places.
    fn solve_and_note(&mut self, alloc: Global, a: &Ty, b: &Ty) -> Result<(), UnifyFault>
        requires sound { IsSound self.old }
        requires within { HasBoth self.old (mean a.now) (mean b.now) }
        requires named { are_named a.now b.now ≡ true }
        ensures kept { IsKept self.old self.new }
        ensures solved { MatchResult result
            (λ _. IsSound self.new × IsSolved self.old self.new (mean a.now) (mean b.now))
            (λ e. IsRefused e self.old.issued (bound_in self.old) (mean a.now) (mean b.now)) }
        ensures clash { MatchResult result (λ _. Unit {0}) (λ e. fault_named e ≡ true) }
    {
        let mark = self.bindings.len();
        self.solve(alloc, a, b)?;
        note_places(&mut self.places, self.bindings.as_slice(), mark)?;
        Ok(())
    }

    // Makes the types equal, or leaves all as it was but for places that are out of date.
    fn unify(&mut self, alloc: Global, a: &Ty, b: &Ty) -> Result<(), UnifyFault>
        requires sound { IsSound self.old }
        requires within { HasBoth self.old (mean a.now) (mean b.now) }
        requires named { are_named a.now b.now ≡ true }
        ensures sound { IsSound self.new }
        ensures further { Begins self.old.bindings.items self.new.bindings.items }
        ensures unified { MatchResult result
            (λ _. IsSolved self.old self.new (mean a.now) (mean b.now))
            (λ e. (self.new.bindings.items ≡ self.old.bindings.items) × (self.new.issued ≡ self.old.issued)
            × IsRefused e self.old.issued (bound_in self.old) (mean a.now) (mean b.now)) }
        ensures clash { MatchResult result (λ _. Unit {0}) (λ e. fault_named e ≡ true) }
    {
        let mark = self.bindings.len();
        let count = self.issued;
        match self.solve_and_note(alloc, a, b) {
            Ok(()) => Ok(()),
            Err(e) => {
                self.bindings.truncate(mark);
                self.issued = count;
                Err(e)
            }
        }
    }
}

/// A substitution of types for type variables and of rows for row variables. The variables that it issues are numbered
/// from 0, types and rows together.
#[derive(Drop)]
pub struct Subst {
    alloc: Global,
    store: Store,
    pub ghost sound: { IsSound store } by { IsSound-prop store },
}

impl Subst {
    ghost use Rattle.snowcat_rows.specs.Roots.{IsRoot};
    ghost use Rattle.snowcat_rows.specs.Views.{IsIssued, issued_of, kept_by, settled_by, stands_for, type_bound_at};

    /// A substitution that has issued no variable. It takes its room from `alloc`.
    pub fn new(alloc: Global) -> Subst
        ensures none { issued_of result ≡ 0 }
        ensures empty { kept_by result ≡ [] }
    {
        let store = Store {
            issued: 0,
            bindings: Vec::new(alloc),
            places: Places::new(alloc),
        };
        Subst { alloc, store }
    }

    /// How many variables are issued; all that is bound is of these.
    pub fn issued(&self) -> u32
        ensures count { result ≡ issued_of self.now }
        ensures kept { IsIssued (issued_of self.now) (kept_by self.now) }
    {
        self.store.issued
    }

    /// How many variables are bound.
    pub fn bound(&self) -> usize
        ensures { result ≡ length (kept_by self.now) }
    {
        self.store.bindings.len()
    }

    /// The type variable that was bound as the i-th, from 0; none where that is a row variable.
    pub fn bound_type(&self, i: usize) -> Option<u32>
        requires { i < length (kept_by self.now) }
        ensures { result ≡ type_bound_at (kept_by self.now) i }
    {
        match &self.store.bindings[i] {
            Bound::Type(v, _) => Some(*v),
            Bound::Row(_, _, _) => None,
        }
    }

    /// A new variable; one is to be left.
    pub fn fresh(&mut self) -> Ty
        requires { issued_of self.old < 4294967295 }
        ensures var { mean result ≡ var (issued_of self.old) }
        ensures issued { issued_of self.new ≡ issued_of self.old + 1 }
        ensures same { kept_by self.new ≡ kept_by self.old }
    {
        let v = self.store.issued;
        self.store.issued = v + 1;
        Ty::Var(v)
    }

    /// The type under the substitution; in each record of it the field names differ where they do so in the given
    /// type. It can be handed on to [`unify`](Subst::unify) where the given type can. A type of more than 1,000 levels
    /// or 1,048,576 parts is want of memory.
    pub fn resolved(&self, alloc: Global, t: &Ty) -> Result<Ty, AllocError>
        ensures mean { IfOk result (λ r. mean r ≡ apply (stands_for self.now) (mean t.now)) }
        ensures named { names_differ t.now ≡ true → IfOk result (λ r. names_differ r ≡ true) }
        ensures within { (n : ℕ) → issued_of self.now ≤ n → Within n (mean t.now)
            → IfOk result (λ r. Within n (mean r)) }
    {
        let settled = settle(alloc, t, self.store.bindings.as_slice(), &self.store.places)?;
        Ok(settled)
    }

    /// What each variable stands for, once and for all, so that many types are resolved in the time of one walk each
    /// ([`Settled::resolved`](crate::Settled::resolved)). A type of more than 1,000 levels or 1,048,576 parts is want
    /// of memory.
    pub fn settled(&self, alloc: Global) -> Result<Settled, AllocError>
        ensures { IfOk result (λ s. settled_by s ≡ stands_for self.now) }
    {
        let settled = Settled::of(alloc, self.store.bindings.as_slice())?;
        Ok(settled)
    }

    /// What the type is at its root: itself, or what its variable stands for, as long as that is a bound variable
    /// again. Takes no memory.
    pub fn root<'a>(&'a self, t: &'a Ty) -> &'a Ty
        ensures { IsRoot (stands_for self.now) (mean t.now) (mean result.now) }
    {
        follow_root(t, self.store.bindings.as_slice(), &self.store.places)
    }

    /// Makes the types equal by the most general substitution that extends this one. Each variable of
    /// the types is one that this substitution issued ([`is_within`](crate::is_within) tells), in
    /// each record the field names differ ([`has_distinct_names`](crate::has_distinct_names) tells), and each
    /// row variable stands after the same field names wherever it stands.
    ///
    /// A field that one record lacks goes into the row of that record's variable; where both lack
    /// one, a new row variable follows in both, and no other variable is issued. The fault `Clash`
    /// comes exactly where no extension makes the types equal, `Memory` also where a new row variable
    /// is wanted and none is left, or where a type has more than 1,000 levels or 1,048,576 parts on the way.
    /// After a fault the substitution is as it was.
    pub fn unify(&mut self, a: &Ty, b: &Ty) -> Result<(), UnifyFault>
        requires left { Within (issued_of self.old) (mean a.now) }
        requires right { Within (issued_of self.old) (mean b.now) }
        requires names { (names_differ a.now ≡ true) × (names_differ b.now ≡ true) }
        ensures more { issued_of self.old ≤ issued_of self.new }
        ensures further { Begins (kept_by self.old) (kept_by self.new) }
        ensures ok { OnOk result (IsMade (issued_of self.old) (issued_of self.new)
            (kept_by self.old) (kept_by self.new) (mean a.now) (mean b.now)) }
        ensures err { MatchResult result (λ _. Unit {0})
            (λ e. (issued_of self.new ≡ issued_of self.old) × (kept_by self.new ≡ kept_by self.old)
            × IsRefused e (issued_of self.old) (kept_by self.old) (mean a.now) (mean b.now)) }
        ensures names { MatchResult result (λ _. Unit {0}) (λ e. HasNames e) }
    {
        self.store.unify(self.alloc, a, b)
    }
}
