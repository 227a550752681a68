// Where units begin.
ghost use Rattle.std.specs.Prelude.{◌≡◌, ◌<◌, ◌⊎◌, ◌++◌, ◌∷◌, ◌&&◌, ◌||◌, [], true, cond, not, nat_le, length, List, None, Option, reverse, option_copied, IfOk, IfSome};
ghost use Rattle.tla_lexer.specs.declared.token.Token.{Token as Tok};
ghost use Rattle.tla_parser.specs.Beginnings.{FaultAt, begins_unit};
ghost use Rattle.tla_parser.specs.Grammar.{AreSpelled, SpelledWithin};
ghost use Rattle.tla_parser.specs.inner.Derivations.{look as seen_of};
ghost use Rattle.tla_parser.specs.inner.Recognition.{advances, module_start};
ghost use Rattle.tla_parser.specs.inner.Refusals.{HasRead, IsEnd, IsOnce, IsStep, faulty, renewed};
ghost use Rattle.tla_parser.specs.inner.Standings.{behind_header, declaring, ends_header, in_unit, leads, led_by, next_ends_header, nowhere_stood, standing, standing_of, starts, top_standing, unit_goes_on, wanted_by};

use crate::looks::look;
use crate::moves::{Mark, Next, Seen};
use crate::open::{Mode, Open};
use crate::signs::Sign;
use tla_lexer::Token;
use tla_meaning::Place;

/// The most levels of an expression.
pub(crate) const LEVELS: u16 = 400;

/// What stands before or behind a token: what comes in the innermost form, where no operand of it was just read.
#[derive(Clone, Copy)]
pub(crate) struct Standing {
    pub(crate) next: Next,
    /// Whether nothing else is open.
    pub(crate) alone: bool,
    pub(crate) levels: u16,
    /// Whether nothing goes on with the tokens.
    pub(crate) stuck: bool,
}

/// Where the units of a module begin.
#[derive(Drop)]
pub(crate) struct Places {
    // Where the last unit begins; before any, the last place where the first may, or the first token.
    start: Option<Place>,
    // The same of the units before which no expression has too many levels.
    within: Option<Place>,
    // Whether a unit began.
    begun: bool,
    // Whether the units before the one that is read are whole, the names of fields too.
    whole: bool,
    // The last token.
    last: Place,
}

fn nowhere(stuck: bool) -> Standing
    ensures { result ≡ nowhere_stood stuck }
{
    Standing {
        next: Next::Fail,
        alone: false,
        levels: 0,
        stuck,
    }
}

fn innermost(top: Option<&Open>, alone: bool) -> Standing
    ensures { result ≡ top_standing (option_copied top.entry) alone }
{
    match top {
        Some(Open::Within(form)) => Standing {
            next: form.next,
            alone,
            levels: form.levels,
            stuck: false,
        },
        _ => nowhere(false),
    }
}

/// What stands there with this open.
pub(crate) fn what_stands(stack: &[Open], mode: Mode) -> Standing
    ensures { result ≡ standing mode (reverse stack.now) }
{
    match mode {
        Mode::Stuck => nowhere(true),
        Mode::Have(_) => nowhere(false),
        Mode::Want => innermost(stack.last(), stack.len() == 1),
        Mode::Read => innermost(stack.last(), stack.len() == 1),
    }
}

// ---- where a unit begins

#[tactic(auto, unfolding(crate::specs::Beginnings::begins_unit))]
fn begins_unit(sign: Sign) -> bool
    ensures { result ≡ begins_unit sign }
{
    match sign {
        Sign::Word | Sign::VariableWord | Sign::ConstantWord | Sign::AssumeWord => true,
        Sign::TheoremWord | Sign::InstanceWord | Sign::RecursiveWord => true,
        Sign::LocalWord | Sign::Dashes => true,
        _ => false,
    }
}

// The sign that a unit begins with where it leads to the mark; CONSTANT leads where VARIABLE does.
#[tactic(auto, unfolding(crate::specs::inner::Standings::led_by))]
fn led_by(mark: Mark) -> Sign
    ensures { result ≡ led_by mark }
{
    match mark {
        Mark::UnitHead => Sign::Word,
        Mark::DeclaredName => Sign::VariableWord,
        Mark::InstanceName => Sign::InstanceWord,
        Mark::RecursiveName => Sign::RecursiveWord,
        Mark::LocalUnit => Sign::LocalWord,
        Mark::BetweenUnits => Sign::Dashes,
        _ => Sign::Stray,
    }
}

// The same where an operand is to come.
#[tactic(auto, unfolding(crate::specs::inner::Standings::wanted_by))]
fn wanted_by(mark: Mark) -> Sign
    ensures { result ≡ wanted_by mark }
{
    match mark {
        Mark::InAssumption => Sign::AssumeWord,
        Mark::InStatement => Sign::TheoremWord,
        _ => Sign::Stray,
    }
}

#[tactic(auto, unfolding(crate::specs::inner::Standings::declaring))]
fn declaring(sign: Sign) -> Sign
    ensures { result ≡ declaring sign }
{
    match sign {
        Sign::ConstantWord => Sign::VariableWord,
        _ => sign,
    }
}

fn leads(sign: Sign, next: Next) -> bool
    ensures { result ≡ leads sign next }
{
    match next {
        Next::Reads(mark) => declaring(sign).is(led_by(mark)),
        Next::Wants(mark) => sign.is(wanted_by(mark)),
        _ => false,
    }
}

// Whether a unit that began goes on there with a sign that could begin one.
#[tactic(auto, unfolding(crate::specs::inner::Standings::in_unit))]
fn in_unit(mark: Mark) -> bool
    ensures { result ≡ in_unit mark }
{
    match mark {
        Mark::LocalUnit | Mark::InBody => true,
        _ => false,
    }
}

fn unit_goes_on(next: Next) -> bool
    ensures { result ≡ unit_goes_on next }
{
    match next {
        Next::Reads(mark) | Next::Wants(mark) => in_unit(mark),
        _ => false,
    }
}

// Whether a unit begins with the sign between the two.
fn starts(sign: Sign, before: Standing, behind: Standing) -> bool
    ensures { result ≡ starts sign before behind }
{
    let goes_on = before.alone && unit_goes_on(before.next);
    begins_unit(sign) && (leads(sign, behind.next) && (behind.alone && !goes_on))
}

#[tactic(auto, unfolding(crate::specs::inner::Standings::ends_header))]
fn ends_header(mark: Mark) -> bool
    ensures { result ≡ ends_header mark }
{
    match mark {
        Mark::BehindHeader | Mark::BehindExtended => true,
        _ => false,
    }
}

fn next_ends_header(next: Next) -> bool
    ensures { result ≡ next_ends_header next }
{
    match next {
        Next::Reads(mark) => ends_header(mark),
        _ => false,
    }
}

fn behind_header(place: Standing) -> bool
    ensures { result ≡ behind_header place }
{
    place.alone && next_ends_header(place.next)
}

// Whether the header ends there and no unit began.
fn is_header(begun: bool, before: Standing) -> bool
    ensures { result ≡ (not begun && behind_header before) }
{
    !begun && behind_header(before)
}

fn begins_whole(starts: bool, once: bool) -> bool
    ensures { result ≡ (starts && once) }
{
    starts && once
}

// Whether the units before the one that is read are whole.
fn is_whole(starts: bool, once: bool, old: bool) -> bool
    ensures { result ≡ cond starts once old }
{
    if starts { once } else { old }
}

fn is_within(begins: bool, behind: Standing) -> bool
    ensures { result ≡ (begins && nat_le behind.levels 400) }
{
    begins && behind.levels <= LEVELS
}

fn has_begun(begun: bool, begins: bool) -> bool
    ensures { result ≡ (begun || begins) }
{
    begun || begins
}

// The place where a unit begins or the header ends, or where there was none.
fn renewed(begins: bool, header: bool, place: Place, old: Option<Place>) -> Option<Place>
    ensures { result ≡ renewed (begins || header) place old }
{
    match old {
        Some(_) if !begins && !header => old,
        _ => Some(place),
    }
}

impl Places {
    pub(crate) fn new(first: Place) -> Places
        ensures { HasRead [] result }
    {
        Places {
            start: None,
            within: None,
            begun: false,
            whole: true,
            last: first,
        }
    }

    /// One more token, with what stands before and behind it, and whether no field is named twice behind it.
    pub(crate) fn read(&mut self, before: Standing, behind: Standing, token: &Token, once: bool)
        ensures { (ts : List Tok) → IsStep ts token.now before behind (seen_of token.now) token.now.place
            → IsOnce ts token.now behind once → HasRead ts self.old → HasRead (ts ++ (token.now ∷ [])) self.new }
    {
        let seen = look(token);
        let place = token.place;
        let starts = starts(seen.sign, before, behind);
        let begins = begins_whole(starts, once);
        let header = is_header(self.begun, before);
        self.start = renewed(begins, header, place, self.start);
        self.within = renewed(is_within(begins, behind), header, place, self.within);
        self.begun = has_begun(self.begun, begins);
        self.whole = is_whole(starts, once, self.whole);
        self.last = place;
    }

    /// Whether the units before the one that is read are whole.
    pub(crate) fn are_whole(&self) -> bool
        ensures { result ≡ self.now.whole }
    {
        self.whole
    }

    // The place of the last unit that began; behind the header the last token where none is left.
    fn fault(&self, start: Option<Place>, end: Standing) -> Place
        ensures { result ≡ faulty (not self.now.begun && behind_header end) self.now.last start }
    {
        if !self.begun && behind_header(end) {
            return self.last;
        }
        match start {
            Some(place) => place,
            None => self.last,
        }
    }

    /// The first unit that is not whole, or else what stands where one is to begin.
    pub(crate) fn bad(&self, end: Standing) -> Place
        ensures { (ts : List Tok) → 0 < length ts → IsEnd ts end → HasRead ts self.now → FaultAt AreSpelled result ts }
    {
        self.fault(self.start, end)
    }

    /// The first unit with too many levels.
    pub(crate) fn deep(&self, end: Standing) -> Place
        ensures { (ts : List Tok) → 0 < length ts → IsEnd ts end → HasRead ts self.now → FaultAt (SpelledWithin 400) result ts }
    {
        self.fault(self.within, end)
    }
}
