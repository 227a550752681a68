// The operators and their ranges.
ghost use Rattle.std.specs.Prelude.{◌≡◌};
ghost use Rattle.tla_parser.specs.Operators.{after, hi, is_associative, is_bullet, is_prefix, lo, prefix_hi, prefix_lo, same};

use crate::signs::{Role, Sign};

/// What the token is behind an operand.
#[tactic(auto, unfolding(crate::specs::Operators::after))]
pub(crate) fn after(sign: Sign) -> Role
    ensures { result ≡ after sign }
{
    match sign {
        Sign::DoubleArrow
        | Sign::Equivalence
        | Sign::LeadsTo
        | Sign::Wedge
        | Sign::Vee
        | Sign::Equals
        | Sign::Differs
        | Sign::Less
        | Sign::Greater
        | Sign::AtMost => Role::InfixRole,
        Sign::AtLeast
        | Sign::Element
        | Sign::NotElement
        | Sign::Included
        | Sign::Assigns
        | Sign::Overrides
        | Sign::Pairs
        | Sign::UnionSign
        | Sign::Intersection
        | Sign::Difference => Role::InfixRole,
        Sign::Dots
        | Sign::Plus
        | Sign::Percent
        | Sign::Times
        | Sign::Dash
        | Sign::Star
        | Sign::Quotient
        | Sign::Circle
        | Sign::Caret => Role::InfixRole,
        Sign::Tick | Sign::Dot | Sign::Bang | Sign::LeftBracket | Sign::LeftParen =>
            Role::PostfixRole,
        _ => Role::NoRole,
    }
}

/// Whether the token is a prefix operator.
#[tactic(auto, unfolding(crate::specs::Operators::is_prefix))]
pub(crate) fn is_prefix(sign: Sign) -> bool
    ensures { result ≡ is_prefix sign }
{
    match sign {
        Sign::Tilde
        | Sign::UnchangedWord
        | Sign::EnabledWord
        | Sign::Square
        | Sign::Diamond
        | Sign::SubsetWord
        | Sign::UnionWord
        | Sign::DomainWord
        | Sign::Dash => true,
        _ => false,
    }
}

/// The least precedence of an infix or postfix operator.
#[tactic(auto, unfolding(crate::specs::Operators::lo))]
pub(crate) fn lo(sign: Sign) -> u8
    ensures { result ≡ lo sign }
{
    match sign {
        Sign::DoubleArrow => 1,
        Sign::Equivalence | Sign::LeadsTo => 2,
        Sign::Wedge | Sign::Vee => 3,
        Sign::Equals
        | Sign::Differs
        | Sign::Less
        | Sign::Greater
        | Sign::AtMost
        | Sign::AtLeast
        | Sign::Element
        | Sign::NotElement
        | Sign::Included
        | Sign::Assigns => 5,
        Sign::Overrides => 6,
        Sign::Pairs => 7,
        Sign::UnionSign | Sign::Intersection | Sign::Difference => 8,
        Sign::Dots => 9,
        Sign::Plus | Sign::Percent | Sign::Times => 10,
        Sign::Dash => 11,
        Sign::Star | Sign::Quotient | Sign::Circle => 13,
        Sign::Caret => 14,
        Sign::Tick | Sign::Dot | Sign::Bang | Sign::LeftBracket | Sign::LeftParen => 16,
        _ => 0,
    }
}

/// The greatest precedence of an infix or postfix operator.
#[tactic(auto, unfolding(crate::specs::Operators::hi))]
pub(crate) fn hi(sign: Sign) -> u8
    ensures { result ≡ hi sign }
{
    match sign {
        Sign::DoubleArrow => 1,
        Sign::Equivalence | Sign::LeadsTo => 2,
        Sign::Wedge | Sign::Vee => 3,
        Sign::Equals
        | Sign::Differs
        | Sign::Less
        | Sign::Greater
        | Sign::AtMost
        | Sign::AtLeast
        | Sign::Element
        | Sign::NotElement
        | Sign::Included
        | Sign::Assigns => 5,
        Sign::Overrides => 6,
        Sign::Pairs => 7,
        Sign::UnionSign | Sign::Intersection | Sign::Difference => 8,
        Sign::Dots => 9,
        Sign::Plus => 10,
        Sign::Percent => 11,
        Sign::Times => 13,
        Sign::Dash => 11,
        Sign::Star | Sign::Quotient | Sign::Circle => 13,
        Sign::Caret => 14,
        Sign::Tick | Sign::Dot | Sign::Bang | Sign::LeftBracket | Sign::LeftParen => 16,
        _ => 0,
    }
}

/// The least precedence of a prefix operator.
#[tactic(auto, unfolding(crate::specs::Operators::prefix_lo))]
pub(crate) fn prefix_lo(sign: Sign) -> u8
    ensures { result ≡ prefix_lo sign }
{
    match sign {
        Sign::Tilde | Sign::UnchangedWord | Sign::EnabledWord | Sign::Square | Sign::Diamond => 4,
        Sign::SubsetWord | Sign::UnionWord => 8,
        Sign::DomainWord => 9,
        Sign::Dash => 12,
        _ => 0,
    }
}

/// The greatest precedence of a prefix operator.
#[tactic(auto, unfolding(crate::specs::Operators::prefix_hi))]
pub(crate) fn prefix_hi(sign: Sign) -> u8
    ensures { result ≡ prefix_hi sign }
{
    match sign {
        Sign::Tilde => 4,
        Sign::UnchangedWord | Sign::EnabledWord | Sign::Square | Sign::Diamond => 15,
        Sign::SubsetWord | Sign::UnionWord => 8,
        Sign::DomainWord => 9,
        Sign::Dash => 12,
        _ => 0,
    }
}

/// Whether a chain of the operator needs no parentheses.
#[tactic(auto, unfolding(crate::specs::Operators::is_associative))]
pub(crate) fn is_associative(sign: Sign) -> bool
    ensures { result ≡ is_associative sign }
{
    match sign {
        Sign::Wedge
        | Sign::Vee
        | Sign::Overrides
        | Sign::UnionSign
        | Sign::Intersection
        | Sign::Plus
        | Sign::Times
        | Sign::Dash
        | Sign::Star
        | Sign::Circle => true,
        _ => false,
    }
}

/// Whether a list of items may have this bullet.
#[tactic(auto, unfolding(crate::specs::Operators::is_bullet))]
pub(crate) fn is_bullet(sign: Sign) -> bool
    ensures { result ≡ is_bullet sign }
{
    match sign {
        Sign::Wedge | Sign::Vee => true,
        _ => false,
    }
}

/// Whether the two are one operator whose chains need no parentheses.
#[tactic(auto, unfolding(crate::specs::Operators::same))]
pub(crate) fn same(a: Sign, b: Sign) -> bool
    ensures { result ≡ same a b }
{
    is_associative(a) && a.is(b)
}
