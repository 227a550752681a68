// Where a form goes on behind one of its tokens, or in the place of an operand.
ghost use Rattle.std.specs.Prelude.{◌≡◌};
ghost use Rattle.tla_parser.specs.inner.Moves.{found, heads, insteads, listed_heads, local_heads, module_heads, name_heads, recursive_heads, subscript_heads, unit_heads, update_heads};

use crate::moves::{Construct, Mark, Next};
use crate::rules::{on, only, unit};
use crate::signs::Sign;

/// What a token of a form leads to, behind another.
#[tactic(auto, unfolding(crate::specs::inner::Moves::heads))]
pub(crate) fn heads(mark: Mark, sign: Sign) -> Next
    ensures { result ≡ found sign (heads mark) }
{
    match mark {
        Mark::QuantifiedName => only(sign, Sign::Word, Next::Reads(Mark::BehindQuantified)),
        Mark::BehindQuantified => on(
            sign,
            Sign::Comma,
            Next::Reads(Mark::QuantifiedName),
            on(
                sign,
                Sign::Element,
                Next::Wants(Mark::InBound),
                only(sign, Sign::Colon, Next::Last(Mark::QuantifierBody)),
            ),
        ),
        Mark::NextBoundName => only(sign, Sign::Word, Next::Reads(Mark::BehindBoundName)),
        Mark::BehindBoundName => on(
            sign,
            Sign::Comma,
            Next::Reads(Mark::NextBoundName),
            only(sign, Sign::Element, Next::Wants(Mark::InBound)),
        ),
        Mark::ChosenName => only(sign, Sign::Word, Next::Reads(Mark::BehindChosen)),
        Mark::BehindChosen => on(
            sign,
            Sign::Element,
            Next::Wants(Mark::InChoiceSet),
            only(sign, Sign::Colon, Next::Last(Mark::ChoiceBody)),
        ),
        _ => listed_heads(mark, sign),
    }
}

// Names in braces and brackets.
#[tactic(auto, unfolding(crate::specs::inner::Moves::listed_heads))]
fn listed_heads(mark: Mark, sign: Sign) -> Next
    ensures { result ≡ found sign (listed_heads mark) }
{
    match mark {
        Mark::MappedName => only(sign, Sign::Word, Next::Reads(Mark::BehindMapped)),
        Mark::BehindMapped => on(
            sign,
            Sign::Comma,
            Next::Reads(Mark::MappedName),
            only(sign, Sign::Element, Next::Wants(Mark::InMappedSet)),
        ),
        Mark::ArgumentName => only(sign, Sign::Word, Next::Reads(Mark::BehindArgument)),
        Mark::BehindArgument => on(
            sign,
            Sign::Comma,
            Next::Reads(Mark::ArgumentName),
            only(sign, Sign::Element, Next::Wants(Mark::InArgumentSet)),
        ),
        Mark::ValueName => only(sign, Sign::Word, Next::Reads(Mark::BehindValueName)),
        Mark::BehindValueName => only(sign, Sign::MapsTo, Next::Wants(Mark::InFieldValue)),
        Mark::SetName => only(sign, Sign::Word, Next::Reads(Mark::BehindSetName)),
        Mark::BehindSetName => only(sign, Sign::Colon, Next::Wants(Mark::InFieldSet)),
        _ => update_heads(mark, sign),
    }
}

// The path of an update, names behind an operand.
#[tactic(auto, unfolding(crate::specs::inner::Moves::update_heads))]
fn update_heads(mark: Mark, sign: Sign) -> Next
    ensures { result ≡ found sign (update_heads mark) }
{
    match mark {
        Mark::UpdateBang => only(sign, Sign::Bang, Next::Reads(Mark::UpdatePath)),
        Mark::UpdatePath => on(
            sign,
            Sign::LeftBracket,
            Next::Wants(Mark::InUpdateIndex),
            only(sign, Sign::Dot, Next::Reads(Mark::UpdateField)),
        ),
        Mark::UpdateField => only(sign, Sign::Word, Next::Reads(Mark::BehindStep)),
        Mark::BehindStep => on(
            sign,
            Sign::LeftBracket,
            Next::Wants(Mark::InUpdateIndex),
            on(
                sign,
                Sign::Dot,
                Next::Reads(Mark::UpdateField),
                only(sign, Sign::Equals, Next::Wants(Mark::InUpdateValue)),
            ),
        ),
        Mark::FieldName => only(sign, Sign::Word, Next::Shut(Construct::FieldAccess)),
        Mark::BangName => only(sign, Sign::Word, Next::Shut(Construct::Instanced)),
        Mark::BehindOther => only(sign, Sign::Arrow, Next::Last(Mark::InOther)),
        _ => subscript_heads(mark, sign),
    }
}

// Subscripts, the operator of a fold.
#[tactic(auto, unfolding(crate::specs::inner::Moves::subscript_heads))]
fn subscript_heads(mark: Mark, sign: Sign) -> Next
    ensures { result ≡ found sign (subscript_heads mark) }
{
    match mark {
        Mark::Subscript => on(
            sign,
            Sign::Word,
            Next::Shut(Construct::SquareAction),
            on(
                sign,
                Sign::LeftAngle,
                Next::Wants(Mark::InSubscriptTuple),
                only(sign, Sign::LeftParen, Next::Wants(Mark::InSubscriptParen)),
            ),
        ),
        Mark::FairSubscript => on(
            sign,
            Sign::Word,
            Next::Reads(Mark::FairOpens),
            on(
                sign,
                Sign::LeftAngle,
                Next::Wants(Mark::InFairTuple),
                only(sign, Sign::LeftParen, Next::Wants(Mark::InFairParen)),
            ),
        ),
        Mark::FairOpens => only(sign, Sign::LeftParen, Next::Wants(Mark::InFair)),
        Mark::FoldOperator => on(
            sign,
            Sign::Word,
            Next::Reads(Mark::BehindFoldOperator),
            only(sign, Sign::LambdaWord, Next::Reads(Mark::FoldFirst)),
        ),
        Mark::BehindFoldOperator => only(sign, Sign::Comma, Next::Wants(Mark::InFoldStart)),
        Mark::FoldFirst => only(sign, Sign::Word, Next::Reads(Mark::BehindFoldFirst)),
        Mark::BehindFoldFirst => only(sign, Sign::Comma, Next::Reads(Mark::FoldSecond)),
        Mark::FoldSecond => only(sign, Sign::Word, Next::Reads(Mark::BehindFoldSecond)),
        Mark::BehindFoldSecond => only(sign, Sign::Colon, Next::Wants(Mark::InFoldBody)),
        _ => local_heads(mark, sign),
    }
}

// Definitions of a LET.
#[tactic(auto, unfolding(crate::specs::inner::Moves::local_heads))]
fn local_heads(mark: Mark, sign: Sign) -> Next
    ensures { result ≡ found sign (local_heads mark) }
{
    match mark {
        Mark::LocalName => only(sign, Sign::Word, Next::Reads(Mark::LocalHead)),
        Mark::LocalHead => on(
            sign,
            Sign::Defines,
            Next::Wants(Mark::InDefinition),
            on(
                sign,
                Sign::LeftParen,
                Next::Reads(Mark::LocalParameter),
                only(sign, Sign::LeftBracket, Next::Reads(Mark::LocalArgument)),
            ),
        ),
        Mark::LocalParameter => only(sign, Sign::Word, Next::Reads(Mark::BehindParameter)),
        Mark::BehindParameter => on(
            sign,
            Sign::Comma,
            Next::Reads(Mark::LocalParameter),
            only(sign, Sign::RightParen, Next::Reads(Mark::LocalDefines)),
        ),
        Mark::LocalArgument => only(sign, Sign::Word, Next::Reads(Mark::BehindLocalArgument)),
        Mark::BehindLocalArgument => on(
            sign,
            Sign::Comma,
            Next::Reads(Mark::LocalArgument),
            only(sign, Sign::Element, Next::Wants(Mark::InLocalSet)),
        ),
        Mark::LocalDefines => only(sign, Sign::Defines, Next::Wants(Mark::InDefinition)),
        _ => module_heads(mark, sign),
    }
}

// The header of a module, and what stands before its units.
#[tactic(auto, unfolding(crate::specs::inner::Moves::module_heads))]
fn module_heads(mark: Mark, sign: Sign) -> Next
    ensures { result ≡ found sign (module_heads mark) }
{
    match mark {
        Mark::AtTop => only(sign, Sign::Dashes, Next::Reads(Mark::ModuleHead)),
        Mark::ModuleHead => only(sign, Sign::ModuleWord, Next::Reads(Mark::ModuleName)),
        Mark::ModuleName => only(sign, Sign::Word, Next::Reads(Mark::ModuleNamed)),
        Mark::ModuleNamed => only(sign, Sign::Dashes, Next::Reads(Mark::BehindHeader)),
        Mark::BehindHeader => on(
            sign,
            Sign::ExtendsWord,
            Next::Reads(Mark::ExtendedName),
            unit(sign),
        ),
        Mark::ExtendedName => only(sign, Sign::Word, Next::Reads(Mark::BehindExtended)),
        Mark::BehindExtended => on(
            sign,
            Sign::Comma,
            Next::Reads(Mark::ExtendedName),
            unit(sign),
        ),
        Mark::BetweenUnits => unit(sign),
        Mark::LocalUnit => on(
            sign,
            Sign::Word,
            Next::Reads(Mark::UnitHead),
            only(sign, Sign::InstanceWord, Next::Reads(Mark::InstanceName)),
        ),
        _ => unit_heads(mark, sign),
    }
}

// Definitions of a module.
#[tactic(auto, unfolding(crate::specs::inner::Moves::unit_heads))]
fn unit_heads(mark: Mark, sign: Sign) -> Next
    ensures { result ≡ found sign (unit_heads mark) }
{
    match mark {
        Mark::UnitHead => on(
            sign,
            Sign::Defines,
            Next::Wants(Mark::InBody),
            on(
                sign,
                Sign::LeftParen,
                Next::Reads(Mark::UnitParameter),
                only(sign, Sign::LeftBracket, Next::Reads(Mark::UnitArgument)),
            ),
        ),
        Mark::UnitParameter => only(sign, Sign::Word, Next::Reads(Mark::BehindUnitParameter)),
        Mark::BehindUnitParameter => on(
            sign,
            Sign::Comma,
            Next::Reads(Mark::UnitParameter),
            only(sign, Sign::RightParen, Next::Reads(Mark::UnitDefines)),
        ),
        Mark::UnitArgument => only(sign, Sign::Word, Next::Reads(Mark::BehindUnitArgument)),
        Mark::BehindUnitArgument => on(
            sign,
            Sign::Comma,
            Next::Reads(Mark::UnitArgument),
            only(sign, Sign::Element, Next::Wants(Mark::InUnitSet)),
        ),
        Mark::UnitDefines => only(sign, Sign::Defines, Next::Wants(Mark::InPlainBody)),
        _ => name_heads(mark, sign),
    }
}

// Declared names, instances.
#[tactic(auto, unfolding(crate::specs::inner::Moves::name_heads))]
fn name_heads(mark: Mark, sign: Sign) -> Next
    ensures { result ≡ found sign (name_heads mark) }
{
    match mark {
        Mark::DeclaredName => only(sign, Sign::Word, Next::Reads(Mark::BehindDeclared)),
        Mark::BehindDeclared => on(
            sign,
            Sign::Comma,
            Next::Reads(Mark::DeclaredName),
            unit(sign),
        ),
        Mark::InstanceName => only(sign, Sign::Word, Next::Reads(Mark::BehindInstance)),
        Mark::BehindInstance => on(
            sign,
            Sign::WithWord,
            Next::Reads(Mark::Substituted),
            unit(sign),
        ),
        Mark::Substituted => only(sign, Sign::Word, Next::Reads(Mark::BehindSubstituted)),
        Mark::BehindSubstituted => only(sign, Sign::Replaces, Next::Wants(Mark::InReplacement)),
        _ => recursive_heads(mark, sign),
    }
}

// Recursive names.
#[tactic(auto, unfolding(crate::specs::inner::Moves::recursive_heads))]
fn recursive_heads(mark: Mark, sign: Sign) -> Next
    ensures { result ≡ found sign (recursive_heads mark) }
{
    match mark {
        Mark::RecursiveName => only(sign, Sign::Word, Next::Reads(Mark::BehindRecursive)),
        Mark::BehindRecursive => on(
            sign,
            Sign::Comma,
            Next::Reads(Mark::RecursiveName),
            on(
                sign,
                Sign::LeftParen,
                Next::Reads(Mark::RecursiveBlank),
                unit(sign),
            ),
        ),
        Mark::RecursiveBlank => only(sign, Sign::Underscore, Next::Reads(Mark::BehindBlank)),
        Mark::BehindBlank => on(
            sign,
            Sign::Comma,
            Next::Reads(Mark::RecursiveBlank),
            only(sign, Sign::RightParen, Next::Reads(Mark::BehindArity)),
        ),
        Mark::BehindArity => on(
            sign,
            Sign::Comma,
            Next::Reads(Mark::RecursiveName),
            unit(sign),
        ),
        _ => Next::Fail,
    }
}

/// What a token of a form leads to in the place of an operand.
#[tactic(auto, unfolding(crate::specs::inner::Moves::insteads))]
pub(crate) fn insteads(mark: Mark, sign: Sign) -> Next
    ensures { result ≡ found sign (insteads mark) }
{
    match mark {
        Mark::InItems => only(sign, Sign::RightBrace, Next::Shut(Construct::Enumeration)),
        Mark::InTuple => only(sign, Sign::RightAngle, Next::Shut(Construct::TupleValue)),
        Mark::InSubscriptTuple => only(sign, Sign::RightAngle, Next::Shut(Construct::SquareAction)),
        Mark::InFairTuple => only(sign, Sign::RightAngle, Next::Reads(Mark::FairOpens)),
        Mark::InNextGuard => only(sign, Sign::OtherWord, Next::Reads(Mark::BehindOther)),
        Mark::InBody => only(sign, Sign::InstanceWord, Next::Reads(Mark::InstanceName)),
        _ => Next::Fail,
    }
}
