// Where a form goes on behind an operand.
ghost use Rattle.std.specs.Prelude.{◌≡◌};
ghost use Rattle.tla_parser.specs.inner.Moves.{found, goes_on, in_braces, in_brackets, next_bullet, body_rows, bracket_rows, fair_rows, fold_rows, local_rows, rows, tuple_rows, update_rows};

use crate::moves::{Class, Construct, Mark, Next, Seen};
use crate::ranges::is_bullet;
use crate::rules::{braced, bracketed, mapped, of_name, on, only, unit};
use crate::signs::Sign;

/// What a token of a form leads to, behind an operand.
#[tactic(auto, unfolding(crate::specs::inner::Moves::goes_on))]
pub(crate) fn goes_on(mark: Mark, class: Class, seen: Seen) -> Next
    ensures { result ≡ goes_on mark class seen }
{
    match mark {
        Mark::Bullets(sign, column) => next_bullet(sign, column, seen),
        _ => rows(mark, class, seen.sign),
    }
}

fn next_bullet(bullet: Sign, column: u32, seen: Seen) -> Next
    ensures { result ≡ next_bullet bullet column seen }
{
    if is_bullet(bullet) && bullet.is(seen.sign) && column == seen.column {
        Next::Last(Mark::Bullets(seen.sign, seen.column))
    } else {
        Next::Fail
    }
}

// What a token of a form leads to, behind an operand.
#[tactic(auto, unfolding(crate::specs::inner::Moves::rows))]
fn rows(mark: Mark, class: Class, sign: Sign) -> Next
    ensures { result ≡ found sign (rows mark class) }
{
    match mark {
        Mark::InParen => only(sign, Sign::RightParen, Next::Shut(Construct::Parenthesis)),
        Mark::InIf => only(sign, Sign::ThenWord, Next::Wants(Mark::InThen)),
        Mark::InThen => only(sign, Sign::ElseWord, Next::Last(Mark::InElse)),
        Mark::InBound => on(
            sign,
            Sign::Comma,
            Next::Reads(Mark::NextBoundName),
            only(sign, Sign::Colon, Next::Last(Mark::QuantifierBody)),
        ),
        Mark::InChoiceSet => only(sign, Sign::Colon, Next::Last(Mark::ChoiceBody)),
        Mark::InGuard => only(sign, Sign::Arrow, Next::Last(Mark::InArm)),
        Mark::InArm => only(sign, Sign::Square, Next::Wants(Mark::InNextGuard)),
        Mark::InNextGuard => only(sign, Sign::Arrow, Next::Last(Mark::InArm)),
        _ => local_rows(mark, class, sign),
    }
}

// Of a LET, in braces.
#[tactic(auto, unfolding(crate::specs::inner::Moves::local_rows))]
fn local_rows(mark: Mark, class: Class, sign: Sign) -> Next
    ensures { result ≡ found sign (local_rows mark class) }
{
    match mark {
        Mark::InDefinition => on(
            sign,
            Sign::Word,
            Next::Reads(Mark::LocalHead),
            only(sign, Sign::InWord, Next::Last(Mark::LocalBody)),
        ),
        Mark::InLocalSet => on(
            sign,
            Sign::Comma,
            Next::Reads(Mark::LocalArgument),
            only(sign, Sign::RightBracket, Next::Reads(Mark::LocalDefines)),
        ),
        Mark::InItems => in_braces(class, sign),
        Mark::InMoreItems => on(
            sign,
            Sign::Comma,
            Next::Wants(Mark::InMoreItems),
            only(sign, Sign::RightBrace, Next::Shut(Construct::Enumeration)),
        ),
        Mark::InFilter => only(sign, Sign::RightBrace, Next::Shut(Construct::Filter)),
        Mark::InMappedSet => on(
            sign,
            Sign::Comma,
            Next::Reads(Mark::MappedName),
            only(sign, Sign::RightBrace, Next::Shut(Construct::Mapping)),
        ),
        _ => bracket_rows(mark, class, sign),
    }
}

// In brackets.
#[tactic(auto, unfolding(crate::specs::inner::Moves::bracket_rows))]
fn bracket_rows(mark: Mark, class: Class, sign: Sign) -> Next
    ensures { result ≡ found sign (bracket_rows mark class) }
{
    match mark {
        Mark::InBracket => in_brackets(class, sign),
        Mark::InResultSet => only(sign, Sign::RightBracket, Next::Shut(Construct::FunctionSet)),
        Mark::InFunctionBody => only(sign, Sign::RightBracket, Next::Shut(Construct::Function)),
        Mark::InArgumentSet => on(
            sign,
            Sign::Comma,
            Next::Reads(Mark::ArgumentName),
            only(sign, Sign::MapsTo, Next::Wants(Mark::InFunctionBody)),
        ),
        Mark::InFieldValue => on(
            sign,
            Sign::Comma,
            Next::Reads(Mark::ValueName),
            only(sign, Sign::RightBracket, Next::Shut(Construct::RecordValue)),
        ),
        Mark::InFieldSet => on(
            sign,
            Sign::Comma,
            Next::Reads(Mark::SetName),
            only(sign, Sign::RightBracket, Next::Shut(Construct::RecordSet)),
        ),
        _ => update_rows(mark, class, sign),
    }
}

// Of an update, in an application.
#[tactic(auto, unfolding(crate::specs::inner::Moves::update_rows))]
fn update_rows(mark: Mark, class: Class, sign: Sign) -> Next
    ensures { result ≡ found sign (update_rows mark class) }
{
    match mark {
        Mark::InUpdateIndex => on(
            sign,
            Sign::Comma,
            Next::Wants(Mark::InUpdateIndex),
            only(sign, Sign::RightBracket, Next::Reads(Mark::BehindStep)),
        ),
        Mark::InUpdateValue => on(
            sign,
            Sign::Comma,
            Next::Reads(Mark::UpdateBang),
            only(sign, Sign::RightBracket, Next::Shut(Construct::Exception)),
        ),
        Mark::InIndex => on(
            sign,
            Sign::Comma,
            Next::Wants(Mark::InIndex),
            only(sign, Sign::RightBracket, Next::Shut(Construct::Application)),
        ),
        Mark::InCall => on(
            sign,
            Sign::Comma,
            Next::Wants(Mark::InCall),
            only(sign, Sign::RightParen, Next::Shut(Construct::Call)),
        ),
        _ => tuple_rows(mark, class, sign),
    }
}

// In a tuple.
#[tactic(auto, unfolding(crate::specs::inner::Moves::tuple_rows))]
fn tuple_rows(mark: Mark, class: Class, sign: Sign) -> Next
    ensures { result ≡ found sign (tuple_rows mark class) }
{
    match mark {
        Mark::InTuple => on(
            sign,
            Sign::Comma,
            Next::Wants(Mark::InMoreTuple),
            on(
                sign,
                Sign::RightAngle,
                Next::Shut(Construct::TupleValue),
                only(sign, Sign::AngleSub, Next::Reads(Mark::Subscript)),
            ),
        ),
        Mark::InMoreTuple => on(
            sign,
            Sign::Comma,
            Next::Wants(Mark::InMoreTuple),
            only(sign, Sign::RightAngle, Next::Shut(Construct::TupleValue)),
        ),
        Mark::InSubscriptTuple => on(
            sign,
            Sign::Comma,
            Next::Wants(Mark::InMoreSubscript),
            only(sign, Sign::RightAngle, Next::Shut(Construct::SquareAction)),
        ),
        Mark::InMoreSubscript => on(
            sign,
            Sign::Comma,
            Next::Wants(Mark::InMoreSubscript),
            only(sign, Sign::RightAngle, Next::Shut(Construct::SquareAction)),
        ),
        _ => fair_rows(mark, class, sign),
    }
}

// In a subscript.
#[tactic(auto, unfolding(crate::specs::inner::Moves::fair_rows))]
fn fair_rows(mark: Mark, class: Class, sign: Sign) -> Next
    ensures { result ≡ found sign (fair_rows mark class) }
{
    match mark {
        Mark::InSubscriptParen => only(sign, Sign::RightParen, Next::Shut(Construct::SquareAction)),
        Mark::InFairTuple => on(
            sign,
            Sign::Comma,
            Next::Wants(Mark::InMoreFair),
            only(sign, Sign::RightAngle, Next::Reads(Mark::FairOpens)),
        ),
        Mark::InMoreFair => on(
            sign,
            Sign::Comma,
            Next::Wants(Mark::InMoreFair),
            only(sign, Sign::RightAngle, Next::Reads(Mark::FairOpens)),
        ),
        Mark::InFairParen => only(sign, Sign::RightParen, Next::Reads(Mark::FairOpens)),
        Mark::InFair => only(sign, Sign::RightParen, Next::Shut(Construct::Fairness)),
        _ => fold_rows(mark, class, sign),
    }
}

// In a fold, of an assumption or a theorem.
#[tactic(auto, unfolding(crate::specs::inner::Moves::fold_rows))]
fn fold_rows(mark: Mark, class: Class, sign: Sign) -> Next
    ensures { result ≡ found sign (fold_rows mark class) }
{
    match mark {
        Mark::InFoldBody => only(sign, Sign::Comma, Next::Wants(Mark::InFoldStart)),
        Mark::InFoldStart => only(sign, Sign::Comma, Next::Wants(Mark::InFoldSequence)),
        Mark::InFoldSequence => only(sign, Sign::RightParen, Next::Shut(Construct::FoldCall)),
        Mark::InAssumption => on(
            sign,
            Sign::Defines,
            of_name(class, Next::Wants(Mark::InNamedAssumption)),
            unit(sign),
        ),
        Mark::InNamedAssumption => unit(sign),
        Mark::InStatement => on(
            sign,
            Sign::Defines,
            of_name(class, Next::Wants(Mark::InNamedStatement)),
            unit(sign),
        ),
        Mark::InNamedStatement => unit(sign),
        _ => body_rows(mark, class, sign),
    }
}

// Of a definition or an instance.
#[tactic(auto, unfolding(crate::specs::inner::Moves::body_rows))]
fn body_rows(mark: Mark, class: Class, sign: Sign) -> Next
    ensures { result ≡ found sign (body_rows mark class) }
{
    match mark {
        Mark::InUnitSet => on(
            sign,
            Sign::Comma,
            Next::Reads(Mark::UnitArgument),
            only(sign, Sign::RightBracket, Next::Reads(Mark::UnitDefines)),
        ),
        Mark::InBody => unit(sign),
        Mark::InPlainBody => unit(sign),
        Mark::InReplacement => on(
            sign,
            Sign::Comma,
            Next::Reads(Mark::Substituted),
            unit(sign),
        ),
        _ => Next::Fail,
    }
}

// Behind the first operand in braces.
#[tactic(auto, unfolding(crate::specs::inner::Moves::in_braces))]
fn in_braces(class: Class, sign: Sign) -> Next
    ensures { result ≡ found sign (in_braces class) }
{
    on(
        sign,
        Sign::Comma,
        Next::Wants(Mark::InMoreItems),
        on(
            sign,
            Sign::RightBrace,
            Next::Shut(Construct::Enumeration),
            only(sign, Sign::Colon, braced(class)),
        ),
    )
}

// Behind the first operand in brackets.
#[tactic(auto, unfolding(crate::specs::inner::Moves::in_brackets))]
fn in_brackets(class: Class, sign: Sign) -> Next
    ensures { result ≡ found sign (in_brackets class) }
{
    on(
        sign,
        Sign::Arrow,
        Next::Wants(Mark::InResultSet),
        on(
            sign,
            Sign::MapsTo,
            mapped(class),
            on(
                sign,
                Sign::Comma,
                bracketed(class),
                on(
                    sign,
                    Sign::Colon,
                    of_name(class, Next::Wants(Mark::InFieldSet)),
                    on(
                        sign,
                        Sign::ExceptWord,
                        Next::Reads(Mark::UpdateBang),
                        only(sign, Sign::BracketSub, Next::Reads(Mark::Subscript)),
                    ),
                ),
            ),
        ),
    )
}
