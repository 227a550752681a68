// Where a form goes on: behind a token, behind an operand, in the place of an operand.
ghost use Rattle.std.specs.Prelude.{◌≡◌, cond, true, false};
ghost use Rattle.tla_parser.specs.Operators.{same_sign};
ghost use Rattle.tla_parser.specs.declared.moves.Next.TheVariants.{Fail};
ghost use Rattle.tla_parser.specs.Written.{class_infix, class_of, continues, member};
ghost use Rattle.tla_parser.specs.inner.Moves.{braced, bracketed, calls, ends_as, found, goes_on, heads, in_units, insteads, mapped, next_bullet, of_name, opens, postfixes, rows, unit_rows};

use crate::moves::{Class, Construct, Mark, Next, Seen};
use crate::signs::Sign;

/// What begins with the token where an operand is to come.
#[tactic(auto, unfolding(crate::specs::inner::Moves::opens))]
pub(crate) fn opens(seen: Seen) -> Next
    ensures { result ≡ opens seen seen.sign }
{
    match seen.sign {
        Sign::Number => Next::Shut(Construct::NumberLiteral),
        Sign::Quotation => Next::Shut(Construct::TextLiteral),
        Sign::Word => Next::Shut(Construct::NameUse),
        Sign::FoldWord => Next::Shut(Construct::FoldUse),
        Sign::TrueWord => Next::Shut(Construct::TrueLiteral),
        Sign::FalseWord => Next::Shut(Construct::FalseLiteral),
        Sign::BooleanWord => Next::Shut(Construct::Booleans),
        Sign::StringWord => Next::Shut(Construct::Strings),
        Sign::At => Next::Shut(Construct::OldValue),
        Sign::LeftParen => Next::Wants(Mark::InParen),
        Sign::LeftBrace => Next::Wants(Mark::InItems),
        Sign::LeftBracket => Next::Wants(Mark::InBracket),
        Sign::LeftAngle => Next::Wants(Mark::InTuple),
        Sign::FairWord => Next::Reads(Mark::FairSubscript),
        Sign::ExistsSign => Next::Reads(Mark::QuantifiedName),
        Sign::ForallSign => Next::Reads(Mark::QuantifiedName),
        Sign::ChooseWord => Next::Reads(Mark::ChosenName),
        Sign::IfWord => Next::Wants(Mark::InIf),
        Sign::CaseWord => Next::Wants(Mark::InGuard),
        Sign::LetWord => Next::Reads(Mark::LocalName),
        Sign::Wedge => Next::Last(Mark::Bullets(Sign::Wedge, seen.column)),
        Sign::Vee => Next::Last(Mark::Bullets(Sign::Vee, seen.column)),
        _ => Next::Fail,
    }
}

/// The next for the expected sign, else the other.
pub(crate) fn on(sign: Sign, expected: Sign, next: Next, otherwise: Next) -> Next
    ensures { result ≡ cond (same_sign sign expected) next otherwise }
{
    if sign.is(expected) { next } else { otherwise }
}

/// The next for the expected sign alone.
pub(crate) fn only(sign: Sign, expected: Sign, next: Next) -> Next
    ensures { result ≡ cond (same_sign sign expected) next Fail }
{
    on(sign, expected, next, Next::Fail)
}

fn calls(class: Class) -> Next
    ensures { result ≡ calls class }
{
    match class {
        Class::BareName | Class::PathName => Next::Wants(Mark::InCall),
        Class::FoldName => Next::Reads(Mark::FoldOperator),
        _ => Next::Fail,
    }
}

pub(crate) fn of_name(class: Class, next: Next) -> Next
    ensures { result ≡ of_name class next }
{
    match class {
        Class::BareName => next,
        _ => Next::Fail,
    }
}

pub(crate) fn braced(class: Class) -> Next
    ensures { result ≡ braced class }
{
    match class {
        Class::Member => Next::Wants(Mark::InFilter),
        Class::TupleMember => Next::Fail,
        _ => Next::Reads(Mark::MappedName),
    }
}

pub(crate) fn mapped(class: Class) -> Next
    ensures { result ≡ mapped class }
{
    match class {
        Class::Member => Next::Wants(Mark::InFunctionBody),
        Class::BareName => Next::Wants(Mark::InFieldValue),
        _ => Next::Fail,
    }
}

pub(crate) fn bracketed(class: Class) -> Next
    ensures { result ≡ bracketed class }
{
    match class {
        Class::Member | Class::BareName => Next::Reads(Mark::ArgumentName),
        _ => Next::Fail,
    }
}

/// What a token behind an operand makes with it.
#[tactic(auto, unfolding(crate::specs::inner::Moves::postfixes))]
pub(crate) fn postfixes(class: Class, sign: Sign) -> Next
    ensures { result ≡ found sign (postfixes class) }
{
    on(
        sign,
        Sign::Tick,
        Next::Shut(Construct::Primed),
        on(
            sign,
            Sign::LeftBracket,
            Next::Wants(Mark::InIndex),
            on(
                sign,
                Sign::Dot,
                Next::Reads(Mark::FieldName),
                on(
                    sign,
                    Sign::LeftParen,
                    calls(class),
                    on(
                        sign,
                        Sign::Bang,
                        of_name(class, Next::Reads(Mark::BangName)),
                        Next::Fail,
                    ),
                ),
            ),
        ),
    )
}

/// What a unit begins with, or the module's end.
#[tactic(auto, unfolding(crate::specs::inner::Moves::unit_rows, crate::specs::Operators::number_of))]
pub(crate) fn unit(sign: Sign) -> Next
    ensures { result ≡ found sign unit_rows }
{
    match sign {
        Sign::Word => Next::Reads(Mark::UnitHead),
        Sign::VariableWord | Sign::ConstantWord => Next::Reads(Mark::DeclaredName),
        Sign::AssumeWord => Next::Wants(Mark::InAssumption),
        Sign::TheoremWord => Next::Wants(Mark::InStatement),
        Sign::InstanceWord => Next::Reads(Mark::InstanceName),
        Sign::RecursiveWord => Next::Reads(Mark::RecursiveName),
        Sign::LocalWord => Next::Reads(Mark::LocalUnit),
        Sign::Dashes => Next::Reads(Mark::BetweenUnits),
        Sign::EndSign => Next::Reads(Mark::Finished),
        _ => Next::Fail,
    }
}

/// The form that ends in an operand behind this mark.
#[tactic(auto, unfolding(crate::specs::inner::Moves::ends_as))]
pub(crate) fn ends_as(mark: Mark) -> Construct
    ensures { result ≡ ends_as mark }
{
    match mark {
        Mark::InElse => Construct::Conditional,
        Mark::QuantifierBody => Construct::Quantifier,
        Mark::ChoiceBody => Construct::Choice,
        Mark::InArm => Construct::Cases,
        Mark::InOther => Construct::CasesOther,
        Mark::LocalBody => Construct::Local,
        _ => Construct::Junction,
    }
}

/// What the operand is that a whole form makes.
#[tactic(auto, unfolding(crate::specs::Written::class_of))]
pub(crate) fn class_of(construct: Construct) -> Class
    ensures { result ≡ class_of construct }
{
    match construct {
        Construct::NameUse => Class::BareName,
        Construct::FoldUse => Class::FoldName,
        Construct::Instanced => Class::PathName,
        Construct::TupleValue => Class::Tuple,
        _ => Class::Other,
    }
}

/// What an infix operator makes of its left operand.
#[tactic(auto, unfolding(crate::specs::Written::class_infix))]
pub(crate) fn class_infix(class: Class, sign: Sign) -> Class
    ensures { result ≡ class_infix class sign }
{
    match sign {
        Sign::Element => member(class),
        Sign::Wedge => Class::Joined(Sign::Wedge),
        Sign::Vee => Class::Joined(Sign::Vee),
        Sign::Times => Class::Joined(Sign::Times),
        _ => Class::Other,
    }
}

fn member(class: Class) -> Class
    ensures { result ≡ member class }
{
    match class {
        Class::BareName => Class::Member,
        Class::Tuple => Class::TupleMember,
        _ => Class::Other,
    }
}

/// Whether a chain of the operator goes on with it.
pub(crate) fn continues(class: Class, sign: Sign) -> bool
    ensures { result ≡ continues class sign }
{
    match class {
        Class::Joined(joined) => joined.is(sign),
        _ => false,
    }
}
