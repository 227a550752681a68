// The form that a token shows with which no module goes on.
ghost use Rattle.std.specs.Prelude.{◌≡◌, ◌↔◌, ◌++◌, ◌&&◌, true, false, map, option_map, IfOk, IsTrue};
ghost use Rattle.tla_parser.specs.Operators.{after, is_prefix};
ghost use Rattle.tla_parser.specs.Refused.{BeginsDefinition, EndsInParameters, Takes, before_names, is_listed, of_definition, of_parameters};
ghost use Rattle.tla_parser.specs.Signs.{sign};
ghost use Rattle.tla_parser.specs.declared.signs.Role.TheVariants.{InfixRole};
ghost use Rattle.tla_parser.specs.declared.signs.Sign.TheVariants.{InstanceWord, LeftAngle, LeftParen, ModuleWord, ProofWord, Underscore};
ghost use Rattle.tla_parser.specs.declared.fault.Syntax.TheVariants.{NestedModule, ParametrizedInstance, SymbolDefinition, Proof, OperatorParameter, TuplePattern};
ghost use Rattle.tla_parser.specs.inner.Sights.{IsFound, IsSight, Judges, constants_from, family, goes, name_from};

use crate::ahead::{
    goes, of_bound_name, of_definition, of_last_parameter, of_parameter, of_parameters, of_unit,
    stick,
};
use crate::fault::Syntax;
use crate::looks::look;
use crate::ranges::{after, is_prefix};
use crate::signs::{Role, Sign};
use std::alloc::{AllocError, Global};
use tla_lexer::Token;
use tla_meaning::Place;

// A token with what stands before and behind it.
#[derive(Drop)]
struct Site<'a> {
    alloc: Global,
    front: &'a [Token],
    token: &'a Token,
    rest: &'a [Token],
}

/// The form that is read nowhere and that stands in the tokens, with its place.
pub(crate) fn shown(alloc: Global, tokens: &[Token]) -> Result<Option<(Place, Syntax)>, AllocError>
    ensures { IfOk result (λ o. IsFound o tokens.now) }
{
    let Some(i) = stick(alloc, tokens)? else {
        return Ok(None);
    };
    let site = Site {
        alloc,
        front: &tokens[..i],
        token: &tokens[i],
        rest: &tokens[i + 1..],
    };
    let form = site.form()?;
    Ok(form)
}

// The form that a token with this sign may show.
#[tactic(auto, unfolding(crate::specs::inner::Sights::family))]
fn family(sign: Sign) -> Syntax
    ensures { result ≡ family sign }
{
    match sign {
        Sign::ModuleWord => Syntax::NestedModule,
        Sign::InstanceWord => Syntax::ParametrizedInstance,
        Sign::ProofWord => Syntax::Proof,
        Sign::Underscore | Sign::LeftParen => Syntax::OperatorParameter,
        Sign::LeftAngle => Syntax::TuplePattern,
        _ => Syntax::SymbolDefinition,
    }
}

// Whether a name that is bound stands behind the sign: at the front of a list, or behind a comma of it.
#[tactic(auto, unfolding(crate::specs::Refused::before_names))]
fn before_names(sign: Sign) -> bool
    ensures { result ≡ before_names sign }
{
    match sign {
        Sign::ExistsSign | Sign::ForallSign | Sign::ChooseWord | Sign::Comma => true,
        _ => false,
    }
}

fn sign_of(token: &Token) -> Sign
    ensures { result ≡ sign token.now }
{
    look(token).sign
}

fn is_listed(token: &Token) -> bool
    ensures { result ≡ is_listed token.now }
{
    let sign = sign_of(token);
    sign.is(Sign::Word) || sign.is(Sign::Comma)
}

// Whether the tokens end in CONSTANT, names and commas, with a name at the end.
fn ends_in_constants(tokens: &[Token]) -> bool
    ensures { result ≡ (constants_from false tokens.now && name_from false tokens.now) }
{
    let mut are_constants = false;
    let mut is_name = false;
    for token in tokens {
        let sign = sign_of(token);
        are_constants = sign.is(Sign::ConstantWord) || (are_constants && is_listed(token));
        is_name = sign.is(Sign::Word);
    }
    are_constants && is_name
}

// Whether the tokens end in `) ==`.
fn ends_in_parameters(tokens: &[Token]) -> bool
    ensures { IsTrue result ↔ EndsInParameters tokens.now }
{
    let Some((equals, before)) = tokens.split_last() else {
        return false;
    };
    let Some((paren, _)) = before.split_last() else {
        return false;
    };
    sign_of(paren).is(Sign::RightParen) && sign_of(equals).is(Sign::Defines)
}

// Whether the tokens begin with a name and `==`.
fn begins_definition(tokens: &[Token]) -> bool
    ensures { IsTrue result ↔ BeginsDefinition tokens.now }
{
    let Some((name, behind)) = tokens.split_first() else {
        return false;
    };
    let Some((equals, _)) = behind.split_first() else {
        return false;
    };
    sign_of(name).is(Sign::Word) && sign_of(equals).is(Sign::Defines)
}

impl Site<'_> {
    fn form(&self) -> Result<Option<(Place, Syntax)>, AllocError>
        ensures { IfOk result (λ o. IsSight o self.now.front.now self.now.token.now self.now.rest.now) }
    {
        let form = family(sign_of(self.token));
        match self.place_of(form)? {
            Some(place) => Ok(Some((place, form))),
            None => Ok(None),
        }
    }

    // Where the form stands that the token may show.
    fn place_of(&self, form: Syntax) -> Result<Option<Place>, AllocError>
        requires { family (sign self.now.token.now) ≡ form }
        ensures { IfOk result (λ o. Judges form o self.now.front.now self.now.token.now self.now.rest.now) }
    {
        match form {
            Syntax::NestedModule => self.nested_module(),
            Syntax::ParametrizedInstance => Ok(self.parametrized_instance()),
            Syntax::Proof => self.proof(),
            Syntax::OperatorParameter => self.operator_parameter(),
            Syntax::TuplePattern => self.tuple_pattern(),
            Syntax::SymbolDefinition => self.symbol_definition(),
        }
    }

    fn takes(&self, ahead: &[Token]) -> Result<bool, AllocError>
        ensures { IfOk result (λ b. b ≡ goes (self.now.front.now ++ ahead.now)) }
    {
        goes(self.alloc, self.front, ahead)
    }

    // MODULE behind dashes that stand where a unit could begin.
    fn nested_module(&self) -> Result<Option<Place>, AllocError>
        requires { sign self.now.token.now ≡ ModuleWord }
        ensures { IfOk result (λ o. Judges NestedModule o self.now.front.now self.now.token.now self.now.rest.now) }
    {
        let Some((dashes, before)) = self.front.split_last() else {
            return Ok(None);
        };
        if !sign_of(dashes).is(Sign::Dashes) {
            return Ok(None);
        }
        let unit = of_unit(self.alloc, dashes.place)?;
        if goes(self.alloc, before, unit.as_slice())? {
            return Ok(Some(dashes.place));
        }
        Ok(None)
    }

    // INSTANCE behind the `==` of a definition with parameters.
    fn parametrized_instance(&self) -> Option<Place>
        requires { sign self.now.token.now ≡ InstanceWord }
        ensures { Judges ParametrizedInstance result self.now.front.now self.now.token.now self.now.rest.now }
    {
        if ends_in_parameters(self.front) {
            return Some(self.token.place);
        }
        None
    }

    // A proof where a unit could begin.
    fn proof(&self) -> Result<Option<Place>, AllocError>
        requires { sign self.now.token.now ≡ ProofWord }
        ensures { IfOk result (λ o. Judges Proof o self.now.front.now self.now.token.now self.now.rest.now) }
    {
        let unit = of_unit(self.alloc, self.token.place)?;
        if self.takes(unit.as_slice())? {
            return Ok(Some(self.token.place));
        }
        Ok(None)
    }

    // A parameter that has parameters.
    fn operator_parameter(&self) -> Result<Option<Place>, AllocError>
        ensures { IfOk result (λ o. Judges OperatorParameter o self.now.front.now self.now.token.now self.now.rest.now) }
    {
        if sign_of(self.token).is(Sign::Underscore) {
            return self.blank_parameter();
        }
        if sign_of(self.token).is(Sign::LeftParen) {
            return self.blank_behind();
        }
        Ok(None)
    }

    // `_` where a parameter could stand.
    fn blank_parameter(&self) -> Result<Option<Place>, AllocError>
        requires { sign self.now.token.now ≡ Underscore }
        ensures { IfOk result (λ o. Judges OperatorParameter o self.now.front.now self.now.token.now self.now.rest.now) }
    {
        let parameter = of_parameter(self.alloc, self.token.place)?;
        if self.takes(parameter.as_slice())? {
            return Ok(Some(self.token.place));
        }
        Ok(None)
    }

    // `_` in the parentheses of a parameter or a constant.
    fn blank_behind(&self) -> Result<Option<Place>, AllocError>
        requires { sign self.now.token.now ≡ LeftParen }
        ensures { IfOk result (λ o. Judges OperatorParameter o self.now.front.now self.now.token.now self.now.rest.now) }
    {
        let Some((blank, _)) = self.rest.split_first() else {
            return Ok(None);
        };
        if !sign_of(blank).is(Sign::Underscore) {
            return Ok(None);
        }
        if ends_in_constants(self.front) {
            return Ok(Some(blank.place));
        }
        let last = of_last_parameter(self.alloc, self.token.place)?;
        if self.takes(last.as_slice())? {
            return Ok(Some(blank.place));
        }
        Ok(None)
    }

    // `<<` in the place of a name that is bound.
    fn tuple_pattern(&self) -> Result<Option<Place>, AllocError>
        requires { sign self.now.token.now ≡ LeftAngle }
        ensures { IfOk result (λ o. Judges TuplePattern o self.now.front.now self.now.token.now self.now.rest.now) }
    {
        let Some((last, _)) = self.front.split_last() else {
            return Ok(None);
        };
        if !before_names(sign_of(last)) {
            return Ok(None);
        }
        let name = of_bound_name(self.alloc, self.token.place)?;
        if self.takes(name.as_slice())? {
            return Ok(Some(self.token.place));
        }
        Ok(None)
    }

    // A symbol where a name could be defined, or behind the name that is defined.
    fn symbol_definition(&self) -> Result<Option<Place>, AllocError>
        ensures { IfOk result (λ o. Judges SymbolDefinition o self.now.front.now self.now.token.now self.now.rest.now) }
    {
        if begins_definition(self.rest) && (self.is_infix()? || self.is_prefix()?) {
            return Ok(Some(self.token.place));
        }
        Ok(None)
    }

    // Whether the token is an infix operator in the place of parameters.
    fn is_infix(&self) -> Result<bool, AllocError>
        ensures { IfOk result (λ b. IsTrue b ↔ ((after (sign self.now.token.now) ≡ InfixRole) × Takes of_parameters self.now.front.now self.now.token.now)) }
    {
        match after(sign_of(self.token)) {
            Role::InfixRole => {
                let parameters = of_parameters(self.alloc, self.token.place)?;
                let takes = self.takes(parameters.as_slice())?;
                Ok(takes)
            }
            _ => Ok(false),
        }
    }

    // Whether the token is a prefix operator in the place of a name that is defined.
    fn is_prefix(&self) -> Result<bool, AllocError>
        ensures { IfOk result (λ b. IsTrue b ↔ ((is_prefix (sign self.now.token.now) ≡ true) × Takes of_definition self.now.front.now self.now.token.now)) }
    {
        if !is_prefix(sign_of(self.token)) {
            return Ok(false);
        }
        let definition = of_definition(self.alloc, self.token.place)?;
        let takes = self.takes(definition.as_slice())?;
        Ok(takes)
    }
}
