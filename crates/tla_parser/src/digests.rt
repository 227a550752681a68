// What a form has, part by part.
ghost use Rattle.std.specs.Prelude.{◌≡◌, fold, reverse, IfOk};
ghost use Rattle.tla_meaning.specs.declared.expr.Expr.{out-Expr};
ghost use Rattle.tla_parser.specs.declared.items.Item.TheVariants.{Piece};
ghost use Rattle.tla_parser.specs.Trees.{before_subscript, digest, empty_digest, is_colon, is_element, is_stray, taken_in, with_bound, with_colon, with_first, with_head, with_member, with_members, with_name, with_named, name_of, with_operand, with_subscript, with_tree, used_name};

use crate::binders::{Copies, repeated};
use crate::items::{Digest, Item};
use crate::looks::look;
use crate::nodes::{NOWHERE, added};
use crate::signs::Sign;
use std::alloc::{AllocError, Global};
use tla_lexer::{Token, TokenKind};
use tla_meaning::{Expr, Op, Place};
use tla_values::{List, Text, copy_text};

#[tactic(auto, unfolding(crate::specs::Trees::is_stray))]
fn is_stray(sign: Sign) -> bool
    ensures { result ≡ is_stray sign }
{
    match sign {
        Sign::Stray => true,
        _ => false,
    }
}

#[tactic(auto, unfolding(crate::specs::Trees::is_element))]
fn is_element(sign: Sign) -> bool
    ensures { result ≡ is_element sign }
{
    match sign {
        Sign::Element => true,
        _ => false,
    }
}

#[tactic(auto, unfolding(crate::specs::Trees::is_colon))]
fn is_colon(sign: Sign) -> bool
    ensures { result ≡ is_colon sign }
{
    match sign {
        Sign::Colon => true,
        _ => false,
    }
}

#[tactic(auto, unfolding(crate::specs::Trees::before_subscript))]
fn before_subscript(sign: Sign) -> bool
    ensures { result ≡ before_subscript sign }
{
    match sign {
        Sign::BracketSub | Sign::AngleSub | Sign::FairWord => true,
        _ => false,
    }
}

/// The name that a token is.
pub(crate) fn name_of(kind: TokenKind) -> Option<Text>
    ensures { result ≡ name_of kind }
{
    match kind {
        TokenKind::Name(name) => Some(name),
        _ => None,
    }
}

#[tactic(auto, unfolding(crate::specs::Trees::empty_digest))]
fn empty_digest(alloc: Global, heads: bool) -> Digest
    ensures { result ≡ empty_digest heads }
{
    Digest {
        first: Sign::Stray,
        place: NOWHERE,
        names: List::new(alloc),
        name_place: NOWHERE,
        operands: List::new(alloc),
        pending: 0,
        bounded: false,
        subscript: Sign::Stray,
        subscript_place: NOWHERE,
        opens_subscript: false,
        heads,
    }
}

fn with_first(digest: Digest, sign: Sign, place: Place) -> Digest
    ensures { result ≡ with_first sign place digest }
{
    let mut digest = digest;
    if is_stray(digest.first) {
        digest.first = sign;
        digest.place = place;
    }
    digest
}

fn with_subscript(digest: Digest, sign: Sign, place: Place) -> Digest
    ensures { result ≡ with_subscript sign place digest }
{
    let mut digest = digest;
    if digest.opens_subscript {
        digest.subscript = sign;
        digest.subscript_place = place;
    }
    digest.opens_subscript = before_subscript(sign);
    digest
}

fn with_bound(digest: Digest, sign: Sign) -> Digest
    ensures { result ≡ with_bound sign digest }
{
    let mut digest = digest;
    if is_element(sign) {
        digest.bounded = true;
    }
    digest
}

fn with_colon(digest: Digest, sign: Sign) -> Digest
    ensures { result ≡ with_colon sign digest }
{
    let mut digest = digest;
    if is_colon(sign) {
        digest.pending = 0;
    }
    digest
}

fn with_name(digest: Digest, name: Option<Text>) -> Result<Digest, AllocError>
    ensures { IfOk result (λ d. d ≡ with_name name digest) }
{
    let mut digest = digest;
    match name {
        None => Ok(digest),
        Some(name) => {
            digest.pending = digest.pending.checked_add(1).ok_or(AllocError)?;
            digest.names = added(digest.names, name)?;
            Ok(digest)
        }
    }
}

// Takes in the name of a token at the place.
fn with_named(digest: Digest, name: Option<Text>, place: Place) -> Result<Digest, AllocError>
    ensures { IfOk result (λ d. d ≡ with_named name place digest) }
{
    let mut digest = digest;
    match name {
        None => Ok(digest),
        Some(name) => {
            digest.name_place = place;
            with_name(digest, Some(name))
        }
    }
}

fn with_operand(
    copies: &mut Copies,
    alloc: Global,
    digest: Digest,
    operand: Expr,
) -> Result<Digest, AllocError>
    ensures { IfOk result (λ d. d ≡ with_operand operand digest) }
{
    let mut digest = digest;
    let mut operands = digest.operands.into_vec();
    repeated(alloc, copies, digest.pending, operand, &mut operands)?;
    digest.operands = List::from_vec(operands);
    digest.pending = 0;
    Ok(digest)
}

// The name that a use is of.
fn used_name(e: Expr) -> Option<Text>
    ensures { result ≡ used_name (out-Expr e).op }
{
    let Expr {
        place: _,
        op,
        args: _,
        binds: _,
    } = e;
    match op {
        Op::Use(name) => Some(name),
        _ => None,
    }
}

// Takes in `x \in S`, of which the form binds x.
fn with_member(
    copies: &mut Copies,
    alloc: Global,
    digest: Digest,
    name: Option<Text>,
    set: Expr,
) -> Result<Digest, AllocError>
    ensures { IfOk result (λ d. d ≡ with_member name set digest) }
{
    match name {
        Some(name) => {
            let digest = with_name(digest, Some(name))?;
            with_operand(copies, alloc, digest, set)
        }
        None => Ok(digest),
    }
}

fn with_members(
    copies: &mut Copies,
    alloc: Global,
    digest: Digest,
    args: List<Expr>,
) -> Result<Digest, AllocError>
    ensures { IfOk result (λ d. d ≡ with_members (reverse args) digest) }
{
    let mut args = args.into_vec();
    let Some(set) = args.pop() else {
        return Ok(digest);
    };
    let Some(name) = args.pop() else {
        return Ok(digest);
    };
    with_member(copies, alloc, digest, used_name(name), set)
}

// Takes in the first operand of a form that binds it.
fn with_head(
    copies: &mut Copies,
    alloc: Global,
    digest: Digest,
    e: Expr,
) -> Result<Digest, AllocError>
    ensures { IfOk result (λ d. d ≡ with_head (out-Expr e).op (out-Expr e).args digest) }
{
    let Expr {
        place: _,
        op,
        args,
        binds: _,
    } = e;
    match op {
        Op::Use(name) => with_name(digest, Some(name)),
        Op::In => with_members(copies, alloc, digest, args),
        _ => Ok(digest),
    }
}

fn with_tree(
    copies: &mut Copies,
    alloc: Global,
    digest: Digest,
    e: Expr,
) -> Result<Digest, AllocError>
    ensures { IfOk result (λ d. d ≡ with_tree e digest) }
{
    let mut digest = digest;
    if digest.heads {
        digest.heads = false;
        return with_head(copies, alloc, digest, e);
    }
    with_operand(copies, alloc, digest, e)
}

fn with_token(digest: Digest, token: Token) -> Result<Digest, AllocError>
    ensures { IfOk result (λ d. d ≡ taken_in digest (Piece token)) }
{
    let sign = look(&token).sign;
    let Token {
        kind,
        place,
        notes: _,
    } = token;
    let digest = with_first(digest, sign, place);
    let digest = with_subscript(digest, sign, place);
    let digest = with_bound(digest, sign);
    let digest = with_colon(digest, sign);
    with_named(digest, name_of(kind), place)
}

fn taken_in(
    copies: &mut Copies,
    alloc: Global,
    digest: Digest,
    item: Item,
) -> Result<Digest, AllocError>
    ensures { IfOk result (λ d. d ≡ taken_in digest item) }
{
    match item {
        Item::Piece(token) => with_token(digest, token),
        Item::Tree(e) => with_tree(copies, alloc, digest, e),
    }
}

/// What the form of these parts has.
pub(crate) fn digest(
    copies: &mut Copies,
    alloc: Global,
    heads: bool,
    items: Vec<Item>,
) -> Result<Digest, AllocError>
    ensures { IfOk result (λ d. d ≡ digest heads items.items) }
{
    let mut found = empty_digest(alloc, heads);
    for item in items {
        found = taken_in(copies, alloc, found, item)?;
    }
    Ok(found)
}
