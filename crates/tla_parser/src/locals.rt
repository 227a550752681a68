// What stands before `==`, and the definitions of a LET.
ghost use Rattle.std.specs.Prelude.{◌≡◌, ◌++◌, fold, IfOk};
ghost use Rattle.tla_parser.specs.declared.items.Item.TheVariants.{Piece};
ghost use Rattle.tla_parser.specs.Signs.{sign};
ghost use Rattle.tla_parser.specs.Trees.{head_body, head_name, head_params, head_set, head_token, let_tree, local_body, local_node, local_token, local_tree, localized, name_of, no_head, no_locals};

use crate::binders::{Copies, repeated};
use crate::digests::name_of;
use crate::items::{Head, Item, Locals};
use crate::looks::look;
use crate::nodes::{NOWHERE, added, joined, node};
use crate::signs::Sign;
use std::alloc::{AllocError, Global};
use tla_lexer::Token;
use tla_meaning::{Expr, Op};
use tla_values::{List, Text, copy_texts};

#[tactic(auto, unfolding(crate::specs::Trees::no_head))]
pub(crate) fn no_head(alloc: Global) -> Head
    ensures { result ≡ no_head }
{
    Head {
        named: false,
        name: Text::from_vec(Vec::new(alloc)),
        place: NOWHERE,
        note: Text::from_vec(Vec::new(alloc)),
        names: List::new(alloc),
        function: false,
        function_place: NOWHERE,
        inside: false,
        sets: List::new(alloc),
        pending: 0,
    }
}

fn head_name(head: Head, token: Token) -> Result<Head, AllocError>
    ensures { IfOk result (λ h. h ≡ head_name (name_of token.kind) token head) }
{
    let mut head = head;
    let Token { kind, place, notes } = token;
    match name_of(kind) {
        None => Ok(head),
        Some(name) => {
            if head.named {
                head.pending = head.pending.checked_add(1).ok_or(AllocError)?;
                head.names = added(head.names, name)?;
            } else {
                head.named = true;
                head.name = name;
                head.place = place;
                head.note = notes;
            }
            Ok(head)
        }
    }
}

/// The head with one more token.
#[tactic(auto, unfolding(crate::specs::Trees::head_token))]
pub(crate) fn head_token(head: Head, sign: Sign, token: Token) -> Result<Head, AllocError>
    ensures { IfOk result (λ h. h ≡ head_token sign token head) }
{
    let mut head = head;
    match sign {
        Sign::LeftBracket => {
            head.function = true;
            head.function_place = token.place;
            head.inside = true;
            Ok(head)
        }
        Sign::RightBracket => {
            head.inside = false;
            Ok(head)
        }
        _ => head_name(head, token),
    }
}

/// The head with one more set of a function's names.
pub(crate) fn head_set(
    copies: &mut Copies,
    alloc: Global,
    head: Head,
    e: Expr,
) -> Result<Head, AllocError>
    ensures { IfOk result (λ h. h ≡ head_set e head) }
{
    let mut head = head;
    let mut sets = head.sets.into_vec();
    repeated(alloc, copies, head.pending, e, &mut sets)?;
    head.sets = List::from_vec(sets);
    head.pending = 0;
    Ok(head)
}

/// A definition's name, parameters and body.
#[derive(Drop)]
pub(crate) struct Defined {
    pub(crate) name: Text,
    pub(crate) params: List<Text>,
    pub(crate) body: Expr,
}

/// The definition of the head with this body.
pub(crate) fn definition(alloc: Global, head: Head, e: Expr) -> Result<Defined, AllocError>
    ensures name { IfOk result (λ d. d.name ≡ head.name) }
    ensures params { IfOk result (λ d. d.params ≡ head_params head) }
    ensures body { IfOk result (λ d. d.body ≡ head_body head e) }
{
    if !head.function {
        return Ok(Defined {
            name: head.name,
            params: head.names,
            body: e,
        });
    }
    let args = added(head.sets, e)?;
    Ok(Defined {
        name: head.name,
        params: List::new(alloc),
        body: node(head.function_place, Op::Lambda, head.names, args),
    })
}

#[tactic(auto, unfolding(crate::specs::Trees::no_locals))]
fn no_locals(alloc: Global) -> Locals
    ensures { result ≡ no_locals }
{
    Locals {
        place: NOWHERE,
        lets: List::new(alloc),
        binds: List::new(alloc),
        bodies: List::new(alloc),
        head: no_head(alloc),
        last: false,
    }
}

#[tactic(auto, unfolding(crate::specs::Trees::local_token))]
fn local_token(locals: Locals, token: Token) -> Result<Locals, AllocError>
    ensures { IfOk result (λ l. l ≡ localized locals (Piece token)) }
{
    let mut locals = locals;
    let sign = look(&token).sign;
    match sign {
        Sign::LetWord => {
            locals.place = token.place;
            Ok(locals)
        }
        Sign::InWord => {
            locals.last = true;
            Ok(locals)
        }
        _ => {
            locals.head = head_token(locals.head, sign, token)?;
            Ok(locals)
        }
    }
}

fn local_body(alloc: Global, locals: Locals, e: Expr) -> Result<Locals, AllocError>
    ensures { IfOk result (λ l. l ≡ local_body e locals) }
{
    let Locals {
        place,
        lets,
        binds,
        bodies,
        head,
        last,
    } = locals;
    let Defined { name, params, body } = definition(alloc, head, e)?;
    let lets = added(lets, (name, params.len()))?;
    Ok(Locals {
        place,
        lets,
        binds: joined(binds, params)?,
        bodies: added(bodies, body)?,
        head: no_head(alloc),
        last,
    })
}

fn local_tree(
    copies: &mut Copies,
    alloc: Global,
    locals: Locals,
    e: Expr,
) -> Result<Locals, AllocError>
    ensures { IfOk result (λ l. l ≡ local_tree e locals) }
{
    let mut locals = locals;
    if locals.last {
        locals.bodies = added(locals.bodies, e)?;
        return Ok(locals);
    }
    if locals.head.inside {
        locals.head = head_set(copies, alloc, locals.head, e)?;
        return Ok(locals);
    }
    local_body(alloc, locals, e)
}

fn localized(
    copies: &mut Copies,
    alloc: Global,
    locals: Locals,
    item: Item,
) -> Result<Locals, AllocError>
    ensures { IfOk result (λ l. l ≡ localized locals item) }
{
    match item {
        Item::Piece(token) => local_token(locals, token),
        Item::Tree(e) => local_tree(copies, alloc, locals, e),
    }
}

/// The tree of a LET of these parts.
pub(crate) fn let_tree(
    copies: &mut Copies,
    alloc: Global,
    items: Vec<Item>,
) -> Result<Expr, AllocError>
    ensures { IfOk result (λ e. e ≡ let_tree items.items) }
{
    let mut found = no_locals(alloc);
    for item in items {
        found = localized(copies, alloc, found, item)?;
    }
    Ok(node(found.place, Op::Let(found.lets), found.binds, found.bodies))
}
