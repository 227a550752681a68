// The updates of an EXCEPT.
ghost use Rattle.std.specs.Prelude.{◌≡◌, fold, IfOk};
ghost use Rattle.tla_parser.specs.declared.items.Item.TheVariants.{Piece};
ghost use Rattle.tla_parser.specs.Trees.{closed_index, except_tree, named_index, name_of, no_updates, opened_index, update_node, update_token, update_tree, update_value, updated};

use crate::digests::name_of;
use crate::items::{Item, Updates};
use crate::looks::look;
use crate::nodes::{NOWHERE, added, index_of, leaf, node};
use crate::signs::Sign;
use std::alloc::{AllocError, Global};
use tla_lexer::Token;
use tla_meaning::{Expr, Op, Place};
use tla_values::{List, Text};

#[tactic(auto, unfolding(crate::specs::Trees::no_updates))]
fn no_updates(alloc: Global) -> Updates
    ensures { result ≡ no_updates }
{
    Updates {
        place: NOWHERE,
        begun: false,
        operands: List::new(alloc),
        counts: List::new(alloc),
        steps: 0,
        inside: false,
        index: List::new(alloc),
        index_place: NOWHERE,
    }
}

fn opened_index(alloc: Global, updates: Updates, place: Place) -> Updates
    ensures { result ≡ opened_index place updates }
{
    let mut updates = updates;
    if updates.begun {
        updates.inside = true;
        updates.index = List::new(alloc);
        updates.index_place = place;
    } else {
        updates.place = place;
    }
    updates
}

fn closed_index(alloc: Global, updates: Updates) -> Result<Updates, AllocError>
    ensures { IfOk result (λ u. u ≡ closed_index updates) }
{
    if !updates.inside {
        return Ok(updates);
    }
    let Updates {
        place,
        begun,
        operands,
        counts,
        steps,
        inside: _,
        index,
        index_place,
    } = updates;
    let steps = steps.checked_add(1).ok_or(AllocError)?;
    let operands = added(operands, index_of(alloc, index_place, index))?;
    Ok(Updates {
        place,
        begun,
        operands,
        counts,
        steps,
        inside: false,
        index: List::new(alloc),
        index_place,
    })
}

fn named_index(alloc: Global, updates: Updates, name: Option<Text>) -> Result<Updates, AllocError>
    ensures { IfOk result (λ u. u ≡ named_index name updates) }
{
    let mut updates = updates;
    match name {
        None => Ok(updates),
        Some(name) => {
            updates.steps = updates.steps.checked_add(1).ok_or(AllocError)?;
            let index = leaf(alloc, updates.index_place, Op::Str(name));
            updates.operands = added(updates.operands, index)?;
            Ok(updates)
        }
    }
}

#[tactic(auto, unfolding(crate::specs::Trees::update_token))]
fn update_token(alloc: Global, updates: Updates, token: Token) -> Result<Updates, AllocError>
    ensures { IfOk result (λ u. u ≡ updated updates (Piece token)) }
{
    match look(&token).sign {
        Sign::LeftBracket => Ok(opened_index(alloc, updates, token.place)),
        Sign::RightBracket => closed_index(alloc, updates),
        Sign::Dot => {
            let mut updates = updates;
            updates.index_place = token.place;
            Ok(updates)
        }
        _ => named_index(alloc, updates, name_of(token.kind)),
    }
}

fn update_value(updates: Updates, e: Expr) -> Result<Updates, AllocError>
    ensures { IfOk result (λ u. u ≡ update_value e updates) }
{
    let mut updates = updates;
    updates.operands = added(updates.operands, e)?;
    if updates.begun {
        updates.counts = added(updates.counts, updates.steps)?;
        updates.steps = 0;
    }
    updates.begun = true;
    Ok(updates)
}

fn update_tree(updates: Updates, e: Expr) -> Result<Updates, AllocError>
    ensures { IfOk result (λ u. u ≡ update_tree e updates) }
{
    if !updates.inside {
        return update_value(updates, e);
    }
    let mut updates = updates;
    updates.index = added(updates.index, e)?;
    Ok(updates)
}

fn updated(alloc: Global, updates: Updates, item: Item) -> Result<Updates, AllocError>
    ensures { IfOk result (λ u. u ≡ updated updates item) }
{
    match item {
        Item::Piece(token) => update_token(alloc, updates, token),
        Item::Tree(e) => update_tree(updates, e),
    }
}

/// The tree of an EXCEPT of these parts.
pub(crate) fn except_tree(alloc: Global, items: Vec<Item>) -> Result<Expr, AllocError>
    ensures { IfOk result (λ e. e ≡ except_tree items.items) }
{
    let mut found = no_updates(alloc);
    for item in items {
        found = updated(alloc, found, item)?;
    }
    update_node(alloc, found)
}

fn update_node(alloc: Global, updates: Updates) -> Result<Expr, AllocError>
    ensures { IfOk result (λ e. e ≡ update_node updates) }
{
    let binds = added(
        List::new(alloc),
        Text::from_vec(Vec::from_slice(alloc, b"@")?),
    )?;
    Ok(node(
        updates.place,
        Op::Except(updates.counts),
        binds,
        updates.operands,
    ))
}
