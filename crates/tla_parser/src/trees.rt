// The tree of a form.
ghost use Rattle.std.specs.Prelude.{◌≡◌, ◌∷◌, [], reverse, IfOk};
ghost use Rattle.tla_meaning.specs.declared.expr.Expr.{out-Expr, roll-Expr};
ghost use Rattle.tla_meaning.specs.declared.op.Op.TheVariants as op;
ghost use Rattle.tla_parser.specs.Trees.{action_op, binder_args, binder_op, binder_tree, binds_head, build, digested, fair_tree, first_name, first_tree, fold_tree, instance_name, is_exception, is_fairness, is_leaf, is_local, junction_op, leaf, leaf_op, leaf_tree, led, led_tree, is_plain, node, other_tree, plain_op, quantifier_op, subscript_tree};

use crate::binders::Copies;
use crate::digests::digest;
use crate::items::{Digest, Item};
use crate::locals::let_tree;
use crate::moves::Construct;
use crate::nodes::{NOWHERE, first_and_rest, index_of, leaf, node, pair, rotated};
use crate::signs::Sign;
use crate::updates::except_tree;
use std::alloc::{AllocError, Global};
use tla_lexer::{Token, TokenKind};
use tla_meaning::{Expr, Form, Op, Place};
use tla_values::{List, Text};

#[tactic(auto, unfolding(crate::specs::Trees::is_leaf))]
fn is_leaf(construct: Construct) -> bool
    ensures { result ≡ is_leaf construct }
{
    match construct {
        Construct::NumberLiteral
        | Construct::TextLiteral
        | Construct::NameUse
        | Construct::FoldUse => true,
        _ => false,
    }
}

#[tactic(auto, unfolding(crate::specs::Trees::is_exception))]
fn is_exception(construct: Construct) -> bool
    ensures { result ≡ is_exception construct }
{
    match construct {
        Construct::Exception => true,
        _ => false,
    }
}

#[tactic(auto, unfolding(crate::specs::Trees::is_local))]
fn is_local(construct: Construct) -> bool
    ensures { result ≡ is_local construct }
{
    match construct {
        Construct::Local => true,
        _ => false,
    }
}

#[tactic(auto, unfolding(crate::specs::Trees::is_fairness))]
fn is_fairness(construct: Construct) -> bool
    ensures { result ≡ is_fairness construct }
{
    match construct {
        Construct::Fairness => true,
        _ => false,
    }
}

#[tactic(auto, unfolding(crate::specs::Trees::binds_head))]
fn binds_head(construct: Construct) -> bool
    ensures { result ≡ binds_head construct }
{
    match construct {
        Construct::Filter | Construct::Function | Construct::RecordValue | Construct::RecordSet =>
            true,
        _ => false,
    }
}

fn leaf_op(kind: TokenKind) -> Op
    ensures { result ≡ leaf_op kind }
{
    match kind {
        TokenKind::Number(n) => Op::Int(n),
        TokenKind::Quoted(text) => Op::Str(text),
        TokenKind::Name(name) => Op::Use(name),
        _ => Op::Tuple,
    }
}

fn leaf_of(alloc: Global, item: Item) -> Expr
    ensures { result ≡ leaf_tree (item ∷ []) }
{
    match item {
        Item::Piece(token) => {
            let Token {
                kind,
                place,
                notes: _,
            } = token;
            leaf(alloc, place, leaf_op(kind))
        }
        Item::Tree(_) => leaf(alloc, NOWHERE, Op::Tuple),
    }
}

fn leaf_tree(alloc: Global, items: Vec<Item>) -> Expr
    ensures { result ≡ leaf_tree items.items }
{
    let mut items = items;
    if items.is_empty() {
        return leaf(alloc, NOWHERE, Op::Tuple);
    }
    leaf_of(alloc, items.remove(0))
}

#[tactic(auto, unfolding(crate::specs::Trees::junction_op))]
fn junction_op(sign: Sign) -> Op
    ensures { result ≡ junction_op sign }
{
    match sign {
        Sign::Wedge => Op::And,
        _ => Op::Or,
    }
}

fn first_name(alloc: Global, names: List<Text>) -> Text
    ensures { result ≡ first_name names }
{
    let mut names = names.into_vec();
    if names.is_empty() {
        return Text::from_vec(Vec::new(alloc));
    }
    names.remove(0)
}

#[tactic(auto, unfolding(crate::specs::Trees::quantifier_op))]
fn quantifier_op(sign: Sign, bounded: bool) -> Op
    ensures { result ≡ quantifier_op sign bounded }
{
    if !bounded {
        return Op::Outside(Form::Unbounded);
    }
    match sign {
        Sign::ForallSign => Op::Forall,
        Sign::ExistsSign => Op::Exists,
        _ => Op::Outside(Form::Unbounded),
    }
}

#[tactic(auto, unfolding(crate::specs::Trees::binder_op))]
fn binder_op(construct: Construct, sign: Sign, bounded: bool) -> Option<Op>
    ensures { result ≡ binder_op construct sign bounded }
{
    match construct {
        Construct::Filter => Some(Op::Filter),
        Construct::Function => Some(Op::Lambda),
        Construct::Mapping => Some(Op::MapTo),
        Construct::Choice => Some(Op::Outside(Form::Choose)),
        Construct::Quantifier => Some(quantifier_op(sign, bounded)),
        _ => None,
    }
}

#[tactic(auto, unfolding(crate::specs::Trees::binder_args))]
fn binder_args(
    alloc: Global,
    construct: Construct,
    operands: List<Expr>,
) -> Result<List<Expr>, AllocError>
    ensures { IfOk result (λ es. es ≡ binder_args construct operands) }
{
    match construct {
        Construct::Mapping => rotated(alloc, operands),
        _ => Ok(operands),
    }
}

fn first_tree(alloc: Global, place: Place, operands: List<Expr>) -> Expr
    ensures { result ≡ first_tree place operands }
{
    match first_and_rest(operands) {
        Some((first, _)) => first,
        None => leaf(alloc, place, Op::Tuple),
    }
}

// The v of `[A]_v`.
#[tactic(auto, unfolding(crate::specs::Trees::subscript_tree))]
fn subscript_tree(
    alloc: Global,
    sign: Sign,
    place: Place,
    names: List<Text>,
    operands: List<Expr>,
) -> Expr
    ensures { result ≡ subscript_tree sign place names operands }
{
    match sign {
        Sign::LeftAngle => node(place, Op::Tuple, List::new(alloc), operands),
        Sign::LeftParen => first_tree(alloc, place, operands),
        _ => leaf(alloc, place, Op::Use(first_name(alloc, names))),
    }
}

#[tactic(auto, unfolding(crate::specs::Trees::action_op))]
fn action_op(sign: Sign) -> Op
    ensures { result ≡ action_op sign }
{
    match sign {
        Sign::LeftBracket => Op::Boxed,
        _ => Op::Angled,
    }
}

// The name of an operator of an instance.
fn instance_name(alloc: Global, op: Op, names: List<Text>) -> Result<Text, AllocError>
    ensures { IfOk result (λ t. t ≡ instance_name op names) }
{
    match op {
        Op::Use(instance) => {
            let mut bytes = instance.into_vec();
            bytes.extend_from_slice(b"!")?;
            let name = first_name(alloc, names);
            bytes.extend_from_slice(name.bytes())?;
            Ok(Text::from_vec(bytes))
        }
        _ => Ok(Text::from_vec(Vec::new(alloc))),
    }
}

#[tactic(auto, unfolding(crate::specs::Trees::is_plain))]
fn is_plain(construct: Construct) -> bool
    ensures { result ≡ is_plain construct }
{
    match construct {
        Construct::TrueLiteral
        | Construct::FalseLiteral
        | Construct::Booleans
        | Construct::Strings
        | Construct::OldValue
        | Construct::Enumeration
        | Construct::FunctionSet
        | Construct::TupleValue => true,
        Construct::Conditional
        | Construct::Cases
        | Construct::CasesOther
        | Construct::Primed
        | Construct::Junction
        | Construct::RecordValue
        | Construct::RecordSet
        | Construct::FieldAccess => true,
        _ => false,
    }
}

// What stands at the node of a form whose tree has its operands as they are written.
#[tactic(auto, unfolding(crate::specs::Trees::plain_op))]
fn plain_op(
    alloc: Global,
    construct: Construct,
    sign: Sign,
    names: List<Text>,
) -> Result<Op, AllocError>
    ensures { IfOk result (λ o. o ≡ plain_op construct sign names) }
{
    match construct {
        Construct::TrueLiteral => Ok(Op::Bool(true)),
        Construct::FalseLiteral => Ok(Op::Bool(false)),
        Construct::Booleans => Ok(Op::BooleanSet),
        Construct::Strings => Ok(Op::StringSet),
        Construct::OldValue => Ok(Op::Bound(Text::from_vec(Vec::from_slice(alloc, b"@")?))),
        Construct::Enumeration => Ok(Op::SetEnum),
        Construct::FunctionSet => Ok(Op::FunSet),
        Construct::TupleValue => Ok(Op::Tuple),
        Construct::Conditional => Ok(Op::If),
        Construct::Cases => Ok(Op::Case(false)),
        Construct::CasesOther => Ok(Op::Case(true)),
        Construct::Primed => Ok(Op::Prime),
        Construct::Junction => Ok(junction_op(sign)),
        Construct::RecordValue => Ok(Op::Record(names)),
        Construct::RecordSet => Ok(Op::RecSet(names)),
        Construct::FieldAccess => Ok(Op::Field(first_name(alloc, names))),
        _ => Ok(Op::Tuple),
    }
}

fn plain_tree(alloc: Global, construct: Construct, digest: Digest) -> Result<Expr, AllocError>
    ensures { IfOk result (λ e. e ≡ node digest.place (plain_op construct digest.first digest.names) [] digest.operands) }
{
    let op = plain_op(alloc, construct, digest.first, digest.names)?;
    Ok(node(digest.place, op, List::new(alloc), digest.operands))
}

fn call(function: Expr, args: List<Expr>) -> Expr
    ensures { result ≡ roll-Expr (record (out-Expr function) { args = args }) }
{
    let Expr {
        place,
        op,
        args: _,
        binds,
    } = function;
    node(place, op, binds, args)
}

fn instanced(alloc: Global, instance: Expr, names: List<Text>) -> Result<Expr, AllocError>
    ensures { IfOk result (λ e. e ≡ leaf (out-Expr instance).place (op.Use (instance_name (out-Expr instance).op names))) }
{
    let Expr {
        place,
        op,
        args: _,
        binds: _,
    } = instance;
    let name = instance_name(alloc, op, names)?;
    Ok(leaf(alloc, place, Op::Use(name)))
}

// The operator of a fold is a name, or has two parameters.
fn fold_tree(
    alloc: Global,
    place: Place,
    digest: Digest,
    args: List<Expr>,
) -> Result<Expr, AllocError>
    ensures { IfOk result (λ e. e ≡ fold_tree place digest.name_place digest.names args) }
{
    let mut names = digest.names.into_vec();
    if names.len() != 1 {
        return Ok(node(place, Op::Fold, List::from_vec(names), args));
    }
    match names.pop() {
        Some(name) => {
            let mut operands = args.into_vec();
            operands.insert(0, leaf(alloc, digest.name_place, Op::Use(name)))?;
            Ok(node(place, Op::Fold, List::new(alloc), List::from_vec(operands)))
        }
        None => Ok(node(place, Op::Fold, List::new(alloc), args)),
    }
}

// The tree of a form whose first operand stands apart.
#[tactic(auto, unfolding(crate::specs::Trees::led_tree))]
fn led_tree(
    alloc: Global,
    construct: Construct,
    digest: Digest,
    first: Expr,
    rest: List<Expr>,
) -> Result<Expr, AllocError>
    ensures { IfOk result (λ e. e ≡ led_tree construct digest first rest) }
{
    match construct {
        Construct::Call => Ok(call(first, rest)),
        Construct::FoldCall => fold_tree(alloc, first.place, digest, rest),
        Construct::Application => {
            let index = index_of(alloc, digest.place, rest);
            let args = pair(alloc, first, index)?;
            Ok(node(digest.place, Op::Apply, List::new(alloc), args))
        }
        Construct::Instanced => instanced(alloc, first, digest.names),
        Construct::SquareAction => {
            let subscript = subscript_tree(
                alloc,
                digest.subscript,
                digest.subscript_place,
                digest.names,
                rest,
            );
            let args = pair(alloc, first, subscript)?;
            Ok(node(
                digest.place,
                action_op(digest.first),
                List::new(alloc),
                args,
            ))
        }
        _ => Ok(first),
    }
}

fn led(alloc: Global, construct: Construct, digest: Digest) -> Result<Expr, AllocError>
    ensures { IfOk result (λ e. e ≡ led construct digest digest.operands) }
{
    let mut digest = digest;
    let operands = digest.operands;
    digest.operands = List::new(alloc);
    match first_and_rest(operands) {
        Some((first, rest)) => led_tree(alloc, construct, digest, first, rest),
        None => Ok(leaf(alloc, digest.place, Op::Tuple)),
    }
}

fn fair_tree(alloc: Global, digest: Digest) -> Result<Expr, AllocError>
    ensures { IfOk result (λ e. e ≡ fair_tree digest (reverse digest.operands)) }
{
    let mut operands = digest.operands.into_vec();
    match operands.pop() {
        Some(action) => {
            let subscripts = List::from_vec(operands);
            let subscript = subscript_tree(
                alloc,
                digest.subscript,
                digest.subscript_place,
                digest.names,
                subscripts,
            );
            let args = pair(alloc, subscript, action)?;
            Ok(node(
                digest.place,
                Op::Outside(Form::Temporal),
                List::new(alloc),
                args,
            ))
        }
        None => Ok(leaf(alloc, digest.place, Op::Tuple)),
    }
}

fn binder_tree(alloc: Global, construct: Construct, digest: Digest) -> Result<Expr, AllocError>
    ensures { IfOk result (λ e. e ≡ binder_tree construct (binder_op construct digest.first digest.bounded) digest) }
{
    match binder_op(construct, digest.first, digest.bounded) {
        Some(op) => {
            let args = binder_args(alloc, construct, digest.operands)?;
            Ok(node(digest.place, op, digest.names, args))
        }
        None if is_fairness(construct) => fair_tree(alloc, digest),
        None => led(alloc, construct, digest),
    }
}

/// The tree of a form of these parts.
pub(crate) fn build(
    copies: &mut Copies,
    alloc: Global,
    construct: Construct,
    items: Vec<Item>,
) -> Result<Expr, AllocError>
    ensures { IfOk result (λ e. e ≡ build construct items.items) }
{
    if is_leaf(construct) {
        return Ok(leaf_tree(alloc, items));
    }
    if is_exception(construct) {
        return except_tree(alloc, items);
    }
    if is_local(construct) {
        return let_tree(copies, alloc, items);
    }
    let digest = digest(copies, alloc, binds_head(construct), items)?;
    if is_plain(construct) {
        plain_tree(alloc, construct, digest)
    } else {
        binder_tree(alloc, construct, digest)
    }
}
