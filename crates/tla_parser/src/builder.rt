// Trees made of what was read.
ghost use Rattle.std.specs.Prelude.{◌≡◌, reverse, IfOk};
ghost use Rattle.tla_parser.specs.inner.Building.{infixed, infixed_with, made, made_on, made_one, prefixed, shut_form, some_if};

use crate::binders::Copies;
use crate::items::Item;
use crate::moves::Construct;
use crate::nodes::{infix_node, prefix_node};
use crate::open::Code;
use crate::trees::build;
use std::alloc::{AllocError, Global};
use tla_lexer::Token;
use tla_meaning::Expr;

/// The parts that were made so far.
#[derive(Drop)]
pub(crate) struct Builder {
    pub(crate) items: Vec<Item>,
    pub(crate) copies: Copies,
}

impl Builder {
    fn prefixed(&mut self, alloc: Global, operator: Token) -> Result<bool, AllocError>
        ensures { IfOk result (λ b. prefixed operator (reverse self.old.items.items) ≡ some_if b (reverse self.new.items.items)) }
    {
        match self.items.pop() {
            Some(Item::Tree(operand)) => {
                let e = prefix_node(alloc, &operator, operand)?;
                self.items.push(Item::Tree(e))?;
                Ok(true)
            }
            _ => Ok(false),
        }
    }

    fn infixed_with(
        &mut self,
        alloc: Global,
        operator: Token,
        joined: bool,
        right: Expr,
    ) -> Result<bool, AllocError>
        ensures { IfOk result (λ b. infixed_with operator joined right (reverse self.old.items.items) ≡ some_if b (reverse self.new.items.items)) }
    {
        match self.items.pop() {
            Some(Item::Tree(left)) => {
                let e = infix_node(alloc, joined, &operator, left, right)?;
                self.items.push(Item::Tree(e))?;
                Ok(true)
            }
            _ => Ok(false),
        }
    }

    fn infixed(&mut self, alloc: Global, operator: Token, joined: bool) -> Result<bool, AllocError>
        ensures { IfOk result (λ b. infixed operator joined (reverse self.old.items.items) ≡ some_if b (reverse self.new.items.items)) }
    {
        match self.items.pop() {
            Some(Item::Tree(right)) => self.infixed_with(alloc, operator, joined, right),
            _ => Ok(false),
        }
    }

    fn shut(
        &mut self,
        alloc: Global,
        construct: Construct,
        count: usize,
    ) -> Result<bool, AllocError>
        ensures { IfOk result (λ b. shut_form construct count (reverse self.old.items.items) ≡ some_if b (reverse self.new.items.items)) }
    {
        if count > self.items.len() {
            return Ok(false);
        }
        let at = self.items.len() - count;
        let parts = self.items.split_off(at)?;
        let e = build(&mut self.copies, alloc, construct, parts)?;
        self.items.push(Item::Tree(e))?;
        Ok(true)
    }

    fn step(&mut self, alloc: Global, code: Code) -> Result<bool, AllocError>
        ensures { IfOk result (λ b. made_one code (reverse self.old.items.items) ≡ some_if b (reverse self.new.items.items)) }
    {
        match code {
            Code::Part(token) => {
                self.items.push(Item::Piece(token))?;
                Ok(true)
            }
            Code::Prefix(operator) => self.prefixed(alloc, operator),
            Code::Infix(operator, joined) => self.infixed(alloc, operator, joined),
            Code::Close(construct, count) => self.shut(alloc, construct, count),
        }
    }

    // Makes the next construct, where those before it had their parts.
    fn attempt(&mut self, alloc: Global, whole: bool, code: Code) -> Result<bool, AllocError>
        ensures { IfOk result (λ b. made_on code (some_if whole (reverse self.old.items.items)) ≡ some_if b (reverse self.new.items.items)) }
    {
        if whole {
            self.step(alloc, code)
        } else {
            Ok(false)
        }
    }

    /// Makes what was read; whether each construct had its parts.
    #[tactic(auto, using(crate::proofs::Built::made_next))]
    pub(crate) fn run(&mut self, alloc: Global, codes: Vec<Code>) -> Result<bool, AllocError>
        ensures { IfOk result (λ b. made codes.items (Some (reverse self.old.items.items)) ≡ some_if b (reverse self.new.items.items)) }
    {
        let mut whole = true;
        for code in codes {
            whole = self.attempt(alloc, whole, code)?;
        }
        Ok(whole)
    }
}
