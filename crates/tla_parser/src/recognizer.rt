// The reading of tokens with a stack of its own.
ghost use Rattle.std.specs.Prelude.{◌≡◌, ◌++◌, ◌∷◌, ◌+◌, [], ℕ, reverse, max, min, IfOk, IfSome, option_copied};
ghost use Rattle.tla_lexer.specs.declared.token.Token.{Token as Tok};
ghost use Rattle.tla_parser.specs.Operators.{after};
ghost use Rattle.tla_parser.specs.declared.open.Code.TheVariants.{Part};
ghost use Rattle.tla_parser.specs.Signs.{sign};
ghost use Rattle.tla_parser.specs.inner.Derivations.{delta, form_of, given, idle, is_last, look, mark_column};
ghost use Rattle.tla_parser.specs.inner.Moves.{begin, behind_op};
ghost use Rattle.tla_parser.specs.inner.Recognition.{accepting, acted, advance, deeper, entered, folded, folded_code, folded_margin, folds, following, form_deeper, freshly, heads_on, is_fail, joined_levels, landed, least, lost, op, passes_by, placing, read_at, running, taken, wanting};
ghost use Rattle.tla_parser.specs.inner.Recognition.{followed, IsFolded, least_of, stood};

use crate::copies::copy_token;
use crate::heads::{heads, insteads};
use crate::looks::look;
use crate::moves::{Class, Construct, Mark, Next, Seen};
use crate::open::{Code, Form, Mode, Open, Operand};
use crate::operands::goes_on;
use crate::ranges::{after, hi, is_prefix, lo, prefix_hi, prefix_lo, same};
use crate::rules::{class_infix, class_of, continues, ends_as, opens, postfixes};
use crate::signs::{Role, Sign};
use std::alloc::{AllocError, Global};
use tla_lexer::Token;

/// What is open and what was read so far.
#[derive(Drop)]
pub(crate) struct Recognizer {
    /// The innermost stands last.
    pub(crate) stack: Vec<Open>,
    pub(crate) code: Vec<Code>,
    /// The least column of what may go on with the innermost junction list.
    pub(crate) margin: u64,
}

// Levels count up to 401.
fn deeper(levels: u16) -> u16
    ensures { result ≡ deeper levels }
{
    (u32::from(levels) + 1).min(401) as u16
}

fn form_deeper(construct: Construct, levels: u16) -> u16
    ensures { result ≡ form_deeper construct levels }
{
    match construct {
        Construct::Parenthesis | Construct::Instanced => levels,
        _ => deeper(levels),
    }
}

fn joined_levels(joined: bool, left: u16, right: u16) -> u16
    ensures { result ≡ joined_levels joined left right }
{
    if joined {
        left.max(deeper(right))
    } else {
        deeper(left.max(right))
    }
}

#[tactic(auto, unfolding(crate::specs::inner::Derivations::mark_column))]
fn mark_column(mark: Mark) -> u64
    ensures { result ≡ mark_column mark }
{
    match mark {
        Mark::Bullets(_, column) => u64::from(column) + 1,
        _ => 0,
    }
}

fn is_fail(next: Next) -> bool
    ensures { result ≡ is_fail next }
{
    match next {
        Next::Fail => true,
        _ => false,
    }
}

#[tactic(auto, unfolding(crate::specs::inner::Derivations::delta, crate::specs::inner::Moves::moved))]
fn idle_next(next: Next, seen: Seen) -> Next
    ensures { (t : Tok) → seen ≡ look t → result ≡ delta (idle next) t }
{
    match next {
        Next::Wants(mark) => insteads(mark, seen.sign),
        _ => Next::Fail,
    }
}

#[tactic(auto, unfolding(crate::specs::inner::Derivations::delta, crate::specs::inner::Moves::moved))]
fn head_next(next: Next, seen: Seen) -> Next
    ensures { (t : Tok) → seen ≡ look t → result ≡ delta (read_at next) t }
{
    match next {
        Next::Reads(mark) => heads(mark, seen.sign),
        _ => Next::Fail,
    }
}

#[tactic(auto, unfolding(crate::specs::inner::Derivations::delta, crate::specs::inner::Moves::moved))]
fn given_next(next: Next, class: Class, seen: Seen) -> Next
    ensures { (t : Tok) → seen ≡ look t → result ≡ delta (given next class) t }
{
    match next {
        Next::Wants(mark) | Next::Last(mark) => goes_on(mark, class, seen),
        _ => Next::Fail,
    }
}

// One more part.
fn one_more(count: usize) -> Result<usize, AllocError>
    ensures { IfOk result (λ n. n ≡ count + 1) }
{
    match count.checked_add(1) {
        Some(more) => Ok(more),
        None => Err(AllocError),
    }
}

// The innermost operator's bound on what stands behind it.
fn least(top: Option<&Open>) -> u16
    ensures { result ≡ least_of (option_copied top.entry) }
{
    match top {
        Some(Open::Before(token)) => u16::from(prefix_hi(look(token).sign)) + 1,
        Some(Open::Between(_, token)) => u16::from(hi(look(token).sign)) + 1,
        _ => 0,
    }
}

impl Recognizer {
    // What is open behind a token of a form.
    fn enter(
        &mut self,
        next: Next,
        count: usize,
        levels: u16,
        outer: u64,
    ) -> Result<Mode, AllocError>
        ensures { IfOk result (λ mode. stood mode self.new
            ≡ entered next count levels (reverse self.old.stack.items) self.old.code.items outer) }
    {
        self.margin = outer;
        let form = Form {
            next,
            count,
            levels,
            outer,
        };
        match next {
            Next::Reads(_) => {
                self.stack.push(Open::Within(form))?;
                Ok(Mode::Read)
            }
            Next::Wants(mark) | Next::Last(mark) => {
                self.stack.push(Open::Within(form))?;
                self.margin = mark_column(mark).max(outer);
                Ok(Mode::Want)
            }
            Next::Shut(construct) => {
                self.code.push(Code::Close(construct, count))?;
                let levels = form_deeper(construct, levels);
                Ok(Mode::Have(Operand {
                    class: class_of(construct),
                    levels,
                }))
            }
            Next::Fail => Ok(Mode::Stuck),
        }
    }

    // Reads a token of a form.
    fn part(&mut self, alloc: Global, token: &Token) -> Result<(), AllocError>
        ensures code { IfOk result (λ _. self.new.code.items ≡ self.old.code.items ++ Part token.now ∷ []) }
        ensures stack { IfOk result (λ _. self.new.stack.items ≡ self.old.stack.items) }
        ensures margin { IfOk result (λ _. self.new.margin ≡ self.old.margin) }
    {
        self.code.push(Code::Part(copy_token(alloc, token)?))?;
        Ok(())
    }

    // A token that begins an operand.
    fn begin(&mut self, alloc: Global, token: &Token, seen: Seen) -> Result<Mode, AllocError>
        requires { seen ≡ look token.now }
        ensures { IfOk result (λ mode. stood mode self.new
            ≡ freshly token.now (reverse self.old.stack.items) self.old.code.items self.old.margin) }
    {
        if u64::from(seen.column) < self.margin {
            return Ok(Mode::Stuck);
        }
        if is_prefix(seen.sign) {
            self.stack.push(Open::Before(copy_token(alloc, token)?))?;
            return Ok(Mode::Want);
        }
        self.part(alloc, token)?;
        let margin = self.margin;
        self.enter(begun_next(seen), 1, 0, margin)
    }

    // Reads a token where an operand is to come.
    fn want(&mut self, alloc: Global, token: &Token, seen: Seen) -> Result<Mode, AllocError>
        requires { seen ≡ look token.now }
        ensures { IfOk result (λ mode. stood mode self.new
            ≡ wanting token.now (reverse self.old.stack.items) self.old.code.items self.old.margin) }
    {
        match self.stack.pop() {
            None => self.begin(alloc, token, seen),
            Some(Open::Before(operator)) => {
                self.stack.push(Open::Before(operator))?;
                self.begin(alloc, token, seen)
            }
            Some(Open::Between(left, operator)) => {
                self.stack.push(Open::Between(left, operator))?;
                self.begin(alloc, token, seen)
            }
            Some(Open::Within(form)) => {
                let next = idle_next(form.next, seen);
                if form.outer <= u64::from(seen.column) && !is_fail(next) {
                    self.part(alloc, token)?;
                    let count = one_more(form.count)?;
                    return self.enter(next, count, form.levels, form.outer);
                }
                self.stack.push(Open::Within(form))?;
                self.begin(alloc, token, seen)
            }
        }
    }

    // Reads a token where a token of the innermost form is to come.
    fn head(&mut self, alloc: Global, token: &Token, seen: Seen) -> Result<Mode, AllocError>
        requires { seen ≡ look token.now }
        ensures { IfOk result (λ mode. stood mode self.new
            ≡ heads_on token.now (reverse self.old.stack.items) self.old.code.items self.old.margin) }
    {
        match self.stack.pop() {
            Some(Open::Within(form)) => {
                if u64::from(seen.column) < form.outer {
                    return Ok(Mode::Stuck);
                }
                self.part(alloc, token)?;
                let count = one_more(form.count)?;
                self.enter(head_next(form.next, seen), count, form.levels, form.outer)
            }
            _ => Ok(Mode::Stuck),
        }
    }

    // Reads a token behind an operand around which it folds nothing.
    fn act(
        &mut self,
        alloc: Global,
        token: &Token,
        seen: Seen,
        operand: Operand,
    ) -> Result<Mode, AllocError>
        requires { seen ≡ look token.now }
        ensures { IfOk result (λ mode. stood mode self.new
            ≡ acted token.now (after (sign token.now)) operand (reverse self.old.stack.items) self.old.code.items self.old.margin) }
    {
        match after(seen.sign) {
            Role::InfixRole => {
                if least(self.stack.as_slice().last()) > u16::from(lo(seen.sign)) {
                    return Ok(Mode::Stuck);
                }
                self.stack
                    .push(Open::Between(operand, copy_token(alloc, token)?))?;
                Ok(Mode::Want)
            }
            Role::PostfixRole => {
                self.part(alloc, token)?;
                let margin = self.margin;
                self.enter(behind_next(operand.class, seen), 2, operand.levels, margin)
            }
            Role::NoRole => Ok(Mode::Stuck),
        }
    }

    fn place(
        &mut self,
        alloc: Global,
        token: &Token,
        seen: Seen,
        operand: Operand,
    ) -> Result<Mode, AllocError>
        requires { seen ≡ look token.now }
        ensures { IfOk result (λ mode. stood mode self.new
            ≡ placing token.now operand (reverse self.old.stack.items) self.old.code.items self.old.margin) }
    {
        if u64::from(seen.column) < self.margin {
            return Ok(Mode::Stuck);
        }
        self.act(alloc, token, seen, operand)
    }

    // Reads a token behind an operand: the innermost form goes on with it, or it is an operator.
    fn land(
        &mut self,
        alloc: Global,
        token: &Token,
        seen: Seen,
        operand: Operand,
    ) -> Result<Mode, AllocError>
        requires { seen ≡ look token.now }
        ensures { IfOk result (λ mode. stood mode self.new
            ≡ landed token.now operand (reverse self.old.stack.items) self.old.code.items self.old.margin) }
    {
        match self.stack.pop() {
            None => self.place(alloc, token, seen, operand),
            Some(Open::Before(operator)) => {
                self.stack.push(Open::Before(operator))?;
                self.place(alloc, token, seen, operand)
            }
            Some(Open::Between(left, operator)) => {
                self.stack.push(Open::Between(left, operator))?;
                self.place(alloc, token, seen, operand)
            }
            Some(Open::Within(form)) => {
                let next = given_next(form.next, operand.class, seen);
                if form.outer <= u64::from(seen.column) && !is_fail(next) {
                    self.part(alloc, token)?;
                    let count = one_more(one_more(form.count)?)?;
                    return self.enter(next, count, form.levels.max(operand.levels), form.outer);
                }
                self.stack.push(Open::Within(form))?;
                self.place(alloc, token, seen, operand)
            }
        }
    }

    // What is innermost is whole with the operand.
    fn close(&mut self, top: Open, operand: Operand) -> Result<Operand, AllocError>
        ensures operand { IfOk result (λ w. w ≡ folded top operand) }
        ensures code { IfOk result (λ _. self.new.code.items ≡ self.old.code.items ++ folded_code top ∷ []) }
        ensures margin { IfOk result (λ _. self.new.margin ≡ folded_margin top self.old.margin) }
        ensures stack { IfOk result (λ _. self.new.stack.items ≡ self.old.stack.items) }
    {
        match top {
            Open::Before(operator) => {
                self.code.push(Code::Prefix(operator))?;
                Ok(Operand {
                    class: Class::Other,
                    levels: deeper(operand.levels),
                })
            }
            Open::Between(left, operator) => {
                let sign = look(&operator).sign;
                let joined = continues(left.class, sign);
                self.code.push(Code::Infix(operator, joined))?;
                let levels = joined_levels(joined, left.levels, operand.levels);
                Ok(Operand {
                    class: class_infix(left.class, sign),
                    levels,
                })
            }
            Open::Within(form) => {
                let count = one_more(form.count)?;
                self.code.push(Code::Close(form_of(form.next), count))?;
                self.margin = form.outer;
                Ok(Operand {
                    class: Class::Other,
                    levels: deeper(form.levels.max(operand.levels)),
                })
            }
        }
    }

    // Where the token ends what is innermost, this is folded, and the operand is what it makes.
    fn fold(
        &mut self,
        token: &Token,
        seen: Seen,
        operand: Operand,
    ) -> Result<Option<Operand>, AllocError>
        requires { seen ≡ look token.now }
        ensures { IfOk result (λ r. IsFolded r token.now operand self.old self.new) }
    {
        match self.stack.pop() {
            None => Ok(None),
            Some(top) => {
                if folds(&top, operand, seen, self.margin) {
                    Ok(Some(self.close(top, operand)?))
                } else {
                    self.stack.push(top)?;
                    Ok(None)
                }
            }
        }
    }

    // Reads a token behind an operand.
    fn follow(
        &mut self,
        alloc: Global,
        token: &Token,
        seen: Seen,
        operand: Operand,
    ) -> Result<Mode, AllocError>
        requires { seen ≡ look token.now }
        ensures { IfOk result (λ mode. stood mode self.new ≡ followed token.now operand self.old) }
    {
        let mut operand = operand;
        while let Some(next) = self.fold(token, seen, operand)? {
            operand = next;
        }
        self.land(alloc, token, seen, operand)
    }

    /// Reads the next token.
    pub(crate) fn step(
        &mut self,
        alloc: Global,
        mode: Mode,
        token: &Token,
    ) -> Result<Mode, AllocError>
        ensures { IfOk result (λ next. stood next self.new ≡ advance token.now (stood mode self.old)) }
    {
        let seen = look(token);
        match mode {
            Mode::Want => self.want(alloc, token, seen),
            Mode::Have(operand) => self.follow(alloc, token, seen, operand),
            Mode::Read => self.head(alloc, token, seen),
            Mode::Stuck => Ok(Mode::Stuck),
        }
    }
}

// Whether the token stands left of what is open, or is no operator, or takes the operator on top.
fn passes_by(seen: Seen, margin: u64, takes: bool) -> bool
    ensures { (t : Tok) → seen ≡ look t → result ≡ passes_by t margin takes }
{
    u64::from(seen.column) < margin || !is_operator(seen.sign) || takes
}

fn is_operator(sign: Sign) -> bool
    ensures { result ≡ op (after sign) }
{
    match after(sign) {
        Role::NoRole => false,
        _ => true,
    }
}

// Whether the token ends what is innermost behind the operand.
fn folds(top: &Open, operand: Operand, seen: Seen, margin: u64) -> bool
    ensures { (t : Tok) → seen ≡ look t → result ≡ folds t operand top.now margin }
{
    match top {
        Open::Before(operator) => passes_by(
            seen,
            margin,
            hi(seen.sign) < prefix_lo(look(operator).sign),
        ),
        Open::Between(_, operator) => {
            let sign = look(operator).sign;
            passes_by(
                seen,
                margin,
                hi(seen.sign) < lo(sign) || same(sign, seen.sign),
            )
        }
        Open::Within(form) => {
            let next = given_next(form.next, operand.class, seen);
            let accepts = form.outer <= u64::from(seen.column) && !is_fail(next);
            !accepts && is_last(form.next) && passes_by(seen, margin, false)
        }
    }
}

fn is_last(next: Next) -> bool
    ensures { result ≡ is_last next }
{
    match next {
        Next::Last(_) => true,
        _ => false,
    }
}

fn form_of(next: Next) -> Construct
    ensures { result ≡ form_of next }
{
    match next {
        Next::Shut(construct) => construct,
        Next::Last(mark) => ends_as(mark),
        _ => Construct::Junction,
    }
}

#[tactic(auto, unfolding(crate::specs::inner::Derivations::delta, crate::specs::inner::Moves::moved))]
fn begun_next(seen: Seen) -> Next
    ensures { (t : Tok) → seen ≡ look t → result ≡ delta begin t }
{
    opens(seen)
}

#[tactic(auto, unfolding(crate::specs::inner::Derivations::delta, crate::specs::inner::Moves::moved))]
fn behind_next(class: Class, seen: Seen) -> Next
    ensures { (t : Tok) → seen ≡ look t → result ≡ delta (behind_op class) t }
{
    postfixes(class, seen.sign)
}
