// The reading of the pieces of a type's text, with a stack of its own.
ghost use Rattle.std.specs.Prelude.{◌≡◌, ◌<◌, ◌++◌, ◌∷◌, [], ℕ, Some, true, length, reverse, IfOk, if◌then◌else◌};
ghost use Rattle.std.specs.Option.{is_some};
ghost use Rattle.snowcat_rows.specs.inner.Machine.{at_begin, at_called, at_closed, at_end, at_head, at_mode, at_name, begin_alias, begin_close, begin_word, behind, behind_first, called_colon, called_end, can_end, can_name, gather, name_word, on_close, on_comma, on_finish, on_right, row_fits, unwind, word_mark};
ghost use Rattle.snowcat_rows.specs.inner.Readers.{left, state_at, state_of, unwound};

use crate::marks::{Frame, Mark, Mode, Sign};
use crate::pieces::{is_among, is_name, is_type_name, is_variable, same_names, sign_of};
use std::alloc::{AllocError, Global};
use std::mem;
use tla_values::{List, Text, copy_text, copy_texts};

/// What is open and what was read so far.
#[derive(Drop)]
pub(crate) struct Reader {
    pub(crate) mode: Mode,
    /// The innermost stands last.
    pub(crate) frames: Vec<Frame>,
    /// The names after which each row variable stands.
    pub(crate) rows: Vec<(Text, List<Text>)>,
    pub(crate) marks: Vec<Mark>,
}

fn gather(further: bool) -> Mark
    ensures { result ≡ gather further }
{
    if further { Mark::Join } else { Mark::One }
}

// The word may name a field behind these.
pub(crate) fn can_name(names: &[Text], word: &[u8]) -> bool
    ensures { result ≡ can_name names.now word.now }
{
    is_name(word) && !is_among(word, names)
}

fn row_fits(rows: &[(Text, List<Text>)], word: &[u8], names: &[Text]) -> bool
    ensures { result ≡ row_fits rows.now word.now names.now }
{
    rows.iter().all(|row| !(row.0.bytes() == word) || same_names(row.1.as_slice(), names))
}

// The word may be the row variable behind these.
pub(crate) fn can_end(rows: &[(Text, List<Text>)], names: &[Text], word: &[u8]) -> bool
    ensures { result ≡ can_end rows.now names.now word.now }
{
    !names.is_empty() && is_variable(word) && row_fits(rows, word, names)
}

// The type of one word, and what it is.
fn word_mark(word: Text) -> Option<Mark>
    ensures { result ≡ word_mark word }
{
    if word.bytes() == b"Bool".as_slice() {
        Some(Mark::Bool)
    } else if word.bytes() == b"Int".as_slice() {
        Some(Mark::Int)
    } else if word.bytes() == b"Str".as_slice() {
        Some(Mark::Str)
    } else if is_type_name(word.bytes()) {
        Some(Mark::Named(word))
    } else if is_variable(word.bytes()) {
        Some(Mark::Var(word))
    } else {
        None
    }
}

impl Reader {
    fn open(&mut self, mode: Mode, frame: Frame) -> Result<bool, AllocError>
        ensures { IfOk result (λ ok. left ok self.new ≡ Some (state_at mode (frame ∷ reverse self.old.frames.items) self.old.rows.items self.old.marks.items)) }
    {
        self.frames.push(frame)?;
        self.mode = mode;
        Ok(true)
    }

    fn leave(&mut self, mode: Mode, mark: Mark) -> Result<bool, AllocError>
        ensures { IfOk result (λ ok. left ok self.new ≡ Some (state_at mode (reverse self.old.frames.items) self.old.rows.items (self.old.marks.items ++ mark ∷ []))) }
    {
        self.marks.push(mark)?;
        self.mode = mode;
        Ok(true)
    }

    fn begin_word(&mut self, word: Text) -> Result<bool, AllocError>
        ensures { IfOk result (λ ok. left ok self.new
            ≡ begin_word word (reverse self.old.frames.items) self.old.rows.items self.old.marks.items) }
    {
        if word.bytes() == b"Set".as_slice() {
            return self.open(Mode::Headed, Frame::Set);
        }
        if word.bytes() == b"Seq".as_slice() {
            return self.open(Mode::Headed, Frame::Seq);
        }
        match word_mark(word) {
            Some(mark) => self.leave(Mode::Ended(false), mark),
            None => Ok(false),
        }
    }

    fn begin_alias(&mut self, name: Text) -> Result<bool, AllocError>
        ensures { IfOk result (λ ok. left ok self.new
            ≡ begin_alias name (reverse self.old.frames.items) self.old.rows.items self.old.marks.items) }
    {
        if is_name(name.bytes()) {
            self.leave(Mode::Ended(false), Mark::Alias(name))
        } else {
            Ok(false)
        }
    }

    fn begin_close(&mut self) -> Result<bool, AllocError>
        ensures { IfOk result (λ ok. left ok self.new
            ≡ begin_close (reverse self.old.frames.items) self.old.rows.items self.old.marks.items) }
    {
        match self.frames.pop() {
            Some(Frame::Paren(false)) => self.leave(Mode::Closed, Mark::Nothing),
            _ => Ok(false),
        }
    }

    // Reads a piece where a type begins.
    fn begin(&mut self, alloc: Global, sign: Sign, piece: Text) -> Result<bool, AllocError>
        ensures { IfOk result (λ ok. left ok self.new
            ≡ at_begin sign piece (reverse self.old.frames.items) self.old.rows.items self.old.marks.items) }
    {
        match sign {
            Sign::Word => self.begin_word(piece),
            Sign::Alias => {
                let name = behind_first(alloc, piece.bytes())?;
                self.begin_alias(name)
            }
            Sign::Open => self.open(Mode::Begins, Frame::Paren(false)),
            Sign::Left => self.open(Mode::Begins, Frame::Tuple(false)),
            Sign::Begin => self.open(Mode::Name, Frame::Fields(List::new(alloc))),
            Sign::Close => self.begin_close(),
            _ => Ok(false),
        }
    }

    fn head(&mut self, sign: Sign) -> Result<bool, AllocError>
        ensures { IfOk result (λ ok. left ok self.new
            ≡ at_head sign (reverse self.old.frames.items) self.old.rows.items self.old.marks.items) }
    {
        match sign {
            Sign::Open => {
                self.mode = Mode::Begins;
                Ok(true)
            }
            _ => Ok(false),
        }
    }

    fn name_word(&mut self, word: Text) -> Result<bool, AllocError>
        ensures { IfOk result (λ ok. left ok self.new
            ≡ name_word word (reverse self.old.frames.items) self.old.rows.items self.old.marks.items) }
    {
        match self.frames.pop() {
            Some(Frame::Fields(names)) => {
                if can_name(names.as_slice(), word.bytes())
                    || can_end(self.rows.as_slice(), names.as_slice(), word.bytes())
                {
                    self.open(Mode::Called(word), Frame::Fields(names))
                } else {
                    Ok(false)
                }
            }
            _ => Ok(false),
        }
    }

    // Reads a piece where the name of a field, or a row variable, is to come.
    fn name(&mut self, sign: Sign, piece: Text) -> Result<bool, AllocError>
        ensures { IfOk result (λ ok. left ok self.new
            ≡ at_name sign piece (reverse self.old.frames.items) self.old.rows.items self.old.marks.items) }
    {
        match sign {
            Sign::Word => self.name_word(piece),
            _ => Ok(false),
        }
    }

    fn called_colon(&mut self, name: Text) -> Result<bool, AllocError>
        ensures { IfOk result (λ ok. left ok self.new
            ≡ called_colon name (reverse self.old.frames.items) self.old.rows.items self.old.marks.items) }
    {
        match self.frames.pop() {
            Some(Frame::Fields(names)) => {
                if can_name(names.as_slice(), name.bytes()) {
                    self.open(Mode::Begins, Frame::Field(names, name))
                } else {
                    Ok(false)
                }
            }
            _ => Ok(false),
        }
    }

    fn called_end(&mut self, alloc: Global, name: Text) -> Result<bool, AllocError>
        ensures { IfOk result (λ ok. left ok self.new
            ≡ called_end name (reverse self.old.frames.items) self.old.rows.items self.old.marks.items) }
    {
        match self.frames.pop() {
            Some(Frame::Fields(names)) => {
                if can_end(self.rows.as_slice(), names.as_slice(), name.bytes()) {
                    let row = copy_text(alloc, &name)?;
                    let before = copy_texts(alloc, &names)?;
                    self.rows.push((row, before))?;
                    self.leave(Mode::Ended(false), Mark::Record(names, Some(name)))
                } else {
                    Ok(false)
                }
            }
            _ => Ok(false),
        }
    }

    // Reads a piece behind the name of a field, or behind a row variable.
    fn called(&mut self, alloc: Global, sign: Sign, name: Text) -> Result<bool, AllocError>
        ensures { IfOk result (λ ok. left ok self.new
            ≡ at_called sign name (reverse self.old.frames.items) self.old.rows.items self.old.marks.items) }
    {
        match sign {
            Sign::Colon => self.called_colon(name),
            Sign::Finish => self.called_end(alloc, name),
            _ => Ok(false),
        }
    }

    fn closed(&mut self, sign: Sign) -> Result<bool, AllocError>
        ensures { IfOk result (λ ok. left ok self.new
            ≡ at_closed sign (reverse self.old.frames.items) self.old.rows.items self.old.marks.items) }
    {
        match sign {
            Sign::Result => self.open(Mode::Begins, Frame::Operator),
            _ => Ok(false),
        }
    }

    fn on_comma(&mut self) -> Result<bool, AllocError>
        ensures { IfOk result (λ ok. left ok self.new
            ≡ on_comma (reverse self.old.frames.items) self.old.rows.items self.old.marks.items) }
    {
        match self.frames.pop() {
            Some(Frame::Tuple(further)) => {
                self.marks.push(gather(further))?;
                self.open(Mode::Begins, Frame::Tuple(true))
            }
            Some(Frame::Paren(further)) => {
                self.marks.push(gather(further))?;
                self.open(Mode::Begins, Frame::Paren(true))
            }
            Some(Frame::Field(names, name)) => {
                self.marks.push(gather(!names.is_empty()))?;
                let names = with_name(names, name)?;
                self.open(Mode::Name, Frame::Fields(names))
            }
            _ => Ok(false),
        }
    }

    fn on_close(&mut self) -> Result<bool, AllocError>
        ensures { IfOk result (λ ok. left ok self.new
            ≡ on_close (reverse self.old.frames.items) self.old.rows.items self.old.marks.items) }
    {
        match self.frames.pop() {
            Some(Frame::Set) => self.leave(Mode::Ended(false), Mark::Set),
            Some(Frame::Seq) => self.leave(Mode::Ended(false), Mark::Seq),
            Some(Frame::Paren(false)) => {
                self.mode = Mode::Ended(true);
                Ok(true)
            }
            Some(Frame::Paren(true)) => self.leave(Mode::Closed, Mark::Join),
            _ => Ok(false),
        }
    }

    fn on_right(&mut self) -> Result<bool, AllocError>
        ensures { IfOk result (λ ok. left ok self.new
            ≡ on_right (reverse self.old.frames.items) self.old.rows.items self.old.marks.items) }
    {
        match self.frames.pop() {
            Some(Frame::Tuple(further)) => {
                self.marks.push(gather(further))?;
                self.leave(Mode::Ended(false), Mark::Tuple)
            }
            _ => Ok(false),
        }
    }

    fn on_finish(&mut self) -> Result<bool, AllocError>
        ensures { IfOk result (λ ok. left ok self.new
            ≡ on_finish (reverse self.old.frames.items) self.old.rows.items self.old.marks.items) }
    {
        match self.frames.pop() {
            Some(Frame::Field(names, name)) => {
                self.marks.push(gather(!names.is_empty()))?;
                let names = with_name(names, name)?;
                self.leave(Mode::Ended(false), Mark::Record(names, None))
            }
            _ => Ok(false),
        }
    }

    // Where what stands left of an arrow is open, it is whole with what stands right of it.
    fn unwind_one(&mut self) -> Result<bool, AllocError>
        ensures frames { IfOk result (λ more. (if more then unwound self.new else (reverse self.new.frames.items, self.new.marks.items)) ≡ unwound self.old) }
        ensures rows { IfOk result (λ _. self.new.rows.items ≡ self.old.rows.items) }
        ensures shorter { IfOk result (λ more. more
            ≡ true → length self.new.frames.items < length self.old.frames.items) }
    {
        match self.frames.pop() {
            Some(Frame::Function) => {
                self.marks.push(Mark::Function)?;
                Ok(true)
            }
            Some(Frame::Operator) => {
                self.marks.push(Mark::Operator)?;
                Ok(true)
            }
            Some(frame) => {
                self.frames.push(frame)?;
                Ok(false)
            }
            None => Ok(false),
        }
    }

    pub(crate) fn unwind(&mut self) -> Result<(), AllocError>
        ensures frames { IfOk result (λ _. (reverse self.new.frames.items, self.new.marks.items)
            ≡ unwound self.old) }
        ensures rows { IfOk result (λ _. self.new.rows.items ≡ self.old.rows.items) }
    {
        while self.unwind_one()? {}
        Ok(())
    }

    // Reads a piece behind a type.
    fn end(&mut self, single: bool, sign: Sign) -> Result<bool, AllocError>
        ensures { IfOk result (λ ok. left ok self.new
            ≡ at_end single sign (reverse self.old.frames.items) self.old.rows.items self.old.marks.items) }
    {
        match sign {
            Sign::Arrow => self.open(Mode::Begins, Frame::Function),
            Sign::Result => {
                if single {
                    self.marks.push(Mark::One)?;
                    self.open(Mode::Begins, Frame::Operator)
                } else {
                    Ok(false)
                }
            }
            Sign::Comma => {
                self.unwind()?;
                self.on_comma()
            }
            Sign::Close => {
                self.unwind()?;
                self.on_close()
            }
            Sign::Right => {
                self.unwind()?;
                self.on_right()
            }
            Sign::Finish => {
                self.unwind()?;
                self.on_finish()
            }
            _ => Ok(false),
        }
    }

    /// Reads a piece; false where it may not come.
    pub(crate) fn read(&mut self, alloc: Global, piece: Text) -> Result<bool, AllocError>
        ensures { IfOk result (λ ok. left ok self.new ≡ behind (state_of self.old) piece) }
    {
        let sign = sign_of(piece.bytes());
        match mem::replace(&mut self.mode, Mode::Begins) {
            Mode::Begins => self.begin(alloc, sign, piece),
            Mode::Headed => self.head(sign),
            Mode::Name => self.name(sign, piece),
            Mode::Called(name) => self.called(alloc, sign, name),
            Mode::Ended(single) => self.end(single, sign),
            Mode::Closed => self.closed(sign),
        }
    }
}

// The names and one more.
fn with_name(names: List<Text>, name: Text) -> Result<List<Text>, AllocError>
    ensures { IfOk result (λ r. r ≡ names ++ name ∷ []) }
{
    let mut items = names.into_vec();
    items.push(name)?;
    Ok(List::from_vec(items))
}

fn behind_first(alloc: Global, bytes: &[u8]) -> Result<Text, AllocError>
    ensures { IfOk result (λ r. r ≡ behind_first bytes.now) }
{
    match bytes {
        [] => Ok(Text::from_vec(Vec::new(alloc))),
        [_, ..] => {
            let rest = Vec::from_slice(alloc, &bytes[1..])?;
            Ok(Text::from_vec(rest))
        }
    }
}
