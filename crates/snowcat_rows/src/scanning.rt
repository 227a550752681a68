// The reading of a type's text byte by byte.
ghost use Rattle.std.specs.Prelude.{◌≡◌, ◌&&◌, [], ◌∷◌, ◌++◌, Some, IfOk, if◌then◌else◌, MatchResult, option_copied, option_map, reverse};
ghost use Rattle.snowcat_rows.specs.TypeTexts.{IsBadAt};
ghost use Rattle.snowcat_rows.specs.inner.Machine.{begin_piece, behind, ended, finished, followed, is_front, next_at, started, viable, word_goes};
ghost use Rattle.snowcat_rows.specs.inner.Readers.{AreMarks, left, scan_left, scan_of, begin_takes, called_takes, closes, closes_inner, end_takes, is_arrow, is_open, is_result, opens_parenthesis, state_of, symbol_goes, takes};

use crate::marks::{Frame, Mark, Mode, Sign};
use crate::pieces::{are_word, is_blank, is_front, type_front};
use crate::reader::{Reader, can_end, can_name};
use std::alloc::{AllocError, Global};
use std::mem;
use tla_values::{List, Text};

/// A reader, and the piece that has begun.
#[derive(Drop)]
pub(crate) struct Scanner {
    pub(crate) reader: Reader,
    pub(crate) piece: Vec<u8>,
}

fn closes(sign: Sign, frame: &Frame) -> bool
    ensures { result ≡ closes sign frame.now }
{
    match sign {
        Sign::Comma => match frame {
            Frame::Tuple(_) | Frame::Paren(_) | Frame::Field(_, _) => true,
            _ => false,
        },
        Sign::Close => match frame {
            Frame::Set | Frame::Seq | Frame::Paren(_) => true,
            _ => false,
        },
        Sign::Right => match frame {
            Frame::Tuple(_) => true,
            _ => false,
        },
        Sign::Finish => match frame {
            Frame::Field(_, _) => true,
            _ => false,
        },
        _ => false,
    }
}

fn is_arrow(frame: &Frame) -> bool
    ensures { result ≡ is_arrow frame.now }
{
    match frame {
        Frame::Function | Frame::Operator => true,
        _ => false,
    }
}

// Whether the innermost frame that is no arrow's is closed so, or goes on so.
fn closes_inner(sign: Sign, frames: &[Frame]) -> bool
    ensures { result ≡ closes_inner sign (reverse frames.now) }
{
    for at in (0..frames.len()).rev() {
        let frame = &frames[at];
        if !is_arrow(frame) {
            return closes(sign, frame);
        }
    }
    false
}

fn opens_parenthesis(top: Option<&Frame>) -> bool
    ensures { result ≡ opens_parenthesis (option_copied top.entry) }
{
    match top {
        Some(Frame::Paren(false)) => true,
        _ => false,
    }
}

// Whether the symbol may come behind the name of a field, or behind a row variable.
fn called_takes(top: Option<&Frame>, rows: &[(Text, List<Text>)], sign: Sign, name: &Text) -> bool
    ensures { result ≡ called_takes (option_copied top.entry) rows.now sign name.now }
{
    match top {
        Some(Frame::Fields(names)) => match sign {
            Sign::Colon => can_name(names.as_slice(), name.bytes()),
            Sign::Finish => can_end(rows, names.as_slice(), name.bytes()),
            _ => false,
        },
        _ => false,
    }
}

fn end_takes(frames: &[Frame], single: bool, sign: Sign) -> bool
    ensures { result ≡ end_takes (reverse frames.now) single sign }
{
    match sign {
        Sign::Arrow => true,
        Sign::Result => single,
        _ => closes_inner(sign, frames),
    }
}

fn begin_takes(top: Option<&Frame>, sign: Sign) -> bool
    ensures { result ≡ begin_takes (option_copied top.entry) sign }
{
    match sign {
        Sign::Open | Sign::Left | Sign::Begin => true,
        Sign::Close => opens_parenthesis(top),
        _ => false,
    }
}

fn is_open(sign: Sign) -> bool
    ensures { result ≡ is_open sign }
{
    match sign {
        Sign::Open => true,
        _ => false,
    }
}

fn is_result(sign: Sign) -> bool
    ensures { result ≡ is_result sign }
{
    match sign {
        Sign::Result => true,
        _ => false,
    }
}

impl Reader {
    // The marks, where what was read is whole.
    fn ended(self) -> Result<Option<Vec<Mark>>, AllocError>
        ensures { IfOk result (λ ms. option_map (λ v. v.items) ms ≡ ended (state_of self)) }
    {
        let mut reader = self;
        match reader.mode {
            Mode::Ended(_) => {
                reader.unwind()?;
                if reader.frames.is_empty() {
                    Ok(Some(reader.marks))
                } else {
                    Ok(None)
                }
            }
            _ => Ok(None),
        }
    }

    // Whether the symbol may come.
    fn takes(&self, sign: Sign) -> bool
        ensures { result ≡ takes self.now sign }
    {
        let top = self.frames.as_slice().last();
        match &self.mode {
            Mode::Begins => begin_takes(top, sign),
            Mode::Headed => is_open(sign),
            Mode::Name => false,
            Mode::Called(name) => called_takes(top, self.rows.as_slice(), sign, name),
            Mode::Ended(single) => end_takes(self.frames.as_slice(), *single, sign),
            Mode::Closed => is_result(sign),
        }
    }

    fn may_be(&self, piece: &[u8], symbol: &[u8], sign: Sign) -> bool
        ensures { result ≡ (is_front piece.now symbol.now && takes self.now sign) }
    {
        is_front(piece, symbol) && self.takes(sign)
    }

    // Whether a symbol that may come begins so.
    fn symbol_goes(&self, piece: &[u8]) -> bool
        ensures { result ≡ symbol_goes self.now piece.now }
    {
        self.may_be(piece, b"->", Sign::Arrow)
            || self.may_be(piece, b"=>", Sign::Result)
            || self.may_be(piece, b",", Sign::Comma)
            || self.may_be(piece, b":", Sign::Colon)
            || self.may_be(piece, b"(", Sign::Open)
            || self.may_be(piece, b")", Sign::Close)
            || self.may_be(piece, b"<<", Sign::Left)
            || self.may_be(piece, b">>", Sign::Right)
            || self.may_be(piece, b"{", Sign::Begin)
            || self.may_be(piece, b"}", Sign::Finish)
    }

    fn word_goes(&self, piece: &[u8]) -> bool
        ensures { result ≡ word_goes self.now.mode piece.now }
    {
        match &self.mode {
            Mode::Begins => type_front(piece),
            Mode::Name => are_word(piece),
            _ => false,
        }
    }

    // Whether a piece that may come begins so.
    #[tactic(auto, using(crate::proofs::Takes::viable_is))]
    fn is_viable(&self, piece: &[u8]) -> bool
        ensures { result ≡ viable (state_of self.now) piece.now }
    {
        self.symbol_goes(piece) || self.word_goes(piece)
    }
}

impl Scanner {
    fn new(alloc: Global) -> Scanner
        ensures { Some (scan_of result) ≡ started }
    {
        Scanner {
            reader: Reader {
                mode: Mode::Begins,
                frames: Vec::new(alloc),
                rows: Vec::new(alloc),
                marks: Vec::new(alloc),
            },
            piece: Vec::new(alloc),
        }
    }

    // Reads a byte behind whole pieces; false where it may not come.
    fn begin(&mut self, byte: u8) -> Result<bool, AllocError>
        requires { self.old.piece.items ≡ [] }
        ensures { IfOk result (λ ok. scan_left ok self.new
            ≡ begin_piece (state_of self.old.reader) byte) }
    {
        if is_blank(byte) {
            return Ok(true);
        }
        self.piece.push(byte)?;
        Ok(self.reader.is_viable(self.piece.as_slice()))
    }

    // Reads the piece that has begun; false where it may not come.
    fn complete(&mut self, alloc: Global) -> Result<bool, AllocError>
        ensures read { IfOk result (λ ok. left ok self.new.reader
            ≡ behind (state_of self.old.reader) self.old.piece.items) }
        ensures piece { IfOk result (λ _. self.new.piece.items ≡ []) }
    {
        let piece = mem::replace(&mut self.piece, Vec::new(alloc));
        self.reader.read(alloc, Text::from_vec(piece))
    }

    // Whether the piece that has begun goes on with the byte; then it does.
    fn goes_on(&mut self, byte: u8) -> Result<bool, AllocError>
        ensures test { IfOk result (λ on. on
            ≡ viable (state_of self.old.reader) (self.old.piece.items ++ byte ∷ [])) }
        ensures reader { IfOk result (λ _. self.new.reader ≡ self.old.reader) }
        ensures piece { IfOk result (λ on. self.new.piece.items
            ≡ (if on then self.old.piece.items ++ byte ∷ [] else self.old.piece.items)) }
    {
        let len = self.piece.len();
        self.piece.push(byte)?;
        if self.reader.is_viable(self.piece.as_slice()) {
            return Ok(true);
        }
        self.piece.truncate(len);
        Ok(false)
    }

    // Reads a byte behind whole pieces and one that has begun; false where it may not come.
    fn follow(&mut self, alloc: Global, byte: u8) -> Result<bool, AllocError>
        ensures { IfOk result (λ ok. scan_left ok self.new
            ≡ followed (state_of self.old.reader) self.old.piece.items byte) }
    {
        if self.goes_on(byte)? {
            return Ok(true);
        }
        if self.complete(alloc)? {
            self.begin(byte)
        } else {
            Ok(false)
        }
    }

    // Reads the next byte; false where it may not come.
    fn next(&mut self, alloc: Global, byte: u8) -> Result<bool, AllocError>
        ensures { IfOk result (λ ok. scan_left ok self.new
            ≡ next_at (state_of self.old.reader) self.old.piece.items byte) }
    {
        if self.piece.is_empty() {
            self.begin(byte)
        } else {
            self.follow(alloc, byte)
        }
    }

    // The marks, where the whole text was a type's.
    fn finish(self, alloc: Global) -> Result<Option<Vec<Mark>>, AllocError>
        ensures { IfOk result (λ ms. option_map (λ v. v.items) ms ≡ finished (scan_of self)) }
    {
        let mut scanner = self;
        if scanner.piece.is_empty() {
            return scanner.reader.ended();
        }
        if scanner.complete(alloc)? {
            scanner.reader.ended()
        } else {
            Ok(None)
        }
    }
}

/// The marks of the type whose text this is, or else the place of the first bad byte.
pub(crate) fn scan(alloc: Global, text: &[u8]) -> Result<Result<Vec<Mark>, usize>, AllocError>
    ensures { IfOk result (λ r. MatchResult r (λ ms. AreMarks text.now ms.items) (IsBadAt text.now)) }
{
    let mut scanner = Scanner::new(alloc);
    for at in 0..text.len() {
        if !scanner.next(alloc, text[at])? {
            return Ok(Err(at));
        }
    }
    match scanner.finish(alloc)? {
        Some(marks) => Ok(Ok(marks)),
        None => Ok(Err(text.len())),
    }
}
