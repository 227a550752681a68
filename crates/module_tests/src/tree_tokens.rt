// The pieces of a tree's text, as `trees` compares them with what expansion gives.
//
// A node is `(Op [details] {names} operands)`, a leaf a word. A word may end with its place: `%L:C` in the root's file, or
// `%F:L:C` in the file of this number.
use std::alloc::{AllocError, Global};
use tla_meaning::Place;

#[derive(Drop)]
pub(crate) enum Token {
    Open(Vec<u8>, Option<Place>),
    Close,
    Details(Vec<u8>),
    Names(Vec<u8>),
    Leaf(Vec<u8>, Option<Place>),
}

// Where the next byte stands.
#[derive(Clone, Copy, Drop)]
enum Within {
    Blank,
    // The word of a node that was opened.
    Opened,
    Word,
    Text,
    Details,
    Names,
}

#[derive(Drop)]
struct Pieces {
    alloc: Global,
    tokens: Vec<Token>,
    word: Vec<u8>,
    within: Within,
}

/// The pieces of a text.
pub(crate) fn tokens_of(alloc: Global, text: &[u8]) -> Result<Vec<Token>, AllocError> {
    let mut pieces = Pieces {
        alloc,
        tokens: Vec::new(alloc),
        word: Vec::new(alloc),
        within: Within::Blank,
    };
    let tokens = pieces.read(text);
    drop(pieces);
    tokens
}

// A word, or the word of a node that was opened.
fn placed_token(alloc: Global, word: &[u8], opened: bool) -> Result<Token, AllocError> {
    let (word, place) = placed(alloc, word)?;
    if opened {
        Ok(Token::Open(word, place))
    } else {
        Ok(Token::Leaf(word, place))
    }
}

// The token of a word that ends.
fn token_of(alloc: Global, within: Within, word: Vec<u8>) -> Result<Option<Token>, AllocError> {
    match within {
        Within::Blank => Ok(None),
        Within::Details => Ok(Some(Token::Details(word))),
        Within::Names => Ok(Some(Token::Names(word))),
        Within::Opened => Ok(Some(placed_token(alloc, word.as_slice(), true)?)),
        Within::Word | Within::Text => Ok(Some(placed_token(alloc, word.as_slice(), false)?)),
    }
}

impl Pieces {
    fn read(&mut self, text: &[u8]) -> Result<Vec<Token>, AllocError> {
        for byte in text {
            self.add(*byte)?;
        }
        self.end_word()?;
        Ok(std::mem::replace(&mut self.tokens, Vec::new(self.alloc)))
    }

    fn add(&mut self, byte: u8) -> Result<(), AllocError> {
        match self.within {
            Within::Blank | Within::Opened | Within::Word => self.add_outside(byte),
            Within::Text => self.add_text(byte),
            Within::Details => self.add_until(byte, b']'),
            Within::Names => self.add_until(byte, b'}'),
        }
    }

    fn add_outside(&mut self, byte: u8) -> Result<(), AllocError> {
        match byte {
            b' ' | b'\n' => self.end_word(),
            b'(' => self.begin(Within::Opened),
            b'[' => self.begin(Within::Details),
            b'{' => self.begin(Within::Names),
            b')' => {
                self.end_word()?;
                Ok(self.tokens.push(Token::Close)?)
            }
            b'"' => {
                self.within = Within::Text;
                Ok(self.word.push(byte)?)
            }
            _ => {
                if matches!(self.within, Within::Blank) {
                    self.within = Within::Word;
                }
                Ok(self.word.push(byte)?)
            }
        }
    }

    fn begin(&mut self, within: Within) -> Result<(), AllocError> {
        self.end_word()?;
        self.within = within;
        Ok(())
    }

    fn add_text(&mut self, byte: u8) -> Result<(), AllocError> {
        if byte == b'"' {
            self.within = Within::Word;
        }
        Ok(self.word.push(byte)?)
    }

    fn add_until(&mut self, byte: u8, end: u8) -> Result<(), AllocError> {
        if byte == end {
            self.end_word()
        } else {
            Ok(self.word.push(byte)?)
        }
    }

    fn end_word(&mut self) -> Result<(), AllocError> {
        let word = std::mem::replace(&mut self.word, Vec::new(self.alloc));
        if let Some(token) = token_of(self.alloc, self.within, word)? {
            self.within = Within::Blank;
            self.tokens.push(token)?;
        }
        Ok(())
    }
}

// The word without its place, and the place.
fn placed(alloc: Global, word: &[u8]) -> Result<(Vec<u8>, Option<Place>), AllocError> {
    let mut parts = word.split(|byte| *byte == b'%');
    let front = Vec::from_slice(alloc, parts.next().unwrap_or(word))?;
    match parts.next() {
        Some(place) => Ok((front, Some(place_of(place)))),
        None => Ok((front, None)),
    }
}

// `L:C` or `F:L:C`.
fn place_of(text: &[u8]) -> Place {
    let mut numbers = text.split(|byte| *byte == b':');
    let first = number(numbers.next());
    let second = number(numbers.next());
    match numbers.next() {
        Some(third) => Place {
            file: first,
            line: second,
            col: number(Some(third)),
        },
        None => Place {
            file: 0,
            line: first,
            col: second,
        },
    }
}

fn number(digits: Option<&[u8]>) -> u32 {
    let mut number: u32 = 0;
    for digit in digits.unwrap_or(b"") {
        number = number
            .wrapping_mul(10)
            .wrapping_add(u32::from(*digit))
            .wrapping_sub(48);
    }
    number
}
