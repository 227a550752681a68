// Trees in prefix notation.
use crate::words::operator;
use std::alloc::{AllocError, Global};
use std::mem;
use tla_meaning::{Expr, Op, Place};
use tla_values::{List, Text};

// A node that is not closed yet.
#[derive(Drop)]
struct Node {
    column: u32,
    word: Vec<u8>,
    names: Vec<Text>,
    args: Vec<Expr>,
}

// The open nodes, the innermost last; the word so far, and the column behind it so far.
#[derive(Drop)]
struct Reader {
    alloc: Global,
    open: Vec<Node>,
    word: Vec<u8>,
    column: Option<u32>,
    in_names: bool,
}

// A place on the first line.
pub(crate) fn place(col: u32) -> Place {
    Place {
        file: 0,
        line: 1,
        col,
    }
}

// A tree without children, at this column.
pub(crate) fn leaf(alloc: Global, op: Op, column: u32) -> Expr {
    Expr {
        place: place(column),
        op,
        args: List::new(alloc),
        binds: List::new(alloc),
    }
}

// The node with one more word, or with the column of its own.
fn with_word(
    alloc: Global,
    mut node: Node,
    word: Vec<u8>,
    column: Option<u32>,
    in_names: bool,
) -> Result<Node, AllocError> {
    if in_names {
        node.names.push(Text::from_vec(word))?;
    } else if word.is_empty() {
        node.column = column.unwrap_or(0);
    } else if node.word.is_empty() {
        node.word = word;
        node.column = column.unwrap_or(0);
    } else {
        let op = leaf_op(alloc, word.as_slice())?;
        node.args.push(leaf(alloc, op, column.unwrap_or(0)))?;
    }
    Ok(node)
}

impl Reader {
    fn read_all(&mut self, text: &[u8]) -> Result<(), AllocError> {
        self.begin(b"trees")?;
        for byte in text {
            self.read(*byte)?;
        }
        self.end_word()
    }

    fn finished(&mut self) -> Vec<Expr> {
        match self.open.pop() {
            Some(node) if self.open.is_empty() => node.args,
            _ => Vec::new(self.alloc),
        }
    }

    fn read(&mut self, byte: u8) -> Result<(), AllocError> {
        match byte {
            b' ' => self.end_word(),
            b']' => {
                self.end_word()?;
                self.in_names = false;
                Ok(())
            }
            _ if self.in_names => self.add(byte),
            _ => self.read_outside(byte),
        }
    }

    fn read_outside(&mut self, byte: u8) -> Result<(), AllocError> {
        match byte {
            b'(' => self.begin(b""),
            b'{' => self.begin(b"set"),
            b'<' => self.begin(b"tuple"),
            b')' | b'}' | b'>' => self.end(),
            b'[' => {
                self.in_names = true;
                Ok(())
            }
            b':' => {
                self.column = Some(0);
                Ok(())
            }
            _ => self.add(byte),
        }
    }

    fn add(&mut self, byte: u8) -> Result<(), AllocError> {
        match self.column {
            Some(column) => {
                self.column = Some(with_digit(column, byte));
                Ok(())
            }
            None => {
                self.word.push(byte)?;
                Ok(())
            }
        }
    }

    fn begin(&mut self, word: &[u8]) -> Result<(), AllocError> {
        let node = Node {
            column: 0,
            word: Vec::from_slice(self.alloc, word)?,
            names: Vec::new(self.alloc),
            args: Vec::new(self.alloc),
        };
        self.open.push(node)?;
        Ok(())
    }

    fn end_word(&mut self) -> Result<(), AllocError> {
        if self.word.is_empty() && self.column.is_none() {
            return Ok(());
        }
        let word = mem::replace(&mut self.word, Vec::new(self.alloc));
        let column = self.column.take();
        if let Some(node) = self.open.pop() {
            let longer = with_word(self.alloc, node, word, column, self.in_names)?;
            self.open.push(longer)?;
        }
        Ok(())
    }

    fn end(&mut self) -> Result<(), AllocError> {
        self.end_word()?;
        let Some(node) = self.open.pop() else {
            return Ok(());
        };
        let e = tree(self.alloc, node)?;
        if let Some(mut outer) = self.open.pop() {
            outer.args.push(e)?;
            self.open.push(outer)?;
        }
        Ok(())
    }
}

/// The trees of a text; none where brackets are left open.
pub fn read(alloc: Global, text: &[u8]) -> Result<Vec<Expr>, AllocError> {
    let mut reader = Reader {
        alloc,
        open: Vec::new(alloc),
        word: Vec::new(alloc),
        column: None,
        in_names: false,
    };
    reader.read_all(text)?;
    Ok(reader.finished())
}

fn with_digit(n: u32, digit: u8) -> u32 {
    n.wrapping_mul(10)
        .wrapping_add(u32::from(digit.wrapping_sub(b'0')))
}

// The number of decimal digits.
pub(crate) fn number(digits: &[u8]) -> u32 {
    let mut n = 0;
    for digit in digits {
        n = with_digit(n, *digit);
    }
    n
}

// A text of these bytes.
pub(crate) fn text_of(alloc: Global, bytes: &[u8]) -> Result<Text, AllocError> {
    Ok(Text::from_vec(Vec::from_slice(alloc, bytes)?))
}

// A truth value, a text, a number, a declared name or a bound one.
fn leaf_op(alloc: Global, word: &[u8]) -> Result<Op, AllocError> {
    Ok(match word {
        b"TRUE" => Op::Bool(true),
        b"FALSE" => Op::Bool(false),
        [b'"', text @ .., b'"'] => Op::Str(text_of(alloc, text)?),
        [b'0'..=b'9', ..] => Op::Int(i128::from(number(word))),
        [letter @ b'x'..=b'z'] => Op::Name(letter.wrapping_sub(b'x') as usize, false),
        [letter @ b'x'..=b'z', b'\''] => Op::Name(letter.wrapping_sub(b'x') as usize, true),
        name => Op::Bound(text_of(alloc, name)?),
    })
}

// A closed node. Its names are the operator's own or those that it binds; EXCEPT binds the name of the old value.
fn tree(alloc: Global, node: Node) -> Result<Expr, AllocError> {
    let Node {
        column,
        word,
        names,
        args,
    } = node;
    let mut binds = List::new(alloc);
    let op = match word.as_slice() {
        b"record" => Op::Record(List::from_vec(names)),
        b"recset" => Op::RecSet(List::from_vec(names)),
        b"field" => Op::Field(joined(alloc, names.as_slice())?),
        b"noted" => Op::Noted(joined(alloc, names.as_slice())?),
        b"except" => {
            binds.push(text_of(alloc, b"@")?)?;
            Op::Except(counts(alloc, names.as_slice())?)
        }
        _ => {
            binds = List::from_vec(names);
            operator(word)
        }
    };
    Ok(Expr {
        place: place(column),
        op,
        args: List::from_vec(args),
        binds,
    })
}

// The words with a blank between them.
fn joined(alloc: Global, words: &[Text]) -> Result<Text, AllocError> {
    let mut all = Vec::new(alloc);
    for word in words {
        if !all.is_empty() {
            all.push(b' ')?;
        }
        all.extend_from_slice(word.bytes())?;
    }
    Ok(Text::from_vec(all))
}

fn counts(alloc: Global, words: &[Text]) -> Result<List<usize>, AllocError> {
    let mut counts = List::new(alloc);
    for word in words {
        counts.push(number(word.bytes()) as usize)?;
    }
    Ok(counts)
}
