// The flat modules of the cases. `(word a b)` is a node with its operands; `$0` is a declared name and `$0'` a primed one,
// `%x` a bound name, `?a` a parameter, `#choose` a form that is refused, and every other word that is no operator the use
// of a definition. `:7` behind a word is the line of its place. `[i j]` behind the word has the names that are bound, of
// EXCEPT first the numbers of indexes, of LET each name with its number of parameters (`f/1 a`), of a note its text.
// `(def [f a] e)` is a definition, `(typed [f a T] e)` one with the annotation T, and `(assume e)` an assumption.
use std::alloc::{AllocError, Global};
use std::mem;
use tla_meaning::{Def, Expr, Form, Op, Place};
use tla_values::{List, Text};

#[derive(Drop)]
struct Node {
    place: Place,
    word: Vec<u8>,
    names: Vec<Text>,
    args: Vec<Expr>,
}

// What was read, the open nodes, the innermost last, and the word so far.
#[derive(Drop)]
pub(crate) struct Reader {
    alloc: Global,
    pub(crate) defs: Vec<Def>,
    pub(crate) assumes: Vec<Expr>,
    open: Vec<Node>,
    word: Vec<u8>,
    line: Option<u32>,
    in_names: bool,
}

fn at_line(line: Option<u32>) -> Place {
    Place {
        file: 0,
        line: match line {
            Some(line) => line,
            None => 0,
        },
        col: 0,
    }
}

impl Reader {
    pub(crate) fn new(alloc: Global) -> Reader {
        Reader {
            alloc,
            defs: Vec::new(alloc),
            assumes: Vec::new(alloc),
            open: Vec::new(alloc),
            word: Vec::new(alloc),
            line: None,
            in_names: false,
        }
    }

    pub(crate) fn read_all(&mut self, text: &[u8]) -> Result<(), AllocError> {
        for byte in text {
            self.read(*byte)?;
        }
        Ok(())
    }

    fn read(&mut self, byte: u8) -> Result<(), AllocError> {
        match byte {
            b'(' => self.begin(),
            b')' => self.end(),
            b' ' => self.end_word(),
            b'[' => {
                self.in_names = true;
                Ok(())
            }
            b']' => {
                self.end_word()?;
                self.in_names = false;
                Ok(())
            }
            b':' => {
                self.line = Some(0);
                Ok(())
            }
            _ => self.add(byte),
        }
    }

    fn add(&mut self, byte: u8) -> Result<(), AllocError> {
        match self.line {
            Some(line) => {
                let digit = u32::from(byte.wrapping_sub(b'0'));
                self.line = Some(line.wrapping_mul(10).wrapping_add(digit));
                Ok(())
            }
            None => {
                self.word.push(byte)?;
                Ok(())
            }
        }
    }

    fn begin(&mut self) -> Result<(), AllocError> {
        let node = Node {
            place: at_line(None),
            word: Vec::new(self.alloc),
            names: Vec::new(self.alloc),
            args: Vec::new(self.alloc),
        };
        self.open.push(node)?;
        Ok(())
    }

    fn end_word(&mut self) -> Result<(), AllocError> {
        if self.word.is_empty() {
            return Ok(());
        }
        let word = mem::replace(&mut self.word, Vec::new(self.alloc));
        let place = at_line(self.line);
        self.line = None;
        if let Some(mut node) = self.open.pop() {
            if self.in_names {
                node.names.push(Text::from_vec(word))?;
            } else if node.word.is_empty() {
                node.word = word;
                node.place = place;
            } else {
                node.args.push(leaf(self.alloc, word.as_slice(), place)?)?;
            }
            self.open.push(node)?;
        }
        Ok(())
    }

    fn end(&mut self) -> Result<(), AllocError> {
        self.end_word()?;
        let Some(node) = self.open.pop() else {
            return Ok(());
        };
        match node.word.as_slice() {
            b"def" => self.define(node, false),
            b"typed" => self.define(node, true),
            b"assume" => {
                let mut args = node.args;
                if let Some(e) = args.pop() {
                    self.assumes.push(e)?;
                }
                Ok(())
            }
            _ => {
                let e = tree(self.alloc, node)?;
                if let Some(mut outer) = self.open.pop() {
                    outer.args.push(e)?;
                    self.open.push(outer)?;
                }
                Ok(())
            }
        }
    }

    fn define(&mut self, node: Node, typed: bool) -> Result<(), AllocError> {
        let Node {
            place,
            word: _,
            names,
            args,
        } = node;
        let mut names = names;
        let mut args = args;
        let mut note = Vec::new(self.alloc);
        if typed {
            note.extend_from_slice(b"@type: ")?;
            if let Some(text) = names.pop() {
                note.extend_from_slice(text.bytes())?;
            }
            note.push(b';')?;
        }
        let mut own = None;
        let mut params = Vec::new(self.alloc);
        for name in names {
            if own.is_none() {
                own = Some(name);
            } else {
                params.push(name)?;
            }
        }
        if let (Some(name), Some(body)) = (own, args.pop()) {
            self.defs.push(Def {
                name,
                place,
                params: List::from_vec(params),
                note: Text::from_vec(note),
                body,
            })?;
        }
        Ok(())
    }
}

fn text(alloc: Global, bytes: &[u8]) -> Result<Text, AllocError> {
    Ok(Text::from_vec(Vec::from_slice(alloc, bytes)?))
}

fn leaf(alloc: Global, word: &[u8], place: Place) -> Result<Expr, AllocError> {
    let op = match word {
        b"TRUE" => Op::Bool(true),
        b"FALSE" => Op::Bool(false),
        [b'%', name @ ..] => Op::Bound(text(alloc, name)?),
        [b'?', name @ ..] => Op::Param(text(alloc, name)?),
        [b'$', digits @ .., b'\''] => Op::Name(number(digits) as usize, true),
        [b'$', digits @ ..] => Op::Name(number(digits) as usize, false),
        [b'0'..=b'9', ..] => Op::Int(i128::from(number(word))),
        b"#choose" => Op::Outside(Form::Choose),
        name => Op::Use(text(alloc, name)?),
    };
    Ok(Expr {
        place,
        op,
        args: List::new(alloc),
        binds: List::new(alloc),
    })
}

fn number(digits: &[u8]) -> u64 {
    let mut n: u64 = 0;
    for digit in digits {
        n = n
            .wrapping_mul(10)
            .wrapping_add(u64::from(digit.wrapping_sub(b'0')));
    }
    n
}

// A closed node.
fn tree(alloc: Global, node: Node) -> Result<Expr, AllocError> {
    let Node {
        place,
        word,
        names,
        args,
    } = node;
    let mut binds = Vec::new(alloc);
    let op = match word.as_slice() {
        b"except" => {
            let mut counts = Vec::new(alloc);
            for name in names {
                match name.bytes() {
                    [b'0'..=b'9', ..] => counts.push(number(name.bytes()) as usize)?,
                    _ => binds.push(name)?,
                }
            }
            Op::Except(List::from_vec(counts))
        }
        b"let" => {
            let mut lets = Vec::new(alloc);
            for name in names {
                match name.bytes() {
                    [front @ .., b'/', digit] => {
                        lets.push((text(alloc, front)?, digit.wrapping_sub(b'0') as usize))?;
                    }
                    _ => binds.push(name)?,
                }
            }
            Op::Let(List::from_vec(lets))
        }
        other => {
            binds = names;
            match operator(other) {
                Some(op) => op,
                None => Op::Use(text(alloc, other)?),
            }
        }
    };
    Ok(Expr {
        place,
        op,
        args: List::from_vec(args),
        binds: List::from_vec(binds),
    })
}

fn operator(word: &[u8]) -> Option<Op> {
    match word {
        b"and" => Some(Op::And),
        b"or" => Some(Op::Or),
        b"not" => Some(Op::Not),
        b"eq" => Some(Op::Eq),
        b"in" => Some(Op::In),
        b"add" => Some(Op::Add),
        b"set" => Some(Op::SetEnum),
        b"tuple" => Some(Op::Tuple),
        b"apply" => Some(Op::Apply),
        b"exists" => Some(Op::Exists),
        b"filter" => Some(Op::Filter),
        b"lambda" => Some(Op::Lambda),
        b"fold" => Some(Op::Fold),
        b"prime" => Some(Op::Prime),
        b"unchanged" => Some(Op::Unchanged),
        b"boxed" => Some(Op::Boxed),
        b"angled" => Some(Op::Angled),
        _ => None,
    }
}
