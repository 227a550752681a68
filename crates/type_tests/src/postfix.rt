//! Types in postfix notation, a byte a step.
//!
//! `b`, `i`, `s`: Bool, Int, Str; `u`, `w`: the uninterpreted types U and W; a digit: the type variable of that number;
//! `S`, `Q`: a set or a sequence of the last type; `>`: a function of the last two; `T`: a tuple of all types so far; `O`:
//! an operator of all, the last one its result; `f`, `g`, `h`: the last type is a field of this name; `R`: a record of the
//! fields so far; `A` to `E`: the same with the row variable 0 to 4.

use snowcat_rows::Ty;
use std::alloc::{AllocError, Global};
use std::mem;
use tla_values::{Boxed, List, Text};

#[derive(Drop)]
struct Postfix {
    alloc: Global,
    types: Vec<Ty>,
    fields: Vec<(Text, Ty)>,
}

fn text(alloc: Global, byte: u8) -> Result<Text, AllocError> {
    let mut bytes = Vec::new(alloc);
    bytes.push(byte)?;
    Ok(Text::from_vec(bytes))
}

fn named(alloc: Global, byte: u8) -> Result<Ty, AllocError> {
    Ok(Ty::Named(text(alloc, byte)?))
}

fn set_of(alloc: Global, item: Ty) -> Result<Ty, AllocError> {
    Ok(Ty::Set(Boxed::new(alloc, item)?))
}

fn sequence_of(alloc: Global, item: Ty) -> Result<Ty, AllocError> {
    Ok(Ty::Seq(Boxed::new(alloc, item)?))
}

fn function_of(alloc: Global, argument: Ty, value: Ty) -> Result<Ty, AllocError> {
    let argument = Boxed::new(alloc, argument)?;
    Ok(Ty::Fun(argument, Boxed::new(alloc, value)?))
}

fn operator_of(alloc: Global, arguments: List<Ty>, value: Ty) -> Result<Ty, AllocError> {
    Ok(Ty::Oper(arguments, Boxed::new(alloc, value)?))
}

impl Postfix {
    fn last(&mut self) -> Ty {
        match self.types.pop() {
            Some(t) => t,
            None => Ty::Bool,
        }
    }

    fn all(&mut self) -> List<Ty> {
        List::from_vec(mem::replace(&mut self.types, Vec::new(self.alloc)))
    }

    fn record(&mut self, tail: Option<u32>) -> Ty {
        Ty::Rec(
            List::from_vec(mem::replace(&mut self.fields, Vec::new(self.alloc))),
            tail,
        )
    }

    fn function(&mut self) -> Result<Ty, AllocError> {
        let value = self.last();
        let argument = self.last();
        function_of(self.alloc, argument, value)
    }

    fn operator(&mut self) -> Result<Ty, AllocError> {
        let value = self.last();
        let arguments = self.all();
        operator_of(self.alloc, arguments, value)
    }

    // A type of no others.
    fn leaf(&mut self, byte: u8) -> Result<Ty, AllocError> {
        match byte {
            b'i' => Ok(Ty::Int),
            b's' => Ok(Ty::Str),
            b'u' => named(self.alloc, b'U'),
            b'w' => named(self.alloc, b'W'),
            b'0'..=b'9' => Ok(Ty::Var((byte - b'0') as u32)),
            _ => Ok(Ty::Bool),
        }
    }

    fn made(&mut self, byte: u8) -> Result<Ty, AllocError> {
        match byte {
            b'S' => set_of(self.alloc, self.last()),
            b'Q' => sequence_of(self.alloc, self.last()),
            b'>' => self.function(),
            b'O' => self.operator(),
            b'T' => Ok(Ty::Tup(self.all())),
            b'R' => Ok(self.record(None)),
            b'A'..=b'E' => Ok(self.record(Some((byte - b'A') as u32))),
            _ => self.leaf(byte),
        }
    }

    fn add_field(&mut self, byte: u8) -> Result<(), AllocError> {
        let name = text(self.alloc, byte)?;
        let t = self.last();
        self.fields.push((name, t))?;
        Ok(())
    }

    fn add_type(&mut self, byte: u8) -> Result<(), AllocError> {
        let t = self.made(byte)?;
        self.types.push(t)?;
        Ok(())
    }

    fn step(&mut self, byte: u8) -> Result<(), AllocError> {
        if byte == b'f' || byte == b'g' || byte == b'h' {
            self.add_field(byte)
        } else {
            self.add_type(byte)
        }
    }

    fn read(&mut self, word: &str) -> Result<Ty, AllocError> {
        for byte in word.as_bytes() {
            self.step(*byte)?;
        }
        Ok(self.last())
    }
}

/// The type that a word says.
pub(crate) fn type_of(alloc: Global, word: &str) -> Result<Ty, AllocError> {
    let mut p = Postfix {
        alloc,
        types: Vec::new(alloc),
        fields: Vec::new(alloc),
    };
    let read = p.read(word);
    drop(p);
    read
}

/// The types of two words with a blank between them.
pub(crate) fn types_of(alloc: Global, words: &str) -> Result<(Ty, Ty), AllocError> {
    let (left, right) = words.split_once(" ").unwrap_or((words, ""));
    let a = type_of(alloc, left)?;
    let b = type_of(alloc, right)?;
    Ok((a, b))
}
