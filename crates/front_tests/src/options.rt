// Requests as words: `root=Row.tla length=3 width=8 size=4 inv=A,B cinit=C`.
use front_end::Request;
use kernel_shapes::Bounds;
use std::alloc::{AllocError, Global};
use tla_values::{List, Text};

fn text(alloc: Global, word: &str) -> Result<Text, AllocError> {
    Ok(Text::from_vec(Vec::from_slice(alloc, word.as_bytes())?))
}

// The names between commas.
fn names_of(alloc: Global, names: &str) -> Result<List<Text>, AllocError> {
    let mut all = Vec::new(alloc);
    for name in names.split(',') {
        all.push(text(alloc, name)?)?;
    }
    Ok(List::from_vec(all))
}

// What stands behind this beginning of a word, if there is such a word.
fn option<'a>(words: &'a str, beginning: &str) -> Option<&'a str> {
    for word in words.split(' ') {
        if let Some(rest) = word.strip_prefix(beginning) {
            return Some(rest);
        }
    }
    None
}

fn number(words: &str, beginning: &str, default: u32) -> u32 {
    match option(words, beginning) {
        Some(digits) => digits.parse::<u32>().unwrap_or(0),
        None => default,
    }
}

fn cinit_of(alloc: Global, words: &str) -> Result<Option<Text>, AllocError> {
    match option(words, "cinit=") {
        Some(name) => Ok(Some(text(alloc, name)?)),
        None => Ok(None),
    }
}

fn bounds_of(words: &str) -> Option<Bounds> {
    if option(words, "size=").is_none() {
        return None;
    }
    Some(Bounds {
        low: -1,
        high: 7,
        size: number(words, "size=", 0),
    })
}

/// The request that the words make, of the module `Row` where they name no other.
pub(crate) fn request_of(alloc: Global, words: &str) -> Result<Request, AllocError> {
    let root = text(alloc, option(words, "root=").unwrap_or("Row.tla"))?;
    let init = text(alloc, "Init")?;
    let next = text(alloc, "Next")?;
    let invs = names_of(alloc, option(words, "inv=").unwrap_or("Inv"))?;
    let cinit = cinit_of(alloc, words)?;
    Ok(Request {
        root,
        init,
        next,
        invs,
        cinit,
        length: number(words, "length=", 0),
        width: number(words, "width=", 32),
        bounds: bounds_of(words),
    })
}
