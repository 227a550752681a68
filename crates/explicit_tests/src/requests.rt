// Requests for a module.
ghost use Rattle.std.specs.Prelude.{◌≡◌, IfSome, IsTrue, None};
ghost use Rattle.std.specs.Str.{IsUtf8};
ghost use Rattle.front_end.specs.Requests.{IsRequest};

use front_end::Request;
use std::alloc::{AllocError, Global};
use std::str;
use tla_values::{List, Text};

fn text(alloc: Global, word: &str) -> Result<Text, AllocError> {
    Ok(Text::from_vec(Vec::from_slice(alloc, word.as_bytes())?))
}

fn texts(alloc: Global, words: &str) -> Result<List<Text>, AllocError> {
    let mut all = Vec::new(alloc);
    for word in words.split(',') {
        all.push(text(alloc, word)?)?;
    }
    Ok(List::from_vec(all))
}

fn optional_text(alloc: Global, word: Option<&str>) -> Result<Option<Text>, AllocError> {
    match word {
        None => Ok(None),
        Some(word) => Ok(Some(text(alloc, word)?)),
    }
}

/// The request for this file's Init, Next and these invariants, with CInit where it is named, at this
/// width for executions of at most so many steps.
pub(crate) fn request(
    alloc: Global,
    root: &str,
    invs: &str,
    cinit: Option<&str>,
    width: u32,
    length: u32,
) -> Result<Request, AllocError> {
    let root = text(alloc, root)?;
    let init = text(alloc, "Init")?;
    let next = text(alloc, "Next")?;
    let invs = texts(alloc, invs)?;
    let cinit = optional_text(alloc, cinit)?;
    Ok(Request {
        root,
        init,
        next,
        invs,
        cinit,
        length,
        width,
        bounds: None,
    })
}

fn is_text(text: &Text) -> bool
    ensures { IsTrue result → IsUtf8 text.now }
{
    match str::from_utf8(text.bytes()) {
        Ok(_) => true,
        Err(_) => false,
    }
}

fn has_texts(request: &Request) -> bool
    ensures root { IsTrue result → IsUtf8 request.now.root }
    ensures init { IsTrue result → IsUtf8 request.now.init }
    ensures next { IsTrue result → IsUtf8 request.now.next }
{
    is_text(&request.root) && is_text(&request.init) && is_text(&request.next)
}

fn is_optional_text(text: &Option<Text>) -> bool
    ensures { IsTrue result → IfSome text.now IsUtf8 }
{
    match text {
        None => true,
        Some(text) => is_text(text),
    }
}

fn has_options(request: &Request) -> bool
    ensures cinit { IsTrue result → IfSome request.now.cinit IsUtf8 }
    ensures bounds { IsTrue result → request.now.bounds ≡ None }
{
    is_optional_text(&request.cinit) && request.bounds.is_none()
}

// It asks more than a request must: no bounds.
pub(crate) fn may_be_asked(request: &Request) -> bool
    ensures { IsTrue result → IsRequest request.now }
{
    if request.width < 4 || request.width > 64 || request.length > 1000 {
        return false;
    }
    has_texts(request) && has_options(request)
}
