// What a flat module and a refusal are told as.
use std::alloc::{AllocError, Global};
use tla_lexer::LexFault;
use tla_meaning::{Decl, Def, Flat, Place};
use tla_modules::{ModuleFault, ModuleRefusal};
use tla_parser::{ParseFault, Syntax};
use tla_values::{List, Text, module_name};

fn put_number(alloc: Global, n: usize, out: &mut Vec<u8>) -> Result<(), AllocError> {
    let text = format!(in alloc; "{n}")?;
    out.extend_from_slice(text.as_bytes())
}

fn put_module(files: &[Text], file: u32, out: &mut Vec<u8>) -> Result<(), AllocError> {
    match files.get(file as usize) {
        Some(name) => out.extend_from_slice(module_name(name.bytes())),
        None => out.extend_from_slice(b"?"),
    }
}

fn put_place(
    alloc: Global,
    files: &[Text],
    place: Place,
    out: &mut Vec<u8>,
) -> Result<(), AllocError> {
    put_module(files, place.file, out)?;
    out.push(b':')?;
    put_number(alloc, place.line as usize, out)?;
    out.push(b':')?;
    put_number(alloc, place.col as usize, out)
}

fn put_at(
    alloc: Global,
    files: &[Text],
    words: &[u8],
    place: Place,
    out: &mut Vec<u8>,
) -> Result<(), AllocError> {
    out.extend_from_slice(words)?;
    out.extend_from_slice(b" at ")?;
    put_place(alloc, files, place, out)
}

// ---- refusals

fn syntax_words(syntax: Syntax) -> &'static [u8] {
    match syntax {
        Syntax::NestedModule => b"nested MODULE",
        Syntax::ParametrizedInstance => b"parametrized INSTANCE",
        Syntax::SymbolDefinition => b"operator definition by symbol",
        Syntax::Proof => b"proof",
        Syntax::OperatorParameter => b"operator parameter",
        Syntax::TuplePattern => b"tuple pattern",
    }
}

fn put_lex(
    alloc: Global,
    files: &[Text],
    fault: &LexFault,
    out: &mut Vec<u8>,
) -> Result<(), AllocError> {
    match fault {
        LexFault::BadToken(place) => put_at(alloc, files, b"bad token", *place, out),
        LexFault::OpenComment(place) => put_at(alloc, files, b"open comment", *place, out),
        LexFault::BigLiteral(place) => put_at(alloc, files, b"number past 128 bits", *place, out),
        LexFault::NoHeader(file) => {
            out.extend_from_slice(b"no module header in ")?;
            put_module(files, *file, out)
        }
        LexFault::Memory(_) => out.extend_from_slice(b"out of memory inside"),
    }
}

fn put_parse(
    alloc: Global,
    files: &[Text],
    fault: &ParseFault,
    out: &mut Vec<u8>,
) -> Result<(), AllocError> {
    match fault {
        ParseFault::BadGrammar(place) => put_at(alloc, files, b"grammar", *place, out),
        ParseFault::TooDeep(place) => put_at(alloc, files, b"nesting past 400", *place, out),
        ParseFault::NotSupported(place, syntax) => {
            out.extend_from_slice(syntax_words(*syntax))?;
            put_at(alloc, files, b" is not supported", *place, out)
        }
        ParseFault::Memory(_) => out.extend_from_slice(b"out of memory inside"),
    }
}

fn put_cycle(names: &[Text], out: &mut Vec<u8>) -> Result<(), AllocError> {
    out.extend_from_slice(b"modules mention each other:")?;
    for (i, name) in names.iter().enumerate() {
        if i > 0 {
            out.push(b',')?;
        }
        out.push(b' ')?;
        out.extend_from_slice(name.bytes())?;
    }
    Ok(())
}

pub(crate) fn put_words(parts: &[&[u8]], out: &mut Vec<u8>) -> Result<(), AllocError> {
    for part in parts {
        out.extend_from_slice(part)?;
    }
    Ok(())
}

fn put_twice(
    alloc: Global,
    files: &[Text],
    name: &Text,
    places: (Place, Place),
    out: &mut Vec<u8>,
) -> Result<(), AllocError> {
    put_words(&[b"name ", name.bytes(), b" is declared"], out)?;
    put_at(alloc, files, b"", places.0, out)?;
    put_at(alloc, files, b" and", places.1, out)
}

fn put_arity(
    alloc: Global,
    files: &[Text],
    counts: (usize, usize),
    place: Place,
    out: &mut Vec<u8>,
) -> Result<(), AllocError> {
    put_number(alloc, counts.0, out)?;
    out.extend_from_slice(b" arguments for ")?;
    put_number(alloc, counts.1, out)?;
    put_at(alloc, files, b"", place, out)
}

fn put_cause(
    alloc: Global,
    files: &[Text],
    fault: &ModuleFault,
    out: &mut Vec<u8>,
) -> Result<(), AllocError> {
    match fault {
        ModuleFault::Missing(name) => put_words(&[b"module ", name.bytes(), b" is missing"], out),
        ModuleFault::NameDiffers(file, name) => put_words(
            &[b"file ", file.bytes(), b" holds module ", name.bytes()],
            out,
        ),
        ModuleFault::Cycle(names) => put_cycle(names.as_slice(), out),
        ModuleFault::Unknown(name, place) => {
            put_words(&[b"name ", name.bytes(), b" is unknown"], out)?;
            put_at(alloc, files, b"", *place, out)
        }
        ModuleFault::Twice(name, first, second) => put_twice(
            alloc,
            files,
            name,
            (*first, *second),
            out,
        ),
        ModuleFault::Arity(place, found, wanted) => put_arity(
            alloc,
            files,
            (*found, *wanted),
            *place,
            out,
        ),
        ModuleFault::TooMany => out.extend_from_slice(b"more than 64 modules"),
        ModuleFault::Lex(fault) => put_lex(alloc, files, fault, out),
        ModuleFault::Parse(fault) => put_parse(alloc, files, fault, out),
        ModuleFault::Read(_) => Ok(()),
        ModuleFault::TooLong(_) => Ok(()),
        ModuleFault::Memory(_) => Ok(()),
    }
}

/// The line of a refusal.
pub(crate) fn put_refusal(
    alloc: Global,
    refusal: &ModuleRefusal,
    out: &mut Vec<u8>,
) -> Result<(), AllocError> {
    match &refusal.fault {
        ModuleFault::Read(file) => put_words(&[b"read fault: ", file.bytes()], out),
        ModuleFault::TooLong(file) => put_words(&[b"file is too long: ", file.bytes()], out),
        ModuleFault::Memory(_) => out.extend_from_slice(b"out of memory"),
        fault => {
            out.extend_from_slice(b"refused: ")?;
            put_cause(alloc, refusal.files.as_slice(), fault, out)
        }
    }
}

// ---- flat modules

/// The modules of files, with blanks between them.
pub(crate) fn put_files(files: &List<Text>, out: &mut Vec<u8>) -> Result<(), AllocError> {
    for (i, file) in files.as_slice().iter().enumerate() {
        if i > 0 {
            out.push(b' ')?;
        }
        out.extend_from_slice(module_name(file.bytes()))?;
    }
    Ok(())
}

/// The declared names, constants first, with blanks between them.
pub(crate) fn put_names(flat: &Flat, out: &mut Vec<u8>) -> Result<(), AllocError> {
    put_kind(flat.decls.as_slice(), true, out)?;
    put_kind(flat.decls.as_slice(), false, out)
}

fn put_kind(decls: &[Decl], constant: bool, out: &mut Vec<u8>) -> Result<(), AllocError> {
    for d in decls {
        if d.constant == constant {
            if !out.is_empty() {
                out.push(b' ')?;
            }
            out.extend_from_slice(d.name.bytes())?;
        }
    }
    Ok(())
}

/// The aliases, a line each.
pub(crate) fn put_aliases(flat: &Flat, out: &mut Vec<u8>) -> Result<(), AllocError> {
    for (name, text) in flat.aliases.as_slice() {
        put_words(&[name.bytes(), b"=", text.bytes(), b"\n"], out)?;
    }
    Ok(())
}

/// The items, a line each.
pub(crate) fn put_items(alloc: Global, flat: &Flat, out: &mut Vec<u8>) -> Result<(), AllocError> {
    let files = flat.files.as_slice();
    for d in flat.decls.as_slice() {
        put_declared(alloc, files, d, out)?;
    }
    for d in flat.defs.as_slice() {
        put_defined(alloc, files, d, out)?;
    }
    for e in flat.assumes.as_slice() {
        out.extend_from_slice(b"assume ")?;
        put_place(alloc, files, e.place, out)?;
        out.push(b'\n')?;
    }
    Ok(())
}

fn put_declared(
    alloc: Global,
    files: &[Text],
    d: &Decl,
    out: &mut Vec<u8>,
) -> Result<(), AllocError> {
    let kind: &[u8] = if d.constant {
        b"constant "
    } else {
        b"variable "
    };
    put_words(&[kind, d.name.bytes(), b" "], out)?;
    put_place(alloc, files, d.place, out)?;
    out.push(b'\n')?;
    Ok(())
}

fn put_defined(
    alloc: Global,
    files: &[Text],
    d: &Def,
    out: &mut Vec<u8>,
) -> Result<(), AllocError> {
    let hidden = d.name.bytes().contains(&0);
    let name: &[u8] = if hidden { b"!!" } else { d.name.bytes() };
    put_words(&[b"define ", name, b"/"], out)?;
    put_number(alloc, d.params.as_slice().len(), out)?;
    out.push(b' ')?;
    put_place(alloc, files, d.place, out)?;
    out.push(b'\n')?;
    Ok(())
}
