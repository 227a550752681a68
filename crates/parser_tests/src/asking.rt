// What texts give, a case a line: `EXPRESSION => TREE`, the tree as `showing` shows it.
//
// The expected trees come from the language (Specifying Systems, chapters 15 and 16) and not from the program.
use crate::cases::{FORMS, LISTS, OPERATORS, PLACES, REFUSALS};
use crate::faults::{DEEP, FAULTS, NOT_READ};
use crate::showing::{put_module, put_number, put_tree};
use std::alloc::{AllocError, Global};
use std::process::Abort;
use std::test::Fail;
use tla_lexer::{Tokens, tokens};
use tla_meaning::{Module, Place, Unit};
use tla_parser::{ParseFault, Syntax, parse};

// ---- answers

/// What is told of a module.
#[derive(Clone, Copy, Drop)]
pub(crate) enum Told {
    /// That there is one.
    Presence,
    /// The tree of its definition, where it has one alone, and whether places are shown.
    Definition(bool),
    Units,
    /// How many units it has, 9 where it has more.
    Count,
    /// The aliases that its notes give, each as its name, its type and a `;`.
    Aliases,
}

fn put_definition(
    alloc: Global,
    out: &mut Vec<u8>,
    module: &Module,
    places: bool,
) -> Result<(), AllocError> {
    match module.units.as_slice() {
        [Unit::Define(def, _)] => put_tree(alloc, out, &def.body, places),
        _ => out.extend_from_slice(b"no definition alone"),
    }
}

fn put_aliases(out: &mut Vec<u8>, module: &Module) -> Result<(), AllocError> {
    for (name, kind) in module.aliases.as_slice() {
        for piece in [name.bytes(), b"=", kind.bytes(), b";"] {
            out.extend_from_slice(piece)?;
        }
    }
    Ok(())
}

fn put_told(
    alloc: Global,
    out: &mut Vec<u8>,
    module: &Module,
    told: Told,
) -> Result<(), AllocError> {
    match told {
        Told::Presence => out.extend_from_slice(b"a module"),
        Told::Definition(places) => put_definition(alloc, out, module, places),
        Told::Units => put_module(alloc, out, module),
        Told::Count => put_number(alloc, out, module.units.len().min(9) as i128),
        Told::Aliases => put_aliases(out, module),
    }
}

fn put_at(alloc: Global, out: &mut Vec<u8>, word: &str, place: Place) -> Result<(), AllocError> {
    let text = format!(in alloc; "{word} {}:{}", place.line, place.col)?;
    out.extend_from_slice(text.as_bytes())
}

fn syntax_word(syntax: Syntax) -> &'static str {
    match syntax {
        Syntax::NestedModule => "nested MODULE",
        Syntax::ParametrizedInstance => "parametrized INSTANCE",
        Syntax::SymbolDefinition => "operator definition by symbol",
        Syntax::Proof => "proof",
        Syntax::OperatorParameter => "operator parameter",
        Syntax::TuplePattern => "tuple pattern",
    }
}

fn put_fault(alloc: Global, out: &mut Vec<u8>, fault: &ParseFault) -> Result<(), AllocError> {
    match fault {
        ParseFault::BadGrammar(place) => put_at(alloc, out, "grammar", *place),
        ParseFault::TooDeep(place) => put_at(alloc, out, "deep", *place),
        ParseFault::NotSupported(place, syntax) => put_at(alloc, out, syntax_word(*syntax), *place),
        ParseFault::Memory(_) => Err(AllocError),
    }
}

fn put_answer(
    alloc: Global,
    out: &mut Vec<u8>,
    answer: &Result<Module, ParseFault>,
    told: Told,
) -> Result<(), AllocError> {
    match answer {
        Ok(module) => put_told(alloc, out, module, told),
        Err(fault) => put_fault(alloc, out, fault),
    }
}

// What the tokens are parsed to. A module ends by the call of `drop`, since its end at the end of a function has many
// cases.
fn put_parsed(
    alloc: Global,
    out: &mut Vec<u8>,
    found: &Tokens,
    told: Told,
) -> Result<(), AllocError> {
    if found.is_empty() {
        return out.extend_from_slice(b"no tokens");
    }
    let answer = parse(alloc, found);
    let put = put_answer(alloc, out, &answer, told);
    drop(answer);
    put
}

fn put_text(alloc: Global, out: &mut Vec<u8>, text: &[u8], told: Told) -> Result<(), AllocError> {
    if text.len() > 100_000_000 {
        return out.extend_from_slice(b"too long");
    }
    match tokens(alloc, 0, text) {
        Ok(found) => put_parsed(alloc, out, &found, told),
        Err(_) => out.extend_from_slice(b"no tokens"),
    }
}

/// What the text is parsed to.
pub(crate) fn shown(alloc: Global, text: &[u8], told: Told) -> Result<Vec<u8>, AllocError> {
    let mut out = Vec::new(alloc);
    put_text(alloc, &mut out, text, told)?;
    Ok(out)
}

/// Fails the test where something else is shown.
pub(crate) fn same(
    rt: &impl Abort,
    shown: Result<Vec<u8>, AllocError>,
    wanted: &str,
) -> Result<(), Fail> {
    assert_eq!(rt; shown?.as_slice(), wanted.as_bytes());
    Ok(())
}

// ---- tables

/// What the texts of a table are. A blank stands behind each, but for whole ones.
#[derive(Clone, Copy, Drop)]
pub(crate) enum Texts {
    /// Expressions, each of a definition, and whether places are shown.
    Expressions(bool),
    /// Modules that are refused.
    Modules,
    /// Modules of which all is told.
    Whole,
}

fn told_of(texts: Texts) -> Told {
    match texts {
        Texts::Expressions(places) => Told::Definition(places),
        Texts::Modules => Told::Presence,
        Texts::Whole => Told::Units,
    }
}

/// Adds a byte, so many times.
pub(crate) fn put_many(whole: &mut Vec<u8>, byte: u8, count: usize) -> Result<(), AllocError> {
    for _ in 0..count {
        whole.push(byte)?;
    }
    Ok(())
}

// Adds the lines of the text, between which a `;` stands.
fn put_lines(whole: &mut Vec<u8>, text: &str) -> Result<(), AllocError> {
    for byte in text.bytes() {
        whole.push(if byte == b';' { b'\n' } else { byte })?;
    }
    Ok(())
}

// The same, where a `%` stands for 400 times `~`.
fn put_deep(whole: &mut Vec<u8>, text: &str) -> Result<(), AllocError> {
    for (i, piece) in text.split("%").enumerate() {
        if i > 0 {
            put_many(whole, b'~', 400)?;
        }
        put_lines(whole, piece)?;
    }
    Ok(())
}

fn put_definition_of(whole: &mut Vec<u8>, text: &str) -> Result<(), AllocError> {
    whole.extend_from_slice(b"---- MODULE T ----\nx ==\n")?;
    put_lines(whole, text)?;
    whole.extend_from_slice(b" \n====\n")
}

fn put_refused(whole: &mut Vec<u8>, text: &str) -> Result<(), AllocError> {
    put_deep(whole, text)?;
    whole.extend_from_slice(b" ")
}

fn put_whole(whole: &mut Vec<u8>, text: &str, texts: Texts) -> Result<(), AllocError> {
    match texts {
        Texts::Expressions(_) => put_definition_of(whole, text),
        Texts::Modules => put_refused(whole, text),
        Texts::Whole => put_lines(whole, text),
    }
}

fn shown_in(alloc: Global, text: &str, texts: Texts) -> Result<Vec<u8>, AllocError> {
    let mut whole = Vec::new(alloc);
    put_whole(&mut whole, text, texts)?;
    shown(alloc, whole.as_slice(), told_of(texts))
}

fn put_wrong(report: &mut Vec<u8>, line: &str, found: &[u8]) -> Result<(), AllocError> {
    report.extend_from_slice(line.as_bytes())?;
    report.extend_from_slice(b" BUT ")?;
    report.extend_from_slice(found)?;
    report.extend_from_slice(b"\n")
}

// Adds the line and what it gives, where that is not what it says.
fn differs(
    alloc: Global,
    line: &str,
    texts: Texts,
    report: &mut Vec<u8>,
) -> Result<(), AllocError> {
    let (text, wanted) = line.split_once("  => ").unwrap_or((line, "no arrow"));
    let found = shown_in(alloc, text, texts)?;
    if found.as_slice() == wanted.as_bytes() {
        return Ok(());
    }
    put_wrong(report, line, found.as_slice())
}

/// The lines of the table that give something else than they say, each with what it gives.
pub(crate) fn differing(alloc: Global, table: &str, texts: Texts) -> Result<Vec<u8>, AllocError> {
    let mut report = Vec::new(alloc);
    for line in table.lines() {
        differs(alloc, line, texts, &mut report)?;
    }
    Ok(report)
}

#[test]
fn operators_bind_by_their_ranges(rt: HostRuntime) -> Result<(), Fail> {
    same(
        &rt,
        differing(rt.alloc(), OPERATORS, Texts::Expressions(false)),
        "",
    )
}

#[test]
fn forms_stand_for_their_trees(rt: HostRuntime) -> Result<(), Fail> {
    same(
        &rt,
        differing(rt.alloc(), FORMS, Texts::Expressions(false)),
        "",
    )
}

#[test]
fn lists_go_by_their_columns(rt: HostRuntime) -> Result<(), Fail> {
    same(
        &rt,
        differing(rt.alloc(), LISTS, Texts::Expressions(false)),
        "",
    )
}

#[test]
fn nodes_have_their_places(rt: HostRuntime) -> Result<(), Fail> {
    same(
        &rt,
        differing(rt.alloc(), PLACES, Texts::Expressions(true)),
        "",
    )
}

#[test]
fn refusals_name_their_causes(rt: HostRuntime) -> Result<(), Fail> {
    same(
        &rt,
        differing(rt.alloc(), REFUSALS, Texts::Expressions(false)),
        "",
    )
}

#[test]
fn a_fault_stands_where_the_first_unit_that_is_not_whole_begins(
    rt: HostRuntime,
) -> Result<(), Fail> {
    same(&rt, differing(rt.alloc(), FAULTS, Texts::Modules), "")
}

#[test]
fn a_deep_unit_is_the_first_with_too_many_levels(rt: HostRuntime) -> Result<(), Fail> {
    same(&rt, differing(rt.alloc(), DEEP, Texts::Modules), "")
}

#[test]
fn forms_that_are_read_nowhere_stand_in_the_first_refused_unit(
    rt: HostRuntime,
) -> Result<(), Fail> {
    same(&rt, differing(rt.alloc(), NOT_READ, Texts::Modules), "")
}
