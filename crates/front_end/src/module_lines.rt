// Why modules make no flat module.
ghost use Rattle.std.specs.Prelude.{◌≡◌, ◌++◌, flat_map, OnOk};
ghost use Rattle.front_end.specs.Lines.{behind_comma, lex_text, module_text, names_text, parse_text, syntax_text};

use crate::line_parts::{add_between, add_name, add_placed, add_words};
use std::alloc::{AllocError, Global};
use tla_lexer::LexFault;
use tla_modules::ModuleFault;
use tla_parser::{ParseFault, Syntax};
use tla_values::Text;
use trace_text::{module_in, show_place};

// Each of these adds the cause with its place to what is written.

pub(crate) fn add_module_fault(
    alloc: Global,
    fault: &ModuleFault,
    files: &[Text],
    out: &mut Vec<u8>,
) -> Result<(), AllocError>
    ensures { OnOk result (out.new.items ≡ out.old.items ++ module_text files.now fault.now) }
{
    match fault {
        ModuleFault::Missing(name) => {
            add_between(b"refused: module ", name.bytes(), b" is missing", out)
        }
        ModuleFault::NameDiffers(wanted, found) => {
            let found = found.bytes();
            add_between(b"refused: file ", wanted.bytes(), b" holds module ", out)?;
            add_words(found, out)
        }
        ModuleFault::Cycle(names) => {
            add_words(b"refused: modules mention each other: ", out)?;
            add_names(names.as_slice(), out)
        }
        ModuleFault::Unknown(name, at) => {
            add_between(b"refused: name ", name.bytes(), b" is unknown at ", out)?;
            show_place(*at, files, out)
        }
        ModuleFault::Twice(name, first, second) => {
            add_between(b"refused: name ", name.bytes(), b" is declared at ", out)?;
            show_place(*first, files, out)?;
            add_placed(b" and at ", *second, files, out)
        }
        ModuleFault::Arity(at, given, wanted) => {
            let words = format!(in alloc; "refused: {given} arguments for {wanted} at ")?;
            add_placed(words.as_bytes(), *at, files, out)
        }
        ModuleFault::TooMany => add_words(b"refused: more than 64 modules", out),
        ModuleFault::Lex(fault) => add_lex_fault(fault, files, out),
        ModuleFault::Parse(fault) => add_parse_fault(fault, files, out),
        ModuleFault::Read(file) => add_name(b"read fault: ", file.bytes(), out),
        ModuleFault::TooLong(file) => add_name(b"file is too long: ", file.bytes(), out),
        ModuleFault::Memory(_) => add_words(b"out of memory", out),
    }
}

fn add_lex_fault(fault: &LexFault, files: &[Text], out: &mut Vec<u8>) -> Result<(), AllocError>
    ensures { OnOk result (out.new.items ≡ out.old.items ++ lex_text files.now fault.now) }
{
    match fault {
        LexFault::BadToken(at) => add_placed(b"refused: bad token at ", *at, files, out),
        LexFault::OpenComment(at) => add_placed(b"refused: open comment at ", *at, files, out),
        LexFault::BigLiteral(at) => {
            add_placed(b"refused: number past 128 bits at ", *at, files, out)
        }
        LexFault::NoHeader(file) => add_name(
            b"refused: no module header in ",
            module_in(files, *file),
            out,
        ),
        LexFault::Memory(_) => add_words(b"out of memory", out),
    }
}

fn add_parse_fault(fault: &ParseFault, files: &[Text], out: &mut Vec<u8>) -> Result<(), AllocError>
    ensures { OnOk result (out.new.items ≡ out.old.items ++ parse_text files.now fault.now) }
{
    match fault {
        ParseFault::BadGrammar(at) => add_placed(b"refused: grammar at ", *at, files, out),
        ParseFault::TooDeep(at) => add_placed(b"refused: nesting past 400 at ", *at, files, out),
        ParseFault::NotSupported(at, form) => {
            let form = syntax_text(*form).as_bytes();
            add_between(b"refused: ", form, b" is not supported at ", out)?;
            show_place(*at, files, out)
        }
        ParseFault::Memory(_) => add_words(b"out of memory", out),
    }
}

// Adds names with commas between them.
fn add_names(names: &[Text], out: &mut Vec<u8>) -> Result<(), AllocError>
    ensures { OnOk result (out.new.items ≡ out.old.items ++ names_text names.now) }
{
    match names {
        [] => Ok(()),
        [first, others @ ..] => {
            add_words(first.bytes(), out)?;
            add_others(others, out)
        }
    }
}

// Adds names, each behind a comma.
fn add_others(names: &[Text], out: &mut Vec<u8>) -> Result<(), AllocError>
    ensures { OnOk result (out.new.items ≡ out.old.items ++ flat_map behind_comma names.now) }
{
    for name in names {
        add_name(b", ", name.bytes(), out)?;
    }
    Ok(())
}

// The words for a form that is read nowhere.
fn syntax_text(form: Syntax) -> &'static str
    ensures { result.now ≡ syntax_text form }
{
    match form {
        Syntax::NestedModule => "nested MODULE",
        Syntax::ParametrizedInstance => "parametrized INSTANCE",
        Syntax::SymbolDefinition => "operator definition by symbol",
        Syntax::Proof => "proof",
        Syntax::OperatorParameter => "operator parameter",
        Syntax::TuplePattern => "tuple pattern",
    }
}
