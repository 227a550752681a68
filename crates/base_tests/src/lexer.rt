// Texts with their tokens, places and notes, written by hand from the rules of the language. The cases of a test are
// one text, since a table of many rows is dear to prove.
use crate::passing::passes;
use std::alloc::{AllocError, Global};
use std::test::Fail;
use tla_lexer::{LexFault, Token, TokenKind, tokens};
use tla_meaning::Place;
use tla_values::Text;

fn put_place(out: &mut Vec<u8>, alloc: Global, kind: &str, place: Place) -> Result<(), AllocError> {
    let Place { file: _, line, col } = place;
    let text = format!(in alloc; "{kind}@{line}:{col}")?;
    out.extend_from_slice(text.as_bytes())
}

fn word_of(kind: &TokenKind) -> &str {
    match kind {
        TokenKind::Dashes => "dashes",
        TokenKind::End => "end",
        TokenKind::ProofStep => "step",
        TokenKind::Number(_) => "number ",
        TokenKind::Name(_) => "name ",
        TokenKind::Reserved(_) => "word ",
        TokenKind::Quoted(_) => "text ",
        TokenKind::Symbol(_) => "symbol ",
    }
}

fn text_of(kind: &TokenKind) -> Option<&Text> {
    match kind {
        TokenKind::Name(text) => Some(text),
        TokenKind::Reserved(text) => Some(text),
        TokenKind::Quoted(text) => Some(text),
        TokenKind::Symbol(text) => Some(text),
        _ => None,
    }
}

// What the token holds beside its kind.
fn put_content(out: &mut Vec<u8>, alloc: Global, kind: &TokenKind) -> Result<(), AllocError> {
    if let TokenKind::Number(n) = kind {
        let text = format!(in alloc; "{n}")?;
        return out.extend_from_slice(text.as_bytes());
    }
    match text_of(kind) {
        Some(text) => out.extend_from_slice(text.bytes()),
        None => Ok(()),
    }
}

// The notes in braces, where there are some.
fn put_notes(out: &mut Vec<u8>, notes: &[u8]) -> Result<(), AllocError> {
    if notes.is_empty() {
        return Ok(());
    }
    out.extend_from_slice(b"{")?;
    out.extend_from_slice(notes)?;
    out.extend_from_slice(b"}")
}

fn put_token(out: &mut Vec<u8>, alloc: Global, token: &Token) -> Result<(), AllocError> {
    out.extend_from_slice(word_of(&token.kind).as_bytes())?;
    put_content(out, alloc, &token.kind)?;
    put_place(out, alloc, "", token.place)?;
    put_notes(out, token.notes.bytes())
}

fn put_fault(out: &mut Vec<u8>, alloc: Global, fault: LexFault) -> Result<(), AllocError> {
    match fault {
        LexFault::BadToken(place) => put_place(out, alloc, "bad", place),
        LexFault::OpenComment(place) => put_place(out, alloc, "open", place),
        LexFault::BigLiteral(place) => put_place(out, alloc, "big", place),
        LexFault::NoHeader(file) => {
            let text = format!(in alloc; "no header@{file}")?;
            out.extend_from_slice(text.as_bytes())
        }
        LexFault::Memory(fail) => Err(fail),
    }
}

// The tokens behind the first ones.
fn put_tokens(
    out: &mut Vec<u8>,
    alloc: Global,
    tokens: &[Token],
    first: usize,
) -> Result<(), AllocError> {
    for (i, token) in tokens.iter().enumerate() {
        if i > first {
            out.push(b' ')?;
        }
        if i >= first {
            put_token(out, alloc, token)?;
        }
    }
    Ok(())
}

// The tokens of a file behind the first ones, or its fault.
fn put_answer(
    out: &mut Vec<u8>,
    alloc: Global,
    bytes: &[u8],
    first: usize,
) -> Result<(), AllocError> {
    if bytes.len() > 1000 {
        return Ok(());
    }
    match tokens(alloc, 0, bytes) {
        Ok(found) => put_tokens(out, alloc, found.as_slice(), first),
        Err(fault) => put_fault(out, alloc, fault),
    }
}

fn shown(alloc: Global, bytes: &[u8], first: usize) -> Result<Vec<u8>, AllocError> {
    let mut out = Vec::new(alloc);
    put_answer(&mut out, alloc, bytes, first)?;
    Ok(out)
}

fn joined(alloc: Global, header: &[u8], text: &[u8]) -> Result<Vec<u8>, AllocError> {
    let mut bytes = Vec::from_slice(alloc, header)?;
    bytes.extend_from_slice(text)?;
    Ok(bytes)
}

// Where the tokens of texts begin: what stands before each text, and how many tokens that has.
#[derive(Drop, Clone, Copy)]
struct Front<'a> {
    header: &'a [u8],
    tokens: usize,
}

fn is_right(alloc: Global, front: Front, text: &[u8], wanted: &[u8]) -> Result<bool, AllocError> {
    let bytes = joined(alloc, front.header, text)?;
    Ok(shown(alloc, bytes.as_slice(), front.tokens)?.as_slice() == wanted)
}

// How many cases are right before the first that is wrong. A case is a text and what is shown of it, each with a mark
// behind it.
fn count_right(alloc: Global, cases: &[u8], front: Front) -> Result<usize, AllocError> {
    let mut pieces = cases.split(|byte| *byte == b'`');
    'cases: for i in 0..cases.len() {
        let Some(text) = pieces.next() else {
            return Ok(i);
        };
        let Some(wanted) = pieces.next() else {
            return Ok(i);
        };
        if !is_right(alloc, front, text, wanted)? {
            return Ok(i);
        }
    }
    Ok(0)
}

// What stands on the lines behind a header.
fn count_lines(alloc: Global, cases: &[u8]) -> Result<usize, AllocError> {
    let front = Front {
        header: b"---- MODULE\n",
        tokens: 2,
    };
    count_right(alloc, cases, front)
}

fn count_files(alloc: Global, cases: &[u8]) -> Result<usize, AllocError> {
    let front = Front {
        header: b"",
        tokens: 0,
    };
    count_right(alloc, cases, front)
}

// Each symbol and each equal spelling.
static SYMBOLS: &[u8] = b"\
(`symbol (@2:1`\
)`symbol )@2:1`\
[`symbol [@2:1`\
]`symbol ]@2:1`\
{`symbol {@2:1`\
}`symbol }@2:1`\
<<`symbol <<@2:1`\
>>`symbol >>@2:1`\
,`symbol ,@2:1`\
:`symbol :@2:1`\
.`symbol .@2:1`\
!`symbol !@2:1`\
'`symbol '@2:1`\
@`symbol @@2:1`\
_`symbol _@2:1`\
==`symbol ==@2:1`\
<-`symbol <-@2:1`\
->`symbol ->@2:1`\
|->`symbol |->@2:1`\
:=`symbol :=@2:1`\
:>`symbol :>@2:1`\
@@`symbol @@@2:1`\
..`symbol ..@2:1`\
+`symbol +@2:1`\
-`symbol -@2:1`\
*`symbol *@2:1`\
%`symbol %@2:1`\
^`symbol ^@2:1`\
=`symbol =@2:1`\
#`symbol #@2:1`\
<`symbol <@2:1`\
>`symbol >@2:1`\
<=`symbol <=@2:1`\
>=`symbol >=@2:1`\
=>`symbol =>@2:1`\
<=>`symbol <=>@2:1`\
/\\`symbol /\\@2:1`\
\\/`symbol \\/@2:1`\
~`symbol ~@2:1`\
~>`symbol ~>@2:1`\
[]`symbol []@2:1`\
<>`symbol <>@2:1`\
]_`symbol ]_@2:1`\
>>_`symbol >>_@2:1`\
\\`symbol \\@2:1`\
\\in`symbol \\in@2:1`\
\\notin`symbol \\notin@2:1`\
\\subseteq`symbol \\subseteq@2:1`\
\\cup`symbol \\cup@2:1`\
\\cap`symbol \\cap@2:1`\
\\X`symbol \\X@2:1`\
\\o`symbol \\o@2:1`\
\\div`symbol \\div@2:1`\
\\E`symbol \\E@2:1`\
\\A`symbol \\A@2:1`\
/=`symbol #@2:1`\
=<`symbol <=@2:1`\
\\leq`symbol <=@2:1`\
\\geq`symbol >=@2:1`\
\\equiv`symbol <=>@2:1`\
\\land`symbol /\\@2:1`\
\\lor`symbol \\/@2:1`\
\\lnot`symbol ~@2:1`\
\\neg`symbol ~@2:1`\
\\union`symbol \\cup@2:1`\
\\intersect`symbol \\cap@2:1`\
\\times`symbol \\X@2:1`\
\\circ`symbol \\o@2:1`";

#[test]
fn each_symbol_is_read_as_the_first_of_its_spellings(rt: HostRuntime) -> Result<(), Fail> {
    passes(&rt, count_lines(rt.alloc(), SYMBOLS), 68)
}

// Each reserved word.
static WORDS: &[u8] = b"\
ASSUME`word ASSUME@2:1`\
ASSUMPTION`word ASSUMPTION@2:1`\
AXIOM`word AXIOM@2:1`\
BOOLEAN`word BOOLEAN@2:1`\
BY`word BY@2:1`\
CASE`word CASE@2:1`\
CHOOSE`word CHOOSE@2:1`\
CONSTANT`word CONSTANT@2:1`\
CONSTANTS`word CONSTANTS@2:1`\
COROLLARY`word COROLLARY@2:1`\
DOMAIN`word DOMAIN@2:1`\
ELSE`word ELSE@2:1`\
ENABLED`word ENABLED@2:1`\
EXCEPT`word EXCEPT@2:1`\
EXTENDS`word EXTENDS@2:1`\
FALSE`word FALSE@2:1`\
IF`word IF@2:1`\
IN`word IN@2:1`\
INSTANCE`word INSTANCE@2:1`\
LAMBDA`word LAMBDA@2:1`\
LEMMA`word LEMMA@2:1`\
LET`word LET@2:1`\
LOCAL`word LOCAL@2:1`\
MODULE`word MODULE@2:1`\
OBVIOUS`word OBVIOUS@2:1`\
OMITTED`word OMITTED@2:1`\
OTHER`word OTHER@2:1`\
PROOF`word PROOF@2:1`\
PROPOSITION`word PROPOSITION@2:1`\
QED`word QED@2:1`\
RECURSIVE`word RECURSIVE@2:1`\
SF_`word SF_@2:1`\
STRING`word STRING@2:1`\
SUBSET`word SUBSET@2:1`\
THEN`word THEN@2:1`\
THEOREM`word THEOREM@2:1`\
TRUE`word TRUE@2:1`\
UNCHANGED`word UNCHANGED@2:1`\
UNION`word UNION@2:1`\
VARIABLE`word VARIABLE@2:1`\
VARIABLES`word VARIABLES@2:1`\
WF_`word WF_@2:1`\
WITH`word WITH@2:1`";

#[test]
fn reserved_words_are_no_names(rt: HostRuntime) -> Result<(), Fail> {
    passes(&rt, count_lines(rt.alloc(), WORDS), 43)
}

// Runs of bytes, and what is no token.
static RUNS: &[u8] = b"\
x`name x@2:1`\
x1_y`name x1_y@2:1`\
_x`name _x@2:1`\
1x`name 1x@2:1`\
IFx`name IFx@2:1`\
if`name if@2:1`\
__`bad@2:1`\
12_`bad@2:1`\
_1`bad@2:1`\
a 12_`bad@2:3`\
WF_x`word WF_@2:1 name x@2:4`\
SF_WF_1`word SF_@2:1 word WF_@2:4 number 1@2:7`\
xWF_`name xWF_@2:1`\
WFx`name WFx@2:1`\
0`number 0@2:1`\
007`number 7@2:1`\
170141183460469231731687303715884105727`number 170141183460469231731687303715884105727@2:1`\
170141183460469231731687303715884105728`big@2:1`\
x 1701411834604692317316873037158841057270`big@2:3`\
--`bad@2:1`\
---`bad@2:1`\
----`dashes@2:1`\
-----`dashes@2:1`\
-->`bad@2:1`\
---->`dashes@2:1 symbol >@2:5`\
1-1`number 1@2:1 symbol -@2:2 number 1@2:3`\
===`bad@2:1`\
====`end@2:1`\
======`end@2:1`\
==>`symbol ==@2:1 symbol >@2:3`\
===>`bad@2:1`\
====x ---- \\foo (*`end@2:1`\
\\o1`bad@2:1`\
\\o x`symbol \\o@2:1 name x@2:4`\
\\o_`symbol \\o@2:1 symbol _@2:3`\
\\oo`bad@2:1`\
\\foo`bad@2:1`\
\\inx`bad@2:1`\
\\in1`symbol \\in@2:1 number 1@2:4`\
\\ x`symbol \\@2:1 name x@2:3`\
\\\\`symbol \\@2:1 symbol \\@2:2`\
A\\B`bad@2:2`\
<1>`step@2:1`\
< 1>`symbol <@2:1 number 1@2:3 symbol >@2:4`\
<12>a`step@2:1 name a@2:5`\
<1`symbol <@2:1 number 1@2:2`\
<1 >`symbol <@2:1 number 1@2:2 symbol >@2:4`\
<a>`symbol <@2:1 name a@2:2 symbol >@2:3`\
<<1>>`symbol <<@2:1 number 1@2:3 symbol >>@2:4`\
<--`symbol <-@2:1 symbol -@2:3`\
[]_`symbol []@2:1 symbol _@2:3`\
x]_y`name x@2:1 symbol ]_@2:2 name y@2:4`\
>>_x`symbol >>_@2:1 name x@2:4`\
>>>`symbol >>@2:1 symbol >@2:3`\
...`symbol ..@2:1 symbol .@2:3`\
*)`symbol *@2:1 symbol )@2:2`\
( *`symbol (@2:1 symbol *@2:3`\
|`bad@2:1`\
|-`bad@2:1`\
x $`bad@2:3`\
\xc8`bad@2:1`\
x\xa0`bad@2:2`\
\x00`bad@2:1`";

#[test]
fn the_longest_token_is_taken(rt: HostRuntime) -> Result<(), Fail> {
    passes(&rt, count_lines(rt.alloc(), RUNS), 63)
}

// Texts and their escapes.
static TEXTS: &[u8] = b"\
\"abc\"`text abc@2:1`\
\"\"`text @2:1`\
\"\\\"\\\\\\t\\n\\f\\r\"`text \"\\\t\n\x0c\r@2:1`\
\"\\q\"`bad@2:1`\
\"abc`bad@2:1`\
\"a\nb\"`bad@2:1`\
\"a\tb\"`bad@2:1`\
\"\xc3\xa9\"`bad@2:1`\
\"(*\"`text (*@2:1`\
\"a\"\"b\"`text a@2:1 text b@2:4`\
\"\\\"`bad@2:1`\
\"\\`bad@2:1`\
x\"~ !\"`name x@2:1 text ~ !@2:2`\
\"\\\"\"x`text \"@2:1 name x@2:5`";

#[test]
fn texts_stand_on_one_line(rt: HostRuntime) -> Result<(), Fail> {
    passes(&rt, count_lines(rt.alloc(), TEXTS), 14)
}

// Comments, notes and columns.
static COMMENTS: &[u8] = b"\
\\* hi\nx`name x@3:1{ hi}`\
\\* a\n\\* b\nx`name x@4:1{ a\n b}`\
(* a *)x`name x@2:8{ a }`\
(* a (* b *) c *)x`name x@2:18{ a (* b *) c }`\
(**)x`name x@2:5`\
(*)x`open@2:1`\
(* (* *)`open@2:1`\
x (* `open@2:3`\
(*`open@2:1`\
(***)x`name x@2:6{*}`\
\\* (*\nx`name x@3:1{ (*}`\
(* \\* *)x`name x@2:9{ \\* }`\
(* a\nb *)x`name x@3:5{ a\nb }`\
(* \" *)x`name x@2:8{ \" }`\
(*a*)(*b*)x`name x@2:11{a\nb}`\
(*a*) \\*b\nx`name x@3:1{a\nb}`\
(*a*)x(*b*)y`name x@2:6{a} name y@2:12{b}`\
(**)(**)x`name x@2:9{\n}`\
x(*a*)`name x@2:1`\
x \\* end`name x@2:1`\
\\*\r\nx`name x@3:1{\r}`\
(* \xc3\xa9 *)x`name x@2:8{ \xc3\xa9 }`\
\\* \xff\xfe\nx`name x@3:1{ \xff\xfe}`\
(*\x80\xbf\xc0*)x`name x@2:6{\x80\xbf\xc0}`\
\tx`name x@2:9`\
\x20\tx`name x@2:9`\
1234567\tx`number 1234567@2:1 name x@2:9`\
12345678\tx`number 12345678@2:1 name x@2:17`\
\t\tx`name x@2:17`\
(*\t*)x`name x@2:11{\t}`\
\r\nx`name x@3:1`\
\x0cx`name x@2:2`\
\n\n  x`name x@4:3`";

#[test]
fn comments_make_notes_and_columns(rt: HostRuntime) -> Result<(), Fail> {
    passes(&rt, count_lines(rt.alloc(), COMMENTS), 33)
}

// Whole files.
static HEADERS: &[u8] = b"\
`no header@0`\
x`no header@0`\
---- MODULE M ----\n====`dashes@1:1 word MODULE@1:6 name M@1:13 dashes@1:15 end@2:1`\
junk --- \\foo\n\t-----MODULE M`dashes@2:9 word MODULE@2:14 name M@2:21`\
---- MODULE`no header@0`\
---- MODULEX M`no header@0`\
---- MODULE_`no header@0`\
--- MODULE M`no header@0`\
----\\* c\n MODULE M`no header@0`\
---- x ---- MODULE M`dashes@1:8 word MODULE@1:13 name M@1:20`\
------ MODULE M`dashes@1:1 word MODULE@1:8 name M@1:15`\
----\n\t \nMODULE\nM`dashes@1:1 word MODULE@3:1 name M@4:1`\
\"---- MODULE M`dashes@1:2 word MODULE@1:7 name M@1:14`\
---- MODULE(`dashes@1:1 word MODULE@1:6 symbol (@1:12`\
----MODULE M`dashes@1:1 word MODULE@1:5 name M@1:12`\
\xc3\xa9\t(*---- MODULE M *)`dashes@1:11 word MODULE@1:16 name M@1:23 symbol *@1:25 symbol )@1:26`\
---- MODULE M ---- (*`open@1:20`\
==== \n---- MODULE M ==== x`dashes@2:1 word MODULE@2:6 name M@2:13 end@2:15`";

#[test]
fn a_module_begins_at_its_header(rt: HostRuntime) -> Result<(), Fail> {
    passes(&rt, count_files(rt.alloc(), HEADERS), 18)
}
