// States read back from their blocks.
use crate::making::{same, text, variables};
use std::alloc::{AllocError, Global};
use std::test::Fail;
use tla_meaning::{Decl, State};
use tla_values::{List, Value, same_value, show};
use trace_text::{StateTextFault, read_state};

// ---- texts

// The texts of values, a line each: of each kind, nested, at the bounds of numbers, with each escape.
const VALUES: &str = r#"TRUE
FALSE
0
7
-1
-10
170141183460469231731687303715884105727
-170141183460469231731687303715884105728
""
"a = 1, b"
"\""
"\\"
"\t"
"\n"
"\f"
"\r"
"t\\n\"\r"
{}
{1, 2, 10}
{{}, {-1}, {{2}, {{}}}}
{FALSE, TRUE, -5, 3, "a", "ab", "b", {}, <<>>, <<1>>}
<<>>
<<1>>
<<"a", "b", <<1, {2}>>>>
<<<<>>>>
[a |-> 1]
[a |-> 1, b_2 |-> "x", c |-> [d |-> {TRUE}]]
[WF |-> 1, x |-> <<[y |-> -2]>>]
(0 :> 1)
(0 :> 1 @@ 1 :> 2)
(2 :> TRUE @@ 3 :> FALSE)
(1 :> 1 @@ 3 :> 2)
("" :> 1)
("IN" :> 1 @@ "a" :> 2)
({} :> {} @@ {1} :> {2})
((0 :> 1) :> ("a b" :> <<>>))"#;

// Texts that no value has, each with a mark behind it: of another form than `show` writes, without an end, or of sets and
// functions out of order.
const NO_VALUES: &str = r#"`
 1`
1 `
01`
-0`
-`
+1`
1.0`
170141183460469231731687303715884105728`
-170141183460469231731687303715884105729`
true`
TRUEFALSE`
"`
"a`
"a\"`
"\q"`
"a" `
'a'`
{`
{1`
{1,2}`
{1, }`
{2, 1}`
{1, 1}`
{1>>`
<1>`
<<1, 2>`
[]`
[a |-> 1, a |-> 2]`
[b |-> 1, a |-> 2]`
[IN |-> 1]`
[a -> 1]`
()`
(1 :> 2)`
("a" :> 2)`
(2 :> 1 @@ 0 :> 1)`"#;

fn block(alloc: Global, text: &[u8]) -> Result<Vec<u8>, AllocError> {
    let mut bytes = Vec::from_slice(alloc, b"/\\ x = ")?;
    bytes.extend_from_slice(text)?;
    bytes.extend_from_slice(b"\n")?;
    Ok(bytes)
}

fn put_values(alloc: Global, state: &State, out: &mut Vec<u8>) -> Result<(), AllocError> {
    for value in state.vals.as_slice() {
        show(alloc, value, out)?;
    }
    Ok(())
}

// Adds the values that are read, and says whether there are some. A state ends by a call of `drop`, here and below, since
// its end at the end of a function has many cases.
fn put_read(
    alloc: Global,
    block: &[u8],
    names: &List<Decl>,
    out: &mut Vec<u8>,
) -> Result<bool, AllocError> {
    match read_state(alloc, block, names) {
        Ok(state) => {
            let put = put_values(alloc, &state, out);
            drop(state);
            put?;
            Ok(true)
        }
        Err(_) => Ok(false),
    }
}

// Whether the text is that of a value, which is shown so again.
fn is_kept(alloc: Global, text: &[u8], names: &List<Decl>) -> Result<bool, AllocError> {
    let bytes = block(alloc, text)?;
    let mut shown = Vec::new(alloc);
    let is_read = put_read(alloc, bytes.as_slice(), names, &mut shown)?;
    Ok(is_read && shown.as_slice() == text)
}

fn kept(alloc: Global, texts: &str) -> Result<u64, AllocError> {
    let names = variables(alloc, &["x"])?;
    let mut count: u64 = 0;
    for text in texts.lines() {
        if is_kept(alloc, text.as_bytes(), &names)? {
            count = count.saturating_add(1);
        }
    }
    Ok(count)
}

fn is_refused(alloc: Global, text: &[u8], names: &List<Decl>) -> Result<bool, AllocError> {
    let bytes = block(alloc, text)?;
    Ok(line_of(alloc, bytes.as_slice(), names) == 1)
}

fn refused(alloc: Global, texts: &str) -> Result<u64, AllocError> {
    let names = variables(alloc, &["x"])?;
    let mut count: u64 = 0;
    for line in texts.lines() {
        let text = line.strip_suffix("`").unwrap_or(line);
        if is_refused(alloc, text.as_bytes(), &names)? {
            count = count.saturating_add(1);
        }
    }
    Ok(count)
}

#[test]
fn texts_of_values_are_read_and_shown_again(rt: HostRuntime) -> Result<(), Fail> {
    same(&rt, kept(rt.alloc(), VALUES), 36)
}

#[test]
fn other_texts_are_bad_lines(rt: HostRuntime) -> Result<(), Fail> {
    same(&rt, refused(rt.alloc(), NO_VALUES), 36)
}

// ---- lines

// The line that is bad, 0 where there is none, and 1000 for want of memory.
fn line_of(alloc: Global, block: &[u8], names: &List<Decl>) -> u64 {
    let answer = read_state(alloc, block, names);
    let line = match &answer {
        Ok(_) => 0,
        Err(StateTextFault::BadLine(line)) => *line,
        Err(StateTextFault::Memory(_)) => 1000,
    };
    drop(answer);
    line
}

// Blocks for the names x and y, each with its bad line.
const BLOCKS: [(&str, u64); 16] = [
    ("/\\ x = 1\n/\\ y = 2\n", 0),
    ("/\\ x = 1\n/\\ z = 2\n", 2),
    ("", 1),
    ("\n", 1),
    ("/\\ x = 1", 1),
    ("/\\ x = 1\n", 2),
    ("/\\ x = 1\n/\\ y = 2", 2),
    ("/\\ x = 1\n/\\ y = \n", 2),
    ("/\\ x = 1\n/\\ y = 2\r\n", 2),
    ("/\\ x = 1\n/\\ y = 2\n\n", 3),
    ("/\\ x = 1\n/\\ y = 2\n/\\ z = 3\n", 3),
    ("/\\ x = 1\n/\\ x = 1\n/\\ y = 2\n", 2),
    ("/\\ y = 2\n/\\ x = 1\n", 1),
    ("/\\ x = {2, 1}\n/\\ y = 2\n", 1),
    ("state 0\n/\\ x = 1\n/\\ y = 2\n", 1),
    ("/\\x = 1\n/\\ y = 2\n", 1),
];

fn wrong_lines(alloc: Global) -> Result<u64, AllocError> {
    let names = variables(alloc, &["x", "y"])?;
    let mut count: u64 = 0;
    for (block, line) in &BLOCKS {
        if line_of(alloc, block.as_bytes(), &names) != *line {
            count = count.saturating_add(1);
        }
    }
    Ok(count)
}

fn line_without_names(alloc: Global, block: &str) -> Result<u64, AllocError> {
    let names = variables(alloc, &[])?;
    Ok(line_of(alloc, block.as_bytes(), &names))
}

#[test]
fn the_first_bad_line_is_told(rt: HostRuntime) -> Result<(), Fail> {
    same(&rt, wrong_lines(rt.alloc()), 0)?;
    same(&rt, line_without_names(rt.alloc(), ""), 0)?;
    same(&rt, line_without_names(rt.alloc(), "\n"), 1)
}

// ---- values

fn numbers(alloc: Global, all: &[i128]) -> Result<List<Value>, AllocError> {
    let mut values = List::new(alloc);
    for number in all {
        values.push(Value::Int(*number))?;
    }
    Ok(values)
}

fn set_field(alloc: Global) -> Result<(Value, Value), AllocError> {
    let name = text(alloc, "members")?;
    let members = numbers(alloc, &[-3, 0, 12])?;
    Ok((Value::Text(name), Value::Set(members)))
}

fn text_field(alloc: Global) -> Result<(Value, Value), AllocError> {
    let name = text(alloc, "name")?;
    let content = text(alloc, "a \"b\"\n\\")?;
    Ok((Value::Text(name), Value::Text(content)))
}

// The record of a set and a text, and the pair of a number below 0 with it.
fn record(alloc: Global) -> Result<Value, AllocError> {
    let mut fields = List::new(alloc);
    fields.push(set_field(alloc)?)?;
    fields.push(text_field(alloc)?)?;
    Ok(Value::Fun(fields))
}

fn function(alloc: Global) -> Result<Value, AllocError> {
    let mut pairs = List::new(alloc);
    pairs.push((Value::Int(-3), record(alloc)?))?;
    Ok(Value::Fun(pairs))
}

const SHOWN: &str =
    "/\\ x = (-3 :> [members |-> {-3, 0, 12}, name |-> \"a \\\"b\\\"\\n\\\\\"])\n/\\ y = [members |-> {-3, 0, 12}, name |-> \"a \\\"b\\\"\\n\\\\\"]\n";

fn two_values(alloc: Global) -> Result<List<Value>, AllocError> {
    let mut values = List::new(alloc);
    values.push(function(alloc)?)?;
    values.push(record(alloc)?)?;
    Ok(values)
}

fn are_same(found: &[Value], wanted: &[Value]) -> bool {
    match (found, wanted) {
        ([a, b], [c, d]) => same_value(a, c) && same_value(b, d),
        _ => false,
    }
}

// Whether the block has these two values.
fn has(alloc: Global, block: &str, names: &List<Decl>, wanted: &List<Value>) -> bool {
    let answer = read_state(alloc, block.as_bytes(), names);
    let has = match &answer {
        Ok(state) => are_same(state.vals.as_slice(), wanted.as_slice()),
        Err(_) => false,
    };
    drop(answer);
    has
}

fn are_read(alloc: Global) -> Result<bool, AllocError> {
    let names = variables(alloc, &["x", "y"])?;
    let wanted = two_values(alloc)?;
    Ok(has(alloc, SHOWN, &names, &wanted))
}

#[test]
fn the_values_of_a_block_are_read(rt: HostRuntime) -> Result<(), Fail> {
    assert!(rt; are_read(rt.alloc())?);
    Ok(())
}

// ---- depth

// The set that holds a set, and so on: so many of them.
fn nested(alloc: Global, depth: usize) -> Result<Vec<u8>, AllocError> {
    let mut text = Vec::new(alloc);
    for _ in 0..depth {
        text.push(b'{')?;
    }
    for _ in 0..depth {
        text.push(b'}')?;
    }
    Ok(text)
}

fn line_at_depth(alloc: Global, depth: usize) -> Result<u64, AllocError> {
    let names = variables(alloc, &["x"])?;
    let text = nested(alloc, depth)?;
    let bytes = block(alloc, text.as_slice())?;
    Ok(line_of(alloc, bytes.as_slice(), &names))
}

#[test]
fn a_thousand_brackets_are_read_and_more_are_refused(rt: HostRuntime) -> Result<(), Fail> {
    same(&rt, line_at_depth(rt.alloc(), 1000), 0)?;
    same(&rt, line_at_depth(rt.alloc(), 1001), 1000)?;
    same(&rt, line_at_depth(rt.alloc(), 100000), 1000)
}
