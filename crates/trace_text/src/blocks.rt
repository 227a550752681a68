// States read back from their blocks.
ghost use Rattle.std.specs.Prelude.{◌≡◌, ◌+◌, ◌≤◌, ◌++◌, ◌∷◌, [], ℕ, IfOk, List as Items, MatchOption, MatchResult, alloc_error, codes, length};
ghost use Rattle.tla_values.specs.Show.{text_of};
ghost use Rattle.tla_meaning.specs.declared.expr.Decl.{Decl as Name};
ghost use Rattle.tla_meaning.specs.declared.job.State.{State as Valuation};
ghost use Rattle.trace_text.specs.Blocks.{IsBadLine, IsBlock, IsFaultOf, IsStateOf};
ghost use Rattle.trace_text.specs.Reports.{block_text};
ghost use Rattle.trace_text.specs.declared.faults.StateTextFault.TheVariants.{Memory as wants_memory};
ghost use Rattle.trace_text.specs.inner.LineParts.{AreLines, HasNoLine, IsLine, line_front};

use crate::bytes::behind;
use crate::faults::{StateTextFault, Unread};
use crate::reading::read_value;
use std::alloc::{AllocError, Global};
use tla_meaning::{Decl, State};
use tla_values::{List, Text, Value, is_normal, show};

// How many brackets may be open at one place of a value, so that the stack does not run out.
const DEEPEST: u32 = 1000;

/// No two states have one block, and no two lines are the first bad one.
pub fn blocks_are_read_one_way()
    ensures states { (names : Items Name) (s t : Valuation) → IsStateOf names s → IsStateOf names t
        → block_text names s ≡ block_text names t → s ≡ t }
    ensures lines { (names : Items Name) (bytes : Items ℕ) (m n : ℕ)
        → IsBadLine names bytes m → IsBadLine names bytes n → m ≡ n }
{}

/// The state whose block the bytes are: for each name, in their order, a line `/\ name = value` with its line feed.
///
/// The values are normal. `BadLine` gives, counted from 1, the first line that is not the next name with the text of
/// a value; a line that is wanting, that has no line feed or that stands behind the last name's is bad too. A value
/// with more than 1,000 brackets open at one place is answered as want of memory, since the stack is memory too.
pub fn read_state(alloc: Global, bytes: &[u8], names: &List<Decl>) -> Result<State, StateTextFault>
    ensures { MatchResult result (IsBlock names.now bytes.now) (IsFaultOf names.now bytes.now) }
{
    let names = names.as_slice();
    let (vals, rest) = read_lines(alloc, bytes, names)?;
    if rest.is_empty() {
        Ok(State { vals })
    } else {
        Err(StateTextFault::BadLine(names.len() as u64 + 1))
    }
}

// A value for each name, and what stands behind the last line.
fn read_lines<'a>(
    alloc: Global,
    bytes: &'a [u8],
    names: &[Decl],
) -> Result<(List<Value>, &'a [u8]), StateTextFault>
    ensures lines { MatchResult result (λ p. AreLines names.now bytes.now p.0 p.1.now)
        (IsFaultOf names.now bytes.now) }
    ensures room { IfOk result (λ p. length names.now + length p.1.now ≤ length bytes.now) }
{
    let mut values = List::new(alloc);
    let mut rest = bytes;
    for i in 0..names.len() {
        match read_line(alloc, &names[i].name, rest) {
            Ok((value, more)) => {
                push(value, &mut values)?;
                rest = more;
            }
            Err(Unread::NoValue) => return Err(StateTextFault::BadLine(i as u64 + 1)),
            Err(Unread::Memory(_)) => return Err(StateTextFault::Memory(AllocError)),
        }
    }
    Ok((values, rest))
}

fn push(value: Value, values: &mut List<Value>) -> Result<(), StateTextFault>
    ensures { MatchResult result (λ _. values.new ≡ values.old ++ value ∷ []) (λ e. e ≡ wants_memory alloc_error) }
{
    match values.push(value) {
        Ok(()) => Ok(()),
        Err(_) => Err(StateTextFault::Memory(AllocError)),
    }
}

// The value in the line of this name, where it stands in front, and what stands behind it.
fn read_line<'a>(alloc: Global, name: &Text, bytes: &'a [u8]) -> Result<(Value, &'a [u8]), Unread>
    ensures { MatchResult result (λ p. IsLine name.now bytes.now p.0 p.1.now) (HasNoLine name.now bytes.now) }
{
    let Some(value_text) = behind_name(name, bytes) else {
        return Err(Unread::NoValue);
    };
    let (value, _) = read_value(alloc, value_text, DEEPEST)?;
    if !is_normal(&value) {
        return Err(Unread::NoValue);
    }
    match behind_value(alloc, &value, value_text)? {
        Some(rest) => Ok((value, rest)),
        None => Err(Unread::NoValue),
    }
}

// What stands behind the name and its equals sign.
fn behind_name<'a>(name: &Text, bytes: &'a [u8]) -> Option<&'a [u8]>
    ensures { MatchOption result ((rest : Items ℕ) → bytes.now ≡ line_front name.now ++ rest → ⊥)
        (λ rest. bytes.now ≡ line_front name.now ++ rest.now) }
{
    let after_mark = behind(bytes, b"/\\ ")?;
    let after_name = behind(after_mark, name.bytes())?;
    behind(after_name, b" = ")
}

// What stands behind the text of the value and its line feed.
fn behind_value<'a>(
    alloc: Global,
    value: &Value,
    bytes: &'a [u8],
) -> Result<Option<&'a [u8]>, AllocError>
    ensures { IfOk result (λ o. MatchOption o ((rest : Items ℕ) → bytes.now ≡ (text_of value.now ++ codes "\n") ++ rest → ⊥)
        (λ rest. bytes.now ≡ (text_of value.now ++ codes "\n") ++ rest.now)) }
{
    let mut line = Vec::new(alloc);
    show(alloc, value, &mut line)?;
    line.push(b'\n')?;
    Ok(behind(bytes, line.as_slice()))
}
