//! Equality of functions and of sequences, against the values of both.

ghost use Rattle.cell_arena.specs.Growth.{Grows};
ghost use Rattle.cell_merge.specs.Sorts.{OfSort, OneType, function_of, number, sequence_of, truth};
ghost use Rattle.function_tests.specs.Shapes.{IsArrow};
ghost use Rattle.sat_formula.specs.Formula.{Grows as FormulaGrows, Satisfies};
ghost use Rattle.sat_formula.specs.Lit.{IsBelow};
ghost use Rattle.std.specs.Prelude.{◌<◌, ◌≤◌, ◌≡◌, All, Bool, IfOk, List as AnyList, pos};
ghost use Rattle.word_blaster.specs.Word.{IsWord, word_value};

use crate::building::{free_bits, literal_of, number, truth};
use crate::decoding::{extended, shown_at};
use crate::solving::{counts, differences};
use cell_arena::{Build, CellId};
use cell_merge::{choose_cell, same};
use sat_formula::{Formula, Lit, Word};
use std::alloc::{AllocError, Global};
use std::test::Fail;
use tla_values::List;
use word_blaster::literal;

// The letter at a place, and F past the end.
fn letter(letters: &[u8], place: usize) -> u8 {
    match letters.get(place) {
        Some(code) => *code,
        None => b'F',
    }
}

// An arrow by the letters of its argument, of whether it is there and of its result.
#[tactic(auto, using(cell_arena::proofs::Growing::growing))]
fn arrow(
    alloc: Global,
    b: &mut Build,
    bits: &[Lit],
    letters: [u8; 3],
) -> Result<(Lit, CellId, CellId), AllocError>
    requires { All (IsBelow b.old.formula.vars) bits.now }
    ensures arrow { IfOk result (IsArrow b.new) }
    ensures grows { Grows b.old b.new }
{
    let [argument, there, value] = letters;
    let l = literal_of(b, bits, there);
    let x = number(alloc, b, bits, argument)?;
    let y = truth(b, bits, value)?;
    Ok((l, x, y))
}

// A function from numbers to truth values, by the letters of its arguments, of what is there and of the
// results.
#[tactic(auto, using(cell_arena::proofs::Growing::growing))]
fn function(
    alloc: Global,
    b: &mut Build,
    bits: &[Lit],
    letters: [&str; 3],
) -> Result<CellId, AllocError>
    requires { All (IsBelow b.old.formula.vars) bits.now }
    ensures sort { IfOk result (OfSort b.new.arena.kinds (function_of number truth)) }
    ensures grows { Grows b.old b.new }
{
    let [arguments, there, results] = letters;
    let arguments = arguments.as_bytes();
    let mut list = Vec::new(alloc);
    for i in 0..arguments.len() {
        let three = [
            arguments[i],
            letter(there.as_bytes(), i),
            letter(results.as_bytes(), i),
        ];
        let one = arrow(alloc, b, bits, three)?;
        list.push(one)?;
    }
    let id = b.fun(List::from_vec(list))?;
    Ok(id)
}

// The word of a small number.
#[tactic(auto, using(sat_formula::proofs::Extension::gates))]
fn length_word(alloc: Global, formula: &mut Formula, count: usize) -> Result<Word, AllocError>
    requires { count ≤ 100 }
    ensures word { IfOk result (λ w. IsWord formula.new.vars 32 w) }
    ensures value { IfOk result (λ w. (a : AnyList Bool) → Satisfies a formula.new → word_value w a ≡ pos count) }
    ensures grows { FormulaGrows formula.old formula.new }
{
    let (word, _) = literal(alloc, formula, count as i128, 32)?;
    Ok(word)
}

// The sequence of these places.
#[tactic(auto, using(cell_arena::proofs::Growing::growing))]
fn counted(alloc: Global, b: &mut Build, places: Vec<CellId>) -> Result<CellId, AllocError>
    requires { All (OfSort b.old.arena.kinds number) places.items }
    ensures sort { IfOk result (OfSort b.new.arena.kinds (sequence_of number)) }
    ensures grows { Grows b.old b.new }
{
    let count = places.as_slice().len();
    if count > 100 {
        return Err(AllocError);
    }
    let word = length_word(alloc, &mut b.formula, count)?;
    let id = b.seq(word, List::from_vec(places))?;
    Ok(id)
}

// The sequence of the numbers with these letters.
#[tactic(auto, using(cell_arena::proofs::Growing::growing))]
fn sequence(
    alloc: Global,
    b: &mut Build,
    bits: &[Lit],
    letters: &[u8],
) -> Result<CellId, AllocError>
    requires { All (IsBelow b.old.formula.vars) bits.now }
    ensures sort { IfOk result (OfSort b.new.arena.kinds (sequence_of number)) }
    ensures grows { Grows b.old b.new }
{
    let mut places = Vec::new(alloc);
    for i in 0..letters.len() {
        let place = number(alloc, b, bits, letters[i])?;
        places.push(place)?;
    }
    let id = counted(alloc, b, places)?;
    Ok(id)
}

// The first of two sequences where the literal is true, and else the second.
#[tactic(auto, using(cell_arena::proofs::Growing::growing))]
fn one_of(
    alloc: Global,
    b: &mut Build,
    bits: &[Lit],
    letters: [&str; 3],
) -> Result<CellId, AllocError>
    requires { All (IsBelow b.old.formula.vars) bits.now }
    ensures sort { IfOk result (OfSort b.new.arena.kinds (sequence_of number)) }
    ensures grows { Grows b.old b.new }
{
    let [first, there, second] = letters;
    let l = literal_of(b, bits, letter(there.as_bytes(), 0));
    let x = sequence(alloc, b, bits, first.as_bytes())?;
    let y = sequence(alloc, b, bits, second.as_bytes())?;
    let id = choose_cell(b, l, x, y)?;
    Ok(id)
}

// Two functions or, where the first word is one, two sequences, and whether they are equal.
#[tactic(auto, using(cell_arena::proofs::Growing::growing))]
fn compared(
    alloc: Global,
    b: &mut Build,
    sequences: bool,
    left: [&str; 3],
    right: [&str; 3],
) -> Result<[CellId; 3], AllocError> {
    let bits = free_bits(alloc, b)?;
    if sequences {
        let first_sequence = one_of(alloc, b, bits.as_slice(), left)?;
        let second_sequence = one_of(alloc, b, bits.as_slice(), right)?;
        let same_items = same(b, first_sequence, second_sequence)?;
        let told = b.bit(same_items)?;
        return Ok([first_sequence, second_sequence, told]);
    }
    let first_function = function(alloc, b, bits.as_slice(), left)?;
    let second_function = function(alloc, b, bits.as_slice(), right)?;
    let same_arrows = same(b, first_function, second_function)?;
    let told = b.bit(same_arrows)?;
    Ok([first_function, second_function, told])
}

// The values of `top` and of the four bits of a number.
fn given(alloc: Global, n: u8) -> Result<Vec<bool>, AllocError> {
    let mut a = Vec::new(alloc);
    a.push(true)?;
    let mut rest = n;
    for _i in 0..4 {
        a.push(rest % 2 == 1)?;
        rest /= 2;
    }
    Ok(a)
}

// Whether the two have one value, and whether the third says so.
fn told(alloc: Global, b: &Build, cells: [CellId; 3], n: u8) -> Result<(bool, bool), AllocError> {
    let [x, y, equal] = cells;
    let a = given(alloc, n)?;
    let values = extended(alloc, &b.formula, a.as_slice())?;
    let left = shown_at(alloc, b, values.as_slice(), x)?;
    let right = shown_at(alloc, b, values.as_slice(), y)?;
    let said = shown_at(alloc, b, values.as_slice(), equal)?;
    Ok((
        left.as_slice() == right.as_slice(),
        said.as_slice() == b"TRUE".as_slice(),
    ))
}

// Of the 16 values of the bits, under how many the two are equal; none where one of them is told
// otherwise.
#[tactic(auto, using(cell_arena::proofs::Growing::growing))]
fn equal_under(
    alloc: Global,
    sequences: bool,
    left: [&str; 3],
    right: [&str; 3],
) -> Result<Option<usize>, AllocError> {
    let mut b = Build::new(alloc, &List::new(alloc), 4)?;
    let cells = compared(alloc, &mut b, sequences, left, right)?;
    let mut count: usize = 0;
    for n in 0..16u8 {
        let (is, said) = told(alloc, &b, cells, n)?;
        if is != said {
            return Ok(None);
        }
        if is {
            count = count.saturating_add(1);
        }
    }
    Ok(Some(count))
}

// Two functions by their arguments, by what is there and by their results, and under how many of the 16
// values of the bits they are equal, by a model of dictionaries: an order of arguments, an arrow behind
// one of its argument, an arrow that is never there, arguments that may be equal.
const FUNCTIONS: [([&str; 3], [&str; 3], usize); 12] = [
    (["012", "TTT", "abc"], ["210", "TTT", "cba"], 16),
    (["00", "Ta", "bc"], ["0", "T", "b"], 16),
    (["00", "aT", "bc"], ["0", "T", "b"], 12),
    (["m0", "TT", "ab"], ["01", "TT", "bc"], 4),
    (["0m1", "abT", "cdT"], ["01m", "TaT", "cTb"], 8),
    (["01", "FT", "ab"], ["1", "T", "b"], 16),
    (["", "", ""], ["0", "a", "T"], 8),
    (["mk", "TT", "ab"], ["km", "TT", "ba"], 16),
    (["mm", "TT", "ab"], ["m", "T", "a"], 16),
    (["m1", "TT", "ab"], ["1m", "TT", "ba"], 12),
    (["01", "ab", "cd"], ["10", "ba", "DC"], 4),
    (["0k1", "aTT", "bcd"], ["1k", "TT", "dc"], 6),
];

// Two sequences, each one or another by a literal, and under how many of the 16 values they are equal.
const SEQUENCES: [([&str; 3], [&str; 3], usize); 7] = [
    (["12", "a", "12m"], ["12", "T", ""], 8),
    (["01", "a", "0"], ["0", "b", "01"], 8),
    (["mk", "a", "k"], ["01", "T", ""], 4),
    (["", "a", "1"], ["", "b", "k"], 6),
    (["123", "a", ""], ["1", "b", "123"], 4),
    (["kk", "a", "mmm"], ["k2", "b", "110"], 2),
    (["", "T", ""], ["", "F", ""], 16),
];

#[test]
fn functions_are_equal_by_their_first_results(rt: HostRuntime) -> Result<(), Fail> {
    for (left, right, count) in FUNCTIONS {
        let under = equal_under(rt.alloc(), false, left, right)?;
        assert_eq!(rt; under, Some(count), "{}", left[0]);
    }
    Ok(())
}

#[test]
fn sequences_are_equal_by_the_places_within_their_length(rt: HostRuntime) -> Result<(), Fail> {
    for (left, right, count) in SEQUENCES {
        let under = equal_under(rt.alloc(), true, left, right)?;
        assert_eq!(rt; under, Some(count), "{}", left[0]);
    }
    Ok(())
}

// What the equality of two adds: variables, clauses and the cell that tells it.
#[tactic(auto, using(cell_arena::proofs::Growing::growing))]
fn added(
    alloc: Global,
    sequences: bool,
    left: [&str; 3],
    right: [&str; 3],
) -> Result<[usize; 3], AllocError> {
    let mut b = Build::new(alloc, &List::new(alloc), 4)?;
    let bits = free_bits(alloc, &mut b)?;
    if sequences {
        let first_sequence = one_of(alloc, &mut b, bits.as_slice(), left)?;
        let second_sequence = one_of(alloc, &mut b, bits.as_slice(), right)?;
        let before = counts(&b);
        let _ = same(&mut b, first_sequence, second_sequence)?;
        return Ok(differences(counts(&b), before));
    }
    let first_function = function(alloc, &mut b, bits.as_slice(), left)?;
    let second_function = function(alloc, &mut b, bits.as_slice(), right)?;
    let before = counts(&b);
    let _ = same(&mut b, first_function, second_function)?;
    Ok(differences(counts(&b), before))
}

const SIXTEEN: &str = "()*+,-./01234567";

const ALL: &str = "TTTTTTTTTTTTTTTT";

// By a model of the gates, equal ones made once: 16 constant arguments in one order with the same two
// results cost their equality once and one conjunction of 16, and so they do where arrows that are never
// there stand between; literals that are free cost four gates more. The places of sequences of known
// lengths cost what their items do.
const SIZES: [(bool, [&str; 3], [&str; 3], [usize; 3]); 4] = [
    (
        false,
        [SIXTEEN, ALL, "aaaaaaaaaaaaaaaa"],
        [SIXTEEN, ALL, "bbbbbbbbbbbbbbbb"],
        [2, 21, 0],
    ),
    (
        false,
        ["0123", "TFTF", "aaaa"],
        ["0213", "TTFF", "bbbb"],
        [2, 7, 0],
    ),
    (
        false,
        ["0123", "cccc", "aaaa"],
        ["0123", "dddd", "bbbb"],
        [6, 25, 0],
    ),
    (true, ["1m", "T", ""], ["11", "T", ""], [0, 0, 0]),
];

#[test]
fn equalities_add_no_more_than_they_need(rt: HostRuntime) -> Result<(), Fail> {
    for (sequences, left, right, size) in SIZES {
        assert_eq!(rt;
            added(rt.alloc(), sequences, left, right)?,
            size,
            "{}",
            left[0]
        );
    }
    Ok(())
}
