//! The cells of a case.

ghost use Rattle.std.specs.Prelude.{◌<◌, ◌≡◌, IfOk, length, map};

use cell_arena::{Build, CellId, all_differ};
use sat_formula::{Lit, Word};
use std::alloc::{AllocError, Global};
use tla_values::{List, Text, copy_text};
use word_blaster::literal;

fn texts(alloc: Global, all: &[&[u8]]) -> Result<List<Text>, AllocError> {
    let mut list = List::new(alloc);
    for bytes in all {
        let text = Text::from_vec(Vec::from_slice(alloc, bytes)?);
        list.push(text)?;
    }
    Ok(list)
}

/// A build of words of four bits over the texts `f`, `g` and the empty one, with four free bits.
#[tactic(auto, using(cell_arena::proofs::Growing::growing))]
pub fn begun(alloc: Global) -> Result<Build, AllocError> {
    let texts = texts(alloc, &[b"f", b"g", b""])?;
    if !all_differ(texts.as_slice()) {
        return Err(AllocError);
    }
    let mut b = Build::new(alloc, &texts, 4)?;
    for _i in 0..4 {
        free(&mut b)?;
    }
    Ok(b)
}

#[tactic(auto, using(cell_arena::proofs::Growing::growing))]
fn free(b: &mut Build) -> Result<(), AllocError> {
    let _ = b.formula.fresh()?;
    Ok(())
}

// The literal with this letter; its variable need not be one of a formula.
fn literal_of(code: u8) -> Lit {
    match code {
        b'a'..=b'd' => Lit {
            var: (code - b'a') as usize + 1,
            neg: false,
        },
        b'A'..=b'D' => Lit {
            var: (code - b'A') as usize + 1,
            neg: true,
        },
        _ => Lit {
            var: 0,
            neg: code != b'T',
        },
    }
}

fn place_of(code: u8) -> CellId {
    let index = code.saturating_sub(b'0') as usize;
    CellId { index }
}

fn places_of(alloc: Global, letters: &[u8]) -> Result<Vec<CellId>, AllocError> {
    let mut places = Vec::new(alloc);
    for code in letters {
        places.push(place_of(*code))?;
    }
    Ok(places)
}

#[tactic(auto, using(cell_arena::proofs::Growing::growing))]
fn truth(b: &mut Build, letters: &[u8]) -> Result<CellId, AllocError> {
    let [code] = letters else {
        return Err(AllocError);
    };
    let l = literal_of(*code);
    if l.var >= b.formula.vars() {
        return Err(AllocError);
    }
    b.bit(l)
}

#[tactic(auto, using(cell_arena::proofs::Growing::growing), unfolding(word_blaster::specs::Word::WordBelow))]
fn word_of(b: &mut Build, lits: Vec<Lit>) -> Result<CellId, AllocError> {
    let vars = b.formula.vars();
    let count = lits.as_slice().len();
    if count != b.width() as usize || !lits.as_slice().iter().all(|l| l.var < vars) {
        return Err(AllocError);
    }
    b.word(Word::from_vec(lits))
}

fn number(alloc: Global, b: &mut Build, letters: &[u8]) -> Result<CellId, AllocError> {
    let mut lits = Vec::new(alloc);
    for code in letters {
        lits.push(literal_of(*code))?;
    }
    word_of(b, lits)
}

#[tactic(auto, using(cell_arena::proofs::Growing::growing))]
fn text(alloc: Global, b: &mut Build, letters: &[u8]) -> Result<CellId, AllocError> {
    let [code] = letters else {
        return Err(AllocError);
    };
    let index = place_of(*code).index;
    if index >= b.texts().len() {
        return Err(AllocError);
    }
    let (code, _) = literal(alloc, &mut b.formula, index as i128, 32)?;
    b.text(code)
}

/// The set of these edges.
#[tactic(auto, using(cell_arena::proofs::Growing::growing))]
pub fn set_of(b: &mut Build, edges: Vec<(Lit, CellId)>) -> Result<CellId, AllocError> {
    let vars = b.formula.vars();
    let count = b.arena.len();
    let list = edges.as_slice();
    let named = list.iter().all(|e| e.0.var < vars);
    let older = list.iter().all(|e| e.1.index < count);
    if !named || !older {
        return Err(AllocError);
    }
    b.set(List::from_vec(edges))
}

fn set(alloc: Global, b: &mut Build, letters: &[u8]) -> Result<CellId, AllocError> {
    let mut edges = Vec::new(alloc);
    for i in 0..letters.len() / 2 {
        let l = literal_of(letters[2 * i]);
        edges.push((l, place_of(letters[2 * i + 1])))?;
    }
    set_of(b, edges)
}

#[tactic(auto, using(cell_arena::proofs::Growing::growing))]
fn function_of(b: &mut Build, edges: Vec<(Lit, CellId, CellId)>) -> Result<CellId, AllocError> {
    let vars = b.formula.vars();
    let count = b.arena.len();
    let list = edges.as_slice();
    let named = list.iter().all(|e| e.0.var < vars);
    let older = list.iter().all(|e| e.1.index < count && e.2.index < count);
    if !named || !older {
        return Err(AllocError);
    }
    b.fun(List::from_vec(edges))
}

fn function(alloc: Global, b: &mut Build, letters: &[u8]) -> Result<CellId, AllocError> {
    let mut edges = Vec::new(alloc);
    for i in 0..letters.len() / 3 {
        let l = literal_of(letters[3 * i]);
        let from = place_of(letters[3 * i + 1]);
        edges.push((l, from, place_of(letters[3 * i + 2])))?;
    }
    function_of(b, edges)
}

// The first names with these cells.
fn fields(
    alloc: Global,
    names: &[Text],
    parts: &[CellId],
) -> Result<List<(Text, CellId)>, AllocError>
    requires { length names.now ≡ length parts.now }
    ensures { IfOk result (λ fs. map (λ f. f.0) fs ≡ names.now) }
{
    let mut fields = Vec::new(alloc);
    for i in 0..names.len() {
        let name = copy_text(alloc, &names[i])?;
        fields.push((name, parts[i]))?;
    }
    Ok(List::from_vec(fields))
}

#[tactic(auto, using(cell_arena::proofs::Growing::growing))]
fn record(alloc: Global, b: &mut Build, letters: &[u8]) -> Result<CellId, AllocError> {
    let all: [&[u8]; 3] = [b"g", b"f", b"h"];
    if letters.len() > 3 {
        return Err(AllocError);
    }
    let names = texts(alloc, &all[..letters.len()])?;
    let parts = places_of(alloc, letters)?;
    if names.len() != parts.len() || !all_differ(names.as_slice()) {
        return Err(AllocError);
    }
    let fields = fields(alloc, names.as_slice(), parts.as_slice())?;
    let count = b.arena.len();
    if !fields.as_slice().iter().all(|f| f.1.index < count) {
        return Err(AllocError);
    }
    b.rec(fields)
}

#[tactic(auto, using(cell_arena::proofs::Growing::growing))]
fn tuple(alloc: Global, b: &mut Build, letters: &[u8]) -> Result<CellId, AllocError> {
    let parts = places_of(alloc, letters)?;
    let count = b.arena.len();
    if !parts.as_slice().iter().all(|p| p.index < count) {
        return Err(AllocError);
    }
    b.tup(List::from_vec(parts))
}

#[tactic(auto, using(cell_arena::proofs::Growing::growing))]
fn sequence_of(
    alloc: Global,
    b: &mut Build,
    length: usize,
    places: Vec<CellId>,
) -> Result<CellId, AllocError> {
    let count = b.arena.len();
    let room = places.as_slice().len();
    let older = places.as_slice().iter().all(|p| p.index < count);
    if length > room || room >= 1 << 31 || !older {
        return Err(AllocError);
    }
    let (word, _) = literal(alloc, &mut b.formula, length as i128, 32)?;
    b.seq(word, List::from_vec(places))
}

fn sequence(alloc: Global, b: &mut Build, letters: &[u8]) -> Result<CellId, AllocError> {
    let [length, places @ ..] = letters else {
        return Err(AllocError);
    };
    let places = places_of(alloc, places)?;
    sequence_of(alloc, b, place_of(*length).index, places)
}

/// The cell of a word.
pub fn cell(alloc: Global, b: &mut Build, word: &str) -> Result<CellId, AllocError> {
    let [kind, letters @ ..] = word.as_bytes() else {
        return Err(AllocError);
    };
    match kind {
        b'B' => truth(b, letters),
        b'N' => number(alloc, b, letters),
        b'X' => text(alloc, b, letters),
        b'S' => set(alloc, b, letters),
        b'A' => function(alloc, b, letters),
        b'R' => record(alloc, b, letters),
        b'U' => tuple(alloc, b, letters),
        b'Q' => sequence(alloc, b, letters),
        _ => Err(AllocError),
    }
}
