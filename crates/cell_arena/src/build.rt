//! Arenas over formulas.

ghost use Rattle.sat_formula.specs.Lit.{lit_value, IsBelow, top_lit};
ghost use Rattle.sat_formula.specs.Formula.{Satisfies};
ghost use Rattle.word_blaster.specs.Word.{word_value, WordBelow};
ghost use Rattle.tla_values.specs.Sets.{set_of, function_of};
ghost use Rattle.tla_values.specs.Sequences.{sequence};
ghost use Rattle.std.specs.Prelude.{◌≡◌, ℕ, ◌+◌, ◌<◌, ◌≤◌, ◌++◌, ◌∷◌, [], Bool, true, length, map, IfOk, OnOk, OnErr, IsTrue, All, List};
ghost use Rattle.cell_arena.specs.Decode.{decode, kind_value, present, present_pairs, field_pairs, text_at, first_places};
ghost use Rattle.cell_arena.specs.Cells.{WellBuilt, InRange, IsHeld, AllDiffer, is_index, in_range};
ghost use Rattle.cell_arena.specs.inner.Props.{WellBuilt-prop, InRange-prop};

use crate::arena::Arena;
use crate::kinds::{CellId, CellKind};
use sat_formula::{Formula, Lit, Word};
use std::alloc::{AllocError, Global};
use tla_values::{List, Text, Value};

/// An arena over a formula. Under each assignment that satisfies the formula each cell has one
/// value, the codes of texts are indexes into the texts, and the lengths of sequences are numbers
/// of their places. A call that makes a cell answers the older one where there is one of its kind.
#[derive(Drop)]
pub struct Build {
    pub arena: Arena,
    pub formula: Formula,
    pub ghost fits: { arena.vars ≤ formula.vars },
    pub ghost built: { WellBuilt arena } by { WellBuilt-prop arena },
    pub ghost ranges: { InRange arena formula } by { InRange-prop arena formula },
}

impl Build {
    ghost use Rattle.cell_arena.specs.Growth.{Grows, Decodes, Adds};

    /// No cells over the formula with its first variable alone. The texts, no two of which are
    /// equal, are those of codes, and words have the width, from 4 to 64. Want of memory is
    /// answered for 2^31 or more texts. The build keeps the allocator.
    #[tactic(auto, using(crate::proofs::Growing::growing))]
    pub fn new(alloc: Global, texts: &List<Text>, width: u32) -> Result<Build, AllocError>
        requires differ { AllDiffer texts.now }
        requires from { 4 ≤ width }
        requires to { width ≤ 64 }
        ensures arena { IfOk result (λ b. b.arena ≡ record { texts = texts.now; width = width; kinds = []; vars = 0 }) }
        ensures formula { IfOk result (λ b. b.formula ≡ record { vars = 1; clauses = (top_lit ∷ []) ∷ [] }) }
        ensures satisfiable { IfOk result (λ b. Satisfies (true ∷ []) b.formula) }
    {
        let formula = Formula::new(alloc)?;
        let arena = Arena::new(alloc, texts, width)?;
        Ok(Build { arena, formula })
    }

    /// The texts that the codes of text cells stand for. It takes no memory.
    pub fn texts(&self) -> &List<Text>
        ensures { result.now ≡ self.now.arena.texts }
    {
        self.arena.texts()
    }

    /// The width of words. It takes no memory.
    pub fn width(&self) -> u32
        ensures same { result ≡ self.now.arena.width }
        ensures narrow { (4 ≤ result) × (result ≤ 64) }
    {
        self.arena.width()
    }

    // The cell of this kind; one more where there is none.
    #[tactic(auto, using(crate::proofs::Growing::growing))]
    fn make(&mut self, kind: CellKind) -> Result<CellId, AllocError>
        requires held { IsHeld (length self.old.arena.kinds) self.old.formula.vars self.old.arena.width kind }
        requires ranges { (a : List Bool) → Satisfies a self.old.formula → IsTrue (in_range (length self.old.arena.texts) a kind) }
        ensures cell { IfOk result (Adds self.old self.new kind) }
        ensures value { IfOk result (λ id. Decodes self.new id (λ a. kind_value self.old.arena.texts a (decode self.old.arena a) kind)) }
        ensures grows { Grows self.old self.new }
    {
        if let Some(id) = self.arena.find(&kind) {
            return Ok(id);
        }
        let vars = self.formula.vars();
        let id = self.arena.push(kind, vars)?;
        Ok(id)
    }

    /// The truth value of a literal.
    #[tactic(auto, using(crate::proofs::Growing::growing))]
    pub fn bit(&mut self, l: Lit) -> Result<CellId, AllocError>
        requires { l.var < self.old.formula.vars }
        ensures cell { IfOk result (Adds self.old self.new (CellKind.Bit l)) }
        ensures value { IfOk result (λ id. Decodes self.new id (λ a. Value.Bool (lit_value l a))) }
        ensures grows { Grows self.old self.new }
    {
        let id = self.make(CellKind::Bit(l))?;
        Ok(id)
    }

    /// The number of a word of the build's width.
    #[tactic(auto, using(crate::proofs::Growing::growing))]
    pub fn word(&mut self, w: Word) -> Result<CellId, AllocError>
        requires wide { length w ≡ self.old.arena.width }
        requires named { WordBelow self.old.formula.vars w }
        ensures cell { IfOk result (Adds self.old self.new (CellKind.Word w)) }
        ensures value { IfOk result (λ id. Decodes self.new id (λ a. Value.Int (word_value w a))) }
        ensures grows { Grows self.old self.new }
    {
        let id = self.make(CellKind::Word(w))?;
        Ok(id)
    }

    /// The text with a code: a word of 32 bits that is an index into the build's texts under each
    /// satisfying assignment.
    #[tactic(auto, using(crate::proofs::Growing::growing))]
    pub fn text(&mut self, code: Word) -> Result<CellId, AllocError>
        requires wide { length code ≡ 32 }
        requires named { WordBelow self.old.formula.vars code }
        requires index { (a : List Bool) → Satisfies a self.old.formula → IsTrue (is_index (length self.old.arena.texts) (word_value code a)) }
        ensures cell { IfOk result (Adds self.old self.new (CellKind.Text code)) }
        ensures value { IfOk result (λ id. Decodes self.new id (λ a. Value.Text (text_at self.old.arena.texts (word_value code a)))) }
        ensures grows { Grows self.old self.new }
    {
        let id = self.make(CellKind::Text(code))?;
        Ok(id)
    }

    /// The set of the members whose literal is true.
    #[tactic(auto, using(crate::proofs::Growing::growing))]
    pub fn set(&mut self, edges: List<(Lit, CellId)>) -> Result<CellId, AllocError>
        requires named { All (λ e. IsBelow self.old.formula.vars e.0) edges }
        requires older { All (λ e. e.1.index < length self.old.arena.kinds) edges }
        ensures cell { IfOk result (Adds self.old self.new (CellKind.Set edges)) }
        ensures value { IfOk result (λ id. Decodes self.new id (λ a. Value.Set (set_of (present a (decode self.old.arena a) edges)))) }
        ensures grows { Grows self.old self.new }
    {
        let id = self.make(CellKind::Set(edges))?;
        Ok(id)
    }

    /// The function that has at an argument the result of the argument's first edge with a true
    /// literal.
    #[tactic(auto, using(crate::proofs::Growing::growing))]
    pub fn fun(&mut self, edges: List<(Lit, CellId, CellId)>) -> Result<CellId, AllocError>
        requires named { All (λ e. IsBelow self.old.formula.vars e.0) edges }
        requires older { All (λ e. (e.1.index < length self.old.arena.kinds) × (e.2.index < length self.old.arena.kinds)) edges }
        ensures cell { IfOk result (Adds self.old self.new (CellKind.Fun edges)) }
        ensures value { IfOk result (λ id. Decodes self.new id (λ a. Value.Fun (function_of (present_pairs a (decode self.old.arena a) edges)))) }
        ensures grows { Grows self.old self.new }
    {
        let id = self.make(CellKind::Fun(edges))?;
        Ok(id)
    }

    /// The record of the fields, whose names differ: a function on texts.
    #[tactic(auto, using(crate::proofs::Growing::growing))]
    pub fn rec(&mut self, fields: List<(Text, CellId)>) -> Result<CellId, AllocError>
        requires differ { AllDiffer (map (λ f. f.0) fields) }
        requires older { All (λ f. f.1.index < length self.old.arena.kinds) fields }
        ensures cell { IfOk result (Adds self.old self.new (CellKind.Rec fields)) }
        ensures value { IfOk result (λ id. Decodes self.new id (λ a. Value.Fun (function_of (field_pairs (decode self.old.arena a) fields)))) }
        ensures grows { Grows self.old self.new }
    {
        let id = self.make(CellKind::Rec(fields))?;
        Ok(id)
    }

    /// The tuple of the parts: a function on the numbers from 1 to their number.
    #[tactic(auto, using(crate::proofs::Growing::growing))]
    pub fn tup(&mut self, parts: List<CellId>) -> Result<CellId, AllocError>
        requires { All (λ p. p.index < length self.old.arena.kinds) parts }
        ensures cell { IfOk result (Adds self.old self.new (CellKind.Tup parts)) }
        ensures value { IfOk result (λ id. Decodes self.new id (λ a. sequence (map (decode self.old.arena a) parts))) }
        ensures grows { Grows self.old self.new }
    {
        let id = self.make(CellKind::Tup(parts))?;
        Ok(id)
    }

    /// The sequence of the first places, as many as the word of 32 bits says, which under each
    /// satisfying assignment is from 0 to the number of places. Want of memory is answered for 2^31
    /// or more places.
    #[tactic(auto, using(crate::proofs::Growing::growing))]
    pub fn seq(&mut self, count: Word, places: List<CellId>) -> Result<CellId, AllocError>
        requires wide { length count ≡ 32 }
        requires named { WordBelow self.old.formula.vars count }
        requires older { All (λ p. p.index < length self.old.arena.kinds) places }
        requires within { (a : List Bool) → Satisfies a self.old.formula → IsTrue (is_index (length places + 1) (word_value count a)) }
        ensures cell { IfOk result (Adds self.old self.new (CellKind.Seq count places)) }
        ensures value { IfOk result (λ id. Decodes self.new id (λ a. sequence (first_places (word_value count a) (map (decode self.old.arena a) places)))) }
        ensures grows { Grows self.old self.new }
    {
        if places.len() >= 1 << 31 {
            return Err(AllocError);
        }
        let id = self.make(CellKind::Seq(count, places))?;
        Ok(id)
    }
}
