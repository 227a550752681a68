// The standard modules, which are read from no file.
ghost use Rattle.std.specs.Prelude.{◌≡◌, ◌∷◌, ◌++◌, [], IfOk, OnOk};
ghost use Rattle.tla_meaning.specs.StandardModules.{apalache, finite_sets, integers, library, model_values, natural_numbers, sequences, standard, standard_module};
ghost use Rattle.tla_meaning.specs.Symbols.{standard_origin};
ghost use Rattle.flat_modules.specs.inner.Standards.{entries_of, found};

use crate::copies::joined;
use crate::entries::same_bytes;
use std::alloc::{AllocError, Global};
use tla_meaning::{Entry, Form, Kind, Op, Place};
use tla_values::Text;

// Where what is in no file stands.
pub(crate) const OUTSIDE: Place = Place {
    file: 0,
    line: 1,
    col: 1,
};

#[derive(Clone, Copy)]
pub(crate) enum Standard {
    Naturals,
    Integers,
    Sequences,
    FiniteSets,
    ModelValues,
    Apalache,
}

// The standard module of a name.
pub(crate) fn standard_module(name: &[u8]) -> Option<Standard>
    ensures { found result ≡ standard_module name.now }
{
    if same_bytes(name, b"Apalache") {
        Some(Standard::Apalache)
    } else if same_bytes(name, b"TLC") {
        Some(Standard::ModelValues)
    } else if same_bytes(name, b"FiniteSets") {
        Some(Standard::FiniteSets)
    } else if same_bytes(name, b"Sequences") {
        Some(Standard::Sequences)
    } else if same_bytes(name, b"Integers") {
        Some(Standard::Integers)
    } else if same_bytes(name, b"Naturals") {
        Some(Standard::Naturals)
    } else {
        None
    }
}

impl Standard {
    // What it declares.
    pub(crate) fn entries(self, alloc: Global) -> Result<Vec<Entry>, AllocError>
        ensures { IfOk result (λ v. v.items ≡ entries_of self) }
    {
        let mut out = Vec::new(alloc);
        match self {
            Standard::Naturals => add_naturals(alloc, &mut out)?,
            Standard::Integers => add_integers(alloc, &mut out)?,
            Standard::Sequences => add_sequences(alloc, &mut out)?,
            Standard::FiniteSets => add_finite_sets(alloc, &mut out)?,
            Standard::ModelValues => add_model_values(alloc, &mut out)?,
            Standard::Apalache => add_apalache(alloc, &mut out)?,
        }
        Ok(out)
    }
}

fn add_naturals(alloc: Global, out: &mut Vec<Entry>) -> Result<(), AllocError>
    ensures { OnOk result (out.new.items ≡ out.old.items ++ natural_numbers) }
{
    add(alloc, b"Nat", Op::NatSet, 0, out)
}

fn add_integers(alloc: Global, out: &mut Vec<Entry>) -> Result<(), AllocError>
    ensures { OnOk result (out.new.items ≡ out.old.items ++ integers) }
{
    add(alloc, b"Nat", Op::NatSet, 0, out)?;
    add(alloc, b"Int", Op::IntSet, 0, out)
}

fn add_sequences(alloc: Global, out: &mut Vec<Entry>) -> Result<(), AllocError>
    ensures { OnOk result (out.new.items ≡ out.old.items ++ sequences) }
{
    add(alloc, b"Seq", Op::SeqSet, 1, out)?;
    add(alloc, b"Len", Op::Len, 1, out)?;
    add(alloc, b"Append", Op::Append, 2, out)?;
    add(alloc, b"Head", Op::Head, 1, out)?;
    add(alloc, b"Tail", Op::Tail, 1, out)?;
    add(alloc, b"SubSeq", Op::SubSeq, 3, out)?;
    add_library(alloc, b"SelectSeq", 2, out)
}

fn add_finite_sets(alloc: Global, out: &mut Vec<Entry>) -> Result<(), AllocError>
    ensures { OnOk result (out.new.items ≡ out.old.items ++ finite_sets) }
{
    add(alloc, b"Cardinality", Op::Cardinality, 1, out)?;
    add(alloc, b"IsFiniteSet", Op::IsFinite, 1, out)
}

fn add_model_values(alloc: Global, out: &mut Vec<Entry>) -> Result<(), AllocError>
    ensures { OnOk result (out.new.items ≡ out.old.items ++ model_values) }
{
    add_library(alloc, b"Print", 2, out)?;
    add_library(alloc, b"PrintT", 1, out)?;
    add_library(alloc, b"Assert", 2, out)?;
    add_library(alloc, b"Permutations", 1, out)?;
    add_library(alloc, b"SortSeq", 2, out)?;
    add_library(alloc, b"ToString", 1, out)?;
    add_library(alloc, b"TLCGet", 1, out)?;
    add_library(alloc, b"TLCSet", 2, out)?;
    add_library(alloc, b"RandomElement", 1, out)?;
    add_library(alloc, b"JavaTime", 0, out)?;
    add_library(alloc, b"Any", 0, out)?;
    add_library(alloc, b"TLCEval", 1, out)
}

fn add_apalache(alloc: Global, out: &mut Vec<Entry>) -> Result<(), AllocError>
    ensures { OnOk result (out.new.items ≡ out.old.items ++ apalache) }
{
    add(alloc, b"ApaFoldSeqLeft", Op::Fold, 3, out)?;
    add_library(alloc, b"ApaFoldSet", 3, out)?;
    add_library(alloc, b"Gen", 1, out)?;
    add_library(alloc, b"Guess", 1, out)?;
    add_library(alloc, b"MkSeq", 2, out)?;
    add_library(alloc, b"FunAsSeq", 3, out)?;
    add_library(alloc, b"SetAsFun", 1, out)?;
    add_library(alloc, b"Repeat", 3, out)?;
    add_library(alloc, b"Skolem", 1, out)?;
    add_library(alloc, b"Expand", 1, out)?;
    add_library(alloc, b"ConstCardinality", 1, out)
}

// One that is only refused where it is reached.
fn add_library(
    alloc: Global,
    name: &[u8],
    arity: usize,
    out: &mut Vec<Entry>,
) -> Result<(), AllocError>
    ensures { OnOk result (out.new.items ≡ out.old.items ++ library name.now arity ∷ []) }
{
    add(alloc, name, Op::Outside(Form::Library), arity, out)
}

// An operator: its name, the operator at the node of its use, how many arguments it wants.
fn add(
    alloc: Global,
    name: &[u8],
    stands: Op,
    arity: usize,
    out: &mut Vec<Entry>,
) -> Result<(), AllocError>
    ensures { OnOk result (out.new.items ≡ out.old.items ++ standard name.now stands arity ∷ []) }
{
    let origin = joined(alloc, name, b";")?;
    let name = Text::from_vec(Vec::from_slice(alloc, name)?);
    out.push(Entry {
        name,
        kind: Kind::Definition,
        place: OUTSIDE,
        origin,
        stands,
        arity,
        exported: true,
    })?;
    Ok(())
}
