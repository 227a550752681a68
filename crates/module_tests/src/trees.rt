// Whether a tree that expansion gives is the one of a text, up to the names that are bound.
//
// The word of a node is the name of its operator. Words alone are TRUE, FALSE, numbers, texts in quotes, `$x` for a declared
// name and `$x'` for it with a prime, the sets IntSet, NatSet, BooleanSet and StringSet, and bound names. A place that is
// not written is not compared.
use crate::tree_tokens::{Token, tokens_of};
use std::alloc::{AllocError, Global};
use tla_meaning::{Expr, Op, Place};
use tla_values::{List, Text};

// The pieces of the text, how many were met, and the bound names that stand for each other.
#[derive(Drop)]
struct Comparison<'a> {
    alloc: Global,
    tokens: Vec<Token>,
    met: usize,
    bound: Vec<(Vec<u8>, Vec<u8>)>,
    // the declared names in the order of their numbers, with blanks between them
    names: &'a [u8],
}

/// Whether the text is this tree. `names` are the declared names in the order of their numbers, with blanks between them.
pub(crate) fn is_tree(
    alloc: Global,
    text: &[u8],
    names: &[u8],
    tree: &Expr,
) -> Result<bool, AllocError> {
    let mut comparison = Comparison {
        alloc,
        tokens: tokens_of(alloc, text)?,
        met: 0,
        bound: Vec::new(alloc),
        names,
    };
    let same = comparison.meets(tree);
    let is_all = comparison.met == comparison.tokens.len();
    drop(comparison);
    Ok(same? && is_all)
}

/// How many nodes and levels a tree has.
pub(crate) fn extent(tree: &Expr) -> (usize, usize) {
    let mut nodes: usize = 1;
    let mut levels: usize = 0;
    for arg in tree.args.as_slice() {
        let (more, deep) = extent(arg);
        nodes = nodes.saturating_add(more);
        levels = levels.max(deep);
    }
    (nodes, levels.saturating_add(1))
}

fn is_at(place: &Option<Place>, given: Place) -> bool {
    match place {
        Some(place) => *place == given,
        None => true,
    }
}

impl<'a> Comparison<'a> {
    fn next(&mut self) -> Option<&Token> {
        let at = self.met;
        self.met = at.saturating_add(1);
        self.tokens.get(at)
    }

    #[cycle(meets)]
    fn meets(&mut self, tree: &Expr) -> Result<bool, AllocError> {
        let word = word_of(self.alloc, &tree.op, self.names)?;
        let is_node = match self.next() {
            Some(Token::Open(wanted, place)) => {
                if !is_at(place, tree.place) || wanted.as_slice() != word.as_slice() {
                    return Ok(false);
                }
                true
            }
            Some(Token::Leaf(_, place)) => {
                if !is_at(place, tree.place) {
                    return Ok(false);
                }
                false
            }
            _ => return Ok(false),
        };
        if is_node {
            self.meets_node(tree)
        } else {
            Ok(tree.args.is_empty() && self.meets_leaf(&word, &tree.op))
        }
    }

    // The word of the leaf that was met last.
    fn meets_leaf(&self, word: &[u8], op: &Op) -> bool {
        let Some(Token::Leaf(wanted, _)) = self.tokens.get(self.met.wrapping_sub(1)) else {
            return false;
        };
        match op {
            Op::Bound(_) => self.stands_for(wanted, word),
            _ => wanted.as_slice() == word,
        }
    }

    // Whether these bound names stand for each other, by the last that binds one of them.
    fn stands_for(&self, wanted: &[u8], given: &[u8]) -> bool {
        let pair = self.bound.iter().rev().find(|pair| pair.0.as_slice() == wanted
            || pair.1.as_slice() == given);
        match pair {
            Some(pair) => pair.0.as_slice() == wanted && pair.1.as_slice() == given,
            None => false,
        }
    }

    #[cycle(meets)]
    fn meets_node(&mut self, tree: &Expr) -> Result<bool, AllocError> {
        let outside = self.bound.len();
        if !self.meets_details(&tree.op)? || !self.binds(tree.binds.as_slice())? {
            return Ok(false);
        }
        for arg in tree.args.as_slice() {
            if !self.meets(arg)? {
                return Ok(false);
            }
        }
        self.bound.truncate(outside);
        Ok(matches!(self.next(), Some(Token::Close)))
    }

    fn meets_details(&mut self, op: &Op) -> Result<bool, AllocError> {
        let Some(given) = details(self.alloc, op)? else {
            return Ok(true);
        };
        match self.next() {
            Some(Token::Details(wanted)) => Ok(are_same_words(wanted, &given)),
            _ => Ok(false),
        }
    }

    // The names that are bound here stand for those of the text.
    fn binds(&mut self, names: &[Text]) -> Result<bool, AllocError> {
        if names.is_empty() {
            return Ok(true);
        }
        let Some(Token::Names(wanted)) = self.tokens.get(self.met) else {
            return Ok(false);
        };
        let mut words = wanted.split(|byte| *byte == b' ');
        for name in names {
            let Some(word) = words.next() else {
                return Ok(false);
            };
            let pair = (
                Vec::from_slice(self.alloc, word)?,
                Vec::from_slice(self.alloc, name.bytes())?,
            );
            self.bound.push(pair)?;
        }
        self.met = self.met.saturating_add(1);
        Ok(words.next().is_none())
    }
}

// Blanks beside each other are one.
fn are_same_words(wanted: &[u8], given: &[u8]) -> bool {
    let mut words = given
        .split(|byte| *byte == b' ')
        .filter(|word| !word.is_empty());
    for word in wanted.split(|byte| *byte == b' ') {
        if !word.is_empty() && words.next() != Some(word) {
            return false;
        }
    }
    words.next().is_none()
}

fn joined(alloc: Global, names: &List<Text>) -> Result<Vec<u8>, AllocError> {
    let mut out = Vec::new(alloc);
    for name in names.as_slice() {
        out.extend_from_slice(name.bytes())?;
        out.push(b' ')?;
    }
    Ok(out)
}

// What stands in brackets behind the operator.
fn details(alloc: Global, op: &Op) -> Result<Option<Vec<u8>>, AllocError> {
    match op {
        Op::Except(counts) => {
            let mut out = Vec::new(alloc);
            for count in counts.as_slice() {
                let number = format!(in alloc; "{count} ")?;
                out.extend_from_slice(number.as_bytes())?;
            }
            Ok(Some(out))
        }
        Op::Record(names) | Op::RecSet(names) => Ok(Some(joined(alloc, names)?)),
        Op::Field(name) | Op::Noted(name) => Ok(Some(Vec::from_slice(alloc, name.bytes())?)),
        Op::Case(other) => {
            let word: &[u8] = if *other { b"other" } else { b"" };
            Ok(Some(Vec::from_slice(alloc, word)?))
        }
        _ => Ok(None),
    }
}

// The word of an operator.
fn word_of(alloc: Global, op: &Op, names: &[u8]) -> Result<Vec<u8>, AllocError> {
    match op {
        Op::Int(n) => {
            let number = format!(in alloc; "{n}")?;
            Vec::from_slice(alloc, number.as_bytes())
        }
        Op::Str(text) => {
            let mut out = Vec::from_slice(alloc, b"\"")?;
            out.extend_from_slice(text.bytes())?;
            out.push(b'"')?;
            Ok(out)
        }
        Op::Name(i, primed) => {
            let mut out = Vec::from_slice(alloc, b"$")?;
            if let Some(name) = names.split(|byte| *byte == b' ').nth(*i) {
                out.extend_from_slice(name)?;
            }
            if *primed {
                out.push(b'\'')?;
            }
            Ok(out)
        }
        Op::Bound(name) | Op::Use(name) | Op::Param(name) => Vec::from_slice(alloc, name.bytes()),
        _ => Vec::from_slice(alloc, operator_word(op)),
    }
}

fn operator_word(op: &Op) -> &'static [u8] {
    match op {
        Op::Bool(true) => b"TRUE",
        Op::Bool(false) => b"FALSE",
        Op::And => b"And",
        Op::Or => b"Or",
        Op::Implies => b"Implies",
        Op::Not => b"Not",
        Op::Iff => b"Iff",
        Op::If => b"If",
        Op::Case(_) => b"Case",
        Op::Eq => b"Eq",
        Op::Ne => b"Ne",
        Op::Assign => b"Assign",
        Op::In => b"In",
        Op::NotIn => b"NotIn",
        Op::SubsetEq => b"SubsetEq",
        Op::Lt => b"Lt",
        Op::Gt => b"Gt",
        Op::Le => b"Le",
        Op::Ge => b"Ge",
        Op::Add => b"Add",
        Op::Sub => b"Sub",
        Op::Mul => b"Mul",
        Op::Neg => b"Neg",
        Op::Div => b"Div",
        Op::Mod => b"Mod",
        Op::Pow => b"Pow",
        Op::Range => b"Range",
        Op::SetEnum => b"SetEnum",
        Op::Cup => b"Cup",
        Op::Cap => b"Cap",
        Op::Minus => b"Minus",
        Op::Powerset => b"Powerset",
        Op::FunSet => b"FunSet",
        Op::RecSet(_) => b"RecSet",
        Op::Product => b"Product",
        Op::BigUnion => b"BigUnion",
        Op::BooleanSet => b"BooleanSet",
        Op::IntSet => b"IntSet",
        Op::NatSet => b"NatSet",
        Op::StringSet => b"StringSet",
        Op::SeqSet => b"SeqSet",
        Op::Cardinality => b"Cardinality",
        Op::IsFinite => b"IsFinite",
        Op::Exists => b"Exists",
        Op::Forall => b"Forall",
        Op::Filter => b"Filter",
        Op::MapTo => b"MapTo",
        Op::Lambda => b"Lambda",
        Op::Apply => b"Apply",
        Op::Except(_) => b"Except",
        Op::Domain => b"Domain",
        Op::Merge => b"Merge",
        Op::Single => b"Single",
        Op::Record(_) => b"Record",
        Op::Field(_) => b"Field",
        Op::Tuple => b"Tuple",
        Op::Len => b"Len",
        Op::Append => b"Append",
        Op::Concat => b"Concat",
        Op::Head => b"Head",
        Op::Tail => b"Tail",
        Op::SubSeq => b"SubSeq",
        Op::Fold => b"Fold",
        Op::Noted(_) => b"Noted",
        _ => b"?",
    }
}
