// The expressions of a case: `(word a b)` is an operator with its operands. `[i j]` behind the word has the names that a
// binder binds, the fields of a record, or of EXCEPT the number of indexes of each update. `{a b}` is a set and `<a b>` a
// tuple. `x`, `f` and the other names of `NAMES` are read in the state, `x'` in the next one; every other word is a bound
// name. A value is given by its text. `!` stands before the place at which the outcome is `wrong` or `big`.
use std::alloc::{AllocError, Global};
use std::mem;
use tla_meaning::{Expr, Form, Op, Place};
use tla_values::{List, Text};

/// The names of a state, in order.
pub(crate) const NAMES: [&[u8]; 11] = [
    b"c", b"x", b"y", b"b", b"f", b"s", b"long", b"n300", b"million", b"max", b"min",
];

// A node that is not closed yet.
#[derive(Drop)]
struct Node {
    place: Place,
    word: Vec<u8>,
    names: Vec<Text>,
    args: Vec<Expr>,
}

// The open nodes, the innermost last; the word so far and where it begins; and where the mark stands.
#[derive(Drop)]
struct Reader {
    alloc: Global,
    open: Vec<Node>,
    word: Vec<u8>,
    start: u32,
    column: u32,
    in_names: bool,
    mark: u32,
}

pub(crate) fn place(col: u32) -> Place {
    Place {
        file: 0,
        line: 1,
        col,
    }
}

fn opened(alloc: Global, word: &[u8], col: u32) -> Result<Node, AllocError> {
    Ok(Node {
        place: place(col),
        word: Vec::from_slice(alloc, word)?,
        names: Vec::new(alloc),
        args: Vec::new(alloc),
    })
}

// The node with one more word: its operator, a name, or an operand.
fn with_word(
    alloc: Global,
    mut node: Node,
    word: Vec<u8>,
    col: u32,
    in_names: bool,
) -> Result<Node, AllocError> {
    if in_names {
        node.names.push(Text::from_vec(word))?;
    } else if node.word.is_empty() {
        node.word = word;
        node.place = place(col);
    } else {
        let e = leaf(alloc, word.as_slice(), place(col))?;
        node.args.push(e)?;
    }
    Ok(node)
}

impl Reader {
    fn read_all(&mut self, text: &[u8]) -> Result<(), AllocError> {
        self.begin(b"line")?;
        for byte in text {
            self.read(*byte)?;
        }
        self.end_word()
    }

    fn finished(&mut self) -> Vec<Expr> {
        match self.open.pop() {
            Some(node) if self.open.is_empty() => node.args,
            _ => Vec::new(self.alloc),
        }
    }

    fn read(&mut self, byte: u8) -> Result<(), AllocError> {
        if byte == b'!' {
            self.mark = self.column;
            return Ok(());
        }
        match byte {
            b'(' => self.begin(b"")?,
            b'{' => self.begin(b"set")?,
            b'<' => self.begin(b"tuple")?,
            b')' | b'}' | b'>' => self.end()?,
            b' ' => self.end_word()?,
            b'[' => self.in_names = true,
            b']' => {
                self.end_word()?;
                self.in_names = false;
            }
            _ => self.add(byte)?,
        }
        self.column = self.column.wrapping_add(1);
        Ok(())
    }

    fn add(&mut self, byte: u8) -> Result<(), AllocError> {
        if self.word.is_empty() {
            self.start = self.column;
        }
        self.word.push(byte)?;
        Ok(())
    }

    fn begin(&mut self, word: &[u8]) -> Result<(), AllocError> {
        let node = opened(self.alloc, word, self.column)?;
        self.open.push(node)?;
        Ok(())
    }

    fn end_word(&mut self) -> Result<(), AllocError> {
        if self.word.is_empty() {
            return Ok(());
        }
        let word = mem::replace(&mut self.word, Vec::new(self.alloc));
        if let Some(node) = self.open.pop() {
            let longer = with_word(self.alloc, node, word, self.start, self.in_names)?;
            self.open.push(longer)?;
        }
        Ok(())
    }

    fn end(&mut self) -> Result<(), AllocError> {
        self.end_word()?;
        let Some(node) = self.open.pop() else {
            return Ok(());
        };
        let e = tree(self.alloc, node)?;
        if let Some(mut outer) = self.open.pop() {
            outer.args.push(e)?;
            self.open.push(outer)?;
        }
        Ok(())
    }
}

// The expressions of a text, with the column of the mark; none where brackets are left open.
pub(crate) fn read(alloc: Global, text: &[u8]) -> Result<(Vec<Expr>, u32), AllocError> {
    let mut reader = Reader {
        alloc,
        open: Vec::new(alloc),
        word: Vec::new(alloc),
        start: 0,
        column: 1,
        in_names: false,
        mark: 0,
    };
    reader.read_all(text)?;
    Ok((reader.finished(), reader.mark))
}

// A number, a truth value, a text or a name.
fn leaf(alloc: Global, word: &[u8], place: Place) -> Result<Expr, AllocError> {
    let op = match word {
        b"TRUE" => Op::Bool(true),
        b"FALSE" => Op::Bool(false),
        [b'"', text @ .., b'"'] => Op::Str(Text::from_vec(Vec::from_slice(alloc, text)?)),
        [b'-', digits @ ..] => Op::Int(number(digits).wrapping_neg()),
        [b'0'..=b'9', ..] => Op::Int(number(word)),
        [name @ .., b'\''] => named(alloc, name, true)?,
        name => named(alloc, name, false)?,
    };
    Ok(Expr {
        place,
        op,
        args: List::new(alloc),
        binds: List::new(alloc),
    })
}

fn number(digits: &[u8]) -> i128 {
    let mut n: i128 = 0;
    for digit in digits {
        n = n.wrapping_mul(10).wrapping_add(value_of(*digit));
    }
    n
}

fn value_of(digit: u8) -> i128 {
    i128::from(digit) - 48
}

fn named(alloc: Global, name: &[u8], primed: bool) -> Result<Op, AllocError> {
    for (i, known) in NAMES.iter().enumerate() {
        if *known == name {
            return Ok(Op::Name(i, primed));
        }
    }
    let bytes = Vec::from_slice(alloc, name)?;
    Ok(Op::Bound(Text::from_vec(bytes)))
}

// A closed node. Its names are the operator's own or those that it binds; EXCEPT binds the name of the old value.
fn tree(alloc: Global, node: Node) -> Result<Expr, AllocError> {
    let Node {
        place,
        word,
        names,
        args,
    } = node;
    let mut binds = List::new(alloc);
    let op = match word.as_slice() {
        b"record" => Op::Record(List::from_vec(names)),
        b"recset" => Op::RecSet(List::from_vec(names)),
        b"field" => Op::Field(first(alloc, names)),
        b"except" => {
            binds.push(Text::from_vec(Vec::from_slice(alloc, b"@")?))?;
            Op::Except(counts(alloc, names.as_slice())?)
        }
        b"noted" => Op::Noted(Text::from_vec(Vec::new(alloc))),
        _ => {
            binds = List::from_vec(names);
            operator_or_use(word)
        }
    };
    Ok(Expr {
        place,
        op,
        args: List::from_vec(args),
        binds,
    })
}

fn first(alloc: Global, mut names: Vec<Text>) -> Text {
    match names.pop() {
        Some(name) => name,
        None => Text::from_vec(Vec::new(alloc)),
    }
}

fn counts(alloc: Global, names: &[Text]) -> Result<List<usize>, AllocError> {
    let mut counts = List::new(alloc);
    for name in names {
        counts.push(count(name.bytes()))?;
    }
    Ok(counts)
}

fn count(digits: &[u8]) -> usize {
    match digits {
        [digit] => digit.wrapping_sub(b'0') as usize,
        _ => 0,
    }
}

// A word that is no operator is the use of a definition, which no expanded tree has.
fn operator_or_use(word: Vec<u8>) -> Op {
    match operator(word.as_slice()) {
        Some(op) => op,
        None => Op::Use(Text::from_vec(word)),
    }
}

fn operator(word: &[u8]) -> Option<Op> {
    match word {
        b"and" => Some(Op::And),
        b"or" => Some(Op::Or),
        b"implies" => Some(Op::Implies),
        b"not" => Some(Op::Not),
        b"iff" => Some(Op::Iff),
        b"if" => Some(Op::If),
        b"case" => Some(Op::Case(false)),
        b"case-other" => Some(Op::Case(true)),
        b"eq" => Some(Op::Eq),
        b"ne" => Some(Op::Ne),
        b"assign" => Some(Op::Assign),
        b"in" => Some(Op::In),
        b"notin" => Some(Op::NotIn),
        b"subseteq" => Some(Op::SubsetEq),
        b"lt" => Some(Op::Lt),
        b"gt" => Some(Op::Gt),
        b"le" => Some(Op::Le),
        b"ge" => Some(Op::Ge),
        b"add" => Some(Op::Add),
        b"sub" => Some(Op::Sub),
        b"mul" => Some(Op::Mul),
        b"neg" => Some(Op::Neg),
        b"div" => Some(Op::Div),
        b"mod" => Some(Op::Mod),
        b"pow" => Some(Op::Pow),
        b"range" => Some(Op::Range),
        _ => set_operator(word),
    }
}

fn set_operator(word: &[u8]) -> Option<Op> {
    match word {
        b"set" => Some(Op::SetEnum),
        b"cup" => Some(Op::Cup),
        b"cap" => Some(Op::Cap),
        b"minus" => Some(Op::Minus),
        b"powerset" => Some(Op::Powerset),
        b"funset" => Some(Op::FunSet),
        b"product" => Some(Op::Product),
        b"union" => Some(Op::BigUnion),
        b"boolean" => Some(Op::BooleanSet),
        b"int" => Some(Op::IntSet),
        b"nat" => Some(Op::NatSet),
        b"string" => Some(Op::StringSet),
        b"seqs" => Some(Op::SeqSet),
        b"cardinality" => Some(Op::Cardinality),
        b"finite" => Some(Op::IsFinite),
        b"exists" => Some(Op::Exists),
        b"forall" => Some(Op::Forall),
        b"filter" => Some(Op::Filter),
        b"map" => Some(Op::MapTo),
        _ => function_operator(word),
    }
}

fn function_operator(word: &[u8]) -> Option<Op> {
    match word {
        b"lambda" => Some(Op::Lambda),
        b"apply" => Some(Op::Apply),
        b"domain" => Some(Op::Domain),
        b"merge" => Some(Op::Merge),
        b"single" => Some(Op::Single),
        b"tuple" => Some(Op::Tuple),
        b"len" => Some(Op::Len),
        b"append" => Some(Op::Append),
        b"concat" => Some(Op::Concat),
        b"head" => Some(Op::Head),
        b"tail" => Some(Op::Tail),
        b"subseq" => Some(Op::SubSeq),
        b"fold" => Some(Op::Fold),
        b"choose" => Some(Op::Outside(Form::Choose)),
        _ => None,
    }
}
