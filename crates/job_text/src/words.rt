// The words of operators.
use tla_meaning::Op;
use tla_values::Text;

// A word that is no operator is the use of a definition, which no expanded tree has.
pub(crate) fn operator(word: Vec<u8>) -> Op {
    let known = match word.as_slice() {
        b"and" => Some(Op::And),
        b"or" => Some(Op::Or),
        b"implies" => Some(Op::Implies),
        b"not" => Some(Op::Not),
        b"iff" => Some(Op::Iff),
        b"if" => Some(Op::If),
        b"case" => Some(Op::Case(false)),
        b"case-other" => Some(Op::Case(true)),
        b"eq" => Some(Op::Eq),
        b"ne" => Some(Op::Ne),
        b"assign" => Some(Op::Assign),
        b"in" => Some(Op::In),
        b"notin" => Some(Op::NotIn),
        b"subseteq" => Some(Op::SubsetEq),
        other => number_operator(other),
    };
    match known {
        Some(op) => op,
        None => Op::Use(Text::from_vec(word)),
    }
}

fn number_operator(word: &[u8]) -> Option<Op> {
    match word {
        b"lt" => Some(Op::Lt),
        b"gt" => Some(Op::Gt),
        b"le" => Some(Op::Le),
        b"ge" => Some(Op::Ge),
        b"add" => Some(Op::Add),
        b"sub" => Some(Op::Sub),
        b"mul" => Some(Op::Mul),
        b"neg" => Some(Op::Neg),
        b"div" => Some(Op::Div),
        b"mod" => Some(Op::Mod),
        b"pow" => Some(Op::Pow),
        b"range" => Some(Op::Range),
        _ => set_operator(word),
    }
}

fn set_operator(word: &[u8]) -> Option<Op> {
    match word {
        b"set" => Some(Op::SetEnum),
        b"cup" => Some(Op::Cup),
        b"cap" => Some(Op::Cap),
        b"minus" => Some(Op::Minus),
        b"powerset" => Some(Op::Powerset),
        b"funset" => Some(Op::FunSet),
        b"product" => Some(Op::Product),
        b"union" => Some(Op::BigUnion),
        b"boolean" => Some(Op::BooleanSet),
        b"int" => Some(Op::IntSet),
        b"nat" => Some(Op::NatSet),
        b"string" => Some(Op::StringSet),
        b"seqs" => Some(Op::SeqSet),
        b"cardinality" => Some(Op::Cardinality),
        b"finite" => Some(Op::IsFinite),
        _ => function_operator(word),
    }
}

fn function_operator(word: &[u8]) -> Option<Op> {
    match word {
        b"exists" => Some(Op::Exists),
        b"forall" => Some(Op::Forall),
        b"filter" => Some(Op::Filter),
        b"map" => Some(Op::MapTo),
        b"lambda" => Some(Op::Lambda),
        b"apply" => Some(Op::Apply),
        b"domain" => Some(Op::Domain),
        b"merge" => Some(Op::Merge),
        b"single" => Some(Op::Single),
        b"tuple" => Some(Op::Tuple),
        b"len" => Some(Op::Len),
        b"append" => Some(Op::Append),
        b"concat" => Some(Op::Concat),
        b"head" => Some(Op::Head),
        b"tail" => Some(Op::Tail),
        b"subseq" => Some(Op::SubSeq),
        b"fold" => Some(Op::Fold),
        _ => None,
    }
}
