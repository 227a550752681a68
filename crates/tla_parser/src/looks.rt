// What a token is to the grammar.
ghost use Rattle.std.specs.Prelude.{◌≡◌, bytes_eq, map};
ghost use Rattle.tla_parser.specs.Signs.{column, fold_name, sign, sign_in, sign_of, symbol_signs, word_signs};
ghost use Rattle.tla_parser.specs.inner.Derivations.{look};

use crate::moves::Seen;
use crate::signs::Sign;
use tla_lexer::{Token, TokenKind};

const SYMBOLS: [(&[u8], Sign); 55] = [
    (b"(", Sign::LeftParen),
    (b")", Sign::RightParen),
    (b",", Sign::Comma),
    (b"=", Sign::Equals),
    (b"'", Sign::Tick),
    (b"/\\", Sign::Wedge),
    (b"\\/", Sign::Vee),
    (b"==", Sign::Defines),
    (b"\\in", Sign::Element),
    (b":", Sign::Colon),
    (b"[", Sign::LeftBracket),
    (b"]", Sign::RightBracket),
    (b"{", Sign::LeftBrace),
    (b"}", Sign::RightBrace),
    (b"<<", Sign::LeftAngle),
    (b">>", Sign::RightAngle),
    (b".", Sign::Dot),
    (b"!", Sign::Bang),
    (b"@", Sign::At),
    (b"_", Sign::Underscore),
    (b"<-", Sign::Replaces),
    (b"->", Sign::Arrow),
    (b"|->", Sign::MapsTo),
    (b"]_", Sign::BracketSub),
    (b">>_", Sign::AngleSub),
    (b"=>", Sign::DoubleArrow),
    (b"<=>", Sign::Equivalence),
    (b"~>", Sign::LeadsTo),
    (b"#", Sign::Differs),
    (b"<", Sign::Less),
    (b">", Sign::Greater),
    (b"<=", Sign::AtMost),
    (b">=", Sign::AtLeast),
    (b"\\notin", Sign::NotElement),
    (b"\\subseteq", Sign::Included),
    (b":=", Sign::Assigns),
    (b"@@", Sign::Overrides),
    (b":>", Sign::Pairs),
    (b"\\cup", Sign::UnionSign),
    (b"\\cap", Sign::Intersection),
    (b"\\", Sign::Difference),
    (b"..", Sign::Dots),
    (b"+", Sign::Plus),
    (b"%", Sign::Percent),
    (b"\\X", Sign::Times),
    (b"-", Sign::Dash),
    (b"*", Sign::Star),
    (b"\\div", Sign::Quotient),
    (b"\\o", Sign::Circle),
    (b"^", Sign::Caret),
    (b"~", Sign::Tilde),
    (b"[]", Sign::Square),
    (b"<>", Sign::Diamond),
    (b"\\E", Sign::ExistsSign),
    (b"\\A", Sign::ForallSign),
];

const WORDS: [(&[u8], Sign); 43] = [
    (b"ASSUME", Sign::AssumeWord),
    (b"ASSUMPTION", Sign::AssumeWord),
    (b"AXIOM", Sign::AssumeWord),
    (b"BOOLEAN", Sign::BooleanWord),
    (b"BY", Sign::ProofWord),
    (b"CASE", Sign::CaseWord),
    (b"CHOOSE", Sign::ChooseWord),
    (b"CONSTANT", Sign::ConstantWord),
    (b"CONSTANTS", Sign::ConstantWord),
    (b"COROLLARY", Sign::TheoremWord),
    (b"DOMAIN", Sign::DomainWord),
    (b"ELSE", Sign::ElseWord),
    (b"ENABLED", Sign::EnabledWord),
    (b"EXCEPT", Sign::ExceptWord),
    (b"EXTENDS", Sign::ExtendsWord),
    (b"FALSE", Sign::FalseWord),
    (b"IF", Sign::IfWord),
    (b"IN", Sign::InWord),
    (b"INSTANCE", Sign::InstanceWord),
    (b"LAMBDA", Sign::LambdaWord),
    (b"LEMMA", Sign::TheoremWord),
    (b"LET", Sign::LetWord),
    (b"LOCAL", Sign::LocalWord),
    (b"MODULE", Sign::ModuleWord),
    (b"OBVIOUS", Sign::ProofWord),
    (b"OMITTED", Sign::ProofWord),
    (b"OTHER", Sign::OtherWord),
    (b"PROOF", Sign::ProofWord),
    (b"PROPOSITION", Sign::TheoremWord),
    (b"QED", Sign::ProofWord),
    (b"RECURSIVE", Sign::RecursiveWord),
    (b"SF_", Sign::FairWord),
    (b"STRING", Sign::StringWord),
    (b"SUBSET", Sign::SubsetWord),
    (b"THEN", Sign::ThenWord),
    (b"THEOREM", Sign::TheoremWord),
    (b"TRUE", Sign::TrueWord),
    (b"UNCHANGED", Sign::UnchangedWord),
    (b"UNION", Sign::UnionWord),
    (b"VARIABLE", Sign::VariableWord),
    (b"VARIABLES", Sign::VariableWord),
    (b"WF_", Sign::FairWord),
    (b"WITH", Sign::WithWord),
];

/// The token as the grammar sees it.
#[tactic(auto, unfolding(crate::specs::Signs::sign))]
pub(crate) fn look(token: &Token) -> Seen
    ensures { result ≡ look token.now }
{
    Seen {
        sign: sign_of(&token.kind),
        column: token.place.col,
    }
}

fn sign_of(kind: &TokenKind) -> Sign
    ensures { result ≡ sign_of kind.now }
{
    match kind {
        TokenKind::Dashes => Sign::Dashes,
        TokenKind::End => Sign::EndSign,
        TokenKind::Number(_) => Sign::Number,
        TokenKind::Name(name) => {
            if is_fold_name(name.bytes()) {
                Sign::FoldWord
            } else {
                Sign::Word
            }
        }
        TokenKind::Reserved(word) => word_sign(word.bytes()),
        TokenKind::Quoted(_) => Sign::Quotation,
        TokenKind::ProofStep => Sign::ProofWord,
        TokenKind::Symbol(symbol) => symbol_sign(symbol.bytes()),
    }
}

#[tactic(auto, unfolding(crate::specs::Signs::fold_name))]
fn is_fold_name(name: &[u8]) -> bool
    ensures { result ≡ bytes_eq name.now fold_name }
{
    name == b"ApaFoldSeqLeft".as_slice()
}

#[tactic(auto, unfolding(crate::specs::Signs::symbol_signs))]
fn symbol_sign(spelling: &[u8]) -> Sign
    ensures { result ≡ sign_in symbol_signs spelling.now }
{
    sign_in(spelling, &SYMBOLS)
}

#[tactic(auto, unfolding(crate::specs::Signs::word_signs))]
fn word_sign(spelling: &[u8]) -> Sign
    ensures { result ≡ sign_in word_signs spelling.now }
{
    sign_in(spelling, &WORDS)
}

// The sign of the first row with this spelling.
fn sign_in(spelling: &[u8], rows: &[(&'static [u8], Sign)]) -> Sign
    ensures { result ≡ sign_in (map (λ row. (row.0.now, row.1)) rows.now) spelling.now }
{
    for row in rows {
        if spelling == row.0 {
            return row.1;
        }
    }
    Sign::Stray
}
