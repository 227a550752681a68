// The tokens as the grammar tells them apart.
ghost use Rattle.std.specs.Prelude.{◌≡◌};
ghost use Rattle.tla_parser.specs.Operators.{number_of, same_sign};

/// What a token is to the grammar. Words that are written alike stand for one sign: ASSUME, ASSUMPTION and AXIOM.
#[derive(Clone, Copy)]
pub enum Sign {
    Number,
    Quotation,
    Word,
    /// The name `ApaFoldSeqLeft`.
    FoldWord,
    TrueWord,
    FalseWord,
    BooleanWord,
    StringWord,
    /// `@`
    At,
    LeftParen,
    RightParen,
    LeftBracket,
    RightBracket,
    LeftBrace,
    RightBrace,
    /// `<<`
    LeftAngle,
    /// `>>`
    RightAngle,
    Comma,
    Colon,
    Dot,
    Bang,
    /// `'`
    Tick,
    /// `_`
    Underscore,
    /// `==`
    Defines,
    /// `<-`
    Replaces,
    /// `->`
    Arrow,
    /// `|->`
    MapsTo,
    /// `]_`
    BracketSub,
    /// `>>_`
    AngleSub,
    Wedge,
    Vee,
    /// `=>`
    DoubleArrow,
    /// `<=>`
    Equivalence,
    /// `~>`
    LeadsTo,
    Equals,
    Differs,
    Less,
    Greater,
    AtMost,
    AtLeast,
    /// `\in`
    Element,
    NotElement,
    /// `\subseteq`
    Included,
    /// `:=`
    Assigns,
    /// `@@`
    Overrides,
    /// `:>`
    Pairs,
    /// `\cup`
    UnionSign,
    /// `\cap`
    Intersection,
    /// `\`
    Difference,
    /// `..`
    Dots,
    Plus,
    Percent,
    /// `\X`
    Times,
    Dash,
    Star,
    /// `\div`
    Quotient,
    /// `\o`
    Circle,
    Caret,
    Tilde,
    UnchangedWord,
    EnabledWord,
    /// `[]`
    Square,
    /// `<>`
    Diamond,
    SubsetWord,
    UnionWord,
    DomainWord,
    /// `\E`
    ExistsSign,
    /// `\A`
    ForallSign,
    ChooseWord,
    IfWord,
    ThenWord,
    ElseWord,
    CaseWord,
    OtherWord,
    LetWord,
    InWord,
    LambdaWord,
    ExceptWord,
    /// `WF_` and `SF_`.
    FairWord,
    Dashes,
    EndSign,
    ModuleWord,
    ExtendsWord,
    VariableWord,
    ConstantWord,
    AssumeWord,
    TheoremWord,
    InstanceWord,
    WithWord,
    RecursiveWord,
    LocalWord,
    /// A proof step, BY, OBVIOUS, OMITTED, PROOF and QED.
    ProofWord,
    /// What no token of a text is.
    Stray,
}

/// What a token is behind an operand.
#[derive(Clone, Copy)]
pub enum Role {
    InfixRole,
    PostfixRole,
    NoRole,
}

impl Sign {
    // A number of its own for each sign.
    #[tactic(auto, unfolding(crate::specs::Operators::number_of))]
    fn number(self) -> u8
        ensures { result ≡ number_of self }
    {
        self as u8
    }

    /// Whether the two are one sign.
    pub(crate) fn is(self, other: Sign) -> bool
        ensures { result ≡ same_sign self other }
    {
        self.number() == other.number()
    }
}
