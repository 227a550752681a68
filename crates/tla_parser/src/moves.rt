// Where in a form one is, and what may come there.
use crate::signs::Sign;

/// A form, by what stands for it.
#[derive(Clone, Copy)]
pub enum Construct {
    NumberLiteral,
    TextLiteral,
    TrueLiteral,
    FalseLiteral,
    Booleans,
    Strings,
    /// `@`
    OldValue,
    NameUse,
    /// `ApaFoldSeqLeft`
    FoldUse,
    Parenthesis,
    Enumeration,
    /// `{x \in S : p}`
    Filter,
    /// `{e : x \in S}`
    Mapping,
    FunctionSet,
    /// `[x \in S |-> e]`
    Function,
    RecordValue,
    RecordSet,
    /// `[f EXCEPT ![i] = e]`
    Exception,
    /// `[A]_v`
    SquareAction,
    TupleValue,
    /// `<<A>>_v`
    AngleAction,
    /// `WF_v(A)`
    Fairness,
    Call,
    FoldCall,
    Application,
    FieldAccess,
    Primed,
    /// `I!Op`
    Instanced,
    Quantifier,
    Choice,
    Conditional,
    Cases,
    /// CASE with OTHER.
    CasesOther,
    /// LET
    Local,
    /// A list of bullets.
    Junction,
}

/// What an operand is, as far as a form asks.
#[derive(Clone, Copy)]
pub enum Class {
    Other,
    BareName,
    FoldName,
    PathName,
    /// `x \in S` with a bare name.
    Member,
    /// A chain of this operator, which goes on with it.
    Joined(Sign),
    Tuple,
    /// `<<x>> \in S`
    TupleMember,
}

/// Where in a form one is.
#[derive(Clone, Copy)]
pub enum Mark {
    InParen,
    InIf,
    InThen,
    InElse,
    QuantifiedName,
    BehindQuantified,
    InBound,
    NextBoundName,
    BehindBoundName,
    QuantifierBody,
    ChosenName,
    BehindChosen,
    InChoiceSet,
    ChoiceBody,
    InItems,
    InMoreItems,
    InFilter,
    MappedName,
    BehindMapped,
    InMappedSet,
    InBracket,
    InResultSet,
    ArgumentName,
    BehindArgument,
    InArgumentSet,
    InFunctionBody,
    InFieldValue,
    ValueName,
    BehindValueName,
    InFieldSet,
    SetName,
    BehindSetName,
    UpdateBang,
    UpdatePath,
    InUpdateIndex,
    UpdateField,
    BehindStep,
    InUpdateValue,
    InTuple,
    InMoreTuple,
    Subscript,
    InSubscriptTuple,
    InMoreSubscript,
    InSubscriptParen,
    FairSubscript,
    InFairTuple,
    InMoreFair,
    InFairParen,
    FairOpens,
    InFair,
    InGuard,
    InArm,
    InNextGuard,
    BehindOther,
    InOther,
    LocalName,
    LocalHead,
    LocalParameter,
    BehindParameter,
    LocalArgument,
    BehindLocalArgument,
    InLocalSet,
    LocalDefines,
    InDefinition,
    LocalBody,
    InCall,
    FoldOperator,
    BehindFoldOperator,
    FoldFirst,
    BehindFoldFirst,
    FoldSecond,
    BehindFoldSecond,
    InFoldBody,
    InFoldStart,
    InFoldSequence,
    InIndex,
    FieldName,
    BangName,
    AtTop,
    ModuleHead,
    ModuleName,
    ModuleNamed,
    BehindHeader,
    ExtendedName,
    BehindExtended,
    BetweenUnits,
    DeclaredName,
    BehindDeclared,
    InAssumption,
    InNamedAssumption,
    InStatement,
    InNamedStatement,
    UnitHead,
    UnitParameter,
    BehindUnitParameter,
    UnitArgument,
    BehindUnitArgument,
    InUnitSet,
    UnitDefines,
    InBody,
    InPlainBody,
    InstanceName,
    BehindInstance,
    Substituted,
    BehindSubstituted,
    InReplacement,
    RecursiveName,
    BehindRecursive,
    RecursiveBlank,
    BehindBlank,
    BehindArity,
    LocalUnit,
    /// Behind the module's end.
    Finished,
    /// Behind a bullet, which stands in this column.
    Bullets(Sign, u32),
}

/// What comes behind a token of a form.
#[derive(Clone, Copy)]
pub enum Next {
    /// Another token of the form.
    Reads(Mark),
    /// An operand, behind which the form goes on.
    Wants(Mark),
    /// An operand, which may be the form's last.
    Last(Mark),
    /// The form is whole.
    Shut(Construct),
    /// No form begins so.
    Fail,
}

/// A token as the grammar sees it.
#[derive(Clone, Copy)]
pub struct Seen {
    pub sign: Sign,
    pub column: u32,
}
