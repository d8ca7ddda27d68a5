// What is made of the values that were read, and which token may stand behind them.

/// Which token may stand at a place.
#[derive(Clone, Copy)]
pub enum Guard {
    Free,
    /// a name that isn't among those of the newest value, which is a list of names or of bindings
    New,
}

/// What is made of the newest values. Each line says what it takes, the newest last, and what it leaves.
#[derive(Clone, Copy)]
pub enum Action {
    /// a value, and leaves nothing
    Drop,
    /// a place, and leaves it twice
    Again,
    NoSorts,
    /// sorts and a sort: sorts
    AddSort,
    /// a name: a sort
    NameSort,
    /// a name: a sort
    VariableSort,
    /// a place, a name and sorts: a sort
    ConSort,
    NoPatterns,
    /// patterns and a pattern: patterns
    AddPattern,
    /// a name: a pattern
    AnyPattern,
    /// a name: a pattern
    NamePattern,
    /// a text: a pattern
    StringPattern,
    /// a place and patterns: a pattern
    ListPattern,
    /// a place and two patterns: a pattern
    ListOfPattern,
    /// a place and two names: a pattern
    SomePattern,
    /// a place, a name and patterns: a pattern
    AppPattern,
    NoNames,
    /// a name: names
    OneName,
    /// names and a name: names
    AddName,
    /// a name: a phrase
    Name,
    /// a variable: a phrase
    Variable,
    /// a variable and a sort: a phrase
    SortedVariable,
    /// a text: a phrase
    String,
    NoPhrases,
    /// a phrase: phrases
    OnePhrase,
    /// phrases and a phrase: phrases
    AddPhrase,
    /// a place and phrases: a phrase
    List,
    /// a place and a phrase: the phrase
    Unwrap,
    /// a place, a phrase and a sort: a phrase
    Ascribe,
    /// a place, a phrase and phrases: a phrase
    Apply,
    /// a place, a phrase and phrases: a phrase
    Call,
    /// a place, names and a phrase: a phrase
    Lambda,
    /// a place, names and a phrase: a phrase
    Method,
    NoBindings,
    /// bindings, a name and a phrase: bindings
    AddBinding,
    /// a place, bindings and a phrase: a phrase
    Let,
    /// a place, bindings and a phrase: a phrase
    LetRec,
    NoClauses,
    /// clauses, a pattern and a phrase: clauses
    AddClause,
    /// a place, a phrase and clauses: a phrase
    Match,
    /// a place, a phrase and clauses: a phrase
    Induct,
    /// a place, a phrase and clauses: a phrase
    Cases,
    NoBranches,
    /// branches and two phrases: branches
    AddBranch,
    /// a place and branches: a phrase
    Check,
    /// a place, branches and a phrase: a phrase
    CheckElse,
    /// a place and phrases: a phrase
    Try,
    /// a place and phrases: a phrase
    Sequence,
    /// a name: a label
    Named,
    /// a phrase: a label, and the phrase
    Unnamed,
    /// a place, a label and two phrases: a phrase
    Assume,
    /// a place, a label and two phrases: a phrase
    Absurd,
    /// a place, a label and two phrases: a phrase
    Conclude,
    NoBinders,
    /// binders, a name and a value: binders, and the value
    AddBinder,
    /// binders, a name and a sort: binders
    AddSortedBinder,
    /// a place, binders and a phrase: a phrase
    PickAny,
    /// a place, a name and two phrases: a phrase
    PickWitness,
    /// a place, a name and names: a directive
    Domain,
    NoConstructors,
    /// constructors, a name and sorts: constructors
    AddConstructor,
    /// a place, a name, names and constructors: a directive
    Datatype,
    NoParameters,
    /// parameters, a place and names: parameters
    Parameters,
    /// a sort: sorts, and the sort
    NoArguments,
    /// a place, names, parameters, sorts and a sort: a directive
    Declare,
    /// a place, a name and a phrase: a directive
    Define,
    /// a place, a name, names and a phrase: a directive
    DefineFun,
    /// a place, a label and a phrase: a directive
    Assert,
    /// a place, a label and a phrase: a directive
    AssertClosed,
    /// a place and a text: a directive
    Load,
    /// a phrase: a directive at its place
    Say,
    /// a place and a phrase: a directive
    SayAt,
}
