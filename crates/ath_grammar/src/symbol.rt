// The symbols of the grammar.

/// What has rows of its own in the grammar's table.
#[derive(Clone, Copy)]
pub enum Symbol {
    Directive,
    /// behind a first bracket
    DirectiveInside,
    /// the header of a domain or a datatype
    Header,
    Constructor,
    /// behind a constructor, in parentheses and without
    Constructors,
    ConstructorRows,
    /// behind a name of a `declare` without its own pair
    DeclaredNames,
    /// names, in parentheses where they are several
    Group,
    GroupNames,
    /// the sorts of a `declare` in its own pair, and behind a bracket there
    Signature,
    SignatureInside,
    /// the same without parameters
    Type,
    TypeInside,
    /// the sorts of a `declare` without its own pair, and behind a bracket there
    BareSignature,
    BareSignatureInside,
    /// the same without parameters
    BareType,
    /// behind `define`
    Definition,
    DefinitionInside,
    Sort,
    /// behind a bracket
    SortInside,
    Sorts,
    SquareSorts,
    Pattern,
    /// behind a bracket
    PatternInside,
    Patterns,
    SquarePatterns,
    Parameters,
    SortVariables,
    Phrase,
    /// behind a variable
    VariableSort,
    /// behind a bracket
    Inside,
    /// behind the first item in parentheses: a word that is an operator, another word, and what is no word
    AfterOperator,
    AfterWord,
    AfterFirst,
    Parts,
    SquareParts,
    Sequence,
    /// behind the keywords
    Lambda,
    Method,
    /// a `lambda` or `method` form, and one behind a bracket
    Closure,
    ClosureInside,
    /// behind `let`
    Let,
    LetPairs,
    LetRows,
    /// behind `letrec`
    LetRec,
    LetRecPair,
    LetRecPairs,
    LetRecRow,
    LetRecRows,
    /// the clauses of a form without its own pair, and of one in it
    Clauses,
    ClausesInside,
    ClausePairs,
    ClauseRows,
    /// behind `check`, without its own pair and in it
    Check,
    CheckInside,
    BranchInside,
    BranchPairs,
    BranchRow,
    BranchRows,
    /// behind `try`, without its own pair and in it
    Try,
    TryInside,
    Alternatives,
    /// a sentence that may be named, and behind a first name there
    Hypothesis,
    HypothesisName,
    /// the names of a `pick-any`, and behind a name
    FirstBinder,
    AfterFirstBinder,
    Binders,
    AfterBinder,
}
