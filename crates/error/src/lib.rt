// Why a call gives no result, and the kinds of error: five of error.rs, which the scope resolver and its checks give, and strict mode's
// own, with their row numbers.
#![tactic(auto)]

ghost use Rattle.std.specs.Prelude.{◌≡◌};
ghost use Rattle.error.specs.Kinds.{row_number};
ghost use Rattle.error.specs.Refusals.{refusal_number, ByRefusal, ByTwice};

use ast::NodeId;

// A row of the table of refusals: what of the inputs a call cannot take.
#[derive(Clone, Copy, Debug, PartialEq, Eq)]
pub enum Refusal {
    // sizes
    ShortImage = 1,
    SizesTooLarge,
    ImageLength,
    // names
    NameEnds,
    EqualNames,
    // each node
    UnknownKind,
    RowOutside,
    UnknownNumber,
    WrongChild,
    // whole tree
    LastRow,
    Parents,
    WrongVariable,
    // buffers; ShortRows is said of Rename's output too
    ShortTable,
    ShortRows,
    // Errors
    UnknownMode,
    // Lookup
    UnsoundTable,
    UnknownScope,
    // the name index
    WrongIndex,
    // Rename
    UnknownBinding,
    UnknownName,
    OtherList,
}

// Its number in the table.
impl From<Refusal> for u32 {
    ghost from_gives = { λ refusal number. number ≡ refusal_number refusal };

    fn from(refusal: Refusal) -> u32 {
        refusal as u32
    }
}

// The finding "twice": a name that a scope declares twice, by its number, and its two nodes.
#[derive(Clone, Copy, Debug, PartialEq, Eq)]
pub struct SymbolDeclaredTwice {
    pub name: u32,
    pub first: NodeId,
    pub second: NodeId,
}

// Why a call that resolves gives no result: a refusal, or the finding "twice".
#[derive(Clone, Copy, Debug, PartialEq, Eq)]
pub enum Unresolved {
    Refused(Refusal),
    Twice(SymbolDeclaredTwice),
}

impl From<Refusal> for Unresolved {
    ghost from_gives = { ByRefusal };

    fn from(refusal: Refusal) -> Unresolved {
        Unresolved::Refused(refusal)
    }
}

impl From<SymbolDeclaredTwice> for Unresolved {
    ghost from_gives = { ByTwice };

    fn from(twice: SymbolDeclaredTwice) -> Unresolved {
        Unresolved::Twice(twice)
    }
}

// The kinds of error.rs, and strict mode's own. Document 01 names them all. The code makes only those with a row number: what the other
// two tell is handed back in types of its own, `SymbolDeclaredTwice` and `Lone` of `occurrences`.
#[derive(Clone, Copy, Debug, PartialEq, Eq)]
pub enum ErrorKind {
    // Resolve's "twice".
    SymbolDeclaredTwice,
    VariableIntroducedInThenStmt,
    ThenDefinedVarNotNew,
    MatchPatternArgVarIsNotFresh,
    // Once's lone occurrence.
    VariableOccursOnlyOnce,
    // Strict mode's, which the Rust does not have.
    RepeatedArgument,
}

impl ErrorKind {
    // The number of an error row of this kind; 0 for a kind that stands in no row. An Option would be no plainer: each caller names a
    // kind that has rows.
    pub fn row_number(self) -> u32
        ensures { result ≡ row_number self }
    {
        match self {
            ErrorKind::SymbolDeclaredTwice | ErrorKind::VariableOccursOnlyOnce => 0,
            ErrorKind::VariableIntroducedInThenStmt => 1,
            ErrorKind::ThenDefinedVarNotNew => 2,
            ErrorKind::MatchPatternArgVarIsNotFresh => 3,
            ErrorKind::RepeatedArgument => 4,
        }
    }
}
