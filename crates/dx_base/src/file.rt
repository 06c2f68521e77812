// Files by name, and limits.
use crate::Text;

/// A file: its name, and its bytes.
#[derive(Debug, Drop)]
pub struct File {
    pub name: Text,
    pub bytes: Vec<u8>,
}

/// What a limit counts.
#[derive(Clone, Copy, Debug, PartialEq, Eq)]
pub enum Count {
    /// Bytes of the mapping text.
    TextBytes,
    /// Bytes of all source files together.
    DataBytes,
    /// Sets of a schema, inner sets included: each is a table.
    Tables,
    /// Columns of a table.
    Columns,
    /// Levels of sets, one inside the other.
    Depth,
    /// Lines of a mapping, and its conditions on rows.
    Lines,
    /// Variants of the tables of a schema.
    Variants,
    /// Occurrences of an unfolding.
    Occurrences,
    /// Ways between a source variant and a target variant.
    Ways,
    /// Candidates of the lines of a mapping.
    Candidates,
    /// Rules of a mapping.
    Rules,
    /// Cells of all source rows, repeated rows included.
    SourceCells,
    /// Cells of the canonical instance, counted for each match.
    TargetCells,
    /// Cells that are made to test whether rules follow from others.
    FrozenCells,
    /// Bytes of the text of a query.
    QueryBytes,
    /// Atoms of a part of a query.
    QueryAtoms,
    /// Cells of the rows that answer a query.
    AnswerCells,
    /// Cells of all rows that are given to be judged.
    GivenCells,
}

/// A limit that was passed: what was counted, and the greatest number that is accepted.
#[derive(Clone, Copy, Debug, PartialEq, Eq)]
pub struct Limit {
    pub what: Count,
    pub number: u64,
}
