// Scripts: lists of steps that make a target of a source.
use dx_base::{Items, Text};

/// A cell of a source row, by the alias of the row and the name of its column.
#[derive(Drop)]
pub struct CellRef {
    pub alias: u32,
    pub column: Text,
}

/// What stands in a column of a match table: a cell, or a conversion of cells.
#[derive(Drop)]
pub enum Select {
    Cell(CellRef),
    Call { name: Text, args: Items<CellRef> },
}

/// Two cells that have one text.
#[derive(Drop)]
pub struct Equal {
    pub left: CellRef,
    pub right: CellRef,
}

/// What makes a tuple of another match table a partner of a tuple: columns of both that have one text, or a column of
/// its own that has a given text.
#[derive(Drop)]
pub enum Test {
    Columns { other: u32, own: u32 },
    Literal { own: u32, text: Text },
}

/// The partners in the match table of a rule: the tuples that make all tests true.
#[derive(Drop)]
pub struct Unless {
    pub rule: u32,
    pub tests: Items<Test>,
}

/// What an insert puts into a column: the text of a match column, a literal, or the null of an existential variable.
#[derive(Drop)]
pub enum Out {
    Column(u32),
    Literal(Text),
    Skolem(u32),
}

/// One step. The match table and the keep table of a rule have its number.
#[derive(Drop)]
pub enum Step {
    /// A table of the target.
    Create {
        table: Text,
        columns: Items<Text>,
    },
    /// The match table of a rule: what is selected, the source table of each alias, and the cells that are equal.
    MatchRows {
        rule: u32,
        select: Items<Select>,
        sources: Items<Text>,
        equal: Items<Equal>,
    },
    /// The keep table of a rule: the tuples of its match table that have none of these partners.
    KeepRows {
        rule: u32,
        unless: Items<Unless>,
    },
    /// A row of a target table for each tuple of a rule's keep table, if `kept`, or else of its match table.
    InsertRows {
        table: Text,
        rule: u32,
        kept: bool,
        cells: Items<Out>,
    },
}

/// A list of steps, in the order in which they run.
#[derive(Drop)]
pub struct Script {
    pub steps: Items<Step>,
}
