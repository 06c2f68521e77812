// What a mapping text says, with the places of its words. A place counts the bytes before it.
use dx_base::{Items, Text};
use dx_schema::Trees;

/// A column of a set, as a line names it.
#[derive(Debug, Drop)]
pub struct PlaceText {
    /// The set's name.
    pub set: Text,
    /// Where the set's name stands.
    pub set_place: u64,
    /// The column's name.
    pub column: Text,
    /// Where the column's name stands.
    pub column_place: u64,
}

/// Where a line's values come from.
#[derive(Debug, Drop)]
pub enum SourceText {
    /// A column of the source.
    Column(PlaceText),
    /// A text, the same for each row.
    Literal(Text),
    /// A conversion of columns: its name, where the name stands, and the columns.
    Call {
        name: Text,
        place: u64,
        args: Items<PlaceText>,
    },
}

/// A line from a source to a column of the target.
#[derive(Debug, Drop)]
pub struct LineText {
    /// Where its values come from.
    pub source: SourceText,
    /// The column that gets them.
    pub target: PlaceText,
}

/// A cell of an atom: the name of a variable, or a text.
#[derive(Debug, Drop)]
pub enum CellText {
    /// The name of a variable, and where it stands.
    Name { name: Text, place: u64 },
    /// A text.
    Literal(Text),
}

/// A set with its cells.
#[derive(Debug, Drop)]
pub struct AtomText {
    /// The set's name.
    pub set: Text,
    /// Where the set's name stands.
    pub place: u64,
    /// The cells in order.
    pub cells: Items<CellText>,
}

/// A variable that a conversion of variables gives.
#[derive(Debug, Drop)]
pub struct DerivedText {
    /// The variable's name.
    pub name: Text,
    /// Where the variable's name stands.
    pub place: u64,
    /// The conversion's name.
    pub call: Text,
    /// Where the conversion's name stands.
    pub call_place: u64,
    /// The variables of which the conversion makes a text, in order.
    pub args: Items<CellText>,
}

/// A rule that was written by hand.
#[derive(Debug, Drop)]
pub struct RuleText {
    /// What stands in the source.
    pub premise: Items<AtomText>,
    /// The variables that conversions give, in order.
    pub derived: Items<DerivedText>,
    /// What then stands in the target.
    pub conclusion: Items<AtomText>,
}

/// A condition: the rows whose text in the column doesn't pass the test are left out.
#[derive(Debug, Drop)]
pub struct OnlyText {
    /// The column.
    pub place: PlaceText,
    /// The test's name.
    pub test: Text,
    /// Where the test's name stands.
    pub test_place: u64,
}

/// All that a mapping text says.
#[derive(Drop)]
pub struct MappingText {
    /// The version of the grammar of mapping texts, which is 1, 2 or 3.
    pub version: u32,
    /// The sets of the source.
    pub source: Trees,
    /// The sets of the target.
    pub target: Trees,
    /// The lines in order.
    pub lines: Items<LineText>,
    /// The conditions in order. There are none before version 2.
    pub conditions: Items<OnlyText>,
    /// The hand-written rules in order.
    pub rules: Items<RuleText>,
}
