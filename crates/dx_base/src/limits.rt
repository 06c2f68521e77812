//! The limits: how much of each count is accepted. A count at its number is accepted, and one above it is refused.

/// Bytes of the mapping text.
pub const TEXT_BYTES: u64 = 1_048_576;

/// Bytes of all source files together.
pub const DATA_BYTES: u64 = 67_108_864;

/// Tables of a schema: its sets, inner sets included.
pub const TABLES: u64 = 64;

/// Columns of a table, the column of its own number and that of its parent's included.
pub const COLUMNS: u64 = 64;

/// Levels of sets, one inside the other.
pub const DEPTH: u64 = 16;

/// Lines of a mapping, and its conditions on rows.
pub const LINES: u64 = 512;

/// Occurrences of an unfolding, and of a premise or a closed conclusion of a rule written by hand.
pub const OCCURRENCES: u64 = 64;

/// Variants of the tables of a schema, in all.
pub const VARIANTS: u64 = 256;

/// Ways between a source variant and a target variant.
pub const WAYS: u64 = 64;

/// Candidates of the lines of a mapping, in all.
pub const CANDIDATES: u64 = 1_024;

/// Rules of a mapping, kept and written by hand, before pruning.
pub const RULES: u64 = 256;

/// Cells of all source rows as they are read, repeated rows included: rows times columns.
pub const SOURCE_CELLS: u64 = 4_000_000;

/// Cells of the canonical instance, counted for each match.
pub const TARGET_CELLS: u64 = 4_000_000;

/// Canonical cells on a frozen premise, for each rule that pruning tests.
pub const FROZEN_CELLS: u64 = 4_000_000;

/// Bytes of the text of a query.
pub const QUERY_BYTES: u64 = 65_536;

/// Atoms of a part of a query.
pub const QUERY_ATOMS: u64 = 64;

/// Cells of the rows that answer a query: rows times columns.
pub const ANSWER_CELLS: u64 = 4_000_000;

/// Cells of all rows that are given to be judged, as they are read, repeated rows included: rows times columns.
pub const GIVEN_CELLS: u64 = 1_000_000;
