// Why a source is refused.
use dx_base::{Limit, Text};
use dx_csv::RowKind;
use dx_json::JsonKind;

/// What is wrong with a source file.
#[derive(Drop)]
pub enum RowsFault {
    /// There is no such file.
    Absent,
    /// The file is no table of the set's columns.
    Csv(RowKind),
    /// The file is no document of the set and its inner sets.
    Json(JsonKind),
    /// A field of the record of this number, the first such, is no value's text. Of a source file it never comes: each of its
    /// fields is a constant.
    Value(u64),
}

/// Why the source is refused.
#[derive(Drop)]
pub enum SourceRefusal {
    /// What is wrong with this file, the first at fault.
    Rows { file: Text, fault: RowsFault },
    /// The files have too many bytes, or their facts too many cells.
    Limit(Limit),
}
