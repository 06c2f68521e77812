// What is printed of an ending.
ghost use Rattle.std.specs.Prelude.{◌≡◌, IfOk, string_bytes};
ghost use Rattle.clio_ending.specs.Message.{count_text, json_kind_text, kind_text, map_fault_text, message_of, other_fault_text};
ghost use Rattle.clio_ending.specs.Message.{query_fault_text, rows_fault_text, schema_kind_text, text_kind_text, which_text};

use crate::clashes::clash_text;
use crate::ending::Ending;
use crate::faults::{OtherFault, QueryFault};
use clio_accept::MapFault;
use clio_source::RowsFault;
use dx_base::{Count, Text};
use dx_csv::RowKind;
use dx_json::JsonKind;
use dx_schema::SchemaKind;
use dx_schema_text::TextKind;
use std::alloc::{AllocError, Global};

const USAGE: &str =
    "usage: clio show [--core] | clio exchange [--core] [--nested] | clio demo N [--core] | clio answer | clio judge \
    | clio compare";

// The printed name of a count.
fn count_text(count: Count) -> &'static str
    ensures { result.now ≡ count_text count }
{
    match count {
        Count::TextBytes => "text bytes",
        Count::DataBytes => "data bytes",
        Count::Tables => "tables",
        Count::Columns => "columns",
        Count::Depth => "depth",
        Count::Lines => "lines",
        Count::Variants => "variants",
        Count::Occurrences => "occurrences",
        Count::Ways => "ways",
        Count::Candidates => "candidates",
        Count::Rules => "rules",
        Count::SourceCells => "source cells",
        Count::TargetCells => "target cells",
        Count::FrozenCells => "frozen cells",
        Count::QueryBytes => "query bytes",
        Count::QueryAtoms => "query atoms",
        Count::AnswerCells => "answer cells",
        Count::GivenCells => "given cells",
    }
}

// What is wrong at a place of the mapping text.
fn text_kind_text(kind: TextKind) -> &'static str
    ensures { result.now ≡ text_kind_text kind }
{
    match kind {
        TextKind::Character => "bad character",
        TextKind::Expected => "unexpected token",
        TextKind::Ended => "text ended",
        TextKind::UnknownName => "unknown name",
        TextKind::Width => "wrong number of cells",
        TextKind::Unsafe => "unsafe variable",
    }
}

// What is wrong with the sets of one side.
fn schema_kind_text(alloc: Global, kind: &SchemaKind) -> Result<String, AllocError>
    ensures { IfOk result (λ s. string_bytes s ≡ schema_kind_text kind.now) }
{
    match kind {
        SchemaKind::DoubleName(name) => format!(in alloc; "double name {name}"),
        SchemaKind::NoColumn(name) => format!(in alloc; "no column in {name}"),
        SchemaKind::UnknownName(name) => format!(in alloc; "unknown name {name}"),
        SchemaKind::CyclicLinks(name) => format!(in alloc; "cyclic links at {name}"),
        SchemaKind::BadLink(name) => format!(in alloc; "bad link in {name}"),
    }
}

// What is wrong with the mapping text.
fn map_fault_text(alloc: Global, fault: &MapFault) -> Result<String, AllocError>
    ensures { IfOk result (λ s. string_bytes s ≡ map_fault_text fault.now) }
{
    match fault {
        MapFault::Absent => String::from_str(alloc, "mapping.clio is absent"),
        MapFault::Text { place, kind } => {
            let kind = text_kind_text(*kind);
            format!(in alloc; "{kind} at byte {place}")
        }
        MapFault::Source(kind) => {
            let kind = schema_kind_text(alloc, kind)?;
            format!(in alloc; "source: {kind}")
        }
        MapFault::Target(kind) => {
            let kind = schema_kind_text(alloc, kind)?;
            format!(in alloc; "target: {kind}")
        }
        MapFault::Reserved(name) => format!(in alloc; "target: reserved name {name}"),
    }
}

// What is wrong with the records of a file.
fn kind_text(alloc: Global, kind: RowKind) -> Result<String, AllocError>
    ensures { IfOk result (λ s. string_bytes s ≡ kind_text kind) }
{
    match kind {
        RowKind::NoHeader => String::from_str(alloc, "no header"),
        RowKind::Header(column) => format!(in alloc; "header at column {column}"),
        RowKind::Width(record) => format!(in alloc; "width of record {record}"),
        RowKind::NotText(record) => format!(in alloc; "record {record} is not text"),
    }
}

// What is wrong with a document.
fn json_kind_text(alloc: Global, kind: &JsonKind) -> Result<String, AllocError>
    ensures { IfOk result (λ s. string_bytes s ≡ json_kind_text kind.now) }
{
    match kind {
        JsonKind::NotJson => String::from_str(alloc, "not JSON"),
        JsonKind::Shape(path) => format!(in alloc; "wrong shape at {path}"),
        JsonKind::Number(path) => format!(in alloc; "number at {path}"),
        JsonKind::Unknown(path) => format!(in alloc; "unknown member at {path}"),
    }
}

// What is wrong with a source file.
fn rows_fault_text(alloc: Global, file: &Text, fault: &RowsFault) -> Result<String, AllocError>
    ensures { IfOk result (λ s. string_bytes s ≡ rows_fault_text file.now fault.now) }
{
    match fault {
        RowsFault::Absent => format!(in alloc; "{file} is absent"),
        RowsFault::Csv(kind) => {
            let kind = kind_text(alloc, *kind)?;
            format!(in alloc; "{file}: {kind}")
        }
        RowsFault::Json(kind) => {
            let kind = json_kind_text(alloc, kind)?;
            format!(in alloc; "{file}: {kind}")
        }
        RowsFault::Value(record) => format!(in alloc; "{file}: record {record} is not a value"),
    }
}

// What is wrong with a query.
fn query_fault_text(alloc: Global, fault: &QueryFault) -> Result<String, AllocError>
    ensures { IfOk result (λ s. string_bytes s ≡ query_fault_text fault.now) }
{
    match fault {
        QueryFault::Absent => String::from_str(alloc, "query.clio is absent"),
        QueryFault::Text { place, kind } => {
            let kind = text_kind_text(*kind);
            format!(in alloc; "{kind} at byte {place}")
        }
    }
}

// Which of two mapping texts.
fn which_text(second: bool) -> &'static str
    ensures { result.now ≡ which_text second }
{
    if second { "other.clio" } else { "mapping.clio" }
}

// What is wrong with the second of two mappings, or with the two together.
fn other_fault_text(alloc: Global, fault: &OtherFault) -> Result<String, AllocError>
    ensures { IfOk result (λ s. string_bytes s ≡ other_fault_text fault.now) }
{
    match fault {
        OtherFault::Absent => String::from_str(alloc, "other.clio is absent"),
        OtherFault::Mapping(fault) => map_fault_text(alloc, fault),
        OtherFault::Schemas => String::from_str(alloc, "schemas differ"),
        OtherFault::Conditions => String::from_str(alloc, "row conditions"),
        OtherFault::Derived { second, rule } => {
            let text = which_text(*second);
            format!(in alloc; "conversion in rule {rule} of {text}")
        }
    }
}

fn message_string(alloc: Global, ending: &Ending) -> Result<String, AllocError>
    ensures { IfOk result (λ s. string_bytes s ≡ message_of ending.now) }
{
    match ending {
        Ending::Done(_) => Ok(String::new(alloc)),
        Ending::Usage => String::from_str(alloc, USAGE),
        Ending::Clash {
            clash,
            table,
            key,
            column,
        } => clash_text(alloc, clash, table, key.items(), column),
        Ending::Mapping(fault) => {
            let fault = map_fault_text(alloc, fault)?;
            format!(in alloc; "mapping: {fault}")
        }
        Ending::Rows { file, fault } => {
            let fault = rows_fault_text(alloc, file, fault)?;
            format!(in alloc; "rows: {fault}")
        }
        Ending::Limit(limit) => {
            let count = count_text(limit.what);
            let number = limit.number;
            format!(in alloc; "limit: {count} {number}")
        }
        Ending::ReadFault { file } => format!(in alloc; "read fault: {file}"),
        Ending::WriteFault { files } => format!(in alloc; "write fault: {files} files written"),
        Ending::Memory => String::from_str(alloc, "out of memory"),
        Ending::Query(fault) => {
            let fault = query_fault_text(alloc, fault)?;
            format!(in alloc; "query: {fault}")
        }
        Ending::Other(fault) => {
            let fault = other_fault_text(alloc, fault)?;
            format!(in alloc; "other: {fault}")
        }
    }
}

/// The text of an ending, without a line feed: the empty text if all was done.
///
/// # Errors
///
/// `AllocError` if there is no memory.
pub fn message(alloc: Global, ending: &Ending) -> Result<Text, AllocError>
    ensures { IfOk result (λ t. t ≡ message_of ending.now) }
{
    Text::from_string(alloc, message_string(alloc, ending)?)
}
