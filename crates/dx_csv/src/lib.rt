//! Tables and records as CSV.
//!
//! `load_table` gives the rows of the records of the bytes (specs/Table), or the first fault: no header, another header,
//! a record of another width, a field that is not UTF-8. `load_into` does the same and gives rows of numbers under which
//! the constants stand; those of one file share a buffer. Marks say which columns are used: in the others it gives each
//! constant the number of the empty one, and makes no text of it (specs/Blanks). `print_table` gives exactly the records
//! of the columns and of the rows, ascending, and `print_records` those that it is given (specs/Print), both by `Lines`,
//! which prints field by field into one buffer of bytes (specs/Lines). A printed table is read as the same records, and the
//! law `printed_reads_back` says when other printed records are. The law `one_reading`: records are a table of one list of
//! rows or have one fault, and never both. The law `table_texts_differ`: no text is that of two tables with other rows.
#![tactic(auto)]

mod fault;
mod fields;
mod interning;
mod laws;
mod lines;
mod load;
mod plain;
mod print;
mod records;
mod repeats;

pub use fault::{RowFault, RowKind};
pub use interning::load_into;
pub use laws::{one_reading, printed_reads_back, table_texts_differ};
pub use lines::{Lines, show_null};
pub use load::load_table;
pub use print::{print_records, print_records_bytes, print_table, print_table_bytes};
