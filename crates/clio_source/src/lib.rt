//! The source of files.
//!
//! `read_source` reads the file of each root of a schema in order and gives the instance of their facts, or the first reason
//! to refuse them. The file of a root without inner sets is a table, `<set>.csv`; that of another is a document with its
//! inner sets, `<set>.json`. One row of stages (specs/Source) says what they hold: for each root its file, of as many bytes
//! as are left, then its form, then the cells of its facts, of as many as are left. Of all the facts that were read those stay
//! that pass the caller's conditions (`passing` of dx_used); its row tests decide what passes. Rows of an instance ascend, so there
//! is one instance of the files. The caller says which columns are used, those that conditions name among them: of a
//! table's other columns nothing is kept, and what is read agrees with the instance of the files on the used ones (specs/Agreeing).
//! Beside the instance it gives how many bytes are left for files that are read after these. What the code has of what was read
//! is in specs/Fitting.
#![tactic(auto)]

mod documents;
mod fault;
mod files;
mod laws;
mod names;
mod passing;
mod reading;
mod tables;

pub use fault::{RowsFault, SourceRefusal};
pub use files::read_source;
pub use laws::{
    all_is_read_without_marks, bytes_are_left_of_one_source, files_are_read_or_refused,
    roots_have_no_parent,
};
pub use names::{file_name, json_file_name};
pub use reading::{Reading, cells_after, too_many_bytes};
