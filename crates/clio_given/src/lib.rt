//! The given target of files: what somebody else made, as value texts.
//!
//! `read_given` reads for each table of a schema in order the file `given/<table>.csv`, and gives the instance of their rows, or the
//! first reason to refuse them. Each field is the text of a value, so a null may be there. One row of stages (specs/Given) says what
//! the files hold: for each table its file, of as many bytes as the caller has left, then its form, then the values of its fields, then
//! the cells of its rows, of as many as are left. Rows of an instance ascend, so there is one instance of the files (specs/Laws).
#![tactic(auto)]

mod files;
mod laws;
mod names;
mod reading;
mod values;

pub use files::read_given;
pub use laws::given_is_read_or_refused;
