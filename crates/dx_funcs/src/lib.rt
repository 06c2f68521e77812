//! Stored conversions: what a user's program may do to texts on their way from a source to a target.
//!
//! A `Host` lists conversions and stores the closure that computes them; a `Meaning` says, in contracts alone, what text
//! each of them gives. An Ok of `Host::call` and `Host::call_named` is that text, for every closure that answers what is
//! listed (`Serves`) and every meaning. A name and a code tell which conversion is meant (specs/Names, specs/Laws).
//! `Tests` lists row tests and stores the closure that decides them in the same way: an Ok of `Tests::check` is what the
//! `Meaning` says that passes (specs/Judging).
//! `Shipped` is the meaning of the conversions and row tests that come with `clio`: `shipped_list` and `shipped_tests` list
//! them, `convert` computes the first and `check_row` decides the second (specs/Shipped).
#![tactic(auto)]

mod conversion;
mod host;
mod laws;
mod meaning;
mod row_test;
mod row_tests;
mod shipped;
mod steps;

pub use conversion::Conversion;
pub use host::Host;
pub use laws::{calls_by_name_are_by_code, names_and_codes_tell};
pub use meaning::Meaning;
pub use row_test::RowTest;
pub use row_tests::Tests;
pub use shipped::{Shipped, check_row, convert, shipped_list, shipped_tests};
