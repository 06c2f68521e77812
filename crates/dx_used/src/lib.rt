//! Which columns of the source are read: those that a list of rules uses, and those that conditions name.
//!
//! A premise has a variable for each column of a table. Where a rule mentions a variable once, nothing is asked of the value
//! there, and a column that has only such variables need not be read: instances that agree on all other columns have the same
//! rows of each rule, the same solutions and the same universal ones (specs/Used, specs/Laws).
//!
//! A condition tests the value in a column, and rows that don't pass are left out (specs/Passing). So the columns that conditions
//! name are read as well, and then of instances that agree the rows that pass agree too. Exactly the columns that are used or named
//! are marked (specs/Named).
#![tactic(auto)]

mod laws;
mod marking;
mod mentions;

pub use laws::{passing_rows_agree, same_rows_if_they_agree, same_solutions_if_they_agree};
pub use marking::used_columns;
