//! The names of lines and conditions: which sets, columns, conversions and row tests the words of a mapping text name.
//!
//! specs/Naming and specs/Conditions have the notions, which compute: the first word that is at fault, and the lines and
//! the conditions by numbers. `read_lines` gives exactly these, for the conversions that a host lists, and
//! `read_conditions` for the row tests that are listed. The law `names_alone_are_at_fault`: a fault of names is a word that
//! names nothing or a conversion with another number of arguments, and no other; a condition has the first kind alone.
#![tactic(auto)]

mod conditions;
mod laws;
mod lines;
mod places;

pub use conditions::read_conditions;
pub use laws::names_alone_are_at_fault;
pub use lines::read_lines;
