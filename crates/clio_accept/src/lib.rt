//! Accepting a mapping text.
//!
//! `accept` gives the mapping that a text defines, its two schemas, its conditions, and what pruning leaves of the rules of its
//! lines and its closed hand-written rules, or the first reason to refuse it. Its contract is one row of stages (specs/Accepting):
//! the text, the source sets, the target sets, the names of the target sets, the number of lines and conditions, the words of the
//! lines, those of the conditions, the hand-written rules, the limits of lines, the closings of the hand-written rules, the number
//! of rules, and the canonical cells on the frozen premises that pruning tests.
#![tactic(auto)]

mod accepting;
mod fault;
mod laws;
mod lines;
mod mapping;

pub use accepting::accept;
pub use fault::{AcceptFault, MapFault};
pub use laws::{a_text_is_accepted_or_refused, accepted_names_are_free, an_accepted_mapping_fits};
pub use mapping::Mapping;
