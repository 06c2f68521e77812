//! The closing of a rule: its conclusion with all that the links of the target ask for beside it. The definitions
//! (specs/Closing) go through the atoms in order, those appended included, and append one if none serves a link;
//! `close` does so, with at most 64 atoms. Its contract: the closing alone, as closed as specs/Solutions of dx_model
//! wants a rule, numbered by first appearance, or refused if each closing has more than 64 atoms. It takes a
//! conclusion whose atoms fit the target and whose existential variables are numbered by first appearance, and
//! `can_be_closed` says exactly of which conclusions that holds. specs/Laws has what holds of closings: if links have
//! no cycle there is one and no other, and what is closed already is its own.
#![tactic(auto)]

mod cells;
mod checking;
mod closing;
mod fault;
mod growing;
mod laws;
mod links;
mod variables;

pub use checking::can_be_closed;
pub use closing::close;
pub use fault::CloseFault;
pub use laws::{closing_ends, closing_keeps, closing_serves, one_closing, served_is_closing};
