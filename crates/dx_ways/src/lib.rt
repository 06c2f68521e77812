//! The ways that lines give between the occurrences of two unfoldings.
//!
//! `ways` gives exactly the ascending list of `dx_lines` (specs/Ways), if it has no more than 64 members, and answers
//! `TooMany` only if it has more. It tries one choice of occurrences after another, among those that differ in the
//! columns that a line names (specs/Tried), and stops at the 65th way. specs/Laws says what the list is: its members,
//! without a list, that it ascends, and that it grows with the occurrences.
#![tactic(auto)]

mod fault;
mod finding;
mod laws;
mod picks;
mod seen;
mod trying;

pub use fault::WaysFault;
pub use finding::ways;
pub use laws::{one_ascending, ways_are, ways_ascend, ways_grow};
pub use picks::{copy_pick, is_among, pick_order};
