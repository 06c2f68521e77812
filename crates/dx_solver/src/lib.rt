//! A solver for questions of the kind "can these atoms be rows that are there": numbers for variables are sought, so that each
//! atom becomes a row of its table that is not taken out (specs/Questions).
//!
//! A question with few atoms is searched plainly, and to its end if that takes few steps (src/few). Any other is tried by a plain search
//! first (src/forward), and then by one that keeps for each variable what it can still become.
#![tactic(auto)]

mod atom;
mod choosing;
mod cutting;
mod domain;
mod few;
mod forward;
mod judging;
mod linked;
mod node;
mod position;
mod question;
mod rows;
mod solving;
mod spreading;
mod taken;
mod values;

pub use atom::{PatternAtom, Term, Terms};
pub use solving::solve;
pub use taken::Taken;
