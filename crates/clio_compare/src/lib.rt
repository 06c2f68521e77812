//! The command `compare`: whether the rules of one mapping imply those of another, and back.
//!
//! `compare_plan` reads two mapping texts and gives what is said of their comparison, with two instances for each direction that
//! is refuted. Its contract is its stages (specs/Comparing); specs/Outcomes has what they come to (`IsComparedIn`).
#![tactic(auto)]

mod comparing;
mod laws;

pub use comparing::compare_plan;
pub use laws::a_comparison_or_a_refusal;
