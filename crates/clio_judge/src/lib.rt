//! The command `judge`: the verdict on a target that is given.
//!
//! `judge_plan` reads the mapping text, the source files and the given files, and gives the line of the verdict: a solution or not,
//! and why not; universal; a core. Its contract is its stages (specs/Judging); specs/Outcomes has what they come to
//! (`IsJudgedIn`).
#![tactic(auto)]

mod judging;
mod laws;

pub use judging::judge_plan;
pub use laws::a_verdict_or_a_refusal;
