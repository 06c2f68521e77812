//! The command `answer`: the certain answers to a query over the target of a mapping.
//!
//! `answer_plan` reads the mapping text, the text of the query and the source files, exchanges these in plain mode, and gives the file of the
//! rows of constants among the query's answers there. Its contract is its stages (specs/Answering). These rows are exactly the
//! certain answers: those that the query has on every solution (specs/Outcomes, `IsAnsweredIn`).
#![tactic(auto)]

mod answering;
mod laws;

pub use answering::answer_plan;
pub use laws::answers_or_a_refusal;
