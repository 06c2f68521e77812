//! Worked examples of definitions that crates below state and that no crate of theirs works out.
//!
//! Those of what is read, judged, put and said are clauses of functions with empty bodies. The others are in proofs: each file
//! has those of one crate, small cases, and what the definition says of them. All are proved, so that a definition with
//! another meaning is refused here.
#![tactic(auto)]

mod examples;

pub use examples::{
    a_condition_leaves_out_a_row, a_target_is_judged_by_rules, a_verdict_names_a_target_set,
    core_mode_has_its_own_script, nested_puts_a_document, two_answers_are_counted,
};
