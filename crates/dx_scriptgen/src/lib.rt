//! The scripts of rules: the plain one makes the canonical instance, the rewritten one its uncovered part.
//!
//! `plain_script` and `rewritten_script` give exactly the steps of `dx_script`'s specs/Generated and specs/Rewritten. Their
//! clauses say besides that the script fits the two schemas and the conversions of the host, and what it means on the rows of
//! each source: the rows of the rules, and the facts of the canonical instance or of its uncovered part. One generator makes
//! both: the parts of the keep steps are its argument.
#![tactic(auto)]

mod copies;
mod generate;
mod inserts;
mod keeps;
mod matches;
mod premise;

pub use generate::{plain_script, rewritten_script};
