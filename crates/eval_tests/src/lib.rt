//! Tests of runs of scripts: what a script makes of rows, and the limit up to which it makes it.
//!
//! They are a table of constants and one small function. What is wanted is worked out from the definitions, never taken
//! from what the program answers.
#![tactic(auto)]

#[cfg(test)]
mod tests;
