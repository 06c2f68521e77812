//! Tests of calls of the layers that no run of the program shows: sets that no mapping text can say, rows that no run makes, fakes of
//! files, a host of other conversions, and printed texts that are read again.
//!
//! All that a run shows stands in examples/. For each kind of calls there is a text of cases and a small function that answers one in
//! words. What is wanted is worked out from the definitions, never taken from what the program answers.
#![tactic(auto)]

#[cfg(test)]
mod tests;
