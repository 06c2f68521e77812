//! Tests of what no run of the program over a folder shows: reads, writes and sayings that fail, and candidates besides those that
//! are kept. Files are in `MemInputs` and `MemOutputs`. All that a run shows is in examples/.
#![tactic(auto)]

#[cfg(test)]
mod tests;
