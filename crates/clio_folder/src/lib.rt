//! The working folder, as what a run reads from and writes to.
//!
//! `FolderInputs` reads the files `./NAME`, and `FolderOutputs` writes the files `./out/NAME` and says to standard
//! output. Both meet the clauses of `Inputs` and `Outputs`. They show what their calls have answered, and nothing of
//! what the folder holds: no contract can see that. What is read of an opened file is all that its reads give
//! (`read_opened`). That the system's reads and writes move the bytes of the named files is tested.
#![tactic(auto)]

mod inputs;
mod left_overs;
mod logged;
mod outputs;
mod parts;

pub use inputs::FolderInputs;
pub use outputs::FolderOutputs;

#[cfg(test)]
mod tests;
