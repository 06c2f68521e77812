//! What stands outside: what is read from, and what is written to.
//!
//! `Inputs` and `Outputs` are the traits of what is read from and written to: a file is given with exactly its bytes or refused
//! with a cause, and a failing call is counted. Each port keeps a log of what it answered (`ReadLog`, `WriteLog`), which proofs
//! alone read: so what is computed over a port is said of what its calls answered, also if it doesn't tell what it holds.
//! `MemInputs` and `MemOutputs` are fakes in memory whose calls fail at the wanted numbers and at no others.
#![tactic(auto)]

mod inputs;
mod log;
mod memory_inputs;
mod memory_outputs;
mod outputs;

pub use inputs::{FetchFault, Inputs};
pub use log::{ReadLog, WriteLog};
pub use memory_inputs::{MemInputs, bytes_named};
pub use memory_outputs::MemOutputs;
pub use outputs::{Outputs, PutFault};
