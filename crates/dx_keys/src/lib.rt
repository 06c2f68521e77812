//! The key chase of an instance: what keys make of its nulls.
//!
//! `chase` gives the forced map of an instance and its image under that map, in which keys hold; or a clash, if nothing in
//! which keys hold receives the instance (specs/Answers). It numbers the values in ascending order (`numbering`), lists what
//! determines what in each table (`tables`: the one place that knows of keys and dependencies), lets `dx_chase` join the numbers, and reads
//! values again (`reading`, `clashes`). Laws: what the chase makes of an instance receives it (specs/Laws), and every chase ends, with
//! the forced map or with a clash (specs/Ends).
#![tactic(auto)]

mod answers;
mod chasing;
mod clashes;
mod ends;
mod fault;
mod keyless;
mod laws;
mod numbering;
mod reading;
mod tables;

pub use answers::{Chased, Clash, KeyStep};
pub use chasing::chase;
pub use ends::every_chase_ends;
pub use fault::ChaseFault;
pub use laws::chased_is_received;
