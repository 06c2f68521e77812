//! The steps that commands share: a mapping text, the rows of its source files, and their exchange.
//!
//! `read_mapping` reads and accepts a mapping text, the first or the one that it is compared with: steps 1 to 3 of
//! docs/HOW-IT-WORKS.md. `read_used_rows` reads the source files of a mapping, as far as its rules use them, and says how
//! many bytes are left for other files: step 4. `exchange_rows` exchanges rows under a mapping, steps 5 to 8, and
//! `exchange_files` does all three. Each has as its contract the stages that it goes through (specs/Steps), over whatever
//! the files hold (dx_stages); specs/Outcomes has a record of what there is after each step. A command is a crate above
//! this one.
#![tactic(auto)]

mod exchanging;
mod laws;
mod source;
mod target;
mod texts;

pub use exchanging::exchange_files;
pub use laws::{a_solution_or_none, an_exchange_or_a_refusal, each_step_comes_once};
pub use source::read_used_rows;
pub use target::exchange_rows;
pub use texts::{Side, read_mapping};
