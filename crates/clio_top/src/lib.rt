//! The whole program, over what it reads from and writes to.
//!
//! `run` does what the words say: it exchanges data under a mapping, shows the mapping's rules and their script, exchanges
//! the files of a demo, answers a query, judges a given target, or compares two mappings. The last three are crates of
//! their own (`clio_answer`, `clio_judge`, `clio_compare`); what all of them share is `clio_steps`. The contract of `run` is
//! one record (specs/Right, `IsRight`): in each world in which all that the reads answered is so, what each thing that is
//! done comes to, and a clash (specs/Promises, over the Outcomes of each command), what a run leaves that is not done
//! (specs/Leaving), and what comes if nothing outside fails (specs/Completing). A run is one row of stages (specs/Commands,
//! `run_stages`; dx_stages, specs/Ending, `Runs`). `files` makes the files of an exchange alone (specs/FilesOf). Endings
//! and their messages are those of `clio_ending`.
#![tactic(auto)]

mod command;
mod demo;
mod demo_inputs;
mod exchanging;
mod file_list;
mod laws;
mod numeral;
mod showing;
mod top;

pub use clio_accept::{AcceptFault, MapFault, Mapping, accept};
pub use clio_ending::{Answers, Done, Ending, OtherFault, QueryFault, message};
pub use clio_source::RowsFault;
pub use file_list::files;
pub use laws::{
    an_exchange_is_planned, an_exchange_writes_this, clash_exactly_without_solution,
    exchanges_can_be_written, files_have_own_names, names_are_of_the_folder, over_anything,
    planned_if_there_is_something, refused_or_planned, usage_is_of_words,
};
pub use top::run;
