//! How a run of the program ends: endings, their exit statuses and their messages.
//!
//! An `Ending` is what a run answers; `status` is its exit status (specs/Ending) and `message` its text (specs/Message);
//! `status_and_message` gives both, and lets the ending go. A `Refusal` is why a run was refused, `named_clash` gives a
//! clash the names that the target has, and `as_ending` makes the ending of what the stages of a run ended with.
#![tactic(auto)]

mod clashes;
mod ending;
mod faults;
mod letting_go;
mod messages;
mod status;

pub use clashes::named_clash;
pub use clio_accept::MapFault;
pub use clio_source::RowsFault;
pub use dx_compare::{Answer, Comparison};
pub use dx_exchange::{Clash, Exchange};
pub use dx_judge::{Verdict, Why};
pub use ending::{Answers, Done, Ending, Refusal, as_ending, with_source_refusal};
pub use faults::{OtherFault, QueryFault};
pub use messages::message;
pub use status::status_and_message;
