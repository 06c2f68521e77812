//! Refusals as stages in a row.
//!
//! A stage refuses what it is given, or passes on what it makes of it; it may ask for files (specs/Stages). What is
//! computed of stages is right for some contents of the files, which are those that the reads answered, and those
//! that the inputs hold if they tell (specs/Running). A run ends for its reason there and leaves what it has to
//! (specs/Ending). What joined stages keep stands in specs/Laws: at most one reason to refuse, that or a value that
//! is passed, never both, and no file of a stage that is not come to.
#![tactic(auto)]

mod fetching;
mod plan;
mod stop;
mod writing;

pub use fetching::fetch;
pub use plan::{Ended, Plan};
pub use stop::Stop;
pub use writing::carry_out;
