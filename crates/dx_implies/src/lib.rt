//! Whether a rule follows from others, and lists of rules without those that follow.
//!
//! A rule follows from others if each two instances that satisfy the others satisfy it (`Follows` of `dx_model`'s
//! specs/Following). `implied` tells it by one pair of instances: the frozen premise of the rule, whose variables are texts that
//! no literal begins with, and the canonical instance of the others on it. The rule follows exactly if this has its conclusion.
//! `refuted` tells it too, over a prefix that it is given (`Between`), and gives these two instances if the rule does not follow
//! (specs/Refuting).
//! `prune` tries the rules of a list so, from the last to the first, and drops those that follow from the others that are still there.
//! Rules with derived variables stay, and drop nothing. All three have a limit: the canonical cells on a frozen premise (specs/Frozen). The
//! laws: each list has exactly one pruned list, unless it passes the limit; what the cells are does not depend on the texts.
#![tactic(auto)]

mod asking;
mod between;
mod bounding;
mod copying;
mod freezing;
mod host;
mod implying;
mod laws;
mod nearby;
mod prefixes;
mod pruning;
mod refusing;
mod refuting;

pub use between::Between;
pub use freezing::{frozen, frozen_with};
pub use implying::implied;
pub use laws::{frozen_cells_are_one, pruned_or_past_the_limit};
pub use pruning::prune;
pub use refuting::{Refutation, refuted};
