//! Whether one list of rules implies another.
//!
//! A list implies another if each two instances that satisfy each rule of the first satisfy each rule of the second (`Implies` of
//! `dx_model`'s specs/Following). `compare` tells it in both directions, and gives the first rule that is not implied, with two
//! instances that show it (specs/Comparing). Their constants are letters `v` and the number of a variable, and as few letters as
//! no literal begins with (specs/Letters). There is a limit: the canonical cells on a frozen premise. The law: two lists have a
//! comparison, unless they pass it. `same_trees` tells whether two lists of sets are one, so that their rules can be compared.
#![tactic(auto)]

mod comparing;
mod laws;
mod letters;
mod same;

pub use comparing::{Answer, Comparison, compare};
pub use laws::compared_or_past_the_limit;
pub use same::same_trees;
