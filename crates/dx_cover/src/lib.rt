//! Cell maps between the conclusions of rules, and the order of rules that they give.
//!
//! `cover` gives the used cell maps from one rule to another, in order and at most 16, and `Covers` those between all rules
//! of a list, with which of them are before which. All are the notions of `dx_model`'s specs/Covers.
//!
//! The search chooses for one atom after the other, and doesn't go through a state twice: how many atoms are left, and the
//! images of the variables that stand both before and among them. Where cell maps are below a state, the images of all
//! exported variables met before count too; few lists of them lead to maps, since the search ends at 16. So atoms that
//! share no variable with later ones cost no more than their number of choices. It goes no further if some atom that is left
//! can choose none of the others any more. After some dead states it looks at the atoms two by two, again and again: what
//! agrees with nothing that is left for another atom isn't left. Where the variables that they share hang together like
//! trees, it comes to no more dead states so. It is still exponential if many existential variables stand on both sides of
//! one place, in circles or with many cell maps that agree on the exported variables. It remembers at most 4096 states with
//! maps below them, and 4096 without; what is found doesn't rest on this.
#![tactic(auto)]

mod cells;
mod covers;
mod pairs;
mod partners;
mod problem;
mod search;
mod states;
mod variables;

pub use covers::Covers;
pub use dx_model::CellMap;
pub use search::cover;
pub use variables::exported;
