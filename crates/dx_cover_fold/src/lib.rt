//! The cover fold: where the nulls of covered places go.
//!
//! `cover_fold` gives the null map of `dx_model`'s specs/Covers over matches: a null of a covered place becomes what the cover
//! fold makes of the value that its least cover gives it, and the others stay (specs/Folding). Matches stay rows of numbers
//! (`Matched`). The places that cover are found by an index of the numbers that a rule's cells say at its places, one for each
//! used cell map: two values are one if the numbers by which they are compared are (specs/Codes). The law `fold_uncovers`:
//! the image of the canonical instance under the cover fold is its uncovered part.
#![tactic(auto)]

mod covering;
mod folding;
mod found;
mod images;
mod index;
mod laws;
mod matched;
mod nulls;
mod number_at;
mod numbers_said;
mod plan;
mod rows_said;

pub use folding::cover_fold;
pub use laws::fold_uncovers;
