//! Homomorphisms, by a search in reserved room.
//!
//! `Search::find` is true exactly if there is a homomorphism from facts to an instance that gives fixed nulls their values and
//! whose image lacks a fact to avoid (specs/Homs, over `IsHomomorphism` of `dx_model`). It takes no memory: the search has its
//! own stack in the room that `Search::reserve` makes, no recursion. After true `found` has a cell for each null, and
//! `Search::map` makes the null map of these cells, which is such a homomorphism. `find_left` is the same over what is left of an
//! instance from which facts are `Gone` (specs/Searching).
//!
//! A search goes fact by fact (specs/Narrowing: what was found says exactly which maps are still possible). It begins with a fact
//! that has a constant, if there is only one, or else with one of few candidates. Next comes a fact of which a null was found
//! already; if few facts are left, or many failed, one with few candidates before others, and of these the one that failed most:
//! so a fact that can't go anywhere is met at once, and not after all ways of moving others. Its places are looked for by all its
//! columns whose values are known, with the indexes that the instance has of them; without an index of a column the rows are gone
//! through.
//! A null that was found is looked up by its bucket (specs/Bound). So a search is quick if the columns are indexed and the facts
//! come so that each but the first shares a null with one before it; it is right whether or not they do.
#![tactic(auto)]

mod bindings;
mod candidates;
mod failures;
mod find;
mod goal;
mod gone;
mod matching;
mod searching;

pub use find::Search;
pub use gone::{Gone, Left};
pub use matching::Found;
