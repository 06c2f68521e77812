//! What mapping texts of the earlier versions mean: what they meant before there were later ones.
//!
//! The law `first_version_is_plain`: a text of version 1 says no condition, and no table of its sides has an optional link or
//! a dependency. With `one_without_optional` of `dx_logical` each of its tables has one unfolding then, and with
//! `subtrees_decide_without_optional` of `dx_candidates` a candidate is dropped exactly if two subtrees suffice. The law
//! `earlier_versions_have_keys_alone`: no table of a text of version 1 or 2 has a dependency, so that keys alone determine
//! what its rows have.
#![tactic(auto)]

mod laws;

pub use laws::{earlier_versions_have_keys_alone, first_version_is_plain};
