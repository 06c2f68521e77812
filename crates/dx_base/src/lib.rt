//! What each crate stands on: texts, lists, files by name, limits.
//!
//! `Text` is its bytes and `Items` its list to their callers: each call says what it does to these. `no_number_left` is the one
//! place at which a call may answer want of memory that no allocation met. specs/Members has membership and sub-lists, of
//! which every crate speaks.
#![tactic(auto)]

mod file;
mod items;
pub mod limits;
mod numbers;
mod text;

pub use file::{Count, File, Limit};
pub use items::Items;
pub use numbers::no_number_left;
pub use text::{Text, TextMade};
