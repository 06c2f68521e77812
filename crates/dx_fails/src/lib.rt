//! The first key, dependency or link of a schema that an instance does not satisfy, with what shows it.
//!
//! `first_broken_key` gives the first table and determination that do not hold (a table's keys, and then its dependencies), two rows
//! that agree on its left and a column of its right in which they differ, or tells that all of them hold (`KeysHold` of `dx_model`'s
//! specs/Tables). `first_lone_row` gives the first table and link that do not hold, and a row that lacks the row that the link
//! names (specs/Shown, over specs/Firsts).
//!
//! Both go once through the rows, whatever stands in them: for a determination each row is compared with the first that has what it
//! has on the left (`Instance::firsts`), and for a link what rows have in the columns that it leads to stands once in an instance of
//! one table (`shadows`), in which a row is looked up by all its values at once.
#![tactic(auto)]

mod alone;
mod broken;
mod determining;
mod shadows;

pub use alone::{LoneRow, first_lone_row};
pub use broken::{BrokenKey, first_broken_key};
