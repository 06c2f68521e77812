//! Instances, null maps, and the texts of values.
//!
//! An `Instance` has for each table a width and distinct rows of values (specs/Stored). Values stand in it as numbers:
//! `Symbols` keep each value once (specs/Numbers), tables keep rows of numbers (specs/Cells), and an instance is what the
//! symbols and the tables show together (specs/Shown). Two numbers are equal if and only if their values are, and if the
//! symbols are in order numbers compare as their values. So rows are sorted, looked up and joined by numbers, which
//! `Numbers` lends; no contract needs them.
//!
//! An instance grows row by row (`add`), or is made in bulk of `Rows` of numbers: of those of symbols (`from_rows`), or of
//! values as they are read, where one value may have several numbers (`Gathered`, `from_gathered`). Then the rows of each
//! table ascend. `sorted` gives the same rows ascending, and `into_order` them as a `Sorted`, of which it is known that the
//! symbols are in order; `map_by` gives the image under a null map (specs/Images), `with_columns`,
//! `count_with` and `firsts` find rows by values (specs/Places). A `NullMap` is a finite map of nulls of which none is listed with itself
//! (specs/NullMaps); a null that is not listed stays. `value_text` gives exactly the text of specs/ValueText, and
//! `value_read` reads it back. specs/Laws has the laws: facts of sorted tables ascend and fit a schema with their widths, the
//! pairs of a null map give what it gives, and no two values have one text; which texts no value has.
#![tactic(auto)]

mod cells;
mod chains;
mod column_index;
mod fact_order;
mod firsts;
mod gathered;
mod hints;
mod instance;
mod laws;
mod layer;
mod null_map;
mod null_merge;
mod numbers;
mod ordering;
mod packing;
mod sorted;
mod symbols;
mod table;
mod ties;
mod value_texts;
mod values;

pub use cells::Rows;
pub use dx_model::{Fact, NullId, NullPair, Row, Value, copy_value};
pub use gathered::Gathered;
pub use instance::Instance;
pub use laws::{facts_fit, no_value_texts, pairs_give, sorted_facts_ascend, value_texts_differ};
pub use null_map::NullMap;
pub use numbers::Numbers;
pub use ordering::Ordered;
pub use sorted::Sorted;
pub use symbols::Symbols;
pub use value_texts::{value_read, value_text};
