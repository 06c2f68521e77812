//! Query texts: what they say, and the first fault of one that says nothing.
//!
//! `read_query` is Ok exactly for the texts that say a query over a target (specs/Queries), with that query by the numbers of
//! what it names, and else answers the first fault. The grammar is specs/Grammar, over the cells and atoms of rules.
//! specs/Spelling says which tokens spell which parts, specs/Texts what a text says and its first fault as a text, specs/Naming
//! the query by numbers and the first word at fault. The laws: a text says one query or has one first fault and never both; a
//! query that is read fits its target, but for the number of its atoms.
#![tactic(auto)]

mod laws;
mod naming;
mod parts;
mod read;
mod texts;

pub use laws::{
    a_text_says_one_query, a_text_says_one_thing, read_queries_fit, texts_have_few_cells,
};
pub use read::read_query;
pub use texts::PartText;
