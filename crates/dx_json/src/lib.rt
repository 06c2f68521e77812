//! Documents in JSON: shredded into facts, and nested out of them.
//!
//! `shred` goes through a document as it is read, one item after the other. What is met on the way is one list (specs/Said):
//! facts, and faults with their paths. Its answer is the facts of that list if there is no fault in it, or else the first
//! fault (specs/Documents); bytes that are no JSON are told before all else, so what comes after a fault is read too. The
//! constants of the facts share one buffer. `nest` gives exactly the text of the rows of a root with the rows of its inner
//! sets (specs/Nesting), as `serde_json` prints it; `nest_sorted` is the same over an instance whose rows are printed as they
//! stand. Laws (specs/Laws): bytes say one list of facts or have one first fault, and never both; the facts of a root fit the
//! tables of its schema; a root of an instance has one nested text.
#![tactic(auto)]

mod facts;
mod fault;
mod laws;
mod members;
mod nesting;
mod numbers;
mod orders;
mod place;
mod reading;
mod shredding;
mod texts;
mod tree;

pub use facts::Facts;
pub use fault::{JsonFault, JsonKind};
pub use laws::{facts_fit, one_nested_text, one_reading};
pub use nesting::{nest, nest_sorted};
pub use shredding::shred;
